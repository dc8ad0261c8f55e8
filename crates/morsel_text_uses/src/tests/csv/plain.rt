//! Both readers over every short text of the bytes that the rules of CSV name: of up to six of them under standard options,
//! and of up to five under each kind of options.
use super::dialects::{
    COUNTS as COUNTS_OF_SEVEN, DIALECTS, Dialect, options_of, write_text as write_text_of,
};
use crate::tests::schema_of;
use morsel_frame::{Frame, Schema};
use morsel_grammar::CsvOptions;
use morsel_meaning::{ColType, Fault};
use morsel_text::{read_records, read_records_plainly};
use std::alloc::Global;
use std::mem::drop;
use std::process::Abort;

/// A letter, a digit, the separator, the quote, the line feed and the return.
const ALPHABET: [u8; 6] = *b"a1,\"\n\r";

/// How many texts there are of each length up to six bytes.
const COUNTS: [usize; 7] = [1, 6, 36, 216, 1296, 7776, 46656];

/// The place where the texts begin.
const PLACE: u64 = 7;

/// Puts the text of this number among those of a length into the buffer.
fn write_text(text: &mut Vec<u8>, number: usize, len: usize) -> Result<(), Fault> {
    text.clear();
    let mut left = number;
    for _ in 0..len {
        text.push(ALPHABET[left % 6])?;
        left /= 6;
    }
    Ok(())
}

/// Two frames have the same rows.
fn same_rows(rt: &impl Abort, a: &Frame, b: &Frame) {
    assert_eq!(rt; a.height(), b.height());
    assert_eq!(rt; a.width(), b.width());
    for at in 0..a.width() {
        let (column, other) = (a.column(at), b.column(at));
        for row in 0..a.height() {
            if row < column.len() && row < other.len() {
                assert_eq!(rt; column.get(row), other.get(row));
            }
        }
    }
}

/// The rows, and whether the header is still to come; or why there are none.
type Answer = Result<(Frame, bool), Fault>;

/// Both answers have the same rows, or the same fault with its place.
fn same_answers(rt: &impl Abort, a: &Answer, b: &Answer) {
    match (a, b) {
        (Ok((rows, still)), Ok((plain, other))) => {
            assert_eq!(rt; still, other);
            same_rows(rt, rows, plain);
        }
        (Err(fault), Err(plain)) => assert_eq!(rt; fault, plain),
        _ => assert!(rt; false, "one reader refuses"),
    }
}

/// Both readers answer the same.
pub fn agree(
    rt: &impl Abort,
    alloc: Global,
    text: &[u8],
    schema: &Schema,
    used: &[bool],
    head: bool,
    options: &CsvOptions,
) {
    assert!(rt; text.len() < 1000 && used.len() == schema.len());
    let read = read_records(alloc, text, PLACE, 3, schema, used, head, options);
    let plain = read_records_plainly(alloc, text, PLACE, 3, schema, used, head, options);
    same_answers(rt, &read, &plain);
    drop(read);
    drop(plain);
}

/// Both readers agree of every text of this length.
fn agree_of_length(
    rt: &impl Abort,
    alloc: Global,
    len: usize,
    count: usize,
    schema: &Schema,
    head: bool,
    options: &CsvOptions,
) {
    let used = vec![in alloc; true; schema.len()].expect(rt, "memory");
    let mut text = Vec::new(alloc);
    for number in 0..count {
        write_text(&mut text, number, len).expect(rt, "memory");
        agree(
            rt,
            alloc,
            text.as_slice(),
            schema,
            used.as_slice(),
            head,
            options,
        );
    }
    drop(text);
    drop(used);
}

/// Both readers agree of every text of up to six bytes.
fn agree_up_to_six(rt: &impl Abort, alloc: Global, columns: &[(&str, ColType)], head: bool) {
    let schema = schema_of(rt, alloc, columns);
    let options = CsvOptions::standard(alloc).expect(rt, "memory");
    for (len, count) in COUNTS.iter().enumerate() {
        agree_of_length(rt, alloc, len, *count, &schema, head, &options);
    }
    drop(options);
    drop(schema);
}

/// Both readers agree of every text of this length and kind.
fn agree_of_kind(
    rt: &impl Abort,
    alloc: Global,
    dialect: &Dialect,
    len: usize,
    count: usize,
    schema: &Schema,
    head: bool,
    options: &CsvOptions,
) {
    let used = vec![in alloc; true; schema.len()].expect(rt, "memory");
    let mut text = Vec::new(alloc);
    for number in 0..count {
        write_text_of(&mut text, dialect, number, len).expect(rt, "memory");
        agree(
            rt,
            alloc,
            text.as_slice(),
            schema,
            used.as_slice(),
            head,
            options,
        );
    }
    drop(text);
    drop(used);
}

/// Both readers agree of every text of up to five bytes of this kind.
fn agree_of_dialect(
    rt: &impl Abort,
    alloc: Global,
    dialect: &Dialect,
    columns: &[(&str, ColType)],
    head: bool,
) {
    let schema = schema_of(rt, alloc, columns);
    let options = options_of(rt, alloc, dialect);
    for (len, count) in COUNTS_OF_SEVEN.iter().enumerate() {
        agree_of_kind(rt, alloc, dialect, len, *count, &schema, head, &options);
    }
    drop(options);
    drop(schema);
}

/// Both readers agree under each kind of options. Says how many kinds that were.
fn agree_of_all_kinds(
    rt: &impl Abort,
    alloc: Global,
    columns: &[(&str, ColType)],
    head: bool,
) -> usize {
    let mut kinds: usize = 0;
    for dialect in &DIALECTS {
        agree_of_dialect(rt, alloc, dialect, columns, head);
        kinds = kinds.saturating_add(1);
    }
    kinds
}

/// One number.
const ONE: &[(&str, ColType)] = &[("c0", ColType::Int)];

/// A text and a number.
const TWO: &[(&str, ColType)] = &[("c0", ColType::Text), ("c1", ColType::Int)];

#[test]
fn both_readers_agree_of_one_column_after_a_header(rt: HostRuntime) {
    agree_up_to_six(&rt, rt.alloc(), ONE, true);
    assert_eq!(rt; agree_of_all_kinds(&rt, rt.alloc(), ONE, true), 11);
}

#[test]
fn both_readers_agree_of_one_column_without_a_header(rt: HostRuntime) {
    agree_up_to_six(&rt, rt.alloc(), ONE, false);
    assert_eq!(rt; agree_of_all_kinds(&rt, rt.alloc(), ONE, false), 11);
}

#[test]
fn both_readers_agree_of_two_columns_after_a_header(rt: HostRuntime) {
    agree_up_to_six(&rt, rt.alloc(), TWO, true);
    assert_eq!(rt; agree_of_all_kinds(&rt, rt.alloc(), TWO, true), 11);
}

#[test]
fn both_readers_agree_of_two_columns_without_a_header(rt: HostRuntime) {
    agree_up_to_six(&rt, rt.alloc(), TWO, false);
    assert_eq!(rt; agree_of_all_kinds(&rt, rt.alloc(), TWO, false), 11);
}
