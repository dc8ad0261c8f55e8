//! Texts with the rows that they have, or the place of the record that is refused, worked out by hand.
mod dialects;
mod long;
mod pieces;
mod plain;

use super::schema_of;
use morsel_frame::{Cell, Frame, Schema};
use morsel_grammar::CsvOptions;
use morsel_meaning::{ColType, ComputeKind, Fault};
use morsel_text::{place_of_row, read_records};
use std::alloc::Global;
use std::mem::drop;
use std::process::Abort;

/// The number that faults give to the file.
const FILE: u32 = 3;

/// A number and a text.
const PAIR: &[(&str, ColType)] = &[("c0", ColType::Int), ("c1", ColType::Text)];

/// One text.
const TEXT: &[(&str, ColType)] = &[("c0", ColType::Text)];

/// A truth value and a number.
const FLAG: &[(&str, ColType)] = &[("c0", ColType::Bool), ("c1", ColType::Int)];

/// Two numbers.
const NUMBERS: &[(&str, ColType)] = &[("c0", ColType::Int), ("c1", ColType::Int)];

/// One value as these tests write it.
fn show(text: &mut String, cell: Cell<'_>) -> Result<(), Fault> {
    match cell {
        Cell::Null => text.push_str("null")?,
        Cell::Int(number) => write!(text, "{number}")?,
        Cell::Bool(flag) => write!(text, "{flag}")?,
        Cell::Text(name) => write!(text, "<{name}>")?,
    }
    Ok(())
}

/// A row as these tests write it: values with spaces between, and a `|` after the last.
fn show_row(text: &mut String, frame: &Frame, row: usize) -> Result<(), Fault> {
    for at in 0..frame.width() {
        if at > 0 {
            text.push_str(" ")?;
        }
        let column = frame.column(at);
        if row < column.len() {
            show(text, column.get(row))?;
        }
    }
    text.push_str("|")?;
    Ok(())
}

/// The rows, and a `+` after them where the header is still to come.
fn show_rows(text: &mut String, frame: &Frame, awaits_header: bool) -> Result<(), Fault> {
    for row in 0..frame.height() {
        show_row(text, frame, row)?;
    }
    if awaits_header {
        text.push_str("+")?;
    }
    Ok(())
}

/// A text that begins at place 100, read with standard options.
fn read_under(
    rt: &impl Abort,
    alloc: Global,
    text: &[u8],
    schema: &Schema,
    used: &[bool],
    head: bool,
) -> Result<(Frame, bool), Fault> {
    let options = CsvOptions::standard(alloc).expect(rt, "memory");
    assert!(rt; text.len() < 1000 && used.len() == schema.len());
    let read = read_records(alloc, text, 100, FILE, schema, used, head, &options);
    drop(options);
    read
}

/// The same under these columns.
fn read(
    rt: &impl Abort,
    alloc: Global,
    text: &[u8],
    columns: &[(&str, ColType)],
    used: &[bool],
    head: bool,
) -> Result<(Frame, bool), Fault> {
    let schema = schema_of(rt, alloc, columns);
    let read = read_under(rt, alloc, text, &schema, used, head);
    drop(schema);
    read
}

/// The rows are written so.
fn are_shown(rt: &impl Abort, alloc: Global, frame: &Frame, awaits_header: bool, rows: &str) {
    let mut found = String::new(alloc);
    show_rows(&mut found, frame, awaits_header).expect(rt, "memory");
    assert_eq!(rt; found.as_str(), rows);
    drop(found);
}

/// The text has these rows under columns of which some are used.
fn reads(
    rt: &impl Abort,
    alloc: Global,
    text: &[u8],
    columns: &[(&str, ColType)],
    used: &[bool],
    head: bool,
    rows: &str,
) {
    let (frame, awaits_header) = read(rt, alloc, text, columns, used, head).expect(rt, "rows");
    are_shown(rt, alloc, &frame, awaits_header, rows);
    drop(frame);
}

/// The text, which begins with its header, has these rows under a number and a text.
fn gives(rt: &impl Abort, alloc: Global, text: &[u8], rows: &str) {
    reads(rt, alloc, text, PAIR, &[true, true], true, rows);
}

/// Each text of the table gives its rows.
fn all_give(rt: &impl Abort, alloc: Global, table: &[(&[u8], &str)]) {
    for (text, rows) in table {
        gives(rt, alloc, text, rows);
    }
}

/// The text, which begins with its header, is refused by this fault.
fn refused(rt: &impl Abort, alloc: Global, text: &[u8], wanted: Fault) {
    let fault = read(rt, alloc, text, PAIR, &[true, true], true).expect_err(rt, "a refusal");
    assert_eq!(rt; fault, wanted);
    drop(fault);
    drop(wanted);
}

/// The record at this place is outside the grammar.
fn malformed(rt: &impl Abort, alloc: Global, text: &[u8], at: u64) {
    refused(rt, alloc, text, Fault::Malformed { file: FILE, at });
}

/// The record at this place has a field that cannot be computed, for this reason.
fn not_computed(rt: &impl Abort, alloc: Global, text: &[u8], kind: ComputeKind, at: u64) {
    refused(
        rt,
        alloc,
        text,
        Fault::ComputeError {
            kind,
            file: FILE,
            at,
        },
    );
}

/// A text, its columns, which of them are used, whether its header is still to come, and its rows.
type Read = (
    &'static [u8],
    &'static [(&'static str, ColType)],
    &'static [bool],
    bool,
    &'static str,
);

/// Each text of the table has its rows.
fn all_are_read(rt: &impl Abort, alloc: Global, table: &[Read]) {
    for (text, columns, used, head, rows) in table {
        reads(rt, alloc, text, columns, used, *head, rows);
    }
}

/// Records after their header, the last with or without a line feed.
const RECORDS: &[(&[u8], &str)] = &[
    (b"id,name\n1,ann\n-2,+b c\n", "1 <ann>|-2 <+b c>|"),
    (b"id,name\n+7,x", "7 <x>|"),
    (
        b"a,b,c,d\n9223372036854775807,\n",
        "9223372036854775807 null|",
    ),
    (b"id,name\n", ""),
    (b"", "+"),
];

#[test]
fn records_are_rows_after_the_header(rt: HostRuntime) {
    all_give(&rt, rt.alloc(), RECORDS);
}

/// Records that end before and after the sixty-fourth byte.
const LENGTHS: &[(&[u8], &str)] = &[(
    b"id,name\n1,ann\r\n2,\n3,\"b,c\"\n4,a text that goes on for so long that its record ends far behind the sixty-fourth byte\n5,e\n",
    "1 <ann>|2 null|3 <b,c>|4 <a text that goes on for so long that its record ends far behind the sixty-fourth byte>|5 <e>|",
)];

#[test]
fn short_and_long_records_are_rows(rt: HostRuntime) {
    all_give(&rt, rt.alloc(), LENGTHS);
}

/// Returns before a line feed, and others.
const RETURNS: &[(&[u8], &str)] = &[
    (b"id,name\r\n1,ann\r\n2,\"b\"\r\n", "1 <ann>|2 <b>|"),
    (b"id,name\n1,a\rb\r\r\n", "1 <a\rb\r>|"),
    (b"id,name\n1,\"a\r\nb\r\"\n", "1 <a\r\nb\r>|"),
    (b"id,name\n1,a\r", "1 <a>|"),
];

#[test]
fn a_return_before_a_line_feed_is_no_content(rt: HostRuntime) {
    all_give(&rt, rt.alloc(), RETURNS);
}

/// Quotes around a field, within it, and none.
const QUOTES: &[(&[u8], &str)] = &[
    (b"id,name\n1,\"b,c\"\n", "1 <b,c>|"),
    (b"id,name\n1,\"a\nb\"\n2,c\n", "1 <a\nb>|2 <c>|"),
    (b"id,name\n1,\"a\"\"b\"\n", "1 <a\"b>|"),
    (b"id,name\n1,\"\"\"\"\n", "1 <\">|"),
    (b"id,name\n\"1\",a\"b\n", "1 <a\"b>|"),
    (b"id,name\n1,\"\"\n2,\n", "1 <>|2 null|"),
    (
        b"id,name\n1,a field of more than sixteen bytes\n",
        "1 <a field of more than sixteen bytes>|",
    ),
];

#[test]
fn quotes_hold_separators_line_feeds_and_doubled_quotes(rt: HostRuntime) {
    all_give(&rt, rt.alloc(), QUOTES);
}

/// Empty records under one column.
const EMPTY: &[Read] = &[
    (
        b"\n\nid,name\n\n1,a\n\r\n",
        PAIR,
        &[true, true],
        true,
        "1 <a>|",
    ),
    (b"name\n\nx\n", TEXT, &[true], true, "null|<x>|"),
    (b"\n\"\"\n", TEXT, &[true], false, "null|<>|"),
    (b"\n\n", TEXT, &[false], true, "+"),
    (b"\n\n", TEXT, &[false], false, "||"),
];

#[test]
fn empty_records_are_rows_of_one_column_alone(rt: HostRuntime) {
    all_are_read(&rt, rt.alloc(), EMPTY);
}

/// Fields of each type, used and unused.
const TYPED: &[Read] = &[
    (
        b"True,-0\nFALSE,007\n",
        FLAG,
        &[true, true],
        false,
        "true 0|false 7|",
    ),
    (b"yes,5\n", FLAG, &[false, true], false, "5|"),
    (b"true,x\n", FLAG, &[true, false], false, "true|"),
];

#[test]
fn fields_say_what_their_type_asks(rt: HostRuntime) {
    all_are_read(&rt, rt.alloc(), TYPED);
}

/// Numbers of each length.
const DIGITS: &[Read] = &[(
    b"123456789012345678,9223372036854775807\n-9223372036854775808,+00000000000000000000042\n",
    NUMBERS,
    &[true, true],
    false,
    "123456789012345678 9223372036854775807|-9223372036854775808 42|",
)];

#[test]
fn numbers_are_read_whatever_their_length(rt: HostRuntime) {
    all_are_read(&rt, rt.alloc(), DIGITS);
}

/// Texts with the place of the record that is outside the grammar.
const MALFORMED: &[(&[u8], u64)] = &[
    (b"id,name\n1,\"ann", 108),
    (b"id,name\n1,a\n2\n", 112),
    (b"id,name\n1,a\n2,b,c\n", 112),
    (b"id,name\n1,\"a\"b\n", 108),
    (b"id,name\n1,a\n2,\"b\n\",c\nx,d\n", 112),
];

/// Texts with the place of the record that is no UTF-8.
const NO_UTF8: &[(&[u8], u64)] = &[(b"id,name\n1,a\n\n2,\xff\n", 113), (b"id,\xff\n", 100)];

/// Texts with the place of the record of which a field is not of its type.
const ILL_TYPED: &[(&[u8], u64)] = &[
    (b"id,name\nx,a\n", 108),
    (b"id,name\n9223372036854775808,a\n", 108),
    (b"id,name\n\"\",a\n", 108),
];

#[test]
fn a_record_that_is_refused_has_its_place(rt: HostRuntime) {
    for (text, at) in MALFORMED {
        malformed(&rt, rt.alloc(), text, *at);
    }
    for (text, at) in NO_UTF8 {
        not_computed(&rt, rt.alloc(), text, ComputeKind::NotUtf8, *at);
    }
    for (text, at) in ILL_TYPED {
        not_computed(&rt, rt.alloc(), text, ComputeKind::IllTyped, *at);
    }
}

/// A text of three rows and a record that is none.
const PLACED: &[u8] = b"id,name\n1,a\n\n2,\"b\n\"\nx,c\n4\n";

/// Under this schema the row of the text, which begins at place 100 with its header, has this place.
fn is_placed(rt: &impl Abort, alloc: Global, schema: &Schema, row: usize, at: Option<u64>) {
    let options = CsvOptions::standard(alloc).expect(rt, "memory");
    assert!(rt; PLACED.len() < 1000);
    let found = place_of_row(alloc, PLACED, 100, schema, true, &options, row);
    drop(options);
    assert_eq!(rt; found, Ok(at), "row {row}");
}

#[test]
fn a_row_has_its_records_place(rt: HostRuntime) {
    let schema = schema_of(&rt, rt.alloc(), PAIR);
    is_placed(&rt, rt.alloc(), &schema, 0, Some(108));
    is_placed(&rt, rt.alloc(), &schema, 1, Some(113));
    is_placed(&rt, rt.alloc(), &schema, 2, Some(120));
    is_placed(&rt, rt.alloc(), &schema, 3, None);
    drop(schema);
}
