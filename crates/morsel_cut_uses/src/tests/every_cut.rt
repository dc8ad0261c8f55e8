//! Every text of up to five bytes that the rules of CSV name, cut at every place: two pieces answer as the whole text, and have
//! as many rows.
use super::{answers, options_of};
use morsel_cut::rows_of;
use morsel_grammar::CsvOptions;
use morsel_meaning::Fault;
use std::alloc::Global;
use std::mem::drop;
use std::process::Abort;

/// A letter, the separator, the quote, both line ends and the byte of a prefix.
const ALPHABET: [u8; 6] = *b"a,\"\n\r#";

/// How many texts there are of each length up to five bytes.
const COUNTS: [usize; 6] = [1, 6, 36, 216, 1296, 7776];

/// Puts the text of this number among those of a length into the buffer.
fn write_text(rt: &impl Abort, text: &mut Vec<u8>, number: usize, len: usize) {
    text.clear();
    let mut left = number;
    for _ in 0..len {
        text.push(ALPHABET[left % 6]).expect(rt, "memory");
        left /= 6;
    }
}

/// What is left of two answers, as one.
fn joined(
    rt: &impl Abort,
    first: Result<usize, Fault>,
    len: usize,
    second: Result<usize, Fault>,
) -> Result<usize, Fault> {
    let Ok(before) = first else {
        return first;
    };
    let Ok(later) = second else {
        return second;
    };
    assert!(rt; len < 1000 && later < 1000);
    if later == 0 {
        Ok(before)
    } else {
        Ok(len + later)
    }
}

/// The rows of a text that may end are those up to a place where it may be cut, and those after it.
fn same_rows(rt: &impl Abort, options: &CsvOptions, text: &[u8], columns: usize, cut: usize) {
    assert!(rt; cut <= text.len());
    let whole = rows_of(text, columns, options);
    let front = rows_of(&text[..cut], columns, options);
    let back = rows_of(&text[cut..], columns, options);
    assert!(rt; front < 1000 && back < 1000);
    assert_eq!(rt; whole, front + back);
}

/// A text that is cut at a place is answered as it is whole.
pub fn agree(rt: &impl Abort, options: &CsvOptions, text: &[u8], at: usize) {
    assert!(rt; at <= text.len());
    let (whole, _, end) = answers(rt, options, text, b"");
    if let (Ok(cut), Ok(())) = (&whole, &end) {
        same_rows(rt, options, text, 1, *cut);
        same_rows(rt, options, text, 2, *cut);
    }
    let (first, second, other) = answers(rt, options, &text[..at], &text[at..]);
    assert!(rt; joined(rt, first, at, second) == whole);
    assert!(rt; other == end);
}

/// Every text of this length agrees, wherever it is cut.
fn agree_of_length(
    rt: &impl Abort,
    options: &CsvOptions,
    text: &mut Vec<u8>,
    len: usize,
    count: usize,
) {
    for number in 0..count {
        write_text(rt, text, number, len);
        for at in 0..len {
            agree(rt, options, text.as_slice(), at);
        }
    }
}

/// Every text of up to five bytes agrees, wherever it is cut.
fn agree_up_to_five(rt: &impl Abort, alloc: Global, options: &CsvOptions) {
    let mut text = Vec::new(alloc);
    for (len, count) in COUNTS.iter().enumerate() {
        agree_of_length(rt, options, &mut text, len, *count);
    }
    drop(text);
}

/// The same under these options.
fn agree_under(
    rt: &impl Abort,
    alloc: Global,
    separator: u8,
    quote: Option<u8>,
    eol: u8,
    comment: Option<&str>,
) {
    let options = options_of(rt, alloc, separator, quote, eol, comment);
    agree_up_to_five(rt, alloc, &options);
    drop(options);
}

#[test]
fn two_pieces_answer_as_the_whole_text(rt: HostRuntime) {
    agree_under(&rt, rt.alloc(), b',', Some(b'"'), b'\n', None);
    agree_under(&rt, rt.alloc(), b',', None, b'\n', None);
    agree_under(&rt, rt.alloc(), b'#', Some(b'"'), b'a', None);
    agree_under(&rt, rt.alloc(), b',', Some(b'"'), b'\r', None);
}

#[test]
fn two_pieces_answer_as_the_whole_text_with_comments(rt: HostRuntime) {
    agree_under(&rt, rt.alloc(), b',', Some(b'"'), b'\n', Some("#"));
    agree_under(&rt, rt.alloc(), b',', Some(b'"'), b'\n', Some("\"#"));
    agree_under(&rt, rt.alloc(), b',', Some(b'"'), b'\n', Some("a,\""));
    agree_under(&rt, rt.alloc(), b',', None, b'\r', Some("\n#"));
}
