//! Texts of more than 64 bytes, with a telling one about the end of the first 64: cut, they are answered as whole, and they have
//! as many rows as by hand.
use super::every_cut::agree;
use super::{answers, options_of};
use morsel_cut::rows_of;
use morsel_grammar::CsvOptions;
use morsel_meaning::Fault;
use std::alloc::Global;
use std::mem::drop;
use std::process::Abort;

/// The lines after the telling text.
const LINES: usize = 40;

/// A line of so many letters, the telling text, and lines of four bytes.
fn write_text(rt: &impl Abort, text: &mut Vec<u8>, letters: usize, telling: &[u8]) {
    text.clear();
    for _ in 0..letters {
        text.push(b'a').expect(rt, "memory");
    }
    text.extend_from_slice(b"\n").expect(rt, "memory");
    text.extend_from_slice(telling).expect(rt, "memory");
    for _ in 0..LINES {
        text.extend_from_slice(b"b,c\n").expect(rt, "memory");
    }
}

/// The text has so many rows of one column and of two, and is answered as whole where it is cut after its first bytes, so that
/// other 64 bytes are taken at once.
fn is_counted(
    rt: &impl Abort,
    options: &CsvOptions,
    text: &[u8],
    telling: &[u8],
    one: usize,
    two: usize,
) {
    assert_eq!(rt; rows_of(text, 1, options), one, "{telling:?}");
    assert_eq!(rt; rows_of(text, 2, options), two, "{telling:?}");
    for at in 0..8 {
        agree(rt, options, text, at);
    }
}

/// So it is after lines of forty letters to seventy.
fn all_counted(rt: &impl Abort, alloc: Global, telling: &[u8], one: usize, two: usize) {
    let options = CsvOptions::standard(alloc).expect(rt, "memory");
    let mut text = Vec::new(alloc);
    for letters in 40..70 {
        write_text(rt, &mut text, letters, telling);
        is_counted(rt, &options, text.as_slice(), telling, one, two);
    }
    drop(text);
    drop(options);
}

#[test]
fn quotes_are_told_where_64_bytes_end_among_them(rt: HostRuntime) {
    all_counted(&rt, rt.alloc(), b"\"x\n\ny\"\n", 42, 42);
    all_counted(&rt, rt.alloc(), b"\"a\"\"\n\"\n", 42, 42);
    all_counted(&rt, rt.alloc(), b"\"\",\"\"\n", 42, 42);
    all_counted(&rt, rt.alloc(), b"\"a\"\r\n", 42, 42);
    all_counted(&rt, rt.alloc(), b"x\"y\n", 42, 42);
}

#[test]
fn blank_lines_are_told_where_64_bytes_end_among_them(rt: HostRuntime) {
    all_counted(&rt, rt.alloc(), b"\n", 42, 41);
    all_counted(&rt, rt.alloc(), b"\r\n", 42, 41);
    all_counted(&rt, rt.alloc(), b"\r,\n", 42, 42);
}

/// The record after a line of so many letters is refused.
fn is_refused(rt: &impl Abort, options: &CsvOptions, text: &[u8], at: usize) {
    let (fed, again, end) = answers(rt, options, text, b"");
    let fault = Err(Fault::Malformed {
        file: 3,
        at: at as u64,
    });
    assert!(rt; fed == fault && again == fault);
    assert!(rt; end.is_err());
}

#[test]
fn text_after_a_closing_quote_is_refused_wherever_64_bytes_end(rt: HostRuntime) {
    let options = options_of(&rt, rt.alloc(), b',', Some(b'"'), b'\n', None);
    let mut text = Vec::new(rt.alloc());
    for letters in 40..70 {
        write_text(&rt, &mut text, letters, b"\"a\"b\n");
        is_refused(&rt, &options, text.as_slice(), letters + 1);
    }
    drop(text);
    drop(options);
}
