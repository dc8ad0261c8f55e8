//! The ends of fields and the rows between them, by hand and as a machine tells them that takes one byte after the other.
use morsel_grammar::CsvOptions;
use morsel_marks::{mark_fields, mark_rows};
use morsel_meaning::{Fault, Name};
use std::alloc::Global;
use std::mem::drop;
use std::process::Abort;
use std::test::Fail;

mod by_hand;
mod every_text;

/// Options without a header and with an empty null text.
fn options_of(
    rt: &impl Abort,
    alloc: Global,
    separator: u8,
    quote: Option<u8>,
    eol: u8,
    comment: Option<&str>,
) -> CsvOptions {
    let comment = match comment {
        Some(prefix) => Some(Name::new(alloc, prefix).expect(rt, "memory")),
        None => None,
    };
    let null = Name::new(alloc, "").expect(rt, "memory");
    CsvOptions::new(separator, quote, eol, comment, false, null, false).expect(rt, "options")
}

/// The rows of so many fields that a text is.
fn rows_of(
    rt: &impl Abort,
    options: &CsvOptions,
    text: &[u8],
    width: usize,
    places: &mut Vec<u32>,
) -> Option<usize> {
    assert!(rt; text.len() < 100000 && width > 0);
    mark_rows(text, options, width, places).expect(rt, "memory")
}

/// The ends of the fields of a text, in front of the places.
fn ends_of(
    rt: &impl Abort,
    options: &CsvOptions,
    text: &[u8],
    places: &mut Vec<u32>,
) -> Option<usize> {
    assert!(rt; text.len() < 100000);
    mark_fields(text, options, places).expect(rt, "memory")
}

#[test]
fn the_ends_stand_outside_quotes(rt: HostRuntime) {
    let options = options_of(&rt, rt.alloc(), b',', Some(b'"'), b'\n', None);
    let mut places = Vec::new(rt.alloc());
    let count = ends_of(&rt, &options, b"a,\"b,\"\"\nc\"\r\n,\n", &mut places);
    drop(options);
    assert!(rt; count == Some(4) && places.len() >= 4);
    assert!(rt; places[0] == 1 && places[1] == 11 && places[2] == 12 && places[3] == 13);
    drop(places);
}

#[test]
fn rows_are_counted_where_each_has_its_fields(rt: HostRuntime) {
    let options = options_of(&rt, rt.alloc(), b',', Some(b'"'), b'\n', None);
    let mut places = Vec::new(rt.alloc());
    let two = rows_of(&rt, &options, b"a,b\r\n\"c\n,\",\"\"\n,\n", 2, &mut places);
    let one = rows_of(&rt, &options, b"a\n\n\"\"\n", 1, &mut places);
    let none = rows_of(&rt, &options, b"", 3, &mut places);
    drop(places);
    drop(options);
    assert!(rt; two == Some(3) && one == Some(3) && none == Some(0));
}

#[test]
fn other_texts_are_no_rows(rt: HostRuntime) {
    let options = options_of(&rt, rt.alloc(), b',', Some(b'"'), b'\n', None);
    let mut places = Vec::new(rt.alloc());
    let short = rows_of(&rt, &options, b"a,b\nc\n", 2, &mut places);
    let long = rows_of(&rt, &options, b"a,b\nc,d,e\n", 2, &mut places);
    let shifted = rows_of(&rt, &options, b"a\nb,c,d\n", 2, &mut places);
    let open = rows_of(&rt, &options, b"a,b\nc,d", 2, &mut places);
    let quoted = rows_of(&rt, &options, b"a,b\nc,\"d\n", 2, &mut places);
    drop(places);
    drop(options);
    assert!(rt; short == None && long == None && shifted == None && open == None);
    assert!(rt; quoted == None);
}

#[test]
fn a_text_with_comments_is_no_rows(rt: HostRuntime) {
    let options = options_of(&rt, rt.alloc(), b',', Some(b'"'), b'\n', Some("#"));
    let mut places = Vec::new(rt.alloc());
    let rows = rows_of(&rt, &options, b"a,b\n", 2, &mut places);
    let ends = ends_of(&rt, &options, b"a,b\n", &mut places);
    drop(places);
    drop(options);
    assert!(rt; rows == None && ends == Some(2));
}

#[test]
fn quotes_are_bytes_where_there_are_none(rt: HostRuntime) {
    let options = options_of(&rt, rt.alloc(), b';', None, b'|', None);
    let mut places = Vec::new(rt.alloc());
    let rows = rows_of(&rt, &options, b"\"a;b|\"\"c;\n|", 2, &mut places);
    drop(places);
    drop(options);
    assert!(rt; rows == Some(2));
}
