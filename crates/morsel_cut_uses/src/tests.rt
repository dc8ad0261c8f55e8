//! Worked texts, and texts cut at every place, under each kind of options.
use morsel_cut::{Cutter, HeadEnd, head_end, rows_of};
use morsel_grammar::CsvOptions;
use morsel_meaning::{Fault, Name, Why};
use std::alloc::Global;
use std::mem::drop;
use std::process::Abort;
use std::test::Fail;

mod blocks;
mod every_cut;

/// Options without a header and with an empty null text.
fn options_of(
    rt: &impl Abort,
    alloc: Global,
    separator: u8,
    quote: Option<u8>,
    eol: u8,
    comment: Option<&str>,
) -> CsvOptions {
    let comment = match comment {
        Some(prefix) => Some(Name::new(alloc, prefix).expect(rt, "memory")),
        None => None,
    };
    let null = Name::new(alloc, "").expect(rt, "memory");
    CsvOptions::new(separator, quote, eol, comment, false, null, false).expect(rt, "options")
}

/// The answers to two pieces, and to the end.
fn answers(
    rt: &impl Abort,
    options: &CsvOptions,
    first: &[u8],
    second: &[u8],
) -> (
    Result<usize, Fault>,
    Result<usize, Fault>,
    Result<(), Fault>,
) {
    assert!(rt; first.len() < 1000 && second.len() < 1000);
    let mut cutter = Cutter::new(options, 3).expect(rt, "memory");
    let one = cutter.feed(first);
    let other = cutter.feed(second);
    (one, other, cutter.finish())
}

#[test]
fn an_eol_in_quotes_ends_no_record(rt: HostRuntime) -> Result<(), Fail> {
    let options = CsvOptions::standard(rt.alloc())?;
    let got = answers(&rt, &options, b"x,\"a", b"\nb\"\r\n");
    drop(options);
    assert!(rt; got == (Ok(0), Ok(5), Ok(())));
    Ok(())
}

#[test]
fn a_broken_quote_is_refused_at_its_record_again_and_again(rt: HostRuntime) -> Result<(), Fail> {
    let options = CsvOptions::standard(rt.alloc())?;
    let got = answers(&rt, &options, b"\xEF\xBB\xBFa\n\"b\"c\n", b"d\n");
    drop(options);
    let fault = Fault::Malformed { file: 3, at: 5 };
    let again = Fault::Malformed { file: 3, at: 5 };
    let still = Fault::Malformed { file: 3, at: 5 };
    assert!(rt; got == (Err(fault), Err(again), Err(still)));
    Ok(())
}

#[test]
fn an_open_quote_is_refused_at_the_end(rt: HostRuntime) -> Result<(), Fail> {
    let options = CsvOptions::standard(rt.alloc())?;
    let got = answers(&rt, &options, b"a\nb,\"", b"\n\n");
    drop(options);
    assert!(rt; got == (Ok(2), Ok(0), Err(Fault::Malformed { file: 3, at: 2 })));
    Ok(())
}

#[test]
fn a_mark_that_is_cut_is_a_mark(rt: HostRuntime) -> Result<(), Fail> {
    let options = CsvOptions::standard(rt.alloc())?;
    let got = answers(&rt, &options, b"\xEF", b"\xBB\xBF\"a\"\n");
    drop(options);
    assert!(rt; got == (Ok(0), Ok(6), Ok(())));
    Ok(())
}

#[test]
fn a_mark_alone_ends_no_record(rt: HostRuntime) -> Result<(), Fail> {
    let options = CsvOptions::standard(rt.alloc())?;
    let got = answers(&rt, &options, b"\xEF\xBB", b"\xBF");
    drop(options);
    assert!(rt; got == (Ok(0), Ok(0), Ok(())));
    Ok(())
}

#[test]
fn a_comment_may_begin_with_the_quote(rt: HostRuntime) {
    let options = options_of(&rt, rt.alloc(), b',', Some(b'"'), b'\n', Some("\"#"));
    let got = answers(&rt, &options, b"\"", b"#\"x\n\"\n");
    drop(options);
    assert!(rt; got == (Ok(0), Ok(4), Err(Fault::Malformed { file: 3, at: 5 })));
}

#[test]
fn a_prefix_may_be_longer_than_a_piece(rt: HostRuntime) {
    let options = options_of(&rt, rt.alloc(), b',', Some(b'"'), b'\n', Some("#!##"));
    let got = answers(&rt, &options, b"#!", b"##,\"\n#!\"\n");
    drop(options);
    assert!(rt; got == (Ok(0), Ok(9), Ok(())));
}

#[test]
fn two_bytes_of_a_mark_and_another_are_a_field(rt: HostRuntime) -> Result<(), Fail> {
    let options = CsvOptions::standard(rt.alloc())?;
    let got = answers(&rt, &options, b"\xEF\xBB", b"\"a\n");
    drop(options);
    assert!(rt; got == (Ok(0), Ok(3), Ok(())));
    Ok(())
}

#[test]
fn a_comment_may_follow_the_mark(rt: HostRuntime) {
    let options = options_of(&rt, rt.alloc(), b',', Some(b'"'), b'\n', Some("#"));
    let got = answers(&rt, &options, b"\xEF\xBB\xBF#", b"\"\na\n\"");
    drop(options);
    assert!(rt; got == (Ok(0), Ok(4), Err(Fault::Malformed { file: 3, at: 8 })));
}

#[test]
fn a_record_may_become_a_comment_after_a_broken_quote(rt: HostRuntime) {
    let options = options_of(&rt, rt.alloc(), b',', Some(b'"'), b'\n', Some("\"ab\"cd"));
    let got = answers(&rt, &options, b"\"ab\"c", b"d\"\n");
    drop(options);
    assert!(rt; got == (Ok(0), Ok(3), Ok(())));
}

#[test]
fn a_record_that_is_not_all_of_the_prefix_is_refused(rt: HostRuntime) {
    let options = options_of(&rt, rt.alloc(), b',', Some(b'"'), b'\n', Some("\"ab\"cd"));
    let got = answers(&rt, &options, b"\"ab\"c", b"e\n");
    drop(options);
    let fault = Fault::Malformed { file: 3, at: 0 };
    let again = Fault::Malformed { file: 3, at: 0 };
    assert!(rt; got == (Ok(0), Err(fault), Err(again)));
}

#[test]
fn options_that_contradict_each_other_are_refused(rt: HostRuntime) -> Result<(), Fail> {
    let null = Name::new(rt.alloc(), "")?;
    let got = CsvOptions::new(10, None, 11, None, false, null, false);
    assert!(rt;
        matches!(
            got,
            Err(Fault::InvalidQuery {
                why: Why::ParseBytes
            })
        )
    );
    drop(got);
    Ok(())
}

#[test]
fn blank_lines_are_rows_of_one_column_alone(rt: HostRuntime) -> Result<(), Fail> {
    let options = CsvOptions::standard(rt.alloc())?;
    let text = b"a\n\nb\r\n\r\n\"c\nd\"\n\"\"";
    let got = (rows_of(text, 1, &options), rows_of(text, 2, &options));
    drop(options);
    assert_eq!(rt; got, (6, 4));
    Ok(())
}

#[test]
fn comments_are_no_rows(rt: HostRuntime) {
    let options = options_of(&rt, rt.alloc(), b',', Some(b'"'), b'\n', Some("\"#"));
    let got = rows_of(b"\"#a\n\"\"\n\"#", 1, &options);
    drop(options);
    assert_eq!(rt; got, 1);
}

#[test]
fn a_header_follows_comments_and_blank_lines(rt: HostRuntime) {
    let options = options_of(&rt, rt.alloc(), b',', Some(b'"'), b'\n', Some("#"));
    let got = head_end(b"\n#c\n\r\nid,x\n1,2\n", &options);
    drop(options);
    assert_eq!(rt;
        got,
        HeadEnd {
            len: 11,
            awaits_header: false
        }
    );
}

#[test]
fn a_header_may_be_still_to_come(rt: HostRuntime) {
    let options = options_of(&rt, rt.alloc(), b',', Some(b'"'), b'\n', Some("#"));
    let got = head_end(b"\n#c\n", &options);
    drop(options);
    assert_eq!(rt;
        got,
        HeadEnd {
            len: 4,
            awaits_header: true
        }
    );
}

/// Lines of two fields each, and after so many of them a line of this text.
fn lines_with(rt: &impl Abort, alloc: Global, count: usize, at: usize, other: &[u8]) -> Vec<u8> {
    let mut text = Vec::new(alloc);
    for line in 0..count {
        if line == at {
            text.extend_from_slice(other).expect(rt, "memory");
        }
        text.extend_from_slice(b"ab,c\r\n").expect(rt, "memory");
    }
    text
}

/// A line of this text among 1,000 others gives so many rows of one column and of two.
fn counts(rt: &impl Abort, alloc: Global, at: usize, other: &[u8], one: usize, two: usize) {
    let options = CsvOptions::standard(alloc).expect(rt, "memory");
    let text = lines_with(rt, alloc, 1000, at, other);
    let got = (
        rows_of(text.as_slice(), 1, &options),
        rows_of(text.as_slice(), 2, &options),
    );
    drop(text);
    drop(options);
    assert_eq!(rt; got, (one, two), "at {at}");
}

#[test]
fn many_lines_are_counted(rt: HostRuntime) {
    for step in 0..100 {
        let at = step * 7;
        counts(&rt, rt.alloc(), at, b"", 1000, 1000);
        counts(&rt, rt.alloc(), at, b"\n", 1001, 1000);
        counts(&rt, rt.alloc(), at, b"\r\n", 1001, 1000);
        counts(&rt, rt.alloc(), at, b"\r,\n", 1001, 1001);
        counts(&rt, rt.alloc(), at, b"\"\n\n\"\n", 1001, 1001);
    }
}
