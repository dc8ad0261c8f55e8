//! The lines of NDJSON, compared with those that RFC 8259 asks for.
ghost use Rattle.std.specs.Prelude.{◌≡◌};

use morsel_frame::{Column, Frame, Schema};
use morsel_meaning::{ColType, Fault, Field, Name};
use morsel_ndjson::write_ndjson;
use std::alloc::Global;
use std::mem::drop;
use std::process::Abort;

/// A frame of one column.
pub fn one_column(rt: &impl Abort, alloc: Global, name: &str, column: Column) -> Frame {
    let name = Name::new(alloc, name).expect(rt, "memory");
    let kind = column.kind();
    let height = column.len();
    let fields = vec![in alloc; Field { name, kind }].expect(rt, "memory");
    let schema = Schema::new(alloc, fields).expect(rt, "one name");
    let columns = vec![in alloc; column].expect(rt, "memory");
    Frame::new(alloc, schema, columns, height)
}

/// The lines of the frame are these.
pub fn has_lines(rt: &impl Abort, alloc: Global, frame: Frame, wanted: &[u8]) {
    let mut out = Vec::new(alloc);
    write_ndjson(&mut out, &frame).expect(rt, "memory");
    drop(frame);
    assert_eq!(rt; out.as_slice(), wanted);
    drop(out);
}

fn put_both(column: &mut Column, text: &str, longer: &str) -> Result<(), Fault>
    requires { column.old.kind ≡ ColType.Text }
{
    column.push_text(text)?;
    column.push_text(longer)
}

/// Two texts.
fn both(rt: &impl Abort, alloc: Global, text: &str, longer: &str) -> Column {
    let mut column = Column::new(alloc, ColType::Text);
    put_both(&mut column, text, longer).expect(rt, "memory");
    column
}

/// A text, and in a second row a longer one around it.
fn around(rt: &impl Abort, alloc: Global, text: &str) -> Column {
    let longer = format!(in alloc; "before the 16th byte and after it {text} more").expect(
        rt, "memory",
    );
    let column = both(rt, alloc, text, longer.as_str());
    drop(longer);
    column
}

/// The text is escaped so between quotes: in a short and in a longer value, and as a name.
fn is_escaped(rt: &impl Abort, alloc: Global, text: &str, escape: &str) {
    let frame = one_column(rt, alloc, text, around(rt, alloc, text));
    let wanted = format!(in alloc;
        "{{\"{escape}\":\"{escape}\"}}\n{{\"{escape}\":\"before the 16th byte and after it {escape} more\"}}\n"
    ).expect(rt, "memory");
    has_lines(rt, alloc, frame, wanted.as_bytes());
    drop(wanted);
}

/// The bytes below a blank, each with its escape.
const CONTROLS: &[(&str, &str)] = &[
    ("\u{0}", "\\u0000"),
    ("\u{1}", "\\u0001"),
    ("\u{2}", "\\u0002"),
    ("\u{3}", "\\u0003"),
    ("\u{4}", "\\u0004"),
    ("\u{5}", "\\u0005"),
    ("\u{6}", "\\u0006"),
    ("\u{7}", "\\u0007"),
    ("\u{8}", "\\b"),
    ("\t", "\\t"),
    ("\n", "\\n"),
    ("\u{b}", "\\u000b"),
    ("\u{c}", "\\f"),
    ("\r", "\\r"),
    ("\u{e}", "\\u000e"),
    ("\u{f}", "\\u000f"),
    ("\u{10}", "\\u0010"),
    ("\u{11}", "\\u0011"),
    ("\u{12}", "\\u0012"),
    ("\u{13}", "\\u0013"),
    ("\u{14}", "\\u0014"),
    ("\u{15}", "\\u0015"),
    ("\u{16}", "\\u0016"),
    ("\u{17}", "\\u0017"),
    ("\u{18}", "\\u0018"),
    ("\u{19}", "\\u0019"),
    ("\u{1a}", "\\u001a"),
    ("\u{1b}", "\\u001b"),
    ("\u{1c}", "\\u001c"),
    ("\u{1d}", "\\u001d"),
    ("\u{1e}", "\\u001e"),
    ("\u{1f}", "\\u001f"),
];

/// Texts from a blank on: the quote and the backslash have escapes, and the others stay.
const OTHERS: &[(&str, &str)] = &[
    ("\"", "\\\""),
    ("\\", "\\\\"),
    (" ", " "),
    ("/", "/"),
    ("\u{7f}", "\u{7f}"),
    ("é", "é"),
    ("", ""),
];

#[test]
fn bytes_below_a_blank_are_escaped(rt: HostRuntime) {
    for (text, escape) in CONTROLS {
        is_escaped(&rt, rt.alloc(), text, escape);
    }
}

#[test]
fn quotes_and_backslashes_are_escaped_and_nothing_else(rt: HostRuntime) {
    for (text, escape) in OTHERS {
        is_escaped(&rt, rt.alloc(), text, escape);
    }
}

fn put_numbers(column: &mut Column) -> Result<(), Fault>
    requires { column.old.kind ≡ ColType.Int }
    ensures { column.new.kind ≡ column.old.kind }
{
    column.push_int(i64::MIN)?;
    column.push_int(i64::MAX)?;
    column.push_null()
}

fn put_flags(column: &mut Column) -> Result<(), Fault>
    requires { column.old.kind ≡ ColType.Bool }
    ensures { column.new.kind ≡ column.old.kind }
{
    column.push_bool(true)?;
    column.push_null()?;
    column.push_bool(false)
}

fn put_texts(column: &mut Column) -> Result<(), Fault>
    requires { column.old.kind ≡ ColType.Text }
    ensures { column.new.kind ≡ column.old.kind }
{
    column.push_null()?;
    column.push_text("null")?;
    column.push_text("")
}

/// Three values of each type, one of them null.
fn column_of(rt: &impl Abort, alloc: Global, kind: ColType) -> Column {
    let mut column = Column::new(alloc, kind);
    match kind {
        ColType::Int => put_numbers(&mut column).expect(rt, "memory"),
        ColType::Bool => put_flags(&mut column).expect(rt, "memory"),
        ColType::Text => put_texts(&mut column).expect(rt, "memory"),
    }
    column
}

/// A frame of one such column.
fn frame_of(rt: &impl Abort, alloc: Global, name: &str, kind: ColType) -> Frame {
    one_column(rt, alloc, name, column_of(rt, alloc, kind))
}

/// Two frames of one height side by side.
fn beside(rt: &impl Abort, alloc: Global, frame: Frame, other: Frame) -> Frame {
    assert_eq!(rt; frame.height(), other.height());
    frame.hstack(alloc, other).expect(rt, "memory")
}

#[test]
fn values_and_members_are_written_as_asked(rt: HostRuntime) {
    let first = frame_of(&rt, rt.alloc(), "n", ColType::Int);
    let second = frame_of(&rt, rt.alloc(), "", ColType::Bool);
    let third = frame_of(&rt, rt.alloc(), "a longer name", ColType::Text);
    let both = beside(&rt, rt.alloc(), first, second);
    let frame = beside(&rt, rt.alloc(), both, third);
    has_lines(
        &rt,
        rt.alloc(),
        frame,
        b"{\"n\":-9223372036854775808,\"\":true,\"a longer name\":null}
{\"n\":9223372036854775807,\"\":null,\"a longer name\":\"null\"}
{\"n\":null,\"\":false,\"a longer name\":\"\"}
",
    );
}

#[test]
fn lines_are_put_after_what_was_there(rt: HostRuntime) {
    let frame = frame_of(&rt, rt.alloc(), "b", ColType::Bool);
    let mut out = b"before\n".to_vec(rt.alloc()).expect(&rt, "memory");
    write_ndjson(&mut out, &frame).expect(&rt, "memory");
    drop(frame);
    assert_eq!(rt;
        out.as_slice(),
        b"before\n{\"b\":true}\n{\"b\":null}\n{\"b\":false}\n".as_slice()
    );
    drop(out);
}

fn number_of(rt: &impl Abort, alloc: Global, number: i64) -> Column {
    let mut column = Column::new(alloc, ColType::Int);
    column.push_int(number).expect(rt, "memory");
    column
}

/// The number is written as this text.
fn is_written(rt: &impl Abort, alloc: Global, number: i64, text: &str) {
    let frame = one_column(rt, alloc, "n", number_of(rt, alloc, number));
    let wanted = format!(in alloc; "{{\"n\":{text}}}\n").expect(rt, "memory");
    has_lines(rt, alloc, frame, wanted.as_bytes());
    drop(wanted);
}

/// Numbers of each length that is written in a way of its own, with their digits.
const NUMBERS: &[(i64, &str)] = &[
    (0, "0"),
    (9, "9"),
    (-10, "-10"),
    (100, "100"),
    (-1234, "-1234"),
    (99999, "99999"),
    (100000, "100000"),
    (-9999999999, "-9999999999"),
    (10000000000, "10000000000"),
    (999999999999999, "999999999999999"),
    (-1000000000000000, "-1000000000000000"),
    (1234567890123456789, "1234567890123456789"),
];

#[test]
fn numbers_are_written_by_their_digits(rt: HostRuntime) {
    for (number, text) in NUMBERS {
        is_written(&rt, rt.alloc(), *number, text);
    }
}

#[test]
fn no_rows_have_no_lines(rt: HostRuntime) {
    let column = Column::new(rt.alloc(), ColType::Int);
    let frame = one_column(&rt, rt.alloc(), "n", column);
    has_lines(&rt, rt.alloc(), frame, b"");
}

/// Rows without columns.
fn bare(rt: &impl Abort, alloc: Global, height: usize) -> Frame {
    let schema = Schema::new(alloc, Vec::new(alloc)).expect(rt, "memory");
    Frame::new(alloc, schema, Vec::new(alloc), height)
}

#[test]
fn rows_without_columns_are_empty_objects(rt: HostRuntime) {
    let frame = bare(&rt, rt.alloc(), 2);
    has_lines(&rt, rt.alloc(), frame, b"{}\n{}\n");
}
