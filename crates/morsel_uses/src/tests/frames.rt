//! Frames: each public call once with ample memory, on small tables.
use super::{column_of, has};
use morsel_frame::Cell::{self, Int};
use morsel_frame::{Frame, Schema};
use morsel_meaning::{ColType, Fault, Field, Name};
use std::alloc::Global;
use std::mem::drop;
use std::process::Abort;

fn name_of(rt: &impl Abort, alloc: Global, name: &str) -> Name {
    Name::new(alloc, name).expect(rt, "memory")
}

/// A frame of one column of numbers.
fn frame_of(rt: &impl Abort, alloc: Global, name: &str, numbers: &[i64]) -> Frame {
    let column = column_of(rt, alloc, numbers);
    let height = column.len();
    let name = name_of(rt, alloc, name);
    let kind = ColType::Int;
    let fields = vec![in alloc; Field { name, kind }].expect(rt, "memory");
    let schema = Schema::new(alloc, fields).expect(rt, "one name");
    let columns = vec![in alloc; column].expect(rt, "memory");
    Frame::new(alloc, schema, columns, height)
}

/// A frame of a = 1, 2, 3.
fn worked(rt: &impl Abort, alloc: Global) -> Frame {
    frame_of(rt, alloc, "a", &[1, 2, 3])
}

/// The frame has a column of this name at this place, with these values.
fn has_column(rt: &impl Abort, frame: &Frame, at: usize, name: &str, values: &[Cell<'_>]) {
    assert_eq!(rt; frame.schema().find(name), Some(at));
    assert!(rt; at < frame.width());
    has(rt, frame.column(at), values);
}

/// The frame has one column of this name, with these values.
fn is(rt: &impl Abort, frame: Frame, name: &str, values: &[Cell<'_>]) {
    assert_eq!(rt; frame.width(), 1);
    has_column(rt, &frame, 0, name, values);
    drop(frame);
}

/// The frame has two columns of these names, with these values.
fn is_pair(rt: &impl Abort, frame: Frame, first: (&str, &[Cell<'_>]), second: (&str, &[Cell<'_>])) {
    assert_eq!(rt; frame.width(), 2);
    has_column(rt, &frame, 0, first.0, first.1);
    has_column(rt, &frame, 1, second.0, second.1);
    drop(frame);
}

fn sliced(rt: &impl Abort, alloc: Global, frame: Frame, offset: usize, len: usize) -> Frame {
    let slice = frame.slice(alloc, offset, len).expect(rt, "memory");
    drop(frame);
    slice
}

#[test]
fn a_slice_has_the_rows_that_exist(rt: HostRuntime) {
    let frame = worked(&rt, rt.alloc());
    is(
        &rt,
        sliced(&rt, rt.alloc(), frame, 1, 5),
        "a",
        &[Int(2), Int(3)],
    );
}

/// Puts the other's rows below, where both are short.
fn put_below(rt: &impl Abort, frame: &mut Frame, other: &Frame) -> Result<(), Fault> {
    assert!(rt; frame.height() < 10 && other.height() < 10);
    frame.vstack(other)
}

#[test]
fn a_frame_is_put_below_itself(rt: HostRuntime) {
    let mut frame = worked(&rt, rt.alloc());
    let other = worked(&rt, rt.alloc());
    put_below(&rt, &mut frame, &other).expect(&rt, "memory");
    drop(other);
    is(
        &rt,
        frame,
        "a",
        &[Int(1), Int(2), Int(3), Int(1), Int(2), Int(3)],
    );
}

/// The number of a fault, and the name that a mismatch or a repeat gives.
fn told(fault: &Fault) -> (u8, &str) {
    let name = match fault {
        Fault::SchemaMismatch { name } => name.as_str(),
        Fault::Duplicate { name } => name.as_str(),
        _ => "",
    };
    (fault.number(), name)
}

#[test]
fn another_name_is_a_mismatch_of_the_own(rt: HostRuntime) {
    let mut frame = worked(&rt, rt.alloc());
    let other = frame_of(&rt, rt.alloc(), "b", &[4]);
    let fault = put_below(&rt, &mut frame, &other).expect_err(&rt, "a mismatch");
    assert_eq!(rt; told(&fault), (8, "a"));
    drop(fault);
    drop(other);
    is(&rt, frame, "a", &[Int(1), Int(2), Int(3)]);
}

fn split(rt: &impl Abort, alloc: Global, frame: Frame, at: usize) -> (Frame, Frame) {
    assert!(rt; at <= frame.height());
    frame.split_at(alloc, at).expect(rt, "memory")
}

#[test]
fn a_split_frame_has_the_rows_before_and_after(rt: HostRuntime) {
    let frame = worked(&rt, rt.alloc());
    let (front, back) = split(&rt, rt.alloc(), frame, 1);
    is(&rt, front, "a", &[Int(1)]);
    is(&rt, back, "a", &[Int(2), Int(3)]);
}

fn gathered(rt: &impl Abort, alloc: Global, frame: &Frame, rows: &[usize]) -> Frame {
    let height = frame.height();
    assert!(rt; rows.iter().all(|row| *row < height));
    frame.gather(alloc, rows).expect(rt, "memory")
}

#[test]
fn gathered_rows_come_in_the_order_asked(rt: HostRuntime) {
    let frame = worked(&rt, rt.alloc());
    let rows = gathered(&rt, rt.alloc(), &frame, &[2, 0]);
    drop(frame);
    is(&rt, rows, "a", &[Int(3), Int(1)]);
}

/// Two frames of one height side by side, or why not.
fn beside(rt: &impl Abort, alloc: Global, frame: Frame, other: Frame) -> Result<Frame, Fault> {
    assert_eq!(rt; frame.height(), other.height());
    frame.hstack(alloc, other)
}

#[test]
fn a_frame_beside_itself_repeats_a_name(rt: HostRuntime) {
    let frame = worked(&rt, rt.alloc());
    let other = worked(&rt, rt.alloc());
    let fault = beside(&rt, rt.alloc(), frame, other).expect_err(&rt, "a repeat");
    assert_eq!(rt; told(&fault), (9, "a"));
    drop(fault);
}

#[test]
fn columns_of_other_names_are_put_beside(rt: HostRuntime) {
    let frame = worked(&rt, rt.alloc());
    let other = frame_of(&rt, rt.alloc(), "b", &[4, 5, 6]);
    let both = beside(&rt, rt.alloc(), frame, other).expect(&rt, "memory");
    is_pair(
        &rt,
        both,
        ("a", &[Int(1), Int(2), Int(3)]),
        ("b", &[Int(4), Int(5), Int(6)]),
    );
}

/// The worked frame with a row index, or why not.
fn indexed(rt: &impl Abort, alloc: Global, name: &str, offset: u32) -> Result<Frame, Fault> {
    let name = name_of(rt, alloc, name);
    worked(rt, alloc).with_row_index(alloc, name, offset)
}

#[test]
fn a_row_index_counts_from_its_offset(rt: HostRuntime) {
    let frame = indexed(&rt, rt.alloc(), "i", 7).expect(&rt, "memory");
    is_pair(
        &rt,
        frame,
        ("i", &[Int(7), Int(8), Int(9)]),
        ("a", &[Int(1), Int(2), Int(3)]),
    );
}

#[test]
fn a_row_index_of_a_name_that_is_there_is_a_duplicate(rt: HostRuntime) {
    let fault = indexed(&rt, rt.alloc(), "a", 0).expect_err(&rt, "a repeat");
    assert_eq!(rt; told(&fault), (9, "a"));
    drop(fault);
}

#[test]
fn a_row_index_past_32_bits_is_refused(rt: HostRuntime) {
    let fault = indexed(&rt, rt.alloc(), "i", 4294967293).expect_err(&rt, "a refusal");
    assert_eq!(rt; told(&fault), (10, ""));
    drop(fault);
}

/// The worked frame with a column of one text.
fn marked(rt: &impl Abort, alloc: Global, name: &str, text: &str) -> Frame {
    let name = name_of(rt, alloc, name);
    let frame = worked(rt, alloc);
    frame
        .with_text_column(alloc, name, text)
        .expect(rt, "memory")
}

#[test]
fn a_text_column_has_its_text_in_each_row(rt: HostRuntime) {
    let frame = marked(&rt, rt.alloc(), "p", "f");
    assert_eq!(rt; frame.width(), 2);
    let text = Cell::Text("f");
    has(&rt, frame.column(1), &[text, text, text]);
    drop(frame);
}

fn selects_nothing(rt: &impl Abort, alloc: Global, frame: Frame) -> Frame {
    frame.select(alloc, &[]).expect(rt, "memory")
}

#[test]
fn no_columns_leave_the_height(rt: HostRuntime) {
    let frame = worked(&rt, rt.alloc());
    let frame = selects_nothing(&rt, rt.alloc(), frame);
    assert_eq!(rt; frame.height(), 3);
    assert_eq!(rt; frame.width(), 0);
    drop(frame);
}

/// A frame of a = 1, 2, 3, of b = 4, 5, 6 and of c = 7, 8, 9.
fn three_columns(rt: &impl Abort, alloc: Global) -> Frame {
    let first = worked(rt, alloc);
    let second = frame_of(rt, alloc, "b", &[4, 5, 6]);
    let third = frame_of(rt, alloc, "c", &[7, 8, 9]);
    let both = beside(rt, alloc, first, second).expect(rt, "memory");
    beside(rt, alloc, both, third).expect(rt, "memory")
}

/// The third column, and then the first.
fn selects_two(rt: &impl Abort, alloc: Global, frame: Frame) -> Frame {
    assert_eq!(rt; frame.width(), 3);
    frame.select(alloc, &[2, 0]).expect(rt, "memory")
}

#[test]
fn selected_columns_come_in_the_order_asked(rt: HostRuntime) {
    let frame = three_columns(&rt, rt.alloc());
    let selected = selects_two(&rt, rt.alloc(), frame);
    is_pair(
        &rt,
        selected,
        ("c", &[Int(7), Int(8), Int(9)]),
        ("a", &[Int(1), Int(2), Int(3)]),
    );
}
