//! Frames and faults, as these tests write them.
use morsel_frame::{Cell, Frame};
use morsel_meaning::Fault;
use std::alloc::Global;
use std::mem::drop;
use std::process::Abort;

/// One value.
fn show(text: &mut String, cell: Cell<'_>) -> Result<(), Fault> {
    match cell {
        Cell::Null => text.push_str("null")?,
        Cell::Int(number) => write!(text, "{number}")?,
        Cell::Bool(flag) => write!(text, "{flag}")?,
        Cell::Text(name) => write!(text, "<{name}>")?,
    }
    Ok(())
}

/// A row: values with spaces between, and a `|` after the last.
fn show_row(text: &mut String, frame: &Frame, row: usize) -> Result<(), Fault> {
    for at in 0..frame.width() {
        if at > 0 {
            text.push_str(" ")?;
        }
        let column = frame.column(at);
        if row < column.len() {
            show(text, column.get(row))?;
        }
    }
    text.push_str("|")?;
    Ok(())
}

/// The names of the columns, and then the rows.
fn show_frame(text: &mut String, frame: &Frame) -> Result<(), Fault> {
    for field in frame.schema().fields() {
        text.push_str(field.name.as_str())?;
        text.push_str(" ")?;
    }
    text.push_str("|")?;
    for row in 0..frame.height() {
        show_row(text, frame, row)?;
    }
    Ok(())
}

/// The frame, or the fault's text.
fn show_result(text: &mut String, answer: &Result<Frame, Fault>) -> Result<(), Fault> {
    match answer {
        Ok(frame) => show_frame(text, frame),
        Err(fault) => {
            write!(text, "{fault}")?;
            Ok(())
        }
    }
}

/// The answer is written so.
pub fn is_shown(rt: &impl Abort, alloc: Global, answer: Result<Frame, Fault>, wanted: &str) {
    let mut found = String::new(alloc);
    show_result(&mut found, &answer).expect(rt, "memory");
    drop(answer);
    assert_eq!(rt; found.as_str(), wanted);
    drop(found);
}

/// The fault is written so.
pub fn is_told(rt: &impl Abort, alloc: Global, fault: &Fault, wanted: &str) {
    let mut found = String::new(alloc);
    write!(found, "{fault}").expect(rt, "memory");
    assert_eq!(rt; found.as_str(), wanted);
    drop(found);
}
