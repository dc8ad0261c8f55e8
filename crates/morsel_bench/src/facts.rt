//! A CSV text like the one that the program is timed on: an id, two numbers and a name, of which one in ten is quoted.
use morsel_frame::Schema;
use morsel_meaning::{ColType, Fault, Field, Name};
use morsel_timing::Numbers;
use std::alloc::Global;

/// The names of the columns and their types.
const COLUMNS: [(&str, ColType); 4] = [
    ("id", ColType::Int),
    ("g", ColType::Int),
    ("v", ColType::Int),
    ("name", ColType::Text),
];

/// The schema of the text.
pub fn facts_schema(alloc: Global) -> Result<Schema, Fault> {
    let mut fields = Vec::new(alloc);
    for (name, kind) in &COLUMNS {
        let name = Name::new(alloc, name)?;
        fields.push(Field { name, kind: *kind })?;
    }
    Schema::new(alloc, fields)
}

/// Puts a name: of a hundred, five have a comma, three a quote and two a line feed.
fn put_name(text: &mut String, drawn: u64) -> Result<(), Fault> {
    let number = drawn % 100000;
    match drawn % 100 {
        0..=4 => write!(text, "\"n{number}, m\"")?,
        5..=7 => write!(text, "\"n{number}\"\"m\"")?,
        8..=9 => write!(text, "\"n{number}\nm\"")?,
        _ => write!(text, "name{number}")?,
    }
    Ok(())
}

/// Puts a row; of a hundred, seven have no value.
fn put_row(text: &mut String, id: usize, drawn: u64) -> Result<(), Fault> {
    let group = drawn % 11000;
    if drawn % 97 < 7 {
        write!(text, "{id},{group},,")?;
    } else {
        let value = drawn % 1101;
        write!(text, "{id},{group},{value},")?;
    }
    put_name(text, drawn / 11000)?;
    text.push_str("\n")?;
    Ok(())
}

/// So many rows, without a header.
pub fn facts_text(alloc: Global, rows: usize) -> Result<String, Fault> {
    let mut numbers = Numbers::new();
    let mut text = String::new(alloc);
    for id in 0..rows {
        put_row(&mut text, id, numbers.next())?;
    }
    Ok(text)
}
