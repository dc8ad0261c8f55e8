//! A program that reads each text of a table as a query, and compares what comes of it with what the table says.
#![tactic(auto)]

use morsel_meaning::Fault;
use morsel_query::check;
use morsel_query_text::query_of;
use serde_json::Value;
use std::alloc::Global;
use std::fs::Files;
use std::io::ErrorKind;
use std::rt::Env;
use std::{env, fs, io};

/// What comes of a text that is read as a query and checked.
fn read_and_check(alloc: Global, text: &str) -> Result<(), Fault> {
    let tree = match Value::from_str(alloc, text) {
        Ok(tree) => tree,
        Err(_) => return Err(Fault::QueryText),
    };
    let (query, _options) = query_of(alloc, &tree, "out.ndjson")?;
    check(alloc, &query)
}

/// The same in words.
fn answer_of(alloc: Global, text: &str) -> Result<String, Fault> {
    match read_and_check(alloc, text) {
        Ok(()) => Ok(String::from_str(alloc, "ok")?),
        Err(fault) => Ok(format!(in alloc; "{fault}")?),
    }
}

/// The text of a row of the table under a key; no text where there is none.
fn text_of<'t>(row: &'t Value, key: &str) -> &'t str {
    match row.get(key) {
        Some(text) => text.as_str().unwrap_or(""),
        None => "",
    }
}

/// Prints a row whose answer is another than the table says, and tells whether it is.
fn try_row<R: Print + AllocGlobal>(rt: &R, row: &Value) -> io::Result<bool> {
    let Ok(answer) = answer_of(rt.alloc(), text_of(row, "text")) else {
        return Err(io::Error::from(ErrorKind::OutOfMemory));
    };
    let wanted = text_of(row, "answer");
    if answer.as_str() == wanted {
        return Ok(false);
    }
    let shows = text_of(row, "shows");
    println!(rt; "{shows}: {answer} in place of {wanted}")?;
    Ok(true)
}

/// Tries each row of the table, and prints how many there are and how many differ.
fn try_table<R: Print + AllocGlobal>(rt: &R, table: &Value) -> io::Result<()> {
    let Some(rows) = table.as_array() else {
        return Err(io::Error::from(ErrorKind::InvalidData));
    };
    let mut wrong: u64 = 0;
    for row in rows {
        if try_row(rt, row)? {
            wrong = wrong.saturating_add(1);
        }
    }
    let len = rows.len();
    println!(rt; "{len} texts, {wrong} of them with another answer")
}

/// The text of the file that the first word names.
fn table_text<R: Files + Env + AllocGlobal>(rt: &R) -> io::Result<String> {
    let mut words = env::args(rt)?;
    let _program = words.next();
    match words.next() {
        Some(name) => fs::read_to_string(rt, name.as_str()),
        None => Err(io::Error::from(ErrorKind::InvalidInput)),
    }
}

fn main(rt: HostRuntime) -> io::Result<()> {
    let text = table_text(&rt)?;
    match Value::from_str(rt.alloc(), text.as_str()) {
        Ok(table) => try_table(&rt, &table),
        Err(_) => Err(io::Error::from(ErrorKind::InvalidData)),
    }
}
