//! Why words are no command.

use morsel_query_reasons::{Unsaid, kind_of, show, show_name, write_nearest};
use std::alloc::Global;

/// The commands that there are.
const COMMANDS: [&str; 4] = ["local", "scan", "--help", "--version"];

/// Puts last why the words are no command.
pub fn write_usage(alloc: Global, out: &mut String, words: &[String]) -> Result<(), Unsaid> {
    let Some(verb) = words.first() else {
        out.push_str("no command: local, scan, --help or --version; words are UTF-8")?;
        return Ok(());
    };
    match verb.as_str() {
        "local" => out.push_str("local takes QUERY and OUT")?,
        "scan" => write_scan_words(alloc, out, words)?,
        "--help" | "--version" => {
            show(out, verb.as_bytes())?;
            out.push_str(" takes no more words")?;
        }
        other => {
            show_name(out, other)?;
            out.push_str(" is no command: ")?;
            write_nearest(alloc, out, other, &COMMANDS)?;
        }
    }
    Ok(())
}

/// Puts last what is wrong with the words of `scan`.
fn write_scan_words(alloc: Global, out: &mut String, words: &[String]) -> Result<(), Unsaid> {
    match words {
        [_, _, schema, _] => write_schema(alloc, out, schema.as_str()),
        _ => {
            out.push_str("scan takes FILE, SCHEMA and OUT")?;
            Ok(())
        }
    }
}

/// Puts last what is wrong with a SCHEMA.
fn write_schema(alloc: Global, out: &mut String, schema: &str) -> Result<(), Unsaid> {
    let mut names = Vec::new(alloc);
    let mut number: usize = 0;
    for part in schema.split(',') {
        number = number.saturating_add(1);
        match part.split_once(':') {
            Some((name, word)) if kind_of(word).is_some() && !name.is_empty() => names.push(name)?,
            _ => return write_part(out, part, number),
        }
    }
    names.sort()?;
    write_repeated(out, names.as_slice())
}

/// Puts last what is wrong with a part of a SCHEMA.
fn write_part(out: &mut String, part: &str, number: usize) -> Result<(), Unsaid> {
    out.push_str("SCHEMA: ")?;
    match part.split_once(':') {
        Some((name, _)) if name.is_empty() => write!(out, "column {number} has no name")?,
        Some((_, word)) => {
            show_name(out, word)?;
            out.push_str(" is no type: int, bool or text")?;
        }
        None if part.is_empty() => write!(out, "column {number} is empty")?,
        None => {
            show_name(out, part)?;
            out.push_str(" has no type, as name:type")?;
        }
    }
    Ok(())
}

/// Puts last which of these names, in their order, is there twice.
fn write_repeated(out: &mut String, names: &[&str]) -> Result<(), Unsaid> {
    let mut before: Option<&str> = None;
    for name in names {
        if before == Some(*name) {
            out.push_str("SCHEMA: two columns are named ")?;
            show(out, name.as_bytes())?;
            return Ok(());
        }
        before = Some(*name);
    }
    Ok(())
}
