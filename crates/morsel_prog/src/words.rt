//! The words of the command line, read by hand.
ghost use Rattle.std.specs.Prelude.{◌≡◌, ◌<◌, ◌+◌, Some, None, length, take, drop, slice_index, map, IfSome, IsUtf8, MatchOption};
ghost use Rattle.std.specs.String.{string_bytes};
ghost use Rattle.morsel_prog.specs.Words.{option_text, cut_at, parts_at, kind_named, field_of, fields_of, schema_if, schema_of, scan_if, command_of};
ghost use Rattle.morsel_prog.specs.Results.{Finds, items_of, command_seen};

use memchr::memchr;
use morsel_frame::Schema;
use morsel_meaning::{ColType, Fault, Field, Name};
use std::alloc::Global;

/// The place of the first such byte.
fn first(text: &str, byte: u8) -> Option<usize>
    ensures within { IfSome result (λ at. (at < length text.now) × (slice_index text.now at ≡ byte)) }
    ensures cut { MatchOption result (cut_at byte text.now ≡ (text.now, None)) (λ at. cut_at byte text.now ≡ (take at text.now, Some (drop (at + 1) text.now))) }
{
    memchr(byte, text.as_bytes())
}

/// The text before the first such byte, which is ASCII, and what follows it.
#[tactic(auto, using(std::proofs::lemmas::Str::lead_after_ascii))]
fn cut(text: &str, byte: u8) -> (&str, Option<&str>)
    requires { byte < 128 }
    ensures cut { cut_at byte text.now ≡ (result.0.now, option_text result.1) }
    ensures rest { IfSome result.1 (λ rest. IsUtf8 rest.now) }
    ensures shorter { IfSome result.1 (λ rest. length rest.now < length text.now) }
{
    match first(text, byte) {
        Some(at) => (&text[..at], Some(&text[at + 1..])),
        None => (text, None),
    }
}

fn kind_of(text: &str) -> Option<ColType>
    ensures { result ≡ kind_named text.now }
{
    match text {
        "int" => Some(ColType::Int),
        "bool" => Some(ColType::Bool),
        "text" => Some(ColType::Text),
        _ => None,
    }
}

/// The field of `name:type`.
fn field(alloc: Global, part: &str) -> Result<Field, Fault>
    ensures { Finds (field_of part.now) result }
{
    let (name, kind) = cut(part, b':');
    let Some(kind) = kind else {
        return Err(Fault::Usage);
    };
    let Some(kind) = kind_of(kind) else {
        return Err(Fault::Usage);
    };
    if name.is_empty() {
        return Err(Fault::Usage);
    }
    let name = Name::new(alloc, name)?;
    Ok(Field { name, kind })
}

/// The fields of a schema's text: `name:type` joined by commas.
fn fields(alloc: Global, text: &str) -> Result<Vec<Field>, Fault>
    ensures { Finds (fields_of (parts_at 44 text.now)) (items_of result) }
{
    let mut fields = Vec::new(alloc);
    let mut rest = text;
    'parts: loop {
        let (part, behind) = cut(rest, b',');
        match field(alloc, part) {
            Ok(field) => fields.push(field)?,
            Err(fault) => return Err(fault),
        }
        match behind {
            Some(more) => rest = more,
            None => return Ok(fields),
        }
    }
}

/// A command, as its words have it.
#[derive(Drop)]
pub enum CommandWords<'a> {
    /// `scan FILE SCHEMA OUT`: one CSV file is scanned into one NDJSON file.
    Scan {
        /// The name of the file to read.
        file: &'a str,
        /// Its columns.
        schema: Schema,
        /// The name of the file to write.
        out: &'a str,
    },
    /// `local QUERY OUT`: the query in a file is answered.
    Local {
        /// The name of the query file.
        query: &'a str,
        /// The name of the file to write.
        out: &'a str,
    },
}

/// The schema of these fields, where their names are distinct.
fn schema_of_fields(alloc: Global, fields: Vec<Field>) -> Result<Schema, Fault>
    ensures { Finds (schema_if (Some fields.items)) result }
{
    match Schema::new(alloc, fields) {
        Ok(schema) => Ok(schema),
        Err(Fault::OutOfMemory) => Err(Fault::OutOfMemory),
        Err(_) => Err(Fault::Usage),
    }
}

/// The schema of a text: `name:type` joined by commas, the names distinct.
fn schema(alloc: Global, text: &str) -> Result<Schema, Fault>
    ensures { Finds (schema_of text.now) result }
{
    match fields(alloc, text) {
        Ok(fields) => schema_of_fields(alloc, fields),
        Err(fault) => Err(fault),
    }
}

/// The command of `scan` with these words.
fn scan_command<'a>(
    alloc: Global,
    file: &'a str,
    columns: &str,
    out: &'a str,
) -> Result<CommandWords<'a>, Fault>
    ensures { Finds (scan_if file.now (schema_of columns.now) out.now) (command_seen result) }
{
    match schema(alloc, columns) {
        Ok(schema) => Ok(CommandWords::Scan { file, schema, out }),
        Err(fault) => Err(fault),
    }
}

/// The command of the words: `Usage` where they are none.
pub fn command(alloc: Global, words: &[String]) -> Result<CommandWords<'_>, Fault>
    ensures { Finds (command_of (map string_bytes words.now)) (command_seen result) }
{
    match words {
        [verb, query, out] if verb.as_str() == "local" => Ok(CommandWords::Local {
            query: query.as_str(),
            out: out.as_str(),
        }),
        [verb, file, columns, out] if verb.as_str() == "scan" => {
            scan_command(alloc, file.as_str(), columns.as_str(), out.as_str())
        }
        _ => Err(Fault::Usage),
    }
}
