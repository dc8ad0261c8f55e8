//! The reason of an answer: from the words and the line that was printed.

use crate::headers::write_header;
use crate::spots::{Spot, write_spot};
use crate::told::{Told, told_of};
use crate::usage::write_usage;
use morsel_file_lines::{bytes_from, open};
use morsel_outside::Io;
use morsel_query_reasons::{
    Unsaid, queried, scanned, show, write_columns, write_duplicate, write_flaw_of, write_keys,
    write_mismatch, write_no_column, write_sink, write_sums,
};
use serde_json::{Error, Value};
use std::alloc::{AllocError, Global};

/// How many bytes the text of a query may have.
const MOST_QUERY_BYTES: usize = 1_048_576;

/// How many lists and objects of a query's text may lie within one another.
const MOST_LEVELS: usize = 127;

/// How many files have their headers looked at.
const MOST_HEADERS: u32 = 64;

/// What is to be mended, for these words, after which this line was printed; none where there is nothing to say.
///
/// The files are opened and read again through `io`, which is to be another outside than the one that the command ran on.
pub fn reason<H: Io>(alloc: Global, io: &mut H, words: &[String], line: &str) -> Option<String> {
    let mut out = String::new(alloc);
    let told = write_reason(alloc, io, words, line, &mut out);
    if told.is_ok() && !out.is_empty() {
        Some(out)
    } else {
        None
    }
}

/// Puts the reason last.
fn write_reason<H: Io>(
    alloc: Global,
    io: &mut H,
    words: &[String],
    line: &str,
    out: &mut String,
) -> Result<(), Unsaid> {
    let Some(told) = told_of(line) else {
        return Ok(());
    };
    match words {
        _ if told == Told::Usage => write_usage(alloc, out, words),
        [verb, file, schema, sink] if verb.as_str() == "scan" => {
            let scan = ScanWords {
                file: file.as_str(),
                schema: schema.as_str(),
                sink: sink.as_str(),
            };
            write_of_scan(alloc, io, scan, told, out)
        }
        [verb, query, sink] if verb.as_str() == "local" => {
            let local = LocalWords {
                query: query.as_str(),
                sink: sink.as_str(),
            };
            write_of_local(alloc, io, local, told, out)
        }
        _ => Err(Unsaid),
    }
}

/// The words of `scan`.
#[derive(Clone, Copy, Debug)]
struct ScanWords<'w> {
    file: &'w str,
    schema: &'w str,
    sink: &'w str,
}

/// The words of `local`.
#[derive(Clone, Copy, Debug)]
struct LocalWords<'w> {
    query: &'w str,
    sink: &'w str,
}

/// Puts the reason of an answer to `scan` last.
fn write_of_scan<H: Io>(
    alloc: Global,
    io: &mut H,
    scan: ScanWords<'_>,
    told: Told<'_>,
    out: &mut String,
) -> Result<(), Unsaid> {
    match told {
        Told::Record { fault, file: 0, at } => {
            let table = scanned(alloc, scan.file, scan.schema)?;
            write_spot(alloc, io, &table, Spot { fault, at }, out)
        }
        Told::Rows => {
            let table = scanned(alloc, scan.file, scan.schema)?;
            write_header(alloc, io, &table, out)
        }
        Told::Packed { code, file: 0 } => Ok(write_packed(out, scan.file, code)?),
        Told::InvalidQuery("sink is source") => Ok(write_sink(out, scan.sink)?),
        Told::InvalidQuery("no column") => {
            let mut columns: usize = 0;
            for _ in scan.schema.split(',') {
                columns = columns.saturating_add(1);
            }
            Ok(write_columns(out, columns)?)
        }
        _ => Err(Unsaid),
    }
}

/// Puts the reason of an answer to `local` last.
fn write_of_local<H: Io>(
    alloc: Global,
    io: &mut H,
    local: LocalWords<'_>,
    told: Told<'_>,
    out: &mut String,
) -> Result<(), Unsaid> {
    let bytes = query_bytes(alloc, io, local.query)?;
    if bytes.len() > MOST_QUERY_BYTES {
        return write_too_long(out, local, told);
    }
    write_of_query(alloc, io, local, bytes.as_slice(), told, out)
}

/// The bytes of a query file, as far as they tell whether they are too many.
fn query_bytes<H: Io>(alloc: Global, io: &mut H, name: &str) -> Result<Vec<u8>, Unsaid> {
    let file = open(io, name)?;
    bytes_from(alloc, io, file, 0, MOST_QUERY_BYTES + 1)
}

/// Puts last that the query file has too many bytes.
fn write_too_long(out: &mut String, local: LocalWords<'_>, told: Told<'_>) -> Result<(), Unsaid> {
    if told != Told::QueryText {
        return Err(Unsaid);
    }
    show(out, local.query.as_bytes())?;
    write!(out, ": more than {MOST_QUERY_BYTES} bytes")?;
    Ok(())
}

/// Puts the reason of an answer to the query of these bytes last.
fn write_of_query<H: Io>(
    alloc: Global,
    io: &mut H,
    local: LocalWords<'_>,
    query: &[u8],
    told: Told<'_>,
    out: &mut String,
) -> Result<(), Unsaid> {
    match Value::from_slice(alloc, query) {
        Ok(tree) => write_of_tree(alloc, io, local, &tree, told, out),
        Err(error) => write_no_json(out, local, query, &error, told),
    }
}

/// Puts last where a text is no JSON.
fn write_no_json(
    out: &mut String,
    local: LocalWords<'_>,
    query: &[u8],
    error: &Error,
    told: Told<'_>,
) -> Result<(), Unsaid> {
    if told != Told::QueryText || error.is_memory() {
        return Err(Unsaid);
    }
    show(out, local.query.as_bytes())?;
    if is_too_deep(query) {
        write!(
            out,
            ": more than {MOST_LEVELS} lists and objects within one another"
        )?;
    } else {
        write!(out, ": {error}")?;
    }
    Ok(())
}

/// Whether lists and objects of a JSON text lie within one another deeper than it is read.
fn is_too_deep(text: &[u8]) -> bool {
    let mut levels: usize = 0;
    let mut is_in_text = false;
    let mut is_escaped = false;
    for byte in text {
        if is_in_text {
            is_in_text = *byte != b'"' || is_escaped;
            is_escaped = *byte == b'\\' && !is_escaped;
            continue;
        }
        match *byte {
            b'"' => is_in_text = true,
            b'[' | b'{' => levels = levels.saturating_add(1),
            b']' | b'}' => levels = levels.saturating_sub(1),
            _ => {}
        }
        if levels > MOST_LEVELS {
            return true;
        }
    }
    false
}

/// Puts the reason of an answer to the query of this tree last.
fn write_of_tree<H: Io>(
    alloc: Global,
    io: &mut H,
    local: LocalWords<'_>,
    tree: &Value,
    told: Told<'_>,
    out: &mut String,
) -> Result<(), Unsaid> {
    match told {
        Told::Record { fault, file, at } => {
            let table = queried(alloc, tree, file)?;
            write_spot(alloc, io, &table, Spot { fault, at }, out)
        }
        Told::Rows => write_headers(alloc, io, tree, out),
        Told::Packed { code, file } => {
            let table = queried(alloc, tree, file)?;
            Ok(write_packed(out, table.file, code)?)
        }
        Told::InvalidQuery("sink is source") => Ok(write_sink(out, local.sink)?),
        Told::InvalidQuery(why) => write_flaw_of(out, tree, why),
        Told::ColumnNotFound(name) => write_no_column(alloc, out, tree, name),
        Told::SchemaMismatch(name) => write_mismatch(alloc, out, tree, name),
        Told::Duplicate(name) => write_duplicate(alloc, out, tree, name),
        Told::SumTooLarge => Ok(write_sums(out, tree)?),
        Told::QueryText => write_keys(alloc, out, tree),
        Told::Usage => Ok(()),
    }
}

/// Puts last that a file is compressed.
fn write_packed(out: &mut String, file: &str, code: u32) -> Result<(), AllocError> {
    show(out, file.as_bytes())?;
    match code {
        31 => out.push_str(": compressed by gzip; unpack it first"),
        40 => out.push_str(": compressed by zstd; unpack it first"),
        _ => out.push_str(": compressed; unpack it first"),
    }
}

/// Puts a warning last of the first file whose header has other names than those of the schema.
fn write_headers<H: Io>(
    alloc: Global,
    io: &mut H,
    tree: &Value,
    out: &mut String,
) -> Result<(), Unsaid> {
    for file in 0..MOST_HEADERS {
        match queried(alloc, tree, file) {
            Ok(table) => write_header(alloc, io, &table, out)?,
            Err(_) => return Ok(()),
        }
        if !out.is_empty() {
            return Ok(());
        }
    }
    Ok(())
}
