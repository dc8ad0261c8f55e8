//! Flaws of a query that is in form.

use crate::groups::write_repeated;
use crate::scans::{PlacedScan, left_of, name_on, pairs_of, right_of};
use crate::shown::show_name;
use crate::table::items_at;
use crate::unsaid::Unsaid;
use serde_json::Value;
use std::alloc::AllocError;

/// The most names of files, and of columns.
const MOST_FILES: usize = 65_536;

const MOST_COLUMNS: usize = 65_535;

/// The greatest number of each option.
const GREATEST: [(&str, u64); 6] = [
    ("workers", 32_768),
    ("morsel_rows", 4_294_967_295),
    ("chunk_bytes", 4_294_967_295),
    ("distributor_buffer", 65_536),
    ("linearizer_buffer", 65_536),
    ("min_values_per_task", 4_294_967_295),
];

/// Puts last that the sink is a file that is read.
pub fn write_sink(out: &mut String, sink: &str) -> Result<(), AllocError> {
    out.push_str("OUT: ")?;
    show_name(out, sink)?;
    out.push_str(" is a file that is read")
}

/// Puts last how many columns a SCHEMA has, and may have.
pub fn write_columns(out: &mut String, columns: usize) -> Result<(), AllocError> {
    write!(
        out,
        "SCHEMA: {columns} columns, {MOST_COLUMNS} are the most"
    )
}

/// Puts last what the flaw of a query is.
pub fn write_flaw_of(out: &mut String, query: &Value, why: &str) -> Result<(), Unsaid> {
    match why {
        "no source" => write_len(out, query, "files", MOST_FILES)?,
        "too many sources" => write_len(out, query, "files", MOST_FILES)?,
        "no column" => write_len(out, query, "schema", MOST_COLUMNS)?,
        "no keys" => write_no_keys(out, query)?,
        "repeated key" => write_repeated_key(out, query)?,
        "predicate depth" => write_depth(out, query)?,
        "option range" => write_range(out, query)?,
        "parse bytes" => write_bytes(out, query)?,
        _ => {}
    }
    Ok(())
}

/// Puts last that a filter is too deep; with a join, of which scan is not told.
fn write_depth(out: &mut String, query: &Value) -> Result<(), AllocError> {
    out.push_str(match right_of(query) {
        None => "left.filter: more than 128 levels",
        Some(_) => "left.filter or join.right.filter: more than 128 levels",
    })
}

/// Puts last how long a list of a scan is, and may be: of the right one where the left one is not to blame.
fn write_len(out: &mut String, query: &Value, key: &str, most: usize) -> Result<(), AllocError> {
    let Some(left) = left_of(query) else {
        return Ok(());
    };
    let len = len_at(left, key);
    match right_of(query) {
        Some(right) if 0 < len && len <= most => {
            write_len_of(out, right, key, len_at(right, key), most)
        }
        _ => write_len_of(out, left, key, len, most),
    }
}

/// How long the list of a scan is.
fn len_at(side: PlacedScan<'_>, key: &str) -> usize {
    match items_at(side.scan, key) {
        Some(items) => items.len(),
        None => 0,
    }
}

/// Puts last how long the list of a scan is, and may be.
fn write_len_of(
    out: &mut String,
    side: PlacedScan<'_>,
    key: &str,
    len: usize,
    most: usize,
) -> Result<(), AllocError> {
    let scan = side.path;
    if len == 0 {
        write!(out, "{scan}.{key} is empty")
    } else {
        write!(out, "{scan}.{key}: {len} items, {most} are the most")
    }
}

/// Puts last that a join or a group-by has no key.
fn write_no_keys(out: &mut String, query: &Value) -> Result<(), AllocError> {
    out.push_str(match right_of(query) {
        Some(_) if pairs_of(query).is_empty() => "join.on is empty",
        _ => "group.keys is empty",
    })
}

/// Puts last which key of a join a side names twice; or else which one a group-by does.
fn write_repeated_key(out: &mut String, query: &Value) -> Result<(), AllocError> {
    let pairs = pairs_of(query);
    let mut number: usize = 0;
    for pair in pairs {
        for side in [0usize, 1] {
            if let Some(name) = name_on(pair, side)
                && is_named_before(pairs, number, side, name)
            {
                write!(out, "join.on[{number}][{side}]: ")?;
                show_name(out, name)?;
                return out.push_str(" is there twice");
            }
        }
        number = number.saturating_add(1);
    }
    write_repeated(out, query)
}

/// Whether one of so many first pairs has the name on this side.
fn is_named_before(pairs: &[Value], number: usize, side: usize, name: &str) -> bool {
    for pair in pairs.iter().take(number) {
        if name_on(pair, side) == Some(name) {
            return true;
        }
    }
    false
}

/// Puts last which option is outside its range.
fn write_range(out: &mut String, query: &Value) -> Result<(), AllocError> {
    let Some(options) = query.get("options") else {
        return Ok(());
    };
    for (key, most) in &GREATEST {
        if let Some(n) = number_at(options, key)
            && (n == 0 || n > *most)
        {
            return write!(out, "options.{key}: {n} is not from 1 to {most}");
        }
    }
    Ok(())
}

/// The number at a key.
fn number_at(tree: &Value, key: &str) -> Option<u64> {
    tree.get(key)?.as_u64()
}

/// The text at a key of `csv`; the default where there is none, and nothing where it is null.
fn text_or<'t>(csv: &'t Value, key: &str, default: Option<&'t str>) -> Option<&'t str> {
    match csv.get(key) {
        Some(found) => found.as_str(),
        None => default,
    }
}

/// Puts last which options of `csv` are no bytes, or contradict each other: of the right scan where those of the left one are not
/// to blame.
fn write_bytes(out: &mut String, query: &Value) -> Result<(), AllocError> {
    if let Some(left) = left_of(query)
        && write_bytes_of(out, left)?
    {
        return Ok(());
    }
    if let Some(right) = right_of(query) {
        write_bytes_of(out, right)?;
    }
    Ok(())
}

/// Puts last which options of `csv` of a scan are no bytes, or contradict each other, and answers whether any are.
fn write_bytes_of(out: &mut String, side: PlacedScan<'_>) -> Result<bool, AllocError> {
    let Some(csv) = side.scan.get("csv") else {
        return Ok(false);
    };
    let path = side.path;
    let separator = text_or(csv, "separator", Some(","));
    let quote = text_or(csv, "quote", Some("\""));
    let eol = text_or(csv, "eol", Some("\n"));
    let comment = text_or(csv, "comment", None);
    Ok(
        write_no_byte(out, path, "separator", separator)?
            || write_no_byte(out, path, "quote", quote)?
            || write_no_byte(out, path, "eol", eol)?
            || write_line_byte(out, path, "separator", separator)?
            || write_line_byte(out, path, "quote", quote)?
            || write_same(out, path, ("separator", separator), ("quote", quote))?
            || write_same(out, path, ("separator", separator), ("eol", eol))?
            || write_same(out, path, ("quote", quote), ("eol", eol))?
            || write_comment(out, path, comment, eol)?,
    )
}

/// Puts last that a text is not one ASCII character, and answers whether it is none.
fn write_no_byte(
    out: &mut String,
    path: &str,
    key: &str,
    text: Option<&str>,
) -> Result<bool, AllocError> {
    let Some(text) = text else {
        return Ok(false);
    };
    if text.len() == 1 {
        return Ok(false);
    }
    write!(out, "{path}.csv.{key}: ")?;
    show_name(out, text)?;
    out.push_str(" is not one ASCII character")?;
    Ok(true)
}

/// Puts last that a text ends a line, and answers whether it does.
fn write_line_byte(
    out: &mut String,
    path: &str,
    key: &str,
    text: Option<&str>,
) -> Result<bool, AllocError> {
    if text != Some("\n") && text != Some("\r") {
        return Ok(false);
    }
    write!(
        out,
        "{path}.csv.{key}: it is a line feed or a carriage return"
    )?;
    Ok(true)
}

/// Puts last that two options are the same, and answers whether they are.
fn write_same(
    out: &mut String,
    path: &str,
    first: (&str, Option<&str>),
    second: (&str, Option<&str>),
) -> Result<bool, AllocError> {
    let (first, text) = first;
    let (second, other) = second;
    if text.is_none() || text != other {
        return Ok(false);
    }
    write!(out, "{path}.csv: {first} and {second} are the same")?;
    Ok(true)
}

/// Puts last that no comment begins with a text, and answers whether none does.
fn write_comment(
    out: &mut String,
    path: &str,
    comment: Option<&str>,
    eol: Option<&str>,
) -> Result<bool, AllocError> {
    let Some(comment) = comment else {
        return Ok(false);
    };
    if begins_comment(comment, eol) {
        return Ok(false);
    }
    write!(
        out,
        "{path}.csv.comment: it is empty, not of ASCII, or has the eol"
    )?;
    Ok(true)
}

/// Whether comments may begin with a text where records end with this one.
fn begins_comment(comment: &str, eol: Option<&str>) -> bool {
    if comment.is_empty() {
        return false;
    }
    for byte in comment.as_bytes() {
        if *byte >= 128 || is_eol(*byte, eol) {
            return false;
        }
    }
    true
}

/// Whether records end with this byte.
fn is_eol(byte: u8, eol: Option<&str>) -> bool {
    match eol {
        Some(text) => text.as_bytes().first() == Some(&byte),
        None => false,
    }
}
