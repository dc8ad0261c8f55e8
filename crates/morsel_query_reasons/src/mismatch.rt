//! Which comparison of a filter does not fit its column, which pair of keys is of two types, and which sum is of no numbers.

use crate::groups::{list_of_group, side_grouped, text_in};
use crate::keys::items_of;
use crate::names::write_scan_path;
use crate::scans::{PlacedScan, left_of, name_on, pairs_of, right_of};
use crate::shown::{show_name, show_value};
use crate::table::{columns_of, text_at};
use crate::unsaid::Unsaid;
use morsel_meaning::ColType;
use serde_json::Value;
use std::alloc::{AllocError, Global};

/// How many parts of a filter are looked at.
const MOST_PARTS: usize = 1_048_576;

/// The word of a type.
fn word_of(kind: ColType) -> &'static str {
    match kind {
        ColType::Int => "int",
        ColType::Bool => "bool",
        ColType::Text => "text",
    }
}

/// The type of the column of this name, with the row index and the path.
fn kind_named(alloc: Global, scan: &Value, name: &str) -> Result<Option<ColType>, Unsaid> {
    if text_at(scan, "path") == Some(name) {
        return Ok(Some(ColType::Text));
    }
    if scan.get("row_index").and_then(first_text) == Some(name) {
        return Ok(Some(ColType::Int));
    }
    let columns = columns_of(alloc, scan)?;
    for column in columns.as_slice() {
        if column.name == name {
            return Ok(Some(column.kind));
        }
    }
    Ok(None)
}

/// The text that a list begins with.
fn first_text(tree: &Value) -> Option<&str> {
    tree.get(0)?.as_str()
}

/// Puts last which comparison does not fit the column of this name, or which key of a join its pair, or which sum is of it.
pub fn write_mismatch(
    alloc: Global,
    out: &mut String,
    query: &Value,
    name: &str,
) -> Result<(), Unsaid> {
    let Some(left) = left_of(query) else {
        return Err(Unsaid);
    };
    if write_mismatch_of(alloc, out, query, left, name)? {
        return Ok(());
    }
    if let Some(right) = right_of(query)
        && (write_mismatch_of(alloc, out, query, right, name)?
            || write_pair(alloc, out, query, left, right, name)?)
    {
        return Ok(());
    }
    if write_summed(alloc, out, query, name)? {
        return Ok(());
    }
    Err(Unsaid)
}

/// Puts last which sum is of the column of this name, which has no numbers, and answers whether one is.
fn write_summed(
    alloc: Global,
    out: &mut String,
    query: &Value,
    name: &str,
) -> Result<bool, Unsaid> {
    let Some((side, before)) = side_grouped(query, name) else {
        return Ok(false);
    };
    let Some(kind) = kind_named(alloc, side.scan, before)? else {
        return Ok(false);
    };
    if kind == ColType::Int {
        return Ok(false);
    }
    let mut number: usize = 0;
    for agg in list_of_group(query, "aggs") {
        if text_in(agg, 0) == Some("sum") && text_in(agg, 1) == Some(name) {
            write!(out, "group.aggs[{number}]: ")?;
            show_name(out, name)?;
            write!(out, " is {}, and sum takes an int", word_of(kind))?;
            return Ok(true);
        }
        number = number.saturating_add(1);
    }
    Ok(false)
}

/// Puts last which comparison of a scan's filter does not fit the column of this name, and answers whether one does not.
fn write_mismatch_of(
    alloc: Global,
    out: &mut String,
    query: &Value,
    side: PlacedScan<'_>,
    name: &str,
) -> Result<bool, Unsaid> {
    let Some(filter) = side.scan.get("filter") else {
        return Ok(false);
    };
    let Some(kind) = kind_named(alloc, side.scan, name)? else {
        return Ok(false);
    };
    let mut told = String::new(alloc);
    if !write_compared(alloc, &mut told, side.scan, filter, (name, kind))? {
        return Ok(false);
    }
    write_scan_path(out, query, side)?;
    show_name(out, name)?;
    write!(out, " is {}{told}", word_of(kind))?;
    Ok(true)
}

/// Puts last which pair of keys, whose left one has this name, is of two types, and answers whether one is.
fn write_pair(
    alloc: Global,
    out: &mut String,
    query: &Value,
    left: PlacedScan<'_>,
    right: PlacedScan<'_>,
    name: &str,
) -> Result<bool, Unsaid> {
    let mut number: usize = 0;
    for pair in pairs_of(query) {
        if name_on(pair, 0) == Some(name)
            && let Some(other) = name_on(pair, 1)
            && let Some(kind) = kind_named(alloc, left.scan, name)?
            && let Some(found) = kind_named(alloc, right.scan, other)?
            && kind != found
        {
            write!(out, "join.on[{number}]: ")?;
            show_name(out, name)?;
            write!(out, " of {} is {}, and ", left.path, word_of(kind))?;
            show_name(out, other)?;
            write!(out, " of {} is {}", right.path, word_of(found))?;
            return Ok(true);
        }
        number = number.saturating_add(1);
    }
    Ok(false)
}

/// Puts last with what the filter compares the column that does not fit it, and answers whether there is such a comparison.
fn write_compared(
    alloc: Global,
    out: &mut String,
    scan: &Value,
    filter: &Value,
    column: (&str, ColType),
) -> Result<bool, Unsaid> {
    let mut parts = Vec::new(alloc);
    parts.push(filter)?;
    for _ in 0..MOST_PARTS {
        let Some(part) = parts.pop() else {
            return Ok(false);
        };
        if write_part(alloc, out, scan, part, column)? {
            return Ok(true);
        }
        push_parts(part, &mut parts)?;
    }
    Ok(false)
}

/// Puts the parts of a part last.
fn push_parts<'t>(part: &'t Value, parts: &mut Vec<&'t Value>) -> Result<(), AllocError> {
    if let Some([_, items @ ..]) = items_of(part) {
        for item in items {
            parts.push(item)?;
        }
    }
    Ok(())
}

/// Puts last that a part does not fit the column, and answers whether it does not.
fn write_part(
    alloc: Global,
    out: &mut String,
    scan: &Value,
    part: &Value,
    column: (&str, ColType),
) -> Result<bool, Unsaid> {
    let (name, kind) = column;
    match items_of(part) {
        Some([word, first]) if first.as_str() == Some(name) && word.as_str() == Some("is") => {
            if kind == ColType::Bool {
                return Ok(false);
            }
            out.push_str(", and is takes a bool")?;
            Ok(true)
        }
        Some([_, first, side]) if first.as_str() == Some(name) => {
            write_side(alloc, out, scan, side, kind)
        }
        _ => Ok(false),
    }
}

/// Puts last that a side of a comparison is not of this type, and answers whether it is not.
fn write_side(
    alloc: Global,
    out: &mut String,
    scan: &Value,
    side: &Value,
    kind: ColType,
) -> Result<bool, Unsaid> {
    if let Some(other) = text_at(side, "col") {
        let Some(found) = kind_named(alloc, scan, other)? else {
            return Ok(false);
        };
        if found == kind {
            return Ok(false);
        }
        out.push_str(", and ")?;
        show_name(out, other)?;
        write!(out, " is {}", word_of(found))?;
        return Ok(true);
    }
    match side.get("lit") {
        Some(value) => write_literal(out, value, kind),
        None => Ok(false),
    }
}

/// Puts last that a value is not of this type, and answers whether it is not.
fn write_literal(out: &mut String, value: &Value, kind: ColType) -> Result<bool, Unsaid> {
    let found = match value {
        Value::Bool(_) => ColType::Bool,
        Value::Number(_) => ColType::Int,
        Value::String(_) => ColType::Text,
        _ => return Ok(false),
    };
    if found == kind {
        return Ok(false);
    }
    out.push_str(", and ")?;
    match value {
        Value::String(text) => show_value(out, text.as_bytes())?,
        Value::Bool(true) => out.push_str("true")?,
        Value::Bool(false) => out.push_str("false")?,
        Value::Number(number) => write!(out, "{number}")?,
        _ => {}
    }
    write!(out, " is {}", word_of(found))?;
    Ok(true)
}
