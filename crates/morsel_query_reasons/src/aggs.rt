//! Which reduction of a group-by is none, and which may be too large.

use crate::groups::{list_of_group, text_in};
use crate::keys::{items_of, write_is_no};
use crate::nearest::write_nearest;
use crate::shown::show_name;
use crate::table::contains;
use crate::unsaid::Unsaid;
use serde_json::Value;
use std::alloc::{AllocError, Global};

/// The words of reductions.
const REDUCTIONS: [&str; 6] = ["len", "sum", "min", "max", "first", "last"];

/// Puts last how a tree is no list of `[op, name, output]`, and answers whether it is none.
pub fn write_aggs(alloc: Global, out: &mut String, tree: &Value) -> Result<bool, Unsaid> {
    let Some(items) = tree.as_array() else {
        out.push_str(": ")?;
        write_is_no(out, tree, "list of [op, name, output]")?;
        return Ok(true);
    };
    let mut number: usize = 0;
    for item in items {
        if !is_agg(item) {
            write!(out, "[{number}]")?;
            write_agg(alloc, out, item)?;
            return Ok(true);
        }
        number = number.saturating_add(1);
    }
    Ok(false)
}

/// Whether a tree is a reduction.
fn is_agg(tree: &Value) -> bool {
    match items_of(tree) {
        Some([op, column, output]) => {
            is_reduction(op) && has_its_column(op, column) && output.is_string()
        }
        _ => false,
    }
}

/// Whether a tree is the word of a reduction.
fn is_reduction(op: &Value) -> bool {
    match op.as_str() {
        Some(word) => contains(&REDUCTIONS, word),
        None => false,
    }
}

/// Whether there is a name of a column, or null where rows are counted.
fn has_its_column(op: &Value, column: &Value) -> bool {
    if op.as_str() == Some("len") {
        column.is_null()
    } else {
        column.is_string()
    }
}

/// Puts last how a tree is no reduction.
fn write_agg(alloc: Global, out: &mut String, tree: &Value) -> Result<(), AllocError> {
    let Some([op, column, output]) = items_of(tree) else {
        out.push_str(": ")?;
        return write_is_no(out, tree, "[op, name, output]");
    };
    let Some(word) = op.as_str() else {
        out.push_str("[0]: ")?;
        return write_is_no(out, op, "text");
    };
    if !contains(&REDUCTIONS, word) {
        out.push_str("[0]: ")?;
        show_name(out, word)?;
        out.push_str(" is no reduction: ")?;
        return write_nearest(alloc, out, word, &REDUCTIONS);
    }
    if has_its_column(op, column) {
        out.push_str("[2]: ")?;
        return write_is_no(out, output, "text");
    }
    out.push_str("[1]: ")?;
    if word == "len" {
        write_is_no(out, column, "null, and len reads no column")
    } else {
        write_is_no(out, column, "text")?;
        write!(out, ", and {word} reads a column")
    }
}

/// Puts last which sums a group-by asks for, of which one is too large.
pub fn write_sums(out: &mut String, query: &Value) -> Result<(), AllocError> {
    let mut found: usize = 0;
    let mut number: usize = 0;
    for agg in list_of_group(query, "aggs") {
        if text_in(agg, 0) == Some("sum") {
            if found > 0 {
                out.push_str(" or ")?;
            }
            write!(out, "group.aggs[{number}]")?;
            found = found.saturating_add(1);
        }
        number = number.saturating_add(1);
    }
    if found > 0 {
        out.push_str(": the sum of a group is no number of 64 bits")?;
    }
    Ok(())
}
