//! Which part of a filter is no predicate.
//!
//! The parts are looked at from the whole down, and each knows the part that has it, so no call is deeper than another.

use crate::keys::{items_of, write_is_no};
use crate::nearest::write_nearest;
use crate::shown::{show, show_name};
use crate::table::contains;
use crate::unsaid::Unsaid;
use serde_json::Value;
use std::alloc::{AllocError, Global};

/// How many parts are looked at.
const MOST_PARTS: usize = 1_048_576;

/// How many levels of a path are written.
const MOST_LEVELS: usize = 256;

/// The words that a predicate begins with.
const WORDS: [&str; 12] = [
    "and", "or", "not", "null", "notnull", "is", "eq", "ne", "lt", "le", "gt", "ge",
];

/// A part of a filter: its tree, the number of the part that has it, and its place there.
#[derive(Clone, Copy, Debug)]
struct FilterPart<'t> {
    tree: &'t Value,
    above: usize,
    item: usize,
}

/// Puts last which part of a filter is no predicate, and answers whether one is none.
pub fn write_filter(alloc: Global, out: &mut String, filter: &Value) -> Result<bool, Unsaid> {
    let mut parts = Vec::new(alloc);
    parts.push(FilterPart {
        tree: filter,
        above: 0,
        item: 0,
    })?;
    for number in 0..MOST_PARTS {
        let Some(part) = parts.as_slice().get(number).copied() else {
            return Ok(false);
        };
        if !is_in_form(part.tree) {
            write_path(alloc, out, parts.as_slice(), number)?;
            write_part(alloc, out, part.tree)?;
            return Ok(true);
        }
        push_parts(part.tree, number, &mut parts)?;
    }
    Ok(false)
}

/// Whether a tree is a predicate, as far as this level goes.
fn is_in_form(tree: &Value) -> bool {
    match items_of(tree) {
        Some([word, _]) => is_word_of(word, &["not"]) || is_test(tree),
        Some([word, first, second]) => {
            is_word_of(word, &["and", "or"])
                || (is_word_of(word, &["eq", "ne", "lt", "le", "gt", "ge"])
                    && first.is_string()
                    && is_side(second))
        }
        _ => false,
    }
}

/// Whether a tree is one of these words.
fn is_word_of(tree: &Value, words: &[&str]) -> bool {
    match tree.as_str() {
        Some(word) => contains(words, word),
        None => false,
    }
}

/// Whether a tree is the test of one column.
fn is_test(tree: &Value) -> bool {
    match items_of(tree) {
        Some([word, name]) => is_word_of(word, &["null", "notnull", "is"]) && name.is_string(),
        _ => false,
    }
}

/// Whether a tree is the second side of a comparison.
fn is_side(tree: &Value) -> bool {
    match tree.as_object() {
        Some(members) => members.len() == 1 && (is_column(tree) || is_literal(tree)),
        None => false,
    }
}

/// Whether a side is a column.
fn is_column(side: &Value) -> bool {
    match side.get("col") {
        Some(name) => name.is_string(),
        None => false,
    }
}

/// Whether a side is a value.
fn is_literal(side: &Value) -> bool {
    match side.get("lit") {
        Some(value) => is_compared(value),
        None => false,
    }
}

/// Whether a column can be compared with a value.
fn is_compared(value: &Value) -> bool {
    value.is_string() || value.is_boolean() || value.is_null() || value.is_i64()
}

/// The value of a comparison; none where there is none.
fn value_of(items: &[Value]) -> Option<&Value> {
    match items {
        [_, _, side] => side.get("lit"),
        _ => None,
    }
}

/// Puts the parts of a part last.
fn push_parts<'t>(
    tree: &'t Value,
    above: usize,
    parts: &mut Vec<FilterPart<'t>>,
) -> Result<(), AllocError> {
    let Some([word, items @ ..]) = items_of(tree) else {
        return Ok(());
    };
    if !is_word_of(word, &["and", "or", "not"]) {
        return Ok(());
    }
    let mut item: usize = 1;
    for tree in items {
        parts.push(FilterPart { tree, above, item })?;
        item = item.saturating_add(1);
    }
    Ok(())
}

/// Puts the path of a part last, as `[1][2]`.
fn write_path(
    alloc: Global,
    out: &mut String,
    parts: &[FilterPart<'_>],
    number: usize,
) -> Result<(), AllocError> {
    let mut items = Vec::new(alloc);
    let mut number = number;
    for _ in 0..MOST_LEVELS {
        if number == 0 {
            break;
        }
        if let Some(part) = parts.get(number) {
            items.push(part.item)?;
            number = part.above;
        }
    }
    for _ in 0..MOST_LEVELS {
        let Some(item) = items.pop() else {
            break;
        };
        write!(out, "[{item}]")?;
    }
    Ok(())
}

/// Puts last why a part is no predicate.
fn write_part(alloc: Global, out: &mut String, tree: &Value) -> Result<(), AllocError> {
    let Some(items) = items_of(tree) else {
        out.push_str(": ")?;
        return write_is_no(out, tree, "predicate");
    };
    let Some(word) = items.first() else {
        return out.push_str(": an empty list is no predicate");
    };
    let Some(text) = word.as_str() else {
        out.push_str("[0]: ")?;
        return write_is_no(out, word, "word of a predicate");
    };
    if !contains(&WORDS, text) {
        out.push_str("[0]: ")?;
        show_name(out, text)?;
        out.push_str(" is no word of a predicate: ")?;
        return write_nearest(alloc, out, text, &WORDS);
    }
    if let Some(value) = value_of(items)
        && !is_compared(value)
    {
        out.push_str("[2].lit: ")?;
        return write_is_no(out, value, "whole number, truth value, text or null");
    }
    out.push_str(": ")?;
    show(out, text.as_bytes())?;
    out.push_str(" is written ")?;
    out.push_str(form_of(text))
}

/// How a predicate of this word is written.
fn form_of(word: &str) -> &'static str {
    match word {
        "and" | "or" => "[word, predicate, predicate]",
        "not" => "[word, predicate]",
        "null" | "notnull" | "is" => "[word, name]",
        _ => "[word, name, {\"col\": name}] or [word, name, {\"lit\": value}]",
    }
}
