//! Which key of a query's text is wrong: the first that no query has, that is of another kind, or that is not there.
//!
//! What is written is a path from the query down, as `left.slice[0]`, and what is wrong there.

use crate::aggs::write_aggs;
use crate::nearest::{meant, write_nearest};
use crate::parts::write_filter;
use crate::shown::{show, show_name, show_value};
use crate::table::{contains, kind_of};
use crate::unsaid::Unsaid;
use serde_json::Value;
use std::alloc::{AllocError, Global};

/// What a key has to be.
#[derive(Clone, Copy, Debug, PartialEq, Eq)]
enum Kind {
    /// A text.
    Text,
    /// A text, or null.
    TextOrNull,
    /// A truth value.
    Truth,
    /// A whole number from 0 on, of 64 bits.
    Number,
    /// A list of texts.
    Texts,
    /// `[offset, length]`.
    Slice,
    /// `[name, offset]`.
    RowIndex,
    /// A list of `[name, type]`.
    Schema,
    /// A predicate.
    Filter,
    /// A list of `[left name, right name]`.
    Pairs,
    /// A kind of joins.
    JoinKind,
    /// An order of a join's rows.
    JoinOrder,
    /// How the rows of a join are found.
    JoinHow,
    /// A list of `[op, name, output]`.
    Aggs,
    /// An object, which is looked at by itself.
    Object,
}

/// A key, what it has to be, and whether it has to be there.
type KeyRule = (&'static str, Kind, bool);

/// The keys of a query.
const QUERY: [KeyRule; 5] = [
    ("left", Kind::Object, true),
    ("join", Kind::Object, false),
    ("group", Kind::Object, false),
    ("sink", Kind::Object, true),
    ("options", Kind::Object, false),
];

/// The keys of a scan.
const SCAN: [KeyRule; 9] = [
    ("format", Kind::Text, true),
    ("files", Kind::Texts, true),
    ("schema", Kind::Schema, true),
    ("csv", Kind::Object, false),
    ("columns", Kind::Texts, false),
    ("slice", Kind::Slice, false),
    ("row_index", Kind::RowIndex, false),
    ("path", Kind::Text, false),
    ("filter", Kind::Filter, false),
];

/// The keys of a join.
const JOIN: [KeyRule; 8] = [
    ("right", Kind::Object, true),
    ("on", Kind::Pairs, true),
    ("kind", Kind::JoinKind, false),
    ("order", Kind::JoinOrder, false),
    ("nulls", Kind::Truth, false),
    ("coalesce", Kind::Truth, false),
    ("suffix", Kind::Text, false),
    ("how", Kind::JoinHow, false),
];

/// The keys of a group-by.
const GROUP: [KeyRule; 2] = [("keys", Kind::Texts, true), ("aggs", Kind::Aggs, false)];

/// The words of the kinds of joins, of the orders of their rows, and of how these are found.
const JOIN_KINDS: [&str; 4] = ["inner", "left", "right", "full"];

const JOIN_ORDERS: [&str; 5] = ["none", "left", "right", "left_right", "right_left"];

const JOIN_HOWS: [&str; 1] = ["hash"];

/// The paths of a scan, of its format and of its `csv`.
type ScanPaths = (&'static str, &'static str, &'static str);

/// Those of the left scan.
const LEFT: ScanPaths = ("left.", "left.format", "left.csv.");

/// Those of the right scan of a join.
const RIGHT: ScanPaths = ("join.right.", "join.right.format", "join.right.csv.");

/// The keys of `csv`.
const CSV: [KeyRule; 7] = [
    ("separator", Kind::Text, false),
    ("quote", Kind::TextOrNull, false),
    ("eol", Kind::Text, false),
    ("comment", Kind::TextOrNull, false),
    ("has_header", Kind::Truth, false),
    ("null", Kind::Text, false),
    ("ignore_errors", Kind::Truth, false),
];

/// The keys of a sink.
const SINK: [KeyRule; 1] = [("format", Kind::Text, true)];

/// The keys of `options`.
const OPTIONS: [KeyRule; 7] = [
    ("workers", Kind::Number, false),
    ("morsel_rows", Kind::Number, false),
    ("chunk_bytes", Kind::Number, false),
    ("distributor_buffer", Kind::Number, false),
    ("linearizer_buffer", Kind::Number, false),
    ("min_values_per_task", Kind::Number, false),
    ("random_state", Kind::Number, false),
];

/// Puts last which key of a query is wrong; nothing where none is.
pub fn write_keys(alloc: Global, out: &mut String, query: &Value) -> Result<(), Unsaid> {
    if write_object(alloc, out, query, "", &QUERY)? {
        return Ok(());
    }
    if let Some(scan) = query.get("left")
        && write_scan_keys(alloc, out, scan, &LEFT)?
    {
        return Ok(());
    }
    if let Some(join) = query.get("join")
        && write_join_keys(alloc, out, join)?
    {
        return Ok(());
    }
    if let Some(group) = query.get("group")
        && write_object(alloc, out, group, "group.", &GROUP)?
    {
        return Ok(());
    }
    if let Some(sink) = query.get("sink")
        && (write_object(alloc, out, sink, "sink.", &SINK)?
            || write_format(out, sink, "sink.format", "ndjson")?)
    {
        return Ok(());
    }
    if let Some(options) = query.get("options") {
        write_object(alloc, out, options, "options.", &OPTIONS)?;
    }
    Ok(())
}

/// Puts last which key of a join is wrong, and answers whether one is.
fn write_join_keys(alloc: Global, out: &mut String, join: &Value) -> Result<bool, Unsaid> {
    if write_object(alloc, out, join, "join.", &JOIN)? {
        return Ok(true);
    }
    match join.get("right") {
        Some(scan) => write_scan_keys(alloc, out, scan, &RIGHT),
        None => Ok(false),
    }
}

/// Puts last which key of a scan with these paths is wrong, and answers whether one is.
fn write_scan_keys(
    alloc: Global,
    out: &mut String,
    scan: &Value,
    paths: &ScanPaths,
) -> Result<bool, Unsaid> {
    let (scan_path, format, csv_path) = *paths;
    if write_object(alloc, out, scan, scan_path, &SCAN)?
        || write_format(out, scan, format, "csv")?
    {
        return Ok(true);
    }
    match scan.get("csv") {
        Some(csv) => write_object(alloc, out, csv, csv_path, &CSV),
        None => Ok(false),
    }
}

/// Puts last that a format is another one, and answers whether it is.
fn write_format(out: &mut String, tree: &Value, path: &str, format: &str) -> Result<bool, Unsaid> {
    let Some(found) = tree.get("format").and_then(Value::as_str) else {
        return Ok(false);
    };
    if found == format {
        return Ok(false);
    }
    write!(out, "{path}: ")?;
    show_name(out, found)?;
    write!(out, " is no format: {format}")?;
    Ok(true)
}

/// Puts last what is wrong with the keys of an object, and answers whether anything is. `path` ends in a dot.
fn write_object(
    alloc: Global,
    out: &mut String,
    tree: &Value,
    path: &str,
    keys: &[KeyRule],
) -> Result<bool, Unsaid> {
    let Some(members) = tree.as_object() else {
        write_path_of_object(out, path)?;
        write_is_no(out, tree, "object")?;
        return Ok(true);
    };
    for (key, _) in members.iter() {
        if !is_key(keys, key.as_str()) {
            write_no_key(alloc, out, path, key.as_str(), keys)?;
            return Ok(true);
        }
    }
    for (key, kind, is_due) in keys {
        if write_at_key(out, alloc, tree, path, (key, *kind, *is_due))? {
            return Ok(true);
        }
    }
    Ok(false)
}

/// Puts the path of an object last, without the dot at its end.
fn write_path_of_object(out: &mut String, path: &str) -> Result<(), AllocError> {
    match path.strip_suffix(".") {
        Some(path) => out.push_str(path)?,
        None => out.push_str("the query")?,
    }
    out.push_str(": ")
}

/// Whether a text is one of these keys.
fn is_key(keys: &[KeyRule], text: &str) -> bool {
    for (key, _, _) in keys {
        if *key == text {
            return true;
        }
    }
    false
}

/// Puts last that there is no such key, and which was meant or may be there.
fn write_no_key(
    alloc: Global,
    out: &mut String,
    path: &str,
    key: &str,
    keys: &[KeyRule],
) -> Result<(), Unsaid> {
    out.push_str(path)?;
    show(out, key.as_bytes())?;
    out.push_str(": no such key; ")?;
    let mut names = Vec::new(alloc);
    for (name, _, _) in keys {
        names.push(*name)?;
    }
    match meant(alloc, key, names.as_slice())? {
        Some(name) => write!(out, "did you mean {name}?")?,
        None => {
            out.push_str("there are ")?;
            write_nearest(alloc, out, key, names.as_slice())?;
        }
    }
    Ok(())
}

/// Puts last what is wrong at a key, and answers whether anything is.
fn write_at_key(
    out: &mut String,
    alloc: Global,
    tree: &Value,
    path: &str,
    key: (&str, Kind, bool),
) -> Result<bool, Unsaid> {
    let (name, kind, is_due) = key;
    let Some(found) = tree.get(name) else {
        if is_due {
            write!(out, "{path}{name}: has to be there")?;
        }
        return Ok(is_due);
    };
    let mut told = String::new(alloc);
    if !write_kind(alloc, &mut told, found, kind)? {
        return Ok(false);
    }
    write!(out, "{path}{name}{told}")?;
    Ok(true)
}

/// Puts last how a tree is not of this kind, and answers whether it is not.
fn write_kind(alloc: Global, out: &mut String, tree: &Value, kind: Kind) -> Result<bool, Unsaid> {
    match kind {
        Kind::Text => write_unless(out, tree, tree.is_string(), "text"),
        Kind::TextOrNull => write_unless(out, tree, tree.is_string() || tree.is_null(), "text"),
        Kind::Truth => write_unless(out, tree, tree.is_boolean(), "truth value"),
        Kind::Number => write_unless(out, tree, tree.is_u64(), "whole number from 0 on"),
        Kind::Texts => write_texts(out, tree),
        Kind::Slice => write_slice(out, tree),
        Kind::RowIndex => write_row_index(out, tree),
        Kind::Schema => write_schema(out, tree),
        Kind::Filter => write_filter(alloc, out, tree),
        Kind::Pairs => write_pairs(out, tree),
        Kind::JoinKind => write_word(alloc, out, tree, "kind of joins", &JOIN_KINDS),
        Kind::JoinOrder => write_word(alloc, out, tree, "order", &JOIN_ORDERS),
        Kind::JoinHow => write_word(alloc, out, tree, "way to join", &JOIN_HOWS),
        Kind::Aggs => write_aggs(alloc, out, tree),
        Kind::Object => write_unless(out, tree, tree.is_object(), "object"),
    }
}

/// Puts last that a tree is none of these words, unless it is one.
fn write_word(
    alloc: Global,
    out: &mut String,
    tree: &Value,
    what: &str,
    words: &[&str],
) -> Result<bool, Unsaid> {
    let Some(word) = tree.as_str() else {
        return write_unless(out, tree, false, "text");
    };
    if contains(words, word) {
        return Ok(false);
    }
    out.push_str(": ")?;
    show_name(out, word)?;
    write!(out, " is no {what}: ")?;
    write_nearest(alloc, out, word, words)?;
    Ok(true)
}

/// Puts last how a tree is no list of pairs of names, and answers whether it is none.
fn write_pairs(out: &mut String, tree: &Value) -> Result<bool, Unsaid> {
    let Some(items) = tree.as_array() else {
        return write_unless(out, tree, false, "list of [left name, right name]");
    };
    let mut number: usize = 0;
    for item in items {
        if !is_pair(item) {
            write!(out, "[{number}]")?;
            return write_unless(out, item, false, "[left name, right name]");
        }
        number = number.saturating_add(1);
    }
    Ok(false)
}

/// Whether a tree is a pair of names.
fn is_pair(tree: &Value) -> bool {
    match items_of(tree) {
        Some([left, right]) => left.is_string() && right.is_string(),
        _ => false,
    }
}

/// Puts last that a tree is none of these, unless it is.
fn write_unless(out: &mut String, tree: &Value, is_one: bool, what: &str) -> Result<bool, Unsaid> {
    if is_one {
        return Ok(false);
    }
    out.push_str(": ")?;
    write_is_no(out, tree, what)?;
    Ok(true)
}

/// Puts last that a tree is none of these.
pub fn write_is_no(out: &mut String, tree: &Value, what: &str) -> Result<(), AllocError> {
    write_tree(out, tree)?;
    write!(out, " is no {what}")
}

/// Puts a tree last, in short.
fn write_tree(out: &mut String, tree: &Value) -> Result<(), AllocError> {
    match tree {
        Value::Null => out.push_str("null"),
        Value::Bool(true) => out.push_str("true"),
        Value::Bool(false) => out.push_str("false"),
        Value::Number(number) => write!(out, "{number}"),
        Value::String(text) => show_value(out, text.as_bytes()),
        Value::Array(_) => out.push_str("a list"),
        Value::Object(_) => out.push_str("an object"),
    }
}

/// Puts last how a tree is no list of texts, and answers whether it is none.
fn write_texts(out: &mut String, tree: &Value) -> Result<bool, Unsaid> {
    let Some(items) = tree.as_array() else {
        return write_unless(out, tree, false, "list of texts");
    };
    let mut number: usize = 0;
    for item in items {
        if !item.is_string() {
            write!(out, "[{number}]")?;
            return write_unless(out, item, false, "text");
        }
        number = number.saturating_add(1);
    }
    Ok(false)
}

/// Puts last how a tree is no `[offset, length]`, and answers whether it is none.
fn write_slice(out: &mut String, tree: &Value) -> Result<bool, Unsaid> {
    let Some([offset, len]) = items_of(tree) else {
        return write_unless(out, tree, false, "[offset, length]");
    };
    if !offset.is_i64() {
        out.push_str("[0]")?;
        return write_unless(out, offset, false, "whole number");
    }
    if !len.is_u64() {
        out.push_str("[1]")?;
        return write_unless(out, len, false, "whole number from 0 on");
    }
    Ok(false)
}

/// The items of a list.
pub fn items_of(tree: &Value) -> Option<&[Value]> {
    match tree.as_array() {
        Some(items) => Some(items),
        None => None,
    }
}

/// Puts last how a tree is no `[name, offset]`, and answers whether it is none.
fn write_row_index(out: &mut String, tree: &Value) -> Result<bool, Unsaid> {
    let Some([name, offset]) = items_of(tree) else {
        return write_unless(out, tree, false, "[name, offset]");
    };
    if !name.is_string() {
        out.push_str("[0]")?;
        return write_unless(out, name, false, "text");
    }
    match offset.as_u64() {
        Some(n) if n <= u64::from(u32::MAX) => Ok(false),
        _ => {
            out.push_str("[1]")?;
            write_unless(out, offset, false, "whole number from 0 to 4294967295")
        }
    }
}

/// Puts last how a tree is no list of `[name, type]`, and answers whether it is none.
fn write_schema(out: &mut String, tree: &Value) -> Result<bool, Unsaid> {
    let Some(items) = tree.as_array() else {
        return write_unless(out, tree, false, "list of [name, type]");
    };
    let mut number: usize = 0;
    for item in items {
        if !is_column(item) {
            write!(out, "[{number}]")?;
            return write_column(out, item);
        }
        number = number.saturating_add(1);
    }
    Ok(false)
}

/// Whether a tree is a `[name, type]`.
fn is_column(tree: &Value) -> bool {
    match items_of(tree) {
        Some([name, word]) => name.is_string() && is_type(word),
        _ => false,
    }
}

/// Whether a tree is the word of a type.
fn is_type(tree: &Value) -> bool {
    match tree.as_str() {
        Some(word) => kind_of(word).is_some(),
        None => false,
    }
}

/// Puts last how a tree is no `[name, type]`, and answers whether it is none.
fn write_column(out: &mut String, tree: &Value) -> Result<bool, Unsaid> {
    let Some([name, word]) = items_of(tree) else {
        return write_unless(out, tree, false, "[name, type]");
    };
    if !name.is_string() {
        out.push_str("[0]")?;
        return write_unless(out, name, false, "text");
    }
    if is_type(word) {
        return Ok(false);
    }
    out.push_str("[1]")?;
    write_unless(out, word, false, "type: int, bool or text")
}
