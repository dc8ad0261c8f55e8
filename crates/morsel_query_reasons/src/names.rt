//! Names that meet no column, or more than one.

use crate::groups::{write_grouped, write_no_grouped};
use crate::joined::write_joined;
use crate::nearest::write_nearest;
use crate::scans::{PlacedScan, left_of, name_on, pairs_of, right_of};
use crate::shown::show_name;
use crate::table::{compared_names, contains, items_at, text_at};
use crate::unsaid::Unsaid;
use serde_json::Value;
use std::alloc::{AllocError, Global};

/// Some of the columns of a scan.
#[derive(Clone, Copy, Debug, PartialEq, Eq)]
pub enum Columns {
    /// Those of its files.
    Files,
    /// Those of which its filter may speak: the row index, those of its files, and the path.
    Whole,
    /// Those of its rows: the same, but of its files those alone that it keeps.
    Rows,
}

/// The name that a list at a key begins with.
pub fn first_of<'t>(scan: &'t Value, key: &str) -> Option<&'t str> {
    scan.get(key)?.get(0)?.as_str()
}

/// The name that an item of a list is, or begins with.
fn name_in(item: &Value) -> Option<&str> {
    match item.as_str() {
        Some(name) => Some(name),
        None => item.get(0)?.as_str(),
    }
}

/// How many items of a list at a key have this name.
pub fn times_in(scan: &Value, key: &str, name: &str) -> usize {
    let mut times: usize = 0;
    if let Some(items) = items_at(scan, key) {
        for item in items {
            if name_in(item) == Some(name) {
                times = times.saturating_add(1);
            }
        }
    }
    times
}

/// Whether a scan keeps the column of its files that has this name.
pub fn is_kept(scan: &Value, name: &str) -> bool {
    match items_at(scan, "columns") {
        Some(items) => items.is_empty() || times_in(scan, "columns", name) > 0,
        None => true,
    }
}

/// The names of these columns of a scan.
pub fn names_of(alloc: Global, scan: &Value, which: Columns) -> Result<Vec<&str>, Unsaid> {
    let mut names = Vec::new(alloc);
    if let Some(name) = first_of(scan, "row_index")
        && which != Columns::Files
    {
        names.push(name)?;
    }
    if let Some(items) = items_at(scan, "schema") {
        for item in items {
            if let Some(name) = name_in(item)
                && (which != Columns::Rows || is_kept(scan, name))
            {
                names.push(name)?;
            }
        }
    }
    if let Some(name) = text_at(scan, "path")
        && which != Columns::Files
    {
        names.push(name)?;
    }
    Ok(names)
}

/// Puts the path of a scan last, where a query has two of them.
pub fn write_scan_path(
    out: &mut String,
    query: &Value,
    side: PlacedScan<'_>,
) -> Result<(), AllocError> {
    if right_of(query).is_none() {
        return Ok(());
    }
    out.push_str(side.path)?;
    out.push_str(": ")
}

/// Puts last which columns there are, where this name meets none.
pub fn write_no_column(
    alloc: Global,
    out: &mut String,
    query: &Value,
    name: &str,
) -> Result<(), Unsaid> {
    let Some(left) = left_of(query) else {
        return Err(Unsaid);
    };
    if write_no_column_of(alloc, out, query, left, name)? {
        return Ok(());
    }
    if let Some(right) = right_of(query)
        && (write_no_column_of(alloc, out, query, right, name)?
            || write_no_key(alloc, out, query, left, 0, name)?
            || write_no_key(alloc, out, query, right, 1, name)?)
    {
        return Ok(());
    }
    if write_no_grouped(alloc, out, query, name)? {
        return Ok(());
    }
    Err(Unsaid)
}

/// Puts last which columns a scan has, where its choice or its filter has this name and none of them does, and answers whether
/// it is so.
fn write_no_column_of(
    alloc: Global,
    out: &mut String,
    query: &Value,
    side: PlacedScan<'_>,
    name: &str,
) -> Result<bool, Unsaid> {
    let scan = side.scan;
    if times_in(scan, "columns", name) > 0 && times_in(scan, "schema", name) == 0 {
        write_scan_path(out, query, side)?;
        if !write_always_kept(out, side, name)? {
            write_absent(alloc, out, scan, Columns::Files, name)?;
        }
        return Ok(true);
    }
    let compared = compared_names(alloc, scan)?;
    let known = names_of(alloc, scan, Columns::Whole)?;
    if contains(known.as_slice(), name) || !contains(compared.as_slice(), name) {
        return Ok(false);
    }
    write_scan_path(out, query, side)?;
    write_absent(alloc, out, scan, Columns::Whole, name)?;
    Ok(true)
}

/// Puts last that a name of the choice is that of a column which is kept whatever is chosen, and answers whether it is.
fn write_always_kept(
    out: &mut String,
    side: PlacedScan<'_>,
    name: &str,
) -> Result<bool, AllocError> {
    let key = if first_of(side.scan, "row_index") == Some(name) {
        "row_index"
    } else if text_at(side.scan, "path") == Some(name) {
        "path"
    } else {
        return Ok(false);
    };
    show_name(out, name)?;
    write!(
        out,
        " is named by {}.{key}, and kept without a place in {}.columns",
        side.path, side.path
    )?;
    Ok(true)
}

/// Puts last that a name is none of these columns.
fn write_absent(
    alloc: Global,
    out: &mut String,
    scan: &Value,
    which: Columns,
    name: &str,
) -> Result<(), Unsaid> {
    let names = names_of(alloc, scan, which)?;
    show_name(out, name)?;
    out.push_str(" is no column: ")?;
    write_nearest(alloc, out, name, names.as_slice())?;
    Ok(())
}

/// Puts last which columns the rows of a side have, where a key of the join has this name and none of them does, and answers
/// whether it is so.
fn write_no_key(
    alloc: Global,
    out: &mut String,
    query: &Value,
    side: PlacedScan<'_>,
    number: usize,
    name: &str,
) -> Result<bool, Unsaid> {
    let names = names_of(alloc, side.scan, Columns::Rows)?;
    if contains(names.as_slice(), name) {
        return Ok(false);
    }
    let Some(at) = place_of_key(pairs_of(query), number, name) else {
        return Ok(false);
    };
    write!(out, "join.on[{at}][{number}]: ")?;
    if times_in(side.scan, "schema", name) > 0 {
        show_name(out, name)?;
        write!(out, " is not among {}.columns", side.path)?;
        return Ok(true);
    }
    write_absent(alloc, out, side.scan, Columns::Rows, name)?;
    Ok(true)
}

/// The number of the first pair of keys that has this name on this side.
pub fn place_of_key(pairs: &[Value], side: usize, name: &str) -> Option<usize> {
    let mut at: usize = 0;
    for pair in pairs {
        if name_on(pair, side) == Some(name) {
            return Some(at);
        }
        at = at.saturating_add(1);
    }
    None
}

/// Puts last which places of a query have this name.
pub fn write_duplicate(
    alloc: Global,
    out: &mut String,
    query: &Value,
    name: &str,
) -> Result<(), Unsaid> {
    let Some(left) = left_of(query) else {
        return Err(Unsaid);
    };
    if write_twice(out, left, name)? {
        return Ok(());
    }
    if let Some(right) = right_of(query)
        && (write_twice(out, right, name)? || write_joined(alloc, out, query, left, right, name)?)
    {
        return Ok(());
    }
    if write_grouped(alloc, out, query, name)? {
        return Ok(());
    }
    Err(Unsaid)
}

/// Puts last which places of a scan have this name, where it has two of them, and answers whether it has.
fn write_twice(out: &mut String, side: PlacedScan<'_>, name: &str) -> Result<bool, Unsaid> {
    if times_named(side.scan, name) > 1 {
        show_name(out, name)?;
        out.push_str(" is named by")?;
        write_columns(out, side, name, 0)?;
        return Ok(true);
    }
    if times_in(side.scan, "columns", name) > 1 {
        show_name(out, name)?;
        out.push_str(" is named by")?;
        write_items(out, side, "columns", name, 0)?;
        return Ok(true);
    }
    Ok(false)
}

/// How many of the columns of a scan have this name.
fn times_named(scan: &Value, name: &str) -> usize {
    let mut times = times_in(scan, "schema", name);
    if first_of(scan, "row_index") == Some(name) {
        times = times.saturating_add(1);
    }
    if text_at(scan, "path") == Some(name) {
        times = times.saturating_add(1);
    }
    times
}

/// Puts a place last, which is the first or a further one.
fn write_one(
    out: &mut String,
    side: PlacedScan<'_>,
    key: &str,
    found: usize,
) -> Result<(), AllocError> {
    if found > 0 {
        out.push_str(" and")?;
    }
    write!(out, " {}.{key}", side.path)
}

/// Puts the places of a list last that have a name, behind so many others, and answers how many they are with these.
fn write_items(
    out: &mut String,
    side: PlacedScan<'_>,
    key: &str,
    name: &str,
    found: usize,
) -> Result<usize, AllocError> {
    let Some(items) = items_at(side.scan, key) else {
        return Ok(found);
    };
    let mut found = found;
    let mut number: usize = 0;
    for item in items {
        if name_in(item) == Some(name) {
            write_one(out, side, key, found)?;
            write!(out, "[{number}]")?;
            found = found.saturating_add(1);
        }
        number = number.saturating_add(1);
    }
    Ok(found)
}

/// Puts the places of a scan last that name a column so, behind so many others, and answers how many they are with these.
pub fn write_columns(
    out: &mut String,
    side: PlacedScan<'_>,
    name: &str,
    found: usize,
) -> Result<usize, AllocError> {
    let mut found = write_items(out, side, "schema", name, found)?;
    if first_of(side.scan, "row_index") == Some(name) {
        write_one(out, side, "row_index", found)?;
        found = found.saturating_add(1);
    }
    if text_at(side.scan, "path") == Some(name) {
        write_one(out, side, "path", found)?;
        found = found.saturating_add(1);
    }
    Ok(found)
}
