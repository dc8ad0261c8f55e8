//! What is wrong with a query's group-by.

use crate::joined::{joined_names, side_named};
use crate::names::{Columns, names_of, times_in};
use crate::nearest::write_nearest;
use crate::scans::{PlacedScan, left_of, right_of};
use crate::shown::show_name;
use crate::table::{contains, items_at};
use crate::unsaid::Unsaid;
use serde_json::Value;
use std::alloc::{AllocError, Global};

/// The list at a key of a query's group-by; none where there is none.
pub fn list_of_group<'t>(query: &'t Value, key: &str) -> &'t [Value] {
    match query.get("group") {
        Some(group) => match items_at(group, key) {
            Some(items) => items,
            None => &[],
        },
        None => &[],
    }
}

/// The text at a place of a list.
pub fn text_in(list: &Value, at: usize) -> Option<&str> {
    list.get(at)?.as_str()
}

/// The scan whose column has this name among those that are grouped, and the name that it has there.
pub fn side_grouped<'t, 'n>(query: &'t Value, name: &'n str) -> Option<(PlacedScan<'t>, &'n str)> {
    let left = left_of(query)?;
    match right_of(query) {
        Some(right) => side_named(query, left, right, name),
        None => Some((left, name)),
    }
}

/// Puts last which key a group-by names twice.
pub fn write_repeated(out: &mut String, query: &Value) -> Result<(), AllocError> {
    let keys = list_of_group(query, "keys");
    let mut number: usize = 0;
    for key in keys {
        if let Some(name) = key.as_str()
            && is_named_before(keys, number, name)
        {
            write!(out, "group.keys[{number}]: ")?;
            show_name(out, name)?;
            return out.push_str(" is there twice");
        }
        number = number.saturating_add(1);
    }
    Ok(())
}

/// Whether one of so many first keys has the name.
fn is_named_before(keys: &[Value], number: usize, name: &str) -> bool {
    for key in keys.iter().take(number) {
        if key.as_str() == Some(name) {
            return true;
        }
    }
    false
}

/// Puts last which columns are grouped, where a key or a reduction has this name and none of them does, and answers whether it is
/// so.
pub fn write_no_grouped(
    alloc: Global,
    out: &mut String,
    query: &Value,
    name: &str,
) -> Result<bool, Unsaid> {
    let Some(left) = left_of(query) else {
        return Err(Unsaid);
    };
    if let Some(right) = right_of(query) {
        let names = joined_names(alloc, query, left, right)?;
        let mut known = Vec::new(alloc);
        for name in names.as_slice() {
            known.push(name.as_str())?;
        }
        return write_not_among(alloc, out, query, known.as_slice(), name);
    }
    let known = names_of(alloc, left.scan, Columns::Rows)?;
    if times_in(left.scan, "schema", name) > 0 && !contains(known.as_slice(), name) {
        return write_left_out(out, query, left, name);
    }
    write_not_among(alloc, out, query, known.as_slice(), name)
}

/// Puts last that a column of a group-by is left out by a scan's choice, and answers whether it has one of this name.
fn write_left_out(
    out: &mut String,
    query: &Value,
    side: PlacedScan<'_>,
    name: &str,
) -> Result<bool, Unsaid> {
    if !write_place(out, query, name)? {
        return Ok(false);
    }
    show_name(out, name)?;
    write!(out, " is not among {}.columns", side.path)?;
    Ok(true)
}

/// Puts last that a column of a group-by is none of these, and answers whether it has one of this name.
fn write_not_among(
    alloc: Global,
    out: &mut String,
    query: &Value,
    known: &[&str],
    name: &str,
) -> Result<bool, Unsaid> {
    if contains(known, name) || !write_place(out, query, name)? {
        return Ok(false);
    }
    show_name(out, name)?;
    out.push_str(" is no column: ")?;
    write_nearest(alloc, out, name, known)?;
    Ok(true)
}

/// Puts the first place of a group-by last that reads the column of this name, and answers whether one does.
fn write_place(out: &mut String, query: &Value, name: &str) -> Result<bool, AllocError> {
    let mut number: usize = 0;
    for key in list_of_group(query, "keys") {
        if key.as_str() == Some(name) {
            write!(out, "group.keys[{number}]: ")?;
            return Ok(true);
        }
        number = number.saturating_add(1);
    }
    let mut number: usize = 0;
    for agg in list_of_group(query, "aggs") {
        if text_in(agg, 1) == Some(name) {
            write!(out, "group.aggs[{number}][1]: ")?;
            return Ok(true);
        }
        number = number.saturating_add(1);
    }
    Ok(false)
}

/// Puts last which columns of a group-by's rows have this name, where two have, and answers whether two have.
pub fn write_grouped(
    alloc: Global,
    out: &mut String,
    query: &Value,
    name: &str,
) -> Result<bool, Unsaid> {
    let mut places = String::new(alloc);
    let mut found: usize = 0;
    let mut number: usize = 0;
    for key in list_of_group(query, "keys") {
        if key.as_str() == Some(name) {
            found = write_one_more(&mut places, "keys", number, found)?;
        }
        number = number.saturating_add(1);
    }
    let mut number: usize = 0;
    for agg in list_of_group(query, "aggs") {
        if text_in(agg, 2) == Some(name) {
            found = write_one_more(&mut places, "aggs", number, found)?;
        }
        number = number.saturating_add(1);
    }
    if found < 2 {
        return Ok(false);
    }
    show_name(out, name)?;
    write!(out, " is named by{places}")?;
    Ok(true)
}

/// Puts a place of a group-by last, behind so many others, and answers how many they are with it.
fn write_one_more(
    out: &mut String,
    key: &str,
    number: usize,
    found: usize,
) -> Result<usize, AllocError> {
    if found > 0 {
        out.push_str(" and")?;
    }
    write!(out, " group.{key}[{number}]")?;
    Ok(found.saturating_add(1))
}
