//! The columns of a join's rows.

use crate::names::{Columns, first_of, is_kept, names_of, place_of_key, times_in, write_columns};
use crate::scans::{PlacedScan, pairs_of};
use crate::shown::show_name;
use crate::table::text_at;
use crate::unsaid::Unsaid;
use serde_json::Value;
use std::alloc::Global;

/// Puts last which columns of the sides of a join have this name among those of its rows, where two have, and answers whether two
/// have.
pub fn write_joined(
    alloc: Global,
    out: &mut String,
    query: &Value,
    left: PlacedScan<'_>,
    right: PlacedScan<'_>,
    name: &str,
) -> Result<bool, Unsaid> {
    let before = name_before(query, left, right, name);
    let mut places = String::new(alloc);
    let mut found: usize = 0;
    // A suffixed name is not to be that of a left column, whether the rows have it or not.
    if is_column(left.scan, name) && (before.is_some() || keeps_left(query, name)) {
        found = write_columns(&mut places, left, name, 0)?;
    }
    if is_column(right.scan, name) && keeps_name(query, left, name) {
        found = write_columns(&mut places, right, name, found)?;
    }
    if let Some(before) = before {
        found = write_columns(&mut places, right, before, found)?;
        places.push_str(" with the suffix ")?;
        show_name(&mut places, suffix_of(query))?;
    }
    if found < 2 {
        return Ok(false);
    }
    show_name(out, name)?;
    write!(out, " is named by{places}")?;
    Ok(true)
}

/// The names of the columns of a join's rows.
pub fn joined_names(
    alloc: Global,
    query: &Value,
    left: PlacedScan<'_>,
    right: PlacedScan<'_>,
) -> Result<Vec<String>, Unsaid> {
    let mut names = Vec::new(alloc);
    let lefts = names_of(alloc, left.scan, Columns::Rows)?;
    for name in lefts.as_slice() {
        let name = *name;
        if keeps_left(query, name) {
            names.push(String::from_str(alloc, name)?)?;
        }
    }
    let suffix = suffix_of(query);
    let rights = names_of(alloc, right.scan, Columns::Rows)?;
    for name in rights.as_slice() {
        let name = *name;
        if keeps_name(query, left, name) {
            names.push(String::from_str(alloc, name)?)?;
        } else if has_suffix(query, left, name) {
            names.push(format!(in alloc; "{name}{suffix}")?)?;
        }
    }
    Ok(names)
}

/// The scan whose column has this name in a join's rows, and the name that it has there.
pub fn side_named<'t, 'n>(
    query: &Value,
    left: PlacedScan<'t>,
    right: PlacedScan<'t>,
    name: &'n str,
) -> Option<(PlacedScan<'t>, &'n str)> {
    if is_column(left.scan, name) && keeps_left(query, name) {
        return Some((left, name));
    }
    if is_column(right.scan, name) && keeps_name(query, left, name) {
        return Some((right, name));
    }
    let before = name_before(query, left, right, name)?;
    Some((right, before))
}

/// The name of the right column that has this name in a join's rows, by its suffix.
fn name_before<'n>(
    query: &Value,
    left: PlacedScan<'_>,
    right: PlacedScan<'_>,
    name: &'n str,
) -> Option<&'n str> {
    let before = name.strip_suffix(suffix_of(query))?;
    if is_column(right.scan, before) && has_suffix(query, left, before) {
        Some(before)
    } else {
        None
    }
}

/// Whether a left column of this name is one of a join's rows.
fn keeps_left(query: &Value, name: &str) -> bool {
    let is_left_key = place_of_key(pairs_of(query), 0, name).is_some();
    !(is_left_key && coalesces(query) && kind_is_right(query))
}

/// Whether a right column of this name has it in a join's rows.
fn keeps_name(query: &Value, left: PlacedScan<'_>, name: &str) -> bool {
    if is_coalesced(query, name) {
        return kind_is_right(query);
    }
    !is_column(left.scan, name)
}

/// Whether a right column of this name has it with the suffix in a join's rows.
fn has_suffix(query: &Value, left: PlacedScan<'_>, name: &str) -> bool {
    !is_coalesced(query, name) && is_column(left.scan, name)
}

/// Whether the right column of this name and a left one become one.
fn is_coalesced(query: &Value, name: &str) -> bool {
    coalesces(query) && place_of_key(pairs_of(query), 1, name).is_some()
}

/// Whether the two columns of a pair of keys become one.
fn coalesces(query: &Value) -> bool {
    match query.get("join") {
        Some(join) => join.get("coalesce") != Some(&Value::Bool(false)),
        None => false,
    }
}

/// Whether a join keeps the lone right rows alone.
fn kind_is_right(query: &Value) -> bool {
    match query.get("join") {
        Some(join) => text_at(join, "kind") == Some("right"),
        None => false,
    }
}

/// What is put behind the name of a right column that a left one has too.
fn suffix_of(query: &Value) -> &str {
    let found = match query.get("join") {
        Some(join) => text_at(join, "suffix"),
        None => None,
    };
    found.unwrap_or("_right")
}

/// Whether a column of a scan's rows has this name.
fn is_column(scan: &Value, name: &str) -> bool {
    first_of(scan, "row_index") == Some(name)
        || text_at(scan, "path") == Some(name)
        || times_in(scan, "schema", name) > 0 && is_kept(scan, name)
}
