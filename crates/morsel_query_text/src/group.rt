//! A group-by of a query's text.
ghost use Rattle.std.specs.Prelude.{◌≡◌, Some, [], codes, IfOk, IfErr};
ghost use Rattle.serde_json.specs.View.{view, items_view};
ghost use Rattle.morsel_group.specs.Asked.{HaveColumns};
ghost use Rattle.morsel_query_text.specs.Trees.{at_key, each_as, list_of, word_as};
ghost use Rattle.morsel_query_text.specs.QueryTexts.{GroupOf, agg_of, agg_of_parts, has_its_column, reduction_named};
ghost use Rattle.morsel_query_text.specs.Borrowed.{lent};
ghost use Rattle.morsel_query_text.specs.Reads.{Refused, RefusedBy};

use crate::csv::name_if;
use crate::lists::{names_due_at, triple_of};
use crate::trees::{has_only_keys, text_or_null_of};
use morsel_group::{Agg, GroupSpec};
use morsel_keys::Reduction;
use morsel_meaning::{Fault, Name};
use serde_json::Value;
use std::alloc::Global;

/// The keys of a group-by.
const KEYS: [&str; 2] = ["keys", "aggs"];

/// The group-by that a tree is.
pub fn read_group(alloc: Global, tree: &Value) -> Result<GroupSpec, Fault>
    ensures ok { IfOk result (λ group. GroupOf (view tree.now) group) }
    ensures columns { IfOk result (λ group. HaveColumns group.aggs) }
    ensures refused { IfErr result (RefusedBy (GroupOf (view tree.now))) }
{
    if !has_only_keys(tree, &KEYS) {
        return Err(Fault::QueryText);
    }
    let keys = names_due_at(alloc, tree, "keys")?;
    let aggs = aggs_at(alloc, tree)?;
    Ok(GroupSpec { keys, aggs })
}

/// The reductions of a group-by; none where the key is absent.
fn aggs_at(alloc: Global, tree: &Value) -> Result<Vec<Agg>, Fault>
    ensures ok { IfOk result (λ value. at_key (codes "aggs") (list_of agg_of) (Some []) (view tree.now) ≡ Some value.items) }
    ensures refused { IfErr result (Refused (at_key (codes "aggs") (list_of agg_of) (Some []) (view tree.now))) }
{
    match tree.get("aggs") {
        Some(found) => aggs_of_list(alloc, found),
        None => Ok(Vec::new(alloc)),
    }
}

/// The reductions that a list has.
fn aggs_of_list(alloc: Global, tree: &Value) -> Result<Vec<Agg>, Fault>
    ensures ok { IfOk result (λ value. list_of agg_of (view tree.now) ≡ Some value.items) }
    ensures refused { IfErr result (Refused (list_of agg_of (view tree.now))) }
{
    match tree.as_array() {
        Some(items) => aggs_of_items(alloc, items),
        None => Err(Fault::QueryText),
    }
}

/// Each item as a reduction.
fn aggs_of_items(alloc: Global, items: &[Value]) -> Result<Vec<Agg>, Fault>
    ensures ok { IfOk result (λ value. each_as agg_of (items_view items.now) ≡ Some value.items) }
    ensures refused { IfErr result (Refused (each_as agg_of (items_view items.now))) }
{
    let mut aggs = Vec::new(alloc);
    for item in items {
        aggs.push(agg_of(alloc, item)?)?;
    }
    Ok(aggs)
}

/// `[op, name, output]`, with null for the name exactly where `op` is `len`.
fn agg_of(alloc: Global, tree: &Value) -> Result<Agg, Fault>
    ensures ok { IfOk result (λ value. agg_of (view tree.now) ≡ Some value) }
    ensures refused { IfErr result (Refused (agg_of (view tree.now))) }
{
    let Some((op, column, output)) = triple_of(tree) else {
        return Err(Fault::QueryText);
    };
    let Some(op) = reduction_of(op) else {
        return Err(Fault::QueryText);
    };
    let Some(column) = text_or_null_of(column) else {
        return Err(Fault::QueryText);
    };
    let Some(output) = output.as_str() else {
        return Err(Fault::QueryText);
    };
    agg_of_parts(alloc, op, column, output)
}

/// The reduction of a column, into a column of this name.
fn agg_of_parts(
    alloc: Global,
    op: Reduction,
    column: Option<&str>,
    output: &str,
) -> Result<Agg, Fault>
    ensures ok { IfOk result (λ value. agg_of_parts (Some op) (Some (lent column.entry)) (Some output.now) ≡ Some value) }
    ensures refused { IfErr result (Refused (agg_of_parts (Some op) (Some (lent column.entry)) (Some output.now))) }
{
    if !has_its_column(op, column) {
        return Err(Fault::QueryText);
    }
    let column = name_if(alloc, column)?;
    let output = Name::new(alloc, output)?;
    Ok(Agg { op, column, output })
}

/// Whether a count of rows has no column, or another reduction has one.
fn has_its_column(op: Reduction, column: Option<&str>) -> bool
    ensures { result ≡ has_its_column op (lent column.entry) }
{
    match op {
        Reduction::Len => column.is_none(),
        _ => column.is_some(),
    }
}

/// The reduction that a text names.
fn reduction_of(tree: &Value) -> Option<Reduction>
    ensures { result ≡ word_as reduction_named (view tree.now) }
{
    match tree.as_str() {
        Some(word) => reduction_named(word),
        None => None,
    }
}

/// The reduction that a word names.
fn reduction_named(word: &str) -> Option<Reduction>
    ensures { result ≡ reduction_named word.now }
{
    if word == "len" {
        Some(Reduction::Len)
    } else if word == "sum" {
        Some(Reduction::Sum)
    } else if word == "min" {
        Some(Reduction::Min)
    } else if word == "max" {
        Some(Reduction::Max)
    } else if word == "first" {
        Some(Reduction::First)
    } else if word == "last" {
        Some(Reduction::Last)
    } else {
        None
    }
}
