//! A join of a query's text.
ghost use Rattle.std.specs.Prelude.{◌≡◌, Some, None, codes, IfOk, IfErr, option_map, option_and_then};
ghost use Rattle.serde_json.specs.Find.{as_str};
ghost use Rattle.serde_json.specs.View.{view, items_view};
ghost use Rattle.morsel_join.specs.declared.join_type.JoinType.TheVariants as types;
ghost use Rattle.morsel_join.specs.declared.join_type.MaintainOrderJoin.TheVariants as orders;
ghost use Rattle.morsel_query.specs.declared.join.JoinHow.TheVariants as hows;
ghost use Rattle.morsel_query_text.specs.Trees.{at_key, each_as, list_of, word_as};
ghost use Rattle.morsel_query_text.specs.QueryTexts.{JoinOf, how_named, join_type_named, key_of, order_named};
ghost use Rattle.morsel_query_text.specs.Borrowed.{join_of_text};
ghost use Rattle.morsel_query_text.specs.Reads.{AreJoinArgs, Refused, RefusedBy};

use crate::lists::pair_of;
use crate::scan::{ScanText, read_scan};
use crate::trees::{has_only_keys, text_at, truth_at};
use morsel_join::{JoinArgs, JoinType, MaintainOrderJoin};
use morsel_meaning::{Fault, Name};
use morsel_query::JoinHow;
use serde_json::Value;
use std::alloc::Global;

/// A join as a query's text has it, before its flaws are looked for.
#[derive(Debug, Drop)]
pub struct JoinText<'t> {
    pub right: ScanText<'t>,
    pub left_keys: Vec<Name>,
    pub right_keys: Vec<Name>,
    pub args: JoinArgs,
    pub how: JoinHow,
}

/// A side of a join.
#[derive(Clone, Copy, Debug)]
pub enum KeySide {
    /// The scan of the query.
    Left,
    /// The scan of the join.
    Right,
}

/// The keys of a join.
const KEYS: [&str; 8] = [
    "right", "on", "kind", "order", "nulls", "coalesce", "suffix", "how",
];

/// The join that a tree is.
pub fn read_join(alloc: Global, tree: &Value) -> Result<JoinText<'_>, Fault>
    ensures ok { IfOk result (λ join. JoinOf (view tree.now) (join_of_text join)) }
    ensures refused { IfErr result (RefusedBy (JoinOf (view tree.now))) }
{
    if !has_only_keys(tree, &KEYS) {
        return Err(Fault::QueryText);
    }
    let Some(how) = how_at(tree) else {
        return Err(Fault::QueryText);
    };
    let Some(right) = tree.get("right") else {
        return Err(Fault::QueryText);
    };
    let args = read_args(alloc, tree)?;
    let left_keys = keys_due_at(alloc, tree, KeySide::Left)?;
    let right_keys = keys_due_at(alloc, tree, KeySide::Right)?;
    let right = read_scan(alloc, right)?;
    Ok(JoinText {
        right,
        left_keys,
        right_keys,
        args,
        how,
    })
}

/// What a join asks of its rows.
fn read_args(alloc: Global, tree: &Value) -> Result<JoinArgs, Fault>
    ensures ok { IfOk result (AreJoinArgs (view tree.now)) }
    ensures refused { IfErr result (RefusedBy (AreJoinArgs (view tree.now))) }
{
    let Some(how) = join_type_at(tree) else {
        return Err(Fault::QueryText);
    };
    let Some(maintain_order) = order_at(tree) else {
        return Err(Fault::QueryText);
    };
    let Some(join_nulls) = truth_at(tree, "nulls", false) else {
        return Err(Fault::QueryText);
    };
    let Some(coalesce) = truth_at(tree, "coalesce", true) else {
        return Err(Fault::QueryText);
    };
    let suffix = suffix_at(alloc, tree)?;
    Ok(JoinArgs {
        how,
        maintain_order,
        join_nulls,
        coalesce,
        suffix,
    })
}

/// What is put behind the name of a right column that a left column has too.
fn suffix_at(alloc: Global, tree: &Value) -> Result<Name, Fault>
    ensures ok { IfOk result (λ value. at_key (codes "suffix") as_str (Some (codes "_right")) (view tree.now) ≡ Some value) }
    ensures refused { IfErr result (Refused (at_key (codes "suffix") as_str (Some (codes "_right")) (view tree.now))) }
{
    match text_at(tree, "suffix", Some("_right")) {
        Some(text) => Name::new(alloc, text),
        None => Err(Fault::QueryText),
    }
}

/// Which rows a join has beside the pairs; none where the word is no kind of joins.
fn join_type_at(tree: &Value) -> Option<JoinType>
    ensures { result ≡ at_key (codes "kind") (word_as join_type_named) (Some types.Inner) (view tree.now) }
{
    match tree.get("kind") {
        Some(found) => join_type_of(found),
        None => Some(JoinType::Inner),
    }
}

/// The kind of joins that a text names.
fn join_type_of(tree: &Value) -> Option<JoinType>
    ensures { result ≡ word_as join_type_named (view tree.now) }
{
    match tree.as_str() {
        Some(word) => join_type_named(word),
        None => None,
    }
}

/// The kind of joins that a word names.
fn join_type_named(word: &str) -> Option<JoinType>
    ensures { result ≡ join_type_named word.now }
{
    if word == "inner" {
        Some(JoinType::Inner)
    } else if word == "left" {
        Some(JoinType::Left)
    } else if word == "right" {
        Some(JoinType::Right)
    } else if word == "full" {
        Some(JoinType::Full)
    } else {
        None
    }
}

/// The order of a join's rows; none where the word is no order.
fn order_at(tree: &Value) -> Option<MaintainOrderJoin>
    ensures { result ≡ at_key (codes "order") (word_as order_named) (Some orders.None) (view tree.now) }
{
    match tree.get("order") {
        Some(found) => order_of(found),
        None => Some(MaintainOrderJoin::None),
    }
}

/// The order that a text names.
fn order_of(tree: &Value) -> Option<MaintainOrderJoin>
    ensures { result ≡ word_as order_named (view tree.now) }
{
    match tree.as_str() {
        Some(word) => order_named(word),
        None => None,
    }
}

/// The order that a word names.
fn order_named(word: &str) -> Option<MaintainOrderJoin>
    ensures { result ≡ order_named word.now }
{
    if word == "none" {
        Some(MaintainOrderJoin::None)
    } else if word == "left" {
        Some(MaintainOrderJoin::Left)
    } else if word == "right" {
        Some(MaintainOrderJoin::Right)
    } else if word == "left_right" {
        Some(MaintainOrderJoin::LeftRight)
    } else if word == "right_left" {
        Some(MaintainOrderJoin::RightLeft)
    } else {
        None
    }
}

/// How the rows of a join are found; none where the word is no way.
fn how_at(tree: &Value) -> Option<JoinHow>
    ensures { result ≡ at_key (codes "how") (word_as how_named) (Some hows.Hash) (view tree.now) }
{
    match tree.get("how") {
        Some(found) => how_of(found),
        None => Some(JoinHow::Hash),
    }
}

/// The way that a text names.
fn how_of(tree: &Value) -> Option<JoinHow>
    ensures { result ≡ word_as how_named (view tree.now) }
{
    match tree.as_str() {
        Some(word) => how_named(word),
        None => None,
    }
}

/// The way that a word names.
fn how_named(word: &str) -> Option<JoinHow>
    ensures { result ≡ how_named word.now }
{
    if word == "hash" {
        Some(JoinHow::Hash)
    } else {
        None
    }
}

/// The keys of a side, which have to be there.
fn keys_due_at(alloc: Global, tree: &Value, side: KeySide) -> Result<Vec<Name>, Fault>
    ensures ok { IfOk result (λ value. at_key (codes "on") (list_of (key_of side)) None (view tree.now) ≡ Some value.items) }
    ensures refused { IfErr result (Refused (at_key (codes "on") (list_of (key_of side)) None (view tree.now))) }
{
    match tree.get("on") {
        Some(found) => keys_of_list(alloc, found, side),
        None => Err(Fault::QueryText),
    }
}

/// The keys of a side that a list has.
fn keys_of_list(alloc: Global, tree: &Value, side: KeySide) -> Result<Vec<Name>, Fault>
    ensures ok { IfOk result (λ value. list_of (key_of side) (view tree.now) ≡ Some value.items) }
    ensures refused { IfErr result (Refused (list_of (key_of side) (view tree.now))) }
{
    match tree.as_array() {
        Some(items) => keys_of_items(alloc, items, side),
        None => Err(Fault::QueryText),
    }
}

/// The key of a side that each item has.
fn keys_of_items(alloc: Global, items: &[Value], side: KeySide) -> Result<Vec<Name>, Fault>
    ensures ok { IfOk result (λ value. each_as (key_of side) (items_view items.now) ≡ Some value.items) }
    ensures refused { IfErr result (Refused (each_as (key_of side) (items_view items.now))) }
{
    let mut names = Vec::new(alloc);
    for item in items {
        names.push(key_of(alloc, item, side)?)?;
    }
    Ok(names)
}

/// The key of a side that `[left name, right name]` has.
fn key_of(alloc: Global, tree: &Value, side: KeySide) -> Result<Name, Fault>
    ensures ok { IfOk result (λ value. key_of side (view tree.now) ≡ Some value) }
    ensures refused { IfErr result (Refused (key_of side (view tree.now))) }
{
    match key_text(tree, side) {
        Some(text) => Name::new(alloc, text),
        None => Err(Fault::QueryText),
    }
}

/// The text of the key of a side that `[left name, right name]` has.
fn key_text<'t>(tree: &'t Value, side: KeySide) -> Option<&'t str>
    ensures { option_map (λ text. text.now) result ≡ key_of side (view tree.now) }
{
    let (left, right) = pair_of(tree)?;
    let left = left.as_str()?;
    let right = right.as_str()?;
    match side {
        KeySide::Left => Some(left),
        KeySide::Right => Some(right),
    }
}
