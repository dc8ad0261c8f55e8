//! Predicates of a query's text.
ghost use Rattle.std.specs.Prelude.{◌≡◌, Some, None, true, IfOk, IfErr, IfSome, IsNone, option_map, is_some};
ghost use Rattle.morsel_frame.specs.Names.{stands_in};
ghost use Rattle.serde_json.specs.Data.{array, object};
ghost use Rattle.serde_json.specs.View.{view, items_view, members_view};
ghost use Rattle.morsel_query_text.specs.Trees.{at_key, some_of};
ghost use Rattle.morsel_query_text.specs.Predicates.{predicate, pred_tree, one_part, two_parts, op_word, one_member, op_words, side_tree, literal_tree, is_test, is_comparison, is_predicate, is_side_member, are_side, is_side, is_literal};
ghost use Rattle.morsel_query_text.specs.Reads.{IsPredOf, Refused, RefusedUnless};

use crate::lists::{name_of, signed_number};
use morsel_expr::{CmpOp, PredNode, Rhs};
use morsel_meaning::{Fault, Name, Value as Literal};
use serde_json::{Map, Value};
use std::alloc::Global;

/// The predicate at a key; none where the key is absent.
pub fn predicate_at(alloc: Global, tree: &Value, key: &str) -> Result<Option<PredNode>, Fault>
    ensures ok { IfOk result (λ value. at_key key.now (some_of predicate) (Some None) (view tree.now) ≡ Some (option_map pred_tree value)) }
    ensures refused { IfErr result (Refused (at_key key.now (some_of predicate) (Some None) (view tree.now))) }
{
    match tree.get(key) {
        Some(found) => Ok(Some(predicate_of(alloc, found)?)),
        None => Ok(None),
    }
}

/// The predicate that a tree is.
#[cycle(predicate)]
fn predicate_of(alloc: Global, tree: &Value) -> Result<PredNode, Fault>
    ensures ok { IfOk result (λ value. IsPredOf (view tree.now) value) }
    ensures refused { IfErr result (RefusedUnless (is_predicate (view tree.now))) }
{
    match tree.as_array() {
        Some(items) => of_items(alloc, items),
        None => Err(Fault::QueryText),
    }
}

/// The predicate of a list of these items.
#[cycle(predicate)]
fn of_items(alloc: Global, items: &[Value]) -> Result<PredNode, Fault>
    ensures ok { IfOk result (λ value. IsPredOf (array (items_view items.now)) value) }
    ensures refused { IfErr result (RefusedUnless (is_predicate (array (items_view items.now)))) }
{
    if items.len() == 2 {
        return match items[0].as_str() {
            Some(word) => of_one_part(alloc, word, &items[1]),
            None => Err(Fault::QueryText),
        };
    }
    if items.len() != 3 {
        return Err(Fault::QueryText);
    }
    match items[0].as_str() {
        Some(word) => of_two_parts(alloc, word, &items[1], &items[2]),
        None => Err(Fault::QueryText),
    }
}

/// The predicate of a word and one part.
#[cycle(predicate)]
fn of_one_part(alloc: Global, word: &str, part: &Value) -> Result<PredNode, Fault>
    ensures ok { IfOk result (λ value. IsPredOf (one_part word.now (view part.now)) value) }
    ensures refused { IfErr result (RefusedUnless (is_predicate (one_part word.now (view part.now)))) }
{
    if word == "not" {
        let node = predicate_of(alloc, part)?;
        return Ok(PredNode::Not(Box::new(alloc, node)?));
    }
    test_of(alloc, word, part)
}

/// The test of one column.
fn test_of(alloc: Global, word: &str, part: &Value) -> Result<PredNode, Fault>
    ensures ok { IfOk result (λ value. (one_part word.now (view part.now) ≡ pred_tree value) × (is_test word.now (view part.now) ≡ true)) }
    ensures refused { IfErr result (RefusedUnless (is_test word.now (view part.now))) }
{
    if word == "null" {
        Ok(PredNode::IsNull(name_of(alloc, part)?))
    } else if word == "notnull" {
        Ok(PredNode::NotNull(name_of(alloc, part)?))
    } else if word == "is" {
        Ok(PredNode::Is(name_of(alloc, part)?))
    } else {
        Err(Fault::QueryText)
    }
}

/// The predicate of a word and two parts.
#[cycle(predicate)]
fn of_two_parts(alloc: Global, word: &str, first: &Value, second: &Value) -> Result<PredNode, Fault>
    ensures ok { IfOk result (λ value. IsPredOf (two_parts word.now (view first.now) (view second.now)) value) }
    ensures refused { IfErr result (RefusedUnless (is_predicate (two_parts word.now (view first.now) (view second.now)))) }
{
    if word == "and" {
        let a = Box::new(alloc, predicate_of(alloc, first)?)?;
        let b = Box::new(alloc, predicate_of(alloc, second)?)?;
        Ok(PredNode::And(a, b))
    } else if word == "or" {
        let a = Box::new(alloc, predicate_of(alloc, first)?)?;
        let b = Box::new(alloc, predicate_of(alloc, second)?)?;
        Ok(PredNode::Or(a, b))
    } else {
        comparison_of(alloc, word, first, second)
    }
}

/// The comparison of a column.
fn comparison_of(
    alloc: Global,
    word: &str,
    first: &Value,
    second: &Value,
) -> Result<PredNode, Fault>
    ensures ok { IfOk result (λ value. (two_parts word.now (view first.now) (view second.now) ≡ pred_tree value) × (is_comparison word.now (view first.now) (view second.now) ≡ true)) }
    ensures refused { IfErr result (RefusedUnless (is_comparison word.now (view first.now) (view second.now))) }
{
    let Some(op) = op_of(word) else {
        return Err(Fault::QueryText);
    };
    let name = name_of(alloc, first)?;
    Ok(PredNode::Cmp(op, name, side_of(alloc, second)?))
}

/// The comparison that a word names.
fn op_of(word: &str) -> Option<CmpOp>
    ensures some { IfSome result (λ op. word.now ≡ op_word op) }
    ensures value { is_some result ≡ stands_in word.now op_words }
{
    if word == "eq" {
        Some(CmpOp::Eq)
    } else if word == "ne" {
        Some(CmpOp::Ne)
    } else if word == "lt" {
        Some(CmpOp::Lt)
    } else if word == "le" {
        Some(CmpOp::Le)
    } else if word == "gt" {
        Some(CmpOp::Gt)
    } else if word == "ge" {
        Some(CmpOp::Ge)
    } else {
        None
    }
}

/// The second side of a comparison: `{"col": name}` or `{"lit": value}`.
fn side_of(alloc: Global, tree: &Value) -> Result<Rhs, Fault>
    ensures ok { IfOk result (λ value. (view tree.now ≡ side_tree value) × (is_side (view tree.now) ≡ true)) }
    ensures refused { IfErr result (RefusedUnless (is_side (view tree.now))) }
{
    match tree.as_object() {
        Some(members) => side_of_members(alloc, members),
        None => Err(Fault::QueryText),
    }
}

/// The second side of a comparison, of its members.
fn side_of_members(alloc: Global, members: &Map<String, Value>) -> Result<Rhs, Fault>
    ensures ok { IfOk result (λ value. (object (members_view members.now.entries) ≡ side_tree value) × (are_side (members_view members.now.entries) ≡ true)) }
    ensures refused { IfErr result (RefusedUnless (are_side (members_view members.now.entries))) }
{
    let mut entries = members.iter();
    let Some((key, value)) = entries.next() else {
        return Err(Fault::QueryText);
    };
    if entries.next().is_some() {
        return Err(Fault::QueryText);
    }
    side_of_member(alloc, key.as_str(), value)
}

/// The second side of a comparison, of its one member.
fn side_of_member(alloc: Global, key: &str, value: &Value) -> Result<Rhs, Fault>
    ensures ok { IfOk result (λ side. (one_member key.now (view value.now) ≡ side_tree side) × (is_side_member key.now (view value.now) ≡ true)) }
    ensures refused { IfErr result (RefusedUnless (is_side_member key.now (view value.now))) }
{
    if key == "col" {
        Ok(Rhs::Col(name_of(alloc, value)?))
    } else if key == "lit" {
        Ok(Rhs::Lit(literal_of(alloc, value)?))
    } else {
        Err(Fault::QueryText)
    }
}

/// A value.
fn literal_of(alloc: Global, tree: &Value) -> Result<Literal, Fault>
    ensures ok { IfOk result (λ value. ((view tree.now) ≡ literal_tree value) × (is_literal (view tree.now) ≡ true)) }
    ensures refused { IfErr result (RefusedUnless (is_literal (view tree.now))) }
{
    match tree {
        Value::Null => Ok(Literal::Null),
        Value::Bool(flag) => Ok(Literal::Bool(*flag)),
        Value::Number(_) => match signed_number(tree) {
            Some(n) => Ok(Literal::Int(n)),
            None => Err(Fault::QueryText),
        },
        Value::String(text) => Ok(Literal::Text(Name::new(alloc, text.as_str())?)),
        _ => Err(Fault::QueryText),
    }
}
