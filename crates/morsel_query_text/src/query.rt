//! The query of a JSON tree.
ghost use Rattle.std.specs.Prelude.{IfOk, IfErr};
ghost use Rattle.serde_json.specs.View.{view};
ghost use Rattle.morsel_query_text.specs.Predicates.{IsOnePredicate};
ghost use Rattle.morsel_query_text.specs.QueryTexts.{IsOneQuery};
ghost use Rattle.morsel_query_text.specs.Answers.{IsQueryText, RefusesText};

use crate::make::make_query;
use crate::text::read_query;
use morsel_meaning::Fault;
use morsel_query::{Options, Query};
use serde_json::Value;
use std::alloc::Global;

/// The query that a JSON tree is, into a sink of the name `out`, with the options by which it is to be run.
///
/// A tree that is no query is `QueryText`. One that has flaws is `InvalidQuery`, for one of them. Where it has none and a schema
/// has a name twice, the first name that an earlier field has is `Duplicate`.
pub fn query_of(alloc: Global, tree: &Value, out: &str) -> Result<(Query, Options), Fault>
    ensures ok { IfOk result (λ pair. IsQueryText (view tree.now) out.now pair.0 pair.1) }
    ensures refused { IfErr result (RefusesText (view tree.now) out.now) }
{
    let text = read_query(alloc, tree)?;
    make_query(alloc, text, out)
}

/// A tree is at most one query, so what `query_of` may answer is one answer, or that memory is out.
pub fn a_tree_is_one_query()
    ensures { IsOneQuery }
{}

/// A query has its filter as a tree, and a tree is at most one predicate: two that are written as it differ in nothing that a row,
/// a schema or a scan sees.
pub fn a_tree_is_one_predicate()
    ensures { IsOnePredicate }
{}
