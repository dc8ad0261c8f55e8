//! A query as its text has it, before its flaws are looked for.
ghost use Rattle.std.specs.Prelude.{Some, None, codes, option_map, IfOk, IfErr, IfSome, IsNone};
ghost use Rattle.serde_json.specs.View.{view};
ghost use Rattle.morsel_query.specs.Queries.{HaveTheirColumns};
ghost use Rattle.morsel_query.specs.RunOptions.{RunOptions, standard_options};
ghost use Rattle.morsel_query_text.specs.Trees.{IsAtKey, SomeOf};
ghost use Rattle.morsel_query_text.specs.Written.{WrittenSink, sink_written};
ghost use Rattle.morsel_query_text.specs.QueryTexts.{QueryOf, JoinOf, GroupOf, SinkOf, OptionsOf};
ghost use Rattle.morsel_query_text.specs.Borrowed.{query_of_text, join_of_text, numbers_of};
ghost use Rattle.morsel_query_text.specs.Reads.{RefusedBy};

use crate::group::read_group;
use crate::join::{JoinText, read_join};
use crate::options::OptionNumbers;
use crate::scan::{ScanText, read_scan};
use crate::trees::{has_only_keys, text_at};
use morsel_group::GroupSpec;
use morsel_meaning::Fault;
use morsel_sink::SinkFormat;
use serde_json::Value;
use std::alloc::Global;

/// A query as its text has it, before its flaws are looked for.
#[derive(Debug, Drop)]
pub struct QueryText<'t> {
    pub left: ScanText<'t>,
    pub join: Option<JoinText<'t>>,
    pub group: Option<GroupSpec>,
    pub sink: SinkFormat,
    pub options: OptionNumbers,
}

/// The keys of a query.
const KEYS: [&str; 5] = ["left", "join", "group", "sink", "options"];

/// The query that a tree is.
pub fn read_query(alloc: Global, tree: &Value) -> Result<QueryText<'_>, Fault>
    ensures ok { IfOk result (λ query. QueryOf (view tree.now) (query_of_text query)) }
    ensures columns { IfOk result (λ query. HaveTheirColumns query.group) }
    ensures refused { IfErr result (RefusedBy (QueryOf (view tree.now))) }
{
    if !has_only_keys(tree, &KEYS) {
        return Err(Fault::QueryText);
    }
    let Some(sink) = sink_at(tree) else {
        return Err(Fault::QueryText);
    };
    let Some(options) = options_at(tree) else {
        return Err(Fault::QueryText);
    };
    let Some(left) = tree.get("left") else {
        return Err(Fault::QueryText);
    };
    let left = read_scan(alloc, left)?;
    let join = join_at(alloc, tree)?;
    let group = group_at(alloc, tree)?;
    Ok(QueryText {
        left,
        join,
        group,
        sink,
        options,
    })
}

/// The join of a query; none where the key is absent.
#[tactic(auto, using(crate::proofs::JoinLemmas::refused_join))]
fn join_at(alloc: Global, tree: &Value) -> Result<Option<JoinText<'_>>, Fault>
    ensures ok { IfOk result (λ join. IsAtKey (codes "join") (SomeOf JoinOf) (Some None) (view tree.now) (option_map join_of_text join)) }
    ensures refused { IfErr result (RefusedBy (IsAtKey (codes "join") (SomeOf JoinOf) (Some None) (view tree.now))) }
{
    match tree.get("join") {
        Some(found) => Ok(Some(read_join(alloc, found)?)),
        None => Ok(None),
    }
}

/// The group-by of a query; none where the key is absent.
#[tactic(auto, using(crate::proofs::GroupLemmas::refused_group))]
fn group_at(alloc: Global, tree: &Value) -> Result<Option<GroupSpec>, Fault>
    ensures ok { IfOk result (λ group. IsAtKey (codes "group") (SomeOf GroupOf) (Some None) (view tree.now) group) }
    ensures columns { IfOk result (λ group. HaveTheirColumns group) }
    ensures refused { IfErr result (RefusedBy (IsAtKey (codes "group") (SomeOf GroupOf) (Some None) (view tree.now))) }
{
    match tree.get("group") {
        Some(found) => Ok(Some(read_group(alloc, found)?)),
        None => Ok(None),
    }
}

/// The sink of a query.
fn sink_at(tree: &Value) -> Option<SinkFormat>
    ensures some { IfSome result (λ sink. IsAtKey (codes "sink") SinkOf None (view tree.now) (sink_written sink)) }
    ensures none { IsNone result → (sink : WrittenSink) → IsAtKey (codes "sink") SinkOf None (view tree.now) sink → ⊥ }
{
    let sink = tree.get("sink")?;
    if !has_only_keys(sink, &["format"]) {
        return None;
    }
    if text_at(sink, "format", None)? == "ndjson" {
        Some(SinkFormat::NdJson)
    } else {
        None
    }
}

/// The options of a query.
fn options_at(tree: &Value) -> Option<OptionNumbers>
    ensures some { IfSome result (λ numbers. IsAtKey (codes "options") OptionsOf (Some standard_options) (view tree.now) (numbers_of numbers)) }
    ensures none { IsNone result → (options : RunOptions) → IsAtKey (codes "options") OptionsOf (Some standard_options) (view tree.now) options → ⊥ }
{
    match tree.get("options") {
        Some(found) => OptionNumbers::read(found),
        None => Some(OptionNumbers::standard()),
    }
}
