//! Queries.
ghost use Rattle.std.specs.Prelude.{◌≡◌, ◌∷◌, [], Some, None, IfOk, IfErr, OnOk, IfSome, IsNone, option_map};
ghost use Rattle.morsel_query.specs.Queries.{file_scan, join_part, query_parts, HaveTheirColumns};
ghost use Rattle.morsel_query.specs.QueryFlaws.{side_of, right_sides, keys_of, sides_of, keys_of_query, keys_of_group, AreSound, IsFlaw, IsSound, IsFlawFault};

use crate::{JoinSpec, flaw_of_group, flaw_of_keys, flaw_of_side};
use morsel_group::GroupSpec;
use morsel_meaning::{Fault, Why};
use morsel_scan::{ScanFormat, ScanSpec};
use morsel_sink::SinkSpec;
use std::marker::Model;

/// A query: a scan, a join with another scan if there is one, a group-by of the rows if there is one, and a sink.
///
/// Each scan has 1 to 65,536 sources, and CSV files of 1 to 65,535 columns; a join has as many left keys as right ones, at least
/// one, and names none twice on one side; a group-by has at least one key, names none twice, and each of its reductions but a count of
/// rows has a column; and the sink's name is not the name of a source.
#[derive(Debug, Drop)]
pub struct Query {
    left: ScanSpec,
    join: Option<JoinSpec>,
    group: Option<GroupSpec>,
    sink: SinkSpec,
}

impl Model for Query {
    ghost use Rattle.morsel_query.specs.Queries.{QueryParts, query_parts, HaveTheirColumns};
    ghost use Rattle.morsel_query.specs.QueryFlaws.{IsSound};

    ghost Value = { QueryParts };

    ghost use Rattle.morsel_expr.specs.contracts.node.PredNode as tree;
    ghost use Rattle.std.specs.Coded.{codes};

    ghost coded = { Prim.hlevel (codes, tree.the_row.coded) };

    ghost view = { λ query. query_parts query.left query.join query.group query.sink };

    ghost invariant = { λ query. IsSound (query_parts query.left query.join query.group query.sink) × HaveTheirColumns query.group };
}

impl Query {
    /// A query of these parts. One that has a flaw is refused, by one of its flaws.
    ///
    /// `NoSource`: a scan names no source. `ManySources`: it names more than 65,536. `NoColumn`: the schema of CSV files has no
    /// column, or more than 65,535. `NoKeys`: a join or a group-by has no key. `UnequalKeys`: a join has more keys on one side than on
    /// the other. `RepeatedKey`: one side of a join, or a group-by, names a key twice. `SinkIsSource`: the sink's name is the name of a
    /// source.
    pub fn new(
        left: ScanSpec,
        join: Option<JoinSpec>,
        group: Option<GroupSpec>,
        sink: SinkSpec,
    ) -> Result<Query, Fault>
        requires columns { HaveTheirColumns group }
        ensures value { IfOk result (λ query. query ≡ query_parts left join group sink) }
        ensures sound { OnOk result (IsSound (query_parts left join group sink)) }
        ensures refused { IfErr result (IsFlawFault (query_parts left join group sink)) }
    {
        if let Some(why) = flaw_of_query(&left, &join, &group, &sink) {
            return Err(Fault::InvalidQuery { why });
        }
        Ok(Query {
            left,
            join,
            group,
            sink,
        })
    }

    /// The scan, or the left side of the join.
    pub fn left(&self) -> &ScanSpec
        ensures value { file_scan result.now ≡ self.now.left }
        ensures sound { IsSound self.now }
    {
        &self.left
    }

    /// The join, where there is one.
    pub fn join(&self) -> &Option<JoinSpec>
        ensures value { option_map join_part result.now ≡ self.now.join }
        ensures sound { IsSound self.now }
    {
        &self.join
    }

    /// The group-by, where there is one.
    pub fn group(&self) -> &Option<GroupSpec>
        ensures value { result.now ≡ self.now.group }
        ensures columns { HaveTheirColumns self.now.group }
        ensures sound { IsSound self.now }
    {
        &self.group
    }

    /// The parts of which the query is made.
    pub fn into_parts(self) -> (ScanSpec, Option<JoinSpec>, Option<GroupSpec>, SinkSpec)
        ensures value { query_parts result.0 result.1 result.2 result.3 ≡ self }
        ensures columns { HaveTheirColumns self.group }
        ensures sound { IsSound self }
    {
        (self.left, self.join, self.group, self.sink)
    }

    /// The sink.
    pub fn sink(&self) -> &SinkSpec
        ensures { result.now ≡ self.now.sink }
    {
        &self.sink
    }
}

/// A flaw of a query of these parts.
#[tactic(auto, using(crate::proofs::SideLemmas::flaw_before_group, crate::proofs::SideLemmas::flaw_in_group, crate::proofs::SideLemmas::sound_with_group))]
fn flaw_of_query(
    left: &ScanSpec,
    join: &Option<JoinSpec>,
    group: &Option<GroupSpec>,
    sink: &SinkSpec,
) -> Option<Why>
    ensures some { IfSome result (IsFlaw (sides_of (query_parts left.now join.now group.now sink.now)) (keys_of_query (query_parts left.now join.now group.now sink.now)) (keys_of_group group.now) sink.now.name) }
    ensures none { IsNone result → IsSound (query_parts left.now join.now group.now sink.now) }
{
    if let Some(why) = flaw_of_sides(left, join, sink) {
        return Some(why);
    }
    flaw_of_group(group)
}

/// A flaw of the scans and of the join of a query.
#[tactic(auto, using(crate::proofs::SideLemmas::flaw_in_front, crate::proofs::SideLemmas::flaw_behind, crate::proofs::SideLemmas::sound_with_side))]
fn flaw_of_sides(left: &ScanSpec, join: &Option<JoinSpec>, sink: &SinkSpec) -> Option<Why>
    ensures some { IfSome result (IsFlaw (side_of (file_scan left.now) ∷ right_sides (option_map join_part join.now)) (option_map keys_of (option_map join_part join.now)) None sink.now.name) }
    ensures none { IsNone result → AreSound (side_of (file_scan left.now) ∷ right_sides (option_map join_part join.now)) (option_map keys_of (option_map join_part join.now)) None sink.now.name }
{
    if let Some(why) = flaw_of_scan(left, sink) {
        return Some(why);
    }
    match join {
        Some(join) => flaw_of_join(join, sink),
        None => None,
    }
}

/// A flaw of a scan.
fn flaw_of_scan(scan: &ScanSpec, sink: &SinkSpec) -> Option<Why>
    ensures some { IfSome result (IsFlaw (side_of (file_scan scan.now) ∷ []) None None sink.now.name) }
    ensures none { IsNone result → AreSound (side_of (file_scan scan.now) ∷ []) None None sink.now.name }
{
    let ScanFormat::Csv { schema, .. } = &scan.format;
    flaw_of_side(&scan.sources, Some(schema.len()), sink.name.as_str())
}

/// A flaw of a join, its right side included.
#[tactic(auto, using(crate::proofs::SideLemmas::flaw_in_front, crate::proofs::SideLemmas::flaw_among_keys, crate::proofs::SideLemmas::sound_with_keys))]
fn flaw_of_join(join: &JoinSpec, sink: &SinkSpec) -> Option<Why>
    ensures some { IfSome result (IsFlaw (side_of (file_scan join.now.right) ∷ []) (Some (keys_of (join_part join.now))) None sink.now.name) }
    ensures none { IsNone result → AreSound (side_of (file_scan join.now.right) ∷ []) (Some (keys_of (join_part join.now))) None sink.now.name }
{
    if let Some(why) = flaw_of_scan(&join.right, sink) {
        return Some(why);
    }
    flaw_of_keys(&join.left_keys, &join.right_keys)
}
