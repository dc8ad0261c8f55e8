//! The plan of a query: where its names meet the columns of its files, once.
ghost use Rattle.std.specs.Prelude.{◌≡◌, option_map, IfOk};
ghost use Rattle.morsel_frame.specs.Refusals.{Refuses};
ghost use Rattle.morsel_group.specs.Asked.{group_fields};
ghost use Rattle.morsel_query.specs.Queries.{file_format, file_scan, join_part, scan_asked, HaveTheirColumns};
ghost use Rattle.morsel_query.specs.QueryFlaws.{AreJoinKeys, AreSoundKeys, keys_of};
ghost use Rattle.morsel_query.specs.Plans.{fields_of_input, fields_of_scan, output_before_group, planned_scan, side_fault, slice_fault, join_fault, join_fault_if, fault_by, group_fault_if, query_fault, IsJoinPlan, IsPlanOfJoin, IsPlan};

use crate::scan_plan::{ScanPlan, plan_scan};
use crate::{JoinSpec, Query};
use morsel_frame::Schema;
use morsel_group::{GroupSpec, group_schema};
use morsel_join::JoinRules;
use morsel_meaning::{ComputeKind, Fault, QUERY_FILE};
use morsel_scan::{ScanFormat, ScanSpec};
use std::alloc::Global;

/// The plan of a query. Each part stands on the columns that the parts before it give.
#[derive(Debug, Drop)]
pub struct QueryPlan {
    /// The plan of the scan, or of the left side of the join.
    pub left: ScanPlan,
    /// The plan of the join, where there is one.
    pub join: Option<JoinPlan>,
    /// The columns of the rows of the group-by, where there is one.
    pub group: Option<Schema>,
}

/// The plan of the sides of a query, and of their join.
#[derive(Debug, Drop)]
struct SidesPlan {
    left: ScanPlan,
    join: Option<JoinPlan>,
}

/// The plan of a join.
#[derive(Debug, Drop)]
pub struct JoinPlan {
    /// The plan of the right side.
    pub right: ScanPlan,
    /// The rules of the join, by the places of the columns of both sides.
    pub rules: JoinRules,
}

/// The plan of a query whose names meet the columns of its own schemas, with types that fit; else the first fault that is due.
///
/// For a scan of CSV files these are the faults of `plan_scan`, and then `NegativeSlice` where its slice counts from the end. Those
/// of the left side come before those of the right side, these before those of the join, which are the faults of `JoinRules::new`, and
/// these before those of the group-by, which are the faults of `group_schema`.
#[tactic(auto, using(crate::proofs::PlanLemmas::later_fault))]
pub fn plan(alloc: Global, query: &Query) -> Result<QueryPlan, Fault>
    ensures ok { IfOk result (IsPlan query.now) }
    ensures refused { Refuses (query_fault query.now) result }
{
    let SidesPlan { left, join } = plan_sides(alloc, query.left(), query.join())?;
    let group = plan_group_if(alloc, output_of_sides(&left, &join), query.group())?;
    Ok(QueryPlan { left, join, group })
}

/// Refuses a query that has no plan, with the fault that `plan` answers.
pub fn check(alloc: Global, query: &Query) -> Result<(), Fault>
    ensures { Refuses (query_fault query.now) result }
{
    plan(alloc, query)?;
    Ok(())
}

/// The plan of the sides of a query, and of their join.
#[tactic(auto, using(crate::proofs::PlanLemmas::output_is))]
fn plan_sides(alloc: Global, left: &ScanSpec, join: &Option<JoinSpec>) -> Result<SidesPlan, Fault>
    requires keys { AreSoundKeys (option_map keys_of (option_map join_part join.now)) }
    ensures left { IfOk result (λ plan. plan.left ≡ planned_scan (scan_asked (file_scan left.now))) }
    ensures join { IfOk result (λ plan. IsPlanOfJoin (fields_of_scan (file_scan left.now)) (option_map join_part join.now) plan.join) }
    ensures output { IfOk result (λ plan. output_before_group plan.left plan.join ≡ fields_of_input (file_scan left.now) (option_map join_part join.now)) }
    ensures refused { Refuses (fault_by (file_scan left.now) (option_map join_part join.now)) result }
{
    let left = plan_side(alloc, left)?;
    let join = plan_join_if(alloc, &left.output, join)?;
    Ok(SidesPlan { left, join })
}

/// The columns of the rows of a join, where there is one, and else of the scan.
fn output_of_sides<'p>(left: &'p ScanPlan, join: &'p Option<JoinPlan>) -> &'p Schema
    ensures { result.now ≡ output_before_group left.now join.now }
{
    match join {
        Some(join) => &join.rules.output,
        None => &left.output,
    }
}

/// The columns of the rows of a group-by of rows with these columns, where there is one.
fn plan_group_if(
    alloc: Global,
    input: &Schema,
    group: &Option<GroupSpec>,
) -> Result<Option<Schema>, Fault>
    requires columns { HaveTheirColumns group.now }
    ensures ok { IfOk result (λ plan. plan ≡ option_map (group_fields input.now) group.now) }
    ensures refused { Refuses (group_fault_if input.now group.now) result }
{
    match group {
        Some(spec) => Ok(Some(group_schema(alloc, input, spec)?)),
        None => Ok(None),
    }
}

/// The plan of one side.
fn plan_side(alloc: Global, scan: &ScanSpec) -> Result<ScanPlan, Fault>
    ensures ok { IfOk result (λ plan. plan ≡ planned_scan (scan_asked (file_scan scan.now))) }
    ensures refused { Refuses (side_fault (file_format scan.now.format) (scan_asked (file_scan scan.now))) result }
{
    let ScanFormat::Csv { schema, .. } = &scan.format;
    let plan = plan_scan(alloc, schema, &scan.file_options, &scan.filter)?;
    check_slice(&scan.file_options.slice)?;
    Ok(plan)
}

/// The plan of a join with a left side of these columns, where there is one.
fn plan_join_if(
    alloc: Global,
    left: &Schema,
    join: &Option<JoinSpec>,
) -> Result<Option<JoinPlan>, Fault>
    requires keys { AreSoundKeys (option_map keys_of (option_map join_part join.now)) }
    ensures ok { IfOk result (IsPlanOfJoin left.now (option_map join_part join.now)) }
    ensures refused { Refuses (join_fault_if left.now (option_map join_part join.now)) result }
{
    match join {
        Some(join) => Ok(Some(plan_join(alloc, left, join)?)),
        None => Ok(None),
    }
}

/// The plan of a join with a left side of these columns.
fn plan_join(alloc: Global, left: &Schema, join: &JoinSpec) -> Result<JoinPlan, Fault>
    requires keys { AreJoinKeys (keys_of (join_part join.now)) }
    ensures ok { IfOk result (IsJoinPlan left.now (join_part join.now)) }
    ensures refused { Refuses (join_fault left.now (join_part join.now)) result }
{
    let right = plan_side(alloc, &join.right)?;
    let rules = JoinRules::new(
        alloc,
        left,
        &right.output,
        &join.left_keys,
        &join.right_keys,
        &join.args,
    )?;
    Ok(JoinPlan { right, rules })
}

/// Refuses a slice that counts from the end.
fn check_slice(slice: &Option<(i64, u64)>) -> Result<(), Fault>
    ensures { Refuses (slice_fault slice.now) result }
{
    match slice {
        Some((offset, _)) if *offset < 0 => Err(Fault::ComputeError {
            kind: ComputeKind::NegativeSlice,
            file: QUERY_FILE,
            at: 0,
        }),
        _ => Ok(()),
    }
}
