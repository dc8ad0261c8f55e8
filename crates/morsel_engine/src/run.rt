//! A run of a query on one thread.
ghost use Rattle.std.specs.Prelude.{◌≡◌, ◌≤◌, Some, None, option_map};
ghost use Rattle.morsel_group.specs.Asked.{HaveColumns, group_fields};
ghost use Rattle.morsel_query.specs.Queries.{file_scan, join_part, query_parts};
ghost use Rattle.morsel_query.specs.QueryFlaws.{IsSound};
ghost use Rattle.morsel_query.specs.Plans.{fields_of_input, fields_of_scan, output_of, planned, query_fault, IsJoinPlan, IsPlanOfJoin};
ghost use Rattle.morsel_engine.specs.Runs.{Runs};
ghost use Rattle.morsel_engine.specs.SweepBounds.{SweepsWithin};

use crate::groups::run_groups;
use crate::join::{OpenSide, join_files};
use crate::joined_groups::run_joined_groups;
use crate::outside::{make_sink, make_writers, open_sides, open_sources};
use crate::scan::scan_files;
use morsel_frame::Schema;
use morsel_group::GroupSpec;
use morsel_local::Steps;
use morsel_meaning::Fault;
use morsel_outside::{Gate, Io};
use morsel_query::{JoinPlan, JoinSpec, Options, Query, QueryPlan, plan};
use morsel_scan::ScanSpec;
use morsel_sink::SinkSpec;
use std::alloc::Global;
use std::sync::ledger::Ledger;

/// Runs a query: reads its sources, writes its rows into its sink, and answers how many there are.
///
/// It waits for nothing, so it always returns: its sweeps over its tasks, which `steps` counts, have a bound. Its sources are opened
/// in order before the sink is made, and nothing is read before that. A query whose names do not meet its columns is refused as
/// `check` refuses it, before anything is done. A fault of a source names it by its number within the query, from 0 on: `Malformed`
/// a record that is none, or has another number of fields than there are columns; `Unsupported` a compressed file; `ComputeError` a
/// record that is not UTF-8, a field of a used column that does not fit its type, a row or a number of one past its limit. Of a
/// group-by it answers, of no source, too many groups, too many rows of one, or a sum outside 64 bits; it writes nothing before it has
/// read all.
pub fn run_local<H: Io, G: Gate, Y: Ledger>(
    alloc: Global,
    io: &mut H,
    query: Query,
    options: &Options,
    gate: &G,
    steps: &mut Steps<Y>,
) -> Result<u64, Fault>
    ensures runs { Runs (H.seen io.old) query options.now result (H.seen io.new) }
    ensures sweeps { SweepsWithin (H.seen io.old) query options.now steps.old (H.seen io.new) steps.new }
{
    run_pipelines(alloc, io, query, options, 1, gate, steps)
}

/// Runs a query as `run_local` does, with so many units of each node in place of one. What is promised is the same for any number.
pub fn run_pipelines<H: Io, G: Gate, Y: Ledger>(
    alloc: Global,
    io: &mut H,
    query: Query,
    options: &Options,
    pipelines: u32,
    gate: &G,
    steps: &mut Steps<Y>,
) -> Result<u64, Fault>
    requires pipelines { (1 ≤ pipelines) × (pipelines ≤ 32768) }
    ensures runs { Runs (H.seen io.old) query options.now result (H.seen io.new) }
    ensures sweeps { SweepsWithin (H.seen io.old) query options.now steps.old (H.seen io.new) steps.new }
{
    let QueryPlan {
        left: scanned,
        join: joined,
        group: grouped,
    } = match plan(alloc, &query) {
        Ok(plan) => plan,
        Err(refused) => return Err(refused),
    };
    let (left, join, group, sink) = query.into_parts();
    match group {
        None => run_ungrouped(
            alloc,
            io,
            left,
            join,
            sink,
            scanned.output,
            joined,
            options,
            pipelines,
            gate,
            steps,
        ),
        Some(group) => {
            let Some(output) = grouped else {
                unreachable!()
            };
            run_grouped(
                alloc,
                io,
                left,
                join,
                group,
                sink,
                scanned.output,
                joined,
                output,
                options,
                pipelines,
                gate,
                steps,
            )
        }
    }
}

/// Runs a query with a group-by, of these parts, that has a plan. The left side's rows have the columns, and those of the group-by the
/// others.
fn run_grouped<H: Io, G: Gate, Y: Ledger>(
    alloc: Global,
    io: &mut H,
    left: ScanSpec,
    join: Option<JoinSpec>,
    group: GroupSpec,
    sink: SinkSpec,
    columns: Schema,
    joined: Option<JoinPlan>,
    output: Schema,
    options: &Options,
    pipelines: u32,
    gate: &G,
    steps: &mut Steps<Y>,
) -> Result<u64, Fault>
    requires sound { IsSound (query_parts left join (Some group) sink) }
    requires planned { query_fault (query_parts left join (Some group) sink) ≡ None }
    requires reductions { HaveColumns group.aggs }
    requires pipelines { (1 ≤ pipelines) × (pipelines ≤ 32768) }
    requires columns { columns ≡ fields_of_scan (file_scan left) }
    requires plan { IsPlanOfJoin (fields_of_scan (file_scan left)) (option_map join_part join) joined }
    requires output { output ≡ group_fields (fields_of_input (file_scan left) (option_map join_part join)) group }
    ensures runs { Runs (H.seen io.old) (query_parts left join (Some group) sink) options.now result (H.seen io.new) }
    ensures sweeps { SweepsWithin (H.seen io.old) (query_parts left join (Some group) sink) options.now steps.old (H.seen io.new) steps.new }
{
    match join {
        None => run_groups(
            alloc, io, left, group, sink, columns, output, options, pipelines, gate, steps,
        ),
        Some(join) => {
            let Some(plan) = joined else { unreachable!() };
            run_joined_groups(
                alloc, io, left, join, group, sink, columns, plan, output, options, pipelines,
                gate, steps,
            )
        }
    }
}

/// Runs a query without a group-by, of these parts, that has a plan. The left side's rows have these columns.
fn run_ungrouped<H: Io, G: Gate, Y: Ledger>(
    alloc: Global,
    io: &mut H,
    left: ScanSpec,
    join: Option<JoinSpec>,
    sink: SinkSpec,
    columns: Schema,
    joined: Option<JoinPlan>,
    options: &Options,
    pipelines: u32,
    gate: &G,
    steps: &mut Steps<Y>,
) -> Result<u64, Fault>
    requires sound { IsSound (query_parts left join None sink) }
    requires planned { query_fault (query_parts left join None sink) ≡ None }
    requires pipelines { (1 ≤ pipelines) × (pipelines ≤ 32768) }
    requires columns { columns ≡ fields_of_scan (file_scan left) }
    requires plan { IsPlanOfJoin (fields_of_scan (file_scan left)) (option_map join_part join) joined }
    ensures runs { Runs (H.seen io.old) (query_parts left join None sink) options.now result (H.seen io.new) }
    ensures sweeps { SweepsWithin (H.seen io.old) (query_parts left join None sink) options.now steps.old (H.seen io.new) steps.new }
{
    match join {
        None => run_parts(
            alloc, io, left, sink, columns, options, pipelines, gate, steps,
        ),
        Some(join) => {
            let Some(plan) = joined else { unreachable!() };
            run_join(
                alloc, io, left, join, sink, columns, plan, options, pipelines, gate, steps,
            )
        }
    }
}

/// Runs a query of these parts that has a plan, whose rows have these columns.
fn run_parts<H: Io, G: Gate, Y: Ledger>(
    alloc: Global,
    io: &mut H,
    left: ScanSpec,
    sink: SinkSpec,
    columns: Schema,
    options: &Options,
    pipelines: u32,
    gate: &G,
    steps: &mut Steps<Y>,
) -> Result<u64, Fault>
    requires sound { IsSound (query_parts left None None sink) }
    requires planned { query_fault (query_parts left None None sink) ≡ None }
    requires pipelines { (1 ≤ pipelines) × (pipelines ≤ 32768) }
    requires columns { columns ≡ output_of (planned (query_parts left None None sink)) }
    ensures runs { Runs (H.seen io.old) (query_parts left None None sink) options.now result (H.seen io.new) }
    ensures sweeps { SweepsWithin (H.seen io.old) (query_parts left None None sink) options.now steps.old (H.seen io.new) steps.new }
{
    let files = match open_sources(alloc, io, &left.sources, 0) {
        Ok(files) => files,
        Err(fault) => return Err(fault),
    };
    let writer = match make_sink(io, &columns, &sink) {
        Ok(writer) => writer,
        Err(not_made) => return Err(not_made),
    };
    scan_files(
        alloc, io, left, columns, files, writer, options, pipelines, gate, steps,
    )
}

/// Runs a query with a join, of these parts, that has a plan. The left side's rows have these columns.
fn run_join<H: Io, G: Gate, Y: Ledger>(
    alloc: Global,
    io: &mut H,
    left: ScanSpec,
    join: JoinSpec,
    sink: SinkSpec,
    columns: Schema,
    plan: JoinPlan,
    options: &Options,
    pipelines: u32,
    gate: &G,
    steps: &mut Steps<Y>,
) -> Result<u64, Fault>
    requires sound { IsSound (query_parts left (Some join) None sink) }
    requires planned { query_fault (query_parts left (Some join) None sink) ≡ None }
    requires pipelines { (1 ≤ pipelines) × (pipelines ≤ 32768) }
    requires columns { columns ≡ fields_of_scan (file_scan left) }
    requires plan { IsJoinPlan (fields_of_scan (file_scan left)) (join_part join) plan }
    ensures runs { Runs (H.seen io.old) (query_parts left (Some join) None sink) options.now result (H.seen io.new) }
    ensures sweeps { SweepsWithin (H.seen io.old) (query_parts left (Some join) None sink) options.now steps.old (H.seen io.new) steps.new }
{
    let files = match open_sides(alloc, io, &left.sources, &join.right.sources) {
        Ok(files) => files,
        Err(not_opened) => return Err(not_opened),
    };
    let JoinPlan { right, rules } = plan;
    let writers = match make_writers(io, &rules.output, &sink) {
        Ok(writers) => writers,
        Err(no_sink) => return Err(no_sink),
    };
    let left = OpenSide {
        spec: left,
        columns,
        files: files.left,
    };
    let right = OpenSide {
        spec: join.right,
        columns: right.output,
        files: files.right,
    };
    join_files(
        alloc, io, left, right, rules, writers, options, pipelines, gate, steps,
    )
}
