//! The group-by of the rows of a join of a query's open files into its sink.
ghost use Rattle.std.specs.Prelude.{◌≡◌, ◌<◌, ◌≤◌, None, Some};
ghost use Rattle.morsel_group.specs.Asked.{HaveColumns, group_fields};
ghost use Rattle.morsel_group_units.specs.GroupAsks.{rules_output};
ghost use Rattle.morsel_join.specs.Rows.{FitRules};
ghost use Rattle.morsel_query.specs.Queries.{file_scan, join_part, query_parts};
ghost use Rattle.morsel_query.specs.QueryFlaws.{IsSound};
ghost use Rattle.morsel_query.specs.Plans.{fields_of_join, fields_of_scan, query_fault, IsJoinPlan};
ghost use Rattle.morsel_engine.specs.Runs.{Runs};
ghost use Rattle.morsel_engine.specs.Stages.{IsOpenSide, JoinsGroups, SweepsJoinedGroups};
ghost use Rattle.morsel_engine.specs.SweepBounds.{SweepsWithin};

use crate::groups::copied;
use crate::join::{OpenSide, join_side};
use crate::outside::{make_sink, open_sides};
use crate::scan::scan_run;
use morsel_frame::Schema;
use morsel_group::GroupSpec;
use morsel_group_plan::{PlannedGroup, write_joined_groups};
use morsel_group_reads::columns_read;
use morsel_group_units::GroupRules;
use morsel_join::JoinRules;
use morsel_local::Steps;
use morsel_meaning::Fault;
use morsel_outside::{Gate, Io};
use morsel_query::{JoinPlan, JoinSpec, Options};
use morsel_scan::ScanSpec;
use morsel_sink::{SinkSpec, SinkWriter};
use std::alloc::Global;
use std::sync::ledger::Ledger;

/// Groups the rows of a join of two scans' open files, writes the rows of the group-by into the last sink, and answers how many there
/// are. The writer has written no row.
fn group_joined_files<H: Io, G: Gate, Y: Ledger>(
    alloc: Global,
    io: &mut H,
    left: OpenSide,
    right: OpenSide,
    rules: JoinRules,
    group: PlannedGroup,
    writer: SinkWriter,
    options: &Options,
    pipelines: u32,
    gate: &G,
    steps: &mut Steps<Y>,
) -> Result<u64, Fault>
    requires made { 0 < (H.seen io.old).sinks }
    requires left_open { IsOpenSide (H.seen io.old) left.spec left.columns left.files.items }
    requires right_open { IsOpenSide (H.seen io.old) right.spec right.columns right.files.items }
    requires fit { FitRules left.columns right.columns rules }
    requires columns { group.rules.columns ≡ rules.output }
    requires output { group.output ≡ rules_output group.rules }
    requires none_written { writer.rows ≡ 0 }
    requires pipelines { (1 ≤ pipelines) × (pipelines ≤ 32768) }
    ensures sweeps { SweepsJoinedGroups (H.seen io.old) (file_scan left.spec) (file_scan right.spec) left.files.items right.files.items rules options.now steps.old steps.new }
    ensures groups { JoinsGroups (H.seen io.old) (file_scan left.spec) (file_scan right.spec) left.files.items right.files.items rules group.rules options.now result (H.seen io.new) }
{
    let lefts = left.files.len() as u32;
    let Ok(left) = join_side(alloc, left, 0, options) else {
        return Err(Fault::OutOfMemory);
    };
    let Ok(right) = join_side(alloc, right, lefts, options) else {
        return Err(Fault::OutOfMemory);
    };
    let rows = options.morsel_rows() as usize;
    let run = scan_run(options, pipelines);
    if rules.keeps_left() {
        write_joined_groups(
            alloc, io, left, right, rules, group, writer, rows, run, gate, steps,
        )
    } else {
        write_joined_groups(
            alloc, io, right, left, rules, group, writer, rows, run, gate, steps,
        )
    }
}

/// Runs a query with a join and a group-by, of these parts, that has a plan. The left side's rows have the columns, and those of the
/// group-by the others. The rows of the join that are grouped have only the columns that the group-by reads.
pub fn run_joined_groups<H: Io, G: Gate, Y: Ledger>(
    alloc: Global,
    io: &mut H,
    left: ScanSpec,
    join: JoinSpec,
    group: GroupSpec,
    sink: SinkSpec,
    columns: Schema,
    plan: JoinPlan,
    output: Schema,
    options: &Options,
    pipelines: u32,
    gate: &G,
    steps: &mut Steps<Y>,
) -> Result<u64, Fault>
    requires sound { IsSound (query_parts left (Some join) (Some group) sink) }
    requires planned { query_fault (query_parts left (Some join) (Some group) sink) ≡ None }
    requires reductions { HaveColumns group.aggs }
    requires pipelines { (1 ≤ pipelines) × (pipelines ≤ 32768) }
    requires columns { columns ≡ fields_of_scan (file_scan left) }
    requires plan { IsJoinPlan (fields_of_scan (file_scan left)) (join_part join) plan }
    requires output { output ≡ group_fields (fields_of_join (fields_of_scan (file_scan left)) (join_part join)) group }
    ensures runs { Runs (H.seen io.old) (query_parts left (Some join) (Some group) sink) options.now result (H.seen io.new) }
    ensures sweeps { SweepsWithin (H.seen io.old) (query_parts left (Some join) (Some group) sink) options.now steps.old (H.seen io.new) steps.new }
{
    let JoinPlan { right, rules } = plan;
    let Ok(rules) = columns_read(alloc, rules, &group) else {
        return Err(Fault::OutOfMemory);
    };
    let Ok(input) = copied(&rules.output) else {
        return Err(Fault::OutOfMemory);
    };
    let files = match open_sides(alloc, io, &left.sources, &join.right.sources) {
        Ok(files) => files,
        Err(not_opened) => return Err(not_opened),
    };
    let writer = match make_sink(io, &output, &sink) {
        Ok(writer) => writer,
        Err(no_sink) => return Err(no_sink),
    };
    let left = OpenSide {
        spec: left,
        columns,
        files: files.left,
    };
    let right = OpenSide {
        spec: join.right,
        columns: right.output,
        files: files.right,
    };
    let planned = PlannedGroup {
        rules: GroupRules::new(input, group),
        output,
    };
    group_joined_files(
        alloc, io, left, right, rules, planned, writer, options, pipelines, gate, steps,
    )
}
