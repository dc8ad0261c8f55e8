//! The group-by of the rows of a query's open files into its sink.
ghost use Rattle.std.specs.Prelude.{◌≡◌, ◌<◌, ◌≤◌, None, Some, IfOk, IsOkUnless};
ghost use Rattle.morsel_meaning.specs.declared.fault.Fault.TheVariants.{OutOfMemory};
ghost use Rattle.morsel_group.specs.Asked.{HaveColumns, group_fields};
ghost use Rattle.morsel_group_units.specs.GroupAsks.{rules_output};
ghost use Rattle.morsel_query.specs.Queries.{file_scan, query_parts};
ghost use Rattle.morsel_query.specs.QueryFlaws.{IsSound};
ghost use Rattle.morsel_query.specs.Plans.{fields_of_scan, query_fault};
ghost use Rattle.morsel_engine.specs.Runs.{Runs};
ghost use Rattle.morsel_engine.specs.Stages.{IsOpenSide, GroupsFiles, SweepsGroupFiles};
ghost use Rattle.morsel_engine.specs.SweepBounds.{SweepsWithin};

use crate::join::{OpenSide, join_side};
use crate::outside::{make_sink, open_sources};
use crate::scan::scan_run;
use morsel_frame::Schema;
use morsel_group::GroupSpec;
use morsel_group_plan::{PlannedGroup, write_groups};
use morsel_group_units::GroupRules;
use morsel_local::Steps;
use morsel_meaning::Fault;
use morsel_outside::{Gate, Io};
use morsel_query::Options;
use morsel_scan::ScanSpec;
use morsel_sink::{SinkSpec, SinkWriter};
use std::alloc::Global;
use std::sync::ledger::Ledger;

/// The columns once more.
pub fn copied(columns: &Schema) -> Result<Schema, Fault>
    ensures ok { IfOk result (λ copy. copy ≡ columns.now) }
    ensures out_of_memory { IsOkUnless result OutOfMemory }
{
    let copy = columns.clone()?;
    Ok(copy)
}

/// Groups the rows of a scan's open files, writes the rows of the group-by into the last sink, and answers how many there are. The
/// writer has written no row.
fn group_files<H: Io, G: Gate, Y: Ledger>(
    alloc: Global,
    io: &mut H,
    scan: OpenSide,
    group: PlannedGroup,
    writer: SinkWriter,
    options: &Options,
    pipelines: u32,
    gate: &G,
    steps: &mut Steps<Y>,
) -> Result<u64, Fault>
    requires made { 0 < (H.seen io.old).sinks }
    requires open { IsOpenSide (H.seen io.old) scan.spec scan.columns scan.files.items }
    requires columns { group.rules.columns ≡ scan.columns }
    requires output { group.output ≡ rules_output group.rules }
    requires none_written { writer.rows ≡ 0 }
    requires pipelines { (1 ≤ pipelines) × (pipelines ≤ 32768) }
    ensures sweeps { SweepsGroupFiles (H.seen io.old) (file_scan scan.spec) scan.files.items options.now steps.old steps.new }
    ensures groups { GroupsFiles (H.seen io.old) (file_scan scan.spec) scan.files.items group.rules options.now result (H.seen io.new) }
{
    let Ok(side) = join_side(alloc, scan, 0, options) else {
        return Err(Fault::OutOfMemory);
    };
    let rows = options.morsel_rows() as usize;
    let run = scan_run(options, pipelines);
    write_groups(alloc, io, side, group, writer, rows, run, gate, steps)
}

/// Runs a query of one scan with a group-by, of these parts, that has a plan. The rows of the scan have the columns, and those of the
/// group-by the others.
pub fn run_groups<H: Io, G: Gate, Y: Ledger>(
    alloc: Global,
    io: &mut H,
    left: ScanSpec,
    group: GroupSpec,
    sink: SinkSpec,
    columns: Schema,
    output: Schema,
    options: &Options,
    pipelines: u32,
    gate: &G,
    steps: &mut Steps<Y>,
) -> Result<u64, Fault>
    requires sound { IsSound (query_parts left None (Some group) sink) }
    requires planned { query_fault (query_parts left None (Some group) sink) ≡ None }
    requires reductions { HaveColumns group.aggs }
    requires pipelines { (1 ≤ pipelines) × (pipelines ≤ 32768) }
    requires columns { columns ≡ fields_of_scan (file_scan left) }
    requires output { output ≡ group_fields (fields_of_scan (file_scan left)) group }
    ensures runs { Runs (H.seen io.old) (query_parts left None (Some group) sink) options.now result (H.seen io.new) }
    ensures sweeps { SweepsWithin (H.seen io.old) (query_parts left None (Some group) sink) options.now steps.old (H.seen io.new) steps.new }
{
    let Ok(input) = copied(&columns) else {
        return Err(Fault::OutOfMemory);
    };
    let files = match open_sources(alloc, io, &left.sources, 0) {
        Ok(files) => files,
        Err(fault) => return Err(fault),
    };
    let writer = match make_sink(io, &output, &sink) {
        Ok(writer) => writer,
        Err(not_made) => return Err(not_made),
    };
    let scan = OpenSide {
        spec: left,
        columns,
        files,
    };
    let planned = PlannedGroup {
        rules: GroupRules::new(input, group),
        output,
    };
    group_files(
        alloc, io, scan, planned, writer, options, pipelines, gate, steps,
    )
}
