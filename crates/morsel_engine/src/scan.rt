//! The scan of a query's open files into its sink.
ghost use Rattle.std.specs.Prelude.{◌≡◌, ◌+◌, ◌*◌, ◌<◌, ◌≤◌, length, IfOk, None};
ghost use Rattle.std.specs.List.{sum_by};
ghost use Rattle.morsel_scan.specs.ScanColumns.{output_fields};
ghost use Rattle.morsel_read.specs.ScanReads.{sizes_in};
ghost use Rattle.morsel_query.specs.Queries.{file_scan, scan_asked};
ghost use Rattle.morsel_query.specs.Meanings.{csv_scan};
ghost use Rattle.morsel_engine.specs.Stages.{ScansFiles, bytes_bound, AreOpenIn, IsPlannedScan};

use morsel_frame::Schema;
use morsel_local::Steps;
use morsel_meaning::Fault;
use morsel_outside::{FileNo, Gate, Io};
use morsel_phase::{LinePlan, LineRooms};
use morsel_plan::{ScanRun, write_scan};
use morsel_query::{Options, ahead};
use morsel_read::ScanReader;
use morsel_scan::{CsvSourceNode, ScanFormat, ScanSpec};
use morsel_sink::SinkWriter;
use std::alloc::Global;
use std::sync::ledger::Ledger;

/// Writes the rows of a scan's open files, which have these columns, into the last sink, and answers how many there are. The
/// writer has written no row.
pub fn scan_files<H: Io, G: Gate, Y: Ledger>(
    alloc: Global,
    io: &mut H,
    spec: ScanSpec,
    columns: Schema,
    files: Vec<FileNo>,
    writer: SinkWriter,
    options: &Options,
    pipelines: u32,
    gate: &G,
    steps: &mut Steps<Y>,
) -> Result<u64, Fault>
    requires made { 0 < (H.seen io.old).sinks }
    requires some { 0 < length spec.sources.items }
    requires few { length spec.sources.items ≤ 65536 }
    requires one_each { length files.items ≡ length spec.sources.items }
    requires opened { AreOpenIn (H.seen io.old) files.items }
    requires planned { IsPlannedScan (file_scan spec) }
    requires columns { columns ≡ output_fields (scan_asked (file_scan spec)) }
    requires none_written { writer.rows ≡ 0 }
    requires pipelines { (1 ≤ pipelines) × (pipelines ≤ 32768) }
    ensures sweeps { steps.new ≤ steps.old + 1024 * (sum_by (λ n. n) (sizes_in (H.seen io.old).sizes files.items) + 1) }
    ensures scans { ScansFiles (H.seen io.old) (csv_scan (file_scan spec)) spec.sources.items files.items options.now result (H.seen io.new) }
{
    let Ok(reader) = ScanReader::new(alloc, &spec, files, 0, options.chunk_bytes()) else {
        return Err(Fault::OutOfMemory);
    };
    let Ok(node) = node_of(alloc, spec) else {
        return Err(Fault::OutOfMemory);
    };
    write_scan(
        alloc,
        io,
        node,
        columns,
        reader,
        writer,
        scan_run(options, pipelines),
        gate,
        steps,
    )
}

/// The node that decodes the pieces of a scan.
pub fn node_of(alloc: Global, spec: ScanSpec) -> Result<CsvSourceNode, Fault>
    ensures { IfOk result (λ node. node ≡ csv_scan (file_scan spec)) }
{
    let ScanSpec {
        format,
        file_options,
        filter,
        ..
    } = spec;
    let ScanFormat::Csv { schema, options } = format;
    CsvSourceNode::new(alloc, schema, options, file_options, filter)
}

/// How a scan is run with so many units of each node.
pub fn scan_run(options: &Options, pipelines: u32) -> ScanRun
    ensures pipelines { result.line.pipelines ≡ pipelines }
    ensures spread_room { (1 ≤ result.line.rooms.spread) × (result.line.rooms.spread ≤ 65536) }
    ensures merge_room { (1 ≤ result.line.rooms.merge) × (result.line.rooms.merge ≤ 65536) }
    ensures bound { result.bound ≡ bytes_bound options.now }
    ensures some { 0 < result.bound }
{
    ScanRun {
        line: LinePlan {
            pipelines,
            rooms: LineRooms {
                spread: options.distributor_buffer(),
                merge: options.linearizer_buffer(),
            },
        },
        random_state: options.random_state(),
        bound: bytes_ahead(options),
    }
}

/// How many bytes of rows, the longest record not counted, reading may run ahead of writing.
fn bytes_ahead(options: &Options) -> u64
    ensures value { result ≡ bytes_bound options.now }
    ensures some { 0 < result }
{
    ahead(options).saturating_mul(u64::from(options.chunk_bytes()))
}
