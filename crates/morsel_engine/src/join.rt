//! The join of a query's open files into its sink.
ghost use Rattle.std.specs.Prelude.{◌≡◌, ◌<◌, ◌≤◌, ◌+◌, length, IfOk, OnOk};
ghost use Rattle.morsel_grammar.specs.Dialect.{IsDialect};
ghost use Rattle.morsel_join.specs.Rows.{FitRules};
ghost use Rattle.morsel_read.specs.ScanReads.{CountsFromFirst};
ghost use Rattle.morsel_query.specs.Queries.{file_scan};
ghost use Rattle.morsel_query.specs.Meanings.{csv_scan};
ghost use Rattle.morsel_engine.specs.Stages.{IsOpenSide, side_scan, JoinsFiles, SweepsFiles};

use crate::scan::{node_of, scan_run};
use morsel_frame::Schema;
use morsel_join::JoinRules;
use morsel_join_plan::{JoinSide, JoinWriters, write_join};
use morsel_local::Steps;
use morsel_meaning::Fault;
use morsel_outside::{FileNo, Gate, Io};
use morsel_query::Options;
use morsel_read::ScanReader;
use morsel_scan::ScanSpec;
use std::alloc::Global;
use std::sync::ledger::Ledger;

/// A side of a join, or the scan of a query without one: the scan, the columns of its rows, and its open files.
#[derive(Drop)]
pub struct OpenSide {
    /// The scan.
    pub spec: ScanSpec,
    /// The columns of its rows.
    pub columns: Schema,
    /// The numbers of its files.
    pub files: Vec<FileNo>,
}

/// Writes the rows of a join of two scans' open files into the last sink, and answers how many there are. The writers have
/// written no row.
pub fn join_files<H: Io, G: Gate, Y: Ledger>(
    alloc: Global,
    io: &mut H,
    left: OpenSide,
    right: OpenSide,
    rules: JoinRules,
    writers: JoinWriters,
    options: &Options,
    pipelines: u32,
    gate: &G,
    steps: &mut Steps<Y>,
) -> Result<u64, Fault>
    requires made { 0 < (H.seen io.old).sinks }
    requires left_open { IsOpenSide (H.seen io.old) left.spec left.columns left.files.items }
    requires right_open { IsOpenSide (H.seen io.old) right.spec right.columns right.files.items }
    requires fit { FitRules left.columns right.columns rules }
    requires found_none { writers.found.rows ≡ 0 }
    requires alone_none { writers.alone.rows ≡ 0 }
    requires pipelines { (1 ≤ pipelines) × (pipelines ≤ 32768) }
    ensures sweeps { SweepsFiles (H.seen io.old) (file_scan left.spec) (file_scan right.spec) left.files.items right.files.items rules options.now steps.old steps.new }
    ensures joins { JoinsFiles (H.seen io.old) (file_scan left.spec) (file_scan right.spec) left.files.items right.files.items rules options.now result (H.seen io.new) }
{
    let lefts = left.files.len() as u32;
    let Ok(left) = join_side(alloc, left, 0, options) else {
        return Err(Fault::OutOfMemory);
    };
    let Ok(right) = join_side(alloc, right, lefts, options) else {
        return Err(Fault::OutOfMemory);
    };
    let rows = options.morsel_rows() as usize;
    let run = scan_run(options, pipelines);
    if rules.keeps_left() {
        write_join(
            alloc, io, left, right, rules, writers, rows, run, gate, steps,
        )
    } else {
        write_join(
            alloc, io, right, left, rules, writers, rows, run, gate, steps,
        )
    }
}

/// A scan as it is run, as a side of a join or alone: its node, and the reader of its files, the first of which has this number within
/// the query.
pub fn join_side(
    alloc: Global,
    side: OpenSide,
    first: u32,
    options: &Options,
) -> Result<JoinSide, Fault>
    requires some { 0 < length side.spec.sources.items }
    requires few { first + length side.spec.sources.items ≤ 131072 }
    requires one_each { length side.files.items ≡ length side.spec.sources.items }
    requires from_first { CountsFromFirst side.spec.file_options.slice }
    ensures node { IfOk result (λ made. made.node ≡ csv_scan (file_scan side.spec)) }
    ensures columns { IfOk result (λ made. made.columns ≡ side.columns) }
    ensures reader { IfOk result (λ made. made.reader ≡ (side_scan (file_scan side.spec) side.files.items first options.now).reader) }
    ensures fit { OnOk result (IsDialect (csv_scan (file_scan side.spec)).options) }
{
    let OpenSide {
        spec,
        columns,
        files,
    } = side;
    let Ok(reader) = ScanReader::new(alloc, &spec, files, first, options.chunk_bytes()) else {
        return Err(Fault::OutOfMemory);
    };
    let Ok(node) = node_of(alloc, spec) else {
        return Err(Fault::OutOfMemory);
    };
    Ok(JoinSide {
        node,
        columns,
        reader,
    })
}
