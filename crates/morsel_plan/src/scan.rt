//! A whole scan, from its open files into a sink, through a source and a sink.
ghost use Rattle.std.specs.Prelude.{◌≡◌, [], ◌∷◌, IfSome, IsSome, ◌+◌, ◌*◌, ◌<◌, ◌≤◌};
ghost use Rattle.std.specs.Arc.{arc_value};
ghost use Rattle.std.specs.List.{sum_by};
ghost use Rattle.morsel_meaning.specs.declared.fault.Fault.{Fault};
ghost use Rattle.morsel_lane_pipe.specs.Tasks.{HoldsTokensOf};
ghost use Rattle.morsel_phase.specs.Lines.{IsLineNode};
ghost use Rattle.morsel_scan_units.specs.LaneJobs.{IsUnitFault};
ghost use Rattle.morsel_scan.specs.ScanColumns.{output_fields};
ghost use Rattle.morsel_read.specs.ScanReads.{pieces_at_start, sizes_in, SuitsPieces};
ghost use Rattle.morsel_plan.specs.LineRuns.{AreLineJobs, IsLaneOf, WritesOrNot};

use crate::run::run_nodes;
use morsel_frame::Schema;
use morsel_line::RowStage;
use morsel_load::{Load, LoadJob, LoadKind};
use morsel_local::Steps;
use morsel_meaning::Fault;
use morsel_nodes::{CsvSourceMakers, MakerNode, NDJsonSinkMakers};
use morsel_outside::{Gate, Io};
use morsel_phase::{LineJobs, LineNodes, LinePlan, LineRooms};
use morsel_ports::ComputeNode;
use morsel_prims::{Board, Lanes, PlainBoard, PlainGroup, PlainLanes, PlainToken, Tokens};
use morsel_read::ScanReader;
use morsel_scan::CsvSourceNode;
use morsel_scan_units::{AtHome, LaneJob};
use morsel_sink::{NDJsonSinkNode, SinkWriter};
use rand_core::SeedableRng;
use rand_xoshiro::Xoshiro256PlusPlus;
use std::alloc::Global;
use std::sync::Arc;
use std::sync::ledger::Ledger;

/// The nodes of a scan's source and sink, which their units share.
#[derive(Drop)]
pub struct ScanNodes {
    /// The source.
    pub source: Arc<CsvSourceNode, Global>,
    /// The sink.
    pub sink: Arc<NDJsonSinkNode, Global>,
}

/// How a scan is run.
#[derive(Clone, Copy, Debug)]
pub struct ScanRun {
    /// How many units each node gets, and for how many loads there is room.
    pub line: LinePlan,
    /// From where on numbers are drawn.
    pub random_state: u64,
    /// How many bytes of rows, the longest record not counted, reading may run ahead of writing.
    pub bound: u64,
}

/// Reads a scan's files, and writes what its source and another node make of them into the last sink; answers how many rows were
/// written.
///
/// The jobs are those of the line's lanes on this board. The board and the other node, which was made ready, are lent, and taken;
/// the reader has read nothing, and the writer has written no row.
// Apart from the other node's kind, so that no proof names the units of both.
fn run_source<L, K, H, Z, G, Y>(
    alloc: Global,
    io: &mut H,
    board: &mut Option<L::Board>,
    jobs: LineJobs<'_, LaneJob<K, H>>,
    source: Arc<CsvSourceNode, Global>,
    last: &mut Option<Z>,
    reader: ScanReader,
    writer: SinkWriter,
    run: ScanRun,
    gate: &G,
    steps: &mut Steps<Y>,
) -> Result<u64, Fault>
where
    L: Tokens + Lanes<Load<<L as Tokens>::Token, LaneJob<K, H>>>,
    <L as Tokens>::Token: AtHome + Drop,
    K: AtHome,
    H: Io,
    Z: ComputeNode<L, LaneJob<K, H>> + Drop,
    G: Gate,
    Y: Ledger,
    requires made { 0 < (H.seen io.old).sinks }
    requires suits { SuitsPieces (H.seen io.old) reader }
    requires start { reader ≡ pieces_at_start reader.sources }
    requires none_written { writer.rows ≡ 0 }
    requires lane { IsLaneOf (arc_value source) reader (H.seen io.old) jobs.fed.now }
    requires jobs { AreLineJobs jobs.fed.now jobs.between.now jobs.given.now }
    requires pipelines { (1 ≤ run.line.pipelines) × (run.line.pipelines ≤ 32768) }
    requires spread_room { (1 ≤ run.line.rooms.spread) × (run.line.rooms.spread ≤ 65536) }
    requires merge_room { (1 ≤ run.line.rooms.merge) × (run.line.rooms.merge ≤ 65536) }
    requires some_board { IsSome board.old }
    requires some_last { IsSome last.old }
    requires last { IfSome last.old (λ last. IsLineNode run.line.pipelines (Z.seen last)) }
    requires last_fits { IfSome last.old (λ last. Z.fits last (jobs.between.now ∷ []) (jobs.given.now ∷ [])) }
    requires last_fails { IfSome last.old (λ last. (fault : Fault) → Z.fails last (jobs.between.now ∷ []) fault → IsUnitFault jobs.fed.now fault) }
    requires tokens { IfSome board.old (λ board. HoldsTokensOf ⟦<LaneJob<K, H> as LoadJob<<L as Tokens>::Token>>⟧.holds L.token_home jobs.fed.now (L.Board.id board).group_table) }
    ensures sweeps { steps.new ≤ steps.old + 1024 * (sum_by (λ n. n) (sizes_in (H.seen io.old).sizes reader.sources.files) + 1) }
    ensures writes { WritesOrNot (arc_value source) reader run.bound (H.seen io.old) result (H.seen io.new) }
{
    let Some(last) = last.take() else {
        unreachable!()
    };
    let mut first = MakerNode::new(CsvSourceMakers::new(source));
    <MakerNode<CsvSourceMakers> as ComputeNode<L, LaneJob<K, H>>>::initialize(
        &mut first,
        run.line.pipelines,
    );
    run_nodes::<L, K, H, MakerNode<CsvSourceMakers>, Z, G, Y>(
        alloc,
        io,
        reader,
        writer,
        board,
        jobs,
        &mut Some(LineNodes { first, last }),
        run.line,
        Xoshiro256PlusPlus::seed_from_u64(run.random_state),
        run.bound,
        gate,
        steps,
    )
}

/// Reads a scan's files, and writes their rows as NDJSON into the last sink, over any lanes; answers how many rows were written.
///
/// The jobs are those of the line's lanes on this board, which is lent, and taken; the reader has read nothing, and the writer has
/// written no row.
pub fn write_over<L, K, H, G, Y>(
    alloc: Global,
    io: &mut H,
    board: &mut Option<L::Board>,
    jobs: LineJobs<'_, LaneJob<K, H>>,
    nodes: ScanNodes,
    reader: ScanReader,
    writer: SinkWriter,
    run: ScanRun,
    gate: &G,
    steps: &mut Steps<Y>,
) -> Result<u64, Fault>
where
    L: Tokens + Lanes<Load<<L as Tokens>::Token, LaneJob<K, H>>>,
    <L as Tokens>::Token: AtHome + Drop,
    K: AtHome,
    H: Io,
    G: Gate,
    Y: Ledger,
    requires made { 0 < (H.seen io.old).sinks }
    requires suits { SuitsPieces (H.seen io.old) reader }
    requires start { reader ≡ pieces_at_start reader.sources }
    requires none_written { writer.rows ≡ 0 }
    requires lane { IsLaneOf (arc_value nodes.source) reader (H.seen io.old) jobs.fed.now }
    requires jobs { AreLineJobs jobs.fed.now jobs.between.now jobs.given.now }
    requires columns { arc_value nodes.sink ≡ output_fields (arc_value nodes.source).scan }
    requires pipelines { (1 ≤ run.line.pipelines) × (run.line.pipelines ≤ 32768) }
    requires spread_room { (1 ≤ run.line.rooms.spread) × (run.line.rooms.spread ≤ 65536) }
    requires merge_room { (1 ≤ run.line.rooms.merge) × (run.line.rooms.merge ≤ 65536) }
    requires some_board { IsSome board.old }
    requires tokens { IfSome board.old (λ board. HoldsTokensOf ⟦<LaneJob<K, H> as LoadJob<<L as Tokens>::Token>>⟧.holds L.token_home jobs.fed.now (L.Board.id board).group_table) }
    ensures sweeps { steps.new ≤ steps.old + 1024 * (sum_by (λ n. n) (sizes_in (H.seen io.old).sizes reader.sources.files) + 1) }
    ensures writes { WritesOrNot (arc_value nodes.source) reader run.bound (H.seen io.old) result (H.seen io.new) }
{
    let mut sink = MakerNode::new(NDJsonSinkMakers::new(nodes.sink));
    <MakerNode<NDJsonSinkMakers> as ComputeNode<L, LaneJob<K, H>>>::initialize(
        &mut sink,
        run.line.pipelines,
    );
    run_source::<L, K, H, MakerNode<NDJsonSinkMakers>, G, Y>(
        alloc,
        io,
        board,
        jobs,
        nodes.source,
        &mut Some(sink),
        reader,
        writer,
        run,
        gate,
        steps,
    )
}

/// What the lanes of a scan on one thread carry.
type PlainLoad<H> = Load<PlainToken, LaneJob<PlainGroup, H>>;

/// Reads a scan's files, and writes their rows as NDJSON into the last sink, on one thread; answers how many rows were written.
///
/// The columns are those of the rows, and the reader, which has read nothing, is one of the scan that the node is for. The writer
/// has written no row.
pub fn write_scan<H: Io, G: Gate, Y: Ledger>(
    alloc: Global,
    io: &mut H,
    node: CsvSourceNode,
    columns: Schema,
    reader: ScanReader,
    writer: SinkWriter,
    run: ScanRun,
    gate: &G,
    steps: &mut Steps<Y>,
) -> Result<u64, Fault>
    requires made { 0 < (H.seen io.old).sinks }
    requires suits { SuitsPieces (H.seen io.old) reader }
    requires start { reader ≡ pieces_at_start reader.sources }
    requires none_written { writer.rows ≡ 0 }
    requires columns { columns ≡ output_fields node.scan }
    requires pipelines { (1 ≤ run.line.pipelines) × (run.line.pipelines ≤ 32768) }
    requires spread_room { (1 ≤ run.line.rooms.spread) × (run.line.rooms.spread ≤ 65536) }
    requires merge_room { (1 ≤ run.line.rooms.merge) × (run.line.rooms.merge ≤ 65536) }
    ensures sweeps { steps.new ≤ steps.old + 1024 * (sum_by (λ n. n) (sizes_in (H.seen io.old).sizes reader.sources.files) + 1) }
    ensures writes { WritesOrNot node reader run.bound (H.seen io.old) result (H.seen io.new) }
{
    let (Ok(mut board), Ok(sink)) = (
        PlainBoard::<PlainLoad<H>>::new(alloc),
        NDJsonSinkNode::new(columns),
    ) else {
        return Err(Fault::OutOfMemory);
    };
    let Ok(group) = PlainLanes::<PlainLoad<H>>::group(alloc, &mut board) else {
        return Err(Fault::OutOfMemory);
    };
    let scanned = RowStage::scanned();
    let fed = LaneJob::new(LoadKind::Pieces, &node, &reader, io, &group, &scanned);
    let between = LaneJob::new(LoadKind::Morsels, &node, &reader, io, &group, &scanned);
    let given = LaneJob::new(LoadKind::Parts, &node, &reader, io, &group, &scanned);
    let (Ok(source), Ok(sink)) = (Arc::new(alloc, node), Arc::new(alloc, sink)) else {
        return Err(Fault::OutOfMemory);
    };
    let jobs = LineJobs {
        fed: &fed,
        between: &between,
        given: &given,
    };
    write_over::<PlainLanes<PlainLoad<H>>, PlainGroup, H, G, Y>(
        alloc,
        io,
        &mut Some(board),
        jobs,
        ScanNodes { source, sink },
        reader,
        writer,
        run,
        gate,
        steps,
    )
}
