//! The second phase of a join of two scans: the rows of the other one are looked up.
ghost use Rattle.std.specs.Prelude.{◌≡◌, ◌∷◌, [], Some, IfOk, IfSome, IsSome, IsOkUnless, ◌<◌, ◌≤◌};
ghost use Rattle.std.specs.Arc.{arc_value};
ghost use Rattle.morsel_meaning.specs.declared.fault.Fault.{Fault};
ghost use Rattle.morsel_meaning.specs.declared.fault.Fault.TheVariants.{OutOfMemory};
ghost use Rattle.morsel_load.specs.declared.load.LoadKind.TheVariants.{Parts, Pieces};
ghost use Rattle.morsel_join.specs.BuildSides.{kept_side};
ghost use Rattle.morsel_join.specs.Sides.{KeptSide};
ghost use Rattle.morsel_line.specs.RowStages.{FoundRows, staged_columns};
ghost use Rattle.morsel_phase.specs.Lines.{IsLineNode};
ghost use Rattle.morsel_scan_units.specs.LaneJobs.{IsUnitFault};
ghost use Rattle.morsel_join_lines.specs.JoinNodes.{AreForOne, IsFinding};
ghost use Rattle.morsel_read.specs.ScanReads.{pieces_at_start, SuitsPieces};
ghost use Rattle.morsel_scan.specs.ScanColumns.{output_fields};
ghost use Rattle.morsel_join_phases.specs.JoinPhases.{build_of};
ghost use Rattle.morsel_probe_run.specs.ProbeRuns.{AreAllUpTo, SweepsFound, WritesFoundOrNot, rows_written};
ghost use Rattle.morsel_join_plan.specs.JoinLanes.{AsksFor, HasJust, HoldsTokensAt, rows_lane};

use crate::join::JoinSide;
use crate::keep::ScanJoin;
use crate::lanes::{FoundLanes, found_lanes, joined_sink};
use morsel_join::Build;
use morsel_join_lines::{PortJobs, ProbeJobs, ProbeNodes};
use morsel_load::{Load, LoadJob};
use morsel_local::Steps;
use morsel_meaning::Fault;
use morsel_nodes::{CsvSourceMakers, MakerNode, NDJsonSinkMakers};
use morsel_outside::{Gate, Io};
use morsel_plan::{ScanNodes, ScanRun};
use morsel_ports::ComputeNode;
use morsel_prims::{Board, Lanes, Tokens};
use morsel_probe_run::{ProbeEnd, probe_nodes};
use morsel_read::ScanReader;
use morsel_scan::CsvSourceNode;
use morsel_scan_units::{AtHome, LaneJob};
use morsel_sink::SinkWriter;
use rand_core::SeedableRng;
use rand_xoshiro::Xoshiro256PlusPlus;
use std::alloc::Global;
use std::sync::Arc;
use std::sync::ledger::Ledger;

/// Reads the files of a scan, and writes what its rows find by a node into the last sink, through another node that makes the text;
/// answers the first of them, how many rows were written, and how many bytes were given.
///
/// The nodes, which were made ready, and the board are lent, and taken.
// Apart from the kinds of both nodes, so that no proof names the units of two of them.
fn find_between<L, K, H, M, Z, G, Y>(
    alloc: Global,
    io: &mut H,
    board: &mut Option<L::Board>,
    lanes: &FoundLanes<LaneJob<K, H>>,
    source: Arc<CsvSourceNode, Global>,
    middle: &mut Option<M>,
    last: &mut Option<Z>,
    reader: ScanReader,
    writer: SinkWriter,
    run: ScanRun,
    gate: &G,
    steps: &mut Steps<Y>,
) -> Result<ProbeEnd<M>, Fault>
where
    L: Tokens + Lanes<Load<<L as Tokens>::Token, LaneJob<K, H>>>,
    <L as Tokens>::Token: AtHome + Drop,
    K: AtHome,
    H: Io,
    M: ComputeNode<L, LaneJob<K, H>> + Drop,
    Z: ComputeNode<L, LaneJob<K, H>> + Drop,
    G: Gate,
    Y: Ledger,
    requires made { 0 < (H.seen io.old).sinks }
    requires suits { SuitsPieces (H.seen io.old) reader }
    requires start { reader ≡ pieces_at_start reader.sources }
    requires none_written { writer.rows ≡ 0 }
    requires pipelines { (1 ≤ run.line.pipelines) × (run.line.pipelines ≤ 32768) }
    requires spread_room { (1 ≤ run.line.rooms.spread) × (run.line.rooms.spread ≤ 65536) }
    requires merge_room { (1 ≤ run.line.rooms.merge) × (run.line.rooms.merge ≤ 65536) }
    requires some_board { IsSome board.old }
    requires tokens { IfSome board.old (λ board. HoldsTokensAt ⟦<LaneJob<K, H> as LoadJob<<L as Tokens>::Token>>⟧.holds L.token_home lanes.now.rows.tokens (L.Board.id board).group_table) }
    requires rows { lanes.now.rows ≡ rows_lane (arc_value source) reader (H.seen io.old) lanes.now.rows.tokens }
    requires fed { lanes.now.fed ≡ record lanes.now.rows { kind = Pieces } }
    requires found { lanes.now.found ≡ record lanes.now.rows { stage = lanes.now.given.stage } }
    requires given { lanes.now.given ≡ record lanes.now.rows { kind = Parts; stage = lanes.now.given.stage } }
    requires first { AreForOne lanes.now.fed lanes.now.rows lanes.now.first.recv.items lanes.now.first.send.items }
    requires middle_recv { lanes.now.middle.recv.items ≡ lanes.now.rows ∷ lanes.now.rows ∷ [] }
    requires middle_send { lanes.now.middle.send.items ≡ lanes.now.found ∷ [] }
    requires last { AreForOne lanes.now.found lanes.now.given lanes.now.last.recv.items lanes.now.last.send.items }
    requires some_middle { IsSome middle.old }
    requires finds { IfSome middle.old (λ middle. IsFinding run.line.pipelines (M.seen middle)) }
    requires fits { IfSome middle.old (λ middle. M.fits middle lanes.now.middle.recv.items lanes.now.middle.send.items) }
    requires fails { IfSome middle.old (λ middle. (fault : Fault) → M.fails middle lanes.now.middle.recv.items fault → fault ≡ OutOfMemory) }
    requires some_last { IsSome last.old }
    requires gives { IfSome last.old (λ last. IsLineNode run.line.pipelines (Z.seen last)) }
    requires last_fits { IfSome last.old (λ last. Z.fits last lanes.now.last.recv.items lanes.now.last.send.items) }
    requires last_fails { IfSome last.old (λ last. (fault : Fault) → Z.fails last lanes.now.last.recv.items fault → IsUnitFault lanes.now.given fault) }
    ensures sweeps { (side : KeptSide) → lanes.now.given.stage ≡ FoundRows side → SweepsFound (arc_value source) reader side (H.seen io.old) steps.old steps.new }
    ensures stays { (begun : M) → IfSome middle.old (λ middle. M.stays begun middle) → IfOk result (λ end. M.stays begun end.node) }
    ensures all { (side : KeptSide) → lanes.now.given.stage ≡ FoundRows side → IfOk result (λ end. AreAllUpTo (arc_value source) reader (H.seen io.old) end.given) }
    ensures writes { (side : KeptSide) → lanes.now.given.stage ≡ FoundRows side → WritesFoundOrNot (arc_value source) reader side run.bound (H.seen io.old) (rows_written result) (H.seen io.new) }
{
    let Some(middle) = middle.take() else {
        unreachable!()
    };
    let Some(last) = last.take() else {
        unreachable!()
    };
    let mut first = MakerNode::new(CsvSourceMakers::new(source));
    <MakerNode<CsvSourceMakers> as ComputeNode<L, LaneJob<K, H>>>::initialize(
        &mut first,
        run.line.pipelines,
    );
    probe_nodes::<L, K, H, MakerNode<CsvSourceMakers>, M, Z, G, Y>(
        alloc,
        io,
        reader,
        writer,
        board,
        ProbeJobs {
            fed: &lanes.fed,
            asked: &lanes.rows,
            found: &lanes.found,
            given: &lanes.given,
            first: PortJobs {
                recv: &lanes.first.recv,
                send: &lanes.first.send,
            },
            middle: PortJobs {
                recv: &lanes.middle.recv,
                send: &lanes.middle.send,
            },
            last: PortJobs {
                recv: &lanes.last.recv,
                send: &lanes.last.send,
            },
        },
        &mut Some(ProbeNodes {
            first,
            middle,
            last,
        }),
        run.line,
        Xoshiro256PlusPlus::seed_from_u64(run.random_state),
        run.bound,
        gate,
        steps,
    )
}

/// Reads the files of a scan, and writes what its rows find by a node into the last sink; answers the node, how many rows were
/// written, and how many bytes were given.
///
/// The node, which was made ready, and the board are lent, and taken. The columns of the sink are those of what the rows find.
fn find_into<L, K, H, M, G, Y>(
    alloc: Global,
    io: &mut H,
    board: &mut Option<L::Board>,
    lanes: &FoundLanes<LaneJob<K, H>>,
    nodes: ScanNodes,
    middle: &mut Option<M>,
    reader: ScanReader,
    writer: SinkWriter,
    run: ScanRun,
    gate: &G,
    steps: &mut Steps<Y>,
) -> Result<ProbeEnd<M>, Fault>
where
    L: Tokens + Lanes<Load<<L as Tokens>::Token, LaneJob<K, H>>>,
    <L as Tokens>::Token: AtHome + Drop,
    K: AtHome,
    H: Io,
    M: ComputeNode<L, LaneJob<K, H>> + Drop,
    G: Gate,
    Y: Ledger,
    requires made { 0 < (H.seen io.old).sinks }
    requires suits { SuitsPieces (H.seen io.old) reader }
    requires start { reader ≡ pieces_at_start reader.sources }
    requires none_written { writer.rows ≡ 0 }
    requires pipelines { (1 ≤ run.line.pipelines) × (run.line.pipelines ≤ 32768) }
    requires spread_room { (1 ≤ run.line.rooms.spread) × (run.line.rooms.spread ≤ 65536) }
    requires merge_room { (1 ≤ run.line.rooms.merge) × (run.line.rooms.merge ≤ 65536) }
    requires some_board { IsSome board.old }
    requires tokens { IfSome board.old (λ board. HoldsTokensAt ⟦<LaneJob<K, H> as LoadJob<<L as Tokens>::Token>>⟧.holds L.token_home lanes.now.rows.tokens (L.Board.id board).group_table) }
    requires rows { lanes.now.rows ≡ rows_lane (arc_value nodes.source) reader (H.seen io.old) lanes.now.rows.tokens }
    requires fed { lanes.now.fed ≡ record lanes.now.rows { kind = Pieces } }
    requires found { lanes.now.found ≡ record lanes.now.rows { stage = lanes.now.given.stage } }
    requires given { lanes.now.given ≡ record lanes.now.rows { kind = Parts; stage = lanes.now.given.stage } }
    requires first { AreForOne lanes.now.fed lanes.now.rows lanes.now.first.recv.items lanes.now.first.send.items }
    requires middle_recv { lanes.now.middle.recv.items ≡ lanes.now.rows ∷ lanes.now.rows ∷ [] }
    requires middle_send { lanes.now.middle.send.items ≡ lanes.now.found ∷ [] }
    requires last { AreForOne lanes.now.found lanes.now.given lanes.now.last.recv.items lanes.now.last.send.items }
    requires some_middle { IsSome middle.old }
    requires finds { IfSome middle.old (λ middle. IsFinding run.line.pipelines (M.seen middle)) }
    requires fits { IfSome middle.old (λ middle. M.fits middle lanes.now.middle.recv.items lanes.now.middle.send.items) }
    requires fails { IfSome middle.old (λ middle. (fault : Fault) → M.fails middle lanes.now.middle.recv.items fault → fault ≡ OutOfMemory) }
    requires columns { arc_value nodes.sink ≡ staged_columns lanes.now.given.stage (output_fields (arc_value nodes.source).scan) }
    ensures sweeps { (side : KeptSide) → lanes.now.given.stage ≡ FoundRows side → SweepsFound (arc_value nodes.source) reader side (H.seen io.old) steps.old steps.new }
    ensures stays { (begun : M) → IfSome middle.old (λ middle. M.stays begun middle) → IfOk result (λ end. M.stays begun end.node) }
    ensures all { (side : KeptSide) → lanes.now.given.stage ≡ FoundRows side → IfOk result (λ end. AreAllUpTo (arc_value nodes.source) reader (H.seen io.old) end.given) }
    ensures writes { (side : KeptSide) → lanes.now.given.stage ≡ FoundRows side → WritesFoundOrNot (arc_value nodes.source) reader side run.bound (H.seen io.old) (rows_written result) (H.seen io.new) }
{
    let mut last = MakerNode::new(NDJsonSinkMakers::new(nodes.sink));
    <MakerNode<NDJsonSinkMakers> as ComputeNode<L, LaneJob<K, H>>>::initialize(
        &mut last,
        run.line.pipelines,
    );
    find_between::<L, K, H, M, MakerNode<NDJsonSinkMakers>, G, Y>(
        alloc,
        io,
        board,
        lanes,
        nodes.source,
        middle,
        &mut Some(last),
        reader,
        writer,
        run,
        gate,
        steps,
    )
}

/// What looks the rows of a side up, beside the join.
#[derive(Drop)]
struct ReadyToLookUp<J> {
    /// What the lanes are for.
    lanes: FoundLanes<J>,
    /// The source, and the sink of what the rows find.
    nodes: ScanNodes,
    /// The reader of the files.
    reader: ScanReader,
}

/// What looks the rows of a side up in these kept rows; the files are to be read from this outside.
// Apart from the join, so that no path lets it go for want of memory here.
fn ready_to_look_up<K: AtHome, H: Io>(
    alloc: Global,
    asked: JoinSide,
    io: &H,
    group: &K,
    build: &Arc<Build, Global>,
) -> Result<ReadyToLookUp<LaneJob<K, H>>, Fault>
    ensures rows { IfOk result (λ ready. ready.lanes.rows ≡ rows_lane asked.node asked.reader (H.seen io.now) (K.home group.now)) }
    ensures fed { IfOk result (λ ready. ready.lanes.fed ≡ record ready.lanes.rows { kind = Pieces }) }
    ensures found { IfOk result (λ ready. ready.lanes.found ≡ record ready.lanes.rows { stage = FoundRows (kept_side (arc_value build.now)) }) }
    ensures given { IfOk result (λ ready. ready.lanes.given ≡ record ready.lanes.rows { kind = Parts; stage = FoundRows (kept_side (arc_value build.now)) }) }
    ensures first { IfOk result (λ ready. AreForOne ready.lanes.fed ready.lanes.rows ready.lanes.first.recv.items ready.lanes.first.send.items) }
    ensures middle_recv { IfOk result (λ ready. ready.lanes.middle.recv.items ≡ ready.lanes.rows ∷ ready.lanes.rows ∷ []) }
    ensures middle_send { IfOk result (λ ready. ready.lanes.middle.send.items ≡ ready.lanes.found ∷ []) }
    ensures last { IfOk result (λ ready. AreForOne ready.lanes.found ready.lanes.given ready.lanes.last.recv.items ready.lanes.last.send.items) }
    ensures source { IfOk result (λ ready. arc_value ready.nodes.source ≡ asked.node) }
    ensures sink { IfOk result (λ ready. arc_value ready.nodes.sink ≡ (arc_value build.now).rules.output) }
    ensures reader { IfOk result (λ ready. ready.reader ≡ asked.reader) }
    ensures out_of_memory { IsOkUnless result OutOfMemory }
{
    let lanes = found_lanes(alloc, &asked, io, group, build)?;
    let JoinSide { node, reader, .. } = asked;
    let source = Arc::new(alloc, node)?;
    let sink = joined_sink(alloc, build)?;
    Ok(ReadyToLookUp {
        lanes,
        nodes: ScanNodes { source, sink },
        reader,
    })
}

/// Reads the files of a side, and writes what its rows find in a join's kept rows into the last sink; answers the join, how many rows
/// were written, and how many bytes were given.
///
/// The join, which is about to look up rows, and the board, whose group this is, are lent, and taken. The reader has read nothing, and
/// the writer has written no row.
pub fn look_up_side<L, K, H, G, Y>(
    alloc: Global,
    io: &mut H,
    board: &mut Option<L::Board>,
    group: &K,
    asked: JoinSide,
    build: &Arc<Build, Global>,
    join: &mut Option<ScanJoin<L, K, H>>,
    writer: SinkWriter,
    run: ScanRun,
    gate: &G,
    steps: &mut Steps<Y>,
) -> Result<ProbeEnd<ScanJoin<L, K, H>>, Fault>
where
    L: Tokens + Lanes<Load<<L as Tokens>::Token, LaneJob<K, H>>>,
    <L as Tokens>::Token: AtHome + Drop,
    K: AtHome,
    H: Io,
    G: Gate,
    Y: Ledger,
    requires made { 0 < (H.seen io.old).sinks }
    requires suits { SuitsPieces (H.seen io.old) asked.reader }
    requires start { asked.reader ≡ pieces_at_start asked.reader.sources }
    requires columns { asked.columns ≡ output_fields asked.node.scan }
    requires none_written { writer.rows ≡ 0 }
    requires pipelines { (1 ≤ run.line.pipelines) × (run.line.pipelines ≤ 32768) }
    requires spread_room { (1 ≤ run.line.rooms.spread) × (run.line.rooms.spread ≤ 65536) }
    requires merge_room { (1 ≤ run.line.rooms.merge) × (run.line.rooms.merge ≤ 65536) }
    requires some_board { IsSome board.old }
    requires tokens { IfSome board.old (λ board. HoldsTokensAt ⟦<LaneJob<K, H> as LoadJob<<L as Tokens>::Token>>⟧.holds L.token_home (K.home group.now) (L.Board.id board).group_table) }
    requires some_join { IsSome join.old }
    requires build { IfSome join.old (λ join. build_of join.phase ≡ Some (arc_value build.now)) }
    requires asks { IfSome join.old (λ join. AsksFor join.phase asked.columns) }
    requires ready { IfSome join.old (λ join. (⟦<ScanJoin<L, K, H> as ComputeNode<L, LaneJob<K, H>>>⟧.seen join).pipelines ≡ Some run.line.pipelines) }
    requires idle { IfSome join.old (λ join. (⟦<ScanJoin<L, K, H> as ComputeNode<L, LaneJob<K, H>>>⟧.seen join).units ≡ 0) }
    ensures sweeps { SweepsFound asked.node asked.reader (kept_side (arc_value build.now)) (H.seen io.old) steps.old steps.new }
    ensures has { IfOk result (λ end. HasJust end.node.phase (arc_value build.now) (rows_lane asked.node asked.reader (H.seen io.old) (K.home group.now))) }
    ensures ready { IfOk result (λ end. (⟦<ScanJoin<L, K, H> as ComputeNode<L, LaneJob<K, H>>>⟧.seen end.node).pipelines ≡ Some run.line.pipelines) }
    ensures all { IfOk result (λ end. AreAllUpTo asked.node asked.reader (H.seen io.old) end.given) }
    ensures writes { WritesFoundOrNot asked.node asked.reader (kept_side (arc_value build.now)) run.bound (H.seen io.old) (rows_written result) (H.seen io.new) }
{
    let Ok(ready) = ready_to_look_up(alloc, asked, io, group, build) else {
        return Err(Fault::OutOfMemory);
    };
    let ReadyToLookUp {
        lanes,
        nodes,
        reader,
    } = ready;
    let Some(mut middle) = join.take() else {
        unreachable!()
    };
    let Ok(()) = middle.look_up_in(&lanes.rows) else {
        return Err(Fault::OutOfMemory);
    };
    find_into::<L, K, H, ScanJoin<L, K, H>, G, Y>(
        alloc,
        io,
        board,
        &lanes,
        nodes,
        &mut Some(middle),
        reader,
        writer,
        run,
        gate,
        steps,
    )
}
