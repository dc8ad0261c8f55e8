//! The first phase of a join of two scans: the rows of one of them are kept.
ghost use Rattle.std.specs.Prelude.{◌≡◌, ◌∷◌, [], All, Some, None, IfErr, IfOk, IfSome, IsSome, IsOkUnless, OnOk, ◌+◌, ◌*◌, ◌<◌, ◌≤◌};
ghost use Rattle.std.specs.Arc.{arc_value};
ghost use Rattle.std.specs.List.{sum_by};
ghost use Rattle.morsel_meaning.specs.declared.fault.Fault.{Fault};
ghost use Rattle.morsel_meaning.specs.declared.fault.Fault.TheVariants.{OutOfMemory};
ghost use Rattle.morsel_load.specs.declared.load.LoadKind.TheVariants.{Pieces};
ghost use Rattle.morsel_join.specs.Rows.{keeps_left};
ghost use Rattle.morsel_join.specs.Sides.{FitSides};
ghost use Rattle.morsel_read.specs.ScanReads.{pieces_at_start, sizes_in, SuitsPieces};
ghost use Rattle.morsel_scan.specs.ScanColumns.{output_fields};
ghost use Rattle.morsel_scan_units.specs.LaneJobs.{LaneFor};
ghost use Rattle.morsel_scan_units.specs.LaneRows.{AloneBetween, AreScanRows, CarriesRows, FindsBetween, PlacesGive};
ghost use Rattle.morsel_join_lines.specs.JoinNodes.{AreForOne, KeepsFor};
ghost use Rattle.morsel_join_tasks.specs.Beside.{answer_beside};
ghost use Rattle.morsel_join_phases.specs.declared.places.JoinAt.{JoinAt};
ghost use Rattle.morsel_join_phases.specs.JoinPhases.{FitsJoin, HadRules, StaysJoin, at_of};
ghost use Rattle.morsel_keep_run.specs.KeepRuns.{KeepsOrNot};
ghost use Rattle.morsel_join_plan.specs.JoinLanes.{AsksFor, HasKeptScan, HasKeptTo, HoldsTokensAt, StopsKept, rows_lane};

use crate::join::JoinSide;
use crate::lanes::{KeptLanes, kept_lanes, side_lane};
use morsel_frame::Schema;
use morsel_join::JoinRules;
use morsel_join_lines::{KeepJobs, KeepNodes, PortJobs};
use morsel_join_node::EquiJoinNode;
use morsel_keep_run::keep_nodes;
use morsel_line::RowStage;
use morsel_load::{Load, LoadJob, LoadKind};
use morsel_local::Steps;
use morsel_meaning::Fault;
use morsel_nodes::{CsvSourceMakers, MakerNode};
use morsel_outside::{Gate, Io};
use morsel_plan::ScanRun;
use morsel_ports::{ComputeNode, PortState};
use morsel_prims::{Board, Lanes, Tokens};
use morsel_read::ScanReader;
use morsel_scan::CsvSourceNode;
use morsel_scan_units::{AtHome, LaneJob};
use rand_core::SeedableRng;
use rand_xoshiro::Xoshiro256PlusPlus;
use std::alloc::Global;
use std::sync::Arc;
use std::sync::ledger::Ledger;

/// The node of a join over the lanes of scans.
pub type ScanJoin<L, K, H> = EquiJoinNode<<L as Tokens>::Token, LaneJob<K, H>>;

/// Reads the files of a scan, and keeps its rows in a node; answers that node, and how many bytes were given.
///
/// The node, which was made ready, and the board are lent, and taken.
// Apart from the join, so that no proof names the units of both nodes.
pub fn keep_with<L, K, H, M, G, Y>(
    alloc: Global,
    io: &mut H,
    board: &mut Option<L::Board>,
    lanes: &KeptLanes<LaneJob<K, H>>,
    source: Arc<CsvSourceNode, Global>,
    last: &mut Option<M>,
    reader: ScanReader,
    run: ScanRun,
    gate: &G,
    steps: &mut Steps<Y>,
) -> Result<(M, u64), Fault>
where
    L: Tokens + Lanes<Load<<L as Tokens>::Token, LaneJob<K, H>>>,
    <L as Tokens>::Token: AtHome + Drop,
    K: AtHome,
    H: Io,
    M: ComputeNode<L, LaneJob<K, H>> + Drop,
    G: Gate,
    Y: Ledger,
    requires suits { SuitsPieces (H.seen io.old) reader }
    requires start { reader ≡ pieces_at_start reader.sources }
    requires pipelines { (1 ≤ run.line.pipelines) × (run.line.pipelines ≤ 32768) }
    requires spread_room { (1 ≤ run.line.rooms.spread) × (run.line.rooms.spread ≤ 65536) }
    requires merge_room { (1 ≤ run.line.rooms.merge) × (run.line.rooms.merge ≤ 65536) }
    requires some_board { IsSome board.old }
    requires tokens { IfSome board.old (λ board. HoldsTokensAt ⟦<LaneJob<K, H> as LoadJob<<L as Tokens>::Token>>⟧.holds L.token_home lanes.now.rows.tokens (L.Board.id board).group_table) }
    requires rows { lanes.now.rows ≡ rows_lane (arc_value source) reader (H.seen io.old) lanes.now.rows.tokens }
    requires fed { lanes.now.fed ≡ record lanes.now.rows { kind = Pieces } }
    requires first { AreForOne lanes.now.fed lanes.now.rows lanes.now.first.recv.items lanes.now.first.send.items }
    requires last_tokens { All (λ (lane : LaneFor). lane.tokens ≡ lanes.now.rows.tokens) lanes.now.last.recv.items }
    requires some_last { IsSome last.old }
    requires keeps { IfSome last.old (λ last. KeepsFor run.line.pipelines lanes.now.rows lanes.now.last.recv.items lanes.now.last.send.items (M.seen last)) }
    requires fits { IfSome last.old (λ last. M.fits last lanes.now.last.recv.items lanes.now.last.send.items) }
    requires fails { IfSome last.old (λ last. (fault : Fault) → M.fails last lanes.now.last.recv.items fault → fault ≡ OutOfMemory) }
    ensures sweeps { steps.new ≤ steps.old + 512 * (sum_by (λ n. n) (sizes_in (H.seen io.old).sizes reader.sources.files) + 1) }
    ensures stays { (begun : M) → IfSome last.old (λ last. M.stays begun last) → IfOk result (λ kept. M.stays begun kept.0) }
    ensures keeps { KeepsOrNot (arc_value source) reader (H.seen io.old) (answer_beside result) (H.seen io.new) }
{
    let Some(last) = last.take() else {
        unreachable!()
    };
    let mut first = MakerNode::new(CsvSourceMakers::new(source));
    <MakerNode<CsvSourceMakers> as ComputeNode<L, LaneJob<K, H>>>::initialize(
        &mut first,
        run.line.pipelines,
    );
    keep_nodes::<L, K, H, MakerNode<CsvSourceMakers>, M, G, Y>(
        alloc,
        io,
        reader,
        board,
        KeepJobs {
            fed: &lanes.fed,
            between: &lanes.rows,
            first: PortJobs {
                recv: &lanes.first.recv,
                send: &lanes.first.send,
            },
            last: PortJobs {
                recv: &lanes.last.recv,
                send: &lanes.last.send,
            },
        },
        &mut Some(KeepNodes { first, last }),
        run.line,
        Xoshiro256PlusPlus::seed_from_u64(run.random_state),
        gate,
        steps,
    )
}

/// Reads the files of a scan, and keeps its rows in a join; answers that join, and how many bytes were given.
///
/// The join, which has kept nothing, and the board are lent, and taken.
fn keep_rows<L, K, H, G, Y>(
    alloc: Global,
    io: &mut H,
    board: &mut Option<L::Board>,
    lanes: &KeptLanes<LaneJob<K, H>>,
    source: Arc<CsvSourceNode, Global>,
    join: &mut Option<ScanJoin<L, K, H>>,
    reader: ScanReader,
    run: ScanRun,
    gate: &G,
    steps: &mut Steps<Y>,
) -> Result<(ScanJoin<L, K, H>, u64), Fault>
where
    L: Tokens + Lanes<Load<<L as Tokens>::Token, LaneJob<K, H>>>,
    <L as Tokens>::Token: AtHome + Drop,
    K: AtHome,
    H: Io,
    G: Gate,
    Y: Ledger,
    requires suits { SuitsPieces (H.seen io.old) reader }
    requires start { reader ≡ pieces_at_start reader.sources }
    requires pipelines { (1 ≤ run.line.pipelines) × (run.line.pipelines ≤ 32768) }
    requires spread_room { (1 ≤ run.line.rooms.spread) × (run.line.rooms.spread ≤ 65536) }
    requires merge_room { (1 ≤ run.line.rooms.merge) × (run.line.rooms.merge ≤ 65536) }
    requires some_board { IsSome board.old }
    requires tokens { IfSome board.old (λ board. HoldsTokensAt ⟦<LaneJob<K, H> as LoadJob<<L as Tokens>::Token>>⟧.holds L.token_home lanes.now.rows.tokens (L.Board.id board).group_table) }
    requires rows { lanes.now.rows ≡ rows_lane (arc_value source) reader (H.seen io.old) lanes.now.rows.tokens }
    requires fed { lanes.now.fed ≡ record lanes.now.rows { kind = Pieces } }
    requires first { AreForOne lanes.now.fed lanes.now.rows lanes.now.first.recv.items lanes.now.first.send.items }
    requires last_recv { lanes.now.last.recv.items ≡ lanes.now.rows ∷ lanes.now.rows ∷ [] }
    requires last_send { lanes.now.last.send.items ≡ lanes.now.rows ∷ [] }
    requires some_join { IsSome join.old }
    requires fits { IfSome join.old (λ join. (other sent : LaneFor) → FitsJoin CarriesRows PlacesGive AreScanRows FindsBetween AloneBetween join.phase lanes.now.rows other sent) }
    requires at { IfSome join.old (λ join. at_of join.phase ≡ JoinAt.Build) }
    requires new { IfSome join.old (λ join. ((⟦<ScanJoin<L, K, H> as ComputeNode<L, LaneJob<K, H>>>⟧.seen join).pipelines ≡ None) × ((⟦<ScanJoin<L, K, H> as ComputeNode<L, LaneJob<K, H>>>⟧.seen join).units ≡ 0)) }
    ensures sweeps { steps.new ≤ steps.old + 512 * (sum_by (λ n. n) (sizes_in (H.seen io.old).sizes reader.sources.files) + 1) }
    ensures pipelines { IfOk result (λ kept. (⟦<ScanJoin<L, K, H> as ComputeNode<L, LaneJob<K, H>>>⟧.seen kept.0).pipelines ≡ Some run.line.pipelines) }
    ensures stays { IfSome join.old (λ join. IfOk result (λ kept. StaysJoin join.phase kept.0.phase)) }
    ensures keeps { KeepsOrNot (arc_value source) reader (H.seen io.old) (answer_beside result) (H.seen io.new) }
{
    let Some(mut last) = join.take() else {
        unreachable!()
    };
    <ScanJoin<L, K, H> as ComputeNode<L, LaneJob<K, H>>>::initialize(&mut last, run.line.pipelines);
    keep_with::<L, K, H, ScanJoin<L, K, H>, G, Y>(
        alloc,
        io,
        board,
        lanes,
        source,
        &mut Some(last),
        reader,
        run,
        gate,
        steps,
    )
}

/// Moves a join on whose units kept rows: from now on it looks rows up. It tests that all units were given back, and that rows were
/// kept up to this place; where that is not so, it answers that there is no memory.
#[tactic(auto, using(crate::proofs::PhaseFacts::kept_there))]
fn end_keeping<L, K, H>(join: &mut ScanJoin<L, K, H>, given: u64) -> Result<(), Fault>
where
    L: Tokens + Lanes<Load<<L as Tokens>::Token, LaneJob<K, H>>>,
    <L as Tokens>::Token: AtHome,
    K: AtHome,
    H: Io,
    requires ready { IsSome (⟦<ScanJoin<L, K, H> as ComputeNode<L, LaneJob<K, H>>>⟧.seen join.old).pipelines }
    ensures had { OnOk result (HadRules join.old.phase join.new.phase) }
    ensures kept { OnOk result (HasKeptTo join.new.phase given) }
    ensures pipelines { OnOk result ((⟦<ScanJoin<L, K, H> as ComputeNode<L, LaneJob<K, H>>>⟧.seen join.new).pipelines ≡ (⟦<ScanJoin<L, K, H> as ComputeNode<L, LaneJob<K, H>>>⟧.seen join.old).pipelines) }
    ensures idle { OnOk result ((⟦<ScanJoin<L, K, H> as ComputeNode<L, LaneJob<K, H>>>⟧.seen join.new).units ≡ 0) }
    ensures out_of_memory { IsOkUnless result OutOfMemory }
{
    let mut recv = [PortState::Done, PortState::Ready];
    let mut send = [PortState::Ready];
    <ScanJoin<L, K, H> as ComputeNode<L, LaneJob<K, H>>>::update_state(join, &mut recv, &mut send)?;
    let Some(to) = join.kept_to() else {
        return Err(Fault::OutOfMemory);
    };
    if to != given || !join.is_idle() {
        return Err(Fault::OutOfMemory);
    }
    Ok(())
}

/// The columns once more.
fn copied(columns: &Schema) -> Result<Schema, Fault>
    ensures ok { IfOk result (λ copy. copy ≡ columns.now) }
    ensures out_of_memory { IsOkUnless result OutOfMemory }
{
    let copy = columns.clone()?;
    Ok(copy)
}

/// Reads the files of a side, and keeps its rows in a join, which it answers: it is about to look up the rows of the other side.
///
/// The rules are those of a join of both, of which this side is kept. The board, whose group this is, is lent, and taken; the reader
/// has read nothing.
pub fn keep_side<L, K, H, G, Y>(
    alloc: Global,
    io: &mut H,
    board: &mut Option<L::Board>,
    group: &K,
    kept: JoinSide,
    asked: &JoinSide,
    rules: JoinRules,
    rows: usize,
    run: ScanRun,
    gate: &G,
    steps: &mut Steps<Y>,
) -> Result<ScanJoin<L, K, H>, Fault>
where
    L: Tokens + Lanes<Load<<L as Tokens>::Token, LaneJob<K, H>>>,
    <L as Tokens>::Token: AtHome + Drop,
    K: AtHome,
    H: Io,
    G: Gate,
    Y: Ledger,
    requires suits { SuitsPieces (H.seen io.old) kept.reader }
    requires start { kept.reader ≡ pieces_at_start kept.reader.sources }
    requires columns { kept.columns ≡ output_fields kept.node.scan }
    requires asked_columns { asked.now.columns ≡ output_fields asked.now.node.scan }
    requires fit { FitSides (keeps_left rules.how rules.maintain_order) kept.columns asked.now.columns rules }
    requires some { 0 < rows }
    requires pipelines { (1 ≤ run.line.pipelines) × (run.line.pipelines ≤ 32768) }
    requires spread_room { (1 ≤ run.line.rooms.spread) × (run.line.rooms.spread ≤ 65536) }
    requires merge_room { (1 ≤ run.line.rooms.merge) × (run.line.rooms.merge ≤ 65536) }
    requires some_board { IsSome board.old }
    requires tokens { IfSome board.old (λ board. HoldsTokensAt ⟦<LaneJob<K, H> as LoadJob<<L as Tokens>::Token>>⟧.holds L.token_home (K.home group.now) (L.Board.id board).group_table) }
    ensures sweeps { steps.new ≤ steps.old + 512 * (sum_by (λ n. n) (sizes_in (H.seen io.old).sizes kept.reader.sources.files) + 1) }
    ensures kept { IfOk result (λ join. HasKeptScan join.phase (record { scan = kept.node; reader = kept.reader }) rules (H.seen io.old) (H.seen io.new)) }
    ensures asks { IfOk result (λ join. AsksFor join.phase asked.now.columns) }
    ensures pipelines { IfOk result (λ join. (⟦<ScanJoin<L, K, H> as ComputeNode<L, LaneJob<K, H>>>⟧.seen join).pipelines ≡ Some run.line.pipelines) }
    ensures idle { IfOk result (λ join. (⟦<ScanJoin<L, K, H> as ComputeNode<L, LaneJob<K, H>>>⟧.seen join).units ≡ 0) }
    ensures stops { IfErr result (λ fault. StopsKept (record { scan = kept.node; reader = kept.reader }) (H.seen io.old) fault (H.seen io.new)) }
{
    let lanes = kept_lanes(alloc, &kept, io, group)?;
    let asked_rows = side_lane(LoadKind::Morsels, asked, io, group, &RowStage::scanned());
    let asked_columns = copied(&asked.columns)?;
    let JoinSide {
        node,
        columns,
        reader,
    } = kept;
    let source = Arc::new(alloc, node)?;
    let join = EquiJoinNode::new(
        alloc,
        rules,
        columns,
        asked_columns,
        &lanes.rows,
        &asked_rows,
        rows,
    );
    let (mut join, given) = keep_rows::<L, K, H, G, Y>(
        alloc,
        io,
        board,
        &lanes,
        source,
        &mut Some(join),
        reader,
        run,
        gate,
        steps,
    )?;
    let Ok(()) = end_keeping::<L, K, H>(&mut join, given) else {
        return Err(Fault::OutOfMemory);
    };
    Ok(join)
}
