//! A group-by of a scan: its rows are taken into groups, and then those of the group-by are written.
ghost use Rattle.std.specs.Prelude.{◌≡◌, ◌∷◌, ◌++◌, [], None, Some, IfErr, IfOk, IfSome, IsSome, IsOkUnless, OnOk, ◌+◌, ◌*◌, ◌<◌, ◌≤◌};
ghost use Rattle.std.specs.Arc.{arc_value};
ghost use Rattle.std.specs.List.{sum_by};
ghost use Rattle.morsel_meaning.specs.declared.fault.Fault.TheVariants.{OutOfMemory};
ghost use Rattle.morsel_load.specs.declared.load.LoadKind.TheVariants.{Pieces};
ghost use Rattle.morsel_read.specs.ScanReads.{pieces_at_start, sizes_in, SuitsPieces};
ghost use Rattle.morsel_scan.specs.ScanColumns.{output_fields};
ghost use Rattle.morsel_scan_units.specs.LaneJobs.{LaneFor};
ghost use Rattle.morsel_scan_units.specs.LaneRows.{CarriesCuts, IsGivenLane};
ghost use Rattle.morsel_join_lines.specs.JoinNodes.{AreForOne};
ghost use Rattle.morsel_join_tasks.specs.Beside.{answer_beside};
ghost use Rattle.morsel_group_units.specs.GroupAsks.{rules_output};
ghost use Rattle.morsel_group_phases.specs.declared.places.GroupAt.{GroupAt};
ghost use Rattle.morsel_group_phases.specs.GroupPhases.{FitsGroup, StaysGroup, ends_of_group, group_at, group_job, past_ends};
ghost use Rattle.morsel_keep_run.specs.KeepRuns.{KeepsOrNot};
ghost use Rattle.morsel_join_plan.specs.JoinLanes.{HoldsTokensAt, StopsKept, rows_lane};
ghost use Rattle.morsel_group_plan.specs.GroupLanes.{HasTakenScan};
ghost use Rattle.morsel_group_plan.specs.GroupRuns.{GroupsScan, SweepsGroups};

use crate::giving::give_groups;
use crate::joined::{ReadyToGive, ready_to_give};
use crate::lanes::taken_lanes;
use morsel_frame::Schema;
use morsel_group_node::GroupByNode;
use morsel_group_phases::GroupPhase;
use morsel_group_units::GroupRules;
use morsel_join_plan::{JoinBoard, JoinLoad, JoinSide, KeptLanes, keep_with, new_board};
use morsel_load::{Load, LoadJob};
use morsel_local::Steps;
use morsel_meaning::Fault;
use morsel_outside::{Gate, Io};
use morsel_plan::ScanRun;
use morsel_ports::ComputeNode;
use morsel_prims::{Board, Lanes, PlainGroup, PlainLanes, Tokens};
use morsel_read::ScanReader;
use morsel_scan::CsvSourceNode;
use morsel_scan_units::{AtHome, LaneJob};
use morsel_sink::SinkWriter;
use std::alloc::Global;
use std::sync::Arc;
use std::sync::ledger::Ledger;

/// The node of a group-by over the lanes of scans.
pub type ScanGroup<L, K, H> = GroupByNode<<L as Tokens>::Token, LaneJob<K, H>>;

/// A group-by that has a plan: what is asked of it, and the columns of its rows.
#[derive(Drop)]
pub struct PlannedGroup {
    /// What is asked.
    pub rules: GroupRules,
    /// The columns.
    pub output: Schema,
}

/// Reads the files of a scan, and takes its rows into groups; answers the node that has them, and how many bytes were given.
///
/// The node, which has taken nothing, and the board are lent, and taken.
fn take_rows<L, K, H, G, Y>(
    alloc: Global,
    io: &mut H,
    board: &mut Option<L::Board>,
    lanes: &KeptLanes<LaneJob<K, H>>,
    source: Arc<CsvSourceNode, Global>,
    node: &mut Option<ScanGroup<L, K, H>>,
    reader: ScanReader,
    run: ScanRun,
    gate: &G,
    steps: &mut Steps<Y>,
) -> Result<(ScanGroup<L, K, H>, u64), Fault>
where
    L: Tokens + Lanes<Load<<L as Tokens>::Token, LaneJob<K, H>>>,
    <L as Tokens>::Token: AtHome + Drop,
    K: AtHome,
    H: Io,
    G: Gate,
    Y: Ledger,
    requires suits { SuitsPieces (H.seen io.old) reader }
    requires start { reader ≡ pieces_at_start reader.sources }
    requires pipelines { (1 ≤ run.line.pipelines) × (run.line.pipelines ≤ 32768) }
    requires spread_room { (1 ≤ run.line.rooms.spread) × (run.line.rooms.spread ≤ 65536) }
    requires merge_room { (1 ≤ run.line.rooms.merge) × (run.line.rooms.merge ≤ 65536) }
    requires some_board { IsSome board.old }
    requires tokens { IfSome board.old (λ board. HoldsTokensAt ⟦<LaneJob<K, H> as LoadJob<<L as Tokens>::Token>>⟧.holds L.token_home lanes.now.rows.tokens (L.Board.id board).group_table) }
    requires rows { lanes.now.rows ≡ rows_lane (arc_value source) reader (H.seen io.old) lanes.now.rows.tokens }
    requires fed { lanes.now.fed ≡ record lanes.now.rows { kind = Pieces } }
    requires first { AreForOne lanes.now.fed lanes.now.rows lanes.now.first.recv.items lanes.now.first.send.items }
    requires last { AreForOne lanes.now.rows lanes.now.rows lanes.now.last.recv.items lanes.now.last.send.items }
    requires some_node { IsSome node.old }
    requires fits { IfSome node.old (λ node. FitsGroup CarriesCuts IsGivenLane node.phase lanes.now.rows lanes.now.rows) }
    requires at { IfSome node.old (λ node. group_at node.phase ≡ GroupAt.Sink) }
    requires new { IfSome node.old (λ node. ((⟦<ScanGroup<L, K, H> as ComputeNode<L, LaneJob<K, H>>>⟧.seen node).pipelines ≡ None) × ((⟦<ScanGroup<L, K, H> as ComputeNode<L, LaneJob<K, H>>>⟧.seen node).units ≡ 0)) }
    ensures sweeps { steps.new ≤ steps.old + 512 * (sum_by (λ n. n) (sizes_in (H.seen io.old).sizes reader.sources.files) + 1) }
    ensures pipelines { IfOk result (λ kept. (⟦<ScanGroup<L, K, H> as ComputeNode<L, LaneJob<K, H>>>⟧.seen kept.0).pipelines ≡ Some run.line.pipelines) }
    ensures stays { IfSome node.old (λ node. IfOk result (λ kept. StaysGroup node.phase kept.0.phase)) }
    ensures keeps { KeepsOrNot (arc_value source) reader (H.seen io.old) (answer_beside result) (H.seen io.new) }
{
    let Some(mut last) = node.take() else {
        unreachable!()
    };
    <ScanGroup<L, K, H> as ComputeNode<L, LaneJob<K, H>>>::initialize(
        &mut last,
        run.line.pipelines,
    );
    keep_with::<L, K, H, ScanGroup<L, K, H>, G, Y>(
        alloc,
        io,
        board,
        lanes,
        source,
        &mut Some(last),
        reader,
        run,
        gate,
        steps,
    )
}

/// Tests that a group-by still takes rows, and has taken all up to this place; else it answers that there is no memory.
pub fn all_taken<L, K, H>(node: &ScanGroup<L, K, H>, given: u64) -> Result<(), Fault>
where
    L: Tokens + Lanes<Load<<L as Tokens>::Token, LaneJob<K, H>>>,
    <L as Tokens>::Token: AtHome,
    K: AtHome,
    H: Io,
    ensures at { OnOk result (group_at node.now.phase ≡ GroupAt.Sink) }
    ensures ends { (lane : LaneFor) → group_job node.now.phase ≡ Some lane → OnOk result (ends_of_group node.now.phase ≡ Some (past_ends node.now.phase ++ (lane, given) ∷ [])) }
    ensures idle { OnOk result ((⟦<ScanGroup<L, K, H> as ComputeNode<L, LaneJob<K, H>>>⟧.seen node.now).units ≡ 0) }
    ensures out_of_memory { IsOkUnless result OutOfMemory }
{
    let GroupPhase::Sink(_) = &node.phase else {
        return Err(Fault::OutOfMemory);
    };
    let Some(to) = node.taken_to() else {
        return Err(Fault::OutOfMemory);
    };
    if to != given || !node.is_idle() {
        return Err(Fault::OutOfMemory);
    }
    Ok(())
}

/// Reads the files of a scan, and takes all its rows into a group-by, which it answers.
///
/// The board, whose group this is, is lent, and taken; the reader has read nothing. A load that the group-by makes has so many rows at
/// most.
fn take_scan<L, K, H, G, Y>(
    alloc: Global,
    io: &mut H,
    board: &mut Option<L::Board>,
    group: &K,
    scan: JoinSide,
    rules: GroupRules,
    rows: usize,
    run: ScanRun,
    gate: &G,
    steps: &mut Steps<Y>,
) -> Result<ScanGroup<L, K, H>, Fault>
where
    L: Tokens + Lanes<Load<<L as Tokens>::Token, LaneJob<K, H>>>,
    <L as Tokens>::Token: AtHome + Drop,
    K: AtHome,
    H: Io,
    G: Gate,
    Y: Ledger,
    requires suits { SuitsPieces (H.seen io.old) scan.reader }
    requires start { scan.reader ≡ pieces_at_start scan.reader.sources }
    requires columns { rules.columns ≡ output_fields scan.node.scan }
    requires some { 0 < rows }
    requires pipelines { (1 ≤ run.line.pipelines) × (run.line.pipelines ≤ 32768) }
    requires spread_room { (1 ≤ run.line.rooms.spread) × (run.line.rooms.spread ≤ 65536) }
    requires merge_room { (1 ≤ run.line.rooms.merge) × (run.line.rooms.merge ≤ 65536) }
    requires some_board { IsSome board.old }
    requires tokens { IfSome board.old (λ board. HoldsTokensAt ⟦<LaneJob<K, H> as LoadJob<<L as Tokens>::Token>>⟧.holds L.token_home (K.home group.now) (L.Board.id board).group_table) }
    ensures sweeps { steps.new ≤ steps.old + 512 * (sum_by (λ n. n) (sizes_in (H.seen io.old).sizes scan.reader.sources.files) + 1) }
    ensures taken { IfOk result (λ node. HasTakenScan node.phase (record { scan = scan.node; reader = scan.reader }) rules (H.seen io.old) (H.seen io.new)) }
    ensures pipelines { IfOk result (λ node. (⟦<ScanGroup<L, K, H> as ComputeNode<L, LaneJob<K, H>>>⟧.seen node).pipelines ≡ Some run.line.pipelines) }
    ensures idle { IfOk result (λ node. (⟦<ScanGroup<L, K, H> as ComputeNode<L, LaneJob<K, H>>>⟧.seen node).units ≡ 0) }
    ensures stops { IfErr result (λ fault. StopsKept (record { scan = scan.node; reader = scan.reader }) (H.seen io.old) fault (H.seen io.new)) }
{
    let lanes = taken_lanes(alloc, &scan, io, group)?;
    let rules = Arc::new(alloc, rules)?;
    let JoinSide { node, reader, .. } = scan;
    let source = Arc::new(alloc, node)?;
    let taking = GroupByNode::new(alloc, rules, &lanes.rows, rows);
    let (taken, given) = take_rows::<L, K, H, G, Y>(
        alloc,
        io,
        board,
        &lanes,
        source,
        &mut Some(taking),
        reader,
        run,
        gate,
        steps,
    )?;
    let Ok(()) = all_taken::<L, K, H>(&taken, given) else {
        return Err(Fault::OutOfMemory);
    };
    Ok(taken)
}

/// Groups the rows of a scan's open files, writes the rows of the group-by into the last sink, some at a time, and answers how many
/// there are.
///
/// The reader has read nothing, and the writer has written no row.
pub fn write_groups<H: Io, G: Gate, Y: Ledger>(
    alloc: Global,
    io: &mut H,
    scan: JoinSide,
    group: PlannedGroup,
    writer: SinkWriter,
    rows: usize,
    run: ScanRun,
    gate: &G,
    steps: &mut Steps<Y>,
) -> Result<u64, Fault>
    requires made { 0 < (H.seen io.old).sinks }
    requires suits { SuitsPieces (H.seen io.old) scan.reader }
    requires start { scan.reader ≡ pieces_at_start scan.reader.sources }
    requires columns { group.rules.columns ≡ output_fields scan.node.scan }
    requires output { group.output ≡ rules_output group.rules }
    requires none_written { writer.rows ≡ 0 }
    requires some { 0 < rows }
    requires pipelines { (1 ≤ run.line.pipelines) × (run.line.pipelines ≤ 32768) }
    requires spread_room { (1 ≤ run.line.rooms.spread) × (run.line.rooms.spread ≤ 65536) }
    requires merge_room { (1 ≤ run.line.rooms.merge) × (run.line.rooms.merge ≤ 65536) }
    ensures sweeps { SweepsGroups (record { scan = scan.node; reader = scan.reader }) (H.seen io.old) steps.old steps.new }
    ensures groups { GroupsScan (record { scan = scan.node; reader = scan.reader }) group.rules (H.seen io.old) result (H.seen io.new) }
{
    let Ok(
        JoinBoard {
            board,
            group: tokens,
        },
    ) = new_board::<H>(alloc)
    else {
        return Err(Fault::OutOfMemory);
    };
    let PlannedGroup { rules, output } = group;
    // The reader is to read from the outside as it is now.
    let Ok(ready) = ready_to_give(alloc, &scan, io, output) else {
        return Err(Fault::OutOfMemory);
    };
    let taken = match take_scan::<PlainLanes<JoinLoad<H>>, PlainGroup, H, G, Y>(
        alloc,
        io,
        &mut Some(board),
        &tokens,
        scan,
        rules,
        rows,
        run,
        gate,
        steps,
    ) {
        Ok(taken) => taken,
        Err(fault) => return Err(fault),
    };
    let ReadyToGive { board, lanes, sink } = ready;
    give_groups::<PlainLanes<JoinLoad<H>>, PlainGroup, H, G, Y>(
        alloc,
        io,
        &mut Some(board),
        lanes,
        sink,
        &mut Some(taken),
        writer,
        run,
        gate,
        steps,
    )
}
