//! A group-by of a join of two scans: what the rows of one find on the kept side is taken into groups, then the kept rows that none
//! finds, and then the rows of the group-by are written.
ghost use Rattle.std.specs.Prelude.{◌≡◌, Some, IfOk, IfSome, IsSome, IsOkUnless, ◌<◌, ◌≤◌};
ghost use Rattle.std.specs.Arc.{arc_value};
ghost use Rattle.morsel_meaning.specs.declared.fault.Fault.TheVariants.{OutOfMemory};
ghost use Rattle.morsel_load.specs.declared.load.LoadKind.TheVariants.{Parts};
ghost use Rattle.morsel_join.specs.declared.build_side.Build.{Build};
ghost use Rattle.morsel_join.specs.BuildSides.{kept_side};
ghost use Rattle.morsel_join.specs.Rows.{keeps_left};
ghost use Rattle.morsel_join.specs.Sides.{FitSides, IsRightSide};
ghost use Rattle.morsel_read.specs.ScanReads.{pieces_at_start, SuitsPieces};
ghost use Rattle.morsel_scan.specs.ScanColumns.{output_fields};
ghost use Rattle.morsel_join_phases.specs.JoinPhases.{build_of};
ghost use Rattle.morsel_group_units.specs.GroupAsks.{rules_output};
ghost use Rattle.morsel_join_plan.specs.JoinLanes.{AsksFor, rows_lane};
ghost use Rattle.morsel_group_plan.specs.GroupRuns.{GroupsJoin, GroupsRows, JoinGives, SweepsGroupsJoin};
ghost use Rattle.morsel_group_plan.specs.JoinedLanes.{SweepsGrouped};

use crate::giving::give_groups;
use crate::joined_rows::take_joined;
use crate::lanes::{PlaceLanes, grouped_sink, place_lanes};
use crate::scan::PlannedGroup;
use morsel_frame::Schema;
use morsel_join::JoinRules;
use morsel_join_plan::{JoinBoard, JoinLoad, JoinSide, PlainJoin, keep_side, kept_rows, new_board};
use morsel_local::Steps;
use morsel_meaning::Fault;
use morsel_outside::{Gate, Io};
use morsel_plan::ScanRun;
use morsel_ports::ComputeNode;
use morsel_prims::{Board, PlainBoard, PlainGroup, PlainLanes};
use morsel_scan_units::LaneJob;
use morsel_sink::{NDJsonSinkNode, SinkWriter};
use std::alloc::Global;
use std::sync::Arc;
use std::sync::ledger::Ledger;

/// What gives the rows of a group-by, beside it.
#[derive(Drop)]
pub struct ReadyToGive<H: Io> {
    /// The board.
    pub board: PlainBoard<JoinLoad<H>>,
    /// What the lanes are for.
    pub lanes: PlaceLanes<LaneJob<PlainGroup, H>>,
    /// The sink.
    pub sink: Arc<NDJsonSinkNode, Global>,
}

/// What gives rows of these columns, where the files of a side are to be read from this outside.
pub fn ready_to_give<H: Io>(
    alloc: Global,
    asked: &JoinSide,
    io: &H,
    columns: Schema,
) -> Result<ReadyToGive<H>, Fault>
    ensures home { IfOk result (λ ready. (⟦<PlainBoard<JoinLoad<H>> as Board>⟧.id ready.board).group_table ≡ ready.lanes.rows.tokens) }
    ensures rows { IfOk result (λ ready. ready.lanes.rows ≡ rows_lane asked.now.node asked.now.reader (H.seen io.now) ready.lanes.rows.tokens) }
    ensures taken { IfOk result (λ ready. ready.lanes.taken ≡ ready.lanes.rows) }
    ensures kept { IfOk result (λ ready. (ready.lanes.kept ≡ ready.lanes.rows) × (ready.lanes.sent ≡ ready.lanes.rows) × (ready.lanes.received ≡ ready.lanes.rows)) }
    ensures texts { IfOk result (λ ready. (ready.lanes.given ≡ record ready.lanes.rows { kind = Parts }) × (ready.lanes.text ≡ record ready.lanes.rows { kind = Parts })) }
    ensures columns { IfOk result (λ ready. arc_value ready.sink ≡ columns) }
    ensures out_of_memory { IsOkUnless result OutOfMemory }
{
    let JoinBoard { board, group } = new_board::<H>(alloc)?;
    let sink = grouped_sink(alloc, columns)?;
    let lanes = place_lanes(asked, io, &group);
    Ok(ReadyToGive { board, lanes, sink })
}

/// Groups what the rows of a side find in a join's kept rows, and the kept rows that none finds, writes the rows of the group-by into the
/// last sink, and answers how many there are.
///
/// The join, which is about to look up rows, is lent, and taken.
fn write_grouped<H: Io, G: Gate, Y: Ledger>(
    alloc: Global,
    io: &mut H,
    join: &mut Option<PlainJoin<H>>,
    asked: JoinSide,
    group: PlannedGroup,
    writer: SinkWriter,
    rows: usize,
    run: ScanRun,
    gate: &G,
    steps: &mut Steps<Y>,
) -> Result<u64, Fault>
    requires made { 0 < (H.seen io.old).sinks }
    requires suits { SuitsPieces (H.seen io.old) asked.reader }
    requires start { asked.reader ≡ pieces_at_start asked.reader.sources }
    requires columns { asked.columns ≡ output_fields asked.node.scan }
    requires output { group.output ≡ rules_output group.rules }
    requires none_written { writer.rows ≡ 0 }
    requires some { 0 < rows }
    requires pipelines { (1 ≤ run.line.pipelines) × (run.line.pipelines ≤ 32768) }
    requires spread_room { (1 ≤ run.line.rooms.spread) × (run.line.rooms.spread ≤ 65536) }
    requires merge_room { (1 ≤ run.line.rooms.merge) × (run.line.rooms.merge ≤ 65536) }
    requires some_join { IsSome join.old }
    requires asks { IfSome join.old (λ join. AsksFor join.phase asked.columns) }
    requires ready { IfSome join.old (λ join. (⟦<PlainJoin<H> as ComputeNode<PlainLanes<JoinLoad<H>>, LaneJob<PlainGroup, H>>>⟧.seen join).pipelines ≡ Some run.line.pipelines) }
    requires idle { IfSome join.old (λ join. (⟦<PlainJoin<H> as ComputeNode<PlainLanes<JoinLoad<H>>, LaneJob<PlainGroup, H>>>⟧.seen join).units ≡ 0) }
    requires right { IfSome join.old (λ join. (build : Build) → build_of join.phase ≡ Some build → IsRightSide (kept_side build)) }
    requires grouped { IfSome join.old (λ join. (build : Build) → build_of join.phase ≡ Some build → group.rules.columns ≡ build.rules.output) }
    ensures sweeps { IfSome join.old (λ join. (build : Build) → build_of join.phase ≡ Some build → SweepsGrouped (record { scan = asked.node; reader = asked.reader }) (kept_side build) (H.seen io.old) steps.old steps.new) }
    ensures groups { IfSome join.old (λ join. (build : Build) → build_of join.phase ≡ Some build
        → GroupsRows (JoinGives (record { scan = asked.node; reader = asked.reader }) (kept_side build)) (record { scan = asked.node; reader = asked.reader }) group.rules (H.seen io.old) result (H.seen io.new)) }
{
    let Some(join) = join.take() else {
        unreachable!()
    };
    let Ok(build) = kept_rows(&join) else {
        return Err(Fault::OutOfMemory);
    };
    let Ok(
        JoinBoard {
            board,
            group: tokens,
        },
    ) = new_board::<H>(alloc)
    else {
        return Err(Fault::OutOfMemory);
    };
    let PlannedGroup { rules, output } = group;
    // The reader of the other side is to read from the outside as it is now.
    let Ok(ready) = ready_to_give(alloc, &asked, io, output) else {
        return Err(Fault::OutOfMemory);
    };
    let taken = match take_joined::<PlainLanes<JoinLoad<H>>, PlainGroup, H, G, Y>(
        alloc,
        io,
        &mut Some(board),
        &tokens,
        asked,
        &build,
        &mut Some(join),
        rules,
        rows,
        run,
        gate,
        steps,
    ) {
        Ok(taken) => taken,
        Err(fault) => return Err(fault),
    };
    let ReadyToGive { board, lanes, sink } = ready;
    give_groups::<PlainLanes<JoinLoad<H>>, PlainGroup, H, G, Y>(
        alloc,
        io,
        &mut Some(board),
        lanes,
        sink,
        &mut Some(taken),
        writer,
        run,
        gate,
        steps,
    )
}

/// Groups the rows of a join of two scans' open files, writes the rows of the group-by into the last sink, some at a time, and answers
/// how many there are.
///
/// The readers have read nothing, and the writer has written no row.
pub fn write_joined_groups<H: Io, G: Gate, Y: Ledger>(
    alloc: Global,
    io: &mut H,
    kept: JoinSide,
    asked: JoinSide,
    rules: JoinRules,
    group: PlannedGroup,
    writer: SinkWriter,
    rows: usize,
    run: ScanRun,
    gate: &G,
    steps: &mut Steps<Y>,
) -> Result<u64, Fault>
    requires made { 0 < (H.seen io.old).sinks }
    requires kept_suits { SuitsPieces (H.seen io.old) kept.reader }
    requires kept_start { kept.reader ≡ pieces_at_start kept.reader.sources }
    requires kept_columns { kept.columns ≡ output_fields kept.node.scan }
    requires asked_suits { SuitsPieces (H.seen io.old) asked.reader }
    requires asked_start { asked.reader ≡ pieces_at_start asked.reader.sources }
    requires asked_columns { asked.columns ≡ output_fields asked.node.scan }
    requires fit { FitSides (keeps_left rules.how rules.maintain_order) kept.columns asked.columns rules }
    requires columns { group.rules.columns ≡ rules.output }
    requires output { group.output ≡ rules_output group.rules }
    requires none_written { writer.rows ≡ 0 }
    requires some { 0 < rows }
    requires pipelines { (1 ≤ run.line.pipelines) × (run.line.pipelines ≤ 32768) }
    requires spread_room { (1 ≤ run.line.rooms.spread) × (run.line.rooms.spread ≤ 65536) }
    requires merge_room { (1 ≤ run.line.rooms.merge) × (run.line.rooms.merge ≤ 65536) }
    ensures sweeps { SweepsGroupsJoin (record { scan = kept.node; reader = kept.reader }) (record { scan = asked.node; reader = asked.reader }) (H.seen io.old) steps.old steps.new }
    ensures groups { GroupsJoin (record { scan = kept.node; reader = kept.reader }) (record { scan = asked.node; reader = asked.reader }) rules group.rules (H.seen io.old) result (H.seen io.new) }
{
    let Ok(
        JoinBoard {
            board,
            group: tokens,
        },
    ) = new_board::<H>(alloc)
    else {
        return Err(Fault::OutOfMemory);
    };
    let join = match keep_side::<PlainLanes<JoinLoad<H>>, PlainGroup, H, G, Y>(
        alloc,
        io,
        &mut Some(board),
        &tokens,
        kept,
        &asked,
        rules,
        rows,
        run,
        gate,
        steps,
    ) {
        Ok(join) => join,
        Err(fault) => return Err(fault),
    };
    write_grouped(
        alloc,
        io,
        &mut Some(join),
        asked,
        group,
        writer,
        rows,
        run,
        gate,
        steps,
    )
}
