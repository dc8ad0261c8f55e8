//! The run of a join of two scans through its lines.
ghost use Rattle.std.specs.Prelude.{◌≡◌, ◌⊎◌, ◌<◌, ◌≤◌, Some, Err, IfOk, IfSome, IsSome, IsOkAnd, IsOkUnless};
ghost use Rattle.std.specs.Arc.{arc_value};
ghost use Rattle.morsel_meaning.specs.declared.fault.Fault.TheVariants.{OutOfMemory};
ghost use Rattle.morsel_join.specs.declared.build_side.Build.{Build};
ghost use Rattle.morsel_join.specs.BuildSides.{kept_side};
ghost use Rattle.morsel_join.specs.Rows.{keeps_left};
ghost use Rattle.morsel_join.specs.Sides.{FitSides, IsRightSide};
ghost use Rattle.morsel_read.specs.ScanReads.{pieces_at_start, SuitsPieces};
ghost use Rattle.morsel_scan.specs.ScanColumns.{output_fields};
ghost use Rattle.morsel_join_phases.specs.JoinPhases.{build_of};
ghost use Rattle.morsel_join_plan.specs.JoinRuns.{JoinsScans, SweepsJoin, and_more};
ghost use Rattle.morsel_join_plan.specs.JoinLanes.{AsksFor, SweepsRest, WritesRest};

use crate::alone::write_alone;
use crate::keep::{ScanJoin, keep_side};
use crate::lanes::alone_lanes;
use crate::look_up::look_up_side;
use morsel_frame::Schema;
use morsel_join::{Build, JoinRules};
use morsel_join_node::EquiJoinNode;
use morsel_join_phases::{JoinPhase, gives_alone};
use morsel_load::Load;
use morsel_local::Steps;
use morsel_meaning::Fault;
use morsel_outside::{Gate, Io};
use morsel_plan::ScanRun;
use morsel_ports::ComputeNode;
use morsel_prims::{Board, PlainBoard, PlainGroup, PlainLanes, PlainToken, Tokens};
use morsel_probe_run::ProbeEnd;
use morsel_read::ScanReader;
use morsel_rows_job::RowsJob;
use morsel_scan::CsvSourceNode;
use morsel_scan_units::{AtHome, LaneJob};
use morsel_sink::SinkWriter;
use std::alloc::Global;
use std::sync::Arc;
use std::sync::ledger::Ledger;

/// One side of a join: the node that decodes its pieces, the columns of its rows, and the reader of its open files.
#[derive(Debug, Drop)]
pub struct JoinSide {
    /// The node.
    pub node: CsvSourceNode,
    /// The columns.
    pub columns: Schema,
    /// The reader, which has read nothing.
    pub reader: ScanReader,
}

/// The writers of a join's rows, which have written none.
#[derive(Debug, Drop)]
pub struct JoinWriters {
    /// Of those that the rows of one side find among the kept ones.
    pub found: SinkWriter,
    /// Of the kept ones that none of them finds.
    pub alone: SinkWriter,
}

/// What the lanes of a join on one thread carry.
pub type JoinLoad<H> = Load<PlainToken, LaneJob<PlainGroup, H>>;

/// The node of a join on one thread.
pub type PlainJoin<H> = ScanJoin<PlainLanes<JoinLoad<H>>, PlainGroup, H>;

/// A board, and the group whose tokens its rows may hold.
#[derive(Drop)]
pub struct JoinBoard<H: Io> {
    /// The board.
    pub board: PlainBoard<JoinLoad<H>>,
    /// The group.
    pub group: PlainGroup,
}

/// A board with a group.
pub fn new_board<H: Io>(alloc: Global) -> Result<JoinBoard<H>, Fault>
    ensures home { IfOk result (λ made. (⟦<PlainBoard<JoinLoad<H>> as Board>⟧.id made.board).group_table ≡ ⟦<PlainGroup as AtHome>⟧.home made.group) }
    ensures out_of_memory { IsOkUnless result OutOfMemory }
{
    let mut board = PlainBoard::<JoinLoad<H>>::new(alloc)?;
    let group = PlainLanes::<JoinLoad<H>>::group(alloc, &mut board)?;
    Ok(JoinBoard { board, group })
}

/// The kept rows of a join, while rows are looked up in them.
pub fn kept_rows<K, J: RowsJob<K>>(join: &EquiJoinNode<K, J>) -> Result<Arc<Build, Global>, Fault>
    ensures build { IfOk result (λ build. build_of join.now.phase ≡ Some (arc_value build)) }
    ensures out_of_memory { IsOkUnless result OutOfMemory }
{
    match &join.phase {
        JoinPhase::Probe(probe) => {
            let build = probe.build()?;
            Ok(build)
        }
        _ => Err(Fault::OutOfMemory),
    }
}

/// So many rows more; where they cannot be counted, memory is out.
fn with_found(found: u64, alone: Result<u64, Fault>) -> Result<u64, Fault>
    ensures { (result ≡ and_more found alone) ⊎ (IsOkAnd alone (λ _. Unit {0}) × (result ≡ Err OutOfMemory)) }
{
    match alone {
        Ok(alone) => match found.checked_add(alone) {
            Some(all) => Ok(all),
            None => Err(Fault::OutOfMemory),
        },
        Err(fault) => Err(fault),
    }
}

/// Writes what the rows of a side find in a join's kept rows, and then the kept rows that none finds; answers how many there are.
///
/// The join, which is about to look up rows, is lent, and taken.
fn write_rest<H: Io, G: Gate, Y: Ledger>(
    alloc: Global,
    io: &mut H,
    join: &mut Option<PlainJoin<H>>,
    asked: JoinSide,
    writers: JoinWriters,
    run: ScanRun,
    gate: &G,
    steps: &mut Steps<Y>,
) -> Result<u64, Fault>
    requires made { 0 < (H.seen io.old).sinks }
    requires suits { SuitsPieces (H.seen io.old) asked.reader }
    requires start { asked.reader ≡ pieces_at_start asked.reader.sources }
    requires columns { asked.columns ≡ output_fields asked.node.scan }
    requires found_none { writers.found.rows ≡ 0 }
    requires alone_none { writers.alone.rows ≡ 0 }
    requires pipelines { (1 ≤ run.line.pipelines) × (run.line.pipelines ≤ 32768) }
    requires spread_room { (1 ≤ run.line.rooms.spread) × (run.line.rooms.spread ≤ 65536) }
    requires merge_room { (1 ≤ run.line.rooms.merge) × (run.line.rooms.merge ≤ 65536) }
    requires some_join { IsSome join.old }
    requires asks { IfSome join.old (λ join. AsksFor join.phase asked.columns) }
    requires ready { IfSome join.old (λ join. (⟦<PlainJoin<H> as ComputeNode<PlainLanes<JoinLoad<H>>, LaneJob<PlainGroup, H>>>⟧.seen join).pipelines ≡ Some run.line.pipelines) }
    requires idle { IfSome join.old (λ join. (⟦<PlainJoin<H> as ComputeNode<PlainLanes<JoinLoad<H>>, LaneJob<PlainGroup, H>>>⟧.seen join).units ≡ 0) }
    requires right { IfSome join.old (λ join. (build : Build) → build_of join.phase ≡ Some build → IsRightSide (kept_side build)) }
    ensures sweeps { IfSome join.old (λ join. (build : Build) → build_of join.phase ≡ Some build → SweepsRest (record { scan = asked.node; reader = asked.reader }) (kept_side build) (H.seen io.old) steps.old steps.new) }
    ensures writes { IfSome join.old (λ join. (build : Build) → build_of join.phase ≡ Some build → WritesRest (record { scan = asked.node; reader = asked.reader }) (kept_side build) run.bound (H.seen io.old) result (H.seen io.new)) }
{
    let Some(join) = join.take() else {
        unreachable!()
    };
    let Ok(build) = kept_rows(&join) else {
        return Err(Fault::OutOfMemory);
    };
    let Ok(JoinBoard { board, group }) = new_board::<H>(alloc) else {
        return Err(Fault::OutOfMemory);
    };
    let Ok(
        JoinBoard {
            board: last_board,
            group: last_group,
        },
    ) = new_board::<H>(alloc)
    else {
        return Err(Fault::OutOfMemory);
    };
    // The reader of the other side is to read from the outside as it is now.
    let Ok(lanes) = alone_lanes(alloc, &asked, io, &last_group, &build) else {
        return Err(Fault::OutOfMemory);
    };
    let JoinWriters { found, alone } = writers;
    let looked = match look_up_side::<PlainLanes<JoinLoad<H>>, PlainGroup, H, G, Y>(
        alloc,
        io,
        &mut Some(board),
        &group,
        asked,
        &build,
        &mut Some(join),
        found,
        run,
        gate,
        steps,
    ) {
        Ok(looked) => looked,
        Err(fault) => return Err(fault),
    };
    let ProbeEnd { node, rows, given } = looked;
    if gives_alone(&build.rules) {
        let alone = write_alone::<PlainLanes<JoinLoad<H>>, PlainGroup, H, G, Y>(
            alloc,
            io,
            &mut Some(last_board),
            &lanes,
            &build,
            &mut Some(node),
            given,
            alone,
            run,
            gate,
            steps,
        );
        return with_found(rows, alone);
    }
    Ok(rows)
}

/// Writes the rows of a join of two scans' open files into the last sink, some rows at a time, and answers how many there are.
pub fn write_join<H: Io, G: Gate, Y: Ledger>(
    alloc: Global,
    io: &mut H,
    kept: JoinSide,
    asked: JoinSide,
    rules: JoinRules,
    writers: JoinWriters,
    rows: usize,
    run: ScanRun,
    gate: &G,
    steps: &mut Steps<Y>,
) -> Result<u64, Fault>
    requires made { 0 < (H.seen io.old).sinks }
    requires kept_suits { SuitsPieces (H.seen io.old) kept.reader }
    requires kept_start { kept.reader ≡ pieces_at_start kept.reader.sources }
    requires kept_columns { kept.columns ≡ output_fields kept.node.scan }
    requires asked_suits { SuitsPieces (H.seen io.old) asked.reader }
    requires asked_start { asked.reader ≡ pieces_at_start asked.reader.sources }
    requires asked_columns { asked.columns ≡ output_fields asked.node.scan }
    requires fit { FitSides (keeps_left rules.how rules.maintain_order) kept.columns asked.columns rules }
    requires found_none { writers.found.rows ≡ 0 }
    requires alone_none { writers.alone.rows ≡ 0 }
    requires some { 0 < rows }
    requires pipelines { (1 ≤ run.line.pipelines) × (run.line.pipelines ≤ 32768) }
    requires spread_room { (1 ≤ run.line.rooms.spread) × (run.line.rooms.spread ≤ 65536) }
    requires merge_room { (1 ≤ run.line.rooms.merge) × (run.line.rooms.merge ≤ 65536) }
    ensures sweeps { SweepsJoin (record { scan = kept.node; reader = kept.reader }) (record { scan = asked.node; reader = asked.reader }) (H.seen io.old) steps.old steps.new }
    ensures joins { JoinsScans (record { scan = kept.node; reader = kept.reader }) (record { scan = asked.node; reader = asked.reader }) rules run.bound (H.seen io.old) result (H.seen io.new) }
{
    let Ok(JoinBoard { board, group }) = new_board::<H>(alloc) else {
        return Err(Fault::OutOfMemory);
    };
    let join = match keep_side::<PlainLanes<JoinLoad<H>>, PlainGroup, H, G, Y>(
        alloc,
        io,
        &mut Some(board),
        &group,
        kept,
        &asked,
        rules,
        rows,
        run,
        gate,
        steps,
    ) {
        Ok(join) => join,
        Err(fault) => return Err(fault),
    };
    write_rest(alloc, io, &mut Some(join), asked, writers, run, gate, steps)
}
