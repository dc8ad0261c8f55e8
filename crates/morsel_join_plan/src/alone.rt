//! The last phase of a join of two scans: the kept rows follow that none of the other scan's rows finds.
ghost use Rattle.std.specs.Prelude.{◌≡◌, ◌∷◌, [], All, Some, IfSome, IsSome, IsOkUnless, OnOk, ◌<◌, ◌≤◌};
ghost use Rattle.std.specs.Arc.{arc_value};
ghost use Rattle.atomic_table.specs.Seated.{TableId};
ghost use Rattle.morsel_meaning.specs.declared.fault.Fault.{Fault};
ghost use Rattle.morsel_meaning.specs.declared.fault.Fault.TheVariants.{OutOfMemory};
ghost use Rattle.morsel_load.specs.declared.load.LoadKind.TheVariants.{Parts};
ghost use Rattle.morsel_join.specs.declared.build_side.Build.{Build};
ghost use Rattle.morsel_join.specs.BuildSides.{kept_side};
ghost use Rattle.morsel_scan.specs.ScanColumns.{output_fields};
ghost use Rattle.morsel_line.specs.RowStages.{AloneRows, StageSeen, staged_columns};
ghost use Rattle.morsel_scan_units.specs.LaneJobs.{LaneFor};
ghost use Rattle.morsel_join_lines.specs.JoinNodes.{AreForOne, GivesFor};
ghost use Rattle.morsel_emit_run.specs.EmitRuns.{IsOnePlaceStage, SweepsAlone, SweepsPlace, WritesAloneOrNot, WritesPlaceOrNot};
ghost use Rattle.morsel_probe_run.specs.ProbeRuns.{AreAllUpTo};
ghost use Rattle.morsel_join_plan.specs.JoinLanes.{HasAskedTo, HasJust, HoldsTokensAt, rows_lane};

use crate::keep::ScanJoin;
use crate::lanes::{AloneLanes, joined_sink};
use morsel_emit_run::emit_nodes;
use morsel_join::Build;
use morsel_join_lines::{EmitJobs, EmitNodes, PortJobs};
use morsel_load::{Load, LoadJob};
use morsel_local::Steps;
use morsel_meaning::Fault;
use morsel_nodes::{MakerNode, NDJsonSinkMakers};
use morsel_outside::{Gate, Io};
use morsel_phase::LinePlan;
use morsel_plan::ScanRun;
use morsel_ports::{ComputeNode, PortState};
use morsel_prims::{Board, Lanes, Tokens};
use morsel_scan_units::{AtHome, LaneJob};
use morsel_sink::{NDJsonSinkNode, SinkWriter};
use rand_core::SeedableRng;
use rand_xoshiro::Xoshiro256PlusPlus;
use std::alloc::Global;
use std::sync::Arc;
use std::sync::ledger::Ledger;

/// Moves a join on whose units looked rows up: from now on it gives the kept rows that none found. It tests that all units were given
/// back, and that rows were looked up to this place; where that is not so, it answers that there is no memory.
pub fn end_looking_up<L, K, H>(join: &mut ScanJoin<L, K, H>, given: u64) -> Result<(), Fault>
where
    L: Tokens + Lanes<Load<<L as Tokens>::Token, LaneJob<K, H>>>,
    <L as Tokens>::Token: AtHome,
    K: AtHome,
    H: Io,
    requires ready { IsSome (⟦<ScanJoin<L, K, H> as ComputeNode<L, LaneJob<K, H>>>⟧.seen join.old).pipelines }
    ensures has { (build : Build) (lane : LaneFor) → HasJust join.old.phase build lane → OnOk result (HasAskedTo join.new.phase build lane given) }
    ensures pipelines { OnOk result ((⟦<ScanJoin<L, K, H> as ComputeNode<L, LaneJob<K, H>>>⟧.seen join.new).pipelines ≡ (⟦<ScanJoin<L, K, H> as ComputeNode<L, LaneJob<K, H>>>⟧.seen join.old).pipelines) }
    ensures idle { OnOk result ((⟦<ScanJoin<L, K, H> as ComputeNode<L, LaneJob<K, H>>>⟧.seen join.new).units ≡ 0) }
    ensures out_of_memory { IsOkUnless result OutOfMemory }
{
    let mut recv = [PortState::Done, PortState::Done];
    let mut send = [PortState::Ready];
    <ScanJoin<L, K, H> as ComputeNode<L, LaneJob<K, H>>>::update_state(join, &mut recv, &mut send)?;
    let Some(to) = join.asked_to() else {
        return Err(Fault::OutOfMemory);
    };
    if to != given || !join.is_idle() {
        return Err(Fault::OutOfMemory);
    }
    Ok(())
}

/// Writes the rows of one place that a node gives into the last sink; answers how many there are.
///
/// The node, which was made ready, and the board are lent, and taken. The columns of the sink are those of these rows.
// Apart from the join, so that no proof names the units of both nodes.
pub fn give_into<L, K, H, M, G, Y>(
    alloc: Global,
    io: &mut H,
    board: &mut Option<L::Board>,
    lanes: &AloneLanes<LaneJob<K, H>>,
    sink: Arc<NDJsonSinkNode, Global>,
    first: &mut Option<M>,
    writer: SinkWriter,
    run: ScanRun,
    gate: &G,
    steps: &mut Steps<Y>,
) -> Result<u64, Fault>
where
    L: Tokens + Lanes<Load<<L as Tokens>::Token, LaneJob<K, H>>>,
    <L as Tokens>::Token: AtHome + Drop,
    K: AtHome,
    H: Io,
    M: ComputeNode<L, LaneJob<K, H>> + Drop,
    G: Gate,
    Y: Ledger,
    requires made { 0 < (H.seen io.old).sinks }
    requires none_written { writer.rows ≡ 0 }
    requires spread_room { (1 ≤ run.line.rooms.spread) × (run.line.rooms.spread ≤ 65536) }
    requires merge_room { (1 ≤ run.line.rooms.merge) × (run.line.rooms.merge ≤ 65536) }
    requires some_board { IsSome board.old }
    requires tokens { IfSome board.old (λ board. HoldsTokensAt ⟦<LaneJob<K, H> as LoadJob<<L as Tokens>::Token>>⟧.holds L.token_home lanes.now.rows.tokens (L.Board.id board).group_table) }
    requires rows { lanes.now.rows ≡ rows_lane lanes.now.rows.scan lanes.now.rows.reader lanes.now.rows.outside lanes.now.rows.tokens }
    requires kept { lanes.now.kept ≡ record lanes.now.rows { stage = lanes.now.given.stage } }
    requires texts { lanes.now.given ≡ record lanes.now.rows { kind = Parts; stage = lanes.now.given.stage } }
    requires first_tokens { All (λ (lane : LaneFor). lane.tokens ≡ lanes.now.rows.tokens) lanes.now.first.recv.items }
    requires last { AreForOne lanes.now.kept lanes.now.given lanes.now.last.recv.items lanes.now.last.send.items }
    requires columns { arc_value sink ≡ staged_columns lanes.now.given.stage (output_fields lanes.now.rows.scan.scan) }
    requires some_first { IsSome first.old }
    requires gives { IfSome first.old (λ first. GivesFor run.line.pipelines lanes.now.kept lanes.now.first.recv.items lanes.now.first.send.items (M.seen first)) }
    requires fits { IfSome first.old (λ first. M.fits first lanes.now.first.recv.items lanes.now.first.send.items) }
    requires fails { IfSome first.old (λ first. (fault : Fault) → M.fails first lanes.now.first.recv.items fault → fault ≡ OutOfMemory) }
    ensures sweeps { (stage : StageSeen) → lanes.now.given.stage ≡ stage → IsOnePlaceStage stage → SweepsPlace lanes.now.rows.scan lanes.now.rows.reader lanes.now.rows.outside stage steps.old steps.new }
    ensures writes { (stage : StageSeen) → lanes.now.given.stage ≡ stage → IsOnePlaceStage stage → WritesPlaceOrNot lanes.now.rows.scan lanes.now.rows.reader lanes.now.rows.outside stage (H.seen io.old) result (H.seen io.new) }
{
    let Some(first) = first.take() else {
        unreachable!()
    };
    let mut last = MakerNode::new(NDJsonSinkMakers::new(sink));
    // All of these rows are of one place, so that the parts of their text come in order by one lane alone.
    let line = LinePlan {
        pipelines: 1,
        rooms: run.line.rooms,
    };
    <MakerNode<NDJsonSinkMakers> as ComputeNode<L, LaneJob<K, H>>>::initialize(
        &mut last,
        line.pipelines,
    );
    emit_nodes::<L, K, H, M, MakerNode<NDJsonSinkMakers>, G, Y>(
        alloc,
        io,
        writer,
        board,
        EmitJobs {
            kept: &lanes.kept,
            given: &lanes.given,
            first: PortJobs {
                recv: &lanes.first.recv,
                send: &lanes.first.send,
            },
            last: PortJobs {
                recv: &lanes.last.recv,
                send: &lanes.last.send,
            },
        },
        &mut Some(EmitNodes { first, last }),
        run.line.pipelines,
        line,
        Xoshiro256PlusPlus::seed_from_u64(run.random_state),
        gate,
        steps,
    )
}

/// Writes the kept rows of a join that no row of the other side found into the last sink; answers how many there are.
///
/// The join has looked up all rows of such lanes, up to this place. It and the board are lent, and taken; the writer has written no
/// row.
pub fn write_alone<L, K, H, G, Y>(
    alloc: Global,
    io: &mut H,
    board: &mut Option<L::Board>,
    lanes: &AloneLanes<LaneJob<K, H>>,
    build: &Arc<Build, Global>,
    join: &mut Option<ScanJoin<L, K, H>>,
    given: u64,
    writer: SinkWriter,
    run: ScanRun,
    gate: &G,
    steps: &mut Steps<Y>,
) -> Result<u64, Fault>
where
    L: Tokens + Lanes<Load<<L as Tokens>::Token, LaneJob<K, H>>>,
    <L as Tokens>::Token: AtHome + Drop,
    K: AtHome,
    H: Io,
    G: Gate,
    Y: Ledger,
    requires made { 0 < (H.seen io.old).sinks }
    requires none_written { writer.rows ≡ 0 }
    requires pipelines { (1 ≤ run.line.pipelines) × (run.line.pipelines ≤ 32768) }
    requires spread_room { (1 ≤ run.line.rooms.spread) × (run.line.rooms.spread ≤ 65536) }
    requires merge_room { (1 ≤ run.line.rooms.merge) × (run.line.rooms.merge ≤ 65536) }
    requires some_board { IsSome board.old }
    requires tokens { IfSome board.old (λ board. HoldsTokensAt ⟦<LaneJob<K, H> as LoadJob<<L as Tokens>::Token>>⟧.holds L.token_home lanes.now.rows.tokens (L.Board.id board).group_table) }
    requires rows { lanes.now.rows ≡ rows_lane lanes.now.rows.scan lanes.now.rows.reader lanes.now.rows.outside lanes.now.rows.tokens }
    requires kept { lanes.now.kept ≡ record lanes.now.rows { stage = AloneRows (kept_side (arc_value build.now)) } }
    requires texts { lanes.now.given ≡ record lanes.now.rows { kind = Parts; stage = AloneRows (kept_side (arc_value build.now)) } }
    requires first_recv { lanes.now.first.recv.items ≡ lanes.now.rows ∷ lanes.now.rows ∷ [] }
    requires first_send { lanes.now.first.send.items ≡ lanes.now.kept ∷ [] }
    requires last { AreForOne lanes.now.kept lanes.now.given lanes.now.last.recv.items lanes.now.last.send.items }
    requires some_join { IsSome join.old }
    requires ready { IfSome join.old (λ join. (⟦<ScanJoin<L, K, H> as ComputeNode<L, LaneJob<K, H>>>⟧.seen join).pipelines ≡ Some run.line.pipelines) }
    requires has { IfSome join.old (λ join. (tokens : TableId) × HasJust join.phase (arc_value build.now) (record lanes.now.rows { tokens = tokens })) }
    requires all { AreAllUpTo lanes.now.rows.scan lanes.now.rows.reader lanes.now.rows.outside given }
    ensures sweeps { SweepsAlone lanes.now.rows.scan lanes.now.rows.reader lanes.now.rows.outside (kept_side (arc_value build.now)) steps.old steps.new }
    ensures writes { WritesAloneOrNot lanes.now.rows.scan lanes.now.rows.reader lanes.now.rows.outside (kept_side (arc_value build.now)) (H.seen io.old) result (H.seen io.new) }
{
    let Some(mut first) = join.take() else {
        unreachable!()
    };
    let Ok(()) = end_looking_up::<L, K, H>(&mut first, given) else {
        return Err(Fault::OutOfMemory);
    };
    let Ok(sink) = joined_sink(alloc, build) else {
        return Err(Fault::OutOfMemory);
    };
    give_into::<L, K, H, ScanJoin<L, K, H>, G, Y>(
        alloc,
        io,
        board,
        lanes,
        sink,
        &mut Some(first),
        writer,
        run,
        gate,
        steps,
    )
}
