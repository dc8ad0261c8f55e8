//! A line into which nothing is fed, made and run.
ghost use Rattle.std.specs.Prelude.{◌≡◌, true, IfSome, IsSome, OnOk, ◌<◌};
ghost use Rattle.morsel_load.specs.declared.load.LoadKind.TheVariants.{Parts};
ghost use Rattle.morsel_line.specs.RowStages.{StageSeen};
ghost use Rattle.morsel_scan_units.specs.LaneJobs.{IsUnitFault};
ghost use Rattle.morsel_join_lines.specs.TasksOf.{AreTasksOf};
ghost use Rattle.morsel_emit_run.specs.EmitRuns.{IsOnePlaceStage, SweepsPlace, WritesPlace, WritesPlaceOrNot};

use morsel_drain::pour;
use morsel_join_tasks::{UnfedParts, start_unfed};
use morsel_lane_line::{LaneLine, abandon_line};
use morsel_load::{Load, LoadJob};
use morsel_local::Steps;
use morsel_meaning::Fault;
use morsel_outside::{Gate, Io};
use morsel_prims::{Board, LaneReceiver, Lanes, Task, Tokens};
use morsel_scan_units::{AtHome, LaneJob};
use morsel_sink::SinkWriter;
use morsel_stage::Stage;
use std::alloc::Global;
use std::sync::ledger::Ledger;

/// Writes what comes out of a line into which nothing is fed; answers how many rows were written.
///
/// The line is lent, since the outside is too.
fn run_emit<L, K, H, S, G, Y>(
    io: &mut H,
    writer: SinkWriter,
    line: &mut LaneLine<L, K, H, S>,
    gate: &G,
    steps: &mut Steps<Y>,
) -> Result<u64, Fault>
where
    L: Tokens + Lanes<Load<<L as Tokens>::Token, LaneJob<K, H>>>,
    <L as Tokens>::Token: AtHome,
    K: AtHome,
    H: Io,
    S: Stage<<L as Tokens>::Board> + Drop,
    G: Gate,
    Y: Ledger,
    requires made { 0 < (H.seen io.old).sinks }
    requires none_written { writer.rows ≡ 0 }
    requires joined { line.old.left ≡ 0 }
    ensures sweeps { (stage : StageSeen) → line.old.lane.stage ≡ stage → IsOnePlaceStage stage → SweepsPlace line.old.lane.scan line.old.lane.reader line.old.lane.outside stage steps.old steps.new }
    ensures whole { OnOk result (line.new.whole ≡ true) }
    ensures writes { (stage : StageSeen) → line.old.lane.stage ≡ stage → IsOnePlaceStage stage → WritesPlace line.old.lane.scan line.old.lane.reader line.old.lane.outside stage (H.seen io.old) result (H.seen io.new) }
{
    pour(io, line, writer, gate, steps)
}

/// Makes a line into which nothing is fed, and runs it; answers how many rows were written.
///
/// What the line is made of is lent, since the outside is too, and taken. What is left of the line is abandoned.
#[tactic(auto, using(crate::proofs::PlaceLemmas::place_unswept))]
pub fn emit_parts<L, K, H, S, G, Y>(
    alloc: Global,
    io: &mut H,
    writer: SinkWriter,
    lane: &LaneJob<K, H>,
    parts: &mut Option<UnfedParts<L, LaneJob<K, H>, S>>,
    gate: &G,
    steps: &mut Steps<Y>,
) -> Result<u64, Fault>
where
    L: Tokens + Lanes<Load<<L as Tokens>::Token, LaneJob<K, H>>>,
    <L as Tokens>::Token: AtHome,
    K: AtHome,
    H: Io,
    S: Stage<<L as Tokens>::Board> + Drop,
    G: Gate,
    Y: Ledger,
    requires made { 0 < (H.seen io.old).sinks }
    requires none_written { writer.rows ≡ 0 }
    requires kind { lane.now.kind ≡ Parts }
    requires some { IsSome parts.old }
    requires take { IfSome parts.old (λ parts. (L.Receiver.home parts.take ≡ (L.Board.id parts.board).lane_table) × (L.Receiver.job parts.take ≡ lane.now)) }
    requires tasks { IfSome parts.old (λ parts. AreTasksOf S.owes S.fails (S.Task.can_poll (L.Board.id parts.board)) (IsUnitFault lane.now) parts.tasks.stage parts.tasks.tasks.items) }
    ensures sweeps { (stage : StageSeen) → lane.now.stage ≡ stage → IsOnePlaceStage stage → SweepsPlace lane.now.scan lane.now.reader lane.now.outside stage steps.old steps.new }
    ensures writes { (stage : StageSeen) → lane.now.stage ≡ stage → IsOnePlaceStage stage → WritesPlaceOrNot lane.now.scan lane.now.reader lane.now.outside stage (H.seen io.old) result (H.seen io.new) }
{
    let mut line = start_unfed::<L, K, H, S>(alloc, lane, parts);
    let Ok(made_line) = &mut line else {
        return Err(Fault::OutOfMemory);
    };
    let answer = run_emit(io, writer, made_line, gate, steps);
    abandon_line(&mut line);
    answer
}
