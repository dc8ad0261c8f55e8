//! The units of nodes and the tasks of pipes, whose faults are those of a scan.
ghost use Rattle.std.specs.Prelude.{◌≡◌, IfOk, IsOkUnless};
ghost use Rattle.morsel_meaning.specs.declared.fault.Fault.TheVariants.{OutOfMemory};
ghost use Rattle.morsel_pair.specs.Pairs.{ByEither};
ghost use Rattle.morsel_scan_units.specs.LaneJobs.{IsUnitFault};
ghost use Rattle.morsel_join_lines.specs.TasksOf.{AreTasksOf};

use morsel_meaning::Fault;
use morsel_node_stage::PipeTasks;
use morsel_outside::Io;
use morsel_pair::PairStage;
use morsel_phase::MakesPipeTasks;
use morsel_prims::{Board, Task};
use morsel_scan_units::{AtHome, LaneJob};
use morsel_stage::Stage;
use morsel_stage_tasks::{StageTasks, pair_tasks};
use std::alloc::Global;

/// Two stages as one, with the tasks of both. The lane and the board are seen by contracts alone.
pub fn pair_units<B, K, H, S, T>(
    alloc: Global,
    board: &B,
    lane: &LaneJob<K, H>,
    first: StageTasks<B, S>,
    second: StageTasks<B, T>,
) -> Result<StageTasks<B, PairStage<S, T>>, Fault>
where
    B: Board,
    K: AtHome,
    H: Io,
    S: Stage<B> + Drop,
    T: Stage<B> + Drop,
    requires first { AreTasksOf S.owes S.fails (S.Task.can_poll (B.id board.now)) (IsUnitFault lane.now) first.stage first.tasks.items }
    requires second { AreTasksOf T.owes T.fails (T.Task.can_poll (B.id board.now)) (IsUnitFault lane.now) second.stage second.tasks.items }
    ensures both { IfOk result (λ both. AreTasksOf ⟦<PairStage<S, T> as Stage<B>>⟧.owes ⟦<PairStage<S, T> as Stage<B>>⟧.fails (λ task. ByEither task (S.Task.can_poll (B.id board.now)) (T.Task.can_poll (B.id board.now))) (IsUnitFault lane.now) both.stage both.tasks.items) }
    ensures stages { IfOk result (λ both. (both.stage.first ≡ first.stage) × (both.stage.second ≡ second.stage)) }
    ensures out_of_memory { IsOkUnless result OutOfMemory }
{
    let both = pair_tasks(alloc, first, second)?;
    Ok(both)
}

/// The tasks of a pipe, whose lanes are for this job, as a stage. The lane is seen by contracts alone.
pub fn pipe_units<B, K, H, P>(
    alloc: Global,
    board: &mut B,
    lane: &LaneJob<K, H>,
    job: &LaneJob<K, H>,
    order: &mut P,
) -> Result<StageTasks<B, PipeTasks<P::Task>>, Fault>
where
    B: Board,
    K: AtHome,
    H: Io,
    P: MakesPipeTasks<B, LaneJob<K, H>>,
    requires ready { P.ready order.old job.now (B.id board.old) }
    ensures tasks { IfOk result (λ made. AreTasksOf ⟦<PipeTasks<<P as MakesPipeTasks<B, LaneJob<K, H>>>::Task> as Stage<B>>⟧.owes ⟦<PipeTasks<<P as MakesPipeTasks<B, LaneJob<K, H>>>::Task> as Stage<B>>⟧.fails (P.Task.can_poll (B.id board.old)) (IsUnitFault lane.now) made.stage made.tasks.items) }
    ensures out_of_memory { IsOkUnless result OutOfMemory }
    ensures same_board { B.id board.new ≡ B.id board.old }
{
    let tasks = order.pipe_tasks(alloc, board, job)?;
    let stage = PipeTasks::new();
    Ok(StageTasks { stage, tasks })
}
