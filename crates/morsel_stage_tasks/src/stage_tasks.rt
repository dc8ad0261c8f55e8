//! The tasks of a stage before they are spawned.
ghost use Rattle.std.specs.Prelude.{◌≡◌, ◌⊎◌, All, IfOk, IsOkUnless};
ghost use Rattle.morsel_meaning.specs.declared.fault.Fault.{Fault};
ghost use Rattle.morsel_meaning.specs.declared.fault.Fault.TheVariants.{OutOfMemory};
ghost use Rattle.morsel_prims.specs.Polled.{BoardId};
ghost use Rattle.morsel_pair.specs.Pairs.{ByEither};

use morsel_meaning::Fault;
use morsel_pair::{PairStage, as_firsts, as_seconds};
use morsel_prims::{Board, Task};
use morsel_stage::Stage;
use std::alloc::Global;

/// A stage, and its tasks before they are spawned.
#[derive(Drop)]
pub struct StageTasks<B: Board, S: Stage<B>> {
    /// Whose the tasks are.
    pub stage: S,
    /// The tasks.
    pub tasks: Vec<S::Task>,
}

/// Two stages as one, with the tasks of both.
pub fn pair_tasks<B: Board, S: Stage<B> + Drop, T: Stage<B> + Drop>(
    alloc: Global,
    first: StageTasks<B, S>,
    second: StageTasks<B, T>,
) -> Result<StageTasks<B, PairStage<S, T>>, Fault>
    requires first_owed { S.owes first.stage first.tasks.items }
    requires second_owed { T.owes second.stage second.tasks.items }
    ensures owed { IfOk result (λ both. ⟦<PairStage<S, T> as Stage<B>>⟧.owes both.stage both.tasks.items) }
    ensures can_poll { IfOk result (λ both. (id : BoardId) → All (S.Task.can_poll id) first.tasks.items → All (T.Task.can_poll id) second.tasks.items
        → All (λ task. ByEither task (S.Task.can_poll id) (T.Task.can_poll id)) both.tasks.items) }
    ensures stages { IfOk result (λ both. (both.stage.first ≡ first.stage) × (both.stage.second ≡ second.stage)) }
    ensures out_of_memory { IsOkUnless result OutOfMemory }
{
    let StageTasks {
        stage: first_stage,
        tasks: firsts,
    } = first;
    let StageTasks {
        stage: second_stage,
        tasks: seconds,
    } = second;
    let mut tasks = Vec::new(alloc);
    as_firsts(&mut tasks, firsts)?;
    as_seconds(&mut tasks, seconds)?;
    let stage = PairStage {
        first: first_stage,
        second: second_stage,
    };
    Ok(StageTasks { stage, tasks })
}
