//! The tasks of a stage are spawned.
ghost use Rattle.std.specs.Prelude.{◌≡◌, All, IfOk, IsOkUnless};
ghost use Rattle.morsel_meaning.specs.declared.fault.Fault.TheVariants.{OutOfMemory};
ghost use Rattle.morsel_stage.specs.Joined.{outputs_left};
ghost use Rattle.morsel_stage.specs.Unjoined.{unjoined};

use crate::stage_tasks::StageTasks;
use morsel_local::Local;
use morsel_meaning::Fault;
use morsel_pair::spawn_each;
use morsel_prims::{Board, Task};
use morsel_stage::Stage;
use std::alloc::Global;

/// A stage whose tasks are spawned.
#[derive(Drop)]
pub struct StartedTasks<B: Board + Drop, S: Stage<B>> {
    /// The tasks.
    pub local: Local<S::Task, B>,
    /// How many there are.
    pub spawned: u32,
    /// Whose they are.
    pub stage: S,
}

/// More tasks than a line of three nodes ever has.
const MOST_TASKS: usize = 1 << 20;

/// Spawns the tasks of a stage on a board, in their order.
pub fn start_tasks<B: Board + Drop, S: Stage<B> + Drop>(
    alloc: Global,
    board: B,
    tasks: StageTasks<B, S>,
) -> Result<StartedTasks<B, S>, Fault>
    requires owed { S.owes tasks.stage tasks.tasks.items }
    requires can_poll { All (S.Task.can_poll (B.id board)) tasks.tasks.items }
    ensures none_ended { IfOk result (λ started. outputs_left started.spawned started.local.tasks ≡ 0) }
    ensures home { IfOk result (λ started. started.local.home ≡ B.id board) }
    ensures capacity { IfOk result (λ started. started.local.capacity ≡ started.spawned) }
    ensures board { IfOk result (λ started. B.id started.local.cx.board ≡ B.id board) }
    ensures each { IfOk result (λ started. unjoined started.local.tasks ≡ tasks.tasks.items) }
    ensures owed { IfOk result (λ started. S.owes started.stage (unjoined started.local.tasks)) }
    ensures stage { IfOk result (λ started. started.stage ≡ tasks.stage) }
    ensures out_of_memory { IsOkUnless result OutOfMemory }
{
    let StageTasks {
        stage,
        tasks: bodies,
    } = tasks;
    let count = bodies.len();
    if count > MOST_TASKS {
        return Err(Fault::OutOfMemory);
    }
    let spawned = count as u32;
    let mut local = Local::new(alloc, spawned, board)?;
    spawn_each(&mut local, bodies)?;
    Ok(StartedTasks {
        local,
        spawned,
        stage,
    })
}
