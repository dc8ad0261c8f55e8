//! The tasks of a phase are spawned, kind by kind.
ghost use Rattle.std.specs.Prelude.{◌≡◌, ◌++◌, ℕ, All, IfOk, OnOk, IsOkUnless};
ghost use Rattle.morsel_meaning.specs.declared.fault.Fault.TheVariants.{OutOfMemory};
ghost use Rattle.morsel_stage.specs.Joined.{outputs_left};
ghost use Rattle.morsel_stage.specs.Kinds.{firsts, seconds, thirds};
ghost use Rattle.morsel_stage.specs.Unjoined.{unjoined};

use crate::one_of::OneOf;
use morsel_local::Local;
use morsel_meaning::Fault;
use morsel_prims::{Board, Task};
use std::alloc::Global;

/// Spawns tasks of the first kind.
pub fn spawn_firsts<B: Board + Drop, A: Task<B> + Drop, M: Task<B> + Drop, Z: Task<B> + Drop>(
    local: &mut Local<OneOf<A, M, Z>, B>,
    tasks: Vec<A>,
) -> Result<(), Fault>
    requires can_poll { All (A.can_poll local.old.home) tasks.items }
    ensures spawned { OnOk result (firsts (unjoined local.new.tasks) ≡ firsts (unjoined local.old.tasks) ++ tasks.items) }
    ensures same_seconds { seconds (unjoined local.new.tasks) ≡ seconds (unjoined local.old.tasks) }
    ensures same_thirds { thirds (unjoined local.new.tasks) ≡ thirds (unjoined local.old.tasks) }
    ensures none_ended { (n : ℕ) → outputs_left n local.new.tasks ≡ outputs_left n local.old.tasks }
    ensures same_cx { local.new.cx ≡ local.old.cx }
    ensures same_home { local.new.home ≡ local.old.home }
    ensures same_capacity { local.new.capacity ≡ local.old.capacity }
    ensures out_of_memory { IsOkUnless result OutOfMemory }
{
    'tasks: for task in tasks {
        let Ok(_) = local.spawn(OneOf::First(task)) else {
            return Err(Fault::OutOfMemory);
        };
    }
    Ok(())
}

/// Spawns tasks of the second kind.
pub fn spawn_seconds<B: Board + Drop, A: Task<B> + Drop, M: Task<B> + Drop, Z: Task<B> + Drop>(
    local: &mut Local<OneOf<A, M, Z>, B>,
    tasks: Vec<M>,
) -> Result<(), Fault>
    requires can_poll { All (M.can_poll local.old.home) tasks.items }
    ensures spawned { OnOk result (seconds (unjoined local.new.tasks) ≡ seconds (unjoined local.old.tasks) ++ tasks.items) }
    ensures same_firsts { firsts (unjoined local.new.tasks) ≡ firsts (unjoined local.old.tasks) }
    ensures same_thirds { thirds (unjoined local.new.tasks) ≡ thirds (unjoined local.old.tasks) }
    ensures none_ended { (n : ℕ) → outputs_left n local.new.tasks ≡ outputs_left n local.old.tasks }
    ensures same_cx { local.new.cx ≡ local.old.cx }
    ensures same_home { local.new.home ≡ local.old.home }
    ensures same_capacity { local.new.capacity ≡ local.old.capacity }
    ensures out_of_memory { IsOkUnless result OutOfMemory }
{
    'tasks: for task in tasks {
        let Ok(_) = local.spawn(OneOf::Second(task)) else {
            return Err(Fault::OutOfMemory);
        };
    }
    Ok(())
}

/// Spawns tasks of the third kind.
pub fn spawn_thirds<B: Board + Drop, A: Task<B> + Drop, M: Task<B> + Drop, Z: Task<B> + Drop>(
    local: &mut Local<OneOf<A, M, Z>, B>,
    tasks: Vec<Z>,
) -> Result<(), Fault>
    requires can_poll { All (Z.can_poll local.old.home) tasks.items }
    ensures spawned { OnOk result (thirds (unjoined local.new.tasks) ≡ thirds (unjoined local.old.tasks) ++ tasks.items) }
    ensures same_firsts { firsts (unjoined local.new.tasks) ≡ firsts (unjoined local.old.tasks) }
    ensures same_seconds { seconds (unjoined local.new.tasks) ≡ seconds (unjoined local.old.tasks) }
    ensures none_ended { (n : ℕ) → outputs_left n local.new.tasks ≡ outputs_left n local.old.tasks }
    ensures same_cx { local.new.cx ≡ local.old.cx }
    ensures same_home { local.new.home ≡ local.old.home }
    ensures same_capacity { local.new.capacity ≡ local.old.capacity }
    ensures out_of_memory { IsOkUnless result OutOfMemory }
{
    'tasks: for task in tasks {
        let Ok(_) = local.spawn(OneOf::Third(task)) else {
            return Err(Fault::OutOfMemory);
        };
    }
    Ok(())
}

/// More tasks than a line of two nodes ever has.
const MOST_TASKS: usize = 1 << 20;

/// The tasks of a line.
#[derive(Drop)]
pub struct LineTasks<A, M, Z> {
    /// Of the first node.
    pub firsts: Vec<A>,
    /// Of the last one.
    pub seconds: Vec<M>,
    /// Of the pipe before them.
    pub spreading: Vec<Z>,
    /// Of the pipe behind them.
    pub merging: Vec<Z>,
}

/// Spawns all tasks of a line on one board; answers how many there are, too.
pub fn spawn_all<B: Board + Drop, A: Task<B> + Drop, M: Task<B> + Drop, Z: Task<B> + Drop>(
    alloc: Global,
    board: B,
    tasks: LineTasks<A, M, Z>,
) -> Result<(Local<OneOf<A, M, Z>, B>, u32), Fault>
    requires firsts { All (A.can_poll (B.id board)) tasks.firsts.items }
    requires seconds { All (M.can_poll (B.id board)) tasks.seconds.items }
    requires spreading { All (Z.can_poll (B.id board)) tasks.spreading.items }
    requires merging { All (Z.can_poll (B.id board)) tasks.merging.items }
    ensures firsts { IfOk result (λ made. firsts (unjoined made.0.tasks) ≡ tasks.firsts.items) }
    ensures seconds { IfOk result (λ made. seconds (unjoined made.0.tasks) ≡ tasks.seconds.items) }
    ensures thirds { IfOk result (λ made. thirds (unjoined made.0.tasks) ≡ tasks.spreading.items ++ tasks.merging.items) }
    ensures none_ended { IfOk result (λ made. outputs_left made.1 made.0.tasks ≡ 0) }
    ensures home { IfOk result (λ made. made.0.home ≡ B.id board) }
    ensures capacity { IfOk result (λ made. made.0.capacity ≡ made.1) }
    ensures board { IfOk result (λ made. B.id made.0.cx.board ≡ B.id board) }
    ensures out_of_memory { IsOkUnless result OutOfMemory }
{
    let count = tasks
        .firsts
        .len()
        .saturating_add(tasks.seconds.len())
        .saturating_add(tasks.spreading.len())
        .saturating_add(tasks.merging.len());
    if count > MOST_TASKS {
        return Err(Fault::OutOfMemory);
    }
    let count = count as u32;
    let mut local = Local::new(alloc, count, board)?;
    spawn_firsts(&mut local, tasks.firsts)?;
    spawn_seconds(&mut local, tasks.seconds)?;
    spawn_thirds(&mut local, tasks.spreading)?;
    spawn_thirds(&mut local, tasks.merging)?;
    Ok((local, count))
}
