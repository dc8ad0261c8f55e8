//! Tasks of two kinds are spawned.
ghost use Rattle.std.specs.Prelude.{◌≡◌, ◌++◌, ℕ, All, IfOk, OnOk, IsOkUnless, length};
ghost use Rattle.morsel_meaning.specs.declared.fault.Fault.TheVariants.{OutOfMemory};
ghost use Rattle.morsel_prims.specs.Polled.{BoardId};
ghost use Rattle.morsel_pair.specs.Pairs.{firsts_of_two, seconds_of_two};
ghost use Rattle.morsel_stage.specs.Joined.{outputs_left};
ghost use Rattle.morsel_stage.specs.Unjoined.{unjoined};

use crate::two_of::TwoOf;
use morsel_local::Local;
use morsel_meaning::Fault;
use morsel_prims::{Board, Task};
use std::alloc::Global;

/// Spawns tasks, in order.
pub fn spawn_each<B: Board + Drop, T: Task<B> + Drop>(
    local: &mut Local<T, B>,
    tasks: Vec<T>,
) -> Result<(), Fault>
    requires can_poll { All (T.can_poll local.old.home) tasks.items }
    ensures spawned { OnOk result (unjoined local.new.tasks ≡ unjoined local.old.tasks ++ tasks.items) }
    ensures none_ended { (n : ℕ) → outputs_left n local.new.tasks ≡ outputs_left n local.old.tasks }
    ensures same_cx { local.new.cx ≡ local.old.cx }
    ensures same_home { local.new.home ≡ local.old.home }
    ensures same_capacity { local.new.capacity ≡ local.old.capacity }
    ensures out_of_memory { IsOkUnless result OutOfMemory }
{
    'tasks: for task in tasks {
        let Ok(_) = local.spawn(task) else {
            return Err(Fault::OutOfMemory);
        };
    }
    Ok(())
}

/// Adds tasks as those of the first kind.
pub fn as_firsts<A: Drop, Z: Drop>(tasks: &mut Vec<TwoOf<A, Z>>, more: Vec<A>) -> Result<(), Fault>
    ensures firsts { OnOk result (firsts_of_two tasks.new.items ≡ firsts_of_two tasks.old.items ++ more.items) }
    ensures same_seconds { seconds_of_two tasks.new.items ≡ seconds_of_two tasks.old.items }
    ensures out_of_memory { IsOkUnless result OutOfMemory }
{
    'tasks: for task in more {
        tasks.push(TwoOf::First(task))?;
    }
    Ok(())
}

/// Adds tasks as those of the second kind.
pub fn as_seconds<A: Drop, Z: Drop>(tasks: &mut Vec<TwoOf<A, Z>>, more: Vec<Z>) -> Result<(), Fault>
    ensures seconds { OnOk result (seconds_of_two tasks.new.items ≡ seconds_of_two tasks.old.items ++ more.items) }
    ensures same_firsts { firsts_of_two tasks.new.items ≡ firsts_of_two tasks.old.items }
    ensures out_of_memory { IsOkUnless result OutOfMemory }
{
    'tasks: for task in more {
        tasks.push(TwoOf::Second(task))?;
    }
    Ok(())
}
