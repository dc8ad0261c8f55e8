//! What the tasks of a sweep ended with.
ghost use Rattle.std.specs.Prelude.{◌≡◌, ◌⊎◌, Ok, OnOk, IfErr};
ghost use Rattle.morsel_meaning.specs.declared.fault.Fault.{Fault};
ghost use Rattle.morsel_meaning.specs.declared.fault.Fault.TheVariants.{OutOfMemory};
ghost use Rattle.morsel_prims.specs.declared.lane.Ended.TheVariants.{Whole};
ghost use Rattle.morsel_stage.specs.Joined.{AreJoined};
ghost use Rattle.morsel_stage.specs.Unjoined.{unjoined};

use crate::stage::Stage;
use morsel_local::Local;
use morsel_meaning::{Fault, TaskNo};
use morsel_prims::{Board, Ended, Task};
use std::alloc::Global;

/// Gives back what each task has ended with, up to the first fault, which is the answer. `spawned` is how many tasks there may be.
///
/// A cut and want of memory are told as out of memory, where no task had a fault: who was cut was cut by another one.
pub fn join_ended<B: Board + Drop, S: Stage<B>>(
    alloc: Global,
    local: &mut Local<S::Task, B>,
    spawned: u32,
    stage: &mut S,
) -> Result<(), Fault>
    requires all { local.old.capacity ≡ spawned }
    requires owed { S.owes stage.old (unjoined local.old.tasks) }
    ensures whole { OnOk result (AreJoined (λ out. S.tells out (Ok Whole)) spawned local.old.tasks local.new.tasks) }
    ensures owed { S.owes stage.new (unjoined local.new.tasks) }
    ensures fault { IfErr result (λ fault. (fault ≡ OutOfMemory) ⊎ S.fails stage.old fault) }
    ensures same_faults { (fault : Fault) → S.fails stage.new fault → S.fails stage.old fault }
    ensures stays { (begun : S) → S.stays begun stage.old → S.stays begun stage.new }
    ensures same_cx { local.new.cx ≡ local.old.cx }
    ensures same_home { local.new.home ≡ local.old.home }
    ensures same_capacity { local.new.capacity ≡ local.old.capacity }
{
    let mut stopped = false;
    'tasks: for number in 0..spawned {
        let Some(out) = local.take_out(TaskNo(number + 1)) else {
            continue;
        };
        match stage.give_back(alloc, out) {
            Ok(Ended::Whole) => {}
            Ok(Ended::Cut) | Err(Fault::OutOfMemory) => stopped = true,
            Err(fault) => return Err(fault),
        }
    }
    if stopped {
        return Err(Fault::OutOfMemory);
    }
    Ok(())
}
