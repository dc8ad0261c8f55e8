//! Tasks of a pipe in one list, by their kinds.
ghost use Rattle.std.specs.Prelude.{◌≡◌, ◌∷◌, ◌++◌, Some, map, IfOk, IfSome, IsSome, IsOkUnless};
ghost use Rattle.morsel_meaning.specs.declared.fault.Fault.TheVariants.{OutOfMemory};

use morsel_lane_pipe::{Distributing, HandingOn, Inserting, Merging, Stepping};
use morsel_load::{Load, LoadJob};
use morsel_meaning::Fault;
use morsel_pipe_task::{PipeTask, PipeWork};
use morsel_prims::{Lanes, Tokens};
use std::alloc::Global;

/// The task that merges, which is lent, and taken; and then those that insert.
pub fn gather_merging<
    L: Tokens + Lanes<Load<<L as Tokens>::Token, J>>,
    J: LoadJob<<L as Tokens>::Token>,
>(
    alloc: Global,
    merging: &mut Option<Merging<L, J>>,
    inserting: Vec<Inserting<L, J>>,
) -> Result<Vec<PipeTask<L, J>>, Fault>
    requires some { IsSome merging.old }
    ensures tasks { IfSome merging.old (λ merging. IfOk result (λ tasks. map (λ task. task.task) tasks.items ≡ Some (PipeWork.Merging merging) ∷ map (λ task. Some (PipeWork.Inserting task)) inserting.items)) }
    ensures out_of_memory { IsOkUnless result OutOfMemory }
{
    let Some(merging) = merging.take() else {
        unreachable!()
    };
    let mut tasks = Vec::new(alloc);
    tasks.push(Stepping::new(PipeWork::Merging(merging)))?;
    add_inserting(&mut tasks, inserting)?;
    Ok(tasks)
}

/// The task that distributes, which is lent, and taken; and then those that hand on.
pub fn gather_spreading<
    L: Tokens + Lanes<Load<<L as Tokens>::Token, J>>,
    J: LoadJob<<L as Tokens>::Token>,
>(
    alloc: Global,
    distributing: &mut Option<Distributing<L, J>>,
    handing_on: Vec<HandingOn<L, J>>,
) -> Result<Vec<PipeTask<L, J>>, Fault>
    requires some { IsSome distributing.old }
    ensures tasks { IfSome distributing.old (λ distributing. IfOk result (λ tasks. map (λ task. task.task) tasks.items ≡ Some (PipeWork.Distributing distributing) ∷ map (λ task. Some (PipeWork.HandingOn task)) handing_on.items)) }
    ensures out_of_memory { IsOkUnless result OutOfMemory }
{
    let Some(distributing) = distributing.take() else {
        unreachable!()
    };
    let mut tasks = Vec::new(alloc);
    tasks.push(Stepping::new(PipeWork::Distributing(distributing)))?;
    add_handing_on(&mut tasks, handing_on)?;
    Ok(tasks)
}

/// Adds the tasks that insert.
fn add_inserting<
    L: Tokens + Lanes<Load<<L as Tokens>::Token, J>>,
    J: LoadJob<<L as Tokens>::Token>,
>(tasks: &mut Vec<PipeTask<L, J>>, inserting: Vec<Inserting<L, J>>) -> Result<(), Fault>
    ensures tasks { IfOk result (λ _. map (λ task. task.task) tasks.new.items ≡ map (λ task. task.task) tasks.old.items ++ map (λ task. Some (PipeWork.Inserting task)) inserting.items) }
    ensures out_of_memory { IsOkUnless result OutOfMemory }
{
    'each: for task in inserting {
        tasks.push(Stepping::new(PipeWork::Inserting(task)))?;
    }
    Ok(())
}

/// Adds the tasks that hand on.
fn add_handing_on<
    L: Tokens + Lanes<Load<<L as Tokens>::Token, J>>,
    J: LoadJob<<L as Tokens>::Token>,
>(tasks: &mut Vec<PipeTask<L, J>>, handing_on: Vec<HandingOn<L, J>>) -> Result<(), Fault>
    ensures tasks { IfOk result (λ _. map (λ task. task.task) tasks.new.items ≡ map (λ task. task.task) tasks.old.items ++ map (λ task. Some (PipeWork.HandingOn task)) handing_on.items) }
    ensures out_of_memory { IsOkUnless result OutOfMemory }
{
    'each: for task in handing_on {
        tasks.push(Stepping::new(PipeWork::HandingOn(task)))?;
    }
    Ok(())
}
