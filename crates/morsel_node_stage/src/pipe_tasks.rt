//! The tasks of pipes as a stage.
use morsel_lane_pipe::PipeOut;
use morsel_meaning::Fault;
use morsel_prims::{Board, Ended, Task};
use morsel_stage::Stage;
use std::alloc::Global;
use std::marker::PhantomData;

/// The tasks of pipes, which nobody takes back.
#[derive(Drop)]
pub struct PipeTasks<P> {
    tasks: PhantomData<P>,
}

impl<P> PipeTasks<P> {
    /// Those of any pipes.
    pub fn new() -> PipeTasks<P> {
        PipeTasks { tasks: PhantomData }
    }
}

impl<B: Board, P, R> Stage<B> for PipeTasks<P>
where
    P: Task<B, Out = PipeOut<R>> + Drop,
    R: Drop,
{
    ghost use Rattle.std.specs.Prelude.{◌≡◌, All};
    ghost use Rattle.morsel_meaning.specs.declared.fault.Fault.TheVariants.{OutOfMemory};
    ghost use Rattle.morsel_phase.specs.Stages.{HasNoFault};
    ghost use Rattle.morsel_phase.specs.Told.{TellsPipe};

    type Task = P;

    // What goes on unchanged has no fault, so no task of a pipe has one.
    ghost owes = { λ stage tasks. All (HasNoFault P.gives) tasks };

    ghost fails = { λ stage fault. fault ≡ OutOfMemory };

    ghost stays = { λ begun stage. Unit {0} };

    ghost tells = { λ out told. TellsPipe out told };

    fn give_back(&mut self, _alloc: Global, out: PipeOut<R>) -> Result<Ended, Fault> {
        match out {
            PipeOut::Whole(_) => Ok(Ended::Whole),
            PipeOut::Cut => Ok(Ended::Cut),
            PipeOut::OutOfMemory => Err(Fault::OutOfMemory),
            PipeOut::Failed(_) => unreachable!(),
        }
    }
}
