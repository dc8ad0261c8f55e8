//! A phase of two nodes, the first of which gives what the second one takes.
use crate::node_stage::NodeStage;
use morsel_lane_pipe::PipeOut;
use morsel_load::{Load, LoadJob};
use morsel_meaning::Fault;
use morsel_ports::ComputeNode;
use morsel_prims::{Ended, Lanes, Task, Tokens};
use morsel_stage::{OneOf, Stage};
use std::alloc::Global;
use std::marker::PhantomData;

/// A task of two nodes, or of the pipes before and behind them.
pub type LineTask<L, J, A, Z, P> = OneOf<
    <A as ComputeNode<L, J>>::Unit,
    <Z as ComputeNode<L, J>>::Unit,
    P,
>;

/// Two nodes, the first of which gives what the second one takes, and the tasks of the pipes before and behind them.
#[derive(Drop)]
pub struct LineStage<L, J, A, Z, P> {
    pub(crate) first: NodeStage<A, J>,
    pub(crate) last: NodeStage<Z, J>,
    pub(crate) lanes: PhantomData<L>,
    pub(crate) pipes: PhantomData<P>,
}

impl<L, J, A, Z, P, R> Stage<L::Board> for LineStage<L, J, A, Z, P>
where
    L: Tokens + Lanes<Load<<L as Tokens>::Token, J>>,
    J: LoadJob<<L as Tokens>::Token>,
    A: ComputeNode<L, J>,
    Z: ComputeNode<L, J>,
    P: Task<<L as Tokens>::Board, Out = PipeOut<R>> + Drop,
    R: Drop,
{
    ghost use Rattle.std.specs.Prelude.{◌≡◌, ◌⊎◌, ◌∷◌, [], All};
    ghost use Rattle.morsel_meaning.specs.declared.fault.Fault.TheVariants.{OutOfMemory};
    ghost use Rattle.morsel_stage.specs.Kinds.{ByKind, firsts, seconds, thirds};
    ghost use Rattle.morsel_phase.specs.Stages.{HasOut, HasNoFault};
    ghost use Rattle.morsel_phase.specs.Told.{TellsPipe, TellsUnit};

    type Task = LineTask<L, J, A, Z, P>;

    // What goes on unchanged has no fault, so no task of a pipe has one.
    ghost owes = { λ stage tasks. HasOut (A.seen stage.first.node).units (A.is_unit stage.first.node) A.unit_fails (A.fails stage.first.begun.value (stage.first.job.value ∷ [])) (firsts tasks)
        × HasOut (Z.seen stage.last.node).units (Z.is_unit stage.last.node) Z.unit_fails (Z.fails stage.last.begun.value (stage.last.job.value ∷ [])) (seconds tasks)
        × All (HasNoFault P.gives) (thirds tasks) };

    ghost fails = { λ stage fault. (fault ≡ OutOfMemory) ⊎ A.fails stage.first.begun.value (stage.first.job.value ∷ []) fault ⊎ Z.fails stage.last.begun.value (stage.last.job.value ∷ []) fault };

    ghost stays = { λ begun stage. A.stays begun.first.node stage.first.node × Z.stays begun.last.node stage.last.node };

    ghost tells = { λ out told. ByKind out (λ out. TellsUnit (A.end_of out) told) (λ out. TellsUnit (Z.end_of out) told) (λ out. TellsPipe out told) };

    fn give_back(
        &mut self,
        alloc: Global,
        out: OneOf<
            <<A as ComputeNode<L, J>>::Unit as Task<L::Board>>::Out,
            <<Z as ComputeNode<L, J>>::Unit as Task<L::Board>>::Out,
            PipeOut<R>,
        >,
    ) -> Result<Ended, Fault> {
        match out {
            OneOf::First(out) => self.first.give_back::<L>(alloc, out),
            OneOf::Second(out) => self.last.give_back::<L>(alloc, out),
            OneOf::Third(out) => match out {
                PipeOut::Whole(_) => Ok(Ended::Whole),
                PipeOut::Cut => Ok(Ended::Cut),
                PipeOut::OutOfMemory => Err(Fault::OutOfMemory),
                PipeOut::Failed(_) => unreachable!(),
            },
        }
    }
}
