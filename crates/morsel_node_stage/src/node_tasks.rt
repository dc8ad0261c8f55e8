//! A node as a stage.
use morsel_load::{Load, LoadJob};
use morsel_meaning::Fault;
use morsel_ports::ComputeNode;
use morsel_prims::{Ended, Lanes, Task, Tokens};
use morsel_stage::Stage;
use std::alloc::Global;
use std::marker::PhantomData;
use std::snapshot::Snapshot;

/// A node whose units were taken.
#[derive(Drop)]
pub struct NodeTasks<L, J, N> {
    /// The node.
    pub node: N,
    // The node before its units were taken, and the jobs of its receiving ports: as it may fail then, so may its units.
    pub(crate) begun: Snapshot<N>,
    pub(crate) jobs: Snapshot<Vec<J>>,
    pub(crate) lanes: PhantomData<L>,
}

impl<L, J, N> Stage<L::Board> for NodeTasks<L, J, N>
where
    L: Tokens + Lanes<Load<<L as Tokens>::Token, J>>,
    J: LoadJob<<L as Tokens>::Token>,
    N: ComputeNode<L, J>,
{
    ghost use Rattle.morsel_phase.specs.Stages.{HasOut};
    ghost use Rattle.morsel_phase.specs.Told.{TellsUnit};

    type Task = N::Unit;

    ghost owes = { λ stage units. HasOut (N.seen stage.node).units (N.is_unit stage.node) N.unit_fails (N.fails stage.begun.value stage.jobs.value.items) units };

    ghost fails = { λ stage fault. N.fails stage.begun.value stage.jobs.value.items fault };

    ghost stays = { λ begun stage. N.stays begun.node stage.node };

    ghost tells = { λ out told. TellsUnit (N.end_of out) told };

    fn give_back(
        &mut self,
        alloc: Global,
        out: <<N as ComputeNode<L, J>>::Unit as Task<L::Board>>::Out,
    ) -> Result<Ended, Fault> {
        let receipts = self.node.give_back(alloc, out)?;
        if receipts.taken.is_empty() && receipts.sent.is_empty() {
            return Ok(Ended::Cut);
        }
        Ok(Ended::Whole)
    }
}
