//! Whose the tasks of a phase are.
use morsel_meaning::Fault;
use morsel_prims::{Board, Ended, Task};
use std::alloc::Global;

/// Whose the tasks of a phase are, and who takes back what they end with.
pub trait Stage<B: Board> {
    ghost use Rattle.std.specs.Prelude.{◌++◌, ◌∷◌, List, Result, IfErr};
    ghost use Rattle.morsel_meaning.specs.declared.fault.Fault.{Fault};
    ghost use Rattle.morsel_prims.specs.declared.lane.Ended.{Ended};

    /// A task of the phase.
    type Task: Task<B> + Drop;

    /// These are its tasks of which it has not taken back what they end with.
    ghost owes: { Self → List Self.Task → Type 0 };

    /// It, or a task of it, may end by this fault.
    ghost fails: { Self → Fault → Type 0 };

    /// What it keeps of what it was, while tasks are given back: as it was, and as it is.
    ghost stays: { Self → Self → Type 0 };

    /// An output tells this: how the lanes of its task ended, or its fault.
    ghost tells: { Self.Task.Out → Result Ended Fault → Type 0 };

    /// Takes back what a task has ended with: how its lanes ended, or its fault.
    fn give_back(
        &mut self,
        alloc: Global,
        out: <Self::Task as Task<B>>::Out,
    ) -> Result<Ended, Fault>
        requires owed { (before after : List Self.Task) × (task : Self.Task) × owes self.old (before ++ task ∷ after) × Self.Task.gives task out }
        ensures owed { (before after : List Self.Task) (task : Self.Task) → owes self.old (before ++ task ∷ after) → Self.Task.gives task out → owes self.new (before ++ after) }
        ensures told { tells out result }
        ensures fault { IfErr result (fails self.old) }
        ensures same_faults { (fault : Fault) → fails self.new fault → fails self.old fault }
        ensures stays { (begun : Self) → stays begun self.old → stays begun self.new };
}
