//! Two stages as one.
use crate::two_of::TwoOf;
use morsel_meaning::Fault;
use morsel_prims::{Board, Ended, Task};
use morsel_stage::Stage;
use std::alloc::Global;

/// Two stages whose tasks run side by side.
#[derive(Drop)]
pub struct PairStage<S, T> {
    /// Whose the tasks of the first kind are.
    pub first: S,
    /// Whose the tasks of the second kind are.
    pub second: T,
}

impl<B: Board, S: Stage<B>, T: Stage<B>> Stage<B> for PairStage<S, T> {
    ghost use Rattle.std.specs.Prelude.{◌⊎◌};
    ghost use Rattle.morsel_pair.specs.Pairs.{ByEither, firsts_of_two, seconds_of_two};

    type Task = TwoOf<S::Task, T::Task>;

    ghost owes = { λ pair tasks. S.owes pair.first (firsts_of_two tasks) × T.owes pair.second (seconds_of_two tasks) };

    ghost fails = { λ pair fault. S.fails pair.first fault ⊎ T.fails pair.second fault };

    // What stayed of either stage goes on to stay, whatever it was.
    ghost stays = { λ begun pair. ((from : S) → S.stays from begun.first → S.stays from pair.first) × ((from : T) → T.stays from begun.second → T.stays from pair.second) };

    ghost tells = { λ out told. ByEither out (λ out. S.tells out told) (λ out. T.tells out told) };

    fn give_back(
        &mut self,
        alloc: Global,
        out: TwoOf<<S::Task as Task<B>>::Out, <T::Task as Task<B>>::Out>,
    ) -> Result<Ended, Fault> {
        match out {
            TwoOf::First(out) => self.first.give_back(alloc, out),
            TwoOf::Second(out) => self.second.give_back(alloc, out),
        }
    }
}
