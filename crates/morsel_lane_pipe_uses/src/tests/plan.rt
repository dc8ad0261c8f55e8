//! What is tried with a pipe.
use crate::tests::cut::{CutCase, is_cut_so};
use crate::tests::pairing::Pairing;
use crate::tests::piped::Piped;
use crate::tests::through::goes_through;
use crate::tests::tokens::{is_released, waits_for_tokens};
use crate::tests::trial::Trial;
use crate::tests::want::wants;
use morsel_meaning::Fault;
use std::alloc::Global;

/// What is tried with a pipe.
#[derive(Clone, Copy, Debug)]
pub enum Plan {
    /// What is sent through this pairing comes out once.
    Through(Pairing),
    /// So it goes on where an end is cut after so many loads.
    Cut(CutCase, u32),
    /// A lane behind a distributor gives a load once the token of the one before it was released.
    Late,
    /// A token is released on the way through this pairing.
    Released(Pairing),
    /// Both tasks behind a distributor's lanes want memory after so many tokens.
    Wants(usize),
}

impl Plan {
    /// The pairing of which the pipe is made.
    pub fn pairing(&self) -> Pairing {
        match self {
            Plan::Through(pairing) | Plan::Released(pairing) => *pairing,
            Plan::Cut(case, _) => case.pairing,
            Plan::Late | Plan::Wants(_) => Pairing::Spread,
        }
    }

    /// Whether it holds of this pipe.
    pub fn holds<P: Piped + Drop>(
        &self,
        alloc: Global,
        trial: &mut Trial<P>,
    ) -> Result<bool, Fault> {
        match self {
            Plan::Through(pairing) => goes_through(alloc, trial, *pairing),
            Plan::Cut(case, count) => is_cut_so(alloc, trial, *count, case),
            Plan::Late => waits_for_tokens(alloc, trial),
            Plan::Released(_) => is_released(alloc, trial),
            Plan::Wants(tokens) => wants(alloc, trial, *tokens),
        }
    }
}
