//! What comes of a task that wants memory.
use crate::tests::cases::{holds_of_scarce_between_threads, holds_of_scarce_on_one_thread};
use crate::tests::piped::{Ends, Piped, SendAnswer};
use crate::tests::plan::Plan;
use crate::tests::trial::Trial;
use morsel_meaning::Fault;
use morsel_prims::RecvError;
use std::alloc::Global;
use std::test::Fail;

/// Whether what comes out is what had a token, so many on each of two lanes; both tasks behind lanes tell that memory was out, and
/// all ends are cut.
pub fn wants<P: Piped + Drop>(
    alloc: Global,
    trial: &mut Trial<P>,
    tokens: usize,
) -> Result<bool, Fault> {
    let sent = trial.pour(alloc, 0..16)?;
    trial.end()?;
    let ends = Ends {
        cut: 1,
        out_of_memory: 2,
        ..Ends::default()
    };
    Ok(
        sent == SendAnswer::Closed
            && trial.came().len() / 2 == tokens
            && trial.ends_so(&[RecvError::Cut, RecvError::Cut])?
            && trial.ends() == ends,
    )
}

/// Whether memory is out so where a group gives so many tokens.
fn wants_after<const TOKENS: u32>(alloc: Global) -> Result<bool, Fault> {
    let plan = Plan::Wants(TOKENS as usize);
    Ok(
        holds_of_scarce_on_one_thread::<TOKENS>(alloc, 1, plan)?
            && holds_of_scarce_on_one_thread::<TOKENS>(alloc, 4, plan)?
            && holds_of_scarce_between_threads::<TOKENS>(alloc, plan)?,
    )
}

#[test]
fn a_task_that_wants_memory_cuts_its_ends(rt: HostRuntime) -> Result<(), Fail> {
    assert!(rt; wants_after::<0>(rt.alloc())?, "no token");
    assert!(rt; wants_after::<1>(rt.alloc())?, "one token");
    assert!(rt; wants_after::<2>(rt.alloc())?, "two tokens");
    Ok(())
}
