//! When the tokens of morsels are released.
use crate::tests::cases::{PAIRINGS, holds_between_threads, holds_on_one_thread};
use crate::tests::piped::Piped;
use crate::tests::plan::Plan;
use crate::tests::trial::Trial;
use morsel_meaning::Fault;
use morsel_prims::RecvError;
use std::alloc::Global;
use std::test::Fail;

/// Whether each of two lanes gives its second load only after the first one's token was released, and all four come out.
pub fn waits_for_tokens<P: Piped + Drop>(
    alloc: Global,
    trial: &mut Trial<P>,
) -> Result<bool, Fault> {
    let mut all = true;
    for number in 0..4 {
        trial.send(alloc, 0, number)?;
        trial.run();
    }
    for at in 0..2 {
        all = trial.take_late(at)? == Some(Err(RecvError::Empty)) && all;
    }
    trial.end()?;
    Ok(all && trial.came().len() == 4)
}

/// Whether a morsel's token is counted while the morsel goes into a pipe, and no more once all that comes was taken.
///
/// Where lanes are merged, the morsel itself waits then for the other lane: the linearizer has it.
pub fn is_released<P: Piped + Drop>(alloc: Global, trial: &mut Trial<P>) -> Result<bool, Fault> {
    trial.send_counted(alloc, 0, 3)?;
    let before = trial.is_counted();
    trial.drain()?;
    Ok(before && !trial.is_counted())
}

#[test]
fn a_load_is_handed_on_once_the_last_was_consumed(rt: HostRuntime) -> Result<(), Fail> {
    assert!(rt; holds_on_one_thread(rt.alloc(), 4, 1, Plan::Late)?);
    assert!(rt; holds_between_threads(rt.alloc(), 1, Plan::Late)?);
    Ok(())
}

#[test]
fn a_token_is_released_on_the_way(rt: HostRuntime) -> Result<(), Fail> {
    for pairing in PAIRINGS {
        let plan = Plan::Released(pairing);
        assert!(rt; holds_on_one_thread(rt.alloc(), 1, 1, plan)?, "{pairing:?}");
        assert!(rt; holds_between_threads(rt.alloc(), 1, plan)?, "{pairing:?}");
    }
    Ok(())
}
