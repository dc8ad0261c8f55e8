//! What went in comes out once.
use crate::tests::cases::{PAIRINGS, holds_between_threads, holds_on_one_thread};
use crate::tests::pairing::Pairing;
use crate::tests::piped::{Ends, Piped, SendAnswer};
use crate::tests::plan::Plan;
use crate::tests::trial::Trial;
use morsel_meaning::Fault;
use morsel_prims::RecvError;
use std::alloc::Global;
use std::test::Fail;

/// Whether this number is among these.
fn is_among(number: u64, came: &[(usize, u64)]) -> bool {
    for (_, other) in came {
        if *other == number {
            return true;
        }
    }
    false
}

/// Whether these are 0, 1 and 2, each once.
fn are_each_once(came: &[(usize, u64)]) -> bool {
    came.len() == 3 && is_among(0, came) && is_among(1, came) && is_among(2, came)
}

/// How the receiving ends of a pairing end, all whole.
fn exits_of(pairing: Pairing) -> &'static [RecvError] {
    match pairing {
        Pairing::Serial | Pairing::Merged => &[RecvError::Whole],
        Pairing::Parallel | Pairing::Spread => &[RecvError::Whole, RecvError::Whole],
    }
}

/// How the tasks of a pairing end, all whole.
fn all_whole(pairing: Pairing) -> Ends {
    let (whole, taken, sent) = match pairing {
        Pairing::Serial | Pairing::Parallel => (0, 0, 0),
        Pairing::Merged => (3, 4, 3),
        Pairing::Spread => (3, 3, 4),
    };
    Ends {
        whole,
        taken,
        sent,
        ..Ends::default()
    }
}

/// Whether 0, 1 and 2 that are sent into a pipe come out once each, in order at each end, and all ends whole.
pub fn goes_through<P: Piped + Drop>(
    alloc: Global,
    trial: &mut Trial<P>,
    pairing: Pairing,
) -> Result<bool, Fault> {
    let sent = trial.pour(alloc, 0..3)?;
    trial.end()?;
    Ok(
        sent == SendAnswer::Sent
            && are_each_once(trial.came())
            && trial.ends_so(exits_of(pairing))?
            && trial.ends() == all_whole(pairing),
    )
}

#[test]
fn what_is_sent_comes_out_once_on_one_thread(rt: HostRuntime) -> Result<(), Fail> {
    for pairing in PAIRINGS {
        for room in [1, 4] {
            let goes = holds_on_one_thread(rt.alloc(), room, 1, Plan::Through(pairing))?;
            assert!(rt; goes, "{pairing:?}, room {room}");
        }
    }
    Ok(())
}

#[test]
fn what_is_sent_comes_out_once_between_threads(rt: HostRuntime) -> Result<(), Fail> {
    for pairing in PAIRINGS {
        let goes = holds_between_threads(rt.alloc(), 1, Plan::Through(pairing))?;
        assert!(rt; goes, "{pairing:?}");
    }
    Ok(())
}
