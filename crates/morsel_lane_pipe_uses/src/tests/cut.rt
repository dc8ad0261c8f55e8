//! What comes of an end that is cut.
use crate::tests::cases::{holds_between_threads, holds_on_one_thread};
use crate::tests::pairing::Pairing;
use crate::tests::piped::{Ends, Piped};
use crate::tests::plan::Plan;
use crate::tests::trial::{Side, Trial};
use morsel_meaning::Fault;
use morsel_prims::RecvError;
use std::alloc::Global;
use std::test::Fail;

/// Which ends of which pairing are cut, and what comes of it.
#[derive(Clone, Copy, Debug)]
pub struct CutCase {
    /// The pairing.
    pub pairing: Pairing,
    /// Its ends that are cut.
    pub side: Side,
    /// How many loads come out.
    pub came: Came,
    /// How the receiving ends that are open end.
    pub lasts: &'static [RecvError],
    /// How many tasks tell at least of the cut.
    pub least: u32,
}

/// How many of the loads came out.
#[derive(Clone, Copy, Debug, PartialEq, Eq)]
pub enum Came {
    /// All three.
    All,
    /// Those that were sent before the cut.
    Before,
    /// At most those that were sent before the cut.
    AtMostBefore,
}

/// All cases.
const CASES: [CutCase; 8] = [
    CutCase {
        pairing: Pairing::Serial,
        side: Side::Sender,
        came: Came::Before,
        lasts: &[RecvError::Cut],
        least: 0,
    },
    CutCase {
        pairing: Pairing::Parallel,
        side: Side::Sender,
        came: Came::All,
        lasts: &[RecvError::Whole, RecvError::Cut],
        least: 0,
    },
    CutCase {
        pairing: Pairing::Merged,
        side: Side::Sender,
        came: Came::AtMostBefore,
        lasts: &[RecvError::Cut],
        least: 2,
    },
    CutCase {
        pairing: Pairing::Spread,
        side: Side::Sender,
        came: Came::Before,
        lasts: &[RecvError::Cut, RecvError::Cut],
        least: 3,
    },
    CutCase {
        pairing: Pairing::Serial,
        side: Side::Receivers,
        came: Came::Before,
        lasts: &[],
        least: 0,
    },
    CutCase {
        pairing: Pairing::Parallel,
        side: Side::Receivers,
        came: Came::Before,
        lasts: &[],
        least: 0,
    },
    CutCase {
        pairing: Pairing::Merged,
        side: Side::Receivers,
        came: Came::AtMostBefore,
        lasts: &[],
        least: 1,
    },
    CutCase {
        pairing: Pairing::Spread,
        side: Side::Receivers,
        came: Came::Before,
        lasts: &[],
        least: 1,
    },
];

/// Whether these are the first numbers, in their order.
fn are_first(came: &[(usize, u64)]) -> bool {
    let mut all = true;
    let mut next = 0;
    for (_, number) in came {
        all = all && *number == next;
        next = number.saturating_add(1);
    }
    all
}

/// Whether the loads that came are the first, in their order, and so many.
fn came_so(came: &[(usize, u64)], count: u32, expected: Came) -> bool {
    let many = came.len();
    are_first(came)
        && match expected {
            Came::All => many == 3,
            Came::Before => many == count as usize,
            Came::AtMostBefore => many <= count as usize,
        }
}

/// Whether all tasks have ended, none for want of memory or by a fault, and at least so many of them tell of a cut.
fn tell_of_cut(ends: Ends, least: u32) -> bool {
    ends.open == 0 && ends.out_of_memory == 0 && ends.failed == 0 && ends.cut >= least
}

/// Whether three loads that are sent, with these ends cut when `count` of them were, come out so, and all ends so.
pub fn is_cut_so<P: Piped + Drop>(
    alloc: Global,
    trial: &mut Trial<P>,
    count: u32,
    case: &CutCase,
) -> Result<bool, Fault> {
    trial.pour(alloc, 0..count)?;
    trial.cut(case.side)?;
    trial.pour(alloc, count..3)?;
    trial.end()?;
    Ok(
        came_so(trial.came(), count, case.came)
            && trial.ends_so(case.lasts)?
            && tell_of_cut(trial.ends(), case.least),
    )
}

#[test]
fn a_cut_end_cuts_the_others_on_one_thread(rt: HostRuntime) -> Result<(), Fail> {
    for case in CASES {
        for count in 0..3 {
            for room in [1, 4] {
                let plan = Plan::Cut(case, count);
                let so = holds_on_one_thread(rt.alloc(), room, u64::from(count), plan)?;
                assert!(rt; so, "{plan:?}, room {room}");
            }
        }
    }
    Ok(())
}

#[test]
fn a_cut_end_cuts_the_others_between_threads(rt: HostRuntime) -> Result<(), Fail> {
    for case in CASES {
        for count in 0..3 {
            let plan = Plan::Cut(case, count);
            let so = holds_between_threads(rt.alloc(), u64::from(count), plan)?;
            assert!(rt; so, "{plan:?}");
        }
    }
    Ok(())
}
