//! Two threads with a connector between them: each value is sent by the one and taken by the other.
use morsel_meaning::Fault;
use morsel_timing::{Best, Timing, now, tell};
use morsel_word_uses::{Handover, hand_over};
use std::rt::Clock;
use std::sync::Wait;
use std::thread::Threads;

/// How many values are handed over where no number is asked for: so many that each end often waits for the other, and not so
/// many that a machine with other work takes a minute.
const MANY: usize = 2000000;

/// How many values came, or 0 where one came twice, not at all or before an earlier one, or the lane did not end whole.
fn came(told: Handover) -> usize {
    if told.in_order && told.whole {
        told.count as usize
    } else {
        0
    }
}

/// Hands so many values from one thread to another, and two million where lines have no times.
pub fn run<R: Clock + Print + AllocGlobal + Threads + Wait + Sync>(
    rt: &R,
    timing: Timing,
    values: usize,
) -> Result<(), Fault> {
    let values = if timing.timed { values } else { MANY };
    let mut best = Best::new();
    for _ in 0..timing.runs {
        let begun = now(rt)?;
        let told = hand_over(rt, rt.alloc(), values as u64)?;
        best.take_in(rt, begun, came(told))?;
    }
    tell(
        rt,
        timing,
        "one value from one thread to another, each once and in order, values",
        best,
        values,
    )
}
