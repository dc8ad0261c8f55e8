//! Times of keys and of reductions of many groups.
#![tactic(auto)]

mod groups;
mod keys;

use morsel_meaning::Fault;
use morsel_timing::{Timing, timing_asked, timing_ended};
use std::io;
use std::rt::Clock;

/// Runs all parts.
fn run<R: Clock + Print + AllocGlobal>(rt: &R, timing: Timing, rows: usize) -> Result<(), Fault> {
    keys::run(rt, timing, rows)?;
    groups::run(rt, timing, rows)
}

fn main(rt: HostRuntime) -> io::Result<()> {
    let (timing, rows) = timing_asked(&rt)?;
    timing_ended(run(&rt, timing, rows))
}
