//! Times of joins: rows that are kept by a key, and rows that are looked up in them.
#![tactic(auto)]

mod joins;
mod tables;

use morsel_meaning::Fault;
use morsel_timing::{Timing, timing_asked, timing_ended};
use std::io;
use std::rt::Clock;

/// Runs all parts.
fn run<R: Clock + Print + AllocGlobal>(rt: &R, timing: Timing, rows: usize) -> Result<(), Fault> {
    joins::run(rt, timing, rows)
}

fn main(rt: HostRuntime) -> io::Result<()> {
    let (timing, rows) = timing_asked(&rt)?;
    timing_ended(run(&rt, timing, rows))
}
