//! Times of the parts of the engine that work on frames, texts and files.
#![tactic(auto)]

mod cuts;
mod expr;
mod facts;
mod fields;
mod scans;

use morsel_meaning::Fault;
use morsel_timing::{Timing, timing_asked, timing_ended};
use std::io;
use std::rt::Clock;

/// Runs all parts.
fn run<R: Clock + Print + AllocGlobal>(rt: &R, timing: Timing, rows: usize) -> Result<(), Fault> {
    expr::run(rt, timing, rows)?;
    cuts::run(rt, timing)?;
    fields::run(rt, timing)?;
    scans::run(rt, timing, rows)
}

fn main(rt: HostRuntime) -> io::Result<()> {
    let (timing, rows) = timing_asked(&rt)?;
    timing_ended(run(&rt, timing, rows))
}
