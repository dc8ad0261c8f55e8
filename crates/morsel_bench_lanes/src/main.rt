//! Times of lanes of one thread and of a connector, of what merges and spreads them, of two threads with a connector
//! between them, and of polls of tasks.
#![tactic(auto)]

mod across;
mod idle;
mod lane;
mod merge;
mod spread;

use morsel_meaning::Fault;
use morsel_timing::{Timing, timing_asked, timing_ended};
use std::io;
use std::rt::Clock;
use std::sync::Wait;
use std::thread::Threads;

/// Runs all parts.
fn run<R: Clock + Print + AllocGlobal + Threads + Wait + Sync>(
    rt: &R,
    timing: Timing,
    values: usize,
) -> Result<(), Fault> {
    lane::run(rt, timing, values)?;
    merge::run(rt, timing, values)?;
    spread::run(rt, timing, values)?;
    idle::run(rt, timing, values)?;
    across::run(rt, timing, values)
}

fn main(rt: HostRuntime) -> io::Result<()> {
    let (timing, values) = timing_asked(&rt)?;
    timing_ended(run(&rt, timing, values))
}
