//! How long a part takes, and one line for each.
use morsel_meaning::Fault;
use std::rt::Clock;
use std::time::Instant;

/// How parts are timed. The time of a part is the least of all runs.
#[derive(Clone, Copy, Debug)]
pub struct Timing {
    /// Whether lines have times.
    pub timed: bool,
    /// How often each part is run.
    pub runs: u32,
}

/// What a part gave, and the time of its fastest run.
#[derive(Clone, Copy, Debug)]
pub struct Best {
    /// What its last run gave.
    pub count: usize,
    /// The nanoseconds of its fastest run.
    pub nanos: u64,
}

impl Best {
    /// No run yet.
    pub fn new() -> Best {
        Best {
            count: 0,
            nanos: u64::MAX,
        }
    }

    /// Takes in a run that gave a count and has just ended.
    pub fn take_in(&mut self, rt: &impl Clock, begun: Instant, count: usize) -> Result<(), Fault> {
        self.take(nanos_since(rt, begun)?, count);
        Ok(())
    }

    /// Takes in a run that took so many nanoseconds and gave a count.
    pub fn take(&mut self, nanos: u64, count: usize) {
        self.count = count;
        self.nanos = self.nanos.min(nanos);
    }
}

/// The nanoseconds from then on.
pub fn nanos_since(rt: &impl Clock, begun: Instant) -> Result<u64, Fault> {
    let Ok(passed) = begun.elapsed(rt) else {
        return Err(Fault::WriteFault);
    };
    Ok(u64::try_from(passed.as_nanos()).unwrap_or(u64::MAX))
}

/// Now.
pub fn now(rt: &impl Clock) -> Result<Instant, Fault> {
    match Instant::now(rt) {
        Ok(now) => Ok(now),
        Err(_) => Err(Fault::WriteFault),
    }
}

/// Prints what a part gave, and the time of each of so many items where lines have times.
pub fn tell(
    rt: &impl Print,
    timing: Timing,
    name: &str,
    best: Best,
    items: usize,
) -> Result<(), Fault> {
    let count = best.count;
    let told = if timing.timed {
        let picos = best.nanos.saturating_mul(1000) / (items as u64).max(1);
        let whole = picos / 1000;
        let part = picos % 1000;
        println!(rt; "{name}: {count}, {whole}.{part:03} ns each")
    } else {
        println!(rt; "{name}: {count}")
    };
    match told {
        Ok(()) => Ok(()),
        Err(_) => Err(Fault::WriteFault),
    }
}
