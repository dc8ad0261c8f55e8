//! Timers over any board, with the count of their sweeps.
ghost use Rattle.std.specs.Prelude.{◌≡◌, ◌≤◌, ◌+◌};

use crate::timer::Timer;
use morsel_local::{Local, SpawnError, Steps};
use morsel_meaning::{Fault, TaskNo};
use morsel_outside::OpenGate;
use morsel_prims::Board;
use std::alloc::Global;
use std::sync::ledger::{Blank, Ledger};

/// Timers over any board, with the count of their sweeps.
#[derive(Drop)]
pub struct Timers<'a, B: Board + Drop, Y: Ledger> {
    local: Local<Timer<'a>, B>,
    steps: Steps<Y>,
    capacity: u32,
    ghost board: { B.id local.cx.board ≡ local.home },
    ghost room: { local.cx.wakes.bound ≡ capacity + 1 },
}

impl<'a, B: Board + Drop, Y: Ledger> Timers<'a, B, Y> {
    /// No timers, with room for `capacity`.
    pub fn new(
        alloc: Global,
        board: B,
        blank: Blank,
        capacity: u32,
    ) -> Result<Timers<'a, B, Y>, Fault>
        requires capacity { capacity ≤ 16777216 }
        requires name { blank.name ≡ Y.name }
        requires parts { blank.parts ≡ Y.parts }
        requires one { blank.parts ≡ 1 }
    {
        Ok(Timers {
            local: Local::new(alloc, capacity, board)?,
            steps: Steps::new(blank),
            capacity,
        })
    }

    /// Puts a timer last.
    pub fn spawn(&mut self, timer: Timer<'a>) -> Result<TaskNo, SpawnError<Timer<'a>>> {
        self.local.spawn(timer)
    }

    /// Polls each queued timer once, and answers how many ended.
    pub fn sweep(&mut self) -> u32 {
        self.local.sweep(&OpenGate, &mut self.steps)
    }

    /// The next sweep polls the timer of this number, where there may be one.
    pub fn wake(&mut self, timer: TaskNo) {
        if timer.0 <= self.capacity {
            self.local.cx().wakes.push(timer);
        }
    }

    /// What the timer of this number ended with, once.
    pub fn take_out(&mut self, timer: TaskNo) -> Option<u32> {
        self.local.take_out(timer)
    }

    /// Abandons each timer that has not ended.
    pub fn abandon(self) {
        let Timers {
            local,
            steps: _,
            capacity: _,
        } = self;
        local.abandon();
    }
}
