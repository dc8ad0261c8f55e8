//! A task that is ready after some polls.
use morsel_prims::{Board, Cx, Poll, Task};
use std::sync::atomic::{AtomicU64, Ordering};

/// It ends with its number at its last poll. Before that it waits for its caller, who wakes it.
#[derive(Drop)]
pub struct Timer<'a> {
    /// How many polls it takes.
    pub polls: u32,
    /// What it ends with.
    pub number: u32,
    /// Its number is added here when it is abandoned.
    pub abandoned: &'a AtomicU64,
}

impl<'a, B: Board> Task<B> for Timer<'a> {
    ghost use Rattle.std.specs.Prelude.{◌≡◌, ⊤, []};

    type Out = u32;

    ghost can_poll = { λ home timer. ⊤ };

    ghost gives = { λ timer out. out ≡ timer.number };

    ghost waits = { λ me board before after. ⊤ };

    ghost wait_places = { λ timer. [] };

    ghost has_cut = { λ board timer. ⊤ };

    fn poll(&mut self, _cx: &mut Cx<B>) -> Poll<u32> {
        if self.polls <= 1 {
            return Poll::Ready(self.number);
        }
        self.polls -= 1;
        Poll::Pending
    }

    fn abandon(self, _cx: &mut Cx<B>) {
        self.abandoned
            .fetch_add(u64::from(self.number), Ordering::Relaxed);
    }
}
