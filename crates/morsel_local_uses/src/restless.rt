//! A task that never ends.
use morsel_prims::{Board, Cx, Poll, Task, Wakes};
use std::snapshot::Snapshot;
use std::sync::atomic::{AtomicU64, Ordering};

/// It keeps the whole contract of a task, and no output is one that it may end with: after each poll it is among those that are to
/// be woken. So what a task promises bounds no number of its polls.
#[derive(Drop)]
pub struct Restless<'a> {
    // The tasks that were to be woken after its last poll.
    woken: Snapshot<Wakes>,
    polls: &'a AtomicU64,
}

impl<'a> Restless<'a> {
    /// One that was not polled yet; each poll is counted here.
    pub fn new(wakes: &Wakes, polls: &'a AtomicU64) -> Restless<'a> {
        Restless {
            woken: Snapshot::of(wakes),
            polls,
        }
    }
}

impl<'a, B: Board> Task<B> for Restless<'a> {
    ghost use Rattle.std.specs.Prelude.{◌≡◌, ◌≤◌, ⊤, []};

    type Out = ();

    ghost can_poll = { λ home restless. ⊤ };

    // It ends with nothing.
    ghost gives = { λ restless out. ⊥ };

    // Its number is past those that may be woken; it waits nowhere else.
    ghost waits = { λ me board before after. after.woken.value.bound ≤ me.0 };

    ghost wait_places = { λ restless. [] };

    ghost has_cut = { λ board restless. ⊤ };

    fn poll(&mut self, cx: &mut Cx<B>) -> Poll<()> {
        self.polls.fetch_add(1, Ordering::Relaxed);
        cx.wakes.wake(Some(cx.me));
        self.woken = Snapshot::of(&cx.wakes);
        Poll::Pending
    }

    fn abandon(self, _cx: &mut Cx<B>) {}
}
