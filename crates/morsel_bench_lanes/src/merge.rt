//! Four lanes of one thread that are merged: each value is sent through the next lane in turn, and the least that is
//! held is then given.
ghost use Rattle.std.specs.Prelude.{◌≡◌, All, length};

use morsel_meaning::{Fault, TaskNo};
use morsel_merge::{Got, Inserter, Linearizer};
use morsel_prims::{Cx, Lanes, Message, PlainBoard, PlainLanes, Poll, Tokens, Wakes};
use morsel_timing::{Best, Timing, now, tell};
use std::alloc::Global;
use std::cmp::Reverse;
use std::mem::drop;
use std::rt::Clock;

/// How many lanes are merged.
const LANES: u32 = 4;

/// For how many values a lane has room.
const ROOM: u32 = 4;

/// What goes through. The least number comes first.
#[derive(Clone, Copy, Debug, Drop, PartialEq, Eq, PartialOrd, Ord)]
struct Numbered(Reverse<u64>);

impl Message for Numbered {
    ghost use Rattle.std.specs.Prelude.{⊤};

    type Job = ();

    ghost suits = { λ job item. ⊤ };
}

/// Lanes that are merged, with their board.
#[derive(Drop)]
struct MergePassage<M: Tokens + Lanes<Numbered>> {
    cx: Cx<M::Board>,
    linearizer: Linearizer<Numbered, M>,
    inserters: Vec<Inserter<Numbered, M>>,
    next: u64,
    ghost home: { (M.Board.id linearizer.board.value).lane_table ≡ (M.Board.id cx.board).lane_table },
    ghost homes: { All (λ inserter. M.Sender.home inserter.sender ≡ (M.Board.id cx.board).lane_table) inserters.items },
}

impl<M: Tokens + Lanes<Numbered>> MergePassage<M> {
    /// Lanes on this board.
    fn new(alloc: Global, board: M::Board) -> Result<MergePassage<M>, Fault> {
        let mut cx = Cx {
            me: TaskNo(1),
            wakes: Wakes::new(alloc, 2)?,
            board,
        };
        let (linearizer, inserters) = Linearizer::new(alloc, &mut cx.board, LANES, ROOM, &())?;
        Ok(MergePassage {
            cx,
            linearizer,
            inserters,
            next: 0,
        })
    }

    /// Sends the next number through the next lane. Whether it was taken in.
    fn send(&mut self) -> bool {
        let lane = (self.next % u64::from(LANES)) as usize;
        let mut held = Some(Numbered(Reverse(self.next)));
        self.next = self.next.wrapping_add(1);
        if self.inserters.len() <= lane {
            return false;
        }
        let sent = self.inserters[lane].poll_insert(&mut self.cx, &mut held);
        matches!(sent, Poll::Ready(Ok(())))
    }

    /// Gives a number, if there is one. Whether there was.
    fn get(&mut self) -> bool {
        matches!(
            self.linearizer.poll_get(&mut self.cx),
            Poll::Ready(Got::Item(_))
        )
    }
}

/// Runs the part on so many values.
pub fn run<R: Clock + Print + AllocGlobal>(
    rt: &R,
    timing: Timing,
    values: usize,
) -> Result<(), Fault> {
    let board = PlainBoard::new(rt.alloc())?;
    let merge: MergePassage<PlainLanes<Numbered>> = MergePassage::new(rt.alloc(), board)?;
    tell_merge(rt, timing, values, merge)
}

/// Tells how values go through lanes that are merged.
fn tell_merge<R: Clock + Print, M: Tokens + Lanes<Numbered>>(
    rt: &R,
    timing: Timing,
    values: usize,
    mut merge: MergePassage<M>,
) -> Result<(), Fault> {
    let best = time_merge(rt, timing, values, &mut merge);
    drop(merge);
    tell(
        rt,
        timing,
        "one value through a linearizer of 4 lanes, values",
        best?,
        values,
    )
}

/// Each lane has a value, and then each value is sent and one is given.
fn time_merge<R: Clock, M: Tokens + Lanes<Numbered>>(
    rt: &R,
    timing: Timing,
    values: usize,
    merge: &mut MergePassage<M>,
) -> Result<Best, Fault> {
    for _ in 0..LANES {
        let _ = merge.send();
    }
    let mut best = Best::new();
    for _ in 0..timing.runs {
        let begun = now(rt)?;
        let given = merge_each(values, merge);
        best.take_in(rt, begun, given)?;
    }
    Ok(best)
}

/// Sends each value, and gives one. How many were given.
fn merge_each<M: Tokens + Lanes<Numbered>>(values: usize, merge: &mut MergePassage<M>) -> usize {
    let mut given = 0usize;
    for _ in 0..values {
        if merge.send() && merge.get() {
            given = given.saturating_add(1);
        }
    }
    given
}
