//! Lanes of one thread, and a connector within one thread: a value that is sent and taken at once, and values that are
//! sent as far as there is room and then taken.
ghost use Rattle.std.specs.Prelude.{◌≡◌};

use morsel_meaning::{Fault, TaskNo};
use morsel_prims::{
    Cx, LaneReceiver, LaneSender, Lanes, Message, PlainBoard, PlainLanes, Tokens, Wakes,
};
use morsel_timing::{Best, Timing, now, tell};
use morsel_word_lanes::WordLanes;
use std::alloc::Global;
use std::mem::drop;
use std::rt::Clock;

/// For how many values a lane has room.
const ROOM: u32 = 64;

/// What goes through.
#[derive(Clone, Copy, Debug, Drop)]
pub struct Carried(pub u64);

impl Message for Carried {
    ghost use Rattle.std.specs.Prelude.{⊤};

    type Job = ();

    ghost suits = { λ job item. ⊤ };
}

/// A lane with its two ends.
#[derive(Drop)]
struct Passage<L: Tokens + Lanes<Carried>> {
    cx: Cx<L::Board>,
    sender: L::Sender,
    receiver: L::Receiver,
    ghost sender_home: { L.Sender.home sender ≡ (L.Board.id cx.board).lane_table },
    ghost receiver_home: { L.Receiver.home receiver ≡ (L.Board.id cx.board).lane_table },
}

impl<L: Tokens + Lanes<Carried>> Passage<L> {
    /// A lane on this board.
    fn new(alloc: Global, board: L::Board) -> Result<Passage<L>, Fault> {
        let mut cx = Cx {
            me: TaskNo(1),
            wakes: Wakes::new(alloc, 2)?,
            board,
        };
        let (sender, receiver) = L::lane(alloc, &mut cx.board, ROOM, &())?;
        Ok(Passage {
            cx,
            sender,
            receiver,
        })
    }

    /// Sends a value. Whether it was taken in.
    fn send(&mut self, value: u64) -> bool {
        self.sender.try_send(&mut self.cx, Carried(value)).is_ok()
    }

    /// Takes a value, if there is one. Whether there was.
    fn take(&mut self) -> bool {
        self.receiver.try_recv(&mut self.cx).is_ok()
    }
}

/// Runs each part on so many values.
pub fn run<R: Clock + Print + AllocGlobal>(
    rt: &R,
    timing: Timing,
    values: usize,
) -> Result<(), Fault> {
    run_lane(rt, timing, values)?;
    let connector: Passage<WordLanes> = Passage::new(rt.alloc(), ())?;
    tell_connector(rt, timing, values, connector)
}

/// Runs the parts on a lane of one thread.
fn run_lane<R: Clock + Print + AllocGlobal>(
    rt: &R,
    timing: Timing,
    values: usize,
) -> Result<(), Fault> {
    let board = PlainBoard::new(rt.alloc())?;
    let passage: Passage<PlainLanes<Carried>> = Passage::new(rt.alloc(), board)?;
    tell_lane(rt, timing, values, passage)
}

/// Tells how values go through a lane, one by one and many at once.
fn tell_lane<R: Clock + Print, L: Tokens + Lanes<Carried>>(
    rt: &R,
    timing: Timing,
    values: usize,
    mut passage: Passage<L>,
) -> Result<(), Fault> {
    tell_both(rt, timing, values, &mut passage)
}

/// The same of a lane that is lent.
fn tell_both<R: Clock + Print, L: Tokens + Lanes<Carried>>(
    rt: &R,
    timing: Timing,
    values: usize,
    passage: &mut Passage<L>,
) -> Result<(), Fault> {
    let one = time_one(rt, timing, values, passage)?;
    tell(rt, timing, "one value through a lane, values", one, values)?;
    let many = time_many(rt, timing, values, passage)?;
    tell(rt, timing, "64 values through a lane, values", many, values)
}

/// Tells how values go through a connector, one by one.
fn tell_connector<R: Clock + Print, L: Tokens + Lanes<Carried>>(
    rt: &R,
    timing: Timing,
    values: usize,
    mut passage: Passage<L>,
) -> Result<(), Fault> {
    let word = time_one(rt, timing, values, &mut passage);
    drop(passage);
    tell(
        rt,
        timing,
        "one value through a connector, values",
        word?,
        values,
    )
}

/// Each value is sent and then taken.
fn time_one<R: Clock, L: Tokens + Lanes<Carried>>(
    rt: &R,
    timing: Timing,
    values: usize,
    passage: &mut Passage<L>,
) -> Result<Best, Fault> {
    let mut best = Best::new();
    for _ in 0..timing.runs {
        let begun = now(rt)?;
        let passed = pass_each(values, passage);
        best.take_in(rt, begun, passed)?;
    }
    Ok(best)
}

/// Sends each value and takes it. How many came through.
fn pass_each<L: Tokens + Lanes<Carried>>(values: usize, passage: &mut Passage<L>) -> usize {
    let mut passed = 0usize;
    for value in 0..values {
        if passage.send(value as u64) && passage.take() {
            passed = passed.saturating_add(1);
        }
    }
    passed
}

/// Values are sent until the lane is full, and then taken.
fn time_many<R: Clock, L: Tokens + Lanes<Carried>>(
    rt: &R,
    timing: Timing,
    values: usize,
    passage: &mut Passage<L>,
) -> Result<Best, Fault> {
    let mut best = Best::new();
    for _ in 0..timing.runs {
        let begun = now(rt)?;
        let mut passed = 0usize;
        for _ in 0..values / ROOM as usize {
            passed = passed.saturating_add(pass_many(passage));
        }
        best.take_in(rt, begun, passed)?;
    }
    Ok(best)
}

/// Fills the lane and empties it. How many values came through.
fn pass_many<L: Tokens + Lanes<Carried>>(passage: &mut Passage<L>) -> usize {
    let mut passed = 0usize;
    for value in 0..ROOM {
        let _ = passage.send(u64::from(value));
    }
    for _ in 0..ROOM {
        if passage.take() {
            passed = passed.saturating_add(1);
        }
    }
    passed
}
