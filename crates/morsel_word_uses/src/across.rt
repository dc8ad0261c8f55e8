//! Two threads that hand numbers through one connector. Each parks while the lane is not ready for it.
ghost use Rattle.std.specs.Prelude.{◌≡◌};

use crate::number::Crossing;
use morsel_meaning::{Fault, TaskNo};
use morsel_prims::{Cx, Ended, LaneReceiver, LaneSender, Poll, Wakes};
use morsel_word_lanes::{Receiver, Sender, connector};
use std::alloc::Global;
use std::sync::Wait;
use std::thread;
use std::thread::{Parker, Threads};

/// How often an end is tried before its thread parks.
const TRIES: u32 = 200;

/// What the receiving thread tells.
#[derive(Clone, Copy, Debug, Drop, PartialEq, Eq)]
pub struct Handover {
    /// How many numbers came.
    pub count: u64,
    /// Whether each was the one that comes next, from 0.
    pub in_order: bool,
    /// Whether the lane ended whole.
    pub whole: bool,
}

/// The threads' parkers, by the number of their task: 0 sends, and 1 receives.
#[derive(Drop)]
struct Parkers {
    sending: Parker,
    receiving: Parker,
}

/// Wakes each thread whose task was made ready.
fn wake_all(parkers: &Parkers, cx: &mut Cx<()>) {
    for _ in 0..2 {
        match cx.wakes.pop() {
            Some(TaskNo(0)) => parkers.sending.unpark(),
            Some(_) => parkers.receiving.unpark(),
            None => return,
        }
    }
}

/// Sends a number, and parks while the lane is full. Whether it was sent.
fn send_one<R: Wait>(
    rt: &R,
    parkers: &Parkers,
    cx: &mut Cx<()>,
    sender: &mut Sender<Crossing>,
    number: u64,
) -> bool {
    for _ in 0..TRIES {
        if sender.try_send(cx, Crossing(number)).is_ok() {
            wake_all(parkers, cx);
            return true;
        }
    }
    let mut held = Some(Crossing(number));
    for _ in rt.forever() {
        if held.is_none() {
            return true;
        }
        let answer = sender.poll_send(cx, &mut held);
        wake_all(parkers, cx);
        match answer {
            Poll::Ready(sent) => return sent.is_ok(),
            Poll::Pending => parkers.sending.park(rt),
        }
    }
    unreachable!()
}

/// Sends the numbers below `count` in order, and finishes the lane; or cuts it where the receiver has closed.
fn send_all<R: Wait>(
    rt: &R,
    parkers: &Parkers,
    mut cx: Cx<()>,
    mut sender: Sender<Crossing>,
    count: u64,
) {
    for number in 0..count {
        if !send_one(rt, parkers, &mut cx, &mut sender, number) {
            sender.cut(&mut cx);
            wake_all(parkers, &mut cx);
            return;
        }
    }
    let _ = sender.finish(&mut cx);
    wake_all(parkers, &mut cx);
}

/// Takes the next number, and parks while there is none.
fn take_one<R: Wait>(
    rt: &R,
    parkers: &Parkers,
    cx: &mut Cx<()>,
    receiver: &mut Receiver<Crossing>,
) -> Result<u64, Ended> {
    for _ in 0..TRIES {
        if let Ok(Crossing(number)) = receiver.try_recv(cx) {
            wake_all(parkers, cx);
            return Ok(number);
        }
    }
    for _ in rt.forever() {
        let answer = receiver.poll_recv(cx);
        wake_all(parkers, cx);
        match answer {
            Poll::Ready(Ok(Crossing(number))) => return Ok(number),
            Poll::Ready(Err(end)) => return Err(end),
            Poll::Pending => parkers.receiving.park(rt),
        }
    }
    unreachable!()
}

/// Takes numbers until the lane ends.
fn take_all<R: Wait>(
    rt: &R,
    parkers: &Parkers,
    mut cx: Cx<()>,
    mut receiver: Receiver<Crossing>,
) -> Handover {
    let mut told = Handover {
        count: 0,
        in_order: true,
        whole: false,
    };
    for expected in 0..u64::MAX {
        match take_one(rt, parkers, &mut cx, &mut receiver) {
            Ok(number) => {
                told.in_order = told.in_order && number == expected;
                told.count = expected + 1;
            }
            Err(end) => {
                told.whole = end == Ended::Whole;
                break;
            }
        }
    }
    told
}

/// A task of two, which wakes the other one.
fn cx_of(alloc: Global, me: u32) -> Result<Cx<()>, Fault> {
    Ok(Cx {
        me: TaskNo(me),
        wakes: Wakes::new(alloc, 2)?,
        board: (),
    })
}

/// Hands the numbers below `count` from one thread to another.
pub fn hand_over<R: Threads + Wait + Sync>(
    rt: &R,
    alloc: Global,
    count: u64,
) -> Result<Handover, Fault> {
    let (sender, receiver) = connector(alloc, &())?;
    let parkers = Parkers {
        sending: Parker::new(),
        receiving: Parker::new(),
    };
    let sends = cx_of(alloc, 0)?;
    let takes = cx_of(alloc, 1)?;
    let (_, told) = thread::join(
        rt,
        || send_all(rt, &parkers, sends, sender, count),
        || take_all(rt, &parkers, takes, receiver),
    );
    Ok(told)
}
