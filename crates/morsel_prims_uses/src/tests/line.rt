//! A lane with its two ends, over any lanes.
ghost use Rattle.std.specs.Prelude.{◌≡◌, ◌<◌, ◌≤◌, IfOk};
ghost use Rattle.morsel_prims.specs.Polled.{LaneHistory};

use crate::number::Number;
use crate::receipts::settle;
use morsel_meaning::{Fault, TaskNo};
use morsel_prims::{
    Cx, Ended, LaneReceiver, LaneSender, Lanes, Poll, RecvError, SendError, Tokens, Wakes,
};
use std::alloc::Global;

/// Each number in these lanes is below it.
pub const BOUND: u64 = 1000;

/// The task that sends.
pub const SENDING: TaskNo = TaskNo(1);

/// The task that receives.
pub const RECEIVING: TaskNo = TaskNo(2);

/// A lane with its two ends.
#[derive(Drop)]
pub struct Line<L: Tokens + Lanes<Number>> {
    cx: Cx<L::Board>,
    sender: L::Sender,
    receiver: L::Receiver,
    ghost sender_home: { L.Sender.home sender ≡ (L.Board.id cx.board).lane_table },
    ghost receiver_home: { L.Receiver.home receiver ≡ (L.Board.id cx.board).lane_table },
    ghost lane: { L.Sender.lane sender ≡ L.Receiver.lane receiver },
    ghost job: { L.Sender.job sender ≡ 1000 },
}

/// A lane whose sender has closed.
#[derive(Drop)]
pub struct Closed<L: Tokens + Lanes<Number>> {
    cx: Cx<L::Board>,
    receiver: L::Receiver,
    ghost home: { L.Receiver.home receiver ≡ (L.Board.id cx.board).lane_table },
}

/// A lane whose receiver has closed.
#[derive(Drop)]
pub struct Shut<L: Tokens + Lanes<Number>> {
    cx: Cx<L::Board>,
    sender: L::Sender,
    ghost home: { L.Sender.home sender ≡ (L.Board.id cx.board).lane_table },
    ghost job: { L.Sender.job sender ≡ 1000 },
}

impl<L: Tokens + Lanes<Number>> Line<L> {
    /// A lane on this board, with the room that is asked for.
    pub fn new(alloc: Global, board: L::Board, asked: u32) -> Result<Line<L>, Fault>
        requires asked { (1 ≤ asked) × (asked ≤ 65536) }
    {
        let mut cx = Cx {
            me: SENDING,
            wakes: Wakes::new(alloc, 3)?,
            board,
        };
        let (sender, receiver) = L::lane(alloc, &mut cx.board, asked, &BOUND)?;
        Ok(Line {
            cx,
            sender,
            receiver,
        })
    }

    /// Sends a number, if there is room.
    pub fn try_send(&mut self, number: u64) -> Result<(), SendError<Number>>
        requires below { number < 1000 }
    {
        self.sender.try_send(&mut self.cx, Number(number))
    }

    /// Sends a number, or waits for room: the answer, and what is then held.
    pub fn poll_send(&mut self, number: u64) -> (Poll<Result<(), Number>>, Option<Number>)
        requires below { number < 1000 }
    {
        self.cx.me = SENDING;
        let mut held = Some(Number(number));
        let answer = self.sender.poll_send(&mut self.cx, &mut held);
        (answer, held)
    }

    /// At least as many numbers as the lane has.
    pub fn len_bound(&mut self) -> u32 {
        self.sender.len_bound(&mut self.cx)
    }

    /// Takes the next number.
    pub fn try_recv(&mut self) -> Result<Number, RecvError> {
        self.receiver.try_recv(&mut self.cx)
    }

    /// Takes the next number, or waits for one.
    pub fn poll_recv(&mut self) -> Poll<Result<Number, Ended>> {
        self.cx.me = RECEIVING;
        self.receiver.poll_recv(&mut self.cx)
    }

    /// Looks at both lists, and changes nothing.
    pub fn look(&mut self) {
        L::history(&mut self.cx.board, &mut self.sender, &mut self.receiver);
    }

    /// One of the tasks that were made ready.
    pub fn woken(&mut self) -> Option<TaskNo> {
        self.cx.wakes.pop()
    }

    /// The sender finishes.
    pub fn finish(self) -> Closed<L> {
        let Line {
            mut cx,
            sender,
            receiver,
        } = self;
        let _ = sender.finish(&mut cx);
        Closed { cx, receiver }
    }

    /// The sender cuts the lane.
    pub fn cut(self) -> Closed<L> {
        let Line {
            mut cx,
            sender,
            receiver,
        } = self;
        sender.cut(&mut cx);
        Closed { cx, receiver }
    }

    /// The receiver cuts the lane.
    pub fn shut(self) -> Shut<L> {
        let Line {
            mut cx,
            sender,
            receiver,
        } = self;
        receiver.cut(&mut cx);
        Shut { cx, sender }
    }

    /// The sender finishes; where the receiver then finds nothing left, the receipts of both agree.
    pub fn settle(self) -> Result<(), RecvError> {
        let Line {
            mut cx,
            sender,
            receiver,
        } = self;
        let sent = sender.finish(&mut cx);
        settle::<L>(&mut cx, sent, receiver)
    }
}

impl<L: Tokens + Lanes<Number>> Closed<L> {
    /// Takes the next number.
    pub fn try_recv(&mut self) -> Result<Number, RecvError> {
        self.receiver.try_recv(&mut self.cx)
    }

    /// Takes the next number, or waits for one.
    pub fn poll_recv(&mut self) -> Poll<Result<Number, Ended>> {
        self.cx.me = RECEIVING;
        self.receiver.poll_recv(&mut self.cx)
    }

    /// One of the tasks that were made ready.
    pub fn woken(&mut self) -> Option<TaskNo> {
        self.cx.wakes.pop()
    }
}

impl<L: Tokens + Lanes<Number>> Shut<L> {
    /// Sends a number, if there is room.
    pub fn try_send(&mut self, number: u64) -> Result<(), SendError<Number>>
        requires below { number < 1000 }
    {
        self.sender.try_send(&mut self.cx, Number(number))
    }

    /// Sends a number, or waits for room: the answer, and what is then held.
    pub fn poll_send(&mut self, number: u64) -> (Poll<Result<(), Number>>, Option<Number>)
        requires below { number < 1000 }
    {
        self.cx.me = SENDING;
        let mut held = Some(Number(number));
        let answer = self.sender.poll_send(&mut self.cx, &mut held);
        (answer, held)
    }

    /// One of the tasks that were made ready.
    pub fn woken(&mut self) -> Option<TaskNo> {
        self.cx.wakes.pop()
    }
}
