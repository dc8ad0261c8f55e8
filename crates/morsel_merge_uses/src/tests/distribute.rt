//! A distributor with the board that it works on, over any lanes.
ghost use Rattle.std.specs.Prelude.{◌≡◌, ◌≤◌, All};

use crate::tests::least::Least;
use morsel_meaning::{Fault, TaskNo};
use morsel_merge::{DistSender, distributor_channel};
use morsel_prims::{
    Cx, LaneReceiver, LaneSender, Lanes, Poll, RecvError, SendError, Tokens, Wakes,
};
use rand_core::SeedableRng;
use rand_xoshiro::Xoshiro256PlusPlus;
use std::alloc::Global;
use std::cmp::Reverse;

/// The task that sends.
pub const SENDING: TaskNo = TaskNo(1);

/// The task that takes.
pub const TAKING: TaskNo = TaskNo(2);

/// A distributor with the board that it works on, and the receiving ends that are still open, the last lane's last.
#[derive(Drop)]
pub struct Distribute<M: Tokens + Lanes<Least>> {
    cx: Cx<M::Board>,
    sender: DistSender<Least, M, Xoshiro256PlusPlus>,
    receivers: Vec<M::Receiver>,
    ghost home: { (M.Board.id sender.board.value).lane_table ≡ (M.Board.id cx.board).lane_table },
    ghost homes: { All (λ receiver. M.Receiver.home receiver ≡ (M.Board.id cx.board).lane_table) receivers.items },
}

impl<M: Tokens + Lanes<Least>> Distribute<M> {
    /// So many lanes on this board, with this room each. The seed says which lanes are drawn.
    pub fn new(
        alloc: Global,
        board: M::Board,
        lanes: u32,
        room: u32,
        seed: u64,
    ) -> Result<Distribute<M>, Fault>
        requires lanes { (1 ≤ lanes) × (lanes ≤ 32768) }
        requires room { (1 ≤ room) × (room ≤ 65536) }
    {
        let mut cx = Cx {
            me: SENDING,
            wakes: Wakes::new(alloc, 3)?,
            board,
        };
        let rng = Xoshiro256PlusPlus::seed_from_u64(seed);
        let (sender, receivers) = distributor_channel(alloc, &mut cx.board, lanes, room, &(), rng)?;
        Ok(Distribute {
            cx,
            sender,
            receivers,
        })
    }

    /// Sends a number.
    pub fn send(&mut self, number: u64) -> Result<(), SendError<Least>> {
        self.cx.me = SENDING;
        self.sender.try_send(&mut self.cx, Least(Reverse(number)))
    }

    /// Sends a number, or waits for room.
    pub fn poll(&mut self, number: u64) -> Poll<Result<(), Least>> {
        self.cx.me = SENDING;
        let mut held = Some(Least(Reverse(number)));
        self.sender.poll_send(&mut self.cx, &mut held)
    }

    /// At least as many numbers as the lanes hold.
    pub fn held(&mut self) -> u32 {
        self.sender.len_bound(&mut self.cx)
    }

    /// Takes a number from a lane whose receiver is open.
    pub fn take(&mut self, lane: usize) -> Option<Result<u64, RecvError>> {
        if self.receivers.len() <= lane {
            return None;
        }
        self.cx.me = TAKING;
        Some(number_of(self.receivers[lane].try_recv(&mut self.cx)))
    }

    /// Closes the receiver of the last lane whose receiver is open.
    pub fn close(&mut self) {
        if let Some(receiver) = self.receivers.pop() {
            receiver.cut(&mut self.cx);
        }
    }

    /// One of the tasks that were made ready.
    pub fn woken(&mut self) -> Option<TaskNo> {
        self.cx.wakes.pop()
    }

    /// Finishes all lanes.
    pub fn finish(self) -> Rest<M> {
        let Distribute {
            mut cx,
            sender,
            receivers,
        } = self;
        let receipts = sender.finish(&mut cx).receipts().len();
        Rest {
            cx,
            receivers,
            receipts,
        }
    }

    /// Cuts all lanes.
    pub fn cut(self) -> Rest<M> {
        let Distribute {
            mut cx,
            sender,
            receivers,
        } = self;
        sender.cut(&mut cx);
        Rest {
            cx,
            receivers,
            receipts: 0,
        }
    }
}

/// The lanes of a distributor whose sender has ended.
#[derive(Drop)]
pub struct Rest<M: Tokens + Lanes<Least>> {
    cx: Cx<M::Board>,
    receivers: Vec<M::Receiver>,
    receipts: usize,
    ghost homes: { All (λ receiver. M.Receiver.home receiver ≡ (M.Board.id cx.board).lane_table) receivers.items },
}

impl<M: Tokens + Lanes<Least>> Rest<M> {
    /// How many lanes told what was sent through them.
    pub fn receipts(&self) -> usize {
        self.receipts
    }

    /// Takes a number from a lane whose receiver is open.
    pub fn take(&mut self, lane: usize) -> Option<Result<u64, RecvError>> {
        if self.receivers.len() <= lane {
            return None;
        }
        self.cx.me = TAKING;
        Some(number_of(self.receivers[lane].try_recv(&mut self.cx)))
    }
}

/// What was taken, as a number.
fn number_of(taken: Result<Least, RecvError>) -> Result<u64, RecvError> {
    match taken {
        Ok(Least(Reverse(number))) => Ok(number),
        Err(why) => Err(why),
    }
}
