//! A linearizer with the board that it works on, over any lanes.
ghost use Rattle.std.specs.Prelude.{◌≡◌, ◌≤◌, All, IfOk};

use crate::tests::least::Least;
use morsel_meaning::{Fault, TaskNo};
use morsel_merge::{Got, Inserter, Linearizer};
use morsel_prims::{Cx, Lanes, Poll, Tokens, Wakes};
use std::alloc::Global;
use std::cmp::Reverse;

/// The task that merges.
pub const MERGING: TaskNo = TaskNo(1);

/// The task that inserts.
pub const INSERTING: TaskNo = TaskNo(2);

/// A linearizer with the board that it works on, and the sending ends that are still open, the last lane's last.
#[derive(Drop)]
pub struct Merge<M: Tokens + Lanes<Least>> {
    cx: Cx<M::Board>,
    linearizer: Linearizer<Least, M>,
    inserters: Vec<Inserter<Least, M>>,
    ghost home: { (M.Board.id linearizer.board.value).lane_table ≡ (M.Board.id cx.board).lane_table },
    ghost homes: { All (λ inserter. M.Sender.home inserter.sender ≡ (M.Board.id cx.board).lane_table) inserters.items },
}

impl<M: Tokens + Lanes<Least>> Merge<M> {
    /// So many lanes on this board, with this room each.
    pub fn new(alloc: Global, board: M::Board, lanes: u32, room: u32) -> Result<Merge<M>, Fault>
        requires lanes { (1 ≤ lanes) × (lanes ≤ 32768) }
        requires room { (1 ≤ room) × (room ≤ 65536) }
    {
        let mut cx = Cx {
            me: MERGING,
            wakes: Wakes::new(alloc, 3)?,
            board,
        };
        let (linearizer, inserters) = Linearizer::new(alloc, &mut cx.board, lanes, room, &())?;
        Ok(Merge {
            cx,
            linearizer,
            inserters,
        })
    }

    /// Sends a number through a lane that is open; whether it was sent.
    pub fn insert(&mut self, lane: usize, number: u64) -> bool {
        if self.inserters.len() <= lane {
            return false;
        }
        self.cx.me = INSERTING;
        let mut held = Some(Least(Reverse(number)));
        self.inserters[lane].poll_insert(&mut self.cx, &mut held) == Poll::Ready(Ok(()))
    }

    /// Finishes the last lane that is open.
    pub fn finish(&mut self) {
        if let Some(inserter) = self.inserters.pop() {
            inserter.finish(&mut self.cx);
        }
    }

    /// Cuts the last lane that is open.
    pub fn cut(&mut self) {
        if let Some(inserter) = self.inserters.pop() {
            inserter.cut(&mut self.cx);
        }
    }

    /// Gives the next number.
    pub fn get(&mut self) -> Poll<Got<Least>> {
        self.cx.me = MERGING;
        self.linearizer.poll_get(&mut self.cx)
    }

    /// One of the tasks that were made ready.
    pub fn woken(&mut self) -> Option<TaskNo> {
        self.cx.wakes.pop()
    }
}
