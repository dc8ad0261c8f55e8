//! A distributor over four lanes of one thread: some values are sent through it, and then taken from the lanes.
ghost use Rattle.std.specs.Prelude.{◌≡◌, All, length};

use crate::lane::Carried;
use morsel_meaning::{Fault, TaskNo};
use morsel_merge::{DistSender, distributor_channel};
use morsel_prims::{Cx, LaneReceiver, LaneSender, Lanes, PlainBoard, PlainLanes, Tokens, Wakes};
use morsel_timing::{Best, Timing, now, tell};
use rand_core::SeedableRng;
use rand_xoshiro::Xoshiro256PlusPlus;
use std::alloc::Global;
use std::mem::drop;
use std::rt::Clock;

/// Over how many lanes values are spread.
const LANES: u32 = 4;

/// For how many values a lane has room.
const ROOM: u32 = 4;

/// How many values are sent before they are taken.
const BATCH: usize = 8;

/// A distributor with its lanes and their board.
#[derive(Drop)]
struct SpreadPassage<M: Tokens + Lanes<Carried>> {
    cx: Cx<M::Board>,
    sender: DistSender<Carried, M, Xoshiro256PlusPlus>,
    receivers: Vec<M::Receiver>,
    ghost home: { (M.Board.id sender.board.value).lane_table ≡ (M.Board.id cx.board).lane_table },
    ghost homes: { All (λ receiver. M.Receiver.home receiver ≡ (M.Board.id cx.board).lane_table) receivers.items },
}

impl<M: Tokens + Lanes<Carried>> SpreadPassage<M> {
    /// Lanes on this board.
    fn new(alloc: Global, board: M::Board) -> Result<SpreadPassage<M>, Fault> {
        let mut cx = Cx {
            me: TaskNo(1),
            wakes: Wakes::new(alloc, 2)?,
            board,
        };
        let rng = Xoshiro256PlusPlus::seed_from_u64(1);
        let (sender, receivers) = distributor_channel(alloc, &mut cx.board, LANES, ROOM, &(), rng)?;
        Ok(SpreadPassage {
            cx,
            sender,
            receivers,
        })
    }

    /// Sends a number. Whether a lane took it in.
    fn send(&mut self, number: u64) -> bool {
        self.sender.try_send(&mut self.cx, Carried(number)).is_ok()
    }

    /// Takes a number from a lane, if there is one. Whether there was.
    fn take(&mut self, lane: usize) -> bool {
        lane < self.receivers.len() && self.receivers[lane].try_recv(&mut self.cx).is_ok()
    }
}

/// Runs the part on so many values.
pub fn run<R: Clock + Print + AllocGlobal>(
    rt: &R,
    timing: Timing,
    values: usize,
) -> Result<(), Fault> {
    let board = PlainBoard::new(rt.alloc())?;
    let spread: SpreadPassage<PlainLanes<Carried>> = SpreadPassage::new(rt.alloc(), board)?;
    tell_spread(rt, timing, values, spread)
}

/// Tells how values go through a distributor.
fn tell_spread<R: Clock + Print, M: Tokens + Lanes<Carried>>(
    rt: &R,
    timing: Timing,
    values: usize,
    mut spread: SpreadPassage<M>,
) -> Result<(), Fault> {
    let best = time_spread(rt, timing, values, &mut spread);
    drop(spread);
    tell(
        rt,
        timing,
        "one value through a distributor of 4 lanes, values",
        best?,
        values,
    )
}

/// Values are sent and taken, some at a time.
fn time_spread<R: Clock, M: Tokens + Lanes<Carried>>(
    rt: &R,
    timing: Timing,
    values: usize,
    spread: &mut SpreadPassage<M>,
) -> Result<Best, Fault> {
    let mut best = Best::new();
    for _ in 0..timing.runs {
        let begun = now(rt)?;
        let mut taken = 0usize;
        for _ in 0..values / BATCH {
            taken = taken.saturating_add(spread_batch(spread));
        }
        best.take_in(rt, begun, taken)?;
    }
    Ok(best)
}

/// Sends some values, and takes what each lane has. How many were taken.
fn spread_batch<M: Tokens + Lanes<Carried>>(spread: &mut SpreadPassage<M>) -> usize {
    let mut taken = 0usize;
    for number in 0..BATCH {
        let _ = spread.send(number as u64);
    }
    for lane in 0..LANES as usize {
        for _ in 0..ROOM {
            if !spread.take(lane) {
                break;
            }
            taken = taken.saturating_add(1);
        }
    }
    taken
}
