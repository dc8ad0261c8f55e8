//! What goes through a distributor. The helpers go over any lanes; the tests here run them on those of one thread.
use crate::tests::distribute::{Distribute, Rest, SENDING};
use crate::tests::least::Least;
use crate::tests::plain_spread::PlainSpread;
use morsel_meaning::Fault;
use morsel_prims::{Ended, Lanes, PlainBoard, PlainLanes, Poll, RecvError, SendError, Tokens};
use rand_core::{Rng, SeedableRng};
use rand_xoshiro::Xoshiro256PlusPlus;
use std::alloc::Global;
use std::cmp::Reverse;
use std::test::Fail;

/// What is tried with a distributor.
#[derive(Clone, Copy)]
pub enum SpreadPlan {
    /// Two lanes of one place take two numbers, and give one of them each.
    TakeTwo,
    /// A lane that has closed takes no number.
    Closed,
    /// Who waits is woken by this one of three lanes.
    Wakes(usize),
    /// All lanes end as the sender ends.
    Ends(Ended),
    /// A list of calls that is drawn answers over so many lanes as in plain words.
    Drawn(u32),
}

impl SpreadPlan {
    /// How many lanes there are.
    fn lanes(self) -> u32 {
        match self {
            SpreadPlan::TakeTwo | SpreadPlan::Closed => 2,
            SpreadPlan::Wakes(_) | SpreadPlan::Ends(_) => 3,
            SpreadPlan::Drawn(lanes) => lanes,
        }
    }

    /// The room of each.
    fn room(self) -> u32 {
        match self {
            SpreadPlan::Closed | SpreadPlan::Drawn(_) => 2,
            _ => 1,
        }
    }

    /// Whether it holds of these lanes.
    fn holds<M: Tokens + Lanes<Least>>(
        self,
        alloc: Global,
        lanes: Distribute<M>,
        seed: u64,
    ) -> bool {
        match self {
            SpreadPlan::TakeTwo => take_two_numbers(lanes),
            SpreadPlan::Closed => refuse_where_closed(lanes),
            SpreadPlan::Wakes(lane) => are_filled_and_wake(lanes, lane),
            SpreadPlan::Ends(Ended::Whole) => finish_so(lanes),
            SpreadPlan::Ends(Ended::Cut) => cut_so(lanes),
            SpreadPlan::Drawn(count) => agrees(alloc, lanes, seed, count),
        }
    }
}

/// Whether what is planned holds of lanes on this board. The seed says which lanes are drawn.
pub fn spreads_so<M: Tokens + Lanes<Least>>(
    alloc: Global,
    board: M::Board,
    seed: u64,
    plan: SpreadPlan,
) -> Result<bool, Fault> {
    let count = plan.lanes().clamp(1, 8);
    let room = plan.room().clamp(1, 8);
    let lanes: Distribute<M> = Distribute::new(alloc, board, count, room, seed)?;
    Ok(plan.holds(alloc, lanes, seed))
}

/// Whether it holds of lanes of one thread.
fn plain_lanes_spread_so(alloc: Global, seed: u64, plan: SpreadPlan) -> Result<bool, Fault> {
    spreads_so::<PlainLanes<Least>>(alloc, PlainBoard::new(alloc)?, seed, plan)
}

/// The lane is full, and the number comes back.
pub fn full(number: u64) -> Result<(), SendError<Least>> {
    Err(SendError::Full(Least(Reverse(number))))
}

/// All lanes have closed, and the number comes back.
fn closed(number: u64) -> Result<(), SendError<Least>> {
    Err(SendError::Closed(Least(Reverse(number))))
}

/// Whether two lanes with room for one number each hold none, take 1 and 2, hold them, and refuse 3.
fn take_two<M: Tokens + Lanes<Least>>(lanes: &mut Distribute<M>) -> bool {
    let held = lanes.held();
    let sent = [lanes.send(1), lanes.send(2)];
    let then = lanes.held();
    let refused = lanes.send(3);
    held == 0 && sent == [Ok(()), Ok(())] && then == 2 && refused == full(3)
}

/// Whether two lanes give 1 and 2, one of them each, and then nothing.
fn give_two<M: Tokens + Lanes<Least>>(lanes: &mut Distribute<M>) -> bool {
    let given = [lanes.take(0), lanes.take(1)];
    let then = [lanes.take(0), lanes.take(1)];
    let in_order = given == [Some(Ok(1)), Some(Ok(2))];
    let turned = given == [Some(Ok(2)), Some(Ok(1))];
    (in_order || turned) && then == [Some(Err(RecvError::Empty)); 2]
}

/// Whether two lanes with room for one number each take 1 and 2, and give one of them each.
fn take_two_numbers<M: Tokens + Lanes<Least>>(mut lanes: Distribute<M>) -> bool {
    let taken = take_two(&mut lanes);
    let given = give_two(&mut lanes);
    taken && given
}

/// Whether one of two lanes whose other one has closed takes two numbers, and gives the first.
fn the_open_one_takes_two<M: Tokens + Lanes<Least>>(lanes: &mut Distribute<M>) -> bool {
    let sent = [lanes.send(1), lanes.send(2), lanes.send(3)];
    let given = lanes.take(0);
    sent == [Ok(()), Ok(()), full(3)] && given == Some(Ok(1))
}

/// Whether lanes that have all closed hand numbers back.
fn hand_back<M: Tokens + Lanes<Least>>(lanes: &mut Distribute<M>) -> bool {
    let sent = lanes.send(4);
    let polled = lanes.poll(5);
    sent == closed(4) && polled == Poll::Ready(Err(Least(Reverse(5))))
}

/// Whether of two lanes the open one alone takes numbers, and none where both have closed.
fn refuse_where_closed<M: Tokens + Lanes<Least>>(mut lanes: Distribute<M>) -> bool {
    lanes.close();
    let taken = the_open_one_takes_two(&mut lanes);
    lanes.close();
    let back = hand_back(&mut lanes);
    taken && back
}

/// Whether three lanes with room for one number each take three, and who sends a fourth waits.
fn are_filled<M: Tokens + Lanes<Least>>(lanes: &mut Distribute<M>) -> bool {
    let filled = [lanes.poll(0), lanes.poll(1), lanes.poll(2)];
    let then = lanes.poll(3);
    let woken = lanes.woken();
    filled == [Poll::Ready(Ok(())); 3] && then == Poll::Pending && woken.is_none()
}

/// Whether who waits to send is woken where this lane gives a number, and then sends.
fn wake_who_waits<M: Tokens + Lanes<Least>>(lanes: &mut Distribute<M>, lane: usize) -> bool {
    let given = lanes.take(lane);
    let woken = lanes.woken();
    let sent = lanes.poll(3);
    given.is_some() && woken == Some(SENDING) && sent == Poll::Ready(Ok(()))
}

/// Whether three lanes are filled, and this one wakes who waits.
fn are_filled_and_wake<M: Tokens + Lanes<Least>>(mut lanes: Distribute<M>, lane: usize) -> bool {
    let filled = are_filled(&mut lanes);
    let wakes = wake_who_waits(&mut lanes, lane);
    filled && wakes
}

/// Whether three lanes have so many receipts, and each ends so.
fn end_so<M: Tokens + Lanes<Least>>(rest: &mut Rest<M>, receipts: usize, last: RecvError) -> bool {
    let taken = [rest.take(0), rest.take(1), rest.take(2)];
    rest.receipts() == receipts && taken == [Some(Err(last)); 3]
}

/// Whether three lanes end whole where their sender finishes.
fn finish_so<M: Tokens + Lanes<Least>>(lanes: Distribute<M>) -> bool {
    let mut rest = lanes.finish();
    end_so(&mut rest, 3, RecvError::Whole)
}

/// Whether three lanes are cut where their sender cuts.
fn cut_so<M: Tokens + Lanes<Least>>(lanes: Distribute<M>) -> bool {
    let mut rest = lanes.cut();
    end_so(&mut rest, 0, RecvError::Cut)
}

/// Whether a call that was drawn answers as in plain words, and so does what is held.
fn call_agrees<M: Tokens + Lanes<Least>>(
    lanes: &mut Distribute<M>,
    plain: &mut PlainSpread,
    number: u64,
    sends: bool,
    lane: usize,
) -> bool {
    let agrees = if sends {
        plain.sends(number, lanes.send(number))
    } else {
        plain.gives(lane, lanes.take(lane))
    };
    let held = lanes.held();
    agrees && held as usize == plain.held()
}

/// Whether the calls that this seed draws answer as in plain words.
fn calls_agree<M: Tokens + Lanes<Least>>(
    lanes: &mut Distribute<M>,
    plain: &mut PlainSpread,
    seed: u64,
    count: u32,
) -> bool {
    let mut rng = Xoshiro256PlusPlus::seed_from_u64(seed);
    let count = count.clamp(1, 8);
    let mut all = true;
    for number in 0..64 {
        let drawn = rng.next_u32();
        let lane = (drawn / 16 % count) as usize;
        all = call_agrees(lanes, plain, number, drawn % 16 < 9, lane) && all;
    }
    all
}

/// Whether this lane gives what is left in it as in plain words, at most two numbers, and then ends whole.
fn gives_rest<M: Tokens + Lanes<Least>>(
    rest: &mut Rest<M>,
    plain: &mut PlainSpread,
    lane: usize,
) -> bool {
    let first = plain.gives(lane, rest.take(lane));
    let second = plain.gives(lane, rest.take(lane));
    first && second && rest.take(lane) == Some(Err(RecvError::Whole))
}

/// Whether all lanes do so, and nothing is left then.
fn give_rest<M: Tokens + Lanes<Least>>(
    rest: &mut Rest<M>,
    plain: &mut PlainSpread,
    count: u32,
) -> bool {
    let mut all = true;
    for lane in 0..count.clamp(1, 8) {
        all = gives_rest(rest, plain, lane as usize) && all;
    }
    all && plain.held() == 0
}

/// Whether these lanes answer as in plain words to the calls that this seed draws, and then give the rest.
fn agree_with<M: Tokens + Lanes<Least>>(
    mut lanes: Distribute<M>,
    plain: &mut PlainSpread,
    seed: u64,
    count: u32,
) -> bool {
    let called = calls_agree(&mut lanes, plain, seed, count);
    let mut rest = lanes.finish();
    give_rest(&mut rest, plain, count) && called
}

/// Whether the list of calls that this seed draws answers over so many lanes as in plain words.
fn agrees<M: Tokens + Lanes<Least>>(
    alloc: Global,
    lanes: Distribute<M>,
    seed: u64,
    count: u32,
) -> bool {
    let mut plain = PlainSpread::new(alloc, count.clamp(1, 8) as usize * 2);
    agree_with(lanes, &mut plain, seed, count)
}

#[test]
fn two_lanes_of_one_place_take_two_numbers(rt: HostRuntime) -> Result<(), Fail> {
    for seed in 0..16 {
        let so = plain_lanes_spread_so(rt.alloc(), seed, SpreadPlan::TakeTwo)?;
        assert!(rt; so, "seed {seed}");
    }
    Ok(())
}

#[test]
fn a_lane_that_has_closed_takes_no_number(rt: HostRuntime) -> Result<(), Fail> {
    for seed in 0..16 {
        let so = plain_lanes_spread_so(rt.alloc(), seed, SpreadPlan::Closed)?;
        assert!(rt; so, "seed {seed}");
    }
    Ok(())
}

#[test]
fn who_waits_is_woken_by_any_lane(rt: HostRuntime) -> Result<(), Fail> {
    for seed in 0..16 {
        for lane in 0..3 {
            let so = plain_lanes_spread_so(rt.alloc(), seed, SpreadPlan::Wakes(lane))?;
            assert!(rt; so, "lane {lane}, seed {seed}");
        }
    }
    Ok(())
}

#[test]
fn all_lanes_end_as_the_sender_ends(rt: HostRuntime) -> Result<(), Fail> {
    for ended in [Ended::Whole, Ended::Cut] {
        let so = plain_lanes_spread_so(rt.alloc(), 7, SpreadPlan::Ends(ended))?;
        assert!(rt; so, "{ended:?}");
    }
    Ok(())
}

#[test]
fn numbers_are_spread_as_in_plain_words(rt: HostRuntime) -> Result<(), Fail> {
    for seed in 0..200 {
        for lanes in [1, 2, 4] {
            let so = plain_lanes_spread_so(rt.alloc(), seed, SpreadPlan::Drawn(lanes))?;
            assert!(rt; so, "seed {seed}, {lanes} lanes");
        }
    }
    Ok(())
}
