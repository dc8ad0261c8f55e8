//! What comes out of lanes that are merged. The helpers go over any lanes; the tests here run them on those of one thread.
use crate::tests::least::Least;
use crate::tests::merge::{MERGING, Merge};
use crate::tests::plain_merge::PlainMerge;
use morsel_meaning::Fault;
use morsel_merge::Got;
use morsel_prims::{Lanes, PlainBoard, PlainLanes, Poll, Tokens};
use rand_core::{Rng, SeedableRng};
use rand_xoshiro::Xoshiro256PlusPlus;
use std::alloc::Global;
use std::cmp::Reverse;
use std::test::Fail;

/// What is tried with a linearizer.
#[derive(Clone, Copy)]
pub enum MergePlan {
    /// Two lanes give their numbers in order, and the end.
    ByNumber,
    /// So do two that are filled while they give.
    InTurn,
    /// Two lanes, of which the second is cut after so many of its numbers, give no end.
    Cut(usize),
    /// Nor do two without a number.
    CutAtOnce,
    /// Who gets is woken by a number and by the end.
    Wakes,
    /// The list of calls that this seed draws answers over so many lanes as in plain words.
    Drawn(u64, u32),
}

impl MergePlan {
    /// How many lanes there are.
    fn lanes(self) -> u32 {
        match self {
            MergePlan::Drawn(_, lanes) => lanes,
            _ => 2,
        }
    }

    /// The room of each.
    fn room(self) -> u32 {
        match self {
            MergePlan::Drawn(..) => 64,
            _ => 4,
        }
    }

    /// Whether it holds of these lanes.
    fn holds<M: Tokens + Lanes<Least>>(self, alloc: Global, merge: &mut Merge<M>) -> bool {
        match self {
            MergePlan::ByNumber => merges_by_number(merge),
            MergePlan::InTurn => merges_in_turn(merge),
            MergePlan::Cut(count) => gives_no_end(merge, count),
            MergePlan::CutAtOnce => cut_at_once_gives_no_end(merge),
            MergePlan::Wakes => wakes_who_gets(merge),
            MergePlan::Drawn(seed, lanes) => agrees(alloc, merge, seed, lanes),
        }
    }
}

/// Whether what is planned holds of lanes on this board.
pub fn merges_so<M: Tokens + Lanes<Least>>(
    alloc: Global,
    board: M::Board,
    plan: MergePlan,
) -> Result<bool, Fault> {
    let lanes = plan.lanes().clamp(1, 8);
    let room = plan.room().clamp(1, 64);
    let mut merge: Merge<M> = Merge::new(alloc, board, lanes, room)?;
    Ok(plan.holds(alloc, &mut merge))
}

/// Whether it holds of lanes of one thread.
fn plain_lanes_merge_so(alloc: Global, plan: MergePlan) -> Result<bool, Fault> {
    merges_so::<PlainLanes<Least>>(alloc, PlainBoard::new(alloc)?, plan)
}

/// What is given next.
pub fn item(number: u64) -> Poll<Got<Least>> {
    Poll::Ready(Got::Item(Least(Reverse(number))))
}

/// Whether what is given next is this, and again.
fn ends_with<M: Tokens + Lanes<Least>>(merge: &mut Merge<M>, last: Got<Least>) -> bool {
    [merge.get(), merge.get()] == [Poll::Ready(last); 2]
}

/// Whether 1 and 4 go through one of two lanes, and these numbers through the other.
fn fill<M: Tokens + Lanes<Least>>(merge: &mut Merge<M>, numbers: &[u64]) -> bool {
    let mut all = [merge.insert(0, 1), merge.insert(0, 4)] == [true, true];
    for number in numbers {
        all = merge.insert(1, *number) && all;
    }
    all
}

/// Whether two lanes give their numbers in order, and the end.
fn merges_by_number<M: Tokens + Lanes<Least>>(merge: &mut Merge<M>) -> bool {
    let filled = fill(merge, &[2, 3]);
    merge.finish();
    merge.finish();
    let given = [merge.get(), merge.get(), merge.get(), merge.get()];
    ends_with(merge, Got::End) && filled && given == [item(1), item(2), item(3), item(4)]
}

/// Whether two lanes that have 1 and 2 give 1, and then nothing.
fn gives_the_first<M: Tokens + Lanes<Least>>(merge: &mut Merge<M>) -> bool {
    let sent = [merge.insert(0, 1), merge.insert(1, 2)];
    let got = [merge.get(), merge.get()];
    let woken = merge.woken();
    sent == [true, true] && got == [item(1), Poll::Pending] && woken.is_none()
}

/// Whether who gets is then woken by 4, gets 2, and 3 once that is sent too.
fn gives_the_next<M: Tokens + Lanes<Least>>(merge: &mut Merge<M>) -> bool {
    let sent = merge.insert(0, 4);
    let woken = merge.woken();
    let got = merge.get();
    let then_sent = merge.insert(1, 3);
    let then_got = merge.get();
    sent && woken == Some(MERGING) && got == item(2) && then_sent && then_got == item(3)
}

/// Whether two lanes that are filled while they give, give their numbers in order, and the end.
fn merges_in_turn<M: Tokens + Lanes<Least>>(merge: &mut Merge<M>) -> bool {
    let first = gives_the_first(merge);
    let next = gives_the_next(merge);
    merge.finish();
    merge.finish();
    let last = merge.get();
    ends_with(merge, Got::End) && first && next && last == item(4)
}

/// How many numbers are given, at most 16, and what is answered then.
fn given<M: Tokens + Lanes<Least>>(merge: &mut Merge<M>) -> (usize, Poll<Got<Least>>) {
    for count in 0..16 {
        let got = merge.get();
        if !matches!(got, Poll::Ready(Got::Item(_))) {
            return (count, got);
        }
    }
    (16, Poll::Pending)
}

/// Whether two lanes, of which the second is cut after so many of its numbers, give at most one more, and no end.
fn gives_no_end<M: Tokens + Lanes<Least>>(merge: &mut Merge<M>, count: usize) -> bool {
    let filled = fill(merge, &[2, 3][..count.min(2)]);
    merge.cut();
    merge.finish();
    let (given, last) = given(merge);
    ends_with(merge, Got::Cut)
        && filled
        && last == Poll::Ready(Got::Cut)
        && given <= count.min(2) + 1
}

/// Whether two lanes, of which the second is cut before any number, give no end.
fn cut_at_once_gives_no_end<M: Tokens + Lanes<Least>>(merge: &mut Merge<M>) -> bool {
    merge.cut();
    merge.finish();
    ends_with(merge, Got::Cut)
}

/// Whether who gets in vain is woken where the other lane has a number too, and gets that.
fn is_woken_by_a_number<M: Tokens + Lanes<Least>>(merge: &mut Merge<M>) -> bool {
    let first = merge.insert(0, 7);
    let got = merge.get();
    let before = merge.woken();
    let second = merge.insert(1, 5);
    let woken = merge.woken();
    let then = merge.get();
    let sent = first && second;
    let waited = got == Poll::Pending && before.is_none();
    sent && waited && woken == Some(MERGING) && then == item(5)
}

/// Whether who gets in vain is woken where the other lane is finished, and gets what is left.
fn is_woken_by_the_end<M: Tokens + Lanes<Least>>(merge: &mut Merge<M>) -> bool {
    let got = merge.get();
    merge.finish();
    let woken = merge.woken();
    let then = merge.get();
    got == Poll::Pending && woken == Some(MERGING) && then == item(7)
}

/// Whether who gets is woken by both.
fn wakes_who_gets<M: Tokens + Lanes<Least>>(merge: &mut Merge<M>) -> bool {
    let by_a_number = is_woken_by_a_number(merge);
    is_woken_by_the_end(merge) && by_a_number
}

/// Whether a call that was drawn answers as in plain words.
fn call_agrees<M: Tokens + Lanes<Least>>(
    merge: &mut Merge<M>,
    plain: &mut PlainMerge,
    number: u64,
    call: u32,
    lane: usize,
) -> bool {
    match call {
        0 => {
            merge.finish();
            plain.finish();
            true
        }
        1..8 => merge.insert(lane, number) == plain.insert(lane, number),
        _ => merge.get() == plain.get(),
    }
}

/// Whether the calls that this seed draws answer as in plain words.
fn calls_agree<M: Tokens + Lanes<Least>>(
    merge: &mut Merge<M>,
    plain: &mut PlainMerge,
    seed: u64,
    lanes: u32,
) -> bool {
    let mut rng = Xoshiro256PlusPlus::seed_from_u64(seed);
    let lanes = lanes.clamp(1, 8);
    let mut all = true;
    for number in 0..48 {
        let drawn = rng.next_u32();
        let lane = (drawn / 16 % lanes) as usize;
        all = call_agrees(merge, plain, number, drawn % 16, lane) && all;
    }
    all
}

/// Whether the list of calls that this seed draws answers over these lanes as in plain words.
fn agrees<M: Tokens + Lanes<Least>>(
    alloc: Global,
    merge: &mut Merge<M>,
    seed: u64,
    lanes: u32,
) -> bool {
    let mut plain = PlainMerge::new(alloc, lanes.clamp(1, 8) as usize);
    calls_agree(merge, &mut plain, seed, lanes)
}

#[test]
fn two_lanes_are_merged_by_number(rt: HostRuntime) -> Result<(), Fail> {
    assert!(rt; plain_lanes_merge_so(rt.alloc(), MergePlan::ByNumber)?);
    Ok(())
}

#[test]
fn a_lane_that_is_cut_gives_no_end(rt: HostRuntime) -> Result<(), Fail> {
    for count in 0..3 {
        let plan = MergePlan::Cut(count);
        assert!(rt; plain_lanes_merge_so(rt.alloc(), plan)?, "after {count}");
    }
    Ok(())
}

#[test]
fn who_gets_is_woken_by_a_number_and_by_the_end(rt: HostRuntime) -> Result<(), Fail> {
    assert!(rt; plain_lanes_merge_so(rt.alloc(), MergePlan::Wakes)?);
    Ok(())
}

#[test]
fn lanes_are_merged_as_in_plain_words(rt: HostRuntime) -> Result<(), Fail> {
    for seed in 0..500 {
        for lanes in [1, 2, 4] {
            let plan = MergePlan::Drawn(seed, lanes);
            assert!(rt;
                plain_lanes_merge_so(rt.alloc(), plan)?,
                "seed {seed}, {lanes} lanes"
            );
        }
    }
    Ok(())
}
