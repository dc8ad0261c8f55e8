//! Which of several lanes a value is offered to first, and then all of them.
ghost use Rattle.std.specs.Prelude.{◌≡◌, ◌⊎◌, ◌<◌, ◌≤◌, All, [], ◌∷◌, ◌++◌, length, map, OnOk, OnErr, IfErr};
ghost use Rattle.morsel_prims.specs.Polled.{IfClosed, IfFull, refused_value};
ghost use Rattle.morsel_prims.specs.Waiting.{KeepsWaiting};
ghost use Rattle.morsel_prims.specs.Woken.{AreFoundWoken, KeepsWakes};
ghost use Rattle.morsel_merge.specs.Ends.{sender_seen};
ghost use Rattle.morsel_merge.specs.Spread.{AreFull, AreLookedAt, AreSent, EachLane, IsFoundLast, IsLook, IsLooked, SomeLane, sent_values};

use crate::log::Log;
use crate::spread::{Sent, offer, pass_from, value_of};
use morsel_prims::{Board, Cx, LaneSender, Message, SendError};
use rand_core::Rng;
use std::snapshot::Snapshot;

/// How many lanes are drawn beside the one that is next in turn.
const DRAWN: u32 = 4;

/// At least as many values as one of the lanes holds.
fn look<T: Message, B: Board, S: LaneSender<T, B>>(
    lanes: &mut [S],
    lane: usize,
    cx: &mut Cx<B>,
) -> u32
    requires within { lane < length lanes.old }
    requires home { All (λ end. S.home end ≡ (B.id cx.old.board).lane_table) lanes.old }
    ensures home { All (λ end. S.home end ≡ (B.id cx.old.board).lane_table) lanes.new }
    ensures looked { AreLookedAt (sender_seen S.home S.lane S.room S.job S.wait_places) S.sent (IsLook S.found_held S.found_full S.found_closed) lanes.old lanes.new }
    ensures unchanged { cx.new.board ≡ cx.old.board }
    ensures same_task { cx.new.me ≡ cx.old.me }
    ensures wakes { KeepsWakes cx.old.wakes cx.new.wakes }
{
    lanes[lane].len_bound(cx)
}

/// The lane that is next in turn, or a shorter one among some that are drawn.
fn choose<T: Message, B: Board, S: LaneSender<T, B>, R: Rng>(
    lanes: &mut [S],
    next: usize,
    rng: &mut R,
    cx: &mut Cx<B>,
) -> usize
    requires within { next < length lanes.old }
    requires home { All (λ end. S.home end ≡ (B.id cx.old.board).lane_table) lanes.old }
    ensures within { result < length lanes.new }
    ensures home { All (λ end. S.home end ≡ (B.id cx.old.board).lane_table) lanes.new }
    ensures looked { AreLookedAt (sender_seen S.home S.lane S.room S.job S.wait_places) S.sent (IsLook S.found_held S.found_full S.found_closed) lanes.old lanes.new }
    ensures unchanged { cx.new.board ≡ cx.old.board }
    ensures same_task { cx.new.me ≡ cx.old.me }
    ensures wakes { KeepsWakes cx.old.wakes cx.new.wakes }
{
    let count = lanes.len();
    let held = look(lanes, next, cx);
    let mut best = (next, held);
    for _turn in 0..DRAWN {
        let lane = drawn(rng, count);
        let held = look(lanes, lane, cx);
        best = shorter(best, (lane, held));
    }
    best.0
}

/// A place below `count` that is drawn.
// By a product, since a division takes many times as long.
#[inline(always)]
fn drawn<R: Rng>(rng: &mut R, count: usize) -> usize
    requires { 0 < count }
    ensures { result < count }
{
    let place = (u64::from(rng.next_u32()).wrapping_mul(count as u64) >> 32) as usize;
    if place < count { place } else { 0 }
}

/// Of two lanes with what they hold, the second where it holds less.
fn shorter(first: (usize, u32), second: (usize, u32)) -> (usize, u32)
    ensures one { (result.0 ≡ first.0) ⊎ (result.0 ≡ second.0) }
{
    if second.1 < first.1 { second } else { first }
}

/// Offers a value to the lane that is next in turn, or a shorter one among some that are drawn; and where that refuses
/// it, to all lanes, from one that is drawn on.
pub fn try_lanes<T: Message, B: Board, S: LaneSender<T, B>, R: Rng>(
    lanes: &mut [S],
    log: &mut Log<Sent<T>>,
    job: &Snapshot<T::Job>,
    next: usize,
    rng: &mut R,
    cx: &mut Cx<B>,
    value: T,
) -> Result<(), SendError<T>>
    requires within { next < length lanes.old }
    requires home { All (λ end. S.home end ≡ (B.id cx.old.board).lane_table) lanes.old }
    requires job { All (λ end. S.job end ≡ job.now.value) lanes.old }
    requires suits { T.suits job.now.value value }
    ensures long { length lanes.new ≡ length lanes.old }
    ensures seen { map (sender_seen S.home S.lane S.room S.job S.wait_places) lanes.new ≡ map (sender_seen S.home S.lane S.room S.job S.wait_places) lanes.old }
    ensures same_table { log.new.seat.table_id ≡ log.old.seat.table_id }
    ensures sent { AreSent (map S.sent lanes.old) log.old.seat.me.0 → AreSent (map S.sent lanes.new) log.new.seat.me.0 }
    ensures ok { OnOk result (sent_values log.new.seat.me.0 ≡ sent_values log.old.seat.me.0 ++ value ∷ []) }
    ensures room { OnOk result (SomeLane (IsFoundLast (IsLook S.found_held S.found_full S.found_closed) (S.found_room cx.new.board)) lanes.old lanes.new) }
    ensures woken { OnOk result (AreFoundWoken (λ tasks. SomeLane (IsFoundLast (IsLook S.found_held S.found_full S.found_closed) (λ old new. S.found_waiting cx.old.board old new tasks)) lanes.old lanes.new) cx.new.wakes) }
    ensures back { IfErr result (λ refused. refused_value refused ≡ value) }
    ensures same_log { OnErr result (log.new.seat.me.0 ≡ log.old.seat.me.0) }
    ensures unchanged { OnErr result (cx.new.board ≡ cx.old.board) }
    ensures looked { OnErr result (EachLane (IsLooked (IsLook S.found_held S.found_full S.found_closed)) lanes.old lanes.new) }
    ensures full { IfErr result (λ refused. IfFull refused (AreFull (IsLook S.found_held S.found_full S.found_closed) (S.found_full cx.new.board) (S.found_closed cx.new.board) lanes.old lanes.new)) }
    ensures closed { IfErr result (λ refused. IfClosed refused (EachLane (IsFoundLast (IsLook S.found_held S.found_full S.found_closed) (S.found_closed cx.new.board)) lanes.old lanes.new)) }
    ensures keeps_waiting { KeepsWaiting (B.waits_at cx.old.board) (B.waits_at cx.new.board) cx.new.wakes }
    ensures same_board { B.id cx.new.board ≡ B.id cx.old.board }
    ensures same_task { cx.new.me ≡ cx.old.me }
    ensures wakes { KeepsWakes cx.old.wakes cx.new.wakes }
{
    let lane = choose(lanes, next, rng, cx);
    match offer(&mut lanes[lane], lane, log, cx, value) {
        Ok(()) => Ok(()),
        Err(refused) => {
            let start = drawn(rng, lanes.len());
            pass_from(lanes, log, job, start, cx, value_of(refused))
        }
    }
}
