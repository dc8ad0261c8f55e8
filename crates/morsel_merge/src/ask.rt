//! Asks several lanes, one after the other, for one value each.
ghost use Rattle.std.specs.Prelude.{◌≡◌, ◌<◌, ◌≤◌, ℕ, true, false, All, List, None, length, map, slice_index_or};
ghost use Rattle.std.specs.List.{flat_map};
ghost use Rattle.morsel_prims.specs.Waiting.{KeepsOthersWaiting};
ghost use Rattle.morsel_prims.specs.Woken.{KeepsWakes};
ghost use Rattle.morsel_merge.specs.Ends.{receiver_seen};
ghost use Rattle.morsel_merge.specs.Merging.{IsAnswered, IsMerging, SameOutside};
ghost use Rattle.morsel_merge.specs.declared.ask.Cause.TheVariants.{Asked, Cut, Empty};

use morsel_prims::{Board, Cx, Ended, LaneReceiver, Message, Poll};
use std::snapshot::Snapshot;

/// Why no more lanes were asked.
#[derive(Clone, Copy, Debug, PartialEq, Eq)]
pub enum Cause {
    /// Each was asked.
    Asked,
    /// The next lane is empty, and who asks is registered there.
    Empty,
    /// The next lane was cut.
    Cut,
}

/// How far the lanes were asked.
#[derive(Clone, Copy, Debug, PartialEq, Eq)]
pub struct Stop {
    /// The next lane to be asked.
    pub lane: usize,
    /// Why it was not asked, or has to be asked again.
    pub cause: Cause,
}

/// Asks the lanes from `from` on, and before `to`, for one value each.
pub fn ask_lanes<T: Message + Ord, B: Board, R: LaneReceiver<T, B>>(
    receivers: &mut [R],
    held: &mut [Option<T>],
    job: &Snapshot<T::Job>,
    from: usize,
    to: usize,
    cx: &mut Cx<B>,
) -> Stop
    requires within { (from ≤ to) × (to ≤ length receivers.old) }
    requires long { length held.old ≡ length receivers.old }
    requires home { All (λ end. R.home end ≡ (B.id cx.old.board).lane_table) receivers.old }
    requires job { All (λ end. R.job end ≡ job.now.value) receivers.old }
    ensures within { (from ≤ result.lane) × (result.lane ≤ to) }
    ensures long { (length receivers.new ≡ length receivers.old) × (length held.new ≡ length held.old) }
    ensures asked { result.cause ≡ Asked → result.lane ≡ to }
    ensures home { All (λ end. R.home end ≡ (B.id cx.old.board).lane_table) receivers.new }
    ensures job { All (λ end. R.job end ≡ job.now.value) receivers.new }
    ensures seen { map (receiver_seen R.home R.lane R.job R.wait_places) receivers.new ≡ map (receiver_seen R.home R.lane R.job R.wait_places) receivers.old }
    ensures merging { (given : List T) → IsMerging T.cmp (T.suits job.now.value) (map R.taken receivers.old) held.old from to given → IsMerging T.cmp (T.suits job.now.value) (map R.taken receivers.new) held.new result.lane to given }
    ensures whole { (lane : ℕ) (d : R) → from ≤ lane → lane < result.lane → slice_index_or held.new lane None ≡ None → R.is_whole (slice_index_or receivers.new lane d) ≡ true }
    ensures others { SameOutside from to receivers.old receivers.new × SameOutside from to held.old held.new }
    ensures empty { result.cause ≡ Empty → (result.lane < to) × ((d : R) → R.found_empty cx.new.board (slice_index_or receivers.old result.lane d) (slice_index_or receivers.new result.lane d) × R.registered cx.new.board (slice_index_or receivers.old result.lane d) (slice_index_or receivers.new result.lane d) cx.old.me) }
    ensures cut { result.cause ≡ Cut → (result.lane < to) × ((d : R) → (R.is_cut (slice_index_or receivers.new result.lane d) ≡ true) × R.found_ended cx.new.board (slice_index_or receivers.new result.lane d) false) }
    // A cut lane that was seen stays the next one.
    ensures again { from < to → ((d : R) → R.is_cut (slice_index_or receivers.old from d) ≡ true) → (result.lane ≡ from) × (result.cause ≡ Cut) }
    ensures keeps_waiting { KeepsOthersWaiting (flat_map R.wait_places receivers.old) cx.old.me (B.waits_at cx.old.board) (B.waits_at cx.new.board) cx.new.wakes }
    ensures same_board { B.id cx.new.board ≡ B.id cx.old.board }
    ensures same_task { cx.new.me ≡ cx.old.me }
    ensures wakes { KeepsWakes cx.old.wakes cx.new.wakes }
{
    for lane in from..to {
        match ask(&mut receivers[lane], &mut held[lane], cx) {
            Cause::Asked => {}
            cause => return Stop { lane, cause },
        }
    }
    Stop {
        lane: to,
        cause: Cause::Asked,
    }
}

/// Asks one lane for a value, which is then held.
fn ask<T: Message, B: Board, R: LaneReceiver<T, B>>(
    receiver: &mut R,
    held: &mut Option<T>,
    cx: &mut Cx<B>,
) -> Cause
    requires home { R.home receiver.old ≡ (B.id cx.old.board).lane_table }
    ensures same_end { (R.home receiver.new ≡ R.home receiver.old) × (R.lane receiver.new ≡ R.lane receiver.old) × (R.job receiver.new ≡ R.job receiver.old) × (R.wait_places receiver.new ≡ R.wait_places receiver.old) }
    ensures asked { result ≡ Asked → IsAnswered (T.suits (R.job receiver.old)) (R.taken receiver.old) (R.taken receiver.new) (R.is_whole receiver.new) held.old held.new }
    ensures empty { result ≡ Empty → R.found_empty cx.new.board receiver.old receiver.new × R.registered cx.new.board receiver.old receiver.new cx.old.me }
    ensures cut { result ≡ Cut → (R.is_cut receiver.new ≡ true) × R.found_ended cx.new.board receiver.new false }
    ensures same_taken { (result ≡ Asked → ⊥) → R.taken receiver.new ≡ R.taken receiver.old }
    ensures same_held { (result ≡ Asked → ⊥) → held.new ≡ held.old }
    ensures again { R.is_cut receiver.old ≡ true → result ≡ Cut }
    ensures keeps_waiting { KeepsOthersWaiting (R.wait_places receiver.old) cx.old.me (B.waits_at cx.old.board) (B.waits_at cx.new.board) cx.new.wakes }
    ensures same_board { B.id cx.new.board ≡ B.id cx.old.board }
    ensures same_task { cx.new.me ≡ cx.old.me }
    ensures wakes { KeepsWakes cx.old.wakes cx.new.wakes }
{
    match receiver.poll_recv(cx) {
        Poll::Ready(Ok(value)) => {
            *held = Some(value);
            Cause::Asked
        }
        Poll::Ready(Err(Ended::Whole)) => Cause::Asked,
        Poll::Ready(Err(Ended::Cut)) => Cause::Cut,
        Poll::Pending => Cause::Empty,
    }
}
