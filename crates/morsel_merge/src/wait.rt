//! Waits for room in several lanes: who polls is registered at each that is full, unless one takes the value.
ghost use Rattle.std.specs.Prelude.{◌≡◌, ◌⊎◌, ◌<◌, ◌≤◌, All, [], ◌∷◌, ◌++◌, length, map, OnOk, OnErr, IfErr};
ghost use Rattle.std.specs.List.{flat_map};
ghost use Rattle.morsel_prims.specs.Polled.{IfClosed, IfFull, refused_value};
ghost use Rattle.morsel_prims.specs.Waiting.{KeepsOthersWaiting};
ghost use Rattle.morsel_prims.specs.Woken.{AreFoundWoken, KeepsWakes};
ghost use Rattle.morsel_merge.specs.Boards.{OnEarlier, OnLater};
ghost use Rattle.morsel_merge.specs.Ends.{sender_seen};
ghost use Rattle.morsel_merge.specs.Spread.{AreFull, AreLookedAt, AreSent, EachLane, IsAwaited, IsFoundLast, IsLook, IsLooked, LastLane, SomeLane, sent_values};

use crate::choose::try_lanes;
use crate::log::Log;
use crate::spread::{Sent, pass_from};
use morsel_prims::{Board, Cx, LaneSender, Message, Poll, SendError};
use rand_core::Rng;
use std::snapshot::Snapshot;

/// Polls one lane with a value: it goes through the lane, which is written down; or it comes back, and who polls is
/// registered where the lane is full.
fn wait_one<T: Message, B: Board, S: LaneSender<T, B>>(
    sender: &mut S,
    lane: usize,
    log: &mut Log<Sent<T>>,
    cx: &mut Cx<B>,
    value: T,
) -> Result<(), T>
    requires home { S.home sender.old ≡ (B.id cx.old.board).lane_table }
    requires suits { T.suits (S.job sender.old) value }
    ensures same_end { (S.home sender.new ≡ S.home sender.old) × (S.lane sender.new ≡ S.lane sender.old) × (S.room sender.new ≡ S.room sender.old) × (S.job sender.new ≡ S.job sender.old) × (S.wait_places sender.new ≡ S.wait_places sender.old) }
    ensures same_board { B.id cx.new.board ≡ B.id cx.old.board }
    ensures same_task { cx.new.me ≡ cx.old.me }
    ensures keeps_waiting { KeepsOthersWaiting (S.wait_places sender.old) cx.old.me (B.waits_at cx.old.board) (B.waits_at cx.new.board) cx.new.wakes }
    ensures wakes { KeepsWakes cx.old.wakes cx.new.wakes }
    ensures same_table { log.new.seat.table_id ≡ log.old.seat.table_id }
    ensures ok { OnOk result (S.sent sender.new ≡ S.sent sender.old ++ value ∷ []) }
    ensures logged { OnOk result ((map (λ sent. sent.lane) log.new.seat.me.0 ≡ map (λ sent. sent.lane) log.old.seat.me.0 ++ lane ∷ []) × (sent_values log.new.seat.me.0 ≡ sent_values log.old.seat.me.0 ++ value ∷ [])) }
    ensures room { OnOk result (S.found_room cx.new.board sender.old sender.new) }
    ensures woken { OnOk result (AreFoundWoken (S.found_waiting cx.old.board sender.old sender.new) cx.new.wakes) }
    ensures back { IfErr result (λ refused. refused ≡ value) }
    ensures err { OnErr result (S.sent sender.new ≡ S.sent sender.old) }
    ensures same_log { OnErr result (log.new.seat.me.0 ≡ log.old.seat.me.0) }
    ensures waiting { OnErr result ((S.found_full cx.new.board sender.old sender.new × S.registered cx.new.board sender.old sender.new cx.old.me) ⊎ S.found_closed cx.new.board sender.old sender.new) }
{
    let told = Snapshot::of(&value);
    let mut held = Some(value);
    match sender.poll_send(cx, &mut held) {
        Poll::Ready(Ok(())) => {
            log.write(&Sent { lane, value: told });
            Ok(())
        }
        Poll::Ready(Err(value)) => Err(value),
        Poll::Pending => match held {
            Some(value) => Err(value),
            None => unreachable!(),
        },
    }
}

/// Polls the lanes with a value, one after the other, until one takes it.
fn wait_each<T: Message, B: Board, S: LaneSender<T, B>>(
    lanes: &mut [S],
    log: &mut Log<Sent<T>>,
    job: &Snapshot<T::Job>,
    cx: &mut Cx<B>,
    mut value: T,
) -> Result<(), T>
    requires home { All (λ end. S.home end ≡ (B.id cx.old.board).lane_table) lanes.old }
    requires job { All (λ end. S.job end ≡ job.now.value) lanes.old }
    requires suits { T.suits job.now.value value }
    ensures home { All (λ end. S.home end ≡ (B.id cx.old.board).lane_table) lanes.new }
    ensures job { All (λ end. S.job end ≡ job.now.value) lanes.new }
    ensures long { length lanes.new ≡ length lanes.old }
    ensures seen { map (sender_seen S.home S.lane S.room S.job S.wait_places) lanes.new ≡ map (sender_seen S.home S.lane S.room S.job S.wait_places) lanes.old }
    ensures same_table { log.new.seat.table_id ≡ log.old.seat.table_id }
    ensures sent { AreSent (map S.sent lanes.old) log.old.seat.me.0 → AreSent (map S.sent lanes.new) log.new.seat.me.0 }
    ensures ok { OnOk result (sent_values log.new.seat.me.0 ≡ sent_values log.old.seat.me.0 ++ value ∷ []) }
    ensures room { OnOk result (SomeLane (IsFoundLast (IsLook S.found_held S.found_full S.found_closed) (S.found_room cx.new.board)) lanes.old lanes.new) }
    ensures woken { OnOk result (AreFoundWoken (λ tasks. OnLater B.waits_at (flat_map S.wait_places lanes.old) cx.old.board (λ board. SomeLane (IsFoundLast (IsLook S.found_held S.found_full S.found_closed) (λ old new. S.found_waiting board old new tasks)) lanes.old lanes.new)) cx.new.wakes) }
    ensures back { IfErr result (λ refused. refused ≡ value) }
    ensures same_log { OnErr result (log.new.seat.me.0 ≡ log.old.seat.me.0) }
    ensures looked { OnErr result (AreLookedAt (sender_seen S.home S.lane S.room S.job S.wait_places) S.sent (IsLook S.found_held S.found_full S.found_closed) lanes.old lanes.new) }
    ensures waiting { OnErr result (EachLane (λ old new. OnEarlier B.waits_at (flat_map S.wait_places lanes.old) cx.old.me cx.new.board cx.new.wakes (IsAwaited (IsLook S.found_held S.found_full S.found_closed) S.found_full S.found_closed S.registered cx.old.me old new)) lanes.old lanes.new) }
    ensures last { OnErr result (LastLane (λ old new. IsAwaited (IsLook S.found_held S.found_full S.found_closed) S.found_full S.found_closed S.registered cx.old.me old new cx.new.board) lanes.old lanes.new) }
    ensures keeps_waiting { KeepsOthersWaiting (flat_map S.wait_places lanes.old) cx.old.me (B.waits_at cx.old.board) (B.waits_at cx.new.board) cx.new.wakes }
    ensures same_board { B.id cx.new.board ≡ B.id cx.old.board }
    ensures same_task { cx.new.me ≡ cx.old.me }
    ensures wakes { KeepsWakes cx.old.wakes cx.new.wakes }
{
    for lane in 0..lanes.len() {
        match wait_one(&mut lanes[lane], lane, log, cx, value) {
            Ok(()) => return Ok(()),
            Err(back) => value = back,
        }
    }
    Err(value)
}

/// Polls the lanes with a value, one after the other, until one takes it; and where none did, offers it to all of them
/// once more.
fn wait_lanes<T: Message, B: Board, S: LaneSender<T, B>>(
    lanes: &mut [S],
    log: &mut Log<Sent<T>>,
    job: &Snapshot<T::Job>,
    cx: &mut Cx<B>,
    value: T,
) -> Result<(), SendError<T>>
    requires home { All (λ end. S.home end ≡ (B.id cx.old.board).lane_table) lanes.old }
    requires job { All (λ end. S.job end ≡ job.now.value) lanes.old }
    requires suits { T.suits job.now.value value }
    ensures long { length lanes.new ≡ length lanes.old }
    ensures seen { map (sender_seen S.home S.lane S.room S.job S.wait_places) lanes.new ≡ map (sender_seen S.home S.lane S.room S.job S.wait_places) lanes.old }
    ensures same_table { log.new.seat.table_id ≡ log.old.seat.table_id }
    ensures sent { AreSent (map S.sent lanes.old) log.old.seat.me.0 → AreSent (map S.sent lanes.new) log.new.seat.me.0 }
    ensures ok { OnOk result (sent_values log.new.seat.me.0 ≡ sent_values log.old.seat.me.0 ++ value ∷ []) }
    ensures room { OnOk result (SomeLane (IsFoundLast (IsLook S.found_held S.found_full S.found_closed) (S.found_room cx.new.board)) lanes.old lanes.new) }
    ensures woken { OnOk result (AreFoundWoken (λ tasks. OnLater B.waits_at (flat_map S.wait_places lanes.old) cx.old.board (λ board. SomeLane (IsFoundLast (IsLook S.found_held S.found_full S.found_closed) (λ old new. S.found_waiting board old new tasks)) lanes.old lanes.new)) cx.new.wakes) }
    ensures back { IfErr result (λ refused. refused_value refused ≡ value) }
    ensures same_log { OnErr result (log.new.seat.me.0 ≡ log.old.seat.me.0) }
    ensures full { IfErr result (λ refused. IfFull refused (AreFull (IsLook S.found_held S.found_full S.found_closed) (S.found_full cx.new.board) (S.found_closed cx.new.board) lanes.old lanes.new)) }
    ensures closed { IfErr result (λ refused. IfClosed refused (EachLane (IsFoundLast (IsLook S.found_held S.found_full S.found_closed) (S.found_closed cx.new.board)) lanes.old lanes.new)) }
    ensures waiting { OnErr result (EachLane (λ old new. OnEarlier B.waits_at (flat_map S.wait_places lanes.old) cx.old.me cx.new.board cx.new.wakes (IsAwaited (IsLook S.found_held S.found_full S.found_closed) S.found_full S.found_closed S.registered cx.old.me old new)) lanes.old lanes.new) }
    ensures last { OnErr result (LastLane (λ old new. IsAwaited (IsLook S.found_held S.found_full S.found_closed) S.found_full S.found_closed S.registered cx.old.me old new cx.new.board) lanes.old lanes.new) }
    ensures keeps_waiting { KeepsOthersWaiting (flat_map S.wait_places lanes.old) cx.old.me (B.waits_at cx.old.board) (B.waits_at cx.new.board) cx.new.wakes }
    ensures same_board { B.id cx.new.board ≡ B.id cx.old.board }
    ensures same_task { cx.new.me ≡ cx.old.me }
    ensures wakes { KeepsWakes cx.old.wakes cx.new.wakes }
{
    match wait_each(lanes, log, job, cx, value) {
        Ok(()) => Ok(()),
        Err(value) => pass_from(lanes, log, job, 0, cx, value),
    }
}

/// Offers a value to the lane that is next in turn, or a shorter one, and then to all; and where each refuses it and
/// one is full, waits for room.
pub fn poll_lanes<T: Message, B: Board, S: LaneSender<T, B>, R: Rng>(
    lanes: &mut [S],
    log: &mut Log<Sent<T>>,
    job: &Snapshot<T::Job>,
    next: usize,
    rng: &mut R,
    cx: &mut Cx<B>,
    value: T,
) -> Result<(), SendError<T>>
    requires within { next < length lanes.old }
    requires home { All (λ end. S.home end ≡ (B.id cx.old.board).lane_table) lanes.old }
    requires job { All (λ end. S.job end ≡ job.now.value) lanes.old }
    requires suits { T.suits job.now.value value }
    ensures long { length lanes.new ≡ length lanes.old }
    ensures seen { map (sender_seen S.home S.lane S.room S.job S.wait_places) lanes.new ≡ map (sender_seen S.home S.lane S.room S.job S.wait_places) lanes.old }
    ensures same_table { log.new.seat.table_id ≡ log.old.seat.table_id }
    ensures sent { AreSent (map S.sent lanes.old) log.old.seat.me.0 → AreSent (map S.sent lanes.new) log.new.seat.me.0 }
    ensures ok { OnOk result (sent_values log.new.seat.me.0 ≡ sent_values log.old.seat.me.0 ++ value ∷ []) }
    ensures room { OnOk result (SomeLane (IsFoundLast (IsLook S.found_held S.found_full S.found_closed) (S.found_room cx.new.board)) lanes.old lanes.new) }
    ensures woken { OnOk result (AreFoundWoken (λ tasks. OnLater B.waits_at (flat_map S.wait_places lanes.old) cx.old.board (λ board. SomeLane (IsFoundLast (IsLook S.found_held S.found_full S.found_closed) (λ old new. S.found_waiting board old new tasks)) lanes.old lanes.new)) cx.new.wakes) }
    ensures back { IfErr result (λ refused. refused_value refused ≡ value) }
    ensures same_log { OnErr result (log.new.seat.me.0 ≡ log.old.seat.me.0) }
    ensures full { IfErr result (λ refused. IfFull refused (AreFull (IsLook S.found_held S.found_full S.found_closed) (S.found_full cx.new.board) (S.found_closed cx.new.board) lanes.old lanes.new)) }
    ensures closed { IfErr result (λ refused. IfClosed refused (EachLane (IsFoundLast (IsLook S.found_held S.found_full S.found_closed) (S.found_closed cx.new.board)) lanes.old lanes.new)) }
    ensures waiting { IfErr result (λ refused. IfFull refused (EachLane (λ old new. OnEarlier B.waits_at (flat_map S.wait_places lanes.old) cx.old.me cx.new.board cx.new.wakes (IsAwaited (IsLook S.found_held S.found_full S.found_closed) S.found_full S.found_closed S.registered cx.old.me old new)) lanes.old lanes.new)) }
    ensures last { IfErr result (λ refused. IfFull refused (LastLane (λ old new. IsAwaited (IsLook S.found_held S.found_full S.found_closed) S.found_full S.found_closed S.registered cx.old.me old new cx.new.board) lanes.old lanes.new)) }
    ensures keeps_waiting { KeepsOthersWaiting (flat_map S.wait_places lanes.old) cx.old.me (B.waits_at cx.old.board) (B.waits_at cx.new.board) cx.new.wakes }
    ensures same_board { B.id cx.new.board ≡ B.id cx.old.board }
    ensures same_task { cx.new.me ≡ cx.old.me }
    ensures wakes { KeepsWakes cx.old.wakes cx.new.wakes }
{
    match try_lanes(lanes, log, job, next, rng, cx, value) {
        Ok(()) => Ok(()),
        Err(SendError::Closed(value)) => Err(SendError::Closed(value)),
        Err(SendError::Full(value)) => wait_lanes(lanes, log, job, cx, value),
    }
}
