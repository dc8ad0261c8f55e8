//! Sends a value through one of several lanes.
ghost use Rattle.std.specs.Prelude.{◌≡◌, ◌⊎◌, ◌<◌, ◌≤◌, ℕ, true, false, All, [], ◌∷◌, ◌++◌, length, map, slice_index_or, OnOk, OnErr, IfErr};
ghost use Rattle.morsel_prims.specs.Polled.{IfClosed, IfFull, refused_value};
ghost use Rattle.morsel_prims.specs.Waiting.{KeepsWaiting};
ghost use Rattle.morsel_prims.specs.Woken.{AreFoundWoken, KeepsWakes};
ghost use Rattle.morsel_merge.specs.Ends.{sender_seen};
ghost use Rattle.morsel_merge.specs.Merging.{SameOutside};
ghost use Rattle.morsel_merge.specs.Spread.{AreSent, EachLane, SomeLane, is_full, sent_values};

use crate::log::Log;
use morsel_prims::{Board, Cx, LaneSender, Message, SendError};
use std::snapshot::Snapshot;

/// What was sent through one of several lanes: which lane, and the value, as clauses see it.
#[derive(Drop)]
pub struct Sent<T> {
    /// The lane, from 0.
    pub lane: usize,
    /// The value.
    pub value: Snapshot<T>,
}

/// Sends a value through one lane, which is written down, or hands it back.
pub fn offer<T: Message, B: Board, S: LaneSender<T, B>>(
    sender: &mut S,
    lane: usize,
    log: &mut Log<Sent<T>>,
    cx: &mut Cx<B>,
    value: T,
) -> Result<(), SendError<T>>
    requires home { S.home sender.old ≡ (B.id cx.old.board).lane_table }
    requires suits { T.suits (S.job sender.old) value }
    ensures same_end { (S.home sender.new ≡ S.home sender.old) × (S.lane sender.new ≡ S.lane sender.old) × (S.room sender.new ≡ S.room sender.old) × (S.job sender.new ≡ S.job sender.old) × (S.wait_places sender.new ≡ S.wait_places sender.old) }
    ensures same_board { B.id cx.new.board ≡ B.id cx.old.board }
    ensures same_task { cx.new.me ≡ cx.old.me }
    ensures keeps_waiting { KeepsWaiting (B.waits_at cx.old.board) (B.waits_at cx.new.board) cx.new.wakes }
    ensures wakes { KeepsWakes cx.old.wakes cx.new.wakes }
    ensures same_table { log.new.seat.table_id ≡ log.old.seat.table_id }
    ensures ok { OnOk result (S.sent sender.new ≡ S.sent sender.old ++ value ∷ []) }
    ensures logged { OnOk result ((map (λ sent. sent.lane) log.new.seat.me.0 ≡ map (λ sent. sent.lane) log.old.seat.me.0 ++ lane ∷ []) × (sent_values log.new.seat.me.0 ≡ sent_values log.old.seat.me.0 ++ value ∷ [])) }
    ensures room { OnOk result (S.found_room cx.new.board sender.old sender.new) }
    ensures woken { OnOk result (AreFoundWoken (S.found_waiting cx.old.board sender.old sender.new) cx.new.wakes) }
    ensures back { IfErr result (λ refused. refused_value refused ≡ value) }
    ensures err { OnErr result (S.sent sender.new ≡ S.sent sender.old) }
    ensures same_log { OnErr result (log.new.seat.me.0 ≡ log.old.seat.me.0) }
    ensures unchanged { OnErr result (cx.new.board ≡ cx.old.board) }
    ensures full { IfErr result (λ refused. IfFull refused (S.found_full cx.new.board sender.old sender.new)) }
    ensures closed { IfErr result (λ refused. IfClosed refused (S.found_closed cx.new.board sender.old sender.new)) }
{
    let told = Snapshot::of(&value);
    sender.try_send(cx, value)?;
    log.write(&Sent { lane, value: told });
    Ok(())
}

/// Offers a value to the lanes from `from` on, and before `to`, one after the other, until one takes it.
pub fn pass<T: Message, B: Board, S: LaneSender<T, B>>(
    lanes: &mut [S],
    log: &mut Log<Sent<T>>,
    job: &Snapshot<T::Job>,
    from: usize,
    to: usize,
    cx: &mut Cx<B>,
    mut value: T,
) -> Result<(), SendError<T>>
    requires within { (from ≤ to) × (to ≤ length lanes.old) }
    requires home { All (λ end. S.home end ≡ (B.id cx.old.board).lane_table) lanes.old }
    requires job { All (λ end. S.job end ≡ job.now.value) lanes.old }
    requires suits { T.suits job.now.value value }
    ensures long { length lanes.new ≡ length lanes.old }
    ensures home { All (λ end. S.home end ≡ (B.id cx.old.board).lane_table) lanes.new }
    ensures job { All (λ end. S.job end ≡ job.now.value) lanes.new }
    ensures seen { map (sender_seen S.home S.lane S.room S.job S.wait_places) lanes.new ≡ map (sender_seen S.home S.lane S.room S.job S.wait_places) lanes.old }
    ensures others { SameOutside from to lanes.old lanes.new }
    ensures same_table { log.new.seat.table_id ≡ log.old.seat.table_id }
    ensures sent { AreSent (map S.sent lanes.old) log.old.seat.me.0 → AreSent (map S.sent lanes.new) log.new.seat.me.0 }
    ensures ok { OnOk result (sent_values log.new.seat.me.0 ≡ sent_values log.old.seat.me.0 ++ value ∷ []) }
    ensures room { OnOk result ((lane : ℕ) × (from ≤ lane) × (lane < to) × ((d : S) → S.found_room cx.new.board (slice_index_or lanes.old lane d) (slice_index_or lanes.new lane d))) }
    ensures woken { OnOk result (AreFoundWoken (λ tasks. (lane : ℕ) × (from ≤ lane) × (lane < to) × ((d : S) → S.found_waiting cx.old.board (slice_index_or lanes.old lane d) (slice_index_or lanes.new lane d) tasks)) cx.new.wakes) }
    ensures back { IfErr result (λ refused. refused_value refused ≡ value) }
    ensures same_log { OnErr result (log.new.seat.me.0 ≡ log.old.seat.me.0) }
    ensures unchanged { OnErr result (cx.new.board ≡ cx.old.board) }
    ensures refused { OnErr result ((lane : ℕ) (d : S) → from ≤ lane → lane < to → S.found_full cx.new.board (slice_index_or lanes.old lane d) (slice_index_or lanes.new lane d) ⊎ S.found_closed cx.new.board (slice_index_or lanes.old lane d) (slice_index_or lanes.new lane d)) }
    ensures full { IfErr result (λ refused. IfFull refused ((lane : ℕ) × (from ≤ lane) × (lane < to) × ((d : S) → S.found_full cx.new.board (slice_index_or lanes.old lane d) (slice_index_or lanes.new lane d)))) }
    ensures closed { IfErr result (λ refused. IfClosed refused ((lane : ℕ) (d : S) → from ≤ lane → lane < to → S.found_closed cx.new.board (slice_index_or lanes.old lane d) (slice_index_or lanes.new lane d))) }
    ensures keeps_waiting { KeepsWaiting (B.waits_at cx.old.board) (B.waits_at cx.new.board) cx.new.wakes }
    ensures same_board { B.id cx.new.board ≡ B.id cx.old.board }
    ensures same_task { cx.new.me ≡ cx.old.me }
    ensures wakes { KeepsWakes cx.old.wakes cx.new.wakes }
{
    let mut full = false;
    for lane in from..to {
        match offer(&mut lanes[lane], lane, log, cx, value) {
            Ok(()) => return Ok(()),
            Err(refused) => {
                let (was_full, back) = parts(refused);
                full |= was_full;
                value = back;
            }
        }
    }
    if full {
        Err(SendError::Full(value))
    } else {
        Err(SendError::Closed(value))
    }
}

/// Offers a value to all lanes, one after the other from `start` on, until one takes it.
pub fn pass_from<T: Message, B: Board, S: LaneSender<T, B>>(
    lanes: &mut [S],
    log: &mut Log<Sent<T>>,
    job: &Snapshot<T::Job>,
    start: usize,
    cx: &mut Cx<B>,
    value: T,
) -> Result<(), SendError<T>>
    requires within { start ≤ length lanes.old }
    requires home { All (λ end. S.home end ≡ (B.id cx.old.board).lane_table) lanes.old }
    requires job { All (λ end. S.job end ≡ job.now.value) lanes.old }
    requires suits { T.suits job.now.value value }
    ensures long { length lanes.new ≡ length lanes.old }
    ensures home { All (λ end. S.home end ≡ (B.id cx.old.board).lane_table) lanes.new }
    ensures job { All (λ end. S.job end ≡ job.now.value) lanes.new }
    ensures seen { map (sender_seen S.home S.lane S.room S.job S.wait_places) lanes.new ≡ map (sender_seen S.home S.lane S.room S.job S.wait_places) lanes.old }
    ensures same_table { log.new.seat.table_id ≡ log.old.seat.table_id }
    ensures sent { AreSent (map S.sent lanes.old) log.old.seat.me.0 → AreSent (map S.sent lanes.new) log.new.seat.me.0 }
    ensures ok { OnOk result (sent_values log.new.seat.me.0 ≡ sent_values log.old.seat.me.0 ++ value ∷ []) }
    ensures room { OnOk result (SomeLane (S.found_room cx.new.board) lanes.old lanes.new) }
    ensures woken { OnOk result (AreFoundWoken (λ tasks. SomeLane (λ old new. S.found_waiting cx.old.board old new tasks) lanes.old lanes.new) cx.new.wakes) }
    ensures back { IfErr result (λ refused. refused_value refused ≡ value) }
    ensures same_log { OnErr result (log.new.seat.me.0 ≡ log.old.seat.me.0) }
    ensures unchanged { OnErr result (cx.new.board ≡ cx.old.board) }
    ensures refused { OnErr result (EachLane (λ old new. S.found_full cx.new.board old new ⊎ S.found_closed cx.new.board old new) lanes.old lanes.new) }
    ensures full { IfErr result (λ refused. IfFull refused (SomeLane (S.found_full cx.new.board) lanes.old lanes.new)) }
    ensures closed { IfErr result (λ refused. IfClosed refused (EachLane (S.found_closed cx.new.board) lanes.old lanes.new)) }
    ensures keeps_waiting { KeepsWaiting (B.waits_at cx.old.board) (B.waits_at cx.new.board) cx.new.wakes }
    ensures same_board { B.id cx.new.board ≡ B.id cx.old.board }
    ensures same_task { cx.new.me ≡ cx.old.me }
    ensures wakes { KeepsWakes cx.old.wakes cx.new.wakes }
{
    let end = lanes.len();
    match pass(lanes, log, job, start, end, cx, value) {
        Ok(()) => Ok(()),
        Err(SendError::Closed(value)) => pass(lanes, log, job, 0, start, cx, value),
        Err(SendError::Full(value)) => match pass(lanes, log, job, 0, start, cx, value) {
            Ok(()) => Ok(()),
            Err(refused) => Err(SendError::Full(value_of(refused))),
        },
    }
}

/// Whether the lane was full, and the value that comes back.
fn parts<T>(refused: SendError<T>) -> (bool, T)
    ensures full { result.0 ≡ is_full refused }
    ensures value { result.1 ≡ refused_value refused }
{
    match refused {
        SendError::Full(value) => (true, value),
        SendError::Closed(value) => (false, value),
    }
}

/// The value that comes back.
pub fn value_of<T>(refused: SendError<T>) -> T
    ensures { result ≡ refused_value refused }
{
    match refused {
        SendError::Full(value) => value,
        SendError::Closed(value) => value,
    }
}
