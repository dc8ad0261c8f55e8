//! The words and the slot of a lane between threads, and each single step of an end on them.
//!
//! The lane has room for one value, in the slot. Word 0 is the state:
//!
//! | Bits | Name | The lane |
//! |---|---|---|
//! | 1 | `FULL` | has a value, which the receiver has not yet said to be taken |
//! | 2 | `CLOSED` | is closed by one of its ends, or by both |
//! | 4 | `WAITING` | is waited for: by the sender where it is full, by the receiver where it is not |
//! | 8 | `WHOLE` | was closed by the sender, which had sent all |
//!
//! Words 1 and 2 are the wait words of the sender and of the receiver. Each has the number under which its end waits, one
//! more than the task's own, or 0.
//!
//! 1. Who finds the lane ready takes the slot by that step: the sender where neither `FULL` nor `CLOSED` is set, the
//!    receiver where `FULL` is set.
//! 2. With the value in the slot the sender swaps the state to `FULL`. Where it finds `CLOSED`, it keeps the slot, takes
//!    the value out again, and puts `CLOSED` back. Nobody sees the lane without it: the receiver is gone.
//! 3. With the value out of the slot the receiver swaps the state to 0. Where it finds `CLOSED`, it puts that back, with
//!    `WHOLE` where that was set. Nobody sees the lane without it: the sender is gone.
//! 4. Where a swap of the state finds `WAITING`, the other end's wait word is swapped to 0 next, and its task woken.
//! 5. An end that is not ready puts its number into its wait word first, and then sets `WAITING`. Each swap of the state
//!    clears it. So no task is registered at an end that is ready.
//! 6. An end closes by setting `CLOSED`, the sender also `WHOLE` where it had sent all. Where the other end waits, which
//!    `FULL` and `WAITING` tell, its task is woken.
//!
//! Between any two steps the lane is in one of these states (`specs/Lane.antt`), and each step leads from one to another:
//!
//! | `FULL` | The sender | The receiver | The slot | Sent and not taken |
//! |---|---|---|---|---|
//! | 0 | is open or has ended | is open or has closed | is at home, empty | none |
//! | 0 | has the slot | is open or has closed | is the sender's | none |
//! | 0 | has ended | has still to put that back, or has seen it | is at home, empty | none |
//! | 1 | is open or has ended | is open or has closed | is at home with a value | that value |
//! | 1 | is open or has ended | has the slot | is the receiver's, who has the value | that value |
//! | 1 | takes its value back | has closed | is the sender's | none |
//!
//! `CLOSED` is set where an end has closed, and `WHOLE` where the sender did and had sent all, but while an end that swapped
//! them away has still to put them back.
ghost use Rattle.std.specs.Prelude.{◌≡◌, ℕ, ◌≤◌, ◌<◌, ◌++◌, [], ◌∷◌, None, Some};
ghost use Rattle.morsel_words.specs.Lane.{has_bit};
ghost use Rattle.morsel_words.specs.Steps.{send_side, noted, with_side, at_phase, looked_to_send, looked_to_wait, filled};
ghost use Rattle.morsel_words.specs.declared.view.Found.TheVariants as found;
ghost use Rattle.morsel_words.specs.declared.view.Sending.TheVariants as sending;
ghost use Rattle.morsel_words.specs.declared.view.LanePart.TheVariants as part;

use crate::view::LaneView;
use atomic_table::{Play, Seat, Shared, TableRule};
use morsel_prims::Message;

/// The lane has a value.
pub(crate) const FULL: u64 = 1;

/// The lane is closed by one of its ends.
pub(crate) const CLOSED: u64 = 2;

/// The end that is not ready waits.
pub(crate) const WAITING: u64 = 4;

/// The sender has closed, and had sent all.
pub(crate) const WHOLE: u64 = 8;

/// The rule of a lane between threads.
pub struct LaneRuled;

impl<T: Message> TableRule<Option<T>, LaneView<T, T::Job>, T::Job> for LaneRuled {
    ghost use Rattle.morsel_words.specs.Lane.{IsLane};
    ghost use Rattle.morsel_words.specs.Steps.{first_view};

    ghost holds = { IsLane T.suits };

    ghost first = { first_view };
}

struct SeekRoom;

impl<T, J> Play<Option<T>, LaneView<T, J>> for SeekRoom {
    ghost use Rattle.morsel_words.specs.Steps.{LooksToSend};

    ghost then = { LooksToSend };
}

struct SeekWait;

impl<T, J> Play<Option<T>, LaneView<T, J>> for SeekWait {
    ghost use Rattle.morsel_words.specs.Steps.{LooksToWait};

    ghost then = { LooksToWait };
}

struct FillLane;

impl<T, J> Play<Option<T>, LaneView<T, J>> for FillLane {
    ghost use Rattle.morsel_words.specs.Steps.{Fills};

    ghost then = { Fills };
}

struct PutBack;

impl<T, J> Play<Option<T>, LaneView<T, J>> for PutBack {
    ghost use Rattle.morsel_words.specs.Steps.{PutsBack};

    ghost then = { PutsBack };
}

struct PutNumber;

impl<T, J> Play<Option<T>, LaneView<T, J>> for PutNumber {
    ghost use Rattle.morsel_words.specs.Steps.{RegistersToSend};

    ghost then = { RegistersToSend };
}

struct TakeNumber;

impl<T, J> Play<Option<T>, LaneView<T, J>> for TakeNumber {
    ghost use Rattle.morsel_words.specs.Steps.{TakesWaiter};

    ghost then = { TakesWaiter };
}

struct SeekValue;

impl<T, J> Play<Option<T>, LaneView<T, J>> for SeekValue {
    ghost use Rattle.morsel_words.specs.Steps.{LooksForValue};

    ghost then = { LooksForValue };
}

/// The words and the slot of a lane.
pub(crate) type LaneWords<T> = Shared<
    Option<T>,
    LaneView<T, <T as Message>::Job>,
    <T as Message>::Job,
    LaneRuled,
>;

/// The seat of an end.
pub(crate) type LaneSeat<T> = Seat<Option<T>, LaneView<T, <T as Message>::Job>>;

/// Whether the state word has this bit.
pub(crate) fn has(state: u64, bit: u64) -> bool
    ensures { result ≡ has_bit state bit }
{
    state & bit != 0
}

/// Looks whether the lane is ready for a value, and takes the slot where it is.
pub(crate) fn look_to_send<T: Message>(lane: &LaneWords<T>, seat: &mut LaneSeat<T>) -> u64
    requires table { (seat.old.table_id ≡ lane.now.table_id) × (lane.now.table_id.words ≡ 3) }
    requires sender { (seat.old.me.0.part ≡ part.Sender) × (seat.old.me.0.sending.phase ≡ sending.Idle) }
    ensures same { seat.new.table_id ≡ seat.old.table_id }
    ensures looked { seat.new.me ≡ looked_to_send (has_bit result 2) (has_bit result 1) seat.old.me }
{
    lane.load::<SeekRoom>(seat, 0)
}

/// Sets `WAITING` at a full lane. Takes the slot where the lane has become ready.
pub(crate) fn look_to_wait<T: Message>(lane: &LaneWords<T>, seat: &mut LaneSeat<T>) -> u64
    requires table { (seat.old.table_id ≡ lane.now.table_id) × (lane.now.table_id.words ≡ 3) }
    requires sender { (seat.old.me.0.part ≡ part.Sender) × (seat.old.me.0.sending.phase ≡ sending.Idle) }
    ensures same { seat.new.table_id ≡ seat.old.table_id }
    ensures looked { seat.new.me ≡ looked_to_wait (has_bit result 2) (has_bit result 1) seat.old.me }
{
    lane.compare_exchange::<SeekWait>(seat, 0, FULL, FULL | WAITING)
}

/// Puts the value into the slot that the sender has, and fills the lane with it, unless the receiver has closed.
pub(crate) fn fill<T: Message>(lane: &LaneWords<T>, seat: &mut LaneSeat<T>, value: T) -> u64
    requires table { (seat.old.table_id ≡ lane.now.table_id) × (lane.now.table_id.words ≡ 3) }
    requires sender { (seat.old.me.0.part ≡ part.Sender) × (seat.old.me.0.sending.phase ≡ sending.Has) }
    requires slot { seat.old.me.1 ≡ (0, None) ∷ [] }
    requires suits { T.suits lane.now.key value }
    ensures same { seat.new.table_id ≡ seat.old.table_id }
    ensures filled { seat.new.me ≡ filled (has_bit result 2) (has_bit result 4) (seat.old.me.0, (0, Some value) ∷ []) }
{
    let _ = lane.exchange(seat, 0, Some(value));
    lane.swap::<FillLane>(seat, 0, FULL)
}

/// Takes the value out of the slot that the end has.
pub(crate) fn take_out<T: Message>(lane: &LaneWords<T>, seat: &mut LaneSeat<T>) -> T
    requires table { seat.old.table_id ≡ lane.now.table_id }
    requires slot { (value : T) × (seat.old.me.1 ≡ (0, Some value) ∷ []) }
    ensures same { seat.new.table_id ≡ seat.old.table_id }
    ensures value { seat.old.me.1 ≡ (0, Some result) ∷ [] }
    ensures left { seat.new.me ≡ (seat.old.me.0, (0, None) ∷ []) }
{
    let Some(value) = lane.exchange(seat, 0, None) else {
        unreachable!()
    };
    value
}

/// Takes the value out of the slot again, and puts back that the receiver has closed.
pub(crate) fn take_back<T: Message>(lane: &LaneWords<T>, seat: &mut LaneSeat<T>) -> T
    requires table { (seat.old.table_id ≡ lane.now.table_id) × (lane.now.table_id.words ≡ 3) }
    requires sender { (seat.old.me.0.part ≡ part.Sender) × (seat.old.me.0.sending.phase ≡ sending.Back) }
    requires slot { (value : T) × (seat.old.me.1 ≡ (0, Some value) ∷ []) }
    ensures same { seat.new.table_id ≡ seat.old.table_id }
    ensures value { seat.old.me.1 ≡ (0, Some result) ∷ [] }
    ensures back { seat.new.me ≡ (with_side seat.old.me.0 (at_phase seat.old.me.0.sending sending.Idle), []) }
{
    let value = take_out(lane, seat);
    lane.swap::<PutBack>(seat, 0, CLOSED);
    value
}

/// Puts the number under which the sender waits into its wait word.
pub(crate) fn register_to_send<T: Message>(lane: &LaneWords<T>, seat: &mut LaneSeat<T>, number: u64)
    requires table { (seat.old.table_id ≡ lane.now.table_id) × (lane.now.table_id.words ≡ 3) }
    requires sender { seat.old.me.0.part ≡ part.Sender }
    requires number { number ≤ 4294967296 }
    ensures same { seat.new.table_id ≡ seat.old.table_id }
    ensures registered { seat.new.me ≡ (with_side seat.old.me.0 (send_side seat.old.me.0.sending.phase seat.old.me.0.sending.sent number seat.old.me.0.sending.took), seat.old.me.1) }
{
    lane.swap::<PutNumber>(seat, 1, number);
}

/// Takes the number under which the receiver waits out of its wait word.
pub(crate) fn take_waiter<T: Message>(lane: &LaneWords<T>, seat: &mut LaneSeat<T>) -> u64
    requires table { (seat.old.table_id ≡ lane.now.table_id) × (lane.now.table_id.words ≡ 3) }
    requires sender { seat.old.me.0.part ≡ part.Sender }
    ensures same { seat.new.table_id ≡ seat.old.table_id }
    ensures within { result ≤ 4294967296 }
    ensures part { (seat.new.me.0.part ≡ seat.old.me.0.part) × (seat.new.me.0.sending.phase ≡ seat.old.me.0.sending.phase) × (seat.new.me.0.sending.sent ≡ seat.old.me.0.sending.sent) }
    ensures found { seat.new.me.0.found ≡ found.Waiter result ∷ seat.old.me.0.found }
    ensures hand { seat.new.me.1 ≡ seat.old.me.1 }
{
    lane.swap::<TakeNumber>(seat, 2, 0)
}

/// Looks whether there is a value in the lane.
pub(crate) fn look_for_value<T: Message>(lane: &LaneWords<T>, seat: &mut LaneSeat<T>) -> u64
    requires table { (seat.old.table_id ≡ lane.now.table_id) × (lane.now.table_id.words ≡ 3) }
    requires sender { seat.old.me.0.part ≡ part.Sender }
    ensures same { seat.new.table_id ≡ seat.old.table_id }
    ensures looked { seat.new.me ≡ (noted seat.old.me.0 seat.old.me.0.sending (found.Held (has_bit result 1)), seat.old.me.1) }
{
    lane.load::<SeekValue>(seat, 0)
}
