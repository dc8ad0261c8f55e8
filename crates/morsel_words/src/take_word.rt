//! Each single step of a receiver on the words of a lane.
ghost use Rattle.std.specs.Prelude.{◌≡◌, ◌≤◌, ◌++◌, Bool, true, false, [], ◌∷◌, None, Some};
ghost use Rattle.morsel_words.specs.Lane.{has_bit};
ghost use Rattle.morsel_words.specs.TakeSteps.{take_side, takes_at, take_noted, with_taking, lent_list, found_empty, found_and_waits, registered_to_take, AnsweredLook, why_no_value};
ghost use Rattle.morsel_words.specs.declared.view.Found.TheVariants as found;
ghost use Rattle.morsel_words.specs.declared.view.Taking.TheVariants as taking;
ghost use Rattle.morsel_words.specs.declared.view.LanePart.TheVariants as part;

use crate::view::LaneView;
use crate::word::{CLOSED, FULL, LaneSeat, LaneWords, WAITING, WHOLE, has, take_out};
use atomic_table::Play;
use morsel_prims::{Message, RecvError};

struct SeekTake;

impl<T: Message> Play<Option<T>, LaneView<T, T::Job>> for SeekTake {
    ghost use Rattle.morsel_words.specs.TakeSteps.{LooksToTake};

    ghost then = { LooksToTake T.suits };
}

struct AskTake;

impl<T: Message> Play<Option<T>, LaneView<T, T::Job>> for AskTake {
    ghost use Rattle.morsel_words.specs.TakeSteps.{AsksToTake};

    ghost then = { AsksToTake T.suits };
}

struct EmptyLane;

impl<T, J> Play<Option<T>, LaneView<T, J>> for EmptyLane {
    ghost use Rattle.morsel_words.specs.TakeSteps.{Empties};

    ghost then = { Empties };
}

struct PutBackEnd;

impl<T, J> Play<Option<T>, LaneView<T, J>> for PutBackEnd {
    ghost use Rattle.morsel_words.specs.TakeSteps.{PutsBackEnd};

    ghost then = { PutsBackEnd };
}

struct PutTakeNumber;

impl<T, J> Play<Option<T>, LaneView<T, J>> for PutTakeNumber {
    ghost use Rattle.morsel_words.specs.TakeSteps.{RegistersToTake};

    ghost then = { RegistersToTake };
}

struct TakeSendNumber;

impl<T, J> Play<Option<T>, LaneView<T, J>> for TakeSendNumber {
    ghost use Rattle.morsel_words.specs.TakeSteps.{TakesSender};

    ghost then = { TakesSender };
}

/// Why there is no value in a lane that has this state and is not full.
fn refusal_at(state: u64) -> RecvError
    ensures { result ≡ why_no_value (has_bit state 2) (has_bit state 8) }
{
    if !has(state, CLOSED) {
        return RecvError::Empty;
    }
    if has(state, WHOLE) {
        return RecvError::Whole;
    }
    RecvError::Cut
}

/// Looks whether there is a value in the lane, and takes the slot where there is one.
pub(crate) fn look_to_take<T: Message>(
    lane: &LaneWords<T>,
    seat: &mut LaneSeat<T>,
) -> Result<T, RecvError>
    requires table { (seat.old.table_id ≡ lane.now.table_id) × (lane.now.table_id.words ≡ 3) }
    requires receiver { (seat.old.me.0.part ≡ part.Receiver) × (seat.old.me.0.taking.phase ≡ taking.Idle) × (seat.old.me.1 ≡ []) }
    requires job { seat.old.me.0.job ≡ Some lane.now.key }
    ensures same { seat.new.table_id ≡ seat.old.table_id }
    ensures looked { AnsweredLook T.suits lane.now.key (found_empty seat.old.me.0) seat.old.me result seat.new.me }
{
    let state = lane.load::<SeekTake>(seat, 0);
    if !has(state, FULL) {
        return Err(refusal_at(state));
    }
    Ok(take_out(lane, seat))
}

/// Sets `WAITING` at an empty lane. Takes the slot where the lane has become full.
pub(crate) fn ask_to_take<T: Message>(
    lane: &LaneWords<T>,
    seat: &mut LaneSeat<T>,
) -> Result<T, RecvError>
    requires table { (seat.old.table_id ≡ lane.now.table_id) × (lane.now.table_id.words ≡ 3) }
    requires receiver { (seat.old.me.0.part ≡ part.Receiver) × (seat.old.me.0.taking.phase ≡ taking.Idle) × (seat.old.me.1 ≡ []) }
    requires job { seat.old.me.0.job ≡ Some lane.now.key }
    ensures same { seat.new.table_id ≡ seat.old.table_id }
    ensures looked { AnsweredLook T.suits lane.now.key (found_and_waits seat.old.me.0) seat.old.me result seat.new.me }
{
    let state = lane.compare_exchange::<AskTake>(seat, 0, 0, WAITING);
    if !has(state, FULL) {
        return Err(refusal_at(state));
    }
    Ok(take_out(lane, seat))
}

/// Puts back that the sender has ended, as whole or as cut.
fn put_back_end<T: Message>(lane: &LaneWords<T>, seat: &mut LaneSeat<T>, whole: bool)
    requires table { (seat.old.table_id ≡ lane.now.table_id) × (lane.now.table_id.words ≡ 3) }
    requires receiver { (seat.old.me.0.part ≡ part.Receiver) × (seat.old.me.0.taking.phase ≡ taking.Owes whole) }
    ensures same { seat.new.table_id ≡ seat.old.table_id }
    ensures back { seat.new.me ≡ (with_taking seat.old.me.0 (takes_at seat.old.me.0.taking taking.Idle), seat.old.me.1) }
{
    if whole {
        lane.swap::<PutBackEnd>(seat, 0, CLOSED | WHOLE);
        return;
    }
    lane.swap::<PutBackEnd>(seat, 0, CLOSED);
}

/// Gives the slot back empty, so that its value is taken; answers whether the sender waited for that.
pub(crate) fn empty_lane<T: Message>(lane: &LaneWords<T>, seat: &mut LaneSeat<T>) -> bool
    requires table { (seat.old.table_id ≡ lane.now.table_id) × (lane.now.table_id.words ≡ 3) }
    requires receiver { seat.old.me.0.part ≡ part.Receiver }
    requires value { (value : T) × (seat.old.me.0.taking.phase ≡ taking.Has value) }
    requires slot { seat.old.me.1 ≡ (0, None) ∷ [] }
    ensures same { seat.new.table_id ≡ seat.old.table_id }
    ensures emptied { seat.new.me ≡ (take_noted seat.old.me.0 (take_side taking.Idle (seat.old.me.0.taking.taken ++ lent_list seat.old.me.0.taking.phase) seat.old.me.0.taking.waits seat.old.me.0.taking.took) (found.Took result), []) }
{
    let state = lane.swap::<EmptyLane>(seat, 0, 0);
    if !has(state, CLOSED) {
        return has(state, WAITING);
    }
    put_back_end(lane, seat, has(state, WHOLE));
    has(state, WAITING)
}

/// Puts the number under which the receiver waits into its wait word.
pub(crate) fn register_to_take<T: Message>(lane: &LaneWords<T>, seat: &mut LaneSeat<T>, number: u64)
    requires table { (seat.old.table_id ≡ lane.now.table_id) × (lane.now.table_id.words ≡ 3) }
    requires receiver { seat.old.me.0.part ≡ part.Receiver }
    requires number { number ≤ 4294967296 }
    ensures same { seat.new.table_id ≡ seat.old.table_id }
    ensures registered { seat.new.me ≡ registered_to_take number seat.old.me }
{
    lane.swap::<PutTakeNumber>(seat, 2, number);
}

/// Takes the number under which the sender waits out of its wait word.
pub(crate) fn take_sender<T: Message>(lane: &LaneWords<T>, seat: &mut LaneSeat<T>) -> u64
    requires table { (seat.old.table_id ≡ lane.now.table_id) × (lane.now.table_id.words ≡ 3) }
    requires receiver { seat.old.me.0.part ≡ part.Receiver }
    ensures same { seat.new.table_id ≡ seat.old.table_id }
    ensures within { result ≤ 4294967296 }
    ensures part { (seat.new.me.0.part ≡ seat.old.me.0.part) × (seat.new.me.0.job ≡ seat.old.me.0.job) × (seat.new.me.0.taking.phase ≡ seat.old.me.0.taking.phase) × (seat.new.me.0.taking.taken ≡ seat.old.me.0.taking.taken) }
    ensures found { seat.new.me.0.found ≡ found.Waiter result ∷ seat.old.me.0.found }
    ensures hand { seat.new.me.1 ≡ seat.old.me.1 }
{
    lane.swap::<TakeSendNumber>(seat, 1, 0)
}
