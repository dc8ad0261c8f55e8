//! Each single step of the close on the words of a lane.
ghost use Rattle.std.specs.Prelude.{◌≡◌, Bool, true, false, Option, [], ◌∷◌};
ghost use Rattle.morsel_prims.specs.declared.lane.Ended.{Ended};
ghost use Rattle.morsel_words.specs.CloseSteps.{awaits_value, awaits_room};
ghost use Rattle.morsel_words.specs.Lane.{has_bit};
ghost use Rattle.morsel_words.specs.Steps.{noted, at_phase};
ghost use Rattle.morsel_words.specs.TakeSteps.{takes_at, take_noted};
ghost use Rattle.morsel_words.specs.Ends.{phase_at};
ghost use Rattle.morsel_words.specs.declared.view.Found.TheVariants as found;
ghost use Rattle.morsel_words.specs.declared.view.Sending.TheVariants as sending;
ghost use Rattle.morsel_words.specs.declared.view.Taking.TheVariants as taking;
ghost use Rattle.morsel_words.specs.declared.view.LanePart.TheVariants as part;

use crate::view::LaneView;
use crate::word::{CLOSED, FULL, LaneSeat, LaneWords, WAITING, WHOLE, has};
use atomic_table::{Join, Play};
use morsel_prims::Message;

struct EndCut;

impl<T, J> Play<Option<T>, LaneView<T, J>> for EndCut {
    ghost use Rattle.std.specs.Prelude.{false};
    ghost use Rattle.morsel_words.specs.CloseSteps.{EndsSending};

    ghost then = { EndsSending false };
}

struct EndWhole;

impl<T, J> Play<Option<T>, LaneView<T, J>> for EndWhole {
    ghost use Rattle.std.specs.Prelude.{true};
    ghost use Rattle.morsel_words.specs.CloseSteps.{EndsSending};

    ghost then = { EndsSending true };
}

struct ShutLane;

impl<T, J> Play<Option<T>, LaneView<T, J>> for ShutLane {
    ghost use Rattle.morsel_words.specs.CloseSteps.{EndsTaking};

    ghost then = { EndsTaking };
}

struct SeekAgreed;

impl<T, J> Play<Option<T>, LaneView<T, J>> for SeekAgreed {
    ghost use Rattle.morsel_words.specs.CloseSteps.{FindsAgreed};

    ghost then = { FindsAgreed };
}

/// The seats of both ends come together.
pub(crate) struct JoinEnds;

impl<T, J> Join<LaneView<T, J>> for JoinEnds {
    ghost use Rattle.morsel_words.specs.CloseSteps.{joined_view, spent_view};

    ghost both = { joined_view };

    ghost spent = { spent_view };
}

/// Whether the receiver waits for a value, in a lane with this state.
fn awaits_value(state: u64) -> bool
    ensures { result ≡ awaits_value (has_bit state 1) (has_bit state 4) }
{
    !has(state, FULL) && has(state, WAITING)
}

/// Whether the sender waits for room, in a lane with this state.
fn awaits_room(state: u64) -> bool
    ensures { result ≡ awaits_room (has_bit state 1) (has_bit state 4) }
{
    has(state, FULL) && has(state, WAITING)
}

/// Closes the lane at its sending end: what was sent is not all. Answers whether the receiver waited.
pub(crate) fn end_cut<T: Message>(lane: &LaneWords<T>, seat: &mut LaneSeat<T>) -> bool
    requires table { (seat.old.table_id ≡ lane.now.table_id) × (lane.now.table_id.words ≡ 3) }
    requires sender { (seat.old.me.0.part ≡ part.Sender) × (seat.old.me.0.sending.phase ≡ sending.Idle) }
    ensures same { seat.new.table_id ≡ seat.old.table_id }
    ensures ended { seat.new.me ≡ (noted seat.old.me.0 (at_phase seat.old.me.0.sending (sending.Ended false)) (found.Closing result), seat.old.me.1) }
{
    awaits_value(lane.fetch_or::<EndCut>(seat, 0, CLOSED))
}

/// Closes the lane at its sending end: all was sent. Answers whether the receiver waited.
pub(crate) fn end_whole<T: Message>(lane: &LaneWords<T>, seat: &mut LaneSeat<T>) -> bool
    requires table { (seat.old.table_id ≡ lane.now.table_id) × (lane.now.table_id.words ≡ 3) }
    requires sender { (seat.old.me.0.part ≡ part.Sender) × (seat.old.me.0.sending.phase ≡ sending.Idle) }
    ensures same { seat.new.table_id ≡ seat.old.table_id }
    ensures ended { seat.new.me ≡ (noted seat.old.me.0 (at_phase seat.old.me.0.sending (sending.Ended true)) (found.Closing result), seat.old.me.1) }
{
    awaits_value(lane.fetch_or::<EndWhole>(seat, 0, CLOSED | WHOLE))
}

/// Closes the lane at its receiving end. Answers whether the sender waited.
pub(crate) fn shut<T: Message>(lane: &LaneWords<T>, seat: &mut LaneSeat<T>) -> bool
    requires table { (seat.old.table_id ≡ lane.now.table_id) × (lane.now.table_id.words ≡ 3) }
    requires receiver { (seat.old.me.0.part ≡ part.Receiver) × ((ended : Option Ended) × (seat.old.me.0.taking.phase ≡ phase_at ended)) }
    ensures same { seat.new.table_id ≡ seat.old.table_id }
    ensures shut { seat.new.me ≡ (take_noted seat.old.me.0 (takes_at seat.old.me.0.taking taking.Shut) (found.Closing result), seat.old.me.1) }
{
    awaits_room(lane.fetch_or::<ShutLane>(seat, 0, CLOSED))
}

/// Brings the seats of both ends together: what was sent is what was taken.
pub(crate) fn agree_seats<T: Message>(
    lane: &LaneWords<T>,
    sent: &mut LaneSeat<T>,
    taken: LaneSeat<T>,
)
    requires table { (sent.old.table_id ≡ lane.now.table_id) × (taken.table_id ≡ lane.now.table_id) × (lane.now.table_id.words ≡ 3) }
    requires sender { (sent.old.me.0.part ≡ part.Sender) × (sent.old.me.0.sending.phase ≡ sending.Ended true) }
    requires receiver { (taken.me.0.part ≡ part.Receiver) × (taken.me.0.taking.phase ≡ taking.Done true) × (taken.me.1 ≡ []) }
    ensures agreed { sent.old.me.0.sending.sent ≡ taken.me.0.taking.taken }
{
    lane.join_seat::<JoinEnds>(sent, taken);
    lane.load::<SeekAgreed>(sent, 0);
}
