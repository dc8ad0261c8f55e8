//! The calls of a receiver, step by step.
ghost use Rattle.std.specs.Prelude.{◌≡◌, ◌+◌, ◌≤◌, ◌++◌, Bool, true, false, [], ◌∷◌, ⊤, None, Some, Err, IfOk, OnOk, OnErr, IfErr, IfSome};
ghost use Rattle.morsel_prims.specs.Polled.{ByRefusal};
ghost use Rattle.morsel_prims.specs.declared.lane.Ended.{Ended};
ghost use Rattle.morsel_words.specs.Ends.{phase_at, answer_at};
ghost use Rattle.morsel_words.specs.Since.{WasFound, Follows, FoundWaiter, TookWaiter, IsNumberOf};
ghost use Rattle.morsel_words.specs.declared.view.Found.TheVariants as found;
ghost use Rattle.morsel_words.specs.declared.view.Taking.TheVariants as taking;
ghost use Rattle.morsel_words.specs.declared.view.LanePart.TheVariants as part;

use crate::sending::task_of;
use crate::take_word::{ask_to_take, empty_lane, look_to_take, register_to_take, take_sender};
use crate::word::{LaneSeat, LaneWords};
use morsel_meaning::TaskNo;
use morsel_prims::{Ended, Message, RecvError};

/// What a receiver that has seen the end answers.
fn answer_of(end: Ended) -> RecvError
    ensures { result ≡ answer_at end }
{
    match end {
        Ended::Whole => RecvError::Whole,
        Ended::Cut => RecvError::Cut,
    }
}

/// Counts the value, which the receiver has out of the slot, as taken, and answers who waited for that.
fn take<T: Message>(lane: &LaneWords<T>, seat: &mut LaneSeat<T>, value: T) -> (T, Option<TaskNo>)
    requires table { (seat.old.table_id ≡ lane.now.table_id) × (lane.now.table_id.words ≡ 3) }
    requires receiver { (seat.old.me.0.part ≡ part.Receiver) × (seat.old.me.0.taking.phase ≡ taking.Has value) }
    requires slot { seat.old.me.1 ≡ (0, None) ∷ [] }
    ensures same { (seat.new.table_id ≡ seat.old.table_id) × (seat.new.me.0.job ≡ seat.old.me.0.job) }
    ensures receiver { (seat.new.me.0.part ≡ part.Receiver) × (seat.new.me.0.taking.phase ≡ taking.Idle) × (seat.new.me.1 ≡ []) }
    ensures follows { Follows seat.old.me.0.found seat.new.me.0.found }
    ensures value { result.0 ≡ value }
    ensures taken { seat.new.me.0.taking.taken ≡ seat.old.me.0.taking.taken ++ value ∷ [] }
    ensures waiter { FoundWaiter found.Took seat.old.me.0.found seat.new.me.0.found result.1 }
{
    if !empty_lane(lane, seat) {
        return (value, None);
    }
    let task = task_of(take_sender(lane, seat));
    (value, task)
}

/// Takes the next value, and answers who waited for room; or why there is none. `ended` is how the receiver has found the lane ended.
pub(crate) fn receive<T: Message>(
    lane: &LaneWords<T>,
    seat: &mut LaneSeat<T>,
    ended: &mut Option<Ended>,
) -> Result<(T, Option<TaskNo>), RecvError>
    requires table { (seat.old.table_id ≡ lane.now.table_id) × (lane.now.table_id.words ≡ 3) }
    requires receiver { (seat.old.me.0.part ≡ part.Receiver) × (seat.old.me.0.taking.phase ≡ phase_at ended.old) × (seat.old.me.1 ≡ []) }
    requires job { seat.old.me.0.job ≡ Some lane.now.key }
    ensures same { (seat.new.table_id ≡ seat.old.table_id) × (seat.new.me.0.job ≡ seat.old.me.0.job) }
    ensures receiver { (seat.new.me.0.part ≡ part.Receiver) × (seat.new.me.0.taking.phase ≡ phase_at ended.new) × (seat.new.me.1 ≡ []) }
    ensures follows { Follows seat.old.me.0.found seat.new.me.0.found }
    ensures ok { IfOk result (λ got. seat.new.me.0.taking.taken ≡ seat.old.me.0.taking.taken ++ got.0 ∷ []) }
    ensures suits { IfOk result (λ got. T.suits lane.now.key got.0) }
    ensures held { OnOk result (WasFound seat.old.me.0.found seat.new.me.0.found (found.Held true)) }
    ensures waiter { IfOk result (TookWaiter seat.old.me.0.found seat.new.me.0.found) }
    ensures going { OnOk result (ended.new ≡ None) }
    ensures err { OnErr result (seat.new.me.0.taking.taken ≡ seat.old.me.0.taking.taken) }
    ensures refused { IfErr result (λ refused. ByRefusal refused ((ended.new ≡ None) × WasFound seat.old.me.0.found seat.new.me.0.found found.Empty) (ended.new ≡ Some Ended.Whole) (ended.new ≡ Some Ended.Cut)) }
    ensures stays { IfSome ended.old (λ end. result ≡ Err (answer_at end)) }
{
    if let Some(end) = *ended {
        return Err(answer_of(end));
    }
    match look_to_take(lane, seat) {
        Ok(value) => Ok(take(lane, seat, value)),
        Err(RecvError::Empty) => Err(RecvError::Empty),
        Err(RecvError::Whole) => {
            *ended = Some(Ended::Whole);
            Err(RecvError::Whole)
        }
        Err(RecvError::Cut) => {
            *ended = Some(Ended::Cut);
            Err(RecvError::Cut)
        }
    }
}

/// Asks to be woken as `me` once there is a value, and answers that there is none; or takes the next value, where there is one by then.
pub(crate) fn wait_to_take<T: Message>(
    lane: &LaneWords<T>,
    seat: &mut LaneSeat<T>,
    ended: &mut Option<Ended>,
    me: TaskNo,
) -> Result<(T, Option<TaskNo>), RecvError>
    requires table { (seat.old.table_id ≡ lane.now.table_id) × (lane.now.table_id.words ≡ 3) }
    requires receiver { (seat.old.me.0.part ≡ part.Receiver) × (seat.old.me.0.taking.phase ≡ phase_at ended.old) × (seat.old.me.1 ≡ []) }
    requires job { seat.old.me.0.job ≡ Some lane.now.key }
    ensures same { (seat.new.table_id ≡ seat.old.table_id) × (seat.new.me.0.job ≡ seat.old.me.0.job) }
    ensures receiver { (seat.new.me.0.part ≡ part.Receiver) × (seat.new.me.0.taking.phase ≡ phase_at ended.new) × (seat.new.me.1 ≡ []) }
    ensures follows { Follows seat.old.me.0.found seat.new.me.0.found }
    ensures ok { IfOk result (λ got. seat.new.me.0.taking.taken ≡ seat.old.me.0.taking.taken ++ got.0 ∷ []) }
    ensures suits { IfOk result (λ got. T.suits lane.now.key got.0) }
    ensures held { OnOk result (WasFound seat.old.me.0.found seat.new.me.0.found (found.Held true)) }
    ensures waiter { IfOk result (TookWaiter seat.old.me.0.found seat.new.me.0.found) }
    ensures going { OnOk result (ended.new ≡ None) }
    ensures err { OnErr result (seat.new.me.0.taking.taken ≡ seat.old.me.0.taking.taken) }
    ensures refused { IfErr result (λ refused. ByRefusal refused ((ended.new ≡ None) × WasFound seat.old.me.0.found seat.new.me.0.found found.Empty) (ended.new ≡ Some Ended.Whole) (ended.new ≡ Some Ended.Cut)) }
    ensures registered { IfErr result (λ refused. ByRefusal refused (WasFound seat.old.me.0.found seat.new.me.0.found (found.Waits (me.0 + 1))) ⊤ ⊤) }
    ensures stays { IfSome ended.old (λ end. result ≡ Err (answer_at end)) }
{
    if let Some(end) = *ended {
        return Err(answer_of(end));
    }
    register_to_take(lane, seat, u64::from(me.0) + 1);
    match ask_to_take(lane, seat) {
        Ok(value) => Ok(take(lane, seat, value)),
        Err(RecvError::Empty) => Err(RecvError::Empty),
        Err(RecvError::Whole) => {
            *ended = Some(Ended::Whole);
            Err(RecvError::Whole)
        }
        Err(RecvError::Cut) => {
            *ended = Some(Ended::Cut);
            Err(RecvError::Cut)
        }
    }
}
