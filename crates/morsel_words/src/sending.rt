//! The calls of a sender, step by step.
ghost use Rattle.std.specs.Prelude.{◌≡◌, ◌+◌, ◌≤◌, ◌++◌, cond, Bool, [], ◌∷◌, None, Some, IfOk, OnOk, OnErr, IfErr};
ghost use Rattle.morsel_prims.specs.Polled.{refused_value, IfFull, IfClosed};
ghost use Rattle.morsel_words.specs.Since.{WasFound, Follows, FoundWaiter, IsNumberOf};
ghost use Rattle.morsel_words.specs.declared.view.Found.TheVariants as found;
ghost use Rattle.morsel_words.specs.declared.view.Sending.TheVariants as sending;
ghost use Rattle.morsel_words.specs.declared.view.LanePart.TheVariants as part;

use crate::word::{
    CLOSED, FULL, LaneSeat, LaneWords, WAITING, fill, has, look_for_value, look_to_send,
    look_to_wait, register_to_send, take_back, take_waiter,
};
use morsel_meaning::TaskNo;
use morsel_prims::{Message, SendError};

/// The task that waits under this number: one more than its own, or 0 where nobody waits.
pub fn task_of(number: u64) -> Option<TaskNo>
    requires { number ≤ 4294967296 }
    ensures { IsNumberOf number result }
{
    if number == 0 {
        return None;
    }
    Some(TaskNo((number - 1) as u32))
}

/// Sends the value through the slot that the sender has, and answers who waited for it; or hands it back where the receiver has closed.
pub(crate) fn give<T: Message>(
    lane: &LaneWords<T>,
    seat: &mut LaneSeat<T>,
    value: T,
) -> Result<Option<TaskNo>, T>
    requires table { (seat.old.table_id ≡ lane.now.table_id) × (lane.now.table_id.words ≡ 3) }
    requires sender { (seat.old.me.0.part ≡ part.Sender) × (seat.old.me.0.sending.phase ≡ sending.Has) }
    requires slot { seat.old.me.1 ≡ (0, None) ∷ [] }
    requires suits { T.suits lane.now.key value }
    ensures same { seat.new.table_id ≡ seat.old.table_id }
    ensures sender { (seat.new.me.0.part ≡ part.Sender) × (seat.new.me.0.sending.phase ≡ sending.Idle) × (seat.new.me.1 ≡ []) }
    ensures follows { Follows seat.old.me.0.found seat.new.me.0.found }
    ensures ok { OnOk result (seat.new.me.0.sending.sent ≡ seat.old.me.0.sending.sent ++ value ∷ []) }
    ensures waiter { IfOk result (FoundWaiter found.Sent seat.old.me.0.found seat.new.me.0.found) }
    ensures back { IfErr result (λ refused. refused ≡ value) }
    ensures err { OnErr result (seat.new.me.0.sending.sent ≡ seat.old.me.0.sending.sent) }
    ensures closed { OnErr result (WasFound seat.old.me.0.found seat.new.me.0.found found.Closed) }
{
    let state = fill(lane, seat, value);
    if has(state, CLOSED) {
        return Err(take_back(lane, seat));
    }
    if !has(state, WAITING) {
        return Ok(None);
    }
    Ok(task_of(take_waiter(lane, seat)))
}

/// Sends the value, and answers who waited for it; or hands it back.
pub(crate) fn send<T: Message>(
    lane: &LaneWords<T>,
    seat: &mut LaneSeat<T>,
    value: T,
) -> Result<Option<TaskNo>, SendError<T>>
    requires table { (seat.old.table_id ≡ lane.now.table_id) × (lane.now.table_id.words ≡ 3) }
    requires sender { (seat.old.me.0.part ≡ part.Sender) × (seat.old.me.0.sending.phase ≡ sending.Idle) × (seat.old.me.1 ≡ []) }
    requires suits { T.suits lane.now.key value }
    ensures same { seat.new.table_id ≡ seat.old.table_id }
    ensures sender { (seat.new.me.0.part ≡ part.Sender) × (seat.new.me.0.sending.phase ≡ sending.Idle) × (seat.new.me.1 ≡ []) }
    ensures follows { Follows seat.old.me.0.found seat.new.me.0.found }
    ensures ok { OnOk result (seat.new.me.0.sending.sent ≡ seat.old.me.0.sending.sent ++ value ∷ []) }
    ensures room { OnOk result (WasFound seat.old.me.0.found seat.new.me.0.found found.Room) }
    ensures waiter { IfOk result (FoundWaiter found.Sent seat.old.me.0.found seat.new.me.0.found) }
    ensures back { IfErr result (λ refused. refused_value refused ≡ value) }
    ensures err { OnErr result (seat.new.me.0.sending.sent ≡ seat.old.me.0.sending.sent) }
    ensures full { IfErr result (λ refused. IfFull refused (WasFound seat.old.me.0.found seat.new.me.0.found found.Full)) }
    ensures closed { IfErr result (λ refused. IfClosed refused (WasFound seat.old.me.0.found seat.new.me.0.found found.Closed)) }
{
    let state = look_to_send(lane, seat);
    if has(state, CLOSED) {
        return Err(SendError::Closed(value));
    }
    if has(state, FULL) {
        return Err(SendError::Full(value));
    }
    match give(lane, seat, value) {
        Ok(task) => Ok(task),
        Err(value) => Err(SendError::Closed(value)),
    }
}

/// Asks to be woken as `me` once the lane has room, and hands the value back; or sends it where there is room by then.
pub(crate) fn wait<T: Message>(
    lane: &LaneWords<T>,
    seat: &mut LaneSeat<T>,
    me: TaskNo,
    value: T,
) -> Result<Option<TaskNo>, SendError<T>>
    requires table { (seat.old.table_id ≡ lane.now.table_id) × (lane.now.table_id.words ≡ 3) }
    requires sender { (seat.old.me.0.part ≡ part.Sender) × (seat.old.me.0.sending.phase ≡ sending.Idle) × (seat.old.me.1 ≡ []) }
    requires suits { T.suits lane.now.key value }
    ensures same { seat.new.table_id ≡ seat.old.table_id }
    ensures sender { (seat.new.me.0.part ≡ part.Sender) × (seat.new.me.0.sending.phase ≡ sending.Idle) × (seat.new.me.1 ≡ []) }
    ensures follows { Follows seat.old.me.0.found seat.new.me.0.found }
    ensures ok { OnOk result (seat.new.me.0.sending.sent ≡ seat.old.me.0.sending.sent ++ value ∷ []) }
    ensures room { OnOk result (WasFound seat.old.me.0.found seat.new.me.0.found found.Room) }
    ensures waiter { IfOk result (FoundWaiter found.Sent seat.old.me.0.found seat.new.me.0.found) }
    ensures back { IfErr result (λ refused. refused_value refused ≡ value) }
    ensures err { OnErr result (seat.new.me.0.sending.sent ≡ seat.old.me.0.sending.sent) }
    ensures full { IfErr result (λ refused. IfFull refused (WasFound seat.old.me.0.found seat.new.me.0.found found.Full)) }
    ensures registered { IfErr result (λ refused. IfFull refused (WasFound seat.old.me.0.found seat.new.me.0.found (found.Waits (me.0 + 1)))) }
    ensures closed { IfErr result (λ refused. IfClosed refused (WasFound seat.old.me.0.found seat.new.me.0.found found.Closed)) }
{
    register_to_send(lane, seat, u64::from(me.0) + 1);
    let state = look_to_wait(lane, seat);
    if has(state, CLOSED) {
        return Err(SendError::Closed(value));
    }
    if has(state, FULL) {
        return Err(SendError::Full(value));
    }
    match give(lane, seat, value) {
        Ok(task) => Ok(task),
        Err(value) => Err(SendError::Closed(value)),
    }
}

/// How many values a step of this call found in the lane.
pub(crate) fn held<T: Message>(lane: &LaneWords<T>, seat: &mut LaneSeat<T>) -> u32
    requires table { (seat.old.table_id ≡ lane.now.table_id) × (lane.now.table_id.words ≡ 3) }
    requires sender { (seat.old.me.0.part ≡ part.Sender) × (seat.old.me.0.sending.phase ≡ sending.Idle) × (seat.old.me.1 ≡ []) }
    ensures same { seat.new.table_id ≡ seat.old.table_id }
    ensures sender { (seat.new.me.0.part ≡ part.Sender) × (seat.new.me.0.sending.phase ≡ sending.Idle) × (seat.new.me.1 ≡ []) }
    ensures sent { seat.new.me.0.sending.sent ≡ seat.old.me.0.sending.sent }
    ensures held { (some : Bool) × WasFound seat.old.me.0.found seat.new.me.0.found (found.Held some) × (result ≡ cond some 1 0) }
{
    let state = look_for_value(lane, seat);
    if has(state, FULL) { 1 } else { 0 }
}
