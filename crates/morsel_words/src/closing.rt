//! The close of a lane between threads, and what both ends know once it has ended whole.
ghost use Rattle.std.specs.Prelude.{◌≡◌, true, false, List, Option, [], Some};
ghost use Rattle.morsel_prims.specs.declared.lane.Ended.{Ended};
ghost use Rattle.morsel_words.specs.Ends.{phase_at};
ghost use Rattle.morsel_words.specs.Since.{FoundWaiter, IsNumberOf};
ghost use Rattle.morsel_words.specs.declared.view.Found.{Found};
ghost use Rattle.morsel_words.specs.declared.view.Found.TheVariants as found;
ghost use Rattle.morsel_words.specs.declared.view.Sending.TheVariants as sending;
ghost use Rattle.morsel_words.specs.declared.view.LanePart.TheVariants as part;

use crate::close_word::{agree_seats, end_cut, end_whole, shut};
use crate::receiver::WordReceiver;
use crate::sender::{LaneTable, WordSender};
use crate::sending::task_of;
use crate::take_word::take_sender;
use crate::word::{LaneSeat, LaneWords, take_waiter};
use morsel_meaning::TaskNo;
use morsel_prims::Message;
use std::alloc::Global;
use std::marker::Model;
use std::sync::Arc;

/// All that was sent through a lane that its sender has finished.
#[derive(Drop)]
pub struct WordSent<T: Message> {
    table: Arc<LaneTable<T>, Global>,
    seat: LaneSeat<T>,
}

impl<T: Message> Model for WordSent<T> {
    ghost use Rattle.morsel_words.specs.Ends.{SentSeen, sent_seen, IsSent};
    ghost use Rattle.std.specs.Arc.{arc_value};

    ghost Value = { SentSeen T };

    ghost view = { λ receipt. sent_seen receipt.seat };

    ghost invariant = { λ receipt. IsSent (arc_value receipt.table).shared.table_id receipt.seat };
}

/// All that was taken from a lane that ended whole.
#[derive(Drop)]
pub struct WordTaken<T: Message> {
    seat: LaneSeat<T>,
}

impl<T: Message> Model for WordTaken<T> {
    ghost use Rattle.morsel_words.specs.Ends.{TakenSeen, taken_seen, IsTaken};

    ghost Value = { TakenSeen T };

    ghost view = { λ receipt. taken_seen receipt.seat };

    ghost invariant = { λ receipt. IsTaken receipt.seat };
}

fn finish_seat<T: Message>(lane: &LaneWords<T>, seat: &mut LaneSeat<T>) -> Option<TaskNo>
    requires table { (seat.old.table_id ≡ lane.now.table_id) × (lane.now.table_id.words ≡ 3) }
    requires sender { (seat.old.me.0.part ≡ part.Sender) × (seat.old.me.0.sending.phase ≡ sending.Idle) × (seat.old.me.1 ≡ []) }
    ensures same { seat.new.table_id ≡ seat.old.table_id }
    ensures sender { (seat.new.me.0.part ≡ part.Sender) × (seat.new.me.0.sending.phase ≡ sending.Ended true) × (seat.new.me.1 ≡ []) }
    ensures sent { seat.new.me.0.sending.sent ≡ seat.old.me.0.sending.sent }
    ensures waiter { FoundWaiter found.Closing seat.old.me.0.found seat.new.me.0.found result }
{
    if !end_whole(lane, seat) {
        return None;
    }
    task_of(take_waiter(lane, seat))
}

fn cut_seat<T: Message>(lane: &LaneWords<T>, seat: &mut LaneSeat<T>) -> Option<TaskNo>
    requires table { (seat.old.table_id ≡ lane.now.table_id) × (lane.now.table_id.words ≡ 3) }
    requires sender { (seat.old.me.0.part ≡ part.Sender) × (seat.old.me.0.sending.phase ≡ sending.Idle) × (seat.old.me.1 ≡ []) }
    ensures waiter { FoundWaiter found.Closing seat.old.me.0.found seat.new.me.0.found result }
{
    if !end_cut(lane, seat) {
        return None;
    }
    task_of(take_waiter(lane, seat))
}

fn shut_seat<T: Message>(lane: &LaneWords<T>, seat: &mut LaneSeat<T>) -> Option<TaskNo>
    requires table { (seat.old.table_id ≡ lane.now.table_id) × (lane.now.table_id.words ≡ 3) }
    requires receiver { (seat.old.me.0.part ≡ part.Receiver) × ((ended : Option Ended) × (seat.old.me.0.taking.phase ≡ phase_at ended)) }
    ensures waiter { FoundWaiter found.Closing seat.old.me.0.found seat.new.me.0.found result }
{
    if !shut(lane, seat) {
        return None;
    }
    task_of(take_sender(lane, seat))
}

impl<T: Message> WordSender<T> {
    /// Closes the lane: all was sent. Answers what was sent, and the task that waited for a value.
    pub fn finish(self) -> (WordSent<T>, Option<TaskNo>)
        ensures lane { result.0.table ≡ self.table }
        ensures sent { result.0.sent ≡ self.sent }
        ensures waiter { FoundWaiter found.Closing self.found result.0.found result.1 }
    {
        let WordSender { table, mut seat } = self;
        let task = finish_seat(&table.shared, &mut seat);
        (WordSent { table, seat }, task)
    }

    /// Closes the lane: what was sent is not all. Answers the task that waited for a value.
    pub fn cut(self) -> Option<TaskNo>
        ensures waiter { (steps : List Found) × FoundWaiter found.Closing self.found steps result }
    {
        let WordSender { table, mut seat } = self;
        cut_seat(&table.shared, &mut seat)
    }
}

impl<T: Message> WordReceiver<T> {
    /// Closes the lane. What was sent and not taken stays untaken. Answers the task that waited for room.
    pub fn cut(self) -> Option<TaskNo>
        ensures waiter { (steps : List Found) × FoundWaiter found.Closing self.found steps result }
    {
        let WordReceiver {
            table,
            mut seat,
            ended: _,
        } = self;
        shut_seat(&table.shared, &mut seat)
    }

    /// What the receiver of a lane that ended whole has taken is all.
    pub fn receipt(self) -> WordTaken<T>
        requires whole { self.ended ≡ Some Ended.Whole }
        ensures lane { result.table ≡ self.table }
        ensures taken { result.taken ≡ self.taken }
    {
        let WordReceiver {
            table: _,
            seat,
            ended: _,
        } = self;
        WordTaken { seat }
    }
}

/// What was sent through a lane is what was taken from it.
pub fn agree_receipts<T: Message>(sent: WordSent<T>, taken: WordTaken<T>)
    requires lane { sent.table ≡ taken.table }
    ensures same { sent.sent ≡ taken.taken }
{
    let WordSent { table, mut seat } = sent;
    let WordTaken { seat: other } = taken;
    agree_seats(&table.shared, &mut seat, other);
}
