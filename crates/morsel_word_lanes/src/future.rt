//! A send and a receive that may have to wait, as values that are polled until they answer.
ghost use Rattle.std.specs.Prelude.{◌≡◌, ◌+◌, ◌++◌, ◌↔◌, true, false, [], ◌∷◌, None, Some, Err, IsSome, IsNone, IfSome, IfOk, OnOk, OnErr, IfErr};
ghost use Rattle.morsel_prims.specs.Polled.{IfReady, OnPending, UnlessClosed, ByEnd, held_list};
ghost use Rattle.morsel_prims.specs.Woken.{AreFoundWoken, KeepsWakes};
ghost use Rattle.morsel_prims.specs.declared.poll.Poll.TheVariants.{Ready};
ghost use Rattle.morsel_prims.specs.declared.lane.Ended.{Ended};
ghost use Rattle.morsel_words.specs.Since.{WasFound};
ghost use Rattle.morsel_words.specs.declared.view.Found.TheVariants as found;
ghost use Rattle.morsel_word_lanes.specs.Ends.{FoundWaiting};

use crate::receiver::Receiver;
use crate::sender::Sender;
use morsel_prims::{Cx, Ended, LaneReceiver, LaneSender, Message, Poll};
use std::marker::Model;
use std::snapshot::Snapshot;

/// A value that is to be sent. It is polled with the end that it is for, until it answers.
#[derive(Drop)]
pub struct SendFuture<T: Message> {
    held: Option<T>,
    by: Snapshot<Sender<T>>,
}

impl<T: Message> Model for SendFuture<T> {
    ghost use Rattle.std.specs.Prelude.{IfSome};
    ghost use Rattle.morsel_word_lanes.specs.Ends.{ToSend};

    ghost Value = { ToSend T T.Job };

    ghost view = { λ it. record { table = it.by.value.table; job = it.by.value.job; value = it.held } };

    ghost invariant = { λ it. IfSome it.held (T.suits it.by.value.job) };
}

/// A value that is to be received. It is polled with the end that it is from, until it answers.
#[derive(Drop)]
pub struct RecvFuture {
    done: bool,
}

impl Model for RecvFuture {
    ghost use Rattle.std.specs.Prelude.{Bool};

    ghost Value = { Bool };

    ghost view = { λ it. it.done };
}

impl<T: Message> Sender<T> {
    /// The sending of this value.
    pub fn send(&mut self, value: T) -> SendFuture<T>
        requires suits { T.suits self.old.job value }
        ensures end { (result.table ≡ self.old.table) × (result.job ≡ self.old.job) }
        ensures value { result.value ≡ Some value }
        ensures unchanged { self.new ≡ self.old }
    {
        SendFuture {
            held: Some(value),
            by: Snapshot::of(self),
        }
    }
}

impl<T: Message> SendFuture<T> {
    /// Sends the value, hands it back where the receiver has closed, or registers who polls where the lane is full.
    pub fn poll(&mut self, sender: &mut Sender<T>, cx: &mut Cx<()>) -> Poll<Result<(), T>>
        requires unfinished { IsSome self.old.value }
        requires end { (self.old.table ≡ sender.old.table) × (self.old.job ≡ sender.old.job) }
        ensures same_end { (sender.new.table ≡ sender.old.table) × (sender.new.job ≡ sender.old.job) }
        ensures same_future { (self.new.table ≡ self.old.table) × (self.new.job ≡ self.old.job) }
        ensures same_task { cx.new.me ≡ cx.old.me }
        ensures wakes { KeepsWakes cx.old.wakes cx.new.wakes }
        ensures sent { UnlessClosed result (sender.new.sent ++ held_list self.new.value ≡ sender.old.sent ++ held_list self.old.value) }
        ensures done { IfReady result (λ answer. self.new.value ≡ None) }
        ensures room { IfReady result (λ answer. OnOk answer (WasFound sender.old.found sender.new.found found.Room)) }
        ensures woken { IfReady result (λ answer. OnOk answer (AreFoundWoken (FoundWaiting found.Sent sender.old.found sender.new.found) cx.new.wakes)) }
        ensures back { IfReady result (λ answer. IfErr answer (λ refused. self.old.value ≡ Some refused)) }
        ensures err { IfReady result (λ answer. OnErr answer (sender.new.sent ≡ sender.old.sent)) }
        ensures closed { IfReady result (λ answer. OnErr answer (WasFound sender.old.found sender.new.found found.Closed)) }
        ensures same_value { OnPending result (self.new.value ≡ self.old.value) }
        ensures same_sent { OnPending result (sender.new.sent ≡ sender.old.sent) }
        ensures full { OnPending result (WasFound sender.old.found sender.new.found found.Full) }
        ensures registered { OnPending result (WasFound sender.old.found sender.new.found (found.Waits (cx.old.me.0 + 1))) }
    {
        sender.poll_send(cx, &mut self.held)
    }

    /// Whether it has answered.
    pub fn is_done(&self) -> bool
        ensures done { IsNone self.now.value ↔ (result ≡ true) }
    {
        self.held.is_none()
    }
}

impl<T: Message> Receiver<T> {
    /// The receiving of the next value.
    pub fn recv(&mut self) -> RecvFuture
        ensures unfinished { result ≡ false }
        ensures unchanged { self.new ≡ self.old }
    {
        RecvFuture { done: false }
    }
}

impl RecvFuture {
    /// Takes the next value, tells how the lane ended, or registers who polls where there is none.
    pub fn poll<T: Message>(
        &mut self,
        receiver: &mut Receiver<T>,
        cx: &mut Cx<()>,
    ) -> Poll<Result<T, Ended>>
        requires unfinished { self.old ≡ false }
        ensures same_end { (receiver.new.table ≡ receiver.old.table) × (receiver.new.job ≡ receiver.old.job) }
        ensures same_task { cx.new.me ≡ cx.old.me }
        ensures wakes { KeepsWakes cx.old.wakes cx.new.wakes }
        ensures done { IfReady result (λ answer. self.new ≡ true) }
        ensures ok { IfReady result (λ answer. IfOk answer (λ value. receiver.new.taken ≡ receiver.old.taken ++ value ∷ [])) }
        ensures suits { IfReady result (λ answer. IfOk answer (T.suits receiver.old.job)) }
        ensures unended { IfReady result (λ answer. OnOk answer (receiver.new.ended ≡ None)) }
        ensures woken { IfReady result (λ answer. OnOk answer (AreFoundWoken (FoundWaiting found.Took receiver.old.found receiver.new.found) cx.new.wakes)) }
        ensures err { IfReady result (λ answer. OnErr answer (receiver.new.taken ≡ receiver.old.taken)) }
        ensures ended { IfReady result (λ answer. IfErr answer (λ end. receiver.new.ended ≡ Some end)) }
        ensures waits { OnPending result (self.new ≡ false) }
        ensures same_taken { OnPending result (receiver.new.taken ≡ receiver.old.taken) }
        ensures pending { OnPending result (receiver.new.ended ≡ None) }
        ensures empty { OnPending result (WasFound receiver.old.found receiver.new.found found.Empty) }
        ensures registered { OnPending result (WasFound receiver.old.found receiver.new.found (found.Waits (cx.old.me.0 + 1))) }
        ensures stays { IfSome receiver.old.ended (λ end. result ≡ Ready (Err end)) }
    {
        let answer = receiver.poll_recv(cx);
        self.done = matches!(answer, Poll::Ready(_));
        answer
    }

    /// Whether it has answered.
    pub fn is_done(&self) -> bool
        ensures done { result ≡ self.now }
    {
        self.done
    }
}
