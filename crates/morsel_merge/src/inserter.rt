//! The sending end of one of the lanes that a linearizer merges.
ghost use Rattle.std.specs.Prelude.{◌≡◌, map, IfOk, IfErr};
ghost use Rattle.morsel_meaning.specs.declared.fault.Fault.TheVariants.{OutOfMemory};

use morsel_meaning::Fault;
use morsel_prims::{Cx, LaneSender, Lanes, Message, Poll, Tokens};
use std::alloc::Global;

/// The sending end of one of the lanes that a linearizer merges.
#[derive(Drop)]
pub struct Inserter<T: Message, M: Tokens + Lanes<T>> {
    /// The end of the lane.
    pub sender: M::Sender,
}

impl<T: Message, M: Tokens + Lanes<T>> Inserter<T, M> {
    ghost use Rattle.std.specs.Prelude.{◌++◌, None, Some, IfSome, IsSome, OnOk, OnErr};
    ghost use Rattle.morsel_prims.specs.Polled.{IfReady, OnPending, UnlessClosed, held_list};
    ghost use Rattle.morsel_prims.specs.Waiting.{KeepsOthersWaiting, KeepsWaiting};
    ghost use Rattle.morsel_prims.specs.Woken.{AreFoundWoken, KeepsWakes};

    /// Sends the value that `value` holds, or registers who polls where the lane is full.
    pub fn poll_insert(
        &mut self,
        cx: &mut Cx<M::Board>,
        value: &mut Option<T>,
    ) -> Poll<Result<(), T>>
        requires home { M.Sender.home self.old.sender ≡ (M.Board.id cx.old.board).lane_table }
        requires some { IsSome value.old }
        requires suits { IfSome value.old (T.suits (M.Sender.job self.old.sender)) }
        ensures same_end { (M.Sender.home self.new.sender ≡ M.Sender.home self.old.sender) × (M.Sender.lane self.new.sender ≡ M.Sender.lane self.old.sender) × (M.Sender.room self.new.sender ≡ M.Sender.room self.old.sender) × (M.Sender.job self.new.sender ≡ M.Sender.job self.old.sender) × (M.Sender.wait_places self.new.sender ≡ M.Sender.wait_places self.old.sender) }
        ensures same_board { M.Board.id cx.new.board ≡ M.Board.id cx.old.board }
        ensures same_task { cx.new.me ≡ cx.old.me }
        ensures keeps_waiting { KeepsOthersWaiting (M.Sender.wait_places self.old.sender) cx.old.me (M.Board.waits_at cx.old.board) (M.Board.waits_at cx.new.board) cx.new.wakes }
        ensures wakes { KeepsWakes cx.old.wakes cx.new.wakes }
        // What is sent, and then what is held, is what it was, unless the receiver has closed.
        ensures sent { UnlessClosed result (M.Sender.sent self.new.sender ++ held_list value.new ≡ M.Sender.sent self.old.sender ++ held_list value.old) }
        ensures left { IfReady result (λ answer. value.new ≡ None) }
        ensures room { IfReady result (λ answer. OnOk answer (M.Sender.found_room cx.new.board self.old.sender self.new.sender)) }
        ensures woken { IfReady result (λ answer. OnOk answer (AreFoundWoken (M.Sender.found_waiting cx.old.board self.old.sender self.new.sender) cx.new.wakes)) }
        ensures back { IfReady result (λ answer. IfErr answer (λ refused. value.old ≡ Some refused)) }
        ensures err { IfReady result (λ answer. OnErr answer (M.Sender.sent self.new.sender ≡ M.Sender.sent self.old.sender)) }
        ensures closed { IfReady result (λ answer. OnErr answer (M.Sender.found_closed cx.new.board self.old.sender self.new.sender)) }
        ensures same_value { OnPending result (value.new ≡ value.old) }
        ensures same_sent { OnPending result (M.Sender.sent self.new.sender ≡ M.Sender.sent self.old.sender) }
        ensures full { OnPending result (M.Sender.found_full cx.new.board self.old.sender self.new.sender) }
        ensures registered { OnPending result (M.Sender.registered cx.new.board self.old.sender self.new.sender cx.old.me) }
    {
        self.sender.poll_send(cx, value)
    }

    /// Closes the lane: all was sent.
    pub fn finish(self, cx: &mut Cx<M::Board>) -> <M::Sender as LaneSender<T, M::Board>>::Receipt
        requires home { M.Sender.home self.sender ≡ (M.Board.id cx.old.board).lane_table }
        ensures lane { (M.Sender.receipt_lane result ≡ M.Sender.lane self.sender) × (M.Sender.receipt_home result ≡ M.Sender.home self.sender) }
        ensures sent { M.Sender.all_sent result ≡ M.Sender.sent self.sender }
        ensures finished { M.Sender.has_finished cx.new.board result }
        ensures woken { AreFoundWoken (M.Sender.found_waiting_finish cx.old.board self.sender result) cx.new.wakes }
        ensures same_board { M.Board.id cx.new.board ≡ M.Board.id cx.old.board }
        ensures same_task { cx.new.me ≡ cx.old.me }
        ensures keeps_waiting { KeepsWaiting (M.Board.waits_at cx.old.board) (M.Board.waits_at cx.new.board) cx.new.wakes }
        ensures wakes { KeepsWakes cx.old.wakes cx.new.wakes }
    {
        let Inserter { sender } = self;
        sender.finish(cx)
    }

    /// Closes the lane: what was sent is not all.
    pub fn cut(self, cx: &mut Cx<M::Board>)
        requires home { M.Sender.home self.sender ≡ (M.Board.id cx.old.board).lane_table }
        ensures cut { M.Sender.has_cut cx.new.board self.sender }
        ensures woken { AreFoundWoken (M.Sender.found_waiting_cut cx.old.board self.sender) cx.new.wakes }
        ensures same_board { M.Board.id cx.new.board ≡ M.Board.id cx.old.board }
        ensures same_task { cx.new.me ≡ cx.old.me }
        ensures keeps_waiting { KeepsWaiting (M.Board.waits_at cx.old.board) (M.Board.waits_at cx.new.board) cx.new.wakes }
        ensures wakes { KeepsWakes cx.old.wakes cx.new.wakes }
    {
        let Inserter { sender } = self;
        sender.cut(cx)
    }
}

/// These ends, as inserters.
pub fn inserters_of<T: Message, M: Tokens + Lanes<T>>(
    alloc: Global,
    senders: Vec<M::Sender>,
) -> Result<Vec<Inserter<T, M>>, Fault>
    ensures same { IfOk result (λ inserters. map (λ inserter. inserter.sender) inserters.items ≡ senders.items) }
    ensures out_of_memory { IfErr result (λ fault. fault ≡ OutOfMemory) }
{
    let mut inserters = Vec::with_capacity(alloc, senders.len())?;
    for sender in senders {
        inserters.push(Inserter { sender })?;
    }
    Ok(inserters)
}
