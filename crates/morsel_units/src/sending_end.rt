//! The end through which a unit sends what it made.
ghost use Rattle.std.specs.Prelude.{◌≡◌, None, ◌++◌, IfOk, IfSome, IsSome, OnOk, OnErr, IsOkUnless};
ghost use Rattle.morsel_meaning.specs.declared.fault.Fault.TheVariants.{OutOfMemory};
ghost use Rattle.morsel_prims.specs.Polled.{IfReady, OnPending, held_list};
ghost use Rattle.morsel_prims.specs.Waiting.{KeepsOthersWaiting, KeepsWaiting};
ghost use Rattle.morsel_prims.specs.Woken.{KeepsWakes};
ghost use Rattle.morsel_merge.specs.Boards.{OnEarlierEnd};

use morsel_lane_pipe::{LoadOf, Room, SentOf};
use morsel_load::{Load, LoadJob};
use morsel_meaning::Fault;
use morsel_prims::{Cx, LaneReceiver, LaneSender, Lanes, Message, Poll, Tokens};
use std::alloc::Global;

/// The end through which a unit sends loads, and the load that waits for room.
#[derive(Drop)]
pub struct SendingEnd<
    L: Tokens + Lanes<Load<<L as Tokens>::Token, J>>,
    J: LoadJob<<L as Tokens>::Token>,
> {
    /// The end of the lane.
    pub to: L::Sender,
    /// What was made, and is not sent yet.
    pub held: Option<LoadOf<L, J>>,
    /// Room for its receipt.
    pub sent: Room<SentOf<L, J>>,
}

impl<L: Tokens + Lanes<Load<<L as Tokens>::Token, J>>, J: LoadJob<<L as Tokens>::Token>> SendingEnd<
    L,
    J,
> {
    /// An end that holds nothing.
    pub fn new(alloc: Global, to: L::Sender) -> Result<SendingEnd<L, J>, Fault>
        ensures to { IfOk result (λ end. (end.to ≡ to) × (end.held ≡ None)) }
        ensures out_of_memory { IsOkUnless result OutOfMemory }
    {
        Ok(SendingEnd {
            to,
            held: None,
            sent: Room::new(alloc)?,
        })
    }

    /// Sends what is held, or registers where there is no room. Where the receiver has closed it stays held.
    pub fn poll_give(&mut self, cx: &mut Cx<L::Board>) -> Poll<Result<(), ()>>
        requires home { L.Sender.home self.old.to ≡ (L.Board.id cx.old.board).lane_table }
        requires some { IsSome self.old.held }
        requires suits { IfSome self.old.held (⟦<Load<L::Token, J> as Message>⟧.suits (L.Sender.job self.old.to)) }
        ensures same_end { (L.Sender.home self.new.to ≡ L.Sender.home self.old.to) × (L.Sender.lane self.new.to ≡ L.Sender.lane self.old.to) × (L.Sender.job self.new.to ≡ L.Sender.job self.old.to) × (L.Sender.wait_places self.new.to ≡ L.Sender.wait_places self.old.to) }
        ensures sent { IfReady result (λ answer. OnOk answer ((self.new.held ≡ None) × (L.Sender.sent self.new.to ++ held_list self.new.held ≡ L.Sender.sent self.old.to ++ held_list self.old.held))) }
        ensures room { IfReady result (λ answer. OnOk answer (L.Sender.found_room cx.new.board self.old.to self.new.to)) }
        ensures kept { IfReady result (λ answer. OnErr answer ((self.new.held ≡ self.old.held) × (L.Sender.sent self.new.to ≡ L.Sender.sent self.old.to))) }
        ensures closed { IfReady result (λ answer. OnErr answer (L.Sender.found_closed cx.new.board self.old.to self.new.to)) }
        ensures same { OnPending result ((self.new.held ≡ self.old.held) × (L.Sender.sent self.new.to ≡ L.Sender.sent self.old.to)) }
        ensures waits { OnPending result (L.Sender.registered cx.new.board self.old.to self.new.to cx.old.me × L.Sender.found_full cx.new.board self.old.to self.new.to) }
        ensures keeps_waiting { KeepsOthersWaiting (L.Sender.wait_places self.old.to) cx.old.me (L.Board.waits_at cx.old.board) (L.Board.waits_at cx.new.board) cx.new.wakes }
        ensures same_board { L.Board.id cx.new.board ≡ L.Board.id cx.old.board }
        ensures same_task { cx.new.me ≡ cx.old.me }
        ensures wakes { KeepsWakes cx.old.wakes cx.new.wakes }
    {
        match self.to.poll_send(cx, &mut self.held) {
            Poll::Pending => Poll::Pending,
            Poll::Ready(Ok(())) => Poll::Ready(Ok(())),
            Poll::Ready(Err(refused)) => {
                self.held = Some(refused);
                Poll::Ready(Err(()))
            }
        }
    }

    /// Cuts a receiving end, and then this one.
    pub fn cut_after(self, from: L::Receiver, cx: &mut Cx<L::Board>)
        requires home { (L.Receiver.home from ≡ (L.Board.id cx.old.board).lane_table) × (L.Sender.home self.to ≡ (L.Board.id cx.old.board).lane_table) }
        ensures from { OnEarlierEnd L.Board.waits_at cx.new.board cx.new.wakes (λ board. L.Receiver.has_cut board from) }
        ensures to { L.Sender.has_cut cx.new.board self.to }
        ensures keeps_waiting { KeepsWaiting (L.Board.waits_at cx.old.board) (L.Board.waits_at cx.new.board) cx.new.wakes }
        ensures same_board { L.Board.id cx.new.board ≡ L.Board.id cx.old.board }
        ensures same_task { cx.new.me ≡ cx.old.me }
        ensures wakes { KeepsWakes cx.old.wakes cx.new.wakes }
    {
        let SendingEnd { to, .. } = self;
        from.cut(cx);
        to.cut(cx);
    }
}
