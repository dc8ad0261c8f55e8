//! The unit of a node that makes one load of each that it takes.
ghost use Rattle.std.specs.Prelude.{◌≡◌, true, false, None, Some, [], ◌∷◌, ◌++◌, IfOk, OnErr, IfSome, IsSome, IsNone, IsOkUnless};
ghost use Rattle.morsel_meaning.specs.declared.fault.Fault.{Fault};
ghost use Rattle.morsel_meaning.specs.declared.fault.Fault.TheVariants.{OutOfMemory};
ghost use Rattle.morsel_prims.specs.Polled.{BoardId, IfReady, OnPending};
ghost use Rattle.morsel_prims.specs.Waiting.{KeepsOthersWaiting, KeepsWaiting};
ghost use Rattle.morsel_prims.specs.Woken.{KeepsWakes};
ghost use Rattle.morsel_merge.specs.Boards.{OnEarlierEnd};
ghost use Rattle.morsel_load.specs.Loads.{held_token};
ghost use Rattle.morsel_lane_pipe.specs.Stretches.{KeepsStretches};
ghost use Rattle.morsel_lane_pipe.specs.Tasks.{HoldsTokensOf, MakesOthers};
ghost use Rattle.morsel_lane_pipe.specs.declared.stepwise.Ending.{Ending};
ghost use Rattle.morsel_units.specs.NodeUnits.{HasTaken, IsUnit};

use crate::load_maker::LoadMaker;
use crate::sending_end::SendingEnd;
use morsel_lane_pipe::{Ending, LoadOf, Receipts, ReceiptsOf, Room, SentOf, Stepwise, TakenOf};
use morsel_load::{Load, LoadJob};
use morsel_meaning::Fault;
use morsel_prims::{Cx, Ended, LaneReceiver, LaneSender, Lanes, Message, Poll, Tokens};
use std::alloc::Global;

/// Takes loads from one lane, makes one of each, and sends that through another. It releases the token of a load before it
/// works on it.
#[derive(Drop)]
pub struct NodeUnit<
    L: Tokens + Lanes<Load<<L as Tokens>::Token, J>>,
    J: LoadJob<<L as Tokens>::Token>,
    M: LoadMaker<<L as Tokens>::Token, J> + Drop,
> {
    maker: M,
    from: L::Receiver,
    sending: SendingEnd<L, J>,
    // Whether a load was taken of which nothing could be made.
    lost: bool,
    taken: Room<TakenOf<L, J>>,
}

impl<L, J, M> NodeUnit<L, J, M>
where
    L: Tokens + Lanes<Load<<L as Tokens>::Token, J>>,
    J: LoadJob<<L as Tokens>::Token>,
    M: LoadMaker<<L as Tokens>::Token, J> + Drop,
{
    /// A unit that has taken nothing.
    pub fn new(
        alloc: Global,
        maker: M,
        from: L::Receiver,
        to: L::Sender,
    ) -> Result<NodeUnit<L, J, M>, Fault>
        requires home { L.Sender.home to ≡ L.Receiver.home from }
        requires joins { M.joins maker (L.Receiver.job from) (L.Sender.job to) }
        requires fresh { (L.Receiver.taken from ≡ []) × (L.Sender.sent to ≡ []) }
        ensures can_step { (id : BoardId) → L.Receiver.home from ≡ id.lane_table → HoldsTokensOf J.holds L.token_home (L.Receiver.job from) id.group_table → IfOk result (⟦<NodeUnit<L, J, M> as Stepwise<L::Board>>⟧.can_step id) }
        ensures seen { IfOk result (λ unit. ⟦<NodeUnit<L, J, M> as Stepwise<L::Board>>⟧.seen unit ≡ record { work = MakesOthers; home = L.Receiver.home from; from = L.Receiver.lane from ∷ []; to = L.Sender.lane to ∷ []; places = L.Receiver.wait_places from ++ L.Sender.wait_places to }) }
        ensures fails { IfOk result (λ unit. (fault : Fault) → ⟦<NodeUnit<L, J, M> as Stepwise<L::Board>>⟧.fails unit fault → M.may_fail (L.Receiver.job from) fault) }
        ensures out_of_memory { IsOkUnless result OutOfMemory }
    {
        Ok(NodeUnit {
            maker,
            from,
            sending: SendingEnd::new(alloc, to)?,
            lost: false,
            taken: Room::new(alloc)?,
        })
    }

    /// Makes a load of the one that was taken last; or tells its fault.
    fn make(&mut self, mut load: LoadOf<L, J>, cx: &mut Cx<L::Board>) -> Option<Ending>
        requires tokens { HoldsTokensOf J.holds L.token_home (L.Receiver.job self.old.from) (L.Board.id cx.old.board).group_table }
        requires suits { ⟦<Load<L::Token, J> as Message>⟧.suits (L.Receiver.job self.old.from) load }
        requires joins { M.joins self.old.maker (L.Receiver.job self.old.from) (L.Sender.job self.old.sending.to) }
        requires taken { HasTaken (L.Receiver.taken self.old.from) (L.Sender.sent self.old.sending.to) load }
        requires none { self.old.sending.held ≡ None }
        requires whole { self.old.lost ≡ false }
        ensures same_ends { (self.new.from ≡ self.old.from) × (self.new.sending.to ≡ self.old.sending.to) }
        ensures joins { M.joins self.new.maker (L.Receiver.job self.old.from) (L.Sender.job self.old.sending.to) }
        ensures made { IfSome self.new.sending.held (⟦<Load<L::Token, J> as Message>⟧.suits (L.Sender.job self.old.sending.to)) }
        ensures kept { self.new.lost ≡ false → KeepsStretches (L.Receiver.taken self.old.from) (L.Sender.sent self.old.sending.to) self.new.sending.held [] }
        ensures holds { result ≡ None → (self.new.lost ≡ false) × IsSome self.new.sending.held }
        ensures failed { IfSome result (λ ending. (fault : Fault) × (ending ≡ Ending.Failed fault) × M.may_fail (L.Receiver.job self.old.from) fault) }
        // The token is released, and not only let go: who waits for it goes on.
        ensures released { IfSome (held_token load) (L.counted_less cx.old.board cx.new.board) }
        ensures keeps_waiting { KeepsWaiting (L.Board.waits_at cx.old.board) (L.Board.waits_at cx.new.board) cx.new.wakes }
        ensures same_board { L.Board.id cx.new.board ≡ L.Board.id cx.old.board }
        ensures same_task { cx.new.me ≡ cx.old.me }
        ensures wakes { KeepsWakes cx.old.wakes cx.new.wakes }
    {
        if let Some(token) = load.take_consume_token() {
            L::release(cx, token);
        }
        match self.maker.make(load) {
            Ok(made) => {
                self.sending.held = Some(made);
                None
            }
            Err(fault) => {
                self.lost = true;
                Some(Ending::Failed(fault))
            }
        }
    }
}

impl<L, J, M> Stepwise<L::Board> for NodeUnit<L, J, M>
where
    L: Tokens + Lanes<Load<<L as Tokens>::Token, J>>,
    J: LoadJob<<L as Tokens>::Token>,
    M: LoadMaker<<L as Tokens>::Token, J> + Drop,
{
    ghost use Rattle.std.specs.Prelude.{◌⊎◌};
    ghost use Rattle.morsel_lane_pipe.specs.Tasks.{AreEndsCut, AreReceipts, IsWaiting};

    type Receipts = ReceiptsOf<L, J>;

    ghost can_step = { λ id unit. IsUnit ⟦<Load<L::Token, J> as Message>⟧.suits M.joins id.lane_table (L.Receiver.home unit.from) (L.Sender.home unit.sending.to) unit.maker (L.Receiver.job unit.from) (L.Sender.job unit.sending.to) (L.Receiver.taken unit.from) (L.Sender.sent unit.sending.to) unit.sending.held unit.lost
        × HoldsTokensOf J.holds L.token_home (L.Receiver.job unit.from) id.group_table };

    ghost is_done = { λ unit. (L.Receiver.is_whole unit.from ≡ true) × (unit.sending.held ≡ None) × (unit.lost ≡ false) };

    ghost met_cut = { λ board unit. ((L.Receiver.is_cut unit.from ≡ true) × L.Receiver.found_ended board unit.from false) ⊎ ((end : L.Sender) × L.Sender.found_closed board end unit.sending.to) };

    // It waits for a load only where it holds none.
    ghost waits = { λ me board unit. ((unit.sending.held ≡ None) × IsWaiting L.Receiver.registered L.Receiver.found_empty me board unit.from) ⊎ (IsSome unit.sending.held × IsWaiting L.Sender.registered L.Sender.found_full me board unit.sending.to) };

    ghost seen = { λ unit. record {
      work = MakesOthers;
      home = L.Receiver.home unit.from;
      from = L.Receiver.lane unit.from ∷ [];
      to = L.Sender.lane unit.sending.to ∷ [];
      places = L.Receiver.wait_places unit.from ++ L.Sender.wait_places unit.sending.to;
    } };

    ghost gives = { λ seen receipts. AreReceipts L.Receiver.receipt_home L.Receiver.receipt_lane L.Receiver.all_taken L.Sender.receipt_home L.Sender.receipt_lane L.Sender.all_sent seen receipts.taken.items receipts.sent.items };

    ghost leaves = { λ unit receipts. Unit {0} };

    ghost fails = { λ unit fault. M.may_fail (L.Receiver.job unit.from) fault };

    ghost has_cut = { λ board seen. AreEndsCut L.Board.waits_at L.Receiver.has_cut L.Receiver.lane board seen.from × AreEndsCut L.Board.waits_at L.Sender.has_cut L.Sender.lane board seen.to };

    fn step(&mut self, cx: &mut Cx<L::Board>) -> Poll<Option<Ending>> {
        // A unit that has told its fault makes no further step.
        if self.lost {
            return Poll::Ready(Some(Ending::OutOfMemory));
        }
        if self.sending.held.is_some() {
            return match self.sending.poll_give(cx) {
                Poll::Pending => Poll::Pending,
                Poll::Ready(Ok(())) => Poll::Ready(None),
                Poll::Ready(Err(())) => Poll::Ready(Some(Ending::Cut)),
            };
        }
        match self.from.poll_recv(cx) {
            Poll::Pending => Poll::Pending,
            Poll::Ready(Ok(load)) => Poll::Ready(self.make(load, cx)),
            Poll::Ready(Err(Ended::Whole)) => Poll::Ready(Some(Ending::Whole)),
            Poll::Ready(Err(Ended::Cut)) => Poll::Ready(Some(Ending::Cut)),
        }
    }

    fn finish(self, cx: &mut Cx<L::Board>) -> ReceiptsOf<L, J> {
        let NodeUnit {
            from,
            sending,
            taken,
            ..
        } = self;
        let SendingEnd { to, sent, .. } = sending;
        Receipts {
            taken: taken.filled(from.receipt()),
            sent: sent.filled(to.finish(cx)),
        }
    }

    fn cut(self, cx: &mut Cx<L::Board>) {
        let NodeUnit { from, sending, .. } = self;
        sending.cut_after(from, cx);
    }
}
