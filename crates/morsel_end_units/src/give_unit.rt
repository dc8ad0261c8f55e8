//! The unit of a node that gives loads of its own.
ghost use Rattle.std.specs.Prelude.{◌≡◌, ◌⊎◌, true, false, None, Some, [], ◌∷◌, ◌++◌, IfOk, IfSome, IsSome, IsOkUnless, map};
ghost use Rattle.morsel_meaning.specs.declared.fault.Fault.{Fault};
ghost use Rattle.morsel_meaning.specs.declared.fault.Fault.TheVariants.{OutOfMemory};
ghost use Rattle.morsel_prims.specs.Polled.{BoardId};
ghost use Rattle.morsel_lane_pipe.specs.Tasks.{GivesOwn};
ghost use Rattle.morsel_lane_pipe.specs.declared.stepwise.Ending.{Ending};
ghost use Rattle.morsel_end_units.specs.EndUnits.{KeepsGiving};

use crate::loads_giver::LoadsGiver;
use morsel_lane_pipe::{Ending, LoadOf, Receipts, ReceiptsOf, Stepwise};
use morsel_load::{Load, LoadJob};
use morsel_meaning::Fault;
use morsel_prims::{Cx, LaneSender, Lanes, Message, Poll, Tokens};
use morsel_units::{Finished, SendingEnd};
use std::alloc::Global;

/// Sends loads of its own through a lane.
#[derive(Drop)]
pub struct GiveUnit<
    L: Tokens + Lanes<Load<<L as Tokens>::Token, J>>,
    J: LoadJob<<L as Tokens>::Token>,
    M: LoadsGiver<<L as Tokens>::Token, J> + Drop,
> {
    alloc: Global,
    giver: M,
    sending: SendingEnd<L, J>,
    // Whether the giver has given all.
    ended: bool,
    // Whether it had a fault.
    lost: bool,
}

impl<L, J, M> GiveUnit<L, J, M>
where
    L: Tokens + Lanes<Load<<L as Tokens>::Token, J>>,
    J: LoadJob<<L as Tokens>::Token>,
    M: LoadsGiver<<L as Tokens>::Token, J> + Drop,
{
    /// A unit that has sent nothing.
    pub fn new(alloc: Global, giver: M, to: L::Sender) -> Result<GiveUnit<L, J, M>, Fault>
        requires gives_for { M.gives_for giver (L.Sender.job to) }
        requires fresh { (L.Sender.sent to ≡ []) × M.did giver [] }
        ensures can_step { (id : BoardId) → L.Sender.home to ≡ id.lane_table → IfOk result (⟦<GiveUnit<L, J, M> as Stepwise<L::Board>>⟧.can_step id) }
        ensures seen { IfOk result (λ unit. ⟦<GiveUnit<L, J, M> as Stepwise<L::Board>>⟧.seen unit ≡ record { work = GivesOwn; home = L.Sender.home to; from = []; to = L.Sender.lane to ∷ []; places = L.Sender.wait_places to }) }
        ensures fails { IfOk result (λ unit. (fault : Fault) → ⟦<GiveUnit<L, J, M> as Stepwise<L::Board>>⟧.fails unit fault → M.may_fail (L.Sender.job to) fault) }
        ensures giver { IfOk result (λ unit. unit.giver ≡ giver) }
        ensures out_of_memory { IsOkUnless result OutOfMemory }
    {
        Ok(GiveUnit {
            alloc,
            giver,
            sending: SendingEnd::new(alloc, to)?,
            ended: false,
            lost: false,
        })
    }

    /// Holds the next load; or tells that all were given, or the giver's fault.
    fn give(&mut self) -> Option<Ending>
        requires keeps { KeepsGiving M.gives_for M.left M.did self.old.giver (L.Sender.job self.old.sending.to) (L.Sender.sent self.old.sending.to) self.old.sending.held self.old.ended }
        requires none { (self.old.sending.held ≡ None) × (self.old.lost ≡ false) }
        ensures same { self.new.sending.to ≡ self.old.sending.to }
        ensures suits { IfSome self.new.sending.held (⟦<Load<L::Token, J> as Message>⟧.suits (L.Sender.job self.old.sending.to)) }
        ensures keeps { self.new.lost ≡ false → KeepsGiving M.gives_for M.left M.did self.new.giver (L.Sender.job self.old.sending.to) (L.Sender.sent self.old.sending.to) self.new.sending.held self.new.ended }
        ensures later { M.is_later self.old.giver self.new.giver }
        ensures none { result ≡ None → (self.new.lost ≡ false) × IsSome self.new.sending.held }
        ensures whole { result ≡ Some Ending.Whole → (self.new.lost ≡ false) × (self.new.ended ≡ true) × (self.new.sending.held ≡ None) }
        ensures failed { IfSome result (λ ending. (ending ≡ Ending.Whole) ⊎ ((fault : Fault) × (ending ≡ Ending.Failed fault) × M.may_fail (L.Sender.job self.old.sending.to) fault)) }
    {
        match self.giver.next() {
            Ok(Some(load)) => {
                self.sending.held = Some(load);
                None
            }
            Ok(None) => {
                self.ended = true;
                Some(Ending::Whole)
            }
            Err(fault) => {
                self.lost = true;
                Some(Ending::Failed(fault))
            }
        }
    }
}

impl<L, J, M> Stepwise<L::Board> for GiveUnit<L, J, M>
where
    L: Tokens + Lanes<Load<<L as Tokens>::Token, J>>,
    J: LoadJob<<L as Tokens>::Token>,
    M: LoadsGiver<<L as Tokens>::Token, J> + Drop,
{
    ghost use Rattle.morsel_lane_pipe.specs.Tasks.{AreEndsCut, AreReceipts, IsWaiting};
    ghost use Rattle.morsel_flat_units.specs.FlatUnits.{loads_of};
    ghost use Rattle.morsel_end_units.specs.EndUnits.{IsGiveUnit};

    type Receipts = Finished<ReceiptsOf<L, J>, M>;

    ghost can_step = { λ id unit. IsGiveUnit ⟦<Load<L::Token, J> as Message>⟧.suits id.lane_table (L.Sender.home unit.sending.to) (L.Sender.job unit.sending.to) unit.sending.held unit.lost
        (KeepsGiving M.gives_for M.left M.did unit.giver (L.Sender.job unit.sending.to) (L.Sender.sent unit.sending.to) unit.sending.held unit.ended) };

    ghost is_done = { λ unit. (unit.ended ≡ true) × (unit.sending.held ≡ None) × (unit.lost ≡ false) };

    ghost met_cut = { λ board unit. (end : L.Sender) × L.Sender.found_closed board end unit.sending.to };

    ghost waits = { λ me board unit. IsWaiting L.Sender.registered L.Sender.found_full me board unit.sending.to };

    ghost seen = { λ unit. record {
      work = GivesOwn;
      home = L.Sender.home unit.sending.to;
      from = [];
      to = L.Sender.lane unit.sending.to ∷ [];
      places = L.Sender.wait_places unit.sending.to;
    } };

    ghost gives = { λ seen finished. AreReceipts L.Receiver.receipt_home L.Receiver.receipt_lane L.Receiver.all_taken L.Sender.receipt_home L.Sender.receipt_lane L.Sender.all_sent seen finished.receipts.taken.items finished.receipts.sent.items };

    // The giver has given what was sent, and nothing is left.
    ghost leaves = { λ unit finished. M.is_later unit.giver finished.work × (M.left finished.work ≡ []) × M.did finished.work (loads_of L.Sender.all_sent finished.receipts.sent.items) };

    ghost fails = { λ unit fault. M.may_fail (L.Sender.job unit.sending.to) fault };

    ghost has_cut = { λ board seen. AreEndsCut L.Board.waits_at L.Receiver.has_cut L.Receiver.lane board seen.from × AreEndsCut L.Board.waits_at L.Sender.has_cut L.Sender.lane board seen.to };

    fn step(&mut self, cx: &mut Cx<L::Board>) -> Poll<Option<Ending>> {
        // A unit that has told its fault makes no further step.
        if self.lost {
            return Poll::Ready(Some(Ending::OutOfMemory));
        }
        if self.sending.held.is_some() {
            return match self.sending.poll_give(cx) {
                Poll::Pending => Poll::Pending,
                Poll::Ready(Ok(())) => Poll::Ready(None),
                Poll::Ready(Err(())) => Poll::Ready(Some(Ending::Cut)),
            };
        }
        Poll::Ready(self.give())
    }

    fn finish(self, cx: &mut Cx<L::Board>) -> Finished<ReceiptsOf<L, J>, M> {
        let GiveUnit {
            alloc,
            giver,
            sending,
            ..
        } = self;
        let SendingEnd { to, sent, .. } = sending;
        Finished {
            receipts: Receipts {
                taken: Vec::new(alloc),
                sent: sent.filled(to.finish(cx)),
            },
            work: giver,
        }
    }

    fn cut(self, cx: &mut Cx<L::Board>) {
        let GiveUnit { sending, .. } = self;
        let SendingEnd { to, .. } = sending;
        to.cut(cx);
    }
}
