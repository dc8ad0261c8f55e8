//! The unit of a node that keeps what it takes.
ghost use Rattle.std.specs.Prelude.{◌≡◌, true, false, None, Some, [], ◌∷◌, ◌++◌, IfOk, IfSome, IsOkUnless, map};
ghost use Rattle.morsel_meaning.specs.declared.fault.Fault.{Fault};
ghost use Rattle.morsel_meaning.specs.declared.fault.Fault.TheVariants.{OutOfMemory};
ghost use Rattle.morsel_prims.specs.Polled.{BoardId};
ghost use Rattle.morsel_prims.specs.Waiting.{KeepsWaiting};
ghost use Rattle.morsel_prims.specs.Woken.{KeepsWakes};
ghost use Rattle.morsel_load.specs.Loads.{held_token, load_seen};
ghost use Rattle.morsel_lane_pipe.specs.Tasks.{HoldsTokensOf, KeepsAll};
ghost use Rattle.morsel_lane_pipe.specs.declared.stepwise.Ending.{Ending};
ghost use Rattle.morsel_end_units.specs.EndUnits.{HasTakenMore};

use crate::load_keeper::LoadKeeper;
use morsel_lane_pipe::{Ending, LoadOf, Receipts, ReceiptsOf, Room, Stepwise, TakenOf};
use morsel_load::{Load, LoadJob};
use morsel_meaning::Fault;
use morsel_prims::{Cx, Ended, LaneReceiver, Lanes, Message, Poll, Tokens};
use morsel_units::Finished;
use std::alloc::Global;

/// Takes loads from a lane and keeps them. It releases the token of a load once it is kept.
#[derive(Drop)]
pub struct KeepUnit<
    L: Tokens + Lanes<Load<<L as Tokens>::Token, J>>,
    J: LoadJob<<L as Tokens>::Token>,
    M: LoadKeeper<<L as Tokens>::Token, J> + Drop,
> {
    alloc: Global,
    keeper: M,
    from: L::Receiver,
    // Whether a load was taken that could not be kept.
    lost: bool,
    taken: Room<TakenOf<L, J>>,
}

impl<L, J, M> KeepUnit<L, J, M>
where
    L: Tokens + Lanes<Load<<L as Tokens>::Token, J>>,
    J: LoadJob<<L as Tokens>::Token>,
    M: LoadKeeper<<L as Tokens>::Token, J> + Drop,
{
    /// A unit that has taken nothing.
    pub fn new(alloc: Global, keeper: M, from: L::Receiver) -> Result<KeepUnit<L, J, M>, Fault>
        requires keeps { M.keeps keeper (L.Receiver.job from) }
        requires fresh { (L.Receiver.taken from ≡ []) × M.took keeper [] }
        ensures can_step { (id : BoardId) → L.Receiver.home from ≡ id.lane_table → HoldsTokensOf J.holds L.token_home (L.Receiver.job from) id.group_table → IfOk result (⟦<KeepUnit<L, J, M> as Stepwise<L::Board>>⟧.can_step id) }
        ensures seen { IfOk result (λ unit. ⟦<KeepUnit<L, J, M> as Stepwise<L::Board>>⟧.seen unit ≡ record { work = KeepsAll; home = L.Receiver.home from; from = L.Receiver.lane from ∷ []; to = []; places = L.Receiver.wait_places from }) }
        ensures fails { IfOk result (λ unit. (fault : Fault) → ⟦<KeepUnit<L, J, M> as Stepwise<L::Board>>⟧.fails unit fault → M.may_fail (L.Receiver.job from) fault) }
        ensures same { IfOk result (λ unit. (unit.keeper ≡ keeper) × (L.Receiver.job unit.from ≡ L.Receiver.job from)) }
        ensures out_of_memory { IsOkUnless result OutOfMemory }
    {
        Ok(KeepUnit {
            alloc,
            keeper,
            from,
            lost: false,
            taken: Room::new(alloc)?,
        })
    }

    /// Keeps the load that was taken last, and releases its token; or tells its fault.
    fn keep(&mut self, mut load: LoadOf<L, J>, cx: &mut Cx<L::Board>) -> Option<Ending>
        requires tokens { HoldsTokensOf J.holds L.token_home (L.Receiver.job self.old.from) (L.Board.id cx.old.board).group_table }
        requires suits { ⟦<Load<L::Token, J> as Message>⟧.suits (L.Receiver.job self.old.from) load }
        requires keeps { M.keeps self.old.keeper (L.Receiver.job self.old.from) }
        requires taken { HasTakenMore M.took self.old.keeper (L.Receiver.taken self.old.from) load }
        requires whole { self.old.lost ≡ false }
        ensures same { self.new.from ≡ self.old.from }
        ensures kept { self.new.lost ≡ false → M.keeps self.new.keeper (L.Receiver.job self.old.from) × M.took self.new.keeper (map load_seen (L.Receiver.taken self.old.from)) }
        ensures later { M.is_later self.old.keeper self.new.keeper }
        ensures lost { result ≡ None → self.new.lost ≡ false }
        ensures failed { IfSome result (λ ending. (fault : Fault) × (ending ≡ Ending.Failed fault) × M.may_fail (L.Receiver.job self.old.from) fault) }
        // The token is released, and not only let go: who waits for it goes on.
        ensures released { IfSome (held_token load) (L.counted_less cx.old.board cx.new.board) }
        ensures keeps_waiting { KeepsWaiting (L.Board.waits_at cx.old.board) (L.Board.waits_at cx.new.board) cx.new.wakes }
        ensures same_board { L.Board.id cx.new.board ≡ L.Board.id cx.old.board }
        ensures same_task { cx.new.me ≡ cx.old.me }
        ensures wakes { KeepsWakes cx.old.wakes cx.new.wakes }
    {
        let token = load.take_consume_token();
        let kept = self.keeper.keep(load);
        if let Some(token) = token {
            L::release(cx, token);
        }
        match kept {
            Ok(()) => None,
            Err(fault) => {
                self.lost = true;
                Some(Ending::Failed(fault))
            }
        }
    }
}

impl<L, J, M> Stepwise<L::Board> for KeepUnit<L, J, M>
where
    L: Tokens + Lanes<Load<<L as Tokens>::Token, J>>,
    J: LoadJob<<L as Tokens>::Token>,
    M: LoadKeeper<<L as Tokens>::Token, J> + Drop,
{
    ghost use Rattle.morsel_lane_pipe.specs.Tasks.{AreEndsCut, AreReceipts, IsWaiting};
    ghost use Rattle.morsel_flat_units.specs.FlatUnits.{loads_of};
    ghost use Rattle.morsel_end_units.specs.EndUnits.{IsKeepUnit};

    type Receipts = Finished<ReceiptsOf<L, J>, M>;

    ghost can_step = { λ id unit. IsKeepUnit M.keeps M.took id.lane_table (L.Receiver.home unit.from) unit.keeper (L.Receiver.job unit.from) (L.Receiver.taken unit.from) unit.lost
        × HoldsTokensOf J.holds L.token_home (L.Receiver.job unit.from) id.group_table };

    ghost is_done = { λ unit. (L.Receiver.is_whole unit.from ≡ true) × (unit.lost ≡ false) };

    ghost met_cut = { λ board unit. (L.Receiver.is_cut unit.from ≡ true) × L.Receiver.found_ended board unit.from false };

    ghost waits = { λ me board unit. IsWaiting L.Receiver.registered L.Receiver.found_empty me board unit.from };

    ghost seen = { λ unit. record {
      work = KeepsAll;
      home = L.Receiver.home unit.from;
      from = L.Receiver.lane unit.from ∷ [];
      to = [];
      places = L.Receiver.wait_places unit.from;
    } };

    ghost gives = { λ seen finished. AreReceipts L.Receiver.receipt_home L.Receiver.receipt_lane L.Receiver.all_taken L.Sender.receipt_home L.Sender.receipt_lane L.Sender.all_sent seen finished.receipts.taken.items finished.receipts.sent.items };

    // The keeper has kept all that was taken, which is of the lane's job.
    ghost leaves = { λ unit finished. M.is_later unit.keeper finished.work × M.keeps finished.work (L.Receiver.job unit.from) × M.took finished.work (loads_of L.Receiver.all_taken finished.receipts.taken.items) };

    ghost fails = { λ unit fault. M.may_fail (L.Receiver.job unit.from) fault };

    ghost has_cut = { λ board seen. AreEndsCut L.Board.waits_at L.Receiver.has_cut L.Receiver.lane board seen.from × AreEndsCut L.Board.waits_at L.Sender.has_cut L.Sender.lane board seen.to };

    fn step(&mut self, cx: &mut Cx<L::Board>) -> Poll<Option<Ending>> {
        // A unit that has told its fault makes no further step.
        if self.lost {
            return Poll::Ready(Some(Ending::OutOfMemory));
        }
        match self.from.poll_recv(cx) {
            Poll::Pending => Poll::Pending,
            Poll::Ready(Ok(load)) => Poll::Ready(self.keep(load, cx)),
            Poll::Ready(Err(Ended::Whole)) => Poll::Ready(Some(Ending::Whole)),
            Poll::Ready(Err(Ended::Cut)) => Poll::Ready(Some(Ending::Cut)),
        }
    }

    fn finish(self, cx: &mut Cx<L::Board>) -> Finished<ReceiptsOf<L, J>, M> {
        let KeepUnit {
            alloc,
            keeper,
            from,
            taken,
            ..
        } = self;
        Finished {
            receipts: Receipts {
                taken: taken.filled(from.receipt()),
                sent: Vec::new(alloc),
            },
            work: keeper,
        }
    }

    fn cut(self, cx: &mut Cx<L::Board>) {
        let KeepUnit { from, .. } = self;
        from.cut(cx);
    }
}
