//! The unit of a node that makes several loads of each that it takes.
ghost use Rattle.std.specs.Prelude.{◌≡◌, true, false, None, Some, [], ◌∷◌, ◌++◌, IfOk, IfSome, IsSome, IsOkUnless, map};
ghost use Rattle.morsel_meaning.specs.declared.fault.Fault.{Fault};
ghost use Rattle.morsel_meaning.specs.declared.fault.Fault.TheVariants.{OutOfMemory};
ghost use Rattle.morsel_prims.specs.Polled.{BoardId};
ghost use Rattle.morsel_prims.specs.Waiting.{KeepsWaiting};
ghost use Rattle.morsel_prims.specs.Woken.{KeepsWakes};
ghost use Rattle.morsel_load.specs.Loads.{held_token, load_seen};
ghost use Rattle.morsel_lane_pipe.specs.Tasks.{HoldsTokensOf, MakesOthers};
ghost use Rattle.morsel_lane_pipe.specs.declared.stepwise.Ending.{Ending};
ghost use Rattle.morsel_flat_units.specs.FlatUnits.{HasTakenNext, KeepsMaking};

use crate::loads_maker::LoadsMaker;
use morsel_lane_pipe::{Ending, LoadOf, Receipts, ReceiptsOf, Room, Stepwise, TakenOf};
use morsel_load::{Load, LoadJob};
use morsel_meaning::Fault;
use morsel_prims::{Cx, Ended, LaneReceiver, LaneSender, Lanes, Message, Poll, Tokens};
use morsel_units::{Finished, SendingEnd};
use std::alloc::Global;

/// Takes loads from one lane, makes several of each, and sends those through another. It releases the token of a load once the
/// last one that is made of it was sent.
#[derive(Drop)]
pub struct FlatUnit<
    L: Tokens + Lanes<Load<<L as Tokens>::Token, J>>,
    J: LoadJob<<L as Tokens>::Token>,
    M: LoadsMaker<<L as Tokens>::Token, J> + Drop,
> {
    maker: M,
    from: L::Receiver,
    sending: SendingEnd<L, J>,
    // Whether the maker may have more of the load that was taken last.
    begun: bool,
    // That load's token.
    token: Option<L::Token>,
    // Whether a load was taken of which something could not be made.
    lost: bool,
    taken: Room<TakenOf<L, J>>,
}

impl<L, J, M> FlatUnit<L, J, M>
where
    L: Tokens + Lanes<Load<<L as Tokens>::Token, J>>,
    J: LoadJob<<L as Tokens>::Token>,
    M: LoadsMaker<<L as Tokens>::Token, J> + Drop,
{
    /// A unit that has taken nothing.
    pub fn new(
        alloc: Global,
        maker: M,
        from: L::Receiver,
        to: L::Sender,
    ) -> Result<FlatUnit<L, J, M>, Fault>
        requires home { L.Sender.home to ≡ L.Receiver.home from }
        requires joins { M.joins maker (L.Receiver.job from) (L.Sender.job to) }
        requires makes_for { M.makes_for maker (L.Sender.job to) }
        requires fresh { (L.Receiver.taken from ≡ []) × (L.Sender.sent to ≡ []) × (M.left maker ≡ []) × M.did maker [] [] }
        ensures can_step { (id : BoardId) → L.Receiver.home from ≡ id.lane_table → HoldsTokensOf J.holds L.token_home (L.Receiver.job from) id.group_table → IfOk result (⟦<FlatUnit<L, J, M> as Stepwise<L::Board>>⟧.can_step id) }
        ensures seen { IfOk result (λ unit. ⟦<FlatUnit<L, J, M> as Stepwise<L::Board>>⟧.seen unit ≡ record { work = MakesOthers; home = L.Receiver.home from; from = L.Receiver.lane from ∷ []; to = L.Sender.lane to ∷ []; places = L.Receiver.wait_places from ++ L.Sender.wait_places to }) }
        ensures fails { IfOk result (λ unit. (fault : Fault) → ⟦<FlatUnit<L, J, M> as Stepwise<L::Board>>⟧.fails unit fault → M.may_fail (L.Receiver.job from) fault) }
        ensures maker { IfOk result (λ unit. (unit.maker ≡ maker) × (L.Receiver.job unit.from ≡ L.Receiver.job from)) }
        ensures out_of_memory { IsOkUnless result OutOfMemory }
    {
        Ok(FlatUnit {
            maker,
            from,
            sending: SendingEnd::new(alloc, to)?,
            begun: false,
            token: None,
            lost: false,
            taken: Room::new(alloc)?,
        })
    }

    /// Gives the maker the load that was taken last; or tells its fault.
    fn begin(&mut self, mut load: LoadOf<L, J>) -> Option<Ending>
        requires suits { ⟦<Load<L::Token, J> as Message>⟧.suits (L.Receiver.job self.old.from) load }
        requires joins { M.joins self.old.maker (L.Receiver.job self.old.from) (L.Sender.job self.old.sending.to) }
        requires taken { HasTakenNext M.did self.old.maker (L.Receiver.taken self.old.from) (L.Sender.sent self.old.sending.to) load }
        requires none { (self.old.sending.held ≡ None) × (M.left self.old.maker ≡ []) × (self.old.lost ≡ false) }
        ensures same { (self.new.from ≡ self.old.from) × (self.new.sending ≡ self.old.sending) }
        ensures joins { M.joins self.new.maker (L.Receiver.job self.old.from) (L.Sender.job self.old.sending.to) }
        ensures token { self.new.token ≡ held_token load }
        ensures keeps { self.new.lost ≡ false → KeepsMaking M.makes_for M.left M.did self.new.maker (L.Sender.job self.old.sending.to) (L.Receiver.taken self.old.from) (L.Sender.sent self.old.sending.to) self.new.sending.held self.new.begun self.new.token }
        ensures begun { result ≡ None → (self.new.lost ≡ false) × (self.new.begun ≡ true) }
        ensures later { M.is_later self.old.maker self.new.maker }
        ensures failed { IfSome result (λ ending. (fault : Fault) × (ending ≡ Ending.Failed fault) × M.may_fail (L.Receiver.job self.old.from) fault) }
    {
        self.token = load.take_consume_token();
        match self.maker.begin(load) {
            Ok(()) => {
                self.begun = true;
                None
            }
            Err(fault) => {
                self.lost = true;
                Some(Ending::Failed(fault))
            }
        }
    }

    /// Makes the next load, and holds it. Where none is left, it releases the token; or it tells the maker's fault.
    fn make(&mut self, cx: &mut Cx<L::Board>) -> Option<Ending>
        requires joins { M.joins self.old.maker (L.Receiver.job self.old.from) (L.Sender.job self.old.sending.to) }
        requires keeps { KeepsMaking M.makes_for M.left M.did self.old.maker (L.Sender.job self.old.sending.to) (L.Receiver.taken self.old.from) (L.Sender.sent self.old.sending.to) self.old.sending.held self.old.begun self.old.token }
        requires token { IfSome self.old.token (λ t. L.token_home t ≡ (L.Board.id cx.old.board).group_table) }
        requires none { (self.old.sending.held ≡ None) × (self.old.begun ≡ true) × (self.old.lost ≡ false) }
        ensures same { (self.new.from ≡ self.old.from) × (self.new.sending.to ≡ self.old.sending.to) }
        ensures joins { M.joins self.new.maker (L.Receiver.job self.old.from) (L.Sender.job self.old.sending.to) }
        ensures suits { IfSome self.new.sending.held (⟦<Load<L::Token, J> as Message>⟧.suits (L.Sender.job self.old.sending.to)) }
        ensures keeps { self.new.lost ≡ false → KeepsMaking M.makes_for M.left M.did self.new.maker (L.Sender.job self.old.sending.to) (L.Receiver.taken self.old.from) (L.Sender.sent self.old.sending.to) self.new.sending.held self.new.begun self.new.token }
        ensures token { IfSome self.new.token (λ t. L.token_home t ≡ (L.Board.id cx.old.board).group_table) }
        ensures later { M.is_later self.old.maker self.new.maker }
        ensures lost { result ≡ None → self.new.lost ≡ false }
        // The token is released, and not only let go: who waits for it goes on.
        ensures released { IfSome self.old.token (λ t. self.new.token ≡ None → L.counted_less cx.old.board cx.new.board t) }
        ensures failed { IfSome result (λ ending. (fault : Fault) × (ending ≡ Ending.Failed fault) × M.may_fail (L.Receiver.job self.old.from) fault) }
        ensures keeps_waiting { KeepsWaiting (L.Board.waits_at cx.old.board) (L.Board.waits_at cx.new.board) cx.new.wakes }
        ensures same_board { L.Board.id cx.new.board ≡ L.Board.id cx.old.board }
        ensures same_task { cx.new.me ≡ cx.old.me }
        ensures wakes { KeepsWakes cx.old.wakes cx.new.wakes }
    {
        match self.maker.next() {
            Ok(Some(load)) => {
                self.sending.held = Some(load);
                None
            }
            Ok(None) => {
                self.begun = false;
                if let Some(token) = self.token.take() {
                    L::release(cx, token);
                }
                None
            }
            Err(fault) => {
                self.lost = true;
                Some(Ending::Failed(fault))
            }
        }
    }
}

impl<L, J, M> Stepwise<L::Board> for FlatUnit<L, J, M>
where
    L: Tokens + Lanes<Load<<L as Tokens>::Token, J>>,
    J: LoadJob<<L as Tokens>::Token>,
    M: LoadsMaker<<L as Tokens>::Token, J> + Drop,
{
    ghost use Rattle.std.specs.Prelude.{◌⊎◌};
    ghost use Rattle.morsel_lane_pipe.specs.Tasks.{AreEndsCut, AreReceipts, IsWaiting};
    ghost use Rattle.morsel_flat_units.specs.FlatUnits.{IsFlatUnit, loads_of};

    type Receipts = Finished<ReceiptsOf<L, J>, M>;

    ghost can_step = { λ id unit. IsFlatUnit ⟦<Load<L::Token, J> as Message>⟧.suits M.joins L.token_home id.lane_table id.group_table (L.Receiver.home unit.from) (L.Sender.home unit.sending.to) unit.maker (L.Receiver.job unit.from) (L.Sender.job unit.sending.to) unit.sending.held unit.token unit.lost
        (KeepsMaking M.makes_for M.left M.did unit.maker (L.Sender.job unit.sending.to) (L.Receiver.taken unit.from) (L.Sender.sent unit.sending.to) unit.sending.held unit.begun unit.token)
        × HoldsTokensOf J.holds L.token_home (L.Receiver.job unit.from) id.group_table };

    ghost is_done = { λ unit. (L.Receiver.is_whole unit.from ≡ true) × (unit.sending.held ≡ None) × (unit.begun ≡ false) × (unit.lost ≡ false) };

    ghost met_cut = { λ board unit. ((L.Receiver.is_cut unit.from ≡ true) × L.Receiver.found_ended board unit.from false) ⊎ ((end : L.Sender) × L.Sender.found_closed board end unit.sending.to) };

    // It waits for a load only where it holds none.
    ghost waits = { λ me board unit. ((unit.sending.held ≡ None) × IsWaiting L.Receiver.registered L.Receiver.found_empty me board unit.from) ⊎ (IsSome unit.sending.held × IsWaiting L.Sender.registered L.Sender.found_full me board unit.sending.to) };

    ghost seen = { λ unit. record {
      work = MakesOthers;
      home = L.Receiver.home unit.from;
      from = L.Receiver.lane unit.from ∷ [];
      to = L.Sender.lane unit.sending.to ∷ [];
      places = L.Receiver.wait_places unit.from ++ L.Sender.wait_places unit.sending.to;
    } };

    ghost gives = { λ seen finished. AreReceipts L.Receiver.receipt_home L.Receiver.receipt_lane L.Receiver.all_taken L.Sender.receipt_home L.Sender.receipt_lane L.Sender.all_sent seen finished.receipts.taken.items finished.receipts.sent.items };

    // What was sent was made of what was taken, by the same maker, and for the same lanes.
    ghost leaves = { λ unit finished. M.is_later unit.maker finished.work × M.joins finished.work (L.Receiver.job unit.from) (L.Sender.job unit.sending.to) × M.did finished.work (loads_of L.Receiver.all_taken finished.receipts.taken.items) (loads_of L.Sender.all_sent finished.receipts.sent.items) };

    ghost fails = { λ unit fault. M.may_fail (L.Receiver.job unit.from) fault };

    ghost has_cut = { λ board seen. AreEndsCut L.Board.waits_at L.Receiver.has_cut L.Receiver.lane board seen.from × AreEndsCut L.Board.waits_at L.Sender.has_cut L.Sender.lane board seen.to };

    fn step(&mut self, cx: &mut Cx<L::Board>) -> Poll<Option<Ending>> {
        // A unit that has told its fault makes no further step.
        if self.lost {
            return Poll::Ready(Some(Ending::OutOfMemory));
        }
        if self.sending.held.is_some() {
            return match self.sending.poll_give(cx) {
                Poll::Pending => Poll::Pending,
                Poll::Ready(Ok(())) => Poll::Ready(None),
                Poll::Ready(Err(())) => Poll::Ready(Some(Ending::Cut)),
            };
        }
        if self.begun {
            return Poll::Ready(self.make(cx));
        }
        match self.from.poll_recv(cx) {
            Poll::Pending => Poll::Pending,
            Poll::Ready(Ok(load)) => Poll::Ready(self.begin(load)),
            Poll::Ready(Err(Ended::Whole)) => Poll::Ready(Some(Ending::Whole)),
            Poll::Ready(Err(Ended::Cut)) => Poll::Ready(Some(Ending::Cut)),
        }
    }

    fn finish(self, cx: &mut Cx<L::Board>) -> Finished<ReceiptsOf<L, J>, M> {
        let FlatUnit {
            maker,
            from,
            sending,
            taken,
            ..
        } = self;
        let SendingEnd { to, sent, .. } = sending;
        Finished {
            receipts: Receipts {
                taken: taken.filled(from.receipt()),
                sent: sent.filled(to.finish(cx)),
            },
            work: maker,
        }
    }

    fn cut(self, cx: &mut Cx<L::Board>) {
        let FlatUnit {
            from,
            sending,
            token,
            ..
        } = self;
        if let Some(token) = token {
            L::release(cx, token);
        }
        sending.cut_after(from, cx);
    }
}
