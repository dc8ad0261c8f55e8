//! The task before the lanes of a distributor.
ghost use Rattle.std.specs.Prelude.{◌≡◌, None, [], ◌∷◌, ◌++◌, IfOk, IfSome, IsOkUnless, map};
ghost use Rattle.morsel_meaning.specs.declared.fault.Fault.TheVariants.{OutOfMemory};
ghost use Rattle.morsel_prims.specs.Polled.{BoardId, held_list};
ghost use Rattle.morsel_prims.specs.Waiting.{KeepsWaiting};
ghost use Rattle.morsel_prims.specs.Woken.{KeepsWakes};
ghost use Rattle.morsel_load.specs.Loads.{load_seen};
ghost use Rattle.morsel_merge.specs.Spread.{sent_values};
ghost use Rattle.std.specs.List.{flat_map};
ghost use Rattle.morsel_lane_pipe.specs.Tasks.{HoldsTokensOf, Spreads, token_of};

use crate::passing::Passing;
use crate::receipts::{LoadOf, Receipts, ReceiptsOf, Room, TakenOf};
use crate::stepwise::{Ending, Stepwise};
use morsel_load::{Load, LoadJob};
use morsel_meaning::Fault;
use morsel_merge::DistSender;
use morsel_prims::{Cx, Ended, LaneReceiver, LaneSender, Lanes, Message, Poll, Tokens};
use rand_xoshiro::Xoshiro256PlusPlus;
use std::alloc::Global;

/// Takes loads from one lane and spreads them over several; a morsel's token is released before the morsel is sent.
#[derive(Drop)]
pub struct Distributing<
    L: Tokens + Lanes<Load<<L as Tokens>::Token, J>>,
    J: LoadJob<<L as Tokens>::Token>,
>
where
    Load<<L as Tokens>::Token, J>: Message,
{
    pub(crate) passing: Passing<
        L::Token,
        J,
        L::Receiver,
        DistSender<LoadOf<L, J>, L, Xoshiro256PlusPlus>,
    >,
    pub(crate) taken: Room<TakenOf<L, J>>,
}

impl<
    L: Tokens + Lanes<Load<<L as Tokens>::Token, J>>,
    J: LoadJob<<L as Tokens>::Token>,
> Distributing<L, J> {
    /// A task that has taken nothing.
    pub fn new(
        alloc: Global,
        from: L::Receiver,
        to: DistSender<LoadOf<L, J>, L, Xoshiro256PlusPlus>,
    ) -> Result<Distributing<L, J>, Fault>
        requires home { L.Receiver.home from ≡ (L.Board.id to.board.value).lane_table }
        requires job { to.job.value ≡ L.Receiver.job from }
        requires fresh { (L.Receiver.taken from ≡ []) × (sent_values to.log.seat.me.0 ≡ []) }
        ensures can_step { (id : BoardId) → L.Receiver.home from ≡ id.lane_table → HoldsTokensOf J.holds L.token_home (L.Receiver.job from) id.group_table → IfOk result (⟦<Distributing<L, J> as Stepwise<L::Board>>⟧.can_step id) }
        ensures seen { IfOk result (λ task. ⟦<Distributing<L, J> as Stepwise<L::Board>>⟧.seen task ≡ record { work = Spreads; home = L.Receiver.home from; from = L.Receiver.lane from ∷ []; to = map L.Sender.lane to.lanes.items; places = L.Receiver.wait_places from ++ flat_map L.Sender.wait_places to.lanes.items }) }
        ensures out_of_memory { IsOkUnless result OutOfMemory }
    {
        Ok(Distributing {
            passing: Passing {
                from,
                to,
                held: None,
            },
            taken: Room::new(alloc)?,
        })
    }
}

/// Releases the token of the load that is held, if it has one.
fn release_token<
    L: Tokens + Lanes<Load<<L as Tokens>::Token, J>>,
    J: LoadJob<<L as Tokens>::Token>,
>(held: &mut Option<Load<L::Token, J>>, cx: &mut Cx<L::Board>)
    requires token { IfSome (token_of held.old) (λ token. L.token_home token ≡ (L.Board.id cx.old.board).group_table) }
    ensures same { map load_seen (held_list held.new) ≡ map load_seen (held_list held.old) }
    ensures suits { (job : J) → IfSome held.old (⟦<Load<L::Token, J> as Message>⟧.suits job) → IfSome held.new (⟦<Load<L::Token, J> as Message>⟧.suits job) }
    ensures none { token_of held.new ≡ None }
    ensures keeps_waiting { KeepsWaiting (L.Board.waits_at cx.old.board) (L.Board.waits_at cx.new.board) cx.new.wakes }
    ensures same_board { L.Board.id cx.new.board ≡ L.Board.id cx.old.board }
    ensures same_task { cx.new.me ≡ cx.old.me }
    ensures wakes { KeepsWakes cx.old.wakes cx.new.wakes }
{
    if let Some(load) = held {
        if let Some(token) = load.take_consume_token() {
            L::release(cx, token);
        }
    }
}

impl<L: Tokens + Lanes<Load<<L as Tokens>::Token, J>>, J: LoadJob<<L as Tokens>::Token>> Stepwise<
    L::Board,
> for Distributing<L, J> {
    ghost use Rattle.std.specs.Prelude.{◌⊎◌, true, false};
    ghost use Rattle.morsel_lane_pipe.specs.Tasks.{AreEndsCut, AreReceipts, IsPassing, IsWaiting};

    type Receipts = ReceiptsOf<L, J>;

    // Its ends are of this board and for one job, what was taken is sent or held, and what is held has no token.
    ghost can_step = { λ id task. IsPassing ⟦<Load<L::Token, J> as Message>⟧.suits id.lane_table (L.Receiver.home task.passing.from) (L.Board.id task.passing.to.board.value).lane_table (L.Receiver.job task.passing.from) task.passing.to.job.value (L.Receiver.taken task.passing.from) (sent_values task.passing.to.log.seat.me.0) task.passing.held
        × HoldsTokensOf J.holds L.token_home (L.Receiver.job task.passing.from) id.group_table × (token_of task.passing.held ≡ None) };

    ghost leaves = { λ task receipts. Unit {0} };

    ghost fails = { λ task fault. ⊥ };

    ghost is_done = { λ task. (L.Receiver.is_whole task.passing.from ≡ true) × (task.passing.held ≡ None) };

    ghost met_cut = { λ board task. ((L.Receiver.is_cut task.passing.from ≡ true) × L.Receiver.found_ended board task.passing.from false) ⊎ ((end : _) × ⟦<DistSender<LoadOf<L, J>, L, Xoshiro256PlusPlus> as LaneSender<LoadOf<L, J>, L::Board>>⟧.found_closed board end task.passing.to) };

    ghost waits = { λ me board task. IsWaiting L.Receiver.registered L.Receiver.found_empty me board task.passing.from ⊎ IsWaiting ⟦<DistSender<LoadOf<L, J>, L, Xoshiro256PlusPlus> as LaneSender<LoadOf<L, J>, L::Board>>⟧.registered ⟦<DistSender<LoadOf<L, J>, L, Xoshiro256PlusPlus> as LaneSender<LoadOf<L, J>, L::Board>>⟧.found_full me board task.passing.to };

    ghost seen = { λ task. record {
      work = Spreads;
      home = L.Receiver.home task.passing.from;
      from = L.Receiver.lane task.passing.from ∷ [];
      to = map L.Sender.lane task.passing.to.lanes.items;
      places = L.Receiver.wait_places task.passing.from ++ flat_map L.Sender.wait_places task.passing.to.lanes.items;
    } };

    ghost gives = { λ seen receipts. AreReceipts L.Receiver.receipt_home L.Receiver.receipt_lane L.Receiver.all_taken L.Sender.receipt_home L.Sender.receipt_lane L.Sender.all_sent seen receipts.taken.items receipts.sent.items };

    ghost has_cut = { λ board seen. AreEndsCut L.Board.waits_at L.Receiver.has_cut L.Receiver.lane board seen.from × AreEndsCut L.Board.waits_at L.Sender.has_cut L.Sender.lane board seen.to };

    fn step(&mut self, cx: &mut Cx<L::Board>) -> Poll<Option<Ending>> {
        if self.passing.held.is_some() {
            return match self.passing.poll_give(cx) {
                Poll::Pending => Poll::Pending,
                Poll::Ready(Ok(())) => Poll::Ready(None),
                Poll::Ready(Err(())) => Poll::Ready(Some(Ending::Cut)),
            };
        }
        match self.passing.poll_take(cx) {
            Poll::Pending => Poll::Pending,
            Poll::Ready(Ok(())) => {
                release_token::<L, J>(&mut self.passing.held, cx);
                Poll::Ready(None)
            }
            Poll::Ready(Err(Ended::Whole)) => Poll::Ready(Some(Ending::Whole)),
            Poll::Ready(Err(Ended::Cut)) => Poll::Ready(Some(Ending::Cut)),
        }
    }

    fn finish(self, cx: &mut Cx<L::Board>) -> ReceiptsOf<L, J> {
        let Distributing { passing, taken } = self;
        let Passing { from, to, .. } = passing;
        Receipts {
            taken: taken.filled(from.receipt()),
            sent: to.finish(cx).receipts(),
        }
    }

    fn cut(self, cx: &mut Cx<L::Board>) {
        let Distributing { passing, .. } = self;
        passing.cut(cx);
    }
}
