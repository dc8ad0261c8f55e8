//! The task before each lane of a linearizer.
ghost use Rattle.std.specs.Prelude.{◌≡◌, None, [], ◌∷◌, ◌++◌, IfOk, IfSome, IsSome, IsOkUnless, map};
ghost use Rattle.morsel_meaning.specs.declared.fault.Fault.TheVariants.{OutOfMemory};
ghost use Rattle.morsel_prims.specs.Polled.{BoardId, held_list};
ghost use Rattle.morsel_prims.specs.Waiting.{KeepsWaiting};
ghost use Rattle.morsel_prims.specs.Woken.{KeepsWakes};
ghost use Rattle.morsel_load.specs.Loads.{load_seen};
ghost use Rattle.morsel_lane_pipe.specs.Tasks.{HandsOn, HoldsTokensOf, token_of};

use crate::passing::Passing;
use crate::receipts::{LoadOf, Receipts, ReceiptsOf, Room, SentOf, TakenOf};
use crate::stepwise::{Ending, Stepwise};
use morsel_load::{Load, LoadJob};
use morsel_meaning::Fault;
use morsel_merge::Inserter;
use morsel_prims::{Cx, Ended, LaneReceiver, LaneSender, Lanes, Message, Poll, Tokens};
use std::alloc::Global;

/// Takes loads from one lane and sends them to a linearizer; a morsel's token is released once the linearizer's lane
/// has the morsel.
#[derive(Drop)]
pub struct Inserting<
    L: Tokens + Lanes<Load<<L as Tokens>::Token, J>>,
    J: LoadJob<<L as Tokens>::Token>,
> {
    pub(crate) passing: Passing<L::Token, J, L::Receiver, L::Sender>,
    // The token of the load that is held.
    pub(crate) token: Option<L::Token>,
    pub(crate) taken: Room<TakenOf<L, J>>,
    pub(crate) sent: Room<SentOf<L, J>>,
}

impl<L: Tokens + Lanes<Load<<L as Tokens>::Token, J>>, J: LoadJob<<L as Tokens>::Token>> Inserting<
    L,
    J,
> {
    /// A task that has taken nothing.
    pub fn new(
        alloc: Global,
        from: L::Receiver,
        to: Inserter<LoadOf<L, J>, L>,
    ) -> Result<Inserting<L, J>, Fault>
        requires home { L.Sender.home to.sender ≡ L.Receiver.home from }
        requires job { L.Sender.job to.sender ≡ L.Receiver.job from }
        requires fresh { (L.Receiver.taken from ≡ []) × (L.Sender.sent to.sender ≡ []) }
        ensures can_step { (id : BoardId) → L.Receiver.home from ≡ id.lane_table → HoldsTokensOf J.holds L.token_home (L.Receiver.job from) id.group_table → IfOk result (⟦<Inserting<L, J> as Stepwise<L::Board>>⟧.can_step id) }
        ensures seen { IfOk result (λ task. ⟦<Inserting<L, J> as Stepwise<L::Board>>⟧.seen task ≡ record { work = HandsOn; home = L.Receiver.home from; from = L.Receiver.lane from ∷ []; to = L.Sender.lane to.sender ∷ []; places = L.Receiver.wait_places from ++ L.Sender.wait_places to.sender }) }
        ensures out_of_memory { IsOkUnless result OutOfMemory }
    {
        // An inserter's calls are those of its lane.
        let Inserter { sender } = to;
        Ok(Inserting {
            passing: Passing {
                from,
                to: sender,
                held: None,
            },
            token: None,
            taken: Room::new(alloc)?,
            sent: Room::new(alloc)?,
        })
    }

    /// Releases the token that is kept, if one is.
    fn release(&mut self, cx: &mut Cx<L::Board>)
        requires home { IfSome self.old.token (λ token. L.token_home token ≡ (L.Board.id cx.old.board).group_table) }
        ensures same_passing { self.new.passing ≡ self.old.passing }
        ensures released { self.new.token ≡ None }
        ensures keeps_waiting { KeepsWaiting (L.Board.waits_at cx.old.board) (L.Board.waits_at cx.new.board) cx.new.wakes }
        ensures same_board { L.Board.id cx.new.board ≡ L.Board.id cx.old.board }
        ensures same_task { cx.new.me ≡ cx.old.me }
        ensures wakes { KeepsWakes cx.old.wakes cx.new.wakes }
    {
        if let Some(token) = self.token.take() {
            L::release(cx, token);
        }
    }
}

/// Takes the token of the load that is held, if it has one.
fn take_token<K: Drop, J: LoadJob<K>>(held: &mut Option<Load<K, J>>) -> Option<K>
    ensures same { map load_seen (held_list held.new) ≡ map load_seen (held_list held.old) }
    ensures suits { (job : J) → IfSome held.old (⟦<Load<K, J> as Message>⟧.suits job) → IfSome held.new (⟦<Load<K, J> as Message>⟧.suits job) }
    ensures token { result ≡ token_of held.old }
{
    match held {
        Some(load) => load.take_consume_token(),
        None => None,
    }
}

impl<L: Tokens + Lanes<Load<<L as Tokens>::Token, J>>, J: LoadJob<<L as Tokens>::Token>> Stepwise<
    L::Board,
> for Inserting<L, J> {
    ghost use Rattle.std.specs.Prelude.{◌⊎◌, true, false};
    ghost use Rattle.morsel_lane_pipe.specs.Tasks.{AreEndsCut, AreReceipts, IsPassing, IsWaiting, KeepsToken};

    type Receipts = ReceiptsOf<L, J>;

    // Its ends are of this board and for one job, what was taken is sent or held, and the token of what is held is kept.
    ghost can_step = { λ id task. IsPassing ⟦<Load<L::Token, J> as Message>⟧.suits id.lane_table (L.Receiver.home task.passing.from) (L.Sender.home task.passing.to) (L.Receiver.job task.passing.from) (L.Sender.job task.passing.to) (L.Receiver.taken task.passing.from) (L.Sender.sent task.passing.to) task.passing.held
        × HoldsTokensOf J.holds L.token_home (L.Receiver.job task.passing.from) id.group_table × IfSome task.token (λ token. L.token_home token ≡ id.group_table)
        × KeepsToken (L.Receiver.taken task.passing.from) task.passing.held task.token };

    ghost leaves = { λ task receipts. Unit {0} };

    ghost fails = { λ task fault. ⊥ };

    ghost is_done = { λ task. (L.Receiver.is_whole task.passing.from ≡ true) × (task.passing.held ≡ None) };

    ghost met_cut = { λ board task. ((L.Receiver.is_cut task.passing.from ≡ true) × L.Receiver.found_ended board task.passing.from false) ⊎ ((end : L.Sender) × L.Sender.found_closed board end task.passing.to) };

    ghost waits = { λ me board task. IsWaiting L.Receiver.registered L.Receiver.found_empty me board task.passing.from ⊎ IsWaiting L.Sender.registered L.Sender.found_full me board task.passing.to };

    ghost seen = { λ task. record {
      work = HandsOn;
      home = L.Receiver.home task.passing.from;
      from = L.Receiver.lane task.passing.from ∷ [];
      to = L.Sender.lane task.passing.to ∷ [];
      places = L.Receiver.wait_places task.passing.from ++ L.Sender.wait_places task.passing.to;
    } };

    ghost gives = { λ seen receipts. AreReceipts L.Receiver.receipt_home L.Receiver.receipt_lane L.Receiver.all_taken L.Sender.receipt_home L.Sender.receipt_lane L.Sender.all_sent seen receipts.taken.items receipts.sent.items };

    ghost has_cut = { λ board seen. AreEndsCut L.Board.waits_at L.Receiver.has_cut L.Receiver.lane board seen.from × AreEndsCut L.Board.waits_at L.Sender.has_cut L.Sender.lane board seen.to };

    fn step(&mut self, cx: &mut Cx<L::Board>) -> Poll<Option<Ending>> {
        if self.passing.held.is_some() {
            return match self.passing.poll_give(cx) {
                Poll::Pending => Poll::Pending,
                Poll::Ready(Ok(())) => {
                    self.release(cx);
                    Poll::Ready(None)
                }
                Poll::Ready(Err(())) => Poll::Ready(Some(Ending::Cut)),
            };
        }
        match self.passing.poll_take(cx) {
            Poll::Pending => Poll::Pending,
            Poll::Ready(Ok(())) => {
                self.token = take_token(&mut self.passing.held);
                Poll::Ready(None)
            }
            Poll::Ready(Err(Ended::Whole)) => Poll::Ready(Some(Ending::Whole)),
            Poll::Ready(Err(Ended::Cut)) => Poll::Ready(Some(Ending::Cut)),
        }
    }

    fn finish(self, cx: &mut Cx<L::Board>) -> ReceiptsOf<L, J> {
        let Inserting {
            passing,
            taken,
            sent,
            ..
        } = self;
        let Passing { from, to, .. } = passing;
        Receipts {
            taken: taken.filled(from.receipt()),
            sent: sent.filled(to.finish(cx)),
        }
    }

    fn cut(mut self, cx: &mut Cx<L::Board>) {
        self.release(cx);
        let Inserting { passing, .. } = self;
        passing.cut(cx);
    }
}
