//! The task behind the lanes of a linearizer.
ghost use Rattle.std.specs.Prelude.{◌≡◌, [], ◌∷◌, ◌++◌, IfOk, IsOkUnless, map};
ghost use Rattle.morsel_meaning.specs.declared.fault.Fault.TheVariants.{OutOfMemory};
ghost use Rattle.morsel_prims.specs.Polled.{BoardId};
ghost use Rattle.morsel_merge.specs.Merging.{IsMerging};
ghost use Rattle.std.specs.List.{flat_map};
ghost use Rattle.morsel_lane_pipe.specs.Tasks.{Merges};

use crate::receipts::{LoadOf, Receipts, ReceiptsOf, Room, SentOf};
use crate::stepwise::{Ending, Stepwise};
use morsel_load::{Load, LoadJob};
use morsel_meaning::Fault;
use morsel_merge::{Got, Linearizer};
use morsel_prims::{Cx, LaneSender, Lanes, Message, Poll, Tokens};
use std::alloc::Global;

/// Sends what a linearizer gives through one lane.
#[derive(Drop)]
pub struct Merging<
    L: Tokens + Lanes<Load<<L as Tokens>::Token, J>>,
    J: LoadJob<<L as Tokens>::Token>,
>
where
    Load<<L as Tokens>::Token, J>: Message,
{
    // Gives loads by number.
    pub(crate) from: Linearizer<LoadOf<L, J>, L>,
    pub(crate) to: L::Sender,
    // What was given, and is not sent yet.
    pub(crate) held: Option<Load<L::Token, J>>,
    pub(crate) sent: Room<SentOf<L, J>>,
}

impl<L: Tokens + Lanes<Load<<L as Tokens>::Token, J>>, J: LoadJob<<L as Tokens>::Token>> Merging<
    L,
    J,
> {
    /// A task that has sent nothing.
    pub fn new(
        alloc: Global,
        from: Linearizer<LoadOf<L, J>, L>,
        to: L::Sender,
    ) -> Result<Merging<L, J>, Fault>
        requires home { L.Sender.home to ≡ (L.Board.id from.board.value).lane_table }
        requires job { L.Sender.job to ≡ from.job.value }
        requires fresh { L.Sender.sent to ≡ [] }
        requires begins { IsMerging ⟦<Load<L::Token, J> as Ord>⟧.cmp (⟦<Load<L::Token, J> as Message>⟧.suits from.job.value) (map L.Receiver.taken from.receivers.items) from.held.items from.from from.to [] }
        ensures can_step { (id : BoardId) → L.Sender.home to ≡ id.lane_table → IfOk result (⟦<Merging<L, J> as Stepwise<L::Board>>⟧.can_step id) }
        ensures seen { IfOk result (λ task. ⟦<Merging<L, J> as Stepwise<L::Board>>⟧.seen task ≡ record { work = Merges; home = L.Sender.home to; from = map L.Receiver.lane from.receivers.items; to = L.Sender.lane to ∷ []; places = flat_map L.Receiver.wait_places from.receivers.items ++ L.Sender.wait_places to }) }
        ensures out_of_memory { IsOkUnless result OutOfMemory }
    {
        Ok(Merging {
            from,
            to,
            held: None,
            sent: Room::new(alloc)?,
        })
    }
}

impl<L: Tokens + Lanes<Load<<L as Tokens>::Token, J>>, J: LoadJob<<L as Tokens>::Token>> Stepwise<
    L::Board,
> for Merging<L, J> {
    ghost use Rattle.std.specs.Prelude.{◌⊎◌, None, true, false, IfSome, slice_index_or};
    ghost use Rattle.morsel_prims.specs.Polled.{held_list};
    ghost use Rattle.morsel_merge.specs.Merging.{IsMerged};
    ghost use Rattle.morsel_lane_pipe.specs.Tasks.{AreEndsCut, AreReceipts, IsWaiting};

    type Receipts = ReceiptsOf<L, J>;

    // Its ends are of this board and for one job, and what was given is sent or held.
    ghost can_step = { λ id task. ((L.Board.id task.from.board.value).lane_table ≡ id.lane_table) × (L.Sender.home task.to ≡ id.lane_table) × (L.Sender.job task.to ≡ task.from.job.value)
        × IfSome task.held (⟦<Load<L::Token, J> as Message>⟧.suits task.from.job.value)
        × IsMerging ⟦<Load<L::Token, J> as Ord>⟧.cmp (⟦<Load<L::Token, J> as Message>⟧.suits task.from.job.value) (map L.Receiver.taken task.from.receivers.items) task.from.held.items task.from.from task.from.to (L.Sender.sent task.to ++ held_list task.held) };

    ghost leaves = { λ task receipts. Unit {0} };

    ghost fails = { λ task fault. ⊥ };

    ghost is_done = { λ task. (task.from.ended ≡ true) × IsMerged ⟦<Load<L::Token, J> as Ord>⟧.cmp (map L.Receiver.taken task.from.receivers.items) (L.Sender.sent task.to) };

    ghost met_cut = { λ board task. ((d : L.Receiver) → (L.Receiver.is_cut (slice_index_or task.from.receivers.items task.from.from d) ≡ true) × L.Receiver.found_ended board (slice_index_or task.from.receivers.items task.from.from d) false) ⊎ ((end : L.Sender) × L.Sender.found_closed board end task.to) };

    ghost waits = { λ me board task. ((d : L.Receiver) → IsWaiting L.Receiver.registered L.Receiver.found_empty me board (slice_index_or task.from.receivers.items task.from.from d)) ⊎ IsWaiting L.Sender.registered L.Sender.found_full me board task.to };

    ghost seen = { λ task. record {
      work = Merges;
      home = L.Sender.home task.to;
      from = map L.Receiver.lane task.from.receivers.items;
      to = L.Sender.lane task.to ∷ [];
      places = flat_map L.Receiver.wait_places task.from.receivers.items ++ L.Sender.wait_places task.to;
    } };

    ghost gives = { λ seen receipts. AreReceipts L.Receiver.receipt_home L.Receiver.receipt_lane L.Receiver.all_taken L.Sender.receipt_home L.Sender.receipt_lane L.Sender.all_sent seen receipts.taken.items receipts.sent.items };

    ghost has_cut = { λ board seen. AreEndsCut L.Board.waits_at L.Receiver.has_cut L.Receiver.lane board seen.from × AreEndsCut L.Board.waits_at L.Sender.has_cut L.Sender.lane board seen.to };

    fn step(&mut self, cx: &mut Cx<L::Board>) -> Poll<Option<Ending>> {
        if self.held.is_some() {
            return match self.to.poll_send(cx, &mut self.held) {
                Poll::Pending => Poll::Pending,
                Poll::Ready(Ok(())) => Poll::Ready(None),
                Poll::Ready(Err(refused)) => {
                    self.held = Some(refused);
                    Poll::Ready(Some(Ending::Cut))
                }
            };
        }
        match self.from.poll_get(cx) {
            Poll::Pending => Poll::Pending,
            Poll::Ready(Got::Item(load)) => {
                self.held = Some(load);
                Poll::Ready(None)
            }
            Poll::Ready(Got::End) => Poll::Ready(Some(Ending::Whole)),
            Poll::Ready(Got::Cut) => Poll::Ready(Some(Ending::Cut)),
        }
    }

    fn finish(self, cx: &mut Cx<L::Board>) -> ReceiptsOf<L, J> {
        let Merging { from, to, sent, .. } = self;
        Receipts {
            taken: from.receipts(),
            sent: sent.filled(to.finish(cx)),
        }
    }

    fn cut(self, cx: &mut Cx<L::Board>) {
        let Merging { from, to, .. } = self;
        from.cut(cx);
        to.cut(cx);
    }
}
