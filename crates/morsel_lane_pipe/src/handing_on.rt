//! The task behind each lane of a distributor.
ghost use Rattle.std.specs.Prelude.{◌≡◌, ◌^◌, ◌<◌, true, false, None, [], ◌∷◌, ◌++◌, IfOk, IfSome, IsSome, IsOkUnless, map};
ghost use Rattle.morsel_meaning.specs.declared.fault.Fault.TheVariants.{OutOfMemory};
ghost use Rattle.morsel_prims.specs.Polled.{IfReady, OnPending, held_list};
ghost use Rattle.morsel_prims.specs.Waiting.{KeepsOthersWaiting, KeepsWaiting, SameWaiting};
ghost use Rattle.morsel_prims.specs.Woken.{KeepsWakes};
ghost use Rattle.morsel_load.specs.Loads.{load_seen};
ghost use Rattle.morsel_lane_pipe.specs.Tasks.{HandsOn, HoldsTokensOf, token_of};

use crate::passing::Passing;
use crate::receipts::{Receipts, ReceiptsOf, Room, SentOf, TakenOf};
use crate::stepwise::{Ending, Stepwise};
use morsel_load::{Load, LoadJob, Morsel};
use morsel_meaning::Fault;
use morsel_prims::{Cx, Ended, LaneReceiver, LaneSender, Lanes, Message, Poll, Tokens};
use std::alloc::Global;

/// Takes loads from one lane and sends them through another, one at a time: each morsel has a token, and the next load
/// is taken once the token was released.
#[derive(Drop)]
pub struct HandingOn<
    L: Tokens + Lanes<Load<<L as Tokens>::Token, J>>,
    J: LoadJob<<L as Tokens>::Token>,
> {
    pub(crate) passing: Passing<L::Token, J, L::Receiver, L::Sender>,
    pub(crate) group: L::Group,
    // Whether it waits until its token was released.
    pub(crate) waits: bool,
    pub(crate) taken: Room<TakenOf<L, J>>,
    pub(crate) sent: Room<SentOf<L, J>>,
}

impl<L: Tokens + Lanes<Load<<L as Tokens>::Token, J>>, J: LoadJob<<L as Tokens>::Token>> HandingOn<
    L,
    J,
> {
    /// A task that has taken nothing.
    pub fn new(
        alloc: Global,
        board: &mut L::Board,
        from: L::Receiver,
        to: L::Sender,
    ) -> Result<HandingOn<L, J>, Fault>
        requires home { (L.Receiver.home from ≡ (L.Board.id board.old).lane_table) × (L.Sender.home to ≡ (L.Board.id board.old).lane_table) }
        requires job { L.Sender.job to ≡ L.Receiver.job from }
        requires fresh { (L.Receiver.taken from ≡ []) × (L.Sender.sent to ≡ []) }
        requires tokens { HoldsTokensOf J.holds L.token_home (L.Receiver.job from) (L.Board.id board.old).group_table }
        ensures can_step { IfOk result (⟦<HandingOn<L, J> as Stepwise<L::Board>>⟧.can_step (L.Board.id board.old)) }
        ensures seen { IfOk result (λ task. ⟦<HandingOn<L, J> as Stepwise<L::Board>>⟧.seen task ≡ record { work = HandsOn; home = L.Receiver.home from; from = L.Receiver.lane from ∷ []; to = L.Sender.lane to ∷ []; places = (L.Receiver.wait_places from ++ L.Sender.wait_places to) ++ L.wait_places task.group }) }
        ensures out_of_memory { IsOkUnless result OutOfMemory }
        ensures same_waiting { SameWaiting (L.Board.waits_at board.old) (L.Board.waits_at board.new) }
        ensures same_board { L.Board.id board.new ≡ L.Board.id board.old }
    {
        let taken = Room::new(alloc)?;
        let sent = Room::new(alloc)?;
        let group = L::group(alloc, board)?;
        Ok(HandingOn {
            passing: Passing {
                from,
                to,
                held: None,
            },
            group,
            waits: false,
            taken,
            sent,
        })
    }

    /// Waits until the token of the last morsel was released.
    fn wait(&mut self, cx: &mut Cx<L::Board>) -> Poll<()>
        requires home { L.group_home self.old.group ≡ (L.Board.id cx.old.board).group_table }
        ensures same_passing { self.new.passing ≡ self.old.passing }
        ensures same_group { (L.group_home self.new.group ≡ L.group_home self.old.group) × (L.wait_places self.new.group ≡ L.wait_places self.old.group) }
        ensures ready { IfReady result (λ _. (L.parts self.new.group ≡ 2 ^ 62) × (self.new.waits ≡ false)) }
        ensures pending { OnPending result (self.new.waits ≡ self.old.waits) }
        ensures waits { OnPending result (L.group_registered cx.new.board self.old.group self.new.group cx.old.me × L.found_tokens cx.new.board self.old.group self.new.group) }
        ensures keeps_waiting { KeepsOthersWaiting (L.wait_places self.old.group) cx.old.me (L.Board.waits_at cx.old.board) (L.Board.waits_at cx.new.board) cx.new.wakes }
        ensures same_board { L.Board.id cx.new.board ≡ L.Board.id cx.old.board }
        ensures same_task { cx.new.me ≡ cx.old.me }
        ensures wakes { KeepsWakes cx.old.wakes cx.new.wakes }
    {
        match L::poll_wait(cx, &mut self.group) {
            Poll::Pending => Poll::Pending,
            Poll::Ready(()) => {
                self.waits = false;
                Poll::Ready(())
            }
        }
    }
}

/// Sets a token of the group on the morsel. Another token that it had is released.
fn set_on_morsel<
    L: Tokens + Lanes<Load<<L as Tokens>::Token, J>>,
    J: LoadJob<<L as Tokens>::Token>,
>(
    morsel: &mut Morsel<L::Token, J>,
    group: &mut L::Group,
    cx: &mut Cx<L::Board>,
) -> Result<(), Fault>
    requires home { L.group_home group.old ≡ (L.Board.id cx.old.board).group_table }
    requires parts { 2 ^ 31 < L.parts group.old }
    requires token { IfSome morsel.old.consume_token (λ token. L.token_home token ≡ (L.Board.id cx.old.board).group_table) }
    ensures same { record morsel.new { consume_token = None } ≡ record morsel.old { consume_token = None } }
    ensures token { IfSome morsel.new.consume_token (λ token. L.token_home token ≡ (L.Board.id cx.old.board).group_table) }
    ensures same_group { (L.group_home group.new ≡ L.group_home group.old) × (L.wait_places group.new ≡ L.wait_places group.old) }
    ensures keeps_waiting { KeepsWaiting (L.Board.waits_at cx.old.board) (L.Board.waits_at cx.new.board) cx.new.wakes }
    ensures same_board { L.Board.id cx.new.board ≡ L.Board.id cx.old.board }
    ensures same_task { cx.new.me ≡ cx.old.me }
    ensures wakes { KeepsWakes cx.old.wakes cx.new.wakes }
{
    if let Some(token) = morsel.take_consume_token() {
        L::release(cx, token);
    }
    let token = L::token(cx, group)?;
    morsel.set_consume_token(token);
    Ok(())
}

/// Sets a token of the group on the load that is held, if it is a morsel. Another token that it had is released.
fn set_token<L: Tokens + Lanes<Load<<L as Tokens>::Token, J>>, J: LoadJob<<L as Tokens>::Token>>(
    held: &mut Option<Load<L::Token, J>>,
    group: &mut L::Group,
    cx: &mut Cx<L::Board>,
) -> Result<(), Fault>
    requires home { L.group_home group.old ≡ (L.Board.id cx.old.board).group_table }
    requires parts { 2 ^ 31 < L.parts group.old }
    requires token { IfSome (token_of held.old) (λ token. L.token_home token ≡ (L.Board.id cx.old.board).group_table) }
    ensures same { map load_seen (held_list held.new) ≡ map load_seen (held_list held.old) }
    ensures some { IsSome held.old → IsSome held.new }
    ensures token { IfSome (token_of held.new) (λ token. L.token_home token ≡ (L.Board.id cx.old.board).group_table) }
    ensures same_group { (L.group_home group.new ≡ L.group_home group.old) × (L.wait_places group.new ≡ L.wait_places group.old) }
    ensures keeps_waiting { KeepsWaiting (L.Board.waits_at cx.old.board) (L.Board.waits_at cx.new.board) cx.new.wakes }
    ensures same_board { L.Board.id cx.new.board ≡ L.Board.id cx.old.board }
    ensures same_task { cx.new.me ≡ cx.old.me }
    ensures wakes { KeepsWakes cx.old.wakes cx.new.wakes }
{
    match held {
        Some(Load::Morsel(morsel)) => set_on_morsel::<L, J>(morsel, group, cx),
        _ => Ok(()),
    }
}

impl<L: Tokens + Lanes<Load<<L as Tokens>::Token, J>>, J: LoadJob<<L as Tokens>::Token>> Stepwise<
    L::Board,
> for HandingOn<L, J> {
    ghost use Rattle.std.specs.Prelude.{◌⊎◌};
    ghost use Rattle.morsel_lane_pipe.specs.Tasks.{AreEndsCut, AreReceipts, IsPassing, IsWaiting};

    type Receipts = ReceiptsOf<L, J>;

    // Its ends are of this board and for one job, what was taken is sent or held, and a token is out only where one is held or waited for.
    ghost can_step = { λ id task. IsPassing ⟦<Load<L::Token, J> as Message>⟧.suits id.lane_table (L.Receiver.home task.passing.from) (L.Sender.home task.passing.to) (L.Receiver.job task.passing.from) (L.Sender.job task.passing.to) (L.Receiver.taken task.passing.from) (L.Sender.sent task.passing.to) task.passing.held
        × HoldsTokensOf J.holds L.token_home (L.Receiver.job task.passing.from) id.group_table × (L.group_home task.group ≡ id.group_table)
        × (task.waits ≡ false → task.passing.held ≡ None → L.parts task.group ≡ 2 ^ 62) × (task.waits ≡ true → task.passing.held ≡ None) };

    ghost leaves = { λ task receipts. Unit {0} };

    ghost fails = { λ task fault. ⊥ };

    ghost is_done = { λ task. (L.Receiver.is_whole task.passing.from ≡ true) × (task.passing.held ≡ None) };

    ghost met_cut = { λ board task. ((L.Receiver.is_cut task.passing.from ≡ true) × L.Receiver.found_ended board task.passing.from false) ⊎ ((end : L.Sender) × L.Sender.found_closed board end task.passing.to) };

    ghost waits = { λ me board task. IsWaiting L.Receiver.registered L.Receiver.found_empty me board task.passing.from ⊎ IsWaiting L.Sender.registered L.Sender.found_full me board task.passing.to
        ⊎ ((group : L.Group) × L.group_registered board group task.group me × L.found_tokens board group task.group) };

    ghost seen = { λ task. record {
      work = HandsOn;
      home = L.Receiver.home task.passing.from;
      from = L.Receiver.lane task.passing.from ∷ [];
      to = L.Sender.lane task.passing.to ∷ [];
      places = (L.Receiver.wait_places task.passing.from ++ L.Sender.wait_places task.passing.to) ++ L.wait_places task.group;
    } };

    ghost gives = { λ seen receipts. AreReceipts L.Receiver.receipt_home L.Receiver.receipt_lane L.Receiver.all_taken L.Sender.receipt_home L.Sender.receipt_lane L.Sender.all_sent seen receipts.taken.items receipts.sent.items };

    ghost has_cut = { λ board seen. AreEndsCut L.Board.waits_at L.Receiver.has_cut L.Receiver.lane board seen.from × AreEndsCut L.Board.waits_at L.Sender.has_cut L.Sender.lane board seen.to };

    fn step(&mut self, cx: &mut Cx<L::Board>) -> Poll<Option<Ending>> {
        if self.waits {
            return match self.wait(cx) {
                Poll::Pending => Poll::Pending,
                Poll::Ready(()) => Poll::Ready(None),
            };
        }
        if self.passing.held.is_some() {
            return match self.passing.poll_give(cx) {
                Poll::Pending => Poll::Pending,
                Poll::Ready(Ok(())) => {
                    self.waits = true;
                    Poll::Ready(None)
                }
                Poll::Ready(Err(())) => Poll::Ready(Some(Ending::Cut)),
            };
        }
        match self.passing.poll_take(cx) {
            Poll::Pending => Poll::Pending,
            Poll::Ready(Ok(())) => {
                match set_token::<L, J>(&mut self.passing.held, &mut self.group, cx) {
                    Ok(()) => Poll::Ready(None),
                    Err(_) => Poll::Ready(Some(Ending::OutOfMemory)),
                }
            }
            Poll::Ready(Err(Ended::Whole)) => Poll::Ready(Some(Ending::Whole)),
            Poll::Ready(Err(Ended::Cut)) => Poll::Ready(Some(Ending::Cut)),
        }
    }

    fn finish(self, cx: &mut Cx<L::Board>) -> ReceiptsOf<L, J> {
        let HandingOn {
            passing,
            taken,
            sent,
            ..
        } = self;
        let Passing { from, to, .. } = passing;
        Receipts {
            taken: taken.filled(from.receipt()),
            sent: sent.filled(to.finish(cx)),
        }
    }

    fn cut(self, cx: &mut Cx<L::Board>) {
        let HandingOn { passing, .. } = self;
        passing.cut(cx);
    }
}
