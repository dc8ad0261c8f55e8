//! A task's step that hands on what it takes, over any lanes.
ghost use Rattle.std.specs.Prelude.{◌≡◌};

use crate::lane::{Ended, LaneReceiver, LaneSender, Message};
use crate::lanes::{Lanes, Tokens};
use crate::poll::Poll;
use crate::task::{Board, Cx};

/// What a step did.
#[derive(Clone, Copy, Debug, PartialEq, Eq)]
pub enum Handed {
    /// One value went on.
    Moved,
    /// There are no more values.
    Ended(Ended),
    /// The next receiver has closed.
    Closed,
}

/// Takes values from one lane, and sends them through the next.
#[derive(Drop)]
pub struct HandOn<T, S, R> {
    /// Where it takes values.
    pub from: R,
    /// Where it sends them.
    pub to: S,
    /// What was taken, and is not sent yet.
    pub held: Option<T>,
}

impl<T: Message, S, R> HandOn<T, S, R> {
    ghost use Rattle.std.specs.Prelude.{◌≡◌, ℕ, ◌++◌, true, [], ◌∷◌, IfSome, ◌⊎◌, Some};
    ghost use Rattle.morsel_prims.specs.Polled.{held_list, IfReady, OnPending};
    ghost use Rattle.morsel_prims.specs.Waiting.{KeepsOthersWaiting};
    ghost use Rattle.morsel_prims.specs.Woken.{KeepsWakes};
    ghost use Rattle.morsel_prims.specs.declared.hand_on.Handed.{Handed};
    ghost use Rattle.morsel_prims.specs.declared.lane.Ended.{Ended};

    /// Hands one value on, or registers where it waits.
    pub fn poll_step<B: Board>(&mut self, cx: &mut Cx<B>) -> Poll<Handed>
    where
        S: LaneSender<T, B>,
        R: LaneReceiver<T, B>,
        requires home { (S.home self.old.to ≡ (B.id cx.old.board).lane_table) × (R.home self.old.from ≡ (B.id cx.old.board).lane_table) }
        requires job { S.job self.old.to ≡ R.job self.old.from }
        requires suits { IfSome self.old.held (T.suits (R.job self.old.from)) }
        ensures same_home { (S.home self.new.to ≡ S.home self.old.to) × (R.home self.new.from ≡ R.home self.old.from) }
        ensures same_lane { (S.lane self.new.to ≡ S.lane self.old.to) × (R.lane self.new.from ≡ R.lane self.old.from) }
        ensures same_places { (S.wait_places self.new.to ≡ S.wait_places self.old.to) × (R.wait_places self.new.from ≡ R.wait_places self.old.from) }
        ensures same_job { (S.job self.new.to ≡ S.job self.old.to) × (R.job self.new.from ≡ R.job self.old.from) }
        ensures suits { IfSome self.new.held (T.suits (R.job self.new.from)) }
        // What was taken is what was sent, and then what is held.
        ensures nothing_lost { R.taken self.old.from ≡ S.sent self.old.to ++ held_list self.old.held → R.taken self.new.from ≡ S.sent self.new.to ++ held_list self.new.held }
        ensures moved { IfReady result (λ handed. handed ≡ Handed.Moved → (value : T) × (S.sent self.new.to ≡ S.sent self.old.to ++ value ∷ [])) }
        ensures ended { IfReady result (λ handed. handed ≡ Handed.Ended Ended.Whole → (R.is_whole self.new.from ≡ true) × (held_list self.new.held ≡ [])) }
        ensures cut { IfReady result (λ handed. handed ≡ Handed.Ended Ended.Cut → R.is_cut self.new.from ≡ true) }
        ensures closed { IfReady result (λ handed. handed ≡ Handed.Closed → S.found_closed cx.new.board self.old.to self.new.to) }
        // It waits at one of its two ends.
        ensures waits { OnPending result ((R.registered cx.new.board self.old.from self.new.from cx.old.me × R.found_empty cx.new.board self.old.from self.new.from) ⊎ (S.registered cx.new.board self.old.to self.new.to cx.old.me × S.found_full cx.new.board self.old.to self.new.to)) }
        ensures keeps_waiting { KeepsOthersWaiting (R.wait_places self.old.from ++ S.wait_places self.old.to) cx.old.me (B.waits_at cx.old.board) (B.waits_at cx.new.board) cx.new.wakes }
        ensures same_board { B.id cx.new.board ≡ B.id cx.old.board }
        ensures same_task { cx.new.me ≡ cx.old.me }
        ensures wakes { KeepsWakes cx.old.wakes cx.new.wakes }
    {
        if self.held.is_none() {
            match self.from.poll_recv(cx) {
                Poll::Pending => return Poll::Pending,
                Poll::Ready(Err(end)) => return Poll::Ready(Handed::Ended(end)),
                Poll::Ready(Ok(value)) => self.held = Some(value),
            }
        }
        match self.to.poll_send(cx, &mut self.held) {
            Poll::Pending => Poll::Pending,
            Poll::Ready(Ok(())) => Poll::Ready(Handed::Moved),
            Poll::Ready(Err(value)) => {
                self.held = Some(value);
                Poll::Ready(Handed::Closed)
            }
        }
    }
}

/// What came out of the second of two lanes is what went into the first, where a task handed it on.
pub fn settle_two<T: Message, L: Tokens + Lanes<T>>(
    board: &mut L::Board,
    first_sent: <L::Sender as LaneSender<T, L::Board>>::Receipt,
    first_taken: <L::Receiver as LaneReceiver<T, L::Board>>::Receipt,
    second_sent: <L::Sender as LaneSender<T, L::Board>>::Receipt,
    second_taken: <L::Receiver as LaneReceiver<T, L::Board>>::Receipt,
)
    requires first_home { (L.Sender.receipt_home first_sent ≡ (L.Board.id board.old).lane_table) × (L.Receiver.receipt_home first_taken ≡ (L.Board.id board.old).lane_table) }
    requires second_home { (L.Sender.receipt_home second_sent ≡ (L.Board.id board.old).lane_table) × (L.Receiver.receipt_home second_taken ≡ (L.Board.id board.old).lane_table) }
    requires first_lane { L.Sender.receipt_lane first_sent ≡ L.Receiver.receipt_lane first_taken }
    requires second_lane { L.Sender.receipt_lane second_sent ≡ L.Receiver.receipt_lane second_taken }
    requires handed_on { L.Receiver.all_taken first_taken ≡ L.Sender.all_sent second_sent }
    ensures same { L.Receiver.all_taken second_taken ≡ L.Sender.all_sent first_sent }
    ensures same_board { L.Board.id board.new ≡ L.Board.id board.old }
{
    L::agree(board, first_sent, first_taken);
    L::agree(board, second_sent, second_taken);
}
