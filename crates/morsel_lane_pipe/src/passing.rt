//! Loads on their way from one lane to the next.
ghost use Rattle.std.specs.Prelude.{◌≡◌, true, false, None, Some, IsSome, IfSome, ◌++◌, OnOk, OnErr, IfErr};
ghost use Rattle.morsel_prims.specs.Polled.{ByEnd, IfReady, OnPending, held_list};
ghost use Rattle.morsel_prims.specs.Waiting.{KeepsOthersWaiting, KeepsWaiting};
ghost use Rattle.morsel_prims.specs.Woken.{KeepsWakes};
ghost use Rattle.morsel_merge.specs.Boards.{OnEarlierEnd};
ghost use Rattle.morsel_lane_pipe.specs.Tasks.{IsPassing};

use morsel_load::{Load, LoadJob};
use morsel_prims::{Board, Cx, Ended, LaneReceiver, LaneSender, Message, Poll};

/// The ends between which loads pass, and the load that was taken and is not sent yet.
#[derive(Drop)]
pub(crate) struct Passing<K, J, R, S> {
    /// Where loads are taken.
    pub from: R,
    /// Where they are sent.
    pub to: S,
    /// What was taken, and is not sent yet.
    pub held: Option<Load<K, J>>,
}

impl<K: Drop, J: LoadJob<K>, R, S> Passing<K, J, R, S> {
    /// Takes the next load, or registers where there is none yet.
    pub fn poll_take<B: Board>(&mut self, cx: &mut Cx<B>) -> Poll<Result<(), Ended>>
    where
        R: LaneReceiver<Load<K, J>, B>,
        S: LaneSender<Load<K, J>, B>,
        requires passing { IsPassing ⟦<Load<K, J> as Message>⟧.suits (B.id cx.old.board).lane_table (R.home self.old.from) (S.home self.old.to) (R.job self.old.from) (S.job self.old.to) (R.taken self.old.from) (S.sent self.old.to) self.old.held }
        requires none { self.old.held ≡ None }
        ensures passing { IsPassing ⟦<Load<K, J> as Message>⟧.suits (B.id cx.old.board).lane_table (R.home self.new.from) (S.home self.new.to) (R.job self.new.from) (S.job self.new.to) (R.taken self.new.from) (S.sent self.new.to) self.new.held }
        ensures same_to { self.new.to ≡ self.old.to }
        ensures same_home { R.home self.new.from ≡ R.home self.old.from }
        ensures same_lane { R.lane self.new.from ≡ R.lane self.old.from }
        ensures same_job { R.job self.new.from ≡ R.job self.old.from }
        ensures same_places { R.wait_places self.new.from ≡ R.wait_places self.old.from }
        ensures taken { R.taken self.new.from ≡ R.taken self.old.from ++ held_list self.new.held }
        ensures some { IfReady result (λ answer. OnOk answer (IsSome self.new.held)) }
        ensures none { IfReady result (λ answer. OnErr answer (self.new.held ≡ None)) }
        ensures ended { IfReady result (λ answer. IfErr answer (λ end. ByEnd end (R.is_whole self.new.from ≡ true) ((R.is_cut self.new.from ≡ true) × R.found_ended cx.new.board self.new.from false))) }
        ensures pending { OnPending result (self.new.held ≡ None) }
        ensures waits { OnPending result (R.registered cx.new.board self.old.from self.new.from cx.old.me × R.found_empty cx.new.board self.old.from self.new.from) }
        ensures keeps_waiting { KeepsOthersWaiting (R.wait_places self.old.from) cx.old.me (B.waits_at cx.old.board) (B.waits_at cx.new.board) cx.new.wakes }
        ensures same_board { B.id cx.new.board ≡ B.id cx.old.board }
        ensures same_task { cx.new.me ≡ cx.old.me }
        ensures wakes { KeepsWakes cx.old.wakes cx.new.wakes }
    {
        match self.from.poll_recv(cx) {
            Poll::Pending => Poll::Pending,
            Poll::Ready(Err(end)) => Poll::Ready(Err(end)),
            Poll::Ready(Ok(load)) => {
                keep(&mut self.held, load);
                Poll::Ready(Ok(()))
            }
        }
    }

    /// Sends the load that is held, or registers where there is no room. Where the next receiver has closed, the load
    /// stays held.
    pub fn poll_give<B: Board>(&mut self, cx: &mut Cx<B>) -> Poll<Result<(), ()>>
    where
        R: LaneReceiver<Load<K, J>, B>,
        S: LaneSender<Load<K, J>, B>,
        requires passing { IsPassing ⟦<Load<K, J> as Message>⟧.suits (B.id cx.old.board).lane_table (R.home self.old.from) (S.home self.old.to) (R.job self.old.from) (S.job self.old.to) (R.taken self.old.from) (S.sent self.old.to) self.old.held }
        requires some { IsSome self.old.held }
        ensures passing { IsPassing ⟦<Load<K, J> as Message>⟧.suits (B.id cx.old.board).lane_table (R.home self.new.from) (S.home self.new.to) (R.job self.new.from) (S.job self.new.to) (R.taken self.new.from) (S.sent self.new.to) self.new.held }
        ensures same_from { self.new.from ≡ self.old.from }
        ensures same_home { S.home self.new.to ≡ S.home self.old.to }
        ensures same_lane { S.lane self.new.to ≡ S.lane self.old.to }
        ensures same_job { S.job self.new.to ≡ S.job self.old.to }
        ensures same_places { S.wait_places self.new.to ≡ S.wait_places self.old.to }
        ensures ok { IfReady result (λ answer. OnOk answer ((self.new.held ≡ None) × S.found_room cx.new.board self.old.to self.new.to)) }
        ensures err { IfReady result (λ answer. OnErr answer ((self.new.held ≡ self.old.held) × S.found_closed cx.new.board self.old.to self.new.to)) }
        ensures pending { OnPending result (self.new.held ≡ self.old.held) }
        ensures waits { OnPending result (S.registered cx.new.board self.old.to self.new.to cx.old.me × S.found_full cx.new.board self.old.to self.new.to) }
        ensures keeps_waiting { KeepsOthersWaiting (S.wait_places self.old.to) cx.old.me (B.waits_at cx.old.board) (B.waits_at cx.new.board) cx.new.wakes }
        ensures same_board { B.id cx.new.board ≡ B.id cx.old.board }
        ensures same_task { cx.new.me ≡ cx.old.me }
        ensures wakes { KeepsWakes cx.old.wakes cx.new.wakes }
    {
        match self.to.poll_send(cx, &mut self.held) {
            Poll::Pending => Poll::Pending,
            Poll::Ready(Ok(())) => Poll::Ready(Ok(())),
            Poll::Ready(Err(refused)) => {
                keep(&mut self.held, refused);
                Poll::Ready(Err(()))
            }
        }
    }

    /// Cuts both ends.
    pub fn cut<B: Board>(self, cx: &mut Cx<B>)
    where
        R: LaneReceiver<Load<K, J>, B>,
        S: LaneSender<Load<K, J>, B>,
        requires home { (R.home self.from ≡ (B.id cx.old.board).lane_table) × (S.home self.to ≡ (B.id cx.old.board).lane_table) }
        ensures from { OnEarlierEnd B.waits_at cx.new.board cx.new.wakes (λ board. R.has_cut board self.from) }
        ensures to { S.has_cut cx.new.board self.to }
        ensures keeps_waiting { KeepsWaiting (B.waits_at cx.old.board) (B.waits_at cx.new.board) cx.new.wakes }
        ensures same_board { B.id cx.new.board ≡ B.id cx.old.board }
        ensures same_task { cx.new.me ≡ cx.old.me }
        ensures wakes { KeepsWakes cx.old.wakes cx.new.wakes }
    {
        let Passing { from, to, .. } = self;
        from.cut(cx);
        to.cut(cx);
    }
}

/// Holds this value, in place of what was held.
pub(crate) fn keep<T: Drop>(held: &mut Option<T>, value: T)
    ensures { held.new ≡ Some value }
{
    *held = Some(value);
}
