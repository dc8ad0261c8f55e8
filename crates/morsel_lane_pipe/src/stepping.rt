//! A task that goes on step by step.
ghost use Rattle.std.specs.Prelude.{◌≡◌, Some, None};
ghost use Rattle.morsel_prims.specs.Polled.{IfReady, OnPending};
ghost use Rattle.morsel_prims.specs.Waiting.{KeepsOthersWaiting, KeepsWaiting};
ghost use Rattle.morsel_prims.specs.Woken.{KeepsWakes};
ghost use Rattle.morsel_meaning.specs.declared.fault.Fault.{Fault};
ghost use Rattle.morsel_lane_pipe.specs.Tasks.{Has, IfFailed, IfWhole, OnCut, UnlessWhole};
ghost use Rattle.morsel_lane_pipe.specs.Stepped.{IsOn, places_if};

use crate::receipts::PipeOut;
use crate::stepwise::{Ending, Stepwise};
use morsel_prims::{Board, Cx, Poll, Task};

/// A task that goes on step by step until it waits or ends.
///
/// A task that meets a closed end, or a cut one, cuts its other ends and answers `Cut`. One that wants memory cuts its
/// ends and answers `OutOfMemory`, and one that has a fault answers `Failed`.
#[derive(Drop)]
pub struct Stepping<T> {
    // Until it has ended.
    pub(crate) task: Option<T>,
}

impl<T: Drop> Stepping<T> {
    /// A task that has made no step.
    pub fn new(task: T) -> Stepping<T>
        ensures { result.task ≡ Some task }
    {
        Stepping { task: Some(task) }
    }

    /// Makes one step; the answer tells whether it is to end.
    fn step<B: Board>(&mut self, cx: &mut Cx<B>) -> Poll<Option<Ending>>
    where
        T: Stepwise<B>,
        requires can_step { Has self.old.task (T.can_step (B.id cx.old.board)) }
        ensures again { IsOn (T.can_step (B.id cx.old.board)) T.seen T.fails T.leaves self.old.task self.new.task }
        ensures failed { IfReady result (λ ending. (fault : Fault) → ending ≡ Some (Ending.Failed fault) → Has self.old.task (λ task. T.fails task fault)) }
        ensures done { IfReady result (λ ending. ending ≡ Some Ending.Whole → Has self.new.task T.is_done) }
        ensures met { IfReady result (λ ending. ending ≡ Some Ending.Cut → Has self.new.task (T.met_cut cx.new.board)) }
        ensures waits { OnPending result (Has self.new.task (T.waits cx.old.me cx.new.board)) }
        ensures keeps_waiting { KeepsOthersWaiting (places_if self.old.task (λ task. (T.seen task).places)) cx.old.me (B.waits_at cx.old.board) (B.waits_at cx.new.board) cx.new.wakes }
        ensures same_board { B.id cx.new.board ≡ B.id cx.old.board }
        ensures same_task { cx.new.me ≡ cx.old.me }
        ensures wakes { KeepsWakes cx.old.wakes cx.new.wakes }
    {
        match &mut self.task {
            Some(task) => task.step(cx),
            None => unreachable!(),
        }
    }

    /// Ends the task.
    fn end<B: Board>(&mut self, ending: Ending, cx: &mut Cx<B>) -> PipeOut<T::Receipts>
    where
        T: Stepwise<B>,
        requires can_step { Has self.old.task (T.can_step (B.id cx.old.board)) }
        requires done { ending ≡ Ending.Whole → Has self.old.task T.is_done }
        ensures gives { Has self.old.task (λ task. IfWhole result (T.gives (T.seen task)) × IfWhole result (T.leaves task)) }
        ensures cut { Has self.old.task (λ task. UnlessWhole result (T.has_cut cx.new.board (T.seen task))) }
        ensures asked { OnCut result (ending ≡ Ending.Cut) }
        ensures failed { IfFailed result (λ fault. ending ≡ Ending.Failed fault) }
        ensures keeps_waiting { KeepsWaiting (B.waits_at cx.old.board) (B.waits_at cx.new.board) cx.new.wakes }
        ensures same_board { B.id cx.new.board ≡ B.id cx.old.board }
        ensures same_task { cx.new.me ≡ cx.old.me }
        ensures wakes { KeepsWakes cx.old.wakes cx.new.wakes }
    {
        let Some(task) = self.task.take() else {
            unreachable!()
        };
        match ending {
            Ending::Whole => PipeOut::Whole(task.finish(cx)),
            Ending::Cut => {
                task.cut(cx);
                PipeOut::Cut
            }
            Ending::OutOfMemory => {
                task.cut(cx);
                PipeOut::OutOfMemory
            }
            Ending::Failed(fault) => {
                task.cut(cx);
                PipeOut::Failed(fault)
            }
        }
    }
}

impl<B: Board, T: Stepwise<B> + Drop> Task<B> for Stepping<T> {
    ghost use Rattle.std.specs.Prelude.{◌⊎◌, true};
    ghost use Rattle.morsel_prims.specs.Woken.{has_number};
    ghost use Rattle.morsel_merge.specs.Boards.{OnEarlierEnd};
    ghost use Rattle.morsel_lane_pipe.specs.Tasks.{IfFailed, IfWhole, OnCut, UnlessWhole};
    ghost use Rattle.morsel_lane_pipe.specs.Stepped.{IsOn, places_if};

    type Out = PipeOut<T::Receipts>;

    ghost can_poll = { λ id stepping. Has stepping.task (T.can_step id) };

    ghost gives = { λ stepping out. Has stepping.task (λ task. IfWhole out (T.gives (T.seen task)) × IfFailed out (T.fails task) × IfWhole out (T.leaves task)) };

    ghost waits = { λ me board before stepping. Has stepping.task (T.waits me board) };

    ghost wait_places = { λ stepping. places_if stepping.task (λ task. (T.seen task).places) };

    ghost has_cut = { λ board stepping. Has stepping.task (λ task. T.has_cut board (T.seen task)) };

    fn poll(&mut self, cx: &mut Cx<B>) -> Poll<PipeOut<T::Receipts>>
        requires can_poll { Has self.old.task (T.can_step (B.id cx.old.board)) }
        ensures ready { IfReady result (λ out. Has self.old.task (λ task. IfWhole out (T.gives (T.seen task)) × IfFailed out (T.fails task) × IfWhole out (T.leaves task))) }
        // A task that does not end whole has cut its ends; and it tells of a cut only where it met one.
        ensures cut { IfReady result (λ out. Has self.old.task (λ task. UnlessWhole out (T.has_cut cx.new.board (T.seen task)))) }
        ensures met { IfReady result (λ out. Has self.old.task (λ task. OnCut out ((last : T) × (T.seen last ≡ T.seen task) × OnEarlierEnd B.waits_at cx.new.board cx.new.wakes (λ board. T.met_cut board last)))) }
        ensures again { OnPending result (Has self.new.task (T.can_step (B.id cx.old.board))) }
        ensures gives { OnPending result ((out : PipeOut T.Receipts) → Has self.new.task (λ task. IfWhole out (T.gives (T.seen task)) × IfFailed out (T.fails task) × IfWhole out (T.leaves task)) → Has self.old.task (λ task. IfWhole out (T.gives (T.seen task)) × IfFailed out (T.fails task) × IfWhole out (T.leaves task))) }
        ensures waits { OnPending result ((has_number cx.new.wakes.numbers cx.old.me.0 ≡ true) ⊎ Has self.new.task (T.waits cx.old.me cx.new.board)) }
        ensures keeps_waiting { KeepsOthersWaiting (places_if self.old.task (λ task. (T.seen task).places)) cx.old.me (B.waits_at cx.old.board) (B.waits_at cx.new.board) cx.new.wakes }
        ensures same_places { OnPending result (places_if self.new.task (λ task. (T.seen task).places) ≡ places_if self.old.task (λ task. (T.seen task).places)) }
        ensures same_board { B.id cx.new.board ≡ B.id cx.old.board }
        ensures same_task { cx.new.me ≡ cx.old.me }
        ensures wakes { KeepsWakes cx.old.wakes cx.new.wakes }
    {
        'steps: for _ in 0..u64::MAX {
            match self.step(cx) {
                Poll::Pending => return Poll::Pending,
                Poll::Ready(Some(ending)) => return Poll::Ready(self.end(ending, cx)),
                Poll::Ready(None) => {}
            }
        }
        // No poll comes so far: before that a lane is empty, or full.
        Poll::Ready(self.end(Ending::OutOfMemory, cx))
    }

    fn abandon(self, cx: &mut Cx<B>) {
        let Stepping { task } = self;
        match task {
            Some(task) => task.cut(cx),
            None => unreachable!(),
        }
    }
}
