//! What goes on step by step until it waits or ends.
use morsel_meaning::Fault;
use morsel_prims::{Board, Cx, Poll};

/// How a part of a task is to end.
#[derive(Debug, Drop)]
pub enum Ending {
    /// All loads went on.
    Whole,
    /// An end was closed or cut.
    Cut,
    /// Memory was out.
    OutOfMemory,
    /// It had this fault. Only what makes one load of another has one.
    Failed(Fault),
}

/// A part of a task: each step hands a load on, waits, or finds that it is to end.
pub trait Stepwise<B: Board> {
    ghost use Rattle.std.specs.Prelude.{◌≡◌, Some};
    ghost use Rattle.morsel_meaning.specs.declared.fault.Fault.{Fault};
    ghost use Rattle.morsel_meaning.specs.declared.task.TaskNo.{TaskNo};
    ghost use Rattle.morsel_prims.specs.Polled.{BoardId, IfReady, OnPending};
    ghost use Rattle.morsel_prims.specs.Waiting.{KeepsOthersWaiting, KeepsWaiting};
    ghost use Rattle.morsel_prims.specs.Woken.{KeepsWakes};
    ghost use Rattle.morsel_lane_pipe.specs.Tasks.{TaskSeen};
    ghost use Rattle.morsel_lane_pipe.specs.declared.stepwise.Ending.{Ending};

    /// What tells that all its lanes ended whole.
    type Receipts: Drop;

    /// A step may be made with the board of this identity.
    ghost can_step: { BoardId → Self → Type 0 };

    /// All its lanes ended whole, and all loads went on.
    ghost is_done: { Self → Type 0 };

    /// A step found an end closed or cut: by the board after it.
    ghost met_cut: { B → Self → Type 0 };

    /// This task is registered at an end that was not ready: by the board after a step.
    ghost waits: { TaskNo → B → Self → Type 0 };

    /// Its work, its lanes, and where it may wait.
    ghost seen: { Self → TaskSeen };

    /// A task that is seen so may end with these receipts.
    ghost gives: { TaskSeen → Self.Receipts → Type 0 };

    /// It may end with these receipts, by more than what is seen of it.
    ghost leaves: { Self → Self.Receipts → Type 0 };

    /// It may end with this fault.
    ghost fails: { Self → Fault → Type 0 };

    /// The ends of a task that is seen so were cut: by the board after it.
    ghost has_cut: { B → TaskSeen → Type 0 };

    /// Makes one step; the answer tells whether it is to end.
    fn step(&mut self, cx: &mut Cx<B>) -> Poll<Option<Ending>>
        requires can_step { can_step (B.id cx.old.board) self.old }
        ensures again { can_step (B.id cx.old.board) self.new }
        ensures same { seen self.new ≡ seen self.old }
        ensures same_faults { (fault : Fault) → fails self.new fault → fails self.old fault }
        ensures same_leaves { (receipts : Self.Receipts) → leaves self.new receipts → leaves self.old receipts }
        ensures failed { IfReady result (λ ending. (fault : Fault) → ending ≡ Some (Ending.Failed fault) → fails self.old fault) }
        ensures done { IfReady result (λ ending. ending ≡ Some Ending.Whole → is_done self.new) }
        ensures met { IfReady result (λ ending. ending ≡ Some Ending.Cut → met_cut cx.new.board self.new) }
        ensures waits { OnPending result (waits cx.old.me cx.new.board self.new) }
        ensures keeps_waiting { KeepsOthersWaiting (seen self.old).places cx.old.me (B.waits_at cx.old.board) (B.waits_at cx.new.board) cx.new.wakes }
        ensures same_board { B.id cx.new.board ≡ B.id cx.old.board }
        ensures same_task { cx.new.me ≡ cx.old.me }
        ensures wakes { KeepsWakes cx.old.wakes cx.new.wakes };

    /// Finishes its sending ends.
    fn finish(self, cx: &mut Cx<B>) -> Self::Receipts
        requires can_step { can_step (B.id cx.old.board) self }
        requires done { is_done self }
        ensures gives { gives (seen self) result }
        ensures leaves { leaves self result }
        ensures keeps_waiting { KeepsWaiting (B.waits_at cx.old.board) (B.waits_at cx.new.board) cx.new.wakes }
        ensures same_board { B.id cx.new.board ≡ B.id cx.old.board }
        ensures same_task { cx.new.me ≡ cx.old.me }
        ensures wakes { KeepsWakes cx.old.wakes cx.new.wakes };

    /// Cuts its ends before all loads went on.
    fn cut(self, cx: &mut Cx<B>)
        requires can_step { can_step (B.id cx.old.board) self }
        ensures cut { has_cut cx.new.board (seen self) }
        ensures keeps_waiting { KeepsWaiting (B.waits_at cx.old.board) (B.waits_at cx.new.board) cx.new.wakes }
        ensures same_board { B.id cx.new.board ≡ B.id cx.old.board }
        ensures same_task { cx.new.me ≡ cx.old.me }
        ensures wakes { KeepsWakes cx.old.wakes cx.new.wakes };
}
