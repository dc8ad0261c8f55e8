//! What is polled, and with what.
use crate::poll::Poll;
use crate::wakes::Wakes;
use morsel_meaning::TaskNo;

/// Where lanes and groups of one thread are kept; `()` for those that lie in shared memory.
pub trait Board {
    ghost use Rattle.std.specs.Prelude.{Option};
    ghost use Rattle.morsel_meaning.specs.declared.task.TaskNo.{TaskNo};
    ghost use Rattle.morsel_prims.specs.Polled.{BoardId};
    ghost use Rattle.morsel_prims.specs.Waiting.{WaitPlace};

    /// Which board it is.
    ghost id: { Self → BoardId };

    /// Who waits at each place of the board. Nobody waits on `()`, whose lanes and groups keep it themselves.
    ghost waits_at: { Self → WaitPlace → Option TaskNo };
}

impl Board for () {
    ghost use Rattle.std.specs.Prelude.{None};
    ghost use Rattle.morsel_prims.specs.Polled.{shared_board};

    ghost id = { λ _. shared_board };

    ghost waits_at = { λ _ _. None };
}

/// What a poll works with: who polls, the tasks that it makes ready, and the board.
#[derive(Drop)]
pub struct Cx<B> {
    /// The task that polls.
    pub me: TaskNo,
    /// The tasks that are to be woken.
    pub wakes: Wakes,
    /// Where the lanes and groups of one thread are kept.
    pub board: B,
}

/// What is polled until it answers.
pub trait Task<B: Board> {
    ghost use Rattle.std.specs.Prelude.{◌≡◌, ◌⊎◌, true, List};
    ghost use Rattle.morsel_meaning.specs.declared.task.TaskNo.{TaskNo};
    ghost use Rattle.morsel_prims.specs.Polled.{BoardId, IfReady, OnPending};
    ghost use Rattle.morsel_prims.specs.Waiting.{KeepsOthersWaiting, KeepsWaiting, WaitPlace};
    ghost use Rattle.morsel_prims.specs.Woken.{KeepsWakes, has_number};

    /// What it ends with.
    type Out: Drop;

    /// It may be polled with the board of this identity.
    ghost can_poll: { BoardId → Self → Type 0 };

    /// It may end with this output.
    ghost gives: { Self → Self.Out → Type 0 };

    /// This task is registered at an end that was not ready: by the board after the poll, and by the task before and after.
    ghost waits: { TaskNo → B → Self → Self → Type 0 };

    /// Where on the board it may wait.
    ghost wait_places: { Self → List WaitPlace };

    /// Each end that it held was cut: by the board after it.
    ghost has_cut: { B → Self → Type 0 };

    /// Goes as far as it can.
    fn poll(&mut self, cx: &mut Cx<B>) -> Poll<Self::Out>
        requires can_poll { can_poll (B.id cx.old.board) self.old }
        ensures ready { IfReady result (gives self.old) }
        ensures again { OnPending result (can_poll (B.id cx.old.board) self.new) }
        ensures gives { OnPending result ((out : Self.Out) → gives self.new out → gives self.old out) }
        // It is polled again: it is among those that are to be woken, or registered.
        ensures waits { OnPending result ((has_number cx.new.wakes.numbers cx.old.me.0 ≡ true) ⊎ waits cx.old.me cx.new.board self.old self.new) }
        ensures keeps_waiting { KeepsOthersWaiting (wait_places self.old) cx.old.me (B.waits_at cx.old.board) (B.waits_at cx.new.board) cx.new.wakes }
        ensures same_places { OnPending result (wait_places self.new ≡ wait_places self.old) }
        ensures same_board { B.id cx.new.board ≡ B.id cx.old.board }
        ensures same_task { cx.new.me ≡ cx.old.me }
        ensures wakes { KeepsWakes cx.old.wakes cx.new.wakes };

    /// Cuts the ends that it holds.
    fn abandon(self, cx: &mut Cx<B>)
        requires can_poll { can_poll (B.id cx.old.board) self }
        ensures cut { has_cut cx.new.board self }
        ensures keeps_waiting { KeepsWaiting (B.waits_at cx.old.board) (B.waits_at cx.new.board) cx.new.wakes }
        ensures same_board { B.id cx.new.board ≡ B.id cx.old.board }
        ensures same_task { cx.new.me ≡ cx.old.me }
        ensures wakes { KeepsWakes cx.old.wakes cx.new.wakes };
}
