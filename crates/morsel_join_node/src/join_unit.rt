//! A unit of a join, of one of three kinds.
ghost use Rattle.std.specs.Prelude.{◌≡◌};
ghost use Rattle.morsel_prims.specs.Waiting.{KeepsWaiting};
ghost use Rattle.morsel_prims.specs.Woken.{KeepsWakes};

use morsel_end_units::{GiveUnit, KeepUnit};
use morsel_flat_units::FlatUnit;
use morsel_join_units::{LoneGiver, ProbeMaker, RowKeeper};
use morsel_lane_pipe::{Stepping, Stepwise};
use morsel_load::Load;
use morsel_prims::{Board, Cx, Lanes, Poll, Task, Tokens};
use morsel_rows_job::RowsJob;
use morsel_stage::OneOf;

/// A unit of a join: it keeps rows, looks rows up, or gives kept rows that none found.
///
/// It is one type over lanes and a job, so that whoever is generic in units is not handed the bounds of all three kinds.
pub struct JoinUnit<
    L: Tokens + Lanes<Load<<L as Tokens>::Token, J>>,
    J: RowsJob<<L as Tokens>::Token>,
> {
    /// The task that it is.
    pub task: JoinTask<L, J>,
}

/// The task of a unit, of one of three kinds.
pub type JoinTask<L, J> = OneOf<
    Stepping<KeepUnit<L, J, RowKeeper>>,
    Stepping<FlatUnit<L, J, ProbeMaker>>,
    Stepping<GiveUnit<L, J, LoneGiver>>,
>;

/// What it ends with.
pub type JoinOut<L, J> = OneOf<
    <Stepping<KeepUnit<L, J, RowKeeper>> as Task<<L as Tokens>::Board>>::Out,
    <Stepping<FlatUnit<L, J, ProbeMaker>> as Task<<L as Tokens>::Board>>::Out,
    <Stepping<GiveUnit<L, J, LoneGiver>> as Task<<L as Tokens>::Board>>::Out,
>;

impl<L: Tokens + Lanes<Load<<L as Tokens>::Token, J>>, J: RowsJob<<L as Tokens>::Token>> Drop
    for JoinUnit<L, J> {
    fn drop(self) {
        let JoinUnit { task } = self;
        match task {
            OneOf::First(_task) => {}
            OneOf::Second(_task) => {}
            OneOf::Third(_task) => {}
        }
    }
}

impl<L: Tokens + Lanes<Load<<L as Tokens>::Token, J>>, J: RowsJob<<L as Tokens>::Token>> Task<
    L::Board,
> for JoinUnit<L, J> {
    ghost use Rattle.morsel_stage.specs.Kinds.{ByKind, ByKinds, by_kind};

    type Out = JoinOut<L, J>;

    ghost can_poll = { λ id unit. ByKind unit.task (⟦<Stepping<KeepUnit<L, J, RowKeeper>> as Task<L::Board>>⟧.can_poll id) (⟦<Stepping<FlatUnit<L, J, ProbeMaker>> as Task<L::Board>>⟧.can_poll id) (⟦<Stepping<GiveUnit<L, J, LoneGiver>> as Task<L::Board>>⟧.can_poll id) };

    ghost gives = { λ unit out. ByKinds unit.task out ⟦<Stepping<KeepUnit<L, J, RowKeeper>> as Task<L::Board>>⟧.gives ⟦<Stepping<FlatUnit<L, J, ProbeMaker>> as Task<L::Board>>⟧.gives ⟦<Stepping<GiveUnit<L, J, LoneGiver>> as Task<L::Board>>⟧.gives };

    ghost waits = { λ me board before now. ByKinds before.task now.task (⟦<Stepping<KeepUnit<L, J, RowKeeper>> as Task<L::Board>>⟧.waits me board) (⟦<Stepping<FlatUnit<L, J, ProbeMaker>> as Task<L::Board>>⟧.waits me board) (⟦<Stepping<GiveUnit<L, J, LoneGiver>> as Task<L::Board>>⟧.waits me board) };

    ghost wait_places = { λ unit. by_kind unit.task ⟦<Stepping<KeepUnit<L, J, RowKeeper>> as Task<L::Board>>⟧.wait_places ⟦<Stepping<FlatUnit<L, J, ProbeMaker>> as Task<L::Board>>⟧.wait_places ⟦<Stepping<GiveUnit<L, J, LoneGiver>> as Task<L::Board>>⟧.wait_places };

    ghost has_cut = { λ board unit. ByKind unit.task (⟦<Stepping<KeepUnit<L, J, RowKeeper>> as Task<L::Board>>⟧.has_cut board) (⟦<Stepping<FlatUnit<L, J, ProbeMaker>> as Task<L::Board>>⟧.has_cut board) (⟦<Stepping<GiveUnit<L, J, LoneGiver>> as Task<L::Board>>⟧.has_cut board) };

    fn poll(&mut self, cx: &mut Cx<L::Board>) -> Poll<JoinOut<L, J>> {
        match &mut self.task {
            OneOf::First(task) => match task.poll(cx) {
                Poll::Ready(out) => Poll::Ready(OneOf::First(out)),
                Poll::Pending => Poll::Pending,
            },
            OneOf::Second(task) => match task.poll(cx) {
                Poll::Ready(out) => Poll::Ready(OneOf::Second(out)),
                Poll::Pending => Poll::Pending,
            },
            OneOf::Third(task) => match task.poll(cx) {
                Poll::Ready(out) => Poll::Ready(OneOf::Third(out)),
                Poll::Pending => Poll::Pending,
            },
        }
    }

    fn abandon(self, cx: &mut Cx<L::Board>) {
        let JoinUnit { task } = self;
        match task {
            OneOf::First(task) => abandon_task(task, cx),
            OneOf::Second(task) => abandon_task(task, cx),
            OneOf::Third(task) => abandon_task(task, cx),
        }
    }
}

/// Cuts the ends that a task holds.
// By its bound alone: the borrow checker takes no call of a part's own method by value here.
fn abandon_task<B: Board, T: Stepwise<B> + Drop>(task: Stepping<T>, cx: &mut Cx<B>)
    requires can_poll { ⟦<Stepping<T> as Task<B>>⟧.can_poll (B.id cx.old.board) task }
    ensures cut { ⟦<Stepping<T> as Task<B>>⟧.has_cut cx.new.board task }
    ensures keeps_waiting { KeepsWaiting (B.waits_at cx.old.board) (B.waits_at cx.new.board) cx.new.wakes }
    ensures same_board { B.id cx.new.board ≡ B.id cx.old.board }
    ensures same_task { cx.new.me ≡ cx.old.me }
    ensures wakes { KeepsWakes cx.old.wakes cx.new.wakes }
{
    task.abandon(cx)
}
