//! A unit of a group-by, of one of two kinds.
ghost use Rattle.std.specs.Prelude.{◌≡◌};
ghost use Rattle.morsel_prims.specs.Waiting.{KeepsWaiting};
ghost use Rattle.morsel_prims.specs.Woken.{KeepsWakes};

use morsel_end_units::{GiveUnit, KeepUnit};
use morsel_group_units::{GroupGiver, GroupKeeper};
use morsel_lane_pipe::{Stepping, Stepwise};
use morsel_load::Load;
use morsel_pair::TwoOf;
use morsel_prims::{Board, Cx, Lanes, Poll, Task, Tokens};
use morsel_rows_job::RowsJob;

/// A unit of a group-by: it takes rows, or gives those of the group-by.
///
/// It is one type over lanes and a job, so that whoever is generic in units is not handed the bounds of both kinds.
pub struct GroupUnit<
    L: Tokens + Lanes<Load<<L as Tokens>::Token, J>>,
    J: RowsJob<<L as Tokens>::Token>,
> {
    /// The task that it is.
    pub task: GroupTask<L, J>,
}

/// The task of a unit, of one of two kinds.
pub type GroupTask<L, J> = TwoOf<
    Stepping<KeepUnit<L, J, GroupKeeper>>,
    Stepping<GiveUnit<L, J, GroupGiver>>,
>;

/// What it ends with.
pub type GroupOut<L, J> = TwoOf<
    <Stepping<KeepUnit<L, J, GroupKeeper>> as Task<<L as Tokens>::Board>>::Out,
    <Stepping<GiveUnit<L, J, GroupGiver>> as Task<<L as Tokens>::Board>>::Out,
>;

impl<L: Tokens + Lanes<Load<<L as Tokens>::Token, J>>, J: RowsJob<<L as Tokens>::Token>> Drop
    for GroupUnit<L, J> {
    fn drop(self) {
        let GroupUnit { task } = self;
        match task {
            TwoOf::First(_task) => {}
            TwoOf::Second(_task) => {}
        }
    }
}

impl<L: Tokens + Lanes<Load<<L as Tokens>::Token, J>>, J: RowsJob<<L as Tokens>::Token>> Task<
    L::Board,
> for GroupUnit<L, J> {
    ghost use Rattle.morsel_pair.specs.Pairs.{ByEither, ByEithers, by_either};

    type Out = GroupOut<L, J>;

    ghost can_poll = { λ id unit. ByEither unit.task (⟦<Stepping<KeepUnit<L, J, GroupKeeper>> as Task<L::Board>>⟧.can_poll id) (⟦<Stepping<GiveUnit<L, J, GroupGiver>> as Task<L::Board>>⟧.can_poll id) };

    ghost gives = { λ unit out. ByEithers unit.task out ⟦<Stepping<KeepUnit<L, J, GroupKeeper>> as Task<L::Board>>⟧.gives ⟦<Stepping<GiveUnit<L, J, GroupGiver>> as Task<L::Board>>⟧.gives };

    ghost waits = { λ me board before now. ByEithers before.task now.task (⟦<Stepping<KeepUnit<L, J, GroupKeeper>> as Task<L::Board>>⟧.waits me board) (⟦<Stepping<GiveUnit<L, J, GroupGiver>> as Task<L::Board>>⟧.waits me board) };

    ghost wait_places = { λ unit. by_either unit.task ⟦<Stepping<KeepUnit<L, J, GroupKeeper>> as Task<L::Board>>⟧.wait_places ⟦<Stepping<GiveUnit<L, J, GroupGiver>> as Task<L::Board>>⟧.wait_places };

    ghost has_cut = { λ board unit. ByEither unit.task (⟦<Stepping<KeepUnit<L, J, GroupKeeper>> as Task<L::Board>>⟧.has_cut board) (⟦<Stepping<GiveUnit<L, J, GroupGiver>> as Task<L::Board>>⟧.has_cut board) };

    fn poll(&mut self, cx: &mut Cx<L::Board>) -> Poll<GroupOut<L, J>> {
        match &mut self.task {
            TwoOf::First(task) => match task.poll(cx) {
                Poll::Ready(out) => Poll::Ready(TwoOf::First(out)),
                Poll::Pending => Poll::Pending,
            },
            TwoOf::Second(task) => match task.poll(cx) {
                Poll::Ready(out) => Poll::Ready(TwoOf::Second(out)),
                Poll::Pending => Poll::Pending,
            },
        }
    }

    fn abandon(self, cx: &mut Cx<L::Board>) {
        let GroupUnit { task } = self;
        match task {
            TwoOf::First(task) => abandon_task(task, cx),
            TwoOf::Second(task) => abandon_task(task, cx),
        }
    }
}

/// Cuts the ends that a task holds.
// By its bound alone: the borrow checker takes no call of a part's own method by value here.
fn abandon_task<B: Board, T: Stepwise<B> + Drop>(task: Stepping<T>, cx: &mut Cx<B>)
    requires can_poll { ⟦<Stepping<T> as Task<B>>⟧.can_poll (B.id cx.old.board) task }
    ensures cut { ⟦<Stepping<T> as Task<B>>⟧.has_cut cx.new.board task }
    ensures keeps_waiting { KeepsWaiting (B.waits_at cx.old.board) (B.waits_at cx.new.board) cx.new.wakes }
    ensures same_board { B.id cx.new.board ≡ B.id cx.old.board }
    ensures same_task { cx.new.me ≡ cx.old.me }
    ensures wakes { KeepsWakes cx.old.wakes cx.new.wakes }
{
    task.abandon(cx)
}
