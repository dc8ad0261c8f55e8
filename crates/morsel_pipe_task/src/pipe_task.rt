//! The tasks of a pipe.
ghost use Rattle.std.specs.Prelude.{◌≡◌};
ghost use Rattle.morsel_prims.specs.Waiting.{KeepsWaiting};
ghost use Rattle.morsel_prims.specs.Woken.{KeepsWakes};

use morsel_lane_pipe::{
    Distributing, Ending, HandingOn, Inserting, Merging, ReceiptsOf, Stepping, Stepwise,
};
use morsel_load::{Load, LoadJob};
use morsel_prims::{Board, Cx, Lanes, Message, Poll, Tokens};

/// A task of a pipe.
pub type PipeTask<L, J> = Stepping<PipeWork<L, J>>;

/// What one of the tasks of a pipe does, by the four kinds.
pub enum PipeWork<
    L: Tokens + Lanes<Load<<L as Tokens>::Token, J>>,
    J: LoadJob<<L as Tokens>::Token>,
>
where
    Load<<L as Tokens>::Token, J>: Message,
{
    /// Sends what a linearizer gives through one lane.
    Merging(Merging<L, J>),
    /// Sends the loads of one lane to a linearizer.
    Inserting(Inserting<L, J>),
    /// Spreads the loads of one lane over several.
    Distributing(Distributing<L, J>),
    /// Sends the loads of a distributor's lane on, one at a time.
    HandingOn(HandingOn<L, J>),
}

// Written out, since a derived one repeats the bound above, which a caller cannot give.
impl<L: Tokens + Lanes<Load<<L as Tokens>::Token, J>>, J: LoadJob<<L as Tokens>::Token>> Drop
    for PipeWork<L, J> {
    fn drop(self) {
        match self {
            PipeWork::Merging(_) => {}
            PipeWork::Inserting(_) => {}
            PipeWork::Distributing(_) => {}
            PipeWork::HandingOn(_) => {}
        }
    }
}

impl<L: Tokens + Lanes<Load<<L as Tokens>::Token, J>>, J: LoadJob<<L as Tokens>::Token>> Stepwise<
    L::Board,
> for PipeWork<L, J> {
    ghost use Rattle.std.specs.Prelude.{◌⊎◌};
    ghost use Rattle.morsel_pipe_task.specs.PipeTasks.{ByWork, by_work};

    type Receipts = ReceiptsOf<L, J>;

    ghost can_step = { λ id work. ByWork work (⟦<Merging<L, J> as Stepwise<L::Board>>⟧.can_step id) (⟦<Inserting<L, J> as Stepwise<L::Board>>⟧.can_step id) (⟦<Distributing<L, J> as Stepwise<L::Board>>⟧.can_step id) (⟦<HandingOn<L, J> as Stepwise<L::Board>>⟧.can_step id) };

    ghost leaves = { λ work receipts. Unit {0} };

    ghost fails = { λ work fault. ByWork work (λ task. ⟦<Merging<L, J> as Stepwise<L::Board>>⟧.fails task fault) (λ task. ⟦<Inserting<L, J> as Stepwise<L::Board>>⟧.fails task fault) (λ task. ⟦<Distributing<L, J> as Stepwise<L::Board>>⟧.fails task fault) (λ task. ⟦<HandingOn<L, J> as Stepwise<L::Board>>⟧.fails task fault) };

    ghost is_done = { λ work. ByWork work ⟦<Merging<L, J> as Stepwise<L::Board>>⟧.is_done ⟦<Inserting<L, J> as Stepwise<L::Board>>⟧.is_done ⟦<Distributing<L, J> as Stepwise<L::Board>>⟧.is_done ⟦<HandingOn<L, J> as Stepwise<L::Board>>⟧.is_done };

    ghost met_cut = { λ board work. ByWork work (⟦<Merging<L, J> as Stepwise<L::Board>>⟧.met_cut board) (⟦<Inserting<L, J> as Stepwise<L::Board>>⟧.met_cut board) (⟦<Distributing<L, J> as Stepwise<L::Board>>⟧.met_cut board) (⟦<HandingOn<L, J> as Stepwise<L::Board>>⟧.met_cut board) };

    ghost waits = { λ me board work. ByWork work (⟦<Merging<L, J> as Stepwise<L::Board>>⟧.waits me board) (⟦<Inserting<L, J> as Stepwise<L::Board>>⟧.waits me board) (⟦<Distributing<L, J> as Stepwise<L::Board>>⟧.waits me board) (⟦<HandingOn<L, J> as Stepwise<L::Board>>⟧.waits me board) };

    ghost seen = { λ work. by_work work ⟦<Merging<L, J> as Stepwise<L::Board>>⟧.seen ⟦<Inserting<L, J> as Stepwise<L::Board>>⟧.seen ⟦<Distributing<L, J> as Stepwise<L::Board>>⟧.seen ⟦<HandingOn<L, J> as Stepwise<L::Board>>⟧.seen };

    ghost gives = { λ seen receipts. ⟦<Merging<L, J> as Stepwise<L::Board>>⟧.gives seen receipts ⊎ ⟦<Inserting<L, J> as Stepwise<L::Board>>⟧.gives seen receipts ⊎ ⟦<Distributing<L, J> as Stepwise<L::Board>>⟧.gives seen receipts ⊎ ⟦<HandingOn<L, J> as Stepwise<L::Board>>⟧.gives seen receipts };

    ghost has_cut = { λ board seen. ⟦<Merging<L, J> as Stepwise<L::Board>>⟧.has_cut board seen ⊎ ⟦<Inserting<L, J> as Stepwise<L::Board>>⟧.has_cut board seen ⊎ ⟦<Distributing<L, J> as Stepwise<L::Board>>⟧.has_cut board seen ⊎ ⟦<HandingOn<L, J> as Stepwise<L::Board>>⟧.has_cut board seen };

    fn step(&mut self, cx: &mut Cx<L::Board>) -> Poll<Option<Ending>> {
        match self {
            PipeWork::Merging(work) => work.step(cx),
            PipeWork::Inserting(work) => work.step(cx),
            PipeWork::Distributing(work) => work.step(cx),
            PipeWork::HandingOn(work) => work.step(cx),
        }
    }

    fn finish(self, cx: &mut Cx<L::Board>) -> ReceiptsOf<L, J> {
        match self {
            PipeWork::Merging(work) => finish_part(work, cx),
            PipeWork::Inserting(work) => finish_part(work, cx),
            PipeWork::Distributing(work) => finish_part(work, cx),
            PipeWork::HandingOn(work) => finish_part(work, cx),
        }
    }

    fn cut(self, cx: &mut Cx<L::Board>) {
        match self {
            PipeWork::Merging(work) => cut_part(work, cx),
            PipeWork::Inserting(work) => cut_part(work, cx),
            PipeWork::Distributing(work) => cut_part(work, cx),
            PipeWork::HandingOn(work) => cut_part(work, cx),
        }
    }
}

/// Finishes a part of a task.
// By its bound alone: the borrow checker takes no call of a part's own method by value here.
fn finish_part<B: Board, T: Stepwise<B>>(part: T, cx: &mut Cx<B>) -> T::Receipts
    requires can_step { T.can_step (B.id cx.old.board) part }
    requires done { T.is_done part }
    ensures gives { T.gives (T.seen part) result }
    ensures keeps_waiting { KeepsWaiting (B.waits_at cx.old.board) (B.waits_at cx.new.board) cx.new.wakes }
    ensures same_board { B.id cx.new.board ≡ B.id cx.old.board }
    ensures same_task { cx.new.me ≡ cx.old.me }
    ensures wakes { KeepsWakes cx.old.wakes cx.new.wakes }
{
    part.finish(cx)
}

/// Cuts the ends of a part of a task.
fn cut_part<B: Board, T: Stepwise<B>>(part: T, cx: &mut Cx<B>)
    requires can_step { T.can_step (B.id cx.old.board) part }
    ensures cut { T.has_cut cx.new.board (T.seen part) }
    ensures keeps_waiting { KeepsWaiting (B.waits_at cx.old.board) (B.waits_at cx.new.board) cx.new.wakes }
    ensures same_board { B.id cx.new.board ≡ B.id cx.old.board }
    ensures same_task { cx.new.me ≡ cx.old.me }
    ensures wakes { KeepsWakes cx.old.wakes cx.new.wakes }
{
    part.cut(cx)
}
