//! Tasks of two kinds as one.
use morsel_prims::{Board, Cx, Poll, Task};

/// A task of one of two kinds; or what one has ended with.
#[derive(Drop)]
pub enum TwoOf<A, Z> {
    /// Of the first kind.
    First(A),
    /// Of the second kind.
    Second(Z),
}

impl<B: Board, A: Task<B>, Z: Task<B>> Task<B> for TwoOf<A, Z> {
    ghost use Rattle.morsel_pair.specs.Pairs.{ByEither, ByEithers, by_either};

    type Out = TwoOf<A::Out, Z::Out>;

    ghost can_poll = { λ id task. ByEither task (A.can_poll id) (Z.can_poll id) };

    ghost gives = { λ task out. ByEithers task out A.gives Z.gives };

    ghost waits = { λ me board before now. ByEithers before now (A.waits me board) (Z.waits me board) };

    ghost wait_places = { λ task. by_either task A.wait_places Z.wait_places };

    ghost has_cut = { λ board task. ByEither task (A.has_cut board) (Z.has_cut board) };

    fn poll(&mut self, cx: &mut Cx<B>) -> Poll<TwoOf<A::Out, Z::Out>> {
        match self {
            TwoOf::First(task) => match task.poll(cx) {
                Poll::Ready(out) => Poll::Ready(TwoOf::First(out)),
                Poll::Pending => Poll::Pending,
            },
            TwoOf::Second(task) => match task.poll(cx) {
                Poll::Ready(out) => Poll::Ready(TwoOf::Second(out)),
                Poll::Pending => Poll::Pending,
            },
        }
    }

    fn abandon(self, cx: &mut Cx<B>) {
        match self {
            TwoOf::First(task) => task.abandon(cx),
            TwoOf::Second(task) => task.abandon(cx),
        }
    }
}
