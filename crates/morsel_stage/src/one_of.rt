//! Tasks of three kinds as one.
use morsel_prims::{Board, Cx, Poll, Task};

/// A task of one of three kinds; or what one has ended with.
#[derive(Drop)]
pub enum OneOf<A, M, Z> {
    /// Of the first kind.
    First(A),
    /// Of the second kind.
    Second(M),
    /// Of the third kind.
    Third(Z),
}

impl<B: Board, A: Task<B>, M: Task<B>, Z: Task<B>> Task<B> for OneOf<A, M, Z> {
    ghost use Rattle.morsel_stage.specs.Kinds.{ByKind, ByKinds, by_kind};

    type Out = OneOf<A::Out, M::Out, Z::Out>;

    ghost can_poll = { λ id task. ByKind task (A.can_poll id) (M.can_poll id) (Z.can_poll id) };

    ghost gives = { λ task out. ByKinds task out A.gives M.gives Z.gives };

    ghost waits = { λ me board before now. ByKinds before now (A.waits me board) (M.waits me board) (Z.waits me board) };

    ghost wait_places = { λ task. by_kind task A.wait_places M.wait_places Z.wait_places };

    ghost has_cut = { λ board task. ByKind task (A.has_cut board) (M.has_cut board) (Z.has_cut board) };

    fn poll(&mut self, cx: &mut Cx<B>) -> Poll<OneOf<A::Out, M::Out, Z::Out>> {
        match self {
            OneOf::First(task) => match task.poll(cx) {
                Poll::Ready(out) => Poll::Ready(OneOf::First(out)),
                Poll::Pending => Poll::Pending,
            },
            OneOf::Second(task) => match task.poll(cx) {
                Poll::Ready(out) => Poll::Ready(OneOf::Second(out)),
                Poll::Pending => Poll::Pending,
            },
            OneOf::Third(task) => match task.poll(cx) {
                Poll::Ready(out) => Poll::Ready(OneOf::Third(out)),
                Poll::Pending => Poll::Pending,
            },
        }
    }

    fn abandon(self, cx: &mut Cx<B>) {
        match self {
            OneOf::First(task) => task.abandon(cx),
            OneOf::Second(task) => task.abandon(cx),
            OneOf::Third(task) => task.abandon(cx),
        }
    }
}
