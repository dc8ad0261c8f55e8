//! How a group counts its tokens.
use crate::number::Number;
use morsel_meaning::{Fault, TaskNo};
use morsel_prims::{Cx, PlainBoard, PlainLanes, Poll, Tokens, Wakes};
use std::alloc::Global;
use std::test::Fail;

type Plain = PlainLanes<Number>;

/// A board of one thread, for task 2.
fn cx_of(alloc: Global) -> Result<Cx<PlainBoard<Number>>, Fault> {
    Ok(Cx {
        me: TaskNo(2),
        wakes: Wakes::new(alloc, 3)?,
        board: PlainBoard::new(alloc)?,
    })
}

#[test]
fn a_group_is_ready_after_two_releases(rt: HostRuntime) -> Result<(), Fail> {
    let mut cx = cx_of(rt.alloc())?;
    let mut group = Plain::group(rt.alloc(), &mut cx.board)?;
    assert_eq!(rt; Plain::poll_wait(&mut cx, &mut group), Poll::Ready(()));
    let mut token = Plain::token(&mut cx, &mut group)?;
    let more = Plain::again(&mut cx, &mut token)?;
    assert_eq!(rt; Plain::poll_wait(&mut cx, &mut group), Poll::Pending);
    Plain::release(&mut cx, token);
    assert_eq!(rt; cx.wakes.pop(), None);
    assert_eq!(rt; Plain::poll_wait(&mut cx, &mut group), Poll::Pending);
    Plain::release(&mut cx, more);
    assert_eq!(rt; cx.wakes.pop(), Some(TaskNo(2)));
    assert_eq!(rt; Plain::poll_wait(&mut cx, &mut group), Poll::Ready(()));
    Ok(())
}
