//! How a group between threads counts its tokens.
use morsel_meaning::{Fault, TaskNo};
use morsel_prims::{Cx, Poll, Tokens, Wakes};
use morsel_word_groups::{IndexedWaitGroup, WaitGroup};
use morsel_word_lanes::WordLanes;
use std::alloc::Global;
use std::test::Fail;

/// Task 2, on the board between threads.
fn cx_of(alloc: Global) -> Result<Cx<()>, Fault> {
    Ok(Cx {
        me: TaskNo(2),
        wakes: Wakes::new(alloc, 3)?,
        board: (),
    })
}

#[test]
fn a_group_is_ready_after_two_releases(rt: HostRuntime) -> Result<(), Fail> {
    let mut cx = cx_of(rt.alloc())?;
    let mut group = WaitGroup::new(rt.alloc())?;
    assert_eq!(rt; group.poll_wait(&mut cx), Poll::Ready(()));
    let mut token = group.token(&mut cx)?;
    let more = token.again(&mut cx)?;
    assert_eq!(rt; group.poll_wait(&mut cx), Poll::Pending);
    token.release(&mut cx);
    assert_eq!(rt; cx.wakes.pop(), None);
    assert_eq!(rt; group.poll_wait(&mut cx), Poll::Pending);
    more.release(&mut cx);
    assert_eq!(rt; cx.wakes.pop(), Some(TaskNo(2)));
    assert_eq!(rt; group.poll_wait(&mut cx), Poll::Ready(()));
    assert_eq!(rt; cx.wakes.pop(), None);
    Ok(())
}

#[test]
fn a_group_with_a_number_is_ready_after_two_releases(rt: HostRuntime) -> Result<(), Fail> {
    let mut cx = cx_of(rt.alloc())?;
    let mut group = IndexedWaitGroup::new(rt.alloc(), 3)?;
    assert_eq!(rt; group.index(), 3);
    let mut token = group.token(&mut cx)?;
    let more = token.again(&mut cx)?;
    assert_eq!(rt; group.poll_wait(&mut cx), Poll::Pending);
    more.release(&mut cx);
    assert_eq!(rt; group.poll_wait(&mut cx), Poll::Pending);
    token.release(&mut cx);
    assert_eq!(rt; cx.wakes.pop(), Some(TaskNo(2)));
    assert_eq!(rt; group.poll_wait(&mut cx), Poll::Ready(()));
    assert_eq!(rt; group.index(), 3);
    Ok(())
}

#[test]
fn a_group_of_lanes_between_threads_is_that_group(rt: HostRuntime) -> Result<(), Fail> {
    let mut cx = cx_of(rt.alloc())?;
    let mut group = WordLanes::group(rt.alloc(), &mut cx.board)?;
    let mut token = WordLanes::token(&mut cx, &mut group)?;
    let more = WordLanes::again(&mut cx, &mut token)?;
    WordLanes::release(&mut cx, token);
    assert_eq!(rt; WordLanes::poll_wait(&mut cx, &mut group), Poll::Pending);
    WordLanes::release(&mut cx, more);
    assert_eq!(rt; cx.wakes.pop(), Some(TaskNo(2)));
    assert_eq!(rt; WordLanes::poll_wait(&mut cx, &mut group), Poll::Ready(()));
    Ok(())
}
