//! Each line of the table by which the states of the ports of a group-by move.
ghost use Rattle.std.specs.Prelude.{IsSome};

use super::groups::{Group, group_of};
use super::jobs::{Plain, Rows, rows_of};
use super::steps::{DONE, SINK, SOURCE, Step, group_kinds, moves_on};
use morsel_ports::ComputeNode;
use morsel_ports::PortState::{Blocked, Done, Ready};
use std::alloc::Global;
use std::process::Abort;

/// A new node of a group-by that was made ready for two pipelines.
fn ready_group(rt: &impl Abort, alloc: Global) -> Group
    ensures { IsSome result.pipelines }
{
    let rows = rows_of(rt, alloc);
    let mut group = group_of(rt, alloc, &rows);
    <Group as ComputeNode<Plain, Rows>>::initialize(&mut group, 2);
    group
}

/// A new node makes the moves before, and then this one; and so another new node for each of these.
fn each_moves(rt: &impl Abort, alloc: Global, before: &[Step], steps: &[Step]) {
    for step in steps {
        let mut group = ready_group(rt, alloc);
        moves_on::<Plain, Rows>(rt, &mut group, before);
        moves_on::<Plain, Rows>(rt, &mut group, &[*step]);
    }
}

/// Its rows come back, as they do once a unit has given all of them.
fn all_were_given(rt: &impl Abort, alloc: Global, group: &mut Group)
    requires initialized { IsSome group.old.pipelines }
    ensures initialized { IsSome group.new.pipelines }
{
    let giver = group.phase.take_giver(alloc, 1).expect(rt, "memory");
    group.phase.end(Some(giver));
}

#[test]
fn a_group_by_is_called_so_and_takes_rows_by_each_pipeline(rt: HostRuntime) {
    let group = ready_group(&rt, rt.alloc());
    assert_eq!(rt;
        <Group as ComputeNode<Plain, Rows>>::name(&group),
        "group_by"
    );
    assert!(rt; !<Group as ComputeNode<Plain, Rows>>::is_memory_intensive_pipeline_blocker(&group));
    assert_eq!(rt; group_kinds::<Plain, Rows>(&group), SINK.kinds);
    assert!(rt; group.is_idle());
}

#[test]
fn a_group_by_takes_rows_until_no_more_come(rt: HostRuntime) {
    let steps = [
        ([Ready, Ready], SINK),
        ([Ready, Blocked], SINK),
        ([Ready, Done], DONE),
        ([Blocked, Ready], SINK),
        ([Blocked, Blocked], SINK),
        ([Blocked, Done], DONE),
        ([Done, Ready], SOURCE),
        ([Done, Blocked], SOURCE),
        ([Done, Done], DONE),
    ];
    each_moves(&rt, rt.alloc(), &[], &steps);
    each_moves(&rt, rt.alloc(), &[([Ready, Ready], SINK)], &steps);
}

#[test]
fn a_group_by_gives_its_rows_once_no_more_come(rt: HostRuntime) {
    let steps = [
        ([Ready, Ready], SOURCE),
        ([Ready, Blocked], SOURCE),
        ([Ready, Done], DONE),
        ([Blocked, Ready], SOURCE),
        ([Blocked, Blocked], SOURCE),
        ([Blocked, Done], DONE),
        ([Done, Ready], SOURCE),
        ([Done, Blocked], SOURCE),
        ([Done, Done], DONE),
    ];
    each_moves(&rt, rt.alloc(), &[([Done, Ready], SOURCE)], &steps);
}

/// Whatever the ports are told, they are done.
fn to_done() -> [Step; 9] {
    [
        ([Ready, Ready], DONE),
        ([Ready, Blocked], DONE),
        ([Ready, Done], DONE),
        ([Blocked, Ready], DONE),
        ([Blocked, Blocked], DONE),
        ([Blocked, Done], DONE),
        ([Done, Ready], DONE),
        ([Done, Blocked], DONE),
        ([Done, Done], DONE),
    ]
}

/// A group-by of which all rows were given makes this move.
fn given_moves(rt: &impl Abort, alloc: Global, step: Step) {
    let mut group = ready_group(rt, alloc);
    moves_on::<Plain, Rows>(rt, &mut group, &[([Done, Ready], SOURCE)]);
    all_were_given(rt, alloc, &mut group);
    moves_on::<Plain, Rows>(rt, &mut group, &[step]);
}

#[test]
fn once_all_of_its_rows_were_given_it_is_done(rt: HostRuntime) {
    for step in to_done() {
        given_moves(&rt, rt.alloc(), step);
    }
}

#[test]
fn once_it_is_done_all_ports_are(rt: HostRuntime) {
    let steps = to_done();
    each_moves(&rt, rt.alloc(), &[([Ready, Done], DONE)], &steps);
}

/// How many rows it has, once no more come and until a unit has them.
fn height_of(group: &Group) -> Option<usize> {
    match group.frame() {
        Some(frame) => Some(frame.height()),
        None => None,
    }
}

#[test]
fn no_rows_have_no_groups(rt: HostRuntime) {
    let mut group = ready_group(&rt, rt.alloc());
    assert_eq!(rt; group.taken_to(), Some(0));
    assert_eq!(rt; height_of(&group), None);
    moves_on::<Plain, Rows>(&rt, &mut group, &[([Done, Ready], SOURCE)]);
    assert_eq!(rt; group.taken_to(), None);
    assert_eq!(rt; height_of(&group), Some(0));
}
