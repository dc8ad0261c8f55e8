//! Each line of the table by which the states of the ports of a join move.
ghost use Rattle.std.specs.Prelude.{IsSome};

use super::jobs::{Plain, Rows, rows_of};
use super::joins::{Asked, Join, columns_of, join_of, rules_of};
use super::steps::{BUILD, DONE, EMIT, PROBE, Step, join_answers, moves_on};
use morsel_join::{JoinType, MaintainOrderJoin};
use morsel_ports::ComputeNode;
use morsel_ports::PortState::{Blocked, Done, Ready};
use std::alloc::Global;
use std::process::Abort;

/// A new node of a join that was made ready for two pipelines.
fn ready_join(rt: &impl Abort, alloc: Global, asked: Asked) -> Join
    ensures { IsSome result.pipelines }
{
    let rows = rows_of(rt, alloc);
    let mut join = join_of(rt, alloc, asked, &rows);
    <Join as ComputeNode<Plain, Rows>>::initialize(&mut join, 2);
    join
}

/// A new node of such a join makes these moves.
fn join_moves(rt: &impl Abort, alloc: Global, asked: Asked, steps: &[Step]) {
    let mut join = ready_join(rt, alloc, asked);
    moves_on::<Plain, Rows>(rt, &mut join, steps);
}

/// A join that gives the kept rows that none found, whichever side is kept.
const FULL: Asked = (JoinType::Full, MaintainOrderJoin::None);

#[test]
fn a_join_is_called_equi_join(rt: HostRuntime) {
    let join = ready_join(&rt, rt.alloc(), FULL);
    assert_eq!(rt;
        <Join as ComputeNode<Plain, Rows>>::name(&join),
        "equi_join"
    );
}

#[test]
fn while_rows_are_kept_the_other_ports_wait(rt: HostRuntime) {
    let waits = [Ready, Blocked, Blocked];
    let steps = [
        ([Ready, Ready, Ready], waits, BUILD),
        ([Blocked, Ready, Blocked], waits, BUILD),
        ([Ready, Blocked, Ready], waits, BUILD),
        ([Ready, Done, Ready], waits, BUILD),
    ];
    join_moves(&rt, rt.alloc(), FULL, &steps);
}

#[test]
fn while_rows_are_looked_up_each_port_hears_the_other(rt: HostRuntime) {
    let steps = [
        ([Done, Ready, Ready], [Done, Ready, Ready], PROBE),
        ([Done, Blocked, Ready], [Done, Ready, Blocked], PROBE),
        ([Done, Ready, Blocked], [Done, Blocked, Ready], PROBE),
        ([Ready, Blocked, Blocked], [Done, Blocked, Blocked], PROBE),
    ];
    join_moves(&rt, rt.alloc(), FULL, &steps);
}

#[test]
fn while_rows_alone_are_given_only_the_sending_port_is_ready(rt: HostRuntime) {
    let gives = [Done, Done, Ready];
    let steps = [
        ([Done, Done, Ready], gives, EMIT),
        ([Done, Done, Blocked], gives, EMIT),
        ([Ready, Blocked, Ready], gives, EMIT),
    ];
    join_moves(&rt, rt.alloc(), FULL, &steps);
}

#[test]
fn once_it_is_done_all_ports_are(rt: HostRuntime) {
    let done = [Done, Done, Done];
    let steps = [
        ([Ready, Ready, Done], done, DONE),
        ([Ready, Ready, Ready], done, DONE),
        ([Blocked, Blocked, Blocked], done, DONE),
        (done, done, DONE),
    ];
    join_moves(&rt, rt.alloc(), FULL, &steps);
}

/// Where nobody takes what a join gives, it is done, whatever it did before and whatever else its ports are told.
#[test]
fn a_join_whose_rows_nobody_takes_is_done(rt: HostRuntime) {
    let keeps = ([Ready, Ready, Ready], [Ready, Blocked, Blocked], BUILD);
    let looks_up = ([Done, Ready, Ready], [Done, Ready, Ready], PROBE);
    let gives = ([Done, Done, Ready], [Done, Done, Ready], EMIT);
    let left = ([Ready, Ready, Done], [Done, Done, Done], DONE);
    let left_at_the_end = ([Done, Done, Done], [Done, Done, Done], DONE);
    join_moves(&rt, rt.alloc(), FULL, &[keeps, left]);
    join_moves(&rt, rt.alloc(), FULL, &[keeps, left_at_the_end]);
    join_moves(&rt, rt.alloc(), FULL, &[looks_up, left]);
    join_moves(&rt, rt.alloc(), FULL, &[looks_up, left_at_the_end]);
    join_moves(&rt, rt.alloc(), FULL, &[gives, left]);
    join_moves(&rt, rt.alloc(), FULL, &[gives, left_at_the_end]);
}

#[test]
fn once_no_more_rows_are_to_be_kept_the_others_are_looked_up(rt: HostRuntime) {
    let steps = [
        ([Ready, Ready, Ready], [Ready, Blocked, Blocked], BUILD),
        ([Done, Blocked, Ready], [Done, Ready, Blocked], PROBE),
    ];
    join_moves(&rt, rt.alloc(), FULL, &steps);
}

/// Where no rows were sent to be kept, none were.
#[test]
fn a_side_that_was_never_given_has_no_rows(rt: HostRuntime) {
    let mut join = ready_join(&rt, rt.alloc(), FULL);
    assert_eq!(rt; join.kept_to(), None);
    let told = [Done, Ready, Ready];
    assert_eq!(rt; join_answers::<Plain, Rows>(&rt, &mut join, told), told);
    assert_eq!(rt; join.kept_to(), Some(0));
}

/// What gives the kept rows that none found comes back, as it does once its unit has given all of them.
fn all_were_given(rt: &impl Abort, alloc: Global, join: &mut Join)
    requires initialized { IsSome join.old.pipelines }
    ensures initialized { IsSome join.new.pipelines }
{
    let giver = join.phase.take_giver(alloc, 1).expect(rt, "memory");
    join.phase.end(Some(giver));
}

#[test]
fn once_all_kept_rows_that_none_found_were_given_it_is_done(rt: HostRuntime) {
    let mut join = ready_join(&rt, rt.alloc(), FULL);
    let told = [Done, Done, Ready];
    moves_on::<Plain, Rows>(&rt, &mut join, &[(told, told, EMIT)]);
    all_were_given(&rt, rt.alloc(), &mut join);
    moves_on::<Plain, Rows>(&rt, &mut join, &[(told, [Done, Done, Done], DONE)]);
}

/// Each kind of join by each order, whether its left rows are kept, and whether it gives kept rows that none found.
const SIDES: &[(JoinType, MaintainOrderJoin, bool, bool)] = &[
    (JoinType::Inner, MaintainOrderJoin::None, true, false),
    (JoinType::Inner, MaintainOrderJoin::Left, false, false),
    (JoinType::Inner, MaintainOrderJoin::Right, true, false),
    (JoinType::Inner, MaintainOrderJoin::LeftRight, false, false),
    (JoinType::Inner, MaintainOrderJoin::RightLeft, true, false),
    (JoinType::Left, MaintainOrderJoin::None, false, false),
    (JoinType::Left, MaintainOrderJoin::Left, false, false),
    (JoinType::Left, MaintainOrderJoin::Right, true, true),
    (JoinType::Left, MaintainOrderJoin::LeftRight, false, false),
    (JoinType::Left, MaintainOrderJoin::RightLeft, true, true),
    (JoinType::Right, MaintainOrderJoin::None, true, false),
    (JoinType::Right, MaintainOrderJoin::Left, false, true),
    (JoinType::Right, MaintainOrderJoin::Right, true, false),
    (JoinType::Right, MaintainOrderJoin::LeftRight, false, true),
    (JoinType::Right, MaintainOrderJoin::RightLeft, true, false),
    (JoinType::Full, MaintainOrderJoin::None, true, true),
    (JoinType::Full, MaintainOrderJoin::Left, false, true),
    (JoinType::Full, MaintainOrderJoin::Right, true, true),
    (JoinType::Full, MaintainOrderJoin::LeftRight, false, true),
    (JoinType::Full, MaintainOrderJoin::RightLeft, true, true),
];

/// Where a join is once all rows were looked up.
fn after_all(gives: bool) -> Step {
    let told = [Done, Done, Ready];
    if gives {
        (told, told, EMIT)
    } else {
        (told, [Done, Done, Done], DONE)
    }
}

#[test]
fn a_join_keeps_the_side_that_its_rules_say(rt: HostRuntime) {
    let columns = columns_of(&rt, rt.alloc());
    for (how, order, is_left, _) in SIDES {
        let rules = rules_of(&rt, rt.alloc(), &columns, (*how, *order));
        assert_eq!(rt; rules.keeps_left(), *is_left, "{how:?} by {order:?}");
    }
}

#[test]
fn once_all_rows_were_looked_up_kept_rows_are_given_where_the_kind_has_them(rt: HostRuntime) {
    let looks_up = ([Done, Ready, Ready], [Done, Ready, Ready], PROBE);
    for (how, order, _, gives) in SIDES {
        join_moves(
            &rt,
            rt.alloc(),
            (*how, *order),
            &[looks_up, after_all(*gives)],
        );
    }
}

#[test]
fn moves_follow_each_other_within_one_call(rt: HostRuntime) {
    for (how, order, _, gives) in SIDES {
        join_moves(&rt, rt.alloc(), (*how, *order), &[after_all(*gives)]);
    }
}
