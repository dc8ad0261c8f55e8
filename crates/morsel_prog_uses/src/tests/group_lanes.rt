//! A group-by by any number of pipelines.
use super::gates::NotingGate;
use super::groups::{GroupCase, REDUCTIONS, has_groups, query_of_group};
use super::joined_groups::{KINDS, Kind, ORDERS, case_of, join_of};
use super::runs::{counted_in, read};
use super::{LOCAL, Run, outside_of};
use morsel_outside::MemIo;
use std::alloc::Global;
use std::marker::Brand;
use std::mem::drop;
use std::process::Abort;
use std::sync::ledger::Blank;

const ONE_ROW: &str = r#""morsel_rows":1,"chunk_bytes":8"#;

/// A run of the case's query with so many units of each node gives its groups, under this gate.
fn is_grouped(
    rt: &impl Abort,
    alloc: Global,
    case: GroupCase<'_>,
    query: &[u8],
    pipelines: u32,
    gate: &NotingGate,
) {
    assert!(rt; pipelines >= 1);
    assert!(rt; pipelines <= 100);
    let run = Run {
        files: case.files,
        ..LOCAL
    };
    let mut io = outside_of(rt, alloc, run, b"", b"");
    let (query, options) = read(alloc, query).expect(rt, "a query");
    let answer = counted_in::<MemIo, NotingGate, Brand>(
        alloc,
        &mut io,
        query,
        &options,
        pipelines,
        gate,
        Blank::new(1),
    );
    assert!(rt; answer.is_ok());
    has_groups(rt, &io, case.end);
    drop(io);
}

/// Each number of pipelines gives the groups of the case.
fn is_grouped_by_each(rt: &impl Abort, alloc: Global, case: GroupCase<'_>) {
    let query = query_of_group(rt, alloc, case);
    for pipelines in [1, 2, 3, 7] {
        let gate = NotingGate::new();
        is_grouped(rt, alloc, case, query.as_bytes(), pipelines, &gate);
    }
    drop(query);
}

#[test]
fn any_number_of_pipelines_reduces_alike(rt: HostRuntime) {
    for case in REDUCTIONS {
        let small = GroupCase {
            options: ONE_ROW,
            ..*case
        };
        is_grouped_by_each(&rt, rt.alloc(), small);
    }
}

/// The rows of a kind of join, with a row in each load.
fn kind_is_grouped(rt: &impl Abort, alloc: Global, kind: Kind) {
    let join = join_of(rt, alloc, kind);
    is_grouped_by_each(rt, alloc, case_of(kind, join.as_str(), ONE_ROW));
    drop(join);
}

#[test]
fn any_number_of_pipelines_groups_the_rows_of_each_kind(rt: HostRuntime) {
    for kind in KINDS {
        kind_is_grouped(&rt, rt.alloc(), *kind);
    }
}

/// Two sources, a join, a group-by and a sink have a unit each.
#[test]
fn at_least_five_polls_pass_the_gate(rt: HostRuntime) {
    let query = query_of_group(&rt, rt.alloc(), ORDERS);
    for pipelines in [1, 2] {
        let gate = NotingGate::new();
        is_grouped(&rt, rt.alloc(), ORDERS, query.as_bytes(), pipelines, &gate);
        assert!(rt; gate.polls() >= 5);
        assert!(rt; gate.all_left());
    }
    drop(query);
}
