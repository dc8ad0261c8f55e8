//! A join by any number of pipelines.
use super::gates::NotingGate;
use super::joins::{JoinCase, KINDS, query_of_join};
use super::runs::{counted_in, read};
use super::{End, LOCAL, Run, has_text, outside_of};
use morsel_outside::MemIo;
use std::alloc::Global;
use std::marker::Brand;
use std::mem::drop;
use std::process::Abort;
use std::sync::ledger::Blank;

/// Four kept rows that none finds, each in a load of its own.
const ALONE: JoinCase<'static> = JoinCase {
    files: &[
        ("l.csv", b"k,v\n1,a\n"),
        ("r.csv", b"k,w\n5,x\n6,y\n1,p\n7,z\n8,u\n"),
    ],
    left: r#"[["k","int"],["v","text"]]"#,
    right: r#"[["k","int"],["w","text"]]"#,
    join: r#""on":[["k","k"]],"kind":"full","order":"left_right""#,
    options: ONE_ROW,
    end: End {
        status: 0,
        told: "5",
        text: Some(
            "{\"k\":1,\"v\":\"a\",\"w\":\"p\"}\n{\"k\":5,\"v\":null,\"w\":\"x\"}\n{\"k\":6,\"v\":null,\"w\":\"y\"}\n{\"k\":7,\"v\":null,\"w\":\"z\"}\n{\"k\":8,\"v\":null,\"w\":\"u\"}\n",
        ),
    },
};

const ONE_ROW: &str = r#""morsel_rows":1"#;

/// A run of the case's query with so many units of each node writes the rows in their order.
fn is_joined(
    rt: &impl Abort,
    alloc: Global,
    case: JoinCase<'static>,
    query: &[u8],
    pipelines: u32,
) {
    assert!(rt; pipelines >= 1);
    assert!(rt; pipelines <= 100);
    let run = Run {
        files: case.files,
        ..LOCAL
    };
    let mut io = outside_of(rt, alloc, run, b"", b"");
    let (query, options) = read(alloc, query).expect(rt, "a query");
    let gate = NotingGate::new();
    let answer = counted_in::<MemIo, NotingGate, Brand>(
        alloc,
        &mut io,
        query,
        &options,
        pipelines,
        &gate,
        Blank::new(1),
    );
    assert!(rt; answer.is_ok());
    has_text(rt, &io, case.end);
    drop(io);
}

/// Each number of pipelines writes the rows of the case in their order.
fn is_joined_by_each(rt: &impl Abort, alloc: Global, case: JoinCase<'static>) {
    let query = query_of_join(rt, alloc, case);
    for pipelines in [1, 2, 3, 7] {
        is_joined(rt, alloc, case, query.as_bytes(), pipelines);
    }
    drop(query);
}

#[test]
fn any_number_of_pipelines_writes_lone_rows_in_their_order(rt: HostRuntime) {
    is_joined_by_each(&rt, rt.alloc(), ALONE);
}

/// Each kind, with a row in each load.
#[test]
fn any_number_of_pipelines_writes_each_kind_in_its_order(rt: HostRuntime) {
    for case in KINDS {
        let small = JoinCase {
            options: ONE_ROW,
            ..*case
        };
        is_joined_by_each(&rt, rt.alloc(), small);
    }
}
