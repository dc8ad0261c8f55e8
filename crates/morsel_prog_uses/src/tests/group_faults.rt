//! Each call to the outside of a query with a group-by fails in turn, and each write after each of some numbers of bytes.
use super::faults::calls;
use super::groups::{GroupCase, query_of_group};
use super::{End, LOCAL, Run, after, leaves, prints, text_in};
use morsel_outside::MemIo;
use std::alloc::Global;
use std::mem::drop;
use std::process::Abort;

/// Four groups over a full join, each in a load of its own; each file takes several reads.
const JOINED: GroupCase<'static> = GroupCase {
    files: &[
        ("l.csv", b"k,v\n1,ann\n2,bo\n,cy\n2,di\n"),
        ("r.csv", b"k,w\n2,x\n3,\"y\ny\"\n2,z\n"),
    ],
    scan: r#""files":["l.csv"],"schema":[["k","int"],["v","text"]]"#,
    join: r#""join":{"right":{"format":"csv","files":["r.csv"],"schema":[["k","int"],["w","text"]]},"on":[["k","k"]],"kind":"full","order":"left_right"},"#,
    group: r#""keys":["k"],"aggs":[["len",null,"n"],["first","w","w"]]"#,
    options: r#""chunk_bytes":4,"morsel_rows":1"#,
    end: End {
        status: 0,
        told: "4",
        text: None,
    },
};

/// Three groups over one file.
const SCANNED: GroupCase<'static> = GroupCase {
    files: &[("l.csv", b"k,v\n1,ann\n2,bo\n,cy\n2,di\n")],
    join: "",
    group: r#""keys":["k"],"aggs":[["last","v","v"]]"#,
    end: End {
        status: 0,
        told: "3",
        text: None,
    },
    ..JOINED
};

/// A query with a group-by, and how many files it opens.
type Grouped = (GroupCase<'static>, u64);

/// The run of a query.
fn run_of(case: GroupCase<'static>) -> Run<'static> {
    Run {
        files: case.files,
        ..LOCAL
    }
}

/// The open or read of this number fails, which is of this file of the query. No sink was made, or one without a row.
fn a_read_fails(
    rt: &impl Abort,
    alloc: Global,
    run: Run<'_>,
    query: &[u8],
    file: u64,
    text: Option<&str>,
) {
    let io = after(rt, alloc, run, b"", query, 12);
    assert_eq!(rt; (io.read_faults(), io.write_faults()), (1, 0));
    let told = format!(in alloc; "error 2: read fault in file {file}").expect(rt, "memory");
    prints(rt, &io, Some(told.as_str()));
    drop(told);
    leaves(rt, &io, text);
    drop(io);
}

/// The opens of the query's files fail in turn. The query file is opened and read before the first of them.
fn each_open_fails(rt: &impl Abort, alloc: Global, grouped: Grouped, query: &[u8]) {
    for file in 0..grouped.1 {
        let run = Run {
            fail_reads: &[file.saturating_add(2)],
            ..run_of(grouped.0)
        };
        a_read_fails(rt, alloc, run, query, file, None);
    }
}

/// The reads after those of the query file fail in turn. All files are opened before the first of them.
fn each_read_fails(
    rt: &impl Abort,
    alloc: Global,
    grouped: Grouped,
    query: &[u8],
    reads: &[usize],
) {
    for number in 1..reads.len() {
        let call = (number as u64).saturating_add(1).saturating_add(grouped.1);
        let run = Run {
            fail_reads: &[call],
            ..run_of(grouped.0)
        };
        let file = (reads[number] as u64).saturating_sub(1);
        a_read_fails(rt, alloc, run, query, file, Some(""));
    }
}

/// The make, write or print of this number fails after so many bytes, and a write fault is told. A front of the text is left.
fn a_write_fails(
    rt: &impl Abort,
    alloc: Global,
    run: Run<'_>,
    query: &[u8],
    is_make: bool,
    text: &[u8],
) {
    let io = after(rt, alloc, run, b"", query, 13);
    assert_eq!(rt; (io.read_faults(), io.write_faults()), (0, 1));
    prints(rt, &io, Some("error 3: write fault"));
    if is_make {
        leaves(rt, &io, None);
    } else {
        assert!(rt; text.starts_with(text_in(rt, &io)));
    }
    drop(io);
}

/// The make, the writes and the print fail in turn.
fn each_write_fails(
    rt: &impl Abort,
    alloc: Global,
    grouped: Grouped,
    query: &[u8],
    writes: u64,
    text: &[u8],
) {
    for call in 0..writes.saturating_add(2) {
        for taken in [0, 1, 5] {
            let run = Run {
                fail_writes: &[(call, taken)],
                ..run_of(grouped.0)
            };
            a_write_fails(rt, alloc, run, query, call == 0, text);
        }
    }
}

/// The outside after the run where nothing fails.
fn unfailing(rt: &impl Abort, alloc: Global, grouped: Grouped, query: &[u8]) -> MemIo {
    let io = after(rt, alloc, run_of(grouped.0), b"", query, 0);
    prints(rt, &io, Some(grouped.0.end.told));
    io
}

/// The reads of that run, by the numbers of the opened files, and how many writes it makes.
fn reads_and_writes(
    rt: &impl Abort,
    alloc: Global,
    grouped: Grouped,
    query: &[u8],
) -> (Vec<usize>, u64) {
    let io = unfailing(rt, alloc, grouped, query);
    let made = calls(rt, alloc, &io);
    drop(io);
    made
}

/// The reads fail in turn, and then the writes; what is left is a front of the text that this outside has.
fn each_fails(rt: &impl Abort, alloc: Global, grouped: Grouped, query: &[u8], io: &MemIo) {
    let (reads, writes) = reads_and_writes(rt, alloc, grouped, query);
    // Each file has more than three chunks, and each group is a load.
    assert!(rt; reads.len() > 4);
    assert!(rt; writes > 2);
    each_read_fails(rt, alloc, grouped, query, reads.as_slice());
    drop(reads);
    each_write_fails(rt, alloc, grouped, query, writes, text_in(rt, io));
}

/// Each call of the query fails in turn.
fn each_call_fails(rt: &impl Abort, alloc: Global, grouped: Grouped, query: &[u8]) {
    each_open_fails(rt, alloc, grouped, query);
    let io = unfailing(rt, alloc, grouped, query);
    each_fails(rt, alloc, grouped, query, &io);
    drop(io);
}

#[test]
fn each_call_of_a_group_by_fails_in_turn(rt: HostRuntime) {
    for grouped in [(SCANNED, 1), (JOINED, 2)] {
        let query = query_of_group(&rt, rt.alloc(), grouped.0);
        each_call_fails(&rt, rt.alloc(), grouped, query.as_bytes());
        drop(query);
    }
}
