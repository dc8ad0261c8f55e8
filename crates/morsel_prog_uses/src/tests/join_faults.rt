//! Each call to the outside of a query with a join fails in turn, and each write after each of some numbers of bytes.
use super::faults::calls;
use super::joins::{JoinCase, query_of_join};
use super::{End, LOCAL, Run, after, leaves, prints};
use morsel_outside::MemIo;
use std::alloc::Global;
use std::mem::drop;
use std::process::Abort;

/// The two files.
const FILES: &[(&str, &[u8])] = &[
    ("l.csv", b"k,v\n1,ann\n2,bo\n,cy\n"),
    ("r.csv", b"k,w\n2,x\n3,\"y\ny\"\n2,z\n"),
];

/// Rows of either side that are in no pair, so that all three phases write; each file takes several reads.
const FULL: JoinCase<'static> = JoinCase {
    files: FILES,
    left: r#"[["k","int"],["v","text"]]"#,
    right: r#"[["k","int"],["w","text"]]"#,
    join: r#""on":[["k","k"]],"kind":"full","order":"left_right""#,
    options: r#""chunk_bytes":4,"morsel_rows":1"#,
    end: End {
        status: 0,
        told: "5",
        text: Some(TEXT),
    },
};

const TEXT: &str =
    "{\"k\":1,\"v\":\"ann\",\"w\":null}\n{\"k\":2,\"v\":\"bo\",\"w\":\"x\"}\n{\"k\":2,\"v\":\"bo\",\"w\":\"z\"}\n{\"k\":null,\"v\":\"cy\",\"w\":null}\n{\"k\":3,\"v\":null,\"w\":\"y\\ny\"}\n";

/// The run of the join.
const JOINED: Run<'static> = Run {
    files: FILES,
    ..LOCAL
};

/// The open or read of this number fails, which is of this file of the query, and a front of the text is left, where one may be.
fn a_read_fails(
    rt: &impl Abort,
    alloc: Global,
    query: &[u8],
    call: u64,
    file: usize,
    text: Option<&str>,
) {
    let fails = Run {
        fail_reads: &[call],
        ..JOINED
    };
    let io = after(rt, alloc, fails, b"", query, 12);
    assert_eq!(rt; (io.read_faults(), io.write_faults()), (1, 0));
    let told = format!(in alloc; "error 2: read fault in file {file}").expect(rt, "memory");
    prints(rt, &io, Some(told.as_str()));
    drop(told);
    leaves(rt, &io, text);
    drop(io);
}

/// The reads after those of the query file fail in turn. Both files are opened before the first of them.
fn each_read_fails(rt: &impl Abort, alloc: Global, query: &[u8], reads: &[usize]) {
    for number in 1..reads.len() {
        let call = (number as u64).saturating_add(3);
        a_read_fails(
            rt,
            alloc,
            query,
            call,
            reads[number].saturating_sub(1),
            Some(TEXT),
        );
    }
}

/// The make, write or print of this number fails after so many bytes, and a write fault is told.
fn a_write_fails(rt: &impl Abort, alloc: Global, query: &[u8], call: u64, taken: u64) {
    let fails = Run {
        fail_writes: &[(call, taken)],
        ..JOINED
    };
    let io = after(rt, alloc, fails, b"", query, 13);
    assert_eq!(rt; (io.read_faults(), io.write_faults()), (0, 1));
    prints(rt, &io, Some("error 3: write fault"));
    let text = match call {
        0 => None,
        _ => Some(TEXT),
    };
    leaves(rt, &io, text);
    drop(io);
}

/// The make, the writes and the print fail in turn.
fn each_write_fails(rt: &impl Abort, alloc: Global, query: &[u8], writes: u64) {
    for call in 0..writes.saturating_add(2) {
        for taken in [0, 1, 5] {
            a_write_fails(rt, alloc, query, call, taken);
        }
    }
}

/// The reads of the run where nothing fails, by the numbers of the opened files, and how many writes it makes.
fn reads_and_writes(rt: &impl Abort, alloc: Global, query: &[u8]) -> (Vec<usize>, u64) {
    let io: MemIo = after(rt, alloc, JOINED, b"", query, 0);
    leaves(rt, &io, Some(TEXT));
    let made = calls(rt, alloc, &io);
    drop(io);
    made
}

#[test]
fn each_call_of_a_join_fails_in_turn(rt: HostRuntime) {
    let query = query_of_join(&rt, rt.alloc(), FULL);
    let (reads, writes) = reads_and_writes(&rt, rt.alloc(), query.as_bytes());
    // Either file has more than three chunks, and rows are written of all three kinds.
    assert!(rt; reads.len() > 8);
    assert!(rt; writes > 2);
    a_read_fails(&rt, rt.alloc(), query.as_bytes(), 2, 0, None);
    a_read_fails(&rt, rt.alloc(), query.as_bytes(), 3, 1, None);
    each_read_fails(&rt, rt.alloc(), query.as_bytes(), reads.as_slice());
    each_write_fails(&rt, rt.alloc(), query.as_bytes(), writes);
    drop(reads);
    drop(query);
}
