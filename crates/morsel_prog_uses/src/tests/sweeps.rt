//! Each query is run once more by itself, under a gate that counts its sweeps: it ends as before, so it is not given up for sweeps
//! that bring it no further, and after few of them.
use super::faults::{QUERY, calls, query_of_three};
use super::gates::NotingGate;
use super::runs::{counted, read};
use super::{Run, outside_of};
use morsel_meaning::Fault;
use morsel_outside::{FileNo, MemIo};
use morsel_prog::status_of;
use std::alloc::Global;
use std::marker::Brand;
use std::mem::drop;
use std::process::Abort;
use std::sync::ledger::Blank;

/// What a run of the query of these bytes answers.
fn answer(alloc: Global, io: &mut MemIo, query: &[u8], gate: &NotingGate) -> Result<u64, Fault> {
    let (query, options) = read(alloc, query)?;
    counted::<MemIo, NotingGate, Brand>(alloc, io, query, &options, gate, Blank::new(1))
}

/// The status of an answer.
fn status_of_answer(answer: Result<u64, Fault>) -> u8 {
    match answer {
        Ok(_) => 0,
        Err(fault) => status_of(&fault),
    }
}

/// How many bytes the opened files have.
fn bytes_opened(io: &MemIo) -> u64 {
    let mut bytes = 0u64;
    for file in 0..io.memory().opened() {
        bytes = bytes.saturating_add(io.memory().bytes(FileNo(file)).len() as u64);
    }
    bytes
}

/// The run of the query ends with this status, after at most 16 sweeps for each byte of its sources, and 16 more. The bound is
/// 1,024 for each, times more than the columns.
fn ends_in_few_sweeps(rt: &impl Abort, alloc: Global, io: &mut MemIo, query: &[u8], status: u8) {
    let gate = NotingGate::new();
    let found = status_of_answer(answer(alloc, io, query, &gate));
    assert_eq!(rt; found, status);
    let bytes = bytes_opened(io);
    let sweeps = gate.sweeps();
    assert!(rt;
        sweeps <= bytes.saturating_add(1).saturating_mul(16),
        "{sweeps} for {bytes}"
    );
}

/// Both outsides have the same sinks.
fn has_same_sinks(rt: &impl Abort, one: &MemIo, other: &MemIo) {
    assert_eq!(rt; one.memory().sinks(), other.memory().sinks());
    for sink in 0..one.memory().sinks() {
        assert_eq!(rt; one.memory().text(sink), other.memory().text(sink));
    }
}

/// The query of a run that left this outside ends so again, with the same text, after few sweeps.
pub fn ends_so_again(
    rt: &impl Abort,
    alloc: Global,
    run: Run<'_>,
    one: &[u8],
    query: &[u8],
    status: u8,
    left: &MemIo,
) {
    let mut io = outside_of(rt, alloc, run, one, b"");
    ends_in_few_sweeps(rt, alloc, &mut io, query, status);
    has_same_sinks(rt, left, &io);
    drop(io);
}

/// The run of the query of the three files, of which these calls fail, ends with this status, after few sweeps.
fn fails_in_few_sweeps(rt: &impl Abort, alloc: Global, run: Run<'_>, query: &[u8], status: u8) {
    let mut io = outside_of(rt, alloc, run, b"", b"");
    ends_in_few_sweeps(rt, alloc, &mut io, query, status);
    drop(io);
}

/// The opens and the reads fail in turn.
fn each_read_fails(rt: &impl Abort, alloc: Global, query: &[u8], reads: u64) {
    // Each file is opened before the first read.
    for call in 0..reads.saturating_add(3) {
        let run = Run {
            fail_reads: &[call],
            ..QUERY
        };
        fails_in_few_sweeps(rt, alloc, run, query, 12);
    }
}

/// The write of this number fails after each number of bytes.
fn a_write_fails(rt: &impl Abort, alloc: Global, query: &[u8], call: u64, status: u8) {
    for taken in [0, 1, 5] {
        let run = Run {
            fail_writes: &[(call, taken)],
            ..QUERY
        };
        fails_in_few_sweeps(rt, alloc, run, query, status);
    }
}

/// The make and the writes fail in turn, and then the print, which comes after the run.
fn each_write_fails(rt: &impl Abort, alloc: Global, query: &[u8], writes: u64) {
    for call in 0..writes.saturating_add(1) {
        a_write_fails(rt, alloc, query, call, 13);
    }
    a_write_fails(rt, alloc, query, writes.saturating_add(1), 0);
}

/// How many reads and writes the run of the query makes where nothing fails.
fn reads_and_writes(rt: &impl Abort, alloc: Global, query: &[u8]) -> (u64, u64) {
    let mut io = outside_of(rt, alloc, QUERY, b"", b"");
    ends_in_few_sweeps(rt, alloc, &mut io, query, 0);
    let (reads, writes) = calls(rt, alloc, &io);
    drop(io);
    let count = reads.len() as u64;
    drop(reads);
    (count, writes)
}

#[test]
fn few_sweeps_are_made_where_a_call_fails(rt: HostRuntime) {
    let query = query_of_three(&rt, rt.alloc());
    let (reads, writes) = reads_and_writes(&rt, rt.alloc(), query.as_bytes());
    // Each file has more than two chunks.
    assert!(rt; reads > 8);
    assert!(rt; writes > 2);
    each_read_fails(&rt, rt.alloc(), query.as_bytes(), reads);
    each_write_fails(&rt, rt.alloc(), query.as_bytes(), writes);
    drop(query);
}
