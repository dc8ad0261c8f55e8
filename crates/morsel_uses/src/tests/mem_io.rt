//! The outside in memory whose numbered calls fail.
use super::told::{has_asked_open, has_event, has_line, has_opened, has_sink, read_within};
use morsel_meaning::Name;
use morsel_outside::{FileNo, Io, IoErr, IoEvent, MemIo, Memory};
use std::alloc::Global;
use std::mem::drop;
use std::process::Abort;

/// The text of the file that is opened.
const TEXT: &str = "id,name\n1,ann\n2,\n";

fn file(rt: &impl Abort, alloc: Global, name: &str, text: &str) -> (Name, Vec<u8>) {
    let name = Name::new(alloc, name).expect(rt, "memory");
    let bytes = Vec::from_slice(alloc, text.as_bytes()).expect(rt, "memory");
    (name, bytes)
}

/// An outside of two files of one name, of which the calls of these numbers fail.
fn outside(
    rt: &impl Abort,
    alloc: Global,
    fail_reads: &[u64],
    fail_writes: &[(u64, u64)],
) -> MemIo {
    let first = file(rt, alloc, "a.csv", TEXT);
    let later = file(rt, alloc, "a.csv", "later");
    let files = vec![in alloc; first, later].expect(rt, "memory");
    let fail_reads = Vec::from_slice(alloc, fail_reads).expect(rt, "memory");
    let fail_writes = Vec::from_slice(alloc, fail_writes).expect(rt, "memory");
    MemIo::new(alloc, files, fail_reads, fail_writes)
}

/// The number and the size of the file that is opened.
fn opens(io: &mut MemIo) -> Result<(usize, u64), IoErr> {
    let file = io.open_source("a.csv")?;
    Ok((file.0, io.size(file)))
}

fn open_fails(io: &mut MemIo, name: &str) -> bool {
    io.open_source(name) == Err(IoErr::Failed)
}

/// Fills `into` from place `at` of the first file on, and answers whether it reaches so far.
fn read(io: &mut MemIo, at: u64, into: &mut [u8]) -> Result<bool, IoErr> {
    let file = FileNo(0);
    if io.memory().opened() == 0 {
        return Ok(false);
    }
    read_within(io, file, at, into)
}

/// The four bytes from place 3 on.
fn four_bytes(io: &mut MemIo) -> Result<[u8; 4], IoErr> {
    let mut into = [0; 4];
    let _ = read(io, 3, &mut into)?;
    Ok(into)
}

/// The first two bytes.
fn two_bytes(io: &mut MemIo) -> Result<[u8; 2], IoErr> {
    let mut into = [0; 2];
    let _ = read(io, 0, &mut into)?;
    Ok(into)
}

/// Whether so many reads and writes failed, and so many of the writes were prints.
fn has_failed(io: &MemIo, reads: u64, writes: u64, prints: u64) -> bool {
    io.read_faults() == reads && io.write_faults() == writes && io.print_faults() == prints
}

fn reads_where_asked(io: &mut MemIo) -> Result<bool, IoErr> {
    if opens(io)? != (0, 17) || four_bytes(io)? != *b"name" {
        return Ok(false);
    }
    Ok(has_opened(io.memory(), TEXT.as_bytes()) && has_failed(io, 0, 0, 0) && io.failed() == 0)
}

#[test]
fn a_file_is_read_where_it_was_asked(rt: HostRuntime) {
    let mut io = outside(&rt, rt.alloc(), &[], &[]);
    assert_eq!(rt; reads_where_asked(&mut io), Ok(true));
    drop(io);
}

fn refuses_an_absent_name(io: &mut MemIo) -> Result<bool, IoErr> {
    let _ = opens(io)?;
    Ok(
        open_fails(io, "b.csv")
            && io.memory().opened() == 1
            && has_failed(io, 1, 0, 0)
            && io.failed() == 1
            && io.memory().names() == 2
            && has_asked_open(io.memory(), 1, "b.csv"),
    )
}

#[test]
fn an_absent_name_is_refused(rt: HostRuntime) {
    let mut io = outside(&rt, rt.alloc(), &[], &[]);
    assert_eq!(rt; refuses_an_absent_name(&mut io), Ok(true));
    drop(io);
}

fn read_fails(io: &mut MemIo) -> bool {
    two_bytes(io) == Err(IoErr::Failed)
}

fn two_reads_fail(io: &mut MemIo) -> Result<bool, IoErr> {
    Ok(
        open_fails(io, "a.csv")
            && opens(io)? == (0, 17)
            && read_fails(io)
            && two_bytes(io)? == *b"id",
    )
}

fn told_of_reads(io: &MemIo) -> bool {
    let event = IoEvent::ReadAt {
        file: 0,
        at: 0,
        len: 2,
    };
    has_failed(io, 2, 0, 0)
        && io.failed() == 0
        && io.memory().events() == 2
        && has_event(io.memory(), 0, event)
}

#[test]
fn the_numbered_reads_fail(rt: HostRuntime) {
    let mut io = outside(&rt, rt.alloc(), &[0, 2], &[]);
    assert_eq!(rt; two_reads_fail(&mut io), Ok(true));
    assert!(rt; told_of_reads(&io));
    drop(io);
}

/// A call that is given something to keep.
#[derive(Clone, Copy)]
enum Call {
    Make(&'static str),
    Write(&'static [u8]),
    Print(&'static str),
}

/// What a call answers. Without a sink no piece is written.
fn answer(io: &mut MemIo, call: &Call) -> Result<(), IoErr> {
    match call {
        Call::Make(name) => io.make_sink(name),
        Call::Write(piece) if io.memory().sinks() > 0 => io.write(piece),
        Call::Write(_) => Ok(()),
        Call::Print(line) => io.print(line),
    }
}

/// Whether the calls, in their order, fail where they are to fail.
fn answers_are(io: &mut MemIo, calls: &[(Call, bool)]) -> Result<bool, IoErr> {
    for (call, fails) in calls {
        let failed = match answer(io, call) {
            Ok(()) => false,
            Err(IoErr::Failed) => true,
            Err(fault) => return Err(fault),
        };
        if failed != *fails {
            return Ok(false);
        }
    }
    Ok(true)
}

fn every_other_call_fails(io: &mut MemIo) -> Result<bool, IoErr> {
    let calls = [
        (Call::Make("o"), true),
        (Call::Make("o"), false),
        (Call::Write(b"hello"), true),
        (Call::Write(b" you"), false),
        (Call::Write(b"r"), true),
        (Call::Print("lost"), true),
        (Call::Print("kept"), false),
    ];
    answers_are(io, &calls)
}

/// Whether the events are writes of so many bytes.
fn has_written(memory: &Memory, lens: &[usize]) -> bool {
    for (at, len) in lens.iter().enumerate() {
        if !has_event(memory, at, IoEvent::Wrote { len: *len }) {
            return false;
        }
    }
    memory.events() == lens.len()
}

fn told_of_writes(io: &MemIo) -> bool {
    let memory = io.memory();
    has_sink(memory, "o", b"he your")
        && has_line(memory, "kept")
        && has_written(memory, &[2, 4, 1])
        && memory.names() == 2
        && has_failed(io, 0, 4, 1)
}

#[test]
fn the_numbered_writes_fail_after_a_part(rt: HostRuntime) {
    let mut io = outside(&rt, rt.alloc(), &[], &[(0, 0), (2, 2), (4, 9), (5, 0)]);
    assert_eq!(rt; every_other_call_fails(&mut io), Ok(true));
    assert!(rt; told_of_writes(&io));
    drop(io);
}
