//! The outside in memory that never fails.
ghost use Rattle.std.specs.Prelude.{IsOkUnless};
ghost use Rattle.morsel_outside.specs.Calls.{Opens};

use super::told::{has_asked_make, has_asked_open, has_event, has_line, has_sink, read_within};
use morsel_meaning::Name;
use morsel_outside::{FileNo, Io, IoErr, IoEvent, Memory, SureMemIo};
use std::alloc::Global;
use std::mem::drop;
use std::process::Abort;

fn open<H: Io>(io: &mut H, name: &str) -> Result<FileNo, IoErr>
    ensures { Opens (H.seen io.old) name.now result (H.seen io.new) }
{
    io.open_source(name)
}

// What any outside may answer rules out `Failed` where the outside is this one.
fn open_surely(io: &mut SureMemIo, name: &str) -> Result<FileNo, IoErr>
    ensures { IsOkUnless result IoErr.OutOfMemory }
{
    open(io, name)
}

/// The number and the size of the file that is opened.
fn opens(io: &mut SureMemIo, name: &str) -> Result<(usize, u64), IoErr> {
    let file = open_surely(io, name)?;
    if file.0 >= io.memory().opened() {
        return Ok((file.0, u64::MAX));
    }
    Ok((file.0, io.size(file)))
}

/// Fills `into` from place `at` of a file on, and answers whether it reaches so far.
fn read(io: &mut SureMemIo, file: FileNo, at: u64, into: &mut [u8]) -> Result<bool, IoErr> {
    if file.0 >= io.memory().opened() {
        return Ok(false);
    }
    read_within(io, file, at, into)
}

fn opens_absent_names(io: &mut SureMemIo) -> Result<bool, IoErr> {
    let _ = open_surely(io, "absent")?;
    Ok(
        opens(io, "none")? == (1, 0)
            && read(io, FileNo(1), 0, &mut [])?
            && io.memory().opened() == 2
            && io.memory().events() == 1,
    )
}

#[test]
fn an_absent_name_opens_as_an_empty_file(rt: HostRuntime) {
    let mut io = SureMemIo::new(rt.alloc(), Vec::new(rt.alloc()));
    assert_eq!(rt; opens_absent_names(&mut io), Ok(true));
    drop(io);
}

/// An outside of one file.
fn outside(rt: &impl Abort, alloc: Global) -> SureMemIo {
    let name = Name::new(alloc, "a.csv").expect(rt, "memory");
    let bytes = Vec::from_slice(alloc, b"id\n1\n").expect(rt, "memory");
    let files = vec![in alloc; (name, bytes)].expect(rt, "memory");
    SureMemIo::new(alloc, files)
}

/// Whether the last two bytes are the last row.
fn reads(io: &mut SureMemIo) -> Result<bool, IoErr> {
    let mut into = [0; 2];
    Ok(read(io, FileNo(0), 3, &mut into)? && into == *b"1\n")
}

fn writes_and_prints(io: &mut SureMemIo) -> Result<(), IoErr> {
    io.make_sink("o")?;
    io.write(b"{}\n")?;
    io.print("1")
}

fn does_all(io: &mut SureMemIo) -> Result<bool, IoErr> {
    if opens(io, "a.csv")? != (0, 5) || !reads(io)? {
        return Ok(false);
    }
    writes_and_prints(io)?;
    Ok(true)
}

/// Whether the file was read and the sink written.
fn told_of_bytes(memory: &Memory) -> bool {
    let read = IoEvent::ReadAt {
        file: 0,
        at: 3,
        len: 2,
    };
    memory.events() == 2
        && has_event(memory, 0, read)
        && has_event(memory, 1, IoEvent::Wrote { len: 3 })
}

/// Whether the file was opened and the sink made.
fn told_of_names(memory: &Memory) -> bool {
    memory.names() == 2 && has_asked_open(memory, 0, "a.csv") && has_asked_make(memory, 1, "o")
}

fn told_of_all(memory: &Memory) -> bool {
    has_sink(memory, "o", b"{}\n")
        && has_line(memory, "1")
        && told_of_bytes(memory)
        && told_of_names(memory)
}

#[test]
fn all_that_was_done_is_told(rt: HostRuntime) {
    let mut io = outside(&rt, rt.alloc());
    assert_eq!(rt; does_all(&mut io), Ok(true));
    assert!(rt; told_of_all(io.memory()));
    drop(io);
}
