//! The writer of a sink, over an outside in memory of which some calls fail.
ghost use Rattle.std.specs.Prelude.{◌≡◌, ◌+◌, ◌≤◌, OnOk};

use super::makers::{name_of, part_of};
use morsel_frame::Schema;
use morsel_meaning::Fault;
use morsel_outside::MemIo;
use morsel_sink::{SinkFormat, SinkSpec, SinkWriter};
use std::alloc::Global;
use std::mem::drop;
use std::process::Abort;

/// An outside without files, of which these makes and writes fail, each after so many bytes.
fn outside(rt: &impl Abort, alloc: Global, fail_writes: &[(u64, u64)]) -> MemIo {
    let fail_writes = Vec::from_slice(alloc, fail_writes).expect(rt, "memory");
    MemIo::new(alloc, Vec::new(alloc), Vec::new(alloc), fail_writes)
}

/// A writer into the sink `out.ndjson`.
fn writer_of(rt: &impl Abort, alloc: Global) -> SinkWriter
    ensures { result.rows ≡ 0 }
{
    let spec = SinkSpec {
        name: name_of(rt, alloc, "out.ndjson"),
        format: SinkFormat::NdJson,
    };
    let schema = Schema::new(alloc, Vec::new(alloc)).expect(rt, "memory");
    SinkWriter::new(schema, &spec).expect(rt, "memory")
}

/// Writes the part of these numbers into the sink that was made.
fn put(
    rt: &impl Abort,
    alloc: Global,
    io: &mut MemIo,
    writer: &mut SinkWriter,
    numbers: &[i64],
) -> Result<(), Fault>
    requires few { writer.old.rows ≤ 1000 }
    ensures few { OnOk result (writer.new.rows ≤ writer.old.rows + 100) }
{
    assert!(rt; io.memory().sinks() > 0);
    writer.put(io, part_of(rt, alloc, numbers))
}

/// Makes the sink, and writes two parts.
fn put_two(
    rt: &impl Abort,
    alloc: Global,
    io: &mut MemIo,
    writer: &mut SinkWriter,
) -> Result<(), Fault>
    requires none { writer.old.rows ≡ 0 }
{
    writer.begin(io)?;
    put(rt, alloc, io, writer, &[1, 2])?;
    put(rt, alloc, io, writer, &[3])
}

/// How many rows were written, or why not all were.
fn written(rt: &impl Abort, alloc: Global, io: &mut MemIo) -> Result<u64, Fault> {
    let mut writer = writer_of(rt, alloc);
    match put_two(rt, alloc, io, &mut writer) {
        Ok(()) => writer.finish(io),
        Err(fault) => Err(fault),
    }
}

/// One sink was made, `out.ndjson`, and it has this text.
fn has_text(rt: &impl Abort, io: &MemIo, text: &str) {
    let sinks = io.memory().sinks();
    assert_eq!(rt; sinks, 1);
    assert_eq!(rt; io.memory().sink_name(0), "out.ndjson");
    assert_eq!(rt; io.memory().text(0), text.as_bytes());
}

#[test]
fn parts_are_written_in_turn_and_counted(rt: HostRuntime) {
    let mut io = outside(&rt, rt.alloc(), &[]);
    assert_eq!(rt; written(&rt, rt.alloc(), &mut io), Ok(3));
    has_text(&rt, &io, "{\"n\":1}\n{\"n\":2}\n{\"n\":3}\n");
    drop(io);
}

#[test]
fn a_sink_that_is_not_made_is_a_write_fault(rt: HostRuntime) {
    let mut io = outside(&rt, rt.alloc(), &[(0, 0)]);
    assert_eq!(rt; written(&rt, rt.alloc(), &mut io), Err(Fault::WriteFault));
    assert_eq!(rt; io.memory().sinks(), 0);
    drop(io);
}

/// The numbers of the writes of the two parts, how many bytes each takes where it fails, and what the sink has then.
const FAILING: &[(u64, u64, &str)] = &[(1, 3, "{\"n"), (2, 0, "{\"n\":1}\n{\"n\":2}\n")];

#[test]
fn a_write_that_fails_is_a_write_fault_and_leaves_what_it_took(rt: HostRuntime) {
    for (write, taken, text) in FAILING {
        let mut io = outside(&rt, rt.alloc(), &[(*write, *taken)]);
        assert_eq!(rt; written(&rt, rt.alloc(), &mut io), Err(Fault::WriteFault));
        has_text(&rt, &io, text);
        drop(io);
    }
}
