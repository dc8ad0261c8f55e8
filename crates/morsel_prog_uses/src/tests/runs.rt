//! Runs of queries called by themselves, over each outside in memory.
ghost use Rattle.std.specs.Prelude.{◌≡◌, ◌<◌, ◌≤◌};

use super::commands::{ROWS, SCANNED_TEXT};
use super::{LOCAL, Run, files_of, leaves, outside_of};
use morsel_local::Steps;
use morsel_meaning::{ComputeKind, Fault, QUERY_FILE};
use morsel_outside::{Asked, Gate, Io, MemIo, Memory, OpenGate, SureMemIo};
use morsel_prog::{run_local, run_pipelines};
use morsel_query::{Options, Query};
use morsel_query_text::query_of;
use serde_json::Value;
use std::alloc::Global;
use std::marker::Brand;
use std::mem::drop;
use std::process::Abort;
use std::sync::ledger::{Blank, Ledger};

/// A query of the two rows, four bytes at a time.
pub const TWO: &str =
    r#"{"left":{"format":"csv","files":["one.csv"],"schema":[["id","int"],["name","text"]]},"sink":{"format":"ndjson"},"options":{"chunk_bytes":4}}"#;

/// The query of a text, into `o`.
pub fn read(alloc: Global, text: &[u8]) -> Result<(Query, Options), Fault> {
    let Ok(tree) = Value::from_slice(alloc, text) else {
        return Err(Fault::QueryText);
    };
    query_of(alloc, &tree, "o")
}

/// What a run of the query answers.
fn answer<H: Io>(rt: &impl Abort, alloc: Global, io: &mut H, text: &str) -> Result<u64, Fault> {
    let (query, options) = read(alloc, text.as_bytes()).expect(rt, "a query");
    counted::<H, OpenGate, Brand>(alloc, io, query, &options, &OpenGate, Blank::new(1))
}

/// What a run of the query answers, with a count of its sweeps.
pub fn counted<H: Io, G: Gate, Y: Ledger>(
    alloc: Global,
    io: &mut H,
    query: Query,
    options: &Options,
    gate: &G,
    blank: Blank,
) -> Result<u64, Fault>
    requires name { blank.name ≡ Y.name }
    requires parts { blank.parts ≡ Y.parts }
    requires some { 0 < blank.parts }
{
    let mut steps = Steps::<Y>::new(blank);
    run_local(alloc, io, query, options, gate, &mut steps)
}

/// What a run of the query answers with so many units of each node, with a count of its sweeps.
pub fn counted_in<H: Io, G: Gate, Y: Ledger>(
    alloc: Global,
    io: &mut H,
    query: Query,
    options: &Options,
    pipelines: u32,
    gate: &G,
    blank: Blank,
) -> Result<u64, Fault>
    requires pipelines { (1 ≤ pipelines) × (pipelines ≤ 32768) }
    requires name { blank.name ≡ Y.name }
    requires parts { blank.parts ≡ Y.parts }
    requires some { 0 < blank.parts }
{
    let mut steps = Steps::<Y>::new(blank);
    run_pipelines(alloc, io, query, options, pipelines, gate, &mut steps)
}

/// What was asked for: `open` and the name of a file, or `make` and that of a sink.
fn shown(asked: &Asked) -> (&'static str, &str) {
    match asked {
        Asked::Open(name) => ("open", name.as_str()),
        Asked::Make(name) => ("make", name.as_str()),
    }
}

/// These names were asked for, in this order.
fn asked_for(rt: &impl Abort, memory: &Memory, names: &[(&str, &str)]) {
    assert_eq!(rt; memory.names(), names.len());
    for at in 0..names.len() {
        if at < memory.names() {
            assert_eq!(rt; shown(memory.asked(at)), names[at]);
        }
    }
}

/// The file and then the sink were asked for, the sink has the text of the rows, and nothing was printed.
fn has_rows(rt: &impl Abort, memory: &Memory) {
    asked_for(rt, memory, &[("open", "one.csv"), ("make", "o")]);
    assert_eq!(rt; memory.sinks(), 1);
    assert_eq!(rt; memory.text(0), SCANNED_TEXT.as_bytes());
    assert_eq!(rt; memory.lines(), 0);
}

#[test]
fn the_rows_of_a_file_are_written(rt: HostRuntime) {
    let mut io = outside_of(&rt, rt.alloc(), LOCAL, ROWS, b"");
    assert_eq!(rt; answer(&rt, rt.alloc(), &mut io, TWO), Ok(2));
    has_rows(&rt, io.memory());
    drop(io);
}

#[test]
fn the_rows_of_a_file_are_written_surely(rt: HostRuntime) {
    let files = files_of(&rt, rt.alloc(), LOCAL, ROWS, b"");
    let mut io = SureMemIo::new(rt.alloc(), files);
    assert_eq!(rt; answer(&rt, rt.alloc(), &mut io, TWO), Ok(2));
    has_rows(&rt, io.memory());
    drop(io);
}

/// The run of the query ends with this fault, and leaves a front of the text.
fn fails(rt: &impl Abort, alloc: Global, run: Run<'_>, fault: Fault, text: &str) {
    let mut io = outside_of(rt, alloc, run, ROWS, b"");
    let found = answer(rt, alloc, &mut io, TWO);
    is_fault(rt, found, fault);
    leaves(rt, &io, Some(text));
    drop(io);
}

fn is_fault(rt: &impl Abort, found: Result<u64, Fault>, fault: Fault) {
    match found {
        Ok(_) => assert!(rt; false, "a fault"),
        Err(told) => assert_eq!(rt; told, fault),
    }
}

/// The third read of the file comes after its open and two others.
#[test]
fn a_read_that_fails_leaves_a_front(rt: HostRuntime) {
    let run = Run {
        fail_reads: &[3],
        ..LOCAL
    };
    let fault = Fault::ReadFault { file: 0 };
    fails(&rt, rt.alloc(), run, fault, SCANNED_TEXT);
}

/// The first write takes five bytes.
#[test]
fn a_write_that_fails_leaves_what_it_took(rt: HostRuntime) {
    let run = Run {
        fail_writes: &[(1, 5)],
        ..LOCAL
    };
    fails(&rt, rt.alloc(), run, Fault::WriteFault, "{\"id\"");
}

/// The outside after the run of a query that ends with this fault.
fn after_fault(rt: &impl Abort, alloc: Global, text: &str, fault: Fault) -> MemIo {
    let mut io = outside_of(rt, alloc, LOCAL, ROWS, b"");
    let found = answer(rt, alloc, &mut io, text);
    is_fault(rt, found, fault);
    assert_eq!(rt; io.memory().sinks(), 0);
    io
}

#[test]
fn an_absent_file_is_a_read_fault_and_the_next_is_not_opened(rt: HostRuntime) {
    let text =
        r#"{"left":{"format":"csv","files":["one.csv","two.csv","one.csv"],"schema":[["id","int"]]},"sink":{"format":"ndjson"}}"#;
    let fault = Fault::ReadFault { file: 1 };
    let io = after_fault(&rt, rt.alloc(), text, fault);
    asked_for(
        &rt,
        io.memory(),
        &[("open", "one.csv"), ("open", "two.csv")],
    );
    drop(io);
}

#[test]
fn a_query_that_is_refused_opens_nothing(rt: HostRuntime) {
    let text =
        r#"{"left":{"format":"csv","files":["one.csv"],"schema":[["id","int"]],"slice":[-1,1]},"sink":{"format":"ndjson"}}"#;
    let fault = Fault::ComputeError {
        kind: ComputeKind::NegativeSlice,
        file: QUERY_FILE,
        at: 0,
    };
    let io = after_fault(&rt, rt.alloc(), text, fault);
    asked_for(&rt, io.memory(), &[]);
    drop(io);
}
