//! Over an outside in memory that never fails, no count of faults can rise, so every valid query is answered.
ghost use Rattle.std.specs.Prelude.{map};
ghost use Rattle.std.specs.String.{string_bytes};
ghost use Rattle.morsel_outside.specs.Memory.{sure};
ghost use Rattle.morsel_prog.specs.Words.{command_of};
ghost use Rattle.morsel_prog.specs.Complete.{IsValidCommand, IsDone};

use super::commands::{ROWS, SCAN, SCANNED_TEXT};
use super::{LOCAL, Run, files_of, words_of};
use morsel_outside::{OpenGate, SureMemIo};
use morsel_prog::{local_main, morsel_main};
use std::alloc::Global;
use std::mem::drop;
use std::process::Abort;
use std::sync::Wait;
use std::thread::Threads;

/// A command whose query is valid over its files ends with status 0, or that of being out of memory.
fn in_memory(alloc: Global, words: &[String], io: &mut SureMemIo) -> u8
    ensures { IsValidCommand (sure io.old) (command_of (map string_bytes words.now)) (sure io.new) → IsDone result }
{
    local_main(alloc, words, io)
}

/// So it does on threads.
fn in_memory_on_threads<R: Threads + Wait + Sync>(
    rt: &R,
    alloc: Global,
    words: &[String],
    io: &mut SureMemIo,
) -> u8
    ensures { IsValidCommand (sure io.old) (command_of (map string_bytes words.now)) (sure io.new) → IsDone result }
{
    morsel_main(rt, alloc, words, io, &OpenGate)
}

fn outside_of(rt: &impl Abort, alloc: Global, run: Run<'_>) -> SureMemIo {
    SureMemIo::new(alloc, files_of(rt, alloc, run, ROWS, QUERY))
}

/// The one sink has the text of the scanned file.
fn is_scanned(rt: &impl Abort, io: &SureMemIo) {
    assert_eq!(rt; io.memory().sinks(), 1);
    assert_eq!(rt; io.memory().text(0), SCANNED_TEXT.as_bytes());
}

/// A query of the same rows.
const QUERY: &[u8] =
    br#"{"left":{"format":"csv","files":["one.csv"],"schema":[["id","int"],["name","text"]]},"sink":{"format":"ndjson"}}"#;

/// The run is answered.
fn is_answered(rt: &impl Abort, alloc: Global, run: Run<'_>) {
    let words = words_of(rt, alloc, run.line);
    let mut io = outside_of(rt, alloc, run);
    let status = in_memory(alloc, words.as_slice(), &mut io);
    drop(words);
    assert_eq!(rt; status, 0);
    is_scanned(rt, &io);
    drop(io);
}

#[test]
fn a_valid_query_in_memory_is_answered(rt: HostRuntime) {
    is_answered(&rt, rt.alloc(), SCAN);
    is_answered(&rt, rt.alloc(), LOCAL);
}

#[test]
fn a_valid_query_in_memory_is_answered_on_threads(rt: HostRuntime) {
    let words = words_of(&rt, rt.alloc(), LOCAL.line);
    let mut io = outside_of(&rt, rt.alloc(), LOCAL);
    let status = in_memory_on_threads(&rt, rt.alloc(), words.as_slice(), &mut io);
    drop(words);
    assert_eq!(rt; status, 0);
    is_scanned(&rt, &io);
    drop(io);
}
