//! The two main calls, from the words to the status.
ghost use Rattle.std.specs.Prelude.{◌≡◌, ◌<◌, map};
ghost use Rattle.std.specs.String.{string_bytes};
ghost use Rattle.morsel_engine.specs.Runs.{Runs};
ghost use Rattle.morsel_prog.specs.Words.{command_of};
ghost use Rattle.morsel_prog.specs.Results.{command_of_words};
ghost use Rattle.morsel_prog.specs.CommandRuns.{RunsCommand, RunsWords};
ghost use Rattle.morsel_prog.specs.Program.{RunsAndReports, QueryTheorem};

use crate::commands::query_of_command;
use crate::report::report;
use crate::words::{CommandWords, command};
use morsel_engine::run_local;
use morsel_local::Steps;
use morsel_meaning::Fault;
use morsel_outside::{Gate, Io, OpenGate};
use morsel_query::{Options, Query};
use std::alloc::Global;
use std::marker::Brand;
use std::sync::Wait;
use std::sync::ledger::{Blank, Ledger};
use std::thread::Threads;

/// Runs the command of the words.
fn run_words<H: Io>(alloc: Global, words: &[String], io: &mut H) -> Result<u64, Fault>
    ensures { RunsWords (H.seen io.old) (command_of (map string_bytes words.now)) result (H.seen io.new) }
{
    match command(alloc, words) {
        Ok(command) => run_command(alloc, command, io),
        Err(fault) => Err(fault),
    }
}

/// Runs the query of a command.
fn run_command<H: Io>(alloc: Global, command: CommandWords<'_>, io: &mut H) -> Result<u64, Fault>
    ensures { RunsCommand (H.seen io.old) (command_of_words command.entry) result (H.seen io.new) }
{
    let (query, options) = query_of_command(alloc, io, command)?;
    run_counted::<H, Brand>(alloc, io, query, &options, Blank::new(1))
}

/// Runs a query, with a count of its sweeps that nobody asks for.
fn run_counted<H: Io, Y: Ledger>(
    alloc: Global,
    io: &mut H,
    query: Query,
    options: &Options,
    blank: Blank,
) -> Result<u64, Fault>
    requires name { blank.name ≡ Y.name }
    requires parts { blank.parts ≡ Y.parts }
    requires some { 0 < blank.parts }
    ensures { Runs (H.seen io.old) query options.now result (H.seen io.new) }
{
    let mut steps = Steps::<Y>::new(blank);
    run_local(alloc, io, query, options, &OpenGate, &mut steps)
}

/// Runs the command of the words and tells its answer.
fn run_and_report<H: Io>(alloc: Global, words: &[String], io: &mut H) -> u8
    ensures { RunsAndReports (H.seen io.old) (command_of (map string_bytes words.now)) result (H.seen io.new) }
{
    let answer = run_words(alloc, words, io);
    report(alloc, io, answer)
}

/// Runs the command of the words, prints at most one line, and answers the status: 0 after the number of rows, or that of
/// a fault after `error N: ` and its text, which is 10 + N.
///
/// It waits for nothing and starts no thread, so it always returns.
pub fn local_main<H: Io>(alloc: Global, words: &[String], io: &mut H) -> u8
    ensures { QueryTheorem (H.seen io.old) (command_of (map string_bytes words.now)) result (H.seen io.new) }
{
    run_and_report(alloc, words, io)
}

/// Answers as `local_main` does. Commands to come run on threads of `rt`, and tell the gate of each poll.
pub fn morsel_main<R: Threads + Wait + Sync, H: Io, G: Gate + Sync>(
    rt: &R,
    alloc: Global,
    words: &[String],
    io: &mut H,
    gate: &G,
) -> u8
    ensures { QueryTheorem (H.seen io.old) (command_of (map string_bytes words.now)) result (H.seen io.new) }
{
    // The commands of today need neither.
    let _ = rt;
    let _ = gate;
    local_main(alloc, words, io)
}
