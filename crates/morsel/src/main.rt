//! `morsel`: a streaming query engine whose answers are proved.
//!
//! It takes the words of the command line, runs them over the files of the system, and answers `--help` and `--version`,
//! whose texts are in `help`. `progress` shows on a terminal how far a run is, and `kept_line` keeps the line that was printed,
//! so that standard error can tell what to mend.
#![tactic(auto)]

mod help;
mod kept_line;
mod progress;

use help::{HELP, VERSION};
use kept_line::KeptLine;
use morsel_meaning::Fault;
use morsel_outside::OpenGate;
use morsel_prog::{morsel_main, status_of};
use morsel_real_io::RealIo;
use morsel_reasons::reason;
use progress::ProgressLine;
use std::alloc::{AllocError, Global};
use std::fs::File;
use std::io::{ErrorKind, IsTerminal};
use std::os::fd::IntoRawFd;
use std::os::unix::fs::FileExt;
use std::process::ExitCode;
use std::rt::{Clock, Env, Files};
use std::sync::Wait;
use std::thread::Threads;
use std::{env, io};

/// How large a block the C library is to keep.
const KEPT: usize = 8 << 20;

/// Takes the descriptors of standard input, output and error where they are closed, so that no file which the program
/// opens gets one of them, and no line lands in a data file.
///
/// What takes them can't be written, so a line for a closed output fails. It is left open until the program ends.
fn take_closed_streams<R: Files>(rt: &R) -> io::Result<()>
where
    R::File: IntoRawFd,
{
    for _ in 0..3 {
        if File::open(rt, "/dev/null")?.into_raw_fd() > 2 {
            return Ok(());
        }
    }
    Ok(())
}

/// Asks for a large block of memory, and gives it back at once.
///
/// The C library gives no block back to the system that is smaller than the largest one it was given back itself, so from here on
/// it keeps what each piece of a file gives back for the next piece (`M_MMAP_THRESHOLD` in mallopt(3)).
fn keep_memory(alloc: Global) {
    let block: Result<Vec<u8>, AllocError> = Vec::with_capacity(alloc, KEPT);
    drop(block);
}

/// The words after the program's name: none where one of them is not UTF-8.
fn words_of<R: Env + AllocGlobal>(rt: &R) -> Result<Vec<String>, Fault> {
    let mut words = Vec::new(rt.alloc());
    let args = match env::args(rt) {
        Ok(args) => args,
        Err(error) if error.kind() == ErrorKind::InvalidData => return Ok(words),
        Err(_) => return Err(Fault::OutOfMemory),
    };
    for word in args.skip(1) {
        words.push(word)?;
    }
    Ok(words)
}

/// Prints a text, and answers the status. The reason of a failure goes to standard error, as that of a command's line does.
fn show<R: Print + Eprint>(rt: &R, text: &str) -> u8 {
    let Err(error) = rt.print(text) else {
        return 0;
    };
    let _ = eprintln!(rt; "standard output: {error}");
    status_of(&Fault::WriteFault)
}

/// Tells on standard error what to mend, where the line that was printed leaves that open. The files are read again, by an outside
/// of its own.
fn tell_reason<R: Files + Print + Eprint + AllocGlobal>(rt: &R, words: &[String], line: &str)
where
    R::File: FileExt,
{
    let mut io = RealIo::new(rt, rt.alloc());
    if let Some(told) = reason(rt.alloc(), &mut io, words, line) {
        let _ = rt.eprintln(told.as_str());
    }
}

/// Runs the command of the words, shows how far it is where standard error is a terminal, and tells there the reason of a
/// failure, or what to mend.
fn run_command<R: Files + Clock + Print + Eprint + AllocGlobal + Threads + Wait + Sync>(
    rt: &R,
    words: &[String],
    is_terminal: bool,
) -> u8
where
    R::File: FileExt,
{
    let kept = KeptLine::new(rt.alloc(), RealIo::new(rt, rt.alloc()));
    let mut io = ProgressLine::new(rt, kept, is_terminal);
    let status = morsel_main(rt, rt.alloc(), words, &mut io, &OpenGate);
    io.clear();
    if let Some(reason) = io.below().below().reason() {
        let _ = rt.eprintln(reason);
        return status;
    }
    if let Some(line) = io.below().line() {
        tell_reason(rt, words, line);
    }
    if status == status_of(&Fault::Usage) {
        let _ = rt.eprintln("morsel --help tells the commands");
    }
    status
}

/// Answers the words, and gives the status.
fn answer<R: Files + Clock + Print + Eprint + AllocGlobal + Threads + Wait + Sync>(
    rt: &R,
    words: &[String],
    is_terminal: bool,
) -> u8
where
    R::File: FileExt,
{
    let [word] = words else {
        return run_command(rt, words, is_terminal);
    };
    match word.as_str() {
        "--help" => show(rt, HELP),
        "--version" => show(rt, VERSION),
        _ => run_command(rt, words, is_terminal),
    }
}

fn run<R: Files + Clock + Env + Print + Eprint + AllocGlobal + Threads + Wait + Sync>(
    rt: &R,
    is_terminal: bool,
) -> u8
where
    R::File: IntoRawFd + FileExt,
{
    if let Err(error) = take_closed_streams(rt) {
        let _ = eprintln!(rt; "/dev/null: {error}");
        return status_of(&Fault::WriteFault);
    }
    keep_memory(rt.alloc());
    match words_of(rt) {
        Ok(words) => answer(rt, words.as_slice(), is_terminal),
        Err(_) => status_of(&Fault::OutOfMemory),
    }
}

fn main(rt: HostRuntime) -> ExitCode {
    ExitCode::from(run(&rt, rt.stderr().is_terminal()))
}
