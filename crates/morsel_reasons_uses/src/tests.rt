//! Words, files and a printed line, and the reason that is told of them, byte for byte.
//!
//! A helper says `expect` where memory may be out, and gives what it makes to `drop`: a value that is let go at several
//! exits has each of them proved.
mod headers;
mod records;
mod words;

use morsel_meaning::Name;
use morsel_outside::MemIo;
use morsel_reasons::reason;
use std::alloc::Global;
use std::mem::drop;
use std::process::Abort;

/// A command after which a line was printed, and what is told of it.
#[derive(Clone, Copy)]
struct Case<'a> {
    /// The words of the command, with one space between them.
    words: &'a str,
    /// The names of the files, and their bytes.
    files: &'a [(&'a str, &'a [u8])],
    /// The line that was printed.
    line: &'a str,
    /// The reason, or nothing.
    told: &'a str,
}

fn words_of(rt: &impl Abort, alloc: Global, line: &str) -> Vec<String> {
    let mut words = Vec::new(alloc);
    for word in line.split(' ') {
        let word = String::from_str(alloc, word).expect(rt, "memory");
        words.push(word).expect(rt, "memory");
    }
    words
}

fn file_of(rt: &impl Abort, alloc: Global, name: &str, bytes: &[u8]) -> (Name, Vec<u8>) {
    let bytes = Vec::from_slice(alloc, bytes).expect(rt, "memory");
    (Name::new(alloc, name).expect(rt, "memory"), bytes)
}

fn outside_of(rt: &impl Abort, alloc: Global, case: Case<'_>) -> MemIo {
    let mut files = Vec::new(alloc);
    for (name, bytes) in case.files {
        let file = file_of(rt, alloc, name, bytes);
        files.push(file).expect(rt, "memory");
    }
    MemIo::new(alloc, files, Vec::new(alloc), Vec::new(alloc))
}

/// The reason of a case is the one that it names.
fn holds(rt: &impl Abort, alloc: Global, case: Case<'_>) {
    let words = words_of(rt, alloc, case.words);
    let mut io = outside_of(rt, alloc, case);
    let told = reason(alloc, &mut io, words.as_slice(), case.line);
    drop(io);
    drop(words);
    is_told(rt, case, told);
}

/// This is the reason of a case.
fn is_told(rt: &impl Abort, case: Case<'_>, told: Option<String>) {
    match told {
        Some(told) => {
            assert_eq!(rt; told.as_str(), case.told, "{} {}", case.words, case.line);
            drop(told);
        }
        None => {
            assert_eq!(rt; "", case.told, "{} {}", case.words, case.line);
        }
    }
}

/// The reason of each case is the one that it names.
fn all_hold(rt: &impl Abort, alloc: Global, cases: &[Case<'_>]) {
    for case in cases {
        holds(rt, alloc, *case);
    }
}
