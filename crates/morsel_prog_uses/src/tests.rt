//! The main calls over files in memory, against rows that were worked out by hand.
//!
//! A helper says `expect` where memory may be out, and gives what it makes to `drop`: a value that is let go at several
//! exits has each of them proved.
mod commands;
mod dialects;
mod faults;
mod gates;
mod group_faults;
mod group_lanes;
mod groups;
mod hostile;
mod join_faults;
mod join_lanes;
mod joined_groups;
mod joins;
mod query_files;
mod reads;
mod refusals;
mod rows;
mod runs;
mod sure;
mod sweeps;

use morsel_meaning::Name;
use morsel_outside::{Io, MemIo};
use morsel_prog::local_main;
use std::alloc::Global;
use std::mem::drop;
use std::process::Abort;

/// A command, the calls to the outside that fail, and the files that it finds beside two others.
///
/// The two are `one.csv` and `q`. They are handed on by themselves, since their bytes may have been made.
#[derive(Clone, Copy)]
struct Run<'a> {
    /// The words of the command, with one space between them.
    line: &'a str,
    /// The names of the files, and their bytes.
    files: &'a [(&'a str, &'a [u8])],
    /// The numbers of the opens and reads that fail.
    fail_reads: &'a [u64],
    /// The numbers of the makes, writes and prints that fail, each with how many bytes a write takes then.
    fail_writes: &'a [(u64, u64)],
}

/// The query in `q`, into the sink `o`.
const LOCAL: Run<'static> = Run {
    line: "local q o",
    files: &[],
    fail_reads: &[],
    fail_writes: &[],
};

/// How a run ends.
#[derive(Clone, Copy)]
struct End<'a> {
    status: u8,
    /// The line that is printed.
    told: &'a str,
    /// The text of the rows, of which a fault may leave a front; none where no sink is made.
    text: Option<&'a str>,
}

fn words_of(rt: &impl Abort, alloc: Global, line: &str) -> Vec<String> {
    let mut words = Vec::new(alloc);
    for word in line.split(' ') {
        let word = String::from_str(alloc, word).expect(rt, "memory");
        words.push(word).expect(rt, "memory");
    }
    words
}

fn file_of(rt: &impl Abort, alloc: Global, name: &str, bytes: &[u8]) -> (Name, Vec<u8>) {
    let bytes = Vec::from_slice(alloc, bytes).expect(rt, "memory");
    (Name::new(alloc, name).expect(rt, "memory"), bytes)
}

/// Puts a file last.
fn push_file(
    rt: &impl Abort,
    alloc: Global,
    files: &mut Vec<(Name, Vec<u8>)>,
    name: &str,
    bytes: &[u8],
) {
    let file = file_of(rt, alloc, name, bytes);
    files.push(file).expect(rt, "memory");
}

/// The files of a run.
fn files_of(
    rt: &impl Abort,
    alloc: Global,
    run: Run<'_>,
    one: &[u8],
    query: &[u8],
) -> Vec<(Name, Vec<u8>)> {
    let mut files = Vec::new(alloc);
    push_file(rt, alloc, &mut files, "one.csv", one);
    push_file(rt, alloc, &mut files, "q", query);
    for (name, bytes) in run.files {
        push_file(rt, alloc, &mut files, name, bytes);
    }
    files
}

fn outside_of(rt: &impl Abort, alloc: Global, run: Run<'_>, one: &[u8], query: &[u8]) -> MemIo {
    let files = files_of(rt, alloc, run, one, query);
    let fail_reads = Vec::from_slice(alloc, run.fail_reads).expect(rt, "memory");
    let fail_writes = Vec::from_slice(alloc, run.fail_writes).expect(rt, "memory");
    MemIo::new(alloc, files, fail_reads, fail_writes)
}

/// The status with which the words end.
fn status_after<H: Io>(rt: &impl Abort, alloc: Global, line: &str, io: &mut H) -> u8 {
    let words = words_of(rt, alloc, line);
    let status = local_main(alloc, words.as_slice(), io);
    drop(words);
    status
}

/// The outside after a run that ends with this status.
fn after(
    rt: &impl Abort,
    alloc: Global,
    run: Run<'_>,
    one: &[u8],
    query: &[u8],
    status: u8,
) -> MemIo {
    let mut io = outside_of(rt, alloc, run, one, query);
    let found = status_after(rt, alloc, run.line, &mut io);
    assert_eq!(rt; found, status, "{}", run.line);
    if is_of_query(run, status) {
        sweeps::ends_so_again(rt, alloc, run, one, query, status, &io);
    }
    io
}

/// Whether the query in `q` is one, and no call fails.
fn is_of_query(run: Run<'_>, status: u8) -> bool {
    run.line == LOCAL.line
        && run.fail_reads.is_empty()
        && run.fail_writes.is_empty()
        && status != NO_QUERY
}

/// The status of a query file that is no query.
const NO_QUERY: u8 = 21;

/// This line was printed and no other; or none.
fn prints(rt: &impl Abort, io: &MemIo, told: Option<&str>) {
    let Some(line) = told else {
        assert_eq!(rt; io.memory().lines(), 0);
        return;
    };
    assert_eq!(rt; io.memory().lines(), 1);
    assert_eq!(rt; io.memory().line(0), line);
}

/// The text that was written into the one sink, `o`.
fn text_in<'a>(rt: &impl Abort, io: &'a MemIo) -> &'a [u8] {
    assert_eq!(rt; io.memory().sinks(), 1);
    assert_eq!(rt; io.memory().sink_name(0), "o");
    io.memory().text(0)
}

/// A sink of the whole text was made.
fn makes(rt: &impl Abort, io: &MemIo, text: &str) {
    assert_eq!(rt; text_in(rt, io), text.as_bytes());
}

/// No sink was made; or one with a front of the text.
fn leaves(rt: &impl Abort, io: &MemIo, text: Option<&str>) {
    let Some(text) = text else {
        assert_eq!(rt; io.memory().sinks(), 0);
        return;
    };
    let made = text_in(rt, io);
    assert!(rt; text.as_bytes().starts_with(made), "{text}");
}

/// What stands in the sink after a run.
fn has_text(rt: &impl Abort, io: &MemIo, end: End<'_>) {
    match end {
        End {
            status: 0,
            text: Some(text),
            ..
        } => makes(rt, io, text),
        _ => leaves(rt, io, end.text),
    }
}

/// The run ends so.
fn ends(rt: &impl Abort, alloc: Global, run: Run<'_>, one: &[u8], query: &[u8], end: End<'_>) {
    let io = after(rt, alloc, run, one, query, end.status);
    prints(rt, &io, Some(end.told));
    has_text(rt, &io, end);
    drop(io);
}

/// The text of a query of CSV files into NDJSON, which says this of its scan and this of its options.
fn query_of(rt: &impl Abort, alloc: Global, scan: &str, options: &str) -> String {
    format!(in alloc;
        "{{\"left\":{{\"format\":\"csv\",{scan}}},\"sink\":{{\"format\":\"ndjson\"}},\"options\":{{{options}}}}}"
    ).expect(rt, "memory")
}

/// A query, the files that it finds, and how it ends.
#[derive(Clone, Copy)]
struct Case<'a> {
    /// The names of the files, and their bytes.
    files: &'a [(&'a str, &'a [u8])],
    /// What the query says of its scan.
    scan: &'a str,
    /// What the query says of its options.
    options: &'a str,
    /// How it ends.
    end: End<'a>,
}

/// The case holds.
fn holds(rt: &impl Abort, alloc: Global, case: Case<'static>) {
    let query = query_of(rt, alloc, case.scan, case.options);
    let run = Run {
        files: case.files,
        ..LOCAL
    };
    ends(rt, alloc, run, b"", query.as_bytes(), case.end);
    drop(query);
}

/// Each case of a table holds.
fn all_hold(rt: &impl Abort, alloc: Global, table: &[Case<'static>]) {
    for case in table {
        holds(rt, alloc, *case);
    }
}
