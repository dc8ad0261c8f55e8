//! Each call to the outside fails in turn, and each write after each of some numbers of bytes.
use super::commands::{ROWS, SCAN, SCANNED, SCANNED_TEXT};
use super::{LOCAL, Run, after, ends, leaves, prints, query_of};
use morsel_outside::{IoEvent, MemIo};
use std::alloc::Global;
use std::mem::drop;
use std::process::Abort;

const READ_FAULT: &str = "error 2: read fault in file";

const WRITE_FAULT: &str = "error 3: write fault";

/// The number of the query file.
const QUERY_FILE: usize = 4_294_967_295;

/// Three files, each of which takes several reads.
const THREE: &[(&str, &[u8])] = &[
    ("a.csv", b"id,name\n1,ann\n2,\n"),
    ("b.csv", b"id,name\n3,\"b\nb\"\n"),
    ("c.csv", b"\xEF\xBB\xBFid,name\r\n4,dan\r\n5,eve"),
];

/// The query in `q`, which finds the three files.
pub const QUERY: Run<'static> = Run {
    files: THREE,
    ..LOCAL
};

/// What the query says of its scan of the three files.
const SCAN_OF_THREE: &str =
    r#""files":["a.csv","b.csv","c.csv"],"schema":[["id","int"],["name","text"]]"#;

const SMALL: &str = r#""chunk_bytes":4,"workers":1,"distributor_buffer":1,"linearizer_buffer":1"#;

const TEXT_OF_THREE: &str =
    "{\"id\":1,\"name\":\"ann\"}\n{\"id\":2,\"name\":null}\n{\"id\":3,\"name\":\"b\\nb\"}\n{\"id\":4,\"name\":\"dan\"}\n{\"id\":5,\"name\":\"eve\"}\n";

/// The reads of the run on each file by the file's number, in order, and how many writes there are.
pub fn calls(rt: &impl Abort, alloc: Global, io: &MemIo) -> (Vec<usize>, u64) {
    let mut reads = Vec::new(alloc);
    let mut writes = 0u64;
    for number in 0..io.memory().events() {
        match io.memory().event(number) {
            IoEvent::ReadAt { file, .. } => reads.push(file).expect(rt, "memory"),
            IoEvent::Wrote { .. } => writes = writes.saturating_add(1),
        }
    }
    (reads, writes)
}

/// The number of an opened file within the query; the query file is opened first.
fn source(opened: usize) -> usize {
    match opened {
        0 => QUERY_FILE,
        _ => opened - 1,
    }
}

/// The open or read of this number fails, which is of this opened file, and a read fault of it is told.
fn a_read_fails(rt: &impl Abort, alloc: Global, query: &[u8], call: u64, opened: usize) -> MemIo {
    let fails = Run {
        fail_reads: &[call],
        ..QUERY
    };
    let io = after(rt, alloc, fails, b"", query, 12);
    assert_eq!(rt; (io.read_faults(), io.write_faults()), (1, 0));
    assert_eq!(rt; io.failed(), opened);
    let told = format!(in alloc; "{READ_FAULT} {}", source(opened)).expect(rt, "memory");
    prints(rt, &io, Some(told.as_str()));
    drop(told);
    io
}

/// The open of this number fails, and no sink is made.
fn an_open_fails(rt: &impl Abort, alloc: Global, query: &[u8], call: u64, opened: usize) {
    let io = a_read_fails(rt, alloc, query, call, opened);
    leaves(rt, &io, None);
    drop(io);
}

/// The read of this number fails, and a front of the text is left; of a failed read of the query file, no sink.
fn a_later_read_fails(rt: &impl Abort, alloc: Global, query: &[u8], call: u64, opened: usize) {
    let io = a_read_fails(rt, alloc, query, call, opened);
    let text = match opened {
        0 => None,
        _ => Some(TEXT_OF_THREE),
    };
    leaves(rt, &io, text);
    drop(io);
}

/// The four opens fail in turn. The query file is read before the next one is opened.
fn each_open_fails(rt: &impl Abort, alloc: Global, query: &[u8]) {
    an_open_fails(rt, alloc, query, 0, 0);
    an_open_fails(rt, alloc, query, 2, 1);
    an_open_fails(rt, alloc, query, 3, 2);
    an_open_fails(rt, alloc, query, 4, 3);
}

/// The reads fail in turn, each of them of the file that is told of the whole run.
fn each_read_fails(rt: &impl Abort, alloc: Global, query: &[u8], reads: &[usize]) {
    for number in 0..reads.len() {
        // The first read comes after one open, and the others after four.
        let call = match number {
            0 => 1,
            _ => (number as u64).saturating_add(4),
        };
        a_later_read_fails(rt, alloc, query, call, reads[number]);
    }
}

/// The make, write or print of this number fails after so many bytes, and a write fault is told.
fn a_write_fails(rt: &impl Abort, alloc: Global, query: &[u8], call: u64, taken: u64) {
    let fails = Run {
        fail_writes: &[(call, taken)],
        ..QUERY
    };
    let io = after(rt, alloc, fails, b"", query, 13);
    assert_eq!(rt; (io.read_faults(), io.write_faults()), (0, 1));
    prints(rt, &io, Some(WRITE_FAULT));
    let text = match call {
        0 => None,
        _ => Some(TEXT_OF_THREE),
    };
    leaves(rt, &io, text);
    drop(io);
}

/// The same call fails, and the next one too, so that nothing is told.
fn an_untold_write_fails(rt: &impl Abort, alloc: Global, query: &[u8], call: u64) {
    let fails = Run {
        fail_writes: &[(call, 0), (call.saturating_add(1), 0)],
        ..QUERY
    };
    let io = after(rt, alloc, fails, b"", query, 13);
    assert_eq!(rt; io.write_faults(), 2);
    prints(rt, &io, None);
    drop(io);
}

/// The make, the writes and the print fail in turn, each after each number of bytes.
fn each_write_fails(rt: &impl Abort, alloc: Global, query: &[u8], writes: u64) {
    for call in 0..writes.saturating_add(2) {
        for taken in [0, 1, 5] {
            a_write_fails(rt, alloc, query, call, taken);
        }
        an_untold_write_fails(rt, alloc, query, call);
    }
}

/// The reads and writes of the run where nothing fails.
fn calls_of(rt: &impl Abort, alloc: Global, query: &[u8]) -> (Vec<usize>, u64) {
    let io = after(rt, alloc, QUERY, b"", query, 0);
    prints(rt, &io, Some("5"));
    leaves(rt, &io, Some(TEXT_OF_THREE));
    let found = calls(rt, alloc, &io);
    drop(io);
    found
}

/// The query of the three files.
pub fn query_of_three(rt: &impl Abort, alloc: Global) -> String {
    query_of(rt, alloc, SCAN_OF_THREE, SMALL)
}

#[test]
fn each_open_or_read_of_a_query_fails_in_turn(rt: HostRuntime) {
    let query = query_of_three(&rt, rt.alloc());
    let (reads, _) = calls_of(&rt, rt.alloc(), query.as_bytes());
    // Each file has more than two chunks.
    assert!(rt; reads.len() > 9);
    each_open_fails(&rt, rt.alloc(), query.as_bytes());
    each_read_fails(&rt, rt.alloc(), query.as_bytes(), reads.as_slice());
    drop(reads);
    drop(query);
}

#[test]
fn each_make_write_or_print_of_a_query_fails_in_turn(rt: HostRuntime) {
    let query = query_of_three(&rt, rt.alloc());
    let (reads, writes) = calls_of(&rt, rt.alloc(), query.as_bytes());
    drop(reads);
    assert!(rt; writes > 2);
    each_write_fails(&rt, rt.alloc(), query.as_bytes(), writes);
    drop(query);
}

/// Calls of a scan that fail, reads by their numbers and writes by their numbers and bytes taken, and then how it ends: its
/// status, its line, and a text of which it leaves a front.
type Failing = (
    &'static [u64],
    &'static [(u64, u64)],
    u8,
    Option<&'static str>,
    Option<&'static str>,
);

/// The one open of a scan fails, its one read, its make, its one write and its print; told or untold.
const SCANS: &[Failing] = &[
    (&[0], &[], 12, Some("error 2: read fault in file 0"), None),
    (&[0], &[(0, 0)], 12, None, None),
    (
        &[1],
        &[],
        12,
        Some("error 2: read fault in file 0"),
        Some(""),
    ),
    (&[1], &[(1, 0)], 12, None, Some("")),
    (&[], &[(0, 0)], 13, Some(WRITE_FAULT), None),
    (&[], &[(0, 0), (1, 0)], 13, None, None),
    (&[], &[(1, 0)], 13, Some(WRITE_FAULT), Some("")),
    (&[], &[(1, 5)], 13, Some(WRITE_FAULT), Some("{\"id\"")),
    (&[], &[(1, 5), (2, 0)], 13, None, Some("{\"id\"")),
    (&[], &[(2, 0)], 13, Some(WRITE_FAULT), Some(SCANNED_TEXT)),
    (&[], &[(2, 0), (3, 0)], 13, None, Some(SCANNED_TEXT)),
];

/// The scan ends so.
fn a_scan_fails(
    rt: &impl Abort,
    alloc: Global,
    run: Run<'_>,
    file: &[u8],
    status: u8,
    told: Option<&str>,
    text: Option<&str>,
) {
    let io = after(rt, alloc, run, file, b"", status);
    prints(rt, &io, told);
    leaves(rt, &io, text);
    drop(io);
}

#[test]
fn each_call_of_a_scan_fails_in_turn(rt: HostRuntime) {
    for (fail_reads, fail_writes, status, told, text) in SCANS {
        let run = Run {
            fail_reads,
            fail_writes,
            ..SCAN
        };
        a_scan_fails(&rt, rt.alloc(), run, ROWS, *status, *told, *text);
    }
    // There is no further read, and no further write.
    let run = Run {
        fail_reads: &[2, 3],
        fail_writes: &[(3, 0), (4, 0)],
        ..SCAN
    };
    ends(&rt, rt.alloc(), run, ROWS, b"", SCANNED);
}

/// The line of a malformed file cannot be printed.
#[test]
fn a_refusal_that_cannot_be_told_is_the_status(rt: HostRuntime) {
    let run = Run {
        fail_writes: &[(1, 0)],
        ..SCAN
    };
    let file = b"id,name\n1,\"ann";
    a_scan_fails(&rt, rt.alloc(), run, file, 15, None, Some(""));
}
