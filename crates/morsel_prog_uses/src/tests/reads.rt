//! How far a query reads, and when.
use super::{LOCAL, Run, after, prints, query_of};
use morsel_outside::{Io, IoEvent, MemIo};
use std::alloc::Global;
use std::mem::drop;
use std::process::Abort;

/// The outside after a query over the files that ends with these rows.
fn after_query(
    rt: &impl Abort,
    alloc: Global,
    files: &'static [(&'static str, &'static [u8])],
    scan: &str,
    options: &str,
    told: &str,
) -> MemIo {
    let query = query_of(rt, alloc, scan, options);
    let io = after(rt, alloc, Run { files, ..LOCAL }, b"", query.as_bytes(), 0);
    drop(query);
    prints(rt, &io, Some(told));
    io
}

/// Each read of the first source begins before this place, and the second is not read.
fn reads_only_before(rt: &impl Abort, io: &MemIo, end: u64) {
    for number in 0..io.memory().events() {
        // The query file was opened first, so it has the number 0.
        if let IoEvent::ReadAt { file, at, .. } = io.memory().event(number) {
            assert!(rt; file == 0 || file == 1 && at < end, "file {file}, at {at}");
        }
    }
}

const NINE: &[(&str, &[u8])] = &[
    ("a.csv", b"k\n1\n2\n3\n4\n5\n6\n7\n8\n9\n"),
    ("b.csv", b"k\n10\n"),
];

/// The second and third row end at 8, and no read begins behind that.
#[test]
fn nothing_is_read_behind_the_end_of_a_slice(rt: HostRuntime) {
    let scan = r#""files":["a.csv","b.csv"],"schema":[["k","int"]],"slice":[1,2]"#;
    let options = r#""chunk_bytes":3"#;
    let io = after_query(&rt, rt.alloc(), NINE, scan, options, "2");
    reads_only_before(&rt, &io, 8);
    drop(io);
}

/// A slice that ends with the first file leaves the second unread.
#[test]
fn a_file_behind_the_end_of_a_slice_is_not_read(rt: HostRuntime) {
    let scan = r#""files":["a.csv","b.csv"],"schema":[["k","int"]],"slice":[0,9]"#;
    let io = after_query(&rt, rt.alloc(), NINE, scan, "", "9");
    reads_only_before(&rt, &io, 20);
    drop(io);
}

/// Two rows, and then nothing that is one.
const BROKEN: &[(&str, &[u8])] = &[("a.csv", b"k\n1\n2\n\"x\"y\n"), ("b.csv", b"\xFF")];

/// What is wrong behind the end of a slice is not seen where it is not read.
#[test]
fn a_fault_behind_the_end_of_a_slice_is_not_seen(rt: HostRuntime) {
    let scan = r#""files":["a.csv","b.csv"],"schema":[["k","int"]],"slice":[0,2]"#;
    let options = r#""chunk_bytes":3"#;
    let io = after_query(&rt, rt.alloc(), BROKEN, scan, options, "2");
    reads_only_before(&rt, &io, 6);
    drop(io);
}

/// A query that reads few bytes at a time.
const BY_CHUNKS: &[u8] =
    br#"{"left":{"format":"csv","files":["one.csv"],"schema":[["k","int"]],"csv":{"has_header":false}},"sink":{"format":"ndjson"},"options":{"chunk_bytes":16,"workers":1,"distributor_buffer":1,"linearizer_buffer":1}}"#;

/// So many rows of two bytes each.
fn digits(rt: &impl Abort, alloc: Global, rows: usize) -> String {
    let mut text = String::new(alloc);
    for _ in 0..rows {
        text.push_str("7\n").expect(rt, "memory");
    }
    text
}

/// The bytes of the text of each of these rows.
const LINE: u64 = "{\"k\":7}\n".len() as u64;

/// The most bytes that a read asks.
const CHUNK: u64 = 16;

/// How many bytes of rows may have been asked behind a row that is not written: the rows of 22 chunks, and of each a row more.
const AHEAD: u64 = 22 * (CHUNK + 2);

/// Each read asks few bytes, none twice, and comes after the rows were written that are far behind it.
fn reads_and_writes_by_turns(rt: &impl Abort, io: &MemIo) -> u64 {
    let (mut asked, mut written) = (0u64, 0u64);
    for number in 0..io.memory().events() {
        match io.memory().event(number) {
            IoEvent::ReadAt { file: 0, .. } => {}
            IoEvent::ReadAt { at, len, .. } => {
                assert!(rt; len as u64 <= CHUNK);
                assert_eq!(rt; at, asked);
                let due = (asked.saturating_sub(AHEAD) / 2).saturating_mul(LINE);
                assert!(rt; written >= due, "at {at}");
                asked = at.saturating_add(len as u64);
            }
            IoEvent::Wrote { len } => written = written.saturating_add(len as u64),
        }
    }
    asked
}

#[test]
fn rows_are_written_before_later_chunks_are_read(rt: HostRuntime) {
    let rows = digits(&rt, rt.alloc(), 1000);
    let io = after(&rt, rt.alloc(), LOCAL, rows.as_bytes(), BY_CHUNKS, 0);
    prints(&rt, &io, Some("1000"));
    assert_eq!(rt; reads_and_writes_by_turns(&rt, &io), 2000);
    drop(io);
    drop(rows);
}
