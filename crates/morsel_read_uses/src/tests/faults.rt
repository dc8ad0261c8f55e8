//! Reads that fail, files that are compressed, and what a reader answers after a fault.
use super::makers::{NOTHING, Scan, reader_of, spec_of};
use super::pieces::answers;
use super::reading::{fails, keeps, refuses};
use morsel_meaning::ColType;
use std::mem::drop;

/// Two files, each of which takes two reads.
const TWO: Scan<'static> = Scan {
    files: &[("a.csv", b"id\n1\n2\n"), ("b.csv", b"id\n3\n")],
    columns: &[("id", ColType::Int)],
    chunk: 4,
    ..NOTHING
};

/// The reads of the two files, numbered after the two opens, and the faults where they fail.
const FAILING: &[(&[u64], &str)] = &[
    (&[2], "read fault in file 7"),
    (&[3], "read fault in file 7"),
    (&[4], "read fault in file 8"),
    (&[5], "read fault in file 8"),
];

#[test]
fn each_read_that_fails_is_a_fault_of_its_file(rt: HostRuntime) {
    for (fail_reads, fault) in FAILING {
        let scan = Scan { fail_reads, ..TWO };
        fails(&rt, rt.alloc(), scan, fault);
    }
    let scan = Scan {
        fail_reads: &[6],
        ..TWO
    };
    let lines = "{\"id\":1}\n{\"id\":2}\n{\"id\":3}\n";
    keeps(&rt, rt.alloc(), scan, None, lines);
}

/// The second read fails.
const FAILS: Scan<'static> = Scan {
    fail_reads: &[3],
    ..TWO
};

#[test]
fn a_fault_is_answered_again_without_a_read(rt: HostRuntime) {
    let spec = spec_of(&rt, rt.alloc(), FAILS, None);
    let (mut io, mut reader) = reader_of(&rt, rt.alloc(), FAILS, &spec);
    let fault = "read fault in file 7";
    answers(&rt, rt.alloc(), &mut io, &mut reader, fault);
    assert_eq!(rt; io.memory().events(), 2);
    answers(&rt, rt.alloc(), &mut io, &mut reader, fault);
    assert_eq!(rt; io.memory().events(), 2);
    drop(reader);
    drop(io);
    drop(spec);
}

/// A file, and then one that gzip wrote.
const GZIP: Scan<'static> = Scan {
    files: &[("a.csv", b"id\n1\n"), ("b.csv", b"\x1f\x8b\x08\n\n")],
    ..TWO
};

/// A file that zstd wrote.
const ZSTD: Scan<'static> = Scan {
    files: &[("a.csv", b"\x28\xb5\x2f\xfd\n")],
    ..TWO
};

/// Two files, and a quote that is left open in the first.
const OPEN: Scan<'static> = Scan {
    files: &[("a.csv", b"id\n1\n\"2\n"), ("b.csv", b"id\n\"\n")],
    ..TWO
};

#[test]
fn a_file_that_is_none_is_refused_at_its_place(rt: HostRuntime) {
    refuses(&rt, rt.alloc(), OPEN, "malformed file 7 at 5");
    refuses(&rt, rt.alloc(), GZIP, "unsupported code 31 in file 8");
    refuses(&rt, rt.alloc(), ZSTD, "unsupported code 40 in file 7");
}
