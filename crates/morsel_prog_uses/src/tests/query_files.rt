//! The query file: which bytes are a query, and what comes of a file that cannot be read.
use super::{End, LOCAL, Run, after, ends, prints, query_of};
use morsel_outside::Io;
use std::alloc::Global;
use std::mem::drop;
use std::process::Abort;

/// Bytes that are no query.
const NO_QUERIES: &[&[u8]] = &[
    b"",
    b" ",
    b"{",
    b"null",
    b"[]",
    b"{}",
    b"\"left\"",
    b"\xFF",
    b"\xEF\xBB\xBF{}",
    br#"{"left":1.5}"#,
    br#"{"left":{},"sink":{}}"#,
    br#"{"left":{"format":"csv","files":["a.csv"],"schema":[["id","int"]]}}"#,
    br#"{"left":{"format":"csv","files":["a.csv"],"schema":[["id","int"]]},"sink":{"format":"ndjson"}"#,
    br#"{"left":{"format":"csv","files":["a.csv"],"schema":[["id","int"]]},"sink":{"format":"ndjson"}} 1"#,
    br#"{"left":{"format":"csv","files":["a.csv"],"schema":[["id","int"]]},"sink":{"format":"ndjson"},"right":1}"#,
    br#"{"left":{"format":"csv","files":["a.csv"],"schema":[["id","int"]],"row":1},"sink":{"format":"ndjson"}}"#,
    br#"{"left":{"format":"csv","files":["a.csv"],"schema":[["id","int"]],"csv":{"seperator":";"}},"sink":{"format":"ndjson"}}"#,
    br#"{"left":{"format":"csv","files":["a.csv"],"schema":[["id","int"]]},"sink":{"format":"ndjson"},"options":{"threads":1}}"#,
    br#"{"left":{"format":"csv","files":["a.csv"],"schema":[["id","float"]]},"sink":{"format":"ndjson"}}"#,
    br#"{"left":{"format":"csv","files":["a.csv"],"schema":[["id","int"]],"slice":[0.5,1]},"sink":{"format":"ndjson"}}"#,
    br#"{"left":{"format":"csv","files":["a.csv"],"schema":[["id","int"]],"slice":[0,-1]},"sink":{"format":"ndjson"}}"#,
    br#"{"left":{"format":"csv","files":["a.csv"],"schema":[["id","int"]],"row_index":["i",4294967296]},"sink":{"format":"ndjson"}}"#,
    br#"{"left":{"format":"csv","files":["a.csv"],"schema":[["id","int"]],"filter":["like","id","1"]},"sink":{"format":"ndjson"}}"#,
    br#"{"left":{"format":"csv","files":["a.csv"],"schema":[["id","int"]]},"sink":{"format":"ndjson"},"options":{"workers":-1}}"#,
    br#"{"left":{"format":"csv","files":["a.csv"],"schema":[["id","int"]]},"sink":{"format":"ndjson"},"options":{"workers":18446744073709551616}}"#,
    b"{\"left\":{\"format\":\"csv\",\"files\":[\"a\xFF.csv\"],\"schema\":[[\"id\",\"int\"]]},\"sink\":{\"format\":\"ndjson\"}}",
];

/// How a query file ends that is no query.
const NO_QUERY: End<'static> = End {
    status: 21,
    told: "error 11: query text",
    text: None,
};

#[test]
fn bytes_that_are_no_query_are_refused(rt: HostRuntime) {
    for query in NO_QUERIES {
        ends(&rt, rt.alloc(), LOCAL, b"", query, NO_QUERY);
    }
}

/// Nothing but the query file is opened for a text that is no query.
#[test]
fn no_file_of_a_refused_query_is_opened(rt: HostRuntime) {
    let io = after(&rt, rt.alloc(), LOCAL, b"", b"", 21);
    assert_eq!(rt; io.memory().names(), 1);
    prints(&rt, &io, Some(NO_QUERY.told));
    drop(io);
}

/// A query of one file of one number.
const ONE: &str =
    r#"{"left":{"format":"csv","files":["one.csv"],"schema":[["id","int"]]},"sink":{"format":"ndjson"}}"#;

const FILE: &[u8] = b"id\n1\n";

/// How it ends.
const ONE_ROW: End<'static> = End {
    status: 0,
    told: "1",
    text: Some("{\"id\":1}\n"),
};

/// The query after as many blanks as make it so long.
fn padded(rt: &impl Abort, alloc: Global, len: usize) -> Vec<u8> {
    let mut text = vec![in alloc; b' '; len.saturating_sub(ONE.len())].expect(rt, "memory");
    for byte in ONE.as_bytes() {
        text.push(*byte).expect(rt, "memory");
    }
    text
}

/// The query of this length ends so.
fn padded_ends(rt: &impl Abort, alloc: Global, len: usize, end: End<'_>) {
    let query = padded(rt, alloc, len);
    assert_eq!(rt; query.len(), len);
    ends(rt, alloc, LOCAL, FILE, query.as_slice(), end);
    drop(query);
}

#[test]
fn a_query_has_at_most_1048576_bytes(rt: HostRuntime) {
    padded_ends(&rt, rt.alloc(), 1_048_576, ONE_ROW);
    padded_ends(&rt, rt.alloc(), 1_048_577, NO_QUERY);
}

/// This many times the opening, then the middle, and as many times the closing.
fn nested(
    rt: &impl Abort,
    alloc: Global,
    opening: &str,
    middle: &str,
    closing: &str,
    times: usize,
) -> String {
    let mut text = String::new(alloc);
    for _ in 0..times {
        text.push_str(opening).expect(rt, "memory");
    }
    text.push_str(middle).expect(rt, "memory");
    for _ in 0..times {
        text.push_str(closing).expect(rt, "memory");
    }
    text
}

/// The rows that a filter keeps, with this many negations before it.
fn negated_ends(rt: &impl Abort, alloc: Global, times: usize, end: End<'_>) {
    let filter = nested(rt, alloc, "[\"not\",", "[\"null\",\"id\"]", "]", times);
    let scan = format!(in alloc;
        "\"files\":[\"one.csv\"],\"schema\":[[\"id\",\"int\"]],\"filter\":{filter}"
    ).expect(rt, "memory");
    drop(filter);
    let query = query_of(rt, alloc, scan.as_str(), "");
    drop(scan);
    ends(rt, alloc, LOCAL, FILE, query.as_bytes(), end);
    drop(query);
}

/// A text nests at most 127 levels, of which the query and its scan are two.
#[test]
fn a_query_that_nests_too_deep_is_refused(rt: HostRuntime) {
    negated_ends(&rt, rt.alloc(), 101, ONE_ROW);
    negated_ends(&rt, rt.alloc(), 124, NO_ROW);
    negated_ends(&rt, rt.alloc(), 125, NO_QUERY);
    negated_ends(&rt, rt.alloc(), 5000, NO_QUERY);
}

const NO_ROW: End<'static> = End {
    status: 0,
    told: "0",
    text: Some(""),
};

#[test]
fn an_unclosed_nest_is_refused(rt: HostRuntime) {
    let query = nested(&rt, rt.alloc(), "[", "", "", 100_000);
    ends(&rt, rt.alloc(), LOCAL, b"", query.as_bytes(), NO_QUERY);
    drop(query);
}

#[test]
fn an_absent_query_file_is_a_read_fault_of_its_own_number(rt: HostRuntime) {
    let run = Run {
        line: "local nothing o",
        ..LOCAL
    };
    let end = End {
        status: 12,
        told: "error 2: read fault in file 4294967295",
        text: None,
    };
    ends(&rt, rt.alloc(), run, b"", b"", end);
}

#[test]
fn an_absent_source_is_a_read_fault_of_its_place_in_the_query(rt: HostRuntime) {
    let query =
        r#"{"left":{"format":"csv","files":["one.csv","two.csv"],"schema":[["id","int"]]},"sink":{"format":"ndjson"}}"#;
    let end = End {
        status: 12,
        told: "error 2: read fault in file 1",
        text: None,
    };
    ends(&rt, rt.alloc(), LOCAL, FILE, query.as_bytes(), end);
}
