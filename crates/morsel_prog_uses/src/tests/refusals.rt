//! Queries that are refused before a file is opened, and the line of each refusal.
use super::{LOCAL, after, prints, query_of};
use morsel_outside::Io;
use std::alloc::Global;
use std::mem::drop;
use std::process::Abort;

/// What a query says of its scan and of its options, and the status and line with which it is refused.
type Refusal = (&'static str, &'static str, u8, &'static str);

/// The scan of `a.csv` that is refused for its options alone.
const PLAIN: &str = r#""files":["a.csv"],"schema":[["id","int"],["name","text"]]"#;

/// Flaws of the query itself.
const FLAWS: &[Refusal] = &[
    (
        PLAIN,
        r#""workers":0"#,
        14,
        "error 4: invalid query: option range",
    ),
    (
        PLAIN,
        r#""workers":32769"#,
        14,
        "error 4: invalid query: option range",
    ),
    (
        PLAIN,
        r#""chunk_bytes":0"#,
        14,
        "error 4: invalid query: option range",
    ),
    (
        PLAIN,
        r#""chunk_bytes":4294967296"#,
        14,
        "error 4: invalid query: option range",
    ),
    (
        PLAIN,
        r#""linearizer_buffer":65537"#,
        14,
        "error 4: invalid query: option range",
    ),
    (
        r#""files":[],"schema":[["id","int"]]"#,
        "",
        14,
        "error 4: invalid query: no source",
    ),
    (
        r#""files":["a.csv"],"schema":[]"#,
        "",
        14,
        "error 4: invalid query: no column",
    ),
    (
        r#""files":["a.csv"],"schema":[["id","int"]],"csv":{"separator":"\""}"#,
        "",
        14,
        "error 4: invalid query: parse bytes",
    ),
    (
        r#""files":["a.csv"],"schema":[["id","int"]],"csv":{"separator":"||"}"#,
        "",
        14,
        "error 4: invalid query: parse bytes",
    ),
    (
        r#""files":["a.csv"],"schema":[["id","int"]],"csv":{"separator":"\u00a7"}"#,
        "",
        14,
        "error 4: invalid query: parse bytes",
    ),
    (
        r#""files":["a.csv"],"schema":[["id","int"]],"csv":{"comment":""}"#,
        "",
        14,
        "error 4: invalid query: parse bytes",
    ),
    (
        r#""files":["a.csv","o"],"schema":[["id","int"]]"#,
        "",
        14,
        "error 4: invalid query: sink is source",
    ),
];

/// Names that stand twice.
const REPEATED: &[Refusal] = &[
    (
        r#""files":["a.csv"],"schema":[["id","int"],["id","text"]]"#,
        "",
        19,
        "error 9: duplicate column: id",
    ),
    (
        r#""files":["a.csv"],"schema":[["id","int"]],"columns":["id","id"]"#,
        "",
        19,
        "error 9: duplicate column: id",
    ),
    (
        r#""files":["a.csv"],"schema":[["id","int"]],"row_index":["id",0]"#,
        "",
        19,
        "error 9: duplicate column: id",
    ),
    (
        r#""files":["a.csv"],"schema":[["id","int"]],"row_index":["p",0],"path":"p""#,
        "",
        19,
        "error 9: duplicate column: p",
    ),
    // A flaw of the query comes before a name that stands twice.
    (
        r#""files":[],"schema":[["id","int"],["id","text"]]"#,
        "",
        14,
        "error 4: invalid query: no source",
    ),
];

/// Names that no column has, and tests that do not fit their column.
const MISFITS: &[Refusal] = &[
    (
        r#""files":["a.csv"],"schema":[["id","int"]],"columns":["name"]"#,
        "",
        17,
        "error 7: column not found: name",
    ),
    (
        r#""files":["a.csv"],"schema":[["id","int"]],"filter":["null","na\"me"]"#,
        "",
        17,
        "error 7: column not found: na\"me",
    ),
    (
        r#""files":["a.csv"],"schema":[["id","int"],["name","text"]],"filter":["lt","name",{"lit":3}]"#,
        "",
        18,
        "error 8: schema mismatch: name",
    ),
    (
        r#""files":["a.csv"],"schema":[["id","int"],["name","text"]],"filter":["eq","id",{"col":"name"}]"#,
        "",
        18,
        "error 8: schema mismatch: id",
    ),
    (
        r#""files":["a.csv"],"schema":[["id","int"]],"filter":["is","id"]"#,
        "",
        18,
        "error 8: schema mismatch: id",
    ),
    (
        r#""files":["a.csv"],"schema":[["id","int"]],"slice":[-9223372036854775808,1]"#,
        "",
        20,
        "error 10: negative slice",
    ),
];

/// Each query of the table is refused before its file, which is not there, is opened.
fn all_are_refused(rt: &impl Abort, alloc: Global, table: &[Refusal]) {
    for (scan, options, status, told) in table {
        is_refused(rt, alloc, scan, options, *status, told);
    }
}

fn is_refused(rt: &impl Abort, alloc: Global, scan: &str, options: &str, status: u8, told: &str) {
    let query = query_of(rt, alloc, scan, options);
    touches_nothing(rt, alloc, query.as_bytes(), status, told);
    drop(query);
}

/// The query is refused, and nothing but its file was asked for.
fn touches_nothing(rt: &impl Abort, alloc: Global, query: &[u8], status: u8, told: &str) {
    let io = after(rt, alloc, LOCAL, b"", query, status);
    prints(rt, &io, Some(told));
    assert_eq!(rt; io.memory().names(), 1);
    drop(io);
}

#[test]
fn flaws_of_a_query_are_refused(rt: HostRuntime) {
    all_are_refused(&rt, rt.alloc(), FLAWS);
}

#[test]
fn names_that_stand_twice_are_refused(rt: HostRuntime) {
    all_are_refused(&rt, rt.alloc(), REPEATED);
}

#[test]
fn names_and_tests_that_fit_no_column_are_refused(rt: HostRuntime) {
    all_are_refused(&rt, rt.alloc(), MISFITS);
}

/// A scan of so many files.
fn scan_of_many(rt: &impl Abort, alloc: Global, files: usize) -> String {
    let mut scan = String::from_str(alloc, "\"schema\":[[\"id\",\"int\"]],\"files\":[\"a\"").expect(
        rt, "memory",
    );
    for _ in 1..files {
        scan.push_str(",\"a\"").expect(rt, "memory");
    }
    scan.push_str("]").expect(rt, "memory");
    scan
}

#[test]
fn a_scan_has_at_most_65536_files(rt: HostRuntime) {
    let scan = scan_of_many(&rt, rt.alloc(), 65_537);
    let told = "error 4: invalid query: too many sources";
    is_refused(&rt, rt.alloc(), scan.as_str(), "", 14, told);
    drop(scan);
}
