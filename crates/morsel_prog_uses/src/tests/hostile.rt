//! Texts that try each rule of CSV under the standard options, with what the rules make of them: by `scan`, and by a query that
//! reads them in chunks of each small size.
use super::{End, LOCAL, Run, ends, query_of};
use std::alloc::Global;
use std::mem::drop;
use std::process::Abort;

/// Columns, as the words of `scan` have them and as a query has them.
type Columns = (&'static str, &'static str);

const TWO: Columns = ("a:int,b:text", r#"["a","int"],["b","text"]"#);

const NUMBERS: Columns = ("a:int", r#"["a","int"]"#);

const TEXTS: Columns = ("a:text", r#"["a","text"]"#);

const FLAGS: Columns = ("a:bool", r#"["a","bool"]"#);

/// A file, its columns, the line that is told, and the text of the rows: of all, or of those before the first faulty record.
type Row = (&'static [u8], Columns, &'static str, &'static str);

/// The sizes of chunks that are tried. The last one is more than any of these files has.
const CHUNKS: [u32; 10] = [1, 2, 3, 4, 5, 6, 7, 8, 9, 1000];

/// A scan of the file ends so.
fn scan_ends(rt: &impl Abort, alloc: Global, bytes: &[u8], columns: Columns, end: End<'_>) {
    let line = format!(in alloc; "scan one.csv {} o", columns.0).expect(rt, "memory");
    let run = Run {
        line: line.as_str(),
        ..LOCAL
    };
    ends(rt, alloc, run, bytes, b"", end);
    drop(line);
}

/// A query of the file, read in chunks of this size, ends so.
fn query_ends(
    rt: &impl Abort,
    alloc: Global,
    bytes: &[u8],
    columns: Columns,
    chunk: u32,
    end: End<'_>,
) {
    let query = chunked(rt, alloc, columns, chunk);
    ends(rt, alloc, LOCAL, bytes, query.as_bytes(), end);
    drop(query);
}

/// The query of the file by chunks.
fn chunked(rt: &impl Abort, alloc: Global, columns: Columns, chunk: u32) -> String {
    let scan = format!(in alloc; "\"files\":[\"one.csv\"],\"schema\":[{}]", columns.1).expect(
        rt, "memory",
    );
    let options = format!(in alloc; "\"chunk_bytes\":{chunk}").expect(rt, "memory");
    let query = query_of(rt, alloc, scan.as_str(), options.as_str());
    drop(scan);
    drop(options);
    query
}

/// Each file of the table ends with this status.
fn all_end(rt: &impl Abort, alloc: Global, status: u8, table: &[Row]) {
    for (bytes, columns, told, text) in table {
        let end = End {
            status,
            told,
            text: Some(text),
        };
        scan_ends(rt, alloc, bytes, *columns, end);
        for chunk in CHUNKS {
            query_ends(rt, alloc, bytes, *columns, chunk, end);
        }
    }
}

/// Files without a row.
const WITHOUT_ROWS: &[Row] = &[
    (b"", TWO, "0", ""),
    (b"a,b\n", TWO, "0", ""),
    (b"a,b", TWO, "0", ""),
    (b"\n\n", TWO, "0", ""),
    (b"\r\n", TWO, "0", ""),
    (b"\xEF\xBB\xBF", TWO, "0", ""),
    (b"\x1F", TEXTS, "0", ""),
    (b"\xEF\xBB\xBF\xEF\xBB\xBFa\n", TEXTS, "0", ""),
    (b"\n\na\n", TEXTS, "0", ""),
];

#[test]
fn files_without_rows(rt: HostRuntime) {
    all_end(&rt, rt.alloc(), 0, WITHOUT_ROWS);
}

/// Line feeds, returns and byte order marks.
const LINE_ENDS: &[Row] = &[
    (b"\na,b\n1,x\n", TWO, "1", "{\"a\":1,\"b\":\"x\"}\n"),
    (b"a,b\n1,x", TWO, "1", "{\"a\":1,\"b\":\"x\"}\n"),
    (b"a,b\r\n1,x\r\n", TWO, "1", "{\"a\":1,\"b\":\"x\"}\n"),
    (b"a,b\n1,x\r", TWO, "1", "{\"a\":1,\"b\":\"x\"}\n"),
    (b"a,b\n1,x\r\r\n", TWO, "1", "{\"a\":1,\"b\":\"x\\r\"}\n"),
    (b"a,b\n1,x\ry\n", TWO, "1", "{\"a\":1,\"b\":\"x\\ry\"}\n"),
    (
        b"a,b\n\n1,x\n\r\n2,y\n",
        TWO,
        "2",
        "{\"a\":1,\"b\":\"x\"}\n{\"a\":2,\"b\":\"y\"}\n",
    ),
    (
        b"\xEF\xBB\xBFa,b\n1,x\n",
        TWO,
        "1",
        "{\"a\":1,\"b\":\"x\"}\n",
    ),
];

#[test]
fn line_ends_of_each_kind(rt: HostRuntime) {
    all_end(&rt, rt.alloc(), 0, LINE_ENDS);
}

/// Quotes around fields, within them, and outside.
const QUOTES: &[Row] = &[
    (b"a,b\n1,\"x\r\"\n", TWO, "1", "{\"a\":1,\"b\":\"x\\r\"}\n"),
    (b"a,b\n1,\"x\"\r\n", TWO, "1", "{\"a\":1,\"b\":\"x\"}\n"),
    (b"a,b\n1,\"x\"\r", TWO, "1", "{\"a\":1,\"b\":\"x\"}\n"),
    (
        b"a,b\n1,\"x\ny\"\n",
        TWO,
        "1",
        "{\"a\":1,\"b\":\"x\\ny\"}\n",
    ),
    (b"a,b\n1,\"x,y\"\n", TWO, "1", "{\"a\":1,\"b\":\"x,y\"}\n"),
    (
        b"a,b\n1,\"x\"\"y\"\n",
        TWO,
        "1",
        "{\"a\":1,\"b\":\"x\\\"y\"}\n",
    ),
    (b"a,b\n1,\"\"\"\"\n", TWO, "1", "{\"a\":1,\"b\":\"\\\"\"}\n"),
    (b"a,b\n1,x\"y\n", TWO, "1", "{\"a\":1,\"b\":\"x\\\"y\"}\n"),
    (
        b"a,b\n1, \"x\"\n",
        TWO,
        "1",
        "{\"a\":1,\"b\":\" \\\"x\\\"\"}\n",
    ),
    (b"\"a\nb\",c\n1,x\n", TWO, "1", "{\"a\":1,\"b\":\"x\"}\n"),
    (b"x\n1,y\n", TWO, "1", "{\"a\":1,\"b\":\"y\"}\n"),
];

#[test]
fn quotes_of_each_kind(rt: HostRuntime) {
    all_end(&rt, rt.alloc(), 0, QUOTES);
}

/// Empty fields, which are nulls, and fields that only look empty.
const NULLS: &[Row] = &[
    (b"a,b\n1,\"\"\n", TWO, "1", "{\"a\":1,\"b\":\"\"}\n"),
    (b"a,b\n1,\n", TWO, "1", "{\"a\":1,\"b\":null}\n"),
    (b"a,b\n,x\n", TWO, "1", "{\"a\":null,\"b\":\"x\"}\n"),
    (b"a,b\n,\n", TWO, "1", "{\"a\":null,\"b\":null}\n"),
    (
        b"a\n1\n\n3",
        NUMBERS,
        "3",
        "{\"a\":1}\n{\"a\":null}\n{\"a\":3}\n",
    ),
    (b"a\n\r\n", NUMBERS, "1", "{\"a\":null}\n"),
    (b"a\n\n", TEXTS, "1", "{\"a\":null}\n"),
    (b"a\n\"\"\n", TEXTS, "1", "{\"a\":\"\"}\n"),
    (b"a\n \n", TEXTS, "1", "{\"a\":\" \"}\n"),
];

#[test]
fn nulls_and_what_is_none(rt: HostRuntime) {
    all_end(&rt, rt.alloc(), 0, NULLS);
}

/// Values of each type.
const VALUES: &[Row] = &[
    (b"a,b\n\"1\",x\n", TWO, "1", "{\"a\":1,\"b\":\"x\"}\n"),
    (
        b"a\n+1\n-0\n007\n",
        NUMBERS,
        "3",
        "{\"a\":1}\n{\"a\":0}\n{\"a\":7}\n",
    ),
    (
        b"a\n9223372036854775807\n",
        NUMBERS,
        "1",
        "{\"a\":9223372036854775807}\n",
    ),
    (
        b"a\n-9223372036854775808\n",
        NUMBERS,
        "1",
        "{\"a\":-9223372036854775808}\n",
    ),
    (
        b"a\ntrue\nTrue\nTRUE\n",
        FLAGS,
        "3",
        "{\"a\":true}\n{\"a\":true}\n{\"a\":true}\n",
    ),
    (
        b"a\nfalse\nFalse\n\"FALSE\"\n",
        FLAGS,
        "3",
        "{\"a\":false}\n{\"a\":false}\n{\"a\":false}\n",
    ),
    (b"a\n\xC3\xA9\n", TEXTS, "1", "{\"a\":\"é\"}\n"),
    (
        b"a\n\0\x1F\x7F\\\n",
        TEXTS,
        "1",
        "{\"a\":\"\\u0000\\u001f\u{7f}\\\\\"}\n",
    ),
];

#[test]
fn values_of_each_type(rt: HostRuntime) {
    all_end(&rt, rt.alloc(), 0, VALUES);
}

/// Quotes that stay open, and quotes with something after them.
const BROKEN_QUOTES: &[Row] = &[
    (b"\"a", TEXTS, "error 5: malformed file 0 at 0", ""),
    (b"a,b\n\"1,x\n", TWO, "error 5: malformed file 0 at 4", ""),
    (
        b"a,b\n1,x\n2,\"y\n",
        TWO,
        "error 5: malformed file 0 at 8",
        "{\"a\":1,\"b\":\"x\"}\n",
    ),
    (b"a,b\n1,\"", TWO, "error 5: malformed file 0 at 4", ""),
    (
        b"a,b\n1,\"x\"\"\n",
        TWO,
        "error 5: malformed file 0 at 4",
        "",
    ),
    (
        b"a,b\n1,\"x\"y\n",
        TWO,
        "error 5: malformed file 0 at 4",
        "",
    ),
    (
        b"a,b\n1,\"x\" \n",
        TWO,
        "error 5: malformed file 0 at 4",
        "",
    ),
    (
        b"a,b\n1,\"x\"\r\r\n",
        TWO,
        "error 5: malformed file 0 at 4",
        "",
    ),
    (
        b"a,b\n1,\"x\"\rz\n",
        TWO,
        "error 5: malformed file 0 at 4",
        "",
    ),
    (
        b"a\"b\n\"c\"d\n",
        TEXTS,
        "error 5: malformed file 0 at 4",
        "",
    ),
];

#[test]
fn open_and_broken_quotes_are_refused(rt: HostRuntime) {
    all_end(&rt, rt.alloc(), 15, BROKEN_QUOTES);
}

/// Records of another number of fields.
const OTHER_WIDTHS: &[Row] = &[
    (b"a,b\n1\n", TWO, "error 5: malformed file 0 at 4", ""),
    (b"a,b\n1,x,y\n", TWO, "error 5: malformed file 0 at 4", ""),
    (
        b"a,b\n1,x\n2\n3,z\n",
        TWO,
        "error 5: malformed file 0 at 8",
        "{\"a\":1,\"b\":\"x\"}\n",
    ),
    (
        b"a,b\n1,x\n2,y\n3",
        TWO,
        "error 5: malformed file 0 at 12",
        "{\"a\":1,\"b\":\"x\"}\n{\"a\":2,\"b\":\"y\"}\n",
    ),
    (b"a\n1,2\n", NUMBERS, "error 5: malformed file 0 at 2", ""),
    (b"a\n,\n", NUMBERS, "error 5: malformed file 0 at 2", ""),
    (b"a,b\n\"\"\n", TWO, "error 5: malformed file 0 at 4", ""),
];

#[test]
fn another_number_of_fields_is_refused(rt: HostRuntime) {
    all_end(&rt, rt.alloc(), 15, OTHER_WIDTHS);
}

/// Fields that are no value of their type.
const MISFITS: &[Row] = &[
    (b"a,b\nx,y\n", TWO, "error 10: ill typed, file 0, at 4", ""),
    (
        b"a,b\n1,x\nx,y\n3,z\n",
        TWO,
        "error 10: ill typed, file 0, at 8",
        "{\"a\":1,\"b\":\"x\"}\n",
    ),
    (
        b"a\n9223372036854775808\n",
        NUMBERS,
        "error 10: ill typed, file 0, at 2",
        "",
    ),
    (
        b"a\n-9223372036854775809\n",
        NUMBERS,
        "error 10: ill typed, file 0, at 2",
        "",
    ),
    (b"a\n+\n", NUMBERS, "error 10: ill typed, file 0, at 2", ""),
    (b"a\n-\n", NUMBERS, "error 10: ill typed, file 0, at 2", ""),
    (
        b"a\n1.0\n",
        NUMBERS,
        "error 10: ill typed, file 0, at 2",
        "",
    ),
    (b"a\n 1\n", NUMBERS, "error 10: ill typed, file 0, at 2", ""),
    (b"a\n1 \n", NUMBERS, "error 10: ill typed, file 0, at 2", ""),
    (
        b"a\n--1\n",
        NUMBERS,
        "error 10: ill typed, file 0, at 2",
        "",
    ),
    (
        b"a\n\"\"\n",
        NUMBERS,
        "error 10: ill typed, file 0, at 2",
        "",
    ),
    (b"a\ntRUE\n", FLAGS, "error 10: ill typed, file 0, at 2", ""),
    (b"a\n1\n", FLAGS, "error 10: ill typed, file 0, at 2", ""),
    (
        b"a\ntrue\ntrue \n",
        FLAGS,
        "error 10: ill typed, file 0, at 7",
        "{\"a\":true}\n",
    ),
    (
        b"\xEF\xBB\xBFa\nx",
        NUMBERS,
        "error 10: ill typed, file 0, at 5",
        "",
    ),
];

#[test]
fn fields_that_do_not_fit_are_refused(rt: HostRuntime) {
    all_end(&rt, rt.alloc(), 20, MISFITS);
}

/// Bytes that are no UTF-8.
const NO_TEXTS: &[Row] = &[
    (b"\xFF,b\n", TWO, "error 10: not utf8, file 0, at 0", ""),
    (
        b"a,b\n1,\xFF\n",
        TWO,
        "error 10: not utf8, file 0, at 4",
        "",
    ),
    (
        b"a,b\n1,x\n2,\xC3\n3,y\n",
        TWO,
        "error 10: not utf8, file 0, at 8",
        "{\"a\":1,\"b\":\"x\"}\n",
    ),
    (
        b"a,b\n1,x\n2,\xE2\x82",
        TWO,
        "error 10: not utf8, file 0, at 8",
        "{\"a\":1,\"b\":\"x\"}\n",
    ),
    (
        b"a\n\xED\xA0\x80\n",
        TEXTS,
        "error 10: not utf8, file 0, at 2",
        "",
    ),
    (
        b"a\n\xC0\x80\n",
        TEXTS,
        "error 10: not utf8, file 0, at 2",
        "",
    ),
    (
        b"a,b\n1,\"\xFF\"\n",
        TWO,
        "error 10: not utf8, file 0, at 4",
        "",
    ),
    (b"\x28\xB5", TEXTS, "error 10: not utf8, file 0, at 0", ""),
    (b"\xEF\xBB", TEXTS, "error 10: not utf8, file 0, at 0", ""),
    (
        b"a\nx\n\xF4\x90\x80\x80",
        TEXTS,
        "error 10: not utf8, file 0, at 4",
        "{\"a\":\"x\"}\n",
    ),
];

#[test]
fn bytes_that_are_no_text_are_refused(rt: HostRuntime) {
    all_end(&rt, rt.alloc(), 20, NO_TEXTS);
}

/// Files that begin as compressed ones do.
const COMPRESSED: &[Row] = &[
    (
        b"\x1F\x8B",
        TEXTS,
        "error 6: unsupported code 31 in file 0",
        "",
    ),
    (
        b"\x1F\x8B\x08a\n",
        TEXTS,
        "error 6: unsupported code 31 in file 0",
        "",
    ),
    (
        b"\x28\xB5\x2F\xFD",
        TEXTS,
        "error 6: unsupported code 40 in file 0",
        "",
    ),
    (
        b"\x28\xB5\x2F\xFDa\n",
        TEXTS,
        "error 6: unsupported code 40 in file 0",
        "",
    ),
];

#[test]
fn compressed_files_are_refused(rt: HostRuntime) {
    all_end(&rt, rt.alloc(), 16, COMPRESSED);
}
