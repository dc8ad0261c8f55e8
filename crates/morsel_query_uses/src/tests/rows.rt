//! Queries of one file, as a user hands them in: what reading the text, making the query of its parts and checking it answer, each
//! call by itself.
use super::show::{are_options, is_answered, is_shown, show_scan, show_sink};
use super::texts::read;
use morsel_expr::{CmpOp, Pred, PredNode, Rhs};
use morsel_frame::Schema;
use morsel_grammar::CsvOptions;
use morsel_meaning::{ColType, Field, Name, Value};
use morsel_query::{Query, check};
use morsel_scan::{FileScanOptions, RowIndex, ScanFormat, ScanSpec};
use morsel_sink::{SinkFormat, SinkSpec};
use std::alloc::Global;
use std::mem::drop;
use std::process::Abort;

/// What is asked of one file.
#[derive(Clone, Copy)]
struct Asked<'a> {
    /// The columns of the file.
    schema: &'a [(&'a str, ColType)],
    comment: Option<&'a str>,
    has_header: bool,
    ignore_errors: bool,
    /// The columns that are kept.
    columns: &'a [&'a str],
    slice: Option<(i64, u64)>,
    index: Option<(&'a str, u32)>,
    /// The rows that are kept: those with a lesser number under a column.
    below: Option<(&'a str, i64)>,
    chunk_bytes: u32,
}

/// All rows of a file of numbers and names.
const PLAIN: Asked<'static> = Asked {
    schema: &[("id", ColType::Int), ("name", ColType::Text)],
    comment: None,
    has_header: true,
    ignore_errors: false,
    columns: &[],
    slice: None,
    index: None,
    below: None,
    chunk_bytes: 65_536,
};

fn name_of(rt: &impl Abort, alloc: Global, text: &str) -> Name {
    Name::new(alloc, text).expect(rt, "memory")
}

fn names_of(rt: &impl Abort, alloc: Global, texts: &[&str]) -> Vec<Name> {
    let mut names = Vec::new(alloc);
    for text in texts {
        names.push(name_of(rt, alloc, text)).expect(rt, "memory");
    }
    names
}

fn schema_of(rt: &impl Abort, alloc: Global, columns: &[(&str, ColType)]) -> Schema {
    let mut fields = Vec::new(alloc);
    for (column, kind) in columns {
        let field = Field {
            name: name_of(rt, alloc, column),
            kind: *kind,
        };
        fields.push(field).expect(rt, "memory");
    }
    Schema::new(alloc, fields).expect(rt, "distinct names")
}

fn comment_of(rt: &impl Abort, alloc: Global, comment: Option<&str>) -> Option<Name> {
    match comment {
        Some(text) => Some(name_of(rt, alloc, text)),
        None => None,
    }
}

fn csv_of(rt: &impl Abort, alloc: Global, asked: Asked<'_>) -> CsvOptions {
    let comment = comment_of(rt, alloc, asked.comment);
    let null = name_of(rt, alloc, "");
    CsvOptions::new(
        b',',
        Some(b'"'),
        b'\n',
        comment,
        asked.has_header,
        null,
        asked.ignore_errors,
    )
    .expect(rt, "options")
}

fn row_index_of(rt: &impl Abort, alloc: Global, index: Option<(&str, u32)>) -> Option<RowIndex> {
    match index {
        Some((text, offset)) => Some(RowIndex {
            name: name_of(rt, alloc, text),
            offset,
        }),
        None => None,
    }
}

fn filter_of(rt: &impl Abort, alloc: Global, below: Option<(&str, i64)>) -> Option<Pred> {
    match below {
        Some((column, number)) => {
            let name = name_of(rt, alloc, column);
            let node = PredNode::Cmp(CmpOp::Lt, name, Rhs::Lit(Value::Int(number)));
            Some(Pred::new(node).expect(rt, "one level"))
        }
        None => None,
    }
}

/// The scan of `a.csv`.
fn scan_of(rt: &impl Abort, alloc: Global, asked: Asked<'_>) -> ScanSpec {
    ScanSpec {
        sources: names_of(rt, alloc, &["a.csv"]),
        format: ScanFormat::Csv {
            schema: schema_of(rt, alloc, asked.schema),
            options: csv_of(rt, alloc, asked),
        },
        file_options: FileScanOptions {
            slice: asked.slice,
            columns: names_of(rt, alloc, asked.columns),
            row_index: row_index_of(rt, alloc, asked.index),
            path: None,
            allow_missing_columns: false,
        },
        filter: filter_of(rt, alloc, asked.below),
    }
}

fn sink_of(rt: &impl Abort, alloc: Global) -> SinkSpec {
    SinkSpec {
        name: name_of(rt, alloc, "out.ndjson"),
        format: SinkFormat::NdJson,
    }
}

/// The parts of what is asked, written.
fn shown_of(rt: &impl Abort, alloc: Global, asked: Asked<'_>) -> String {
    let scan = scan_of(rt, alloc, asked);
    let sink = sink_of(rt, alloc);
    let mut text = String::new(alloc);
    show_scan(&mut text, &scan).expect(rt, "memory");
    show_sink(&mut text, &sink).expect(rt, "memory");
    drop(scan);
    drop(sink);
    text
}

/// Reading the text answers what is asked, and the options.
fn is_read(rt: &impl Abort, alloc: Global, text: &str, asked: Asked<'_>, wanted: &str) {
    let (query, options) = read(alloc, text).expect(rt, "a query");
    is_shown(rt, alloc, &query, wanted);
    let numbers = [4, 100_000, asked.chunk_bytes, 4, 4, 16_777_216];
    are_options(rt, &options, numbers, 0);
    drop(query);
}

/// Making the query answers its parts, and checking it answers this, in words.
fn is_made(rt: &impl Abort, alloc: Global, asked: Asked<'_>, wanted: &str, checked: &str) {
    let scan = scan_of(rt, alloc, asked);
    let query = Query::new(scan, None, None, sink_of(rt, alloc)).expect(rt, "a query");
    is_shown(rt, alloc, &query, wanted);
    is_answered(rt, alloc, check(alloc, &query), checked);
    drop(query);
}

/// The text asks this, and the check of the query answers this, in words.
fn asks(rt: &impl Abort, alloc: Global, text: &str, asked: Asked<'_>, checked: &str) {
    let wanted = shown_of(rt, alloc, asked);
    is_read(rt, alloc, text, asked, wanted.as_str());
    is_made(rt, alloc, asked, wanted.as_str(), checked);
    drop(wanted);
}

#[test]
fn a_file_of_numbers_and_names(rt: HostRuntime) {
    let text =
        r#"{"left":{"format":"csv","files":["a.csv"],"schema":[["id","int"],["name","text"]]},"sink":{"format":"ndjson"}}"#;
    asks(&rt, rt.alloc(), text, PLAIN, "ok");
}

#[test]
fn a_file_without_a_header_byte_by_byte(rt: HostRuntime) {
    let text =
        r#"{"left":{"format":"csv","files":["a.csv"],"schema":[["p","text"],["q","text"]],"csv":{"has_header":false}},"sink":{"format":"ndjson"},"options":{"chunk_bytes":1}}"#;
    let asked = Asked {
        schema: &[("p", ColType::Text), ("q", ColType::Text)],
        has_header: false,
        chunk_bytes: 1,
        ..PLAIN
    };
    asks(&rt, rt.alloc(), text, asked, "ok");
}

#[test]
fn a_file_with_comments_and_a_row_index(rt: HostRuntime) {
    let text =
        r##"{"left":{"format":"csv","files":["a.csv"],"schema":[["n","text"],["v","int"]],"csv":{"has_header":false,"comment":"#"},"row_index":["i",5]},"sink":{"format":"ndjson"}}"##;
    let asked = Asked {
        schema: &[("n", ColType::Text), ("v", ColType::Int)],
        has_header: false,
        comment: Some("#"),
        index: Some(("i", 5)),
        ..PLAIN
    };
    asks(&rt, rt.alloc(), text, asked, "ok");
}

#[test]
fn a_file_of_two_numbers_without_a_header(rt: HostRuntime) {
    let text =
        r#"{"left":{"format":"csv","files":["a.csv"],"schema":[["a","int"],["b","int"]],"csv":{"has_header":false}},"sink":{"format":"ndjson"}}"#;
    let asked = Asked {
        schema: &[("a", ColType::Int), ("b", ColType::Int)],
        has_header: false,
        ..PLAIN
    };
    asks(&rt, rt.alloc(), text, asked, "ok");
}

#[test]
fn a_file_of_one_number_without_a_header(rt: HostRuntime) {
    let text =
        r#"{"left":{"format":"csv","files":["a.csv"],"schema":[["a","int"]],"csv":{"has_header":false}},"sink":{"format":"ndjson"}}"#;
    let asked = Asked {
        schema: &[("a", ColType::Int)],
        has_header: false,
        ..PLAIN
    };
    asks(&rt, rt.alloc(), text, asked, "ok");
}

/// Two numbers under a header.
const NUMBERS: Asked<'static> = Asked {
    schema: &[("a", ColType::Int), ("b", ColType::Int)],
    ..PLAIN
};

#[test]
fn one_of_two_numbers(rt: HostRuntime) {
    let text =
        r#"{"left":{"format":"csv","files":["a.csv"],"schema":[["a","int"],["b","int"]]},"sink":{"format":"ndjson"}}"#;
    asks(&rt, rt.alloc(), text, NUMBERS, "ok");
    let text =
        r#"{"left":{"format":"csv","files":["a.csv"],"schema":[["a","int"],["b","int"]],"columns":["b"]},"sink":{"format":"ndjson"}}"#;
    let chosen = Asked {
        columns: &["b"],
        ..NUMBERS
    };
    asks(&rt, rt.alloc(), text, chosen, "ok");
}

#[test]
fn numbers_whose_errors_are_ignored(rt: HostRuntime) {
    let text =
        r#"{"left":{"format":"csv","files":["a.csv"],"schema":[["a","int"],["b","int"]],"csv":{"ignore_errors":true}},"sink":{"format":"ndjson"}}"#;
    let asked = Asked {
        ignore_errors: true,
        ..NUMBERS
    };
    asks(&rt, rt.alloc(), text, asked, "ok");
}

#[test]
fn the_second_row_alone(rt: HostRuntime) {
    let text =
        r#"{"left":{"format":"csv","files":["a.csv"],"schema":[["id","int"],["name","text"]],"slice":[1,1]},"sink":{"format":"ndjson"}}"#;
    let asked = Asked {
        slice: Some((1, 1)),
        ..PLAIN
    };
    asks(&rt, rt.alloc(), text, asked, "ok");
}

#[test]
fn the_last_row_of_a_file_is_not_known_before_it_is_read(rt: HostRuntime) {
    let text =
        r#"{"left":{"format":"csv","files":["a.csv"],"schema":[["id","int"],["name","text"]],"slice":[-1,1]},"sink":{"format":"ndjson"}}"#;
    let asked = Asked {
        slice: Some((-1, 1)),
        ..PLAIN
    };
    asks(&rt, rt.alloc(), text, asked, "negative slice");
}

#[test]
fn a_row_index_that_ends_at_the_greatest_number(rt: HostRuntime) {
    let text =
        r#"{"left":{"format":"csv","files":["a.csv"],"schema":[["id","int"],["name","text"]],"row_index":["i",4294967293]},"sink":{"format":"ndjson"}}"#;
    let asked = Asked {
        index: Some(("i", 4_294_967_293)),
        ..PLAIN
    };
    asks(&rt, rt.alloc(), text, asked, "ok");
}

#[test]
fn a_file_read_four_bytes_at_a_time(rt: HostRuntime) {
    let text =
        r#"{"left":{"format":"csv","files":["a.csv"],"schema":[["id","int"],["name","text"]]},"sink":{"format":"ndjson"},"options":{"chunk_bytes":4}}"#;
    let asked = Asked {
        chunk_bytes: 4,
        ..PLAIN
    };
    asks(&rt, rt.alloc(), text, asked, "ok");
}

#[test]
fn a_filter_of_names_by_a_number(rt: HostRuntime) {
    let text =
        r#"{"left":{"format":"csv","files":["a.csv"],"schema":[["id","int"],["name","text"]],"filter":["lt","name",{"lit":3}]},"sink":{"format":"ndjson"}}"#;
    let asked = Asked {
        below: Some(("name", 3)),
        ..PLAIN
    };
    asks(&rt, rt.alloc(), text, asked, "schema mismatch: name");
}

#[test]
fn a_file_of_texts_without_a_header(rt: HostRuntime) {
    let text =
        r#"{"left":{"format":"csv","files":["a.csv"],"schema":[["a","text"]],"csv":{"has_header":false}},"sink":{"format":"ndjson"}}"#;
    let asked = Asked {
        schema: &[("a", ColType::Text)],
        has_header: false,
        ..PLAIN
    };
    asks(&rt, rt.alloc(), text, asked, "ok");
}

/// Reading the text is refused so, in words.
fn is_refused(rt: &impl Abort, alloc: Global, text: &str, wanted: &str) {
    match read(alloc, text) {
        Ok((query, _options)) => {
            drop(query);
            assert!(rt; false, "a query");
        }
        Err(fault) => is_answered(rt, alloc, Err(fault), wanted),
    }
}

#[test]
fn a_text_that_is_no_query_and_one_without_workers(rt: HostRuntime) {
    is_refused(&rt, rt.alloc(), r#"{"left":1.5}"#, "query text");
    let text =
        r#"{"left":{"format":"csv","files":["a.csv"],"schema":[["id","int"],["name","text"]]},"sink":{"format":"ndjson"},"options":{"workers":0}}"#;
    is_refused(&rt, rt.alloc(), text, "invalid query: option range");
}
