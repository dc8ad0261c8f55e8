//! Queries of small files, each for a rule.
use super::{Case, End, all_hold};

const ROWS: &[u8] = b"id,name\n1,ann\n2,\n";

/// The row `ann`, and a row whose second field is empty.
const PLAIN: Case<'static> = Case {
    files: &[("a.csv", ROWS)],
    scan: r#""files":["a.csv"],"schema":[["id","int"],["name","text"]]"#,
    options: "",
    end: End {
        status: 0,
        told: "2",
        text: Some("{\"id\":1,\"name\":\"ann\"}\n{\"id\":2,\"name\":null}\n"),
    },
};

/// No rows: an empty file, and a header alone.
const EMPTY: &[Case<'static>] = &[
    Case {
        files: &[("a.csv", b"")],
        end: NOTHING,
        ..PLAIN
    },
    Case {
        files: &[("a.csv", b"id,name\n")],
        end: NOTHING,
        ..PLAIN
    },
];

const NOTHING: End<'static> = End {
    status: 0,
    told: "0",
    text: Some(""),
};

#[test]
fn a_null_field_is_null(rt: HostRuntime) {
    all_hold(&rt, rt.alloc(), &[PLAIN]);
}

#[test]
fn an_empty_file_and_a_header_alone_have_no_rows(rt: HostRuntime) {
    all_hold(&rt, rt.alloc(), EMPTY);
}

#[test]
fn a_quoted_line_feed_is_within_its_row(rt: HostRuntime) {
    let case = Case {
        files: &[("a.csv", b"x,\"a\nb\"\r\n")],
        scan: r#""files":["a.csv"],"schema":[["p","text"],["q","text"]],"csv":{"has_header":false}"#,
        options: r#""chunk_bytes":1"#,
        end: End {
            status: 0,
            told: "1",
            text: Some("{\"p\":\"x\",\"q\":\"a\\nb\"}\n"),
        },
    };
    all_hold(&rt, rt.alloc(), &[case]);
}

#[test]
fn a_quote_in_a_comment_opens_nothing(rt: HostRuntime) {
    let case = Case {
        files: &[("a.csv", b"#it's \"odd\nx,1\n")],
        scan: r##""files":["a.csv"],"schema":[["n","text"],["v","int"]],"csv":{"has_header":false,"comment":"#"},"row_index":["i",5]"##,
        end: End {
            status: 0,
            told: "1",
            text: Some("{\"i\":5,\"n\":\"x\",\"v\":1}\n"),
        },
        ..PLAIN
    };
    all_hold(&rt, rt.alloc(), &[case]);
}

/// A blank line between two rows, of two columns and of one.
const BLANK: &[Case<'static>] = &[
    Case {
        files: &[("a.csv", b"1,2\n\n3,4")],
        scan: r#""files":["a.csv"],"schema":[["a","int"],["b","int"]],"csv":{"has_header":false}"#,
        end: End {
            status: 0,
            told: "2",
            text: Some("{\"a\":1,\"b\":2}\n{\"a\":3,\"b\":4}\n"),
        },
        ..PLAIN
    },
    Case {
        files: &[("a.csv", b"1\n\n3")],
        scan: r#""files":["a.csv"],"schema":[["a","int"]],"csv":{"has_header":false}"#,
        end: End {
            status: 0,
            told: "3",
            text: Some("{\"a\":1}\n{\"a\":null}\n{\"a\":3}\n"),
        },
        ..PLAIN
    },
];

#[test]
fn a_blank_line_is_a_row_of_one_column_alone(rt: HostRuntime) {
    all_hold(&rt, rt.alloc(), BLANK);
}

/// A number that is too great, in a column that is used, in one that is not, and where errors are ignored.
const GREAT: &[Case<'static>] = &[
    Case {
        scan: r#""files":["a.csv"],"schema":[["a","int"],["b","int"]]"#,
        end: End {
            status: 20,
            told: "error 10: ill typed, file 0, at 4",
            text: Some(""),
        },
        ..TOO_GREAT
    },
    Case {
        scan: r#""files":["a.csv"],"schema":[["a","int"],["b","int"]],"columns":["b"]"#,
        end: End {
            status: 0,
            told: "1",
            text: Some("{\"b\":7}\n"),
        },
        ..TOO_GREAT
    },
    Case {
        scan: r#""files":["a.csv"],"schema":[["a","int"],["b","int"]],"csv":{"ignore_errors":true}"#,
        end: End {
            status: 0,
            told: "1",
            text: Some("{\"a\":null,\"b\":7}\n"),
        },
        ..TOO_GREAT
    },
    Case {
        scan: r#""files":["a.csv"],"schema":[["a","int"],["b","int"]],"columns":["b"],"filter":["notnull","a"]"#,
        end: End {
            status: 20,
            told: "error 10: ill typed, file 0, at 4",
            text: Some(""),
        },
        ..TOO_GREAT
    },
    Case {
        scan: r#""files":["a.csv"],"schema":[["a","int"],["b","int"]],"slice":[1,9]"#,
        end: NOTHING,
        ..TOO_GREAT
    },
];

const TOO_GREAT: Case<'static> = Case {
    files: &[("a.csv", b"a,b\n9223372036854775808,7\n")],
    ..PLAIN
};

#[test]
fn a_bad_cell_is_refused_unless_it_is_unused_or_ignored(rt: HostRuntime) {
    all_hold(&rt, rt.alloc(), GREAT);
}

/// The second row alone, and a slice that counts from the end, which is refused before the file is opened.
const SLICES: &[Case<'static>] = &[
    Case {
        scan: r#""files":["a.csv"],"schema":[["id","int"],["name","text"]],"slice":[1,1]"#,
        end: End {
            status: 0,
            told: "1",
            text: Some("{\"id\":2,\"name\":null}\n"),
        },
        ..PLAIN
    },
    Case {
        scan: r#""files":["a.csv"],"schema":[["id","int"],["name","text"]],"slice":[-1,1]"#,
        end: End {
            status: 20,
            told: "error 10: negative slice",
            text: None,
        },
        ..PLAIN
    },
    Case {
        scan: r#""files":["a.csv"],"schema":[["id","int"],["name","text"]],"slice":[9223372036854775807,18446744073709551615]"#,
        end: NOTHING,
        ..PLAIN
    },
    Case {
        scan: r#""files":["a.csv"],"schema":[["id","int"],["name","text"]],"slice":[0,0]"#,
        end: NOTHING,
        ..PLAIN
    },
];

#[test]
fn a_slice_keeps_its_row_and_does_not_count_from_the_end(rt: HostRuntime) {
    all_hold(&rt, rt.alloc(), SLICES);
}

/// Rows up to the last number that there is, and a row more, which counts only within the slice.
const INDEXES: &[Case<'static>] = &[
    Case {
        files: &[("a.csv", b"a\n1\n2\n")],
        scan: r#""files":["a.csv"],"schema":[["a","int"]],"row_index":["i",4294967293]"#,
        end: End {
            status: 0,
            told: "2",
            text: Some(LAST),
        },
        ..PLAIN
    },
    Case {
        files: &[("a.csv", b"a\n1\n2\n3\n")],
        scan: r#""files":["a.csv"],"schema":[["a","int"]],"row_index":["i",4294967293]"#,
        end: End {
            status: 20,
            told: "error 10: index too large",
            text: Some(LAST),
        },
        ..PLAIN
    },
    Case {
        files: &[("a.csv", b"a\n1\n2\n3\n")],
        scan: r#""files":["a.csv"],"schema":[["a","int"]],"row_index":["i",4294967293],"slice":[0,2]"#,
        end: End {
            status: 0,
            told: "2",
            text: Some(LAST),
        },
        ..PLAIN
    },
];

const LAST: &str = "{\"i\":4294967293,\"a\":1}\n{\"i\":4294967294,\"a\":2}\n";

#[test]
fn an_index_goes_up_to_the_last_number_and_not_past_it(rt: HostRuntime) {
    all_hold(&rt, rt.alloc(), INDEXES);
}

/// A file that gzip wrote, one that zstd wrote, one byte that is no text, and quotes that stay open.
const NO_TEXTS: &[Case<'static>] = &[
    Case {
        files: &[("a.csv", b"\x1F\x8B\x08")],
        end: End {
            status: 16,
            told: "error 6: unsupported code 31 in file 0",
            text: Some(""),
        },
        ..PLAIN
    },
    Case {
        files: &[("a.csv", b"\x28\xB5\x2F\xFD")],
        end: End {
            status: 16,
            told: "error 6: unsupported code 40 in file 0",
            text: Some(""),
        },
        ..PLAIN
    },
    Case {
        files: &[("a.csv", b"\xFF")],
        scan: r#""files":["a.csv"],"schema":[["a","text"]],"csv":{"has_header":false}"#,
        end: End {
            status: 20,
            told: "error 10: not utf8, file 0, at 0",
            text: Some(""),
        },
        ..PLAIN
    },
    Case {
        files: &[("a.csv", b"id,name\n1,\"ann")],
        end: End {
            status: 15,
            told: "error 5: malformed file 0 at 8",
            text: Some(""),
        },
        ..PLAIN
    },
];

#[test]
fn a_file_that_is_none_is_refused(rt: HostRuntime) {
    all_hold(&rt, rt.alloc(), NO_TEXTS);
}
