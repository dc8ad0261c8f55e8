//! Many files of each way to write CSV, and what a query may ask of their rows.
use super::{Case, End, all_hold};

/// A file of each month, of which the first ends without a line feed, and the second has no rows.
const MONTHS: &[(&str, &[u8])] = &[
    ("jan.csv", b"day,what,n\n1,rain,3\n2,,\n3,snow,5"),
    ("feb.csv", b"day,what,n\n"),
    (
        "mar.csv",
        b"\xEF\xBB\xBFday,what,n\r\n1,sun,7\r\n\r\n2,\"rain, \"\"hail\"\"\",-1\r\n",
    ),
];

/// All rows of the months.
const ALL: Case<'static> = Case {
    files: MONTHS,
    scan: r#""files":["jan.csv","feb.csv","mar.csv"],"schema":[["day","int"],["what","text"],["n","int"]]"#,
    options: "",
    end: End {
        status: 0,
        told: "5",
        text: Some(
            "{\"day\":1,\"what\":\"rain\",\"n\":3}\n{\"day\":2,\"what\":null,\"n\":null}\n{\"day\":3,\"what\":\"snow\",\"n\":5}\n{\"day\":1,\"what\":\"sun\",\"n\":7}\n{\"day\":2,\"what\":\"rain, \\\"hail\\\"\",\"n\":-1}\n",
        ),
    },
};

/// What may be asked of the rows of the months.
const ASKED: &[Case<'static>] = &[
    ALL,
    Case {
        scan: r#""files":["mar.csv","jan.csv","mar.csv"],"schema":[["day","int"],["what","text"],["n","int"]],"columns":["n"]"#,
        end: End {
            status: 0,
            told: "7",
            text: Some(
                "{\"n\":7}\n{\"n\":-1}\n{\"n\":3}\n{\"n\":null}\n{\"n\":5}\n{\"n\":7}\n{\"n\":-1}\n",
            ),
        },
        ..ALL
    },
    Case {
        scan: r#""files":["jan.csv","feb.csv","mar.csv"],"schema":[["day","int"],["what","text"],["n","int"]],"filter":["gt","n",{"lit":3}]"#,
        end: End {
            status: 0,
            told: "2",
            text: Some(
                "{\"day\":3,\"what\":\"snow\",\"n\":5}\n{\"day\":1,\"what\":\"sun\",\"n\":7}\n",
            ),
        },
        ..ALL
    },
    // The schema's order counts, and not that of the choice.
    Case {
        scan: r#""files":["jan.csv","feb.csv","mar.csv"],"schema":[["day","int"],["what","text"],["n","int"]],"columns":["n","day"],"filter":["or",["null","what"],["ge","what",{"lit":"snow"}]]"#,
        end: End {
            status: 0,
            told: "3",
            text: Some("{\"day\":2,\"n\":null}\n{\"day\":3,\"n\":5}\n{\"day\":1,\"n\":7}\n"),
        },
        ..ALL
    },
    // Positions go on over all files, and the filter sees what the slice keeps.
    Case {
        scan: r#""files":["jan.csv","feb.csv","mar.csv"],"schema":[["day","int"],["what","text"],["n","int"]],"columns":["what"],"slice":[1,3],"row_index":["i",10],"path":"p","filter":["notnull","n"]"#,
        end: End {
            status: 0,
            told: "2",
            text: Some(
                "{\"i\":12,\"what\":\"snow\",\"p\":\"jan.csv\"}\n{\"i\":13,\"what\":\"sun\",\"p\":\"mar.csv\"}\n",
            ),
        },
        ..ALL
    },
    Case {
        scan: r#""files":["jan.csv","feb.csv","mar.csv"],"schema":[["day","int"],["what","text"],["n","int"]],"columns":["day"],"row_index":["i",0],"path":"p","filter":["and",["eq","p",{"lit":"mar.csv"}],["not",["lt","i",{"lit":4}]]]"#,
        end: End {
            status: 0,
            told: "1",
            text: Some("{\"i\":4,\"day\":2,\"p\":\"mar.csv\"}\n"),
        },
        ..ALL
    },
    Case {
        scan: r#""files":["jan.csv","feb.csv","mar.csv"],"schema":[["day","int"],["what","text"],["n","int"]],"filter":["eq","day",{"col":"n"}]"#,
        end: End {
            status: 0,
            told: "0",
            text: Some(""),
        },
        ..ALL
    },
    Case {
        scan: r#""files":["jan.csv","feb.csv","mar.csv"],"schema":[["day","int"],["what","text"],["n","int"]],"filter":["eq","what",{"lit":null}]"#,
        end: End {
            status: 0,
            told: "0",
            text: Some(""),
        },
        ..ALL
    },
];

#[test]
fn rows_of_many_files_are_asked(rt: HostRuntime) {
    all_hold(&rt, rt.alloc(), ASKED);
}

#[test]
fn rows_of_many_files_are_asked_byte_by_byte(rt: HostRuntime) {
    for case in ASKED {
        let small = Case {
            options: r#""chunk_bytes":1,"workers":1,"distributor_buffer":1,"linearizer_buffer":1"#,
            ..*case
        };
        all_hold(&rt, rt.alloc(), &[small]);
    }
}

/// Files that are not written with commas, double quotes and line feeds.
const WRITTEN: &[Case<'static>] = &[
    // Semicolons, and decimal commas, which are texts.
    Case {
        files: &[
            ("a.csv", b"item;price\nnut;2,5\n\"bolt; long\";10,0\n"),
            ("b.csv", b"item;price\r\nnail;0,1\r\n"),
        ],
        scan: r#""files":["a.csv","b.csv"],"schema":[["item","text"],["price","text"]],"csv":{"separator":";"}"#,
        end: End {
            status: 0,
            told: "3",
            text: Some(
                "{\"item\":\"nut\",\"price\":\"2,5\"}\n{\"item\":\"bolt; long\",\"price\":\"10,0\"}\n{\"item\":\"nail\",\"price\":\"0,1\"}\n",
            ),
        },
        ..ALL
    },
    // Tabs, and no byte that is a quote.
    Case {
        files: &[("a.tsv", b"k\tv\n\"a\t1\nb\"c\t2\n")],
        scan: r#""files":["a.tsv"],"schema":[["k","text"],["v","int"]],"csv":{"separator":"\t","quote":null}"#,
        end: End {
            status: 0,
            told: "2",
            text: Some("{\"k\":\"\\\"a\",\"v\":1}\n{\"k\":\"b\\\"c\",\"v\":2}\n"),
        },
        ..ALL
    },
    // Comments before the header and among the rows, with a prefix of two bytes.
    Case {
        files: &[
            ("a.csv", b"//one, \"two\nk,v\n//\na,1\n/b,2\n// end"),
            ("b.csv", b"\n//\nk,v\nc,3"),
        ],
        scan: r#""files":["a.csv","b.csv"],"schema":[["k","text"],["v","int"]],"csv":{"comment":"//"},"row_index":["i",1]"#,
        end: End {
            status: 0,
            told: "3",
            text: Some(
                "{\"i\":1,\"k\":\"a\",\"v\":1}\n{\"i\":2,\"k\":\"/b\",\"v\":2}\n{\"i\":3,\"k\":\"c\",\"v\":3}\n",
            ),
        },
        ..ALL
    },
    // Carriage returns of a spreadsheet, a mark and no header.
    Case {
        files: &[
            ("a.csv", b"\xEF\xBB\xBF1,yes\r\n2,\"no\r\nno\"\r\n"),
            ("b.csv", b"\xEF\xBB\xBF3,maybe\r\n"),
        ],
        scan: r#""files":["a.csv","b.csv"],"schema":[["n","int"],["s","text"]],"csv":{"has_header":false}"#,
        end: End {
            status: 0,
            told: "3",
            text: Some(
                "{\"n\":1,\"s\":\"yes\"}\n{\"n\":2,\"s\":\"no\\r\\nno\"}\n{\"n\":3,\"s\":\"maybe\"}\n",
            ),
        },
        ..ALL
    },
    // Single quotes, a null text, and records that end with a semicolon.
    Case {
        files: &[("a.csv", b"b,s;true,NA;NA,'NA';False,'it''s;';,\n\r;")],
        scan: r#""files":["a.csv"],"schema":[["b","bool"],["s","text"]],"csv":{"quote":"'","eol":";","null":"NA","ignore_errors":true}"#,
        end: End {
            status: 0,
            told: "4",
            text: Some(
                "{\"b\":true,\"s\":null}\n{\"b\":null,\"s\":\"NA\"}\n{\"b\":false,\"s\":\"it's;\"}\n{\"b\":null,\"s\":\"\\n\\r\"}\n",
            ),
        },
        ..ALL
    },
];

#[test]
fn files_that_are_written_otherwise_are_read(rt: HostRuntime) {
    all_hold(&rt, rt.alloc(), WRITTEN);
}

/// What is wrong in the second of two files, whose number is told.
const SECOND: &[Case<'static>] = &[
    Case {
        files: &[("a.csv", b"k\n1\n"), ("b.csv", b"k\n2\n\"3")],
        end: End {
            status: 15,
            told: "error 5: malformed file 1 at 4",
            ..TWO_ROWS
        },
        ..TWO_FILES
    },
    Case {
        files: &[("a.csv", b"k\n1\n"), ("b.csv", b"k\n2\nx\n")],
        end: End {
            status: 20,
            told: "error 10: ill typed, file 1, at 4",
            ..TWO_ROWS
        },
        ..TWO_FILES
    },
    Case {
        files: &[("a.csv", b"k\n1\n"), ("b.csv", b"k\n2\n\xE9\n")],
        end: End {
            status: 20,
            told: "error 10: not utf8, file 1, at 4",
            ..TWO_ROWS
        },
        ..TWO_FILES
    },
    Case {
        files: &[("a.csv", b"k\n1\n2\n"), ("b.csv", b"\x1F\x8B\x08\x00")],
        end: End {
            status: 16,
            told: "error 6: unsupported code 31 in file 1",
            ..TWO_ROWS
        },
        ..TWO_FILES
    },
    // A file that begins as a compressed one is none where the mark comes first.
    Case {
        files: &[("a.csv", b"k\n"), ("b.csv", b"\xEF\xBB\xBF\x1F\x8B\n")],
        end: End {
            status: 20,
            told: "error 10: not utf8, file 1, at 3",
            text: Some(""),
        },
        ..TWO_FILES
    },
];

const TWO_FILES: Case<'static> = Case {
    scan: r#""files":["a.csv","b.csv"],"schema":[["k","int"]]"#,
    ..ALL
};

const TWO_ROWS: End<'static> = End {
    status: 0,
    told: "2",
    text: Some("{\"k\":1}\n{\"k\":2}\n"),
};

#[test]
fn a_fault_tells_its_file(rt: HostRuntime) {
    all_hold(&rt, rt.alloc(), SECOND);
}
