//! Queries with a group-by of small files, against groups that were worked out by hand. Groups may come in any order.
use super::{End, LOCAL, Run, after, leaves, prints, text_in};
use morsel_outside::MemIo;
use std::alloc::Global;
use std::mem::drop;
use std::process::Abort;

/// A query with a group-by, the files that it finds, and how it ends.
#[derive(Clone, Copy)]
pub struct GroupCase<'a> {
    /// The names of the files, and their bytes.
    pub files: &'a [(&'a str, &'a [u8])],
    /// What the query says of its scan.
    pub scan: &'a str,
    /// Its join, with a comma behind it; or nothing.
    pub join: &'a str,
    /// What it says of its group-by.
    pub group: &'a str,
    /// What it says of its options.
    pub options: &'a str,
    /// How it ends. The lines of its text are in any order.
    pub end: End<'a>,
}

/// The text of its query.
pub fn query_of_group(rt: &impl Abort, alloc: Global, case: GroupCase<'_>) -> String {
    let GroupCase {
        scan,
        join,
        group,
        options,
        ..
    } = case;
    format!(in alloc;
        "{{\"left\":{{\"format\":\"csv\",{scan}}},{join}\"group\":{{{group}}},\"sink\":{{\"format\":\"ndjson\"}},\"options\":{{{options}}}}}"
    ).expect(rt, "memory")
}

/// Whether the text has this line.
fn has_line(text: &str, line: &str) -> bool {
    for one in text.split('\n') {
        if one == line {
            return true;
        }
    }
    false
}

/// The text has these lines, of which no two are alike, and no others, in any order.
fn has_lines(rt: &impl Abort, text: &str, lines: &str) {
    assert_eq!(rt; text.len(), lines.len(), "{text}");
    for line in lines.split('\n') {
        assert!(rt; has_line(text, line), "{line}");
    }
}

/// What stands in the sink after a run: the groups in any order, or after a fault a front of the text.
pub fn has_groups(rt: &impl Abort, io: &MemIo, end: End<'_>) {
    match end {
        End {
            status: 0,
            text: Some(lines),
            ..
        } => {
            let text = str::from_utf8(text_in(rt, io)).expect(rt, "UTF-8");
            has_lines(rt, text, lines);
        }
        _ => leaves(rt, io, end.text),
    }
}

/// The case holds.
pub fn holds(rt: &impl Abort, alloc: Global, case: GroupCase<'_>) {
    let query = query_of_group(rt, alloc, case);
    let run = Run {
        files: case.files,
        ..LOCAL
    };
    let io = after(rt, alloc, run, b"", query.as_bytes(), case.end.status);
    prints(rt, &io, Some(case.end.told));
    has_groups(rt, &io, case.end);
    drop(io);
    drop(query);
}

/// Each case of a table holds.
fn all_hold(rt: &impl Abort, alloc: Global, table: &[GroupCase<'static>]) {
    for case in table {
        holds(rt, alloc, *case);
    }
}

/// With a row and a byte at a time, and one worker.
pub const SMALL: &str =
    r#""workers":1,"morsel_rows":1,"chunk_bytes":1,"distributor_buffer":1,"linearizer_buffer":1"#;

/// An empty file, and a header alone.
const NO_ROWS: &[GroupCase<'static>] = &[
    EMPTY,
    GroupCase {
        files: &[("a.csv", b"id,name\n")],
        ..EMPTY
    },
];

const EMPTY: GroupCase<'static> = GroupCase {
    files: &[("a.csv", b"")],
    scan: r#""files":["a.csv"],"schema":[["id","int"],["name","text"]]"#,
    join: "",
    group: r#""keys":["name"],"aggs":[["len",null,"n"],["sum","id","s"]]"#,
    options: "",
    end: End {
        status: 0,
        told: "0",
        text: Some(""),
    },
};

#[test]
fn no_rows_have_no_groups(rt: HostRuntime) {
    all_hold(&rt, rt.alloc(), NO_ROWS);
}

/// The greatest number, and one more; and the least, and one less.
const SUMS: &[GroupCase<'static>] = &[
    GroupCase {
        files: &[("a.csv", b"g,x\n1,9223372036854775807\n1,1\n1,-1\n")],
        end: End {
            status: 0,
            told: "1",
            text: Some("{\"g\":1,\"s\":9223372036854775807}\n"),
        },
        ..SUM
    },
    SUM,
    GroupCase {
        files: &[("a.csv", b"g,x\n1,-1\n1,-9223372036854775808\n1,1\n")],
        end: End {
            status: 0,
            told: "1",
            text: Some("{\"g\":1,\"s\":-9223372036854775808}\n"),
        },
        ..SUM
    },
    GroupCase {
        files: &[("a.csv", b"g,x\n2,5\n1,-1\n1,-9223372036854775808\n2,7\n")],
        ..SUM
    },
];

/// A sum that is no number of 64 bits, before any row is written.
const SUM: GroupCase<'static> = GroupCase {
    files: &[("a.csv", b"g,x\n1,9223372036854775807\n1,1\n")],
    scan: r#""files":["a.csv"],"schema":[["g","int"],["x","int"]]"#,
    group: r#""keys":["g"],"aggs":[["sum","x","s"]]"#,
    end: End {
        status: 20,
        told: "error 10: sum too large",
        text: Some(""),
    },
    ..EMPTY
};

#[test]
fn a_sum_may_leave_64_bits_and_come_back(rt: HostRuntime) {
    all_hold(&rt, rt.alloc(), SUMS);
    for case in SUMS {
        let small = GroupCase {
            options: SMALL,
            ..*case
        };
        holds(&rt, rt.alloc(), small);
    }
}

/// Three groups.
const THREE: End<'static> = End {
    status: 0,
    told: "3",
    text: None,
};

/// Values of each type with nulls among them, by a key that is null in two rows; of one key all values are null.
const VALUES: GroupCase<'static> = GroupCase {
    files: &[(
        "a.csv",
        b"k,i,b,t\n1,5,true,b\n,3,True,c\n1,,,\n2,,,\n1,-7,false,a\n1,9,,c\n,4,,\n1,2,true,bb\n",
    )],
    scan: r#""files":["a.csv"],"schema":[["k","int"],["i","int"],["b","bool"],["t","text"]]"#,
    group: r#""keys":["k"],"aggs":[["len",null,"n"],["sum","i","s"]]"#,
    end: End {
        text: Some(
            "{\"k\":1,\"n\":5,\"s\":9}\n{\"k\":2,\"n\":1,\"s\":0}\n{\"k\":null,\"n\":2,\"s\":7}\n",
        ),
        ..THREE
    },
    ..EMPTY
};

/// Each reduction of each type that it has.
pub const REDUCTIONS: &[GroupCase<'static>] = &[
    VALUES,
    GroupCase {
        group: r#""keys":["k"],"aggs":[["min","i","i"],["min","b","b"],["min","t","t"]]"#,
        end: End {
            text: Some(
                "{\"k\":1,\"i\":-7,\"b\":false,\"t\":\"a\"}\n{\"k\":2,\"i\":null,\"b\":null,\"t\":null}\n{\"k\":null,\"i\":3,\"b\":true,\"t\":\"c\"}\n",
            ),
            ..THREE
        },
        ..VALUES
    },
    GroupCase {
        group: r#""keys":["k"],"aggs":[["max","i","i"],["max","b","b"],["max","t","t"]]"#,
        end: End {
            text: Some(
                "{\"k\":1,\"i\":9,\"b\":true,\"t\":\"c\"}\n{\"k\":2,\"i\":null,\"b\":null,\"t\":null}\n{\"k\":null,\"i\":4,\"b\":true,\"t\":\"c\"}\n",
            ),
            ..THREE
        },
        ..VALUES
    },
    GroupCase {
        group: r#""keys":["k"],"aggs":[["first","i","i"],["first","b","b"],["first","t","t"]]"#,
        end: End {
            text: Some(
                "{\"k\":1,\"i\":5,\"b\":true,\"t\":\"b\"}\n{\"k\":2,\"i\":null,\"b\":null,\"t\":null}\n{\"k\":null,\"i\":3,\"b\":true,\"t\":\"c\"}\n",
            ),
            ..THREE
        },
        ..VALUES
    },
    GroupCase {
        group: r#""keys":["k"],"aggs":[["last","i","i"],["last","b","b"],["last","t","t"]]"#,
        end: End {
            text: Some(
                "{\"k\":1,\"i\":2,\"b\":true,\"t\":\"bb\"}\n{\"k\":2,\"i\":null,\"b\":null,\"t\":null}\n{\"k\":null,\"i\":4,\"b\":null,\"t\":null}\n",
            ),
            ..THREE
        },
        ..VALUES
    },
];

#[test]
fn each_reduction_of_each_type_knows_nulls(rt: HostRuntime) {
    all_hold(&rt, rt.alloc(), REDUCTIONS);
}

/// Keys of each type: a null is a key of its own, beside the empty text; and keys of two columns, in the order of the query.
const KEYS: &[GroupCase<'static>] = &[
    GroupCase {
        files: &[("a.csv", b"t,v\n\"\",1\n,2\nx,4\n\"\",8\n,16\n")],
        scan: r#""files":["a.csv"],"schema":[["t","text"],["v","int"]]"#,
        group: r#""keys":["t"],"aggs":[["sum","v","s"]]"#,
        end: End {
            text: Some("{\"t\":\"\",\"s\":9}\n{\"t\":null,\"s\":18}\n{\"t\":\"x\",\"s\":4}\n"),
            ..THREE
        },
        ..VALUES
    },
    GroupCase {
        files: &[("a.csv", b"b,v\ntrue,1\nfalse,2\n,4\nTRUE,8\n")],
        scan: r#""files":["a.csv"],"schema":[["b","bool"],["v","int"]]"#,
        group: r#""keys":["b"],"aggs":[["sum","v","s"]]"#,
        end: End {
            text: Some("{\"b\":true,\"s\":9}\n{\"b\":false,\"s\":2}\n{\"b\":null,\"s\":4}\n"),
            ..THREE
        },
        ..VALUES
    },
    GroupCase {
        files: &[(
            "a.csv",
            b"a,b,v\n1,x,1\n1,y,2\n2,x,4\n1,x,8\n,x,16\n1,,32\n,,64\n",
        )],
        scan: r#""files":["a.csv"],"schema":[["a","int"],["b","text"],["v","int"]]"#,
        group: r#""keys":["b","a"],"aggs":[["sum","v","s"]]"#,
        end: End {
            status: 0,
            told: "6",
            text: Some(
                "{\"b\":\"x\",\"a\":1,\"s\":9}\n{\"b\":\"y\",\"a\":1,\"s\":2}\n{\"b\":\"x\",\"a\":2,\"s\":4}\n{\"b\":\"x\",\"a\":null,\"s\":16}\n{\"b\":null,\"a\":1,\"s\":32}\n{\"b\":null,\"a\":null,\"s\":64}\n",
            ),
        },
        ..VALUES
    },
    // The distinct keys alone, and a scan that is filtered and sliced before.
    GroupCase {
        group: r#""keys":["k"]"#,
        end: End {
            text: Some("{\"k\":1}\n{\"k\":2}\n{\"k\":null}\n"),
            ..THREE
        },
        ..VALUES
    },
    GroupCase {
        scan: r#""files":["a.csv","a.csv"],"schema":[["k","int"],["i","int"],["b","bool"],["t","text"]],"slice":[5,5],"filter":["notnull","i"],"path":"p","columns":["k","i"]"#,
        group: r#""keys":["p"],"aggs":[["len",null,"n"],["sum","i","s"],["max","k","k"]]"#,
        end: End {
            status: 0,
            told: "1",
            text: Some("{\"p\":\"a.csv\",\"n\":5,\"s\":23,\"k\":1}\n"),
        },
        ..VALUES
    },
];

#[test]
fn a_key_is_the_values_of_its_columns(rt: HostRuntime) {
    all_hold(&rt, rt.alloc(), KEYS);
}

/// First and last lines of hosts, whose rows come between one another, and of which values are null.
const LINES: GroupCase<'static> = GroupCase {
    files: &[(
        "a.csv",
        b"host,line\nweb1,a\nweb2,\nweb1,b\nweb3,c\nweb2,d\nweb1,\n",
    )],
    scan: r#""files":["a.csv"],"schema":[["host","text"],["line","text"]],"row_index":["at",1]"#,
    group: r#""keys":["host"],"aggs":[["first","at","from"],["first","line","first"],["last","at","to"],["last","line","last"]]"#,
    end: End {
        text: Some(
            "{\"host\":\"web1\",\"from\":1,\"first\":\"a\",\"to\":6,\"last\":null}\n{\"host\":\"web2\",\"from\":2,\"first\":null,\"to\":5,\"last\":\"d\"}\n{\"host\":\"web3\",\"from\":4,\"first\":\"c\",\"to\":4,\"last\":\"c\"}\n",
        ),
        ..THREE
    },
    ..VALUES
};

#[test]
fn first_and_last_go_by_the_order_of_the_rows(rt: HostRuntime) {
    let small = GroupCase {
        options: SMALL,
        ..LINES
    };
    all_hold(&rt, rt.alloc(), &[LINES, small]);
}

/// A field that does not fit its column, and a record with an open quote, behind rows that were grouped: no row is written.
const FAULTY: &[GroupCase<'static>] = &[
    GroupCase {
        files: &[("a.csv", b"g,x\n1,1\n2,2\n1,one\n")],
        end: End {
            status: 20,
            told: "error 10: ill typed, file 0, at 12",
            text: Some(""),
        },
        ..SUM
    },
    GroupCase {
        files: &[("a.csv", b"g,x\n1,1\n2,\"2")],
        options: SMALL,
        end: End {
            status: 15,
            told: "error 5: malformed file 0 at 8",
            text: Some(""),
        },
        ..SUM
    },
];

#[test]
fn a_faulty_record_leaves_no_row(rt: HostRuntime) {
    all_hold(&rt, rt.alloc(), FAULTY);
}

/// What is asked of a group-by, and the status and line with which it is refused before a file is opened.
type Refusal = (&'static str, u8, &'static str);

const REFUSED: &[Refusal] = &[
    (
        r#""keys":[],"aggs":[["len",null,"n"]]"#,
        14,
        "error 4: invalid query: no keys",
    ),
    (
        r#""keys":["k","t","k"]"#,
        14,
        "error 4: invalid query: repeated key",
    ),
    (r#""keys":["q"]"#, 17, "error 7: column not found: q"),
    (
        r#""keys":["k"],"aggs":[["max","q","n"]]"#,
        17,
        "error 7: column not found: q",
    ),
    (
        r#""keys":["k"],"aggs":[["sum","i","s"],["sum","t","n"]]"#,
        18,
        "error 8: schema mismatch: t",
    ),
    (
        r#""keys":["k"],"aggs":[["sum","b","n"]]"#,
        18,
        "error 8: schema mismatch: b",
    ),
    (
        r#""keys":["k"],"aggs":[["len",null,"k"]]"#,
        19,
        "error 9: duplicate column: k",
    ),
    (
        r#""keys":["k"],"aggs":[["min","i","n"],["max","i","n"]]"#,
        19,
        "error 9: duplicate column: n",
    ),
    (
        r#""keys":["k"],"aggs":[["len","i","n"]]"#,
        21,
        "error 11: query text",
    ),
    (
        r#""keys":["k"],"aggs":[["sum",null,"n"]]"#,
        21,
        "error 11: query text",
    ),
    (
        r#""keys":["k"],"aggs":[["mean","i","n"]]"#,
        21,
        "error 11: query text",
    ),
    (r#""aggs":[["len",null,"n"]]"#, 21, "error 11: query text"),
];

/// The case of a refusal.
fn refused(refusal: Refusal) -> GroupCase<'static> {
    let (group, status, told) = refusal;
    GroupCase {
        files: &[],
        group,
        end: End {
            status,
            told,
            text: None,
        },
        ..VALUES
    }
}

#[test]
fn a_group_by_that_cannot_be_is_refused(rt: HostRuntime) {
    for refusal in REFUSED {
        holds(&rt, rt.alloc(), refused(*refusal));
    }
}
