//! Queries with a join of two small files, against rows that were worked out by hand.
use super::{End, LOCAL, Run, ends};
use std::alloc::Global;
use std::mem::drop;
use std::process::Abort;

/// A query with a join of `l.csv` and `r.csv`, and how it ends.
#[derive(Clone, Copy)]
pub struct JoinCase<'a> {
    /// The two files, and their bytes.
    pub files: &'a [(&'a str, &'a [u8])],
    /// The schema of the left one.
    pub left: &'a str,
    /// That of the right one.
    pub right: &'a str,
    /// What the query says of its join beside the right scan.
    pub join: &'a str,
    /// What it says of its options.
    pub options: &'a str,
    /// How it ends.
    pub end: End<'a>,
}

/// The text of its query.
pub fn query_of_join(rt: &impl Abort, alloc: Global, case: JoinCase<'_>) -> String {
    let JoinCase {
        left,
        right,
        join,
        options,
        ..
    } = case;
    format!(in alloc;
        "{{\"left\":{{\"format\":\"csv\",\"files\":[\"l.csv\"],\"schema\":{left}}},\"join\":{{\"right\":{{\"format\":\"csv\",\"files\":[\"r.csv\"],\"schema\":{right}}},{join}}},\"sink\":{{\"format\":\"ndjson\"}},\"options\":{{{options}}}}}"
    ).expect(rt, "memory")
}

/// The case holds.
fn holds(rt: &impl Abort, alloc: Global, case: JoinCase<'static>) {
    let query = query_of_join(rt, alloc, case);
    let run = Run {
        files: case.files,
        ..LOCAL
    };
    ends(rt, alloc, run, b"", query.as_bytes(), case.end);
    drop(query);
}

/// Each case of a table holds.
fn all_hold(rt: &impl Abort, alloc: Global, table: &[JoinCase<'static>]) {
    for case in table {
        holds(rt, alloc, *case);
    }
}

/// Keys that are null on either side, and one that two left rows have.
const NULL_KEYS: JoinCase<'static> = JoinCase {
    files: &[
        ("l.csv", b"k,v\n1,a\n1,b\n,c\n"),
        ("r.csv", b"k,w\n1,x\n,y\n2,z\n"),
    ],
    left: r#"[["k","int"],["v","text"]]"#,
    right: r#"[["k","int"],["w","text"]]"#,
    join: r#""on":[["k","k"]],"kind":"full","order":"left_right","coalesce":false"#,
    options: "",
    end: UNEQUAL_NULLS,
};

const UNEQUAL_NULLS: End<'static> = End {
    status: 0,
    told: "5",
    text: Some(
        "{\"k\":1,\"v\":\"a\",\"k_right\":1,\"w\":\"x\"}\n{\"k\":1,\"v\":\"b\",\"k_right\":1,\"w\":\"x\"}\n{\"k\":null,\"v\":\"c\",\"k_right\":null,\"w\":null}\n{\"k\":null,\"v\":null,\"k_right\":null,\"w\":\"y\"}\n{\"k\":null,\"v\":null,\"k_right\":2,\"w\":\"z\"}\n",
    ),
};

const EQUAL_NULLS: End<'static> = End {
    status: 0,
    told: "4",
    text: Some(
        "{\"k\":1,\"v\":\"a\",\"k_right\":1,\"w\":\"x\"}\n{\"k\":1,\"v\":\"b\",\"k_right\":1,\"w\":\"x\"}\n{\"k\":null,\"v\":\"c\",\"k_right\":null,\"w\":\"y\"}\n{\"k\":null,\"v\":null,\"k_right\":2,\"w\":\"z\"}\n",
    ),
};

const WITH_NULLS: &str =
    r#""on":[["k","k"]],"kind":"full","order":"left_right","coalesce":false,"nulls":true"#;

/// A null is equal to no null, or to each; with the options as they are, and with one worker and one row or byte at a time.
const NULLS: &[JoinCase<'static>] = &[
    NULL_KEYS,
    JoinCase {
        join: WITH_NULLS,
        end: EQUAL_NULLS,
        ..NULL_KEYS
    },
    JoinCase {
        options: r#""workers":1,"morsel_rows":1"#,
        ..NULL_KEYS
    },
    JoinCase {
        join: WITH_NULLS,
        options: r#""workers":1,"morsel_rows":1"#,
        end: EQUAL_NULLS,
        ..NULL_KEYS
    },
    JoinCase {
        options: r#""chunk_bytes":1,"morsel_rows":1"#,
        ..NULL_KEYS
    },
];

#[test]
fn nulls_are_equal_where_the_query_says_so(rt: HostRuntime) {
    all_hold(&rt, rt.alloc(), NULLS);
}

/// A left column that has the name of the right one with its suffix: nothing is opened, and no sink made.
const CLASH: JoinCase<'static> = JoinCase {
    files: &[],
    left: r#"[["a","int"],["b","int"],["b_right","int"]]"#,
    right: r#"[["a","int"],["b","int"]]"#,
    join: r#""on":[["a","a"]]"#,
    options: "",
    end: End {
        status: 19,
        told: "error 9: duplicate column: b_right",
        text: None,
    },
};

#[test]
fn a_suffixed_name_that_a_left_column_has_is_a_duplicate(rt: HostRuntime) {
    all_hold(&rt, rt.alloc(), &[CLASH]);
}

/// Keys of two names, which become one column.
const MERGED: JoinCase<'static> = JoinCase {
    files: &[("l.csv", b"a,x\n1,p\n2,q\n"), ("r.csv", b"k,y\n2,r\n3,s\n")],
    left: r#"[["a","int"],["x","text"]]"#,
    right: r#"[["k","int"],["y","text"]]"#,
    join: r#""on":[["a","k"]],"kind":"full","order":"left_right""#,
    options: "",
    end: End {
        status: 0,
        told: "3",
        text: Some(
            "{\"a\":1,\"x\":\"p\",\"y\":null}\n{\"a\":2,\"x\":\"q\",\"y\":\"r\"}\n{\"a\":3,\"x\":null,\"y\":\"s\"}\n",
        ),
    },
};

#[test]
fn a_key_of_a_full_join_is_that_of_either_side(rt: HostRuntime) {
    all_hold(&rt, rt.alloc(), &[MERGED]);
}

/// No left rows, and neither.
const EMPTY: &[JoinCase<'static>] = &[
    JoinCase {
        files: &[("l.csv", b"k,v\n"), ("r.csv", b"k,w\n1,x\n")],
        join: r#""on":[["k","k"]],"kind":"right""#,
        end: End {
            status: 0,
            told: "1",
            text: Some("{\"v\":null,\"k\":1,\"w\":\"x\"}\n"),
        },
        ..NULL_KEYS
    },
    JoinCase {
        files: &[("l.csv", b""), ("r.csv", b"k,w\n1,x\n")],
        join: r#""on":[["k","k"]],"kind":"left""#,
        end: NONE,
        ..NULL_KEYS
    },
    JoinCase {
        files: &[("l.csv", b"k,v\n"), ("r.csv", b"")],
        join: r#""on":[["k","k"]],"kind":"full""#,
        end: NONE,
        ..NULL_KEYS
    },
];

const NONE: End<'static> = End {
    status: 0,
    told: "0",
    text: Some(""),
};

#[test]
fn a_side_may_be_empty(rt: HostRuntime) {
    all_hold(&rt, rt.alloc(), EMPTY);
}

/// Orders, and the customers that they are of.
const ORDERS: JoinCase<'static> = JoinCase {
    files: &[
        ("l.csv", b"id,cust,amount\n1,7,250\n2,8,100\n3,7,50\n"),
        ("r.csv", b"cust,name\n7,Ann\n8,Bo\n"),
    ],
    left: r#"[["id","int"],["cust","int"],["amount","int"]]"#,
    right: r#"[["cust","int"],["name","text"]]"#,
    join: r#""on":[["cust","cust"]],"order":"left""#,
    options: "",
    end: End {
        status: 0,
        told: "3",
        text: Some(
            "{\"id\":1,\"cust\":7,\"amount\":250,\"name\":\"Ann\"}\n{\"id\":2,\"cust\":8,\"amount\":100,\"name\":\"Bo\"}\n{\"id\":3,\"cust\":7,\"amount\":50,\"name\":\"Ann\"}\n",
        ),
    },
};

#[test]
fn orders_have_the_names_of_their_customers(rt: HostRuntime) {
    all_hold(&rt, rt.alloc(), &[ORDERS]);
}

/// Two rows of one key on either side, a key on one side alone, and a null on each.
const FOURS: JoinCase<'static> = JoinCase {
    files: &[
        ("l.csv", b"k,v\n1,a\n2,b\n2,c\n,d\n"),
        ("r.csv", b"k,w\n2,x\n3,y\n2,z\n,n\n"),
    ],
    join: "",
    end: NONE,
    ..NULL_KEYS
};

/// Each kind, in the two orders that say where each row is.
pub const KINDS: &[JoinCase<'static>] = &[
    JoinCase {
        join: r#""on":[["k","k"]],"kind":"inner","order":"left_right""#,
        end: End {
            status: 0,
            told: "4",
            text: Some(
                "{\"k\":2,\"v\":\"b\",\"w\":\"x\"}\n{\"k\":2,\"v\":\"b\",\"w\":\"z\"}\n{\"k\":2,\"v\":\"c\",\"w\":\"x\"}\n{\"k\":2,\"v\":\"c\",\"w\":\"z\"}\n",
            ),
        },
        ..FOURS
    },
    JoinCase {
        join: r#""on":[["k","k"]],"kind":"inner","order":"right_left""#,
        end: End {
            status: 0,
            told: "4",
            text: Some(
                "{\"k\":2,\"v\":\"b\",\"w\":\"x\"}\n{\"k\":2,\"v\":\"c\",\"w\":\"x\"}\n{\"k\":2,\"v\":\"b\",\"w\":\"z\"}\n{\"k\":2,\"v\":\"c\",\"w\":\"z\"}\n",
            ),
        },
        ..FOURS
    },
    JoinCase {
        join: r#""on":[["k","k"]],"kind":"left","order":"left_right""#,
        end: End {
            status: 0,
            told: "6",
            text: Some(
                "{\"k\":1,\"v\":\"a\",\"w\":null}\n{\"k\":2,\"v\":\"b\",\"w\":\"x\"}\n{\"k\":2,\"v\":\"b\",\"w\":\"z\"}\n{\"k\":2,\"v\":\"c\",\"w\":\"x\"}\n{\"k\":2,\"v\":\"c\",\"w\":\"z\"}\n{\"k\":null,\"v\":\"d\",\"w\":null}\n",
            ),
        },
        ..FOURS
    },
    JoinCase {
        join: r#""on":[["k","k"]],"kind":"left","order":"right_left""#,
        end: End {
            status: 0,
            told: "6",
            text: Some(
                "{\"k\":2,\"v\":\"b\",\"w\":\"x\"}\n{\"k\":2,\"v\":\"c\",\"w\":\"x\"}\n{\"k\":2,\"v\":\"b\",\"w\":\"z\"}\n{\"k\":2,\"v\":\"c\",\"w\":\"z\"}\n{\"k\":1,\"v\":\"a\",\"w\":null}\n{\"k\":null,\"v\":\"d\",\"w\":null}\n",
            ),
        },
        ..FOURS
    },
    JoinCase {
        join: r#""on":[["k","k"]],"kind":"right","order":"left_right""#,
        end: End {
            status: 0,
            told: "6",
            text: Some(
                "{\"v\":\"b\",\"k\":2,\"w\":\"x\"}\n{\"v\":\"b\",\"k\":2,\"w\":\"z\"}\n{\"v\":\"c\",\"k\":2,\"w\":\"x\"}\n{\"v\":\"c\",\"k\":2,\"w\":\"z\"}\n{\"v\":null,\"k\":3,\"w\":\"y\"}\n{\"v\":null,\"k\":null,\"w\":\"n\"}\n",
            ),
        },
        ..FOURS
    },
    JoinCase {
        join: r#""on":[["k","k"]],"kind":"right","order":"right_left""#,
        end: End {
            status: 0,
            told: "6",
            text: Some(
                "{\"v\":\"b\",\"k\":2,\"w\":\"x\"}\n{\"v\":\"c\",\"k\":2,\"w\":\"x\"}\n{\"v\":null,\"k\":3,\"w\":\"y\"}\n{\"v\":\"b\",\"k\":2,\"w\":\"z\"}\n{\"v\":\"c\",\"k\":2,\"w\":\"z\"}\n{\"v\":null,\"k\":null,\"w\":\"n\"}\n",
            ),
        },
        ..FOURS
    },
    JoinCase {
        join: r#""on":[["k","k"]],"kind":"full","order":"left_right""#,
        end: End {
            status: 0,
            told: "8",
            text: Some(
                "{\"k\":1,\"v\":\"a\",\"w\":null}\n{\"k\":2,\"v\":\"b\",\"w\":\"x\"}\n{\"k\":2,\"v\":\"b\",\"w\":\"z\"}\n{\"k\":2,\"v\":\"c\",\"w\":\"x\"}\n{\"k\":2,\"v\":\"c\",\"w\":\"z\"}\n{\"k\":null,\"v\":\"d\",\"w\":null}\n{\"k\":3,\"v\":null,\"w\":\"y\"}\n{\"k\":null,\"v\":null,\"w\":\"n\"}\n",
            ),
        },
        ..FOURS
    },
    JoinCase {
        join: r#""on":[["k","k"]],"kind":"full","order":"right_left""#,
        end: End {
            status: 0,
            told: "8",
            text: Some(
                "{\"k\":2,\"v\":\"b\",\"w\":\"x\"}\n{\"k\":2,\"v\":\"c\",\"w\":\"x\"}\n{\"k\":3,\"v\":null,\"w\":\"y\"}\n{\"k\":2,\"v\":\"b\",\"w\":\"z\"}\n{\"k\":2,\"v\":\"c\",\"w\":\"z\"}\n{\"k\":null,\"v\":null,\"w\":\"n\"}\n{\"k\":1,\"v\":\"a\",\"w\":null}\n{\"k\":null,\"v\":\"d\",\"w\":null}\n",
            ),
        },
        ..FOURS
    },
    JoinCase {
        join: r#""on":[["k","k"]],"kind":"full","order":"left_right","nulls":true"#,
        end: End {
            status: 0,
            told: "7",
            text: Some(
                "{\"k\":1,\"v\":\"a\",\"w\":null}\n{\"k\":2,\"v\":\"b\",\"w\":\"x\"}\n{\"k\":2,\"v\":\"b\",\"w\":\"z\"}\n{\"k\":2,\"v\":\"c\",\"w\":\"x\"}\n{\"k\":2,\"v\":\"c\",\"w\":\"z\"}\n{\"k\":null,\"v\":\"d\",\"w\":\"n\"}\n{\"k\":3,\"v\":null,\"w\":\"y\"}\n",
            ),
        },
        ..FOURS
    },
    JoinCase {
        join: r#""on":[["k","k"]],"kind":"right","order":"right_left","coalesce":false,"suffix":"_b""#,
        end: End {
            status: 0,
            told: "6",
            text: Some(
                "{\"k\":2,\"v\":\"b\",\"k_b\":2,\"w\":\"x\"}\n{\"k\":2,\"v\":\"c\",\"k_b\":2,\"w\":\"x\"}\n{\"k\":null,\"v\":null,\"k_b\":3,\"w\":\"y\"}\n{\"k\":2,\"v\":\"b\",\"k_b\":2,\"w\":\"z\"}\n{\"k\":2,\"v\":\"c\",\"k_b\":2,\"w\":\"z\"}\n{\"k\":null,\"v\":null,\"k_b\":null,\"w\":\"n\"}\n",
            ),
        },
        ..FOURS
    },
];

#[test]
fn each_kind_has_its_rows_in_the_promised_order(rt: HostRuntime) {
    all_hold(&rt, rt.alloc(), KINDS);
}

/// The same, with a row and a byte at a time, and one worker.
#[test]
fn each_kind_has_the_same_rows_by_small_morsels(rt: HostRuntime) {
    for case in KINDS {
        let small = JoinCase {
            options: r#""workers":1,"morsel_rows":1,"chunk_bytes":1,"distributor_buffer":1,"linearizer_buffer":1"#,
            ..*case
        };
        holds(&rt, rt.alloc(), small);
    }
}

/// What is refused before a file is opened.
const REFUSED: &[JoinCase<'static>] = &[
    JoinCase {
        join: r#""on":[["k","q"]]"#,
        end: End {
            status: 17,
            told: "error 7: column not found: q",
            text: None,
        },
        ..CLASHING
    },
    JoinCase {
        join: r#""on":[["k","w"]]"#,
        end: End {
            status: 18,
            told: "error 8: schema mismatch: k",
            text: None,
        },
        ..CLASHING
    },
    JoinCase {
        join: r#""on":[]"#,
        end: End {
            status: 14,
            told: "error 4: invalid query: no keys",
            text: None,
        },
        ..CLASHING
    },
    JoinCase {
        join: r#""on":[["k","k"],["k","k"]]"#,
        end: End {
            status: 14,
            told: "error 4: invalid query: repeated key",
            text: None,
        },
        ..CLASHING
    },
];

const CLASHING: JoinCase<'static> = JoinCase {
    files: &[],
    ..NULL_KEYS
};

#[test]
fn a_join_that_cannot_be_is_refused(rt: HostRuntime) {
    all_hold(&rt, rt.alloc(), REFUSED);
}

/// A field that does not fit its column, and a record with an open quote, on the right side: its file is the second one.
const FAULTY: &[JoinCase<'static>] = &[
    JoinCase {
        files: &[("l.csv", b"k,v\n1,a\n"), ("r.csv", b"k,w\n1,x\none,y\n")],
        join: r#""on":[["k","k"]]"#,
        end: End {
            status: 20,
            told: "error 10: ill typed, file 1, at 8",
            text: Some("{\"k\":1,\"v\":\"a\",\"w\":\"x\"}\n"),
        },
        ..NULL_KEYS
    },
    JoinCase {
        files: &[("l.csv", b"k,v\n1,\"a"), ("r.csv", b"k,w\n1,x\n")],
        join: r#""on":[["k","k"]],"order":"left""#,
        end: End {
            status: 15,
            told: "error 5: malformed file 0 at 4",
            text: Some(""),
        },
        ..NULL_KEYS
    },
];

#[test]
fn a_fault_of_either_side_is_told_with_its_file(rt: HostRuntime) {
    all_hold(&rt, rt.alloc(), FAULTY);
}
