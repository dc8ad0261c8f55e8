//! Queries with a join of two small files and a group-by, against groups that were worked out by hand.
use super::End;
use super::groups::{GroupCase, SMALL, holds};
use std::alloc::Global;
use std::mem::drop;
use std::process::Abort;

/// Orders, and the customers that they are of.
pub const ORDERS: GroupCase<'static> = GroupCase {
    files: &[
        ("l.csv", b"id,cust,amount\n1,7,250\n2,8,100\n3,7,50\n"),
        ("r.csv", b"cust,name\n7,Ann\n8,Bo\n"),
    ],
    scan: r#""files":["l.csv"],"schema":[["id","int"],["cust","int"],["amount","int"]]"#,
    join: r#""join":{"right":{"format":"csv","files":["r.csv"],"schema":[["cust","int"],["name","text"]]},"on":[["cust","cust"]]},"#,
    group: r#""keys":["name"],"aggs":[["sum","amount","total"],["len",null,"n"]]"#,
    options: "",
    end: End {
        status: 0,
        told: "2",
        text: Some(
            "{\"name\":\"Ann\",\"total\":300,\"n\":2}\n{\"name\":\"Bo\",\"total\":100,\"n\":1}\n",
        ),
    },
};

#[test]
fn customers_have_the_totals_of_their_orders(rt: HostRuntime) {
    holds(&rt, rt.alloc(), ORDERS);
}

/// A join by its kind and its order, how many groups its rows have by `k`, and the groups.
pub type Kind = (&'static str, &'static str, &'static str, &'static str);

/// Two rows of one key on either side, a key on one side alone, and a null on each: how many rows each key has, the first `v` and the last
/// `w`, which go by the promised order.
pub const KINDS: &[Kind] = &[
    (
        "inner",
        "left_right",
        "1",
        "{\"k\":2,\"n\":4,\"v\":\"b\",\"w\":\"z\"}\n",
    ),
    (
        "inner",
        "right_left",
        "1",
        "{\"k\":2,\"n\":4,\"v\":\"b\",\"w\":\"z\"}\n",
    ),
    (
        "left",
        "left_right",
        "3",
        "{\"k\":1,\"n\":1,\"v\":\"a\",\"w\":null}\n{\"k\":2,\"n\":4,\"v\":\"b\",\"w\":\"z\"}\n{\"k\":null,\"n\":1,\"v\":\"d\",\"w\":null}\n",
    ),
    (
        "left",
        "right_left",
        "3",
        "{\"k\":1,\"n\":1,\"v\":\"a\",\"w\":null}\n{\"k\":2,\"n\":4,\"v\":\"b\",\"w\":\"z\"}\n{\"k\":null,\"n\":1,\"v\":\"d\",\"w\":null}\n",
    ),
    (
        "right",
        "left_right",
        "3",
        "{\"k\":2,\"n\":4,\"v\":\"b\",\"w\":\"z\"}\n{\"k\":3,\"n\":1,\"v\":null,\"w\":\"y\"}\n{\"k\":null,\"n\":1,\"v\":null,\"w\":\"n\"}\n",
    ),
    (
        "right",
        "right_left",
        "3",
        "{\"k\":2,\"n\":4,\"v\":\"b\",\"w\":\"z\"}\n{\"k\":3,\"n\":1,\"v\":null,\"w\":\"y\"}\n{\"k\":null,\"n\":1,\"v\":null,\"w\":\"n\"}\n",
    ),
    // The left row without a key comes before the right one.
    (
        "full",
        "left_right",
        "4",
        "{\"k\":1,\"n\":1,\"v\":\"a\",\"w\":null}\n{\"k\":2,\"n\":4,\"v\":\"b\",\"w\":\"z\"}\n{\"k\":3,\"n\":1,\"v\":null,\"w\":\"y\"}\n{\"k\":null,\"n\":2,\"v\":\"d\",\"w\":\"n\"}\n",
    ),
    // The right one comes first.
    (
        "full",
        "right_left",
        "4",
        "{\"k\":1,\"n\":1,\"v\":\"a\",\"w\":null}\n{\"k\":2,\"n\":4,\"v\":\"b\",\"w\":\"z\"}\n{\"k\":3,\"n\":1,\"v\":null,\"w\":\"y\"}\n{\"k\":null,\"n\":2,\"v\":null,\"w\":null}\n",
    ),
];

/// The query of each kind, but for its join and its groups.
const OF_KIND: GroupCase<'static> = GroupCase {
    files: &[
        ("l.csv", b"k,v\n1,a\n2,b\n2,c\n,d\n"),
        ("r.csv", b"k,w\n2,x\n3,y\n2,z\n,n\n"),
    ],
    scan: r#""files":["l.csv"],"schema":[["k","int"],["v","text"]]"#,
    join: "",
    group: r#""keys":["k"],"aggs":[["len",null,"n"],["first","v","v"],["last","w","w"]]"#,
    options: "",
    end: OF_END,
};

const OF_END: End<'static> = End {
    status: 0,
    told: "",
    text: None,
};

/// The text of the join of a kind.
pub fn join_of(rt: &impl Abort, alloc: Global, kind: Kind) -> String {
    let (how, order, _, _) = kind;
    format!(in alloc;
        "\"join\":{{\"right\":{{\"format\":\"csv\",\"files\":[\"r.csv\"],\"schema\":[[\"k\",\"int\"],[\"w\",\"text\"]]}},\"on\":[[\"k\",\"k\"]],\"kind\":\"{how}\",\"order\":\"{order}\"}},"
    ).expect(rt, "memory")
}

/// The query of a kind with this join and these options.
pub fn case_of<'a>(kind: Kind, join: &'a str, options: &'a str) -> GroupCase<'a> {
    let (_, _, told, text) = kind;
    GroupCase {
        join,
        options,
        end: End {
            status: 0,
            told,
            text: Some(text),
        },
        ..OF_KIND
    }
}

/// The groups of a kind, with these options.
fn is_grouped(rt: &impl Abort, alloc: Global, kind: Kind, options: &str) {
    let join = join_of(rt, alloc, kind);
    holds(rt, alloc, case_of(kind, join.as_str(), options));
    drop(join);
}

#[test]
fn the_rows_of_each_kind_are_grouped(rt: HostRuntime) {
    for kind in KINDS {
        is_grouped(&rt, rt.alloc(), *kind, "");
    }
}

/// The same, with a row and a byte at a time, and one worker.
#[test]
fn the_rows_of_each_kind_are_grouped_by_small_morsels(rt: HostRuntime) {
    for kind in KINDS {
        is_grouped(&rt, rt.alloc(), *kind, SMALL);
    }
}

/// Names of a group-by that its join's rows have not, or have; a sum of the right side's texts; and what they are called there.
const MEETING: &[GroupCase<'static>] = &[
    GroupCase {
        files: &[],
        group: r#""keys":["cust_right"]"#,
        end: End {
            status: 17,
            told: "error 7: column not found: cust_right",
            text: None,
        },
        ..ORDERS
    },
    GroupCase {
        files: &[],
        group: r#""keys":["cust"],"aggs":[["sum","name","s"]]"#,
        end: End {
            status: 18,
            told: "error 8: schema mismatch: name",
            text: None,
        },
        ..ORDERS
    },
    // A key that the join has not comes before one that the group-by has not.
    GroupCase {
        files: &[],
        join: r#""join":{"right":{"format":"csv","files":["r.csv"],"schema":[["cust","int"],["name","text"]]},"on":[["cust","q"]]},"#,
        group: r#""keys":["x"]"#,
        end: End {
            status: 17,
            told: "error 7: column not found: q",
            text: None,
        },
        ..ORDERS
    },
    GroupCase {
        join: r#""join":{"right":{"format":"csv","files":["r.csv"],"schema":[["cust","int"],["name","text"]]},"on":[["cust","cust"]],"kind":"full","coalesce":false},"#,
        group: r#""keys":["cust_right"],"aggs":[["len",null,"n"]]"#,
        end: End {
            status: 0,
            told: "2",
            text: Some("{\"cust_right\":7,\"n\":2}\n{\"cust_right\":8,\"n\":1}\n"),
        },
        ..ORDERS
    },
];

#[test]
fn a_group_by_names_columns_of_its_joins_rows(rt: HostRuntime) {
    for case in MEETING {
        holds(&rt, rt.alloc(), *case);
    }
}
