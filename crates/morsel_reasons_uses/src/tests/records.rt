//! Records that are none, have too many or too few fields, are not UTF-8, or have a field that does not fit.
use super::{Case, all_hold};

/// The second record has too few fields.
const FEW: Case<'static> = Case {
    words: "scan a.csv id:int,name:text,amount:int o",
    files: &[("a.csv", b"id,name,amount\n1,ann,3\n2,bob\n3,c,5\n")],
    line: "error 5: malformed file 0 at 23",
    told: "a.csv:3: byte 23: 2 fields, the schema has 3\n2,bob\n     ^",
};

/// Records that are none, or have another number of fields than there are columns.
const MALFORMED: &[Case<'static>] = &[
    FEW,
    Case {
        files: &[("a.csv", b"id,name,amount\n1,ann,3,4,5\n")],
        line: "error 5: malformed file 0 at 15",
        told: "a.csv:2: byte 15: 5 fields, the schema has 3\n1,ann,3,4,5\n        ^",
        ..FEW
    },
    Case {
        files: &[("a.csv", b"id,name,amount\r\n1\r\n")],
        line: "error 5: malformed file 0 at 16",
        told: "a.csv:2: byte 16: 1 field, the schema has 3\n1\n ^",
        ..FEW
    },
    // An empty record before it is none, and counts as a line.
    Case {
        files: &[("a.csv", b"id,name,amount\n\n\n1,\"ann,3\n2,bob,3\n")],
        line: "error 5: malformed file 0 at 17",
        told: "a.csv:4: byte 17: the quote that opens field 2 (\"name\") is not closed\n1,\"ann,3\\n2,bob,3\\n\n  ^",
        ..FEW
    },
    Case {
        files: &[("a.csv", b"id,name,amount\n1,\"ann\" b,3\n")],
        line: "error 5: malformed file 0 at 15",
        told: "a.csv:2: byte 15: text after the closing quote of field 2 (\"name\")\n1,\"ann\" b,3\n       ^",
        ..FEW
    },
    Case {
        files: &[("a.csv", b"id,name,amount\n1,\"a\"\"n\"\rn,3\n")],
        line: "error 5: malformed file 0 at 15",
        told: "a.csv:2: byte 15: text after the closing quote of field 2 (\"name\")\n1,\"a\"\"n\"\\rn,3\n        ^",
        ..FEW
    },
    // A field past the schema has no name.
    Case {
        files: &[("a.csv", b"id,name,amount\n1,ann,3,\"\n")],
        line: "error 5: malformed file 0 at 15",
        told: "a.csv:2: byte 15: the quote that opens field 4 is not closed\n1,ann,3,\"\\n\n        ^",
        ..FEW
    },
    // The header is a record too.
    Case {
        files: &[("a.csv", b"\xEF\xBB\xBFid,\"name\"s,amount\n1,ann,3\n")],
        line: "error 5: malformed file 0 at 3",
        told: "a.csv:1: byte 3: text after the closing quote of field 2 (\"name\")\nid,\"name\"s,amount\n         ^",
        ..FEW
    },
    // Lines within a field that is quoted count.
    Case {
        files: &[("a.csv", b"id,name,amount\n1,\"a\nn\nn\",3\n2,bob\n")],
        line: "error 5: malformed file 0 at 27",
        told: "a.csv:5: byte 27: 2 fields, the schema has 3\n2,bob\n     ^",
        ..FEW
    },
    // The file has changed: the record is one.
    Case {
        files: &[("a.csv", b"id,name,amount\n1,ann,3\n")],
        line: "error 5: malformed file 0 at 15",
        told: "a.csv:2: byte 15",
        ..FEW
    },
    // The file is gone, or shorter than it was.
    Case {
        files: &[],
        told: "a.csv: byte 23",
        ..FEW
    },
    Case {
        files: &[("a.csv", b"id\n")],
        told: "a.csv: byte 23",
        ..FEW
    },
];

#[test]
fn records_that_are_none_are_told(rt: HostRuntime) {
    all_hold(&rt, rt.alloc(), MALFORMED);
}

/// A field that does not fit its column.
const MISFIT: Case<'static> = Case {
    files: &[("a.csv", b"id,name,amount\n1,ann,12.50\n")],
    line: "error 10: ill typed, file 0, at 15",
    told: "a.csv:2: byte 15: field 3 (\"amount\"): \"12.50\" is no int\n1,ann,12.50\n      ^",
    ..FEW
};

/// Fields that do not fit, and bytes that are no characters.
const ILL_TYPED: &[Case<'static>] = &[
    MISFIT,
    Case {
        files: &[("a.csv", b"id,name,amount\n9223372036854775808,ann,1\n")],
        told: "a.csv:2: byte 15: field 1 (\"id\"): \"9223372036854775808\" is past the 64 bits of an int\n9223372036854775808,ann,1\n^",
        ..MISFIT
    },
    // An empty field is null, and an empty text is no number.
    Case {
        files: &[("a.csv", b"id,name,amount\n,,\"\"\n")],
        told: "a.csv:2: byte 15: field 3 (\"amount\"): \"\" is no int\n,,\"\"\n  ^",
        ..MISFIT
    },
    Case {
        words: "scan a.csv id:int,ok:bool o",
        files: &[("a.csv", b"id,ok\r\n1,yes\r\n")],
        line: "error 10: ill typed, file 0, at 7",
        told: "a.csv:2: byte 7: field 2 (\"ok\"): \"yes\" is no bool: true or false\n1,yes\n  ^",
    },
    Case {
        files: &[("a.csv", b"id,name,amount\n1,M\xC3\xBCller \x1B[2J,x\n")],
        told: "a.csv:2: byte 15: field 3 (\"amount\"): \"x\" is no int\n1,M\u{fc}ller \\u{1b}[2J,x\n                   ^",
        ..MISFIT
    },
    // Of a long record, what is around the mark is shown.
    Case {
        files: &[(
            "a.csv",
            b"id,name,amount\nz,xxxxxxxxxxxxxxxxxxxxxxxxxxxxxxxxxxxxxxxxxxxxxxxxxxxxxxxxxxxxxxxxxxxxxxxxxxxxxxxxxxxxxxxxxxxxxxxxxxxxxxxxxxxxxxxxxxxxxxxxxxxxxxxxxxxxxxxxxxxxxxxxxxxxxxxxxxxxxxxxxxxxxxxxxxxxxxxxxxxxxxxxxxxxxxxxxxxxxxxxxxxxxxxxxxxxxxxxxxxxxxxxxxxxxxxxxxxxxxxxxxxxxxxxxx,1\n",
        )],
        told: "a.csv:2: byte 15: field 1 (\"id\"): \"z\" is no int\nz,xxxxxxxxxxxxxxxxxxxxxxxxxxxxxxxxxxxxxxxxxxxxxxxxxxxxxxxxxxxxxxxxxxxxxxxxxxxxxxxxxxxxxxxxxxxxxxxxxxxxxxxxxxxxxxxxxxxxxxxxxxxxxxxxxxxxxxxxxxxxxxxxxxxxxxxxxxxxxxxxxxxxxxxxxxxxxxxxxxxxxxxxxxxxxxxxxxxxxx..\n^",
        ..MISFIT
    },
    Case {
        files: &[(
            "a.csv",
            b"id,name,amount\n1,xxxxxxxxxxxxxxxxxxxxxxxxxxxxxxxxxxxxxxxxxxxxxxxxxxxxxxxxxxxxxxxxxxxxxxxxxxxxxxxxxxxxxxxxxxxxxxxxxxxxxxxxxxxxxxxxxxxxxxxxxxxxxxxxxxxxxxxxxxxxxxxxxxxxxxxxxxxxxxxxxxxxxxxxxxxxxxxxxxxxxxxxxxxxxxxxxxxxxxxxxxxxxxxxxxxxxxxxxxxxxxxxxxxxxxxxxxxxxxxxxxxxxxxxxx,2.5\n",
        )],
        told: "a.csv:2: byte 15: field 3 (\"amount\"): \"2.5\" is no int\n..xxxxxxxxxxxxxxxxxxxxxxxxxxxxxxxxxxxxxxxxxxxxxxxxxxxxxxxxxxx,2.5\n                                                              ^",
        ..MISFIT
    },
    Case {
        files: &[(
            "a.csv",
            b"id,name,amount\nyyyyyyyyyyyyyyyyyyyyyyyyyyyyyyyyyyyyyyyyyyyyyyyyyyyyyyyyyyyy,a,1\n",
        )],
        told: "a.csv:2: byte 15: field 1 (\"id\"): \"yyyyyyyyyyyyyyyyyyyyyyyyyyyyyyyyyyyyyyyy..\" is no int\nyyyyyyyyyyyyyyyyyyyyyyyyyyyyyyyyyyyyyyyyyyyyyyyyyyyyyyyyyyyy,a,1\n^",
        ..MISFIT
    },
    Case {
        files: &[("a.csv", b"id,name,amount\n1,Caf\xE9,3\n")],
        line: "error 10: not utf8, file 0, at 15",
        told: "a.csv:2: byte 15: not UTF-8: byte 0xE9\n1,Caf\\xe9,3\n     ^",
        ..MISFIT
    },
    Case {
        files: &[("a.csv", b"id,name,amount\n1,\xC3")],
        line: "error 10: not utf8, file 0, at 15",
        told: "a.csv:2: byte 15: not UTF-8: byte 0xC3\n1,\\xc3\n  ^",
        ..MISFIT
    },
];

#[test]
fn fields_that_do_not_fit_are_told(rt: HostRuntime) {
    all_hold(&rt, rt.alloc(), ILL_TYPED);
}

/// A query of which one column is not used.
const QUERY: &[u8] =
    br#"{"left":{"format":"csv","files":["x.csv","b.csv"],"schema":[["id","int"],["n","int"],["m","int"]],"csv":{"separator":";","quote":"'","null":"-","has_header":false},"columns":["m"],"filter":["and",["gt","id",{"lit":1}],["null","m"]]},"sink":{"format":"ndjson"}}"#;

/// Records of a query's second file.
const QUERIED: &[Case<'static>] = &[
    Case {
        words: "local q o",
        files: &[("q", QUERY), ("b.csv", b"1;x;-\n2;y;'z'\n")],
        line: "error 10: ill typed, file 1, at 6",
        told: "b.csv:2: byte 6: field 3 (\"m\"): \"z\" is no int\n2;y;'z'\n    ^",
    },
    Case {
        words: "local q o",
        files: &[("q", QUERY), ("b.csv", b"1;x;-\n2;'y;\"z\"\n")],
        line: "error 5: malformed file 1 at 6",
        told: "b.csv:2: byte 6: the quote that opens field 2 (\"n\") is not closed\n2;'y;\"z\"\\n\n  ^",
    },
    // The filter speaks of it.
    Case {
        words: "local q o",
        files: &[("q", QUERY), ("b.csv", b"a;x;1\n")],
        line: "error 10: ill typed, file 1, at 0",
        told: "b.csv:1: byte 0: field 1 (\"id\"): \"a\" is no int\na;x;1\n^",
    },
    // The query is gone, or has no such file.
    Case {
        words: "local q o",
        files: &[("b.csv", b"a;x;1\n")],
        line: "error 10: ill typed, file 1, at 0",
        told: "",
    },
    Case {
        words: "local q o",
        files: &[("q", QUERY), ("b.csv", b"a;x;1\n")],
        line: "error 10: ill typed, file 2, at 0",
        told: "",
    },
];

#[test]
fn records_of_a_query_are_told(rt: HostRuntime) {
    all_hold(&rt, rt.alloc(), QUERIED);
}
