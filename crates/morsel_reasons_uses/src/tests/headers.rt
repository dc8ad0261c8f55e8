//! Headers with other names than those of the schema.
use super::{Case, all_hold};

/// The names stand the other way around.
const TURNED: Case<'static> = Case {
    words: "scan a.csv id:text,name:text o",
    files: &[("a.csv", b"name,id\nann,1\n")],
    line: "1",
    told: "a.csv:1: warning: field 1 of the header is \"name\", the schema says \"id\"\nname,id\n^",
};

/// Headers of other names, and of the same.
const HEADERS: &[Case<'static>] = &[
    TURNED,
    Case {
        files: &[("a.csv", b"id,\"name\"\r\n1,ann\r\n")],
        told: "",
        ..TURNED
    },
    Case {
        files: &[("a.csv", b"\xEF\xBB\xBF\r\nId,\"nmae\"\r\n1,ann\r\n")],
        told: "a.csv:2: warning: field 2 of the header is \"nmae\", the schema says \"name\"\nId,\"nmae\"\n   ^",
        ..TURNED
    },
    // Capitals are the same names, and a header in another language has none of them.
    Case {
        files: &[("a.csv", b"ID,Name\n1,ann\n")],
        told: "",
        ..TURNED
    },
    Case {
        files: &[("a.csv", b"Nummer,Wer\n1,ann\n")],
        told: "",
        ..TURNED
    },
    Case {
        files: &[("a.csv", b"")],
        line: "0",
        told: "",
        ..TURNED
    },
    Case {
        files: &[],
        told: "",
        ..TURNED
    },
    Case {
        words: "local q o",
        files: &[
            (
                "q",
                br##"{"left":{"format":"csv","files":["a","b"],"schema":[["id","int"],["n","int"]],"csv":{"comment":"#"}},"sink":{"format":"ndjson"}}"##,
            ),
            ("a", b"#x\nid,n\n1,2\n"),
            ("b", b"id,m\n1,2\n"),
        ],
        line: "2",
        told: "b:1: warning: field 2 of the header is \"m\", the schema says \"n\"\nid,m\n   ^",
    },
    Case {
        words: "local q o",
        files: &[
            (
                "q",
                br##"{"left":{"format":"csv","files":["a"],"schema":[["id","int"]],"csv":{"has_header":false}},"sink":{"format":"ndjson"}}"##,
            ),
            ("a", b"7\n1\n"),
        ],
        line: "2",
        told: "",
    },
];

#[test]
fn headers_of_other_names_are_told(rt: HostRuntime) {
    all_hold(&rt, rt.alloc(), HEADERS);
}
