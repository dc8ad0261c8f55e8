//! Words that are no command, and flaws of queries and of their texts.
use super::{Case, all_hold};

/// A command that there is not.
const NO_COMMAND: Case<'static> = Case {
    words: "Local q o",
    files: &[],
    line: "error 12: usage",
    told: "\"Local\" is no command: local, scan, --help, --version",
};

/// Words that are no command.
const USAGE: &[Case<'static>] = &[
    NO_COMMAND,
    Case {
        words: "local q",
        told: "local takes QUERY and OUT",
        ..NO_COMMAND
    },
    Case {
        words: "scan a.csv id:int",
        told: "scan takes FILE, SCHEMA and OUT",
        ..NO_COMMAND
    },
    Case {
        words: "scan a.csv id:int,v:float o",
        told: "SCHEMA: \"float\" is no type: int, bool or text",
        ..NO_COMMAND
    },
    Case {
        words: "scan a.csv id:int,name:text,id:text o",
        told: "SCHEMA: two columns are named id",
        ..NO_COMMAND
    },
    Case {
        words: "scan a.csv id,name:text o",
        told: "SCHEMA: \"id\" has no type, as name:type",
        ..NO_COMMAND
    },
    Case {
        words: "scan a.csv id:int,:text o",
        told: "SCHEMA: column 2 has no name",
        ..NO_COMMAND
    },
    Case {
        words: "scan a.csv id:int, o",
        told: "SCHEMA: column 2 is empty",
        ..NO_COMMAND
    },
    Case {
        words: "--help me",
        told: "--help takes no more words",
        ..NO_COMMAND
    },
    Case {
        words: "scan a.csv id:int a.csv",
        line: "error 4: invalid query: sink is source",
        told: "OUT: \"a.csv\" is a file that is read",
        ..NO_COMMAND
    },
    // There is no more to say.
    Case {
        words: "scan a.csv id:int o",
        line: "2",
        told: "",
        ..NO_COMMAND
    },
    Case {
        words: "scan a.csv id:int o",
        line: "error 1: out of memory",
        told: "",
        ..NO_COMMAND
    },
    Case {
        words: "local q o",
        line: "error 11: query text",
        told: "",
        ..NO_COMMAND
    },
];

#[test]
fn words_that_are_no_command_are_told(rt: HostRuntime) {
    all_hold(&rt, rt.alloc(), USAGE);
}

/// A query that names a column which there is not.
const NO_COLUMN: Case<'static> = Case {
    words: "local q o",
    files: &[(
        "q",
        br#"{"left":{"format":"csv","files":["a"],"schema":[["id","int"],["name","text"],["n","int"]],"row_index":["row",0],"columns":["nmae"]},"sink":{"format":"ndjson"}}"#,
    )],
    line: "error 7: column not found: nmae",
    told: "\"nmae\" is no column: name, n, id",
};

/// Flaws of queries.
const FLAWS: &[Case<'static>] = &[
    NO_COLUMN,
    Case {
        files: &[(
            "q",
            br#"{"left":{"format":"csv","files":["a"],"schema":[["id","int"],["name","text"]],"filter":["and",["notnull","id"],["gt","id",{"lit":"x"}]]},"sink":{"format":"ndjson"}}"#,
        )],
        line: "error 8: schema mismatch: id",
        told: "\"id\" is int, and \"x\" is text",
        ..NO_COLUMN
    },
    Case {
        files: &[(
            "q",
            br#"{"left":{"format":"csv","files":["a"],"schema":[["id","int"],["name","text"]],"filter":["eq","name",{"col":"id"}]},"sink":{"format":"ndjson"}}"#,
        )],
        line: "error 8: schema mismatch: name",
        told: "\"name\" is text, and \"id\" is int",
        ..NO_COLUMN
    },
    Case {
        files: &[(
            "q",
            br#"{"left":{"format":"csv","files":["a"],"schema":[["id","int"],["name","text"]],"filter":["not",["is","id"]]},"sink":{"format":"ndjson"}}"#,
        )],
        line: "error 8: schema mismatch: id",
        told: "\"id\" is int, and is takes a bool",
        ..NO_COLUMN
    },
    Case {
        files: &[(
            "q",
            br#"{"left":{"format":"csv","files":["a"],"schema":[["id","int"],["name","text"]],"row_index":["id",0]},"sink":{"format":"ndjson"}}"#,
        )],
        line: "error 9: duplicate column: id",
        told: "\"id\" is named by left.schema[0] and left.row_index",
        ..NO_COLUMN
    },
    Case {
        files: &[(
            "q",
            br#"{"left":{"format":"csv","files":["a"],"schema":[["id","int"],["name","text"],["id","bool"]]},"sink":{"format":"ndjson"}}"#,
        )],
        line: "error 9: duplicate column: id",
        told: "\"id\" is named by left.schema[0] and left.schema[2]",
        ..NO_COLUMN
    },
    Case {
        files: &[(
            "q",
            br#"{"left":{"format":"csv","files":["a"],"schema":[["id","int"],["name","text"]],"columns":["id","name","id"]},"sink":{"format":"ndjson"}}"#,
        )],
        line: "error 9: duplicate column: id",
        told: "\"id\" is named by left.columns[0] and left.columns[2]",
        ..NO_COLUMN
    },
    Case {
        files: &[(
            "q",
            br#"{"left":{"format":"csv","files":[],"schema":[["id","int"]]},"sink":{"format":"ndjson"}}"#,
        )],
        line: "error 4: invalid query: no source",
        told: "left.files is empty",
        ..NO_COLUMN
    },
    Case {
        files: &[(
            "q",
            br#"{"left":{"format":"csv","files":["a"],"schema":[["id","int"]],"csv":{"separator":";;"}},"sink":{"format":"ndjson"}}"#,
        )],
        line: "error 4: invalid query: parse bytes",
        told: "left.csv.separator: \";;\" is not one ASCII character",
        ..NO_COLUMN
    },
    Case {
        files: &[(
            "q",
            br#"{"left":{"format":"csv","files":["a"],"schema":[["id","int"]],"csv":{"separator":"\""}},"sink":{"format":"ndjson"}}"#,
        )],
        line: "error 4: invalid query: parse bytes",
        told: "left.csv: separator and quote are the same",
        ..NO_COLUMN
    },
    Case {
        files: &[(
            "q",
            br#"{"left":{"format":"csv","files":["a"],"schema":[["id","int"]]},"sink":{"format":"ndjson"},"options":{"workers":0}}"#,
        )],
        line: "error 4: invalid query: option range",
        told: "options.workers: 0 is not from 1 to 32768",
        ..NO_COLUMN
    },
    Case {
        words: "local q q",
        line: "error 4: invalid query: sink is source",
        told: "OUT: \"q\" is a file that is read",
        ..NO_COLUMN
    },
];

#[test]
fn flaws_of_queries_are_told(rt: HostRuntime) {
    all_hold(&rt, rt.alloc(), FLAWS);
}

/// A query with a join whose right key is no column.
const NO_KEY: Case<'static> = Case {
    words: "local q o",
    files: &[(
        "q",
        br#"{"left":{"format":"csv","files":["a"],"schema":[["id","int"],["n","int"]]},"join":{"right":{"format":"csv","files":["b"],"schema":[["id","int"],["name","text"]]},"on":[["id","nmae"]]},"sink":{"format":"ndjson"}}"#,
    )],
    line: "error 7: column not found: nmae",
    told: "join.on[0][1]: \"nmae\" is no column: name, id",
};

/// Flaws of queries with a join.
const JOIN_FLAWS: &[Case<'static>] = &[
    NO_KEY,
    Case {
        files: &[(
            "q",
            br#"{"left":{"format":"csv","files":["a"],"schema":[["id","int"],["n","int"]]},"join":{"right":{"format":"csv","files":["b"],"schema":[["id","int"],["name","text"]],"columns":["name"]},"on":[["id","id"]]},"sink":{"format":"ndjson"}}"#,
        )],
        line: "error 7: column not found: id",
        told: "join.on[0][1]: \"id\" is not among join.right.columns",
        ..NO_KEY
    },
    Case {
        files: &[(
            "q",
            br#"{"left":{"format":"csv","files":["a"],"schema":[["id","int"],["n","int"]]},"join":{"right":{"format":"csv","files":["b"],"schema":[["id","int"],["name","text"]],"filter":["null","n"]},"on":[["id","id"]]},"sink":{"format":"ndjson"}}"#,
        )],
        line: "error 7: column not found: n",
        told: "join.right: \"n\" is no column: id, name",
        ..NO_KEY
    },
    Case {
        files: &[(
            "q",
            br#"{"left":{"format":"csv","files":["a"],"schema":[["id","int"],["n","int"]],"columns":["name"]},"join":{"right":{"format":"csv","files":["b"],"schema":[["id","int"],["name","text"]]},"on":[["id","id"]]},"sink":{"format":"ndjson"}}"#,
        )],
        line: "error 7: column not found: name",
        told: "left: \"name\" is no column: n, id",
        ..NO_KEY
    },
    Case {
        files: &[(
            "q",
            br#"{"left":{"format":"csv","files":["a"],"schema":[["id","int"],["n","int"]]},"join":{"right":{"format":"csv","files":["b"],"schema":[["id","int"],["name","text"]]},"on":[["id","name"]]},"sink":{"format":"ndjson"}}"#,
        )],
        line: "error 8: schema mismatch: id",
        told: "join.on[0]: \"id\" of left is int, and \"name\" of join.right is text",
        ..NO_KEY
    },
    Case {
        files: &[(
            "q",
            br#"{"left":{"format":"csv","files":["a"],"schema":[["id","int"],["n","int"]],"filter":["gt","id",{"lit":1}]},"join":{"right":{"format":"csv","files":["b"],"schema":[["id","int"],["name","text"]],"filter":["is","id"]},"on":[["id","id"]]},"sink":{"format":"ndjson"}}"#,
        )],
        line: "error 8: schema mismatch: id",
        told: "join.right: \"id\" is int, and is takes a bool",
        ..NO_KEY
    },
    Case {
        files: &[(
            "q",
            br#"{"left":{"format":"csv","files":["a"],"schema":[["id","int"],["n","int"]]},"join":{"right":{"format":"csv","files":["b"],"schema":[["id","int"],["name","text"]],"path":"id"},"on":[["id","id"]]},"sink":{"format":"ndjson"}}"#,
        )],
        line: "error 9: duplicate column: id",
        told: "\"id\" is named by join.right.schema[0] and join.right.path",
        ..NO_KEY
    },
    Case {
        files: &[(
            "q",
            br#"{"left":{"format":"csv","files":["a"],"schema":[["id","int"],["n","int"]]},"join":{"right":{"format":"csv","files":["b"],"schema":[["id","int"],["n","int"]]},"on":[["id","id"]],"suffix":""},"sink":{"format":"ndjson"}}"#,
        )],
        line: "error 9: duplicate column: n",
        told: "\"n\" is named by left.schema[1] and join.right.schema[1] with the suffix \"\"",
        ..NO_KEY
    },
    Case {
        files: &[(
            "q",
            br#"{"left":{"format":"csv","files":["a"],"schema":[["id","int"],["k","int"]]},"join":{"right":{"format":"csv","files":["b"],"schema":[["id","int"],["name","text"]]},"on":[["k","id"]],"kind":"right"},"sink":{"format":"ndjson"}}"#,
        )],
        line: "error 9: duplicate column: id",
        told: "\"id\" is named by left.schema[0] and join.right.schema[0]",
        ..NO_KEY
    },
    Case {
        files: &[(
            "q",
            br#"{"left":{"format":"csv","files":["a"],"schema":[["id","int"],["n","int"]],"csv":{"comment":"%"}},"join":{"right":{"format":"csv","files":["b"],"schema":[["id","int"],["name","text"]],"csv":{"comment":""}},"on":[["id","id"]]},"sink":{"format":"ndjson"}}"#,
        )],
        line: "error 4: invalid query: parse bytes",
        told: "join.right.csv.comment: it is empty, not of ASCII, or has the eol",
        ..NO_KEY
    },
    Case {
        files: &[(
            "q",
            br#"{"left":{"format":"csv","files":["a"],"schema":[["id","int"],["n","int"]]},"join":{"right":{"format":"csv","files":["b"],"schema":[["id","int"],["name","text"]]},"on":[]},"sink":{"format":"ndjson"}}"#,
        )],
        line: "error 4: invalid query: no keys",
        told: "join.on is empty",
        ..NO_KEY
    },
    Case {
        files: &[(
            "q",
            br#"{"left":{"format":"csv","files":["a"],"schema":[["id","int"],["n","int"]]},"join":{"right":{"format":"csv","files":["b"],"schema":[["id","int"],["name","text"]]},"on":[["id","id"],["n","id"]]},"sink":{"format":"ndjson"}}"#,
        )],
        line: "error 4: invalid query: repeated key",
        told: "join.on[1][1]: \"id\" is there twice",
        ..NO_KEY
    },
];

#[test]
fn flaws_of_queries_with_a_join_are_told(rt: HostRuntime) {
    all_hold(&rt, rt.alloc(), JOIN_FLAWS);
}

/// A query with a group-by whose key is no column.
const NO_GROUP: Case<'static> = Case {
    words: "local q o",
    files: &[(
        "q",
        br#"{"left":{"format":"csv","files":["a"],"schema":[["id","int"],["name","text"],["n","int"]]},"group":{"keys":["nme"]},"sink":{"format":"ndjson"}}"#,
    )],
    line: "error 7: column not found: nme",
    told: "group.keys[0]: \"nme\" is no column: name, n, id",
};

/// Flaws of queries with a group-by.
const GROUP_FLAWS: &[Case<'static>] = &[
    NO_GROUP,
    Case {
        files: &[(
            "q",
            br#"{"left":{"format":"csv","files":["a"],"schema":[["id","int"],["name","text"],["n","int"]]},"group":{"keys":["name"],"aggs":[["max","v","most"]]},"sink":{"format":"ndjson"}}"#,
        )],
        line: "error 7: column not found: v",
        told: "group.aggs[0][1]: \"v\" is no column: n, id, name",
        ..NO_GROUP
    },
    Case {
        files: &[(
            "q",
            br#"{"left":{"format":"csv","files":["a"],"schema":[["id","int"],["name","text"],["n","int"]],"columns":["id"]},"group":{"keys":["name"]},"sink":{"format":"ndjson"}}"#,
        )],
        line: "error 7: column not found: name",
        told: "group.keys[0]: \"name\" is not among left.columns",
        ..NO_GROUP
    },
    Case {
        files: &[(
            "q",
            br#"{"left":{"format":"csv","files":["a"],"schema":[["id","int"],["name","text"],["n","int"]]},"join":{"right":{"format":"csv","files":["b"],"schema":[["id","int"],["name","text"],["city","text"]]},"on":[["id","id"]]},"group":{"keys":["cty"]},"sink":{"format":"ndjson"}}"#,
        )],
        line: "error 7: column not found: cty",
        told: "group.keys[0]: \"cty\" is no column: city, id, n, name, name_right",
        ..NO_GROUP
    },
    Case {
        files: &[(
            "q",
            br#"{"left":{"format":"csv","files":["a"],"schema":[["id","int"],["name","text"],["n","int"]]},"group":{"keys":["n"],"aggs":[["len",null,"rows"],["sum","name","total"]]},"sink":{"format":"ndjson"}}"#,
        )],
        line: "error 8: schema mismatch: name",
        told: "group.aggs[1]: \"name\" is text, and sum takes an int",
        ..NO_GROUP
    },
    Case {
        files: &[(
            "q",
            br#"{"left":{"format":"csv","files":["a"],"schema":[["id","int"],["name","text"],["n","int"]]},"join":{"right":{"format":"csv","files":["b"],"schema":[["id","int"],["name","text"],["city","text"]]},"on":[["id","id"]]},"group":{"keys":["n"],"aggs":[["sum","name_right","total"]]},"sink":{"format":"ndjson"}}"#,
        )],
        line: "error 8: schema mismatch: name_right",
        told: "group.aggs[0]: \"name_right\" is text, and sum takes an int",
        ..NO_GROUP
    },
    Case {
        files: &[(
            "q",
            br#"{"left":{"format":"csv","files":["a"],"schema":[["id","int"],["name","text"],["n","int"]]},"group":{"keys":["name"],"aggs":[["sum","n","total"],["max","n","total"]]},"sink":{"format":"ndjson"}}"#,
        )],
        line: "error 9: duplicate column: total",
        told: "\"total\" is named by group.aggs[0] and group.aggs[1]",
        ..NO_GROUP
    },
    Case {
        files: &[(
            "q",
            br#"{"left":{"format":"csv","files":["a"],"schema":[["id","int"],["name","text"],["n","int"]]},"join":{"right":{"format":"csv","files":["b"],"schema":[["id","int"],["name","text"],["city","text"]]},"on":[["id","id"]]},"group":{"keys":["name"],"aggs":[["first","name","name"]]},"sink":{"format":"ndjson"}}"#,
        )],
        line: "error 9: duplicate column: name",
        told: "\"name\" is named by group.keys[0] and group.aggs[0]",
        ..NO_GROUP
    },
    Case {
        files: &[(
            "q",
            br#"{"left":{"format":"csv","files":["a"],"schema":[["id","int"],["name","text"],["n","int"]]},"group":{"keys":[]},"sink":{"format":"ndjson"}}"#,
        )],
        line: "error 4: invalid query: no keys",
        told: "group.keys is empty",
        ..NO_GROUP
    },
    Case {
        files: &[(
            "q",
            br#"{"left":{"format":"csv","files":["a"],"schema":[["id","int"],["name","text"],["n","int"]]},"group":{"keys":["name","n","name"]},"sink":{"format":"ndjson"}}"#,
        )],
        line: "error 4: invalid query: repeated key",
        told: "group.keys[2]: \"name\" is there twice",
        ..NO_GROUP
    },
    Case {
        files: &[(
            "q",
            br#"{"left":{"format":"csv","files":["a"],"schema":[["id","int"],["name","text"],["n","int"]]},"group":{"keys":["name"],"aggs":[["sum","id","ids"],["len",null,"rows"],["sum","n","total"]]},"sink":{"format":"ndjson"}}"#,
        )],
        line: "error 10: sum too large",
        told: "group.aggs[0] or group.aggs[2]: the sum of a group is no number of 64 bits",
        ..NO_GROUP
    },
    Case {
        files: &[(
            "q",
            br#"{"left":{"format":"csv","files":["a"],"schema":[["id","int"],["name","text"],["n","int"]]},"group":{"keys":"name"},"sink":{"format":"ndjson"}}"#,
        )],
        line: "error 11: query text",
        told: "group.keys: \"name\" is no list of texts",
        ..NO_GROUP
    },
    Case {
        files: &[(
            "q",
            br#"{"left":{"format":"csv","files":["a"],"schema":[["id","int"],["name","text"],["n","int"]]},"group":{"aggs":[]},"sink":{"format":"ndjson"}}"#,
        )],
        line: "error 11: query text",
        told: "group.keys: has to be there",
        ..NO_GROUP
    },
    Case {
        files: &[(
            "q",
            br#"{"left":{"format":"csv","files":["a"],"schema":[["id","int"],["name","text"],["n","int"]]},"group":{"keys":["name"],"agg":[]},"sink":{"format":"ndjson"}}"#,
        )],
        line: "error 11: query text",
        told: "group.agg: no such key; did you mean aggs?",
        ..NO_GROUP
    },
    Case {
        files: &[(
            "q",
            br#"{"left":{"format":"csv","files":["a"],"schema":[["id","int"],["name","text"],["n","int"]]},"group":{"keys":["name"],"aggs":[["len","rows"]]},"sink":{"format":"ndjson"}}"#,
        )],
        line: "error 11: query text",
        told: "group.aggs[0]: a list is no [op, name, output]",
        ..NO_GROUP
    },
    Case {
        files: &[(
            "q",
            br#"{"left":{"format":"csv","files":["a"],"schema":[["id","int"],["name","text"],["n","int"]]},"group":{"keys":["name"],"aggs":[["avg","n","mean"]]},"sink":{"format":"ndjson"}}"#,
        )],
        line: "error 11: query text",
        told: "group.aggs[0][0]: \"avg\" is no reduction: len, sum, min, max, last, first",
        ..NO_GROUP
    },
    Case {
        files: &[(
            "q",
            br#"{"left":{"format":"csv","files":["a"],"schema":[["id","int"],["name","text"],["n","int"]]},"group":{"keys":["name"],"aggs":[["len","n","rows"]]},"sink":{"format":"ndjson"}}"#,
        )],
        line: "error 11: query text",
        told: "group.aggs[0][1]: \"n\" is no null, and len reads no column",
        ..NO_GROUP
    },
    Case {
        files: &[(
            "q",
            br#"{"left":{"format":"csv","files":["a"],"schema":[["id","int"],["name","text"],["n","int"]]},"group":{"keys":["name"],"aggs":[["sum",null,"total"]]},"sink":{"format":"ndjson"}}"#,
        )],
        line: "error 11: query text",
        told: "group.aggs[0][1]: null is no text, and sum reads a column",
        ..NO_GROUP
    },
    Case {
        files: &[(
            "q",
            br#"{"left":{"format":"csv","files":["a"],"schema":[["id","int"],["name","text"],["n","int"]]},"group":{"keys":["name"],"aggs":[["sum","n",3]]},"sink":{"format":"ndjson"}}"#,
        )],
        line: "error 11: query text",
        told: "group.aggs[0][2]: 3 is no text",
        ..NO_GROUP
    },
];

#[test]
fn flaws_of_queries_with_a_group_are_told(rt: HostRuntime) {
    all_hold(&rt, rt.alloc(), GROUP_FLAWS);
}

/// A text that is no JSON.
const NO_JSON: Case<'static> = Case {
    words: "local q o",
    files: &[("q", b"{\"left\": {\n  \"format\" \"csv\"}}")],
    line: "error 11: query text",
    told: "q: invalid JSON at line 2 column 12",
};

/// Texts that are no queries.
const TEXTS: &[Case<'static>] = &[
    NO_JSON,
    Case {
        files: &[(
            "q",
            br#"{"left":{"format":"csv","files":["a"],"schema":[["id","int"]],"fitler":["null","id"]},"sink":{"format":"ndjson"}}"#,
        )],
        told: "left.fitler: no such key; did you mean filter?",
        ..NO_JSON
    },
    Case {
        files: &[(
            "q",
            br#"{"left":{"format":"csv","files":["a"],"schema":[["id","int"]],"slice":[1.5,2]},"sink":{"format":"ndjson"}}"#,
        )],
        told: "left.slice[0]: 1.5 is no whole number",
        ..NO_JSON
    },
    Case {
        files: &[(
            "q",
            br#"{"left":{"format":"csv","files":["a"],"schema":[["id","int"],["v","float"]]},"sink":{"format":"ndjson"}}"#,
        )],
        told: "left.schema[1][1]: \"float\" is no type: int, bool or text",
        ..NO_JSON
    },
    Case {
        files: &[(
            "q",
            br#"{"left":{"format":"csv","files":["a",3],"schema":[["id","int"]]},"sink":{"format":"ndjson"}}"#,
        )],
        told: "left.files[1]: 3 is no text",
        ..NO_JSON
    },
    Case {
        files: &[(
            "q",
            br#"{"left":{"format":"csv","files":["a"],"schema":[["id","int"]]}}"#,
        )],
        told: "sink: has to be there",
        ..NO_JSON
    },
    Case {
        files: &[(
            "q",
            br#"{"left":{"format":"parquet","files":["a"],"schema":[["id","int"]]},"sink":{"format":"ndjson"}}"#,
        )],
        told: "left.format: \"parquet\" is no format: csv",
        ..NO_JSON
    },
    Case {
        files: &[(
            "q",
            br#"{"left":{"format":"csv","files":["a"],"schema":[["id","int"]],"filter":["and",["null","id"],["not",["gtt","id",{"lit":1}]]]},"sink":{"format":"ndjson"}}"#,
        )],
        told: "left.filter[2][1][0]: \"gtt\" is no word of a predicate: gt, not, lt, ge, and, or, is, eq, ne, le, null, notnull",
        ..NO_JSON
    },
    Case {
        files: &[(
            "q",
            br#"{"left":{"format":"csv","files":["a"],"schema":[["id","int"]],"filter":["gt","id",1]},"sink":{"format":"ndjson"}}"#,
        )],
        told: "left.filter: gt is written [word, name, {\"col\": name}] or [word, name, {\"lit\": value}]",
        ..NO_JSON
    },
    Case {
        files: &[(
            "q",
            br#"{"left":{"format":"csv","files":["a"],"schema":[["id","int"]],"csv":{"has_header":"no"}},"sink":{"format":"ndjson"}}"#,
        )],
        told: "left.csv.has_header: \"no\" is no truth value",
        ..NO_JSON
    },
    Case {
        files: &[(
            "q",
            br#"{"left":{"format":"csv","files":["a"],"schema":[["id","int"]]},"sink":{"format":"ndjson"},"options":{"workers":-1}}"#,
        )],
        told: "options.workers: -1 is no whole number from 0 on",
        ..NO_JSON
    },
    Case {
        files: &[("q", b"[1]")],
        told: "the query: a list is no object",
        ..NO_JSON
    },
    Case {
        files: &[(
            "q",
            br#"{"left":{"format":"csv","files":["a"],"schema":[["id","int"]],"where":["null","id"]},"sink":{"format":"ndjson"}}"#,
        )],
        told: "left.where: no such key; there are schema, slice, files, csv, path, filter, format, columns, row_index",
        ..NO_JSON
    },
];

#[test]
fn texts_that_are_no_queries_are_told(rt: HostRuntime) {
    all_hold(&rt, rt.alloc(), TEXTS);
}
