//! Texts read as queries: what the query has, part by part. The table of texts and faults is `morsel_query_table`.
use super::show::{are_options, is_answered, is_shown};
use morsel_meaning::Fault;
use morsel_query::{Options, Query, check};
use morsel_query_text::query_of;
use serde_json::Value;
use std::alloc::Global;
use std::mem::drop;
use std::process::Abort;

/// The query of a text, into `out.ndjson`.
pub fn read(alloc: Global, text: &str) -> Result<(Query, Options), Fault> {
    let Ok(tree) = Value::from_str(alloc, text) else {
        return Err(Fault::QueryText);
    };
    query_of(alloc, &tree, "out.ndjson")
}

/// The text is read as this query and these options, and checking the query answers this, in words.
fn is_read(
    rt: &impl Abort,
    alloc: Global,
    text: &str,
    wanted: &str,
    numbers: [u32; 6],
    random_state: u64,
    checked: &str,
) {
    let (query, options) = read(alloc, text).expect(rt, "a query");
    is_shown(rt, alloc, &query, wanted);
    are_options(rt, &options, numbers, random_state);
    is_answered(rt, alloc, check(alloc, &query), checked);
    drop(query);
}

/// A query that leaves every default as it is.
const SHORT: &str =
    r#"{"left":{"format":"csv","files":["a.csv"],"schema":[["id","int"],["name","text"]]},"sink":{"format":"ndjson"}}"#;

/// Commas, double quotes, line feeds, a header and empty nulls; and nothing is asked of the rows.
const SHORT_SHOWN: &str = "files(a.csv|) schema(id Int|name Text|)
separator 44 quote Some(34) eol 10 comment none header true null <> ignores false
columns() slice None index none path none lacking false
filter none
sink <out.ndjson> NdJson
";

#[test]
fn what_a_text_does_not_say_is_the_default(rt: HostRuntime) {
    let numbers = [4, 100_000, 65_536, 4, 4, 16_777_216];
    is_read(&rt, rt.alloc(), SHORT, SHORT_SHOWN, numbers, 0, "ok");
}

/// A query that says all that a query can say, with names in escapes and a filter of every kind of node.
const WHOLE: &str = r#"{
"left":{
  "format":"csv",
  "files":["jan.csv","f\u0065b.csv","\ud83d\ude80\/\t.csv"],
  "schema":[["id","int"],["ok","bool"],["name","text"],["old","int"]],
  "csv":{"separator":";","quote":"'","eol":"$","comment":"//","has_header":false,"null":"NA","ignore_errors":true},
  "columns":["name","id"],
  "slice":[2,18446744073709551615],
  "row_index":["row",4294967294],
  "path":"file",
  "filter":["and",
    ["or",["not",["null","name"]],["and",["notnull","file"],["is","ok"]]],
    ["and",
      ["and",["eq","id",{"col":"old"}],["ne","ok",{"lit":true}]],
      ["and",
        ["or",["lt","name",{"lit":"m\"\u00df"}],["le","id",{"lit":-9223372036854775808}]],
        ["and",["gt","old",{"lit":null}],["ge","row",{"lit":9223372036854775807}]]]]]
},
"sink":{"format":"ndjson"},
"options":{
  "workers":8,"morsel_rows":1000,"chunk_bytes":4096,"distributor_buffer":2,"linearizer_buffer":3,
  "min_values_per_task":5,"random_state":18446744073709551615}
}"#;

/// The same, part by part.
const WHOLE_SHOWN: &str =
    "files(jan.csv|feb.csv|\u{1f680}/\t.csv|) schema(id Int|ok Bool|name Text|old Int|)
separator 59 quote Some(39) eol 36 comment <//> header false null <NA> ignores true
columns(name|id|) slice Some((2, 18446744073709551615)) index <row> from 4294967294 path <file> lacking false
filter And Or Not IsNull name|And NotNull file|Is ok|And And Eq id old|Ne ok true|And Or Lt name <m\"\u{df}>|Le id -9223372036854775808|And Gt old null|Ge row 9223372036854775807|
sink <out.ndjson> NdJson
";

#[test]
fn what_a_text_says_is_read(rt: HostRuntime) {
    let numbers = [8, 1000, 4096, 2, 3, 5];
    is_read(&rt, rt.alloc(), WHOLE, WHOLE_SHOWN, numbers, u64::MAX, "ok");
}

/// A join that leaves every default as it is.
const JOIN: &str =
    r#"{"left":{"format":"csv","files":["a.csv"],"schema":[["k","int"]]},"join":{"right":{"format":"csv","files":["b.csv"],"schema":[["j","int"]]},"on":[["k","j"]]},"sink":{"format":"ndjson"}}"#;

/// Pairs alone, in any order, nulls that are equal to nothing, and one column of each pair of keys.
const JOIN_SHOWN: &str = "files(a.csv|) schema(k Int|)
separator 44 quote Some(34) eol 10 comment none header true null <> ignores false
columns() slice None index none path none lacking false
filter none
join Inner None nulls false coalesce true suffix <_right> Hash on k| and j|
files(b.csv|) schema(j Int|)
separator 44 quote Some(34) eol 10 comment none header true null <> ignores false
columns() slice None index none path none lacking false
filter none
sink <out.ndjson> NdJson
";

#[test]
fn what_a_join_does_not_say_is_the_default(rt: HostRuntime) {
    let numbers = [4, 100_000, 65_536, 4, 4, 16_777_216];
    is_read(&rt, rt.alloc(), JOIN, JOIN_SHOWN, numbers, 0, "ok");
}

/// A join that says all that a join can say.
const WHOLE_JOIN: &str = r#"{
"left":{"format":"csv","files":["a.csv"],"schema":[["k","int"],["v","text"],["d","bool"]],"path":"file"},
"join":{
  "right":{"format":"csv","files":["b.csv","c.csv"],"schema":[["j","int"],["v","text"]],"csv":{"separator":";"},"slice":[0,9],"filter":["notnull","j"]},
  "on":[["v","v"],["k","j"]],
  "kind":"full","order":"right_left","nulls":true,"coalesce":false,"suffix":"2","how":"hash"
},
"sink":{"format":"ndjson"}
}"#;

/// The same, part by part.
const WHOLE_JOIN_SHOWN: &str = "files(a.csv|) schema(k Int|v Text|d Bool|)
separator 44 quote Some(34) eol 10 comment none header true null <> ignores false
columns() slice None index none path <file> lacking false
filter none
join Full RightLeft nulls true coalesce false suffix <2> Hash on v|k| and v|j|
files(b.csv|c.csv|) schema(j Int|v Text|)
separator 59 quote Some(34) eol 10 comment none header true null <> ignores false
columns() slice Some((0, 9)) index none path none lacking false
filter NotNull j|
sink <out.ndjson> NdJson
";

#[test]
fn what_a_join_says_is_read(rt: HostRuntime) {
    let numbers = [4, 100_000, 65_536, 4, 4, 16_777_216];
    is_read(
        &rt,
        rt.alloc(),
        WHOLE_JOIN,
        WHOLE_JOIN_SHOWN,
        numbers,
        0,
        "ok",
    );
}

/// A group-by that says all that a group-by can say.
const GROUP: &str =
    r#"{"left":{"format":"csv","files":["a.csv"],"schema":[["k","int"],["v","text"]]},"group":{"keys":["v","k"],"aggs":[["len",null,"n"],["sum","k","s"],["min","v","a"],["max","v","b"],["first","k","c"],["last","k","d"]]},"sink":{"format":"ndjson"}}"#;

/// The same, part by part.
const GROUP_SHOWN: &str = "files(a.csv|) schema(k Int|v Text|)
separator 44 quote Some(34) eol 10 comment none header true null <> ignores false
columns() slice None index none path none lacking false
filter none
group by v|k| with Len none as n|Sum <k> as s|Min <v> as a|Max <v> as b|First <k> as c|Last <k> as d|
sink <out.ndjson> NdJson
";

#[test]
fn what_a_group_says_is_read(rt: HostRuntime) {
    let numbers = [4, 100_000, 65_536, 4, 4, 16_777_216];
    is_read(&rt, rt.alloc(), GROUP, GROUP_SHOWN, numbers, 0, "ok");
}
