//! The rows that scans give.
use super::makers::{NOTHING, Scan, name_of};
use super::reading::{fails, gives, keeps, refuses};
use morsel_expr::{CmpOp, Pred, PredNode, Rhs};
use morsel_meaning::{ColType, Value};
use std::alloc::Global;
use std::process::Abort;

/// A number and a text.
const PAIR: &[(&str, ColType)] = &[("id", ColType::Int), ("name", ColType::Text)];

/// A number.
const ID: &[(&str, ColType)] = &[("id", ColType::Int)];

/// A file without a header.
const QUOTED: Scan<'static> = Scan {
    files: &[("a.csv", b"x,\"a\nb\"\r\n")],
    columns: &[("p", ColType::Text), ("q", ColType::Text)],
    has_header: false,
    ..NOTHING
};

#[test]
fn a_quoted_line_feed_is_within_its_row(rt: HostRuntime) {
    let lines = "{\"p\":\"x\",\"q\":\"a\\nb\"}\n";
    gives(&rt, rt.alloc(), QUOTED, lines);
}

/// A comment with an odd number of quotes, and then a row whose number is 5.
const COMMENTED: Scan<'static> = Scan {
    files: &[("a.csv", b"#it's \"odd\nx,1\n")],
    columns: &[("n", ColType::Text), ("v", ColType::Int)],
    has_header: false,
    comment: Some("#"),
    index: Some(("i", 5)),
    ..NOTHING
};

#[test]
fn a_quote_in_a_comment_opens_nothing(rt: HostRuntime) {
    let lines = "{\"i\":5,\"n\":\"x\",\"v\":1}\n";
    gives(&rt, rt.alloc(), COMMENTED, lines);
}

/// Two columns and a line that is blank.
const BLANK: Scan<'static> = Scan {
    files: &[("a.csv", b"1,2\n\n3,4")],
    columns: &[("a", ColType::Int), ("b", ColType::Int)],
    has_header: false,
    ..NOTHING
};

/// One column, of which the second value is null.
const NULL: Scan<'static> = Scan {
    files: &[("a.csv", b"1\n\n3")],
    columns: &[("a", ColType::Int)],
    has_header: false,
    ..NOTHING
};

#[test]
fn a_blank_line_is_a_row_of_one_column_alone(rt: HostRuntime) {
    let lines = "{\"a\":1,\"b\":2}\n{\"a\":3,\"b\":4}\n";
    gives(&rt, rt.alloc(), BLANK, lines);
    let lines = "{\"a\":1}\n{\"a\":null}\n{\"a\":3}\n";
    gives(&rt, rt.alloc(), NULL, lines);
}

/// A number that is too great.
const GREAT: Scan<'static> = Scan {
    files: &[("a.csv", b"a,b\n9223372036854775808,7\n")],
    columns: &[("a", ColType::Int), ("b", ColType::Int)],
    ..NOTHING
};

#[test]
fn a_bad_cell_is_refused_unless_it_is_unused_or_ignored(rt: HostRuntime) {
    refuses(&rt, rt.alloc(), GREAT, "ill typed, file 7, at 4");
    let unused = Scan {
        kept: &["b"],
        ..GREAT
    };
    gives(&rt, rt.alloc(), unused, "{\"b\":7}\n");
    let ignored = Scan {
        ignore_errors: true,
        ..GREAT
    };
    gives(&rt, rt.alloc(), ignored, "{\"a\":null,\"b\":7}\n");
}

/// The second row of a file.
const SECOND: Scan<'static> = Scan {
    files: &[("a.csv", b"id,name\n1,ann\n2,\n")],
    columns: PAIR,
    slice: Some((1, 1)),
    ..NOTHING
};

#[test]
fn a_slice_keeps_its_row(rt: HostRuntime) {
    let lines = "{\"id\":2,\"name\":null}\n";
    gives(&rt, rt.alloc(), SECOND, lines);
}

/// Two rows, of which the second has the last number that there is.
const LAST: Scan<'static> = Scan {
    files: &[("a.csv", b"1\n2\n")],
    columns: ID,
    has_header: false,
    index: Some(("i", 4294967293)),
    ..NOTHING
};

/// A row more, which has none.
const PAST: Scan<'static> = Scan {
    files: &[("a.csv", b"1\n2\n"), ("b.csv", b"3")],
    ..LAST
};

#[test]
fn an_index_goes_up_to_the_last_number_and_not_past_it(rt: HostRuntime) {
    let lines = "{\"i\":4294967293,\"id\":1}\n{\"i\":4294967294,\"id\":2}\n";
    gives(&rt, rt.alloc(), LAST, lines);
    refuses(&rt, rt.alloc(), PAST, "index too large");
}

/// Two files, of which the first has no line feed at its end.
const TWO: Scan<'static> = Scan {
    files: &[
        ("a.csv", b"id,name\n1,ann\n2,\"b\nb\""),
        ("b.csv", b"id,name\n3,c\n"),
    ],
    columns: PAIR,
    ..NOTHING
};

#[test]
fn a_last_row_without_an_end_is_not_one_with_the_next_file(rt: HostRuntime) {
    let lines =
        "{\"id\":1,\"name\":\"ann\"}\n{\"id\":2,\"name\":\"b\\nb\"}\n{\"id\":3,\"name\":\"c\"}\n";
    gives(&rt, rt.alloc(), TWO, lines);
}

/// Names, with their numbers over all files and the names of these.
const NAMED: Scan<'static> = Scan {
    kept: &["name"],
    index: Some(("i", 5)),
    path: Some("p"),
    ..TWO
};

#[test]
fn rows_are_numbered_over_all_files_and_named_after_theirs(rt: HostRuntime) {
    let lines =
        "{\"i\":5,\"name\":\"ann\",\"p\":\"a.csv\"}\n{\"i\":6,\"name\":\"b\\nb\",\"p\":\"a.csv\"}\n{\"i\":7,\"name\":\"c\",\"p\":\"b.csv\"}\n";
    gives(&rt, rt.alloc(), NAMED, lines);
}

/// Rows above a number that are of a file.
fn above(rt: &impl Abort, alloc: Global, number: i64, file: &str) -> Option<Pred> {
    let index = PredNode::Cmp(
        CmpOp::Gt,
        name_of(rt, alloc, "i"),
        Rhs::Lit(Value::Int(number)),
    );
    let path = PredNode::Cmp(
        CmpOp::Eq,
        name_of(rt, alloc, "p"),
        Rhs::Lit(Value::Text(name_of(rt, alloc, file))),
    );
    let index = Box::new(alloc, index).expect(rt, "memory");
    let path = Box::new(alloc, path).expect(rt, "memory");
    Some(Pred::new(PredNode::And(index, path)).expect(rt, "few levels"))
}

#[test]
fn a_filter_speaks_of_numbers_and_names_over_all_files(rt: HostRuntime) {
    let lines = "{\"i\":6,\"name\":\"b\\nb\",\"p\":\"a.csv\"}\n";
    let filter = above(&rt, rt.alloc(), 5, "a.csv");
    keeps(&rt, rt.alloc(), NAMED, filter, lines);
    let filter = above(&rt, rt.alloc(), 5, "a.csv");
    keeps(&rt, rt.alloc(), Scan { chunk: 3, ..NAMED }, filter, lines);
}

/// A file that ends with its row.
const BEFORE: (&str, &[u8]) = ("a.csv", b"id,name\n1,a");

/// A file that begins with a mark.
const AFTER: (&str, &[u8]) = ("c.csv", b"\xef\xbb\xbfid,name\n2,c\n");

/// Files without rows between two others: a header, with its end and without; a mark, alone and before a header; nothing.
const BARE: &[&[(&str, &[u8])]] = &[
    &[BEFORE, ("b.csv", b"id,name\n"), AFTER],
    &[BEFORE, ("b.csv", b"id,name"), AFTER],
    &[BEFORE, ("b.csv", b"\xef\xbb\xbf"), AFTER],
    &[BEFORE, ("b.csv", b"\xef\xbb\xbfid,name\r\n"), AFTER],
    &[BEFORE, ("b.csv", b""), AFTER],
];

#[test]
fn a_file_without_rows_is_passed(rt: HostRuntime) {
    for files in BARE {
        let scan = Scan {
            files,
            columns: PAIR,
            ..NOTHING
        };
        let lines = "{\"id\":1,\"name\":\"a\"}\n{\"id\":2,\"name\":\"c\"}\n";
        gives(&rt, rt.alloc(), scan, lines);
    }
}

/// Comments, and not one row.
const COMMENTS: Scan<'static> = Scan {
    files: &[("a.csv", b"#one\n#two"), ("b.csv", b"\n#three\n")],
    columns: PAIR,
    has_header: false,
    comment: Some("#"),
    ..NOTHING
};

/// The same, where the second comment is not UTF-8.
const STRANGE: Scan<'static> = Scan {
    files: &[("a.csv", b"#one\n#\xff\n#two")],
    ..COMMENTS
};

/// A comment that is not UTF-8, between two rows of the second file.
const AMONG: Scan<'static> = Scan {
    files: &[("a.csv", b"0,z\n"), ("b.csv", b"1,a\n#\xff\n2,b\n")],
    ..COMMENTS
};

#[test]
fn comments_alone_give_no_rows_and_are_tested(rt: HostRuntime) {
    gives(&rt, rt.alloc(), COMMENTS, "");
    refuses(&rt, rt.alloc(), STRANGE, "not utf8, file 7, at 5");
    refuses(&rt, rt.alloc(), AMONG, "not utf8, file 8, at 4");
}

/// Four rows in two files.
const FOUR: Scan<'static> = Scan {
    files: &[("a.csv", b"id\n1\n2"), ("b.csv", b"id\n3\n4\n")],
    columns: ID,
    ..NOTHING
};

/// Slices of the four rows, and the rows that they keep.
const SLICES: &[((u32, u64), &str)] = &[
    ((0, 0), ""),
    ((0, 1), "{\"id\":1}\n"),
    ((0, 2), "{\"id\":1}\n{\"id\":2}\n"),
    ((1, 2), "{\"id\":2}\n{\"id\":3}\n"),
    ((2, 2), "{\"id\":3}\n{\"id\":4}\n"),
    ((3, 18446744073709551615), "{\"id\":4}\n"),
    ((4, 1), ""),
    ((1, 0), ""),
];

#[test]
fn a_slice_ends_wherever_the_pieces_end(rt: HostRuntime) {
    for (slice, lines) in SLICES {
        let scan = Scan {
            slice: Some(*slice),
            ..FOUR
        };
        gives(&rt, rt.alloc(), scan, lines);
    }
}

/// Two rows, and then a record that is refused.
const BROKEN: Scan<'static> = Scan {
    files: &[("a.csv", b"id\n1\n2\n\"x\"y\n")],
    columns: ID,
    slice: Some((0, 2)),
    ..NOTHING
};

#[test]
fn a_broken_record_behind_the_slice_is_refused_only_where_it_is_read(rt: HostRuntime) {
    let lines = "{\"id\":1}\n{\"id\":2}\n";
    keeps(&rt, rt.alloc(), Scan { chunk: 4, ..BROKEN }, None, lines);
    fails(&rt, rt.alloc(), BROKEN, "malformed file 7 at 7");
}
