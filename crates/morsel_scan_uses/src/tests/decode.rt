//! Pieces with the rows that are made of them, or the fault.
use super::makers::{ALL, Asked, Stand, both, decoded, node_of, number, pred, text};
use super::show::{is_shown, is_told};
use morsel_expr::{CmpOp, Pred};
use morsel_meaning::ColType;
use std::alloc::Global;
use std::mem::drop;
use std::process::Abort;

/// A number and a text.
const PAIR: &[(&str, ColType)] = &[("id", ColType::Int), ("name", ColType::Text)];

/// A piece after a header of 8 bytes, of these rows, all of which are kept.
const fn whole(rows: u32) -> Stand {
    Stand {
        at: 8,
        first_row: 0,
        rows,
        slice: (0, rows),
    }
}

/// A piece of three rows, of which some are kept.
const fn sliced(offset: u32, len: u32) -> Stand {
    Stand {
        at: 8,
        first_row: 0,
        rows: 3,
        slice: (offset, len),
    }
}

/// What a scan of pairs makes of the piece.
fn makes_filtered(
    rt: &impl Abort,
    alloc: Global,
    asked: Asked<'_>,
    filter: Option<Pred>,
    text: &[u8],
    stand: Stand,
    wanted: &str,
) {
    let node = node_of(rt, alloc, PAIR, asked, filter).expect(rt, "a scan");
    is_shown(rt, alloc, decoded(rt, alloc, &node, text, stand), wanted);
    drop(node);
}

/// The same without a filter.
fn makes(
    rt: &impl Abort,
    alloc: Global,
    asked: Asked<'_>,
    text: &[u8],
    stand: Stand,
    wanted: &str,
) {
    makes_filtered(rt, alloc, asked, None, text, stand, wanted);
}

/// The scan of pairs is refused so.
fn is_refused(
    rt: &impl Abort,
    alloc: Global,
    asked: Asked<'_>,
    filter: Option<Pred>,
    wanted: &str,
) {
    match node_of(rt, alloc, PAIR, asked, filter) {
        Ok(node) => {
            drop(node);
            assert!(rt; false);
        }
        Err(fault) => {
            is_told(rt, alloc, &fault, wanted);
            drop(fault);
        }
    }
}

#[test]
fn a_piece_has_its_rows(rt: HostRuntime) {
    makes(
        &rt,
        rt.alloc(),
        ALL,
        b"1,ann\n2,\n",
        whole(2),
        "id name |1 <ann>|2 null|",
    );
}

#[test]
fn columns_are_kept_in_the_order_of_the_file(rt: HostRuntime) {
    let asked = Asked {
        columns: &["name", "id"],
        ..ALL
    };
    makes(
        &rt,
        rt.alloc(),
        asked,
        b"1,ann\n",
        whole(1),
        "id name |1 <ann>|",
    );
    let asked = Asked {
        columns: &["name"],
        ..ALL
    };
    makes(&rt, rt.alloc(), asked, b"1,ann\n", whole(1), "name |<ann>|");
}

/// An index from 5, the names and the path.
const AROUND: Asked<'static> = Asked {
    columns: &["name"],
    index: Some(("i", 5)),
    path: Some("p"),
};

#[test]
fn the_index_counts_from_the_position_and_the_path_is_last(rt: HostRuntime) {
    let stand = Stand {
        first_row: 3,
        ..whole(2)
    };
    makes(
        &rt,
        rt.alloc(),
        AROUND,
        b"1,ann\n2,\n",
        stand,
        "i name p |8 <ann> <f.csv>|9 null <f.csv>|",
    );
}

#[test]
fn the_index_of_a_row_within_a_slice_counts_the_rows_before_it(rt: HostRuntime) {
    makes(
        &rt,
        rt.alloc(),
        AROUND,
        b"1,a\n2,b\n3,c\n",
        sliced(1, 1),
        "i name p |6 <b> <f.csv>|",
    );
}

/// An index that begins here, alone beside the names.
fn from(first: u32) -> Asked<'static> {
    Asked {
        columns: &["name"],
        index: Some(("i", first)),
        path: None,
    }
}

#[test]
fn an_index_at_the_last_number_is_one_and_one_past_it_is_a_fault(rt: HostRuntime) {
    let text = b"1,a\n2,b\n";
    makes(
        &rt,
        rt.alloc(),
        from(4294967293),
        text,
        whole(2),
        "i name |4294967293 <a>|4294967294 <b>|",
    );
    makes(
        &rt,
        rt.alloc(),
        from(4294967294),
        text,
        whole(2),
        "index too large",
    );
    let stand = Stand {
        slice: (0, 1),
        ..whole(2)
    };
    makes(
        &rt,
        rt.alloc(),
        from(4294967294),
        text,
        stand,
        "i name |4294967294 <a>|",
    );
}

#[test]
fn a_bad_cell_is_a_fault_at_its_place_in_the_file(rt: HostRuntime) {
    makes(
        &rt,
        rt.alloc(),
        ALL,
        b"1,ann\nx,bob\n",
        whole(2),
        "ill typed, file 3, at 14",
    );
}

#[test]
fn a_bad_cell_of_an_unused_column_is_none(rt: HostRuntime) {
    let asked = Asked {
        columns: &["name"],
        ..ALL
    };
    makes(&rt, rt.alloc(), asked, b"x,ann\n", whole(1), "name |<ann>|");
}

#[test]
fn a_bad_cell_outside_the_slice_is_none(rt: HostRuntime) {
    let text = b"x,a\n2,b\ny,c\n";
    makes(&rt, rt.alloc(), ALL, text, sliced(1, 1), "id name |2 <b>|");
    makes(&rt, rt.alloc(), ALL, text, sliced(1, 0), "id name |");
    makes(
        &rt,
        rt.alloc(),
        ALL,
        text,
        sliced(1, 2),
        "ill typed, file 3, at 16",
    );
    makes(
        &rt,
        rt.alloc(),
        ALL,
        text,
        sliced(0, 2),
        "ill typed, file 3, at 8",
    );
}

#[test]
fn a_refused_record_outside_the_slice_is_refused(rt: HostRuntime) {
    makes(
        &rt,
        rt.alloc(),
        ALL,
        b"1\n2,b\n3,c\n",
        sliced(1, 1),
        "malformed file 3 at 8",
    );
    makes(
        &rt,
        rt.alloc(),
        ALL,
        b"1,a\n2,b\n\"3\n",
        sliced(1, 1),
        "malformed file 3 at 16",
    );
    makes(
        &rt,
        rt.alloc(),
        ALL,
        b"1,a\n2,b\n3,\xff\n",
        sliced(1, 1),
        "not utf8, file 3, at 16",
    );
}

#[test]
fn a_slice_ends_before_rows_that_the_piece_does_not_count(rt: HostRuntime) {
    makes(
        &rt,
        rt.alloc(),
        ALL,
        b"1,a\n2,b\nx,c\n",
        whole(2),
        "id name |1 <a>|2 <b>|",
    );
}

#[test]
fn a_filter_speaks_of_columns_that_are_not_kept(rt: HostRuntime) {
    let asked = Asked {
        columns: &["name"],
        ..ALL
    };
    let filter = pred(&rt, number(&rt, rt.alloc(), CmpOp::Gt, "id", 1));
    makes_filtered(
        &rt,
        rt.alloc(),
        asked,
        Some(filter),
        b"1,a\n2,b\n,c\n",
        whole(3),
        "name |<b>|",
    );
}

#[test]
fn a_filter_speaks_of_the_index_and_the_path(rt: HostRuntime) {
    let index = number(&rt, rt.alloc(), CmpOp::Eq, "i", 6);
    let path = text(&rt, rt.alloc(), "p", "f.csv");
    let filter = pred(&rt, both(&rt, rt.alloc(), index, path));
    makes_filtered(
        &rt,
        rt.alloc(),
        AROUND,
        Some(filter),
        b"1,a\n2,b\n3,c\n",
        whole(3),
        "i name p |6 <b> <f.csv>|",
    );
}

#[test]
fn a_filter_comes_after_the_slice(rt: HostRuntime) {
    let filter = pred(&rt, number(&rt, rt.alloc(), CmpOp::Gt, "id", 1));
    makes_filtered(
        &rt,
        rt.alloc(),
        ALL,
        Some(filter),
        b"1,a\n2,b\n3,c\n",
        sliced(0, 2),
        "id name |2 <b>|",
    );
}

#[test]
fn two_columns_of_one_name_are_duplicates(rt: HostRuntime) {
    let asked = Asked {
        index: Some(("id", 0)),
        ..ALL
    };
    is_refused(&rt, rt.alloc(), asked, None, "duplicate column: id");
    let asked = Asked {
        path: Some("name"),
        columns: &["id"],
        ..ALL
    };
    is_refused(&rt, rt.alloc(), asked, None, "duplicate column: name");
    let asked = Asked {
        columns: &["id", "id"],
        ..ALL
    };
    is_refused(&rt, rt.alloc(), asked, None, "duplicate column: id");
}

#[test]
fn a_name_that_no_column_has_is_not_found(rt: HostRuntime) {
    let asked = Asked {
        columns: &["id", "age"],
        ..ALL
    };
    is_refused(&rt, rt.alloc(), asked, None, "column not found: age");
    let filter = pred(&rt, number(&rt, rt.alloc(), CmpOp::Gt, "i", 1));
    is_refused(&rt, rt.alloc(), ALL, Some(filter), "column not found: i");
}

#[test]
fn a_filter_of_another_type_is_a_mismatch(rt: HostRuntime) {
    let filter = pred(&rt, number(&rt, rt.alloc(), CmpOp::Gt, "name", 1));
    is_refused(&rt, rt.alloc(), ALL, Some(filter), "schema mismatch: name");
}
