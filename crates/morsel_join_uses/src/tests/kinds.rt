//! Keys of two columns, of numbers and of texts.
use super::plain::are_of;
use super::tables::{
    Asked, Tables, has_names, has_text, joined, number_at, rows_of, tables_of_two,
};
use morsel_frame::Frame;
use morsel_join::{JoinType, MaintainOrderJoin};
use morsel_meaning::Fault;
use std::alloc::Global;
use std::test::Fail;

fn tables(alloc: Global) -> Result<Tables, Fault> {
    let left_numbers = [Some(1), Some(1), Some(2), Some(2), None];
    let left_words = [Some("a"), Some("b"), Some("a"), None, Some("a")];
    let right_numbers = [Some(1), Some(2), Some(1), Some(1), Some(2), None];
    let right_words = [Some("b"), Some("b"), Some("a"), Some("b"), None, Some("a")];
    tables_of_two(
        alloc,
        (&left_numbers, &left_words),
        (&right_numbers, &right_words),
    )
}

/// The join of the two tables by both columns.
fn joined_by_both(alloc: Global, asked: Asked) -> Result<Frame, Fault> {
    let tables = tables(alloc)?;
    joined(alloc, &tables, &[("k", "k"), ("t", "t")], asked)
}

/// Whether a join has rows of these rows, in this order.
fn has_rows(
    alloc: Global,
    out: &Frame,
    wanted: &[(Option<usize>, Option<usize>)],
) -> Result<bool, Fault> {
    let rows = rows_of(alloc, out)?;
    Ok(are_of(&rows, wanted))
}

/// Whether the pairs are these, by the left and then the right row.
fn has_pairs(
    alloc: Global,
    nulls: bool,
    wanted: &[(Option<usize>, Option<usize>)],
) -> Result<bool, Fault> {
    let asked = Asked {
        how: JoinType::Inner,
        order: MaintainOrderJoin::LeftRight,
        nulls,
        coalesce: false,
    };
    let out = joined_by_both(alloc, asked)?;
    has_rows(alloc, &out, wanted)
}

#[test]
fn each_column_of_a_key_is_compared(rt: HostRuntime) -> Result<(), Fail> {
    let alloc = rt.alloc();
    let pairs = [
        (Some(0), Some(2)),
        (Some(1), Some(0)),
        (Some(1), Some(3)),
        (Some(3), Some(4)),
        (Some(4), Some(5)),
    ];
    assert!(rt; has_pairs(alloc, false, &pairs[..3])?);
    assert!(rt; has_pairs(alloc, true, &pairs)?);
    Ok(())
}

/// Whether the lone rows have the keys of their own sides.
fn has_lone_keys(out: &Frame) -> bool {
    number_at(out, "k", 5) == None
        && has_text(out, "t", 5, "a")
        && number_at(out, "k", 6) == Some(2)
        && has_text(out, "t", 6, "b")
        && number_at(out, "k", 7) == Some(2)
        && !has_text(out, "t", 7, "b")
        && number_at(out, "k", 8) == None
        && has_text(out, "t", 8, "a")
}

/// Whether the full join has the pairs, the lone left rows, and the lone right rows, with the keys of either side.
fn is_full(alloc: Global) -> Result<bool, Fault> {
    let asked = Asked {
        how: JoinType::Full,
        order: MaintainOrderJoin::LeftRight,
        nulls: false,
        coalesce: true,
    };
    let wanted = [
        (Some(0), Some(2)),
        (Some(1), Some(0)),
        (Some(1), Some(3)),
        (Some(2), None),
        (Some(3), None),
        (Some(4), None),
        (None, Some(1)),
        (None, Some(4)),
        (None, Some(5)),
    ];
    let out = joined_by_both(alloc, asked)?;
    Ok(
        has_names(out.schema().fields(), &["l", "k", "t", "r"])
            && has_lone_keys(&out)
            && has_rows(alloc, &out, &wanted)?,
    )
}

#[test]
fn each_column_of_a_key_is_that_of_either_side(rt: HostRuntime) -> Result<(), Fail> {
    assert!(rt; is_full(rt.alloc())?);
    Ok(())
}
