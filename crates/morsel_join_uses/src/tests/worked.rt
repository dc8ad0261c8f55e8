//! Worked joins, row by row.
ghost use Rattle.std.specs.Prelude.{◌<◌};

use super::cuts::put_join_of;
use super::tables::{Asked, Found, Tables, has_names, joined, rows_of, tables_by, tables_of};
use morsel_frame::Frame;
use morsel_join::{JoinType, MaintainOrderJoin};
use morsel_meaning::Fault;
use std::alloc::Global;
use std::test::Fail;

/// A row of a join.
fn row(
    left: Option<usize>,
    right: Option<usize>,
    key: Option<i64>,
    right_key: Option<i64>,
) -> Found {
    Found {
        left,
        right,
        key,
        right_key,
    }
}

/// Whether a join has these columns and rows.
fn is_join(alloc: Global, out: &Frame, names: &[&str], wanted: &[Found]) -> Result<bool, Fault> {
    let rows = rows_of(alloc, out)?;
    Ok(has_names(out.schema().fields(), names) && rows.as_slice() == wanted)
}

/// Whether the join of two tables has these columns and rows.
fn joins_to(
    alloc: Global,
    tables: &Tables,
    pairs: &[(&str, &str)],
    asked: Asked,
    names: &[&str],
    wanted: &[Found],
) -> Result<bool, Fault> {
    let out = joined(alloc, tables, pairs, asked)?;
    is_join(alloc, &out, names, wanted)
}

/// The full join by the left and then the right row, of which no columns become one.
fn full(nulls: bool) -> Asked {
    Asked {
        how: JoinType::Full,
        order: MaintainOrderJoin::LeftRight,
        nulls,
        coalesce: false,
    }
}

/// Pairs of the columns `k`.
const BY_K: &[(&str, &str)] = &[("k", "k")];

/// The keys of the two sides of a full join.
const LEFTS: &[Option<i64>] = &[Some(1), Some(1), None];

const RIGHTS: &[Option<i64>] = &[Some(1), None, Some(2)];

/// The columns of a join of which no columns become one.
const APART: &[&str] = &["l", "k", "r", "k_right"];

/// Whether the full join of keys 1, 1, null with 1, null, 2 has these rows.
fn is_full(alloc: Global, nulls: bool, wanted: &[Found]) -> Result<bool, Fault> {
    let tables = tables_of(alloc, LEFTS, RIGHTS)?;
    joins_to(alloc, &tables, BY_K, full(nulls), APART, wanted)
}

#[test]
fn a_full_join_has_the_lone_rows_of_both_sides(rt: HostRuntime) -> Result<(), Fail> {
    let wanted = [
        row(Some(0), Some(0), Some(1), Some(1)),
        row(Some(1), Some(0), Some(1), Some(1)),
        row(Some(2), None, None, None),
        row(None, Some(1), None, None),
        row(None, Some(2), None, Some(2)),
    ];
    assert!(rt; is_full(rt.alloc(), false, &wanted)?);
    Ok(())
}

#[test]
fn equal_nulls_are_a_pair(rt: HostRuntime) -> Result<(), Fail> {
    let wanted = [
        row(Some(0), Some(0), Some(1), Some(1)),
        row(Some(1), Some(0), Some(1), Some(1)),
        row(Some(2), Some(1), None, None),
        row(None, Some(2), None, Some(2)),
    ];
    assert!(rt; is_full(rt.alloc(), true, &wanted)?);
    Ok(())
}

/// Pairs of the columns `k` and `a`.
const BY_A: &[(&str, &str)] = &[("k", "a")];

const ONE_TWO: &[Option<i64>] = &[Some(1), Some(2)];

const TWO_THREE: &[Option<i64>] = &[Some(2), Some(3)];

/// The columns of a join that keeps the left keys.
const LEFT_KEPT: &[&str] = &["l", "k", "r"];

/// Whether the full join of keys 1, 2 with 2, 3 has these rows, where the right ones have another name and become one column with the left ones.
fn is_coalesced(alloc: Global, wanted: &[Found]) -> Result<bool, Fault> {
    let asked = Asked {
        coalesce: true,
        ..full(false)
    };
    let tables = tables_by(alloc, ONE_TWO, "a", TWO_THREE)?;
    joins_to(alloc, &tables, BY_A, asked, LEFT_KEPT, wanted)
}

#[test]
fn a_coalesced_key_is_that_of_either_side(rt: HostRuntime) -> Result<(), Fail> {
    let wanted = [
        row(Some(0), None, Some(1), None),
        row(Some(1), Some(0), Some(2), None),
        row(None, Some(1), Some(3), None),
    ];
    assert!(rt; is_coalesced(rt.alloc(), &wanted)?);
    Ok(())
}

/// The right join that keeps the right keys, by one side and then the other.
fn right(order: MaintainOrderJoin) -> Asked {
    Asked {
        how: JoinType::Right,
        order,
        nulls: false,
        coalesce: true,
    }
}

const NONE: &[Option<i64>] = &[];

const ONE: &[Option<i64>] = &[Some(1)];

/// The columns of a join that keeps the right keys.
const RIGHT_KEPT: &[&str] = &["l", "r", "k"];

/// Whether the right join of no row with one has these rows.
fn is_right(alloc: Global, wanted: &[Found]) -> Result<bool, Fault> {
    let asked = right(MaintainOrderJoin::None);
    let tables = tables_of(alloc, NONE, ONE)?;
    joins_to(alloc, &tables, BY_K, asked, RIGHT_KEPT, wanted)
}

#[test]
fn a_right_join_of_no_left_row_has_the_right_keys(rt: HostRuntime) -> Result<(), Fail> {
    assert!(rt; is_right(rt.alloc(), &[row(None, Some(0), Some(1), None)])?);
    Ok(())
}

/// Whether the right join of keys 1, 1 with 1, 5, 5, null has these rows, by morsels of so many rows.
fn has_rows_by(
    alloc: Global,
    order: MaintainOrderJoin,
    size: usize,
    wanted: &[Found],
) -> Result<bool, Fault>
    requires some { 0 < size }
{
    let mut rows = Vec::new(alloc);
    put_join_of(
        alloc,
        &[Some(1), Some(1)],
        &[Some(1), Some(5), Some(5), None],
        right(order),
        size,
        &mut rows,
    )?;
    Ok(rows.as_slice() == wanted)
}

#[test]
fn a_right_join_has_each_lone_right_row_once(rt: HostRuntime) -> Result<(), Fail> {
    let wanted = [
        row(Some(0), Some(0), Some(1), None),
        row(Some(1), Some(0), Some(1), None),
        row(None, Some(1), Some(5), None),
        row(None, Some(2), Some(5), None),
        row(None, Some(3), None, None),
    ];
    for size in 1..5 {
        assert!(rt; has_rows_by(rt.alloc(), MaintainOrderJoin::LeftRight, size, &wanted)?);
        assert!(rt; has_rows_by(rt.alloc(), MaintainOrderJoin::RightLeft, size, &wanted)?);
    }
    Ok(())
}
