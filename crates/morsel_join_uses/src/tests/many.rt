//! One key with many rows on both sides.
ghost use Rattle.std.specs.Prelude.{◌<◌};

use super::cuts::put_join_of;
use super::plain::are_in_order;
use super::tables::{Asked, Found};
use morsel_join::{JoinType, MaintainOrderJoin};
use morsel_meaning::Fault;
use std::alloc::Global;
use std::test::Fail;

const LEFTS: usize = 300;

const RIGHTS: usize = 200;

const PAIRS: usize = 60_000;

/// Marks a pair. The answer is whether it is one, and was not marked.
fn mark_pair(seen: &mut [bool], row: &Found) -> bool {
    let (Some(left), Some(right)) = (row.left, row.right) else {
        return false;
    };
    if left >= LEFTS || right >= RIGHTS {
        return false;
    }
    let at = left * RIGHTS + right;
    if at >= seen.len() || seen[at] {
        return false;
    }
    seen[at] = true;
    true
}

/// Marks each pair. The answer is whether they are pairs, and none was marked.
fn mark_pairs(seen: &mut [bool], rows: &[Found]) -> bool {
    for row in rows {
        if !mark_pair(seen, row) {
            return false;
        }
    }
    true
}

/// Whether each pair is there once, and no other row.
fn has_each_pair(alloc: Global, rows: &[Found]) -> Result<bool, Fault> {
    let mut seen = vec![in alloc; false; PAIRS]?;
    Ok(mark_pairs(&mut seen, rows) && rows.len() == PAIRS)
}

/// Puts the rows of the join last, by morsels of so many rows.
fn put_many(
    alloc: Global,
    order: MaintainOrderJoin,
    size: usize,
    rows: &mut Vec<Found>,
) -> Result<(), Fault>
    requires some { 0 < size }
{
    let asked = Asked {
        how: JoinType::Full,
        order,
        nulls: false,
        coalesce: true,
    };
    put_join_of(
        alloc,
        &[Some(5); LEFTS],
        &[Some(5); RIGHTS],
        asked,
        size.max(1),
        rows,
    )
}

/// Whether the join by morsels of so many rows has each pair once, in the promised order.
fn has_all(alloc: Global, order: MaintainOrderJoin, size: usize) -> Result<bool, Fault>
    requires some { 0 < size }
{
    let mut rows = Vec::new(alloc);
    put_many(alloc, order, size, &mut rows)?;
    Ok(are_in_order(order, &rows) && has_each_pair(alloc, &rows)?)
}

/// Whether that holds by morsels of one row, and of seven.
fn has_all_by_each(alloc: Global, order: MaintainOrderJoin) -> Result<bool, Fault> {
    Ok(has_all(alloc, order, 1)? && has_all(alloc, order, 7)?)
}

#[test]
fn a_key_of_many_rows_gives_all_pairs(rt: HostRuntime) -> Result<(), Fail> {
    assert!(rt; has_all_by_each(rt.alloc(), MaintainOrderJoin::None)?);
    Ok(())
}

#[test]
fn a_key_of_many_rows_gives_all_pairs_by_left_rows(rt: HostRuntime) -> Result<(), Fail> {
    assert!(rt; has_all_by_each(rt.alloc(), MaintainOrderJoin::Left)?);
    Ok(())
}

#[test]
fn a_key_of_many_rows_gives_all_pairs_by_right_rows(rt: HostRuntime) -> Result<(), Fail> {
    assert!(rt; has_all_by_each(rt.alloc(), MaintainOrderJoin::Right)?);
    Ok(())
}

#[test]
fn a_key_of_many_rows_gives_all_pairs_by_left_and_then_right_rows(
    rt: HostRuntime,
) -> Result<(), Fail> {
    assert!(rt; has_all_by_each(rt.alloc(), MaintainOrderJoin::LeftRight)?);
    Ok(())
}

#[test]
fn a_key_of_many_rows_gives_all_pairs_by_right_and_then_left_rows(
    rt: HostRuntime,
) -> Result<(), Fail> {
    assert!(rt; has_all_by_each(rt.alloc(), MaintainOrderJoin::RightLeft)?);
    Ok(())
}
