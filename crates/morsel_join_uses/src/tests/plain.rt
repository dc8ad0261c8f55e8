//! What a join is, in plain words: which rows it has, in which order, and what its columns of keys have. A row is told by its number on its
//! side, from 0.
use super::tables::{Asked, Found};
use morsel_join::{JoinType, MaintainOrderJoin};

/// Whether two keys are equal.
fn are_equal(left: Option<i64>, right: Option<i64>, nulls: bool) -> bool {
    left == right && (nulls || left.is_some())
}

/// The key of the row of this number, if there is such a row.
fn key_of(keys: &[Option<i64>], row: Option<usize>) -> Option<Option<i64>> {
    let row = row?;
    if row < keys.len() {
        Some(keys[row])
    } else {
        None
    }
}

/// Whether there are two rows, and their keys are equal.
fn are_paired(left: Option<Option<i64>>, right: Option<Option<i64>>, nulls: bool) -> bool {
    match (left, right) {
        (Some(left), Some(right)) => are_equal(left, right, nulls),
        _ => false,
    }
}

/// Whether there is a row, and its key is equal to none of these.
fn is_lone(key: Option<Option<i64>>, others: &[Option<i64>], nulls: bool) -> bool {
    for other in others {
        if are_paired(key, Some(*other), nulls) {
            return false;
        }
    }
    key.is_some()
}

/// Whether a join has a row of these two: a pair with equal keys, or a lone row of a side of which the kind has them.
fn is_row(
    asked: Asked,
    lefts: &[Option<i64>],
    rights: &[Option<i64>],
    left: Option<usize>,
    right: Option<usize>,
) -> bool {
    let left_key = key_of(lefts, left);
    let right_key = key_of(rights, right);
    match (left, right) {
        (Some(_), Some(_)) => are_paired(left_key, right_key, asked.nulls),
        (Some(_), None) => {
            matches!(asked.how, JoinType::Left | JoinType::Full)
                && is_lone(left_key, rights, asked.nulls)
        }
        (None, Some(_)) => {
            matches!(asked.how, JoinType::Right | JoinType::Full)
                && is_lone(right_key, lefts, asked.nulls)
        }
        (None, None) => false,
    }
}

/// How many of these rows are of these two.
fn count_of(rows: &[Found], left: Option<usize>, right: Option<usize>) -> usize {
    let mut count = 0usize;
    for row in rows {
        if row.left == left && row.right == right {
            count = count.wrapping_add(1);
        }
    }
    count
}

/// A row's number where there are so many rows, and none behind the last.
fn row_within(at: usize, rows: usize) -> Option<usize> {
    if at < rows { Some(at) } else { None }
}

/// Whether each row of a join is there once, and no other row.
fn has_each_once(
    asked: Asked,
    lefts: &[Option<i64>],
    rights: &[Option<i64>],
    rows: &[Found],
) -> bool {
    let mut all = 0usize;
    for i in 0..lefts.len() + 1 {
        for j in 0..rights.len() + 1 {
            let left = row_within(i, lefts.len());
            let right = row_within(j, rights.len());
            let count = count_of(rows, left, right);
            if is_row(asked, lefts, rights, left, right) != (count == 1) || count > 1 {
                return false;
            }
            all = all.wrapping_add(count);
        }
    }
    all == rows.len()
}

/// A place in an order in which what has no row comes last.
fn place(row: Option<usize>) -> usize {
    match row {
        Some(row) => row,
        None => usize::MAX,
    }
}

/// Whether one row may come right before another.
fn may_precede(order: MaintainOrderJoin, first: &Found, second: &Found) -> bool {
    let by_left = place(first.left) <= place(second.left);
    let by_right = place(first.right) <= place(second.right);
    match order {
        MaintainOrderJoin::None => true,
        MaintainOrderJoin::Left => by_left,
        MaintainOrderJoin::Right => by_right,
        MaintainOrderJoin::LeftRight => by_left && (first.left != second.left || by_right),
        MaintainOrderJoin::RightLeft => by_right && (first.right != second.right || by_left),
    }
}

/// Whether the rows come in a promised order.
pub fn are_in_order(order: MaintainOrderJoin, rows: &[Found]) -> bool {
    for at in 1..rows.len() {
        if !may_precede(order, &rows[at - 1], &rows[at]) {
            return false;
        }
    }
    true
}

/// Whether a key is that of a row, if there is such a row.
fn is_key(key: Option<i64>, wanted: Option<Option<i64>>) -> bool {
    match wanted {
        Some(wanted) => key == wanted,
        None => true,
    }
}

/// Whether the columns of keys have the keys of a row: a coalesced one that of either side, and each of two that of its own side, which is null
/// where that side has no row.
fn has_keys(
    asked: Asked,
    left: Option<Option<i64>>,
    right: Option<Option<i64>>,
    row: &Found,
) -> bool {
    if asked.coalesce {
        return is_key(row.key, left) && is_key(row.key, right) && row.right_key.is_none();
    }
    row.key == left.unwrap_or(None) && row.right_key == right.unwrap_or(None)
}

/// Whether each row has its keys.
fn have_keys(asked: Asked, lefts: &[Option<i64>], rights: &[Option<i64>], rows: &[Found]) -> bool {
    for row in rows {
        if !has_keys(
            asked,
            key_of(lefts, row.left),
            key_of(rights, row.right),
            row,
        ) {
            return false;
        }
    }
    true
}

/// Whether these are the rows of a join of tables with these keys, in a promised order.
pub fn are_joined(
    asked: Asked,
    lefts: &[Option<i64>],
    rights: &[Option<i64>],
    rows: &[Found],
) -> bool {
    has_each_once(asked, lefts, rights, rows)
        && are_in_order(asked.order, rows)
        && have_keys(asked, lefts, rights, rows)
}

/// Whether rows are of these left and right rows, in this order.
pub fn are_of(rows: &[Found], wanted: &[(Option<usize>, Option<usize>)]) -> bool {
    if rows.len() != wanted.len() {
        return false;
    }
    for at in 0..rows.len() {
        if rows[at].left != wanted[at].0 || rows[at].right != wanted[at].1 {
            return false;
        }
    }
    true
}
