//! Every kind with every promise, nulls and coalescing, over all pairs of tables of up to three rows.
use super::plain::are_joined;
use super::tables::{ASKED, Asked, Tables, asked_of, has_names, joined, rows_of, tables_of};
use morsel_frame::Frame;
use morsel_join::JoinType;
use morsel_meaning::Fault;
use std::alloc::Global;
use std::test::Fail;

/// How many tables there are of up to three rows with three keys.
const TABLES: usize = 40;

/// The keys.
const KEYS: [Option<i64>; 3] = [None, Some(1), Some(2)];

/// The keys of the table of this number, and how many it has: none for 0, one for 1 to 3, two for 4 to 12, and three for the others.
fn keys_of(table: usize) -> ([Option<i64>; 3], usize) {
    let (len, number) = if table < 1 {
        (0, table)
    } else if table < 4 {
        (1, table - 1)
    } else if table < 13 {
        (2, table - 4)
    } else {
        (3, table - 13)
    };
    (
        [KEYS[number % 3], KEYS[number / 3 % 3], KEYS[number / 9 % 3]],
        len,
    )
}

/// The names of the columns of a join of tables that are numbered by `l` and `r`, and have the key `k`.
fn names_of(asked: Asked) -> &'static [&'static str] {
    if !asked.coalesce {
        &["l", "k", "r", "k_right"]
    } else if asked.how == JoinType::Right {
        &["l", "r", "k"]
    } else {
        &["l", "k", "r"]
    }
}

/// Whether these are the rows of a join of tables of these keys.
fn is_join(
    alloc: Global,
    out: &Frame,
    lefts: &[Option<i64>],
    rights: &[Option<i64>],
    asked: Asked,
) -> Result<bool, Fault> {
    let rows = rows_of(alloc, out)?;
    let fields = out.schema().fields();
    Ok(has_names(fields, names_of(asked)) && are_joined(asked, lefts, rights, &rows))
}

/// Whether two tables of these keys are joined as is asked.
fn are_joined_so(
    alloc: Global,
    tables: &Tables,
    lefts: &[Option<i64>],
    rights: &[Option<i64>],
    asked: Asked,
) -> Result<bool, Fault> {
    let out = joined(alloc, tables, &[("k", "k")], asked)?;
    is_join(alloc, &out, lefts, rights, asked)
}

/// The number of what is asked of the first join of two tables that is wrong, of those of one kind.
fn first_wrong(
    alloc: Global,
    tables: &Tables,
    lefts: &[Option<i64>],
    rights: &[Option<i64>],
    how: JoinType,
) -> Result<Option<usize>, Fault> {
    for number in 0..ASKED {
        let asked = asked_of(number);
        if asked.how == how && !are_joined_so(alloc, tables, lefts, rights, asked)? {
            return Ok(Some(number));
        }
    }
    Ok(None)
}

/// The same of the tables of these numbers.
fn first_wrong_of(
    alloc: Global,
    left: usize,
    right: usize,
    how: JoinType,
) -> Result<Option<usize>, Fault> {
    let (left_keys, lefts) = keys_of(left);
    let (right_keys, rights) = keys_of(right);
    let lefts = &left_keys[..lefts.min(3)];
    let rights = &right_keys[..rights.min(3)];
    let tables = tables_of(alloc, lefts, rights)?;
    first_wrong(alloc, &tables, lefts, rights, how)
}

/// The numbers of the first two tables, and of what is asked, where a join of this kind is wrong.
fn first_wrong_tables(
    alloc: Global,
    how: JoinType,
) -> Result<Option<(usize, usize, usize)>, Fault> {
    for left in 0..TABLES {
        for right in 0..TABLES {
            if let Some(number) = first_wrong_of(alloc, left, right, how)? {
                return Ok(Some((left, right, number)));
            }
        }
    }
    Ok(None)
}

#[test]
fn inner_joins_of_up_to_three_rows_are_those_of_the_definition(
    rt: HostRuntime,
) -> Result<(), Fail> {
    assert_eq!(rt; first_wrong_tables(rt.alloc(), JoinType::Inner)?, None);
    Ok(())
}

#[test]
fn left_joins_of_up_to_three_rows_are_those_of_the_definition(rt: HostRuntime) -> Result<(), Fail> {
    assert_eq!(rt; first_wrong_tables(rt.alloc(), JoinType::Left)?, None);
    Ok(())
}

#[test]
fn right_joins_of_up_to_three_rows_are_those_of_the_definition(
    rt: HostRuntime,
) -> Result<(), Fail> {
    assert_eq!(rt; first_wrong_tables(rt.alloc(), JoinType::Right)?, None);
    Ok(())
}

#[test]
fn full_joins_of_up_to_three_rows_are_those_of_the_definition(rt: HostRuntime) -> Result<(), Fail> {
    assert_eq!(rt; first_wrong_tables(rt.alloc(), JoinType::Full)?, None);
    Ok(())
}
