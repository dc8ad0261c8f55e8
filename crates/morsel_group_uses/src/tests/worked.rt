//! Groups of a few rows, with answers worked out by hand.
ghost use Rattle.std.specs.Prelude.{◌<◌};

use super::grouped::grouped;
use super::tables::{beside, framed, spec_of};
use morsel_frame::{Cell, Column, Frame};
use morsel_keys::Reduction;
use morsel_meaning::{ColType, ComputeKind, Fault};
use std::alloc::Global;
use std::test::Fail;

fn push_number(column: &mut Column, number: i64) -> Result<(), Fault> {
    match column.kind() {
        ColType::Int => column.push_int(number),
        _ => column.push_null(),
    }
}

fn push_numbers(column: &mut Column, numbers: &[i64]) -> Result<(), Fault> {
    for number in numbers {
        push_number(column, *number)?;
    }
    Ok(())
}

/// The frame of one column of numbers.
fn numbers_of(alloc: Global, name: &str, numbers: &[i64]) -> Result<Frame, Fault> {
    let mut column = Column::new(alloc, ColType::Int);
    push_numbers(&mut column, numbers)?;
    framed(alloc, name, column)
}

/// A table of numbers in a column `g`, and of others in a column `x`.
fn table_of(alloc: Global, groups: &[i64], numbers: &[i64]) -> Result<Frame, Fault> {
    let first = numbers_of(alloc, "g", groups)?;
    beside(alloc, first, numbers_of(alloc, "x", numbers)?)
}

/// What the reduction says of `x` by these keys, over rows that come in so many parts, from the last to the first.
fn reduced(
    alloc: Global,
    keys: &[&str],
    op: Reduction,
    table: &Frame,
    parts: usize,
) -> Result<Frame, Fault>
    requires { 0 < parts }
{
    let spec = spec_of(alloc, keys, op, "x")?;
    grouped(alloc, table, &spec, parts)
}

/// The groups of rows with these numbers in `g` and in `x`.
fn groups_of(
    alloc: Global,
    keys: &[&str],
    op: Reduction,
    groups: &[i64],
    numbers: &[i64],
    parts: usize,
) -> Result<Frame, Fault>
    requires { 0 < parts }
{
    let table = table_of(alloc, groups, numbers)?;
    reduced(alloc, keys, op, &table, parts)
}

/// What is said of the first group, where it is a number.
fn said_first(frame: &Frame) -> Option<i64> {
    let width = frame.width();
    if width == 0 || frame.height() == 0 {
        return None;
    }
    match frame.column(width - 1).get(0) {
        Cell::Int(number) => Some(number),
        _ => None,
    }
}

/// How many groups there are, and what is said of the first.
fn answer_of(
    alloc: Global,
    keys: &[&str],
    op: Reduction,
    groups: &[i64],
    numbers: &[i64],
    parts: usize,
) -> Result<(usize, Option<i64>), Fault>
    requires { 0 < parts }
{
    let frame = groups_of(alloc, keys, op, groups, numbers, parts)?;
    Ok((frame.height(), said_first(&frame)))
}

/// Whether the sum of two numbers of one group is too large.
fn is_sum_too_large(alloc: Global, numbers: &[i64], parts: usize) -> bool
    requires { 0 < parts }
{
    matches!(
        answer_of(alloc, &["g"], Reduction::Sum, &[1, 1], numbers, parts),
        Err(Fault::ComputeError {
            kind: ComputeKind::SumTooLarge,
            ..
        })
    )
}

#[test]
fn a_sum_that_leaves_64_bits_and_comes_back_is_whole(rt: HostRuntime) -> Result<(), Fail> {
    let numbers = [i64::MAX, 1, -1];
    for parts in 1..4 {
        let answer = answer_of(
            rt.alloc(),
            &["g"],
            Reduction::Sum,
            &[1, 1, 1],
            &numbers,
            parts,
        )?;
        assert_eq!(rt; answer, (1, Some(i64::MAX)));
    }
    Ok(())
}

#[test]
fn a_whole_sum_outside_64_bits_is_refused(rt: HostRuntime) -> Result<(), Fail> {
    assert!(rt; is_sum_too_large(rt.alloc(), &[i64::MAX, 1], 1));
    assert!(rt; is_sum_too_large(rt.alloc(), &[i64::MAX, 1], 2));
    Ok(())
}

#[test]
fn no_rows_have_no_groups(rt: HostRuntime) -> Result<(), Fail> {
    let answer = answer_of(rt.alloc(), &["g"], Reduction::Len, &[], &[], 2)?;
    assert_eq!(rt; answer, (0, None));
    Ok(())
}

#[test]
fn five_locals_with_keys_of_their_own_have_five_groups(rt: HostRuntime) -> Result<(), Fail> {
    let numbers = [1, 2, 3, 4, 5];
    let answer = answer_of(rt.alloc(), &["g"], Reduction::Sum, &numbers, &numbers, 5)?;
    assert_eq!(rt; answer.0, 5);
    Ok(())
}

#[test]
fn first_and_last_go_by_the_number_of_the_morsel(rt: HostRuntime) -> Result<(), Fail> {
    let numbers = [4, 5, 6];
    let first = answer_of(
        rt.alloc(),
        &["g"],
        Reduction::First,
        &[1, 1, 1],
        &numbers,
        2,
    )?;
    assert_eq!(rt; first, (1, Some(4)));
    let last = answer_of(rt.alloc(), &["g"], Reduction::Last, &[1, 1, 1], &numbers, 2)?;
    assert_eq!(rt; last, (1, Some(6)));
    Ok(())
}

#[test]
fn rows_without_keys_are_one_group(rt: HostRuntime) -> Result<(), Fail> {
    let answer = answer_of(rt.alloc(), &[], Reduction::Sum, &[1, 2, 3], &[3, 4, 5], 2)?;
    assert_eq!(rt; answer, (1, Some(12)));
    Ok(())
}
