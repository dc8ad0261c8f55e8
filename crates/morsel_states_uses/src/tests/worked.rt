//! Rows of groups of a few numbers, with answers worked out by hand.
ghost use Rattle.std.specs.Prelude.{◌≡◌, IfOk};

use super::pieces::{Piece, finished, push_cell, put_piece};
use morsel_frame::{Cell, Column};
use morsel_keys::Reduction;
use morsel_meaning::{ColType, ComputeKind, Fault, Value};
use morsel_states::States;
use std::alloc::Global;
use std::test::Fail;

/// The column of these cells.
fn column_of(alloc: Global, kind: ColType, cells: &[Cell<'_>]) -> Result<Column, Fault>
    ensures { IfOk result (λ column. column.kind ≡ kind) }
{
    let mut column = Column::new(alloc, kind);
    for cell in cells {
        push_cell(&mut column, *cell)?;
    }
    Ok(column)
}

/// Puts numbers to groups, of which the first is this arrival of the morsel of this number.
fn put_numbers(
    alloc: Global,
    states: &mut States,
    groups: &[u32],
    numbers: &[Cell<'_>],
    place: (u64, u64),
) -> Result<(), Fault>
    requires { states.old.kind ≡ ColType.Int }
    ensures op { states.new.op ≡ states.old.op }
    ensures kind { states.new.kind ≡ states.old.kind }
{
    let piece = Piece {
        groups: Vec::from_slice(alloc, groups)?,
        column: column_of(alloc, ColType::Int, numbers)?,
        place,
    };
    put_piece(states, &piece)
}

/// What a reduction says of a group, where these numbers are in groups 0, 1, 0 and 2.
fn of_four(
    alloc: Global,
    op: Reduction,
    numbers: &[Cell<'_>; 4],
    group: u32,
) -> Result<Value, Fault> {
    let mut states = States::new(alloc, op, ColType::Int);
    states.grow(4)?;
    put_numbers(alloc, &mut states, &[0, 1, 0, 2], numbers, (0, 0))?;
    finished(&mut states, group)
}

/// What a reduction says of a group of 5, null, 7 and 1.
fn of_worked(alloc: Global, op: Reduction, group: u32) -> Result<Value, Fault> {
    let numbers = [Cell::Int(5), Cell::Null, Cell::Int(7), Cell::Int(1)];
    of_four(alloc, op, &numbers, group)
}

#[test]
fn each_group_has_its_own_rows(rt: HostRuntime) -> Result<(), Fail> {
    let alloc = rt.alloc();
    assert_eq!(rt; of_worked(alloc, Reduction::Sum, 0)?, Value::Int(12));
    assert_eq!(rt; of_worked(alloc, Reduction::Sum, 1)?, Value::Int(0));
    assert_eq!(rt; of_worked(alloc, Reduction::Len, 1)?, Value::Int(1));
    assert_eq!(rt; of_worked(alloc, Reduction::Max, 1)?, Value::Null);
    assert_eq!(rt; of_worked(alloc, Reduction::First, 2)?, Value::Int(1));
    Ok(())
}

/// What a reduction says of two pieces of one group: 1 and null, which come first and stand last, and then 2 and 3.
fn of_two_pieces(alloc: Global, op: Reduction) -> Result<Value, Fault> {
    let mut states = States::new(alloc, op, ColType::Int);
    states.grow(1)?;
    put_numbers(
        alloc,
        &mut states,
        &[0, 0],
        &[Cell::Int(1), Cell::Null],
        (3, 2),
    )?;
    put_numbers(
        alloc,
        &mut states,
        &[0, 0],
        &[Cell::Int(2), Cell::Int(3)],
        (3, 0),
    )?;
    finished(&mut states, 0)
}

#[test]
fn the_first_and_the_last_go_by_place(rt: HostRuntime) -> Result<(), Fail> {
    let alloc = rt.alloc();
    assert_eq!(rt; of_two_pieces(alloc, Reduction::First)?, Value::Int(2));
    assert_eq!(rt; of_two_pieces(alloc, Reduction::Last)?, Value::Null);
    assert_eq!(rt; of_two_pieces(alloc, Reduction::Min)?, Value::Int(1));
    assert_eq!(rt; of_two_pieces(alloc, Reduction::Max)?, Value::Int(3));
    Ok(())
}

/// A group that has no rows has the length 0 and the sum 0, and is null else.
#[test]
fn a_group_without_rows_is_empty(rt: HostRuntime) -> Result<(), Fail> {
    let alloc = rt.alloc();
    assert_eq!(rt; of_worked(alloc, Reduction::Len, 3)?, Value::Int(0));
    assert_eq!(rt; of_worked(alloc, Reduction::Sum, 3)?, Value::Int(0));
    assert_eq!(rt; of_worked(alloc, Reduction::Last, 3)?, Value::Null);
    Ok(())
}

/// What the sum says of group 0, where its two numbers are these.
fn sum_of_two(alloc: Global, first: i64, second: i64) -> Result<Value, Fault> {
    let numbers = [
        Cell::Int(first),
        Cell::Int(0),
        Cell::Int(second),
        Cell::Null,
    ];
    of_four(alloc, Reduction::Sum, &numbers, 0)
}

#[test]
fn a_total_outside_64_bits_is_refused(rt: HostRuntime) -> Result<(), Fail> {
    let alloc = rt.alloc();
    assert!(rt;
        matches!(
            sum_of_two(alloc, i64::MAX, 1),
            Err(Fault::ComputeError {
                kind: ComputeKind::SumTooLarge,
                ..
            })
        )
    );
    assert_eq!(rt; sum_of_two(alloc, i64::MIN, i64::MAX)?, Value::Int(-1));
    Ok(())
}

/// Puts what others have to these groups, where there is a group for each of theirs and no other groups than there are.
fn merge(states: &mut States, groups: &[u32], others: States) -> Result<(), Fault>
    requires op { others.op ≡ states.old.op }
    requires kind { others.kind ≡ states.old.kind }
    ensures op { states.new.op ≡ states.old.op }
    ensures kind { states.new.kind ≡ states.old.kind }
{
    let count = states.len();
    if groups.len() != others.len() || !groups.iter().all(|group| (*group as usize) < count) {
        return Ok(());
    }
    states.merge(groups, others)
}

/// What a reduction says of a group, where 5 and 9 are in groups 0 and 1, and others that came before, null and 7, are put to groups 1 and 0.
fn of_merged(alloc: Global, op: Reduction, group: u32) -> Result<Value, Fault> {
    let mut states = States::new(alloc, op, ColType::Int);
    states.grow(2)?;
    put_numbers(
        alloc,
        &mut states,
        &[0, 1],
        &[Cell::Int(5), Cell::Int(9)],
        (3, 0),
    )?;
    let mut others = States::new(alloc, op, ColType::Int);
    others.grow(2)?;
    put_numbers(
        alloc,
        &mut others,
        &[0, 1],
        &[Cell::Null, Cell::Int(7)],
        (2, 0),
    )?;
    merge(&mut states, &[1, 0], others)?;
    finished(&mut states, group)
}

#[test]
fn what_others_have_is_put_to_its_group(rt: HostRuntime) -> Result<(), Fail> {
    let alloc = rt.alloc();
    assert_eq!(rt; of_merged(alloc, Reduction::Len, 1)?, Value::Int(2));
    assert_eq!(rt; of_merged(alloc, Reduction::Sum, 0)?, Value::Int(12));
    assert_eq!(rt; of_merged(alloc, Reduction::Min, 1)?, Value::Int(9));
    assert_eq!(rt; of_merged(alloc, Reduction::Max, 0)?, Value::Int(7));
    assert_eq!(rt; of_merged(alloc, Reduction::First, 1)?, Value::Null);
    assert_eq!(rt; of_merged(alloc, Reduction::First, 0)?, Value::Int(7));
    assert_eq!(rt; of_merged(alloc, Reduction::Last, 1)?, Value::Int(9));
    Ok(())
}

/// Counts rows of groups, where there are such groups.
fn count(states: &mut States, groups: &[u32]) -> Result<(), Fault>
    requires { states.old.op ≡ Reduction.Len }
    ensures { states.new.op ≡ states.old.op }
{
    let count = states.len();
    if !groups.iter().all(|group| (*group as usize) < count) {
        return Ok(());
    }
    states.count(groups)
}

#[test]
fn rows_are_counted_without_their_values(rt: HostRuntime) -> Result<(), Fail> {
    let mut states = States::new(rt.alloc(), Reduction::Len, ColType::Text);
    states.grow(3)?;
    count(&mut states, &[2, 0, 2])?;
    assert_eq!(rt; finished(&mut states, 2)?, Value::Int(2));
    assert_eq!(rt; finished(&mut states, 1)?, Value::Int(0));
    Ok(())
}
