//! What reductions say of values that come in any order and in parts.
ghost use Rattle.std.specs.Prelude.{◌≡◌};

use super::drawn::{draw, drawn_column};
use super::samples::column_of;
use morsel_frame::{Cell, Column};
use morsel_keys::{Acc, Reduction};
use morsel_meaning::{ColType, ComputeKind, Fault, Value};
use std::alloc::Global;
use std::test::Fail;

/// How many parts values come in.
const PARTS: usize = 3;

/// All reductions.
const REDUCTIONS: &[Reduction] = &[
    Reduction::Len,
    Reduction::Sum,
    Reduction::Min,
    Reduction::Max,
    Reduction::First,
    Reduction::Last,
];

/// The place of a row: four rows are a morsel.
fn place_of(row: usize) -> (u64, u64) {
    let row = row as u64;
    (row / 4, row % 4)
}

/// Puts the rows of one part to an accumulator, so many rows on from one to the next.
fn put_part(acc: &mut Acc, column: &Column, step: usize, part: usize) -> Result<(), Fault>
    requires { column.now.kind ≡ acc.old.kind }
    ensures kind { acc.new.kind ≡ acc.old.kind }
    ensures op { acc.new.op ≡ acc.old.op }
{
    for at in 0..column.len() {
        let row = at.wrapping_mul(step) % column.len();
        if row % PARTS == part {
            acc.update(column.get(row), place_of(row))?;
        }
    }
    Ok(())
}

/// Puts one part, which was kept by itself, to the others.
fn join_part(
    alloc: Global,
    op: Reduction,
    all: &mut Acc,
    column: &Column,
    step: usize,
    part: usize,
) -> Result<(), Fault>
    requires kind { column.now.kind ≡ all.old.kind }
    requires op { op ≡ all.old.op }
    requires sum { op ≡ Reduction.Sum → column.now.kind ≡ ColType.Int }
    ensures kind { all.new.kind ≡ all.old.kind }
    ensures op { all.new.op ≡ all.old.op }
{
    let mut acc = Acc::new(alloc, op, column.kind());
    put_part(&mut acc, column, step, part)?;
    all.combine(acc)
}

/// Puts all parts, each kept by itself, to an accumulator.
fn join_parts(
    alloc: Global,
    op: Reduction,
    all: &mut Acc,
    column: &Column,
    step: usize,
) -> Result<(), Fault>
    requires kind { column.now.kind ≡ all.old.kind }
    requires op { op ≡ all.old.op }
    requires sum { op ≡ Reduction.Sum → column.now.kind ≡ ColType.Int }
{
    for part in 0..PARTS {
        join_part(alloc, op, all, column, step, part)?;
    }
    Ok(())
}

/// What a reduction says of a column, whose rows come so many on from one to the next, in parts.
fn reduced(alloc: Global, op: Reduction, column: &Column, step: usize) -> Result<Value, Fault>
    requires { op ≡ Reduction.Sum → column.now.kind ≡ ColType.Int }
{
    let mut all = Acc::new(alloc, op, column.kind());
    join_parts(alloc, op, &mut all, column, step)?;
    all.finish()
}

/// Whether a value is that of a cell.
fn is_value(value: &Value, cell: Cell<'_>) -> bool {
    match value {
        Value::Null => cell == Cell::Null,
        Value::Int(number) => cell == Cell::Int(*number),
        Value::Bool(flag) => cell == Cell::Bool(*flag),
        Value::Text(text) => cell == Cell::Text(text.as_str()),
    }
}

/// Whether a reduction says this of a column, whose rows come so many on from one to the next.
fn says_by(
    alloc: Global,
    op: Reduction,
    column: &Column,
    step: usize,
    wanted: Cell<'_>,
) -> Result<bool, Fault>
    requires { op ≡ Reduction.Sum → column.now.kind ≡ ColType.Int }
{
    let value = reduced(alloc, op, column, step)?;
    Ok(is_value(&value, wanted))
}

/// Whether a reduction says this of a column, whose rows come in their order, and from the last to the first.
fn says_both_ways(
    alloc: Global,
    op: Reduction,
    column: &Column,
    wanted: Cell<'_>,
) -> Result<bool, Fault>
    requires { op ≡ Reduction.Sum → column.now.kind ≡ ColType.Int }
{
    let back = column.len().saturating_sub(1);
    Ok(says_by(alloc, op, column, 1, wanted)? && says_by(alloc, op, column, back, wanted)?)
}

/// Whether a reduction says this of cells that come in their order, and from the last to the first. A sum is of numbers alone.
fn says(
    alloc: Global,
    op: Reduction,
    kind: ColType,
    cells: &[Cell<'_>],
    wanted: Cell<'_>,
) -> Result<bool, Fault> {
    if op == Reduction::Sum && kind != ColType::Int {
        return Ok(false);
    }
    let column = column_of(alloc, kind, cells)?;
    says_both_ways(alloc, op, &column, wanted)
}

/// Whether this is the sum of three cells.
fn is_sum(
    alloc: Global,
    first: Cell<'_>,
    second: Cell<'_>,
    third: Cell<'_>,
    wanted: i64,
) -> Result<bool, Fault> {
    let cells = [first, second, third];
    says(
        alloc,
        Reduction::Sum,
        ColType::Int,
        &cells,
        Cell::Int(wanted),
    )
}

#[test]
fn sums_skip_nulls_and_may_pass_64_bits_on_the_way(rt: HostRuntime) -> Result<(), Fail> {
    let alloc = rt.alloc();
    assert!(rt; is_sum(alloc, Cell::Int(2), Cell::Null, Cell::Int(3), 5)?);
    let most = Cell::Int(i64::MAX);
    assert!(rt; is_sum(alloc, most, most, Cell::Int(-i64::MAX), i64::MAX)?);
    let least = Cell::Int(i64::MIN);
    assert!(rt; is_sum(alloc, least, Cell::Int(-1), Cell::Int(1), i64::MIN)?);
    Ok(())
}

/// Whether the total of a column of numbers is refused.
fn is_total_refused(alloc: Global, column: &Column) -> bool
    requires { column.now.kind ≡ ColType.Int }
{
    matches!(
        reduced(alloc, Reduction::Sum, column, 1),
        Err(Fault::ComputeError {
            kind: ComputeKind::SumTooLarge,
            ..
        })
    )
}

/// Whether the total of two numbers is refused.
fn is_refused(alloc: Global, first: i64, second: i64) -> Result<bool, Fault> {
    let column = column_of(alloc, ColType::Int, &[Cell::Int(first), Cell::Int(second)])?;
    Ok(is_total_refused(alloc, &column))
}

#[test]
fn a_total_outside_64_bits_is_refused(rt: HostRuntime) -> Result<(), Fail> {
    assert!(rt; is_refused(rt.alloc(), i64::MAX, 1)?);
    assert!(rt; is_refused(rt.alloc(), -1, i64::MIN)?);
    Ok(())
}

/// What a reduction says of so many nulls.
fn of_nulls(op: Reduction, count: i64) -> Cell<'static> {
    match op {
        Reduction::Len => Cell::Int(count),
        Reduction::Sum => Cell::Int(0),
        _ => Cell::Null,
    }
}

/// Whether a reduction says of three nulls of a type, and of no values, what it should.
fn says_of_nulls(alloc: Global, op: Reduction, kind: ColType) -> Result<bool, Fault> {
    Ok(
        says(alloc, op, kind, &[Cell::Null; 3], of_nulls(op, 3))?
            && says(alloc, op, kind, &[], of_nulls(op, 0))?,
    )
}

#[test]
fn nulls_count_and_are_nothing_else(rt: HostRuntime) -> Result<(), Fail> {
    for kind in [ColType::Int, ColType::Bool, ColType::Text] {
        for op in REDUCTIONS {
            if *op != Reduction::Sum || kind == ColType::Int {
                assert!(rt; says_of_nulls(rt.alloc(), *op, kind)?, "{op:?} of {kind:?}");
            }
        }
    }
    Ok(())
}

fn says_of_texts(alloc: Global, op: Reduction, wanted: Cell<'_>) -> Result<bool, Fault> {
    let texts = [
        Cell::Text("b"),
        Cell::Null,
        Cell::Text("ab"),
        Cell::Text("bb"),
        Cell::Null,
    ];
    says(alloc, op, ColType::Text, &texts, wanted)
}

fn says_of_flags(alloc: Global, op: Reduction, wanted: Cell<'_>) -> Result<bool, Fault> {
    let flags = [Cell::Null, Cell::Bool(true), Cell::Bool(false)];
    says(alloc, op, ColType::Bool, &flags, wanted)
}

/// Texts go by their bytes, and false is less than true.
#[test]
fn bounds_skip_nulls(rt: HostRuntime) -> Result<(), Fail> {
    let alloc = rt.alloc();
    assert!(rt; says_of_texts(alloc, Reduction::Min, Cell::Text("ab"))?);
    assert!(rt; says_of_texts(alloc, Reduction::Max, Cell::Text("bb"))?);
    assert!(rt; says_of_flags(alloc, Reduction::Min, Cell::Bool(false))?);
    assert!(rt; says_of_flags(alloc, Reduction::Max, Cell::Bool(true))?);
    Ok(())
}

#[test]
fn ends_may_be_null(rt: HostRuntime) -> Result<(), Fail> {
    let alloc = rt.alloc();
    assert!(rt; says_of_texts(alloc, Reduction::First, Cell::Text("b"))?);
    assert!(rt; says_of_texts(alloc, Reduction::Last, Cell::Null)?);
    assert!(rt; says_of_flags(alloc, Reduction::First, Cell::Null)?);
    assert!(rt; says_of_flags(alloc, Reduction::Last, Cell::Bool(false))?);
    Ok(())
}

/// The first or the last of numbers; null where there are none.
fn end_of(number: Option<&Option<i64>>) -> Option<i64> {
    match number {
        Some(number) => *number,
        None => None,
    }
}

/// What a reduction says of numbers, in plain words. Their total is small.
fn plainly(op: Reduction, numbers: &[Option<i64>]) -> Option<i64> {
    let mut plain = match op {
        Reduction::First => end_of(numbers.first()),
        Reduction::Last => end_of(numbers.last()),
        Reduction::Len | Reduction::Sum => Some(0),
        Reduction::Min | Reduction::Max => None,
    };
    for number in numbers {
        plain = with_number(op, plain, *number);
    }
    plain
}

/// What a reduction says of one number more, in plain words; the ends stay.
fn with_number(op: Reduction, plain: Option<i64>, number: Option<i64>) -> Option<i64> {
    match (op, plain, number) {
        (Reduction::Len, Some(len), _) => Some(len.wrapping_add(1)),
        (Reduction::Sum, Some(total), Some(number)) => Some(total.wrapping_add(number)),
        (Reduction::Min, Some(least), Some(number)) => Some(least.min(number)),
        (Reduction::Max, Some(most), Some(number)) => Some(most.max(number)),
        (Reduction::Min | Reduction::Max, None, number) => number,
        _ => plain,
    }
}

/// A number or a null as a cell.
fn number_cell(number: Option<i64>) -> Cell<'static> {
    match number {
        Some(number) => Cell::Int(number),
        None => Cell::Null,
    }
}

/// Whether each reduction says of a column of numbers, which come so many on from one to the next, what it says in plain words.
fn each_says_plainly(
    alloc: Global,
    column: &Column,
    numbers: &[Option<i64>],
    step: usize,
) -> Result<bool, Fault>
    requires { column.now.kind ≡ ColType.Int }
{
    for op in REDUCTIONS {
        if !says_by(alloc, *op, column, step, number_cell(plainly(*op, numbers)))? {
            return Ok(false);
        }
    }
    Ok(true)
}

/// The same of numbers.
fn says_plainly(alloc: Global, numbers: &[Option<i64>], step: usize) -> Result<bool, Fault> {
    let column = drawn_column(alloc, ColType::Int, numbers)?;
    each_says_plainly(alloc, &column, numbers, step)
}

/// The same of numbers that are drawn, as many as a prime, so that each step takes each row once.
fn says_plainly_of_drawn(alloc: Global, seed: u64, step: usize) -> Result<bool, Fault> {
    let numbers = draw(alloc, seed, 61, 40)?;
    says_plainly(alloc, &numbers, step)
}

#[test]
fn drawn_numbers_are_reduced_as_in_plain_words(rt: HostRuntime) -> Result<(), Fail> {
    for seed in 0..40 {
        for step in [1, 2, 30, 60] {
            assert!(rt;
                says_plainly_of_drawn(rt.alloc(), seed, step)?,
                "seed {seed}, step {step}"
            );
        }
    }
    Ok(())
}
