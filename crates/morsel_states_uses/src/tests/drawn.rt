//! Rows that are drawn, beside one accumulator for each group.
ghost use Rattle.std.specs.Prelude.{◌≡◌, IfOk};

use super::pieces::{Piece, finished, push_cell, put_piece};
use morsel_frame::{Cell, Column};
use morsel_keys::{Acc, Reduction};
use morsel_meaning::{ColType, Fault, Value};
use morsel_states::States;
use rand_core::{Rng, SeedableRng};
use rand_xoshiro::Xoshiro256PlusPlus;
use std::alloc::Global;
use std::test::Fail;

/// How many groups there are in the end. The last has no rows.
const GROUPS: u32 = 7;

/// Where a piece of rows comes from, and of how many groups its rows are.
#[derive(Clone, Copy)]
struct Shape {
    number: u64,
    arrival: u64,
    groups: u32,
}

/// Pieces in the order in which they are put. Later ones have more groups, and rows whose places are before those of earlier ones.
const SHAPES: [Shape; 4] = [
    Shape {
        number: 8,
        arrival: 0,
        groups: 1,
    },
    Shape {
        number: 3,
        arrival: 100,
        groups: 3,
    },
    Shape {
        number: 3,
        arrival: 0,
        groups: 3,
    },
    Shape {
        number: 5,
        arrival: 0,
        groups: GROUPS - 1,
    },
];

/// All reductions.
const REDUCTIONS: [Reduction; 6] = [
    Reduction::Len,
    Reduction::Sum,
    Reduction::Min,
    Reduction::Max,
    Reduction::First,
    Reduction::Last,
];

/// The value of a draw, a null among them.
fn drawn_cell(kind: ColType, drawn: u32) -> Cell<'static> {
    match (kind, drawn % 8) {
        (_, 0) => Cell::Null,
        (ColType::Int, _) => Cell::Int(i64::from(drawn) - 2_000_000_000),
        (ColType::Bool, digit) => Cell::Bool(digit < 4),
        (ColType::Text, 1) => Cell::Text(""),
        (ColType::Text, 2) => Cell::Text("ab"),
        (ColType::Text, 3) => Cell::Text("b"),
        _ => Cell::Text("abc"),
    }
}

/// A column of values that are drawn.
fn drawn_column(alloc: Global, kind: ColType, seed: u64, len: usize) -> Result<Column, Fault>
    ensures { IfOk result (λ column. column.kind ≡ kind) }
{
    let mut rng = Xoshiro256PlusPlus::seed_from_u64(seed);
    let mut column = Column::new(alloc, kind);
    for _ in 0..len {
        push_cell(&mut column, drawn_cell(kind, rng.next_u32()))?;
    }
    Ok(column)
}

/// As many numbers of groups as are asked, each below a number.
fn drawn_groups(alloc: Global, seed: u64, len: usize, below: u32) -> Result<Vec<u32>, Fault> {
    let mut rng = Xoshiro256PlusPlus::seed_from_u64(seed);
    let mut groups = Vec::new(alloc);
    for _ in 0..len {
        groups.push(rng.next_u32() % below.max(1))?;
    }
    Ok(groups)
}

/// A piece of rows that are drawn, by the seed and its place.
fn drawn_piece(alloc: Global, kind: ColType, seed: u64, shape: Shape) -> Result<Piece, Fault>
    ensures { IfOk result (λ piece. piece.column.kind ≡ kind) }
{
    let place = (shape.number, shape.arrival);
    let drawn = seed
        .wrapping_mul(1000)
        .wrapping_add(place.0)
        .wrapping_add(place.1);
    Ok(Piece {
        groups: drawn_groups(alloc, drawn.wrapping_add(500), 60, shape.groups)?,
        column: drawn_column(alloc, kind, drawn, 60)?,
        place,
    })
}

/// Puts a piece that is drawn to the groups, after they were made enough and one more.
fn put_drawn(
    alloc: Global,
    states: &mut States,
    kind: ColType,
    seed: u64,
    shape: Shape,
) -> Result<(), Fault>
    requires { states.old.kind ≡ kind }
    ensures { states.new.kind ≡ states.old.kind }
{
    let piece = drawn_piece(alloc, kind, seed, shape)?;
    states.grow(shape.groups.saturating_add(1) as usize)?;
    put_piece(states, &piece)
}

/// The groups after all pieces were put to them.
fn states_of(alloc: Global, op: Reduction, kind: ColType, seed: u64) -> Result<States, Fault>
    requires { op ≡ Reduction.Sum → kind ≡ ColType.Int }
{
    let mut states = States::new(alloc, op, kind);
    for shape in SHAPES {
        put_drawn(alloc, &mut states, kind, seed, shape)?;
    }
    Ok(states)
}

/// Puts the rows of one group to an accumulator.
fn put_rows(acc: &mut Acc, piece: &Piece, group: u32) -> Result<(), Fault>
    requires { piece.now.column.kind ≡ acc.old.kind }
    ensures { acc.new.kind ≡ acc.old.kind }
{
    for row in 0..piece.column.len() {
        if row < piece.groups.len() && piece.groups[row] == group {
            let arrival = piece.place.1.wrapping_add(row as u64);
            acc.update(piece.column.get(row), (piece.place.0, arrival))?;
        }
    }
    Ok(())
}

/// Puts the rows of one group in a piece that is drawn to an accumulator.
fn put_drawn_rows(
    alloc: Global,
    acc: &mut Acc,
    kind: ColType,
    seed: u64,
    shape: Shape,
    group: u32,
) -> Result<(), Fault>
    requires { acc.old.kind ≡ kind }
    ensures { acc.new.kind ≡ acc.old.kind }
{
    let piece = drawn_piece(alloc, kind, seed, shape)?;
    put_rows(acc, &piece, group)
}

/// What one accumulator says of the rows of a group, put to it in the same order.
fn plainly(
    alloc: Global,
    op: Reduction,
    kind: ColType,
    seed: u64,
    group: u32,
) -> Result<Value, Fault>
    requires { op ≡ Reduction.Sum → kind ≡ ColType.Int }
{
    let mut acc = Acc::new(alloc, op, kind);
    for shape in SHAPES {
        put_drawn_rows(alloc, &mut acc, kind, seed, shape, group)?;
    }
    acc.finish()
}

/// Whether the groups say of each what one accumulator says of its rows. A sum is of numbers alone.
fn agree(alloc: Global, op: Reduction, kind: ColType, seed: u64) -> Result<bool, Fault> {
    if op == Reduction::Sum && kind != ColType::Int {
        return Ok(true);
    }
    let mut states = states_of(alloc, op, kind, seed)?;
    for group in 0..GROUPS {
        if finished(&mut states, group)? != plainly(alloc, op, kind, seed, group)? {
            return Ok(false);
        }
    }
    Ok(states.len() == GROUPS as usize)
}

#[test]
fn groups_say_what_one_accumulator_says(rt: HostRuntime) -> Result<(), Fail> {
    for seed in 0..20 {
        for kind in [ColType::Int, ColType::Bool, ColType::Text] {
            for op in REDUCTIONS {
                assert!(rt;
                    agree(rt.alloc(), op, kind, seed)?,
                    "{op:?} of {kind:?}, seed {seed}"
                );
            }
        }
    }
    Ok(())
}
