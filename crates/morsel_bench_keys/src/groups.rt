//! Reductions of many groups: counts and sums of rows whose groups are numbered.
ghost use Rattle.std.specs.Prelude.{◌≡◌, ◌<◌, All, IfOk, length};
ghost use Rattle.morsel_meaning.specs.declared.value.ColType.TheVariants as types;

use morsel_frame::Column;
use morsel_keys::Reduction;
use morsel_meaning::{ColType, Fault, Value};
use morsel_states::States;
use morsel_timing::{Best, Numbers, Timing, now, number_column, tell};
use std::alloc::Global;
use std::rt::Clock;

/// How many groups there are.
const GROUPS: u32 = 5000;

/// The rows of a piece.
const PIECE: usize = 65536;

/// Rows with the numbers of their groups.
#[derive(Drop)]
struct NumberedRows {
    groups: Vec<u32>,
    values: Column,
    ghost within: { All (λ group. group < 5000) groups.items },
    ghost len: { length groups.items ≡ length values.values },
    ghost kind: { values.kind ≡ types.Int },
}

/// Runs the part on so many rows.
pub fn run<R: Clock + Print + AllocGlobal>(
    rt: &R,
    timing: Timing,
    rows: usize,
) -> Result<(), Fault> {
    let pieces = pieces_of(rt.alloc(), rows)?;
    let best = time_reductions(rt, timing, &pieces)?;
    tell(rt, timing, "len and sum of 5,000 groups, rows", best, rows)
}

/// So many rows, in pieces.
fn pieces_of(alloc: Global, rows: usize) -> Result<Vec<NumberedRows>, Fault> {
    let mut numbers = Numbers::new();
    let mut pieces = Vec::new(alloc);
    for piece in 0..rows.div_ceil(PIECE) {
        let left = rows.saturating_sub(piece.saturating_mul(PIECE));
        pieces.push(piece_of(alloc, &mut numbers, PIECE.min(left))?)?;
    }
    Ok(pieces)
}

/// A piece of rows of groups that are drawn.
fn piece_of(alloc: Global, numbers: &mut Numbers, rows: usize) -> Result<NumberedRows, Fault> {
    let groups = drawn_groups(alloc, numbers, rows)?;
    let values = number_column(alloc, rows)?;
    if !groups.iter().all(|group| *group < GROUPS) || groups.len() != values.len() {
        return Err(Fault::Usage);
    }
    Ok(NumberedRows { groups, values })
}

/// The numbers of groups that are drawn.
fn drawn_groups(alloc: Global, numbers: &mut Numbers, rows: usize) -> Result<Vec<u32>, Fault> {
    let mut groups = Vec::new(alloc);
    for _ in 0..rows {
        groups.push((numbers.next() % u64::from(GROUPS)) as u32)?;
    }
    Ok(groups)
}

/// Rows are counted and added up.
fn time_reductions<R: Clock + AllocGlobal>(
    rt: &R,
    timing: Timing,
    pieces: &[NumberedRows],
) -> Result<Best, Fault> {
    let mut best = Best::new();
    for _ in 0..timing.runs {
        let begun = now(rt)?;
        let count = reduce_pieces(rt.alloc(), pieces)?;
        best.take_in(rt, begun, count)?;
    }
    Ok(best)
}

/// Counts and adds up the rows of pieces. How many rows were counted.
fn reduce_pieces(alloc: Global, pieces: &[NumberedRows]) -> Result<usize, Fault> {
    let mut lens = blank_states(alloc, Reduction::Len)?;
    let mut sums = blank_states(alloc, Reduction::Sum)?;
    for piece in pieces {
        put_piece(&mut lens, piece)?;
        put_piece(&mut sums, piece)?;
    }
    rows_counted(&mut lens)
}

/// The groups without rows.
fn blank_states(alloc: Global, op: Reduction) -> Result<States, Fault>
    ensures { IfOk result (λ states. states.kind ≡ ColType.Int) }
{
    let mut states = States::new(alloc, op, ColType::Int);
    states.grow(GROUPS as usize)?;
    Ok(states)
}

/// Puts the rows of a piece to their groups, where there are these.
fn put_piece(states: &mut States, piece: &NumberedRows) -> Result<(), Fault>
    requires { states.old.kind ≡ ColType.Int }
    ensures { states.new.kind ≡ states.old.kind }
{
    if states.len() < GROUPS as usize {
        return Ok(());
    }
    states.update(&piece.groups, &piece.values, (0, 0))
}

/// How many rows all groups have.
fn rows_counted(lens: &mut States) -> Result<usize, Fault> {
    let mut rows: usize = 0;
    for group in 0..GROUPS {
        if (group as usize) < lens.len() {
            if let Value::Int(len) = lens.finish(group)? {
                rows = rows.saturating_add(usize::try_from(len).unwrap_or(0));
            }
        }
    }
    Ok(rows)
}
