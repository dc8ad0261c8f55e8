//! Keys: the numbers of rows by one column that comes in pieces, of whole numbers and of short texts.
use morsel_frame::Column;
use morsel_keys::ColumnKeys;
use morsel_meaning::{ColType, Fault};
use morsel_timing::{Best, Numbers, Timing, now, tell};
use std::alloc::Global;
use std::rt::Clock;

/// The rows of a piece.
const PIECE: usize = 65536;

/// Runs each part on so many rows.
pub fn run<R: Clock + Print + AllocGlobal>(
    rt: &R,
    timing: Timing,
    rows: usize,
) -> Result<(), Fault> {
    let few = "numbers of keys, of 5,000 whole numbers";
    tell_numbers(rt, timing, few, ColType::Int, rows, 5000)?;
    let many = "numbers of keys, of 1,000,000 whole numbers";
    tell_numbers(rt, timing, many, ColType::Int, rows, 1000000)?;
    let texts = "numbers of keys, of 100,000 texts of 9 bytes";
    tell_numbers(rt, timing, texts, ColType::Text, rows, 100000)
}

/// Tells how rows are numbered by keys of this type, of which so many are distinct.
fn tell_numbers<R: Clock + Print + AllocGlobal>(
    rt: &R,
    timing: Timing,
    name: &str,
    kind: ColType,
    rows: usize,
    distinct: u64,
) -> Result<(), Fault> {
    let pieces = pieces_of(rt.alloc(), kind, rows, distinct)?;
    let best = time_numbers(rt, timing, kind, &pieces)?;
    tell(rt, timing, name, best, rows)
}

/// Keys of this type, so many rows, in pieces.
fn pieces_of(
    alloc: Global,
    kind: ColType,
    rows: usize,
    distinct: u64,
) -> Result<Vec<Column>, Fault> {
    let mut numbers = Numbers::new();
    let mut pieces = Vec::new(alloc);
    for piece in 0..rows.div_ceil(PIECE) {
        let left = rows.saturating_sub(piece.saturating_mul(PIECE));
        pieces.push(key_column(alloc, &mut numbers, kind, PIECE.min(left), distinct)?)?;
    }
    Ok(pieces)
}

/// A column of keys that are drawn, so many of them distinct.
fn key_column(
    alloc: Global,
    numbers: &mut Numbers,
    kind: ColType,
    rows: usize,
    distinct: u64,
) -> Result<Column, Fault> {
    let mut column = Column::new(alloc, kind);
    for _ in 0..rows {
        push_key(alloc, &mut column, numbers.next() % distinct.max(1))?;
    }
    Ok(column)
}

/// Puts a key last: a number, or the text of nine bytes that is made of one below 900,000.
fn push_key(alloc: Global, column: &mut Column, number: u64) -> Result<(), Fault> {
    match column.kind() {
        ColType::Int => column.push_int(number.cast_signed()),
        ColType::Bool => column.push_bool(number % 2 == 1),
        ColType::Text => {
            let number = number.saturating_add(100000);
            let text = format!(in alloc; "key{number}")?;
            column.push_text(text.as_str())
        }
    }
}

/// The rows of pieces are numbered. How many keys there are.
fn time_numbers<R: Clock + AllocGlobal>(
    rt: &R,
    timing: Timing,
    kind: ColType,
    pieces: &[Column],
) -> Result<Best, Fault> {
    let mut out = vec![in rt.alloc(); 0u32; PIECE]?;
    let mut best = Best::new();
    for _ in 0..timing.runs {
        let begun = now(rt)?;
        let count = number_pieces(rt.alloc(), kind, pieces, &mut out)?;
        best.take_in(rt, begun, count)?;
    }
    Ok(best)
}

/// Numbers the rows of pieces among new keys.
fn number_pieces(
    alloc: Global,
    kind: ColType,
    pieces: &[Column],
    out: &mut [u32],
) -> Result<usize, Fault> {
    let mut keys = ColumnKeys::new(alloc, kind, 0);
    for column in pieces {
        number_piece(&mut keys, column, out)?;
    }
    Ok(keys.len())
}

/// Numbers the rows of a piece, where it has the type of the keys and no more rows than there is room for.
fn number_piece(keys: &mut ColumnKeys, column: &Column, out: &mut [u32]) -> Result<(), Fault> {
    if column.kind() != keys.kind() || column.len() > out.len() {
        return Ok(());
    }
    keys.number(column, &mut out[..column.len()])
}
