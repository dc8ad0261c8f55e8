//! Keys of two columns, numbered by whole columns and beside a table that takes one row after the other.
ghost use Rattle.std.specs.Prelude.{◌≡◌, ◌<◌, ◌∷◌, [], IfOk, length};
ghost use Rattle.std.specs.List.{All};
ghost use Rattle.morsel_meaning.specs.Values.{kinds_of};
ghost use Rattle.morsel_frame.specs.Tables.{fields_at};

use super::drawn::{draw, drawn_column};
use super::samples::{beside, framed};
use morsel_frame::{Column, Frame};
use morsel_keys::KeyTable;
use morsel_meaning::{ColType, Fault};
use morsel_row_keys::RowKeys;
use std::alloc::Global;
use std::test::Fail;

/// Whether rows get these numbers, and puts no more keys in where it has them already.
fn numbers_frame(
    alloc: Global,
    keys: &mut RowKeys,
    frame: &Frame,
    columns: &[usize],
    wanted: &[u32],
) -> Result<bool, Fault>
    requires columns { All (λ at. at < length frame.now.schema) columns.now }
    requires kinds { kinds_of (fields_at frame.now.schema columns.now) ≡ keys.old.kinds }
    ensures { keys.new.kinds ≡ keys.old.kinds }
{
    let mut out = vec![in alloc; 0u32; frame.height()]?;
    keys.number(frame, columns, &mut out)?;
    Ok(out.as_slice() == wanted)
}

/// Whether rows are found by these numbers.
fn finds_frame(
    alloc: Global,
    keys: &RowKeys,
    frame: &Frame,
    columns: &[usize],
    wanted: &[u32],
) -> Result<bool, Fault>
    requires columns { All (λ at. at < length frame.now.schema) columns.now }
    requires kinds { kinds_of (fields_at frame.now.schema columns.now) ≡ keys.now.kinds }
{
    let mut out = vec![in alloc; 0u32; frame.height()]?;
    keys.look_up(frame, columns, &mut out)?;
    Ok(out.as_slice() == wanted)
}

/// Whether rows of two columns get these numbers among new keys, and again, and are found by them.
fn by_keys(alloc: Global, keys: &mut RowKeys, frame: &Frame, wanted: &[u32]) -> Result<bool, Fault>
    requires columns { All (λ at. at < length frame.now.schema) (0 ∷ 1 ∷ []) }
    requires kinds { kinds_of (fields_at frame.now.schema (0 ∷ 1 ∷ [])) ≡ keys.old.kinds }
{
    Ok(
        numbers_frame(alloc, keys, frame, &[0, 1], wanted)?
            && numbers_frame(alloc, keys, frame, &[0, 1], wanted)?
            && finds_frame(alloc, keys, frame, &[0, 1], wanted)?,
    )
}

/// Whether rows of two columns get these numbers by whole columns, and again, and are found by them.
pub fn by_columns(
    alloc: Global,
    seed: u64,
    kinds: &[ColType],
    frame: &Frame,
    wanted: &[u32],
) -> Result<bool, Fault>
    requires some { 0 < length kinds.now }
    requires columns { All (λ at. at < length frame.now.schema) (0 ∷ 1 ∷ []) }
    requires kinds { kinds_of (fields_at frame.now.schema (0 ∷ 1 ∷ [])) ≡ kinds.now }
{
    let mut keys = RowKeys::new(alloc, kinds, seed)?;
    by_keys(alloc, &mut keys, frame, wanted)
}

/// A column that is drawn.
fn drawn_by(alloc: Global, kind: ColType, seed: u64) -> Result<Column, Fault>
    ensures { IfOk result (λ column. column.kind ≡ kind) }
{
    let numbers = draw(alloc, seed, 300, 12)?;
    drawn_column(alloc, kind, &numbers)
}

/// A frame of one column that is drawn.
fn drawn_frame(alloc: Global, name: &str, kind: ColType, seed: u64) -> Result<Frame, Fault>
    ensures { IfOk result (λ frame. frame.schema ≡ record { name = name.now; kind = kind } ∷ []) }
{
    framed(alloc, name, drawn_by(alloc, kind, seed)?)
}

/// Rows of a number and a text that are drawn.
fn drawn_pairs(alloc: Global, seed: u64) -> Result<Frame, Fault>
    ensures columns { IfOk result (λ pairs. All (λ at. at < length pairs.schema) (0 ∷ 1 ∷ [])) }
    ensures kinds { IfOk result (λ pairs. kinds_of (fields_at pairs.schema (0 ∷ 1 ∷ [])) ≡ ColType.Int ∷ ColType.Text ∷ []) }
{
    let first = drawn_frame(alloc, "a", ColType::Int, seed)?;
    beside(
        alloc,
        first,
        drawn_frame(alloc, "b", ColType::Text, seed.wrapping_add(1000))?,
    )
}

fn put_row_numbers(table: &mut KeyTable, pairs: &Frame, numbers: &mut Vec<u32>) -> Result<(), Fault>
    requires columns { All (λ at. at < length pairs.now.schema) (0 ∷ 1 ∷ []) }
    requires kinds { kinds_of (fields_at pairs.now.schema (0 ∷ 1 ∷ [])) ≡ table.old.kinds }
{
    for row in 0..pairs.height() {
        numbers.push(table.insert(pairs, &[0, 1], row)?)?;
    }
    Ok(())
}

/// The numbers of rows in a table, one after the other.
fn row_numbers(alloc: Global, table: &mut KeyTable, pairs: &Frame) -> Result<Vec<u32>, Fault>
    requires columns { All (λ at. at < length pairs.now.schema) (0 ∷ 1 ∷ []) }
    requires kinds { kinds_of (fields_at pairs.now.schema (0 ∷ 1 ∷ [])) ≡ table.old.kinds }
{
    let mut numbers = Vec::new(alloc);
    put_row_numbers(table, pairs, &mut numbers)?;
    Ok(numbers)
}

/// The numbers of rows in a new table, one after the other.
fn new_row_numbers(alloc: Global, pairs: &Frame) -> Result<Vec<u32>, Fault>
    requires columns { All (λ at. at < length pairs.now.schema) (0 ∷ 1 ∷ []) }
    requires kinds { kinds_of (fields_at pairs.now.schema (0 ∷ 1 ∷ [])) ≡ ColType.Int ∷ ColType.Text ∷ [] }
{
    let mut table = KeyTable::new(vec![in alloc; ColType::Int, ColType::Text]?);
    row_numbers(alloc, &mut table, pairs)
}

/// Whether rows have the numbers by whole columns that they have one after the other.
fn rows_agree(alloc: Global, seed: u64, pairs: &Frame) -> Result<bool, Fault>
    requires columns { All (λ at. at < length pairs.now.schema) (0 ∷ 1 ∷ []) }
    requires kinds { kinds_of (fields_at pairs.now.schema (0 ∷ 1 ∷ [])) ≡ ColType.Int ∷ ColType.Text ∷ [] }
{
    let wanted = new_row_numbers(alloc, pairs)?;
    by_columns(alloc, seed, &[ColType::Int, ColType::Text], pairs, &wanted)
}

/// Whether rows that are drawn have the numbers by whole columns that they have one after the other.
fn drawn_rows_agree(alloc: Global, seed: u64) -> Result<bool, Fault> {
    let pairs = drawn_pairs(alloc, seed)?;
    rows_agree(alloc, seed, &pairs)
}

#[test]
fn whole_columns_have_the_numbers_of_their_rows(rt: HostRuntime) -> Result<(), Fail> {
    for seed in 0..10 {
        assert!(rt; drawn_rows_agree(rt.alloc(), seed)?, "seed {seed}");
    }
    Ok(())
}
