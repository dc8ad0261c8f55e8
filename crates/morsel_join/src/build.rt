//! The rows of one side, by the numbers of their keys.
ghost use Rattle.std.specs.Prelude.{◌≡◌, ◌||◌, ℕ, ◌<◌, ◌^◌, if◌then◌else◌, [], length, map, get_or, OnOk, IfOk, IsOkUnless};
ghost use Rattle.std.specs.List.{All};
ghost use Rattle.morsel_meaning.specs.Values.{kinds_of};
ghost use Rattle.morsel_frame.specs.Cells.{not_null, value_of};
ghost use Rattle.morsel_frame.specs.Columns.{value_at};
ghost use Rattle.morsel_frame.specs.Tables.{cells_at, fields_at};
ghost use Rattle.morsel_keys.specs.Slots.{NumbersAll, no_number};
ghost use Rattle.morsel_join.specs.Builds.{AreKeyed, HaveNumbers, no_null};

use crate::chains::chains;
use morsel_frame::{Cell, Column, Frame};
use morsel_meaning::{ColType, Fault};
use morsel_row_keys::RowKeys;
use std::alloc::Global;

/// Where searches for keys begin. Nothing that is answered depends on it.
const SEED: u64 = 0;

/// Rows by the numbers of their keys.
#[derive(Drop)]
pub struct KeyedRows {
    /// The keys.
    pub keys: RowKeys,
    /// The number of each row's key, and `u32::MAX` for a key with a null where nulls are equal to nothing.
    pub numbers: Vec<u32>,
    /// The link to the first row of each key: 1 more than the row, and 0 where there is none.
    pub first: Vec<u32>,
    /// The link from each row to the next one of its key.
    pub next: Vec<u32>,
}

/// The rows of a frame by their keys in these columns.
pub fn keyed_rows(
    alloc: Global,
    frame: &Frame,
    columns: &[usize],
    kinds: &[ColType],
    nulls: bool,
) -> Result<KeyedRows, Fault>
    requires within { All (λ at. at < length frame.now.schema) columns.now }
    requires kinds { kinds_of (fields_at frame.now.schema columns.now) ≡ kinds.now }
    requires some { 0 < length kinds.now }
    requires short { length frame.now.rows < 2 ^ 32 }
    ensures ok { IfOk result (λ build. AreKeyed nulls columns.now kinds.now frame.now.rows build) }
    ensures out_of_memory { IsOkUnless result Fault.OutOfMemory }
{
    let mut keys = RowKeys::new(alloc, kinds, SEED)?;
    let numbers = key_numbers(alloc, &mut keys, frame, columns, nulls)?;
    let (first, next) = chains(alloc, &numbers, keys.len())?;
    Ok(KeyedRows {
        keys,
        numbers,
        first,
        next,
    })
}

/// The numbers of rows' keys, of which there are none before.
fn key_numbers(
    alloc: Global,
    keys: &mut RowKeys,
    frame: &Frame,
    columns: &[usize],
    nulls: bool,
) -> Result<Vec<u32>, Fault>
    requires columns { All (λ at. at < length frame.now.schema) columns.now }
    requires kinds { kinds_of (fields_at frame.now.schema columns.now) ≡ keys.old.kinds }
    requires blank { keys.old.keys ≡ [] }
    ensures kinds { keys.new.kinds ≡ keys.old.kinds }
    ensures ok { IfOk result (λ numbers. HaveNumbers nulls keys.new.keys columns.now frame.now.rows numbers.items) }
    ensures len { IfOk result (λ numbers. length numbers.items ≡ length frame.now.rows) }
    ensures out_of_memory { IsOkUnless result Fault.OutOfMemory }
{
    let mut numbers = vec![in alloc; 0u32; frame.height()]?;
    fill_numbers(keys, frame, columns, nulls, &mut numbers)?;
    Ok(numbers)
}

/// Writes the numbers of rows' keys, of which there are none before.
fn fill_numbers(
    keys: &mut RowKeys,
    frame: &Frame,
    columns: &[usize],
    nulls: bool,
    numbers: &mut [u32],
) -> Result<(), Fault>
    requires columns { All (λ at. at < length frame.now.schema) columns.now }
    requires kinds { kinds_of (fields_at frame.now.schema columns.now) ≡ keys.old.kinds }
    requires blank { keys.old.keys ≡ [] }
    requires len { length numbers.old ≡ length frame.now.rows }
    ensures kinds { keys.new.kinds ≡ keys.old.kinds }
    ensures ok { OnOk result (HaveNumbers nulls keys.new.keys columns.now frame.now.rows numbers.new) }
    ensures len { length numbers.new ≡ length numbers.old }
    ensures out_of_memory { IsOkUnless result Fault.OutOfMemory }
{
    number_rows(keys, frame, columns, numbers)?;
    mask_nulls(nulls, frame, columns, numbers);
    Ok(())
}

/// The numbers of the keys of rows. There are never more keys than rows, so memory is all that there can be too little of.
fn number_rows(
    keys: &mut RowKeys,
    frame: &Frame,
    columns: &[usize],
    numbers: &mut [u32],
) -> Result<(), Fault>
    requires columns { All (λ at. at < length frame.now.schema) columns.now }
    requires kinds { kinds_of (fields_at frame.now.schema columns.now) ≡ keys.old.kinds }
    requires len { length numbers.old ≡ length frame.now.rows }
    ensures kinds { keys.new.kinds ≡ keys.old.kinds }
    ensures len { length numbers.new ≡ length numbers.old }
    ensures ok { OnOk result (NumbersAll keys.old.keys (map (cells_at columns.now) frame.now.rows) numbers.new keys.new.keys) }
    ensures out_of_memory { IsOkUnless result Fault.OutOfMemory }
{
    match keys.number(frame, columns, numbers) {
        Ok(()) => Ok(()),
        Err(_) => Err(Fault::OutOfMemory),
    }
}

/// Takes the number from each row that has a null in one of these columns, unless nulls are equal.
fn mask_nulls(nulls: bool, frame: &Frame, columns: &[usize], numbers: &mut [u32])
    requires within { All (λ at. at < length frame.now.schema) columns.now }
    requires len { length numbers.old ≡ length frame.now.rows }
    ensures len { length numbers.new ≡ length numbers.old }
    ensures masked { (j : ℕ) → j < length frame.now.rows → get_or numbers.new j 0 ≡ (if nulls || no_null (cells_at columns.now (get_or frame.now.rows j [])) then get_or numbers.old j 0 else no_number) }
{
    if nulls {
        return;
    }
    mask_each(frame, columns, numbers);
}

/// Takes the number from each row that has a null in one of these columns.
fn mask_each(frame: &Frame, columns: &[usize], numbers: &mut [u32])
    requires within { All (λ at. at < length frame.now.schema) columns.now }
    requires len { length numbers.old ≡ length frame.now.rows }
    ensures len { length numbers.new ≡ length numbers.old }
    ensures masked { (j : ℕ) → j < length frame.now.rows → get_or numbers.new j 0 ≡ (if no_null (cells_at columns.now (get_or frame.now.rows j [])) then get_or numbers.old j 0 else no_number) }
{
    for at in columns {
        mask_column(frame.column(*at), numbers);
    }
}

/// Takes the number from each row that has a null.
fn mask_column(column: &Column, numbers: &mut [u32])
    requires len { length numbers.old ≡ length column.now.values }
    ensures len { length numbers.new ≡ length numbers.old }
    ensures masked { (j : ℕ) → j < length column.now.values → get_or numbers.new j 0 ≡ (if not_null (value_at column.now.values j) then get_or numbers.old j 0 else no_number) }
{
    for row in 0..numbers.len() {
        numbers[row] = masked(column.get(row), numbers[row]);
    }
}

/// The number, and that of no key for a null.
#[inline(always)]
fn masked(cell: Cell<'_>, number: u32) -> u32
    ensures { result ≡ (if not_null (value_of cell.entry) then number else no_number) }
{
    match cell {
        Cell::Null => u32::MAX,
        _ => number,
    }
}
