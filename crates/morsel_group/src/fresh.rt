//! The rows of a frame whose keys arrived with it.
ghost use Rattle.std.specs.Prelude.{◌≡◌, ◌<◌, ◌≤◌, ◌+◌, ◌++◌, ◌^◌, length, map, IfOk, IfErr, OnOk, IsOkUnless};
ghost use Rattle.std.specs.List.{All};
ghost use Rattle.morsel_meaning.specs.Values.{kinds_of};
ghost use Rattle.morsel_frame.specs.Columns.{value_at};
ghost use Rattle.morsel_frame.specs.Tables.{fields_at, cells_at, rows_at};
ghost use Rattle.morsel_keys.specs.Slots.{NumbersAll, no_number};
ghost use Rattle.morsel_group.specs.Fresh.{fresh_from, picked_from};
ghost use Rattle.morsel_group.specs.Arrivals.{keyed_in, RefusesKeys};

use crate::table::{GroupKeys, count_keys, number_rows};
use morsel_frame::{Column, Frame};
use morsel_meaning::Fault;
use std::alloc::Global;

/// Numbers the keys of the rows of a frame, one row after the other, each at its place, and puts those that are new last: how many there are
/// then. Past 4,294,967,295 keys a new one is refused.
pub fn take_keys(
    alloc: Global,
    table: &mut GroupKeys,
    keys: &mut Frame,
    frame: &Frame,
    places: &[usize],
    numbers: &mut [u32],
) -> Result<usize, Fault>
    requires within { All (λ at. at < length frame.now.schema) places.now }
    requires kinds { kinds_of (fields_at frame.now.schema places.now) ≡ (keyed_in table.old).kinds }
    requires fields { keys.old.schema ≡ fields_at frame.now.schema places.now }
    requires rows { keys.old.rows ≡ (keyed_in table.old).keys }
    requires len { length numbers.old ≡ length frame.now.rows }
    ensures kinds { (keyed_in table.new).kinds ≡ (keyed_in table.old).kinds }
    ensures numbers { OnOk result (NumbersAll (keyed_in table.old).keys (map (cells_at places.now) frame.now.rows) numbers.new (keyed_in table.new).keys) }
    ensures rows { OnOk result (keys.new ≡ record keys.old { rows = (keyed_in table.new).keys }) }
    ensures count { IfOk result (λ count. count ≡ length (keyed_in table.new).keys) }
    ensures longer { IfOk result (λ count. length (keyed_in table.old).keys ≤ count) }
    ensures few { IfOk result (λ count. count ≤ no_number) }
    ensures each { IfOk result (λ count. All (λ number. number < count) numbers.new) }
    ensures refused { IfErr result (RefusesKeys (keyed_in table.old).keys (map (cells_at places.now) frame.now.rows)) }
{
    let known = count_keys(table);
    match number_rows(table, frame, places, numbers) {
        Ok(()) => {}
        Err(fault) => return Err(fault),
    }
    let count = count_keys(table);
    put_keys(alloc, keys, frame, places, numbers, (known, count))?;
    Ok(count)
}

/// Puts the keys that arrived with the rows of a frame last, by the rows' numbers: of as many as are known now, where so many were known before.
fn put_keys(
    alloc: Global,
    keys: &mut Frame,
    frame: &Frame,
    places: &[usize],
    numbers: &[u32],
    counts: (usize, usize),
) -> Result<(), Fault>
    requires within { All (λ at. at < length frame.now.schema) places.now }
    requires fields { keys.old.schema ≡ fields_at frame.now.schema places.now }
    requires known { counts.0 ≤ no_number }
    requires rows { length keys.old.rows ≤ no_number }
    requires each { All (λ number. number < counts.1) numbers.now }
    ensures ok { OnOk result (keys.new ≡ record keys.old { rows = keys.old.rows ++ map (cells_at places.now) (rows_at frame.now.rows (fresh_from counts.0 0 numbers.now)) }) }
    ensures out_of_memory { IsOkUnless result Fault.OutOfMemory }
{
    if counts.1 <= counts.0 {
        return Ok(());
    }
    let fresh = fresh_rows(alloc, numbers, counts.0)?;
    let columns = picked_columns(alloc, frame, places, &fresh)?;
    let schema = keys.schema().again()?;
    let more = Frame::new(alloc, schema, columns, fresh.len());
    match keys.vstack(&more) {
        Ok(()) => Ok(()),
        Err(_) => Err(Fault::OutOfMemory),
    }
}

/// The rows whose numbers are new: the first with the number `known`, the first with the next one, and so on.
fn fresh_rows(alloc: Global, numbers: &[u32], known: usize) -> Result<Vec<usize>, Fault>
    requires { known ≤ no_number }
    ensures ok { IfOk result (λ rows. rows.items ≡ fresh_from known 0 numbers.now) }
    ensures len { IfOk result (λ rows. length rows.items ≤ length numbers.now) }
    ensures out_of_memory { IsOkUnless result Fault.OutOfMemory }
{
    let mut rows = Vec::new(alloc);
    let mut next = known;
    for row in 0..numbers.len() {
        if numbers[row] as usize == next {
            rows.push(row)?;
            next += 1;
        }
    }
    Ok(rows)
}

/// The rows with these numbers of the columns at these places.
fn picked_columns(
    alloc: Global,
    frame: &Frame,
    places: &[usize],
    rows: &[usize],
) -> Result<Vec<Column>, Fault>
    requires { All (λ at. at < length frame.now.schema) places.now }
    ensures ok { IfOk result (λ columns. columns.items ≡ picked_from frame.now places.now rows.now) }
    ensures out_of_memory { IsOkUnless result Fault.OutOfMemory }
{
    let mut columns = Vec::new(alloc);
    for at in places {
        columns.push(picked_column(alloc, frame.column(*at), rows)?)?;
    }
    Ok(columns)
}

/// The rows with these numbers of a column.
fn picked_column(alloc: Global, from: &Column, rows: &[usize]) -> Result<Column, Fault>
    ensures ok { IfOk result (λ column. column ≡ record { kind = from.now.kind; values = map (value_at from.now.values) rows.now }) }
    ensures out_of_memory { IsOkUnless result Fault.OutOfMemory }
{
    let mut column = Column::new(alloc, from.kind());
    column.append_picks(from, rows)?;
    Ok(column)
}
