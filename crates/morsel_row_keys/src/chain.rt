//! Tables of pairs one after the other: each has pairs of a number of the one before and a value of the next column.
ghost use Rattle.std.specs.Prelude.{◌≡◌, ◌<◌, length, map, get_or, OnOk, IfOk, IfErr, IsOkUnless, []};
ghost use Rattle.std.specs.List.{All};
ghost use Rattle.morsel_meaning.specs.Values.{kinds_of};
ghost use Rattle.morsel_frame.specs.Tables.{cell_at, cells_at, fields_at};
ghost use Rattle.morsel_keys.specs.Slots.{no_number};
ghost use Rattle.morsel_row_keys.specs.Chains.{LooksUpChain, NumbersChain, StopsChain, blank_pairs};

use crate::pair_keys::PairKeys;
use morsel_frame::Frame;
use morsel_meaning::{ColType, Fault};
use std::alloc::Global;

/// Tables without pairs, whose values are to be of these types.
pub fn blank_tables(alloc: Global, kinds: &[ColType], seed: u64) -> Result<Vec<PairKeys>, Fault>
    ensures ok { IfOk result (λ tables. tables.items ≡ map blank_pairs kinds.now) }
    ensures out_of_memory { IsOkUnless result Fault.OutOfMemory }
{
    let mut tables = Vec::new(alloc);
    for i in 0..kinds.len() {
        tables.push(PairKeys::new(alloc, kinds[i], seed))?;
    }
    Ok(tables)
}

/// Looks up whole columns: the numbers of rows by the columns before become those by these columns too, and `u32::MAX` where there is none.
pub fn look_up_chain(
    tables: &[PairKeys],
    frame: &Frame,
    columns: &[usize],
    numbers: &mut [u32],
) -> Result<(), Fault>
    requires within { All (λ at. at < length frame.now.schema) columns.now }
    requires kinds { kinds_of (fields_at frame.now.schema columns.now) ≡ map (λ table. table.kind) tables.now }
    requires count { length columns.now ≡ length tables.now }
    requires len { length numbers.old ≡ length frame.now.rows }
    ensures ok { OnOk result (LooksUpChain tables.now numbers.old (map (λ at. map (cell_at at) frame.now.rows) columns.now) numbers.new) }
    ensures len { length numbers.new ≡ length numbers.old }
    ensures out_of_memory { IsOkUnless result Fault.OutOfMemory }
{
    for i in 0..tables.len() {
        tables[i].look_up(frame.column(columns[i]), numbers)?;
    }
    Ok(())
}

/// The number of a row: of what it has in the columns before and in these, by the number of what it has in the columns before. What is new
/// comes last in its table.
pub fn insert_chain(
    tables: &mut [PairKeys],
    frame: &Frame,
    columns: &[usize],
    row: usize,
    first: u32,
) -> Result<u32, Fault>
    requires within { All (λ at. at < length frame.now.schema) columns.now }
    requires kinds { kinds_of (fields_at frame.now.schema columns.now) ≡ map (λ table. table.kind) tables.old }
    requires count { length columns.now ≡ length tables.old }
    requires row { row < length frame.now.rows }
    requires first { first < no_number }
    ensures ok { IfOk result (λ at. NumbersChain tables.old first (cells_at columns.now (get_or frame.now.rows row [])) at tables.new) }
    ensures number { IfOk result (λ at. at < no_number) }
    ensures len { length tables.new ≡ length tables.old }
    ensures err { IfErr result (λ fault. StopsChain tables.old first (cells_at columns.now (get_or frame.now.rows row [])) fault tables.new) }
{
    let mut number = first;
    for i in 0..tables.len() {
        match tables[i].insert(number, frame.column(columns[i]).get(row)) {
            Ok(at) => number = at,
            Err(fault) => return Err(fault),
        }
    }
    Ok(number)
}
