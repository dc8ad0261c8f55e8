//! Columns one below the other, and ranges of rows of several columns.
ghost use Rattle.std.specs.Prelude.{◌≡◌, ℕ, ◌≤◌, length, map, IfOk, OnOk, OnErr, IsOkUnless, vec_len};
ghost use Rattle.morsel_frame.specs.Stacks.{column_range, column_front, AreTall, AreLevel, AreAlike, stacked, stacked_up_to};

use crate::Column;
use morsel_meaning::Fault;
use std::alloc::Global;

/// The rows of each column from row `from` to row `to`.
pub fn range_of_each(
    alloc: Global,
    columns: &[Column],
    from: usize,
    to: usize,
) -> Result<Vec<Column>, Fault>
    requires in_order { from ≤ to }
    requires within { AreTall to columns.now }
    ensures ok { IfOk result (λ copies. copies.items ≡ map (column_range from to) columns.now) }
    ensures out_of_memory { IsOkUnless result Fault.OutOfMemory }
{
    let mut copies = Vec::with_capacity(alloc, columns.len())?;
    for column in columns {
        copies.push(range_of(alloc, column, from, to)?)?;
    }
    Ok(copies)
}

/// The rows of a column from row `from` to row `to`.
fn range_of(alloc: Global, column: &Column, from: usize, to: usize) -> Result<Column, Fault>
    requires in_order { from ≤ to }
    requires within { to ≤ length column.now.values }
    ensures ok { IfOk result (λ copy. copy ≡ column_range from to column.now) }
    ensures out_of_memory { IsOkUnless result Fault.OutOfMemory }
{
    let mut copy = Column::new(alloc, column.kind());
    copy.append_rows(column, from, to)?;
    Ok(copy)
}

/// Puts the other's rows below the columns, each of which has `height` rows.
pub fn stack(columns: &mut Vec<Column>, others: &[Column], height: usize) -> Result<(), Fault>
    requires alike { AreAlike columns.old.items others.now }
    requires level { AreLevel height columns.old.items }
    ensures ok { OnOk result (columns.new.items ≡ stacked columns.old.items others.now) }
    ensures err { OnErr result (columns.new.items ≡ columns.old.items) }
    ensures out_of_memory { IsOkUnless result Fault.OutOfMemory }
{
    if let Err(fault) = append_each(columns, others) {
        truncate_each(columns, height);
        return Err(fault);
    }
    Ok(())
}

/// Puts the other's rows below the columns, or below the first ones as far as there is memory.
fn append_each(columns: &mut Vec<Column>, others: &[Column]) -> Result<(), Fault>
    requires { AreAlike columns.old.items others.now }
    ensures ok { OnOk result (columns.new.items ≡ stacked columns.old.items others.now) }
    ensures err { OnErr result ((n : ℕ) × (columns.new.items ≡ stacked_up_to n columns.old.items others.now)) }
    ensures out_of_memory { IsOkUnless result Fault.OutOfMemory }
{
    for at in 0..others.len() {
        let column = &mut columns[at];
        let other = &others[at];
        column.append_rows(other, 0, other.len())?;
    }
    Ok(())
}

/// Drops the rows of each column from row `height` on.
pub fn truncate_each(columns: &mut Vec<Column>, height: usize)
    ensures { columns.new.items ≡ map (column_front height) columns.old.items }
{
    for at in 0..columns.len() {
        let column = &mut columns[at];
        column.truncate(height);
    }
}
