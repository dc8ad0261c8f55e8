//! The columns of a join's rows, gathered by row numbers.
ghost use Rattle.std.specs.Prelude.{◌≡◌, ◌<◌, length, map, IfOk, IsOkUnless};
ghost use Rattle.morsel_meaning.specs.declared.value.ColType.{ColType};
ghost use Rattle.morsel_meaning.specs.Values.{IsOfType, kinds_of};
ghost use Rattle.morsel_frame.specs.Cells.{value_of};
ghost use Rattle.morsel_frame.specs.Columns.{value_or_null};
ghost use Rattle.morsel_frame.specs.Frames.{rows_of};
ghost use Rattle.morsel_frame.specs.Tables.{cell_at};
ghost use Rattle.morsel_join.specs.Rows.{FitsColumn, FitColumns, column_kind, kind_at, first_value, first_values, marked_column};

use crate::rules::{JoinColumn, JoinRules};
use morsel_frame::{Cell, Column, Frame};
use morsel_meaning::Fault;
use std::alloc::Global;

/// The rows of a join, of which the left and the right rows have these numbers; `u32::MAX` where there is none.
pub fn gather_rows(
    alloc: Global,
    left: &Frame,
    right: &Frame,
    rules: &JoinRules,
    lefts: &[u32],
    rights: &[u32],
) -> Result<Frame, Fault>
    requires columns { FitColumns left.now.schema right.now.schema rules.now.columns.items }
    requires types { kinds_of rules.now.output ≡ map (column_kind left.now.schema right.now.schema) rules.now.columns.items }
    requires len { length rights.now ≡ length lefts.now }
    ensures ok { IfOk result (λ out. out ≡ record { schema = rules.now.output; rows = rows_of (length lefts.now) (map (marked_column left.now right.now lefts.now rights.now) rules.now.columns.items) }) }
    ensures out_of_memory { IsOkUnless result Fault.OutOfMemory }
{
    let columns = gather_columns(alloc, left, right, &rules.columns, lefts, rights)?;
    let schema = rules.output.again()?;
    Ok(Frame::new(alloc, schema, columns, lefts.len()))
}

/// The columns of a join's rows.
fn gather_columns(
    alloc: Global,
    left: &Frame,
    right: &Frame,
    columns: &[JoinColumn],
    lefts: &[u32],
    rights: &[u32],
) -> Result<Vec<Column>, Fault>
    requires columns { FitColumns left.now.schema right.now.schema columns.now }
    requires len { length rights.now ≡ length lefts.now }
    ensures ok { IfOk result (λ gathered. gathered.items ≡ map (marked_column left.now right.now lefts.now rights.now) columns.now) }
    ensures out_of_memory { IsOkUnless result Fault.OutOfMemory }
{
    let mut gathered = Vec::with_capacity(alloc, columns.len())?;
    for column in columns {
        gathered.push(gather_column(alloc, left, right, column, lefts, rights)?)?;
    }
    Ok(gathered)
}

/// A column of a join's rows.
fn gather_column(
    alloc: Global,
    left: &Frame,
    right: &Frame,
    column: &JoinColumn,
    lefts: &[u32],
    rights: &[u32],
) -> Result<Column, Fault>
    requires fit { FitsColumn left.now.schema right.now.schema column.now }
    requires len { length rights.now ≡ length lefts.now }
    ensures ok { IfOk result (λ gathered. gathered ≡ marked_column left.now right.now lefts.now rights.now column.now) }
    ensures out_of_memory { IsOkUnless result Fault.OutOfMemory }
{
    match column {
        JoinColumn::Left(at) => Ok(gather_from(alloc, left, *at, lefts)?),
        JoinColumn::Right(at) => Ok(gather_from(alloc, right, *at, rights)?),
        JoinColumn::Either(at, other) => Ok(gather_first(
            alloc, left, *at, lefts, right, *other, rights,
        )?),
    }
}

/// The first of two columns' values that is no null, in rows of these numbers.
fn gather_first(
    alloc: Global,
    left: &Frame,
    at: usize,
    lefts: &[u32],
    right: &Frame,
    other: usize,
    rights: &[u32],
) -> Result<Column, Fault>
    requires left_within { at < length left.now.schema }
    requires right_within { other < length right.now.schema }
    requires same_kind { kind_at right.now.schema other ≡ kind_at left.now.schema at }
    requires len { length rights.now ≡ length lefts.now }
    ensures ok { IfOk result (λ gathered. gathered ≡ record { kind = kind_at left.now.schema at; values = first_values (map (value_or_null (map (cell_at at) left.now.rows)) lefts.now) (map (value_or_null (map (cell_at other) right.now.rows)) rights.now) }) }
    ensures out_of_memory { IsOkUnless result Fault.OutOfMemory }
{
    let first = gather_from(alloc, left, at, lefts)?;
    let second = gather_from(alloc, right, other, rights)?;
    let column = first_values(alloc, &first, &second)?;
    Ok(column)
}

/// A column's values in rows of these numbers, and a null for `u32::MAX`.
fn gather_from(alloc: Global, frame: &Frame, at: usize, rows: &[u32]) -> Result<Column, Fault>
    requires { at < length frame.now.schema }
    ensures ok { IfOk result (λ gathered. gathered ≡ record { kind = kind_at frame.now.schema at; values = map (value_or_null (map (cell_at at) frame.now.rows)) rows.now }) }
    ensures out_of_memory { IsOkUnless result Fault.OutOfMemory }
{
    let from = frame.column(at);
    let mut gathered = Column::new(alloc, from.kind());
    gathered.append_gather(from, rows)?;
    Ok(gathered)
}

/// The first of two values that is no null, row by row.
fn first_values(alloc: Global, first: &Column, second: &Column) -> Result<Column, Fault>
    requires same_kind { second.now.kind ≡ first.now.kind }
    requires len { length second.now.values ≡ length first.now.values }
    ensures ok { IfOk result (λ column. column ≡ record { kind = first.now.kind; values = first_values first.now.values second.now.values }) }
    ensures out_of_memory { IsOkUnless result Fault.OutOfMemory }
{
    let mut column = Column::new(alloc, first.kind());
    for row in 0..first.len() {
        let cell = first_cell(first.get(row), second.get(row));
        column.push_cell(cell)?;
    }
    Ok(column)
}

/// The first of two cells that is no null.
#[inline(always)]
fn first_cell<'a>(first: Cell<'a>, second: Cell<'a>) -> Cell<'a>
    ensures value { value_of result ≡ first_value (value_of first.entry) (value_of second.entry) }
    ensures of_type { (kind : ColType) → IsOfType kind (value_of first.entry) → IsOfType kind (value_of second.entry) → IsOfType kind (value_of result) }
{
    match first {
        Cell::Null => second,
        _ => first,
    }
}
