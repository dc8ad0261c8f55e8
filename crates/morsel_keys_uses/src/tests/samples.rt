//! What the tests are made of: columns of a few cells, and frames of one column and of two. A function here owns one value that is
//! dropped at most, since each is proved to be dropped at each exit.
ghost use Rattle.std.specs.Prelude.{◌≡◌, ◌++◌, ◌∷◌, [], IfOk};

use morsel_frame::{Cell, Column, Frame, Schema};
use morsel_meaning::{ColType, Fault, Field, Name};
use std::alloc::Global;
use std::mem::drop;

/// Puts a cell last; a null in place of one of another type.
fn push_cell(column: &mut Column, cell: Cell<'_>) -> Result<(), Fault>
    ensures { column.new.kind ≡ column.old.kind }
{
    match (column.kind(), cell) {
        (ColType::Int, Cell::Int(number)) => {
            column.push_int(number)?;
            Ok(())
        }
        (ColType::Bool, Cell::Bool(flag)) => {
            column.push_bool(flag)?;
            Ok(())
        }
        (ColType::Text, Cell::Text(text)) => {
            column.push_text(text)?;
            Ok(())
        }
        _ => {
            column.push_null()?;
            Ok(())
        }
    }
}

fn push_cells(column: &mut Column, cells: &[Cell<'_>]) -> Result<(), Fault>
    ensures { column.new.kind ≡ column.old.kind }
{
    for cell in cells {
        push_cell(column, *cell)?;
    }
    Ok(())
}

/// The column of these cells.
pub fn column_of(alloc: Global, kind: ColType, cells: &[Cell<'_>]) -> Result<Column, Fault>
    ensures { IfOk result (λ column. column.kind ≡ kind) }
{
    let mut column = Column::new(alloc, kind);
    push_cells(&mut column, cells)?;
    Ok(column)
}

/// The schema of one column.
fn schema_of_one(alloc: Global, name: &str, kind: ColType) -> Result<Schema, Fault>
    ensures { IfOk result (λ schema. schema ≡ record { name = name.now; kind = kind } ∷ []) }
{
    let name = Name::new(alloc, name)?;
    Schema::new(alloc, vec![in alloc; Field { name, kind }]?)
}

/// The frame of one column.
pub fn framed(alloc: Global, name: &str, column: Column) -> Result<Frame, Fault>
    ensures { IfOk result (λ frame. frame.schema ≡ record { name = name.now; kind = column.kind } ∷ []) }
{
    let schema = schema_of_one(alloc, name, column.kind())?;
    let height = column.len();
    Ok(Frame::new(alloc, schema, vec![in alloc; column]?, height))
}

/// The frame of one column of these cells.
pub fn frame_of(
    alloc: Global,
    name: &str,
    kind: ColType,
    cells: &[Cell<'_>],
) -> Result<Frame, Fault>
    ensures { IfOk result (λ frame. frame.schema ≡ record { name = name.now; kind = kind } ∷ []) }
{
    framed(alloc, name, column_of(alloc, kind, cells)?)
}

/// Two frames side by side, where their heights are the same.
pub fn beside(alloc: Global, frame: Frame, other: Frame) -> Result<Frame, Fault>
    ensures { IfOk result (λ both. both.schema ≡ frame.schema ++ other.schema) }
{
    if frame.height() != other.height() {
        drop(frame);
        drop(other);
        return Err(Fault::Usage);
    }
    let both = frame.hstack(alloc, other)?;
    Ok(both)
}
