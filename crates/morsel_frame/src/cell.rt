//! What a column lends of a row.
ghost use Rattle.std.specs.Prelude.{◌≡◌};
ghost use Rattle.morsel_meaning.specs.Values.{IsOfType};
ghost use Rattle.morsel_frame.specs.Cells.{value_of, not_null};
ghost use Rattle.morsel_frame.specs.Packing.{kept_of};

use morsel_meaning::{ColType, Value};

/// A value that is lent: what a row has under a column, with the text in its place.
#[derive(Clone, Copy, Debug, PartialEq, Eq)]
pub enum Cell<'a> {
    /// No value.
    Null,
    /// A whole number.
    Int(i64),
    /// A truth value.
    Bool(bool),
    /// A text.
    Text(&'a str),
}

/// The value, lent.
pub fn cell_of(value: &Value) -> Cell<'_>
    ensures { value_of result ≡ value.now }
{
    match value {
        Value::Null => Cell::Null,
        Value::Int(number) => Cell::Int(*number),
        Value::Bool(flag) => Cell::Bool(*flag),
        Value::Text(text) => Cell::Text(text.as_str()),
    }
}

/// Whether the cell is no null.
pub fn has_value(cell: Cell<'_>) -> bool
    ensures { result ≡ not_null (value_of cell.entry) }
{
    match cell {
        Cell::Null => false,
        _ => true,
    }
}

/// The number of a cell of numbers, and 0 for a null.
pub fn number_of(cell: Cell<'_>) -> i64
    requires { IsOfType ColType.Int (value_of cell) }
    ensures { Value.Int result ≡ kept_of ColType.Int (value_of cell.entry) }
{
    match cell {
        Cell::Null => 0,
        Cell::Int(number) => number,
        _ => unreachable!(),
    }
}

/// The truth value of a cell of truth values, and false for a null.
pub fn flag_of(cell: Cell<'_>) -> bool
    requires { IsOfType ColType.Bool (value_of cell) }
    ensures { Value.Bool result ≡ kept_of ColType.Bool (value_of cell.entry) }
{
    match cell {
        Cell::Null => false,
        Cell::Bool(flag) => flag,
        _ => unreachable!(),
    }
}

/// The text of a cell of texts, and an empty one for a null.
pub fn text_of(cell: Cell<'_>) -> &str
    requires { IsOfType ColType.Text (value_of cell) }
    ensures { Value.Text result.now ≡ kept_of ColType.Text (value_of cell.entry) }
{
    match cell {
        Cell::Null => "",
        Cell::Text(text) => text,
        _ => unreachable!(),
    }
}
