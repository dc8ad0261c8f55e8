//! Cells beside values: which comes before the other, and the value of a cell.
ghost use Rattle.std.specs.Prelude.{◌≡◌, true, if◌then◌else◌, IfOk, IsOkUnless};
ghost use Rattle.morsel_meaning.specs.Values.{IsOfType};
ghost use Rattle.morsel_meaning.specs.Order.{value_before};
ghost use Rattle.morsel_frame.specs.Cells.{value_of, not_null};
ghost use Rattle.morsel_keys.specs.Reductions.{addend, lesser, greater};

use morsel_frame::Cell;
use morsel_meaning::{ColType, Fault, Name, Value};
use std::alloc::Global;

/// The value, lent.
pub fn lent(value: &Value) -> Cell<'_>
    ensures { value_of result ≡ value.now }
{
    match value {
        Value::Null => Cell::Null,
        Value::Int(number) => Cell::Int(*number),
        Value::Bool(flag) => Cell::Bool(*flag),
        Value::Text(text) => Cell::Text(text.as_str()),
    }
}

/// A value of the cell's own.
pub fn owned(alloc: Global, cell: Cell<'_>) -> Result<Value, Fault>
    ensures ok { IfOk result (λ value. value ≡ value_of cell.entry) }
    ensures out_of_memory { IsOkUnless result Fault.OutOfMemory }
{
    Ok(match cell {
        Cell::Null => Value::Null,
        Cell::Int(number) => Value::Int(number),
        Cell::Bool(flag) => Value::Bool(flag),
        Cell::Text(text) => Value::Text(Name::new(alloc, text)?),
    })
}

/// What a cell of numbers adds to a sum.
pub fn added(cell: Cell<'_>) -> i64
    requires { IsOfType ColType.Int (value_of cell) }
    ensures { result ≡ addend (value_of cell.entry) }
{
    match cell {
        Cell::Null => 0,
        Cell::Int(number) => number,
        _ => unreachable!(),
    }
}

/// Whether a cell comes before another of its type, where neither is null.
fn is_before(kind: ColType, first: Cell<'_>, second: Cell<'_>) -> bool
    requires first { IsOfType kind (value_of first) }
    requires second { IsOfType kind (value_of second) }
    requires first_is { not_null (value_of first) ≡ true }
    requires second_is { not_null (value_of second) ≡ true }
    ensures { result ≡ value_before (value_of first.entry) (value_of second.entry) }
{
    match first {
        Cell::Int(a) => match second {
            Cell::Int(b) => a.cmp(&b).is_lt(),
            _ => unreachable!(),
        },
        Cell::Bool(a) => match second {
            Cell::Bool(b) => a.cmp(&b).is_lt(),
            _ => unreachable!(),
        },
        Cell::Text(a) => match second {
            Cell::Text(b) => a.cmp(b).is_lt(),
            _ => unreachable!(),
        },
        Cell::Null => unreachable!(),
    }
}

/// Whether a cell is less than a value, a null being none.
pub fn is_less(kind: ColType, cell: Cell<'_>, value: &Value) -> bool
    requires cell { IsOfType kind (value_of cell) }
    requires value { IsOfType kind value.now }
    ensures { lesser value.now (value_of cell.entry) ≡ (if result then value_of cell.entry else value.now) }
{
    match cell {
        Cell::Null => false,
        _ => match value {
            Value::Null => true,
            _ => is_before(kind, cell, lent(value)),
        },
    }
}

/// Whether a cell is greater than a value, a null being none.
pub fn is_greater(kind: ColType, cell: Cell<'_>, value: &Value) -> bool
    requires cell { IsOfType kind (value_of cell) }
    requires value { IsOfType kind value.now }
    ensures { greater value.now (value_of cell.entry) ≡ (if result then value_of cell.entry else value.now) }
{
    match cell {
        Cell::Null => false,
        _ => match value {
            Value::Null => true,
            _ => is_before(kind, lent(value), cell),
        },
    }
}
