//! Rows put into columns, value by value.
ghost use Rattle.std.specs.Prelude.{◌≡◌, ◌++◌, ◌∷◌, [], length, OnOk, IsOkUnless};
ghost use Rattle.morsel_meaning.specs.Values.{IsOfType, FitsRow};
ghost use Rattle.morsel_text.specs.Pushes.{column_kinds};
ghost use Rattle.morsel_text.specs.Plain.{with_values};

use morsel_frame::Column;
use morsel_meaning::{Fault, Value};

/// Puts a row of values below the columns.
pub fn push_row(columns: &mut Vec<Column>, values: &[Value]) -> Result<(), Fault>
    requires { FitsRow (column_kinds columns.old.items) values.now }
    ensures ok { OnOk result (columns.new.items ≡ with_values columns.old.items values.now) }
    ensures out_of_memory { IsOkUnless result Fault.OutOfMemory }
{
    for at in 0..values.len() {
        let column = &mut columns[at];
        push_value(column, &values[at])?;
    }
    Ok(())
}

/// Puts a value below a column.
fn push_value(column: &mut Column, value: &Value) -> Result<(), Fault>
    requires { IsOfType column.old.kind value.now }
    ensures ok { OnOk result (column.new ≡ record column.old { values = column.old.values ++ value.now ∷ [] }) }
    ensures out_of_memory { IsOkUnless result Fault.OutOfMemory }
{
    match value {
        Value::Null => column.push_null(),
        Value::Int(number) => column.push_int(*number),
        Value::Bool(flag) => column.push_bool(*flag),
        Value::Text(text) => column.push_text(text.as_str()),
    }
}
