//! The values that a record gives to the used columns.
ghost use Rattle.std.specs.Prelude.{◌≡◌, length, IfOk, IsOkUnless, None, List, IsUtf8};
ghost use Rattle.morsel_meaning.specs.declared.value.ColType.{ColType};
ghost use Rattle.morsel_meaning.specs.Values.{kinds_of};
ghost use Rattle.morsel_grammar.specs.Grammar.{Fields};
ghost use Rattle.morsel_grammar.specs.Cells.{int_of, bool_of, int_value, bool_value, value_written, cell_or_bad, cell_of};
ghost use Rattle.morsel_grammar.specs.Rows.{row_of, row_of_nothing};
ghost use Rattle.morsel_grammar.specs.Reading.{used_values};
ghost use Rattle.morsel_text.specs.Pushes.{AreTexts};
ghost use Rattle.morsel_text.specs.Plain.{cell_in, cells_with, values_in, GivesRow};

use crate::plain::records::{PlainField, is_empty};
use morsel_frame::Schema;
use morsel_grammar::CsvOptions;
use morsel_meaning::{ColType, Fault, Name, Value};
use std::alloc::Global;
use std::str::from_utf8_unchecked;

/// What a record gives.
pub enum PlainRow {
    /// A row, with these values in the used columns.
    Row(Vec<Value>),
    /// No row.
    NoRow,
    /// No row that fits: there is another number of fields than of columns.
    Misfit,
    /// A row with a field in a used column that does not fit its type.
    Bad,
}

/// The row of a record of fields.
pub fn row(
    alloc: Global,
    fields: &[PlainField],
    schema: &Schema,
    used: &[bool],
    options: &CsvOptions,
) -> Result<PlainRow, Fault>
    requires used { length used.now ≡ length schema.now }
    requires texts { AreTexts fields.now }
    ensures row { IfOk result (λ row. GivesRow (row_of options.now (kinds_of schema.now) (Fields fields.now)) used.now row) }
    ensures out_of_memory { IsOkUnless result Fault.OutOfMemory }
{
    if is_empty(fields) {
        return row_of_nothing(alloc, used);
    }
    if fields.len() != schema.len() {
        return Ok(PlainRow::Misfit);
    }
    match values(alloc, fields, schema, used, options)? {
        Some(values) => Ok(PlainRow::Row(values)),
        None => Ok(PlainRow::Bad),
    }
}

/// The row of a record without bytes: one null where there is one column.
fn row_of_nothing(alloc: Global, used: &[bool]) -> Result<PlainRow, Fault>
    ensures row { IfOk result (λ row. (kinds : List ColType) → length used.now ≡ length kinds → GivesRow (row_of_nothing kinds) used.now row) }
    ensures out_of_memory { IsOkUnless result Fault.OutOfMemory }
{
    if used.len() != 1 {
        return Ok(PlainRow::NoRow);
    }
    let mut values = Vec::new(alloc);
    if !used[0] {
        return Ok(PlainRow::Row(values));
    }
    values.push(Value::Null)?;
    Ok(PlainRow::Row(values))
}

/// The values of the fields in used columns, unless one does not fit its type.
fn values(
    alloc: Global,
    fields: &[PlainField],
    schema: &Schema,
    used: &[bool],
    options: &CsvOptions,
) -> Result<Option<Vec<Value>>, Fault>
    requires used { length used.now ≡ length schema.now }
    requires fields { length fields.now ≡ length schema.now }
    requires texts { AreTexts fields.now }
    ensures value { IfOk result (λ found. used_values used.now (cells_with options.now (kinds_of schema.now) fields.now) ≡ values_in found) }
    ensures out_of_memory { IsOkUnless result Fault.OutOfMemory }
{
    let mut values = Vec::new(alloc);
    for at in 0..used.len() {
        if !used[at] {
            continue;
        }
        match cell(alloc, &fields[at], schema.field(at).kind, options) {
            Ok(Some(value)) => values.push(value)?,
            Ok(None) => return Ok(None),
            Err(fault) => return Err(fault),
        }
    }
    Ok(Some(values))
}

/// The value of a field under a type; none where it does not fit.
fn cell(
    alloc: Global,
    field: &PlainField,
    kind: ColType,
    options: &CsvOptions,
) -> Result<Option<Value>, Fault>
    requires { IsUtf8 field.now.bytes }
    ensures value { IfOk result (λ found. cell_of options.now kind field.now ≡ cell_in found) }
    ensures out_of_memory { IsOkUnless result Fault.OutOfMemory }
{
    let text = unsafe { from_utf8_unchecked(field.bytes()) };
    if !field.is_quoted() && text == options.null_text() {
        return Ok(Some(Value::Null));
    }
    match value(alloc, text, kind) {
        Ok(None) => Ok(misfit(options)),
        found => found,
    }
}

/// The value of a field that does not fit its type: null where errors are ignored, and otherwise none.
fn misfit(options: &CsvOptions) -> Option<Value>
    ensures { cell_or_bad options.now.ignore_errors None ≡ cell_in result }
{
    if options.ignores_errors() {
        return Some(Value::Null);
    }
    None
}

/// What a text says under a type, if anything.
fn value(alloc: Global, text: &str, kind: ColType) -> Result<Option<Value>, Fault>
    ensures value { IfOk result (λ found. found ≡ value_written kind text.now) }
    ensures out_of_memory { IsOkUnless result Fault.OutOfMemory }
{
    match kind {
        ColType::Int => Ok(int_value(text)),
        ColType::Bool => Ok(bool_value(text)),
        ColType::Text => Ok(Some(Value::Text(Name::new(alloc, text)?))),
    }
}

/// The number that a text writes, as a value.
fn int_value(text: &str) -> Option<Value>
    ensures { result ≡ int_value (int_of text.now) }
{
    match int_of(text) {
        Some(number) => Some(Value::Int(number)),
        None => None,
    }
}

/// The number that a text writes.
fn int_of(text: &str) -> Option<i64>
    ensures { result ≡ int_of text.now }
{
    text.parse::<i64>().ok()
}

/// The truth value that a text names.
fn bool_value(text: &str) -> Option<Value>
    ensures { result ≡ bool_value (bool_of text.now) }
{
    match text {
        "true" | "True" | "TRUE" => Some(Value::Bool(true)),
        "false" | "False" | "FALSE" => Some(Value::Bool(false)),
        _ => None,
    }
}
