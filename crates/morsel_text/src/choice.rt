//! The columns that are read, and those of them that are used.
ghost use Rattle.std.specs.Prelude.{◌≡◌, length, IfOk, IsOkUnless};
ghost use Rattle.morsel_meaning.specs.Values.{names_of};
ghost use Rattle.morsel_frame.specs.Names.{AreDistinct};
ghost use Rattle.morsel_grammar.specs.Reading.{chosen};
ghost use Rattle.morsel_text.specs.Steps.{empty_columns};

use morsel_frame::{Column, Schema};
use morsel_meaning::{ColType, Fault, Field};
use std::alloc::Global;
use std::mem::replace;

/// A column for each field.
pub fn columns_of(alloc: Global, schema: &Schema) -> Result<Vec<Column>, Fault>
    ensures ok { IfOk result (λ columns. columns.items ≡ empty_columns schema.now) }
    ensures out_of_memory { IsOkUnless result Fault.OutOfMemory }
{
    let mut columns = Vec::with_capacity(alloc, schema.len())?;
    for at in 0..schema.len() {
        columns.push(Column::new(alloc, schema.field(at).kind))?;
    }
    Ok(columns)
}

/// A field of its own.
fn field_again(field: &Field) -> Result<Field, Fault>
    ensures same { IfOk result (λ again. again ≡ field.now) }
    ensures out_of_memory { IsOkUnless result Fault.OutOfMemory }
{
    Ok(field.clone()?)
}

/// The fields of the used columns.
fn chosen_fields(alloc: Global, schema: &Schema, used: &[bool]) -> Result<Vec<Field>, Fault>
    requires { length used.now ≡ length schema.now }
    ensures ok { IfOk result (λ fields. fields.items ≡ chosen used.now schema.now) }
    ensures distinct { IfOk result (λ fields. AreDistinct (names_of fields.items)) }
    ensures out_of_memory { IsOkUnless result Fault.OutOfMemory }
{
    let mut fields = Vec::with_capacity(alloc, schema.len())?;
    for at in 0..schema.len() {
        if !used[at] {
            continue;
        }
        fields.push(field_again(schema.field(at))?)?;
    }
    Ok(fields)
}

/// The schema of the used columns.
pub fn chosen_schema(alloc: Global, schema: &Schema, used: &[bool]) -> Result<Schema, Fault>
    requires { length used.now ≡ length schema.now }
    ensures ok { IfOk result (λ new. new ≡ chosen used.now schema.now) }
    ensures out_of_memory { IsOkUnless result Fault.OutOfMemory }
{
    let fields = chosen_fields(alloc, schema, used)?;
    Ok(Schema::of_distinct(fields))
}

/// Takes the used columns out.
pub fn chosen_columns(
    alloc: Global,
    columns: &mut Vec<Column>,
    used: &[bool],
) -> Result<Vec<Column>, Fault>
    requires { length used.now ≡ length columns.old.items }
    ensures ok { IfOk result (λ kept. kept.items ≡ chosen used.now columns.old.items) }
    ensures out_of_memory { IsOkUnless result Fault.OutOfMemory }
{
    let mut kept = Vec::with_capacity(alloc, used.len())?;
    for at in 0..used.len() {
        if !used[at] {
            continue;
        }
        let column = &mut columns[at];
        kept.push(replace(column, Column::new(alloc, ColType::Int)))?;
    }
    Ok(kept)
}
