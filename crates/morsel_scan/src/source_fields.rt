//! The columns of a scan, and why there is no such scan.
ghost use Rattle.std.specs.Prelude.{◌≡◌, ◌++◌, ◌∷◌, [], length, IfOk, OnOk, IsOkUnless};
ghost use Rattle.morsel_meaning.specs.Values.{names_of};
ghost use Rattle.morsel_frame.specs.Names.{first_repeated};
ghost use Rattle.morsel_frame.specs.Refusals.{Refuses, fault_of_repeat, repeat_fault, first_fault};
ghost use Rattle.morsel_grammar.specs.Reading.{chosen};
ghost use Rattle.morsel_scan.specs.ScanColumns.{index_fields, path_fields, whole_fields};
ghost use Rattle.morsel_scan.specs.ScanFlaws.{choice_absence, choice_flaw, filter_flaw, scan_flaw};

use crate::{FileScanOptions, RowIndex};
use morsel_expr::Pred;
use morsel_frame::Schema;
use morsel_meaning::{ColType, Fault, Field, Name};
use std::alloc::Global;

/// Puts a field last.
fn push_field(
    alloc: Global,
    fields: &mut Vec<Field>,
    name: &Name,
    kind: ColType,
) -> Result<(), Fault>
    ensures ok { OnOk result (fields.new.items ≡ fields.old.items ++ record { name = name.now; kind = kind } ∷ []) }
    ensures out_of_memory { IsOkUnless result Fault.OutOfMemory }
{
    let name = Name::new(alloc, name.as_str())?;
    fields.push(Field { name, kind })?;
    Ok(())
}

/// Puts the field of the row index last, where there is one.
fn push_index(alloc: Global, fields: &mut Vec<Field>, index: &Option<RowIndex>) -> Result<(), Fault>
    ensures ok { OnOk result (fields.new.items ≡ fields.old.items ++ index_fields index.now) }
    ensures out_of_memory { IsOkUnless result Fault.OutOfMemory }
{
    match index {
        Some(index) => push_field(alloc, fields, &index.name, ColType::Int),
        None => Ok(()),
    }
}

/// Puts the field of the path last, where there is one.
fn push_path(alloc: Global, fields: &mut Vec<Field>, path: &Option<Name>) -> Result<(), Fault>
    ensures ok { OnOk result (fields.new.items ≡ fields.old.items ++ path_fields path.now) }
    ensures out_of_memory { IsOkUnless result Fault.OutOfMemory }
{
    match path {
        Some(path) => push_field(alloc, fields, path, ColType::Text),
        None => Ok(()),
    }
}

/// Puts the fields of a schema last.
fn push_all(alloc: Global, fields: &mut Vec<Field>, schema: &Schema) -> Result<(), Fault>
    ensures ok { OnOk result (fields.new.items ≡ fields.old.items ++ schema.now) }
    ensures out_of_memory { IsOkUnless result Fault.OutOfMemory }
{
    for at in 0..schema.len() {
        let field = schema.field(at);
        push_field(alloc, fields, &field.name, field.kind)?;
    }
    Ok(())
}

/// Puts the fields of the used columns last.
fn push_used(
    alloc: Global,
    fields: &mut Vec<Field>,
    schema: &Schema,
    used: &[bool],
) -> Result<(), Fault>
    requires { length used.now ≡ length schema.now }
    ensures ok { OnOk result (fields.new.items ≡ fields.old.items ++ chosen used.now schema.now) }
    ensures out_of_memory { IsOkUnless result Fault.OutOfMemory }
{
    for at in 0..used.len() {
        if !used[at] {
            continue;
        }
        let field = schema.field(at);
        push_field(alloc, fields, &field.name, field.kind)?;
    }
    Ok(())
}

/// The columns that a piece's rows are made of: the row index, the used columns, the path.
pub fn step_schema(
    alloc: Global,
    schema: &Schema,
    asked: &FileScanOptions,
    used: &[bool],
) -> Result<Schema, Fault>
    requires { length used.now ≡ length schema.now }
    ensures ok { IfOk result (λ step. step ≡ index_fields asked.now.row_index ++ (chosen used.now schema.now ++ path_fields asked.now.path)) }
    ensures out_of_memory { IsOkUnless result Fault.OutOfMemory }
{
    let mut fields = Vec::new(alloc);
    push_index(alloc, &mut fields, &asked.row_index)?;
    push_used(alloc, &mut fields, schema, used)?;
    push_path(alloc, &mut fields, &asked.path)?;
    // All columns of the scan differ in name, and so do some of them: what refuses these is out of memory.
    let Ok(step) = Schema::new(alloc, fields) else {
        return Err(Fault::OutOfMemory);
    };
    Ok(step)
}

/// The columns that a filter may speak of: the row index, those of the files, the path.
fn whole_schema(alloc: Global, schema: &Schema, asked: &FileScanOptions) -> Result<Schema, Fault>
    ensures ok { IfOk result (λ whole. whole ≡ index_fields asked.now.row_index ++ (schema.now ++ path_fields asked.now.path)) }
    ensures refused { Refuses (repeat_fault (index_fields asked.now.row_index ++ (schema.now ++ path_fields asked.now.path))) result }
{
    let mut fields = Vec::new(alloc);
    push_index(alloc, &mut fields, &asked.row_index)?;
    push_all(alloc, &mut fields, schema)?;
    push_path(alloc, &mut fields, &asked.path)?;
    Schema::new(alloc, fields)
}

/// Fields with these names.
fn fields_named(alloc: Global, columns: &[Name]) -> Result<Vec<Field>, Fault>
    ensures ok { IfOk result (λ fields. names_of fields.items ≡ columns.now) }
    ensures out_of_memory { IsOkUnless result Fault.OutOfMemory }
{
    let mut fields = Vec::new(alloc);
    for column in columns {
        push_field(alloc, &mut fields, column, ColType::Int)?;
    }
    Ok(fields)
}

/// Refuses the first name that occurs before it.
fn check_repeats(alloc: Global, columns: &[Name]) -> Result<(), Fault>
    ensures { Refuses (fault_of_repeat (first_repeated columns.now)) result }
{
    let _schema = Schema::new(alloc, fields_named(alloc, columns)?)?;
    Ok(())
}

/// Refuses the first name that no column has.
fn check_names(alloc: Global, schema: &Schema, columns: &[Name]) -> Result<(), Fault>
    ensures { Refuses (choice_absence schema.now columns.now) result }
{
    for column in columns {
        if schema.find(column.as_str()).is_none() {
            return Err(Fault::ColumnNotFound {
                name: Name::new(alloc, column.as_str())?,
            });
        }
    }
    Ok(())
}

/// Refuses a choice of columns.
fn check_choice(alloc: Global, schema: &Schema, columns: &[Name]) -> Result<(), Fault>
    ensures { Refuses (choice_flaw schema.now columns.now) result }
{
    check_repeats(alloc, columns)?;
    check_names(alloc, schema, columns)
}

/// Refuses a filter that does not fit the columns.
fn check_filter(alloc: Global, whole: &Schema, filter: &Option<Pred>) -> Result<(), Fault>
    ensures { Refuses (filter_flaw whole.now filter.now) result }
{
    match filter {
        Some(pred) => pred.check(alloc, whole),
        None => Ok(()),
    }
}

/// Refuses a scan: two columns with one name, then its choice of columns, and then its filter.
pub fn check_scan(
    alloc: Global,
    schema: &Schema,
    asked: &FileScanOptions,
    filter: &Option<Pred>,
) -> Result<(), Fault>
    ensures { Refuses (scan_flaw (record { fields = schema.now; asked = asked.now; filter = filter.now })) result }
{
    let whole = whole_schema(alloc, schema, asked)?;
    check_choice(alloc, schema, asked.columns.as_slice())?;
    check_filter(alloc, &whole, filter)
}
