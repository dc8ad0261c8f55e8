//! The plan of a scan.
ghost use Rattle.std.specs.Prelude.{◌≡◌, ◌++◌, ◌∷◌, [], Some, None, IfOk, OnOk, IsOkUnless};
ghost use Rattle.morsel_meaning.specs.Values.{names_of};
ghost use Rattle.morsel_frame.specs.Names.{first_repeated};
ghost use Rattle.morsel_frame.specs.Refusals.{Refuses, fault_of_repeat};
ghost use Rattle.morsel_scan.specs.ScanColumns.{is_kept, index_fields, path_fields};
ghost use Rattle.morsel_scan.specs.ScanFlaws.{choice_absence, choice_flaw, filter_flaw, scan_flaw};
ghost use Rattle.morsel_query.specs.NameSets.{HasNames};
ghost use Rattle.morsel_query.specs.Queries.{kept_fields, scan_over};
ghost use Rattle.morsel_query.specs.Plans.{planned_scan};

use crate::name_sets::{set_of_columns, set_of_names};
use morsel_expr::Pred;
use morsel_frame::Schema;
use morsel_meaning::{ColType, Fault, Field, Name};
use morsel_scan::{FileScanOptions, RowIndex};
use std::alloc::Global;
use std::collections::BTreeSet;

/// The plan of a scan: the columns of its rows.
#[derive(Debug, Drop)]
pub struct ScanPlan {
    /// The columns of its rows: the row index, the chosen columns in the order of the files, the path.
    pub output: Schema,
}

/// The plan of a scan of files with these columns, where its names meet them with types that fit; else the first fault that is
/// due.
///
/// These are, in this order: `Duplicate` for the first name that two columns have, of the row index, the columns of the files and
/// the path, or that the choice of columns has twice; `ColumnNotFound` for the first name that no column has, of the choice and
/// then of the filter; `SchemaMismatch` for the first column of the filter whose types differ.
pub fn plan_scan(
    alloc: Global,
    schema: &Schema,
    asked: &FileScanOptions,
    filter: &Option<Pred>,
) -> Result<ScanPlan, Fault>
    ensures ok { IfOk result (λ plan. plan ≡ planned_scan (scan_over schema.now asked.now filter.now)) }
    ensures refused { Refuses (scan_flaw (scan_over schema.now asked.now filter.now)) result }
{
    check_scan(alloc, schema, asked, filter)?;
    Ok(ScanPlan {
        output: output_columns(alloc, schema, asked)?,
    })
}

/// Refuses a scan whose names do not meet its columns.
fn check_scan(
    alloc: Global,
    schema: &Schema,
    asked: &FileScanOptions,
    filter: &Option<Pred>,
) -> Result<(), Fault>
    ensures { Refuses (scan_flaw (scan_over schema.now asked.now filter.now)) result }
{
    let whole = Schema::new(alloc, whole_columns(alloc, schema, asked)?)?;
    check_choice(alloc, schema, &asked.columns)?;
    check_filter(alloc, filter, &whole)
}

/// Refuses a choice of columns that names one twice, or one that the files do not have.
fn check_choice(alloc: Global, schema: &Schema, columns: &[Name]) -> Result<(), Fault>
    ensures { Refuses (choice_flaw schema.now columns.now) result }
{
    check_repeats(alloc, columns)?;
    check_presence(alloc, schema, columns)
}

/// Refuses the first name that occurs before it.
fn check_repeats(alloc: Global, names: &[Name]) -> Result<(), Fault>
    ensures { Refuses (fault_of_repeat (first_repeated names.now)) result }
{
    let mut seen = BTreeSet::new(alloc);
    for name in names {
        let text = name.as_str();
        if !seen.insert(text)? {
            return duplicate(alloc, text);
        }
    }
    Ok(())
}

/// Refuses a name that stands twice.
fn duplicate(alloc: Global, name: &str) -> Result<(), Fault>
    ensures { Refuses (fault_of_repeat (Some name.now)) result }
{
    Err(Fault::Duplicate {
        name: Name::new(alloc, name)?,
    })
}

/// Refuses the first name that no column has.
fn check_presence(alloc: Global, schema: &Schema, names: &[Name]) -> Result<(), Fault>
    ensures { Refuses (choice_absence schema.now names.now) result }
{
    if names.is_empty() {
        return Ok(());
    }
    let known = set_of_columns(alloc, schema.fields())?;
    for name in names {
        let text = name.as_str();
        if !known.contains(text) {
            return absent(alloc, text);
        }
    }
    Ok(())
}

/// Refuses a name that no column has.
fn absent(alloc: Global, name: &str) -> Result<(), Fault>
    ensures { Refuses (Some (Fault.ColumnNotFound name.now)) result }
{
    Err(Fault::ColumnNotFound {
        name: Name::new(alloc, name)?,
    })
}

/// Refuses a filter that does not fit the columns, where there is one.
fn check_filter(alloc: Global, filter: &Option<Pred>, whole: &Schema) -> Result<(), Fault>
    ensures { Refuses (filter_flaw whole.now filter.now) result }
{
    match filter {
        Some(pred) => pred.check(alloc, whole),
        None => Ok(()),
    }
}

/// The columns of which a filter may speak: the row index, those of the files, the path.
fn whole_columns(
    alloc: Global,
    schema: &Schema,
    asked: &FileScanOptions,
) -> Result<Vec<Field>, Fault>
    ensures ok { IfOk result (λ fields. fields.items ≡ index_fields asked.now.row_index ++ (schema.now ++ path_fields asked.now.path)) }
    ensures out_of_memory { IsOkUnless result Fault.OutOfMemory }
{
    let mut fields = Vec::new(alloc);
    push_index(alloc, &mut fields, &asked.row_index)?;
    push_all(alloc, &mut fields, schema.fields())?;
    push_path(alloc, &mut fields, &asked.path)?;
    Ok(fields)
}

/// The columns of the scan's rows. They differ in name, since they are some of those of which a filter may speak.
fn output_columns(alloc: Global, schema: &Schema, asked: &FileScanOptions) -> Result<Schema, Fault>
    requires { first_repeated (names_of (index_fields asked.now.row_index ++ (schema.now ++ path_fields asked.now.path))) ≡ None }
    ensures ok { IfOk result (λ output. output ≡ index_fields asked.now.row_index ++ (kept_fields asked.now.columns schema.now ++ path_fields asked.now.path)) }
    ensures out_of_memory { IsOkUnless result Fault.OutOfMemory }
{
    let mut fields = Vec::new(alloc);
    push_index(alloc, &mut fields, &asked.row_index)?;
    push_kept(alloc, &mut fields, schema.fields(), &asked.columns)?;
    push_path(alloc, &mut fields, &asked.path)?;
    Ok(Schema::of_distinct(fields))
}

/// Puts the row index last, where there is one.
fn push_index(alloc: Global, fields: &mut Vec<Field>, index: &Option<RowIndex>) -> Result<(), Fault>
    ensures ok { OnOk result (fields.new.items ≡ fields.old.items ++ index_fields index.now) }
    ensures out_of_memory { IsOkUnless result Fault.OutOfMemory }
{
    match index {
        Some(index) => push_field(alloc, fields, &index.name, ColType::Int),
        None => Ok(()),
    }
}

/// Puts the path last, where there is one.
fn push_path(alloc: Global, fields: &mut Vec<Field>, path: &Option<Name>) -> Result<(), Fault>
    ensures ok { OnOk result (fields.new.items ≡ fields.old.items ++ path_fields path.now) }
    ensures out_of_memory { IsOkUnless result Fault.OutOfMemory }
{
    match path {
        Some(name) => push_field(alloc, fields, name, ColType::Text),
        None => Ok(()),
    }
}

/// Puts all these fields last.
fn push_all(alloc: Global, fields: &mut Vec<Field>, more: &[Field]) -> Result<(), Fault>
    ensures ok { OnOk result (fields.new.items ≡ fields.old.items ++ more.now) }
    ensures out_of_memory { IsOkUnless result Fault.OutOfMemory }
{
    for field in more {
        push_field(alloc, fields, &field.name, field.kind)?;
    }
    Ok(())
}

/// Puts those of the fields last that a choice of columns keeps; all where it names none.
fn push_kept(
    alloc: Global,
    fields: &mut Vec<Field>,
    more: &[Field],
    columns: &[Name],
) -> Result<(), Fault>
    ensures ok { OnOk result (fields.new.items ≡ fields.old.items ++ kept_fields columns.now more.now) }
    ensures out_of_memory { IsOkUnless result Fault.OutOfMemory }
{
    let chosen = set_of_names(alloc, columns)?;
    for field in more {
        if is_kept(columns, &chosen, field.name.as_str()) {
            push_field(alloc, fields, &field.name, field.kind)?;
        }
    }
    Ok(())
}

/// Whether a choice of columns, whose names are in the set, keeps the one of this name.
fn is_kept(columns: &[Name], chosen: &BTreeSet<&str>, name: &str) -> bool
    requires { HasNames chosen.now columns.now }
    ensures { result ≡ is_kept columns.now name.now }
{
    columns.is_empty() || chosen.contains(name)
}

/// Puts a field last.
fn push_field(
    alloc: Global,
    fields: &mut Vec<Field>,
    name: &Name,
    kind: ColType,
) -> Result<(), Fault>
    ensures ok { OnOk result (fields.new.items ≡ fields.old.items ++ record { name = name.now; kind = kind } ∷ []) }
    ensures out_of_memory { IsOkUnless result Fault.OutOfMemory }
{
    let name = Name::new(alloc, name.as_str())?;
    fields.push(Field { name, kind })?;
    Ok(())
}
