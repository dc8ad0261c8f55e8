//! The rules of a join whose rows have only the columns that a group-by of them reads.
ghost use Rattle.std.specs.Prelude.{◌≡◌, ◌<◌, ◌++◌, [], ◌∷◌, length, if◌then◌else◌, get_or, IfOk, OnOk, IsOkUnless};
ghost use Rattle.std.specs.List.{list_any};
ghost use Rattle.morsel_meaning.specs.declared.fault.Fault.TheVariants.{OutOfMemory};
ghost use Rattle.morsel_frame.specs.Names.{stands_in};
ghost use Rattle.morsel_group_reads.specs.Reads.{KeepsColumns, is_read, kept_by, reads_column};

use morsel_frame::Schema;
use morsel_group::{Agg, GroupSpec};
use morsel_join::{JoinColumn, JoinRules};
use morsel_meaning::{Fault, Field, Name};
use std::alloc::Global;

/// The rules of the same join, whose rows have only the columns that the group-by reads, in their order.
pub fn columns_read(alloc: Global, rules: JoinRules, group: &GroupSpec) -> Result<JoinRules, Fault>
    requires { length rules.columns.items ≡ length rules.output }
    ensures keeps { IfOk result (KeepsColumns group.now rules) }
    ensures out_of_memory { IsOkUnless result OutOfMemory }
{
    let JoinRules {
        how,
        maintain_order,
        join_nulls,
        left_keys,
        right_keys,
        kinds,
        columns,
        output,
    } = rules;
    let columns = kept_columns(alloc, output.fields(), columns.as_slice(), group)?;
    let output = kept_fields(alloc, &output, group)?;
    Ok(JoinRules {
        how,
        maintain_order,
        join_nulls,
        left_keys,
        right_keys,
        kinds,
        columns,
        output,
    })
}

/// Where the columns come from that the group-by reads.
fn kept_columns(
    alloc: Global,
    fields: &[Field],
    columns: &[JoinColumn],
    group: &GroupSpec,
) -> Result<Vec<JoinColumn>, Fault>
    requires { length columns.now ≡ length fields.now }
    ensures ok { IfOk result (λ kept. kept.items ≡ kept_by group.now fields.now columns.now) }
    ensures out_of_memory { IsOkUnless result OutOfMemory }
{
    let mut kept = Vec::new(alloc);
    for at in 0..fields.len() {
        let column = columns[at];
        keep_if_read(&mut kept, column, &fields[at].name, group)?;
    }
    Ok(kept)
}

/// Puts the column last, if the group-by reads the column of this name.
fn keep_if_read(
    kept: &mut Vec<JoinColumn>,
    column: JoinColumn,
    name: &Name,
    group: &GroupSpec,
) -> Result<(), Fault>
    ensures ok { OnOk result (kept.new.items ≡ kept.old.items ++ (if is_read group.now name.now then column ∷ [] else [])) }
    ensures out_of_memory { IsOkUnless result OutOfMemory }
{
    if is_read(group, name) {
        kept.push(column)?;
    }
    Ok(())
}

/// The columns that the group-by reads.
fn kept_fields(alloc: Global, columns: &Schema, group: &GroupSpec) -> Result<Schema, Fault>
    ensures ok { IfOk result (λ kept. kept ≡ kept_by group.now columns.now columns.now) }
    ensures out_of_memory { IsOkUnless result OutOfMemory }
{
    let mut kept = Vec::new(alloc);
    for at in 0..columns.len() {
        keep_field_if_read(alloc, &mut kept, columns.field(at), group)?;
    }
    Ok(Schema::of_distinct(kept))
}

/// Puts the field last, if the group-by reads it.
fn keep_field_if_read(
    alloc: Global,
    kept: &mut Vec<Field>,
    field: &Field,
    group: &GroupSpec,
) -> Result<(), Fault>
    ensures ok { OnOk result (kept.new.items ≡ kept.old.items ++ (if is_read group.now field.now.name then field.now ∷ [] else [])) }
    ensures out_of_memory { IsOkUnless result OutOfMemory }
{
    if is_read(group, &field.name) {
        let name = Name::new(alloc, field.name.as_str())?;
        let kind = field.kind;
        kept.push(Field { name, kind })?;
    }
    Ok(())
}

/// Whether the group-by reads the column of this name: it is one of its keys, or one of its reductions reads it.
fn is_read(group: &GroupSpec, name: &Name) -> bool
    ensures { result ≡ is_read group.now name.now }
{
    is_key(&group.keys, name) || is_reduced(&group.aggs, name)
}

/// Whether one of the keys has this name.
fn is_key(keys: &[Name], name: &Name) -> bool
    ensures { result ≡ stands_in name.now keys.now }
{
    keys.iter().any(|key| key.as_str() == name.as_str())
}

/// Whether one of the reductions reads the column of this name.
fn is_reduced(aggs: &[Agg], name: &Name) -> bool
    ensures { result ≡ list_any (λ agg. reads_column name.now agg.column) aggs.now }
{
    aggs.iter().any(|agg| reads_column(&agg.column, name))
}

/// Whether a reduction of this column, or of rows, reads the column of this name.
fn reads_column(column: &Option<Name>, name: &Name) -> bool
    ensures { result ≡ reads_column name.now column.now }
{
    match column {
        Some(column) => column.as_str() == name.as_str(),
        None => false,
    }
}
