//! Where the names of a group-by meet the columns of its rows.
ghost use Rattle.std.specs.Prelude.{◌≡◌, ◌<◌, ◌++◌, ◌∷◌, [], length, map, option_map, Some, None, IfOk, OnOk, IsOkUnless};
ghost use Rattle.std.specs.List.{All};
ghost use Rattle.morsel_meaning.specs.Values.{names_of};
ghost use Rattle.morsel_frame.specs.Names.{first_repeated};
ghost use Rattle.morsel_frame.specs.Refusals.{Refuses, fault_of_repeat, first_fault};
ghost use Rattle.morsel_frame.specs.Tables.{fields_at};
ghost use Rattle.morsel_expr.specs.Flaws.{absence, misfit};
ghost use Rattle.morsel_expr.specs.Predicates.{place_of};
ghost use Rattle.morsel_keys.specs.Reductions.{reduced_kind};
ghost use Rattle.morsel_group.specs.Asked.{HaveColumns, output_names, column_place, kind_in, agg_field, group_fields};
ghost use Rattle.morsel_group.specs.GroupFlaws.{key_absence, absence_of_agg, agg_absence, misfit_of_agg, agg_misfit, group_flaw};

use crate::{Agg, GroupSpec};
use morsel_frame::Schema;
use morsel_keys::Reduction;
use morsel_meaning::{ColType, Fault, Field, Name};
use std::alloc::Global;

/// The columns of the rows of a group-by over these columns: the keys in their order, and then the reductions.
///
/// A group-by whose names do not meet the columns is refused, with the first fault that is due: `Duplicate` for the first name that two of its
/// own columns have; `ColumnNotFound` for the first name, of the keys and then of the reductions, that no column has; `SchemaMismatch` for the
/// first column that is to be summed and has no numbers.
pub fn group_schema(alloc: Global, input: &Schema, spec: &GroupSpec) -> Result<Schema, Fault>
    requires { HaveColumns spec.now.aggs }
    ensures ok { IfOk result (λ schema. schema ≡ group_fields input.now spec.now) }
    ensures refused { Refuses (group_flaw input.now spec.now) result }
{
    let plan = group_plan(alloc, input, spec)?;
    Ok(plan.output)
}

/// A group-by whose columns are found.
#[derive(Drop)]
pub struct GroupPlan {
    /// The places of the keys.
    pub keys: Vec<usize>,
    /// The places of what is reduced, none where rows are counted.
    pub columns: Vec<Option<usize>>,
    /// The columns of its rows.
    pub output: Schema,
}

/// The columns of a group-by; or the fault that `group_schema` answers.
pub fn group_plan(alloc: Global, input: &Schema, spec: &GroupSpec) -> Result<GroupPlan, Fault>
    ensures keys { IfOk result (λ plan. plan.keys.items ≡ map (column_place input.now) spec.now.keys) }
    ensures within { IfOk result (λ plan. All (λ at. at < length input.now) plan.keys.items) }
    ensures columns { IfOk result (λ plan. plan.columns.items ≡ map (λ agg. option_map (column_place input.now) agg.column) spec.now.aggs) }
    ensures output { IfOk result (λ plan. plan.output ≡ group_fields input.now spec.now) }
    ensures refused { Refuses (group_flaw input.now spec.now) result }
{
    check_outputs(alloc, spec)?;
    let keys = key_places(alloc, input, &spec.keys)?;
    let columns = agg_places(alloc, input, &spec.aggs)?;
    check_sums(alloc, input, &spec.aggs)?;
    let output = output_schema(alloc, input, spec, &keys, &columns)?;
    Ok(GroupPlan {
        keys,
        columns,
        output,
    })
}

/// Refuses a group-by of whose columns two have one name.
fn check_outputs(alloc: Global, spec: &GroupSpec) -> Result<(), Fault>
    ensures { Refuses (fault_of_repeat (first_repeated (output_names spec.now))) result }
{
    let mut fields = Vec::new(alloc);
    push_keys(alloc, &mut fields, &spec.keys)?;
    push_outputs(alloc, &mut fields, &spec.aggs)?;
    Schema::new(alloc, fields)?;
    Ok(())
}

/// Puts a field for each key last. Its type does not matter.
fn push_keys(alloc: Global, fields: &mut Vec<Field>, keys: &[Name]) -> Result<(), Fault>
    ensures ok { OnOk result (names_of fields.new.items ≡ names_of fields.old.items ++ keys.now) }
    ensures out_of_memory { IsOkUnless result Fault.OutOfMemory }
{
    for name in keys {
        push_name(alloc, fields, name)?;
    }
    Ok(())
}

/// Puts a field for each reduction last. Its type does not matter.
fn push_outputs(alloc: Global, fields: &mut Vec<Field>, aggs: &[Agg]) -> Result<(), Fault>
    ensures ok { OnOk result (names_of fields.new.items ≡ names_of fields.old.items ++ map (λ agg. agg.output) aggs.now) }
    ensures out_of_memory { IsOkUnless result Fault.OutOfMemory }
{
    for agg in aggs {
        push_name(alloc, fields, &agg.output)?;
    }
    Ok(())
}

/// Puts a field of this name last. Its type does not matter.
fn push_name(alloc: Global, fields: &mut Vec<Field>, name: &Name) -> Result<(), Fault>
    ensures ok { OnOk result (names_of fields.new.items ≡ names_of fields.old.items ++ name.now ∷ []) }
    ensures out_of_memory { IsOkUnless result Fault.OutOfMemory }
{
    let name = Name::new(alloc, name.as_str())?;
    let kind = ColType::Int;
    fields.push(Field { name, kind })?;
    Ok(())
}

/// The places of the keys.
fn key_places(alloc: Global, input: &Schema, names: &[Name]) -> Result<Vec<usize>, Fault>
    ensures ok { IfOk result (λ places. places.items ≡ map (column_place input.now) names.now) }
    ensures within { IfOk result (λ places. All (λ at. at < length input.now) places.items) }
    ensures refused { Refuses (key_absence input.now names.now) result }
{
    let mut places = Vec::new(alloc);
    for name in names {
        match place(alloc, input, name) {
            Ok(at) => places.push(at)?,
            Err(fault) => return Err(fault),
        }
    }
    Ok(places)
}

/// The place of the column of this name.
fn place(alloc: Global, input: &Schema, name: &Name) -> Result<usize, Fault>
    ensures ok { IfOk result (λ at. at ≡ column_place input.now name.now) }
    ensures within { IfOk result (λ at. at < length input.now) }
    ensures refused { Refuses (absence input.now name.now) result }
{
    match input.find(name.as_str()) {
        Some(at) => Ok(at),
        None => Err(Fault::ColumnNotFound {
            name: Name::new(alloc, name.as_str())?,
        }),
    }
}

/// The places of what is reduced.
fn agg_places(alloc: Global, input: &Schema, aggs: &[Agg]) -> Result<Vec<Option<usize>>, Fault>
    ensures ok { IfOk result (λ places. places.items ≡ map (λ agg. option_map (column_place input.now) agg.column) aggs.now) }
    ensures refused { Refuses (agg_absence input.now aggs.now) result }
{
    let mut places = Vec::new(alloc);
    for agg in aggs {
        match agg_place(alloc, input, agg) {
            Ok(at) => places.push(at)?,
            Err(fault) => return Err(fault),
        }
    }
    Ok(places)
}

/// The place of what one reduction reduces.
fn agg_place(alloc: Global, input: &Schema, agg: &Agg) -> Result<Option<usize>, Fault>
    ensures ok { IfOk result (λ at. at ≡ option_map (column_place input.now) agg.now.column) }
    ensures refused { Refuses (absence_of_agg input.now agg.now.column) result }
{
    match &agg.column {
        Some(name) => Ok(Some(place(alloc, input, name)?)),
        None => Ok(None),
    }
}

/// Refuses the first sum of a column that has no numbers.
fn check_sums(alloc: Global, input: &Schema, aggs: &[Agg]) -> Result<(), Fault>
    ensures { Refuses (agg_misfit input.now aggs.now) result }
{
    for agg in aggs {
        match check_sum(alloc, input, agg) {
            Ok(()) => {}
            Err(fault) => return Err(fault),
        }
    }
    Ok(())
}

/// Refuses a sum of a column that has no numbers.
fn check_sum(alloc: Global, input: &Schema, agg: &Agg) -> Result<(), Fault>
    ensures { Refuses (misfit_of_agg input.now agg.now.op agg.now.column) result }
{
    match (agg.op, &agg.column) {
        (Reduction::Sum, Some(name)) => check_numbers(alloc, input, name),
        _ => Ok(()),
    }
}

/// Refuses a column that has no numbers.
fn check_numbers(alloc: Global, input: &Schema, name: &Name) -> Result<(), Fault>
    ensures { Refuses (misfit input.now name.now (Some ColType.Int)) result }
{
    match input.find(name.as_str()) {
        Some(at) => {
            if input.field(at).kind == ColType::Int {
                return Ok(());
            }
            Err(Fault::SchemaMismatch {
                name: Name::new(alloc, name.as_str())?,
            })
        }
        None => Ok(()),
    }
}

/// The columns of the rows of a group-by whose columns are found, and whose names differ.
fn output_schema(
    alloc: Global,
    input: &Schema,
    spec: &GroupSpec,
    keys: &[usize],
    columns: &[Option<usize>],
) -> Result<Schema, Fault>
    requires names { first_repeated (output_names spec.now) ≡ None }
    requires found { key_absence input.now spec.now.keys ≡ None }
    requires keys { keys.now ≡ map (column_place input.now) spec.now.keys }
    requires within { All (λ at. at < length input.now) keys.now }
    requires columns { columns.now ≡ map (λ agg. option_map (column_place input.now) agg.column) spec.now.aggs }
    ensures ok { IfOk result (λ schema. schema ≡ group_fields input.now spec.now) }
    ensures out_of_memory { IsOkUnless result Fault.OutOfMemory }
{
    let mut fields = Vec::new(alloc);
    push_key_fields(alloc, &mut fields, input, keys)?;
    push_agg_fields(alloc, &mut fields, input, &spec.aggs, columns)?;
    Schema::new(alloc, fields)
}

/// Puts the fields at these places last.
pub fn push_key_fields(
    alloc: Global,
    fields: &mut Vec<Field>,
    input: &Schema,
    places: &[usize],
) -> Result<(), Fault>
    requires { All (λ at. at < length input.now) places.now }
    ensures ok { OnOk result (fields.new.items ≡ fields.old.items ++ fields_at input.now places.now) }
    ensures out_of_memory { IsOkUnless result Fault.OutOfMemory }
{
    for at in places {
        let field = input.field(*at);
        let name = Name::new(alloc, field.name.as_str())?;
        let kind = field.kind;
        fields.push(Field { name, kind })?;
    }
    Ok(())
}

/// Puts the fields of the reductions last.
pub fn push_agg_fields(
    alloc: Global,
    fields: &mut Vec<Field>,
    input: &Schema,
    aggs: &[Agg],
    columns: &[Option<usize>],
) -> Result<(), Fault>
    requires { columns.now ≡ map (λ agg. option_map (column_place input.now) agg.column) aggs.now }
    ensures ok { OnOk result (fields.new.items ≡ fields.old.items ++ map (agg_field input.now) aggs.now) }
    ensures out_of_memory { IsOkUnless result Fault.OutOfMemory }
{
    for i in 0..aggs.len() {
        let agg = &aggs[i];
        let name = Name::new(alloc, agg.output.as_str())?;
        let kind = reduced_kind(agg.op, kind_in(input, columns[i]));
        fields.push(Field { name, kind })?;
    }
    Ok(())
}

/// The type of the values at a place; numbers where rows are counted.
pub fn kind_in(input: &Schema, column: Option<usize>) -> ColType
    ensures { result ≡ kind_in input.now column }
{
    match column {
        Some(at) if at < input.len() => input.field(at).kind,
        _ => ColType::Int,
    }
}

/// The type of what a reduction says of values of a type.
pub fn reduced_kind(op: Reduction, kind: ColType) -> ColType
    ensures { result ≡ reduced_kind op kind }
{
    match op {
        Reduction::Len | Reduction::Sum => ColType::Int,
        Reduction::Min | Reduction::Max | Reduction::First | Reduction::Last => kind,
    }
}
