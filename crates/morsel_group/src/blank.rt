//! Groups of no rows.
ghost use Rattle.std.specs.Prelude.{◌≡◌, ◌<◌, [], None, Some, length, map, option_map, IfOk, IsOkUnless};
ghost use Rattle.std.specs.List.{All};
ghost use Rattle.morsel_meaning.specs.Values.{kinds_of};
ghost use Rattle.morsel_group.specs.Asked.{GroupAsked, HasItsColumn, HaveColumns, agg_field, column_place, reducer_of};
ghost use Rattle.morsel_group.specs.GroupFlaws.{absence_of_agg, agg_absence, agg_misfit, group_flaw, misfit_of_agg};
ghost use Rattle.morsel_frame.specs.Tables.{fields_at};
ghost use Rattle.morsel_group.specs.Arrivals.{keyed_in};
ghost use Rattle.morsel_group.specs.Parts.{IsPart};
ghost use Rattle.morsel_group.specs.Locals.{held_in, reducer_in, AreGroups, IsGroupBy, HasGroupedRows};

use crate::groups::Groups;
use crate::part::AggStates;
use crate::plan::{GroupPlan, group_plan, kind_in, push_agg_fields, push_key_fields, reduced_kind};
use crate::table::{GroupKeys, no_keys};
use crate::{Agg, GroupSpec};
use morsel_frame::{Frame, Schema};
use morsel_keys::Reduction;
use morsel_meaning::{ColType, Fault, Field};
use morsel_states::States;
use std::alloc::Global;

/// No rows yet, of a group-by that `group_schema` does not refuse.
pub fn no_groups(alloc: Global, input: &Schema, spec: &GroupSpec) -> Result<Groups, Fault>
    requires columns { HaveColumns spec.now.aggs }
    requires sound { group_flaw input.now spec.now ≡ None }
    ensures groups { IfOk result AreGroups }
    ensures group_by { IfOk result (λ groups. IsGroupBy input.now spec.now (Some (held_in groups))) }
    ensures empty { IfOk result (λ groups. HasGroupedRows (held_in groups) []) }
    ensures out_of_memory { IsOkUnless result Fault.OutOfMemory }
{
    match group_plan(alloc, input, spec) {
        Ok(plan) => planned_groups(alloc, input, &spec.aggs, plan),
        Err(_) => Err(Fault::OutOfMemory),
    }
}

/// No rows yet, of these reductions by a plan of them.
fn planned_groups(
    alloc: Global,
    input: &Schema,
    aggs: &[Agg],
    plan: GroupPlan,
) -> Result<Groups, Fault>
    requires within { All (λ at. at < length input.now) plan.keys.items }
    requires columns { plan.columns.items ≡ map (λ agg. option_map (column_place input.now) agg.column) aggs.now }
    requires has { HaveColumns aggs.now }
    requires found { agg_absence input.now aggs.now ≡ None }
    requires fits { agg_misfit input.now aggs.now ≡ None }
    ensures groups { IfOk result AreGroups }
    ensures group_by { (asked : GroupAsked) → aggs.now ≡ asked.aggs → plan.keys.items ≡ map (column_place input.now) asked.keys → IfOk result (λ groups. IsGroupBy input.now asked (Some (held_in groups))) }
    ensures empty { IfOk result (λ groups. HasGroupedRows (held_in groups) []) }
    ensures out_of_memory { IsOkUnless result Fault.OutOfMemory }
{
    let keyed = blank_keys(alloc, input, &plan.keys)?;
    let reducing = blank_reductions(alloc, input, aggs, &plan.columns)?;
    let fields = input.again()?;
    Ok(Groups {
        alloc,
        input: fields,
        keys: plan.keys,
        reduced: reducing.0,
        table: keyed.0,
        key_rows: keyed.1,
        counts: States::new(alloc, Reduction::Len, ColType::Int),
        parts: reducing.1,
        took: 0,
    })
}

/// No keys, of the columns at these places.
fn blank_keys(alloc: Global, input: &Schema, places: &[usize]) -> Result<(GroupKeys, Frame), Fault>
    requires { All (λ at. at < length input.now) places.now }
    ensures table { IfOk result (λ made. keyed_in made.0 ≡ record { kinds = kinds_of (fields_at input.now places.now); keys = [] }) }
    ensures rows { IfOk result (λ made. made.1 ≡ record { schema = fields_at input.now places.now; rows = [] }) }
    ensures out_of_memory { IsOkUnless result Fault.OutOfMemory }
{
    let mut fields = Vec::new(alloc);
    push_key_fields(alloc, &mut fields, input, places)?;
    let kinds = field_kinds(alloc, &fields)?;
    let schema = distinct_schema(alloc, fields)?;
    let table = no_keys(alloc, &kinds)?;
    Ok((table, Frame::empty(alloc, schema)))
}

/// The columns of reductions, and what they have of no groups.
fn blank_reductions(
    alloc: Global,
    input: &Schema,
    aggs: &[Agg],
    columns: &[Option<usize>],
) -> Result<(Schema, Vec<AggStates>), Fault>
    requires columns { columns.now ≡ map (λ agg. option_map (column_place input.now) agg.column) aggs.now }
    requires has { HaveColumns aggs.now }
    requires found { agg_absence input.now aggs.now ≡ None }
    requires fits { agg_misfit input.now aggs.now ≡ None }
    ensures schema { IfOk result (λ made. made.0 ≡ map (agg_field input.now) aggs.now) }
    ensures each { IfOk result (λ made. All (IsPart input.now 0) made.1.items) }
    ensures reducers { IfOk result (λ made. map reducer_in made.1.items ≡ map (reducer_of input.now) aggs.now) }
    ensures kinds { IfOk result (λ made. map (λ part. part.kind) made.1.items ≡ kinds_of (map (agg_field input.now) aggs.now)) }
    ensures out_of_memory { IsOkUnless result Fault.OutOfMemory }
{
    let mut fields = Vec::new(alloc);
    push_agg_fields(alloc, &mut fields, input, aggs, columns)?;
    let schema = distinct_schema(alloc, fields)?;
    let parts = blank_parts(alloc, input, aggs, columns)?;
    Ok((schema, parts))
}

/// A schema of these fields, whose names were found to differ before.
fn distinct_schema(alloc: Global, fields: Vec<Field>) -> Result<Schema, Fault>
    ensures ok { IfOk result (λ schema. schema ≡ fields.items) }
    ensures out_of_memory { IsOkUnless result Fault.OutOfMemory }
{
    match Schema::new(alloc, fields) {
        Ok(schema) => Ok(schema),
        Err(_) => Err(Fault::OutOfMemory),
    }
}

/// The types of fields.
fn field_kinds(alloc: Global, fields: &[Field]) -> Result<Vec<ColType>, Fault>
    ensures ok { IfOk result (λ kinds. kinds.items ≡ kinds_of fields.now) }
    ensures out_of_memory { IsOkUnless result Fault.OutOfMemory }
{
    let mut kinds = Vec::new(alloc);
    for field in fields {
        kinds.push(field.kind)?;
    }
    Ok(kinds)
}

/// What reductions have of no groups.
fn blank_parts(
    alloc: Global,
    input: &Schema,
    aggs: &[Agg],
    columns: &[Option<usize>],
) -> Result<Vec<AggStates>, Fault>
    requires columns { columns.now ≡ map (λ agg. option_map (column_place input.now) agg.column) aggs.now }
    requires has { HaveColumns aggs.now }
    requires found { agg_absence input.now aggs.now ≡ None }
    requires fits { agg_misfit input.now aggs.now ≡ None }
    ensures each { IfOk result (λ parts. All (IsPart input.now 0) parts.items) }
    ensures reducers { IfOk result (λ parts. map reducer_in parts.items ≡ map (reducer_of input.now) aggs.now) }
    ensures kinds { IfOk result (λ parts. map (λ part. part.kind) parts.items ≡ kinds_of (map (agg_field input.now) aggs.now)) }
    ensures out_of_memory { IsOkUnless result Fault.OutOfMemory }
{
    let mut parts = Vec::new(alloc);
    for i in 0..aggs.len() {
        parts.push(blank_part(alloc, input, &aggs[i], columns[i]))?;
    }
    Ok(parts)
}

/// What a reduction has of no groups.
fn blank_part(alloc: Global, input: &Schema, agg: &Agg, column: Option<usize>) -> AggStates
    requires column { column ≡ option_map (column_place input.now) agg.now.column }
    requires has { HasItsColumn agg.now.op agg.now.column }
    requires found { absence_of_agg input.now agg.now.column ≡ None }
    requires fits { misfit_of_agg input.now agg.now.op agg.now.column ≡ None }
    ensures part { IsPart input.now 0 result }
    ensures reducer { reducer_in result ≡ reducer_of input.now agg.now }
    ensures kind { result.kind ≡ (agg_field input.now agg.now).kind }
{
    let op = agg.op;
    let kind = kind_in(input, column);
    AggStates {
        column,
        kind: reduced_kind(op, kind),
        states: States::new(alloc, op, kind),
    }
}
