//! Whether a predicate fits a schema.
ghost use Rattle.std.specs.Prelude.{◌≡◌, Some, IfOk};
ghost use Rattle.morsel_frame.specs.Refusals.{Refuses, first_fault};
ghost use Rattle.morsel_expr.specs.Flaws.{flaw, first_absence, first_misfit, absence, absence_of_side, misfit, kind_under, kind_of_value, kind_of_side, kinds_fit};

use crate::{PredNode, Rhs};
use morsel_frame::Schema;
use morsel_meaning::{ColType, Fault, Name, Value};
use std::alloc::Global;

/// Refuses a tree by its first flaw over a schema: an absent name anywhere, and then types that differ.
pub fn check_node(alloc: Global, node: &PredNode, schema: &Schema) -> Result<(), Fault>
    ensures { Refuses (flaw schema.now node.now) result }
{
    check_names(alloc, node, schema)?;
    check_types(alloc, node, schema)
}

/// Refuses the first name of a tree that no column has.
fn check_names(alloc: Global, node: &PredNode, schema: &Schema) -> Result<(), Fault>
    ensures { Refuses (first_absence schema.now node.now) result }
{
    match node {
        PredNode::And(a, b) => {
            check_names(alloc, a, schema)?;
            check_names(alloc, b, schema)
        }
        PredNode::Or(a, b) => {
            check_names(alloc, a, schema)?;
            check_names(alloc, b, schema)
        }
        PredNode::Not(a) => check_names(alloc, a, schema),
        PredNode::IsNull(name) => check_name(alloc, name, schema),
        PredNode::NotNull(name) => check_name(alloc, name, schema),
        PredNode::Is(name) => check_name(alloc, name, schema),
        PredNode::Cmp(_, name, rhs) => check_both_names(alloc, name, rhs, schema),
    }
}

/// Refuses the first column of a tree that is of another type than is wanted. An absent name is of every type.
fn check_types(alloc: Global, node: &PredNode, schema: &Schema) -> Result<(), Fault>
    ensures { Refuses (first_misfit schema.now node.now) result }
{
    match node {
        PredNode::And(a, b) => {
            check_types(alloc, a, schema)?;
            check_types(alloc, b, schema)
        }
        PredNode::Or(a, b) => {
            check_types(alloc, a, schema)?;
            check_types(alloc, b, schema)
        }
        PredNode::Not(a) => check_types(alloc, a, schema),
        PredNode::IsNull(_) => Ok(()),
        PredNode::NotNull(_) => Ok(()),
        PredNode::Is(name) => check_kind(alloc, name, Some(ColType::Bool), schema),
        PredNode::Cmp(_, name, rhs) => check_sides(alloc, name, rhs, schema),
    }
}

/// Refuses a comparison of an absent name, the column's before the other side's.
fn check_both_names(alloc: Global, name: &Name, rhs: &Rhs, schema: &Schema) -> Result<(), Fault>
    ensures { Refuses (first_fault (absence schema.now name.now) (absence_of_side schema.now rhs.now)) result }
{
    check_name(alloc, name, schema)?;
    match rhs {
        Rhs::Col(other) => check_name(alloc, other, schema),
        Rhs::Lit(_) => Ok(()),
    }
}

/// Refuses a comparison of two types, by the first column's name.
fn check_sides(alloc: Global, name: &Name, rhs: &Rhs, schema: &Schema) -> Result<(), Fault>
    ensures { Refuses (misfit schema.now name.now (kind_of_side schema.now rhs.now)) result }
{
    match rhs {
        Rhs::Col(other) => check_kind(alloc, name, kind_of(other, schema), schema),
        Rhs::Lit(value) => check_kind(alloc, name, kind_of_literal(value), schema),
    }
}

/// Refuses a name that no column has.
fn check_name(alloc: Global, name: &Name, schema: &Schema) -> Result<(), Fault>
    ensures { Refuses (absence schema.now name.now) result }
{
    if schema.find(name.as_str()).is_none() {
        return Err(Fault::ColumnNotFound {
            name: Name::new(alloc, name.as_str())?,
        });
    }
    Ok(())
}

/// Refuses a column of another type than is wanted.
fn check_kind(
    alloc: Global,
    name: &Name,
    wanted: Option<ColType>,
    schema: &Schema,
) -> Result<(), Fault>
    ensures { Refuses (misfit schema.now name.now wanted) result }
{
    if !fits(kind_of(name, schema), wanted) {
        return Err(Fault::SchemaMismatch {
            name: Name::new(alloc, name.as_str())?,
        });
    }
    Ok(())
}

/// The type of the column of this name.
fn kind_of(name: &Name, schema: &Schema) -> Option<ColType>
    ensures { result ≡ kind_under schema.now name.now }
{
    match schema.find(name.as_str()) {
        Some(at) => Some(schema.field(at).kind),
        None => None,
    }
}

/// The type of a value, and none of a null.
fn kind_of_literal(value: &Value) -> Option<ColType>
    ensures { result ≡ kind_of_value value.now }
{
    match value {
        Value::Null => None,
        Value::Int(_) => Some(ColType::Int),
        Value::Bool(_) => Some(ColType::Bool),
        Value::Text(_) => Some(ColType::Text),
    }
}

/// Whether two types are the same, where both are told.
fn fits(kind: Option<ColType>, wanted: Option<ColType>) -> bool
    ensures { result ≡ kinds_fit kind wanted }
{
    match (kind, wanted) {
        (Some(kind), Some(wanted)) => kind == wanted,
        _ => true,
    }
}
