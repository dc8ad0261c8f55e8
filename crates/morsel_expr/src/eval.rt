//! What a predicate says of each row of a frame, one node after another over whole columns.
ghost use Rattle.std.specs.Prelude.{◌≡◌, true, None, Some, length, map, is_some, IfOk, IsOkUnless};
ghost use Rattle.std.specs.List.{zip};
ghost use Rattle.morsel_expr.specs.Truths.{least, greatest, mirror};
ghost use Rattle.morsel_expr.specs.Predicates.{place_of, value_under, side, compared, truth};
ghost use Rattle.morsel_expr.specs.Flaws.{first_absence, first_misfit, absence, absence_of_side, misfit, kind_under, kind_of_side};

use crate::compare::{asserted_flags, compare_columns, compare_with, nulls, values};
use crate::{CmpOp, PredNode, Rhs, Truth};
use morsel_frame::{Column, Frame};
use morsel_meaning::{Fault, Name};
use std::alloc::Global;

/// What a tree says of each row.
pub fn eval_node(alloc: Global, node: &PredNode, frame: &Frame) -> Result<Vec<Truth>, Fault>
    requires names { first_absence frame.now.schema node.now ≡ None }
    requires types { first_misfit frame.now.schema node.now ≡ None }
    ensures ok { IfOk result (λ truths. truths.items ≡ map (truth frame.now.schema node.now) frame.now.rows) }
    ensures out_of_memory { IsOkUnless result Fault.OutOfMemory }
{
    match node {
        PredNode::And(a, b) => {
            let first = eval_node(alloc, a, frame)?;
            let second = eval_node(alloc, b, frame)?;
            both(alloc, &first, &second)
        }
        PredNode::Or(a, b) => {
            let first = eval_node(alloc, a, frame)?;
            let second = eval_node(alloc, b, frame)?;
            either(alloc, &first, &second)
        }
        PredNode::Not(a) => {
            let truths = eval_node(alloc, a, frame)?;
            mirrored(alloc, &truths)
        }
        PredNode::IsNull(name) => nulls(alloc, column_of(frame, name)),
        PredNode::NotNull(name) => values(alloc, column_of(frame, name)),
        PredNode::Is(name) => asserted_flags(alloc, column_of(frame, name)),
        PredNode::Cmp(op, name, rhs) => eval_sides(alloc, frame, *op, name, rhs),
    }
}

/// What a comparison says of each row.
fn eval_sides(
    alloc: Global,
    frame: &Frame,
    op: CmpOp,
    name: &Name,
    rhs: &Rhs,
) -> Result<Vec<Truth>, Fault>
    requires name { absence frame.now.schema name.now ≡ None }
    requires other { absence_of_side frame.now.schema rhs.now ≡ None }
    requires types { misfit frame.now.schema name.now (kind_of_side frame.now.schema rhs.now) ≡ None }
    ensures ok { IfOk result (λ truths. truths.items ≡ map (λ row. compared op (value_under frame.now.schema name.now row) (side frame.now.schema rhs.now row)) frame.now.rows) }
    ensures out_of_memory { IsOkUnless result Fault.OutOfMemory }
{
    let column = column_of(frame, name);
    match rhs {
        Rhs::Col(other) => compare_columns(alloc, column, op, column_of(frame, other)),
        Rhs::Lit(value) => compare_with(alloc, column, op, value),
    }
}

/// The column of this name.
fn column_of<'a>(frame: &'a Frame, name: &Name) -> &'a Column
    requires { absence frame.now.schema name.now ≡ None }
    ensures kind { kind_under frame.now.schema name.now ≡ Some result.now.kind }
    ensures values { result.now.values ≡ map (value_under frame.now.schema name.now) frame.now.rows }
{
    match frame.schema().find(name.as_str()) {
        Some(at) => frame.column(at),
        None => unreachable!(),
    }
}

/// The lesser of two truths, row by row.
fn both(alloc: Global, first: &[Truth], second: &[Truth]) -> Result<Vec<Truth>, Fault>
    ensures ok { IfOk result (λ truths. truths.items ≡ map (λ pair. least pair.0 pair.1) (zip first.now second.now)) }
    ensures out_of_memory { IsOkUnless result Fault.OutOfMemory }
{
    Ok(
        first
            .iter()
            .zip(second)
            .map(|(a, b)| a.and(*b))
            .collect(alloc)?,
    )
}

/// The greater of two truths, row by row.
fn either(alloc: Global, first: &[Truth], second: &[Truth]) -> Result<Vec<Truth>, Fault>
    ensures ok { IfOk result (λ truths. truths.items ≡ map (λ pair. greatest pair.0 pair.1) (zip first.now second.now)) }
    ensures out_of_memory { IsOkUnless result Fault.OutOfMemory }
{
    Ok(
        first
            .iter()
            .zip(second)
            .map(|(a, b)| a.or(*b))
            .collect(alloc)?,
    )
}

/// False and true exchanged, row by row.
fn mirrored(alloc: Global, truths: &[Truth]) -> Result<Vec<Truth>, Fault>
    ensures ok { IfOk result (λ mirrored. mirrored.items ≡ map mirror truths.now) }
    ensures out_of_memory { IsOkUnless result Fault.OutOfMemory }
{
    Ok(truths.iter().map(|truth| truth.not()).collect(alloc)?)
}
