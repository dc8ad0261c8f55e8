//! Which columns of its files a scan uses, and which of those it keeps.
ghost use Rattle.std.specs.Prelude.{◌≡◌, ◌++◌, ◌||◌, length, map, IfOk, OnOk, IsOkUnless};
ghost use Rattle.morsel_frame.specs.Names.{stands_in};
ghost use Rattle.morsel_grammar.specs.Reading.{chosen};
ghost use Rattle.morsel_scan.specs.ScanColumns.{names_in, names_in_side, filter_names, is_kept, kept_columns, used_columns, index_fields, path_fields};
ghost use Rattle.morsel_scan.specs.Decoding.{all_of, step_mask, true_places};

use crate::{FileScanOptions, RowIndex};
use morsel_expr::{Pred, PredNode, Rhs};
use morsel_frame::Schema;
use morsel_meaning::{Fault, Name};
use std::alloc::Global;

/// Whether the name is one of these.
fn stands_in(columns: &[Name], name: &str) -> bool
    ensures { result ≡ stands_in name.now columns.now }
{
    columns.iter().any(|column| column.as_str() == name)
}

/// Whether the column of this name is kept.
fn is_kept(columns: &[Name], name: &str) -> bool
    ensures { result ≡ is_kept columns.now name.now }
{
    columns.is_empty() || stands_in(columns, name)
}

/// Whether the second side of a comparison is the column of this name.
fn side_speaks_of(rhs: &Rhs, name: &str) -> bool
    ensures { result ≡ stands_in name.now (names_in_side rhs.now) }
{
    match rhs {
        Rhs::Col(column) => column.as_str() == name,
        Rhs::Lit(_) => false,
    }
}

/// Whether a predicate speaks of the column of this name.
fn speaks_of(node: &PredNode, name: &str) -> bool
    ensures { result ≡ stands_in name.now (names_in node.now) }
{
    match node {
        PredNode::And(a, b) => speaks_of(a, name) || speaks_of(b, name),
        PredNode::Or(a, b) => speaks_of(a, name) || speaks_of(b, name),
        PredNode::Not(a) => speaks_of(a, name),
        PredNode::IsNull(column) => column.as_str() == name,
        PredNode::NotNull(column) => column.as_str() == name,
        PredNode::Is(column) => column.as_str() == name,
        PredNode::Cmp(_, column, rhs) => column.as_str() == name || side_speaks_of(rhs, name),
    }
}

/// Whether the filter, where there is one, speaks of the column of this name.
fn filter_speaks_of(filter: &Option<Pred>, name: &str) -> bool
    ensures { result ≡ stands_in name.now (filter_names filter.now) }
{
    match filter {
        Some(pred) => speaks_of(pred.node(), name),
        None => false,
    }
}

/// Which columns of the files are used.
pub fn used_columns(
    alloc: Global,
    schema: &Schema,
    asked: &FileScanOptions,
    filter: &Option<Pred>,
) -> Result<Vec<bool>, Fault>
    ensures ok { IfOk result (λ used. used.items ≡ used_columns (record { fields = schema.now; asked = asked.now; filter = filter.now })) }
    ensures out_of_memory { IsOkUnless result Fault.OutOfMemory }
{
    let columns = asked.columns.as_slice();
    let fields = schema.fields();
    let mut used = Vec::new(alloc);
    for field in fields {
        let name = field.name.as_str();
        used.push(is_kept(columns, name) || filter_speaks_of(filter, name))?;
    }
    Ok(used)
}

/// Which columns of the files are kept.
fn kept_columns(alloc: Global, schema: &Schema, columns: &[Name]) -> Result<Vec<bool>, Fault>
    ensures ok { IfOk result (λ kept. kept.items ≡ map (λ field. is_kept columns.now field.name) schema.now) }
    ensures out_of_memory { IsOkUnless result Fault.OutOfMemory }
{
    let fields = schema.fields();
    let mut kept = Vec::new(alloc);
    for field in fields {
        kept.push(is_kept(columns, field.name.as_str()))?;
    }
    Ok(kept)
}

/// Puts those marks last that belong to used columns.
fn push_chosen(mask: &mut Vec<bool>, used: &[bool], marks: &[bool]) -> Result<(), Fault>
    requires { length used.now ≡ length marks.now }
    ensures ok { OnOk result (mask.new.items ≡ mask.old.items ++ chosen used.now marks.now) }
    ensures out_of_memory { IsOkUnless result Fault.OutOfMemory }
{
    for at in 0..used.len() {
        if !used[at] {
            continue;
        }
        mask.push(marks[at])?;
    }
    Ok(())
}

/// Marks the row index as kept, where there is one.
fn push_index_mark(mask: &mut Vec<bool>, index: &Option<RowIndex>) -> Result<(), Fault>
    ensures ok { OnOk result (mask.new.items ≡ mask.old.items ++ all_of (index_fields index.now)) }
    ensures out_of_memory { IsOkUnless result Fault.OutOfMemory }
{
    match index {
        Some(_) => Ok(mask.push(true)?),
        None => Ok(()),
    }
}

/// Marks the path as kept, where there is one.
fn push_path_mark(mask: &mut Vec<bool>, path: &Option<Name>) -> Result<(), Fault>
    ensures ok { OnOk result (mask.new.items ≡ mask.old.items ++ all_of (path_fields path.now)) }
    ensures out_of_memory { IsOkUnless result Fault.OutOfMemory }
{
    match path {
        Some(_) => Ok(mask.push(true)?),
        None => Ok(()),
    }
}

/// Which of the columns that a piece's rows are made of are kept: the row index, the used columns, the path.
fn step_mask(
    alloc: Global,
    schema: &Schema,
    asked: &FileScanOptions,
    used: &[bool],
) -> Result<Vec<bool>, Fault>
    requires { length used.now ≡ length schema.now }
    ensures ok { IfOk result (λ mask. mask.items ≡ all_of (index_fields asked.now.row_index)
        ++ (chosen used.now (map (λ field. is_kept asked.now.columns field.name) schema.now) ++ all_of (path_fields asked.now.path))) }
    ensures out_of_memory { IsOkUnless result Fault.OutOfMemory }
{
    let kept = kept_columns(alloc, schema, asked.columns.as_slice())?;
    let mut mask = Vec::new(alloc);
    push_index_mark(&mut mask, &asked.row_index)?;
    push_chosen(&mut mask, used, kept.as_slice())?;
    push_path_mark(&mut mask, &asked.path)?;
    Ok(mask)
}

/// The places where a mask is true.
fn places_of(alloc: Global, mask: &[bool]) -> Result<Vec<usize>, Fault>
    ensures ok { IfOk result (λ places. places.items ≡ true_places 0 mask.now) }
    ensures out_of_memory { IsOkUnless result Fault.OutOfMemory }
{
    let mut places = Vec::new(alloc);
    for at in 0..mask.len() {
        if !mask[at] {
            continue;
        }
        places.push(at)?;
    }
    Ok(places)
}

/// The places of the columns that are kept, among those that a piece's rows are made of.
pub fn kept_places(
    alloc: Global,
    schema: &Schema,
    asked: &FileScanOptions,
    used: &[bool],
) -> Result<Vec<usize>, Fault>
    requires { length used.now ≡ length schema.now }
    ensures ok { IfOk result (λ places. places.items ≡ true_places 0 (all_of (index_fields asked.now.row_index)
        ++ (chosen used.now (map (λ field. is_kept asked.now.columns field.name) schema.now) ++ all_of (path_fields asked.now.path)))) }
    ensures out_of_memory { IsOkUnless result Fault.OutOfMemory }
{
    let mask = step_mask(alloc, schema, asked, used)?;
    places_of(alloc, mask.as_slice())
}
