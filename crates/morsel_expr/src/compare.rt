//! Whole columns compared: one pass over the packed values of one or two columns.
ghost use Rattle.std.specs.Prelude.{◌≡◌, true, not, if◌then◌else◌, Some, length, map, replicate, IfOk, IsOkUnless};
ghost use Rattle.std.specs.List.{zip};
ghost use Rattle.morsel_frame.specs.Columns.{masked};
ghost use Rattle.morsel_expr.specs.Truths.{certain};
ghost use Rattle.morsel_expr.specs.Predicates.{is_null, asserted, compared, compared_pairs};
ghost use Rattle.morsel_expr.specs.Flaws.{kinds_fit, kind_of_value};

use crate::order_truths::{
    Item, OrderTruths, answer_item_pairs, answer_items, answer_text_pairs, answer_texts,
};
use crate::{CmpOp, Truth};
use morsel_frame::{Column, Texts};
use morsel_meaning::{ColType, Fault, Value};
use std::alloc::Global;

/// A column compared with a value.
pub fn compare_with(
    alloc: Global,
    column: &Column,
    op: CmpOp,
    value: &Value,
) -> Result<Vec<Truth>, Fault>
    requires { kinds_fit (Some column.now.kind) (kind_of_value value.now) ≡ true }
    ensures ok { IfOk result (λ truths. truths.items ≡ map (λ v. compared op v value.now) column.now.values) }
    ensures out_of_memory { IsOkUnless result Fault.OutOfMemory }
{
    match value {
        Value::Null => Ok(vec![in alloc; Truth::Unknown; column.len()]?),
        Value::Int(number) => match column.ints() {
            Some((valid, numbers)) => items_with(alloc, valid, numbers, op, *number),
            None => unreachable!(),
        },
        Value::Bool(flag) => match column.bools() {
            Some((valid, flags)) => items_with(alloc, valid, flags, op, *flag),
            None => unreachable!(),
        },
        Value::Text(text) => match column.texts() {
            Some((valid, texts)) => texts_with(alloc, valid, texts, op, text.as_str()),
            None => unreachable!(),
        },
    }
}

/// Two columns of one type compared, row by row.
pub fn compare_columns(
    alloc: Global,
    column: &Column,
    op: CmpOp,
    other: &Column,
) -> Result<Vec<Truth>, Fault>
    requires same_kind { column.now.kind ≡ other.now.kind }
    requires same_len { length column.now.values ≡ length other.now.values }
    ensures ok { IfOk result (λ truths. truths.items ≡ compared_pairs op column.now.values other.now.values) }
    ensures out_of_memory { IsOkUnless result Fault.OutOfMemory }
{
    match (column.ints(), other.ints()) {
        (Some((valid, numbers)), Some((other_valid, others))) => {
            return items_with_items(alloc, valid, numbers, op, other_valid, others);
        }
        _ => (),
    }
    match (column.bools(), other.bools()) {
        (Some((valid, flags)), Some((other_valid, others))) => {
            return items_with_items(alloc, valid, flags, op, other_valid, others);
        }
        _ => (),
    }
    match (column.texts(), other.texts()) {
        (Some((valid, texts)), Some((other_valid, others))) => {
            texts_with_texts(alloc, valid, texts, op, other_valid, others)
        }
        _ => unreachable!(),
    }
}

/// Whether a column has a null, row by row.
pub fn nulls(alloc: Global, column: &Column) -> Result<Vec<Truth>, Fault>
    ensures ok { IfOk result (λ truths. truths.items ≡ map (λ v. certain (is_null v)) column.now.values) }
    ensures out_of_memory { IsOkUnless result Fault.OutOfMemory }
{
    unmarked(alloc, marks(column))
}

/// Whether a column has a value, row by row.
pub fn values(alloc: Global, column: &Column) -> Result<Vec<Truth>, Fault>
    ensures ok { IfOk result (λ truths. truths.items ≡ map (λ v. certain (not (is_null v))) column.now.values) }
    ensures out_of_memory { IsOkUnless result Fault.OutOfMemory }
{
    marked(alloc, marks(column))
}

/// A column of truth values as truths.
pub fn asserted_flags(alloc: Global, column: &Column) -> Result<Vec<Truth>, Fault>
    requires { column.now.kind ≡ ColType.Bool }
    ensures ok { IfOk result (λ truths. truths.items ≡ map asserted column.now.values) }
    ensures out_of_memory { IsOkUnless result Fault.OutOfMemory }
{
    match column.bools() {
        Some((valid, flags)) => certain_flags(alloc, valid, flags),
        None => unreachable!(),
    }
}

/// Where a mark is missing.
fn unmarked(alloc: Global, valid: &[bool]) -> Result<Vec<Truth>, Fault>
    ensures ok { IfOk result (λ truths. truths.items ≡ map (λ mark. certain (not mark)) valid.now) }
    ensures out_of_memory { IsOkUnless result Fault.OutOfMemory }
{
    Ok(
        valid
            .iter()
            .map(|mark| Truth::certain(!*mark))
            .collect(alloc)?,
    )
}

/// Where there is a mark.
fn marked(alloc: Global, valid: &[bool]) -> Result<Vec<Truth>, Fault>
    ensures ok { IfOk result (λ truths. truths.items ≡ map certain valid.now) }
    ensures out_of_memory { IsOkUnless result Fault.OutOfMemory }
{
    Ok(
        valid
            .iter()
            .map(|mark| Truth::certain(*mark))
            .collect(alloc)?,
    )
}

/// The flags, and unknown where there is no mark.
fn certain_flags(alloc: Global, valid: &[bool], flags: &[bool]) -> Result<Vec<Truth>, Fault>
    ensures ok { IfOk result (λ truths. truths.items ≡ map (λ pair. if pair.0 then certain pair.1 else Truth.Unknown) (zip valid.now flags.now)) }
    ensures out_of_memory { IsOkUnless result Fault.OutOfMemory }
{
    Ok(
        valid
            .iter()
            .zip(flags)
            .map(|(mark, flag)| Truth::certain(*flag).where_valid(*mark))
            .collect(alloc)?,
    )
}

/// Which values of a column are no nulls.
fn marks(column: &Column) -> &[bool]
    ensures { map (λ v. not (is_null v)) column.now.values ≡ result.now }
{
    if let Some((valid, _)) = column.ints() {
        return valid;
    }
    if let Some((valid, _)) = column.bools() {
        return valid;
    }
    match column.texts() {
        Some((valid, _)) => valid,
        None => unreachable!(),
    }
}

/// Numbers or truth values compared with one.
fn items_with<T: Item>(
    alloc: Global,
    valid: &[bool],
    items: &[T],
    op: CmpOp,
    by: T,
) -> Result<Vec<Truth>, Fault>
    ensures ok { IfOk result (λ truths. truths.items ≡ map (λ v. compared op v (T.value by)) (masked valid.now (map T.value items.now))) }
    ensures out_of_memory { IsOkUnless result Fault.OutOfMemory }
{
    answer_items(alloc, valid, items, by, OrderTruths::of(op))
}

/// Numbers or truth values compared with others.
fn items_with_items<T: Item>(
    alloc: Global,
    valid: &[bool],
    items: &[T],
    op: CmpOp,
    other_valid: &[bool],
    others: &[T],
) -> Result<Vec<Truth>, Fault>
    ensures ok { IfOk result (λ truths. truths.items ≡ compared_pairs op (masked valid.now (map T.value items.now)) (masked other_valid.now (map T.value others.now))) }
    ensures out_of_memory { IsOkUnless result Fault.OutOfMemory }
{
    answer_item_pairs(
        alloc,
        valid,
        items,
        other_valid,
        others,
        OrderTruths::of(op),
    )
}

/// Texts compared with one.
fn texts_with(
    alloc: Global,
    valid: &[bool],
    texts: &Texts,
    op: CmpOp,
    by: &str,
) -> Result<Vec<Truth>, Fault>
    requires { length texts.now ≡ length valid.now }
    ensures ok { IfOk result (λ truths. truths.items ≡ map (λ v. compared op v (Value.Text by.now)) (masked valid.now (map Value.Text texts.now))) }
    ensures out_of_memory { IsOkUnless result Fault.OutOfMemory }
{
    answer_texts(alloc, valid, texts, by, OrderTruths::of(op))
}

/// Texts compared with others.
fn texts_with_texts(
    alloc: Global,
    valid: &[bool],
    texts: &Texts,
    op: CmpOp,
    other_valid: &[bool],
    others: &Texts,
) -> Result<Vec<Truth>, Fault>
    requires len { length texts.now ≡ length valid.now }
    requires other_valid_len { length other_valid.now ≡ length valid.now }
    requires other_len { length others.now ≡ length valid.now }
    ensures ok { IfOk result (λ truths. truths.items ≡ compared_pairs op (masked valid.now (map Value.Text texts.now)) (masked other_valid.now (map Value.Text others.now))) }
    ensures out_of_memory { IsOkUnless result Fault.OutOfMemory }
{
    answer_text_pairs(
        alloc,
        valid,
        texts,
        other_valid,
        others,
        OrderTruths::of(op),
    )
}
