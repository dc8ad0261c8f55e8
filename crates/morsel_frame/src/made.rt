//! Columns that are made: of numbers that rise, of one text, of gathered rows.
ghost use Rattle.std.specs.Prelude.{◌≡◌, ◌+◌, ◌<◌, ◌≤◌, ◌^◌, ◌++◌, ◌∷◌, [], length, map, replicate, IfOk, OnOk, OnErr, IsOkUnless, vec_len, vec_capacity};
ghost use Rattle.morsel_frame.specs.Made.{counted, column_picks};

use crate::packed::append_vec;
use crate::{Column, Texts};
use morsel_meaning::{ColType, Fault, Value};
use std::alloc::Global;

/// The column of so many numbers, from `first` on.
pub fn counted_column(alloc: Global, first: u32, len: usize) -> Result<Column, Fault>
    requires { first + len < 2 ^ 32 }
    ensures ok { IfOk result (λ column. column ≡ record { kind = ColType.Int; values = map Value.Int (counted first len) }) }
    ensures out_of_memory { IsOkUnless result Fault.OutOfMemory }
{
    let mut numbers = Vec::with_capacity(alloc, len)?;
    push_counted(&mut numbers, first, len);
    Ok(Column::from_ints(vec![in alloc; true; len]?, numbers))
}

/// Puts so many numbers last, from `first` on, where there is room for them.
#[tactic(auto, using(crate::proofs::BesideLemmas::counted_push))]
fn push_counted(numbers: &mut Vec<i64>, first: u32, len: usize)
    requires fit { first + len < 2 ^ 32 }
    requires room { vec_len numbers.old + len ≤ vec_capacity numbers.old }
    ensures { numbers.new.items ≡ numbers.old.items ++ counted first len }
{
    for i in 0..len {
        numbers.push((first as usize + i) as i64).unwrap();
    }
}

/// The column of one text, so often.
pub fn repeated_text(alloc: Global, text: &str, len: usize) -> Result<Column, Fault>
    ensures ok { IfOk result (λ column. column ≡ record { kind = ColType.Text; values = replicate len (Value.Text text.now) }) }
    ensures out_of_memory { IsOkUnless result Fault.OutOfMemory }
{
    let texts = copies_of(alloc, text, len)?;
    Ok(Column::from_texts(vec![in alloc; true; len]?, texts))
}

/// One text, so often.
#[tactic(auto, using(std::proofs::lemmas::List::replicate_more))]
fn copies_of(alloc: Global, text: &str, len: usize) -> Result<Texts, Fault>
    ensures ok { IfOk result (λ texts. texts ≡ replicate len text.now) }
    ensures out_of_memory { IsOkUnless result Fault.OutOfMemory }
{
    let mut texts = Texts::new(alloc);
    for _ in 0..len {
        texts.push(text)?;
    }
    Ok(texts)
}

/// The rows of each column that have these numbers.
pub fn gather_each(alloc: Global, columns: &[Column], rows: &[usize]) -> Result<Vec<Column>, Fault>
    ensures ok { IfOk result (λ picked. picked.items ≡ map (column_picks rows.now) columns.now) }
    ensures out_of_memory { IsOkUnless result Fault.OutOfMemory }
{
    let mut picked = Vec::with_capacity(alloc, columns.len())?;
    for column in columns {
        picked.push(gather_one(alloc, column, rows)?)?;
    }
    Ok(picked)
}

/// The rows of a column that have these numbers.
fn gather_one(alloc: Global, column: &Column, rows: &[usize]) -> Result<Column, Fault>
    ensures ok { IfOk result (λ picked. picked ≡ column_picks rows.now column.now) }
    ensures out_of_memory { IsOkUnless result Fault.OutOfMemory }
{
    let mut picked = Column::new(alloc, column.kind());
    picked.append_picks(column, rows)?;
    Ok(picked)
}

/// The columns after a first one.
pub fn with_first(alloc: Global, first: Column, columns: Vec<Column>) -> Result<Vec<Column>, Fault>
    ensures ok { IfOk result (λ all. all.items ≡ first ∷ columns.items) }
    ensures out_of_memory { IsOkUnless result Fault.OutOfMemory }
{
    let mut all = Vec::new(alloc);
    all.push(first)?;
    append_vec(&mut all, columns)?;
    Ok(all)
}
