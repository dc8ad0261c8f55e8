//! The values of a column without their marks, packed by type.
ghost use Rattle.std.specs.Prelude.{◌≡◌, ◌+◌, ◌≤◌, ◌++◌, ◌∷◌, [], ◌<◌, length, map, take, get_or, OnOk, OnErr, IsOkUnless, slice_range, vec_len, vec_capacity, ◌-◌, replicate, IfOk};
ghost use Rattle.morsel_meaning.specs.Values.{IsOfType};
ghost use Rattle.morsel_frame.specs.Cells.{value_of};
ghost use Rattle.morsel_frame.specs.Packing.{stored, kind_of, blank_of, kept_of};

use crate::cell::{flag_of, number_of, text_of};
use crate::gathers::{gather_slice, gather_texts};
use crate::row_number::RowNumber;
use crate::{Cell, Texts};
use morsel_meaning::{ColType, Fault, Value};
use std::alloc::Global;

/// Values of one type, none of them null.
#[derive(Debug, Drop)]
pub enum Packed {
    Int(Vec<i64>),
    Bool(Vec<bool>),
    Text(Texts),
}

impl Packed {
    /// No values.
    pub fn new(alloc: Global, kind: ColType) -> Packed
        ensures kind { kind_of result ≡ kind }
        ensures items { stored result ≡ [] }
    {
        match kind {
            ColType::Int => Packed::Int(Vec::new(alloc)),
            ColType::Bool => Packed::Bool(Vec::new(alloc)),
            ColType::Text => Packed::Text(Texts::new(alloc)),
        }
    }

    /// So many blanks.
    pub fn blank(alloc: Global, kind: ColType, len: usize) -> Result<Packed, Fault>
        ensures kind { IfOk result (λ packed. kind_of packed ≡ kind) }
        ensures items { IfOk result (λ packed. stored packed ≡ replicate len (blank_of kind)) }
        ensures out_of_memory { IsOkUnless result Fault.OutOfMemory }
    {
        match kind {
            ColType::Int => Ok(Packed::Int(vec![in alloc; 0; len]?)),
            ColType::Bool => Ok(Packed::Bool(vec![in alloc; false; len]?)),
            ColType::Text => Ok(Packed::Text(Texts::blank(alloc, len)?)),
        }
    }

    /// The type of the values.
    pub fn kind(&self) -> ColType
        ensures { result ≡ kind_of self.now }
    {
        match self {
            Packed::Int(_) => ColType::Int,
            Packed::Bool(_) => ColType::Bool,
            Packed::Text(_) => ColType::Text,
        }
    }

    /// The value at this place.
    pub fn get(&self, at: usize) -> Cell<'_>
        requires { at < length (stored self.now) }
        ensures { value_of result ≡ get_or (stored self.now) at Value.Null }
    {
        match self {
            Packed::Int(numbers) => Cell::Int(numbers[at]),
            Packed::Bool(flags) => Cell::Bool(flags[at]),
            Packed::Text(texts) => Cell::Text(texts.get(at)),
        }
    }

    /// Puts a cell's value last, and a blank for a null.
    #[inline(always)]
    pub fn push(&mut self, cell: Cell<'_>) -> Result<(), Fault>
        requires { IsOfType (kind_of self.old) (value_of cell) }
        ensures kind { kind_of self.new ≡ kind_of self.old }
        ensures items { OnOk result (stored self.new ≡ stored self.old ++ kept_of (kind_of self.old) (value_of cell.entry) ∷ []) }
        ensures err { OnErr result (stored self.new ≡ stored self.old) }
        ensures out_of_memory { IsOkUnless result Fault.OutOfMemory }
    {
        match self {
            Packed::Int(numbers) => numbers.push(number_of(cell))?,
            Packed::Bool(flags) => flags.push(flag_of(cell))?,
            Packed::Text(texts) => texts.push(text_of(cell))?,
        }
        Ok(())
    }

    /// Drops the values from place `len` on.
    pub fn truncate(&mut self, len: usize)
        ensures kind { kind_of self.new ≡ kind_of self.old }
        ensures items { stored self.new ≡ take len (stored self.old) }
    {
        match self {
            Packed::Int(numbers) => numbers.truncate(len),
            Packed::Bool(flags) => flags.truncate(len),
            Packed::Text(texts) => texts.truncate(len),
        }
    }

    /// Puts the other's values from place `from` to place `to` last.
    pub fn append_range(&mut self, other: &Packed, from: usize, to: usize) -> Result<(), Fault>
        requires same_kind { kind_of other.now ≡ kind_of self.old }
        requires in_order { from ≤ to }
        requires within { to ≤ length (stored other.now) }
        ensures kind { kind_of self.new ≡ kind_of self.old }
        ensures items { OnOk result (stored self.new ≡ stored self.old ++ slice_range (stored other.now) from to) }
        ensures err { OnErr result (stored self.new ≡ stored self.old) }
        ensures out_of_memory { IsOkUnless result Fault.OutOfMemory }
    {
        match (self, other) {
            (Packed::Int(numbers), Packed::Int(others)) => append_slice(numbers, others, from, to),
            (Packed::Bool(flags), Packed::Bool(others)) => append_slice(flags, others, from, to),
            (Packed::Text(texts), Packed::Text(others)) => texts.append(others, from, to),
            _ => unreachable!(),
        }
    }

    /// Puts the other's values with these row numbers last, and a blank for each row from `limit` on.
    pub fn append_gather<R: RowNumber>(
        &mut self,
        other: &Packed,
        limit: usize,
        rows: &[R],
    ) -> Result<(), Fault>
        requires same_kind { kind_of other.now ≡ kind_of self.old }
        requires within { limit ≤ length (stored other.now) }
        ensures kind { kind_of self.new ≡ kind_of self.old }
        ensures items { OnOk result (stored self.new ≡ stored self.old ++ map (λ row. get_or (take limit (stored other.now)) (R.place row) (blank_of (kind_of other.now))) rows.now) }
        ensures err { OnErr result (stored self.new ≡ stored self.old) }
        ensures out_of_memory { IsOkUnless result Fault.OutOfMemory }
    {
        match (self, other) {
            (Packed::Int(numbers), Packed::Int(others)) => gather_slice(
                numbers, others, limit, rows, 0,
            ),
            (Packed::Bool(flags), Packed::Bool(others)) => gather_slice(
                flags, others, limit, rows, false,
            ),
            (Packed::Text(texts), Packed::Text(others)) => gather_texts(texts, others, limit, rows),
            _ => unreachable!(),
        }
    }
}

/// Puts the other's items from place `from` to place `to` last.
pub fn append_slice<T: Copy>(
    items: &mut Vec<T>,
    others: &Vec<T>,
    from: usize,
    to: usize,
) -> Result<(), Fault>
    requires in_order { from ≤ to }
    requires within { to ≤ vec_len others.now }
    ensures ok { OnOk result (items.new.items ≡ items.old.items ++ slice_range others.now.items from to) }
    ensures err { OnErr result (items.new.items ≡ items.old.items) }
    ensures full { OnErr result (vec_capacity items.old < vec_len items.old + (to - from)) }
    ensures out_of_memory { IsOkUnless result Fault.OutOfMemory }
{
    items.extend_from_slice(&others[from..to])?;
    Ok(())
}

/// Moves the other's items to the end of these.
pub fn append_vec<T: Drop>(items: &mut Vec<T>, more: Vec<T>) -> Result<(), Fault>
    ensures ok { OnOk result (items.new.items ≡ items.old.items ++ more.items) }
    ensures out_of_memory { IsOkUnless result Fault.OutOfMemory }
{
    for item in more {
        items.push(item)?;
    }
    Ok(())
}
