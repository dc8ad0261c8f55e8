//! Columns: values of one type, packed, each of which may be null.
ghost use Rattle.std.specs.Prelude.{◌≡◌, ◌↔◌, ◌+◌, ◌<◌, ◌≤◌, ◌++◌, [], ◌∷◌, length, map, take, replicate, get_or, slice_range, IfSome, IsNone, IfOk, OnOk, OnErr, IsOkUnless};
ghost use Rattle.morsel_meaning.specs.Values.{IsOfType};
ghost use Rattle.morsel_frame.specs.Cells.{value_of};
ghost use Rattle.morsel_frame.specs.Columns.{AreOfType, masked, value_at, value_or_null};

use crate::cell::{cell_of, has_value};
use crate::gathers::gather_slice;
use crate::packed::{Packed, append_slice};
use crate::row_number::RowNumber;
use crate::{Cell, Texts};
use morsel_meaning::{ColType, Fault, Value};
use std::alloc::Global;
use std::marker::Model;

/// Values of one type or null, from the first row on.
#[derive(Debug, Drop)]
pub struct Column {
    valid: Vec<bool>,
    packed: Packed,
}

impl Model for Column {
    ghost use Rattle.morsel_frame.specs.Columns.{Values};

    ghost Value = { Values };

    ghost use Rattle.morsel_frame.specs.Packing.{unpacked, IsPacked};

    ghost view = { λ column. unpacked column.packed column.valid.items };

    ghost invariant = { λ column. IsPacked column.packed column.valid.items };
}

impl Column {
    /// No values of this type.
    pub fn new(alloc: Global, kind: ColType) -> Column
        ensures { result ≡ record { kind = kind; values = [] } }
    {
        Column {
            valid: Vec::new(alloc),
            packed: Packed::new(alloc, kind),
        }
    }

    /// The type of the values.
    pub fn kind(&self) -> ColType
        ensures { result ≡ self.now.kind }
    {
        self.packed.kind()
    }

    /// How many values there are.
    pub fn len(&self) -> usize
        ensures len { result ≡ length self.now.values }
        ensures of_type { AreOfType self.now.kind self.now.values }
    {
        self.valid.len()
    }

    /// The value of a row.
    pub fn get(&self, row: usize) -> Cell<'_>
        requires { row < length self.now.values }
        ensures value { value_of result ≡ value_at self.now.values row }
        ensures of_type { IsOfType self.now.kind (value_of result) }
    {
        if self.valid[row] {
            self.packed.get(row)
        } else {
            Cell::Null
        }
    }

    /// Puts a value last.
    pub fn push(&mut self, value: Value) -> Result<(), Fault>
        requires { IsOfType self.old.kind value }
        ensures ok { OnOk result (self.new ≡ record self.old { values = self.old.values ++ value ∷ [] }) }
        ensures err { OnErr result (self.new ≡ self.old) }
        ensures out_of_memory { IsOkUnless result Fault.OutOfMemory }
    {
        self.push_cell(cell_of(&value))
    }

    /// Puts a number last.
    pub fn push_int(&mut self, number: i64) -> Result<(), Fault>
        requires { self.old.kind ≡ ColType.Int }
        ensures ok { OnOk result (self.new ≡ record self.old { values = self.old.values ++ Value.Int number ∷ [] }) }
        ensures err { OnErr result (self.new ≡ self.old) }
        ensures out_of_memory { IsOkUnless result Fault.OutOfMemory }
    {
        self.push_cell(Cell::Int(number))
    }

    /// Puts a truth value last.
    pub fn push_bool(&mut self, flag: bool) -> Result<(), Fault>
        requires { self.old.kind ≡ ColType.Bool }
        ensures ok { OnOk result (self.new ≡ record self.old { values = self.old.values ++ Value.Bool flag ∷ [] }) }
        ensures err { OnErr result (self.new ≡ self.old) }
        ensures out_of_memory { IsOkUnless result Fault.OutOfMemory }
    {
        self.push_cell(Cell::Bool(flag))
    }

    /// Puts a text last.
    pub fn push_text(&mut self, text: &str) -> Result<(), Fault>
        requires { self.old.kind ≡ ColType.Text }
        ensures ok { OnOk result (self.new ≡ record self.old { values = self.old.values ++ Value.Text text.now ∷ [] }) }
        ensures err { OnErr result (self.new ≡ self.old) }
        ensures out_of_memory { IsOkUnless result Fault.OutOfMemory }
    {
        self.push_cell(Cell::Text(text))
    }

    /// Puts a null last.
    pub fn push_null(&mut self) -> Result<(), Fault>
        ensures ok { OnOk result (self.new ≡ record self.old { values = self.old.values ++ Value.Null ∷ [] }) }
        ensures err { OnErr result (self.new ≡ self.old) }
        ensures out_of_memory { IsOkUnless result Fault.OutOfMemory }
    {
        self.push_cell(Cell::Null)
    }

    /// Puts a cell's value last.
    // Inlined, so that a caller who knows the kind of the cell does not have it tested.
    #[inline(always)]
    pub fn push_cell(&mut self, cell: Cell<'_>) -> Result<(), Fault>
        requires { IsOfType self.old.kind (value_of cell) }
        ensures ok { OnOk result (self.new ≡ record self.old { values = self.old.values ++ value_of cell.entry ∷ [] }) }
        ensures err { OnErr result (self.new ≡ self.old) }
        ensures out_of_memory { IsOkUnless result Fault.OutOfMemory }
    {
        self.valid.reserve(1)?;
        self.packed.push(cell)?;
        self.valid.push(has_value(cell))?;
        Ok(())
    }

    /// Drops the values from row `len` on.
    pub fn truncate(&mut self, len: usize)
        ensures { self.new ≡ record self.old { values = take len self.old.values } }
    {
        self.valid.truncate(len);
        self.packed.truncate(len);
    }

    /// Puts the other's values from row `from` to row `to` last.
    pub fn append_rows(&mut self, other: &Column, from: usize, to: usize) -> Result<(), Fault>
        requires same_kind { other.now.kind ≡ self.old.kind }
        requires in_order { from ≤ to }
        requires within { to ≤ length other.now.values }
        ensures ok { OnOk result (self.new ≡ record self.old { values = self.old.values ++ slice_range other.now.values from to }) }
        ensures err { OnErr result (self.new ≡ self.old) }
        ensures out_of_memory { IsOkUnless result Fault.OutOfMemory }
    {
        self.valid.reserve(to - from)?;
        self.packed.append_range(&other.packed, from, to)?;
        append_slice(&mut self.valid, &other.valid, from, to)?;
        Ok(())
    }

    /// Puts the other's values with these row numbers last. `u32::MAX`, and a number past the other's end, gives a null.
    pub fn append_gather(&mut self, other: &Column, rows: &[u32]) -> Result<(), Fault>
        requires { other.now.kind ≡ self.old.kind }
        ensures ok { OnOk result (self.new ≡ record self.old { values = self.old.values ++ map (value_or_null other.now.values) rows.now }) }
        ensures err { OnErr result (self.new ≡ self.old) }
        ensures out_of_memory { IsOkUnless result Fault.OutOfMemory }
    {
        let limit = other.len().min(u32::MAX as usize);
        self.gather_below(other, limit, rows)?;
        Ok(())
    }

    /// Puts the other's values with these row numbers last. A number past the other's end gives a null.
    pub fn append_picks(&mut self, other: &Column, rows: &[usize]) -> Result<(), Fault>
        requires { other.now.kind ≡ self.old.kind }
        ensures ok { OnOk result (self.new ≡ record self.old { values = self.old.values ++ map (value_at other.now.values) rows.now }) }
        ensures err { OnErr result (self.new ≡ self.old) }
        ensures out_of_memory { IsOkUnless result Fault.OutOfMemory }
    {
        let limit = other.len();
        self.gather_below(other, limit, rows)?;
        Ok(())
    }

    /// Puts the other's values with these row numbers last, and a null for each from `limit` on.
    fn gather_below<R: RowNumber>(
        &mut self,
        other: &Column,
        limit: usize,
        rows: &[R],
    ) -> Result<(), Fault>
        requires same_kind { other.now.kind ≡ self.old.kind }
        requires within { limit ≤ length other.now.values }
        ensures ok { OnOk result (self.new ≡ record self.old { values = self.old.values ++ map (λ row. value_at (take limit other.now.values) (R.place row)) rows.now }) }
        ensures err { OnErr result (self.new ≡ self.old) }
        ensures out_of_memory { IsOkUnless result Fault.OutOfMemory }
    {
        self.valid.reserve(rows.len())?;
        self.packed.append_gather(&other.packed, limit, rows)?;
        gather_slice(&mut self.valid, &other.valid, limit, rows, false)?;
        Ok(())
    }

    /// The numbers, and which of them are no nulls; `None` exactly where the type is another.
    pub fn ints(&self) -> Option<(&[bool], &[i64])>
        ensures other_kind { IsNone result ↔ ¬ (self.now.kind ≡ ColType.Int) }
        ensures values { IfSome result (λ parts. self.now.values ≡ masked parts.0.now (map Value.Int parts.1.now)) }
        ensures kind { IfSome result (λ parts. self.now.kind ≡ ColType.Int) }
        ensures valid_len { IfSome result (λ parts. length parts.0.now ≡ length self.now.values) }
        ensures len { IfSome result (λ parts. length parts.1.now ≡ length self.now.values) }
    {
        match &self.packed {
            Packed::Int(numbers) => Some((self.valid.as_slice(), numbers.as_slice())),
            _ => None,
        }
    }

    /// The truth values, and which of them are no nulls; `None` exactly where the type is another.
    pub fn bools(&self) -> Option<(&[bool], &[bool])>
        ensures other_kind { IsNone result ↔ ¬ (self.now.kind ≡ ColType.Bool) }
        ensures values { IfSome result (λ parts. self.now.values ≡ masked parts.0.now (map Value.Bool parts.1.now)) }
        ensures kind { IfSome result (λ parts. self.now.kind ≡ ColType.Bool) }
        ensures valid_len { IfSome result (λ parts. length parts.0.now ≡ length self.now.values) }
        ensures len { IfSome result (λ parts. length parts.1.now ≡ length self.now.values) }
    {
        match &self.packed {
            Packed::Bool(flags) => Some((self.valid.as_slice(), flags.as_slice())),
            _ => None,
        }
    }

    /// The texts, and which of them are no nulls; `None` exactly where the type is another.
    pub fn texts(&self) -> Option<(&[bool], &Texts)>
        ensures other_kind { IsNone result ↔ ¬ (self.now.kind ≡ ColType.Text) }
        ensures values { IfSome result (λ parts. self.now.values ≡ masked parts.0.now (map Value.Text parts.1.now)) }
        ensures kind { IfSome result (λ parts. self.now.kind ≡ ColType.Text) }
        ensures valid_len { IfSome result (λ parts. length parts.0.now ≡ length self.now.values) }
        ensures len { IfSome result (λ parts. length parts.1.now ≡ length self.now.values) }
    {
        match &self.packed {
            Packed::Text(texts) => Some((self.valid.as_slice(), texts)),
            _ => None,
        }
    }

    /// The column of these numbers, null where one is not valid.
    pub fn from_ints(valid: Vec<bool>, numbers: Vec<i64>) -> Column
        requires { length valid.items ≡ length numbers.items }
        ensures { result ≡ record { kind = ColType.Int; values = masked valid.items (map Value.Int numbers.items) } }
    {
        Column {
            valid,
            packed: Packed::Int(numbers),
        }
    }

    /// The column of these truth values, null where one is not valid.
    pub fn from_bools(valid: Vec<bool>, flags: Vec<bool>) -> Column
        requires { length valid.items ≡ length flags.items }
        ensures { result ≡ record { kind = ColType.Bool; values = masked valid.items (map Value.Bool flags.items) } }
    {
        Column {
            valid,
            packed: Packed::Bool(flags),
        }
    }

    /// The column of these texts, null where one is not valid.
    pub fn from_texts(valid: Vec<bool>, texts: Texts) -> Column
        requires { length valid.items ≡ length texts }
        ensures { result ≡ record { kind = ColType.Text; values = masked valid.items (map Value.Text texts) } }
    {
        Column {
            valid,
            packed: Packed::Text(texts),
        }
    }

    /// So many nulls of this type.
    pub fn full_null(alloc: Global, kind: ColType, len: usize) -> Result<Column, Fault>
        ensures ok { IfOk result (λ column. column ≡ record { kind = kind; values = replicate len Value.Null }) }
        ensures out_of_memory { IsOkUnless result Fault.OutOfMemory }
    {
        Ok(Column {
            valid: vec![in alloc; false; len]?,
            packed: Packed::blank(alloc, kind, len)?,
        })
    }
}
