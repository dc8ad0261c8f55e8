//! Columns of a text of rows, each made at once from the fields before its marks.
ghost use Rattle.std.specs.Prelude.{◌≡◌, ◌==◌, ◌+◌, ◌*◌, ◌<◌, true, length, IfOk, IsOkUnless, IsUtf8};
ghost use Rattle.morsel_meaning.specs.declared.value.ColType.TheVariants as types;
ghost use Rattle.morsel_grammar.specs.Dialect.{IsDialect};
ghost use Rattle.morsel_grammar.specs.Cells.{cell_of};
ghost use Rattle.morsel_marks.specs.Marks.{is_well_quoted, field_ends};
ghost use Rattle.morsel_text.specs.RawFields.{shown};
ghost use Rattle.morsel_text.specs.MarkedColumns.{field_before, column_fields, IsTextField, AreTextFields, MakesValues, IsNumberCell};

use crate::cells::{Pushed, push_cell};
use crate::ints::{IntCell, int_cell};
use crate::marked_field::{
    MarkedText, begins_quoted, bytes_before, field_between, marked_field, placed,
};
use crate::marked_texts::marked_texts;
use crate::raw_field::RawField;
use morsel_frame::Column;
use morsel_grammar::CsvOptions;
use morsel_meaning::{ColType, Fault};
use std::alloc::{AllocError, Global};

/// The number that a field says, and whether it says one; none where it does not fit.
#[inline(always)]
fn number_said(
    field: RawField<'_>,
    options: &CsvOptions,
    content: &mut Vec<u8>,
) -> Result<Option<(bool, i64)>, AllocError>
    requires { IsUtf8 (shown field).bytes }
    ensures { IfOk result (λ found. IsNumberCell (cell_of options.now types.Int (shown field.entry)) found) }
{
    match int_cell(field, options, content)? {
        IntCell::Number(number) => Ok(Some((true, number))),
        IntCell::Null => Ok(Some((false, 0))),
        IntCell::Bad => Ok(None),
    }
}

/// The number that the field before mark number `j` says, and whether it says one; none where it does not fit.
///
/// Fields in quotes are parted from the others at once, since they are few and an `Option<RawField>` would be laid out
/// in memory for each field.
#[inline(always)]
fn marked_number(
    marked: &MarkedText<'_>,
    j: usize,
    is_last: bool,
    content: &mut Vec<u8>,
) -> Result<Option<(bool, i64)>, AllocError>
    requires fit { IsDialect marked.now.options.now }
    requires quoted { is_well_quoted marked.now.options.now marked.now.text.now ≡ true }
    requires marks { marked.now.marks.now ≡ field_ends marked.now.options.now marked.now.text.now }
    requires within { j < length marked.now.marks.now }
    requires field { IsTextField marked.now.options.now is_last marked.now.text.now marked.now.marks.now j }
    ensures { IfOk result (λ found. IsNumberCell (cell_of marked.now.options.now types.Int
        (field_before marked.now.options.now is_last marked.now.text.now marked.now.marks.now j)) found) }
{
    let raw = bytes_before(marked.text, marked.marks, j);
    if begins_quoted(raw, marked.options) {
        let Some(field) = field_between(raw, marked.options, is_last) else {
            return Ok(None);
        };
        return number_said(field, marked.options, content);
    }
    let field = placed(RawField::Plain(raw), marked.options, is_last);
    number_said(field, marked.options, content)
}

/// Makes the column of the numbers of a column's fields; none where a field does not fit.
// Not inlined, so that each type's loop has the registers to itself.
#[inline(never)]
fn marked_numbers(
    alloc: Global,
    marked: &MarkedText<'_>,
    first: usize,
    width: usize,
    rows: usize,
    content: &mut Vec<u8>,
) -> Result<Option<Column>, AllocError>
    requires fit { IsDialect marked.now.options.now }
    requires quoted { is_well_quoted marked.now.options.now marked.now.text.now ≡ true }
    requires marks { marked.now.marks.now ≡ field_ends marked.now.options.now marked.now.text.now }
    requires first { first < width }
    requires count { length marked.now.marks.now ≡ rows * width }
    requires fields { AreTextFields marked.now.options.now (first + 1 == width) marked.now.text.now marked.now.marks.now first width rows }
    ensures { IfOk result (λ made. MakesValues marked.now.options.now types.Int
        (column_fields marked.now.options.now (first + 1 == width) marked.now.text.now marked.now.marks.now first width rows) made) }
{
    let is_last = first + 1 == width;
    let mut valid = vec![in alloc; false; rows]?;
    let mut numbers = Vec::with_capacity(alloc, rows)?;
    let mut j = first;
    for row in 0..rows {
        let Some((is_number, number)) = marked_number(marked, j, is_last, content)? else {
            return Ok(None);
        };
        valid[row] = is_number;
        numbers.push(number)?;
        j += width;
    }
    Ok(Some(Column::from_ints(valid, numbers)))
}

/// Makes the column of the truth values of a column's fields; none where a field does not fit.
// Not inlined, so that each type's loop has the registers to itself.
#[inline(never)]
fn marked_flags(
    alloc: Global,
    marked: &MarkedText<'_>,
    first: usize,
    width: usize,
    rows: usize,
    content: &mut Vec<u8>,
) -> Result<Option<Column>, Fault>
    requires fit { IsDialect marked.now.options.now }
    requires quoted { is_well_quoted marked.now.options.now marked.now.text.now ≡ true }
    requires marks { marked.now.marks.now ≡ field_ends marked.now.options.now marked.now.text.now }
    requires first { first < width }
    requires count { length marked.now.marks.now ≡ rows * width }
    requires fields { AreTextFields marked.now.options.now (first + 1 == width) marked.now.text.now marked.now.marks.now first width rows }
    ensures column { IfOk result (λ made. MakesValues marked.now.options.now types.Bool
        (column_fields marked.now.options.now (first + 1 == width) marked.now.text.now marked.now.marks.now first width rows) made) }
    ensures out_of_memory { IsOkUnless result Fault.OutOfMemory }
{
    let is_last = first + 1 == width;
    let mut column = Column::new(alloc, ColType::Bool);
    let mut j = first;
    for _ in 0..rows {
        let Some(field) = marked_field(marked, j, is_last) else {
            return Ok(None);
        };
        match push_cell(&mut column, field, marked.options, content)? {
            Pushed::Done => {}
            Pushed::Bad => return Ok(None),
        }
        j += width;
    }
    Ok(Some(column))
}

/// Makes the column of the values of a column's fields; none where a field does not fit.
pub fn marked_column(
    alloc: Global,
    kind: ColType,
    marked: &MarkedText<'_>,
    first: usize,
    width: usize,
    rows: usize,
    content: &mut Vec<u8>,
) -> Result<Option<Column>, Fault>
    requires fit { IsDialect marked.now.options.now }
    requires quoted { is_well_quoted marked.now.options.now marked.now.text.now ≡ true }
    requires marks { marked.now.marks.now ≡ field_ends marked.now.options.now marked.now.text.now }
    requires first { first < width }
    requires count { length marked.now.marks.now ≡ rows * width }
    requires fields { AreTextFields marked.now.options.now (first + 1 == width) marked.now.text.now marked.now.marks.now first width rows }
    ensures column { IfOk result (λ made. MakesValues marked.now.options.now kind
        (column_fields marked.now.options.now (first + 1 == width) marked.now.text.now marked.now.marks.now first width rows) made) }
    ensures out_of_memory { IsOkUnless result Fault.OutOfMemory }
{
    match kind {
        ColType::Int => Ok(marked_numbers(alloc, marked, first, width, rows, content)?),
        ColType::Bool => marked_flags(alloc, marked, first, width, rows, content),
        ColType::Text => Ok(marked_texts(alloc, marked, first, width, rows, content)?),
    }
}
