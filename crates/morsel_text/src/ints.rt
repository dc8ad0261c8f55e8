//! Columns of numbers, made from fields.
ghost use Rattle.std.specs.Prelude.{◌≡◌, map, IfOk, IsOkUnless, IsUtf8};
ghost use Rattle.morsel_meaning.specs.declared.value.ColType.TheVariants as types;
ghost use Rattle.morsel_grammar.specs.Cells.{value_written, cell_or_bad, cell_of};
ghost use Rattle.morsel_text.specs.RawFields.{shown};
ghost use Rattle.morsel_text.specs.Pushes.{AreTexts};
ghost use Rattle.morsel_text.specs.Batches.{IsIntCell, MakesColumn};

use crate::cells::int_of;
use crate::raw_field::RawField;
use crate::split::unquote;
use morsel_frame::Column;
use morsel_grammar::CsvOptions;
use morsel_meaning::Fault;
use std::alloc::{AllocError, Global};
use std::str::from_utf8_unchecked;

/// What a field says in a column of numbers.
pub enum IntCell {
    /// This number.
    Number(i64),
    /// Nothing.
    Null,
    /// It does not fit.
    Bad,
}

/// What a text that is no null says.
#[inline(always)]
fn number_cell(text: &str, options: &CsvOptions) -> IntCell
    ensures { IsIntCell (cell_or_bad options.now.ignore_errors (value_written types.Int text.now)) result }
{
    if let Some(number) = int_of(text) {
        return IntCell::Number(number);
    }
    if options.ignores_errors() {
        IntCell::Null
    } else {
        IntCell::Bad
    }
}

/// What a field says, with room for the content of one that contains quotes.
///
/// Its fault is the small `AllocError`, since it is called for each cell.
#[inline(always)]
pub fn int_cell(
    field: RawField<'_>,
    options: &CsvOptions,
    content: &mut Vec<u8>,
) -> Result<IntCell, AllocError>
    requires { IsUtf8 (shown field).bytes }
    ensures { IfOk result (λ cell. IsIntCell (cell_of options.now types.Int (shown field.entry)) cell) }
{
    match field {
        RawField::Plain(text) => {
            let text = unsafe { from_utf8_unchecked(text) };
            if text == options.null_text() {
                return Ok(IntCell::Null);
            }
            Ok(number_cell(text, options))
        }
        RawField::Quoted(text) => Ok(number_cell(unsafe { from_utf8_unchecked(text) }, options)),
        RawField::Doubled(text, quote) => {
            unquote(text, quote, content)?;
            Ok(number_cell(unsafe { from_utf8_unchecked(content.as_slice()) }, options))
        }
    }
}

/// Makes the column of the fields' numbers; none where a field does not fit.
pub fn int_column(
    alloc: Global,
    fields: &[RawField<'_>],
    options: &CsvOptions,
    content: &mut Vec<u8>,
) -> Result<Option<Column>, Fault>
    requires { AreTexts (map shown fields.now) }
    ensures column { IfOk result (λ made. MakesColumn options.now types.Int fields.now made) }
    ensures out_of_memory { IsOkUnless result Fault.OutOfMemory }
{
    let mut valid = Vec::with_capacity(alloc, fields.len())?;
    let mut numbers = Vec::with_capacity(alloc, fields.len())?;
    for field in fields {
        let cell = int_cell(*field, options, content)?;
        match cell {
            IntCell::Number(number) => {
                valid.push(true)?;
                numbers.push(number)?;
            }
            IntCell::Null => {
                valid.push(false)?;
                numbers.push(0)?;
            }
            IntCell::Bad => return Ok(None),
        }
    }
    Ok(Some(Column::from_ints(valid, numbers)))
}
