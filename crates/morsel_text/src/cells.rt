//! What texts say under a column's type.
ghost use Rattle.std.specs.Prelude.{◌≡◌, None, false, IfOk, IsOkUnless, IsUtf8};
ghost use Rattle.morsel_meaning.specs.declared.value.ColType.TheVariants as types;
ghost use Rattle.morsel_grammar.specs.Cells.{short_number, int_of, bool_of, value_written, cell_or_bad, cell_of};
ghost use Rattle.morsel_text.specs.RawFields.{shown};
ghost use Rattle.morsel_text.specs.Pushes.{PushesCell};

use crate::raw_field::RawField;
use crate::split::unquote;
use morsel_frame::Column;
use morsel_grammar::CsvOptions;
use morsel_meaning::{ColType, Fault};
use std::str::from_utf8_unchecked;

/// So many digits are always a number below 2 to the power of 63.
const SHORT: usize = 18;

/// The number that a text writes.
#[inline(always)]
pub fn int_of(text: &str) -> Option<i64>
    ensures { result ≡ int_of text.now }
{
    if let Some(number) = short_number(text.as_bytes()) {
        return Some(number as i64);
    }
    text.parse::<i64>().ok()
}

/// The number that 1 to 18 digits write.
#[inline(always)]
fn short_number(digits: &[u8]) -> Option<u64>
    ensures { result ≡ short_number digits.now }
{
    if digits.is_empty() || digits.len() > SHORT {
        return None;
    }
    let mut number = 0u64;
    for digit in digits {
        if !digit.is_ascii_digit() {
            return None;
        }
        number = number * 10 + (*digit - b'0') as u64;
    }
    Some(number)
}

/// The truth value that a text names.
pub fn bool_of(text: &str) -> Option<bool>
    ensures { result ≡ bool_of text.now }
{
    if text == "true" || text == "True" || text == "TRUE" {
        return Some(true);
    }
    if text == "false" || text == "False" || text == "FALSE" {
        return Some(false);
    }
    None
}

/// What came of putting a cell into a column.
pub enum Pushed {
    /// It is there.
    Done,
    /// It does not fit the column's type.
    Bad,
}

/// Puts null for a field that does not fit its column's type, where errors are ignored.
fn push_misfit(column: &mut Column, options: &CsvOptions) -> Result<Pushed, Fault>
    ensures cell { IfOk result (λ pushed. PushesCell (cell_or_bad options.now.ignore_errors None) column.old pushed column.new) }
    ensures out_of_memory { IsOkUnless result Fault.OutOfMemory }
{
    if !options.ignores_errors() {
        return Ok(Pushed::Bad);
    }
    column.push_null()?;
    Ok(Pushed::Done)
}

/// Puts the number that a text writes.
#[inline(always)]
fn push_int(column: &mut Column, text: &str, options: &CsvOptions) -> Result<Pushed, Fault>
    requires { column.old.kind ≡ types.Int }
    ensures cell { IfOk result (λ pushed. PushesCell (cell_or_bad options.now.ignore_errors (value_written types.Int text.now))
        column.old pushed column.new) }
    ensures out_of_memory { IsOkUnless result Fault.OutOfMemory }
{
    let Some(number) = int_of(text) else {
        return push_misfit(column, options);
    };
    column.push_int(number)?;
    Ok(Pushed::Done)
}

/// Puts the truth value that a text names.
fn push_bool(column: &mut Column, text: &str, options: &CsvOptions) -> Result<Pushed, Fault>
    requires { column.old.kind ≡ types.Bool }
    ensures cell { IfOk result (λ pushed. PushesCell (cell_or_bad options.now.ignore_errors (value_written types.Bool text.now))
        column.old pushed column.new) }
    ensures out_of_memory { IsOkUnless result Fault.OutOfMemory }
{
    let Some(flag) = bool_of(text) else {
        return push_misfit(column, options);
    };
    column.push_bool(flag)?;
    Ok(Pushed::Done)
}

/// Puts a text.
#[inline(always)]
fn push_text(column: &mut Column, text: &str, options: &CsvOptions) -> Result<Pushed, Fault>
    requires { column.old.kind ≡ types.Text }
    ensures cell { IfOk result (λ pushed. PushesCell (cell_or_bad options.now.ignore_errors (value_written types.Text text.now))
        column.old pushed column.new) }
    ensures out_of_memory { IsOkUnless result Fault.OutOfMemory }
{
    column.push_text(text)?;
    Ok(Pushed::Done)
}

/// Puts what a text says under the column's type.
#[inline(always)]
fn push_value(column: &mut Column, text: &str, options: &CsvOptions) -> Result<Pushed, Fault>
    ensures cell { IfOk result (λ pushed. PushesCell (cell_or_bad options.now.ignore_errors (value_written column.old.kind text.now))
        column.old pushed column.new) }
    ensures out_of_memory { IsOkUnless result Fault.OutOfMemory }
{
    match column.kind() {
        ColType::Int => push_int(column, text, options),
        ColType::Bool => push_bool(column, text, options),
        ColType::Text => push_text(column, text, options),
    }
}

/// Puts a field without quotes.
#[inline(always)]
fn push_plain(column: &mut Column, text: &str, options: &CsvOptions) -> Result<Pushed, Fault>
    ensures cell { IfOk result (λ pushed. PushesCell (cell_of options.now column.old.kind (record { quoted = false; bytes = text.now }))
        column.old pushed column.new) }
    ensures out_of_memory { IsOkUnless result Fault.OutOfMemory }
{
    if text == options.null_text() {
        column.push_null()?;
        return Ok(Pushed::Done);
    }
    push_value(column, text, options)
}

/// Puts what a field says, with room for the content of one that contains quotes.
#[inline(always)]
pub fn push_cell(
    column: &mut Column,
    field: RawField<'_>,
    options: &CsvOptions,
    content: &mut Vec<u8>,
) -> Result<Pushed, Fault>
    requires { IsUtf8 (shown field).bytes }
    ensures cell { IfOk result (λ pushed. PushesCell (cell_of options.now column.old.kind (shown field.entry))
        column.old pushed column.new) }
    ensures out_of_memory { IsOkUnless result Fault.OutOfMemory }
{
    match field {
        RawField::Plain(text) => push_plain(column, unsafe { from_utf8_unchecked(text) }, options),
        RawField::Quoted(text) => push_value(column, unsafe { from_utf8_unchecked(text) }, options),
        RawField::Doubled(text, quote) => {
            unquote(text, quote, content)?;
            push_value(
                column,
                unsafe { from_utf8_unchecked(content.as_slice()) },
                options,
            )
        }
    }
}
