//! The field before a mark of a text.
ghost use Rattle.std.specs.Prelude.{◌≡◌, ◌<◌, ◌≤◌, true, false, Some, length, get_or, if◌then◌else◌};
ghost use Rattle.morsel_grammar.specs.Dialect.{IsDialect};
ghost use Rattle.morsel_grammar.specs.Grammar.{BeginsUnquoted};
ghost use Rattle.morsel_grammar.specs.Split.{last_field};
ghost use Rattle.morsel_marks.specs.Marks.{is_well_quoted, field_ends};
ghost use Rattle.morsel_marks.specs.ByMarks.{begin_after, field_bytes, whole_field, field_between, marked_field};
ghost use Rattle.morsel_text.specs.RawFields.{shown};
ghost use Rattle.morsel_text.specs.MarkedColumns.{shown_field};

use crate::raw_field::{RawField, last};
use crate::split::field;
use morsel_grammar::CsvOptions;

/// A text whose quotes are well placed, and the marks that end its fields.
#[derive(Clone, Copy)]
pub struct MarkedText<'a> {
    /// The text.
    pub text: &'a [u8],
    /// The places of the bytes that end its fields.
    pub marks: &'a [u32],
    /// How it is written.
    pub options: &'a CsvOptions,
}

/// The place where the field after so many marks begins.
#[inline(always)]
pub fn place_after(marks: &[u32], j: usize) -> usize
    requires { j ≤ length marks.now }
    ensures { result ≡ begin_after marks.now j }
{
    if j == 0 {
        return 0;
    }
    marks[j - 1] as usize + 1
}

/// The bytes of the field before mark number `j`.
#[inline(always)]
pub fn bytes_before<'a>(text: &'a [u8], marks: &[u32], j: usize) -> &'a [u8]
    requires within { j < length marks.now }
    requires begins { begin_after marks.now j ≤ get_or marks.now j 0 }
    requires ends { get_or marks.now j 0 ≤ length text.now }
    ensures { result.now ≡ field_bytes text.now marks.now j }
{
    bytes_from(text, place_after(marks, j), marks, j)
}

/// The bytes of the field before mark number `j`, which begins at this place.
#[inline(always)]
pub fn bytes_from<'a>(text: &'a [u8], begin: usize, marks: &[u32], j: usize) -> &'a [u8]
    requires within { j < length marks.now }
    requires begin { begin ≡ begin_after marks.now j }
    requires begins { begin ≤ get_or marks.now j 0 }
    requires ends { get_or marks.now j 0 ≤ length text.now }
    ensures { result.now ≡ field_bytes text.now marks.now j }
{
    let end = marks[j] as usize;
    &text[begin..end]
}

/// Whether a field's bytes begin with the quote.
#[inline(always)]
pub fn begins_quoted(raw: &[u8], options: &CsvOptions) -> bool
    ensures { result ≡ false → BeginsUnquoted options.now.quote raw.now }
{
    !raw.is_empty() && options.is_quote(raw[0])
}

/// A field of a record as the record has it, which is the last of its record or another.
#[inline(always)]
pub fn placed<'a>(field: RawField<'a>, options: &CsvOptions, is_last: bool) -> RawField<'a>
    ensures { shown result ≡ (if is_last then last_field options.now (shown field.entry) else shown field.entry) }
{
    if is_last { last(field, options) } else { field }
}

/// A field that these bytes follow; none where they are more than a byte 13 that belongs to the end of the record.
fn whole_field<'a>(
    field: RawField<'a>,
    rest: &[u8],
    options: &CsvOptions,
    is_last: bool,
) -> Option<RawField<'a>>
    ensures { shown_field result ≡ whole_field options.now is_last (Some (shown field.entry, rest.now)) }
{
    if rest.is_empty() {
        return Some(placed(field, options, is_last));
    }
    if !is_last {
        return None;
    }
    if rest.len() != 1 {
        return None;
    }
    if rest[0] != b'\r' {
        return None;
    }
    if options.eol() != b'\n' {
        return None;
    }
    Some(last(field, options))
}

/// The field that is the whole of the bytes between two marks; none where there is no such field.
// Not inlined: few fields are in quotes, and without this their code would stand in each loop over a column.
#[inline(never)]
pub fn field_between<'a>(raw: &'a [u8], options: &CsvOptions, is_last: bool) -> Option<RawField<'a>>
    ensures { shown_field result ≡ field_between options.now is_last raw.now }
{
    let Some((found, rest)) = field(raw, options) else {
        return None;
    };
    whole_field(found, rest, options, is_last)
}

/// The field before mark number `j`; none where what stands there is no field.
#[inline(always)]
pub fn marked_field<'a>(marked: &MarkedText<'a>, j: usize, is_last: bool) -> Option<RawField<'a>>
    requires fit { IsDialect marked.now.options.now }
    requires quoted { is_well_quoted marked.now.options.now marked.now.text.now ≡ true }
    requires marks { marked.now.marks.now ≡ field_ends marked.now.options.now marked.now.text.now }
    requires within { j < length marked.now.marks.now }
    ensures { shown_field result ≡ marked_field marked.now.options.now is_last marked.now.text.now marked.now.marks.now j }
{
    let raw = bytes_before(marked.text, marked.marks, j);
    if begins_quoted(raw, marked.options) {
        return field_between(raw, marked.options, is_last);
    }
    Some(placed(RawField::Plain(raw), marked.options, is_last))
}
