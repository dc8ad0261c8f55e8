//! Columns of texts, made from the fields before marks.
ghost use Rattle.std.specs.Prelude.{◌≡◌, ◌==◌, ◌+◌, ◌-◌, ◌*◌, ◌<◌, ◌≤◌, [], true, false, Some, length, take, drop, if◌then◌else◌, IfOk, IfSome, IsUtf8};
ghost use Rattle.morsel_meaning.specs.declared.value.ColType.TheVariants as types;
ghost use Rattle.morsel_grammar.specs.Dialect.{IsDialect};
ghost use Rattle.morsel_grammar.specs.Grammar.{CsvField};
ghost use Rattle.morsel_grammar.specs.Cells.{same_text, cell_of};
ghost use Rattle.morsel_grammar.specs.Split.{field_at, last_field};
ghost use Rattle.morsel_marks.specs.Marks.{is_well_quoted, field_ends};
ghost use Rattle.morsel_text.specs.RawFields.{shown};
ghost use Rattle.morsel_text.specs.MarkedColumns.{field_before, column_fields, IsTextField, AreTextFields, MakesValues, PutsText};

use crate::marked_field::{MarkedText, begins_quoted, bytes_from, marked_field, place_after};
use crate::parts::content_len;
use crate::raw_field::RawField;
use crate::split::{run_len, unquote};
use crate::text_room::TextRoom;
use morsel_frame::Column;
use morsel_grammar::CsvOptions;
use std::alloc::{AllocError, Global};
use std::str::from_utf8_unchecked;

/// How many bytes at most are looked at for a closing quote.
const LANES: usize = 16;

/// How many bytes of a field without quotes are its text: all but for a byte 13 before the end of its record.
#[inline(always)]
fn plain_len(raw: &[u8], options: &CsvOptions, is_last: bool) -> usize
    ensures within { result ≤ length raw.now }
    ensures field { (if is_last then last_field options.now (record { quoted = false; bytes = raw.now }) else record { quoted = false; bytes = raw.now })
        ≡ record { quoted = false; bytes = take result raw.now } }
{
    if !is_last {
        return raw.len();
    }
    if options.eol() != b'\n' {
        return raw.len();
    }
    content_len(raw)
}

/// Some bytes from a place on.
#[inline(always)]
fn part(source: &[u8], from: usize, len: usize) -> &[u8]
    requires { from + len ≤ length source.now }
    ensures { result.now ≡ take len (drop from source.now) }
{
    &source[from..from + len]
}

/// Whether a text is the null text.
#[inline(always)]
fn is_null_text(text: &[u8], options: &CsvOptions) -> bool
    requires { IsUtf8 text.now }
    ensures { result ≡ same_text text.now options.now.null_text }
{
    let text = unsafe { from_utf8_unchecked(text) };
    text == options.null_text()
}

/// Puts the text that a field without quotes says last. Says whether it is no null.
#[inline(always)]
fn put_plain_text(
    texts: &mut TextRoom,
    source: &[u8],
    from: usize,
    len: usize,
    options: &CsvOptions,
) -> Result<bool, AllocError>
    requires within { from + len ≤ length source.now }
    requires utf8 { IsUtf8 (take len (drop from source.now)) }
    ensures { IfOk result (λ is_text. PutsText (cell_of options.now types.Text (record { quoted = false; bytes = take len (drop from source.now) }))
        texts.old is_text texts.new) }
{
    let is_null = is_null_text(part(source, from, len), options);
    texts.push(source, from, len)?;
    Ok(!is_null)
}

/// Puts the text that a field says last. Says whether it is no null.
fn put_text(
    texts: &mut TextRoom,
    field: RawField<'_>,
    options: &CsvOptions,
    content: &mut Vec<u8>,
) -> Result<bool, AllocError>
    requires { IsUtf8 (shown field).bytes }
    ensures { IfOk result (λ is_text. PutsText (cell_of options.now types.Text (shown field.entry)) texts.old is_text texts.new) }
{
    match field {
        RawField::Plain(text) => {
            let is_null = is_null_text(text, options);
            texts.push_whole(text)?;
            Ok(!is_null)
        }
        RawField::Quoted(text) => {
            texts.push_whole(text)?;
            Ok(true)
        }
        RawField::Doubled(text, quote) => {
            unquote(text, quote, content)?;
            texts.push_whole(content.as_slice())?;
            Ok(true)
        }
    }
}

/// How many bytes are in the quotes of the field that is the bytes between two places, where they are few and none of them is
/// a quote; none where it is not told so soon.
#[inline(always)]
fn short_content(text: &[u8], begin: usize, end: usize, options: &CsvOptions) -> Option<usize>
    requires rises { begin ≤ end }
    requires within { end ≤ length text.now }
    ensures within { IfSome result (λ len. begin + 1 + len ≤ length text.now) }
    ensures field { IfSome result (λ len. field_at options.now (take (end - begin) (drop begin text.now))
        ≡ Some (record { quoted = true; bytes = take len (drop (begin + 1) text.now) }, [])) }
{
    if text.len() - begin < LANES + 1 {
        return None;
    }
    let quote = text[begin];
    if !options.is_quote(quote) {
        return None;
    }
    let len = run_len(text, begin + 1, quote, quote);
    if len == LANES {
        return None;
    }
    if begin + 1 + len + 1 != end {
        return None;
    }
    Some(len)
}

/// Puts the text that the field before mark number `j` says last. Says whether it is no null; none where there is no field.
// Not inlined: few fields are in quotes, and without this their code would stand in the loop over a column.
#[inline(never)]
fn put_quoted_text(
    texts: &mut TextRoom,
    marked: &MarkedText<'_>,
    j: usize,
    is_last: bool,
    content: &mut Vec<u8>,
) -> Result<Option<bool>, AllocError>
    requires fit { IsDialect marked.now.options.now }
    requires quoted { is_well_quoted marked.now.options.now marked.now.text.now ≡ true }
    requires marks { marked.now.marks.now ≡ field_ends marked.now.options.now marked.now.text.now }
    requires within { j < length marked.now.marks.now }
    requires field { IsTextField marked.now.options.now is_last marked.now.text.now marked.now.marks.now j }
    ensures { IfOk result (λ found. IfSome found (λ is_text. PutsText (cell_of marked.now.options.now types.Text
        (field_before marked.now.options.now is_last marked.now.text.now marked.now.marks.now j)) texts.old is_text texts.new)) }
{
    let begin = place_after(marked.marks, j);
    let end = marked.marks[j] as usize;
    if let Some(len) = short_content(marked.text, begin, end, marked.options) {
        texts.push(marked.text, begin + 1, len)?;
        return Ok(Some(true));
    }
    let Some(field) = marked_field(marked, j, is_last) else {
        return Ok(None);
    };
    let is_text = put_text(texts, field, marked.options, content)?;
    Ok(Some(is_text))
}

/// Puts the text that the field before mark number `j` says last. Says whether it is no null; none where there is no field.
#[inline(always)]
fn put_marked_text(
    texts: &mut TextRoom,
    marked: &MarkedText<'_>,
    j: usize,
    is_last: bool,
    content: &mut Vec<u8>,
) -> Result<Option<bool>, AllocError>
    requires fit { IsDialect marked.now.options.now }
    requires quoted { is_well_quoted marked.now.options.now marked.now.text.now ≡ true }
    requires marks { marked.now.marks.now ≡ field_ends marked.now.options.now marked.now.text.now }
    requires within { j < length marked.now.marks.now }
    requires field { IsTextField marked.now.options.now is_last marked.now.text.now marked.now.marks.now j }
    ensures { IfOk result (λ found. IfSome found (λ is_text. PutsText (cell_of marked.now.options.now types.Text
        (field_before marked.now.options.now is_last marked.now.text.now marked.now.marks.now j)) texts.old is_text texts.new)) }
{
    let begin = place_after(marked.marks, j);
    let raw = bytes_from(marked.text, begin, marked.marks, j);
    if begins_quoted(raw, marked.options) {
        return put_quoted_text(texts, marked, j, is_last, content);
    }
    let len = plain_len(raw, marked.options, is_last);
    let is_text = put_plain_text(texts, marked.text, begin, len, marked.options)?;
    Ok(Some(is_text))
}

/// Makes the column of the texts of a column's fields; none where there is no field.
// Not inlined, so that each type's loop has the registers to itself.
#[inline(never)]
pub fn marked_texts(
    alloc: Global,
    marked: &MarkedText<'_>,
    first: usize,
    width: usize,
    rows: usize,
    content: &mut Vec<u8>,
) -> Result<Option<Column>, AllocError>
    requires fit { IsDialect marked.now.options.now }
    requires quoted { is_well_quoted marked.now.options.now marked.now.text.now ≡ true }
    requires marks { marked.now.marks.now ≡ field_ends marked.now.options.now marked.now.text.now }
    requires first { first < width }
    requires count { length marked.now.marks.now ≡ rows * width }
    requires fields { AreTextFields marked.now.options.now (first + 1 == width) marked.now.text.now marked.now.marks.now first width rows }
    ensures { IfOk result (λ made. MakesValues marked.now.options.now types.Text
        (column_fields marked.now.options.now (first + 1 == width) marked.now.text.now marked.now.marks.now first width rows) made) }
{
    let is_last = first + 1 == width;
    let mut valid = vec![in alloc; false; rows]?;
    // Twice as much as where all columns have as many bytes: to give a column more room later takes a copy of it.
    let mut texts = TextRoom::new(alloc, rows, (marked.text.len() / width).saturating_mul(2))?;
    let mut j = first;
    for row in 0..rows {
        let Some(is_text) = put_marked_text(&mut texts, marked, j, is_last, content)? else {
            return Ok(None);
        };
        valid[row] = is_text;
        j += width;
    }
    Ok(Some(Column::from_texts(valid, texts.into_texts())))
}
