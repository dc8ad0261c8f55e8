//! A text of rows, read column by column by the marks that end its fields.
//!
//! Most pieces of most files are such texts. Another text, as one with a comment, a blank line, a record of another number of
//! fields, or a quote inside a field without quotes, is for the readers of batches and of records, as is one with a field that
//! does not fit its column.
ghost use Rattle.std.specs.Prelude.{◌≡◌, ◌<◌, ◌-◌, ◌∷◌, [], true, length, IfOk, IsOkUnless, IsTrue, IsUtf8};
ghost use Rattle.morsel_grammar.specs.Dialect.{IsDialect};
ghost use Rattle.morsel_grammar.specs.Rows.{is_empty};
ghost use Rattle.morsel_marks.specs.Marks.{is_well_quoted, field_ends};
ghost use Rattle.morsel_marks.specs.MarkedRows.{IsRowText};
ghost use Rattle.morsel_text.specs.RawFields.{shown};
ghost use Rattle.morsel_text.specs.Pushes.{column_kinds};
ghost use Rattle.morsel_text.specs.Batches.{MakesAll};
ghost use Rattle.morsel_text.specs.MarkedReads.{AreWholeFields, ReadsMarked, field_of_mark, raw_of, raw_columns};

use crate::batch::append_columns;
use crate::marked_columns::marked_column;
use crate::marked_field::{MarkedText, marked_field};
use crate::raw_field::RawField;
use memchr::memchr;
use morsel_frame::Column;
use morsel_grammar::CsvOptions;
use morsel_marks::mark_rows;
use morsel_meaning::Fault;
use std::alloc::Global;

/// Longer texts are not marked: the room for the marks of a text is four times as long, and such a text is mostly one long record.
const LONGEST: usize = 4 << 20;

/// Whether a record of this field alone has no bytes.
fn is_nothing(field: RawField<'_>) -> bool
    ensures { result ≡ is_empty (shown field.entry ∷ []) }
{
    match field {
        RawField::Plain(text) => text.is_empty(),
        RawField::Quoted(_) => false,
        RawField::Doubled(_, _) => false,
    }
}

/// Whether each mark has a field before it, and where each record has one field, none is without bytes.
fn are_fields(marked: &MarkedText<'_>, width: usize) -> bool
    requires quoted { is_well_quoted marked.now.options.now marked.now.text.now ≡ true }
    requires marks { marked.now.marks.now ≡ field_ends marked.now.options.now marked.now.text.now }
    requires fit { IsDialect marked.now.options.now }
    ensures { IsTrue result → AreWholeFields marked.now.options.now width marked.now.text.now marked.now.marks.now }
{
    let separator = marked.options.separator();
    for j in 0..marked.marks.len() {
        let is_end = marked.text[marked.marks[j] as usize] != separator;
        let Some(field) = marked_field(marked, j, is_end) else {
            return false;
        };
        if width == 1 && is_nothing(field) {
            return false;
        }
    }
    true
}

/// Whether each mark has a field before it, and where each record has one field, none is without bytes.
///
/// A byte 13 alone can stand between a field and its mark, so without one there is nothing to look for.
fn are_whole(marked: &MarkedText<'_>, width: usize) -> bool
    requires quoted { is_well_quoted marked.now.options.now marked.now.text.now ≡ true }
    requires marks { marked.now.marks.now ≡ field_ends marked.now.options.now marked.now.text.now }
    requires fit { IsDialect marked.now.options.now }
    ensures { IsTrue result → AreWholeFields marked.now.options.now width marked.now.text.now marked.now.marks.now }
{
    if width != 1 && memchr(b'\r', marked.text).is_none() {
        return true;
    }
    are_fields(marked, width)
}

/// Makes a column of values for each that is used, and one without values for each other; none where a field does not
/// fit its column.
fn values_by_marks(
    alloc: Global,
    columns: &[Column],
    marked: &MarkedText<'_>,
    rows: usize,
    used: &[bool],
    content: &mut Vec<u8>,
) -> Result<Option<Vec<Column>>, Fault>
    requires used { length used.now ≡ length columns.now }
    requires some { 0 < length columns.now }
    requires text { IsRowText marked.now.options.now marked.now.text.now (length columns.now - 1) rows }
    requires marks { marked.now.marks.now ≡ field_ends marked.now.options.now marked.now.text.now }
    requires whole { AreWholeFields marked.now.options.now (length columns.now) marked.now.text.now marked.now.marks.now }
    requires utf8 { IsUtf8 marked.now.text.now }
    requires fit { IsDialect marked.now.options.now }
    ensures columns { IfOk result (λ made. MakesAll marked.now.options.now used.now (column_kinds columns.now)
        (raw_columns (λ j. raw_of (field_of_mark marked.now.options.now marked.now.text.now marked.now.marks.now j)) (length columns.now - 1) rows) made) }
    ensures out_of_memory { IsOkUnless result Fault.OutOfMemory }
{
    let mut made = Vec::with_capacity(alloc, columns.len())?;
    for at in 0..columns.len() {
        let kind = columns[at].kind();
        if !used[at] {
            made.push(Column::new(alloc, kind))?;
            continue;
        }
        let Some(column) = marked_column(alloc, kind, marked, at, columns.len(), rows, content)?
        else {
            return Ok(None);
        };
        made.push(column)?;
    }
    Ok(Some(made))
}

/// Reads a text of rows that is UTF-8 into the columns, and says how many rows it has.
///
/// `None` says that nothing was changed: the text is not rows alone, or a field does not fit its column. What `places` and
/// `content` hold says nothing; their room is kept.
pub fn read_marked(
    alloc: Global,
    text: &[u8],
    columns: &mut Vec<Column>,
    used: &[bool],
    options: &CsvOptions,
    places: &mut Vec<u32>,
    content: &mut Vec<u8>,
) -> Result<Option<usize>, Fault>
    requires utf8 { IsUtf8 text.now }
    requires used { length used.now ≡ length columns.old.items }
    requires fit { IsDialect options.now }
    ensures rows { IfOk result (λ found. ReadsMarked options.now used.now text.now columns.old.items found columns.new.items) }
    ensures out_of_memory { IsOkUnless result Fault.OutOfMemory }
{
    let width = columns.len();
    if width == 0 || text.len() > LONGEST {
        return Ok(None);
    }
    let Some(rows) = mark_rows(text, options, width, places)? else {
        return Ok(None);
    };
    if rows == 0 {
        return Ok(None);
    }
    let marked = MarkedText {
        text,
        marks: &places.as_slice()[..rows * width],
        options,
    };
    if !are_whole(&marked, width) {
        return Ok(None);
    }
    let Some(made) = values_by_marks(alloc, columns, &marked, rows, used, content)? else {
        return Ok(None);
    };
    append_columns(columns, made)?;
    Ok(Some(rows))
}
