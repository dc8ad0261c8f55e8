//! Where in a text a row's record begins.
ghost use Rattle.std.specs.Prelude.{◌≡◌, ◌+◌, ◌<◌, ◌≤◌, ◌^◌, List, length, map, IfOk, IsOkUnless};
ghost use Rattle.morsel_meaning.specs.declared.value.ColType.{ColType};
ghost use Rattle.morsel_meaning.specs.Values.{kinds_of};
ghost use Rattle.morsel_grammar.specs.Dialect.{Dialect};
ghost use Rattle.morsel_grammar.specs.Grammar.{Fields};
ghost use Rattle.morsel_grammar.specs.Rows.{row_of};
ghost use Rattle.morsel_grammar.specs.Reading.{reading, row_place};
ghost use Rattle.morsel_text.specs.RawFields.{shown};
ghost use Rattle.morsel_text.specs.RowPlaces.{IsKind, SkipsTo, skip_len};

use crate::raw_field::RawField;
use crate::rows::is_empty;
use crate::split::{Split, split_record};
use crate::text::is_text;
use morsel_frame::Schema;
use morsel_grammar::CsvOptions;
use morsel_meaning::Fault;
use std::alloc::Global;

/// What a record of fields is to the rows.
pub enum RowKind {
    /// A row.
    Row,
    /// No row.
    NoRow,
    /// A record with another number of fields than there are columns.
    Misfit,
}

/// A record that was passed.
pub enum Skip<'a> {
    /// A row, and then this.
    Row(&'a [u8]),
    /// No row, then this, and whether the header is still to come.
    Other(&'a [u8], bool),
    /// The record is refused.
    Refused,
}

/// What a record of fields is to the rows of so many columns.
fn row_kind(fields: &[RawField<'_>], width: usize) -> RowKind
    ensures { (o : Dialect) (ks : List ColType) → length ks ≡ width →
        IsKind (row_of o ks (Fields (map shown fields.now))) result }
{
    if is_empty(fields) {
        if width == 1 {
            return RowKind::Row;
        }
        return RowKind::NoRow;
    }
    if fields.len() != width {
        return RowKind::Misfit;
    }
    RowKind::Row
}

/// Passes the record that a text begins with.
fn skip_record<'a>(
    text: &'a [u8],
    at: u64,
    head: bool,
    schema: &Schema,
    options: &CsvOptions,
    fields: &mut Vec<RawField<'a>>,
) -> Result<Skip<'a>, Fault>
    requires { 0 < length text.now }
    ensures value { IfOk result (λ skip. SkipsTo options.now (kinds_of schema.now) head at text.now skip) }
    ensures within { IfOk result (λ skip. skip_len skip ≤ length text.now) }
    ensures out_of_memory { IsOkUnless result Fault.OutOfMemory }
{
    let width = schema.fields().len();
    match split_record(text, options, width + 2, fields)? {
        Split::Fields(rest) => {
            if !is_text(&text[..text.len() - rest.len()]) {
                return Ok(Skip::Refused);
            }
            if head {
                return Ok(Skip::Other(rest, is_empty(fields.as_slice())));
            }
            match row_kind(fields.as_slice(), width) {
                RowKind::Row => Ok(Skip::Row(rest)),
                RowKind::NoRow => Ok(Skip::Other(rest, false)),
                RowKind::Misfit => Ok(Skip::Refused),
            }
        }
        Split::Comment(rest) => {
            if !is_text(&text[..text.len() - rest.len()]) {
                return Ok(Skip::Refused);
            }
            Ok(Skip::Other(rest, head))
        }
        Split::Broken => Ok(Skip::Refused),
    }
}

/// The place of the record that gives the row of this number, where there is one before the first record that is
/// refused for its form. Rows are counted from 0, and places as `at` counts them.
pub fn place_of_row(
    alloc: Global,
    bytes: &[u8],
    at: u64,
    schema: &Schema,
    head: bool,
    options: &CsvOptions,
    row: usize,
) -> Result<Option<u64>, Fault>
    requires places { at + length bytes.now < 2 ^ 64 }
    ensures ok { IfOk result (λ place.
        place ≡ row_place (reading options.now (kinds_of schema.now) head at bytes.now).rows row) }
    ensures out_of_memory { IsOkUnless result Fault.OutOfMemory }
{
    let mut fields = Vec::new(alloc);
    let mut rest = bytes;
    let mut place = at;
    let mut awaits_header = head;
    let mut before = row;
    for _ in 0..bytes.len() {
        if rest.is_empty() {
            return Ok(None);
        }
        match skip_record(rest, place, awaits_header, schema, options, &mut fields)? {
            Skip::Row(after) => {
                if before == 0 {
                    return Ok(Some(place));
                }
                before -= 1;
                place += (rest.len() - after.len()) as u64;
                rest = after;
                awaits_header = false;
                continue;
            }
            Skip::Other(after, head) => {
                place += (rest.len() - after.len()) as u64;
                rest = after;
                awaits_header = head;
            }
            Skip::Refused => return Ok(None),
        }
    }
    Ok(None)
}
