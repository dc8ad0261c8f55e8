//! Reading whole records into a frame.
ghost use Rattle.std.specs.Prelude.{◌≡◌, ◌+◌, ◌<◌, ◌≤◌, ◌^◌, [], length, map, IfOk, IsTrue, IsUtf8};
ghost use Rattle.morsel_meaning.specs.Values.{kinds_of};
ghost use Rattle.morsel_grammar.specs.Dialect.{IsDialect};
ghost use Rattle.morsel_grammar.specs.Grammar.{Fields};
ghost use Rattle.morsel_grammar.specs.Rows.{row_of};
ghost use Rattle.morsel_grammar.specs.Reading.{reading, read_of, chosen};
ghost use Rattle.morsel_grammar.specs.Results.{ReadsRecords};
ghost use Rattle.morsel_grammar.specs.GrammarResults.{ReadsOfGrammar};
ghost use Rattle.morsel_text.specs.RawFields.{shown};
ghost use Rattle.morsel_text.specs.Pushes.{column_kinds, AreTexts};
ghost use Rattle.morsel_text.specs.Steps.{RowStepsTo, StepsTo, AreHigh, ReadsAll, ReadsColumns};
ghost use Rattle.morsel_text.specs.Batches.{TurnsTo};

use crate::batch::read_batch;
use crate::choice::{chosen_columns, chosen_schema, columns_of};
use crate::empty_lines::behind_empty;
use crate::marked::read_marked;
use crate::raw_field::RawField;
use crate::reader::{Reader, Step};
use crate::room::ReadRoom;
use crate::rows::{RowPushed, is_empty, push_record};
use crate::split::{Split, split_record};
use crate::text::is_text;
use morsel_frame::{Column, Frame, Schema};
use morsel_grammar::CsvOptions;
use morsel_meaning::{ComputeKind, Fault};
use std::alloc::Global;

/// Puts a record of fields that comes after the header, and says how many rows it gave.
fn read_row(
    reader: &Reader<'_>,
    fields: &[RawField<'_>],
    at: u64,
    columns: &mut Vec<Column>,
    content: &mut Vec<u8>,
) -> Result<usize, Fault>
    requires used { length reader.now.used.now ≡ length columns.old.items }
    requires texts { AreTexts (map shown fields.now) }
    ensures { RowStepsTo
        (row_of reader.now.options.now (column_kinds columns.old.items) (Fields (map shown fields.now)))
        reader.now.used.now reader.now.file at columns.old.items result columns.new.items }
{
    match push_record(columns, fields, reader.used, reader.options, content)? {
        RowPushed::Row => Ok(1),
        RowPushed::NoRow => Ok(0),
        RowPushed::Misfit => Err(reader.malformed(at)),
        RowPushed::Bad => Err(reader.not_computed(ComputeKind::IllTyped, at)),
    }
}

/// Reads the record that a text begins with.
fn read_record<'a>(
    reader: &Reader<'_>,
    text: &'a [u8],
    at: u64,
    head: bool,
    columns: &mut Vec<Column>,
    fields: &mut Vec<RawField<'a>>,
    content: &mut Vec<u8>,
) -> Result<Step<'a>, Fault>
    requires some { 0 < length text.now }
    requires used { length reader.now.used.now ≡ length columns.old.items }
    requires fit { IsDialect reader.now.options.now }
    ensures steps { StepsTo reader.now.options.now reader.now.used.now reader.now.file head at text.now
        columns.old.items result columns.new.items }
    ensures shorter { IfOk result (λ step. length step.rest.now < length text.now) }
    ensures utf8 { IfOk result (λ step. IsUtf8 text.now → IsUtf8 step.rest.now) }
{
    match split_record(text, reader.options, columns.len() + 2, fields)? {
        Split::Fields(rest) => {
            if !is_text(&text[..text.len() - rest.len()]) {
                return Err(reader.not_computed(ComputeKind::NotUtf8, at));
            }
            if head {
                return Ok(Step {
                    rest,
                    head: is_empty(fields.as_slice()),
                    rows: 0,
                });
            }
            let rows = read_row(reader, fields.as_slice(), at, columns, content)?;
            Ok(Step {
                rest,
                head: false,
                rows,
            })
        }
        Split::Comment(rest) => {
            if !is_text(&text[..text.len() - rest.len()]) {
                return Err(reader.not_computed(ComputeKind::NotUtf8, at));
            }
            Ok(Step {
                rest,
                head,
                rows: 0,
            })
        }
        Split::Broken => Err(reader.malformed(at)),
    }
}

/// Reads the rows of a batch of records, or where that is not to be, the one record that a text begins with.
///
/// A line without bytes is not for a batch, so none is begun for it.
/// `is_utf8` says that the text is known to be UTF-8.
fn read_turn<'a>(
    reader: &Reader<'_>,
    text: &'a [u8],
    at: u64,
    head: bool,
    is_utf8: bool,
    columns: &mut Vec<Column>,
    fields: &mut Vec<RawField<'a>>,
    content: &mut Vec<u8>,
) -> Result<Step<'a>, Fault>
    requires some { 0 < length text.now }
    requires used { length reader.now.used.now ≡ length columns.old.items }
    requires fit { IsDialect reader.now.options.now }
    requires utf8 { IsTrue is_utf8 → IsUtf8 text.now }
    ensures turns { TurnsTo reader.now.options.now reader.now.used.now reader.now.file head at text.now
        columns.old.items result columns.new.items }
    ensures shorter { IfOk result (λ step. length step.rest.now < length text.now) }
    ensures room { IfOk result (λ step. step.rows + length step.rest.now ≤ length text.now) }
    ensures utf8 { IfOk result (λ step. IsUtf8 text.now → IsUtf8 step.rest.now) }
{
    if head || !is_utf8 || text[0] == reader.options.eol() {
        return read_record(reader, text, at, head, columns, fields, content);
    }
    match read_batch(
        reader.alloc,
        text,
        columns,
        reader.used,
        reader.options,
        fields,
        content,
    )? {
        Some((rest, rows)) => Ok(Step {
            rest,
            head: false,
            rows,
        }),
        None => read_record(reader, text, at, head, columns, fields, content),
    }
}

/// What follows a text within it: nothing.
fn end_of(text: &[u8]) -> &[u8]
    ensures { result.now ≡ [] }
{
    &text[text.len()..]
}

/// Reads all rows of a text by their marks, or where that is not to be, what one turn reads. It is tried once.
fn read_more<'a>(
    reader: &Reader<'_>,
    text: &'a [u8],
    at: u64,
    head: bool,
    is_utf8: bool,
    tries_marks: &mut bool,
    columns: &mut Vec<Column>,
    fields: &mut Vec<RawField<'a>>,
    room: &mut ReadRoom,
) -> Result<Step<'a>, Fault>
    requires some { 0 < length text.now }
    requires used { length reader.now.used.now ≡ length columns.old.items }
    requires fit { IsDialect reader.now.options.now }
    requires utf8 { IsTrue is_utf8 → IsUtf8 text.now }
    ensures turns { TurnsTo reader.now.options.now reader.now.used.now reader.now.file head at text.now
        columns.old.items result columns.new.items }
    ensures shorter { IfOk result (λ step. length step.rest.now < length text.now) }
    ensures room { IfOk result (λ step. step.rows + length step.rest.now ≤ length text.now) }
    ensures utf8 { IfOk result (λ step. IsUtf8 text.now → IsUtf8 step.rest.now) }
{
    if head || !is_utf8 || !*tries_marks {
        return read_turn(
            reader,
            text,
            at,
            head,
            is_utf8,
            columns,
            fields,
            &mut room.content,
        );
    }
    *tries_marks = false;
    match read_marked(
        reader.alloc,
        text,
        columns,
        reader.used,
        reader.options,
        &mut room.places,
        &mut room.content,
    )? {
        Some(rows) => Ok(Step {
            rest: end_of(text),
            head: false,
            rows,
        }),
        None => read_turn(
            reader,
            text,
            at,
            head,
            is_utf8,
            columns,
            fields,
            &mut room.content,
        ),
    }
}

/// Reads record after record, and says how many rows they gave and whether the header is still to come.
fn read_all(
    reader: &Reader<'_>,
    bytes: &[u8],
    at: u64,
    head: bool,
    columns: &mut Vec<Column>,
    room: &mut ReadRoom,
) -> Result<(usize, bool), Fault>
    requires places { at + length bytes.now < 2 ^ 64 }
    requires used { length reader.now.used.now ≡ length columns.old.items }
    requires fit { IsDialect reader.now.options.now }
    requires empty { AreHigh 0 (chosen reader.now.used.now columns.old.items) }
    ensures { ReadsAll reader.now.file reader.now.used.now
        (read_of reader.now.used.now
        (reading reader.now.options.now (column_kinds columns.old.items) head at bytes.now))
        columns.old.items result columns.new.items }
{
    // Most texts are UTF-8: then their records are read many at once, and are not tested one by one.
    let is_utf8 = is_text(bytes);
    let mut tries_marks = true;
    let mut fields = Vec::new(reader.alloc);
    let mut rest = bytes;
    let mut place = at;
    let mut awaits_header = head;
    let mut height = 0;
    for _ in 0..bytes.len() {
        let behind = behind_empty(rest, awaits_header, columns.len(), reader.options);
        place += (rest.len() - behind.len()) as u64;
        rest = behind;
        if rest.is_empty() {
            return Ok((height, awaits_header));
        }
        let step = read_more(
            reader,
            rest,
            place,
            awaits_header,
            is_utf8,
            &mut tries_marks,
            columns,
            &mut fields,
            room,
        )?;
        place += (rest.len() - step.rest.len()) as u64;
        rest = step.rest;
        awaits_header = step.head;
        height += step.rows;
    }
    Ok((height, awaits_header))
}

/// The used columns that were read.
pub struct ColumnsRead {
    /// The used columns.
    columns: Vec<Column>,
    /// How many rows they have.
    height: usize,
    /// Whether the header is still to come.
    head: bool,
}

/// Reads record after record into columns of their own.
fn read_columns(
    reader: &Reader<'_>,
    bytes: &[u8],
    at: u64,
    head: bool,
    room: &mut ReadRoom,
) -> Result<ColumnsRead, Fault>
    requires places { at + length bytes.now < 2 ^ 64 }
    requires used { length reader.now.used.now ≡ length reader.now.schema.now }
    requires fit { IsDialect reader.now.options.now }
    ensures { ReadsColumns reader.now.file reader.now.schema.now reader.now.used.now
        (read_of reader.now.used.now
        (reading reader.now.options.now (kinds_of reader.now.schema.now) head at bytes.now)) result }
{
    let mut columns = columns_of(reader.alloc, reader.schema)?;
    let (height, awaits_header) = read_all(reader, bytes, at, head, &mut columns, room)?;
    let kept = chosen_columns(reader.alloc, &mut columns, reader.used)?;
    Ok(ColumnsRead {
        columns: kept,
        height,
        head: awaits_header,
    })
}

/// Reads whole records into a frame.
fn read_frame(
    reader: &Reader<'_>,
    bytes: &[u8],
    at: u64,
    head: bool,
    room: &mut ReadRoom,
) -> Result<(Frame, bool), Fault>
    requires places { at + length bytes.now < 2 ^ 64 }
    requires used { length reader.now.used.now ≡ length reader.now.schema.now }
    requires fit { IsDialect reader.now.options.now }
    ensures { ReadsRecords reader.now.file reader.now.schema.now reader.now.used.now
        (read_of reader.now.used.now
        (reading reader.now.options.now (kinds_of reader.now.schema.now) head at bytes.now)) result }
{
    let read = read_columns(reader, bytes, at, head, room)?;
    let ColumnsRead {
        columns,
        height,
        head,
    } = read;
    let chosen = chosen_schema(reader.alloc, reader.schema, reader.used)?;
    Ok((Frame::new(reader.alloc, chosen, columns, height), head))
}

/// Reads whole records, which begin at place `at` of a file, into the used columns.
///
/// `head` says whether the header is still to come, and so does the answer. The fault of a record that is refused is
/// `Malformed`, or a `ComputeError` that is `NotUtf8` or `IllTyped`, with the place of its first byte.
pub fn read_records(
    alloc: Global,
    bytes: &[u8],
    at: u64,
    file: u32,
    schema: &Schema,
    used: &[bool],
    head: bool,
    options: &CsvOptions,
) -> Result<(Frame, bool), Fault>
    requires places { at + length bytes.now < 2 ^ 64 }
    requires used { length used.now ≡ length schema.now }
    ensures reading { ReadsRecords file schema.now used.now
        (read_of used.now (reading options.now (kinds_of schema.now) head at bytes.now)) result }
    ensures grammar { ReadsOfGrammar file options.now schema.now used.now head at bytes.now result }
{
    let mut room = ReadRoom::new(alloc);
    read_records_with(
        alloc, bytes, at, file, schema, used, head, options, &mut room,
    )
}

/// Reads whole records as `read_records` does, with room that is kept from one text to the next.
pub fn read_records_with(
    alloc: Global,
    bytes: &[u8],
    at: u64,
    file: u32,
    schema: &Schema,
    used: &[bool],
    head: bool,
    options: &CsvOptions,
    room: &mut ReadRoom,
) -> Result<(Frame, bool), Fault>
    requires places { at + length bytes.now < 2 ^ 64 }
    requires used { length used.now ≡ length schema.now }
    ensures reading { ReadsRecords file schema.now used.now
        (read_of used.now (reading options.now (kinds_of schema.now) head at bytes.now)) result }
    ensures grammar { ReadsOfGrammar file options.now schema.now used.now head at bytes.now result }
{
    // Only the proof needs this call: its clause says that these options do not contradict each other.
    let _comment = options.comment();
    let reader = Reader {
        alloc,
        file,
        schema,
        used,
        options,
    };
    read_frame(&reader, bytes, at, head, room)
}
