//! A plain reader: the definition's program, byte by byte, which the reader for use is tested against.
//!
//! `records` finds the record that a text begins with, `rows` says which values it gives, and `columns` keeps them. It is
//! a program of its own where the reader for use is fast: it goes from byte to byte and not by `memchr`, bit marks or 16
//! bytes at once, copies each field, reads record by record and never many at once, and parses numbers by `std`. It
//! shares what the other does byte by byte too (`parts`), the test for UTF-8 (`text`), the choice of columns (`choice`),
//! and the types and faults of a step (`reader`).
ghost use Rattle.std.specs.Prelude.{◌≡◌, ◌+◌, ◌<◌, ◌≤◌, ◌^◌, length, IfOk};
ghost use Rattle.morsel_meaning.specs.Values.{kinds_of};
ghost use Rattle.morsel_grammar.specs.Grammar.{Fields};
ghost use Rattle.morsel_grammar.specs.Rows.{row_of};
ghost use Rattle.morsel_grammar.specs.Reading.{reading, read_of, chosen};
ghost use Rattle.morsel_grammar.specs.Results.{ReadsRecords};
ghost use Rattle.morsel_grammar.specs.GrammarResults.{ReadsOfGrammar};
ghost use Rattle.morsel_text.specs.Pushes.{column_kinds, AreTexts};
ghost use Rattle.morsel_text.specs.Steps.{AreHigh};
ghost use Rattle.morsel_text.specs.Plain.{RowStepsPlainly, StepsPlainly, ReadsAllPlainly};

mod columns;
mod records;
mod rows;

use crate::choice::{chosen_schema, columns_of};
use crate::reader::{Reader, Step};
use crate::text::is_text;
use columns::push_row;
use morsel_frame::{Column, Frame, Schema};
use morsel_grammar::CsvOptions;
use morsel_meaning::{ComputeKind, Fault};
use records::{PlainField, PlainSplit, is_empty, split};
use rows::{PlainRow, row};
use std::alloc::Global;

/// Reads whole records into the used columns as `read_records` does, byte by byte.
pub fn read_records_plainly(
    alloc: Global,
    bytes: &[u8],
    at: u64,
    file: u32,
    schema: &Schema,
    used: &[bool],
    head: bool,
    options: &CsvOptions,
) -> Result<(Frame, bool), Fault>
    requires places { at + length bytes.now < 2 ^ 64 }
    requires used { length used.now ≡ length schema.now }
    ensures reading { ReadsRecords file schema.now used.now
        (read_of used.now (reading options.now (kinds_of schema.now) head at bytes.now)) result }
    ensures grammar { ReadsOfGrammar file options.now schema.now used.now head at bytes.now result }
{
    // Only the proof needs this call: its clause says that these options do not contradict each other.
    let _comment = options.comment();
    let reader = Reader {
        alloc,
        file,
        schema,
        used,
        options,
    };
    read_frame(&reader, bytes, at, head)
}

/// Reads whole records into a frame.
fn read_frame(
    reader: &Reader<'_>,
    bytes: &[u8],
    at: u64,
    head: bool,
) -> Result<(Frame, bool), Fault>
    requires places { at + length bytes.now < 2 ^ 64 }
    requires used { length reader.now.used.now ≡ length reader.now.schema.now }
    ensures { ReadsRecords reader.now.file reader.now.schema.now reader.now.used.now
        (read_of reader.now.used.now
        (reading reader.now.options.now (kinds_of reader.now.schema.now) head at bytes.now)) result }
{
    let chosen = chosen_schema(reader.alloc, reader.schema, reader.used)?;
    let mut columns = columns_of(reader.alloc, &chosen)?;
    let (height, awaits_header) = read_all(reader, bytes, at, head, &mut columns)?;
    Ok((
        Frame::new(reader.alloc, chosen, columns, height),
        awaits_header,
    ))
}

/// Reads record after record, and says how many rows they gave and whether the header is still to come.
fn read_all(
    reader: &Reader<'_>,
    bytes: &[u8],
    at: u64,
    head: bool,
    columns: &mut Vec<Column>,
) -> Result<(usize, bool), Fault>
    requires places { at + length bytes.now < 2 ^ 64 }
    requires used { length reader.now.used.now ≡ length reader.now.schema.now }
    requires kinds { column_kinds columns.old.items ≡ chosen reader.now.used.now (kinds_of reader.now.schema.now) }
    requires empty { AreHigh 0 columns.old.items }
    ensures { ReadsAllPlainly reader.now.file
        (read_of reader.now.used.now
        (reading reader.now.options.now (kinds_of reader.now.schema.now) head at bytes.now))
        columns.old.items result columns.new.items }
{
    let mut rest = bytes;
    let mut place = at;
    let mut awaits_header = head;
    let mut height = 0;
    for _ in 0..bytes.len() {
        if rest.is_empty() {
            return Ok((height, awaits_header));
        }
        let step = read_record(reader, rest, place, awaits_header, columns)?;
        place += (rest.len() - step.rest.len()) as u64;
        rest = step.rest;
        awaits_header = step.head;
        height += step.rows;
    }
    Ok((height, awaits_header))
}

/// Reads the record that a text begins with.
fn read_record<'a>(
    reader: &Reader<'_>,
    text: &'a [u8],
    at: u64,
    head: bool,
    columns: &mut Vec<Column>,
) -> Result<Step<'a>, Fault>
    requires some { 0 < length text.now }
    requires used { length reader.now.used.now ≡ length reader.now.schema.now }
    requires kinds { column_kinds columns.old.items ≡ chosen reader.now.used.now (kinds_of reader.now.schema.now) }
    ensures steps { StepsPlainly reader.now.options.now (kinds_of reader.now.schema.now) reader.now.used.now reader.now.file head at text.now
        columns.old.items result columns.new.items }
    ensures within { IfOk result (λ step. length step.rest.now ≤ length text.now) }
{
    match split(reader.alloc, text, reader.options)? {
        PlainSplit::Fields(fields, rest) => {
            if !is_text(&text[..text.len() - rest.len()]) {
                return Err(reader.not_computed(ComputeKind::NotUtf8, at));
            }
            if head {
                return Ok(Step {
                    rest,
                    head: is_empty(fields.as_slice()),
                    rows: 0,
                });
            }
            let rows = read_row(reader, fields.as_slice(), at, columns)?;
            Ok(Step {
                rest,
                head: false,
                rows,
            })
        }
        PlainSplit::Comment(rest) => {
            if !is_text(&text[..text.len() - rest.len()]) {
                return Err(reader.not_computed(ComputeKind::NotUtf8, at));
            }
            Ok(Step {
                rest,
                head,
                rows: 0,
            })
        }
        PlainSplit::Broken => Err(reader.malformed(at)),
    }
}

/// Puts a record of fields that comes after the header, and says how many rows it gave.
fn read_row(
    reader: &Reader<'_>,
    fields: &[PlainField],
    at: u64,
    columns: &mut Vec<Column>,
) -> Result<usize, Fault>
    requires used { length reader.now.used.now ≡ length reader.now.schema.now }
    requires texts { AreTexts fields.now }
    requires kinds { column_kinds columns.old.items ≡ chosen reader.now.used.now (kinds_of reader.now.schema.now) }
    ensures { RowStepsPlainly
        (row_of reader.now.options.now (kinds_of reader.now.schema.now) (Fields fields.now))
        reader.now.used.now reader.now.file at columns.old.items result columns.new.items }
{
    match row(
        reader.alloc,
        fields,
        reader.schema,
        reader.used,
        reader.options,
    )? {
        PlainRow::Row(values) => {
            push_row(columns, values.as_slice())?;
            Ok(1)
        }
        PlainRow::NoRow => Ok(0),
        PlainRow::Misfit => Err(reader.malformed(at)),
        PlainRow::Bad => Err(reader.not_computed(ComputeKind::IllTyped, at)),
    }
}
