//! Frames: columns of one height side by side, which contracts see as a table of rows.
ghost use Rattle.std.specs.Prelude.{◌≡◌, ℕ, ◌≢◌, ◌+◌, ◌^◌, ◌<◌, ◌≤◌, ◌++◌, [], ◌∷◌, length, map, take, drop, Some, slice_get, IfOk, OnOk, OnErr, IsOkUnless};
ghost use Rattle.std.specs.List.{All};
ghost use Rattle.morsel_meaning.specs.Values.{FitsRows, kinds_of, names_of};
ghost use Rattle.morsel_frame.specs.Frames.{rows_of, Fit, AreTyped, AreBlank, IsFramed};
ghost use Rattle.morsel_frame.specs.Names.{AreDistinctPlaces};
ghost use Rattle.morsel_frame.specs.Refusals.{Refuses, fault_of_mismatch, repeat_fault, index_fault, first_fault};
ghost use Rattle.morsel_frame.specs.Tables.{cell_at, rows_between, difference, beside, rows_at, cells_at, fields_at, numbered, with_text};

use crate::fields::{joined, with_first_field, with_last_field};
use crate::made::{counted_column, gather_each, repeated_text, with_first};
use crate::mismatch::mismatch;
use crate::packed::append_vec;
use crate::selects::{select_schema, take_columns};
use crate::stacks::{range_of_each, stack, truncate_each};
use crate::{Column, Schema};
use morsel_meaning::{ColType, ComputeKind, Fault, Name, QUERY_FILE};
use std::alloc::Global;
use std::marker::Model;

/// Columns of one height, as a table of rows.
///
/// Where there is no row, the columns may be left out: a frame without rows then takes no memory of its own, and
/// lends one of three empty columns for each field.
#[derive(Debug, Drop)]
pub struct Frame {
    schema: Schema,
    height: usize,
    columns: Vec<Column>,
    ints: Column,
    bools: Column,
    texts: Column,
}

impl Model for Frame {
    ghost use Rattle.morsel_meaning.specs.Values.{Table};

    ghost Value = { Table };

    ghost use Rattle.std.specs.Prelude.{◌≡◌, []};
    ghost use Rattle.morsel_frame.specs.Frames.{rows_of, IsFramed, AreBlank};

    ghost view = { λ frame. record { schema = frame.schema; rows = rows_of frame.height frame.columns.items } };

    ghost invariant = { λ frame. IsFramed frame.schema frame.height frame.columns.items × AreBlank frame.ints frame.bools frame.texts };
}

impl Frame {
    /// No rows under these fields.
    pub fn empty(alloc: Global, schema: Schema) -> Frame
        ensures { result ≡ record { schema = schema; rows = [] } }
    {
        framed(alloc, schema, Vec::new(alloc), 0)
    }

    /// The rows of these columns.
    pub fn new(alloc: Global, schema: Schema, columns: Vec<Column>, height: usize) -> Frame
        requires { Fit schema height columns.items }
        ensures { result ≡ record { schema = schema; rows = rows_of height columns.items } }
    {
        check_types(&columns);
        framed(alloc, schema, columns, height)
    }

    /// How many rows there are.
    pub fn height(&self) -> usize
        ensures len { result ≡ length self.now.rows }
        ensures fits { FitsRows (kinds_of self.now.schema) self.now.rows }
    {
        self.height
    }

    /// How many columns there are.
    pub fn width(&self) -> usize
        ensures { result ≡ length self.now.schema }
    {
        self.schema.len()
    }

    /// The names and types of the columns.
    pub fn schema(&self) -> &Schema
        ensures { result.now ≡ self.now.schema }
    {
        &self.schema
    }

    /// The column at this place.
    pub fn column(&self, at: usize) -> &Column
        requires { at < length self.now.schema }
        ensures kind { slice_get (kinds_of self.now.schema) at ≡ Some result.now.kind }
        ensures values { result.now.values ≡ map (cell_at at) self.now.rows }
    {
        if at >= self.columns.len() {
            return blank(
                &self.ints,
                &self.bools,
                &self.texts,
                self.schema.field(at).kind,
            );
        }
        &self.columns[at]
    }

    /// Those of `len` rows from row `offset` on that there are.
    pub fn slice(&self, alloc: Global, offset: usize, len: usize) -> Result<Frame, Fault>
        ensures ok { IfOk result (λ frame. frame ≡ record self.now { rows = rows_between offset len self.now.rows }) }
        ensures out_of_memory { IsOkUnless result Fault.OutOfMemory }
    {
        let from = offset.min(self.height);
        let height = len.min(self.height - from);
        let columns = range_of_each(alloc, self.columns.as_slice(), from, from + height)?;
        let schema = self.schema.again()?;
        Ok(framed(alloc, schema, columns, height))
    }

    /// Drops the rows from row `len` on.
    pub fn truncate(&mut self, len: usize)
        ensures { self.new ≡ record self.old { rows = take len self.old.rows } }
    {
        if len >= self.height {
            return;
        }
        truncate_each(&mut self.columns, len);
        self.height = len;
    }

    /// The rows before row `at`, and those from it on.
    pub fn split_at(self, alloc: Global, at: usize) -> Result<(Frame, Frame), Fault>
        requires { at ≤ length self.rows }
        ensures front { IfOk result (λ parts. parts.0 ≡ record self { rows = take at self.rows }) }
        ensures back { IfOk result (λ parts. parts.1 ≡ record self { rows = drop at self.rows }) }
        ensures out_of_memory { IsOkUnless result Fault.OutOfMemory }
    {
        let mut front = self;
        let back = front.slice(alloc, at, front.height() - at)?;
        front.truncate(at);
        Ok((front, back))
    }

    /// Puts the other's rows last. Another width is a mismatch of the empty name, and else the first column that
    /// differs in name or type is one of its name here.
    pub fn vstack(&mut self, other: &Frame) -> Result<(), Fault>
        requires { length self.old.rows + length other.now.rows < 2 ^ 64 }
        ensures ok { OnOk result (self.new ≡ record self.old { rows = self.old.rows ++ other.now.rows }) }
        ensures refused { Refuses (fault_of_mismatch (difference self.old.schema other.now.schema)) result }
        ensures err { OnErr result (self.new ≡ self.old) }
    {
        let alloc = *self.columns.allocator();
        if let Some(name) = mismatch(alloc, self.schema.fields(), other.schema.fields())? {
            return Err(Fault::SchemaMismatch { name });
        }
        put_below(
            alloc,
            &self.schema,
            &mut self.columns,
            self.height,
            other.columns.as_slice(),
            other.height,
        )?;
        self.height += other.height;
        Ok(())
    }

    /// The columns of this frame, and after them the other's.
    pub fn hstack(self, alloc: Global, other: Frame) -> Result<Frame, Fault>
        requires { length self.rows ≡ length other.rows }
        ensures ok { IfOk result (λ frame. frame ≡ record { schema = self.schema ++ other.schema; rows = beside self.rows other.rows }) }
        ensures refused { Refuses (repeat_fault (self.schema ++ other.schema)) result }
    {
        let (schema, mut columns, height) = self.into_parts();
        let (other_schema, others, _height) = other.into_parts();
        let schema = joined(alloc, schema, other_schema)?;
        if height == 0 {
            return Ok(Frame::empty(alloc, schema));
        }
        append_vec(&mut columns, others)?;
        Ok(framed(alloc, schema, columns, height))
    }

    /// The rows with these numbers, each as often as its number is given.
    pub fn gather(&self, alloc: Global, rows: &[usize]) -> Result<Frame, Fault>
        requires { All (λ row. row < length self.now.rows) rows.now }
        ensures ok { IfOk result (λ frame. frame ≡ record self.now { rows = rows_at self.now.rows rows.now }) }
        ensures out_of_memory { IsOkUnless result Fault.OutOfMemory }
    {
        let columns = gather_each(alloc, self.columns.as_slice(), rows)?;
        let schema = self.schema.again()?;
        Ok(framed(alloc, schema, columns, rows.len()))
    }

    /// The columns at these places, in this order.
    pub fn select(self, alloc: Global, columns: &[usize]) -> Result<Frame, Fault>
        requires within { All (λ at. at < length self.schema) columns.now }
        requires once { AreDistinctPlaces columns.now }
        ensures ok { IfOk result (λ frame. frame ≡ record { schema = fields_at self.schema columns.now; rows = map (cells_at columns.now) self.rows }) }
        ensures out_of_memory { IsOkUnless result Fault.OutOfMemory }
    {
        let (schema, held, height) = self.into_parts();
        let schema = select_schema(alloc, &schema, columns)?;
        if height == 0 {
            return Ok(Frame::empty(alloc, schema));
        }
        let picked = take_columns(alloc, held, columns)?;
        Ok(framed(alloc, schema, picked, height))
    }

    /// The rows with their numbers from `offset` on in a first column of this name.
    pub fn with_row_index(self, alloc: Global, name: Name, offset: u32) -> Result<Frame, Fault>
        ensures ok { IfOk result (λ frame. frame ≡ record { schema = record { name = name; kind = ColType.Int } ∷ self.schema; rows = numbered offset self.rows }) }
        ensures refused { Refuses (first_fault (repeat_fault (record { name = name; kind = ColType.Int } ∷ self.schema)) (index_fault offset (length self.rows))) result }
    {
        let (schema, columns, height) = self.into_parts();
        let schema = with_first_field(alloc, name, ColType::Int, schema)?;
        if height == 0 {
            return Ok(Frame::empty(alloc, schema));
        }
        if height > (u32::MAX - offset) as usize {
            return Err(Fault::ComputeError {
                kind: ComputeKind::IndexTooLarge,
                file: QUERY_FILE,
                at: 0,
            });
        }
        let index = counted_column(alloc, offset, height)?;
        let columns = with_first(alloc, index, columns)?;
        Ok(framed(alloc, schema, columns, height))
    }

    /// The rows with this text in a last column of this name.
    pub fn with_text_column(self, alloc: Global, name: Name, value: &str) -> Result<Frame, Fault>
        ensures ok { IfOk result (λ frame. frame ≡ record { schema = self.schema ++ record { name = name; kind = ColType.Text } ∷ []; rows = with_text value.now self.rows }) }
        ensures refused { Refuses (repeat_fault (self.schema ++ record { name = name; kind = ColType.Text } ∷ [])) result }
    {
        let (schema, mut columns, height) = self.into_parts();
        let schema = with_last_field(alloc, schema, name, ColType::Text)?;
        if height == 0 {
            return Ok(Frame::empty(alloc, schema));
        }
        columns.push(repeated_text(alloc, value, height)?)?;
        Ok(framed(alloc, schema, columns, height))
    }
}

impl Frame {
    /// The schema, the columns and the height, of which the columns may be left out where it is 0.
    fn into_parts(self) -> (Schema, Vec<Column>, usize)
        ensures schema { result.0 ≡ self.schema }
        ensures height { result.2 ≡ length self.rows }
        ensures framed { IsFramed self.schema result.2 result.1.items }
        ensures rows { rows_of result.2 result.1.items ≡ self.rows }
    {
        (self.schema, self.columns, self.height)
    }
}

/// The frame of these columns.
fn framed(alloc: Global, schema: Schema, columns: Vec<Column>, height: usize) -> Frame
    requires { IsFramed schema height columns.items }
    ensures { result ≡ record { schema = schema; rows = rows_of height columns.items } }
{
    Frame {
        schema,
        height,
        columns,
        ints: Column::new(alloc, ColType::Int),
        bools: Column::new(alloc, ColType::Bool),
        texts: Column::new(alloc, ColType::Text),
    }
}

/// The column without values of this type.
fn blank<'a>(ints: &'a Column, bools: &'a Column, texts: &'a Column, kind: ColType) -> &'a Column
    requires { AreBlank ints.now bools.now texts.now }
    ensures { result.now ≡ record { kind = kind; values = [] } }
{
    match kind {
        ColType::Int => ints,
        ColType::Bool => bools,
        ColType::Text => texts,
    }
}

/// Asks each column, so that a proof knows the type of its values.
fn check_types(columns: &Vec<Column>)
    ensures { AreTyped columns.now.items }
{
    for column in columns {
        let _len = column.len();
    }
}

/// Puts the others' rows below those of the columns, under the same schema.
fn put_below(
    alloc: Global,
    schema: &Schema,
    columns: &mut Vec<Column>,
    height: usize,
    others: &[Column],
    more: usize,
) -> Result<(), Fault>
    requires framed { IsFramed schema.now height columns.old.items }
    requires others_framed { IsFramed schema.now more others.now }
    ensures framed { OnOk result (IsFramed schema.now (height + more) columns.new.items) }
    ensures rows { OnOk result (rows_of (height + more) columns.new.items ≡ rows_of height columns.old.items ++ rows_of more others.now) }
    ensures err { OnErr result (columns.new.items ≡ columns.old.items) }
    ensures out_of_memory { IsOkUnless result Fault.OutOfMemory }
{
    let _width = schema.len();
    if more == 0 {
        return Ok(());
    }
    if height == 0 {
        *columns = range_of_each(alloc, others, 0, more)?;
        return Ok(());
    }
    stack(columns, others, height)?;
    Ok(())
}
