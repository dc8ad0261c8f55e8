//! Many records at once: first their fields, column by column, and then the columns' values.
ghost use Rattle.std.specs.Prelude.{◌≡◌, ◌++◌, ◌∷◌, [], length, map, replicate, IfOk, IsOkUnless, IsTrue, OnOk, IsUtf8};
ghost use Rattle.morsel_text.specs.RawFields.{shown};
ghost use Rattle.morsel_text.specs.Pushes.{AreTexts, column_kinds};
ghost use Rattle.morsel_text.specs.Steps.{AreHigh};
ghost use Rattle.morsel_text.specs.Batches.{spread, SplitsBatch, AreTextColumns, MakesColumn, MakesAll, appended, ReadsBatch};

use crate::cells::{Pushed, push_cell};
use crate::ints::int_column;
use crate::raw_field::RawField;
use crate::rows::is_empty;
use crate::split::{Split, split_record};
use morsel_frame::Column;
use morsel_grammar::CsvOptions;
use morsel_meaning::{ColType, Fault};
use std::alloc::Global;
use std::marker::Model;

/// How many records are split before their columns are made.
const BATCH_ROWS: usize = 1024;

/// The fields of some records in one column.
#[derive(Drop)]
pub struct FieldColumn<'a> {
    fields: Vec<RawField<'a>>,
}

impl<'a> Model for FieldColumn<'a> {
    ghost use Rattle.std.specs.Prelude.{List};
    ghost use Rattle.morsel_text.specs.declared.raw_field.RawField.{RawField};

    ghost Value = { List RawField };

    ghost view = { λ column. column.fields.items };
}

impl<'a> FieldColumn<'a> {
    /// No fields.
    fn new(alloc: Global) -> FieldColumn<'a>
        ensures { result ≡ [] }
    {
        FieldColumn {
            fields: Vec::new(alloc),
        }
    }

    /// Puts a field last.
    fn push(&mut self, field: RawField<'a>) -> Result<(), Fault>
        ensures ok { OnOk result (self.new ≡ self.old ++ field.entry ∷ []) }
        ensures out_of_memory { IsOkUnless result Fault.OutOfMemory }
    {
        self.fields.push(field)?;
        Ok(())
    }

    /// The fields.
    fn as_slice(&self) -> &[RawField<'a>]
        ensures { result.now ≡ self.now }
    {
        self.fields.as_slice()
    }
}

/// No fields for each column.
fn empty_batch<'a>(alloc: Global, width: usize) -> Result<Vec<FieldColumn<'a>>, Fault>
    ensures ok { IfOk result (λ batch. batch.items ≡ replicate width []) }
    ensures out_of_memory { IsOkUnless result Fault.OutOfMemory }
{
    let mut batch = Vec::new(alloc);
    for _ in 0..width {
        batch.push(FieldColumn::new(alloc))?;
    }
    Ok(batch)
}

/// Puts each field last in its column.
#[inline(always)]
fn spread<'a>(fields: &[RawField<'a>], batch: &mut Vec<FieldColumn<'a>>) -> Result<(), Fault>
    requires { length fields.now ≡ length batch.old.items }
    ensures ok { OnOk result (batch.new.items ≡ spread batch.old.items fields.now) }
    ensures out_of_memory { IsOkUnless result Fault.OutOfMemory }
{
    for at in 0..fields.len() {
        let column = &mut batch[at];
        column.push(fields[at])?;
    }
    Ok(())
}

/// Splits records off the text, up to the first that has no bytes or does not give each column a field, and puts their
/// fields into the columns. Says what follows them, and how many they are.
fn split_rows<'a>(
    text: &'a [u8],
    options: &CsvOptions,
    fields: &mut Vec<RawField<'a>>,
    batch: &mut Vec<FieldColumn<'a>>,
) -> Result<(&'a [u8], usize), Fault>
    requires utf8 { IsUtf8 text.now }
    requires texts { AreTextColumns batch.old.items }
    ensures rows { IfOk result (λ found. SplitsBatch options.now text.now batch.old.items (found.0.now, found.1) batch.new.items) }
    ensures texts { OnOk result (AreTextColumns batch.new.items) }
    ensures out_of_memory { IsOkUnless result Fault.OutOfMemory }
{
    let limit = batch.len() + 2;
    let mut rest = text;
    for row in 0..BATCH_ROWS {
        if rest.is_empty() {
            return Ok((rest, row));
        }
        match split_record(rest, options, limit, fields)? {
            Split::Fields(after) => {
                if is_empty(fields.as_slice()) || fields.len() != batch.len() {
                    return Ok((rest, row));
                }
                spread(fields.as_slice(), batch)?;
                rest = after;
            }
            Split::Comment(_) => return Ok((rest, row)),
            Split::Broken => return Ok((rest, row)),
        }
    }
    Ok((rest, BATCH_ROWS))
}

/// Makes the column of the fields' values, whatever its type; none where a field does not fit.
fn pushed_column(
    alloc: Global,
    kind: ColType,
    fields: &[RawField<'_>],
    options: &CsvOptions,
    content: &mut Vec<u8>,
) -> Result<Option<Column>, Fault>
    requires { AreTexts (map shown fields.now) }
    ensures column { IfOk result (λ made. MakesColumn options.now kind fields.now made) }
    ensures out_of_memory { IsOkUnless result Fault.OutOfMemory }
{
    let mut column = Column::new(alloc, kind);
    for field in fields {
        match push_cell(&mut column, *field, options, content)? {
            Pushed::Done => {}
            Pushed::Bad => return Ok(None),
        }
    }
    Ok(Some(column))
}

/// Makes the column of the fields' values; none where a field does not fit.
fn made_column(
    alloc: Global,
    kind: ColType,
    fields: &[RawField<'_>],
    options: &CsvOptions,
    content: &mut Vec<u8>,
) -> Result<Option<Column>, Fault>
    requires { AreTexts (map shown fields.now) }
    ensures column { IfOk result (λ made. MakesColumn options.now kind fields.now made) }
    ensures out_of_memory { IsOkUnless result Fault.OutOfMemory }
{
    match kind {
        ColType::Int => int_column(alloc, fields, options, content),
        kind => pushed_column(alloc, kind, fields, options, content),
    }
}

/// Makes a column of values for each that is used, and one without values for each other; none where a field does not
/// fit its column.
fn made_columns(
    alloc: Global,
    columns: &[Column],
    batch: &[FieldColumn<'_>],
    used: &[bool],
    options: &CsvOptions,
    content: &mut Vec<u8>,
) -> Result<Option<Vec<Column>>, Fault>
    requires used { length used.now ≡ length columns.now }
    requires batch { length batch.now ≡ length columns.now }
    requires texts { AreTextColumns batch.now }
    ensures columns { IfOk result (λ made. MakesAll options.now used.now (column_kinds columns.now) batch.now made) }
    ensures out_of_memory { IsOkUnless result Fault.OutOfMemory }
{
    let mut made = Vec::new(alloc);
    for at in 0..columns.len() {
        let kind = columns[at].kind();
        if !used[at] {
            made.push(Column::new(alloc, kind))?;
            continue;
        }
        let Some(column) = made_column(alloc, kind, batch[at].as_slice(), options, content)? else {
            return Ok(None);
        };
        made.push(column)?;
    }
    Ok(Some(made))
}

/// Whether no column has values.
fn are_empty(columns: &[Column]) -> bool
    ensures { IsTrue result → AreHigh 0 columns.now }
{
    for column in columns {
        if column.len() != 0 {
            return false;
        }
    }
    true
}

/// Puts the values of each column that was made below those of its column.
pub fn append_columns(columns: &mut Vec<Column>, made: Vec<Column>) -> Result<(), Fault>
    requires kinds { column_kinds made.items ≡ column_kinds columns.old.items }
    requires width { length made.items ≡ length columns.old.items }
    ensures ok { OnOk result (columns.new.items ≡ appended columns.old.items made.items) }
    ensures out_of_memory { IsOkUnless result Fault.OutOfMemory }
{
    // Mostly these are the first rows of a text: then nothing is copied.
    if are_empty(columns) {
        *columns = made;
        return Ok(());
    }
    append_each(columns, &made)
}

/// Puts the values of each column that was made below those of its column, one column after another.
fn append_each(columns: &mut Vec<Column>, made: &[Column]) -> Result<(), Fault>
    requires kinds { column_kinds made.now ≡ column_kinds columns.old.items }
    requires width { length made.now ≡ length columns.old.items }
    ensures ok { OnOk result (columns.new.items ≡ appended columns.old.items made.now) }
    ensures out_of_memory { IsOkUnless result Fault.OutOfMemory }
{
    for at in 0..made.len() {
        let new = &made[at];
        let column = &mut columns[at];
        column.append_rows(new, 0, new.len())?;
    }
    Ok(())
}

/// Reads the rows of the first records of a text that is UTF-8 into the columns, as many as a batch has. Says what
/// follows them, and how many they are.
///
/// `None` says that nothing was changed: the first record is no row of fields, or a field does not fit its column.
pub fn read_batch<'a>(
    alloc: Global,
    text: &'a [u8],
    columns: &mut Vec<Column>,
    used: &[bool],
    options: &CsvOptions,
    fields: &mut Vec<RawField<'a>>,
    content: &mut Vec<u8>,
) -> Result<Option<(&'a [u8], usize)>, Fault>
    requires utf8 { IsUtf8 text.now }
    requires used { length used.now ≡ length columns.old.items }
    ensures batch { IfOk result (λ found. ReadsBatch options.now used.now text.now columns.old.items found columns.new.items) }
    ensures out_of_memory { IsOkUnless result Fault.OutOfMemory }
{
    let mut batch = empty_batch(alloc, columns.len())?;
    let (rest, rows) = split_rows(text, options, fields, &mut batch)?;
    if rows == 0 {
        return Ok(None);
    }
    let Some(made) = made_columns(alloc, columns, &batch, used, options, content)? else {
        return Ok(None);
    };
    append_columns(columns, made)?;
    Ok(Some((rest, rows)))
}
