//! Records into rows of columns.
ghost use Rattle.std.specs.Prelude.{◌≡◌, length, map, IfOk, IsOkUnless};
ghost use Rattle.morsel_text.specs.RawFields.{shown};
ghost use Rattle.morsel_grammar.specs.Grammar.{Fields};
ghost use Rattle.morsel_grammar.specs.Rows.{is_empty, row_of, row_of_nothing};
ghost use Rattle.morsel_text.specs.Pushes.{with_fields, PushesFields, AreTexts, column_kinds, PushesRow};

use crate::cells::{Pushed, push_cell};
use crate::raw_field::RawField;
use morsel_frame::Column;
use morsel_grammar::CsvOptions;
use morsel_meaning::Fault;

/// What came of putting a record into columns.
pub enum RowPushed {
    /// The record is a row, which is there.
    Row,
    /// The record is no row.
    NoRow,
    /// The record has another number of fields than there are columns.
    Misfit,
    /// A used field does not fit its column's type.
    Bad,
}

/// Puts each field into its column, where that is used.
fn push_fields(
    columns: &mut Vec<Column>,
    fields: &[RawField<'_>],
    used: &[bool],
    options: &CsvOptions,
    content: &mut Vec<u8>,
) -> Result<Pushed, Fault>
    requires used { length used.now ≡ length columns.old.items }
    requires fields { length fields.now ≡ length columns.old.items }
    requires texts { AreTexts (map shown fields.now) }
    ensures fields { IfOk result (λ pushed. PushesFields (with_fields options.now used.now columns.old.items (map shown fields.now))
        pushed columns.new.items) }
    ensures out_of_memory { IsOkUnless result Fault.OutOfMemory }
{
    for at in 0..fields.len() {
        if !used[at] {
            continue;
        }
        let column = &mut columns[at];
        match push_cell(column, fields[at], options, content)? {
            Pushed::Done => {}
            Pushed::Bad => return Ok(Pushed::Bad),
        }
    }
    Ok(Pushed::Done)
}

/// Whether a record has no bytes.
pub fn is_empty(fields: &[RawField<'_>]) -> bool
    ensures { result ≡ is_empty (map shown fields.now) }
{
    if fields.len() != 1 {
        return false;
    }
    match fields[0] {
        RawField::Plain(text) => text.is_empty(),
        RawField::Quoted(_) => false,
        RawField::Doubled(_, _) => false,
    }
}

/// Puts the row of a record without bytes: one null where there is one column.
fn push_nothing(columns: &mut Vec<Column>, used: &[bool]) -> Result<RowPushed, Fault>
    requires { length used.now ≡ length columns.old.items }
    ensures row { IfOk result (λ pushed. PushesRow (row_of_nothing (column_kinds columns.old.items)) used.now
        columns.old.items pushed columns.new.items) }
    ensures out_of_memory { IsOkUnless result Fault.OutOfMemory }
{
    if columns.len() != 1 {
        return Ok(RowPushed::NoRow);
    }
    if !used[0] {
        return Ok(RowPushed::Row);
    }
    let column = &mut columns[0];
    column.push_null()?;
    Ok(RowPushed::Row)
}

/// Puts a record of fields.
pub fn push_record(
    columns: &mut Vec<Column>,
    fields: &[RawField<'_>],
    used: &[bool],
    options: &CsvOptions,
    content: &mut Vec<u8>,
) -> Result<RowPushed, Fault>
    requires used { length used.now ≡ length columns.old.items }
    requires texts { AreTexts (map shown fields.now) }
    ensures row { IfOk result (λ pushed. PushesRow
        (row_of options.now (column_kinds columns.old.items) (Fields (map shown fields.now))) used.now
        columns.old.items pushed columns.new.items) }
    ensures out_of_memory { IsOkUnless result Fault.OutOfMemory }
{
    if is_empty(fields) {
        return push_nothing(columns, used);
    }
    if fields.len() != columns.len() {
        return Ok(RowPushed::Misfit);
    }
    match push_fields(columns, fields, used, options, content)? {
        Pushed::Done => Ok(RowPushed::Row),
        Pushed::Bad => Ok(RowPushed::Bad),
    }
}
