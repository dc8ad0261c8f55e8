//! What is wrong with a record, in words.

use crate::misfits::{CellMisfit, misfit_of};
use crate::told::RecordFault;
use crate::walk::{FieldAt, FieldEnd, Walked, field_at, nth_field, walk};
use morsel_query_reasons::{ColumnWords, CsvFile, part, show_name, show_record, show_value};
use std::alloc::AllocError;
use std::str;

/// The separators that are looked for in a record of one field, and how they are written.
const SEPARATORS: [(u8, &str); 4] = [
    (b';', "\";\""),
    (b'\t', "a tab"),
    (b'|', "\"|\""),
    (b',', "\",\""),
];

/// What is wrong with a record. Fields are counted from 0, and places from the record's first byte.
#[derive(Clone, Copy, Debug)]
pub enum RecordFlaw {
    /// The quote of this field at this place is open at the end of what was read.
    Open {
        number: usize,
        mark: usize,
    },
    /// Text follows the closing quote of this field, at this place.
    Text {
        number: usize,
        mark: usize,
    },
    /// There are so many fields. The first that is too much is at the place, or the record ends there.
    Count {
        fields: usize,
        mark: usize,
    },
    /// This byte, at this place, is no part of a character.
    Byte {
        byte: u8,
        mark: usize,
    },
    /// The field of this number is no value of its column.
    Value {
        number: usize,
        field: FieldAt,
        misfit: CellMisfit,
    },
}

impl RecordFlaw {
    /// Whether a quote is open.
    pub fn is_open(self) -> bool {
        match self {
            RecordFlaw::Open { .. } => true,
            _ => false,
        }
    }
}

/// A record, as far as it was read.
#[derive(Clone, Copy, Debug)]
pub struct Record<'b> {
    /// The bytes from its first one on, and what follows it.
    pub bytes: &'b [u8],
    /// Whether the file ends with them.
    pub is_whole: bool,
}

/// What is wrong with a record for which this fault was told; none where nothing is, or too little was read to see it.
pub fn flaw_of(table: &CsvFile<'_>, fault: RecordFault, record: Record<'_>) -> Option<RecordFlaw> {
    match fault {
        RecordFault::Malformed => form_flaw(table, record),
        RecordFault::NotUtf8 => byte_flaw(record),
        RecordFault::IllTyped => value_flaw(table, record),
    }
}

/// What keeps a record from being one of as many fields as there are columns.
fn form_flaw(table: &CsvFile<'_>, record: Record<'_>) -> Option<RecordFlaw> {
    let walked = walk(table.dialect, record.bytes);
    match walked.last.end {
        FieldEnd::Open => Some(RecordFlaw::Open {
            number: walked.before,
            mark: walked.last.begin,
        }),
        FieldEnd::Text => Some(RecordFlaw::Text {
            number: walked.before,
            mark: walked.last.behind,
        }),
        FieldEnd::Record => count_flaw(table, record, walked),
        FieldEnd::Separator => None,
    }
}

/// That a record has another number of fields than there are columns.
fn count_flaw(table: &CsvFile<'_>, record: Record<'_>, walked: Walked) -> Option<RecordFlaw> {
    let fields = walked.before.saturating_add(1);
    let columns = table.columns.len();
    if fields == columns || !is_seen(record, walked.last) {
        return None;
    }
    let mark = match nth_field(table.dialect, record.bytes, columns) {
        Some(field) => field.begin,
        None => walked.last.to,
    };
    Some(RecordFlaw::Count { fields, mark })
}

/// The first byte that is no part of a character.
fn byte_flaw(record: Record<'_>) -> Option<RecordFlaw> {
    let Err(error) = str::from_utf8(record.bytes) else {
        return None;
    };
    let mark = error.valid_up_to();
    // A character may go on behind what was read.
    if !record.is_whole && mark.saturating_add(4) > record.bytes.len() {
        return None;
    }
    match record.bytes.get(mark) {
        Some(byte) => Some(RecordFlaw::Byte { byte: *byte, mark }),
        None => None,
    }
}

/// The first field of a used column that is no value of it; none where it may go on behind what was read.
fn value_flaw(table: &CsvFile<'_>, record: Record<'_>) -> Option<RecordFlaw> {
    let mut at: usize = 0;
    let mut number: usize = 0;
    for column in table.columns.as_slice() {
        let field = field_at(table.dialect, record.bytes, at);
        if !is_seen(record, field) {
            return None;
        }
        if let Some(misfit) = misfit_in(table, *column, record.bytes, field) {
            return Some(RecordFlaw::Value {
                number,
                field,
                misfit,
            });
        }
        if field.end != FieldEnd::Separator {
            return None;
        }
        at = field.behind.saturating_add(1);
        number = number.saturating_add(1);
    }
    None
}

/// Whether what follows a field was read too, or is the end of the file.
fn is_seen(record: Record<'_>, field: FieldAt) -> bool {
    record.is_whole || field.behind < record.bytes.len()
}

/// What keeps a field from being a value of its column; none where the column is not used.
fn misfit_in(
    table: &CsvFile<'_>,
    column: ColumnWords<'_>,
    bytes: &[u8],
    field: FieldAt,
) -> Option<CellMisfit> {
    let content = part(bytes, field.from, field.to);
    let is_null = !field.is_quoted && content == table.dialect.null_text.as_bytes();
    if is_null || !table.uses(column.name) {
        return None;
    }
    misfit_of(column.kind, content)
}

/// Puts the number and the name of a field last.
fn write_field(out: &mut String, table: &CsvFile<'_>, number: usize) -> Result<(), AllocError> {
    write!(out, "field {}", number.saturating_add(1))?;
    let Some(name) = table.name_of(number) else {
        return Ok(());
    };
    out.push_str(" (")?;
    show_name(out, name)?;
    out.push(')')
}

/// Puts last what is wrong with a record.
pub fn write_flaw(
    out: &mut String,
    table: &CsvFile<'_>,
    record: Record<'_>,
    flaw: RecordFlaw,
) -> Result<(), AllocError> {
    match flaw {
        RecordFlaw::Open { number, .. } => {
            out.push_str("the quote that opens ")?;
            write_field(out, table, number)?;
            out.push_str(" is not closed")?;
            if record.is_whole {
                return Ok(());
            }
            let len = record.bytes.len();
            write!(out, " within {len} bytes")
        }
        RecordFlaw::Text { number, .. } => {
            out.push_str("text after the closing quote of ")?;
            write_field(out, table, number)
        }
        RecordFlaw::Count { fields, .. } => {
            write_count(out, fields, table.columns.len())?;
            write_separator(out, table, record, fields)
        }
        RecordFlaw::Byte { byte, .. } => write!(out, "not UTF-8: byte 0x{byte:02X}"),
        RecordFlaw::Value {
            number,
            field,
            misfit,
        } => {
            write_field(out, table, number)?;
            out.push_str(": ")?;
            show_value(out, part(record.bytes, field.from, field.to))?;
            out.push_str(text_of(misfit))
        }
    }
}

/// Puts last how many fields there are, and how many columns.
fn write_count(out: &mut String, fields: usize, columns: usize) -> Result<(), AllocError> {
    if fields == 1 {
        write!(out, "1 field, the schema has {columns}")
    } else {
        write!(out, "{fields} fields, the schema has {columns}")
    }
}

/// Puts last which other separator a record of one field may have: one that stands in it as often as the columns want.
fn write_separator(
    out: &mut String,
    table: &CsvFile<'_>,
    record: Record<'_>,
    fields: usize,
) -> Result<(), AllocError> {
    if fields > 1 {
        return Ok(());
    }
    let bytes = part(record.bytes, 0, record_end(table, record.bytes));
    for (separator, name) in &SEPARATORS {
        if *separator != table.dialect.separator
            && times_in(bytes, *separator).saturating_add(1) == table.columns.len()
        {
            write!(
                out,
                "; if {name} separates them, set {}.csv.separator in a query",
                table.scan
            )?;
            return Ok(());
        }
    }
    Ok(())
}

/// How often a byte stands among others.
fn times_in(bytes: &[u8], wanted: u8) -> usize {
    let mut times: usize = 0;
    for byte in bytes {
        if *byte == wanted {
            times = times.saturating_add(1);
        }
    }
    times
}

/// What a value is not, in words.
fn text_of(misfit: CellMisfit) -> &'static str {
    match misfit {
        CellMisfit::NoInt => " is no int",
        CellMisfit::LargeInt => " is past the 64 bits of an int",
        CellMisfit::NoBool => " is no bool: true or false",
    }
}

/// Where the mark stands below the record.
fn mark_of(flaw: RecordFlaw) -> usize {
    match flaw {
        RecordFlaw::Open { mark, .. }
        | RecordFlaw::Text { mark, .. }
        | RecordFlaw::Count { mark, .. }
        | RecordFlaw::Byte { mark, .. } => mark,
        RecordFlaw::Value { field, .. } => field.begin,
    }
}

/// Puts the record last, with a mark below what is wrong in it.
pub fn write_record(
    out: &mut String,
    table: &CsvFile<'_>,
    record: Record<'_>,
    flaw: RecordFlaw,
) -> Result<(), AllocError> {
    let end = record_end(table, record.bytes);
    show_record(out, part(record.bytes, 0, end), mark_of(flaw))
}

/// Where the record ends that the bytes begin with; where text follows a closing quote, the end of that.
pub fn record_end(table: &CsvFile<'_>, bytes: &[u8]) -> usize {
    let walked = walk(table.dialect, bytes);
    match walked.last.end {
        FieldEnd::Record if walked.last.is_quoted => walked.last.behind,
        FieldEnd::Record => walked.last.to,
        FieldEnd::Text => line_end(bytes, walked.last.behind, table.dialect.eol),
        FieldEnd::Open | FieldEnd::Separator => bytes.len(),
    }
}

/// The place of the next eol byte, or of the end.
fn line_end(bytes: &[u8], from: usize, eol: u8) -> usize {
    for at in from..bytes.len() {
        if bytes.get(at) == Some(&eol) {
            return at;
        }
    }
    bytes.len()
}
