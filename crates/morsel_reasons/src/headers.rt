//! Headers with other names than those of the schema. That is no fault, and may tell that columns stand in another order, or that
//! a name is misspelt.
//!
//! A header that has no name of the schema, and whose fields are values of their columns, is not told: it may be the first row of
//! a file without header, or of texts alone.
ghost use Rattle.std.specs.Prelude.{◌≡◌, ◌<◌, length};

use crate::misfits::misfit_of;
use crate::records::record_end;
use crate::walk::{FieldAt, FieldEnd, field_at, walk};
use morsel_file_lines::{bytes_from, line_of, open};
use morsel_outside::{FileNo, Io};
use morsel_query_reasons::{
    CsvFile, CsvForm, Unsaid, part, show, show_name, show_record, show_value,
};
use std::alloc::{AllocError, Global};

/// How many bytes a header is looked for in.
const MOST_BYTES: usize = 65_536;

/// In how many columns a name of the schema is looked for.
const MOST_COMPARED: usize = 1_024;

/// What a file may begin with, before its first record.
const MARK: [u8; 3] = [0xEF, 0xBB, 0xBF];

/// A name of a header that differs from that of its column.
#[derive(Clone, Copy, Debug)]
struct Other<'t> {
    number: usize,
    field: FieldAt,
    name: &'t str,
}

/// Puts a warning last where a file has a header with other names than those of its columns.
pub fn write_header<H: Io>(
    alloc: Global,
    io: &mut H,
    table: &CsvFile<'_>,
    out: &mut String,
) -> Result<(), Unsaid> {
    if !table.dialect.has_header {
        return Ok(());
    }
    let file = open(io, table.file)?;
    write_of_file(alloc, io, table, file, out)
}

/// Puts a warning last where an open file has a header with other names.
fn write_of_file<H: Io>(
    alloc: Global,
    io: &mut H,
    table: &CsvFile<'_>,
    file: FileNo,
    out: &mut String,
) -> Result<(), Unsaid>
    requires { file.0 < length (H.seen io.old).sizes }
{
    let bytes = bytes_from(alloc, io, file, 0, MOST_BYTES)?;
    let Some(at) = header_at(table.dialect, bytes.as_slice()) else {
        return Ok(());
    };
    let Some(line) = line_of(alloc, io, file, at as u64)? else {
        return Ok(());
    };
    write_of_bytes(out, table, part(bytes.as_slice(), at, bytes.len()), line)?;
    Ok(())
}

/// Puts a warning last where the bytes begin with a header of other names.
fn write_of_bytes(
    out: &mut String,
    table: &CsvFile<'_>,
    bytes: &[u8],
    line: u64,
) -> Result<(), AllocError> {
    let Some(other) = other_name(table, bytes) else {
        return Ok(());
    };
    if !knows_some(table, bytes) && is_row(table, bytes) {
        return Ok(());
    }
    show(out, table.file.as_bytes())?;
    write!(
        out,
        ":{line}: warning: field {} of the header is ",
        other.number.saturating_add(1)
    )?;
    show_value(out, part(bytes, other.field.from, other.field.to))?;
    out.push_str(", the schema says ")?;
    show_name(out, other.name)?;
    show_record(
        out,
        part(bytes, 0, record_end(table, bytes)),
        other.field.begin,
    )
}

/// The first name of a header that differs from that of its column.
fn other_name<'t>(table: &CsvFile<'t>, bytes: &[u8]) -> Option<Other<'t>> {
    let mut at: usize = 0;
    let mut number: usize = 0;
    for column in table.columns.as_slice() {
        let field = field_at(table.dialect, bytes, at);
        // A quoted name with a quote in it is written with two.
        if !is_same(part(bytes, field.from, field.to), column.name)
            && !has_quote(table.dialect, column.name)
        {
            return Some(Other {
                number,
                field,
                name: column.name,
            });
        }
        if field.end != FieldEnd::Separator {
            return None;
        }
        at = field.behind.saturating_add(1);
        number = number.saturating_add(1);
    }
    None
}

/// Whether each field of a header is a value of its column.
fn is_row(table: &CsvFile<'_>, bytes: &[u8]) -> bool {
    let mut at: usize = 0;
    for column in table.columns.as_slice() {
        let field = field_at(table.dialect, bytes, at);
        if misfit_of(column.kind, part(bytes, field.from, field.to)).is_some() {
            return false;
        }
        if field.end != FieldEnd::Separator {
            return true;
        }
        at = field.behind.saturating_add(1);
    }
    true
}

/// Whether the name of a field is this one, in small letters or in capitals.
fn is_same(content: &[u8], name: &str) -> bool {
    content.eq_ignore_ascii_case(name.as_bytes())
}

/// Whether a header has a name of the schema, in any place.
fn knows_some(table: &CsvFile<'_>, bytes: &[u8]) -> bool {
    let mut at: usize = 0;
    for _ in 0..MOST_COMPARED {
        let field = field_at(table.dialect, bytes, at);
        if is_known(table, part(bytes, field.from, field.to)) {
            return true;
        }
        if field.end != FieldEnd::Separator {
            return false;
        }
        at = field.behind.saturating_add(1);
    }
    false
}

/// Whether a name is one of the first of the schema.
fn is_known(table: &CsvFile<'_>, content: &[u8]) -> bool {
    let columns = table.columns.as_slice();
    for column in &columns[..columns.len().min(MOST_COMPARED)] {
        if is_same(content, column.name) {
            return true;
        }
    }
    false
}

/// Whether a name has a quote in it.
fn has_quote(dialect: CsvForm<'_>, name: &str) -> bool {
    for byte in name.as_bytes() {
        if dialect.is_quote(*byte) {
            return true;
        }
    }
    false
}

/// Where the header begins: the first record that is no comment and not empty.
fn header_at(dialect: CsvForm<'_>, bytes: &[u8]) -> Option<usize> {
    let mut at = if bytes.starts_with(&MARK) { 3 } else { 0 };
    for _ in bytes {
        let rest = part(bytes, at, bytes.len());
        if rest.is_empty() {
            return None;
        }
        if is_passed(dialect, rest) {
            at = line_after(bytes, at, dialect.eol);
        } else {
            return Some(at);
        }
    }
    None
}

/// Whether the bytes begin with a record that is a comment, or empty.
fn is_passed(dialect: CsvForm<'_>, bytes: &[u8]) -> bool {
    if let Some(comment) = dialect.comment
        && bytes.starts_with(comment.as_bytes())
    {
        return true;
    }
    let walked = walk(dialect, bytes);
    walked.before == 0 && !walked.last.is_quoted && walked.last.to == walked.last.from
}

/// The place behind the next eol byte.
fn line_after(bytes: &[u8], from: usize, eol: u8) -> usize {
    for at in from..bytes.len() {
        if bytes.get(at) == Some(&eol) {
            return at.saturating_add(1);
        }
    }
    bytes.len()
}
