//! One record, field by field, up to its end or to what is wrong in it.
//!
//! All places are counted from the record's first byte.

use morsel_query_reasons::CsvForm;

/// What follows a field.
#[derive(Clone, Copy, Debug, PartialEq, Eq)]
pub enum FieldEnd {
    /// A separator, and then another field.
    Separator,
    /// The end of the record.
    Record,
    /// Nothing, though its quote is open.
    Open,
    /// Text, though its quote is closed.
    Text,
}

/// A field, as it stands in a record.
#[derive(Clone, Copy, Debug)]
pub struct FieldAt {
    /// Where it begins, its quote if it has one.
    pub begin: usize,
    /// Where its content begins.
    pub from: usize,
    /// Where its content ends.
    pub to: usize,
    /// Where what follows it begins, behind its closing quote if it has one.
    pub behind: usize,
    pub is_quoted: bool,
    pub end: FieldEnd,
}

/// The field at a place.
pub fn field_at(dialect: CsvForm<'_>, bytes: &[u8], at: usize) -> FieldAt {
    match bytes.get(at) {
        Some(byte) if dialect.is_quote(*byte) => quoted_field(dialect, bytes, at, *byte),
        _ => plain_field(dialect, bytes, at),
    }
}

/// The field without quotes at a place.
fn plain_field(dialect: CsvForm<'_>, bytes: &[u8], at: usize) -> FieldAt {
    let behind = next_stop(dialect, bytes, at);
    let is_last = bytes.get(behind) != Some(&dialect.separator);
    FieldAt {
        begin: at,
        from: at,
        to: if is_last {
            without_return(dialect, bytes, at, behind)
        } else {
            behind
        },
        behind,
        is_quoted: false,
        end: if is_last {
            FieldEnd::Record
        } else {
            FieldEnd::Separator
        },
    }
}

/// The place of the next separator or end of a record; else that of the end.
fn next_stop(dialect: CsvForm<'_>, bytes: &[u8], at: usize) -> usize {
    for to in at..bytes.len() {
        if let Some(byte) = bytes.get(to)
            && dialect.stops(*byte)
        {
            return to;
        }
    }
    bytes.len().max(at)
}

/// The end of a record's last field, without a carriage return before a line feed.
fn without_return(dialect: CsvForm<'_>, bytes: &[u8], at: usize, behind: usize) -> usize {
    let last = behind.saturating_sub(1);
    if dialect.eol == b'\n' && last >= at && behind > at && bytes.get(last) == Some(&b'\r') {
        last
    } else {
        behind
    }
}

/// The quoted field at a place.
fn quoted_field(dialect: CsvForm<'_>, bytes: &[u8], at: usize, quote: u8) -> FieldAt {
    let from = at.saturating_add(1);
    let Some(to) = closing_quote(bytes, from, quote) else {
        return FieldAt {
            begin: at,
            from,
            to: bytes.len(),
            behind: bytes.len(),
            is_quoted: true,
            end: FieldEnd::Open,
        };
    };
    let behind = to.saturating_add(1);
    FieldAt {
        begin: at,
        from,
        to,
        behind,
        is_quoted: true,
        end: end_behind(dialect, bytes, behind),
    }
}

/// The place of the next quote that is not doubled.
fn closing_quote(bytes: &[u8], from: usize, quote: u8) -> Option<usize> {
    let mut is_doubled = false;
    for at in from..bytes.len() {
        if is_doubled {
            is_doubled = false;
        } else if bytes.get(at) == Some(&quote) {
            if bytes.get(at.saturating_add(1)) != Some(&quote) {
                return Some(at);
            }
            is_doubled = true;
        }
    }
    None
}

/// What follows a closing quote.
fn end_behind(dialect: CsvForm<'_>, bytes: &[u8], at: usize) -> FieldEnd {
    match bytes.get(at) {
        None => FieldEnd::Record,
        Some(byte) if *byte == dialect.separator => FieldEnd::Separator,
        Some(byte) if *byte == dialect.eol => FieldEnd::Record,
        Some(b'\r') if dialect.eol == b'\n' => end_after_return(bytes, at),
        Some(_) => FieldEnd::Text,
    }
}

/// What follows a closing quote and a carriage return at this place.
fn end_after_return(bytes: &[u8], at: usize) -> FieldEnd {
    match bytes.get(at.saturating_add(1)) {
        None | Some(b'\n') => FieldEnd::Record,
        Some(_) => FieldEnd::Text,
    }
}

/// What was found up to the end of a record, or to what is wrong in it.
#[derive(Clone, Copy, Debug)]
pub struct Walked {
    /// How many fields came before the last.
    pub before: usize,
    /// The last field that was found.
    pub last: FieldAt,
}

/// Goes over the fields of the record that the bytes begin with.
pub fn walk(dialect: CsvForm<'_>, bytes: &[u8]) -> Walked {
    let mut last = field_at(dialect, bytes, 0);
    let mut before: usize = 0;
    for _ in bytes {
        if last.end != FieldEnd::Separator {
            break;
        }
        last = field_at(dialect, bytes, last.behind.saturating_add(1));
        before = before.saturating_add(1);
    }
    Walked { before, last }
}

/// The field of this number, from 0; none where the record has not so many.
pub fn nth_field(dialect: CsvForm<'_>, bytes: &[u8], number: usize) -> Option<FieldAt> {
    let mut field = field_at(dialect, bytes, 0);
    for _ in 0..number {
        if field.end != FieldEnd::Separator {
            return None;
        }
        field = field_at(dialect, bytes, field.behind.saturating_add(1));
    }
    Some(field)
}
