//! What a printed line tells.

/// What is wrong with a record.
#[derive(Clone, Copy, Debug, PartialEq, Eq)]
pub enum RecordFault {
    /// It is no record, or has another number of fields than there are columns.
    Malformed,
    /// It is not UTF-8.
    NotUtf8,
    /// A field does not fit its column.
    IllTyped,
}

/// What a printed line tells, as far as there is more to say of it.
#[derive(Clone, Copy, Debug, PartialEq, Eq)]
pub enum Told<'l> {
    /// So many rows were written.
    Rows,
    /// The record at this byte of this file is faulty.
    Record {
        fault: RecordFault,
        file: u32,
        at: u64,
    },
    /// This file is compressed, in the form of this code.
    Packed {
        code: u32,
        file: u32,
    },
    /// The query or an option has this flaw.
    InvalidQuery(&'l str),
    /// This name meets no column.
    ColumnNotFound(&'l str),
    /// The column of this name has another type.
    SchemaMismatch(&'l str),
    /// Two columns have this name.
    Duplicate(&'l str),
    /// The total of a group is too large.
    SumTooLarge,
    /// The bytes of the query file are no query.
    QueryText,
    /// The words are no command.
    Usage,
}

/// What a line tells; none where there is no more to say of it.
pub fn told_of(line: &str) -> Option<Told<'_>> {
    match line {
        "error 10: sum too large" => Some(Told::SumTooLarge),
        "error 11: query text" => Some(Told::QueryText),
        "error 12: usage" => Some(Told::Usage),
        _ if line.parse::<u64>().is_ok() => Some(Told::Rows),
        _ => match told_of_record(line) {
            Some(told) => Some(told),
            None => told_of_file(line),
        },
    }
}

/// What a line tells of a record.
fn told_of_record(line: &str) -> Option<Told<'_>> {
    if let Some(rest) = line.strip_prefix("error 5: malformed file ") {
        return record_at(RecordFault::Malformed, rest, " at ");
    }
    if let Some(rest) = line.strip_prefix("error 10: not utf8, file ") {
        return record_at(RecordFault::NotUtf8, rest, ", at ");
    }
    let rest = line.strip_prefix("error 10: ill typed, file ")?;
    record_at(RecordFault::IllTyped, rest, ", at ")
}

/// The record of a file's number and a place, with these words between them.
fn record_at<'l>(fault: RecordFault, rest: &'l str, between: &str) -> Option<Told<'l>> {
    let (file, at) = rest.split_once(between)?;
    Some(Told::Record {
        fault,
        file: file.parse::<u32>().ok()?,
        at: at.parse::<u64>().ok()?,
    })
}

/// What a line tells of a file, a name or a query.
fn told_of_file(line: &str) -> Option<Told<'_>> {
    let Some(rest) = line.strip_prefix("error 6: unsupported code ") else {
        return told_of_name(line);
    };
    let (code, file) = rest.split_once(" in file ")?;
    Some(Told::Packed {
        code: code.parse::<u32>().ok()?,
        file: file.parse::<u32>().ok()?,
    })
}

/// What a line tells of a name or of a query.
fn told_of_name(line: &str) -> Option<Told<'_>> {
    if let Some(why) = line.strip_prefix("error 4: invalid query: ") {
        return Some(Told::InvalidQuery(why));
    }
    if let Some(name) = line.strip_prefix("error 7: column not found: ") {
        return Some(Told::ColumnNotFound(name));
    }
    if let Some(name) = line.strip_prefix("error 8: schema mismatch: ") {
        return Some(Told::SchemaMismatch(name));
    }
    let name = line.strip_prefix("error 9: duplicate column: ")?;
    Some(Told::Duplicate(name))
}
