//! A faulty record: its file, line and place, what is wrong with it, and the record with a mark.
ghost use Rattle.std.specs.Prelude.{◌≡◌, ◌<◌, length};

use crate::records::{Record, flaw_of, write_flaw, write_record};
use crate::told::RecordFault;
use morsel_file_lines::{bytes_from, line_of, open};
use morsel_outside::{FileNo, Io};
use morsel_query_reasons::{CsvFile, Unsaid, show};
use std::alloc::{AllocError, Global};

/// How many bytes of a record are read, and how many where that is too little to see what is wrong in it.
const FEW_BYTES: usize = 65_536;

const MANY_BYTES: usize = 4_194_304;

/// A fault of a record, and where it was told to be.
#[derive(Clone, Copy, Debug)]
pub struct Spot {
    pub fault: RecordFault,
    pub at: u64,
}

/// Puts the file, the line and the place of a record last, and what is wrong with it. Where the file cannot be read, there is
/// no line; where nothing is wrong with the record any more, nothing more is said.
pub fn write_spot<H: Io>(
    alloc: Global,
    io: &mut H,
    table: &CsvFile<'_>,
    spot: Spot,
    out: &mut String,
) -> Result<(), Unsaid> {
    show(out, table.file.as_bytes())?;
    let file = match open(io, table.file) {
        Ok(file) => file,
        Err(_) => return write_place(out, spot.at),
    };
    match line_of(alloc, io, file, spot.at) {
        Ok(Some(line)) => write!(out, ":{line}")?,
        Ok(None) => {}
        Err(_) => return write_place(out, spot.at),
    }
    write_place(out, spot.at)?;
    if !write_within(alloc, io, table, file, spot, FEW_BYTES, out)? {
        write_within(alloc, io, table, file, spot, MANY_BYTES, out)?;
    }
    Ok(())
}

/// Puts a place last.
fn write_place(out: &mut String, at: u64) -> Result<(), Unsaid> {
    write!(out, ": byte {at}")?;
    Ok(())
}

/// Puts last what is wrong with the record, as far as so many bytes show it, and answers whether they do.
fn write_within<H: Io>(
    alloc: Global,
    io: &mut H,
    table: &CsvFile<'_>,
    file: FileNo,
    spot: Spot,
    most: usize,
    out: &mut String,
) -> Result<bool, Unsaid>
    requires { file.0 < length (H.seen io.old).sizes }
    ensures { (H.seen io.new).sizes ≡ (H.seen io.old).sizes }
{
    let bytes = bytes_from(alloc, io, file, spot.at, most)?;
    let record = Record {
        bytes: bytes.as_slice(),
        is_whole: bytes.len() < most,
    };
    let is_written = write_seen(out, table, spot.fault, record, most)?;
    Ok(is_written)
}

/// Puts last what is wrong with a record, and answers whether it was seen.
fn write_seen(
    out: &mut String,
    table: &CsvFile<'_>,
    fault: RecordFault,
    record: Record<'_>,
    most: usize,
) -> Result<bool, AllocError> {
    let Some(flaw) = flaw_of(table, fault, record) else {
        return Ok(false);
    };
    if flaw.is_open() && !record.is_whole && most < MANY_BYTES {
        return Ok(false);
    }
    out.push_str(": ")?;
    write_flaw(out, table, record, flaw)?;
    write_record(out, table, record, flaw)?;
    Ok(true)
}
