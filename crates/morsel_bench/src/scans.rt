//! A CSV file in memory, given in pieces: finding the pieces, reading each by itself, and decoding each for a scan.
ghost use Rattle.std.specs.Prelude.{IfOk};
ghost use Rattle.morsel_outside.specs.MemIo.{told_of};
ghost use Rattle.morsel_read.specs.ScanReads.{SuitsPieces};
ghost use Rattle.morsel_scan.specs.CsvScans.{FitsScan};

use crate::cuts::read_piece;
use crate::facts::{facts_schema, facts_text};
use morsel_frame::Schema;
use morsel_grammar::CsvOptions;
use morsel_meaning::{Fault, Name};
use morsel_outside::{FileNo, Io, MemIo};
use morsel_pipe::RawPiece;
use morsel_read::ScanReader;
use morsel_scan::{CsvSourceNode, FileScanOptions, ScanFormat, ScanSpec};
use morsel_timing::{Best, Timing, nanos_since, now, tell};
use std::alloc::Global;
use std::rt::Clock;

/// The most rows that the file has, some 98 MB.
const MOST_ROWS: usize = 4000000;

/// How many bytes a read asks at most.
const CHUNK: u32 = 65536;

/// What is done with a piece.
#[derive(Clone, Copy)]
enum Work<'a> {
    /// All its columns are read.
    Read(&'a Schema, &'a CsvOptions),
    /// It is decoded.
    Decode(&'a CsvSourceNode),
}

/// The rows of all pieces, the nanoseconds that it took to find these, and those of the work on them.
#[derive(Clone, Copy)]
struct Passed {
    rows: usize,
    next: u64,
    work: u64,
}

/// Runs each part on a file of so many rows, up to a bound.
pub fn run<R: Clock + Print + AllocGlobal>(
    rt: &R,
    timing: Timing,
    rows: usize,
) -> Result<(), Fault> {
    let text = facts_text(rt.alloc(), rows.min(MOST_ROWS))?;
    let len = text.len();
    let mut io = outside_of(rt.alloc(), text)?;
    let Ok(file) = io.open_source("facts.csv") else {
        return Err(Fault::OutOfMemory);
    };
    tell_pieces(rt, timing, &mut io, file, len)
}

/// Tells how a file of so many bytes is given in pieces, and what is made of these.
fn tell_pieces<R: Clock + Print + AllocGlobal>(
    rt: &R,
    timing: Timing,
    io: &mut MemIo,
    file: FileNo,
    len: usize,
) -> Result<(), Fault> {
    let schema = facts_schema(rt.alloc())?;
    let options = options_of(rt.alloc())?;
    let (next, read) = time_pieces(rt, timing, io, file, Work::Read(&schema, &options))?;
    tell(rt, timing, "next of a file, rows by bytes", next, len)?;
    tell(rt, timing, "read of its pieces, rows by bytes", read, len)?;
    let node = node_of(rt.alloc())?;
    let (_, decode) = time_pieces(rt, timing, io, file, Work::Decode(&node))?;
    tell(
        rt,
        timing,
        "decode of its pieces, rows by bytes",
        decode,
        len,
    )
}

/// Finds all pieces and works on them: the best times of both.
fn time_pieces<R: Clock + AllocGlobal>(
    rt: &R,
    timing: Timing,
    io: &mut MemIo,
    file: FileNo,
    work: Work<'_>,
) -> Result<(Best, Best), Fault> {
    let spec = spec_of(rt.alloc())?;
    let mut next = Best::new();
    let mut worked = Best::new();
    for _ in 0..timing.runs {
        let mut reader = reader_of(rt.alloc(), io, &spec, file)?;
        let passed = pass_pieces(rt, io, &mut reader, work)?;
        next.take(passed.next, passed.rows);
        worked.take(passed.work, passed.rows);
    }
    Ok((next, worked))
}

/// Finds all pieces and works on each.
fn pass_pieces<R: Clock + AllocGlobal, H: Io>(
    rt: &R,
    io: &mut H,
    reader: &mut ScanReader,
    work: Work<'_>,
) -> Result<Passed, Fault>
    requires { SuitsPieces (H.seen io.old) reader.old }
{
    let mut passed = Passed {
        rows: 0,
        next: 0,
        work: 0,
    };
    'pieces: for _ in 0..u64::MAX {
        let begun = now(rt)?;
        let found = reader.next(io)?;
        passed.next = passed.next.saturating_add(nanos_since(rt, begun)?);
        let Some(piece) = found else {
            return Ok(passed);
        };
        let begun = now(rt)?;
        let rows = work_on(rt.alloc(), piece, work)?;
        passed.work = passed.work.saturating_add(nanos_since(rt, begun)?);
        passed.rows = passed.rows.saturating_add(rows);
    }
    Ok(passed)
}

/// Does the work on a piece, and tells how many rows it has.
fn work_on(alloc: Global, piece: RawPiece, work: Work<'_>) -> Result<usize, Fault>
    requires { FitsScan piece }
{
    match work {
        Work::Read(schema, options) => read_piece(alloc, piece.bytes.as_slice(), schema, options),
        Work::Decode(node) => {
            let frame = node.decode(alloc, piece)?;
            Ok(frame.height())
        }
    }
}

/// The reader of the file.
fn reader_of(alloc: Global, io: &MemIo, spec: &ScanSpec, file: FileNo) -> Result<ScanReader, Fault>
    ensures { IfOk result (λ reader. SuitsPieces (told_of io.now) reader) }
{
    if file.0 >= io.memory().opened() || spec.sources.len() != 1 {
        return Err(Fault::Usage);
    }
    let None = spec.file_options.slice else {
        return Err(Fault::Usage);
    };
    let files = vec![in alloc; file]?;
    ScanReader::new(alloc, spec, files, 0, CHUNK)
}

/// An outside of the one file.
fn outside_of(alloc: Global, text: String) -> Result<MemIo, Fault> {
    let files = vec![in alloc; (Name::new(alloc, "facts.csv")?, text.into_bytes())]?;
    Ok(MemIo::new(alloc, files, Vec::new(alloc), Vec::new(alloc)))
}

/// How the file is written.
fn options_of(alloc: Global) -> Result<CsvOptions, Fault> {
    let null = Name::new(alloc, "")?;
    CsvOptions::new(b',', Some(b'"'), b'\n', None, false, null, false)
}

/// All rows and columns.
fn all_of(alloc: Global) -> FileScanOptions {
    FileScanOptions {
        slice: None,
        columns: Vec::new(alloc),
        row_index: None,
        path: None,
        allow_missing_columns: false,
    }
}

/// The scan of the file.
fn spec_of(alloc: Global) -> Result<ScanSpec, Fault> {
    let sources = vec![in alloc; Name::new(alloc, "facts.csv")?]?;
    let schema = facts_schema(alloc)?;
    let options = options_of(alloc)?;
    Ok(ScanSpec {
        sources,
        format: ScanFormat::Csv { schema, options },
        file_options: all_of(alloc),
        filter: None,
    })
}

/// The node that decodes its pieces.
fn node_of(alloc: Global) -> Result<CsvSourceNode, Fault> {
    let schema = facts_schema(alloc)?;
    let options = options_of(alloc)?;
    CsvSourceNode::new(alloc, schema, options, all_of(alloc), None)
}
