//! The reader of a scan's files.
ghost use Rattle.std.specs.Prelude.{◌≡◌, ◌+◌, ◌<◌, ◌≤◌, ◌^◌, List, ℕ, None, Some, Ok, Err, length, IfOk, IfErr, OnOk, OnErr, IsOkUnless};
ghost use Rattle.morsel_meaning.specs.declared.fault.Fault.{Fault};
ghost use Rattle.morsel_grammar.specs.Dialect.{IsDialect};
ghost use Rattle.morsel_scan.specs.Scans.{CsvScan};
ghost use Rattle.morsel_scan.specs.RowBlocks.{RowStretch};
ghost use Rattle.morsel_read.specs.ReadScans.{scan_read};
ghost use Rattle.morsel_read.specs.ScanReads.{PiecesRead, AreOpen, SuitsPieces, IsPiecesFaultOf, HasGivenRows, CountsFromFirst, files_asked, pieces_at_start};
ghost use Rattle.morsel_read.specs.PieceReads.{ReadsForPieces, HasGivenAll, GivesNumbered, FindsPiece};
ghost use Rattle.morsel_read.specs.Seeking.{IsReaderKind, TakesCurrent, passed_source, SeeksRows, GivesStretchOf, SearchesPiece};

use crate::sources::Sources;
use morsel_meaning::{ComputeKind, Fault, QUERY_FILE};
use morsel_outside::{FileNo, Io};
use morsel_pipe::{MorselSeq, RawPiece};
use morsel_scan::{RowBlock, RowReader, ScanSpec};
use std::alloc::Global;
use std::marker::Model;

/// The greatest number of rows that a scan may have.
const MOST_ROWS: u64 = 4294967295;

/// The files of a scan, given piece by piece.
///
/// The files are read in their order, by chunks, and each byte is asked at most once. A piece has whole records of one file, or
/// its last ones, and rows among them. What stands in no piece was tested here.
#[derive(Debug, Drop)]
pub struct ScanReader {
    alloc: Global,
    sources: Sources,
    source: usize,
    current: Option<RowReader>,
    earlier: u64,
    given: u64,
    rows: u64,
    pieces: u64,
    fault: Option<Fault>,
}

impl Model for ScanReader {
    ghost use Rattle.morsel_read.specs.ScanReads.{PiecesRead};

    ghost Value = { PiecesRead };

    ghost view = { λ r. record {
      sources = r.sources;
      source = r.source;
      current = r.current;
      earlier = r.earlier;
      given = r.given;
      rows = r.rows;
      pieces = r.pieces;
      fault = r.fault;
    } };
}

impl ScanReader {
    /// A reader of the files of a scan, which have these numbers, in the order of their names. A read asks `chunk_bytes` at most.
    ///
    /// Nothing is read. `first_source` is the number of the first file within the query. Each number of `files` is that of a file of
    /// its own.
    pub fn new(
        alloc: Global,
        spec: &ScanSpec,
        files: Vec<FileNo>,
        first_source: u32,
        chunk_bytes: u32,
    ) -> Result<ScanReader, Fault>
        requires some { 0 < length spec.now.sources.items }
        requires from_first { CountsFromFirst spec.now.file_options.slice }
        requires one_each { length files.items ≡ length spec.now.sources.items }
        requires chunk { 0 < chunk_bytes }
        requires numbers { first_source + length files.items ≤ 4294967295 }
        ensures value { IfOk result (λ reader. reader ≡ pieces_at_start (files_asked (scan_read spec.now) spec.now.sources.items files.items first_source chunk_bytes)) }
        ensures fit { OnOk result (IsDialect (scan_read spec.now).options) }
        ensures out_of_memory { IsOkUnless result Fault.OutOfMemory }
    {
        let sources = Sources::new(spec, files, first_source, chunk_bytes)?;
        Ok(ScanReader {
            alloc,
            sources,
            source: 0,
            current: None,
            earlier: 0,
            given: 0,
            rows: 0,
            pieces: 0,
            fault: None,
        })
    }

    /// The place where the stretch of the last piece ends. Bytes are counted over all files, one after the other.
    pub fn given(&self) -> u64
        ensures { result ≡ self.now.given }
    {
        self.given
    }

    /// The next piece; `None` where all was given, or the slice keeps no more rows.
    ///
    /// A stretch without rows makes no piece. After a fault the reader answers that fault again, and reads nothing.
    pub fn next<H: Io>(&mut self, io: &mut H) -> Result<Option<RawPiece>, Fault>
        requires suits { SuitsPieces (H.seen io.old) self.old }
        ensures suits { SuitsPieces (H.seen io.new) self.new }
        ensures same { self.new.sources ≡ self.old.sources }
        ensures again { (fault : Fault) → self.old.fault ≡ Some fault → (result ≡ Err fault) × (self.new ≡ self.old) × (H.seen io.new ≡ H.seen io.old) }
        ensures ended { self.old.fault ≡ None → HasGivenAll self.old → (result ≡ Ok None) × (self.new ≡ self.old) × (H.seen io.new ≡ H.seen io.old) }
        ensures latched { IfErr result (λ fault. self.new.fault ≡ Some fault) }
        ensures no_fault { OnOk result (self.new.fault ≡ None) }
        ensures listed { IfErr result (λ fault. IsPiecesFaultOf self.old.sources fault) }
        ensures numbered { IfOk result (λ found. GivesNumbered self.old found self.new) }
        ensures reads { self.old.fault ≡ None → ReadsForPieces (H.seen io.old) self.old result (H.seen io.new) self.new }
        ensures piece { (s : CsvScan) (files : List (List ℕ)) → HasGivenRows s files (H.seen io.old) self.old → FindsPiece s files self.old result (H.seen io.new) self.new }
    {
        if let Some(fault) = &self.fault {
            return Err(again(fault));
        }
        match self.search(io) {
            Ok(found) => Ok(found),
            Err(fault) => {
                self.fault = Some(again(&fault));
                Err(fault)
            }
        }
    }

    /// The next piece of a reader that has not failed.
    fn search<H: Io>(&mut self, io: &mut H) -> Result<Option<RawPiece>, Fault>
        requires fault { self.old.fault ≡ None }
        requires opened { AreOpen (H.seen io.old) self.old }
        ensures { SearchesPiece (H.seen io.old) self.old result (H.seen io.new) self.new }
    {
        if self.rows >= self.sources.stop() {
            return Ok(None);
        }
        match self.seek(io) {
            Ok(None) => Ok(None),
            Ok(Some(block)) => match self.give(block) {
                Ok(piece) => Ok(Some(piece)),
                Err(fault) => Err(fault),
            },
            Err(fault) => Err(fault),
        }
    }

    /// The next records with rows; `None` where no file has more.
    fn seek<H: Io>(&mut self, io: &mut H) -> Result<Option<RowBlock>, Fault>
        requires opened { AreOpen (H.seen io.old) self.old }
        ensures { SeeksRows (H.seen io.old) self.old result (H.seen io.new) self.new }
    {
        'files: while self.source < self.sources.len() {
            let mut reader = match self.take_current(io) {
                Ok(reader) => reader,
                Err(fault) => return Err(fault),
            };
            match self.sources.next_rows(self.alloc, io, &mut reader) {
                Ok(Some(block)) => {
                    self.current = Some(reader);
                    return Ok(Some(block));
                }
                Ok(None) => {
                    let size = io.size(self.sources.file(self.source));
                    self.pass_source(size);
                }
                Err(fault) => return Err(fault),
            }
        }
        Ok(None)
    }

    /// Takes out the reader of the file that is read, or one of the next file.
    fn take_current<H: Io>(&mut self, io: &H) -> Result<RowReader, Fault>
        requires some { self.old.source < length self.old.sources.files }
        requires opened { AreOpen (H.seen io.now) self.old }
        ensures taken { IfOk result (λ reader. TakesCurrent (H.seen io.now) self.old reader self.new) }
        ensures out_of_memory { IsOkUnless result Fault.OutOfMemory }
        ensures err { OnErr result (self.new ≡ self.old) }
    {
        if let Some(reader) = self.current.take() {
            return Ok(reader);
        }
        let file = self.sources.file(self.source);
        let size = io.size(file);
        if self.earlier.checked_add(size).is_none() {
            return Err(Fault::OutOfMemory);
        }
        self.sources.begin(self.alloc, self.source, file, size)
    }

    /// Goes on to the next file, after one of this size.
    fn pass_source(&mut self, size: u64)
        requires some { self.old.source < length self.old.sources.files }
        requires numbers { self.old.sources.first + length self.old.sources.files ≤ 4294967295 }
        requires fits { self.old.earlier + size < 2 ^ 64 }
        ensures { self.new ≡ passed_source self.old size }
    {
        self.source += 1;
        self.earlier += size;
    }

    /// Makes records with rows of the file that is read the next piece.
    fn give(&mut self, block: RowBlock) -> Result<RawPiece, Fault>
        requires names { self.old.source < length self.old.sources.names }
        requires numbers { self.old.sources.first + self.old.source ≤ 4294967295 }
        requires few { self.old.rows ≤ 4294967295 }
        requires pieces { self.old.pieces ≤ self.old.rows }
        requires order { self.old.given ≤ self.old.earlier + block.at }
        requires places { self.old.earlier + block.at + length block.bytes < 2 ^ 64 }
        requires some { 0 < block.rows }
        ensures { GivesStretchOf self.old block result self.new }
    {
        let position = self.rows;
        let rows = block.rows as u64;
        if rows > MOST_ROWS - position {
            return Err(Fault::ComputeError {
                kind: ComputeKind::TooManyRows,
                file: QUERY_FILE,
                at: 0,
            });
        }
        let rows = rows as u32;
        let source = self.sources.name(self.source)?;
        let from = self.given;
        let to = self.earlier + block.at + block.bytes.len() as u64;
        let seq = MorselSeq::new(self.pieces);
        self.given = to;
        self.rows = position + u64::from(rows);
        self.pieces += 1;
        Ok(RawPiece {
            seq,
            file: self.sources.number(self.source),
            source,
            at: block.at,
            first_row: position,
            rows,
            slice: self.sources.slice_within(position, rows),
            parts: Vec::new(self.alloc),
            bytes: block.bytes,
            from,
            to,
        })
    }
}

/// The same fault, where it is one of a reader.
fn again(fault: &Fault) -> Fault
    requires { IsReaderKind fault.now }
    ensures { result ≡ fault.now }
{
    match fault {
        Fault::ReadFault { file } => Fault::ReadFault { file: *file },
        Fault::Malformed { file, at } => Fault::Malformed {
            file: *file,
            at: *at,
        },
        Fault::Unsupported { file, code } => Fault::Unsupported {
            file: *file,
            code: *code,
        },
        Fault::ComputeError { kind, file, at } => Fault::ComputeError {
            kind: *kind,
            file: *file,
            at: *at,
        },
        _ => Fault::OutOfMemory,
    }
}
