//! The node that makes pieces of CSV files into the rows of a scan.
ghost use Rattle.std.specs.Prelude.{◌≡◌, ◌+◌, ◌<◌, ◌≤◌, ◌^◌, Ok, length, IfOk, IfSome, IsOkUnless};
ghost use Rattle.morsel_frame.specs.Refusals.{Refuses};
ghost use Rattle.morsel_grammar.specs.Reading.{chosen};
ghost use Rattle.morsel_scan.specs.ScanColumns.{used_columns};
ghost use Rattle.morsel_scan.specs.CsvScans.{FitsScan, Decodes};
ghost use Rattle.morsel_scan.specs.ScanFlaws.{scan_flaw};
ghost use Rattle.morsel_scan.specs.Decoding.{ReadsText, ReadsFirst, ChecksText, IsCut, ReadsKept, Finishes};

use crate::decode_steps::{filtered, with_index, with_path};
use crate::source_columns::{SourceColumns, source_columns};
use crate::{FileScanOptions, FilterStep};
use morsel_expr::Pred;
use morsel_frame::{Frame, Schema};
use morsel_grammar::CsvOptions;
use morsel_meaning::{Fault, Name};
use morsel_pipe::RawPiece;
use morsel_text::{ReadRoom, place_of_row, read_records, read_records_with};
use std::alloc::Global;
use std::marker::Model;
use std::mem::drop;

/// A node that makes pieces of CSV files into the rows of a scan, which contracts see as that scan.
#[derive(Debug, Drop)]
pub struct CsvSourceNode {
    schema: Schema,
    options: CsvOptions,
    file_options: FileScanOptions,
    step: Option<FilterStep>,
    used: Vec<bool>,
    unused: Vec<bool>,
    kept: Vec<usize>,
}

impl Model for CsvSourceNode {
    ghost use Rattle.morsel_scan.specs.Scans.{CsvScan};

    ghost Value = { CsvScan };

    ghost use Rattle.morsel_expr.specs.contracts.node.PredNode as tree;
    ghost use Rattle.std.specs.Coded.{codes};

    ghost coded = { Prim.hlevel (codes, tree.the_row.coded) };

    ghost use Rattle.morsel_scan.specs.Nodes.{node_of, IsPrepared};

    ghost view = { λ node. record {
      scan = record { fields = node.schema; asked = node.file_options; filter = node_of node.step };
      options = node.options;
    } };

    ghost invariant = { λ node. IsPrepared (record { fields = node.schema; asked = node.file_options; filter = node_of node.step })
        node.step node.used.items node.unused.items node.kept.items };
}

impl CsvSourceNode {
    /// A node for the scan of files that have these columns and are written so.
    ///
    /// A name is a `Duplicate` where two columns of the scan have it, the row index and the path among them, or where
    /// the choice of columns has it twice. It is not found where the choice or the filter names no column. Where the
    /// filter compares two types, or asks for a truth value of another type, it is a mismatch of its first column.
    pub fn new(
        alloc: Global,
        schema: Schema,
        options: CsvOptions,
        file_options: FileScanOptions,
        filter: Option<Pred>,
    ) -> Result<CsvSourceNode, Fault>
        ensures ok { IfOk result (λ node. node ≡ record { scan = record { fields = schema; asked = file_options; filter = filter }; options = options }) }
        ensures refused { Refuses (scan_flaw (record { fields = schema; asked = file_options; filter = filter })) result }
    {
        match source_columns(alloc, &schema, &file_options, filter) {
            Ok(columns) => {
                let SourceColumns {
                    step,
                    used,
                    unused,
                    kept,
                } = columns;
                Ok(CsvSourceNode {
                    schema,
                    options,
                    file_options,
                    step,
                    used,
                    unused,
                    kept,
                })
            }
            Err(fault) => Err(fault),
        }
    }

    /// The rows of the scan that a piece has. Of several faults any may be the answer.
    ///
    /// A record that is refused is `Malformed`, or not UTF-8, and a cell of a used column that does not fit its type is
    /// ill typed, both at the record's place in its file. Rows that the slice does not keep are read for their records
    /// alone. A number of a row above 4,294,967,294 is too large.
    pub fn decode(&self, alloc: Global, piece: RawPiece) -> Result<Frame, Fault>
        requires fits { FitsScan piece }
        ensures { Decodes self.now piece result }
    {
        let mut room = ReadRoom::new(alloc);
        self.decode_with(alloc, piece, &mut room)
    }

    /// The rows of the scan that a piece has, as `decode` gives them, with room that is kept from one piece to the next.
    pub fn decode_with(
        &self,
        alloc: Global,
        piece: RawPiece,
        room: &mut ReadRoom,
    ) -> Result<Frame, Fault>
        requires fits { FitsScan piece }
        ensures { Decodes self.now piece result }
    {
        match self.read_kept(alloc, &piece, room) {
            Ok(read) => {
                let position = piece.first_row + u64::from(piece.slice.0);
                self.finish(alloc, read, position, &piece.source)
            }
            Err(fault) => Err(fault),
        }
    }

    /// Reads the rows that a piece's slice keeps into the used columns.
    fn read_kept(
        &self,
        alloc: Global,
        piece: &RawPiece,
        room: &mut ReadRoom,
    ) -> Result<Frame, Fault>
        requires { FitsScan piece.now }
        ensures { ReadsKept self.now piece.now result }
    {
        // Only the proof needs this call: its clause says that these options do not contradict each other.
        let _comment = self.options.comment();
        let bytes = piece.bytes.as_slice();
        let cut = self.row_at(alloc, bytes, piece.at, piece.slice.0 as usize)?;
        match self.check_text(alloc, &bytes[..cut], piece.at, piece.file) {
            Ok(()) => self.read_first(
                alloc,
                &bytes[cut..],
                piece.at + cut as u64,
                piece.file,
                piece.slice.1 as usize,
                piece.slice.0 + piece.slice.1 == piece.rows,
                room,
            ),
            Err(fault) => Err(fault),
        }
    }

    /// Reads so many first rows of a text, which begins at place `at` of a file, into the used columns, and checks the
    /// records of the others. `ends` says that there should be no others, and makes reading faster where this is so.
    fn read_first(
        &self,
        alloc: Global,
        text: &[u8],
        at: u64,
        file: u32,
        len: usize,
        ends: bool,
        room: &mut ReadRoom,
    ) -> Result<Frame, Fault>
        requires { at + length text.now < 2 ^ 64 }
        ensures { ReadsFirst self.now file at text.now len result }
    {
        if ends {
            if let Some(frame) = self.read_whole(alloc, text, at, file, len, room) {
                return Ok(frame);
            }
        }
        self.read_up_to(alloc, text, at, file, len, room)
    }

    /// Reads a text into the used columns, where nothing is refused and it has no more rows than so many.
    fn read_whole(
        &self,
        alloc: Global,
        text: &[u8],
        at: u64,
        file: u32,
        len: usize,
        room: &mut ReadRoom,
    ) -> Option<Frame>
        requires { at + length text.now < 2 ^ 64 }
        ensures { IfSome result (λ frame. ReadsFirst self.now file at text.now len (Ok frame)) }
    {
        match self.read_text(alloc, text, at, file, room) {
            Ok(frame) => {
                if frame.height() <= len {
                    return Some(frame);
                }
                drop(frame);
                None
            }
            Err(_) => None,
        }
    }

    /// Reads so many first rows of a text into the used columns, and then checks the records of the others.
    fn read_up_to(
        &self,
        alloc: Global,
        text: &[u8],
        at: u64,
        file: u32,
        len: usize,
        room: &mut ReadRoom,
    ) -> Result<Frame, Fault>
        requires { at + length text.now < 2 ^ 64 }
        ensures { ReadsFirst self.now file at text.now len result }
    {
        // Only the proof needs this call: its clause says that these options do not contradict each other.
        let _comment = self.options.comment();
        let cut = self.row_at(alloc, text, at, len)?;
        match self.read_text(alloc, &text[..cut], at, file, room) {
            Ok(frame) => match self.check_text(alloc, &text[cut..], at + cut as u64, file) {
                Ok(()) => Ok(frame),
                Err(fault) => {
                    drop(frame);
                    Err(fault)
                }
            },
            Err(fault) => Err(fault),
        }
    }

    /// How many bytes come before the row of this number; all, where there is no such row.
    fn row_at(&self, alloc: Global, text: &[u8], at: u64, row: usize) -> Result<usize, Fault>
        requires { at + length text.now < 2 ^ 64 }
        ensures ok { IfOk result (λ cut. IsCut self.now at text.now row cut) }
        ensures out_of_memory { IsOkUnless result Fault.OutOfMemory }
    {
        // Only the proof needs this call: its clause says that these options do not contradict each other.
        let _comment = self.options.comment();
        match place_of_row(alloc, text, at, &self.schema, false, &self.options, row)? {
            Some(place) => Ok((place - at) as usize),
            None => Ok(text.len()),
        }
    }

    /// Reads a text into the used columns.
    fn read_text(
        &self,
        alloc: Global,
        text: &[u8],
        at: u64,
        file: u32,
        room: &mut ReadRoom,
    ) -> Result<Frame, Fault>
        requires { at + length text.now < 2 ^ 64 }
        ensures { ReadsText self.now file at text.now result }
    {
        match read_records_with(
            alloc,
            text,
            at,
            file,
            &self.schema,
            self.used.as_slice(),
            false,
            &self.options,
            room,
        ) {
            Ok((frame, _head)) => Ok(frame),
            Err(fault) => Err(fault),
        }
    }

    /// Checks the records of a text.
    fn check_text(&self, alloc: Global, text: &[u8], at: u64, file: u32) -> Result<(), Fault>
        requires { at + length text.now < 2 ^ 64 }
        ensures { ChecksText self.now file at text.now result }
    {
        if text.is_empty() {
            return Ok(());
        }
        match read_records(
            alloc,
            text,
            at,
            file,
            &self.schema,
            self.unused.as_slice(),
            false,
            &self.options,
        ) {
            Ok((frame, _head)) => {
                drop(frame);
                Ok(())
            }
            Err(fault) => Err(fault),
        }
    }

    /// Makes the values of used columns into rows of the scan, the first of which has this position.
    fn finish(
        &self,
        alloc: Global,
        read: Frame,
        position: u64,
        source: &Name,
    ) -> Result<Frame, Fault>
        requires position { position ≤ 4294967295 }
        requires columns { read.schema ≡ chosen (used_columns self.now.scan) self.now.scan.fields }
        ensures { Finishes self.now.scan position source.now read result }
    {
        let asked = &self.file_options;
        let numbered = match with_index(alloc, read, &asked.row_index, position) {
            Ok(numbered) => numbered,
            Err(fault) => return Err(fault),
        };
        let named = match with_path(alloc, numbered, &asked.path, source) {
            Ok(named) => named,
            Err(fault) => return Err(fault),
        };
        let passed = match filtered(alloc, named, &self.step) {
            Ok(passed) => passed,
            Err(fault) => return Err(fault),
        };
        passed.select(alloc, self.kept.as_slice())
    }
}
