//! One file, read in chunks and given in stretches of records with rows.
//!
//! What stands in no stretch has no row: the mark, the records up to the header, and blocks of comments and blank lines. It is tested
//! here, since nobody else reads it.
ghost use Rattle.std.specs.Prelude.{◌≡◌, ◌+◌, ◌<◌, ◌≤◌, ◌^◌, ℕ, List, None, length, take, IfOk, IfErr, IfSome, OnOk, IsOkUnless};
ghost use Rattle.morsel_scan.specs.Scans.{CsvScan};
ghost use Rattle.morsel_scan.specs.Blocks.{IsOpenFile, given_to};
ghost use Rattle.morsel_grammar.specs.Grammar.{CsvRecord, Records};
ghost use Rattle.morsel_scan.specs.FileReads.{text_at};
ghost use Rattle.morsel_scan.specs.BlockRows.{FindsFront};
ghost use Rattle.morsel_scan.specs.RowBlocks.{IsTextFaultOf, IsRowsFaultOf, IsLaterIn, EndsAtGiven, IsToldFile, GivesRows, ReadsForRows, rows_at_start, passed_to, GivesStretch};

use crate::reader::blocks::{BlockReader, drop_front};
use crate::reader::front::{BlockFront, front_of};
use morsel_grammar::CsvOptions;
use morsel_meaning::Fault;
use morsel_outside::{FileNo, Io};
use std::alloc::Global;
use std::marker::Model;

/// Whole records of a file, or its last ones, with rows among them.
#[derive(Debug, Drop)]
pub struct RowBlock {
    /// The place in the file of the first record.
    pub at: u64,
    /// How many of the records are rows.
    pub rows: usize,
    /// The bytes of the records.
    pub bytes: Vec<u8>,
}

impl Model for RowBlock {
    ghost use Rattle.morsel_scan.specs.RowBlocks.{RowStretch};

    ghost Value = { RowStretch };

    ghost view = { λ b. record { at = b.at; rows = b.rows; bytes = b.bytes.items } };
}

/// A file of which records with rows are given, stretch by stretch.
#[derive(Debug, Drop)]
pub struct RowReader {
    blocks: BlockReader,
    awaits_header: bool,
}

impl Model for RowReader {
    ghost use Rattle.morsel_scan.specs.RowBlocks.{RowsRead};

    ghost Value = { RowsRead };

    ghost view = { λ r. record { blocks = r.blocks; awaits_header = r.awaits_header } };
}

impl RowReader {
    /// A file of which nothing was read. `source` is the number that its faults tell.
    pub fn new(
        alloc: Global,
        options: &CsvOptions,
        source: u32,
        file: FileNo,
        size: u64,
    ) -> Result<RowReader, Fault>
        ensures value { IfOk result (λ reader. reader ≡ rows_at_start options.now source file.0 size) }
        ensures out_of_memory { IsOkUnless result Fault.OutOfMemory }
    {
        let blocks = BlockReader::new(alloc, options, source, file, size)?;
        Ok(RowReader {
            blocks,
            awaits_header: options.has_header(),
        })
    }

    /// The next records with rows, or `None` where the file has no more rows.
    pub fn next_rows<H: Io>(
        &mut self,
        alloc: Global,
        io: &mut H,
        columns: usize,
        options: &CsvOptions,
        chunk: u32,
    ) -> Result<Option<RowBlock>, Fault>
        requires some { 0 < chunk }
        requires file { IsOpenFile (H.seen io.old) self.old.blocks }
        ensures file { OnOk result (IsOpenFile (H.seen io.new) self.new.blocks) }
        ensures same { OnOk result (IsLaterIn self.old.blocks self.new.blocks) }
        ensures place { IfOk result (λ found. IfSome found (λ stretch. EndsAtGiven self.old stretch self.new)) }
        ensures end { IfOk result (λ found. found ≡ None → self.new.blocks.asked ≡ self.new.blocks.size) }
        ensures listed { IfErr result (λ fault. IsRowsFaultOf self.old.blocks.source fault) }
        ensures reads { ReadsForRows options.now columns (H.seen io.old) self.old chunk result (H.seen io.new) self.new }
        ensures rows { (s : CsvScan) (bytes : List ℕ) (rows : ℕ) → IsToldFile options.now columns s bytes rows (H.seen io.old) self.old
            → GivesRows s bytes rows self.old result self.new }
    {
        // Only the proof needs this call: its clause says that these options do not contradict each other.
        let _comment = options.comment();
        'search: loop {
            let len = match self.blocks.find(io, chunk) {
                Ok(len) => len,
                Err(fault) => return Err(fault),
            };
            if len == 0 {
                return Ok(None);
            }
            let front = match self.front(alloc, len, columns, options) {
                Ok(front) => front,
                Err(fault) => return Err(fault),
            };
            if front.rows > 0 {
                return match self.give(alloc, len, front, chunk) {
                    Ok(block) => Ok(Some(block)),
                    Err(fault) => Err(fault),
                };
            }
            self.pass(len, front);
        }
    }

    /// The front of a block, which is the first `len` bytes that are held.
    fn front(
        &self,
        alloc: Global,
        len: usize,
        columns: usize,
        options: &CsvOptions,
    ) -> Result<BlockFront, Fault>
        requires len { len ≤ length self.now.blocks.held }
        requires held { length self.now.blocks.held ≤ self.now.blocks.asked }
        requires fits { self.now.blocks.asked < 2 ^ 64 }
        ensures within { IfOk result (λ front. front.len ≤ len) }
        ensures few { IfOk result (λ front. front.len + front.rows ≤ len) }
        ensures front { (records : List CsvRecord) → Records options.now (text_at (given_to self.now.blocks) (take len self.now.blocks.held)) records
            → FindsFront options.now columns self.now.awaits_header self.now.blocks.source (given_to self.now.blocks) (take len self.now.blocks.held) records result }
        ensures listed { IfErr result (λ fault. IsTextFaultOf self.now.blocks.source fault) }
    {
        let block = &self.blocks.held()[..len];
        front_of(
            alloc,
            block,
            self.blocks.given(),
            self.blocks.source(),
            self.awaits_header,
            columns,
            options,
        )
    }

    /// Gives the records of a block after its front. Where memory is out, nothing is given.
    fn give(
        &mut self,
        alloc: Global,
        len: usize,
        front: BlockFront,
        chunk: u32,
    ) -> Result<RowBlock, Fault>
        requires len { len ≤ length self.old.blocks.held }
        requires held { length self.old.blocks.held ≤ self.old.blocks.asked }
        requires asked { self.old.blocks.asked ≤ self.old.blocks.size }
        requires fits { self.old.blocks.size < 2 ^ 64 }
        requires front { front.len ≤ len }
        ensures { GivesStretch self.old len front result self.new }
    {
        let at = self.blocks.given() + front.len as u64;
        let mut bytes = match self.blocks.take_front(alloc, len, chunk) {
            Ok(bytes) => bytes,
            Err(fault) => return Err(fault),
        };
        drop_front(&mut bytes, front.len);
        self.awaits_header = front.awaits_header;
        Ok(RowBlock {
            at,
            rows: front.rows,
            bytes,
        })
    }

    /// Passes a block without rows.
    fn pass(&mut self, len: usize, front: BlockFront)
        requires { len ≤ length self.old.blocks.held }
        ensures { self.new ≡ passed_to self.old len front.awaits_header }
    {
        self.blocks.drop_front(len);
        self.awaits_header = front.awaits_header;
    }
}
