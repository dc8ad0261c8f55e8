//! What a reader knows of the files of a scan.
ghost use Rattle.std.specs.Prelude.{◌≡◌, ◌+◌, ◌<◌, ◌≤◌, Some, length, slice_get, IfOk, OnOk, IsOkUnless};
ghost use Rattle.morsel_grammar.specs.Dialect.{IsDialect};
ghost use Rattle.morsel_scan.specs.Blocks.{IsOpenFile};
ghost use Rattle.morsel_scan.specs.RowBlocks.{rows_at_start};
ghost use Rattle.morsel_read.specs.ScanReads.{slice_first, slice_stop, slice_within, files_asked};
ghost use Rattle.morsel_read.specs.ReadScans.{scan_read};
ghost use Rattle.morsel_read.specs.Seeking.{FindsRows};

use morsel_grammar::CsvOptions;
use morsel_meaning::{Fault, Name};
use morsel_outside::{FileNo, Io};
use morsel_scan::{RowBlock, RowReader, ScanFormat, ScanSpec};
use std::alloc::Global;
use std::marker::Model;

/// The files of a scan, and what a reader has to know of it.
#[derive(Debug, Drop)]
pub struct Sources {
    options: CsvOptions,
    columns: usize,
    start: u64,
    stop: u64,
    names: Vec<Name>,
    files: Vec<FileNo>,
    first: u32,
    chunk: u32,
}

impl Model for Sources {
    ghost use Rattle.morsel_read.specs.ScanReads.{FilesAsked};

    ghost Value = { FilesAsked };

    ghost view = { λ s. record {
      options = s.options;
      columns = s.columns;
      start = s.start;
      stop = s.stop;
      names = s.names.items;
      files = s.files.items;
      first = s.first;
      chunk = s.chunk;
    } };
}

impl Sources {
    /// The files of a scan, which have these numbers, in the order of their names.
    pub fn new(
        spec: &ScanSpec,
        files: Vec<FileNo>,
        first: u32,
        chunk: u32,
    ) -> Result<Sources, Fault>
        ensures value { IfOk result (λ sources. sources ≡ files_asked (scan_read spec.now) spec.now.sources.items files.items first chunk) }
        ensures fit { OnOk result (IsDialect (scan_read spec.now).options) }
        ensures out_of_memory { IsOkUnless result Fault.OutOfMemory }
    {
        let ScanFormat::Csv { schema, options } = &spec.format;
        // Only the proof needs this call: its clause says that these options do not contradict each other.
        let _comment = options.comment();
        let (start, stop) = bounds_of(spec.file_options.slice);
        Ok(Sources {
            options: options.clone()?,
            columns: schema.len(),
            start,
            stop,
            names: spec.sources.clone()?,
            files,
            first,
            chunk,
        })
    }

    /// How many files there are.
    pub fn len(&self) -> usize
        ensures { result ≡ length self.now.files }
    {
        self.files.len()
    }

    /// The position after the last row that the slice keeps.
    pub fn stop(&self) -> u64
        ensures { result ≡ self.now.stop }
    {
        self.stop
    }

    /// The number of a file as it was opened.
    pub fn file(&self, source: usize) -> FileNo
        requires { source < length self.now.files }
        ensures { slice_get self.now.files source ≡ Some result }
    {
        self.files[source]
    }

    /// The number of a file within the query.
    pub fn number(&self, source: usize) -> u32
        requires { self.now.first + source ≤ 4294967295 }
        ensures { result ≡ self.now.first + source }
    {
        self.first + source as u32
    }

    /// The name of a file.
    pub fn name(&self, source: usize) -> Result<Name, Fault>
        requires { source < length self.now.names }
        ensures value { IfOk result (λ name. slice_get self.now.names source ≡ Some name) }
        ensures out_of_memory { IsOkUnless result Fault.OutOfMemory }
    {
        Ok(self.names[source].clone()?)
    }

    /// A reader of a file of this size, of which nothing was read.
    pub fn begin(
        &self,
        alloc: Global,
        source: usize,
        file: FileNo,
        size: u64,
    ) -> Result<RowReader, Fault>
        requires numbers { self.now.first + source ≤ 4294967295 }
        ensures value { IfOk result (λ reader. reader ≡ rows_at_start self.now.options (self.now.first + source) file.0 size) }
        ensures out_of_memory { IsOkUnless result Fault.OutOfMemory }
    {
        RowReader::new(alloc, &self.options, self.number(source), file, size)
    }

    /// The next records with rows of a file.
    pub fn next_rows<H: Io>(
        &self,
        alloc: Global,
        io: &mut H,
        reader: &mut RowReader,
    ) -> Result<Option<RowBlock>, Fault>
        requires file { IsOpenFile (H.seen io.old) reader.old.blocks }
        requires chunk { 0 < self.now.chunk }
        ensures { FindsRows self.now (H.seen io.old) reader.old result (H.seen io.new) reader.new }
    {
        reader.next_rows(alloc, io, self.columns, &self.options, self.chunk)
    }

    /// The offset and the length of the rows that the slice keeps, within so many rows from a position on.
    pub fn slice_within(&self, position: u64, rows: u32) -> (u32, u32)
        ensures { result ≡ slice_within self.now.start self.now.stop position rows }
    {
        let rows = u64::from(rows);
        let from = self.start.saturating_sub(position).min(rows);
        let to = self.stop.saturating_sub(position).min(rows);
        (from as u32, to.saturating_sub(from) as u32)
    }
}

/// The position of the first row that a slice keeps, and that after the last one.
fn bounds_of(slice: Option<(i64, u64)>) -> (u64, u64)
    ensures first { result.0 ≡ slice_first slice }
    ensures stop { result.1 ≡ slice_stop slice }
{
    match slice {
        None => (0, u64::MAX),
        Some((offset, len)) => {
            let first = offset.unsigned_abs();
            (first, first.saturating_add(len))
        }
    }
}
