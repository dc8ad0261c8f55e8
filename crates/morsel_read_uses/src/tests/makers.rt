//! Scans of files in memory, and their readers.
ghost use Rattle.std.specs.Prelude.{◌≡◌, ◌<◌, length};
ghost use Rattle.std.specs.List.{All};
ghost use Rattle.morsel_outside.specs.declared.io.FileNo.{FileNo};
ghost use Rattle.morsel_outside.specs.MemIo.{told_of};
ghost use Rattle.morsel_read.specs.ScanReads.{pieces_at_start, SuitsPieces, CountsFromFirst};

use morsel_expr::Pred;
use morsel_frame::Schema;
use morsel_grammar::CsvOptions;
use morsel_meaning::{ColType, Field, Name};
use morsel_outside::{FileNo, Io, MemIo};
use morsel_read::ScanReader;
use morsel_scan::{CsvSourceNode, FileScanOptions, RowIndex, ScanFormat, ScanSpec};
use std::alloc::Global;
use std::mem::drop;
use std::process::Abort;

/// The number of the first file within the query.
const FIRST: u32 = 7;

/// A scan: its files, how they are written and read, and what is asked of their rows.
#[derive(Clone, Copy)]
pub struct Scan<'a> {
    /// The names of the files, and their bytes.
    pub files: &'a [(&'a str, &'a [u8])],
    /// The columns of the files.
    pub columns: &'a [(&'a str, ColType)],
    /// Whether each file begins with a header.
    pub has_header: bool,
    /// What a comment begins with.
    pub comment: Option<&'a str>,
    /// Whether a bad cell is null.
    pub ignore_errors: bool,
    /// The position of the first row that is kept, and how many are.
    pub slice: Option<(u32, u64)>,
    /// The columns that are kept; none means all.
    pub kept: &'a [&'a str],
    /// The row index, with the number of the first row.
    pub index: Option<(&'a str, u32)>,
    /// The column of the files' names.
    pub path: Option<&'a str>,
    /// How many bytes a read asks at most.
    pub chunk: u32,
    /// The numbers of the opens and reads that fail. Files are opened first, so the first read comes after as many opens.
    pub fail_reads: &'a [u64],
}

/// All rows and columns of no files, which would have headers.
pub const NOTHING: Scan<'static> = Scan {
    files: &[],
    columns: &[],
    has_header: true,
    comment: None,
    ignore_errors: false,
    slice: None,
    kept: &[],
    index: None,
    path: None,
    chunk: 1000,
    fail_reads: &[],
};

pub fn name_of(rt: &impl Abort, alloc: Global, text: &str) -> Name {
    Name::new(alloc, text).expect(rt, "memory")
}

/// The name, where there is one.
fn maybe_name(rt: &impl Abort, alloc: Global, text: Option<&str>) -> Option<Name> {
    match text {
        Some(text) => Some(name_of(rt, alloc, text)),
        None => None,
    }
}

fn names_of(rt: &impl Abort, alloc: Global, texts: &[&str]) -> Vec<Name> {
    let mut names = Vec::new(alloc);
    for text in texts {
        names.push(name_of(rt, alloc, text)).expect(rt, "memory");
    }
    names
}

fn sources_of(rt: &impl Abort, alloc: Global, files: &[(&str, &[u8])]) -> Vec<Name> {
    let mut names = Vec::new(alloc);
    for (name, _) in files {
        names.push(name_of(rt, alloc, name)).expect(rt, "memory");
    }
    names
}

fn schema_of(rt: &impl Abort, alloc: Global, columns: &[(&str, ColType)]) -> Schema {
    let mut fields = Vec::new(alloc);
    for (column, kind) in columns {
        let field = Field {
            name: name_of(rt, alloc, column),
            kind: *kind,
        };
        fields.push(field).expect(rt, "memory");
    }
    Schema::new(alloc, fields).expect(rt, "distinct names")
}

/// How the files are written: with commas, double quotes and line feeds.
fn options_of(rt: &impl Abort, alloc: Global, scan: Scan<'_>) -> CsvOptions {
    let comment = maybe_name(rt, alloc, scan.comment);
    let null = name_of(rt, alloc, "");
    CsvOptions::new(
        b',',
        Some(b'"'),
        b'\n',
        comment,
        scan.has_header,
        null,
        scan.ignore_errors,
    )
    .expect(rt, "options")
}

/// The slice as a scan has it.
fn slice_of(slice: Option<(u32, u64)>) -> Option<(i64, u64)>
    ensures { CountsFromFirst result }
{
    match slice {
        Some((start, len)) => Some((i64::from(start), len)),
        None => None,
    }
}

fn index_of(rt: &impl Abort, alloc: Global, index: Option<(&str, u32)>) -> Option<RowIndex> {
    match index {
        Some((name, offset)) => Some(RowIndex {
            name: name_of(rt, alloc, name),
            offset,
        }),
        None => None,
    }
}

/// The scan, as it is asked for.
pub fn spec_of(rt: &impl Abort, alloc: Global, scan: Scan<'_>, filter: Option<Pred>) -> ScanSpec
    ensures { CountsFromFirst result.file_options.slice }
{
    ScanSpec {
        sources: sources_of(rt, alloc, scan.files),
        format: ScanFormat::Csv {
            schema: schema_of(rt, alloc, scan.columns),
            options: options_of(rt, alloc, scan),
        },
        file_options: FileScanOptions {
            slice: slice_of(scan.slice),
            columns: names_of(rt, alloc, scan.kept),
            row_index: index_of(rt, alloc, scan.index),
            path: maybe_name(rt, alloc, scan.path),
            allow_missing_columns: false,
        },
        filter,
    }
}

/// The node that decodes the scan's pieces.
pub fn node_of(rt: &impl Abort, alloc: Global, spec: ScanSpec) -> CsvSourceNode {
    let ScanSpec {
        sources,
        format,
        file_options,
        filter,
    } = spec;
    drop(sources);
    let ScanFormat::Csv { schema, options } = format;
    CsvSourceNode::new(alloc, schema, options, file_options, filter).expect(rt, "a scan")
}

/// An outside of the files, of which nothing was asked.
fn outside_of(rt: &impl Abort, alloc: Global, scan: Scan<'_>) -> MemIo {
    let mut files = Vec::new(alloc);
    for (name, bytes) in scan.files {
        let bytes = Vec::from_slice(alloc, bytes).expect(rt, "memory");
        files
            .push((name_of(rt, alloc, name), bytes))
            .expect(rt, "memory");
    }
    let fail_reads = Vec::from_slice(alloc, scan.fail_reads).expect(rt, "memory");
    MemIo::new(alloc, files, fail_reads, Vec::new(alloc))
}

/// Opens a file, and puts its number after those of others.
#[tactic(auto, using(crate::proofs::OpenLemmas::open_with_next))]
fn open<H: Io>(rt: &impl Abort, io: &mut H, numbers: &mut Vec<FileNo>, name: &str)
    requires opened { All (λ (file : FileNo). file.0 < length (H.seen io.old).sizes) numbers.old.items }
    ensures opened { All (λ (file : FileNo). file.0 < length (H.seen io.new).sizes) numbers.new.items }
{
    let file = io.open_source(name).expect(rt, "the file is opened");
    numbers.push(file).expect(rt, "memory");
}

/// Opens the files.
fn open_all<H: Io>(
    rt: &impl Abort,
    alloc: Global,
    io: &mut H,
    files: &[(&str, &[u8])],
) -> Vec<FileNo>
    ensures opened { All (λ (file : FileNo). file.0 < length (H.seen io.new).sizes) result.items }
{
    let mut numbers = Vec::new(alloc);
    'files: for (name, _) in files {
        open(rt, io, &mut numbers, name);
    }
    numbers
}

/// The reader of a scan whose files are open.
fn begun<H: Io>(
    rt: &impl Abort,
    alloc: Global,
    io: &H,
    spec: &ScanSpec,
    files: Vec<FileNo>,
    chunk: u32,
) -> ScanReader
    requires opened { All (λ (file : FileNo). file.0 < length (H.seen io.now).sizes) files.items }
    requires from_first { CountsFromFirst spec.now.file_options.slice }
    ensures suits { SuitsPieces (H.seen io.now) result }
    ensures start { result ≡ pieces_at_start result.sources }
{
    assert!(rt; chunk > 0);
    assert!(rt; files.len() > 0);
    assert!(rt; files.len() < 1000);
    assert_eq!(rt; files.len(), spec.sources.len());
    ScanReader::new(alloc, spec, files, FIRST, chunk).expect(rt, "memory")
}

/// The outside of a scan's files, which are open, and their reader.
pub fn reader_of(
    rt: &impl Abort,
    alloc: Global,
    scan: Scan<'_>,
    spec: &ScanSpec,
) -> (MemIo, ScanReader)
    requires from_first { CountsFromFirst spec.now.file_options.slice }
    ensures suits { SuitsPieces (told_of result.0) result.1 }
    ensures start { result.1 ≡ pieces_at_start result.1.sources }
{
    let mut io = outside_of(rt, alloc, scan);
    let files = open_all(rt, alloc, &mut io, scan.files);
    let reader = begun(rt, alloc, &io, spec, files, scan.chunk);
    (io, reader)
}
