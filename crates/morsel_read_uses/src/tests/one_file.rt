//! The readers of one file.
ghost use Rattle.std.specs.Prelude.{◌<◌, length};
ghost use Rattle.morsel_scan.specs.Blocks.{IsOpenFile};

use super::makers::name_of;
use morsel_grammar::CsvOptions;
use morsel_meaning::Fault;
use morsel_outside::{FileNo, Io, MemIo};
use morsel_scan::{RowBlock, RowReader};
use std::alloc::Global;
use std::mem::drop;
use std::process::Abort;

/// Commas, double quotes, line feeds, a header and an empty null.
fn options_of(rt: &impl Abort, alloc: Global) -> CsvOptions {
    let null = name_of(rt, alloc, "");
    CsvOptions::new(b',', Some(b'"'), b'\n', None, true, null, false).expect(rt, "options")
}

/// An outside with the one file `a.csv`.
fn outside_of(rt: &impl Abort, alloc: Global, bytes: &[u8]) -> MemIo {
    let bytes = Vec::from_slice(alloc, bytes).expect(rt, "memory");
    let files = vec![in alloc; (name_of(rt, alloc, "a.csv"), bytes)].expect(rt, "memory");
    MemIo::new(alloc, files, Vec::new(alloc), Vec::new(alloc))
}

fn opened<H: Io>(rt: &impl Abort, io: &mut H) -> FileNo
    ensures { result.0 < length (H.seen io.new).sizes }
{
    io.open_source("a.csv").expect(rt, "the file is opened")
}

fn reader_of<H: Io>(
    rt: &impl Abort,
    alloc: Global,
    options: &CsvOptions,
    io: &H,
    file: FileNo,
) -> RowReader
    requires { file.0 < length (H.seen io.now).sizes }
    ensures { IsOpenFile (H.seen io.now) result.blocks }
{
    RowReader::new(alloc, options, 7, file, io.size(file)).expect(rt, "memory")
}

/// The next rows of a file of two columns, read four bytes at a time.
fn next_rows<H: Io>(
    rt: &impl Abort,
    alloc: Global,
    io: &mut H,
    reader: &mut RowReader,
    options: &CsvOptions,
) -> Option<RowBlock>
    requires { IsOpenFile (H.seen io.old) reader.old.blocks }
    ensures { IsOpenFile (H.seen io.new) reader.new.blocks }
{
    reader
        .next_rows(alloc, io, 2, options, 4)
        .expect(rt, "the rows are read")
}

/// The rows have this place, number and text.
fn are(rt: &impl Abort, found: Option<RowBlock>, at: u64, rows: usize, bytes: &[u8]) {
    let stretch = found.expect(rt, "there are rows");
    assert_eq!(rt; (stretch.at, stretch.rows), (at, rows));
    assert_eq!(rt; stretch.bytes.as_slice(), bytes);
    drop(stretch);
}

#[test]
fn small_chunks_give_each_row_in_its_place(rt: HostRuntime) {
    let options = options_of(&rt, rt.alloc());
    let mut io = outside_of(&rt, rt.alloc(), b"id,name\n\n1,\"a\nn\"\n22,x\n3,y");
    let file = opened(&rt, &mut io);
    let mut reader = reader_of(&rt, rt.alloc(), &options, &io, file);
    let first = next_rows(&rt, rt.alloc(), &mut io, &mut reader, &options);
    are(&rt, first, 9, 1, b"1,\"a\nn\"\n");
    let second = next_rows(&rt, rt.alloc(), &mut io, &mut reader, &options);
    are(&rt, second, 17, 1, b"22,x\n");
    let third = next_rows(&rt, rt.alloc(), &mut io, &mut reader, &options);
    are(&rt, third, 22, 1, b"3,y");
    let end = next_rows(&rt, rt.alloc(), &mut io, &mut reader, &options);
    assert!(rt; end.is_none());
    drop(end);
    drop(reader);
    drop(io);
    drop(options);
}

/// The first rows of a file are refused.
fn is_refused<H: Io>(
    rt: &impl Abort,
    alloc: Global,
    io: &mut H,
    reader: &mut RowReader,
    options: &CsvOptions,
    fault: Fault,
)
    requires { IsOpenFile (H.seen io.old) reader.old.blocks }
{
    let found = reader.next_rows(alloc, io, 2, options, 100);
    match found {
        Ok(_) => assert!(rt; false, "it is refused"),
        Err(told) => assert_eq!(rt; told, fault),
    }
}

#[test]
fn an_open_quote_is_refused_at_its_record(rt: HostRuntime) {
    let options = options_of(&rt, rt.alloc());
    let mut io = outside_of(&rt, rt.alloc(), b"id,name\n1,\"ann");
    let file = opened(&rt, &mut io);
    let mut reader = reader_of(&rt, rt.alloc(), &options, &io, file);
    let fault = Fault::Malformed { file: 7, at: 8 };
    is_refused(&rt, rt.alloc(), &mut io, &mut reader, &options, fault);
    drop(reader);
    drop(io);
    drop(options);
}
