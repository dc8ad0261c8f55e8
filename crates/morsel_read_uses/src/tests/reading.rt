//! Scans that are read to their end, by chunks of each size.
ghost use Rattle.morsel_read.specs.ScanReads.{SuitsPieces};

use super::makers::{Scan, node_of, reader_of, spec_of};
use morsel_expr::Pred;
use morsel_meaning::Fault;
use morsel_ndjson::write_ndjson;
use morsel_outside::Io;
use morsel_read::ScanReader;
use morsel_scan::CsvSourceNode;
use std::alloc::Global;
use std::mem::drop;
use std::process::Abort;

/// The sizes of chunks that are tried. The last one is more than any file of these tests has.
const CHUNKS: [u32; 10] = [1, 2, 3, 4, 5, 6, 7, 8, 9, 1000];

/// Puts the text of the rows of the next piece, and says whether there was one.
fn put_piece<H: Io>(
    alloc: Global,
    io: &mut H,
    reader: &mut ScanReader,
    node: &CsvSourceNode,
    text: &mut Vec<u8>,
) -> Result<bool, Fault>
    requires { SuitsPieces (H.seen io.old) reader.old }
    ensures { SuitsPieces (H.seen io.new) reader.new }
{
    match reader.next(io) {
        Ok(Some(piece)) => match node.decode(alloc, piece) {
            Ok(frame) => {
                let put = write_ndjson(text, &frame);
                drop(frame);
                match put {
                    Ok(()) => Ok(true),
                    Err(fault) => Err(fault),
                }
            }
            Err(fault) => Err(fault),
        },
        Ok(None) => Ok(false),
        Err(fault) => Err(fault),
    }
}

/// Puts the text of the rows of all pieces.
fn put_pieces<H: Io>(
    alloc: Global,
    io: &mut H,
    reader: &mut ScanReader,
    node: &CsvSourceNode,
    text: &mut Vec<u8>,
) -> Result<(), Fault>
    requires { SuitsPieces (H.seen io.old) reader.old }
{
    'pieces: for _ in 0..1000 {
        match put_piece(alloc, io, reader, node, text) {
            Ok(true) => {}
            Ok(false) => return Ok(()),
            Err(fault) => return Err(fault),
        }
    }
    // The files of these tests have fewer pieces.
    Err(Fault::Usage)
}

/// The text of all rows of a scan.
fn read_scan(
    rt: &impl Abort,
    alloc: Global,
    scan: Scan<'_>,
    filter: Option<Pred>,
) -> Result<Vec<u8>, Fault> {
    let spec = spec_of(rt, alloc, scan, filter);
    let (mut io, mut reader) = reader_of(rt, alloc, scan, &spec);
    let node = node_of(rt, alloc, spec);
    let mut text = Vec::new(alloc);
    let answer = put_pieces(alloc, &mut io, &mut reader, &node, &mut text);
    drop(node);
    drop(reader);
    drop(io);
    match answer {
        Ok(()) => Ok(text),
        Err(fault) => {
            drop(text);
            Err(fault)
        }
    }
}

/// The rows that the filter keeps, of the scan as it is, have this text.
pub fn keeps(rt: &impl Abort, alloc: Global, scan: Scan<'_>, filter: Option<Pred>, wanted: &str) {
    let text = read_scan(rt, alloc, scan, filter).expect(rt, "the rows are read");
    assert_eq!(rt;
        text.as_slice(),
        wanted.as_bytes(),
        "chunks of {}",
        scan.chunk
    );
    drop(text);
}

/// The scan as it is ends with this fault.
pub fn fails(rt: &impl Abort, alloc: Global, scan: Scan<'_>, wanted: &str) {
    let fault = read_scan(rt, alloc, scan, None).expect_err(rt, "a fault");
    let mut told = String::new(alloc);
    write!(told, "{fault}").expect(rt, "memory");
    drop(fault);
    assert_eq!(rt; told.as_str(), wanted, "chunks of {}", scan.chunk);
    drop(told);
}

/// The rows have this text, whatever the size of chunks.
pub fn gives(rt: &impl Abort, alloc: Global, scan: Scan<'_>, wanted: &str) {
    for chunk in CHUNKS {
        keeps(rt, alloc, Scan { chunk, ..scan }, None, wanted);
    }
}

/// The scan ends with this fault, whatever the size of chunks.
pub fn refuses(rt: &impl Abort, alloc: Global, scan: Scan<'_>, wanted: &str) {
    for chunk in CHUNKS {
        fails(rt, alloc, Scan { chunk, ..scan }, wanted);
    }
}
