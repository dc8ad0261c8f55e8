//! The pieces that a reader gives, one call after the other.
ghost use Rattle.morsel_read.specs.ScanReads.{SuitsPieces};

use super::makers::{NOTHING, Scan, reader_of, spec_of};
use morsel_meaning::{ColType, Fault};
use morsel_outside::Io;
use morsel_pipe::RawPiece;
use morsel_read::ScanReader;
use std::alloc::Global;
use std::mem::drop;
use std::process::Abort;

/// Shows a piece: its number, its file with its number and its place there, its rows, those that the slice keeps, its
/// stretch, and its bytes.
fn show_piece(text: &mut String, piece: &RawPiece) -> Result<(), Fault> {
    let number = piece.seq.to_u64();
    let source = piece.source.as_str();
    let RawPiece {
        file,
        at,
        first_row,
        rows,
        from,
        to,
        ..
    } = piece;
    let (offset, len) = piece.slice;
    write!(text, "{number}: {source}, file {file}, at {at}, ")?;
    write!(text, "rows {first_row}+{rows}, kept {offset}+{len}, ")?;
    write!(text, "stretch {from} to {to}, text ")?;
    for byte in piece.bytes.as_slice() {
        text.push(char::from(*byte))?;
    }
    Ok(())
}

fn show_answer(text: &mut String, answer: &Result<Option<RawPiece>, Fault>) -> Result<(), Fault> {
    match answer {
        Ok(Some(piece)) => show_piece(text, piece),
        Ok(None) => {
            text.push_str("none")?;
            Ok(())
        }
        Err(fault) => {
            write!(text, "{fault}")?;
            Ok(())
        }
    }
}

/// The next answer of a reader is shown so.
pub fn answers<H: Io>(
    rt: &impl Abort,
    alloc: Global,
    io: &mut H,
    reader: &mut ScanReader,
    wanted: &str,
)
    requires { SuitsPieces (H.seen io.old) reader.old }
    ensures { SuitsPieces (H.seen io.new) reader.new }
{
    let answer = reader.next(io);
    let mut shown = String::new(alloc);
    show_answer(&mut shown, &answer).expect(rt, "memory");
    drop(answer);
    assert_eq!(rt; shown.as_str(), wanted);
    drop(shown);
}

/// Two files, of which the first has no line feed at its end.
const TWO: Scan<'static> = Scan {
    files: &[
        ("a.csv", b"id,name\n1,ann\n2,\n\n3,c"),
        ("b.csv", b"id,name\n4,dan\n"),
    ],
    columns: &[("id", ColType::Int), ("name", ColType::Text)],
    chunk: 8,
    ..NOTHING
};

#[test]
fn pieces_go_on_from_file_to_file(rt: HostRuntime) {
    let spec = spec_of(&rt, rt.alloc(), TWO, None);
    let (mut io, mut reader) = reader_of(&rt, rt.alloc(), TWO, &spec);
    let first = "0: a.csv, file 7, at 8, rows 0+1, kept 0+1, stretch 0 to 14, text 1,ann\n";
    answers(&rt, rt.alloc(), &mut io, &mut reader, first);
    let second = "2: a.csv, file 7, at 14, rows 1+2, kept 0+2, stretch 14 to 21, text 2,\n\n3,c";
    answers(&rt, rt.alloc(), &mut io, &mut reader, second);
    let third = "4: b.csv, file 8, at 8, rows 3+1, kept 0+1, stretch 21 to 35, text 4,dan\n";
    answers(&rt, rt.alloc(), &mut io, &mut reader, third);
    answers(&rt, rt.alloc(), &mut io, &mut reader, "none");
    answers(&rt, rt.alloc(), &mut io, &mut reader, "none");
    drop(reader);
    drop(io);
    drop(spec);
}

/// The second row and the third one.
const SLICED: Scan<'static> = Scan {
    slice: Some((1, 2)),
    ..TWO
};

#[test]
fn nothing_is_read_behind_the_slice(rt: HostRuntime) {
    let spec = spec_of(&rt, rt.alloc(), SLICED, None);
    let (mut io, mut reader) = reader_of(&rt, rt.alloc(), SLICED, &spec);
    let first = "0: a.csv, file 7, at 8, rows 0+1, kept 1+0, stretch 0 to 14, text 1,ann\n";
    answers(&rt, rt.alloc(), &mut io, &mut reader, first);
    let second = "2: a.csv, file 7, at 14, rows 1+2, kept 0+2, stretch 14 to 21, text 2,\n\n3,c";
    answers(&rt, rt.alloc(), &mut io, &mut reader, second);
    answers(&rt, rt.alloc(), &mut io, &mut reader, "none");
    assert_eq!(rt; io.memory().events(), 3);
    drop(reader);
    drop(io);
    drop(spec);
}

/// Rows with a comment and a blank line between them.
const APART: Scan<'static> = Scan {
    files: &[("a.csv", b"1,a\n#x\n\n2,b\n")],
    has_header: false,
    comment: Some("#"),
    chunk: 4,
    ..TWO
};

#[test]
fn a_stretch_begins_where_the_last_one_ends(rt: HostRuntime) {
    let spec = spec_of(&rt, rt.alloc(), APART, None);
    let (mut io, mut reader) = reader_of(&rt, rt.alloc(), APART, &spec);
    let first = "0: a.csv, file 7, at 0, rows 0+1, kept 0+1, stretch 0 to 4, text 1,a\n";
    answers(&rt, rt.alloc(), &mut io, &mut reader, first);
    let second = "2: a.csv, file 7, at 8, rows 1+1, kept 0+1, stretch 4 to 12, text 2,b\n";
    answers(&rt, rt.alloc(), &mut io, &mut reader, second);
    answers(&rt, rt.alloc(), &mut io, &mut reader, "none");
    drop(reader);
    drop(io);
    drop(spec);
}
