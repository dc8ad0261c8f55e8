//! Pieces of a CSV text, read with none or one of their columns used, and written as NDJSON.
use crate::cuts::cuts_of;
use crate::facts::{facts_schema, facts_text};
use morsel_frame::{Frame, Schema};
use morsel_grammar::CsvOptions;
use morsel_meaning::Fault;
use morsel_ndjson::write_ndjson;
use morsel_text::{ReadRoom, read_records_with};
use morsel_timing::{Best, Timing, nanos_since, now, tell};
use std::alloc::Global;
use std::mem::drop;
use std::rt::Clock;

/// The rows of the text, which is then less than a megabyte and stays in the processor's cache.
const ROWS: usize = 30000;

/// Which columns are used: none, the first number, the text.
const USES: [(&str, [bool; 4]); 3] = [
    ("read, no column used, rows by bytes", [false; 4]),
    (
        "read, the first number used, rows",
        [true, false, false, false],
    ),
    ("read, the text used, rows", [false, false, false, true]),
];

/// The pieces of a text, and what they are read with.
#[derive(Clone, Copy)]
struct TimedText<'a> {
    text: &'a [u8],
    /// Where each ends.
    cuts: &'a [usize],
    schema: &'a Schema,
    options: &'a CsvOptions,
}

/// Runs each part.
pub fn run<R: Clock + Print + AllocGlobal>(rt: &R, timing: Timing) -> Result<(), Fault> {
    let text = facts_text(rt.alloc(), ROWS)?;
    let options = CsvOptions::standard(rt.alloc())?;
    tell_text(rt, timing, text.as_bytes(), &options)
}

/// Tells how a text is read and written.
fn tell_text<R: Clock + Print + AllocGlobal>(
    rt: &R,
    timing: Timing,
    text: &[u8],
    options: &CsvOptions,
) -> Result<(), Fault> {
    let cuts = cuts_of(rt.alloc(), text, options)?;
    let schema = facts_schema(rt.alloc())?;
    let pieces = TimedText {
        text,
        cuts: cuts.as_slice(),
        schema: &schema,
        options,
    };
    tell_pieces(rt, timing, pieces)
}

/// Tells how pieces are read and written.
fn tell_pieces<R: Clock + Print + AllocGlobal>(
    rt: &R,
    timing: Timing,
    pieces: TimedText<'_>,
) -> Result<(), Fault> {
    for (at, (name, used)) in USES.iter().enumerate() {
        let best = time_reads(rt, timing, pieces, used)?;
        let items = if at == 0 { pieces.text.len() } else { ROWS };
        tell(rt, timing, name, best, items)?;
    }
    let written = time_writes(rt, timing, pieces)?;
    tell(
        rt,
        timing,
        "write of rows as NDJSON, bytes by rows",
        written,
        ROWS,
    )
}

/// Reads a piece; none under another number of columns than four.
fn read_piece(
    alloc: Global,
    piece: &[u8],
    pieces: TimedText<'_>,
    used: &[bool; 4],
    room: &mut ReadRoom,
) -> Result<Option<Frame>, Fault> {
    if pieces.schema.len() != 4 {
        return Ok(None);
    }
    let (frame, _) = read_records_with(
        alloc,
        piece,
        0,
        0,
        pieces.schema,
        used,
        false,
        pieces.options,
        room,
    )?;
    Ok(Some(frame))
}

/// How many rows a piece has.
fn rows_of_piece(
    alloc: Global,
    piece: &[u8],
    pieces: TimedText<'_>,
    used: &[bool; 4],
    room: &mut ReadRoom,
) -> Result<usize, Fault> {
    match read_piece(alloc, piece, pieces, used, room)? {
        Some(frame) => Ok(frame.height()),
        None => Ok(0),
    }
}

/// Reads all pieces, and counts their rows.
fn read_pieces(
    alloc: Global,
    pieces: TimedText<'_>,
    used: &[bool; 4],
    room: &mut ReadRoom,
) -> Result<usize, Fault> {
    let mut rows: usize = 0;
    let mut from = 0;
    for to in pieces.cuts {
        if let Some(piece) = pieces.text.get(from..*to) {
            rows = rows.saturating_add(rows_of_piece(alloc, piece, pieces, used, room)?);
        }
        from = *to;
    }
    Ok(rows)
}

/// Times reading with these columns used.
fn time_reads<R: Clock + AllocGlobal>(
    rt: &R,
    timing: Timing,
    pieces: TimedText<'_>,
    used: &[bool; 4],
) -> Result<Best, Fault> {
    let mut best = Best::new();
    let mut room = ReadRoom::new(rt.alloc());
    for _ in 0..timing.runs {
        let begun = now(rt)?;
        let rows = read_pieces(rt.alloc(), pieces, used, &mut room)?;
        best.take_in(rt, begun, rows)?;
    }
    drop(room);
    Ok(best)
}

/// Writes a frame, and says how many nanoseconds that took and how many bytes it gave.
fn write_frame<R: Clock>(rt: &R, frame: &Frame, out: &mut Vec<u8>) -> Result<(u64, usize), Fault> {
    out.clear();
    let begun = now(rt)?;
    write_ndjson(out, frame)?;
    Ok((nanos_since(rt, begun)?, out.len()))
}

/// Writes a piece, which is read before.
fn write_piece<R: Clock + AllocGlobal>(
    rt: &R,
    piece: &[u8],
    pieces: TimedText<'_>,
    room: &mut ReadRoom,
    out: &mut Vec<u8>,
) -> Result<(u64, usize), Fault> {
    match read_piece(rt.alloc(), piece, pieces, &[true; 4], room)? {
        Some(frame) => write_frame(rt, &frame, out),
        None => Ok((0, 0)),
    }
}

/// Writes all pieces.
fn write_pieces<R: Clock + AllocGlobal>(
    rt: &R,
    pieces: TimedText<'_>,
    room: &mut ReadRoom,
    out: &mut Vec<u8>,
) -> Result<(u64, usize), Fault> {
    let mut nanos: u64 = 0;
    let mut bytes: usize = 0;
    let mut from = 0;
    for to in pieces.cuts {
        if let Some(piece) = pieces.text.get(from..*to) {
            let (more, len) = write_piece(rt, piece, pieces, room, out)?;
            nanos = nanos.saturating_add(more);
            bytes = bytes.saturating_add(len);
        }
        from = *to;
    }
    Ok((nanos, bytes))
}

/// Times writing.
fn time_writes<R: Clock + AllocGlobal>(
    rt: &R,
    timing: Timing,
    pieces: TimedText<'_>,
) -> Result<Best, Fault> {
    let mut best = Best::new();
    let mut room = ReadRoom::new(rt.alloc());
    let mut out = Vec::new(rt.alloc());
    for _ in 0..timing.runs {
        let (nanos, bytes) = write_pieces(rt, pieces, &mut room, &mut out)?;
        best.take(nanos, bytes);
    }
    drop(out);
    drop(room);
    Ok(best)
}
