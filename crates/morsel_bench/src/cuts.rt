//! A CSV text in pieces of 64 KiB: where it may be cut, how many rows there are up to there, and reading piece by piece.
ghost use Rattle.std.specs.Prelude.{◌+◌, ◌<◌, ◌^◌, length};

use crate::facts::{facts_schema, facts_text};
use morsel_cut::{Cutter, rows_of};
use morsel_frame::Schema;
use morsel_grammar::CsvOptions;
use morsel_meaning::Fault;
use morsel_text::read_records;
use morsel_timing::{Best, Timing, now, tell};
use std::alloc::Global;
use std::rt::Clock;

/// The bytes that are fed at once.
const PIECE: usize = 65536;

/// The rows of the text, which is then less than a megabyte and stays in the processor's cache.
const ROWS: usize = 30000;

/// Runs each part.
pub fn run<R: Clock + Print + AllocGlobal>(rt: &R, timing: Timing) -> Result<(), Fault> {
    let text = facts_text(rt.alloc(), ROWS)?;
    let options = CsvOptions::standard(rt.alloc())?;
    tell_cuts(rt, timing, text.as_bytes(), &options)
}

/// Tells how the text is cut and counted, and then how it is read.
fn tell_cuts<R: Clock + Print + AllocGlobal>(
    rt: &R,
    timing: Timing,
    text: &[u8],
    options: &CsvOptions,
) -> Result<(), Fault> {
    let cuts = cuts_of(rt.alloc(), text, options)?;
    let fed = time_feed(rt, timing, text, options)?;
    tell(
        rt,
        timing,
        "feed in pieces, bytes up to ends",
        fed,
        text.len(),
    )?;
    let counted = time_rows(rt, timing, text, &cuts, options)?;
    tell(rt, timing, "rows of pieces, by bytes", counted, text.len())?;
    tell_reads(rt, timing, text, &cuts, options)
}

/// Tells how the text is read, whole and in pieces.
fn tell_reads<R: Clock + Print + AllocGlobal>(
    rt: &R,
    timing: Timing,
    text: &[u8],
    cuts: &[usize],
    options: &CsvOptions,
) -> Result<(), Fault> {
    let schema = facts_schema(rt.alloc())?;
    let whole = time_reads(rt, timing, text, &[0, text.len()], &schema, options)?;
    tell(
        rt,
        timing,
        "read of the whole, rows by bytes",
        whole,
        text.len(),
    )?;
    let pieces = time_reads(rt, timing, text, cuts, &schema, options)?;
    tell(
        rt,
        timing,
        "read of pieces, rows by bytes",
        pieces,
        text.len(),
    )
}

/// Feeds the rest of a text, and adds up the bytes up to the last ends.
fn feed_rest(cutter: &mut Cutter, text: &[u8]) -> Result<usize, Fault>
    requires { cutter.old.fed + length text.now < 2 ^ 64 }
{
    if text.is_empty() {
        return Ok(0);
    }
    let (front, back) = text.split_at(PIECE.min(text.len()));
    let end = cutter.feed(front)?;
    Ok(feed_rest(cutter, back)?.saturating_add(end))
}

/// Feeds a text in pieces.
fn feed_all(text: &[u8], options: &CsvOptions) -> Result<usize, Fault> {
    let mut cutter = Cutter::new(options, 0)?;
    feed_rest(&mut cutter, text)
}

/// Puts the places where a text may be cut, the rest of which begins at `at`.
fn put_cuts(cuts: &mut Vec<usize>, cutter: &mut Cutter, at: usize, text: &[u8]) -> Result<(), Fault>
    requires { cutter.old.fed + length text.now < 2 ^ 64 }
{
    if text.is_empty() {
        return Ok(());
    }
    let (front, back) = text.split_at(PIECE.min(text.len()));
    let end = cutter.feed(front)?;
    if end > 0 {
        cuts.push(at.saturating_add(end))?;
    }
    put_cuts(cuts, cutter, at.saturating_add(front.len()), back)
}

/// The places where a text may be cut, and its beginning.
pub fn cuts_of(alloc: Global, text: &[u8], options: &CsvOptions) -> Result<Vec<usize>, Fault> {
    let mut cutter = Cutter::new(options, 0)?;
    let mut cuts = vec![in alloc; 0]?;
    put_cuts(&mut cuts, &mut cutter, 0, text)?;
    Ok(cuts)
}

/// Where a text may be cut.
fn time_feed<R: Clock + AllocGlobal>(
    rt: &R,
    timing: Timing,
    text: &[u8],
    options: &CsvOptions,
) -> Result<Best, Fault> {
    let mut best = Best::new();
    for _ in 0..timing.runs {
        let begun = now(rt)?;
        let ends = feed_all(text, options)?;
        best.take_in(rt, begun, ends)?;
    }
    Ok(best)
}

/// How many rows the pieces between the cuts have.
fn count_rows(text: &[u8], cuts: &[usize], options: &CsvOptions) -> usize {
    let mut rows: usize = 0;
    let mut from = 0;
    for to in cuts {
        if let Some(piece) = text.get(from..*to) {
            rows = rows.saturating_add(rows_of(piece, 4, options));
        }
        from = *to;
    }
    rows
}

/// The rows of the pieces between the cuts.
fn time_rows<R: Clock + AllocGlobal>(
    rt: &R,
    timing: Timing,
    text: &[u8],
    cuts: &[usize],
    options: &CsvOptions,
) -> Result<Best, Fault> {
    let mut best = Best::new();
    for _ in 0..timing.runs {
        let begun = now(rt)?;
        let rows = count_rows(text, cuts, options);
        best.take_in(rt, begun, rows)?;
    }
    Ok(best)
}

/// Reads a piece, and says how many rows it has; none under another number of columns.
pub fn read_piece(
    alloc: Global,
    piece: &[u8],
    schema: &Schema,
    options: &CsvOptions,
) -> Result<usize, Fault> {
    let used = [true; 4];
    if schema.len() != used.len() {
        return Ok(0);
    }
    let (frame, _) = read_records(alloc, piece, 0, 0, schema, &used, false, options)?;
    Ok(frame.height())
}

/// Reads the pieces between the cuts.
fn read_pieces(
    alloc: Global,
    text: &[u8],
    cuts: &[usize],
    schema: &Schema,
    options: &CsvOptions,
) -> Result<usize, Fault> {
    let mut rows: usize = 0;
    let mut from = 0;
    for to in cuts {
        if let Some(piece) = text.get(from..*to) {
            rows = rows.saturating_add(read_piece(alloc, piece, schema, options)?);
        }
        from = *to;
    }
    Ok(rows)
}

/// The frames of the pieces between the cuts.
fn time_reads<R: Clock + AllocGlobal>(
    rt: &R,
    timing: Timing,
    text: &[u8],
    cuts: &[usize],
    schema: &Schema,
    options: &CsvOptions,
) -> Result<Best, Fault> {
    let mut best = Best::new();
    for _ in 0..timing.runs {
        let begun = now(rt)?;
        let rows = read_pieces(rt.alloc(), text, cuts, schema, options)?;
        best.take_in(rt, begun, rows)?;
    }
    Ok(best)
}
