//! Every short text of each kind of options, cut at every place. Read piece by piece as the cutter says, it has the rows that
//! the plain reader gives the whole, or the same fault at the same place.
use super::dialects::{COUNTS, DIALECTS, Dialect, options_of, write_text};
use super::{FILE, PAIR, TEXT, show_rows};
use crate::tests::schema_of;
use morsel_cut::Cutter;
use morsel_frame::{Frame, Schema};
use morsel_grammar::CsvOptions;
use morsel_meaning::{ColType, Fault};
use morsel_text::{read_records, read_records_plainly};
use std::alloc::Global;
use std::mem::drop;
use std::process::Abort;

/// Up to where a text is whole records, and the place of a record that is refused there.
#[derive(Clone, Copy)]
struct Step {
    end: usize,
    refused: Option<u64>,
}

/// What an answer of the cutter says of a text of which the piece begins at `from`.
fn step_of(rt: &impl Abort, from: usize, answer: Result<usize, Fault>) -> Step {
    match answer {
        Ok(0) => Step {
            end: 0,
            refused: None,
        },
        Ok(end) => Step {
            end: from.saturating_add(end),
            refused: None,
        },
        Err(Fault::Malformed { file: FILE, at }) => Step {
            end: at as usize,
            refused: Some(at),
        },
        Err(_) => rt.panic("another fault"),
    }
}

/// What the cutter says of the text in two pieces, and at its end.
fn steps_of(rt: &impl Abort, text: &[u8], cut: usize, options: &CsvOptions) -> [Step; 3] {
    assert!(rt; cut <= text.len() && text.len() < 1000);
    let (front, back) = text.split_at(cut);
    let mut cutter = Cutter::new(options, FILE).expect(rt, "memory");
    let first = step_of(rt, 0, cutter.feed(front));
    let second = step_of(rt, cut, cutter.feed(back));
    let last = match cutter.finish() {
        Ok(()) => step_of(rt, 0, Ok(text.len())),
        Err(fault) => step_of(rt, 0, Err(fault)),
    };
    [first, second, last]
}

/// How a text is read: its columns and options.
#[derive(Clone, Copy)]
struct Task<'a> {
    alloc: Global,
    schema: &'a Schema,
    used: &'a [bool],
    options: &'a CsvOptions,
}

/// Writes the rows of a piece, and says whether the header is still to come.
fn read_piece(
    rt: &impl Abort,
    task: &Task<'_>,
    piece: &[u8],
    at: usize,
    head: bool,
    shown: &mut String,
) -> Result<bool, Fault> {
    assert!(rt; piece.len() < 1000 && at < 1000 && task.used.len() == task.schema.len());
    let (frame, awaits_header) = read_records(
        task.alloc,
        piece,
        at as u64,
        FILE,
        task.schema,
        task.used,
        head,
        task.options,
    )?;
    show_rows(shown, &frame, false).expect(rt, "memory");
    drop(frame);
    Ok(awaits_header)
}

/// Writes the rows of the text, read as the steps say.
fn read_pieces(
    rt: &impl Abort,
    task: &Task<'_>,
    text: &[u8],
    steps: &[Step; 3],
    head: bool,
    shown: &mut String,
) -> Result<bool, Fault> {
    let mut given = 0;
    let mut awaits_header = head;
    for step in steps {
        if step.end > given {
            let piece = text
                .get(given..step.end)
                .expect(rt, "a place within the text");
            awaits_header = read_piece(rt, task, piece, given, awaits_header, shown)?;
            given = step.end;
        }
        if let Some(at) = step.refused {
            return Err(Fault::Malformed { file: FILE, at });
        }
    }
    assert_eq!(rt; given, text.len());
    Ok(awaits_header)
}

/// Writes the rows of the whole text, read by the plain reader.
fn read_whole(
    rt: &impl Abort,
    task: &Task<'_>,
    text: &[u8],
    head: bool,
    shown: &mut String,
) -> Result<bool, Fault> {
    assert!(rt; text.len() < 1000 && task.used.len() == task.schema.len());
    let (frame, awaits_header) = read_records_plainly(
        task.alloc,
        text,
        0,
        FILE,
        task.schema,
        task.used,
        head,
        task.options,
    )?;
    show_rows(shown, &frame, false).expect(rt, "memory");
    drop(frame);
    Ok(awaits_header)
}

/// Two readings have the same rows, or the same fault.
fn same(
    rt: &impl Abort,
    a: &Result<bool, Fault>,
    b: &Result<bool, Fault>,
    shown: &str,
    other: &str,
) {
    assert_eq!(rt; a, b);
    if a.is_ok() {
        assert_eq!(rt; shown, other);
    }
}

/// The text is read alike whole and in two pieces.
fn is_read_alike(
    rt: &impl Abort,
    task: &Task<'_>,
    text: &[u8],
    cut: usize,
    head: bool,
    shown: &mut String,
    other: &mut String,
) {
    let steps = steps_of(rt, text, cut, task.options);
    shown.clear();
    other.clear();
    let pieces = read_pieces(rt, task, text, &steps, head, shown);
    let whole = read_whole(rt, task, text, head, other);
    same(rt, &pieces, &whole, shown.as_str(), other.as_str());
    drop(pieces);
    drop(whole);
}

/// Every text of this length is read alike, wherever it is cut. Says how many readings that were.
fn all_of_length(
    rt: &impl Abort,
    task: &Task<'_>,
    dialect: &Dialect,
    len: usize,
    count: usize,
    head: bool,
) -> usize {
    let mut text = Vec::new(task.alloc);
    let mut shown = String::new(task.alloc);
    let mut other = String::new(task.alloc);
    let mut readings: usize = 0;
    for number in 0..count {
        write_text(&mut text, dialect, number, len).expect(rt, "memory");
        for cut in 0..=len {
            is_read_alike(rt, task, text.as_slice(), cut, head, &mut shown, &mut other);
            readings = readings.saturating_add(1);
        }
    }
    drop(text);
    drop(shown);
    drop(other);
    readings
}

/// Every text of up to five bytes of this kind is read alike, wherever it is cut.
fn all_of_dialect(rt: &impl Abort, task: &Task<'_>, dialect: &Dialect, head: bool) -> usize {
    let mut readings: usize = 0;
    for (len, count) in COUNTS.iter().enumerate() {
        readings = readings.saturating_add(all_of_length(rt, task, dialect, len, *count, head));
    }
    readings
}

/// The readings of one kind of options under these columns.
fn readings_of(
    rt: &impl Abort,
    alloc: Global,
    dialect: &Dialect,
    columns: &[(&str, ColType)],
    used: &[bool],
    head: bool,
) -> usize {
    let schema = schema_of(rt, alloc, columns);
    let options = options_of(rt, alloc, dialect);
    let task = Task {
        alloc,
        schema: &schema,
        used,
        options: &options,
    };
    let readings = all_of_dialect(rt, &task, dialect, head);
    drop(options);
    drop(schema);
    readings
}

/// So many readings there are of each kind: for each text of up to five bytes, one more than it has bytes.
const READINGS: usize = 1 + 2 * 7 + 3 * 49 + 4 * 343 + 5 * 2401 + 6 * 16807;

/// All kinds of options are tried.
fn all_kinds(
    rt: &impl Abort,
    alloc: Global,
    columns: &[(&str, ColType)],
    used: &[bool],
    head: bool,
) {
    for dialect in &DIALECTS {
        assert_eq!(rt;
            readings_of(rt, alloc, dialect, columns, used, head),
            READINGS
        );
    }
}

#[test]
fn pieces_after_a_header_are_read_as_the_whole(rt: HostRuntime) {
    all_kinds(&rt, rt.alloc(), PAIR, &[true, true], true);
}

#[test]
fn pieces_without_a_header_are_read_as_the_whole(rt: HostRuntime) {
    all_kinds(&rt, rt.alloc(), TEXT, &[true], false);
}
