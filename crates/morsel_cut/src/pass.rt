//! Runs of bytes at once, without a comment prefix: 64 bytes at a time, and where these have a quote in an unlikely place, up to
//! the next quote. Up to a quote only the last byte counts, and the last eol byte.
ghost use Rattle.std.specs.Prelude.{◌≡◌, ◌≢◌, ◌+◌, ◌<◌, ◌≤◌, ◌^◌, ℕ, true, false, [], ◌∷◌, length, take, slice_index};
ghost use Rattle.morsel_grammar.specs.Dialect.{IsDialect};
ghost use Rattle.morsel_grammar.specs.Split.{is_quote};
ghost use Rattle.morsel_grammar.specs.Machine.{joined_place};
ghost use Rattle.morsel_cut.specs.Places.{cut_place, delimiter_options, IsOutside};
ghost use Rattle.morsel_cut.specs.Runs.{RunsTo, up_to_last};

use crate::blocks::block_of;
use crate::masks::{LANES, bits_up_to_highest};
use crate::step::{ByteAt, Delimiters};
use memchr::{memchr, memrchr};

/// What some bytes do to the place of the machine.
#[derive(Clone, Copy, Debug)]
pub struct PlaceRun {
    /// Where the byte after it stands.
    pub place: ByteAt,
    /// How many of its bytes there are up to the last end of a record, or 0.
    pub end: usize,
    /// How many of its bytes there are up to where the last record begins, or 0.
    pub begin: usize,
}

impl PlaceRun {
    /// This run of `len` bytes, and then the next one.
    #[inline(always)]
    fn then(self, len: usize, next: PlaceRun) -> PlaceRun
        requires ends { len + next.end < 2 ^ 64 }
        requires begins { len + next.begin < 2 ^ 64 }
        ensures place { result.place ≡ next.place }
        ensures end { result.end ≡ joined_place self.end len next.end }
        ensures begin { result.begin ≡ joined_place self.begin len next.begin }
    {
        PlaceRun {
            place: next.place,
            end: later_place(self.end, len, next.end),
            begin: later_place(self.begin, len, next.begin),
        }
    }
}

/// The later one of a place and of one after `len` bytes, if there is one.
#[inline(always)]
pub fn later_place(before: usize, len: usize, later: usize) -> usize
    requires { len + later < 2 ^ 64 }
    ensures { result ≡ joined_place before len later }
{
    if later == 0 { before } else { len + later }
}

/// How many bytes come before the next quote.
#[inline(always)]
pub fn unquoted_len(text: &[u8], quote: Option<u8>) -> usize
    ensures within { result ≤ length text.now }
    ensures unquoted { (k : ℕ) → k < result → is_quote quote (slice_index text.now k) ≡ false }
    ensures stops { result < length text.now → is_quote quote (slice_index text.now result) ≡ true }
{
    let Some(quote) = quote else {
        return text.len();
    };
    memchr(quote, text).unwrap_or(text.len())
}

/// How many bytes there are up to the last one that is this byte, or 0.
#[inline(always)]
pub fn len_up_to_last(byte: u8, text: &[u8]) -> usize
    ensures { result ≡ up_to_last byte text.now }
{
    let Some(at) = memrchr(byte, text) else {
        return 0;
    };
    at + 1
}

/// The run of one byte.
#[inline(always)]
fn one_byte(from: ByteAt, b: u8, delimiters: Delimiters) -> PlaceRun
    ensures { RunsTo (delimiter_options delimiters) (cut_place from) (b ∷ []) result }
{
    let place = delimiters.step(from, b);
    PlaceRun {
        place,
        end: if place.is_after_eol() { 1 } else { 0 },
        begin: if place.begins_record() { 1 } else { 0 },
    }
}

/// The run of bytes that are no quotes, outside quotes.
#[inline(always)]
fn plain_run(from: ByteAt, bytes: &[u8], delimiters: Delimiters) -> PlaceRun
    requires some { 0 < length bytes.now }
    requires outside { IsOutside (cut_place from) }
    requires unquoted { (k : ℕ) → k < length bytes.now → is_quote delimiters.quote (slice_index bytes.now k) ≡ false }
    requires apart { delimiters.separator ≢ delimiters.eol }
    ensures { RunsTo (delimiter_options delimiters) (cut_place from) bytes.now result }
{
    let end = len_up_to_last(delimiters.eol, bytes);
    PlaceRun {
        place: delimiters.plain_step(bytes[bytes.len() - 1]),
        end,
        begin: end,
    }
}

/// What the blocks of 64 bytes do that a text begins with, and how many bytes these are.
fn blocks_run(from: ByteAt, text: &[u8], delimiters: Delimiters) -> (PlaceRun, usize)
    requires fit { IsDialect (delimiter_options delimiters) }
    ensures within { result.1 ≤ length text.now }
    ensures run { RunsTo (delimiter_options delimiters) (cut_place from) (take result.1 text.now) result.0 }
{
    let mut place = from;
    let mut end = 0;
    let mut at = 0;
    while text.len() - at >= LANES {
        let Some(block) = block_of(place, &text[at..], delimiters) else {
            return (
                PlaceRun {
                    place,
                    end,
                    begin: end,
                },
                at,
            );
        };
        end = later_place(end, at, bits_up_to_highest(block.ends));
        place = block.place;
        at += LANES;
    }
    (
        PlaceRun {
            place,
            end,
            begin: end,
        },
        at,
    )
}

/// What the front of a text does up to the next quote, and how many bytes it has.
#[inline(always)]
fn stretch_run(from: ByteAt, text: &[u8], delimiters: Delimiters) -> (PlaceRun, usize)
    requires some { 0 < length text.now }
    requires apart { delimiters.separator ≢ delimiters.eol }
    ensures some { 0 < result.1 }
    ensures within { result.1 ≤ length text.now }
    ensures run { RunsTo (delimiter_options delimiters) (cut_place from) (take result.1 text.now) result.0 }
{
    if delimiters.is_quote(text[0]) {
        return (one_byte(from, text[0], delimiters), 1);
    }
    if from.is_outside() {
        let len = unquoted_len(text, delimiters.quote);
        return (plain_run(from, &text[..len], delimiters), len);
    }
    if from.is_in_quotes() {
        let run = PlaceRun {
            place: from,
            end: 0,
            begin: 0,
        };
        return (run, unquoted_len(text, delimiters.quote));
    }
    (one_byte(from, text[0], delimiters), 1)
}

/// What the front of a text does, and how many bytes it has.
fn front_run(from: ByteAt, text: &[u8], delimiters: Delimiters) -> (PlaceRun, usize)
    requires some { 0 < length text.now }
    requires fit { IsDialect (delimiter_options delimiters) }
    ensures some { 0 < result.1 }
    ensures within { result.1 ≤ length text.now }
    ensures run { RunsTo (delimiter_options delimiters) (cut_place from) (take result.1 text.now) result.0 }
{
    let (run, len) = blocks_run(from, text, delimiters);
    if len > 0 {
        return (run, len);
    }
    stretch_run(from, text, delimiters)
}

/// What a text does.
pub fn whole_run(from: ByteAt, text: &[u8], delimiters: Delimiters) -> PlaceRun
    requires fit { IsDialect (delimiter_options delimiters) }
    ensures run { RunsTo (delimiter_options delimiters) (cut_place from) text.now result }
    ensures ends { result.end ≤ length text.now }
    ensures begins { result.begin ≤ length text.now }
{
    let mut run = PlaceRun {
        place: from,
        end: 0,
        begin: 0,
    };
    let mut at = 0;
    while at < text.len() {
        let (next, len) = front_run(run.place, &text[at..], delimiters);
        run = run.then(at, next);
        at += len;
    }
    run
}
