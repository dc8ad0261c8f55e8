//! What 64 bytes do at once, where each quote stands as it does in a text that a program wrote: the number of quotes before a
//! byte tells whether it is in quotes.
//!
//! A quote within a field without quotes, a byte 13 after a closing quote, the byte order mark and comments are left to the
//! machine that takes one byte after the other.
ghost use Rattle.std.specs.Prelude.{◌≡◌, ◌==◌, ◌≤◌, length, map, take, IfSome, if◌then◌else◌};
ghost use Rattle.std.specs.Simd.Lanes.{mask_l};
ghost use Rattle.morsel_grammar.specs.Dialect.{IsDialect};
ghost use Rattle.morsel_grammar.specs.Split.{is_quote};
ghost use Rattle.morsel_grammar.specs.Machine.{InQuotes, AfterQuote, plain_step};
ghost use Rattle.morsel_cut.specs.Places.{cut_place, delimiter_options};
ghost use Rattle.morsel_cut.specs.Blocks.{IsAmongFields, DoesBlock};

use crate::masks::{LANES, byte_mask, one_on, prefix_xor, quote_mask, spread};
use crate::step::{ByteAt, Delimiters};

/// What 64 bytes do.
#[derive(Clone, Copy, Debug)]
pub struct Block {
    /// After which of them a record ends; the lowest bit tells of the first.
    pub ends: u64,
    /// Where the byte after them stands.
    pub place: ByteAt,
}

/// The place after a byte of which it is known whether it is in quotes, and whether it is a quote that closes.
#[inline(always)]
fn place_after(is_inside: bool, closes: bool, last: u8, delimiters: Delimiters) -> ByteAt
    ensures { cut_place result ≡ (if is_inside then InQuotes else (if closes then AfterQuote else plain_step (delimiter_options delimiters) last)) }
{
    if is_inside {
        return ByteAt::InQuotes;
    }
    if closes {
        return ByteAt::AfterQuote;
    }
    delimiters.plain_step(last)
}

/// What 64 bytes do among which there are quotes, or which begin in quotes or after one.
#[inline(always)]
fn quoted_block(
    from: ByteAt,
    lane: &[u8],
    delimiters: Delimiters,
    quotes: u64,
    eols: u64,
) -> Option<Block>
    requires room { LANES ≤ length lane.now }
    requires fit { IsDialect (delimiter_options delimiters) }
    requires among { IsAmongFields (cut_place from) }
    requires quotes { quotes ≡ mask_l (map (is_quote delimiters.quote) (take LANES lane.now)) }
    requires eols { eols ≡ mask_l (map (λ b. b == delimiters.eol) (take LANES lane.now)) }
    ensures { IfSome result (λ block. DoesBlock (delimiter_options delimiters) (cut_place from) (take LANES lane.now) block) }
{
    let stops = byte_mask(lane, delimiters.separator) | eols;
    let near = stops | quotes;
    let inside = prefix_xor(quotes) ^ spread(from.is_in_quotes());
    let closing = quotes & !inside;
    let misplaced = quotes & inside & !one_on(near, !from.is_in_plain());
    let followed = one_on(closing, from.is_after_quote()) & !near;
    if misplaced | followed != 0 {
        return None;
    }
    Some(Block {
        ends: eols & !inside,
        place: place_after(
            inside >> 63 == 1,
            closing >> 63 == 1,
            lane[LANES - 1],
            delimiters,
        ),
    })
}

/// What the first 64 bytes do. `None` says nothing of them: they are for the machine that takes one byte after the other.
#[inline(always)]
pub fn block_of(from: ByteAt, lane: &[u8], delimiters: Delimiters) -> Option<Block>
    requires room { LANES ≤ length lane.now }
    requires fit { IsDialect (delimiter_options delimiters) }
    ensures { IfSome result (λ block. DoesBlock (delimiter_options delimiters) (cut_place from) (take LANES lane.now) block) }
{
    let quotes = quote_mask(lane, delimiters.quote);
    let eols = byte_mask(lane, delimiters.eol);
    if quotes == 0 && from.is_outside() {
        return Some(Block {
            ends: eols,
            place: delimiters.plain_step(lane[LANES - 1]),
        });
    }
    if !from.is_among_fields() {
        return None;
    }
    quoted_block(from, lane, delimiters, quotes, eols)
}
