//! What 64 bytes tell: where fields end among them, and whether each quote stands where one may.
//!
//! The number of quotes up to a byte tells whether it is in quotes, where each quote opens a field, closes one or is doubled in
//! one. That is tested: a text in which another quote stands is for a reader that takes one record after the other.
ghost use Rattle.std.specs.Prelude.{◌≡◌, ◌==◌, ◌||◌, ◌≤◌, ℕ, length, take};
ghost use Rattle.morsel_grammar.specs.Split.{is_quote};
ghost use Rattle.morsel_marks.specs.Marks.{set_places, marks_from, quotes_after, is_sound_from};

use crate::masks::{low_bits, stop_mask};
use morsel_cut::masks::{LANES, byte_mask, one_on, prefix_xor, quote_mask, spread};

/// What the bytes before a place tell of the quotes at it.
#[derive(Clone, Copy, Debug)]
pub struct QuoteState {
    /// A quote may open here: the text begins, or a separator, an eol byte or a quote is before it.
    pub before: bool,
    /// The number of quotes before it is odd.
    pub inside: bool,
    /// A quote that closes is before it.
    pub closed: bool,
}

/// What 64 bytes tell.
#[derive(Clone, Copy, Debug)]
pub struct Seen {
    /// The bytes that end a field; the lowest bit tells of the first.
    pub marks: u64,
    /// Each quote stands where one may.
    pub is_sound: bool,
    /// What they tell of the place after them.
    pub next: QuoteState,
}

/// What the first `len` of 64 bytes tell, where the bytes before them tell this.
#[inline(always)]
pub fn look(
    lane: &[u8],
    len: usize,
    separator: u8,
    quote: Option<u8>,
    eol: u8,
    state: QuoteState,
) -> Seen
    requires room { LANES ≤ length lane.now }
    requires most { len ≤ LANES }
    ensures marks { (at : ℕ) → set_places LANES at result.marks
        ≡ marks_from (is_quote quote) (λ b. b == separator || b == eol) at state.inside (take len lane.now) }
    ensures sound { result.is_sound ≡ is_sound_from (is_quote quote) (λ b. b == separator || b == eol) state (take len lane.now) }
    ensures inside { result.next.inside ≡ (quotes_after (is_quote quote) (λ b. b == separator || b == eol) state (take len lane.now)).inside }
    ensures next { len ≡ LANES → result.next ≡ quotes_after (is_quote quote) (λ b. b == separator || b == eol) state (take len lane.now) }
{
    let within = low_bits(len);
    let quotes = quote_mask(lane, quote) & within;
    let stops = stop_mask(lane, separator, eol) & within;
    let near = stops | quotes;
    if quotes == 0 && !state.inside && !state.closed {
        let next = QuoteState {
            before: stops >> 63 == 1,
            inside: false,
            closed: false,
        };
        return Seen {
            marks: stops,
            is_sound: true,
            next,
        };
    }
    let inside = prefix_xor(quotes) ^ spread(state.inside);
    let closes = quotes & !inside;
    let misplaced = quotes & inside & !one_on(near, state.before);
    let returns = byte_mask(lane, b'\r') & within;
    let loose = one_on(closes, state.closed) & !(near | returns) & within;
    let next = QuoteState {
        before: near >> 63 == 1,
        inside: inside >> 63 == 1,
        closed: closes >> 63 == 1,
    };
    Seen {
        marks: stops & !inside,
        is_sound: misplaced | loose == 0,
        next,
    }
}
