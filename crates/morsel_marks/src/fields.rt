//! Where the fields of a text end: one pass over it, 64 bytes at a time.
ghost use Rattle.std.specs.Prelude.{◌≡◌, ◌==◌, ◌||◌, ◌+◌, ◌-◌, ◌*◌, ◌^◌, ◌<◌, ◌≤◌, ℕ, true, false, length, take, drop, MatchOption, IfSome, IfOk, OnOk, IsOkUnless};
ghost use Rattle.morsel_grammar.specs.Split.{is_quote};
ghost use Rattle.morsel_marks.specs.Marks.{marks_from, is_well_quoted_by, is_well_quoted, field_ends};
ghost use Rattle.morsel_marks.specs.MarkedRows.{IsRowText};

use crate::look::{QuoteState, look};
use crate::places::put_places;
use crate::rows::count_rows;
use morsel_cut::masks::LANES;
use morsel_grammar::CsvOptions;
use morsel_meaning::Fault;
use std::alloc::AllocError;

/// How many more places there is room for than a text has bytes: those of a last group.
const SPARE: usize = 72;

/// The bytes from a place on.
#[inline(always)]
fn from(text: &[u8], at: usize) -> &[u8]
    requires { at ≤ length text.now }
    ensures { result.now ≡ drop at text.now }
{
    &text[at..]
}

/// At most 64 bytes, and zeros after them.
#[inline(always)]
fn padded(bytes: &[u8]) -> [u8; LANES]
    requires { length bytes.now ≤ LANES }
    ensures long { length result ≡ 64 }
    ensures front { take (length bytes.now) result ≡ bytes.now }
{
    let mut lane = [0u8; LANES];
    lane[..bytes.len()].copy_from_slice(bytes);
    lane
}

/// Writes the places of the bytes that end a field, and gives their count; none where a quote stands where it may not.
fn find_marks(
    text: &[u8],
    separator: u8,
    quote: Option<u8>,
    eol: u8,
    out: &mut [u32],
) -> Option<usize>
    requires room { length text.now + SPARE ≤ length out.now }
    requires fits { length text.now + 64 < 4294967296 }
    ensures kept { length out.new ≡ length out.old }
    ensures value { MatchOption result (is_well_quoted_by (is_quote quote) (λ b. b == separator || b == eol) text.now ≡ false)
        (λ n. (is_well_quoted_by (is_quote quote) (λ b. b == separator || b == eol) text.now ≡ true)
        × (take n out.new ≡ marks_from (is_quote quote) (λ b. b == separator || b == eol) 0 false text.now)) }
    ensures within { IfSome result (λ n. n ≤ length out.new) }
{
    let mut state = QuoteState {
        before: true,
        inside: false,
        closed: false,
    };
    let mut count = 0;
    let mut at = 0;
    while text.len() - at >= LANES {
        let seen = look(from(text, at), LANES, separator, quote, eol, state);
        if !seen.is_sound {
            return None;
        }
        count = put_places(out, count, at, seen.marks);
        state = seen.next;
        at += LANES;
    }
    let rest = from(text, at);
    let lane = padded(rest);
    let seen = look(&lane, rest.len(), separator, quote, eol, state);
    if !seen.is_sound {
        return None;
    }
    if seen.next.inside {
        return None;
    }
    Some(put_places(out, count, at, seen.marks))
}

/// Makes room for the marks of a text of so many bytes; what the room holds says nothing.
fn make_room(places: &mut Vec<u32>, len: usize) -> Result<(), AllocError>
    requires { len + SPARE < 4294967296 }
    ensures { OnOk result (len + SPARE ≤ length places.new.items) }
{
    let room = len + SPARE;
    if places.len() < room {
        places.resize(room, 0)?;
    }
    Ok(())
}

/// Makes room, and writes the places of the bytes that end a field.
fn mark_bytes(
    text: &[u8],
    separator: u8,
    quote: Option<u8>,
    eol: u8,
    places: &mut Vec<u32>,
) -> Result<Option<usize>, Fault>
    requires { length text.now + SPARE < 4294967296 }
    ensures ok { IfOk result (λ found. MatchOption found (is_well_quoted_by (is_quote quote) (λ b. b == separator || b == eol) text.now ≡ false)
        (λ n. (is_well_quoted_by (is_quote quote) (λ b. b == separator || b == eol) text.now ≡ true)
        × (take n places.new.items ≡ marks_from (is_quote quote) (λ b. b == separator || b == eol) 0 false text.now))) }
    ensures within { IfOk result (λ found. IfSome found (λ n. n ≤ length places.new.items)) }
    ensures out_of_memory { IsOkUnless result Fault.OutOfMemory }
{
    make_room(places, text.len())?;
    Ok(find_marks(text, separator, quote, eol, places.as_mut_slice()))
}

/// Finds the bytes that end the fields of a text: how many they are, their places in front of `places`; none where a quote
/// stands where it may not.
///
/// The room of `places` grows to that of the longest text, and what stands after the marks says nothing.
pub fn mark_fields(
    text: &[u8],
    options: &CsvOptions,
    places: &mut Vec<u32>,
) -> Result<Option<usize>, Fault>
    requires fits { length text.now + 72 < 2 ^ 32 }
    ensures ok { IfOk result (λ found. MatchOption found (is_well_quoted options.now text.now ≡ false)
        (λ n. (is_well_quoted options.now text.now ≡ true) × (take n places.new.items ≡ field_ends options.now text.now))) }
    ensures within { IfOk result (λ found. IfSome found (λ n. n ≤ length places.new.items)) }
    ensures out_of_memory { IsOkUnless result Fault.OutOfMemory }
{
    let (separator, quote, eol) = (options.separator(), options.quote(), options.eol());
    mark_bytes(text, separator, quote, eol, places)
}

/// Finds the bytes that end the fields of a text, and how many rows of so many fields the text is, as they tell; none where it
/// is no such rows, a quote stands where it may not, or there may be comments.
///
/// The places of the rows' marks are in front of `places`, so many to a row as it has fields.
pub fn mark_rows(
    text: &[u8],
    options: &CsvOptions,
    width: usize,
    places: &mut Vec<u32>,
) -> Result<Option<usize>, Fault>
    requires some { 0 < width }
    requires fits { length text.now + 72 < 2 ^ 32 }
    ensures ok { IfOk result (λ found. MatchOption found ((n : ℕ) → IsRowText options.now text.now (width - 1) n → ⊥)
        (λ n. IsRowText options.now text.now (width - 1) n × (take (n * width) places.new.items ≡ field_ends options.now text.now))) }
    ensures out_of_memory { IsOkUnless result Fault.OutOfMemory }
{
    if options.comment().is_some() {
        return Ok(None);
    }
    let Some(count) = mark_fields(text, options, places)? else {
        return Ok(None);
    };
    let marks = &places.as_slice()[..count];
    Ok(count_rows(text, marks, width, options.separator()))
}
