//! Values as JSON.
ghost use Rattle.std.specs.Prelude.{◌≡◌, ◌+◌, ◌*◌, ◌≤◌, ◌<◌, ◌++◌, ◌∷◌, [], length, take, drop, map, codes};
ghost use Rattle.std.specs.Bool.{OnTrue};
ghost use Rattle.std.specs.List.{flat_map};
ghost use Rattle.std.specs.Simd.Lanes.{mask_l};
ghost use Rattle.std.specs.Char.{digit_char};
ghost use Rattle.morsel_frame.specs.Cells.{value_of};
ghost use Rattle.morsel_ndjson.specs.Ndjson.{escaped, json_string, json_value};
ghost use Rattle.morsel_ndjson.specs.Members.{needs_escape, ArePlain, text_room};

use crate::cursor::{put_byte, put_bytes};
use crate::digits::put_int;
use morsel_frame::Cell;
use std::simd::prelude::*;

/// Puts a value.
#[inline(always)]
pub fn put_value(out: &mut [u8], at: usize, cell: Cell<'_>) -> usize
    requires { at + (20 + text_room (value_of cell)) ≤ length out.old }
    ensures rises { at ≤ result }
    ensures within { result ≤ at + (20 + text_room (value_of cell.entry)) }
    ensures written { take result out.new ≡ take at out.old ++ json_value (value_of cell.entry) }
{
    match cell {
        Cell::Int(number) => put_int(out, at, number),
        Cell::Text(text) => put_string(out, at, text.as_bytes()),
        Cell::Null => put_bytes(out, at, b"null"),
        Cell::Bool(true) => put_bytes(out, at, b"true"),
        Cell::Bool(false) => put_bytes(out, at, b"false"),
    }
}

/// Puts a text in quotes, which is the first `len` of these bytes.
#[inline(always)]
pub fn put_text(out: &mut [u8], at: usize, bytes: &[u8], len: usize) -> usize
    requires within { len ≤ length bytes.now }
    requires room { at + (6 * len + 18) ≤ length out.old }
    ensures rises { at ≤ result }
    ensures within { result ≤ at + 6 * len + 2 }
    ensures written { take result out.new ≡ take at out.old ++ json_string (take len bytes.now) }
{
    if len <= 16 && bytes.len() >= 16 {
        return put_short(out, at, bytes, len);
    }
    put_string(out, at, &bytes[..len])
}

/// Puts a text of at most 16 bytes in quotes: the first `len` of these bytes.
///
/// The bytes after the text are put too, and written over.
#[inline(always)]
pub fn put_short(out: &mut [u8], at: usize, bytes: &[u8], len: usize) -> usize
    requires long { 16 ≤ length bytes.now }
    requires short { len ≤ 16 }
    requires room { at + (6 * len + 18) ≤ length out.old }
    ensures rises { at ≤ result }
    ensures within { result ≤ at + 6 * len + 2 }
    ensures written { take result out.new ≡ take at out.old ++ json_string (take len bytes.now) }
{
    let begin = put_byte(out, at, b'"');
    let plain = put_plain_lane(out, begin, bytes);
    if plain < len {
        return put_rest(out, begin + plain, &bytes[plain..len]);
    }
    put_byte(out, begin + len, b'"')
}

/// Puts what is left of a text byte by byte, each with its escape, and a quote.
// Not inlined, so that the loop over rows has the registers to itself.
#[inline(never)]
fn put_rest(out: &mut [u8], at: usize, text: &[u8]) -> usize
    requires { at + (6 * length text.now + 1) ≤ length out.old }
    ensures rises { at ≤ result }
    ensures within { result ≤ at + (6 * length text.now + 1) }
    ensures written { take result out.new ≡ (take at out.old ++ flat_map escaped text.now) ++ 34 ∷ [] }
{
    let end = put_chars(out, at, text);
    put_byte(out, end, b'"')
}

/// Puts 16 bytes as they are, and says how many come before the first that needs an escape.
#[inline(always)]
fn put_plain_lane(out: &mut [u8], at: usize, bytes: &[u8]) -> usize
    requires long { 16 ≤ length bytes.now }
    requires room { at + 16 ≤ length out.old }
    ensures plain { ArePlain 0 result bytes.now }
    ensures written { take (at + 16) out.new ≡ take at out.old ++ take 16 bytes.now }
{
    let lane = u8x16::from_slice(bytes);
    lane.copy_to_slice(&mut out[at..]);
    let quotes = lane.simd_eq(u8x16::splat(b'"'));
    let backslashes = lane.simd_eq(u8x16::splat(b'\\'));
    let escapes = (quotes | backslashes | lane.simd_lt(u8x16::splat(32))).to_bitmask();
    if escapes == 0 {
        return 16;
    }
    escapes.trailing_zeros() as usize
}

/// Puts a text in quotes.
#[inline(never)]
pub fn put_string(out: &mut [u8], at: usize, text: &[u8]) -> usize
    requires { at + 6 * length text.now + 2 ≤ length out.old }
    ensures rises { at ≤ result }
    ensures within { result ≤ at + 6 * length text.now + 2 }
    ensures written { take result out.new ≡ take at out.old ++ json_string text.now }
{
    let at = put_byte(out, at, b'"');
    let at = put_escaped(out, at, text);
    put_byte(out, at, b'"')
}

/// Puts a text with its escapes.
#[inline(always)]
fn put_escaped(out: &mut [u8], at: usize, text: &[u8]) -> usize
    requires { at + 6 * length text.now ≤ length out.old }
    ensures rises { at ≤ result }
    ensures within { result ≤ at + 6 * length text.now }
    ensures written { take result out.new ≡ take at out.old ++ flat_map escaped text.now }
{
    let plain = put_front(out, at, text);
    put_chars(out, at + plain, &text[plain..])
}

/// Puts the bytes before the first lane that has an escape, and says how many.
///
/// A short text is one pair of lanes that overlap, put whole or not at all.
#[inline(always)]
fn put_front(out: &mut [u8], at: usize, text: &[u8]) -> usize
    requires { at + length text.now ≤ length out.old }
    ensures within { result ≤ length text.now }
    ensures plain { ArePlain 0 result text.now }
    ensures written { take (at + result) out.new ≡ take at out.old ++ take result text.now }
{
    let len = text.len();
    if len > 16 {
        return put_lanes(out, at, text);
    }
    if len >= 8 {
        return if put_eights(out, at, text) { len } else { 0 };
    }
    if len >= 4 {
        return if put_fours(out, at, text) { len } else { 0 };
    }
    0
}

/// Puts the bytes before the first lane of 16 that has an escape, and says how many.
#[inline(always)]
fn put_lanes(out: &mut [u8], at: usize, text: &[u8]) -> usize
    requires long { 16 ≤ length text.now }
    requires room { at + length text.now ≤ length out.old }
    ensures within { result ≤ length text.now }
    ensures plain { ArePlain 0 result text.now }
    ensures written { take (at + result) out.new ≡ take at out.old ++ take result text.now }
{
    let len = text.len();
    let mut from = 0;
    while len - from >= 16 {
        if !put_lane(out, at + from, text, from) {
            return from;
        }
        from += 16;
    }
    // The last lane ends with the text, and may begin within the one before.
    let last = len - 16;
    if put_lane(out, at + last, text, last) {
        len
    } else {
        from
    }
}

/// Puts a text of 8 to 16 bytes as it is, and says whether none of them needs an escape.
#[inline(always)]
fn put_eights(out: &mut [u8], at: usize, text: &[u8]) -> bool
    requires long { 8 ≤ length text.now }
    requires short { length text.now ≤ 16 }
    requires room { at + length text.now ≤ length out.old }
    ensures plain { OnTrue result (ArePlain 0 (length text.now) text.now) }
    ensures written { take (at + length text.now) out.new ≡ take at out.old ++ text.now }
{
    let last = text.len() - 8;
    let front = put_eight(out, at, text, 0);
    let back = put_eight(out, at + last, text, last);
    front & back
}

/// Puts a text of 4 to 8 bytes as it is, and says whether none of them needs an escape.
#[inline(always)]
fn put_fours(out: &mut [u8], at: usize, text: &[u8]) -> bool
    requires long { 4 ≤ length text.now }
    requires short { length text.now ≤ 8 }
    requires room { at + length text.now ≤ length out.old }
    ensures plain { OnTrue result (ArePlain 0 (length text.now) text.now) }
    ensures written { take (at + length text.now) out.new ≡ take at out.old ++ text.now }
{
    let last = text.len() - 4;
    let front = put_four(out, at, text, 0);
    let back = put_four(out, at + last, text, last);
    front & back
}

/// Puts the 16 bytes of `text` from place `from` on, and says whether none of them needs an escape.
#[inline(always)]
fn put_lane(out: &mut [u8], at: usize, text: &[u8], from: usize) -> bool
    requires text { from + 16 ≤ length text.now }
    requires room { at + 16 ≤ length out.old }
    ensures plain { OnTrue result (ArePlain from (from + 16) text.now) }
    ensures written { take (at + 16) out.new ≡ take at out.old ++ take 16 (drop from text.now) }
{
    let lane = u8x16::from_slice(&text[from..]);
    lane.copy_to_slice(&mut out[at..]);
    let quotes = lane.simd_eq(u8x16::splat(b'"'));
    let backslashes = lane.simd_eq(u8x16::splat(b'\\'));
    (quotes | backslashes | lane.simd_lt(u8x16::splat(32))).to_bitmask() == 0
}

/// Puts the 8 bytes of `text` from place `from` on, and says whether none of them needs an escape.
#[inline(always)]
fn put_eight(out: &mut [u8], at: usize, text: &[u8], from: usize) -> bool
    requires text { from + 8 ≤ length text.now }
    requires room { at + 8 ≤ length out.old }
    ensures plain { OnTrue result (ArePlain from (from + 8) text.now) }
    ensures written { take (at + 8) out.new ≡ take at out.old ++ take 8 (drop from text.now) }
{
    let lane = u8x8::from_slice(&text[from..]);
    lane.copy_to_slice(&mut out[at..]);
    let quotes = lane.simd_eq(u8x8::splat(b'"'));
    let backslashes = lane.simd_eq(u8x8::splat(b'\\'));
    (quotes | backslashes | lane.simd_lt(u8x8::splat(32))).to_bitmask() == 0
}

/// Puts the 4 bytes of `text` from place `from` on, and says whether none of them needs an escape.
#[inline(always)]
fn put_four(out: &mut [u8], at: usize, text: &[u8], from: usize) -> bool
    requires text { from + 4 ≤ length text.now }
    requires room { at + 4 ≤ length out.old }
    ensures plain { OnTrue result (ArePlain from (from + 4) text.now) }
    ensures written { take (at + 4) out.new ≡ take at out.old ++ take 4 (drop from text.now) }
{
    let lane = u8x4::from_slice(&text[from..]);
    lane.copy_to_slice(&mut out[at..]);
    let quotes = lane.simd_eq(u8x4::splat(b'"'));
    let backslashes = lane.simd_eq(u8x4::splat(b'\\'));
    (quotes | backslashes | lane.simd_lt(u8x4::splat(32))).to_bitmask() == 0
}

/// Puts bytes one by one, each with its escape.
#[inline(always)]
fn put_chars(out: &mut [u8], at: usize, text: &[u8]) -> usize
    requires { at + 6 * length text.now ≤ length out.old }
    ensures rises { at ≤ result }
    ensures within { result ≤ at + 6 * length text.now }
    ensures written { take result out.new ≡ take at out.old ++ flat_map escaped text.now }
{
    let mut to = at;
    for byte in text {
        to = put_char(out, to, *byte);
    }
    to
}

/// Puts a byte as it is written within a string.
#[inline(always)]
fn put_char(out: &mut [u8], at: usize, byte: u8) -> usize
    requires { at + 6 ≤ length out.old }
    ensures rises { at ≤ result }
    ensures within { result ≤ at + 6 }
    ensures written { take result out.new ≡ take at out.old ++ escaped byte }
{
    if needs_escape(byte) {
        return put_escape(out, at, byte);
    }
    put_byte(out, at, byte)
}

/// Whether a byte within a string is escaped.
#[inline(always)]
fn needs_escape(byte: u8) -> bool
    ensures { result ≡ needs_escape byte }
{
    byte == b'"' || byte == b'\\' || byte < 32
}

/// Puts a byte, with its escape if it needs one.
#[inline(never)]
fn put_escape(out: &mut [u8], at: usize, byte: u8) -> usize
    requires { at + 6 ≤ length out.old }
    ensures rises { at ≤ result }
    ensures within { result ≤ at + 6 }
    ensures written { take result out.new ≡ take at out.old ++ escaped byte }
{
    match byte {
        b'"' => put_bytes(out, at, b"\\\""),
        b'\\' => put_bytes(out, at, b"\\\\"),
        8 => put_bytes(out, at, b"\\b"),
        12 => put_bytes(out, at, b"\\f"),
        b'\n' => put_bytes(out, at, b"\\n"),
        b'\r' => put_bytes(out, at, b"\\r"),
        b'\t' => put_bytes(out, at, b"\\t"),
        0..32 => put_bytes(
            out,
            at,
            &[
                b'\\',
                b'u',
                b'0',
                b'0',
                hex_digit(byte / 16),
                hex_digit(byte % 16),
            ],
        ),
        _ => put_byte(out, at, byte),
    }
}

/// The digit of base 16, in lower case.
fn hex_digit(digit: u8) -> u8
    requires { digit < 16 }
    ensures { result ≡ digit_char digit }
{
    if digit < 10 {
        b'0' + digit
    } else {
        b'a' + digit - 10
    }
}
