//! Bytes that are put into a slice at a cursor. Each call has its room ahead, and gives the place after its bytes.
ghost use Rattle.std.specs.Prelude.{◌≡◌, ◌+◌, ◌≤◌, ◌<◌, ◌++◌, ◌∷◌, [], length, take, OnOk, OnErr, decimal, drop, ◌^◌};
ghost use Rattle.std.specs.Fmt.{signed_decimal};

use std::alloc::AllocError;
use std::simd::prelude::*;

/// Makes room for `more` bytes after the first `at`, which stay.
#[inline]
pub fn make_room(bytes: &mut Vec<u8>, at: usize, more: usize) -> Result<(), AllocError>
    requires { at ≤ length bytes.old.items }
    ensures ok { OnOk result (at + more ≤ length bytes.new.items) }
    ensures err { OnErr result (bytes.new.items ≡ bytes.old.items) }
    ensures within { at ≤ length bytes.new.items }
    ensures same_front { take at bytes.new.items ≡ take at bytes.old.items }
{
    if more <= bytes.len() - at {
        return Ok(());
    }
    grow(bytes, at, more)
}

/// Makes twice as much room as there was, or as much as is asked for.
#[cold]
#[inline(never)]
fn grow(bytes: &mut Vec<u8>, at: usize, more: usize) -> Result<(), AllocError>
    requires { at ≤ length bytes.old.items }
    ensures ok { OnOk result (at + more ≤ length bytes.new.items) }
    ensures err { OnErr result (bytes.new.items ≡ bytes.old.items) }
    ensures within { at ≤ length bytes.new.items }
    ensures same_front { take at bytes.new.items ≡ take at bytes.old.items }
{
    let Some(least) = at.checked_add(more) else {
        return Err(AllocError)
    };
    bytes.resize(least.max(bytes.len().saturating_mul(2)), 0)
}

/// Puts one byte.
#[inline(always)]
pub fn put_byte(out: &mut [u8], at: usize, byte: u8) -> usize
    requires { at < length out.old }
    ensures end { result ≡ at + 1 }
    ensures written { take result out.new ≡ take at out.old ++ byte ∷ [] }
{
    out[at] = byte;
    at + 1
}

/// Puts the bytes of `part`.
pub fn put_bytes(out: &mut [u8], at: usize, part: &[u8]) -> usize
    requires { at + length part.now ≤ length out.old }
    ensures end { result ≡ at + length part.now }
    ensures written { take result out.new ≡ take at out.old ++ part.now }
{
    let end = at + part.len();
    out[at..end].copy_from_slice(part);
    end
}

/// Puts the first `len` bytes of `padded`, and writes over up to 16 after them.
#[inline(always)]
pub fn put_words(out: &mut [u8], at: usize, padded: &[u8], len: usize) -> usize
    requires padded { len + 16 ≤ length padded.now }
    requires room { at + len + 16 ≤ length out.old }
    ensures end { result ≡ at + len }
    ensures written { take result out.new ≡ take at out.old ++ take len padded.now }
{
    put_word(out, at, padded, 0);
    if len <= 16 {
        return at + len;
    }
    put_more_words(out, at, padded, len);
    at + len
}

/// Puts the first `len` bytes of `padded`, 16 at a time, after the first word.
#[cold]
#[inline(never)]
fn put_more_words(out: &mut [u8], at: usize, padded: &[u8], len: usize)
    requires long { 16 < len }
    requires padded { len + 16 ≤ length padded.now }
    requires room { at + len + 16 ≤ length out.old }
    requires first { take (at + 16) out.old ≡ take at out.old ++ take 16 padded.now }
    ensures { take (at + len) out.new ≡ take at out.old ++ take len padded.now }
{
    let mut from = 16;
    while from < len {
        put_word(out, at + from, padded, from);
        from += 16;
    }
}

/// Puts the 16 bytes of `padded` from place `from` on.
#[inline(always)]
fn put_word(out: &mut [u8], at: usize, padded: &[u8], from: usize)
    requires padded { from + 16 ≤ length padded.now }
    requires room { at + 16 ≤ length out.old }
    ensures { take (at + 16) out.new ≡ take at out.old ++ take 16 (drop from padded.now) }
{
    u8x16::from_slice(&padded[from..]).copy_to_slice(&mut out[at..]);
}
