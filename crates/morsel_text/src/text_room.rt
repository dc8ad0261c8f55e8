//! Texts put one after another into room that is made ahead, 16 bytes at a time.
ghost use Rattle.std.specs.Prelude.{◌≡◌, ◌+◌, ◌≤◌, ◌++◌, ◌∷◌, [], length, take, drop, OnOk, OnErr, IfOk, IsUtf8};

use morsel_frame::Texts;
use std::alloc::{AllocError, Global};
use std::marker::Model;
use std::simd::prelude::*;

/// How many bytes are written at once.
const LANES: usize = 16;

/// How many bytes there may be after those of a text when it is written.
const SPARE: usize = 15;

/// Texts that contracts see as the list of their bytes, with room after them.
#[derive(Drop)]
pub struct TextRoom {
    /// What stands after the first `at` bytes says nothing.
    bytes: Vec<u8>,
    at: usize,
    ends: Vec<usize>,
}

impl Model for TextRoom {
    ghost use Rattle.std.specs.Prelude.{◌≤◌, ℕ, List, length, take, IsUtf8};
    ghost use Rattle.morsel_frame.specs.Pieces.{pieces, ArePieces};

    ghost Value = { List (List ℕ) };

    ghost view = { λ room. pieces 0 room.ends.items (take room.at room.bytes.items) };

    ghost invariant = { λ room. (room.at ≤ length room.bytes.items) × IsUtf8 (take room.at room.bytes.items)
        × ArePieces 0 room.ends.items (take room.at room.bytes.items) };
}

impl TextRoom {
    /// No texts, with room for so many texts and bytes.
    pub fn new(alloc: Global, texts: usize, bytes: usize) -> Result<TextRoom, AllocError>
        ensures { IfOk result (λ room. room ≡ []) }
    {
        Ok(TextRoom {
            bytes: vec![in alloc; 0; bytes.saturating_add(SPARE)]?,
            at: 0,
            ends: Vec::with_capacity(alloc, texts)?,
        })
    }

    /// Puts the text of `len` bytes from a place of other bytes on last.
    #[inline(always)]
    pub fn push(&mut self, source: &[u8], from: usize, len: usize) -> Result<(), AllocError>
        requires within { from + len ≤ length source.now }
        requires utf8 { IsUtf8 (take len (drop from source.now)) }
        ensures { OnOk result (self.new ≡ self.old ++ take len (drop from source.now) ∷ []) }
    {
        let end = put_with_room(&mut self.bytes, self.at, source, from, len)?;
        self.ends.push(end)?;
        self.at = end;
        Ok(())
    }

    /// Puts a text last.
    pub fn push_whole(&mut self, text: &[u8]) -> Result<(), AllocError>
        requires { IsUtf8 text.now }
        ensures { OnOk result (self.new ≡ self.old ++ text.now ∷ []) }
    {
        self.push(text, 0, text.len())
    }

    /// The texts.
    pub fn into_texts(mut self) -> Texts
        ensures { result ≡ self }
    {
        self.bytes.truncate(self.at);
        Texts::from_parts(
            unsafe { String::from_utf8_unchecked(self.bytes) },
            self.ends,
        )
    }
}

/// Makes room after the first `at` bytes, puts `len` bytes from a place of other bytes on there, and gives the place after them.
#[inline(always)]
fn put_with_room(
    bytes: &mut Vec<u8>,
    at: usize,
    source: &[u8],
    from: usize,
    len: usize,
) -> Result<usize, AllocError>
    requires at { at ≤ length bytes.old.items }
    requires within { from + len ≤ length source.now }
    ensures end { IfOk result (λ end. end ≡ at + len) }
    ensures room { IfOk result (λ end. end ≤ length bytes.new.items) }
    ensures written { IfOk result (λ end. take end bytes.new.items ≡ take at bytes.old.items ++ take len (drop from source.now)) }
    ensures within { at ≤ length bytes.new.items }
    ensures same_front { take at bytes.new.items ≡ take at bytes.old.items }
{
    make_room(bytes, at, len + SPARE)?;
    Ok(put_part(bytes.as_mut_slice(), at, source, from, len))
}

/// Makes room for `more` bytes after the first `at`, which stay.
#[inline(always)]
fn make_room(bytes: &mut Vec<u8>, at: usize, more: usize) -> Result<(), AllocError>
    requires { at ≤ length bytes.old.items }
    ensures ok { OnOk result (at + more ≤ length bytes.new.items) }
    ensures within { at ≤ length bytes.new.items }
    ensures same_front { take at bytes.new.items ≡ take at bytes.old.items }
{
    if more <= bytes.len() - at {
        return Ok(());
    }
    grow(bytes, at, more)
}

/// Makes twice as much room as there was, or as much as is asked for.
#[cold]
#[inline(never)]
fn grow(bytes: &mut Vec<u8>, at: usize, more: usize) -> Result<(), AllocError>
    requires { at ≤ length bytes.old.items }
    ensures ok { OnOk result (at + more ≤ length bytes.new.items) }
    ensures within { at ≤ length bytes.new.items }
    ensures same_front { take at bytes.new.items ≡ take at bytes.old.items }
{
    let Some(least) = at.checked_add(more) else {
        return Err(AllocError)
    };
    bytes.resize(least.max(bytes.len().saturating_mul(2)), 0)
}

/// Puts `len` bytes from a place of other bytes on, and gives the place after them.
#[inline(always)]
fn put_part(out: &mut [u8], at: usize, source: &[u8], from: usize, len: usize) -> usize
    requires room { at + len + SPARE ≤ length out.old }
    requires within { from + len ≤ length source.now }
    ensures end { result ≡ at + len }
    ensures kept { length out.new ≡ length out.old }
    ensures written { take result out.new ≡ take at out.old ++ take len (drop from source.now) }
{
    if len + SPARE <= source.len() - from {
        return put_words(out, at, &source[from..], len);
    }
    out[at..at + len].copy_from_slice(&source[from..from + len]);
    at + len
}

/// Puts the first `len` bytes of `padded`, 16 at a time, and gives the place after them.
#[inline(always)]
fn put_words(out: &mut [u8], at: usize, padded: &[u8], len: usize) -> usize
    requires padded { len + SPARE ≤ length padded.now }
    requires room { at + len + SPARE ≤ length out.old }
    ensures end { result ≡ at + len }
    ensures kept { length out.new ≡ length out.old }
    ensures written { take result out.new ≡ take at out.old ++ take len padded.now }
{
    let mut from = 0;
    while from < len {
        put_word(out, at + from, padded, from);
        from += LANES;
    }
    at + len
}

/// Puts the 16 bytes of `padded` from place `from` on.
#[inline(always)]
fn put_word(out: &mut [u8], at: usize, padded: &[u8], from: usize)
    requires padded { from + LANES ≤ length padded.now }
    requires room { at + LANES ≤ length out.old }
    ensures kept { length out.new ≡ length out.old }
    ensures written { take (at + LANES) out.new ≡ take at out.old ++ take LANES (drop from padded.now) }
{
    u8x16::from_slice(&padded[from..]).copy_to_slice(&mut out[at..]);
}
