//! A text buffer: texts one after another in one allocation, and the place where each ends.
ghost use Rattle.std.specs.Prelude.{◌≡◌, ◌+◌, ◌-◌, ◌<◌, ◌≤◌, [], ◌∷◌, ◌++◌, List, ℕ, length, take, map, slice_range, get_or, OnOk, OnErr, IfOk, IsOkUnless, vec_len, vec_capacity, slice_index, ◌^◌, replicate, string_bytes};
ghost use Rattle.morsel_frame.specs.Pieces.{pieces, ArePieces, moved};

use morsel_meaning::Fault;
use std::alloc::Global;
use std::marker::Model;

/// Texts that contracts see as the list of their bytes.
#[derive(Debug, Drop)]
pub struct Texts {
    bytes: String,
    ends: Vec<usize>,
}

impl Model for Texts {
    ghost use Rattle.std.specs.Prelude.{ℕ, List};
    ghost use Rattle.std.specs.String.{string_bytes};
    ghost use Rattle.morsel_frame.specs.Pieces.{pieces, ArePieces};

    ghost Value = { List (List ℕ) };

    ghost view = { λ texts. pieces 0 texts.ends.items (string_bytes texts.bytes) };

    ghost invariant = { λ texts. ArePieces 0 texts.ends.items (string_bytes texts.bytes) };
}

impl Texts {
    /// No texts.
    pub fn new(alloc: Global) -> Texts
        ensures { result ≡ [] }
    {
        Texts {
            bytes: String::new(alloc),
            ends: Vec::new(alloc),
        }
    }

    /// The texts that have these bytes and end at these places.
    pub fn from_parts(bytes: String, ends: Vec<usize>) -> Texts
        requires { ArePieces 0 ends.items (string_bytes bytes) }
        ensures { result ≡ pieces 0 ends.items (string_bytes bytes) }
    {
        Texts { bytes, ends }
    }

    /// So many empty texts.
    pub fn blank(alloc: Global, len: usize) -> Result<Texts, Fault>
        ensures ok { IfOk result (λ texts. texts ≡ replicate len []) }
        ensures out_of_memory { IsOkUnless result Fault.OutOfMemory }
    {
        Ok(Texts {
            bytes: String::new(alloc),
            ends: vec![in alloc; 0; len]?,
        })
    }

    /// How many texts there are.
    pub fn len(&self) -> usize
        ensures { result ≡ length self.now }
    {
        self.ends.len()
    }

    /// The text at this place.
    pub fn get(&self, at: usize) -> &str
        requires { at < length self.now }
        ensures { result.now ≡ get_or self.now at [] }
    {
        span(self.bytes.as_str(), self.ends.as_slice(), at, at + 1)
    }

    /// The bytes from the beginning of the text at this place on, and how many of them are its own; the others are those of the texts after it.
    #[inline(always)]
    pub fn bytes_from(&self, at: usize) -> (&[u8], usize)
        requires { at < length self.now }
        ensures within { result.1 ≤ length result.0.now }
        ensures text { take result.1 result.0.now ≡ get_or self.now at [] }
    {
        let begin = start(self.ends.as_slice(), at);
        (&self.bytes.as_bytes()[begin..], self.ends[at] - begin)
    }

    /// Takes memory for the ends of so many more texts, so that pushing them does not grow the list again and again.
    pub fn reserve(&mut self, more: usize) -> Result<(), Fault>
        ensures same { self.new ≡ self.old }
        ensures out_of_memory { IsOkUnless result Fault.OutOfMemory }
    {
        self.ends.reserve(more)?;
        Ok(())
    }

    /// Puts a text last.
    #[inline(always)]
    pub fn push(&mut self, text: &str) -> Result<(), Fault>
        ensures ok { OnOk result (self.new ≡ self.old ++ text.now ∷ []) }
        ensures err { OnErr result (self.new ≡ self.old) }
        ensures out_of_memory { IsOkUnless result Fault.OutOfMemory }
    {
        self.ends.reserve(1)?;
        self.bytes.push_str(text)?;
        self.ends.push(self.bytes.len())?;
        Ok(())
    }

    /// Puts the other's texts from place `from` to place `to` last.
    pub fn append(&mut self, other: &Texts, from: usize, to: usize) -> Result<(), Fault>
        requires in_order { from ≤ to }
        requires within { to ≤ length other.now }
        ensures ok { OnOk result (self.new ≡ self.old ++ slice_range other.now from to) }
        ensures err { OnErr result (self.new ≡ self.old) }
        ensures out_of_memory { IsOkUnless result Fault.OutOfMemory }
    {
        append_span(
            &mut self.bytes,
            &mut self.ends,
            other.bytes.as_str(),
            other.ends.as_slice(),
            from,
            to,
        )?;
        Ok(())
    }

    /// Drops the texts from place `len` on.
    pub fn truncate(&mut self, len: usize)
        ensures { self.new ≡ take len self.old }
    {
        if len >= self.ends.len() {
            return;
        }
        let end = start(self.ends.as_slice(), len);
        self.bytes.truncate(end);
        self.ends.truncate(len);
    }
}

/// The place where a text begins: where the text before it ends.
fn start(ends: &[usize], at: usize) -> usize
    requires { at ≤ length ends.now }
    ensures { result ≡ get_or (0 ∷ ends.now) at 0 }
{
    if at == 0 { 0 } else { ends[at - 1] }
}

/// The bytes of the texts from place `from` to place `to`.
fn span<'a>(bytes: &'a str, ends: &[usize], from: usize, to: usize) -> &'a str
    requires in_order { from ≤ to }
    requires within { to ≤ length ends.now }
    requires are_pieces { ArePieces 0 ends.now bytes.now }
    ensures { result.now ≡ slice_range bytes.now (get_or (0 ∷ ends.now) from 0) (get_or (0 ∷ ends.now) to 0) }
{
    let begin = start(ends, from);
    let end = start(ends, to);
    &bytes[begin..end]
}

/// Puts the bytes and the ends of the texts from place `from` to place `to` last.
fn append_span(
    bytes: &mut String,
    ends: &mut Vec<usize>,
    others: &str,
    other_ends: &[usize],
    from: usize,
    to: usize,
) -> Result<(), Fault>
    requires in_order { from ≤ to }
    requires within { to ≤ length other_ends.now }
    requires are_pieces { ArePieces 0 other_ends.now others.now }
    ensures bytes { OnOk result (string_bytes bytes.new ≡ string_bytes bytes.old ++ slice_range others.now (get_or (0 ∷ other_ends.now) from 0) (get_or (0 ∷ other_ends.now) to 0)) }
    ensures ends { OnOk result (ends.new.items ≡ ends.old.items ++ moved (get_or (0 ∷ other_ends.now) from 0) (length (string_bytes bytes.old)) (slice_range other_ends.now from to)) }
    ensures err_bytes { OnErr result (string_bytes bytes.new ≡ string_bytes bytes.old) }
    ensures err_ends { OnErr result (ends.new.items ≡ ends.old.items) }
    ensures out_of_memory { IsOkUnless result Fault.OutOfMemory }
{
    let piece = span(others, other_ends, from, to);
    let begin = start(other_ends, from);
    ends.reserve(to - from)?;
    bytes.push_str(piece)?;
    let base = bytes.len() - piece.len();
    append_ends(ends, &other_ends[from..to], begin, base);
    Ok(())
}

/// Puts ends last, moved so that an end at `from` comes to `base`.
fn append_ends(ends: &mut Vec<usize>, others: &[usize], from: usize, base: usize)
    requires room { vec_len ends.old + length others.now ≤ vec_capacity ends.old }
    requires behind { (k : ℕ) → k < length others.now → from ≤ slice_index others.now k }
    requires fit { (k : ℕ) → k < length others.now → base + (slice_index others.now k - from) < 2 ^ 64 }
    ensures { ends.new.items ≡ ends.old.items ++ moved from base others.now }
{
    for end in others {
        ends.push(base + (*end - from)).unwrap();
    }
}
