//! Keys that are words of 64 bits, in order of arrival.
ghost use Rattle.std.specs.Prelude.{◌≡◌, ◌<◌, ◌≤◌, ◌+◌, ◌^◌, ◌++◌, [], ◌∷◌, ℕ, pos, length, map, get_or, slice_get, Some, OnOk, OnErr, IfOk, IfSome, IfNone, IsOkUnless};
ghost use Rattle.morsel_keys.specs.Slots.{AreLookedUp, AreSlots, HasKeysEachOnce, IsFound, IsFreeFor, IsIndexed, IsNewKey, no_number};
ghost use Rattle.morsel_keys.specs.Words.{int_begin, word_home, AreWordKeys};
ghost use Rattle.morsel_keys.specs.ColumnKeys.{int_held, flag_held, flag_word};

use crate::slots::{SLOTS_PER_KEY, hole, put, slot_at, spread};
use morsel_meaning::{Fault, Value};
use std::alloc::Global;
use std::marker::Model;

/// How many rows are looked up at once: what is written of them stays in the nearest cache.
const BLOCK: usize = 1024;

/// Words in order of arrival, each once.
#[derive(Drop)]
pub struct WordKeys {
    alloc: Global,
    seed: u64,
    mask: usize,
    slots: Vec<u32>,
    words: Vec<u64>,
}

impl Model for WordKeys {
    ghost use Rattle.std.specs.Prelude.{ℕ, List};
    ghost use Rattle.morsel_keys.specs.Words.{AreWordKeys};

    ghost Value = { List ℕ };

    ghost view = { λ keys. keys.words.items };

    ghost invariant = { λ keys. AreWordKeys keys.seed keys.mask keys.slots.items keys.words.items };
}

impl WordKeys {
    /// No words. The seed decides where searches begin.
    pub fn new(alloc: Global, seed: u64) -> WordKeys
        ensures { result ≡ [] }
    {
        WordKeys {
            alloc,
            seed,
            mask: 0,
            slots: Vec::new(alloc),
            words: Vec::new(alloc),
        }
    }

    /// How many words there are.
    pub fn len(&self) -> usize
        ensures len { result ≡ length self.now }
        ensures within { result ≤ no_number }
        ensures once { HasKeysEachOnce self.now }
    {
        self.words.len()
    }

    /// The word of this number.
    pub fn get(&self, at: u32) -> u64
        requires { at < length self.now }
        ensures { slice_get self.now at ≡ Some result }
    {
        self.words[at as usize]
    }

    /// The number of a word; `None` exactly where it is absent.
    #[inline(always)]
    pub fn find(&self, word: u64) -> Option<u32>
        ensures some { IfSome result (λ at. slice_get self.now at ≡ Some word) }
        ensures none { IfNone result (IsNewKey word self.now) }
        ensures fit { (k : ℕ) → get_or self.now k 0 < 2 ^ 64 }
    {
        found(&self.slots, &self.words, self.mask, self.seed, word)
    }

    /// The numbers of numbers' words, each at its place, and `u32::MAX` where one is absent.
    pub fn look_up_ints(&self, numbers: &[i64], out: &mut [u32])
        requires { length out.old ≡ length numbers.now }
        ensures { AreLookedUp (map int_held self.now) (map Value.Int numbers.now) out.new }
    {
        look_up_ints(&self.slots, &self.words, self.mask, self.seed, numbers, out);
    }

    /// The numbers of truth values' words, each at its place, and `u32::MAX` where one is absent.
    pub fn look_up_flags(&self, flags: &[bool], out: &mut [u32])
        requires len { length out.old ≡ length flags.now }
        requires bits { (k : ℕ) → get_or self.now k 0 ≤ 1 }
        ensures { AreLookedUp (map flag_held self.now) (map Value.Bool flags.now) out.new }
    {
        look_up_flags(&self.slots, &self.words, self.mask, self.seed, flags, out);
    }

    /// Puts a new word last.
    pub fn push(&mut self, word: u64) -> Result<(), Fault>
        requires new { IsNewKey word self.old }
        requires room { length self.old < no_number }
        ensures ok { OnOk result (self.new ≡ self.old ++ word ∷ []) }
        ensures err { OnErr result (self.new ≡ self.old) }
        ensures out_of_memory { IsOkUnless result Fault.OutOfMemory }
    {
        self.grow()?;
        add(&mut self.slots, &mut self.words, self.mask, self.seed, word)
    }

    /// Makes more slots where they are few for one word more.
    fn grow(&mut self) -> Result<(), Fault>
        ensures same { self.new ≡ self.old }
        ensures out_of_memory { IsOkUnless result Fault.OutOfMemory }
    {
        if self.words.len() * SLOTS_PER_KEY > self.mask && self.mask < 1_000_000_000_000 {
            let mask = if self.mask == 0 {
                15
            } else {
                self.mask * 2 + 1
            };
            let slots = rebuilt(self.alloc, &self.words, mask, self.seed)?;
            self.slots = slots;
            self.mask = mask;
        }
        Ok(())
    }
}

/// The place where the search for a word begins.
#[tactic(auto, unfolding(crate::specs::Words::word_home))]
#[inline(always)]
fn home(word: u64, mask: usize, seed: u64) -> usize
    ensures value { result ≡ word_home seed mask word }
    ensures within { result ≤ mask }
{
    spread(
        word.wrapping_add(seed).wrapping_mul(0x9E37_79B9_7F4A_7C15),
        mask,
    )
}

/// The number of a word.
#[tactic(auto, using(crate::proofs::SlotLemmas::not_there))]
#[inline(always)]
pub fn found(slots: &[u32], words: &[u64], mask: usize, seed: u64, word: u64) -> Option<u32>
    requires indexed { IsIndexed (word_home seed mask) mask slots.now words.now }
    ensures some { IfSome result (λ at. slice_get words.now at ≡ Some word) }
    ensures none { IfNone result (IsNewKey word words.now) }
{
    let from = home(word, mask, seed);
    seek(slots, words, word, from)
}

/// The numbers of numbers' words. What is read for each row stands in slices, so that no row reads the table's fields again.
fn look_up_ints(
    slots: &[u32],
    words: &[u64],
    mask: usize,
    seed: u64,
    numbers: &[i64],
    out: &mut [u32],
)
    requires keys { AreWordKeys seed mask slots.now words.now }
    requires len { length out.old ≡ length numbers.now }
    ensures { AreLookedUp (map int_held words.now) (map Value.Int numbers.now) out.new }
{
    let mut from = 0;
    while from < numbers.len() {
        let to = if numbers.len() - from > BLOCK {
            from + BLOCK
        } else {
            numbers.len()
        };
        look_up_block(slots, words, mask, seed, numbers, out, from, to);
        from = to;
    }
}

/// The numbers of some numbers' words, those before them being there.
fn look_up_block(
    slots: &[u32],
    words: &[u64],
    mask: usize,
    seed: u64,
    numbers: &[i64],
    out: &mut [u32],
    from: usize,
    to: usize,
)
    requires keys { AreWordKeys seed mask slots.now words.now }
    requires order { from ≤ to }
    requires within { to ≤ length numbers.now }
    requires len { length out.old ≡ length numbers.now }
    requires before { (i : ℕ) (v : Value) → i < from → slice_get (map Value.Int numbers.now) i ≡ Some v → IsFound (map int_held words.now) v (get_or out.old i 0) }
    ensures len { length out.new ≡ length out.old }
    ensures found { (i : ℕ) (v : Value) → i < to → slice_get (map Value.Int numbers.now) i ≡ Some v → IsFound (map int_held words.now) v (get_or out.new i 0) }
{
    // In two loops, so that the reads of different rows go on together: none waits for another of its own row.
    begin_ints(slots, mask, seed, numbers, out, from, to);
    for i in from..to {
        out[i] = number_of_int(slots, words, mask, seed, numbers[i], out[i]);
    }
}

/// The slots where the searches for the words of some numbers begin, each at its place.
#[inline(always)]
fn begin_ints(
    slots: &[u32],
    mask: usize,
    seed: u64,
    numbers: &[i64],
    out: &mut [u32],
    from: usize,
    to: usize,
)
    requires order { from ≤ to }
    requires within { to ≤ length numbers.now }
    requires len { length out.old ≡ length numbers.now }
    ensures len { length out.new ≡ length out.old }
    ensures before { (i : ℕ) → i < from → get_or out.new i 0 ≡ get_or out.old i 0 }
    ensures begins { (i : ℕ) → from ≤ i → i < to → get_or out.new i 0 ≡ int_begin seed mask slots.now (get_or numbers.now i (pos 0)) }
{
    for i in from..to {
        out[i] = begin_int(slots, mask, seed, numbers[i]);
    }
}

/// The slot where the search for a number's word begins.
#[inline(always)]
fn begin_int(slots: &[u32], mask: usize, seed: u64, number: i64) -> u32
    ensures { result ≡ int_begin seed mask slots.now number }
{
    slot_at(slots, home(number.cast_unsigned(), mask, seed))
}

/// The number of a number's word, whose search begins at this slot, and `u32::MAX` where it is absent.
#[inline(always)]
fn number_of_int(
    slots: &[u32],
    words: &[u64],
    mask: usize,
    seed: u64,
    number: i64,
    first: u32,
) -> u32
    requires keys { AreWordKeys seed mask slots.now words.now }
    requires first { first ≡ int_begin seed mask slots.now number }
    ensures { IsFound (map int_held words.now) (Value.Int number) result }
{
    number_from(slots, words, mask, seed, number.cast_unsigned(), first)
}

/// The number of a word, whose search begins at this slot, and `u32::MAX` where it is absent.
#[inline(always)]
fn number_from(slots: &[u32], words: &[u64], mask: usize, seed: u64, word: u64, first: u32) -> u32
    requires indexed { IsIndexed (word_home seed mask) mask slots.now words.now }
    requires first { first ≡ get_or slots.now (word_home seed mask word) 0 }
    ensures { IsFound words.now word result }
{
    if first == 0 {
        return u32::MAX;
    }
    if words[(first - 1) as usize] == word {
        return first - 1;
    }
    number_past(slots, words, mask, seed, word)
}

/// The number of a word whose search goes past its first slot.
#[inline(never)]
fn number_past(slots: &[u32], words: &[u64], mask: usize, seed: u64, word: u64) -> u32
    requires indexed { IsIndexed (word_home seed mask) mask slots.now words.now }
    ensures { IsFound words.now word result }
{
    number_of(slots, words, mask, seed, word)
}

/// The numbers of truth values' words.
fn look_up_flags(
    slots: &[u32],
    words: &[u64],
    mask: usize,
    seed: u64,
    flags: &[bool],
    out: &mut [u32],
)
    requires keys { AreWordKeys seed mask slots.now words.now }
    requires bits { (k : ℕ) → get_or words.now k 0 ≤ 1 }
    requires len { length out.old ≡ length flags.now }
    ensures { AreLookedUp (map flag_held words.now) (map Value.Bool flags.now) out.new }
{
    for i in 0..flags.len() {
        out[i] = number_of_flag(slots, words, mask, seed, flags[i]);
    }
}

/// The number of a truth value's word, and `u32::MAX` where it is absent.
#[inline(always)]
fn number_of_flag(slots: &[u32], words: &[u64], mask: usize, seed: u64, flag: bool) -> u32
    requires keys { AreWordKeys seed mask slots.now words.now }
    requires bits { (k : ℕ) → get_or words.now k 0 ≤ 1 }
    ensures { IsFound (map flag_held words.now) (Value.Bool flag) result }
{
    number_of(slots, words, mask, seed, flag_word(flag))
}

/// The word of a truth value.
#[inline(always)]
pub fn flag_word(flag: bool) -> u64
    ensures { result ≡ flag_word flag }
{
    u64::from(flag)
}

/// The number of a word, and `u32::MAX` where it is absent.
#[inline(always)]
fn number_of(slots: &[u32], words: &[u64], mask: usize, seed: u64, word: u64) -> u32
    requires indexed { IsIndexed (word_home seed mask) mask slots.now words.now }
    ensures { IsFound words.now word result }
{
    match found(slots, words, mask, seed, word) {
        Some(at) => at,
        None => u32::MAX,
    }
}

/// The place of a word that a search from a place on finds.
#[inline(always)]
fn seek(slots: &[u32], words: &[u64], word: u64, from: usize) -> Option<u32>
    requires fit { AreSlots slots.now (length words.now) }
    requires order { from ≤ length slots.now }
    ensures some { IfSome result (λ at. slice_get words.now at ≡ Some word) }
    ensures none { IfNone result (IsFreeFor slots.now words.now word from) }
{
    for at in from..slots.len() {
        let slot = slots[at];
        if slot == 0 {
            return None;
        }
        if words[(slot - 1) as usize] == word {
            return Some(slot - 1);
        }
    }
    None
}

/// Puts a word last, and its slot into the first free place of its search.
fn add(
    slots: &mut Vec<u32>,
    words: &mut Vec<u64>,
    mask: usize,
    seed: u64,
    word: u64,
) -> Result<(), Fault>
    requires indexed { IsIndexed (word_home seed mask) mask slots.old.items words.old.items }
    requires room { length words.old.items < no_number }
    ensures indexed { IsIndexed (word_home seed mask) mask slots.new.items words.new.items }
    ensures ok { OnOk result (words.new.items ≡ words.old.items ++ word ∷ []) }
    ensures err { OnErr result (words.new.items ≡ words.old.items) }
    ensures out_of_memory { IsOkUnless result Fault.OutOfMemory }
{
    let slot = words.len() as u32 + 1;
    let from = home(word, mask, seed);
    let at = hole(slots, from);
    words.reserve(1)?;
    put(slots, at, slot)?;
    words.push(word)?;
    Ok(())
}

/// The slots of these words.
fn rebuilt(alloc: Global, words: &[u64], mask: usize, seed: u64) -> Result<Vec<u32>, Fault>
    requires short { length words.now < 2 ^ 32 }
    requires narrow { mask < 2 ^ 60 }
    ensures ok { IfOk result (λ slots. IsIndexed (word_home seed mask) mask slots.items words.now) }
    ensures out_of_memory { IsOkUnless result Fault.OutOfMemory }
{
    let mut slots = vec![in alloc; 0u32; mask + 1]?;
    for place in 0..words.len() {
        let from = home(words[place], mask, seed);
        let at = hole(&slots, from);
        put(&mut slots, at, place as u32 + 1)?;
    }
    Ok(slots)
}
