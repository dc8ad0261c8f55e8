//! Keys that are texts, in order of arrival.
ghost use Rattle.std.specs.Prelude.{◌≡◌, ◌<◌, ◌≤◌, ◌+◌, ◌^◌, ◌++◌, [], ◌∷◌, ℕ, length, get_or, slice_get, Some, OnOk, OnErr, IfOk, IfSome, IfNone, IsOkUnless};
ghost use Rattle.morsel_keys.specs.Slots.{AreLookedUp, AreSlots, HasKeysEachOnce, IsFound, IsFreeFor, IsIndexed, IsNewKey, no_number};
ghost use Rattle.morsel_keys.specs.TextHomes.{text_home};

use crate::slots::{SLOTS_PER_KEY, hole, put, slot_at, spread};
use crate::text_mix::mixed_text;
use morsel_frame::Texts;
use morsel_meaning::Fault;
use std::alloc::Global;
use std::marker::Model;

/// Texts in order of arrival, each once.
#[derive(Drop)]
pub struct TextKeys {
    alloc: Global,
    seed: u64,
    mask: usize,
    slots: Vec<u32>,
    texts: Texts,
}

impl Model for TextKeys {
    ghost use Rattle.std.specs.Prelude.{ℕ, List};
    ghost use Rattle.morsel_keys.specs.TextHomes.{AreTextKeys};

    ghost Value = { List (List ℕ) };

    ghost view = { λ keys. keys.texts };

    ghost invariant = { λ keys. AreTextKeys keys.seed keys.mask keys.slots.items keys.texts };
}

impl TextKeys {
    /// No texts. The seed decides where searches begin.
    pub fn new(alloc: Global, seed: u64) -> TextKeys
        ensures { result ≡ [] }
    {
        TextKeys {
            alloc,
            seed,
            mask: 0,
            slots: Vec::new(alloc),
            texts: Texts::new(alloc),
        }
    }

    /// How many texts there are.
    pub fn len(&self) -> usize
        ensures len { result ≡ length self.now }
        ensures within { result ≤ no_number }
        ensures once { HasKeysEachOnce self.now }
    {
        self.texts.len()
    }

    /// The text of this number.
    pub fn get(&self, at: u32) -> &str
        requires { at < length self.now }
        ensures { slice_get self.now at ≡ Some result.now }
    {
        self.texts.get(at as usize)
    }

    /// The number of a text; `None` exactly where it is absent.
    #[inline(always)]
    pub fn find(&self, text: &str) -> Option<u32>
        ensures some { IfSome result (λ at. slice_get self.now at ≡ Some text.now) }
        ensures none { IfNone result (IsNewKey text.now self.now) }
    {
        found(&self.slots, &self.texts, self.mask, self.seed, text)
    }

    /// The numbers of texts, each at its place, and `u32::MAX` where one is absent.
    pub fn look_up(&self, texts: &Texts, out: &mut [u32])
        requires { length out.old ≡ length texts.now }
        ensures { AreLookedUp self.now texts.now out.new }
    {
        look_up_each(&self.slots, &self.texts, self.mask, self.seed, texts, out);
    }

    /// Puts a new text last.
    pub fn push(&mut self, text: &str) -> Result<(), Fault>
        requires new { IsNewKey text.now self.old }
        requires room { length self.old < no_number }
        ensures ok { OnOk result (self.new ≡ self.old ++ text.now ∷ []) }
        ensures err { OnErr result (self.new ≡ self.old) }
        ensures out_of_memory { IsOkUnless result Fault.OutOfMemory }
    {
        self.grow()?;
        add(&mut self.slots, &mut self.texts, self.mask, self.seed, text)
    }

    /// Makes more slots where they are few for one text more.
    fn grow(&mut self) -> Result<(), Fault>
        ensures same { self.new ≡ self.old }
        ensures out_of_memory { IsOkUnless result Fault.OutOfMemory }
    {
        if self.texts.len() * SLOTS_PER_KEY > self.mask && self.mask < 1_000_000_000_000 {
            let mask = if self.mask == 0 {
                15
            } else {
                self.mask * 2 + 1
            };
            let slots = rebuilt(self.alloc, &self.texts, mask, self.seed)?;
            self.slots = slots;
            self.mask = mask;
        }
        Ok(())
    }
}

/// The place where the search for a text begins.
#[tactic(auto, unfolding(crate::specs::TextHomes::text_home))]
#[inline(always)]
fn home(text: &str, mask: usize, seed: u64) -> usize
    ensures value { result ≡ text_home seed mask text.now }
    ensures within { result ≤ mask }
{
    spread(mixed_text(seed, text), mask)
}

/// The number of a text.
#[tactic(auto, using(crate::proofs::SlotLemmas::not_there))]
#[inline(always)]
pub fn found(slots: &[u32], texts: &Texts, mask: usize, seed: u64, text: &str) -> Option<u32>
    requires indexed { IsIndexed (text_home seed mask) mask slots.now texts.now }
    ensures some { IfSome result (λ at. slice_get texts.now at ≡ Some text.now) }
    ensures none { IfNone result (IsNewKey text.now texts.now) }
{
    let from = home(text, mask, seed);
    seek(slots, texts, text, from)
}

/// The numbers of texts, each at its place.
fn look_up_each(
    slots: &[u32],
    texts: &Texts,
    mask: usize,
    seed: u64,
    column: &Texts,
    out: &mut [u32],
)
    requires indexed { IsIndexed (text_home seed mask) mask slots.now texts.now }
    requires len { length out.old ≡ length column.now }
    ensures { AreLookedUp texts.now column.now out.new }
{
    // In two loops, so that the reads of different rows go on together: few wait for another of their own row.
    begin_each(slots, mask, seed, column, out);
    for i in 0..column.len() {
        out[i] = number_from(slots, texts, mask, seed, column.get(i), out[i]);
    }
}

/// The slots where the searches for texts begin, each at its place.
fn begin_each(slots: &[u32], mask: usize, seed: u64, column: &Texts, out: &mut [u32])
    requires { length out.old ≡ length column.now }
    ensures { (i : ℕ) → i < length column.now → get_or out.new i 0 ≡ get_or slots.now (text_home seed mask (get_or column.now i [])) 0 }
{
    for i in 0..column.len() {
        out[i] = slot_at(slots, home(column.get(i), mask, seed));
    }
}

/// The number of a text, whose search begins at this slot, and `u32::MAX` where it is absent.
#[inline(always)]
fn number_from(slots: &[u32], texts: &Texts, mask: usize, seed: u64, text: &str, first: u32) -> u32
    requires indexed { IsIndexed (text_home seed mask) mask slots.now texts.now }
    requires first { first ≡ get_or slots.now (text_home seed mask text.now) 0 }
    ensures { IsFound texts.now text.now result }
{
    if first == 0 {
        return u32::MAX;
    }
    if texts.get((first - 1) as usize) == text {
        return first - 1;
    }
    number_past(slots, texts, mask, seed, text)
}

/// The number of a text whose search goes past its first slot.
#[inline(never)]
fn number_past(slots: &[u32], texts: &Texts, mask: usize, seed: u64, text: &str) -> u32
    requires indexed { IsIndexed (text_home seed mask) mask slots.now texts.now }
    ensures { IsFound texts.now text.now result }
{
    match found(slots, texts, mask, seed, text) {
        Some(at) => at,
        None => u32::MAX,
    }
}

/// The place of a text that a search from a place on finds.
#[inline(always)]
fn seek(slots: &[u32], texts: &Texts, text: &str, from: usize) -> Option<u32>
    requires fit { AreSlots slots.now (length texts.now) }
    requires order { from ≤ length slots.now }
    ensures some { IfSome result (λ at. slice_get texts.now at ≡ Some text.now) }
    ensures none { IfNone result (IsFreeFor slots.now texts.now text.now from) }
{
    for at in from..slots.len() {
        let slot = slots[at];
        if slot == 0 {
            return None;
        }
        if texts.get((slot - 1) as usize) == text {
            return Some(slot - 1);
        }
    }
    None
}

/// Puts a text last, and its slot into the first free place of its search.
fn add(
    slots: &mut Vec<u32>,
    texts: &mut Texts,
    mask: usize,
    seed: u64,
    text: &str,
) -> Result<(), Fault>
    requires indexed { IsIndexed (text_home seed mask) mask slots.old.items texts.old }
    requires room { length texts.old < no_number }
    ensures indexed { IsIndexed (text_home seed mask) mask slots.new.items texts.new }
    ensures ok { OnOk result (texts.new ≡ texts.old ++ text.now ∷ []) }
    ensures err { OnErr result (texts.new ≡ texts.old) }
    ensures out_of_memory { IsOkUnless result Fault.OutOfMemory }
{
    let len = texts.len();
    let from = home(text, mask, seed);
    let at = hole(slots, from);
    texts.push(text)?;
    match put(slots, at, len as u32 + 1) {
        Ok(()) => Ok(()),
        Err(fault) => {
            texts.truncate(len);
            Err(fault)
        }
    }
}

/// The slots of these texts.
fn rebuilt(alloc: Global, texts: &Texts, mask: usize, seed: u64) -> Result<Vec<u32>, Fault>
    requires short { length texts.now < 2 ^ 32 }
    requires narrow { mask < 2 ^ 60 }
    ensures ok { IfOk result (λ slots. IsIndexed (text_home seed mask) mask slots.items texts.now) }
    ensures out_of_memory { IsOkUnless result Fault.OutOfMemory }
{
    let mut slots = vec![in alloc; 0u32; mask + 1]?;
    for place in 0..texts.len() {
        let from = home(texts.get(place), mask, seed);
        let at = hole(&slots, from);
        put(&mut slots, at, place as u32 + 1)?;
    }
    Ok(slots)
}
