//! Tables of keys of any number of columns.
ghost use Rattle.std.specs.Prelude.{◌≡◌, ◌<◌, ◌≤◌, ◌+◌, ◌^◌, ◌++◌, [], ◌∷◌, length, get_or, slice_get, Some, OnOk, OnErr, IfOk, IfSome, IfNone, IsOkUnless, IsTrue, ◌↔◌};
ghost use Rattle.std.specs.List.{All};
ghost use Rattle.morsel_meaning.specs.Values.{FitsRow, FitsRows, kinds_of};
ghost use Rattle.morsel_frame.specs.Tables.{cells_at, fields_at};
ghost use Rattle.morsel_keys.specs.Slots.{AreSlots, HasKeysEachOnce, IsFreeFor, IsIndexed, IsNewKey, GivesNumber, RefusesKey, no_number};
ghost use Rattle.morsel_keys.specs.Keyed.{IsKeyRow, row_values, row_home};

use crate::column_keys::{KEY_LIMIT, too_many};
use crate::key_row::{Key, KeyRow, held, home, is_key};
use crate::slots::{SLOTS_PER_KEY, hole, put};
use morsel_frame::Frame;
use morsel_meaning::{ColType, Fault, Value};
use std::alloc::Global;
use std::marker::Model;

/// Keys in order of arrival, each once. A key is the values of a row under some columns, null being a value as any other.
#[derive(Drop)]
pub struct KeyTable {
    alloc: Global,
    kinds: Vec<ColType>,
    seed: u64,
    mask: usize,
    slots: Vec<u32>,
    keys: Vec<Key>,
}

impl Model for KeyTable {
    ghost use Rattle.morsel_keys.specs.Keyed.{Keyed, AreRowKeys};

    ghost Value = { Keyed };

    ghost view = { λ table. record { kinds = table.kinds.items; keys = table.keys.items } };

    ghost invariant = { λ table. AreRowKeys table.seed table.mask table.kinds.items table.slots.items table.keys.items };
}

impl KeyTable {
    /// No keys, whose values are to be of these types.
    pub fn new(kinds: Vec<ColType>) -> KeyTable
        ensures { result ≡ record { kinds = kinds.items; keys = [] } }
    {
        KeyTable::with_seed(kinds, 0)
    }

    /// No keys, whose values are to be of these types. The seed decides where searches begin, and nothing else.
    pub fn with_seed(kinds: Vec<ColType>, seed: u64) -> KeyTable
        ensures { result ≡ record { kinds = kinds.items; keys = [] } }
    {
        let alloc = *kinds.allocator();
        KeyTable {
            alloc,
            kinds,
            seed,
            mask: 0,
            slots: Vec::new(alloc),
            keys: Vec::new(alloc),
        }
    }

    /// How many keys there are.
    pub fn len(&self) -> usize
        ensures len { result ≡ length self.now.keys }
        ensures within { result ≤ no_number }
        ensures once { HasKeysEachOnce self.now.keys }
    {
        self.keys.len()
    }

    /// The values of the key of this number.
    pub fn key(&self, at: u32) -> &[Value]
        requires { at < length self.now.keys }
        ensures key { slice_get self.now.keys at ≡ Some result.now }
        ensures of_type { FitsRow self.now.kinds result.now }
    {
        let key = &self.keys[at as usize];
        key.values()
    }

    /// The number of what a row has under these columns; `None` exactly where it is no key.
    pub fn find(&self, frame: &Frame, columns: &[usize], row: usize) -> Option<u32>
        requires row { row < length frame.now.rows }
        requires columns { All (λ at. at < length frame.now.schema) columns.now }
        ensures some { IfSome result (λ at. slice_get self.now.keys at ≡ Some (cells_at columns.now (get_or frame.now.rows row []))) }
        ensures none { IfNone result (IsNewKey (cells_at columns.now (get_or frame.now.rows row [])) self.now.keys) }
    {
        self.find_row(KeyRow::OfFrame(frame, columns, row))
    }

    /// The number of what a row has under these columns, which comes last where it is new. Past 4,294,967,295 keys a new one is refused.
    pub fn insert(&mut self, frame: &Frame, columns: &[usize], row: usize) -> Result<u32, Fault>
        requires row { row < length frame.now.rows }
        requires columns { All (λ at. at < length frame.now.schema) columns.now }
        requires kinds { kinds_of (fields_at frame.now.schema columns.now) ≡ self.old.kinds }
        ensures kinds { self.new.kinds ≡ self.old.kinds }
        ensures ok { IfOk result (λ at. GivesNumber self.old.keys (cells_at columns.now (get_or frame.now.rows row [])) at self.new.keys) }
        ensures refused { RefusesKey self.old.keys (cells_at columns.now (get_or frame.now.rows row [])) result }
        ensures err { OnErr result (self.new ≡ self.old) }
    {
        let _height = frame.height();
        self.insert_row(KeyRow::OfFrame(frame, columns, row))
    }

    /// The number of another table's key, which comes last where it is new. Past 4,294,967,295 keys a new one is refused.
    pub fn insert_from(&mut self, other: &KeyTable, at: u32) -> Result<u32, Fault>
        requires within { at < length other.now.keys }
        requires kinds { other.now.kinds ≡ self.old.kinds }
        ensures kinds { self.new.kinds ≡ self.old.kinds }
        ensures ok { IfOk result (λ number. GivesNumber self.old.keys (get_or other.now.keys at []) number self.new.keys) }
        ensures refused { RefusesKey self.old.keys (get_or other.now.keys at []) result }
        ensures err { OnErr result (self.new ≡ self.old) }
    {
        self.insert_row(KeyRow::OfTable(other.key(at)))
    }

    #[tactic(auto, using(crate::proofs::FitLemmas::number_within))]
    fn find_row(&self, key: KeyRow<'_>) -> Option<u32>
        requires { IsKeyRow key }
        ensures some { IfSome result (λ at. slice_get self.now.keys at ≡ Some (row_values key.entry)) }
        ensures none { IfNone result (IsNewKey (row_values key.entry) self.now.keys) }
        ensures within { IfSome result (λ at. at < no_number) }
    {
        match found(&self.slots, &self.keys, self.mask, self.seed, key) {
            Some(at) => Some(at),
            None => None,
        }
    }

    fn insert_row(&mut self, key: KeyRow<'_>) -> Result<u32, Fault>
        requires row { IsKeyRow key }
        requires fits { FitsRow self.old.kinds (row_values key) }
        ensures kinds { self.new.kinds ≡ self.old.kinds }
        ensures ok { IfOk result (λ at. GivesNumber self.old.keys (row_values key.entry) at self.new.keys) }
        ensures refused { RefusesKey self.old.keys (row_values key.entry) result }
        ensures err { OnErr result (self.new ≡ self.old) }
    {
        match self.find_row(key) {
            Some(at) => Ok(at),
            None => {
                let len = self.len();
                if len >= KEY_LIMIT {
                    return Err(too_many());
                }
                self.push(key)?;
                Ok(len as u32)
            }
        }
    }

    /// Puts a new key last.
    fn push(&mut self, key: KeyRow<'_>) -> Result<(), Fault>
        requires row { IsKeyRow key }
        requires fits { FitsRow self.old.kinds (row_values key) }
        requires new { IsNewKey (row_values key) self.old.keys }
        requires room { length self.old.keys < no_number }
        ensures kinds { self.new.kinds ≡ self.old.kinds }
        ensures ok { OnOk result (self.new.keys ≡ self.old.keys ++ row_values key.entry ∷ []) }
        ensures err { OnErr result (self.new ≡ self.old) }
        ensures out_of_memory { IsOkUnless result Fault.OutOfMemory }
    {
        self.grow()?;
        add(
            self.alloc,
            &mut self.slots,
            &mut self.keys,
            self.mask,
            self.seed,
            key,
        )?;
        Ok(())
    }

    /// Makes more slots where they are few for one key more.
    fn grow(&mut self) -> Result<(), Fault>
        ensures same { self.new ≡ self.old }
        ensures out_of_memory { IsOkUnless result Fault.OutOfMemory }
    {
        if self.keys.len() * SLOTS_PER_KEY > self.mask && self.mask < 1_000_000_000_000 {
            let mask = if self.mask == 0 {
                15
            } else {
                self.mask * 2 + 1
            };
            let slots = rebuilt(self.alloc, &self.keys, mask, self.seed)?;
            self.slots = slots;
            self.mask = mask;
        }
        Ok(())
    }
}

/// The number of a key.
#[tactic(auto, using(crate::proofs::SlotLemmas::not_there))]
fn found(slots: &[u32], keys: &[Key], mask: usize, seed: u64, key: KeyRow<'_>) -> Option<u32>
    requires row { IsKeyRow key }
    requires indexed { IsIndexed (row_home seed mask) mask slots.now keys.now }
    ensures some { IfSome result (λ at. slice_get keys.now at ≡ Some (row_values key.entry)) }
    ensures none { IfNone result (IsNewKey (row_values key.entry) keys.now) }
{
    let from = home(key, mask, seed);
    seek(slots, keys, key, from)
}

/// The place of a key that a search from a place on finds.
fn seek(slots: &[u32], keys: &[Key], key: KeyRow<'_>, from: usize) -> Option<u32>
    requires row { IsKeyRow key }
    requires fit { AreSlots slots.now (length keys.now) }
    requires order { from ≤ length slots.now }
    ensures some { IfSome result (λ at. slice_get keys.now at ≡ Some (row_values key.entry)) }
    ensures none { IfNone result (IsFreeFor slots.now keys.now (row_values key.entry) from) }
{
    for at in from..slots.len() {
        let slot = slots[at];
        if slot == 0 {
            return None;
        }
        if holds(keys, (slot - 1) as usize, key) {
            return Some(slot - 1);
        }
    }
    None
}

/// Whether the key is at a place.
fn holds(keys: &[Key], at: usize, key: KeyRow<'_>) -> bool
    requires row { IsKeyRow key }
    requires within { at < length keys.now }
    ensures { IsTrue result ↔ (slice_get keys.now at ≡ Some (row_values key.entry)) }
{
    is_key(&keys[at], key)
}

/// Puts a key last, and its slot into the first free place of its search.
fn add(
    alloc: Global,
    slots: &mut Vec<u32>,
    keys: &mut Vec<Key>,
    mask: usize,
    seed: u64,
    key: KeyRow<'_>,
) -> Result<(), Fault>
    requires row { IsKeyRow key }
    requires indexed { IsIndexed (row_home seed mask) mask slots.old.items keys.old.items }
    requires room { length keys.old.items < no_number }
    ensures indexed { IsIndexed (row_home seed mask) mask slots.new.items keys.new.items }
    ensures ok { OnOk result (keys.new.items ≡ keys.old.items ++ row_values key.entry ∷ []) }
    ensures err { OnErr result (keys.new.items ≡ keys.old.items) }
    ensures out_of_memory { IsOkUnless result Fault.OutOfMemory }
{
    let slot = keys.len() as u32 + 1;
    let from = home(key, mask, seed);
    let at = hole(slots, from);
    let own = held(alloc, key)?;
    keys.reserve(1)?;
    put(slots, at, slot)?;
    keys.push(own)?;
    Ok(())
}

/// The slots of these keys.
fn rebuilt(alloc: Global, keys: &[Key], mask: usize, seed: u64) -> Result<Vec<u32>, Fault>
    requires short { length keys.now < 2 ^ 32 }
    requires narrow { mask < 2 ^ 60 }
    ensures ok { IfOk result (λ slots. IsIndexed (row_home seed mask) mask slots.items keys.now) }
    ensures out_of_memory { IsOkUnless result Fault.OutOfMemory }
{
    let mut slots = vec![in alloc; 0u32; mask + 1]?;
    for place in 0..keys.len() {
        let from = home_at(keys, place, mask, seed);
        let at = hole(&slots, from);
        put(&mut slots, at, place as u32 + 1)?;
    }
    Ok(slots)
}

/// The place where the search for the key at a place begins.
fn home_at(keys: &[Key], place: usize, mask: usize, seed: u64) -> usize
    requires { place < length keys.now }
    ensures value { result ≡ row_home seed mask (get_or keys.now place []) }
    ensures within { result ≤ mask }
{
    let key = &keys[place];
    home(KeyRow::OfTable(key.values()), mask, seed)
}
