//! The keys of one column, null being one, in order of arrival.
ghost use Rattle.std.specs.Prelude.{◌≡◌, ◌<◌, ◌≤◌, ◌+◌, ◌++◌, [], ◌∷◌, ◌^◌, ℕ, length, get_or, false, slice_get, Some, OnOk, OnErr, IfOk, IfErr, IfSome, IfNone, IsOkUnless, ◌≢◌, Err};
ghost use Rattle.std.specs.Bool.{OnTrue};
ghost use Rattle.morsel_meaning.specs.Values.{IsOfType};
ghost use Rattle.morsel_frame.specs.Cells.{value_of};
ghost use Rattle.morsel_frame.specs.Columns.{value_at};
ghost use Rattle.morsel_keys.specs.Slots.{AreLookedUp, HasKeysEachOnce, IsNewKey, GivesNumber, NumbersOrStops, RefusesKey, no_number};
ghost use Rattle.morsel_keys.specs.ColumnKeys.{placed_of, shifted, inserted_at, with_null, stored_keys, store_kind, IsStore, AreColumnKeys};

use crate::store::{Store, count, empty, find, get, kind_of, look_up, push, valid};
use morsel_frame::{Cell, Column};
use morsel_meaning::{ColType, ComputeKind, Fault, QUERY_FILE, Value};
use std::alloc::Global;
use std::marker::Model;

/// The most keys that there may be. Their numbers are below it.
pub const KEY_LIMIT: usize = 4_294_967_295;

/// The keys of one column in order of arrival, each once, null being one.
#[derive(Drop)]
pub struct ColumnKeys {
    null: Option<u32>,
    store: Store,
}

impl Model for ColumnKeys {
    ghost use Rattle.morsel_frame.specs.Columns.{Values};
    ghost use Rattle.morsel_keys.specs.ColumnKeys.{store_kind, stored_keys, with_null, AreColumnKeys};

    ghost Value = { Values };

    ghost view = { λ keys. record { kind = store_kind keys.store; values = with_null keys.null (stored_keys keys.store) } };

    ghost invariant = { λ keys. AreColumnKeys keys.null keys.store };
}

impl ColumnKeys {
    /// No keys of this type. The seed decides where searches begin, and nothing else.
    pub fn new(alloc: Global, kind: ColType, seed: u64) -> ColumnKeys
        ensures { result ≡ record { kind = kind; values = [] } }
    {
        ColumnKeys {
            null: None,
            store: empty(alloc, kind, seed),
        }
    }

    /// The type of the keys.
    pub fn kind(&self) -> ColType
        ensures { result ≡ self.now.kind }
    {
        kind_of(&self.store)
    }

    /// How many keys there are.
    pub fn len(&self) -> usize
        ensures len { result ≡ length self.now.values }
        ensures within { result ≤ no_number }
        ensures once { HasKeysEachOnce self.now.values }
    {
        match self.null {
            None => count(&self.store),
            Some(null) => count_beside(&self.store, null),
        }
    }

    /// The key of this number.
    pub fn get(&self, at: u32) -> Cell<'_>
        requires { at < length self.now.values }
        ensures { slice_get self.now.values at ≡ Some (value_of result) }
    {
        match self.null {
            None => get(&self.store, at),
            Some(null) => get_beside(&self.store, null, at),
        }
    }

    /// The number of a key; `None` exactly where it is absent.
    pub fn find(&self, cell: Cell<'_>) -> Option<u32>
        requires { IsOfType self.now.kind (value_of cell) }
        ensures some { IfSome result (λ at. slice_get self.now.values at ≡ Some (value_of cell.entry)) }
        ensures none { IfNone result (IsNewKey (value_of cell.entry) self.now.values) }
    {
        match self.null {
            None => find_alone(&self.store, cell),
            Some(null) => find_beside(&self.store, null, cell),
        }
    }

    /// The numbers of a column's values, each at its place, and `u32::MAX` where one is absent.
    pub fn look_up(&self, column: &Column, out: &mut [u32])
        requires kind { column.now.kind ≡ self.now.kind }
        requires len { length out.old ≡ length column.now.values }
        ensures { AreLookedUp self.now.values column.now.values out.new }
    {
        look_up_beside(self.null, &self.store, column, out);
    }

    /// The numbers of a column's values, one after the other, each at its place. Those that are new come last. Past 4,294,967,295 keys a new
    /// one is refused, and the values before it have their numbers.
    pub fn number(&mut self, column: &Column, out: &mut [u32]) -> Result<(), Fault>
        requires kind { column.now.kind ≡ self.old.kind }
        requires len { length out.old ≡ length column.now.values }
        ensures kind { self.new.kind ≡ self.old.kind }
        ensures numbers { NumbersOrStops self.old.values column.now.values out.new self.new.values result }
    {
        self.look_up(column, out);
        if all_found(out) {
            return Ok(());
        }
        self.number_absent(column, out)
    }

    /// The numbers of a column's values that were looked up, and of those that were absent, which come last.
    fn number_absent(&mut self, column: &Column, out: &mut [u32]) -> Result<(), Fault>
        requires kind { column.now.kind ≡ self.old.kind }
        requires found { AreLookedUp self.old.values column.now.values out.old }
        ensures kind { self.new.kind ≡ self.old.kind }
        ensures numbers { NumbersOrStops self.old.values column.now.values out.new self.new.values result }
    {
        for i in 0..out.len() {
            match self.number_row(column, i, out[i]) {
                Ok(at) => out[i] = at,
                Err(fault) => return Err(fault),
            }
        }
        Ok(())
    }

    /// The number of a row's value, which was looked up before. Only a value that was absent is read again.
    #[inline(always)]
    fn number_row(&mut self, column: &Column, row: usize, at: u32) -> Result<u32, Fault>
        requires kind { column.now.kind ≡ self.old.kind }
        requires within { row < length column.now.values }
        requires found { at ≢ no_number → slice_get self.old.values at ≡ Some (value_at column.now.values row) }
        ensures kind { self.new.kind ≡ self.old.kind }
        ensures ok { IfOk result (λ at. GivesNumber self.old.values (value_at column.now.values row) at self.new.values) }
        ensures refused { IfErr result (λ fault. RefusesKey self.old.values (value_at column.now.values row) (Err fault)) }
        ensures err { OnErr result (self.new ≡ self.old) }
    {
        if at != u32::MAX {
            return Ok(at);
        }
        self.insert_row(column, row)
    }

    /// The number of a row's value, which comes last where it is new.
    #[inline(never)]
    fn insert_row(&mut self, column: &Column, row: usize) -> Result<u32, Fault>
        requires kind { column.now.kind ≡ self.old.kind }
        requires within { row < length column.now.values }
        ensures kind { self.new.kind ≡ self.old.kind }
        ensures ok { IfOk result (λ at. GivesNumber self.old.values (value_at column.now.values row) at self.new.values) }
        ensures refused { RefusesKey self.old.values (value_at column.now.values row) result }
        ensures err { OnErr result (self.new ≡ self.old) }
    {
        self.insert(column.get(row))
    }

    /// The number of a key, which comes last where it is new. Past 4,294,967,295 keys a new one is refused.
    pub fn insert(&mut self, cell: Cell<'_>) -> Result<u32, Fault>
        requires { IsOfType self.old.kind (value_of cell) }
        ensures kind { self.new.kind ≡ self.old.kind }
        ensures ok { IfOk result (λ at. GivesNumber self.old.values (value_of cell.entry) at self.new.values) }
        ensures refused { RefusesKey self.old.values (value_of cell.entry) result }
        ensures err { OnErr result (self.new ≡ self.old) }
    {
        match self.find(cell) {
            Some(at) => Ok(at),
            None => {
                let len = self.len();
                if len >= KEY_LIMIT {
                    return Err(too_many());
                }
                add_key(&mut self.null, &mut self.store, cell, len as u32)?;
                Ok(len as u32)
            }
        }
    }
}

/// How many keys there are, the null at its place among them.
#[tactic(auto, using(crate::proofs::HeldLemmas::inserted_at_length))]
fn count_beside(store: &Store, null: u32) -> usize
    requires { length (inserted_at null Value.Null (stored_keys store.now)) ≤ no_number }
    ensures { result ≡ length (inserted_at null Value.Null (stored_keys store.now)) }
{
    count(store) + 1
}

/// The key of this number, the null at its place among them.
#[tactic(auto, using(crate::proofs::HeldLemmas::inserted_at_length))]
fn get_beside(store: &Store, null: u32, at: u32) -> Cell<'_>
    requires place { null ≤ length (stored_keys store.now) }
    requires within { at < length (inserted_at null Value.Null (stored_keys store.now)) }
    ensures { slice_get (inserted_at null Value.Null (stored_keys store.now)) at ≡ Some (value_of result) }
{
    if at < null {
        return get(store, at);
    }
    if at == null {
        return Cell::Null;
    }
    get(store, at - 1)
}

/// The number of a key, where the null has not arrived.
fn find_alone(store: &Store, cell: Cell<'_>) -> Option<u32>
    requires store { IsStore store.now }
    requires of_type { IsOfType (store_kind store.now) (value_of cell) }
    ensures some { IfSome result (λ at. slice_get (stored_keys store.now) at ≡ Some (value_of cell.entry)) }
    ensures none { IfNone result (IsNewKey (value_of cell.entry) (stored_keys store.now)) }
{
    match cell {
        Cell::Null => None,
        _ => find(store, cell),
    }
}

/// The number of a key, the null at its place among them.
fn find_beside(store: &Store, null: u32, cell: Cell<'_>) -> Option<u32>
    requires store { IsStore store.now }
    requires of_type { IsOfType (store_kind store.now) (value_of cell) }
    requires place { null ≤ length (stored_keys store.now) }
    ensures some { IfSome result (λ at. slice_get (inserted_at null Value.Null (stored_keys store.now)) at ≡ Some (value_of cell.entry)) }
    ensures none { IfNone result (IsNewKey (value_of cell.entry) (inserted_at null Value.Null (stored_keys store.now))) }
{
    match cell {
        Cell::Null => Some(null),
        _ => match find(store, cell) {
            Some(at) => {
                let _count = count(store);
                Some(shift(null, at))
            }
            None => None,
        },
    }
}

/// The numbers of a column's values among keys with the null at its place.
fn look_up_beside(null: Option<u32>, store: &Store, column: &Column, out: &mut [u32])
    requires keys { AreColumnKeys null store.now }
    requires kind { column.now.kind ≡ store_kind store.now }
    requires len { length out.old ≡ length column.now.values }
    ensures { AreLookedUp (with_null null (stored_keys store.now)) column.now.values out.new }
{
    look_up(store, column, out);
    place_each(null, valid(column), out);
}

/// Puts the number of the null where a row has one, and moves the others past it.
fn place_each(null: Option<u32>, valid: &[bool], out: &mut [u32])
    requires { length out.old ≡ length valid.now }
    ensures { (i : ℕ) → i < length valid.now → get_or out.new i 0 ≡ placed_of null (get_or valid.now i false) (get_or out.old i 0) }
{
    for i in 0..valid.len() {
        out[i] = placed(null, valid[i], out[i]);
    }
}

/// The number of a row: the null's, or that of its value with the null among the keys.
#[inline(always)]
fn placed(null: Option<u32>, valid: bool, at: u32) -> u32
    ensures { result ≡ placed_of null valid at }
{
    if valid {
        match null {
            Some(null) => if at == u32::MAX {
                u32::MAX
            } else {
                shift(null, at)
            },
            None => at,
        }
    } else {
        match null {
            Some(null) => null,
            None => u32::MAX,
        }
    }
}

/// The number of a key that is no null, with the null at its place among them.
#[inline(always)]
pub fn shift(null: u32, at: u32) -> u32
    requires { at < no_number }
    ensures { result ≡ shifted (Some null) at }
{
    if at < null { at } else { at + 1 }
}

/// Puts a new key last.
fn add_key(null: &mut Option<u32>, store: &mut Store, cell: Cell<'_>, len: u32) -> Result<(), Fault>
    requires keys { AreColumnKeys null.old store.old }
    requires of_type { IsOfType (store_kind store.old) (value_of cell) }
    requires new { IsNewKey (value_of cell) (with_null null.old (stored_keys store.old)) }
    requires len { len ≡ length (with_null null.old (stored_keys store.old)) }
    requires room { len < no_number }
    ensures keys { AreColumnKeys null.new store.new }
    ensures kind { store_kind store.new ≡ store_kind store.old }
    ensures ok { OnOk result (with_null null.new (stored_keys store.new) ≡ with_null null.old (stored_keys store.old) ++ value_of cell.entry ∷ []) }
    ensures err { OnErr result (with_null null.new (stored_keys store.new) ≡ with_null null.old (stored_keys store.old)) }
    ensures out_of_memory { IsOkUnless result Fault.OutOfMemory }
{
    match cell {
        Cell::Null => {
            *null = Some(len);
            Ok(())
        }
        _ => match push(store, cell) {
            Ok(()) => Ok(()),
            Err(fault) => Err(fault),
        },
    }
}

/// Whether no number is that of an absent key.
// Looks at each, so that many are looked at in one step.
fn all_found(ats: &[u32]) -> bool
    ensures { OnTrue result ((i : ℕ) → i < length ats.now → get_or ats.now i 0 ≢ no_number) }
{
    let mut all = true;
    for i in 0..ats.len() {
        all = all & (ats[i] != u32::MAX);
    }
    all
}

/// There are too many distinct keys.
pub fn too_many() -> Fault
    ensures { result ≡ Fault.ComputeError ComputeKind.TooManyGroups 4294967295 0 }
{
    Fault::ComputeError {
        kind: ComputeKind::TooManyGroups,
        file: QUERY_FILE,
        at: 0,
    }
}
