//! Keys of one column that are no nulls.
ghost use Rattle.std.specs.Prelude.{◌≡◌, ◌<◌, ◌≤◌, ◌++◌, [], ◌∷◌, ℕ, length, get_or, slice_get, map, Some, true, false, OnOk, OnErr, IfSome, IfNone, IsOkUnless};
ghost use Rattle.morsel_meaning.specs.Values.{IsOfType};
ghost use Rattle.morsel_meaning.specs.declared.value.Value.{Value};
ghost use Rattle.morsel_frame.specs.Cells.{value_of, not_null};
ghost use Rattle.morsel_keys.specs.Slots.{IsNewKey, no_number};
ghost use Rattle.morsel_keys.specs.ColumnKeys.{int_held, flag_held, flag_word, store_kind, stored_keys, IsStore, FindsValues};

use crate::texts::TextKeys;
use crate::words::{WordKeys, flag_word};
use morsel_frame::{Cell, Column};
use morsel_meaning::{ColType, Fault, Value};
use std::alloc::Global;

/// Keys of one type in order of arrival, each once.
#[derive(Drop)]
pub enum Store {
    /// Numbers, as words.
    Ints(WordKeys),
    /// Truth values, as words 0 and 1.
    Bools(WordKeys),
    Texts(TextKeys),
}

/// No keys of this type.
pub fn empty(alloc: Global, kind: ColType, seed: u64) -> Store
    ensures kind { store_kind result ≡ kind }
    ensures empty { stored_keys result ≡ [] }
    ensures store { IsStore result }
{
    match kind {
        ColType::Int => Store::Ints(WordKeys::new(alloc, seed)),
        ColType::Bool => Store::Bools(WordKeys::new(alloc, seed)),
        ColType::Text => Store::Texts(TextKeys::new(alloc, seed)),
    }
}

/// The type of the keys.
pub fn kind_of(store: &Store) -> ColType
    ensures { result ≡ store_kind store.now }
{
    match store {
        Store::Ints(_) => ColType::Int,
        Store::Bools(_) => ColType::Bool,
        Store::Texts(_) => ColType::Text,
    }
}

/// How many keys there are.
pub fn count(store: &Store) -> usize
    ensures len { result ≡ length (stored_keys store.now) }
    ensures within { result ≤ no_number }
{
    match store {
        Store::Ints(words) => words.len(),
        Store::Bools(words) => words.len(),
        Store::Texts(texts) => texts.len(),
    }
}

/// The key of this number.
pub fn get(store: &Store, at: u32) -> Cell<'_>
    requires { at < length (stored_keys store.now) }
    ensures { slice_get (stored_keys store.now) at ≡ Some (value_of result) }
{
    match store {
        Store::Ints(words) => Cell::Int(words.get(at).cast_signed()),
        Store::Bools(words) => Cell::Bool(words.get(at) == 1),
        Store::Texts(texts) => Cell::Text(texts.get(at)),
    }
}

/// The number of a key that is no null; `None` exactly where it is absent.
pub fn find(store: &Store, cell: Cell<'_>) -> Option<u32>
    requires store { IsStore store.now }
    requires of_type { IsOfType (store_kind store.now) (value_of cell) }
    requires some { not_null (value_of cell) ≡ true }
    ensures some { IfSome result (λ at. slice_get (stored_keys store.now) at ≡ Some (value_of cell.entry)) }
    ensures none { IfNone result (IsNewKey (value_of cell.entry) (stored_keys store.now)) }
{
    match cell {
        Cell::Int(number) => match store {
            Store::Ints(words) => find_int(words, number),
            _ => unreachable!(),
        },
        Cell::Bool(flag) => match store {
            Store::Bools(words) => find_flag(words, flag),
            _ => unreachable!(),
        },
        Cell::Text(text) => match store {
            Store::Texts(texts) => find_text(texts, text),
            _ => unreachable!(),
        },
        Cell::Null => unreachable!(),
    }
}

fn find_int(words: &WordKeys, number: i64) -> Option<u32>
    ensures some { IfSome result (λ at. slice_get (map int_held words.now) at ≡ Some (Value.Int number)) }
    ensures none { IfNone result (IsNewKey (Value.Int number) (map int_held words.now)) }
{
    match words.find(number.cast_unsigned()) {
        Some(at) => Some(at),
        None => None,
    }
}

fn find_flag(words: &WordKeys, flag: bool) -> Option<u32>
    requires { (k : ℕ) → get_or words.now k 0 ≤ 1 }
    ensures some { IfSome result (λ at. slice_get (map flag_held words.now) at ≡ Some (Value.Bool flag)) }
    ensures none { IfNone result (IsNewKey (Value.Bool flag) (map flag_held words.now)) }
{
    match words.find(flag_word(flag)) {
        Some(at) => Some(at),
        None => None,
    }
}

fn find_text(texts: &TextKeys, text: &str) -> Option<u32>
    ensures some { IfSome result (λ at. slice_get (map Value.Text texts.now) at ≡ Some (Value.Text text.now)) }
    ensures none { IfNone result (IsNewKey (Value.Text text.now) (map Value.Text texts.now)) }
{
    match texts.find(text) {
        Some(at) => Some(at),
        None => None,
    }
}

/// The numbers of a column's values that are no nulls, each at its place, and `u32::MAX` where one is absent.
pub fn look_up(store: &Store, column: &Column, out: &mut [u32])
    requires store { IsStore store.now }
    requires kind { column.now.kind ≡ store_kind store.now }
    requires len { length out.old ≡ length column.now.values }
    ensures { FindsValues (stored_keys store.now) column.now.values out.new }
{
    match store {
        Store::Ints(words) => match column.ints() {
            Some((_valid, numbers)) => {
                words.look_up_ints(numbers, out);
            }
            None => unreachable!(),
        },
        Store::Bools(words) => match column.bools() {
            Some((_valid, flags)) => {
                words.look_up_flags(flags, out);
            }
            None => unreachable!(),
        },
        Store::Texts(texts) => match column.texts() {
            Some((_valid, others)) => {
                texts.look_up(others, out);
            }
            None => unreachable!(),
        },
    }
}

/// Which values of a column are no nulls.
pub fn valid(column: &Column) -> &[bool]
    ensures len { length result.now ≡ length column.now.values }
    ensures values { (i : ℕ) (v : Value) → slice_get column.now.values i ≡ Some v → not_null v ≡ get_or result.now i false }
{
    match column.kind() {
        ColType::Int => match column.ints() {
            Some((valid, _values)) => valid,
            None => unreachable!(),
        },
        ColType::Bool => match column.bools() {
            Some((valid, _values)) => valid,
            None => unreachable!(),
        },
        ColType::Text => match column.texts() {
            Some((valid, _values)) => valid,
            None => unreachable!(),
        },
    }
}

/// Puts a new key that is no null last.
pub fn push(store: &mut Store, cell: Cell<'_>) -> Result<(), Fault>
    requires store { IsStore store.old }
    requires of_type { IsOfType (store_kind store.old) (value_of cell) }
    requires some { not_null (value_of cell) ≡ true }
    requires new { IsNewKey (value_of cell) (stored_keys store.old) }
    requires room { length (stored_keys store.old) < no_number }
    ensures kind { store_kind store.new ≡ store_kind store.old }
    ensures store { IsStore store.new }
    ensures ok { OnOk result (stored_keys store.new ≡ stored_keys store.old ++ value_of cell.entry ∷ []) }
    ensures err { OnErr result (stored_keys store.new ≡ stored_keys store.old) }
    ensures out_of_memory { IsOkUnless result Fault.OutOfMemory }
{
    match cell {
        Cell::Int(number) => match store {
            Store::Ints(words) => push_int(words, number),
            _ => unreachable!(),
        },
        Cell::Bool(flag) => match store {
            Store::Bools(words) => push_flag(words, flag),
            _ => unreachable!(),
        },
        Cell::Text(text) => match store {
            Store::Texts(texts) => push_text(texts, text),
            _ => unreachable!(),
        },
        Cell::Null => unreachable!(),
    }
}

fn push_int(words: &mut WordKeys, number: i64) -> Result<(), Fault>
    requires new { IsNewKey (Value.Int number) (map int_held words.old) }
    requires room { length words.old < no_number }
    ensures ok { OnOk result (map int_held words.new ≡ map int_held words.old ++ Value.Int number ∷ []) }
    ensures err { OnErr result (words.new ≡ words.old) }
    ensures out_of_memory { IsOkUnless result Fault.OutOfMemory }
{
    words.push(number.cast_unsigned())
}

fn push_flag(words: &mut WordKeys, flag: bool) -> Result<(), Fault>
    requires new { IsNewKey (Value.Bool flag) (map flag_held words.old) }
    requires room { length words.old < no_number }
    requires words { (k : ℕ) → get_or words.old k 0 ≤ 1 }
    ensures words { (k : ℕ) → get_or words.new k 0 ≤ 1 }
    ensures ok { OnOk result (map flag_held words.new ≡ map flag_held words.old ++ Value.Bool flag ∷ []) }
    ensures err { OnErr result (words.new ≡ words.old) }
    ensures out_of_memory { IsOkUnless result Fault.OutOfMemory }
{
    words.push(flag_word(flag))
}

fn push_text(texts: &mut TextKeys, text: &str) -> Result<(), Fault>
    requires new { IsNewKey (Value.Text text.now) (map Value.Text texts.old) }
    requires room { length texts.old < no_number }
    ensures ok { OnOk result (map Value.Text texts.new ≡ map Value.Text texts.old ++ Value.Text text.now ∷ []) }
    ensures err { OnErr result (texts.new ≡ texts.old) }
    ensures out_of_memory { IsOkUnless result Fault.OutOfMemory }
{
    texts.push(text)
}
