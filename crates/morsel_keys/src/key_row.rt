//! Keys of any number of columns as they come, and as they are held.
ghost use Rattle.std.specs.Prelude.{◌≡◌, ◌<◌, ◌≤◌, ◌↔◌, length, IfOk, IsOkUnless, IsTrue};
ghost use Rattle.morsel_frame.specs.Cells.{value_of};
ghost use Rattle.morsel_frame.specs.Tables.{cell_at};
ghost use Rattle.morsel_keys.specs.Keyed.{IsKeyRow, row_values, value_word, row_mix, row_home};

use crate::cells::{lent, owned};
use crate::slots::spread;
use crate::text_mix::{mix, mixed_text};
use morsel_frame::{Cell, Frame};
use morsel_meaning::{Fault, Value};
use std::alloc::Global;
use std::marker::Model;

/// A key as it comes: what a row of a frame has in these columns, or a key of another table.
#[derive(Clone, Copy)]
pub enum KeyRow<'a> {
    OfFrame(&'a Frame, &'a [usize], usize),
    OfTable(&'a [Value]),
}

/// A key as it is held, which contracts see as its values.
#[derive(Drop)]
pub struct Key {
    values: Vec<Value>,
}

impl Model for Key {
    ghost use Rattle.morsel_meaning.specs.Values.{Row};

    ghost Value = { Row };

    ghost view = { λ key. key.values.items };
}

impl Key {
    /// The key's values.
    pub fn values(&self) -> &[Value]
        ensures { result.now ≡ self.now }
    {
        self.values.as_slice()
    }
}

/// How many values the key has.
pub fn width(key: KeyRow<'_>) -> usize
    ensures { result ≡ length (row_values key.entry) }
{
    match key {
        KeyRow::OfFrame(_, columns, _) => columns.len(),
        KeyRow::OfTable(values) => values.len(),
    }
}

/// The key's value at a place.
pub fn cell<'a>(key: KeyRow<'a>, at: usize) -> Cell<'a>
    requires row { IsKeyRow key }
    requires within { at < length (row_values key) }
    ensures { value_of result ≡ cell_at at (row_values key.entry) }
{
    match key {
        KeyRow::OfFrame(frame, columns, row) => frame.column(columns[at]).get(row),
        KeyRow::OfTable(values) => lent(&values[at]),
    }
}

/// Whether a key that is held is the one that comes.
pub fn is_key(held: &Key, key: KeyRow<'_>) -> bool
    requires { IsKeyRow key }
    ensures { IsTrue result ↔ (held.now ≡ row_values key.entry) }
{
    let values = held.values();
    if values.len() != width(key) {
        return false;
    }
    for at in 0..values.len() {
        if !is_same(&values[at], cell(key, at)) {
            return false;
        }
    }
    true
}

/// Whether a value is that of a cell.
fn is_same(value: &Value, cell: Cell<'_>) -> bool
    ensures { IsTrue result ↔ (value.now ≡ value_of cell.entry) }
{
    match value {
        Value::Null => match cell {
            Cell::Null => true,
            _ => false,
        },
        Value::Int(number) => match cell {
            Cell::Int(other) => *number == other,
            _ => false,
        },
        Value::Bool(flag) => match cell {
            Cell::Bool(other) => *flag == other,
            _ => false,
        },
        Value::Text(text) => match cell {
            Cell::Text(other) => text.as_str() == other,
            _ => false,
        },
    }
}

/// A key of its own.
pub fn held(alloc: Global, key: KeyRow<'_>) -> Result<Key, Fault>
    requires { IsKeyRow key }
    ensures ok { IfOk result (λ held. held ≡ row_values key.entry) }
    ensures out_of_memory { IsOkUnless result Fault.OutOfMemory }
{
    let mut values = Vec::new(alloc);
    for at in 0..width(key) {
        values.push(owned(alloc, cell(key, at))?)?;
    }
    Ok(Key { values })
}

/// A value as a word.
fn word(cell: Cell<'_>) -> u64
    ensures { result ≡ value_word (value_of cell.entry) }
{
    match cell {
        Cell::Null => 3,
        Cell::Int(number) => number.cast_unsigned(),
        Cell::Bool(flag) => if flag { 5 } else { 7 },
        Cell::Text(text) => mixed_text(11, text),
    }
}

/// The key's values, mixed to a word.
fn mixed(seed: u64, key: KeyRow<'_>) -> u64
    requires { IsKeyRow key }
    ensures { result ≡ row_mix seed (row_values key.entry) }
{
    let mut state = seed;
    for at in 0..width(key) {
        state = mix(state, word(cell(key, at)));
    }
    state
}

/// The place where the search for a key begins.
#[tactic(auto, unfolding(crate::specs::Keyed::row_home))]
pub fn home(key: KeyRow<'_>, mask: usize, seed: u64) -> usize
    requires { IsKeyRow key }
    ensures value { result ≡ row_home seed mask (row_values key.entry) }
    ensures within { result ≤ mask }
{
    spread(mixed(seed, key).wrapping_mul(0x9E37_79B9_7F4A_7C15), mask)
}
