//! Keys of two parts, a number and a value, in order of arrival.
ghost use Rattle.std.specs.Prelude.{◌≡◌, ◌<◌, ◌^◌, ◌≤◌, ℕ, [], length, get_or, OnOk, OnErr, IfOk, IsOkUnless};
ghost use Rattle.morsel_meaning.specs.Values.{IsOfType};
ghost use Rattle.morsel_frame.specs.Cells.{value_of};
ghost use Rattle.morsel_keys.specs.Slots.{AreLookedUp, HasKeysEachOnce, GivesNumber, RefusesKey, no_number};
ghost use Rattle.morsel_row_keys.specs.Pairs.{pair_with, pairs_of, pair_word, pair_words};

use crate::refusal::refusal;
use morsel_frame::{Cell, Column};
use morsel_keys::ColumnKeys;
use morsel_meaning::{ColType, Fault};
use std::alloc::Global;
use std::marker::Model;

/// Pairs of a number and a value in order of arrival, each once.
///
/// The values are numbered by themselves. A pair is kept as the word of its number and of its value's number, so no two pairs are one word.
#[derive(Drop)]
pub struct PairKeys {
    alloc: Global,
    seconds: ColumnKeys,
    words: ColumnKeys,
}

impl Model for PairKeys {
    ghost use Rattle.std.specs.Prelude.{map};
    ghost use Rattle.morsel_row_keys.specs.Pairs.{PairList, held_pair, ArePairs};

    ghost Value = { PairList };

    ghost view = { λ keys. record { kind = keys.seconds.kind; pairs = map (held_pair keys.seconds.values) keys.words.values } };

    ghost invariant = { λ keys. ArePairs keys.seconds keys.words };
}

impl PairKeys {
    /// No pairs, whose values are to be of this type. The seed decides where searches begin, and nothing else.
    pub fn new(alloc: Global, kind: ColType, seed: u64) -> PairKeys
        ensures { result ≡ record { kind = kind; pairs = [] } }
    {
        PairKeys {
            alloc,
            seconds: ColumnKeys::new(alloc, kind, seed),
            words: ColumnKeys::new(alloc, ColType::Int, seed),
        }
    }

    /// How many pairs there are.
    pub fn len(&self) -> usize
        ensures len { result ≡ length self.now.pairs }
        ensures within { result ≤ no_number }
        ensures once { HasKeysEachOnce self.now.pairs }
    {
        self.words.len()
    }

    /// The numbers of pairs, each of a number that stands at its place and of the value of that row; `u32::MAX` where one is absent. `u32::MAX`
    /// is no pair's number.
    pub fn look_up(&self, column: &Column, numbers: &mut [u32]) -> Result<(), Fault>
        requires kind { column.now.kind ≡ self.now.kind }
        requires len { length numbers.old ≡ length column.now.values }
        ensures ok { OnOk result (AreLookedUp self.now.pairs (pairs_of numbers.old column.now.values) numbers.new) }
        ensures len { length numbers.new ≡ length numbers.old }
        ensures out_of_memory { IsOkUnless result Fault.OutOfMemory }
    {
        let mut seconds = vec![in self.alloc; 0u32; numbers.len()]?;
        self.look_up_with(column, numbers, &mut seconds)
    }

    /// The same, with room for the numbers of the rows' values.
    fn look_up_with(
        &self,
        column: &Column,
        numbers: &mut [u32],
        seconds: &mut [u32],
    ) -> Result<(), Fault>
        requires kind { column.now.kind ≡ self.now.kind }
        requires len { length numbers.old ≡ length column.now.values }
        requires room { length seconds.old ≡ length column.now.values }
        ensures ok { OnOk result (AreLookedUp self.now.pairs (pairs_of numbers.old column.now.values) numbers.new) }
        ensures len { length numbers.new ≡ length numbers.old }
        ensures out_of_memory { IsOkUnless result Fault.OutOfMemory }
    {
        self.seconds.look_up(column, seconds);
        let words = words_of(self.alloc, numbers, seconds)?;
        self.words.look_up(&words, numbers);
        Ok(())
    }

    /// The number of a pair, which comes last where it is new. Past 4,294,967,295 pairs a new one is refused.
    pub fn insert(&mut self, first: u32, cell: Cell<'_>) -> Result<u32, Fault>
        requires of_type { IsOfType self.old.kind (value_of cell) }
        requires first { first < no_number }
        ensures kind { self.new.kind ≡ self.old.kind }
        ensures ok { IfOk result (λ at. GivesNumber self.old.pairs (pair_with first (value_of cell.entry)) at self.new.pairs) }
        ensures refused { RefusesKey self.old.pairs (pair_with first (value_of cell.entry)) result }
        ensures err { OnErr result (self.new ≡ self.old) }
    {
        let count = self.words.len();
        match self.seconds.insert(cell) {
            Ok(second) => self.words.insert(Cell::Int(pair_word(first, second))),
            Err(fault) => Err(refusal(fault, count)),
        }
    }
}

/// Two numbers as one.
#[inline(always)]
fn pair_word(first: u32, second: u32) -> i64
    ensures { result ≡ pair_word first second }
{
    (u64::from(first) * 4_294_967_296 + u64::from(second)).cast_signed()
}

/// The words of numbers, each with the one that stands at its place.
fn words_of(alloc: Global, firsts: &[u32], seconds: &[u32]) -> Result<Column, Fault>
    requires { length seconds.now ≡ length firsts.now }
    ensures ok { IfOk result (λ column. column ≡ record { kind = ColType.Int; values = pair_words firsts.now seconds.now }) }
    ensures firsts { (i : ℕ) → get_or firsts.now i 0 < 2 ^ 32 }
    ensures seconds { (i : ℕ) → get_or seconds.now i 0 < 2 ^ 32 }
    ensures out_of_memory { IsOkUnless result Fault.OutOfMemory }
{
    let mut column = Column::new(alloc, ColType::Int);
    for i in 0..firsts.len() {
        column.push_int(pair_word(firsts[i], seconds[i]))?;
    }
    Ok(column)
}
