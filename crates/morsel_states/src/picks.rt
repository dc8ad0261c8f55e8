//! The first and the last numbers of many groups.
ghost use Rattle.std.specs.Prelude.{◌≡◌, ◌<◌, ◌≤◌, ◌+◌, ◌^◌, ◌⊎◌, ◌↔◌, ◌≢◌, ℕ, [], ◌∷◌, ◌++◌, OnOk, OnErr, IsOkUnless, All, IsTrue, None, if◌then◌else◌, length, map};
ghost use Rattle.morsel_meaning.specs.Values.{IsOfType};
ghost use Rattle.morsel_keys.specs.declared.reduction.Reduction.{Reduction};
ghost use Rattle.morsel_frame.specs.Columns.{masked};
ghost use Rattle.morsel_keys.specs.Reductions.{entry_len, finished, input_place, len_limit, picks_second, reduced_kind};
ghost use Rattle.morsel_states.specs.GroupRows.{group_rows, with_value, PutsGroupRows};
ghost use Rattle.morsel_states.specs.States.{with_groups};

use crate::flat::{LEN_LIMIT, number_or_null, too_long};
use crate::joins::Joins;
use morsel_keys::Reduction;
use morsel_meaning::{ColType, Fault, Value};
use std::marker::Model;

/// The number of values of a group and the first or the last of them with its place, which contracts see as what an accumulator of `First` has;
/// one of `Last` has the same.
#[derive(Drop)]
pub struct PickState {
    len: u64,
    place: (u64, u64),
    value: Option<i64>,
}

impl Model for PickState {
    ghost use Rattle.std.specs.Prelude.{◌≡◌, ◌≤◌, Option, None};
    ghost use Rattle.morsel_keys.specs.declared.kept.Kept.TheVariants as kepts;
    ghost use Rattle.morsel_keys.specs.Reductions.{Entry, len_limit};
    ghost use Rattle.morsel_keys.specs.Accs.{kept_if};
    ghost use Rattle.morsel_states.specs.Numbers.{number_or_null};

    ghost Value = { Option Entry };

    ghost view = { λ state. kept_if state.len (kepts.First state.place.0 state.place.1 (number_or_null state.value)) };

    ghost invariant = { λ state. (state.len ≤ len_limit) × (state.len ≡ 0 → state.value ≡ None) };
}

impl PickState {
    /// No values.
    pub fn new() -> PickState
        ensures { result ≡ None }
    {
        PickState {
            len: 0,
            place: (0, 0),
            value: None,
        }
    }

    /// Whether the group has as many values as may be.
    #[inline(always)]
    pub fn is_full(&self) -> bool
        ensures { IsTrue result ↔ (entry_len self.now ≡ len_limit) }
    {
        self.len >= LEN_LIMIT
    }

    /// The first or the last value, null or not, and null where there is none.
    pub fn finish(&self) -> Value
        ensures first { result ≡ finished Reduction.First self.now }
        ensures last { result ≡ finished Reduction.Last self.now }
        ensures of_type { (op : Reduction) → (op ≡ Reduction.First) ⊎ (op ≡ Reduction.Last) → IsOfType (reduced_kind op ColType.Int) result }
    {
        number_or_null(self.value)
    }

    /// One value more, with its place: a number, or the null where it is not valid.
    #[inline(always)]
    pub fn add(&mut self, op: Reduction, valid: bool, number: i64, place: (u64, u64))
        requires op { (op ≡ Reduction.First) ⊎ (op ≡ Reduction.Last) }
        requires len { entry_len self.old ≢ len_limit }
        ensures { self.new ≡ with_value op self.old (record { at = input_place place.0 place.1; value = if valid then Value.Int number else Value.Null }) }
    {
        if self.len == 0 || is_picked(op, place, self.place) {
            self.place = place;
            self.value = valid.then_some(number);
        }
        self.len += 1;
    }
}

impl Joins for PickState {
    ghost use Rattle.std.specs.Prelude.{◌≡◌, ◌⊎◌};
    ghost use Rattle.morsel_keys.specs.declared.reduction.Reduction.TheVariants.{First, Last};

    ghost entry = { λ state. state };

    ghost is_of = { λ op kind state. (op ≡ First) ⊎ (op ≡ Last) };

    fn join(&mut self, op: Reduction, _kind: ColType, other: PickState) -> Result<(), Fault> {
        if other.len > LEN_LIMIT - self.len {
            return Err(too_long());
        }
        if other.len == 0 {
            return Ok(());
        }
        if self.len == 0 || is_picked(op, other.place, self.place) {
            self.place = other.place;
            self.value = other.value;
        }
        self.len += other.len;
        Ok(())
    }
}

/// Whether the value of a place is picked, and not that of another.
#[inline(always)]
fn is_picked(op: Reduction, place: (u64, u64), other: (u64, u64)) -> bool
    requires { (op ≡ Reduction.First) ⊎ (op ≡ Reduction.Last) }
    ensures { result ≡ picks_second op (input_place other.0 other.1) (input_place place.0 place.1) }
{
    let is_earlier = place.0 < other.0 || place.0 == other.0 && place.1 < other.1;
    is_earlier == (op == Reduction::First)
}

/// Puts rows to their groups, of which the first has this place and each other one the next. A row whose group has as many values as may be
/// is refused, and those before it are put.
// Not inlined, so that its loop has the registers to itself.
#[inline(never)]
pub fn pick_each(
    op: Reduction,
    picks: &mut [PickState],
    groups: &[u32],
    valid: &[bool],
    numbers: &[i64],
    place: (u64, u64),
) -> Result<(), Fault>
    requires op { (op ≡ Reduction.First) ⊎ (op ≡ Reduction.Last) }
    requires within { All (λ group. group < length picks.old) groups.now }
    requires valid { length valid.now ≡ length groups.now }
    requires numbers { length numbers.now ≡ length groups.now }
    requires places { place.1 + length groups.now ≤ 2 ^ 64 }
    ensures len { length picks.new ≡ length picks.old }
    ensures rows { PutsGroupRows op picks.old (group_rows (input_place place.0 place.1) groups.now (masked valid.now (map Value.Int numbers.now))) picks.new result }
{
    for i in 0..groups.len() {
        let group = groups[i] as usize;
        if picks[group].is_full() {
            return Err(too_long());
        }
        picks[group].add(op, valid[i], numbers[i], (place.0, place.1 + i as u64));
    }
    Ok(())
}

/// Puts groups last, each without values, up to so many.
pub fn grow_picks(picks: &mut Vec<PickState>, groups: usize) -> Result<(), Fault>
    ensures ok { OnOk result (picks.new.items ≡ with_groups groups picks.old.items) }
    ensures err { OnErr result (picks.new.items ≡ picks.old.items) }
    ensures out_of_memory { IsOkUnless result Fault.OutOfMemory }
{
    let len = picks.len();
    for at in len..groups {
        if let Err(fault) = put_blank(picks) {
            picks.truncate(len);
            return Err(fault);
        }
    }
    Ok(())
}

/// Puts a group without values last.
fn put_blank(picks: &mut Vec<PickState>) -> Result<(), Fault>
    ensures ok { OnOk result (picks.new.items ≡ picks.old.items ++ None ∷ []) }
    ensures err { OnErr result (picks.new.items ≡ picks.old.items) }
    ensures out_of_memory { IsOkUnless result Fault.OutOfMemory }
{
    picks.push(PickState::new())?;
    Ok(())
}
