//! The least and the greatest numbers of many groups.
ghost use Rattle.std.specs.Prelude.{◌≡◌, ◌<◌, ◌⊎◌, ◌↔◌, ◌≢◌, ℕ, [], ◌∷◌, ◌++◌, OnOk, OnErr, IsOkUnless, All, IsTrue, None, if◌then◌else◌, length, map};
ghost use Rattle.morsel_meaning.specs.Values.{IsOfType};
ghost use Rattle.morsel_keys.specs.declared.reduction.Reduction.{Reduction};
ghost use Rattle.morsel_frame.specs.Columns.{masked};
ghost use Rattle.morsel_keys.specs.Reductions.{bound_of, entry_len, finished, len_limit, reduced_kind};
ghost use Rattle.morsel_states.specs.GroupRows.{group_rows, with_value, PutsGroupRows};
ghost use Rattle.morsel_states.specs.Numbers.{number_or_null};
ghost use Rattle.morsel_states.specs.States.{with_groups};

use crate::flat::{LEN_LIMIT, number_or_null, too_long};
use crate::joins::Joins;
use morsel_keys::Reduction;
use morsel_meaning::{ColType, Fault, Value};
use std::marker::Model;

/// The number of values of a group and the least or the greatest of those that are no nulls, which contracts see as what an accumulator of
/// `Min` has; one of `Max` has the same.
#[derive(Drop)]
pub struct BoundState {
    len: u64,
    bound: Option<i64>,
}

impl Model for BoundState {
    ghost use Rattle.std.specs.Prelude.{◌≡◌, ◌≤◌, Option, None};
    ghost use Rattle.morsel_keys.specs.declared.kept.Kept.TheVariants as kepts;
    ghost use Rattle.morsel_keys.specs.Reductions.{Entry, len_limit};
    ghost use Rattle.morsel_keys.specs.Accs.{kept_if};
    ghost use Rattle.morsel_states.specs.Numbers.{number_or_null};

    ghost Value = { Option Entry };

    ghost view = { λ state. kept_if state.len (kepts.Min (number_or_null state.bound)) };

    ghost invariant = { λ state. (state.len ≤ len_limit) × (state.len ≡ 0 → state.bound ≡ None) };
}

impl BoundState {
    /// No values.
    pub fn new() -> BoundState
        ensures { result ≡ None }
    {
        BoundState {
            len: 0,
            bound: None,
        }
    }

    /// Whether the group has as many values as may be.
    #[inline(always)]
    pub fn is_full(&self) -> bool
        ensures { IsTrue result ↔ (entry_len self.now ≡ len_limit) }
    {
        self.len >= LEN_LIMIT
    }

    /// The least or the greatest, and null where there is none.
    pub fn finish(&self) -> Value
        ensures least { result ≡ finished Reduction.Min self.now }
        ensures greatest { result ≡ finished Reduction.Max self.now }
        ensures of_type { (op : Reduction) → (op ≡ Reduction.Min) ⊎ (op ≡ Reduction.Max) → IsOfType (reduced_kind op ColType.Int) result }
    {
        number_or_null(self.bound)
    }

    /// One value more: a number, or the null where it is not valid.
    #[inline(always)]
    pub fn add(&mut self, op: Reduction, valid: bool, number: i64)
        requires op { (op ≡ Reduction.Min) ⊎ (op ≡ Reduction.Max) }
        requires len { entry_len self.old ≢ len_limit }
        ensures { (at : ℕ) → self.new ≡ with_value op self.old (record { at = at; value = if valid then Value.Int number else Value.Null }) }
    {
        self.bound = bound_with(op, self.bound, valid, number);
        self.len += 1;
    }
}

impl Joins for BoundState {
    ghost use Rattle.std.specs.Prelude.{◌≡◌, ◌⊎◌};
    ghost use Rattle.morsel_keys.specs.declared.reduction.Reduction.TheVariants.{Min, Max};

    ghost entry = { λ state. state };

    ghost is_of = { λ op kind state. (op ≡ Min) ⊎ (op ≡ Max) };

    fn join(&mut self, op: Reduction, _kind: ColType, other: BoundState) -> Result<(), Fault> {
        if other.len > LEN_LIMIT - self.len {
            return Err(too_long());
        }
        let number = other.bound.unwrap_or(0);
        self.bound = bound_with(op, self.bound, other.bound.is_some(), number);
        self.len += other.len;
        Ok(())
    }
}

/// The least or the greatest with one value more: a number, or the null where it is not valid.
#[inline(always)]
fn bound_with(op: Reduction, bound: Option<i64>, valid: bool, number: i64) -> Option<i64>
    requires { (op ≡ Reduction.Min) ⊎ (op ≡ Reduction.Max) }
    ensures { number_or_null result ≡ bound_of op (number_or_null bound) (if valid then Value.Int number else Value.Null) }
{
    if valid && passes(op, bound, number) {
        Some(number)
    } else {
        bound
    }
}

/// Whether a number is less than the least, or greater than the greatest.
#[inline(always)]
fn passes(op: Reduction, bound: Option<i64>, number: i64) -> bool
    requires { (op ≡ Reduction.Min) ⊎ (op ≡ Reduction.Max) }
    ensures { bound_of op (number_or_null bound) (Value.Int number) ≡ (if result then Value.Int number else number_or_null bound) }
{
    match bound {
        Some(last) => {
            if op == Reduction::Min {
                number < last
            } else {
                last < number
            }
        }
        None => true,
    }
}

/// Puts rows to their groups. A row whose group has as many values as may be is refused, and those before it are put.
// Not inlined, so that its loop has the registers to itself.
#[inline(never)]
pub fn bound_each(
    op: Reduction,
    bounds: &mut [BoundState],
    groups: &[u32],
    valid: &[bool],
    numbers: &[i64],
) -> Result<(), Fault>
    requires op { (op ≡ Reduction.Min) ⊎ (op ≡ Reduction.Max) }
    requires within { All (λ group. group < length bounds.old) groups.now }
    requires valid { length valid.now ≡ length groups.now }
    requires numbers { length numbers.now ≡ length groups.now }
    ensures len { length bounds.new ≡ length bounds.old }
    ensures rows { (at : ℕ) → PutsGroupRows op bounds.old (group_rows at groups.now (masked valid.now (map Value.Int numbers.now))) bounds.new result }
{
    for i in 0..groups.len() {
        let group = groups[i] as usize;
        if bounds[group].is_full() {
            return Err(too_long());
        }
        bounds[group].add(op, valid[i], numbers[i]);
    }
    Ok(())
}

/// Puts groups last, each without values, up to so many.
pub fn grow_bounds(bounds: &mut Vec<BoundState>, groups: usize) -> Result<(), Fault>
    ensures ok { OnOk result (bounds.new.items ≡ with_groups groups bounds.old.items) }
    ensures err { OnErr result (bounds.new.items ≡ bounds.old.items) }
    ensures out_of_memory { IsOkUnless result Fault.OutOfMemory }
{
    let len = bounds.len();
    for at in len..groups {
        if let Err(fault) = put_blank(bounds) {
            bounds.truncate(len);
            return Err(fault);
        }
    }
    Ok(())
}

/// Puts a group without values last.
fn put_blank(bounds: &mut Vec<BoundState>) -> Result<(), Fault>
    ensures ok { OnOk result (bounds.new.items ≡ bounds.old.items ++ None ∷ []) }
    ensures err { OnErr result (bounds.new.items ≡ bounds.old.items) }
    ensures out_of_memory { IsOkUnless result Fault.OutOfMemory }
{
    bounds.push(BoundState::new())?;
    Ok(())
}
