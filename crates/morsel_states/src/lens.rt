//! Counts of many groups.
ghost use Rattle.std.specs.Prelude.{◌≡◌, ◌<◌, ◌↔◌, ◌≢◌, ◌≤◌, ℕ, List, [], ◌∷◌, ◌++◌, All, IsTrue, None, OnOk, OnErr, IsOkUnless, length};
ghost use Rattle.morsel_meaning.specs.declared.value.Value.{Value};
ghost use Rattle.morsel_meaning.specs.Values.{IsOfType};
ghost use Rattle.morsel_keys.specs.Reductions.{ValueAt, entry_len, finished, len_limit};
ghost use Rattle.morsel_states.specs.GroupParts.{AreWithinLimit};
ghost use Rattle.morsel_states.specs.GroupRows.{group_rows, with_value, PutsGroupRows};
ghost use Rattle.morsel_states.specs.States.{with_groups};

use crate::flat::{LEN_LIMIT, too_long};
use crate::joins::Joins;
use morsel_keys::Reduction;
use morsel_meaning::{ColType, ComputeKind, Fault, Value};
use std::marker::Model;

/// How many values a group has, which contracts see as what an accumulator of `Len` has.
#[derive(Drop)]
pub struct LenState {
    len: u64,
}

impl Model for LenState {
    ghost use Rattle.std.specs.Prelude.{◌≤◌, Option};
    ghost use Rattle.morsel_keys.specs.declared.kept.Kept.TheVariants as kepts;
    ghost use Rattle.morsel_keys.specs.Reductions.{Entry, len_limit};
    ghost use Rattle.morsel_keys.specs.Accs.{kept_if};

    ghost Value = { Option Entry };

    ghost view = { λ state. kept_if state.len kepts.Len };

    ghost invariant = { λ state. state.len ≤ len_limit };
}

impl LenState {
    /// No values.
    pub fn new() -> LenState
        ensures { result ≡ None }
    {
        LenState { len: 0 }
    }

    /// Whether the group has as many values as may be.
    #[inline(always)]
    pub fn is_full(&self) -> bool
        ensures full { IsTrue result ↔ (entry_len self.now ≡ len_limit) }
        ensures within { entry_len self.now ≤ len_limit }
    {
        self.len >= LEN_LIMIT
    }

    /// How many values there are.
    pub fn finish(&self) -> Value
        ensures value { result ≡ finished Reduction.Len self.now }
        ensures of_type { IsOfType ColType.Int result }
    {
        Value::Int(self.len as i64)
    }

    /// One value more.
    #[inline(always)]
    pub fn add(&mut self)
        requires { entry_len self.old ≢ len_limit }
        ensures { (v : ValueAt) → self.new ≡ with_value Reduction.Len self.old v }
    {
        self.len += 1;
    }
}

impl Joins for LenState {
    ghost use Rattle.std.specs.Prelude.{◌≡◌};
    ghost use Rattle.morsel_keys.specs.declared.reduction.Reduction.TheVariants.{Len};

    ghost entry = { λ state. state };

    ghost is_of = { λ op kind state. op ≡ Len };

    fn join(&mut self, _op: Reduction, _kind: ColType, other: LenState) -> Result<(), Fault> {
        if other.len > LEN_LIMIT - self.len {
            return Err(too_long());
        }
        self.len += other.len;
        Ok(())
    }
}

/// Puts rows to their groups. A row whose group has as many values as may be is refused, and those before it are counted.
// Not inlined, so that its loop has the registers to itself.
#[inline(never)]
pub fn count_each(lens: &mut [LenState], groups: &[u32]) -> Result<(), Fault>
    requires { All (λ group. group < length lens.old) groups.now }
    ensures len { length lens.new ≡ length lens.old }
    ensures rows { (at : ℕ) (vs : List Value) → length vs ≡ length groups.now → PutsGroupRows Reduction.Len lens.old (group_rows at groups.now vs) lens.new result }
    ensures room { OnOk result (AreWithinLimit groups.now lens.new) }
    ensures too_long { IsOkUnless result (Fault.ComputeError ComputeKind.LenTooLarge 4294967295 0) }
{
    for i in 0..groups.len() {
        let group = groups[i] as usize;
        if lens[group].is_full() {
            return Err(too_long());
        }
        lens[group].add();
    }
    Ok(())
}

/// Puts groups last, each without values, up to so many.
pub fn grow_lens(lens: &mut Vec<LenState>, groups: usize) -> Result<(), Fault>
    ensures ok { OnOk result (lens.new.items ≡ with_groups groups lens.old.items) }
    ensures err { OnErr result (lens.new.items ≡ lens.old.items) }
    ensures out_of_memory { IsOkUnless result Fault.OutOfMemory }
{
    let len = lens.len();
    for at in len..groups {
        if let Err(fault) = put_blank(lens) {
            lens.truncate(len);
            return Err(fault);
        }
    }
    Ok(())
}

/// Puts a group without values last.
fn put_blank(lens: &mut Vec<LenState>) -> Result<(), Fault>
    ensures ok { OnOk result (lens.new.items ≡ lens.old.items ++ None ∷ []) }
    ensures err { OnErr result (lens.new.items ≡ lens.old.items) }
    ensures out_of_memory { IsOkUnless result Fault.OutOfMemory }
{
    lens.push(LenState::new())?;
    Ok(())
}
