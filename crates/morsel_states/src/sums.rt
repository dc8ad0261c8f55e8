//! Totals of many groups.
ghost use Rattle.std.specs.Prelude.{◌≡◌, ◌<◌, ◌≤◌, ◌+◌, ◌+ℤ◌, ◌↔◌, ◌≢◌, ℕ, [], ◌∷◌, ◌++◌, OnOk, OnErr, IfOk, IsOkUnless, All, IsTrue, None, if◌then◌else◌, length, map};
ghost use Rattle.morsel_meaning.specs.declared.value.Value.{Value};
ghost use Rattle.morsel_meaning.specs.Values.{IsOfType};
ghost use Rattle.morsel_frame.specs.Columns.{masked};
ghost use Rattle.morsel_keys.specs.Reductions.{addend, entry_len, finished, len_limit, total_fault};
ghost use Rattle.morsel_frame.specs.Refusals.{Refuses};
ghost use Rattle.morsel_keys.specs.Accs.{IsTotalOf};
ghost use Rattle.morsel_states.specs.GroupRows.{group_rows, with_value, PutsGroupRows};
ghost use Rattle.morsel_states.specs.States.{with_groups};

use crate::flat::{LEN_LIMIT, too_long};
use crate::joins::Joins;
use morsel_keys::Reduction;
use morsel_meaning::{ColType, ComputeKind, Fault, QUERY_FILE, Value};
use std::marker::Model;

/// The number of values of a group and their total, which contracts see as what an accumulator of `Sum` has. So many numbers of 64 bits as
/// are counted do not pass 128.
#[derive(Drop)]
pub struct SumState {
    len: u64,
    total: i128,
}

impl Model for SumState {
    ghost use Rattle.std.specs.Prelude.{◌≤◌, Option};
    ghost use Rattle.morsel_keys.specs.declared.kept.Kept.TheVariants as kepts;
    ghost use Rattle.morsel_keys.specs.Reductions.{Entry, len_limit};
    ghost use Rattle.morsel_keys.specs.Accs.{kept_if, IsTotalOf};

    ghost Value = { Option Entry };

    ghost view = { λ state. kept_if state.len (kepts.Sum state.total) };

    ghost invariant = { λ state. (state.len ≤ len_limit) × IsTotalOf state.len state.total };
}

impl SumState {
    /// No values.
    pub fn new() -> SumState
        ensures { result ≡ None }
    {
        SumState { len: 0, total: 0 }
    }

    /// Whether the group has as many values as may be.
    #[inline(always)]
    pub fn is_full(&self) -> bool
        ensures { IsTrue result ↔ (entry_len self.now ≡ len_limit) }
    {
        self.len >= LEN_LIMIT
    }

    /// The total. It is refused where it is outside 64 bits.
    pub fn finish(&self) -> Result<Value, Fault>
        ensures ok { IfOk result (λ value. value ≡ finished Reduction.Sum self.now) }
        ensures of_type { IfOk result (λ value. IsOfType ColType.Int value) }
        ensures refused { Refuses (total_fault Reduction.Sum self.now) result }
        ensures too_large { IsOkUnless result (Fault.ComputeError ComputeKind.SumTooLarge 4294967295 0) }
    {
        match i64::try_from(self.total) {
            Ok(number) => Ok(Value::Int(number)),
            Err(_) => Err(Fault::ComputeError {
                kind: ComputeKind::SumTooLarge,
                file: QUERY_FILE,
                at: 0,
            }),
        }
    }

    /// One value more: a number, or the null where it is not valid.
    #[inline(always)]
    pub fn add(&mut self, valid: bool, number: i64)
        requires { entry_len self.old ≢ len_limit }
        ensures { (at : ℕ) → self.new ≡ with_value Reduction.Sum self.old (record { at = at; value = if valid then Value.Int number else Value.Null }) }
    {
        self.total = total_with(self.total, self.len, added(valid, number));
        self.len += 1;
    }
}

impl Joins for SumState {
    ghost use Rattle.std.specs.Prelude.{◌≡◌};
    ghost use Rattle.morsel_keys.specs.declared.reduction.Reduction.TheVariants.{Sum};

    ghost entry = { λ state. state };

    ghost is_of = { λ op kind state. op ≡ Sum };

    fn join(&mut self, _op: Reduction, _kind: ColType, other: SumState) -> Result<(), Fault> {
        if other.len > LEN_LIMIT - self.len {
            return Err(too_long());
        }
        self.len += other.len;
        self.total += other.total;
        Ok(())
    }
}

/// What a number adds, or the null where it is not valid.
#[inline(always)]
fn added(valid: bool, number: i64) -> i64
    ensures { result ≡ addend (if valid then Value.Int number else Value.Null) }
{
    if valid { number } else { 0 }
}

/// The total of so many numbers, with one more.
#[inline(always)]
fn total_with(total: i128, len: u64, number: i64) -> i128
    requires total { IsTotalOf len total }
    requires len { len ≤ len_limit }
    ensures total { IsTotalOf (len + 1) result }
    ensures value { result ≡ total +ℤ number }
{
    total + i128::from(number)
}

/// Puts rows to their groups. A row whose group has as many values as may be is refused, and those before it are added.
// Not inlined, so that its loop has the registers to itself.
#[inline(never)]
pub fn add_each(
    sums: &mut [SumState],
    groups: &[u32],
    valid: &[bool],
    numbers: &[i64],
) -> Result<(), Fault>
    requires within { All (λ group. group < length sums.old) groups.now }
    requires valid { length valid.now ≡ length groups.now }
    requires numbers { length numbers.now ≡ length groups.now }
    ensures len { length sums.new ≡ length sums.old }
    ensures rows { (at : ℕ) → PutsGroupRows Reduction.Sum sums.old (group_rows at groups.now (masked valid.now (map Value.Int numbers.now))) sums.new result }
{
    for i in 0..groups.len() {
        let group = groups[i] as usize;
        if sums[group].is_full() {
            return Err(too_long());
        }
        sums[group].add(valid[i], numbers[i]);
    }
    Ok(())
}

/// Puts groups last, each without values, up to so many.
pub fn grow_sums(sums: &mut Vec<SumState>, groups: usize) -> Result<(), Fault>
    ensures ok { OnOk result (sums.new.items ≡ with_groups groups sums.old.items) }
    ensures err { OnErr result (sums.new.items ≡ sums.old.items) }
    ensures out_of_memory { IsOkUnless result Fault.OutOfMemory }
{
    let len = sums.len();
    for at in len..groups {
        if let Err(fault) = put_blank(sums) {
            sums.truncate(len);
            return Err(fault);
        }
    }
    Ok(())
}

/// Puts a group without values last.
fn put_blank(sums: &mut Vec<SumState>) -> Result<(), Fault>
    ensures ok { OnOk result (sums.new.items ≡ sums.old.items ++ None ∷ []) }
    ensures err { OnErr result (sums.new.items ≡ sums.old.items) }
    ensures out_of_memory { IsOkUnless result Fault.OutOfMemory }
{
    sums.push(SumState::new())?;
    Ok(())
}
