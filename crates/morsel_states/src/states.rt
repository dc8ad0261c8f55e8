//! Accumulators of many groups.
ghost use Rattle.std.specs.Prelude.{◌≡◌, ℕ, List, ◌<◌, ◌≤◌, ◌+◌, ◌^◌, [], None, OnOk, OnErr, IfOk, IsOkUnless, All, get_or, length, map, set};
ghost use Rattle.morsel_keys.specs.Reductions.{finished, input_place, reduced_kind, total_fault};
ghost use Rattle.morsel_frame.specs.Columns.{masked};
ghost use Rattle.morsel_frame.specs.Refusals.{Refuses};
ghost use Rattle.morsel_meaning.specs.declared.value.Value.{Value};
ghost use Rattle.morsel_meaning.specs.Values.{IsOfType};
ghost use Rattle.morsel_states.specs.GroupParts.{PutsGroupParts, AreWithinLimit};
ghost use Rattle.morsel_states.specs.GroupRows.{group_rows, PutsGroupRows};
ghost use Rattle.morsel_states.specs.States.{with_groups, flat_entries, IsFlat};

use crate::accs::{finish_at, grow_accs, put_each};
use crate::bounds::{BoundState, bound_each, grow_bounds};
use crate::flat::Flat;
use crate::joins::join_each;
use crate::lens::{LenState, count_each, grow_lens};
use crate::picks::{PickState, grow_picks, pick_each};
use crate::sums::{SumState, add_each, grow_sums};
use morsel_frame::Column;
use morsel_keys::Reduction;
use morsel_meaning::{ColType, ComputeKind, Fault, Value};
use std::alloc::Global;
use std::marker::Model;
use std::mem;

/// What a reduction has of the values of each group. Groups are numbered from 0 on.
#[derive(Drop)]
pub struct States {
    alloc: Global,
    op: Reduction,
    kind: ColType,
    flat: Flat,
}

impl Model for States {
    ghost use Rattle.morsel_states.specs.States.{GroupStates, flat_entries, IsFlat};

    ghost Value = { GroupStates };

    ghost view = { λ states. record { op = states.op; kind = states.kind; entries = flat_entries states.flat } };

    ghost invariant = { λ states. IsFlat states.op states.kind states.flat };
}

impl States {
    /// No groups. A sum is of numbers.
    pub fn new(alloc: Global, op: Reduction, kind: ColType) -> States
        requires { op ≡ Reduction.Sum → kind ≡ ColType.Int }
        ensures { result ≡ record { op = op; kind = kind; entries = [] } }
    {
        States {
            alloc,
            op,
            kind,
            flat: blank_flat(alloc, op, kind),
        }
    }

    /// How many groups there are.
    pub fn len(&self) -> usize
        ensures { result ≡ length self.now.entries }
    {
        match &self.flat {
            Flat::Lens(lens) => lens.len(),
            Flat::Sums(sums) => sums.len(),
            Flat::Bounds(bounds) => bounds.len(),
            Flat::Picks(picks) => picks.len(),
            Flat::Others(accs) => accs.len(),
        }
    }

    /// Puts the rows of a piece to their groups, of which the first has this place and each other one the next. A row whose group has as many
    /// values as may be is refused, or one for which there is no memory, and those before it are put.
    pub fn update(
        &mut self,
        groups: &[u32],
        column: &Column,
        place: (u64, u64),
    ) -> Result<(), Fault>
        requires kind { column.now.kind ≡ self.old.kind }
        requires len { length groups.now ≡ length column.now.values }
        requires within { All (λ group. group < length self.old.entries) groups.now }
        requires places { place.1 + length groups.now ≤ 2 ^ 64 }
        ensures op { self.new.op ≡ self.old.op }
        ensures kind { self.new.kind ≡ self.old.kind }
        ensures len { length self.new.entries ≡ length self.old.entries }
        ensures rows { PutsGroupRows self.old.op self.old.entries (group_rows (input_place place.0 place.1) groups.now column.now.values) self.new.entries result }
    {
        match &mut self.flat {
            Flat::Lens(lens) => count_each(lens, groups),
            Flat::Sums(sums) => {
                let (valid, numbers) = numbers_of(column);
                add_each(sums, groups, valid, numbers)
            }
            Flat::Bounds(bounds) => {
                let (valid, numbers) = numbers_of(column);
                bound_each(self.op, bounds, groups, valid, numbers)
            }
            Flat::Picks(picks) => {
                let (valid, numbers) = numbers_of(column);
                pick_each(self.op, picks, groups, valid, numbers, place)
            }
            Flat::Others(accs) => put_each(self.op, accs, groups, column, place),
        }
    }

    /// Counts rows of groups, whatever their values are. A row whose group has as many as may be is refused, and those before it are counted. It
    /// takes no memory.
    pub fn count(&mut self, groups: &[u32]) -> Result<(), Fault>
        requires op { self.old.op ≡ Reduction.Len }
        requires within { All (λ group. group < length self.old.entries) groups.now }
        ensures op { self.new.op ≡ self.old.op }
        ensures kind { self.new.kind ≡ self.old.kind }
        ensures len { length self.new.entries ≡ length self.old.entries }
        ensures rows { (at : ℕ) (vs : List Value) → length vs ≡ length groups.now → PutsGroupRows self.old.op self.old.entries (group_rows at groups.now vs) self.new.entries result }
        ensures room { OnOk result (AreWithinLimit groups.now self.new.entries) }
        ensures too_long { IsOkUnless result (Fault.ComputeError ComputeKind.LenTooLarge 4294967295 0) }
    {
        match &mut self.flat {
            Flat::Lens(lens) => count_each(lens, groups),
            _ => unreachable!(),
        }
    }

    /// Puts what another has of its groups to these groups, one after the other. One that would have more values than may be is refused, and those
    /// before it are put. It takes no memory.
    pub fn merge(&mut self, groups: &[u32], other: States) -> Result<(), Fault>
        requires same_op { other.op ≡ self.old.op }
        requires same_kind { other.kind ≡ self.old.kind }
        requires count { length groups.now ≡ length other.entries }
        requires within { All (λ group. group < length self.old.entries) groups.now }
        ensures op { self.new.op ≡ self.old.op }
        ensures kind { self.new.kind ≡ self.old.kind }
        ensures len { length self.new.entries ≡ length self.old.entries }
        ensures parts { PutsGroupParts self.old.op self.old.entries groups.now other.entries self.new.entries result }
        ensures room { OnOk result (AreWithinLimit groups.now self.new.entries) }
        ensures too_long { IsOkUnless result (Fault.ComputeError ComputeKind.LenTooLarge 4294967295 0) }
    {
        let (op, kind) = (self.op, self.kind);
        match &mut self.flat {
            Flat::Lens(lens) => match other.flat {
                Flat::Lens(others) => join_each(op, kind, lens, groups, others),
                _ => unreachable!(),
            },
            Flat::Sums(sums) => match other.flat {
                Flat::Sums(others) => join_each(op, kind, sums, groups, others),
                _ => unreachable!(),
            },
            Flat::Bounds(bounds) => match other.flat {
                Flat::Bounds(others) => join_each(op, kind, bounds, groups, others),
                _ => unreachable!(),
            },
            Flat::Picks(picks) => match other.flat {
                Flat::Picks(others) => join_each(op, kind, picks, groups, others),
                _ => unreachable!(),
            },
            Flat::Others(accs) => match other.flat {
                Flat::Others(others) => join_each(op, kind, accs, groups, others),
                _ => unreachable!(),
            },
        }
    }

    /// Puts groups last, each without values, up to so many.
    pub fn grow(&mut self, groups: usize) -> Result<(), Fault>
        ensures ok { OnOk result (self.new ≡ record self.old { entries = with_groups groups self.old.entries }) }
        ensures err { OnErr result (self.new ≡ self.old) }
        ensures out_of_memory { IsOkUnless result Fault.OutOfMemory }
    {
        match &mut self.flat {
            Flat::Lens(lens) => grow_lens(lens, groups),
            Flat::Sums(sums) => grow_sums(sums, groups),
            Flat::Bounds(bounds) => grow_bounds(bounds, groups),
            Flat::Picks(picks) => grow_picks(picks, groups),
            Flat::Others(accs) => grow_accs(self.alloc, self.op, self.kind, accs, groups),
        }
    }

    /// What the reduction says of a group, which has no values then. A sum is refused where the whole total is outside 64 bits. It takes no
    /// memory.
    pub fn finish(&mut self, group: u32) -> Result<Value, Fault>
        requires { group < length self.old.entries }
        ensures taken { self.new ≡ record self.old { entries = set self.old.entries group None } }
        ensures ok { IfOk result (λ value. value ≡ finished self.old.op (get_or self.old.entries group None)) }
        ensures of_type { IfOk result (λ value. IsOfType (reduced_kind self.old.op self.old.kind) value) }
        ensures refused { Refuses (total_fault self.old.op (get_or self.old.entries group None)) result }
        ensures too_large { IsOkUnless result (Fault.ComputeError ComputeKind.SumTooLarge 4294967295 0) }
    {
        let group = group as usize;
        match &mut self.flat {
            Flat::Lens(lens) => {
                let state = mem::replace(&mut lens[group], LenState::new());
                Ok(state.finish())
            }
            Flat::Sums(sums) => {
                let state = mem::replace(&mut sums[group], SumState::new());
                state.finish()
            }
            Flat::Bounds(bounds) => {
                let state = mem::replace(&mut bounds[group], BoundState::new());
                Ok(state.finish())
            }
            Flat::Picks(picks) => {
                let state = mem::replace(&mut picks[group], PickState::new());
                Ok(state.finish())
            }
            Flat::Others(accs) => finish_at(self.alloc, self.op, self.kind, accs, group),
        }
    }
}

/// The numbers of a column of them, and which of them are no nulls.
fn numbers_of(column: &Column) -> (&[bool], &[i64])
    requires { column.now.kind ≡ ColType.Int }
    ensures values { column.now.values ≡ masked result.0.now (map Value.Int result.1.now) }
    ensures valid_len { length result.0.now ≡ length column.now.values }
    ensures len { length result.1.now ≡ length column.now.values }
{
    match column.ints() {
        Some(parts) => parts,
        None => unreachable!(),
    }
}

/// No groups, in the vector that this reduction of this type has.
fn blank_flat(alloc: Global, op: Reduction, kind: ColType) -> Flat
    requires { op ≡ Reduction.Sum → kind ≡ ColType.Int }
    ensures blank { flat_entries result ≡ [] }
    ensures flat { IsFlat op kind result }
{
    match (op, kind) {
        (Reduction::Len, _) => Flat::Lens(Vec::new(alloc)),
        (Reduction::Sum, _) => Flat::Sums(Vec::new(alloc)),
        (Reduction::Min | Reduction::Max, ColType::Int) => Flat::Bounds(Vec::new(alloc)),
        (Reduction::First | Reduction::Last, ColType::Int) => Flat::Picks(Vec::new(alloc)),
        _ => Flat::Others(Vec::new(alloc)),
    }
}
