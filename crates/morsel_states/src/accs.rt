//! Plain accumulators of many groups, for what has no flat form.
ghost use Rattle.std.specs.Prelude.{◌≡◌, ◌<◌, ◌≤◌, ◌+◌, ◌^◌, ◌++◌, ◌∷◌, [], All, None, OnOk, OnErr, IfOk, IsOkUnless, get_or, length, map, set};
ghost use Rattle.morsel_meaning.specs.Values.{IsOfType};
ghost use Rattle.morsel_frame.specs.Refusals.{Refuses};
ghost use Rattle.morsel_keys.specs.Reductions.{finished, input_place, reduced_kind, total_fault};
ghost use Rattle.morsel_states.specs.GroupRows.{group_rows, PutsGroupRows};
ghost use Rattle.morsel_states.specs.States.{AreAccs, with_groups};

use morsel_frame::Column;
use morsel_keys::{Acc, Reduction};
use morsel_meaning::{ColType, ComputeKind, Fault, Value};
use std::alloc::Global;
use std::mem;

/// Puts rows to their groups, of which the first has this place and each other one the next. A row whose group has as many values as may be
/// is refused, or one for which there is no memory, and those before it are put.
// Not inlined, so that its loop has the registers to itself.
#[inline(never)]
pub fn put_each(
    op: Reduction,
    accs: &mut [Acc],
    groups: &[u32],
    column: &Column,
    place: (u64, u64),
) -> Result<(), Fault>
    requires accs { AreAccs op column.now.kind accs.old }
    requires within { All (λ group. group < length accs.old) groups.now }
    requires len { length groups.now ≡ length column.now.values }
    requires places { place.1 + length groups.now ≤ 2 ^ 64 }
    ensures len { length accs.new ≡ length accs.old }
    ensures accs { AreAccs op column.now.kind accs.new }
    ensures rows { PutsGroupRows op (map (λ acc. acc.entry) accs.old) (group_rows (input_place place.0 place.1) groups.now column.now.values) (map (λ acc. acc.entry) accs.new) result }
{
    for i in 0..groups.len() {
        let arrival = place.1 + i as u64;
        match accs[groups[i] as usize].update(column.get(i), (place.0, arrival)) {
            Ok(()) => {}
            Err(fault) => return Err(fault),
        }
    }
    Ok(())
}

/// Puts groups last, each without values, up to so many.
pub fn grow_accs(
    alloc: Global,
    op: Reduction,
    kind: ColType,
    accs: &mut Vec<Acc>,
    groups: usize,
) -> Result<(), Fault>
    requires accs { AreAccs op kind accs.old.items }
    requires sum { op ≡ Reduction.Sum → kind ≡ ColType.Int }
    ensures accs { AreAccs op kind accs.new.items }
    ensures ok { OnOk result (map (λ acc. acc.entry) accs.new.items ≡ with_groups groups (map (λ acc. acc.entry) accs.old.items)) }
    ensures err { OnErr result (accs.new.items ≡ accs.old.items) }
    ensures out_of_memory { IsOkUnless result Fault.OutOfMemory }
{
    let len = accs.len();
    for at in len..groups {
        if let Err(fault) = put_blank(alloc, op, kind, accs) {
            accs.truncate(len);
            return Err(fault);
        }
    }
    Ok(())
}

/// Puts a group without values last.
fn put_blank(alloc: Global, op: Reduction, kind: ColType, accs: &mut Vec<Acc>) -> Result<(), Fault>
    requires { op ≡ Reduction.Sum → kind ≡ ColType.Int }
    ensures ok { OnOk result (accs.new.items ≡ accs.old.items ++ record { op = op; kind = kind; entry = None } ∷ []) }
    ensures err { OnErr result (accs.new.items ≡ accs.old.items) }
    ensures out_of_memory { IsOkUnless result Fault.OutOfMemory }
{
    accs.push(Acc::new(alloc, op, kind))?;
    Ok(())
}

/// What the reduction says of a group, which has no values then.
pub fn finish_at(
    alloc: Global,
    op: Reduction,
    kind: ColType,
    accs: &mut [Acc],
    group: usize,
) -> Result<Value, Fault>
    requires accs { AreAccs op kind accs.old }
    requires sum { op ≡ Reduction.Sum → kind ≡ ColType.Int }
    requires within { group < length accs.old }
    ensures accs { AreAccs op kind accs.new }
    ensures taken { map (λ acc. acc.entry) accs.new ≡ set (map (λ acc. acc.entry) accs.old) group None }
    ensures ok { IfOk result (λ value. value ≡ finished op (get_or (map (λ acc. acc.entry) accs.old) group None)) }
    ensures of_type { IfOk result (λ value. IsOfType (reduced_kind op kind) value) }
    ensures refused { Refuses (total_fault op (get_or (map (λ acc. acc.entry) accs.old) group None)) result }
    ensures too_large { IsOkUnless result (Fault.ComputeError ComputeKind.SumTooLarge 4294967295 0) }
{
    let blank = Acc::new(alloc, op, kind);
    let acc = mem::replace(&mut accs[group], blank);
    acc.finish()
}
