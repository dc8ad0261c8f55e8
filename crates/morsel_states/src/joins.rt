//! What is kept for many groups, put to what is kept for others.
ghost use Rattle.std.specs.Prelude.{◌≡◌, ◌<◌, ◌+◌, length, map, OnOk, OnErr, IsOkUnless};
ghost use Rattle.std.specs.List.{All};
ghost use Rattle.morsel_frame.specs.Refusals.{Refuses};
ghost use Rattle.morsel_keys.specs.Groups.{both_parts};
ghost use Rattle.morsel_keys.specs.Reductions.{entry_len, len_fault, plus_entries};
ghost use Rattle.morsel_states.specs.GroupParts.{PutsGroupParts, AreWithinLimit};

use morsel_keys::{Acc, Reduction};
use morsel_meaning::{ColType, ComputeKind, Fault};

/// What a reduction has of some values of a group, to which what it has of others can be put.
pub trait Joins: Drop {
    ghost use Rattle.std.specs.Prelude.{◌≡◌, ◌+◌, Option, OnOk, OnErr, IsOkUnless};
    ghost use Rattle.morsel_meaning.specs.declared.value.ColType.{ColType};
    ghost use Rattle.morsel_keys.specs.declared.reduction.Reduction.{Reduction};
    ghost use Rattle.morsel_frame.specs.Refusals.{Refuses};
    ghost use Rattle.morsel_keys.specs.Groups.{both_parts};
    ghost use Rattle.morsel_keys.specs.Reductions.{Entry, entry_len, len_fault, plus_entries};

    /// What an accumulator has of the same values.
    ghost entry: { Self → Option Entry };

    /// Whether it is of this reduction, and of values of this type.
    ghost is_of: { Reduction → ColType → Self → Type 0 };

    /// The other's values too. A group of more than `i64::MAX` values is refused.
    fn join(&mut self, op: Reduction, kind: ColType, other: Self) -> Result<(), Fault>
        requires is_of { is_of op kind self.old }
        requires other { is_of op kind other }
        ensures is_of { is_of op kind self.new }
        ensures ok { OnOk result (entry self.new ≡ both_parts (plus_entries op) (entry self.old) (entry other)) }
        ensures refused { Refuses (len_fault (entry_len (entry self.old) + entry_len (entry other))) result }
        ensures too_long { IsOkUnless result (Fault.ComputeError ComputeKind.LenTooLarge 4294967295 0) }
        ensures err { OnErr result (self.new ≡ self.old) };
}

impl Joins for Acc {
    ghost use Rattle.std.specs.Prelude.{◌≡◌};

    ghost entry = { λ acc. acc.entry };

    ghost is_of = { λ op kind acc. (acc.op ≡ op) × (acc.kind ≡ kind) };

    fn join(&mut self, _op: Reduction, _kind: ColType, other: Acc) -> Result<(), Fault> {
        self.combine(other)
    }
}

/// Puts what others have to these groups, one after the other. One that is refused stops it, and those before it are put.
#[inline(never)]
pub fn join_each<S: Joins>(
    op: Reduction,
    kind: ColType,
    states: &mut [S],
    groups: &[u32],
    others: Vec<S>,
) -> Result<(), Fault>
    requires states { All (S.is_of op kind) states.old }
    requires others { All (S.is_of op kind) others.items }
    requires count { length groups.now ≡ length others.items }
    requires within { All (λ group. group < length states.old) groups.now }
    ensures states { All (S.is_of op kind) states.new }
    ensures len { length states.new ≡ length states.old }
    ensures parts { PutsGroupParts op (map S.entry states.old) groups.now (map S.entry others.items) (map S.entry states.new) result }
    ensures room { OnOk result (AreWithinLimit groups.now (map S.entry states.new)) }
    ensures too_long { IsOkUnless result (Fault.ComputeError ComputeKind.LenTooLarge 4294967295 0) }
{
    let mut at = 0;
    for other in others {
        match states[groups[at] as usize].join(op, kind, other) {
            Ok(()) => at += 1,
            Err(fault) => return Err(fault),
        }
    }
    Ok(())
}
