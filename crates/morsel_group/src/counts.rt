//! How many rows each group has.
ghost use Rattle.std.specs.Prelude.{◌≡◌, ◌<◌, ◌≤◌, ℕ, List, length, OnOk, IfErr};
ghost use Rattle.std.specs.List.{All};
ghost use Rattle.morsel_meaning.specs.declared.value.Value.{Value};
ghost use Rattle.morsel_states.specs.GroupParts.{with_group_parts, AreWithinLimit};
ghost use Rattle.morsel_states.specs.GroupRows.{group_rows, with_group_rows};
ghost use Rattle.morsel_states.specs.States.{with_groups};
ghost use Rattle.morsel_group.specs.Arrivals.{RefusesLens};

use morsel_keys::Reduction;
use morsel_meaning::Fault;
use morsel_states::States;

/// Counts rows of groups, of which there are so many. A row whose group has as many as may be is refused.
pub fn count_rows(counts: &mut States, numbers: &[u32], count: usize) -> Result<(), Fault>
    requires op { counts.old.op ≡ Reduction.Len }
    requires few { length counts.old.entries ≤ count }
    requires within { All (λ number. number < count) numbers.now }
    ensures op { counts.new.op ≡ counts.old.op }
    ensures kind { counts.new.kind ≡ counts.old.kind }
    ensures rows { (at : ℕ) (vs : List Value) → length vs ≡ length numbers.now → OnOk result (counts.new.entries ≡ with_group_rows Reduction.Len (with_groups count counts.old.entries) (group_rows at numbers.now vs)) }
    ensures room { OnOk result (AreWithinLimit numbers.now counts.new.entries) }
    ensures refused { (at : ℕ) (vs : List Value) → length vs ≡ length numbers.now → IfErr result (RefusesLens (with_group_rows Reduction.Len (with_groups count counts.old.entries) (group_rows at numbers.now vs))) }
{
    counts.grow(count)?;
    match counts.count(numbers) {
        Ok(()) => Ok(()),
        Err(fault) => Err(fault),
    }
}

/// Puts how many rows others have to these groups, of which there are so many. A group that would have more than may be is refused.
pub fn count_others(
    counts: &mut States,
    other: States,
    numbers: &[u32],
    count: usize,
) -> Result<(), Fault>
    requires op { counts.old.op ≡ Reduction.Len }
    requires other_op { other.op ≡ Reduction.Len }
    requires kind { other.kind ≡ counts.old.kind }
    requires few { length counts.old.entries ≤ count }
    requires len { length numbers.now ≡ length other.entries }
    requires within { All (λ number. number < count) numbers.now }
    ensures op { counts.new.op ≡ counts.old.op }
    ensures kind { counts.new.kind ≡ counts.old.kind }
    ensures rows { OnOk result (counts.new.entries ≡ with_group_parts Reduction.Len (with_groups count counts.old.entries) numbers.now other.entries) }
    ensures room { OnOk result (AreWithinLimit numbers.now counts.new.entries) }
    ensures refused { IfErr result (RefusesLens (with_group_parts Reduction.Len (with_groups count counts.old.entries) numbers.now other.entries)) }
{
    counts.grow(count)?;
    match counts.merge(numbers, other) {
        Ok(()) => Ok(()),
        Err(fault) => Err(fault),
    }
}
