//! Which rows were looked up on the kept side of a join.
ghost use Rattle.std.specs.Prelude.{◌≡◌, All, Bool, IsPermutation, List, map, IfOk, OnOk, IsOkUnless};
ghost use Rattle.morsel_meaning.specs.declared.fault.Fault.TheVariants.{OutOfMemory};
ghost use Rattle.morsel_meaning.specs.declared.value.Field.{Field};
ghost use Rattle.morsel_join.specs.declared.build_side.Build.{Build};
ghost use Rattle.morsel_join.specs.Hits.{HaveHit};
ghost use Rattle.morsel_join_units.specs.LookedUps.{AreLookedUpOf, looked_rows, rows_looked_up};
ghost use Rattle.morsel_join_units.specs.RowKeepers.{FollowUp};

use morsel_frame::Frame;
use morsel_load::Stretch;
use morsel_meaning::Fault;
use morsel_pipe::MorselSeq;
use morsel_rows_job::RowsJob;
use std::snapshot::Snapshot;

/// A load whose rows were looked up: its number and its stretch. Contracts alone see the rows.
#[derive(Drop)]
pub struct LookedUp {
    /// The number.
    pub seq: MorselSeq,
    /// The stretch.
    pub stretch: Stretch,
    /// The rows.
    pub frame: Snapshot<Frame>,
}

/// What several makers looked up, in the order of its loads, as contracts see it.
///
/// It tests that the stretches of the loads follow one another from place 0 up to `given`, so that none is missing and none is there twice,
/// whatever the makers were given. Where they do not, it answers that there is no memory.
pub fn looked_in_order<K, J: RowsJob<K>>(
    looked: Vec<LookedUp>,
    given: u64,
) -> Result<Snapshot<Vec<LookedUp>>, Fault>
    ensures gives { IfOk result (λ ordered. (job : J) (columns : List Field) → J.gives_rows job columns → All (AreLookedUpOf J.suits job) looked.items → J.gives job 0 given (rows_looked_up ordered.value.items)) }
    ensures hit { IfOk result (λ ordered. (build : Build) (marks : List Bool) → HaveHit build marks (rows_looked_up looked.items) → HaveHit build marks (rows_looked_up ordered.value.items)) }
    ensures out_of_memory { IsOkUnless result OutOfMemory }
{
    let loads = by_number(looked)?;
    let ordered = Snapshot::of(&loads);
    follow_up(loads, given)?;
    Ok(ordered)
}

/// What was looked up by rising number.
fn by_number(mut looked: Vec<LookedUp>) -> Result<Vec<LookedUp>, Fault>
    ensures same { IfOk result (λ loads. IsPermutation looked.items loads.items) }
    ensures out_of_memory { IsOkUnless result OutOfMemory }
{
    looked.sort_by_key(|one| one.seq)?;
    Ok(looked)
}

/// Tests that the stretches follow one another from place 0 up to `given`.
fn follow_up(looked: Vec<LookedUp>, given: u64) -> Result<(), Fault>
    ensures follow { OnOk result (FollowUp (map looked_rows looked.items) 0 given) }
    ensures out_of_memory { IsOkUnless result OutOfMemory }
{
    let mut at = 0;
    for one in looked {
        if one.stretch.from != at {
            return Err(Fault::OutOfMemory);
        }
        at = one.stretch.to;
    }
    if at != given {
        return Err(Fault::OutOfMemory);
    }
    Ok(())
}
