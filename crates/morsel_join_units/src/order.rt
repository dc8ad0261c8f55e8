//! Kept rows in the order of their loads.
ghost use Rattle.std.specs.Prelude.{◌≡◌, All, IsPermutation, List, map, IfOk, IsOkUnless};
ghost use Rattle.morsel_meaning.specs.declared.fault.Fault.TheVariants.{OutOfMemory};
ghost use Rattle.morsel_meaning.specs.declared.value.Field.{Field};
ghost use Rattle.morsel_join.specs.BuildSides.{rows_of_tables};
ghost use Rattle.morsel_join_units.specs.RowKeepers.{AreKeptOf, FollowUp};

use crate::row_keeper::KeptRows;
use morsel_frame::Frame;
use morsel_meaning::Fault;
use morsel_rows_job::RowsJob;
use std::alloc::Global;

/// The frames of rows that several keepers kept, in the order of their loads.
///
/// It tests that the stretches of the rows follow one another from place 0 up to `given`, so that none is missing and none is there twice,
/// whatever the keepers were given. Where they do not, it answers that there is no memory.
pub fn in_order<K, J: RowsJob<K>>(
    alloc: Global,
    kept: Vec<KeptRows>,
    given: u64,
) -> Result<Vec<Frame>, Fault>
    ensures gives { IfOk result (λ frames. (job : J) (columns : List Field) → J.gives_rows job columns → All (AreKeptOf J.suits job) kept.items → J.gives job 0 given (rows_of_tables frames.items)) }
    ensures columns { IfOk result (λ frames. (job : J) (columns : List Field) → J.gives_rows job columns → All (AreKeptOf J.suits job) kept.items → All (λ frame. frame.schema ≡ columns) frames.items) }
    ensures out_of_memory { IsOkUnless result OutOfMemory }
{
    let rows = by_number(kept)?;
    let frames = following(alloc, rows, given)?;
    Ok(frames)
}

/// Kept rows by rising number.
fn by_number(mut kept: Vec<KeptRows>) -> Result<Vec<KeptRows>, Fault>
    ensures same { IfOk result (λ rows. IsPermutation kept.items rows.items) }
    ensures out_of_memory { IsOkUnless result OutOfMemory }
{
    kept.sort_by_key(|rows| rows.seq)?;
    Ok(kept)
}

/// The frames of kept rows, where the stretches follow one another from place 0 up to `given`.
fn following(alloc: Global, kept: Vec<KeptRows>, given: u64) -> Result<Vec<Frame>, Fault>
    ensures follow { IfOk result (λ frames. FollowUp kept.items 0 given) }
    ensures frames { IfOk result (λ frames. frames.items ≡ map (λ rows. rows.frame) kept.items) }
    ensures out_of_memory { IsOkUnless result OutOfMemory }
{
    let mut frames = Vec::new(alloc);
    let mut at = 0;
    for rows in kept {
        if rows.stretch.from != at {
            return Err(Fault::OutOfMemory);
        }
        at = rows.stretch.to;
        frames.push(rows.frame)?;
    }
    if at != given {
        return Err(Fault::OutOfMemory);
    }
    Ok(frames)
}
