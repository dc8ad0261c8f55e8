//! Loads in the order of the input.
ghost use Rattle.std.specs.Prelude.{◌≡◌, IsPermutation, map, IfOk, OnOk, IsOkUnless};
ghost use Rattle.morsel_meaning.specs.declared.fault.Fault.TheVariants.{OutOfMemory};
ghost use Rattle.morsel_keys.specs.Reductions.{input_place};
ghost use Rattle.morsel_rows_job.specs.RowsJobs.{FollowCuts};
ghost use Rattle.morsel_group_units.specs.TakenLoads.{PlacesRise, greatest_place, taken_cut};
ghost use Rattle.morsel_group_units.specs.NextCuts.{IsCutAt};

use crate::taken_load::TakenLoad;
use morsel_meaning::Fault;

/// The loads by rising number.
///
/// It tests that they follow one another from place 0 of their lanes up to `to`, so that none is missing and none is there twice, whatever the
/// units were given. Where they do not, it answers that there is no memory.
pub fn following(loads: Vec<TakenLoad>, to: u64) -> Result<Vec<TakenLoad>, Fault>
    ensures same { IfOk result (λ ordered. IsPermutation loads.items ordered.items) }
    ensures follow { IfOk result (λ ordered. FollowCuts (map taken_cut ordered.items) to) }
    ensures out_of_memory { IsOkUnless result OutOfMemory }
{
    let ordered = by_number(loads)?;
    follow_up(&ordered, to)?;
    Ok(ordered)
}

/// Tests that the places of the rows in the input rise. Where they do not, it answers that there is no memory.
pub fn rise(loads: &[TakenLoad]) -> Result<(), Fault>
    ensures rise { OnOk result (PlacesRise 0 loads.now) }
    ensures out_of_memory { IsOkUnless result OutOfMemory }
{
    let mut at: u128 = 0;
    for load in loads {
        let place = first_place(load);
        if place < at {
            return Err(Fault::OutOfMemory);
        }
        let Some(end) = place.checked_add(load.count as u128) else {
            return Err(Fault::OutOfMemory);
        };
        at = end;
    }
    Ok(())
}

/// The place of the first row of a load in the input.
fn first_place(load: &TakenLoad) -> u128
    ensures { result ≡ input_place load.now.seq load.now.arrival }
{
    load.seq.to_u64() as u128 * (1 << 64) + load.arrival as u128
}

/// The place up to which the stretches of loads go.
pub fn greatest_end(loads: &[TakenLoad]) -> u64
    ensures { result ≡ greatest_place loads.now }
{
    let mut end: u64 = 0;
    for load in loads {
        end = end.max(load.stretch.to);
    }
    end
}

/// Loads by rising number.
fn by_number(mut loads: Vec<TakenLoad>) -> Result<Vec<TakenLoad>, Fault>
    ensures same { IfOk result (λ ordered. IsPermutation loads.items ordered.items) }
    ensures out_of_memory { IsOkUnless result OutOfMemory }
{
    loads.sort_by_key(|load| load.seq)?;
    Ok(loads)
}

/// Where the next load has to begin.
#[derive(Clone, Copy)]
pub struct NextCut {
    /// Where its stretch begins.
    pub from: u64,
    /// Where that ends, if some of its rows came before.
    pub to: Option<u64>,
    /// How many of its rows came before.
    pub skip: u64,
}

/// Tests that loads follow one another from place 0 up to `to`.
fn follow_up(loads: &[TakenLoad], to: u64) -> Result<(), Fault>
    ensures follow { OnOk result (FollowCuts (map taken_cut loads.now) to) }
    ensures out_of_memory { IsOkUnless result OutOfMemory }
{
    let mut next = NextCut {
        from: 0,
        to: None,
        skip: 0,
    };
    for load in loads {
        next = behind(next, load)?;
    }
    if next.to.is_some() || next.from != to {
        return Err(Fault::OutOfMemory);
    }
    Ok(())
}

/// Where the one behind a load has to begin, if that begins where it has to.
fn behind(next: NextCut, load: &TakenLoad) -> Result<NextCut, Fault>
    ensures goes_on { IfOk result (IsCutAt next load.now) }
    ensures out_of_memory { IsOkUnless result OutOfMemory }
{
    let stretch = load.stretch;
    if stretch.from != next.from || stretch.skip != next.skip {
        return Err(Fault::OutOfMemory);
    }
    if let Some(to) = next.to
        && to != stretch.to
    {
        return Err(Fault::OutOfMemory);
    }
    if stretch.last {
        return Ok(NextCut {
            from: stretch.to,
            to: None,
            skip: 0,
        });
    }
    let Some(skip) = stretch.skip.checked_add(load.count) else {
        return Err(Fault::OutOfMemory);
    };
    Ok(NextCut {
        from: stretch.from,
        to: Some(stretch.to),
        skip,
    })
}
