//! The rows of several pipes by number.
ghost use Rattle.std.specs.Prelude.{◌≡◌, All, None, IfOk, IsOkUnless, map};
ghost use Rattle.std.specs.List.{flat_map};
ghost use Rattle.morsel_meaning.specs.declared.fault.Fault.TheVariants.{OutOfMemory};
ghost use Rattle.morsel_load.specs.Linearized.{AreLinearized};

use crate::morsels::Morsel;
use morsel_frame::Frame;
use morsel_meaning::Fault;
use std::alloc::Global;

/// The rows of all pipes by number; of equal numbers, those of an earlier pipe first, and each pipe's in its order.
///
/// A consume token would be dropped, and stay counted; so none may be set.
pub fn linearize<K: Drop, J>(
    alloc: Global,
    pipes: Vec<Vec<Morsel<K, J>>>,
) -> Result<Vec<Frame>, Fault>
    requires unset { All (λ pipe. All (λ morsel. morsel.consume_token ≡ None) pipe.items) pipes.items }
    ensures linearized { IfOk result (λ frames. AreLinearized (flat_map (λ pipe. pipe.items) pipes.items) frames.items) }
    ensures out_of_memory { IsOkUnless result OutOfMemory }
{
    let mut morsels = all_of(alloc, pipes)?;
    // Stable, so equal numbers stay in the order of their pipe.
    morsels.sort_by_key(|morsel| morsel.seq().to_u64())?;
    frames_of(alloc, morsels)
}

/// The morsels of all pipes, one pipe after the other.
fn all_of<K: Drop, J>(
    alloc: Global,
    pipes: Vec<Vec<Morsel<K, J>>>,
) -> Result<Vec<Morsel<K, J>>, Fault>
    ensures all { IfOk result (λ morsels. morsels.items ≡ flat_map (λ pipe. pipe.items) pipes.items) }
    ensures out_of_memory { IsOkUnless result OutOfMemory }
{
    let mut morsels = Vec::new(alloc);
    for mut pipe in pipes {
        morsels.append(&mut pipe)?;
    }
    Ok(morsels)
}

/// The rows of the morsels, in their order.
fn frames_of<K: Drop, J>(alloc: Global, morsels: Vec<Morsel<K, J>>) -> Result<Vec<Frame>, Fault>
    ensures frames { IfOk result (λ frames. frames.items ≡ map (λ morsel. morsel.frame) morsels.items) }
    ensures out_of_memory { IsOkUnless result OutOfMemory }
{
    let mut frames = Vec::with_capacity(alloc, morsels.len())?;
    for morsel in morsels {
        frames.push(morsel.into_df())?;
    }
    Ok(frames)
}
