//! The kept rows of a join that none finds, taken into a group-by.
ghost use Rattle.std.specs.Prelude.{◌≡◌, ◌∷◌, ◌++◌, [], ℕ, List, Some, IfOk, IsOkUnless, OnOk, ◌<◌};
ghost use Rattle.morsel_meaning.specs.declared.fault.Fault.TheVariants.{OutOfMemory};
ghost use Rattle.morsel_join.specs.declared.build_side.Build.{Build};
ghost use Rattle.morsel_join.specs.BuildSides.{kept_side};
ghost use Rattle.morsel_probe_run.specs.ProbeRuns.{AreAllUpTo};
ghost use Rattle.morsel_scan_units.specs.LaneJobs.{LaneFor};
ghost use Rattle.morsel_join_plan.specs.JoinLanes.{HasAskedTo, rows_lane};
ghost use Rattle.morsel_group_units.specs.GroupAsks.{GroupRulesSeen};
ghost use Rattle.morsel_group_phases.specs.GroupPhases.{group_rules};
ghost use Rattle.morsel_group_plan.specs.GroupLanes.{TakesTo};
ghost use Rattle.morsel_group_plan.specs.JoinedLanes.{alone_lane};

use crate::scan::ScanGroup;
use morsel_end_units::{LoadKeeper, LoadsGiver, keep_given};
use morsel_group_phases::GroupPhase;
use morsel_group_units::GroupKeeper;
use morsel_join_plan::ScanJoin;
use morsel_join_units::LoneGiver;
use morsel_load::{Load, LoadJob};
use morsel_meaning::Fault;
use morsel_outside::Io;
use morsel_ports::ComputeNode;
use morsel_prims::{Lanes, Tokens};
use morsel_rows_job::RowsJob;
use morsel_scan_units::{AtHome, LaneJob};
use std::alloc::Global;

/// What takes the rows of a group-by, while it takes some: it has taken none.
fn new_keeper<K, J: RowsJob<K>>(
    alloc: Global,
    phase: &GroupPhase<K, J>,
) -> Result<GroupKeeper, Fault>
    ensures rules { IfOk result (λ keeper. group_rules phase.now ≡ Some keeper.rules) }
    ensures none { IfOk result (λ keeper. keeper.taken ≡ []) }
    ensures out_of_memory { IsOkUnless result OutOfMemory }
{
    let rules = phase.rules()?;
    let keeper = GroupKeeper::new(alloc, &rules)?;
    Ok(keeper)
}

/// Keeps all loads that a giver gives; answers what keeps them.
// Apart from the kinds of both, so that no proof of a caller lets go of what they have.
fn all_kept<T, J, G, P>(mut giver: G, mut keeper: P) -> Result<P, Fault>
where
    J: LoadJob<T>,
    G: LoadsGiver<T, J> + Drop,
    P: LoadKeeper<T, J> + Drop,
    requires for_job { (job : J) × G.gives_for giver job × P.keeps keeper job }
    ensures keeps { IfOk result (λ kept. (job : J) → G.gives_for giver job → P.keeps keeper job → P.keeps kept job) }
    ensures later { IfOk result (λ kept. P.is_later keeper kept) }
    ensures out_of_memory { IsOkUnless result OutOfMemory }
{
    let Ok(()) = keep_given::<T, J, G, P>(&mut giver, &mut keeper) else {
        return Err(Fault::OutOfMemory);
    };
    Ok(keeper)
}

/// Takes the kept rows of a join that no row of the other side found into a group-by, behind all rows that it took.
///
/// All rows of such lanes were looked up. The lane is of these kept rows; a load of them has so many rows at most.
pub fn take_lone_rows<L, K, H>(
    alloc: Global,
    join: &mut ScanJoin<L, K, H>,
    node: &mut ScanGroup<L, K, H>,
    alone: &LaneJob<K, H>,
    rows: usize,
) -> Result<(), Fault>
where
    L: Tokens + Lanes<Load<<L as Tokens>::Token, LaneJob<K, H>>>,
    <L as Tokens>::Token: AtHome + Drop,
    K: AtHome,
    H: Io,
    requires some { 0 < rows }
    requires lane { (build : Build) × (given : ℕ) × (asked : LaneFor) × HasAskedTo join.old.phase build asked given × (asked ≡ rows_lane asked.scan asked.reader asked.outside asked.tokens)
        × AreAllUpTo asked.scan asked.reader asked.outside given × (alone.now ≡ alone_lane (kept_side build) asked) × ((group : GroupRulesSeen) → group_rules node.old.phase ≡ Some group → group.columns ≡ build.rules.output) }
    ensures took { (group : GroupRulesSeen) (ends : List (LaneFor × ℕ)) → TakesTo node.old.phase group ends → OnOk result (TakesTo node.new.phase group (ends ++ (alone.now, 1) ∷ [])) }
    ensures pipelines { (⟦<ScanGroup<L, K, H> as ComputeNode<L, LaneJob<K, H>>>⟧.seen node.new).pipelines ≡ (⟦<ScanGroup<L, K, H> as ComputeNode<L, LaneJob<K, H>>>⟧.seen node.old).pipelines }
    ensures units { (⟦<ScanGroup<L, K, H> as ComputeNode<L, LaneJob<K, H>>>⟧.seen node.new).units ≡ (⟦<ScanGroup<L, K, H> as ComputeNode<L, LaneJob<K, H>>>⟧.seen node.old).units }
    ensures out_of_memory { IsOkUnless result OutOfMemory }
{
    node.take_from(alone)?;
    let empty = new_keeper(alloc, &node.phase)?;
    let giver = join.phase.take_giver(alloc, rows)?;
    let keeper = all_kept::<<L as Tokens>::Token, LaneJob<K, H>, LoneGiver, GroupKeeper>(
        giver, empty,
    )?;
    node.phase.keep(Some(keeper));
    let Some(to) = node.taken_to() else {
        return Err(Fault::OutOfMemory);
    };
    // There is one place, of which at least one load came.
    if to != 1 {
        return Err(Fault::OutOfMemory);
    }
    Ok(())
}
