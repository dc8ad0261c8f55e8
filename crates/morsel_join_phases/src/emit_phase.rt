//! A join once all rows of the other side were looked up.
ghost use Rattle.std.specs.Arc.{arc_value};
ghost use Rattle.morsel_join.specs.BuildSides.{IsBuild, kept_side};
ghost use Rattle.morsel_join.specs.Hits.{HaveHit};
ghost use Rattle.morsel_join_units.specs.LookedUps.{rows_looked_up};

use morsel_join::{Build, Hits};
use morsel_join_units::{LoneGiver, LookedUp};
use morsel_load::SourceToken;
use morsel_meaning::Fault;
use morsel_pipe::MorselSeq;
use morsel_rows_job::RowsJob;
use std::alloc::Global;
use std::marker::PhantomData;
use std::snapshot::Snapshot;
use std::sync::Arc;

/// What a join has once all rows of the other side were looked up.
#[derive(Drop)]
pub struct EmitPhase<K, J: RowsJob<K>> {
    pub build: Arc<Build, Global>,
    // Which kept rows were found.
    pub hits: Hits,
    // Up to which place of their lanes rows were kept, and up to which place of theirs they were looked up.
    pub kept_to: u64,
    pub asked_to: u64,
    // What was looked up, in its order.
    pub looked: Snapshot<Vec<LookedUp>>,
    // What the lanes are for whose rows are kept, and those whose rows are looked up.
    pub job: Snapshot<J>,
    pub asked_job: Snapshot<J>,
    pub lanes: PhantomData<K>,
    /// The rows are found by their keys.
    pub ghost built: { ∥ IsBuild (arc_value build) ∥₁ },
    /// They are those that the lanes' first places give.
    pub ghost gives: { ∥ J.gives job.value 0 kept_to (kept_side (arc_value build)).rows ∥₁ },
    /// What was looked up are the rows that the other lanes' first places give.
    pub ghost asked: { ∥ J.gives asked_job.value 0 asked_to (rows_looked_up looked.value.items) ∥₁ },
    /// The marks are those of these rows.
    pub ghost marked: { ∥ HaveHit (arc_value build) hits.seen.items (rows_looked_up looked.value.items) ∥₁ },
}

impl<K, J: RowsJob<K>> EmitPhase<K, J> {
    ghost use Rattle.std.specs.Prelude.{◌≡◌, ◌<◌, [], List, IfOk, IsOkUnless};
    ghost use Rattle.std.specs.Arc.{arc_value};
    ghost use Rattle.morsel_meaning.specs.declared.fault.Fault.TheVariants.{OutOfMemory};
    ghost use Rattle.morsel_meaning.specs.Values.{Row};
    ghost use Rattle.morsel_join.specs.BuildSides.{kept_side};
    ghost use Rattle.morsel_join.specs.Hits.{HaveHit};
    ghost use Rattle.morsel_join.specs.Sides.{rows_alone};
    ghost use Rattle.morsel_join_units.specs.LoneGivers.{DidGiveAlone, HasLeft, IsLoneGiver};
    ghost use Rattle.morsel_join_units.specs.LookedUps.{rows_looked_up};

    /// What gives the kept rows that are not marked, in loads of so many rows at most. They have the greatest number that a scan's
    /// loads may have, so they come behind all others.
    #[tactic(auto, using(crate::proofs::BuildFacts::is_build, crate::proofs::BuildFacts::have_hit))]
    pub fn giver(self, alloc: Global, rows: usize) -> Result<LoneGiver, Fault>
        requires some { 0 < rows }
        ensures build { IfOk result (λ giver. arc_value giver.lone.build ≡ arc_value self.build) }
        ensures giver { IfOk result IsLoneGiver }
        ensures left { IfOk result (λ giver. (asked : List Row) → HaveHit (arc_value self.build) self.hits.seen.items asked → HasLeft (rows_alone (kept_side (arc_value self.build)) asked) giver) }
        ensures left_of_looked { IfOk result (HasLeft (rows_alone (kept_side (arc_value self.build)) (rows_looked_up self.looked.value.items))) }
        ensures none { IfOk result (λ giver. DidGiveAlone giver []) }
        ensures last { IfOk result (λ giver. giver.cutter.seq ≡ 18446744073709551614) }
        ensures out_of_memory { IsOkUnless result OutOfMemory }
    {
        let EmitPhase { build, hits, .. } = self;
        let last = MorselSeq::new(u64::MAX / 2);
        LoneGiver::new(alloc, build, hits, rows, last, SourceToken::new(alloc)?)
    }
}
