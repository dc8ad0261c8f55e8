//! A join once the rows of one side are kept by their keys.
ghost use Rattle.std.specs.Prelude.{All};
ghost use Rattle.std.specs.Arc.{arc_value};
ghost use Rattle.morsel_join.specs.BuildSides.{IsBuild, kept_side};
ghost use Rattle.morsel_join.specs.Hits.{HaveHit};
ghost use Rattle.morsel_join_units.specs.LookedUps.{AreLookedUpOf, rows_looked_up};

use crate::emit_phase::EmitPhase;
use morsel_join::{Build, Hits};
use morsel_join_units::{LookedUp, ProbeMaker, looked_in_order};
use morsel_meaning::Fault;
use morsel_rows_job::RowsJob;
use std::alloc::Global;
use std::marker::PhantomData;
use std::snapshot::Snapshot;
use std::sync::Arc;

/// What a join has once the rows of one side are kept by their keys.
#[derive(Drop)]
pub struct ProbePhase<K, J: RowsJob<K>> {
    pub build: Arc<Build, Global>,
    // Which kept rows the units found that were given back, and of which loads the rows found them.
    pub hits: Hits,
    pub looked: Vec<LookedUp>,
    // Whether a unit's loads were lost, since memory was out.
    pub lost: bool,
    // Up to which place of their lanes rows were kept.
    pub kept_to: u64,
    // What the lanes are for whose rows are kept, and those whose rows are looked up.
    pub job: Snapshot<J>,
    pub asked_job: Snapshot<J>,
    pub lanes: PhantomData<K>,
    /// The rows are found by their keys.
    pub ghost built: { ∥ IsBuild (arc_value build) ∥₁ },
    /// They are those that the lanes' first places give.
    pub ghost gives: { ∥ J.gives job.value 0 kept_to (kept_side (arc_value build)).rows ∥₁ },
    /// The other lanes give rows of the columns that are looked up.
    pub ghost asks: { ∥ J.gives_rows asked_job.value (arc_value build).asked ∥₁ },
    /// The loads are of those lanes.
    pub ghost looked_of: { ∥ All (AreLookedUpOf J.suits asked_job.value) looked.items ∥₁ },
    /// The marks are those of their rows.
    pub ghost marked: { ∥ HaveHit (arc_value build) hits.seen.items (rows_looked_up looked.items) ∥₁ },
}

impl<K, J: RowsJob<K>> ProbePhase<K, J> {
    ghost use Rattle.std.specs.Prelude.{◌≡◌, ◌++◌, All, IfOk, IsOkUnless, OnErr, OnOk, false};
    ghost use Rattle.std.specs.Arc.{arc_value};
    ghost use Rattle.morsel_meaning.specs.declared.fault.Fault.TheVariants.{OutOfMemory};
    ghost use Rattle.morsel_join.specs.BuildSides.{IsBuild};
    ghost use Rattle.morsel_join.specs.Hits.{HaveHit};
    ghost use Rattle.morsel_join_units.specs.LookedUps.{AreLookedUpOf, rows_looked_up};

    /// The rows by their keys, once more.
    #[tactic(auto, using(crate::proofs::BuildFacts::is_build))]
    pub fn build(&self) -> Result<Arc<Build, Global>, Fault>
        ensures same { IfOk result (λ build. arc_value build ≡ arc_value self.now.build) }
        ensures built { IfOk result (λ build. IsBuild (arc_value build)) }
        ensures out_of_memory { IsOkUnless result OutOfMemory }
    {
        let build = self.build.clone()?;
        Ok(build)
    }

    /// From now on the rows that are looked up are those of lanes for this job. It answers that there is no memory where some were looked
    /// up already.
    pub fn look_up_in(&mut self, job: &J) -> Result<(), Fault>
        requires rows { J.gives_rows job.now (arc_value self.old.build).asked }
        ensures same { (self.new.build ≡ self.old.build) × (self.new.hits ≡ self.old.hits) × (self.new.kept_to ≡ self.old.kept_to) × (self.new.job ≡ self.old.job) }
        ensures asked_job { OnOk result (self.new.asked_job.value ≡ job.now) }
        ensures err { OnErr result (self.new ≡ self.old) }
        ensures out_of_memory { IsOkUnless result OutOfMemory }
    {
        if !self.looked.is_empty() {
            return Err(Fault::OutOfMemory);
        }
        self.asked_job = Snapshot::of(job);
        Ok(())
    }

    /// Marks the kept rows that a unit's rows found. Where memory is out, that is told later.
    pub fn mark(&mut self, maker: ProbeMaker)
        requires looked_of { All (AreLookedUpOf J.suits self.old.asked_job.value) maker.looked.items }
        requires hit { HaveHit (arc_value self.old.build) maker.hits.seen.items (rows_looked_up maker.looked.items) }
        ensures same { (self.new.build ≡ self.old.build) × (self.new.kept_to ≡ self.old.kept_to) × (self.new.job ≡ self.old.job) × (self.new.asked_job ≡ self.old.asked_job) }
        ensures looked { self.new.lost ≡ false → self.new.looked.items ≡ self.old.looked.items ++ maker.looked.items }
    {
        let ProbeMaker {
            hits,
            mut looked,
            ..
        } = maker;
        match self.looked.append(&mut looked) {
            Ok(()) => self.hits.join(&hits),
            Err(_) => self.lost = true,
        }
    }

    /// The same, once all rows were looked up. They are those of the first places of their lanes: it tests that none is missing and none
    /// is there twice. Where that is not so, it answers that there is no memory.
    pub fn asked(self) -> Result<EmitPhase<K, J>, Fault>
        ensures build { IfOk result (λ emit. (emit.build ≡ self.build) × (emit.hits ≡ self.hits)) }
        ensures same { IfOk result (λ emit. (emit.kept_to ≡ self.kept_to) × (emit.job ≡ self.job) × (emit.asked_job ≡ self.asked_job)) }
        ensures out_of_memory { IsOkUnless result OutOfMemory }
    {
        if self.lost {
            return Err(Fault::OutOfMemory);
        }
        let ProbePhase {
            build,
            hits,
            looked,
            kept_to,
            job,
            asked_job,
            ..
        } = self;
        let asked_to = greatest_end(&looked);
        let ordered = looked_in_order::<K, J>(looked, asked_to)?;
        Ok(EmitPhase {
            build,
            hits,
            kept_to,
            asked_to,
            looked: ordered,
            job,
            asked_job,
            lanes: PhantomData,
        })
    }
}

/// The place up to which the stretches of what was looked up go.
fn greatest_end(looked: &[LookedUp]) -> u64 {
    let mut end = 0;
    for rows in looked {
        end = end.max(rows.stretch.to);
    }
    end
}
