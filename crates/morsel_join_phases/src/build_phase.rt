//! A join while it keeps the rows of one side.
ghost use Rattle.std.specs.Prelude.{All};
ghost use Rattle.morsel_join.specs.Rows.{keeps_left};
ghost use Rattle.morsel_join.specs.Sides.{FitSides};
ghost use Rattle.morsel_join_units.specs.RowKeepers.{AreKeptOf};

use crate::probe_phase::ProbePhase;
use morsel_frame::Schema;
use morsel_join::{Build, Hits, JoinRules};
use morsel_join_units::{KeptRows, RowKeeper, in_order};
use morsel_meaning::Fault;
use morsel_rows_job::RowsJob;
use std::alloc::Global;
use std::marker::PhantomData;
use std::snapshot::Snapshot;
use std::sync::Arc;

/// What a join has while it keeps the rows of one side.
#[derive(Drop)]
pub struct BuildPhase<K, J: RowsJob<K>> {
    pub rules: JoinRules,
    // The columns of the rows that are kept, and of those that are looked up.
    pub columns: Schema,
    pub asked: Schema,
    // What the lanes are for whose rows are kept, and those whose rows are looked up.
    pub job: Snapshot<J>,
    pub asked_job: Snapshot<J>,
    kept: Vec<KeptRows>,
    // Whether rows were lost, since memory was out.
    lost: bool,
    lanes: PhantomData<K>,
    /// The rules are those of joins of such columns.
    pub ghost fit: { ∥ FitSides (keeps_left rules.how rules.maintain_order) columns asked rules ∥₁ },
    /// The lanes give rows of such columns.
    pub ghost rows: { ∥ J.gives_rows job.value columns ∥₁ },
    pub ghost asks: { ∥ J.gives_rows asked_job.value asked ∥₁ },
    /// What is kept is of loads of those lanes.
    pub ghost kept_of: { ∥ All (AreKeptOf J.suits job.value) kept.items ∥₁ },
}

impl<K, J: RowsJob<K>> BuildPhase<K, J> {
    ghost use Rattle.std.specs.Prelude.{◌≡◌, [], All, IfOk, IsOkUnless};
    ghost use Rattle.std.specs.Arc.{arc_value};
    ghost use Rattle.morsel_meaning.specs.declared.fault.Fault.TheVariants.{OutOfMemory};
    ghost use Rattle.morsel_join.specs.Hits.{HaveHit};

    /// One that has kept nothing. The rules are those of a join of rows with these columns, of the side that they say and of the
    /// other one; the lanes of either are for these jobs.
    pub fn new(
        alloc: Global,
        rules: JoinRules,
        columns: Schema,
        asked: Schema,
        job: &J,
        asked_job: &J,
    ) -> BuildPhase<K, J>
        requires fit { FitSides (keeps_left rules.how rules.maintain_order) columns asked rules }
        requires rows { J.gives_rows job.now columns }
        requires asks { J.gives_rows asked_job.now asked }
        ensures rules { result.rules ≡ rules }
        ensures columns { (result.columns ≡ columns) × (result.asked ≡ asked) }
        ensures job { (result.job.value ≡ job.now) × (result.asked_job.value ≡ asked_job.now) }
    {
        BuildPhase {
            rules,
            columns,
            asked,
            job: Snapshot::of(job),
            asked_job: Snapshot::of(asked_job),
            kept: Vec::new(alloc),
            lost: false,
            lanes: PhantomData,
        }
    }

    /// Keeps what a unit has kept. Where memory is out, that is told later.
    pub fn keep(&mut self, keeper: RowKeeper)
        requires kept_of { All (AreKeptOf J.suits self.old.job.value) keeper.kept.items }
        ensures same { (self.new.rules ≡ self.old.rules) × (self.new.columns ≡ self.old.columns) × (self.new.asked ≡ self.old.asked) × (self.new.job ≡ self.old.job) × (self.new.asked_job ≡ self.old.asked_job) }
    {
        let RowKeeper { mut kept } = keeper;
        if self.kept.append(&mut kept).is_err() {
            self.lost = true;
        }
    }

    /// The rows by their keys, of which none was found yet. They are those of the first places of their lanes: it tests that none is
    /// missing and none is there twice. Where that is not so, it answers that there is no memory.
    #[tactic(auto, using(crate::proofs::BuildFacts::fit_sides))]
    pub fn keyed(self, alloc: Global) -> Result<ProbePhase<K, J>, Fault>
        ensures rules { IfOk result (λ probe. (arc_value probe.build).rules ≡ self.rules) }
        ensures asked { IfOk result (λ probe. (arc_value probe.build).asked ≡ self.asked) }
        ensures job { IfOk result (λ probe. (probe.job.value ≡ self.job.value) × (probe.asked_job.value ≡ self.asked_job.value)) }
        ensures none { IfOk result (λ probe. HaveHit (arc_value probe.build) probe.hits.seen.items []) }
        ensures out_of_memory { IsOkUnless result OutOfMemory }
    {
        if self.lost {
            return Err(Fault::OutOfMemory);
        }
        let BuildPhase {
            rules,
            columns,
            asked,
            job,
            asked_job,
            kept,
            ..
        } = self;
        let kept_to = greatest_end(&kept);
        let frames = in_order::<K, J>(alloc, kept, kept_to)?;
        let build = Build::new(alloc, rules, columns, frames, asked)?;
        let shared = Arc::new(alloc, build)?;
        let hits = Hits::new(alloc, &shared)?;
        Ok(ProbePhase {
            build: shared,
            hits,
            looked: Vec::new(alloc),
            lost: false,
            kept_to,
            job,
            asked_job,
            lanes: PhantomData,
        })
    }
}

/// The place up to which the stretches of kept rows go.
fn greatest_end(kept: &[KeptRows]) -> u64 {
    let mut end = 0;
    for rows in kept {
        end = end.max(rows.stretch.to);
    }
    end
}
