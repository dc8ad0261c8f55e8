//! A group-by while it takes rows.
ghost use Rattle.std.specs.Prelude.{All, map};
ghost use Rattle.morsel_rows_job.specs.RowsJobs.{IsCutFor};
ghost use Rattle.morsel_group_units.specs.TakenLoads.{rows_taken, taken_cut};
ghost use Rattle.morsel_group_phases.specs.LaneEnds.{TookFrom, lane_ended};

use crate::lane_end::LaneEnd;
use crate::source_phase::SourcePhase;
use morsel_group_units::{GroupKeeper, GroupRules, TakenGroups};
use morsel_meaning::Fault;
use morsel_rows_job::RowsJob;
use std::alloc::Global;
use std::marker::PhantomData;
use std::snapshot::Snapshot;
use std::sync::Arc;

/// What a group-by has while it takes rows.
#[derive(Drop)]
pub struct SinkPhase<K, J: RowsJob<K>> {
    // What the present lanes are for.
    pub job: Snapshot<J>,
    // Where the others ended, in their order.
    pub ends: Vec<LaneEnd<J>>,
    pub taken: TakenGroups,
    lanes: PhantomData<K>,
    /// The present lanes give rows of the columns that are grouped.
    pub ghost cuts: { ∥ J.gives_cuts job.value taken.rules.columns ∥₁ },
    /// What was taken from them is of their loads.
    pub ghost suits: { ∥ All (IsCutFor J.suits job.value) (map taken_cut taken.taken) ∥₁ },
    /// What was taken before is the rows of the others.
    pub ghost took: { ∥ TookFrom J.yields (map lane_ended ends.items) (rows_taken taken.ordered) ∥₁ },
}

impl<K, J: RowsJob<K>> SinkPhase<K, J> {
    ghost use Rattle.std.specs.Prelude.{◌≡◌, ◌⊎◌, ◌++◌, ◌∷◌, [], All, map, IfOk, IfErr, IsOkUnless};
    ghost use Rattle.std.specs.Arc.{arc_value};
    ghost use Rattle.morsel_meaning.specs.declared.fault.Fault.TheVariants.{OutOfMemory};
    ghost use Rattle.morsel_rows_job.specs.RowsJobs.{IsCutFor};
    ghost use Rattle.morsel_group_units.specs.TakenLoads.{greatest_place, rows_taken, taken_cut};
    ghost use Rattle.morsel_group_phases.specs.LaneEnds.{TookFrom, lane_ended};
    ghost use Rattle.morsel_group_phases.specs.SinkPhases.{HasCauseOfRows, sink_ends};

    /// One that has taken nothing. Its lanes, for this job, give rows of the columns that are grouped.
    pub fn new(alloc: Global, rules: Arc<GroupRules, Global>, job: &J) -> SinkPhase<K, J>
        requires cuts { J.gives_cuts job.now (arc_value rules).columns }
        ensures rules { result.taken.rules ≡ arc_value rules }
        ensures job { result.job.value ≡ job.now }
        ensures none { (result.ends.items ≡ []) × (result.taken.ordered ≡ []) × (result.taken.taken ≡ []) }
    {
        SinkPhase {
            job: Snapshot::of(job),
            ends: Vec::new(alloc),
            taken: TakenGroups::new(alloc, rules),
            lanes: PhantomData,
        }
    }

    /// Takes what a unit took. Where memory is out, or rows were refused, that is told later.
    pub fn keep(&mut self, keeper: GroupKeeper)
        requires rules { keeper.rules ≡ self.old.taken.rules }
        requires suits { All (IsCutFor J.suits self.old.job.value) (map taken_cut keeper.taken) }
        ensures same { (self.new.job ≡ self.old.job) × (self.new.ends ≡ self.old.ends) × (self.new.taken.rules ≡ self.old.taken.rules) }
    {
        self.taken.append(keeper);
    }

    /// The same, once the present lanes have ended: where all lanes ended, and what was taken. It tests that no load is missing and none is there
    /// twice. Where that is not so, it answers that there is no memory.
    fn closed(self, alloc: Global) -> Result<(Vec<LaneEnd<J>>, TakenGroups), Fault>
        ensures rules { IfOk result (λ closed. closed.1.rules ≡ self.taken.rules) }
        ensures none { IfOk result (λ closed. closed.1.taken ≡ []) }
        ensures ends { IfOk result (λ closed. map lane_ended closed.0.items ≡ sink_ends self) }
        ensures took { IfOk result (λ closed. ∥ TookFrom J.yields (map lane_ended closed.0.items) (rows_taken closed.1.ordered) ∥₁) }
        ensures out_of_memory { IsOkUnless result OutOfMemory }
    {
        let SinkPhase {
            job,
            mut ends,
            taken,
            ..
        } = self;
        let to = taken.taken_to();
        let closed = taken.closed(alloc, to)?;
        ends.push(LaneEnd { job, to })?;
        Ok((ends, closed))
    }

    /// From now on the rows are those of lanes for this job, behind all that were taken.
    pub fn take_from(self, alloc: Global, job: &J) -> Result<SinkPhase<K, J>, Fault>
        requires cuts { J.gives_cuts job.now self.taken.rules.columns }
        ensures rules { IfOk result (λ sink. sink.taken.rules ≡ self.taken.rules) }
        ensures job { IfOk result (λ sink. sink.job.value ≡ job.now) }
        ensures ends { IfOk result (λ sink. map lane_ended sink.ends.items ≡ sink_ends self) }
        ensures none { IfOk result (λ sink. sink.taken.taken ≡ []) }
        ensures out_of_memory { IsOkUnless result OutOfMemory }
    {
        let (ends, taken) = self.closed(alloc)?;
        Ok(SinkPhase {
            job: Snapshot::of(job),
            ends,
            taken,
            lanes: PhantomData,
        })
    }

    /// The rows of the group-by, once no more rows come.
    pub fn grouped(self, alloc: Global) -> Result<SourcePhase<K, J>, Fault>
        ensures rules { IfOk result (λ source. source.grouped.rules ≡ self.taken.rules) }
        ensures ends { IfOk result (λ source. map lane_ended source.ends.items ≡ sink_ends self) }
        ensures refused { IfErr result (λ fault. (fault ≡ OutOfMemory) ⊎ HasCauseOfRows J.yields self fault) }
    {
        let (ends, taken) = match self.closed(alloc) {
            Ok(closed) => closed,
            Err(fault) => return Err(fault),
        };
        let grouped = match taken.finish(alloc) {
            Ok(grouped) => grouped,
            Err(fault) => return Err(fault),
        };
        Ok(SourcePhase::of(grouped, ends))
    }
}
