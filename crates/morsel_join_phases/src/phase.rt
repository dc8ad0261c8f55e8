//! The phases of a join, and what it has in each.
//!
//! ```text
//! Build --kept side done--> Probe --other side done--> Emit --a unit has them--> Giving --all were given--> Given --> Done
//! ```
//!
//! - **Build**: rows of one side are kept, as they come.
//! - **Probe**: they are kept by their keys, and do not change. The marks are set of those that the other side's rows find.
//! - **Emit**: all rows were looked up. Where the join has them, the kept rows without a mark are given, by one unit.
//!
//! Where no more of what it gives is taken, it is done at once.
ghost use Rattle.std.specs.Prelude.{◌≡◌};
ghost use Rattle.morsel_join_phases.specs.JoinTables.{port_done};

use crate::alone::gives_alone;
use crate::build_phase::BuildPhase;
use crate::emit_phase::EmitPhase;
use crate::places::{JoinAt, JoinPorts};
use crate::probe_phase::ProbePhase;
use morsel_join::Build;
use morsel_join_units::{LoneGiver, ProbeMaker, RowKeeper};
use morsel_meaning::Fault;
use morsel_ports::PortState;
use morsel_rows_job::RowsJob;
use std::alloc::Global;
use std::mem;
use std::sync::Arc;

/// What a join has in each phase.
#[derive(Drop)]
pub enum JoinPhase<K, J: RowsJob<K>> {
    /// The rows that were kept so far.
    Build(BuildPhase<K, J>),
    /// The kept rows by their keys.
    Probe(ProbePhase<K, J>),
    /// The same, once all rows were looked up.
    Emit(EmitPhase<K, J>),
    /// The same rows: a unit has those that none found.
    Giving(Arc<Build, Global>),
    /// The same rows: all that none found were given.
    Given(Arc<Build, Global>),
    /// Nothing.
    Done,
}

impl<K, J: RowsJob<K>> JoinPhase<K, J> {
    ghost use Rattle.std.specs.Prelude.{◌≡◌, ◌⊎◌, ◌<◌, [], List, Some, Bool, IfOk, IfSome, OnErr, OnOk, IsOkUnless};
    ghost use Rattle.std.specs.Arc.{arc_value};
    ghost use Rattle.std.specs.List.{All};
    ghost use Rattle.morsel_meaning.specs.declared.fault.Fault.TheVariants.{OutOfMemory};
    ghost use Rattle.morsel_meaning.specs.declared.value.Field.{Field};
    ghost use Rattle.morsel_meaning.specs.Values.{Row};
    ghost use Rattle.morsel_join.specs.declared.build_side.Build.{Build};
    ghost use Rattle.morsel_join.specs.BuildSides.{IsBuild, kept_side};
    ghost use Rattle.morsel_join.specs.Hits.{HaveHit};
    ghost use Rattle.morsel_join.specs.Sides.{rows_alone};
    ghost use Rattle.morsel_join_units.specs.LoneGivers.{DidGiveAlone, GivesAloneFor, HasLeft, IsLoneGiver};
    ghost use Rattle.morsel_join_units.specs.RowKeepers.{AreKeptOf};
    ghost use Rattle.morsel_join_phases.specs.JoinTables.{after_asked, after_given, after_kept, moved_at};
    ghost use Rattle.morsel_join_units.specs.LookedUps.{AreLookedUpOf, rows_looked_up};
    ghost use Rattle.morsel_join_phases.specs.JoinPhases.{FitsJoin, HadKept, HadRules, KeepsJoin, StaysJoin, alone_in, asked_job_of, asked_of, asked_rows_of, asked_to_of, at_of, build_of, given_in, kept_job_of, kept_to_of, marks_of, rules_of};

    /// Where the join is.
    pub fn at(&self) -> JoinAt
        ensures { result ≡ at_of self.now }
    {
        match self {
            JoinPhase::Build(_) => JoinAt::Build,
            JoinPhase::Probe(_) => JoinAt::Probe,
            JoinPhase::Emit(_) | JoinPhase::Giving(_) | JoinPhase::Given(_) => JoinAt::Emit,
            JoinPhase::Done => JoinAt::Done,
        }
    }

    /// Up to which place of their lanes rows were kept, while that is known.
    #[tactic(auto, using(crate::proofs::BuildFacts::is_build))]
    pub fn kept_to(&self) -> Option<u64>
        ensures to { result ≡ kept_to_of self.now }
        ensures gives { IfSome result (λ to. (build : Build) (job : J) → build_of self.now ≡ Some build → kept_job_of self.now ≡ Some job → ∥ J.gives job 0 to (kept_side build).rows ∥₁) }
        ensures built { IfSome result (λ to. (build : Build) → build_of self.now ≡ Some build → IsBuild build) }
    {
        match self {
            JoinPhase::Probe(probe) => Some(probe.kept_to),
            JoinPhase::Emit(emit) => Some(emit.kept_to),
            _ => None,
        }
    }

    /// Up to which place of their lanes rows were looked up, while that is known.
    pub fn asked_to(&self) -> Option<u64>
        ensures to { result ≡ asked_to_of self.now }
        ensures gives { IfSome result (λ to. (job : J) (rows : List Row) → asked_job_of self.now ≡ Some job → asked_rows_of self.now ≡ Some rows → ∥ J.gives job 0 to rows ∥₁) }
    {
        match self {
            JoinPhase::Emit(emit) => Some(emit.asked_to),
            _ => None,
        }
    }

    /// Moves on by the table.
    #[tactic(auto, using(crate::proofs::PhaseLemmas::keeps_done, crate::proofs::PhaseLemmas::keeps_more))]
    pub fn moved(self, alloc: Global, told: JoinPorts) -> Result<JoinPhase<K, J>, Fault>
        ensures at { IfOk result (λ now. at_of now ≡ moved_at (alone_in self) (given_in self) told (at_of self)) }
        ensures keeps { IfOk result (KeepsJoin self) }
        ensures out_of_memory { IsOkUnless result OutOfMemory }
    {
        if done(told.sent) {
            return Ok(JoinPhase::Done);
        }
        let kept = self.past_kept(alloc, told)?;
        let asked = kept.past_asked(told)?;
        Ok(asked.past_given())
    }

    /// Moves on where the rows that are to be kept have ended.
    #[tactic(auto, using(crate::proofs::PhaseLemmas::keeps_same, crate::proofs::PhaseLemmas::keeps_keyed))]
    fn past_kept(self, alloc: Global, told: JoinPorts) -> Result<JoinPhase<K, J>, Fault>
        ensures at { IfOk result (λ now. at_of now ≡ after_kept told (at_of self)) }
        ensures same { IfOk result (λ now. (alone_in now ≡ alone_in self) × (given_in now ≡ given_in self)) }
        ensures keeps { IfOk result (KeepsJoin self) }
        ensures out_of_memory { IsOkUnless result OutOfMemory }
    {
        if !done(told.kept) {
            return Ok(self);
        }
        match self {
            JoinPhase::Build(build) => Ok(JoinPhase::Probe(build.keyed(alloc)?)),
            other => Ok(other),
        }
    }

    /// Moves on where the rows that are looked up have ended.
    fn past_asked(self, told: JoinPorts) -> Result<JoinPhase<K, J>, Fault>
        ensures at { IfOk result (λ now. at_of now ≡ after_asked (alone_in self) told (at_of self)) }
        ensures given { IfOk result (λ now. given_in now ≡ given_in self) }
        ensures had { IfOk result (λ now. HadRules self now × HadKept self now) }
        ensures out_of_memory { IsOkUnless result OutOfMemory }
    {
        if !done(told.asked) {
            return Ok(self);
        }
        match self {
            JoinPhase::Probe(probe) => {
                if gives_alone(&probe.build.rules) {
                    Ok(JoinPhase::Emit(probe.asked()?))
                } else {
                    Ok(JoinPhase::Done)
                }
            }
            other => Ok(other),
        }
    }

    /// Moves on where the kept rows that none found were given.
    fn past_given(self) -> JoinPhase<K, J>
        ensures at { at_of result ≡ after_given (given_in self) (at_of self) }
        ensures had { HadRules self result × HadKept self result }
    {
        match self {
            JoinPhase::Given(_) => JoinPhase::Done,
            other => other,
        }
    }

    /// Keeps what a unit has kept, where it ended whole.
    pub fn keep(&mut self, keeper: Option<RowKeeper>)
        requires kept_of { IfSome keeper (λ keeper. (job : J) → kept_job_of self.old ≡ Some job → All (AreKeptOf J.suits job) keeper.kept.items) }
        ensures same { (at_of self.new ≡ at_of self.old) × (kept_job_of self.new ≡ kept_job_of self.old) × (asked_job_of self.new ≡ asked_job_of self.old) × (build_of self.new ≡ build_of self.old) }
        ensures stays { StaysJoin self.old self.new }
    {
        match self {
            JoinPhase::Build(build) => match keeper {
                Some(keeper) => build.keep(keeper),
                None => {}
            },
            _ => {}
        }
    }

    /// Marks the kept rows that a unit's rows found, where it ended whole.
    pub fn mark(&mut self, maker: Option<ProbeMaker>)
        requires looked_of { IfSome maker (λ maker. (job : J) → asked_job_of self.old ≡ Some job → All (AreLookedUpOf J.suits job) maker.looked.items) }
        requires hit { IfSome maker (λ maker. (build : Build) → build_of self.old ≡ Some build → HaveHit build maker.hits.seen.items (rows_looked_up maker.looked.items)) }
        ensures same { (at_of self.new ≡ at_of self.old) × (kept_job_of self.new ≡ kept_job_of self.old) × (asked_job_of self.new ≡ asked_job_of self.old) × (build_of self.new ≡ build_of self.old) }
        ensures stays { StaysJoin self.old self.new }
    {
        match self {
            JoinPhase::Probe(probe) => match maker {
                Some(maker) => probe.mark(maker),
                None => {}
            },
            _ => {}
        }
    }

    /// From now on the rows that are looked up are those of lanes for this job. None was looked up yet.
    ///
    /// It answers that there is no memory where the join does not look rows up, or has looked some up.
    pub fn look_up_in(&mut self, job: &J) -> Result<(), Fault>
        requires rows { (columns : List Field) → asked_of self.old ≡ Some columns → J.gives_rows job.now columns }
        ensures looks { OnOk result ((at_of self.new ≡ JoinAt.Probe) × (asked_job_of self.new ≡ Some job.now)) }
        ensures same { OnOk result ((rules_of self.new ≡ rules_of self.old) × (asked_of self.new ≡ asked_of self.old) × (kept_job_of self.new ≡ kept_job_of self.old) × (build_of self.new ≡ build_of self.old) × (marks_of self.new ≡ marks_of self.old) × (kept_to_of self.new ≡ kept_to_of self.old)) }
        ensures err { OnErr result (self.new ≡ self.old) }
        ensures out_of_memory { IsOkUnless result OutOfMemory }
    {
        match self {
            JoinPhase::Probe(probe) => probe.look_up_in(job),
            _ => Err(Fault::OutOfMemory),
        }
    }

    /// What gives the kept rows that none found, in loads of so many rows at most. It has them from then on.
    pub fn take_giver(&mut self, alloc: Global, rows: usize) -> Result<LoneGiver, Fault>
        requires some { 0 < rows }
        ensures stays { StaysJoin self.old self.new }
        ensures same { OnOk result ((at_of self.new ≡ at_of self.old) × (build_of self.new ≡ build_of self.old)) }
        ensures build { IfOk result (λ giver. build_of self.old ≡ Some (arc_value giver.lone.build)) }
        ensures giver { IfOk result IsLoneGiver }
        ensures left { IfOk result (λ giver. (marks : List Bool) (asked : List Row) → marks_of self.old ≡ Some marks → HaveHit (arc_value giver.lone.build) marks asked → HasLeft (rows_alone (kept_side (arc_value giver.lone.build)) asked) giver) }
        ensures gives_for { IfOk result (λ giver. (kept asked sent : J) → FitsJoin J.gives_rows J.gives J.is_all J.finds J.is_alone self.old kept asked sent → GivesAloneFor J.is_all J.is_alone sent giver) }
        ensures none { IfOk result (λ giver. DidGiveAlone giver []) }
        ensures last { IfOk result (λ giver. giver.cutter.seq ≡ 18446744073709551614) }
        ensures out_of_memory { IsOkUnless result OutOfMemory }
    {
        let JoinPhase::Emit(emit) = mem::replace(self, JoinPhase::Done) else {
            return Err(Fault::OutOfMemory);
        };
        let build = emit.build.clone()?;
        let giver = emit.giver(alloc, rows)?;
        *self = JoinPhase::Giving(build);
        Ok(giver)
    }

    /// The kept rows that none found were given, where their unit ended whole.
    pub fn end(&mut self, giver: Option<LoneGiver>)
        ensures same { (at_of self.new ≡ at_of self.old) × (kept_job_of self.new ≡ kept_job_of self.old) × (asked_job_of self.new ≡ asked_job_of self.old) × (build_of self.new ≡ build_of self.old) }
        ensures stays { StaysJoin self.old self.new }
    {
        if giver.is_none() {
            return;
        }
        match mem::replace(self, JoinPhase::Done) {
            JoinPhase::Giving(build) => *self = JoinPhase::Given(build),
            other => *self = other,
        }
    }
}

/// Whether no more loads go through a port.
fn done(state: PortState) -> bool
    ensures { result ≡ port_done state }
{
    matches!(state, PortState::Done)
}
