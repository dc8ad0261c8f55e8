//! The phases of a group-by, and what it has in each.
//!
//! ```text
//! Sink --no more rows come--> Source --a unit has its rows--> Giving --all were given--> Given --> Done
//! ```
//!
//! - **Sink**: rows are taken into groups, as they come.
//! - **Source**: the groups of all rows are one, and its rows are given, by one unit.
//!
//! Where no more of what it gives is taken, it is done at once.
ghost use Rattle.std.specs.Prelude.{◌≡◌};

use crate::places::{GroupAt, GroupPorts};
use crate::sink_phase::SinkPhase;
use crate::source_phase::SourcePhase;
use morsel_frame::Frame;
use morsel_group_units::{GroupGiver, GroupKeeper, GroupRules};
use morsel_meaning::Fault;
use morsel_ports::PortState;
use morsel_rows_job::RowsJob;
use std::alloc::Global;
use std::mem;
use std::snapshot::Snapshot;
use std::sync::Arc;

/// What a group-by has in each phase.
#[derive(Drop)]
pub enum GroupPhase<K, J: RowsJob<K>> {
    /// The rows that were taken so far, by groups.
    Sink(SinkPhase<K, J>),
    /// Its rows.
    Source(SourcePhase<K, J>),
    /// A unit has these rows.
    Giving(Snapshot<Frame>),
    /// All of these rows were given.
    Given(Snapshot<Frame>),
    /// Nothing.
    Done,
}

impl<K, J: RowsJob<K>> GroupPhase<K, J> {
    ghost use Rattle.std.specs.Prelude.{◌≡◌, ◌⊎◌, ◌<◌, ◌++◌, ◌∷◌, [], Some, map, All, IfOk, IfErr, IfSome, IsSome, OnErr, OnOk, IsOkUnless, true};
    ghost use Rattle.std.specs.Arc.{arc_value};
    ghost use Rattle.morsel_meaning.specs.declared.fault.Fault.TheVariants.{OutOfMemory};
    ghost use Rattle.morsel_rows_job.specs.RowsJobs.{IsCutFor};
    ghost use Rattle.morsel_group_units.specs.GroupAsks.{GroupRulesSeen};
    ghost use Rattle.morsel_group_units.specs.GroupGivers.{DidGiveGroups, GivesGroupsFor};
    ghost use Rattle.morsel_group_units.specs.TakenLoads.{taken_cut};
    ghost use Rattle.morsel_group_phases.specs.GroupTables.{groups_given, group_moved, group_taken};
    ghost use Rattle.morsel_group_phases.specs.GroupPhases.{FitsGroup, GivesGroupsOf, HadGroup, IsFaultOfGroups, KeepsGroup, StaysGroup, are_groups_out, ends_of_group, frame_of_group, group_at, group_job, group_rules, has_given_groups, past_ends};

    /// Where the group-by is.
    pub fn at(&self) -> GroupAt
        ensures { result ≡ group_at self.now }
    {
        match self {
            GroupPhase::Sink(_) => GroupAt::Sink,
            GroupPhase::Source(_) | GroupPhase::Giving(_) | GroupPhase::Given(_) => GroupAt::Source,
            GroupPhase::Done => GroupAt::Done,
        }
    }

    /// Up to which place of the present lanes rows were taken, while they are.
    pub fn taken_to(&self) -> Option<u64>
        ensures to { IfSome result (λ to. (job : J) → group_job self.now ≡ Some job → ends_of_group self.now ≡ Some (past_ends self.now ++ (job, to) ∷ [])) }
        ensures there { group_at self.now ≡ GroupAt.Sink → IsSome result }
        ensures job { IfSome result (λ to. IsSome (group_job self.now)) }
    {
        match self {
            GroupPhase::Sink(sink) => Some(sink.taken.taken_to()),
            _ => None,
        }
    }

    /// Its rows, once no more rows come and until a unit has them: they are the group-by of all rows of its lanes up to their ends.
    pub fn frame(&self) -> Option<&Frame>
        ensures frame { IfSome result (λ frame. frame_of_group self.now ≡ Some frame.now) }
        ensures grouped { IfSome result (λ frame. (rules : GroupRulesSeen) → group_rules self.now ≡ Some rules → GivesGroupsOf J.yields self.now rules frame.now) }
        ensures known { IfSome result (λ frame. IsSome (group_rules self.now) × IsSome (ends_of_group self.now)) }
    {
        match self {
            GroupPhase::Source(source) => Some(source.grouped.frame()),
            _ => None,
        }
    }

    /// What it is asked for, while it takes rows. Else it answers that there is no memory.
    pub fn rules(&self) -> Result<Arc<GroupRules, Global>, Fault>
        ensures rules { IfOk result (λ rules. group_rules self.now ≡ Some (arc_value rules)) }
        ensures out_of_memory { IsOkUnless result OutOfMemory }
    {
        match self {
            GroupPhase::Sink(sink) => sink.taken.rules(),
            _ => Err(Fault::OutOfMemory),
        }
    }

    /// Moves on by the table.
    #[tactic(auto, using(crate::proofs::PhaseLemmas::keeps_done, crate::proofs::PhaseLemmas::keeps_more))]
    pub fn moved(self, alloc: Global, told: GroupPorts) -> Result<GroupPhase<K, J>, Fault>
        ensures at { IfOk result (λ now. group_at now ≡ group_moved (has_given_groups self) told.taken told.sent (group_at self)) }
        ensures keeps { IfOk result (KeepsGroup self) }
        ensures refused { IfErr result (λ fault. (fault ≡ OutOfMemory) ⊎ IsFaultOfGroups J.yields self fault) }
    {
        if matches!(told.sent, PortState::Done) {
            return Ok(GroupPhase::Done);
        }
        match self.past_taken(alloc, told.taken) {
            Ok(taken) => Ok(taken.past_given()),
            Err(fault) => Err(fault),
        }
    }

    /// Moves on where no more rows come.
    #[tactic(auto, using(crate::proofs::PhaseLemmas::keeps_same, crate::proofs::PhaseLemmas::keeps_grouped))]
    fn past_taken(self, alloc: Global, told: PortState) -> Result<GroupPhase<K, J>, Fault>
        ensures at { IfOk result (λ now. group_at now ≡ group_taken told (group_at self)) }
        ensures given { IfOk result (λ now. has_given_groups now ≡ has_given_groups self) }
        ensures keeps { IfOk result (KeepsGroup self) }
        ensures refused { IfErr result (λ fault. (fault ≡ OutOfMemory) ⊎ IsFaultOfGroups J.yields self fault) }
    {
        if !matches!(told, PortState::Done) {
            return Ok(self);
        }
        match self {
            GroupPhase::Sink(sink) => match sink.grouped(alloc) {
                Ok(source) => Ok(GroupPhase::Source(source)),
                Err(fault) => Err(fault),
            },
            other => Ok(other),
        }
    }

    /// Moves on where its rows were given.
    #[tactic(auto, using(crate::proofs::PhaseLemmas::had_same, crate::proofs::PhaseLemmas::had_done))]
    fn past_given(self) -> GroupPhase<K, J>
        ensures at { group_at result ≡ groups_given (has_given_groups self) (group_at self) }
        ensures had { HadGroup self result }
    {
        match self {
            GroupPhase::Given(_) => GroupPhase::Done,
            other => other,
        }
    }

    /// Takes what a unit took, where it ended whole.
    pub fn keep(&mut self, keeper: Option<GroupKeeper>)
        requires rules { IfSome keeper (λ keeper. (rules : GroupRulesSeen) → group_rules self.old ≡ Some rules → keeper.rules ≡ rules) }
        requires suits { IfSome keeper (λ keeper. (job : J) → group_job self.old ≡ Some job → All (IsCutFor J.suits job) (map taken_cut keeper.taken)) }
        ensures same { (group_at self.new ≡ group_at self.old) × (group_rules self.new ≡ group_rules self.old) × (group_job self.new ≡ group_job self.old) × (frame_of_group self.new ≡ frame_of_group self.old) }
        ensures stays { StaysGroup self.old self.new }
    {
        match self {
            GroupPhase::Sink(sink) => match keeper {
                Some(keeper) => sink.keep(keeper),
                None => {}
            },
            _ => {}
        }
    }

    /// From now on the rows are those of lanes for this job, behind all that were taken.
    ///
    /// Where it takes no rows, or some of those that were taken are missing, it answers that there is no memory; then it is done.
    pub fn take_from(&mut self, alloc: Global, job: &J) -> Result<(), Fault>
        requires cuts { (rules : GroupRulesSeen) → group_rules self.old ≡ Some rules → J.gives_cuts job.now rules.columns }
        ensures takes { OnOk result ((group_at self.new ≡ GroupAt.Sink) × (group_job self.new ≡ Some job.now)) }
        ensures rules { OnOk result (group_rules self.new ≡ group_rules self.old) }
        ensures ends { OnOk result (ends_of_group self.old ≡ Some (past_ends self.new)) }
        ensures err { OnErr result (group_at self.new ≡ GroupAt.Done) }
        ensures out_of_memory { IsOkUnless result OutOfMemory }
    {
        let GroupPhase::Sink(sink) = mem::replace(self, GroupPhase::Done) else {
            return Err(Fault::OutOfMemory);
        };
        let next = sink.take_from(alloc, job)?;
        *self = GroupPhase::Sink(next);
        Ok(())
    }

    /// What gives its rows, in loads of so many rows at most. It has them from then on.
    pub fn take_giver(&mut self, alloc: Global, rows: usize) -> Result<GroupGiver, Fault>
        requires some { 0 < rows }
        ensures stays { StaysGroup self.old self.new }
        ensures same { OnOk result ((group_at self.new ≡ group_at self.old) × (frame_of_group self.new ≡ frame_of_group self.old)) }
        ensures frame { IfOk result (λ giver. frame_of_group self.old ≡ Some giver.frame) }
        ensures gives_for { IfOk result (λ giver. (job sent : J) → FitsGroup J.gives_cuts J.is_given self.old job sent → GivesGroupsFor J.is_given sent giver) }
        ensures none { IfOk result (λ giver. DidGiveGroups giver []) }
        ensures out { OnOk result (are_groups_out self.new ≡ true) }
        ensures err { OnErr result (group_at self.new ≡ GroupAt.Done) }
        ensures out_of_memory { IsOkUnless result OutOfMemory }
    {
        let GroupPhase::Source(source) = mem::replace(self, GroupPhase::Done) else {
            return Err(Fault::OutOfMemory);
        };
        let SourcePhase { grouped, .. } = source;
        let frame = Snapshot::of(grouped.frame());
        let giver = grouped.giver(alloc, rows)?;
        *self = GroupPhase::Giving(frame);
        Ok(giver)
    }

    /// Its rows were given, where their unit ended whole.
    pub fn end(&mut self, giver: Option<GroupGiver>)
        ensures same { (group_at self.new ≡ group_at self.old) × (group_rules self.new ≡ group_rules self.old) × (group_job self.new ≡ group_job self.old) × (frame_of_group self.new ≡ frame_of_group self.old) }
        ensures stays { StaysGroup self.old self.new }
        ensures given { IsSome giver → are_groups_out self.old ≡ true → has_given_groups self.new ≡ true }
    {
        if giver.is_none() {
            return;
        }
        match mem::replace(self, GroupPhase::Done) {
            GroupPhase::Giving(frame) => *self = GroupPhase::Given(frame),
            other => *self = other,
        }
    }
}
