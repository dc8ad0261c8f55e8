//! What a unit of a group-by takes.
ghost use Rattle.std.specs.Prelude.{◌≡◌, ◌∷◌, ◌++◌, ℕ, map, [], IfOk, OnOk, IsOkUnless};
ghost use Rattle.morsel_meaning.specs.declared.fault.Fault.TheVariants.{OutOfMemory};
ghost use Rattle.morsel_group_units.specs.LocalTakings.{HoldsLoads};
ghost use Rattle.morsel_group_units.specs.TakenLoads.{taken_cut};

use crate::rules::GroupRules;
use crate::taken_load::TakenLoad;
use morsel_end_units::LoadKeeper;
use morsel_frame::Frame;
use morsel_group::LocalGroups;
use morsel_load::{Load, Stretch};
use morsel_meaning::Fault;
use morsel_pipe::MorselSeq;
use morsel_rows_job::RowsJob;
use std::alloc::Global;
use std::marker::Model;
use std::snapshot::Snapshot;

/// Takes loads into local groups, as they come.
///
/// Where some of the rows are refused, it keeps the fault and goes on: that is told once all rows were taken.
#[derive(Drop)]
pub struct GroupKeeper {
    rules: Snapshot<GroupRules>,
    groups: LocalGroups,
    // How many rows came.
    rows: u64,
    loads: Vec<TakenLoad>,
    // Why rows were refused.
    fault: Option<Fault>,
}

impl Model for GroupKeeper {
    ghost use Rattle.morsel_group_units.specs.GroupKeepers.{GroupKeeperSeen};
    ghost use Rattle.morsel_group_units.specs.LocalTakings.{HoldsLoads};

    ghost Value = { GroupKeeperSeen };

    ghost view = { λ keeper. record { rules = keeper.rules.value; taken = keeper.loads.items } };

    ghost invariant = { λ keeper. HoldsLoads keeper.rules.value keeper.groups keeper.rows keeper.fault keeper.loads.items };
}

impl GroupKeeper {
    /// One that has taken nothing.
    pub fn new(alloc: Global, rules: &GroupRules) -> Result<GroupKeeper, Fault>
        ensures none { IfOk result (λ keeper. keeper ≡ record { rules = rules.now; taken = [] }) }
        ensures out_of_memory { IsOkUnless result OutOfMemory }
    {
        Ok(GroupKeeper {
            rules: Snapshot::of(rules),
            groups: rules.groups(alloc)?,
            rows: 0,
            loads: Vec::new(alloc),
            fault: None,
        })
    }

    /// Takes the rows of a load.
    fn take(&mut self, frame: &Frame, seq: MorselSeq, stretch: Stretch) -> Result<(), Fault>
        requires columns { frame.now.schema ≡ self.old.rules.columns }
        ensures rules { self.new.rules ≡ self.old.rules }
        ensures taken { OnOk result (map taken_cut self.new.taken ≡ map taken_cut self.old.taken ++ (record { seq = seq; stretch = stretch; frame = frame.now }) ∷ []) }
        ensures out_of_memory { IsOkUnless result OutOfMemory }
    {
        let arrival = self.rows;
        let count = frame.height() as u64;
        let Some(rows) = arrival.checked_add(count) else {
            return Err(Fault::OutOfMemory);
        };
        self.loads.push(TakenLoad {
            seq,
            arrival,
            count,
            stretch,
            frame: Snapshot::of(frame),
        })?;
        self.rows = rows;
        if self.fault.is_some() {
            return Ok(());
        }
        match self.groups.insert(frame, seq) {
            Ok(()) => Ok(()),
            Err(Fault::OutOfMemory) => {
                self.fault = Some(Fault::OutOfMemory);
                Err(Fault::OutOfMemory)
            }
            Err(fault) => {
                self.fault = Some(fault);
                Ok(())
            }
        }
    }

    /// Its groups, or why rows were refused, and its loads.
    pub(crate) fn into_parts(self) -> (LocalGroups, Option<Fault>, Vec<TakenLoad>)
        ensures holds { (rows : ℕ) × HoldsLoads self.rules result.0 rows result.1 self.taken }
        ensures loads { result.2.items ≡ self.taken }
    {
        let GroupKeeper {
            groups,
            loads,
            fault,
            ..
        } = self;
        (groups, fault, loads)
    }
}

impl<K: Drop, J: RowsJob<K>> LoadKeeper<K, J> for GroupKeeper {
    ghost use Rattle.std.specs.Prelude.{◌≡◌, ◌++◌, ◌∷◌, [], List, map, None, OnOk, IsOkUnless, refl};
    ghost use Rattle.std.proofs.Common.{◌∙◌};
    ghost use Rattle.std.specs.List.{flat_map};
    ghost use Rattle.morsel_meaning.specs.declared.fault.Fault.TheVariants.{OutOfMemory};
    ghost use Rattle.morsel_load.specs.Loads.{LoadSeen, held_token, load_seen};
    ghost use Rattle.morsel_rows_job.specs.RowsJobs.{AreRowsWith};
    ghost use Rattle.morsel_group_units.specs.GroupKeepers.{KeepsCutsOf};
    ghost use Rattle.morsel_group_units.specs.TakenLoads.{cuts_of_load, taken_cut};

    ghost keeps = { λ keeper job. KeepsCutsOf J.suits J.gives_cuts keeper job };

    ghost takes = { λ keeper load. AreRowsWith keeper.rules.columns load };

    ghost took = { λ keeper loads. map taken_cut keeper.taken ≡ flat_map cuts_of_load loads };

    ghost is_later = { λ keeper later. later.rules ≡ keeper.rules };

    ghost may_fail = { λ job fault. fault ≡ OutOfMemory };

    fn keep(&mut self, load: Load<K, J>) -> Result<(), Fault>
        requires takes { AreRowsWith self.old.rules.columns (load_seen load) }
        requires free { held_token load ≡ None }
        ensures keeps { OnOk result ((from : J) → KeepsCutsOf J.suits J.gives_cuts self.old from → J.suits from (load_seen load) → KeepsCutsOf J.suits J.gives_cuts self.new from) }
        ensures took { OnOk result ((before : List LoadSeen) → map taken_cut self.old.taken ≡ flat_map cuts_of_load before → map taken_cut self.new.taken ≡ flat_map cuts_of_load (before ++ load_seen load ∷ [])) }
        ensures later { self.new.rules ≡ self.old.rules }
        ensures failed { IsOkUnless result OutOfMemory }
    {
        let Load::Morsel(morsel) = load else {
            unreachable!()
        };
        let stretch = morsel.stretch();
        let (frame, seq, _, _) = morsel.into_inner();
        self.take(&frame, seq, stretch)?;
        Ok(())
    }

    ghost takes_suiting = { λ keeper from seen keeps suits. J.are_cuts from keeper.rules.columns seen keeps.cuts suits };

    ghost later_same = { λ keeper. refl };

    ghost later_next = { λ first mid last later more. more ∙ later };
}
