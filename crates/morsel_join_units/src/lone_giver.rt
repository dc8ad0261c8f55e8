//! The kept rows of a join that no row found, as loads.
ghost use Rattle.std.specs.Prelude.{◌≡◌, ◌<◌, List, [], false, IfOk, OnOk, IsOkUnless};
ghost use Rattle.std.specs.Arc.{arc_value};
ghost use Rattle.morsel_meaning.specs.declared.fault.Fault.TheVariants.{OutOfMemory};
ghost use Rattle.morsel_meaning.specs.Values.{Row};
ghost use Rattle.morsel_rows_job.specs.RowsJobs.{IsCutOf, alone_stretch};
ghost use Rattle.morsel_join.specs.BuildSides.{IsBuild, kept_side};
ghost use Rattle.morsel_join.specs.Hits.{AreMarks, HaveHit};
ghost use Rattle.morsel_join.specs.LoneRows.{LeavesAlone};
ghost use Rattle.morsel_join.specs.Sides.{rows_alone};
ghost use Rattle.morsel_join_units.specs.RowCutters.{GivesRest};
ghost use Rattle.morsel_join_units.specs.LoneGivers.{DidGiveAlone, HasLeft, IsLoneGiver};

use crate::row_cutter::RowCutter;
use morsel_end_units::LoadsGiver;
use morsel_join::{Build, Hits, LoneRows};
use morsel_load::{Load, Morsel, SourceToken};
use morsel_meaning::Fault;
use morsel_pipe::MorselSeq;
use morsel_rows_job::RowsJob;
use std::alloc::Global;
use std::snapshot::Snapshot;
use std::sync::Arc;

/// Gives the kept rows of a join that no row found, as loads of one place with one number, each of so many rows at most. There is
/// at least one load; the last one may have no row.
#[derive(Drop)]
pub struct LoneGiver {
    alloc: Global,
    lone: LoneRows,
    // The marks of all rows that were looked up.
    hits: Snapshot<Hits>,
    // How many rows a load has at most.
    rows: usize,
    cutter: RowCutter,
    // Whether the last load was given.
    ended: bool,
}

impl LoneGiver {
    /// One that has given nothing. These are the marks of all rows that were looked up; its loads have this number, and tokens of this source.
    pub fn new(
        alloc: Global,
        build: Arc<Build, Global>,
        hits: Hits,
        rows: usize,
        seq: MorselSeq,
        source: SourceToken,
    ) -> Result<LoneGiver, Fault>
        requires built { IsBuild (arc_value build) }
        requires marks { AreMarks (arc_value build) hits.seen.items }
        requires some { 0 < rows }
        ensures build { IfOk result (λ giver. arc_value giver.lone.build ≡ arc_value build) }
        ensures hits { IfOk result (λ giver. giver.hits.value ≡ hits) }
        ensures giver { IfOk result IsLoneGiver }
        ensures number { IfOk result (λ giver. giver.cutter.seq ≡ seq) }
        ensures left { IfOk result (λ giver. (asked : List Row) → HaveHit (arc_value build) hits.seen.items asked → HasLeft (rows_alone (kept_side (arc_value build)) asked) giver) }
        ensures none { IfOk result (λ giver. (giver.ended ≡ false) × DidGiveAlone giver []) }
        ensures out_of_memory { IsOkUnless result OutOfMemory }
    {
        let marks = Snapshot::of(&hits);
        let lone = LoneRows::new(alloc, build, hits)?;
        Ok(LoneGiver {
            alloc,
            lone,
            hits: marks,
            rows,
            cutter: RowCutter {
                seq,
                source,
                from: 0,
                to: 1,
                given: 0,
            },
            ended: false,
        })
    }

    /// The next rows that are alone, as a load.
    fn give<K, J>(&mut self) -> Result<Morsel<K, J>, Fault>
        requires giver { IsLoneGiver self.old }
        ensures giver { IsLoneGiver self.new }
        ensures same { (self.new.lone.build ≡ self.old.lone.build) × (self.new.hits ≡ self.old.hits) × (self.new.cutter.seq ≡ self.old.cutter.seq) × (self.new.ended ≡ self.old.ended) }
        ensures cut { (all : List Row) → HasLeft all self.old → IfOk result (λ morsel. IsCutOf all alone_stretch morsel.frame.rows morsel.stretch) }
        ensures left { (all : List Row) → HasLeft all self.old → OnOk result (HasLeft all self.new) }
        ensures rows { (rest : List Row) → LeavesAlone self.old.lone rest → IfOk result (λ morsel. GivesRest (LeavesAlone self.new.lone) rest morsel.frame.rows morsel.stretch.last) }
        ensures free { IfOk result (λ morsel. morsel.consume_token ≡ None) }
        ensures number { IfOk result (λ morsel. morsel.seq ≡ self.old.cutter.seq) }
        ensures place { IfOk result (λ morsel. (morsel.stretch.from ≡ 0) × (morsel.stretch.to ≡ 1)) }
        ensures columns { IfOk result (λ morsel. morsel.frame.schema ≡ (arc_value self.old.lone.build).rules.output) }
        ensures out_of_memory { IsOkUnless result OutOfMemory }
    {
        let some = self.lone.next(self.alloc, self.rows)?;
        let morsel = self.cutter.cut(some)?;
        Ok(morsel)
    }
}

impl<K: Drop, J: RowsJob<K>> LoadsGiver<K, J> for LoneGiver {
    ghost use Rattle.std.specs.Prelude.{◌≡◌, ◌++◌, [], List, None, IfSome, IfOk, OnOk, IsOkUnless, refl};
    ghost use Rattle.std.proofs.Common.{◌∙◌};
    ghost use Rattle.morsel_meaning.specs.declared.fault.Fault.TheVariants.{OutOfMemory};
    ghost use Rattle.morsel_load.specs.Loads.{LoadSeen, held_token, load_seen};
    ghost use Rattle.morsel_flat_units.specs.FlatUnits.{made_ends, made_loads};
    ghost use Rattle.morsel_join_units.specs.LoneGivers.{DidGiveAlone, GivesAloneFor, IsLaterGiver, place_left};

    ghost gives_for = { λ giver to. GivesAloneFor J.is_all J.is_alone to giver };

    ghost left = { λ giver. place_left giver.ended };

    ghost did = { λ giver made. DidGiveAlone giver made };

    ghost is_later = { IsLaterGiver };

    ghost may_fail = { λ job fault. fault ≡ OutOfMemory };

    fn next(&mut self) -> Result<Option<Load<K, J>>, Fault>
        requires for_job { (to : J) × GivesAloneFor J.is_all J.is_alone to self.old }
        ensures suits { IfOk result (λ made. IfSome made (λ load. (to : J) → GivesAloneFor J.is_all J.is_alone to self.old → J.suits to (load_seen load))) }
        ensures free { IfOk result (λ made. IfSome made (λ load. held_token load ≡ None)) }
        ensures gives_for { OnOk result ((to : J) → GivesAloneFor J.is_all J.is_alone to self.old → GivesAloneFor J.is_all J.is_alone to self.new) }
        ensures left { IfOk result (λ made. place_left self.old.ended ≡ made_ends made ++ place_left self.new.ended) }
        ensures none_left { IfOk result (λ made. made ≡ None → place_left self.new.ended ≡ []) }
        ensures did { IfOk result (λ made. (before : List LoadSeen) → DidGiveAlone self.old before → DidGiveAlone self.new (before ++ made_loads made)) }
        ensures later { IsLaterGiver self.old self.new }
        ensures failed { IsOkUnless result OutOfMemory }
    {
        if self.ended {
            return Ok(None);
        }
        let morsel = self.give()?;
        self.ended = morsel.stretch().last;
        Ok(Some(Load::Morsel(morsel)))
    }

    ghost later_same = { λ giver. record { build = refl; hits = refl; number = refl } };

    ghost later_next = { λ first mid last later more. record { build = more.build ∙ later.build; hits = more.hits ∙ later.hits; number = more.number ∙ later.number } };
}
