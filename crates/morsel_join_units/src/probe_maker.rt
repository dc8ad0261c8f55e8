//! What rows find on the kept side of a join, as loads.
ghost use Rattle.std.specs.Prelude.{◌≡◌, ◌<◌, ◌++◌, ◌∷◌, if◌then◌else◌, [], List, None, Some, IfOk, OnOk, OnErr, IsOkUnless};
ghost use Rattle.std.specs.Arc.{arc_value};
ghost use Rattle.morsel_meaning.specs.declared.fault.Fault.TheVariants.{OutOfMemory};
ghost use Rattle.morsel_meaning.specs.Values.{Row};
ghost use Rattle.morsel_rows_job.specs.RowsJobs.{IsCutOf};
ghost use Rattle.morsel_join.specs.BuildSides.{IsBuild};
ghost use Rattle.morsel_join.specs.Hits.{HaveHit};
ghost use Rattle.morsel_join.specs.Probings.{IsProbing, LooksUp};
ghost use Rattle.morsel_join_units.specs.RowCutters.{GivesRest, stretch_of};
ghost use Rattle.morsel_join_units.specs.ProbeMakers.{HasGiven, IsLookedUp, IsProbeMaker};

use crate::looked_up::LookedUp;
use crate::row_cutter::RowCutter;
use morsel_flat_units::LoadsMaker;
use morsel_frame::Frame;
use morsel_join::{Build, Hits, Probing};
use morsel_load::{Load, Morsel};
use morsel_meaning::Fault;
use morsel_rows_job::RowsJob;
use std::alloc::Global;
use std::snapshot::Snapshot;
use std::sync::Arc;

/// The rows of a load that are looked up, and how many of those that they find were given.
#[derive(Drop)]
pub struct Probed {
    probing: Probing,
    cutter: RowCutter,
}

/// Makes loads of what the rows of a load find on a kept side, each of so many rows at most.
#[derive(Drop)]
pub struct ProbeMaker {
    alloc: Global,
    build: Arc<Build, Global>,
    // How many rows a load has at most.
    rows: usize,
    /// Which kept rows were asked for.
    pub hits: Hits,
    /// The loads whose rows asked for them.
    pub looked: Vec<LookedUp>,
    probed: Option<Probed>,
}

impl ProbeMaker {
    /// One that has looked nothing up.
    pub fn new(alloc: Global, build: Arc<Build, Global>, rows: usize) -> Result<ProbeMaker, Fault>
        requires built { IsBuild (arc_value build) }
        requires some { 0 < rows }
        ensures build { IfOk result (λ maker. arc_value maker.build ≡ arc_value build) }
        ensures maker { IfOk result IsProbeMaker }
        ensures none { IfOk result (λ maker. (maker.probed ≡ None) × (maker.looked.items ≡ []) × HaveHit (arc_value build) maker.hits.seen.items []) }
        ensures out_of_memory { IsOkUnless result OutOfMemory }
    {
        let hits = Hits::new(alloc, &build)?;
        Ok(ProbeMaker {
            alloc,
            build,
            rows,
            hits,
            looked: Vec::new(alloc),
            probed: None,
        })
    }

    /// Looks the keys of a frame's rows up, which are those of a load.
    fn look_up(&mut self, frame: Frame, looked: LookedUp) -> Result<Probing, Fault>
        requires maker { IsProbeMaker self.old }
        requires none { self.old.probed ≡ None }
        requires columns { frame.schema ≡ (arc_value self.old.build).asked }
        requires frame { looked.frame.value ≡ frame }
        ensures same { (self.new.build ≡ self.old.build) × (self.new.probed ≡ None) }
        ensures maker { IsProbeMaker self.new }
        ensures found { IfOk result (IsLookedUp (arc_value self.old.build) frame) }
        ensures hits { OnOk result ((asked : List Row) → HaveHit (arc_value self.old.build) self.old.hits.seen.items asked → HaveHit (arc_value self.old.build) self.new.hits.seen.items (asked ++ frame.rows)) }
        ensures looked { OnOk result (self.new.looked.items ≡ self.old.looked.items ++ looked ∷ []) }
        ensures err { OnErr result ((self.new.looked.items ≡ self.old.looked.items) × (self.new.hits ≡ self.old.hits)) }
        ensures out_of_memory { IsOkUnless result OutOfMemory }
    {
        // No scan gives so many rows at once.
        if frame.height() >= u32::MAX as usize {
            return Err(Fault::OutOfMemory);
        }
        let probing = Probing::new(self.alloc, self.build.clone()?, frame)?;
        // From here on nothing fails, so the marks are those of the loads that are told.
        self.looked.push(looked)?;
        probing.mark(&mut self.hits);
        Ok(probing)
    }
}

impl Probed {
    /// The next rows that were found, as a load.
    fn next<K, J>(&mut self, alloc: Global, rows: usize) -> Result<Morsel<K, J>, Fault>
        requires probing { IsProbing self.old.probing }
        requires some { 0 < rows }
        ensures probing { IsProbing self.new.probing }
        ensures same { (self.new.cutter.seq ≡ self.old.cutter.seq) × (self.new.cutter.source ≡ self.old.cutter.source) × (stretch_of self.new.cutter ≡ stretch_of self.old.cutter) × (self.new.probing.build ≡ self.old.probing.build) }
        ensures cut { (all : List Row) → HasGiven all self.old → IfOk result (λ morsel. IsCutOf all (stretch_of self.old.cutter) morsel.frame.rows morsel.stretch) }
        ensures given { (all : List Row) → HasGiven all self.old → OnOk result (HasGiven all self.new) }
        ensures rows { (rest : List Row) → LooksUp self.old.probing rest → IfOk result (λ morsel. GivesRest (LooksUp self.new.probing) rest morsel.frame.rows morsel.stretch.last) }
        ensures free { IfOk result (λ morsel. morsel.consume_token ≡ None) }
        ensures number { IfOk result (λ morsel. morsel.seq ≡ self.old.cutter.seq) }
        ensures source { IfOk result (λ morsel. morsel.source_token.source ≡ self.old.cutter.source.source) }
        ensures place { IfOk result (λ morsel. (morsel.stretch.from ≡ self.old.cutter.from) × (morsel.stretch.to ≡ self.old.cutter.to)) }
        ensures columns { IfOk result (λ morsel. morsel.frame.schema ≡ (arc_value self.old.probing.build).rules.output) }
        ensures out_of_memory { IsOkUnless result OutOfMemory }
    {
        let some = self.probing.next(alloc, rows)?;
        let morsel = self.cutter.cut(some)?;
        Ok(morsel)
    }

    /// What is still to be given; nothing where the last rows were.
    fn unless_last(self, last: bool) -> Option<Probed>
        ensures { result ≡ (if last then None else Some self) }
    {
        if last {
            return None;
        }
        Some(self)
    }
}

impl<K: Drop, J: RowsJob<K>> LoadsMaker<K, J> for ProbeMaker {
    ghost use Rattle.std.specs.Prelude.{◌≡◌, ◌++◌, ◌∷◌, [], All, List, None, IfSome, IfOk, OnOk, IsOkUnless, refl};
    ghost use Rattle.std.proofs.Common.{◌∙◌};
    ghost use Rattle.std.specs.Arc.{arc_value};
    ghost use Rattle.morsel_meaning.specs.declared.fault.Fault.TheVariants.{OutOfMemory};
    ghost use Rattle.morsel_load.specs.Loads.{LoadSeen, held_token, load_seen};
    ghost use Rattle.morsel_lane_pipe.specs.Stretches.{ends_of};
    ghost use Rattle.morsel_flat_units.specs.FlatUnits.{made_ends, made_loads};
    ghost use Rattle.morsel_join.specs.BuildSides.{kept_side};
    ghost use Rattle.morsel_rows_job.specs.RowsJobs.{AreWholeRows};
    ghost use Rattle.morsel_join_units.specs.LookedUps.{AreLookedUpOf};
    ghost use Rattle.morsel_join_units.specs.ProbeMakers.{DidProbe, FindsFor, IsProbeMaker, stretch_left};

    ghost joins = { λ maker from to. IsProbeMaker maker × J.gives_rows from (arc_value maker.build).asked × J.finds (kept_side (arc_value maker.build)) from to × All (AreLookedUpOf J.suits from) maker.looked.items };

    ghost takes = { λ maker load. IsProbeMaker maker × AreWholeRows (arc_value maker.build).asked load };

    ghost makes_for = { λ maker to. FindsFor J.suits J.finds (kept_side (arc_value maker.build)) to maker.probed };

    ghost left = { λ maker. stretch_left maker.probed };

    ghost did = { λ maker taken made. DidProbe maker taken made };

    ghost is_later = { λ maker later. arc_value later.build ≡ arc_value maker.build };

    ghost may_fail = { λ job fault. fault ≡ OutOfMemory };

    fn begin(&mut self, load: Load<K, J>) -> Result<(), Fault>
        requires takes { IsProbeMaker self.old × AreWholeRows (arc_value self.old.build).asked (load_seen load) }
        requires free { held_token load ≡ None }
        requires none_left { stretch_left self.old.probed ≡ [] }
        ensures joins { (from to : J) → IsProbeMaker self.old × J.gives_rows from (arc_value self.old.build).asked × J.finds (kept_side (arc_value self.old.build)) from to × All (AreLookedUpOf J.suits from) self.old.looked.items → J.suits from (load_seen load) → IsProbeMaker self.new × J.gives_rows from (arc_value self.new.build).asked × J.finds (kept_side (arc_value self.new.build)) from to × All (AreLookedUpOf J.suits from) self.new.looked.items }
        ensures makes_for { OnOk result ((from to : J) → IsProbeMaker self.old × J.gives_rows from (arc_value self.old.build).asked × J.finds (kept_side (arc_value self.old.build)) from to × All (AreLookedUpOf J.suits from) self.old.looked.items → J.suits from (load_seen load) → FindsFor J.suits J.finds (kept_side (arc_value self.new.build)) to self.new.probed) }
        ensures left { OnOk result (stretch_left self.new.probed ≡ ends_of (load_seen load)) }
        ensures did { OnOk result ((taken made : List LoadSeen) → DidProbe self.old taken made → DidProbe self.new (taken ++ load_seen load ∷ []) made) }
        ensures later { arc_value self.new.build ≡ arc_value self.old.build }
        ensures failed { IsOkUnless result OutOfMemory }
    {
        let Load::Morsel(morsel) = load else {
            unreachable!()
        };
        let stretch = morsel.stretch();
        let (frame, seq, source, _) = morsel.into_inner();
        let looked = LookedUp {
            seq,
            stretch,
            frame: Snapshot::of(&frame),
        };
        let probing = self.look_up(frame, looked)?;
        self.probed = Some(Probed {
            probing,
            cutter: RowCutter {
                seq,
                source,
                from: stretch.from,
                to: stretch.to,
                given: 0,
            },
        });
        Ok(())
    }

    fn next(&mut self) -> Result<Option<Load<K, J>>, Fault>
        requires joined { (from : J) × (to : J) × (IsProbeMaker self.old × J.gives_rows from (arc_value self.old.build).asked × J.finds (kept_side (arc_value self.old.build)) from to × All (AreLookedUpOf J.suits from) self.old.looked.items) × FindsFor J.suits J.finds (kept_side (arc_value self.old.build)) to self.old.probed }
        ensures joins { (from to : J) → IsProbeMaker self.old × J.gives_rows from (arc_value self.old.build).asked × J.finds (kept_side (arc_value self.old.build)) from to × All (AreLookedUpOf J.suits from) self.old.looked.items → IsProbeMaker self.new × J.gives_rows from (arc_value self.new.build).asked × J.finds (kept_side (arc_value self.new.build)) from to × All (AreLookedUpOf J.suits from) self.new.looked.items }
        ensures suits { IfOk result (λ made. IfSome made (λ load. (to : J) → FindsFor J.suits J.finds (kept_side (arc_value self.old.build)) to self.old.probed → J.suits to (load_seen load))) }
        ensures free { IfOk result (λ made. IfSome made (λ load. held_token load ≡ None)) }
        ensures makes_for { OnOk result ((to : J) → FindsFor J.suits J.finds (kept_side (arc_value self.old.build)) to self.old.probed → FindsFor J.suits J.finds (kept_side (arc_value self.new.build)) to self.new.probed) }
        ensures left { IfOk result (λ made. stretch_left self.old.probed ≡ made_ends made ++ stretch_left self.new.probed) }
        ensures none_left { IfOk result (λ made. made ≡ None → stretch_left self.new.probed ≡ []) }
        ensures did { IfOk result (λ made. (taken before : List LoadSeen) → DidProbe self.old taken before → DidProbe self.new taken (before ++ made_loads made)) }
        ensures later { arc_value self.new.build ≡ arc_value self.old.build }
        ensures failed { IsOkUnless result OutOfMemory }
    {
        let Some(mut probed) = self.probed.take() else {
            return Ok(None);
        };
        let morsel = probed.next(self.alloc, self.rows)?;
        let last = morsel.stretch().last;
        self.probed = probed.unless_last(last);
        Ok(Some(Load::Morsel(morsel)))
    }

    ghost takes_suiting = { λ maker from to seen joins suits. (joins.0, J.are_rows from (arc_value maker.build).asked seen joins.1 suits) };

    ghost later_same = { λ maker. refl };

    ghost later_next = { λ first mid last later more. more ∙ later };
}
