//! The rows of a group-by, as loads.
ghost use Rattle.std.specs.Prelude.{◌≡◌, ◌<◌, ◌≤◌, ◌+◌, [], ◌∷◌, None, length, IfOk, IsOkUnless};
ghost use Rattle.morsel_meaning.specs.declared.fault.Fault.TheVariants.{OutOfMemory};
ghost use Rattle.morsel_rows_job.specs.RowsJobs.{IsCutOf, alone_stretch};
ghost use Rattle.morsel_group_units.specs.GroupGivers.{DidGiveGroups, groups_left};

use morsel_end_units::LoadsGiver;
use morsel_frame::Frame;
use morsel_load::{Load, Morsel, SourceToken, Stretch};
use morsel_meaning::Fault;
use morsel_pipe::MorselSeq;
use morsel_rows_job::RowsJob;
use std::alloc::Global;

/// Gives the rows of a group-by as loads of one place with one number, each of so many rows at most. There is at least one load, which may
/// have no row.
#[derive(Drop)]
pub struct GroupGiver {
    alloc: Global,
    pub(crate) frame: Frame,
    // How many of the rows were given.
    pub(crate) at: usize,
    // How many rows a load has at most.
    pub(crate) rows: usize,
    pub(crate) seq: MorselSeq,
    source: SourceToken,
    // Whether the last load was given.
    pub(crate) ended: bool,
}

impl GroupGiver {
    /// One that has given nothing. Its loads have this number, and tokens of this source.
    pub(crate) fn new(
        alloc: Global,
        frame: Frame,
        rows: usize,
        seq: MorselSeq,
        source: SourceToken,
    ) -> GroupGiver
        ensures frame { result.frame ≡ frame }
        ensures rows { (result.rows ≡ rows) × (result.at ≡ 0) }
        ensures none { DidGiveGroups result [] }
        ensures left { groups_left result.ended ≡ (0, 1) ∷ [] }
    {
        GroupGiver {
            alloc,
            frame,
            at: 0,
            rows,
            seq,
            source,
            ended: false,
        }
    }

    /// The next rows, as a load.
    fn give<K, J>(&mut self) -> Result<Morsel<K, J>, Fault>
        requires within { self.old.at ≤ length self.old.frame.rows }
        ensures same { (self.new.frame ≡ self.old.frame) × (self.new.rows ≡ self.old.rows) × (self.new.seq ≡ self.old.seq) × (self.new.ended ≡ self.old.ended) }
        ensures within { self.new.at ≤ length self.new.frame.rows }
        ensures at { IfOk result (λ morsel. self.new.at ≡ self.old.at + length morsel.frame.rows) }
        ensures columns { IfOk result (λ morsel. morsel.frame.schema ≡ self.old.frame.schema) }
        ensures cut { IfOk result (λ morsel. IsCutOf self.old.frame.rows alone_stretch morsel.frame.rows morsel.stretch) }
        ensures skip { IfOk result (λ morsel. morsel.stretch.skip ≡ self.old.at) }
        ensures free { IfOk result (λ morsel. morsel.consume_token ≡ None) }
        ensures number { IfOk result (λ morsel. morsel.seq ≡ self.old.seq) }
        ensures out_of_memory { IsOkUnless result OutOfMemory }
    {
        let left = self.frame.height() - self.at;
        let some = self.rows.min(left);
        let frame = self.frame.slice(self.alloc, self.at, some)?;
        let mut morsel = Morsel::new(frame, self.seq, self.source.again()?);
        morsel.set_stretch(Stretch {
            from: 0,
            to: 1,
            skip: self.at as u64,
            last: some == left,
        });
        self.at += some;
        Ok(morsel)
    }
}

impl<K: Drop, J: RowsJob<K>> LoadsGiver<K, J> for GroupGiver {
    ghost use Rattle.std.specs.Prelude.{◌≡◌, ◌++◌, [], List, None, IfSome, IfOk, OnOk, IsOkUnless, refl};
    ghost use Rattle.std.proofs.Common.{◌∙◌};
    ghost use Rattle.morsel_meaning.specs.declared.fault.Fault.TheVariants.{OutOfMemory};
    ghost use Rattle.morsel_load.specs.Loads.{LoadSeen, held_token, load_seen};
    ghost use Rattle.morsel_flat_units.specs.FlatUnits.{made_ends, made_loads};
    ghost use Rattle.morsel_group_units.specs.GroupGivers.{DidGiveGroups, GivesGroupsFor, IsLaterGroupGiver, groups_left};

    ghost gives_for = { λ giver to. GivesGroupsFor J.is_given to giver };

    ghost left = { λ giver. groups_left giver.ended };

    ghost did = { λ giver made. DidGiveGroups giver made };

    ghost is_later = { IsLaterGroupGiver };

    ghost may_fail = { λ job fault. fault ≡ OutOfMemory };

    fn next(&mut self) -> Result<Option<Load<K, J>>, Fault>
        requires for_job { (to : J) × GivesGroupsFor J.is_given to self.old }
        ensures suits { IfOk result (λ made. IfSome made (λ load. (to : J) → GivesGroupsFor J.is_given to self.old → J.suits to (load_seen load))) }
        ensures free { IfOk result (λ made. IfSome made (λ load. held_token load ≡ None)) }
        ensures gives_for { OnOk result ((to : J) → GivesGroupsFor J.is_given to self.old → GivesGroupsFor J.is_given to self.new) }
        ensures left { IfOk result (λ made. groups_left self.old.ended ≡ made_ends made ++ groups_left self.new.ended) }
        ensures none_left { IfOk result (λ made. made ≡ None → groups_left self.new.ended ≡ []) }
        ensures did { IfOk result (λ made. (before : List LoadSeen) → DidGiveGroups self.old before → DidGiveGroups self.new (before ++ made_loads made)) }
        ensures later { IsLaterGroupGiver self.old self.new }
        ensures failed { IsOkUnless result OutOfMemory }
    {
        if self.ended {
            return Ok(None);
        }
        let morsel = self.give()?;
        self.ended = morsel.stretch().last;
        Ok(Some(Load::Morsel(morsel)))
    }

    ghost later_same = { λ giver. record { frame = refl; number = refl } };

    ghost later_next = { λ first mid last later more. record { frame = more.frame ∙ later.frame; number = more.number ∙ later.number } };
}
