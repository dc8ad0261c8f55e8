//! The rows of a group-by.

use crate::giver::GroupGiver;
use crate::rules::GroupRules;
use crate::taken_load::TakenLoad;
use morsel_frame::Frame;
use morsel_load::SourceToken;
use morsel_meaning::Fault;
use morsel_pipe::MorselSeq;
use std::alloc::Global;
use std::marker::Model;
use std::snapshot::Snapshot;
use std::sync::Arc;

/// The rows of a group-by. Contracts alone see the loads whose rows were grouped, in the order of the input.
#[derive(Drop)]
pub struct GroupedRows {
    rules: Arc<GroupRules, Global>,
    frame: Frame,
    loads: Snapshot<Vec<TakenLoad>>,
}

impl Model for GroupedRows {
    ghost use Rattle.std.specs.Arc.{arc_value};
    ghost use Rattle.morsel_group_units.specs.GroupKeepers.{AreGroupedRows, GroupedRowsSeen};

    ghost Value = { GroupedRowsSeen };

    ghost view = { λ grouped. record { rules = arc_value grouped.rules; taken = grouped.loads.value.items; frame = grouped.frame } };

    ghost invariant = { λ grouped. AreGroupedRows (record { rules = arc_value grouped.rules; taken = grouped.loads.value.items; frame = grouped.frame }) };
}

impl GroupedRows {
    ghost use Rattle.std.specs.Prelude.{◌≡◌, ◌<◌, [], ◌∷◌, IfOk, IsOkUnless};
    ghost use Rattle.std.specs.Arc.{arc_value};
    ghost use Rattle.morsel_meaning.specs.declared.fault.Fault.TheVariants.{OutOfMemory};
    ghost use Rattle.morsel_group_units.specs.GroupGivers.{DidGiveGroups, groups_left};
    ghost use Rattle.morsel_group_units.specs.GroupKeepers.{AreGroupedRows};

    /// The rows of the group-by of the rows of these loads.
    pub(crate) fn of(
        rules: Arc<GroupRules, Global>,
        frame: Frame,
        loads: &Vec<TakenLoad>,
    ) -> GroupedRows
        requires grouped { AreGroupedRows (record { rules = arc_value rules; taken = loads.now.items; frame = frame }) }
        ensures { result ≡ record { rules = arc_value rules; taken = loads.now.items; frame = frame } }
    {
        GroupedRows {
            rules,
            frame,
            loads: Snapshot::of(loads),
        }
    }

    /// The rows.
    pub fn frame(&self) -> &Frame
        ensures rows { result.now ≡ self.now.frame }
        ensures grouped { AreGroupedRows self.now }
    {
        &self.frame
    }

    /// What gives them, in loads of so many rows at most.
    pub fn giver(self, alloc: Global, rows: usize) -> Result<GroupGiver, Fault>
        requires some { 0 < rows }
        ensures frame { IfOk result (λ giver. giver.frame ≡ self.frame) }
        ensures rows { IfOk result (λ giver. (giver.rows ≡ rows) × (giver.at ≡ 0)) }
        ensures none { IfOk result (λ giver. DidGiveGroups giver []) }
        ensures left { IfOk result (λ giver. groups_left giver.ended ≡ (0, 1) ∷ []) }
        ensures out_of_memory { IsOkUnless result OutOfMemory }
    {
        let GroupedRows { frame, .. } = self;
        Ok(GroupGiver::new(
            alloc,
            frame,
            rows,
            MorselSeq::new(0),
            SourceToken::new(alloc)?,
        ))
    }
}
