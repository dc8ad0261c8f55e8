//! The units of a group-by between its ends.
ghost use Rattle.std.specs.Prelude.{◌≡◌, [], ◌∷◌, ⊤, IfOk, IsOkUnless};
ghost use Rattle.std.specs.Arc.{arc_value};
ghost use Rattle.morsel_meaning.specs.declared.fault.Fault.TheVariants.{OutOfMemory};
ghost use Rattle.morsel_group_units.specs.GroupGivers.{DidGiveGroups, GivesGroupsFor};
ghost use Rattle.morsel_group_phases.specs.declared.places.GroupAt.{GroupAt};
ghost use Rattle.morsel_join_node.specs.JoinUnits.{IsMadeUnit};
ghost use Rattle.morsel_group_node.specs.GroupUnits.{IsGroupUnitAt, group_lanes};

use crate::group_unit::GroupUnit;
use morsel_end_units::{GiveUnit, KeepUnit};
use morsel_group_units::{GroupGiver, GroupKeeper, GroupRules};
use morsel_join_node::UnitMaker;
use morsel_lane_pipe::{Stepping, Stepwise};
use morsel_load::{Load, LoadJob};
use morsel_meaning::Fault;
use morsel_pair::TwoOf;
use morsel_prims::{LaneReceiver, LaneSender, Lanes, Task, Tokens};
use morsel_rows_job::RowsJob;
use std::alloc::Global;
use std::marker::PhantomData;
use std::sync::Arc;

/// Makes the units that take rows into groups.
#[derive(Drop)]
pub struct TakingUnits<L, J> {
    // What is asked of the group-by.
    pub(crate) rules: Arc<GroupRules, Global>,
    lanes: PhantomData<L>,
    jobs: PhantomData<J>,
}

impl<L, J> TakingUnits<L, J> {
    /// Of a group-by that is asked for this.
    pub fn new(rules: Arc<GroupRules, Global>) -> TakingUnits<L, J>
        ensures { result.rules ≡ rules }
    {
        TakingUnits {
            rules,
            lanes: PhantomData,
            jobs: PhantomData,
        }
    }
}

impl<L, J> UnitMaker for TakingUnits<L, J>
where
    L: Tokens + Lanes<Load<<L as Tokens>::Token, J>>,
    J: RowsJob<<L as Tokens>::Token>,
{
    ghost use Rattle.std.specs.Prelude.{◌≡◌, [], ◌∷◌};
    ghost use Rattle.std.specs.Arc.{arc_value};
    ghost use Rattle.morsel_lane_pipe.specs.Tasks.{HoldsTokensOf};
    ghost use Rattle.morsel_group_phases.specs.declared.places.GroupAt.{GroupAt};
    ghost use Rattle.morsel_join_node.specs.JoinUnits.{IsMadeUnit};
    ghost use Rattle.morsel_group_node.specs.GroupUnits.{IsGroupUnitAt, group_lanes};

    type Ends = L::Receiver;

    type Unit = GroupUnit<L, J>;

    // Of a lane of rows of the columns that are grouped, from which nothing was taken.
    ghost fits = { λ maker from. J.gives_cuts (L.Receiver.job from) (arc_value maker.rules).columns × (L.Receiver.taken from ≡ []) };

    ghost made = { λ maker from unit. IsMadeUnit ⟦<GroupUnit<L, J> as Task<L::Board>>⟧.can_poll (λ unit. group_lanes ⟦<KeepUnit<L, J, GroupKeeper> as Stepwise<L::Board>>⟧.seen ⟦<GiveUnit<L, J, GroupGiver> as Stepwise<L::Board>>⟧.seen unit.task) (λ unit. IsGroupUnitAt GroupAt.Sink unit.task (λ task. (L.Receiver.job task.from ≡ L.Receiver.job from) × (task.keeper.rules ≡ arc_value maker.rules)) (λ task. ⊥)) (L.Receiver.home from) (L.Receiver.lane from ∷ []) [] (λ id. HoldsTokensOf J.holds L.token_home (L.Receiver.job from) id.group_table) unit };

    fn unit(&self, alloc: Global, from: L::Receiver) -> Result<GroupUnit<L, J>, Fault> {
        let keeper = GroupKeeper::new(alloc, &self.rules)?;
        let unit = KeepUnit::new(alloc, keeper, from)?;
        let task = TwoOf::First(Stepping::new(unit));
        Ok(GroupUnit { task })
    }
}

/// The unit before an end that sends what a giver has, which has given nothing.
pub fn giving_unit<L, J>(
    alloc: Global,
    giver: GroupGiver,
    to: L::Sender,
) -> Result<GroupUnit<L, J>, Fault>
where
    L: Tokens + Lanes<Load<<L as Tokens>::Token, J>>,
    J: RowsJob<<L as Tokens>::Token>,
    requires gives_for { GivesGroupsFor J.is_given (L.Sender.job to) giver }
    requires none { (L.Sender.sent to ≡ []) × DidGiveGroups giver [] }
    ensures made { IfOk result (λ unit. IsMadeUnit ⟦<GroupUnit<L, J> as Task<L::Board>>⟧.can_poll (λ unit. group_lanes ⟦<KeepUnit<L, J, GroupKeeper> as Stepwise<L::Board>>⟧.seen ⟦<GiveUnit<L, J, GroupGiver> as Stepwise<L::Board>>⟧.seen unit.task) (λ unit. IsGroupUnitAt GroupAt.Source unit.task (λ task. ⊥) (λ task. task.giver.frame ≡ giver.frame)) (L.Sender.home to) [] (L.Sender.lane to ∷ []) (λ id. ⊤) unit) }
    ensures out_of_memory { IsOkUnless result OutOfMemory }
{
    let unit = GiveUnit::new(alloc, giver, to)?;
    let task = TwoOf::Second(Stepping::new(unit));
    Ok(GroupUnit { task })
}
