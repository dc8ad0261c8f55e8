//! The units of a join between its ends.
ghost use Rattle.std.specs.Prelude.{◌≡◌, [], ◌∷◌, ⊤, IfOk, IsOkUnless};
ghost use Rattle.std.specs.Arc.{arc_value};
ghost use Rattle.morsel_meaning.specs.declared.fault.Fault.TheVariants.{OutOfMemory};
ghost use Rattle.morsel_join_units.specs.LoneGivers.{DidGiveAlone, GivesAloneFor};
ghost use Rattle.morsel_join_phases.specs.declared.places.JoinAt.{JoinAt};
ghost use Rattle.morsel_join_node.specs.JoinUnits.{IsMadeUnit, IsUnitAt, unit_lanes};

use crate::join_unit::JoinUnit;
use crate::unit_maker::UnitMaker;
use morsel_end_units::{GiveUnit, KeepUnit};
use morsel_flat_units::FlatUnit;
use morsel_join::Build;
use morsel_join_units::{LoneGiver, ProbeMaker, RowKeeper};
use morsel_lane_pipe::{Stepping, Stepwise};
use morsel_load::{Load, LoadJob};
use morsel_meaning::Fault;
use morsel_prims::{LaneReceiver, LaneSender, Lanes, Task, Tokens};
use morsel_rows_job::RowsJob;
use morsel_stage::OneOf;
use std::alloc::Global;
use std::marker::PhantomData;
use std::sync::Arc;

/// Makes the units that keep what they take.
#[derive(Drop)]
pub struct KeepingUnits<L, J> {
    lanes: PhantomData<L>,
    jobs: PhantomData<J>,
}

impl<L, J> KeepingUnits<L, J> {
    /// Over any lanes.
    pub fn new() -> KeepingUnits<L, J> {
        KeepingUnits {
            lanes: PhantomData,
            jobs: PhantomData,
        }
    }
}

impl<L, J> UnitMaker for KeepingUnits<L, J>
where
    L: Tokens + Lanes<Load<<L as Tokens>::Token, J>>,
    J: RowsJob<<L as Tokens>::Token>,
{
    ghost use Rattle.std.specs.Prelude.{◌≡◌, [], ◌∷◌, List};
    ghost use Rattle.morsel_meaning.specs.declared.value.Field.{Field};
    ghost use Rattle.morsel_lane_pipe.specs.Tasks.{HoldsTokensOf};
    ghost use Rattle.morsel_join_phases.specs.declared.places.JoinAt.{JoinAt};
    ghost use Rattle.morsel_join_node.specs.JoinUnits.{IsMadeUnit, IsUnitAt, unit_lanes};

    type Ends = L::Receiver;

    type Unit = JoinUnit<L, J>;

    // Of a lane of rows, from which nothing was taken.
    ghost fits = { λ maker from. ((columns : List Field) × J.gives_rows (L.Receiver.job from) columns) × (L.Receiver.taken from ≡ []) };

    ghost made = { λ maker from unit. IsMadeUnit ⟦<JoinUnit<L, J> as Task<L::Board>>⟧.can_poll (λ unit. unit_lanes ⟦<KeepUnit<L, J, RowKeeper> as Stepwise<L::Board>>⟧.seen ⟦<FlatUnit<L, J, ProbeMaker> as Stepwise<L::Board>>⟧.seen ⟦<GiveUnit<L, J, LoneGiver> as Stepwise<L::Board>>⟧.seen unit.task) (λ unit. IsUnitAt JoinAt.Build unit.task (λ task. L.Receiver.job task.from ≡ L.Receiver.job from) (λ task. ⊥) (λ task. ⊥)) (L.Receiver.home from) (L.Receiver.lane from ∷ []) [] (λ id. HoldsTokensOf J.holds L.token_home (L.Receiver.job from) id.group_table) unit };

    fn unit(&self, alloc: Global, from: L::Receiver) -> Result<JoinUnit<L, J>, Fault> {
        let unit = KeepUnit::new(alloc, RowKeeper::new(alloc), from)?;
        let task = OneOf::First(Stepping::new(unit));
        Ok(JoinUnit { task })
    }
}

/// Makes the units that look up what they take, and send what that finds.
#[derive(Drop)]
pub struct ProbingUnits<L, J> {
    // The kept rows.
    pub(crate) build: Arc<Build, Global>,
    // How many rows a load has at most that they send.
    pub(crate) rows: usize,
    lanes: PhantomData<L>,
    jobs: PhantomData<J>,
}

impl<L, J> ProbingUnits<L, J> {
    /// In these kept rows, and with so many rows in a load at most.
    pub fn new(build: Arc<Build, Global>, rows: usize) -> ProbingUnits<L, J>
        ensures build { result.build ≡ build }
        ensures rows { result.rows ≡ rows }
    {
        ProbingUnits {
            build,
            rows,
            lanes: PhantomData,
            jobs: PhantomData,
        }
    }
}

impl<L, J> UnitMaker for ProbingUnits<L, J>
where
    L: Tokens + Lanes<Load<<L as Tokens>::Token, J>>,
    J: RowsJob<<L as Tokens>::Token>,
{
    ghost use Rattle.std.specs.Prelude.{◌≡◌, ◌<◌, [], ◌∷◌};
    ghost use Rattle.std.specs.Arc.{arc_value};
    ghost use Rattle.morsel_join.specs.BuildSides.{IsBuild, kept_side};
    ghost use Rattle.morsel_lane_pipe.specs.Tasks.{HoldsTokensOf};
    ghost use Rattle.morsel_join_phases.specs.declared.places.JoinAt.{JoinAt};
    ghost use Rattle.morsel_join_node.specs.JoinUnits.{CanLookUp, IsMadeUnit, IsUnitAt, unit_lanes};

    type Ends = (L::Receiver, L::Sender);

    type Unit = JoinUnit<L, J>;

    ghost fits = { λ maker ends. IsBuild (arc_value maker.build) × (0 < maker.rows) × CanLookUp L.Receiver.home L.Receiver.job L.Receiver.taken L.Sender.home L.Sender.job L.Sender.sent (λ asked sent. J.gives_rows asked (arc_value maker.build).asked × J.finds (kept_side (arc_value maker.build)) asked sent) ends.0 ends.1 };

    ghost made = { λ maker ends unit. IsMadeUnit ⟦<JoinUnit<L, J> as Task<L::Board>>⟧.can_poll (λ unit. unit_lanes ⟦<KeepUnit<L, J, RowKeeper> as Stepwise<L::Board>>⟧.seen ⟦<FlatUnit<L, J, ProbeMaker> as Stepwise<L::Board>>⟧.seen ⟦<GiveUnit<L, J, LoneGiver> as Stepwise<L::Board>>⟧.seen unit.task) (λ unit. IsUnitAt JoinAt.Probe unit.task (λ task. ⊥) (λ task. (arc_value task.maker.build ≡ arc_value maker.build) × (L.Receiver.job task.from ≡ L.Receiver.job ends.0)) (λ task. ⊥)) (L.Receiver.home ends.0) (L.Receiver.lane ends.0 ∷ []) (L.Sender.lane ends.1 ∷ []) (λ id. HoldsTokensOf J.holds L.token_home (L.Receiver.job ends.0) id.group_table) unit };

    fn unit(&self, alloc: Global, ends: (L::Receiver, L::Sender)) -> Result<JoinUnit<L, J>, Fault> {
        let (from, to) = ends;
        let build = self.build.clone()?;
        let maker = ProbeMaker::new(alloc, build, self.rows)?;
        let unit = FlatUnit::new(alloc, maker, from, to)?;
        let task = OneOf::Second(Stepping::new(unit));
        Ok(JoinUnit { task })
    }
}

/// The unit before an end that sends what a giver has, which has given nothing.
pub fn giving_unit<L, J>(
    alloc: Global,
    giver: LoneGiver,
    to: L::Sender,
) -> Result<JoinUnit<L, J>, Fault>
where
    L: Tokens + Lanes<Load<<L as Tokens>::Token, J>>,
    J: RowsJob<<L as Tokens>::Token>,
    requires gives_for { GivesAloneFor J.is_all J.is_alone (L.Sender.job to) giver }
    requires none { (L.Sender.sent to ≡ []) × DidGiveAlone giver [] }
    ensures made { IfOk result (λ unit. IsMadeUnit ⟦<JoinUnit<L, J> as Task<L::Board>>⟧.can_poll (λ unit. unit_lanes ⟦<KeepUnit<L, J, RowKeeper> as Stepwise<L::Board>>⟧.seen ⟦<FlatUnit<L, J, ProbeMaker> as Stepwise<L::Board>>⟧.seen ⟦<GiveUnit<L, J, LoneGiver> as Stepwise<L::Board>>⟧.seen unit.task) (λ unit. IsUnitAt JoinAt.Emit unit.task (λ task. ⊥) (λ task. ⊥) (λ task. arc_value task.giver.lone.build ≡ arc_value giver.lone.build)) (L.Sender.home to) [] (L.Sender.lane to ∷ []) (λ id. ⊤) unit) }
    ensures out_of_memory { IsOkUnless result OutOfMemory }
{
    let unit = GiveUnit::new(alloc, giver, to)?;
    let task = OneOf::Third(Stepping::new(unit));
    Ok(JoinUnit { task })
}
