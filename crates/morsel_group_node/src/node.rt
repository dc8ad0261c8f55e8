//! The node of a group-by.
ghost use Rattle.std.specs.Prelude.{◌<◌};

use crate::back::split;
use crate::ends::{take_end, take_ends};
use crate::group_unit::{GroupOut, GroupUnit};
use crate::units::{TakingUnits, giving_unit};
use morsel_end_units::{GiveUnit, KeepUnit};
use morsel_frame::Frame;
use morsel_group_phases::{GroupPhase, GroupPorts, SinkPhase};
use morsel_group_units::{GroupGiver, GroupKeeper, GroupRules};
use morsel_join_node::units_behind;
use morsel_lane_pipe::{ReceiptsOf, Stepwise};
use morsel_load::{Load, LoadJob};
use morsel_meaning::Fault;
use morsel_pair::TwoOf;
use morsel_ports::{ComputeNode, Ends, PortKind, PortState};
use morsel_prims::{LaneReceiver, LaneSender, Lanes, Task, Tokens};
use morsel_rows_job::RowsJob;
use std::alloc::Global;
use std::mem;
use std::sync::Arc;

/// A group-by: rows are taken into groups, and one row for each key is given.
///
/// It has one receiving port and one sending port.
#[derive(Drop)]
pub struct GroupByNode<K, J: RowsJob<K>> {
    alloc: Global,
    // How many rows a load has at most that it makes.
    rows: usize,
    /// What it has in its phase.
    pub phase: GroupPhase<K, J>,
    // For how many pipelines it was made ready.
    pipelines: Option<u32>,
    // How many units are out.
    units: u32,
    ghost some: { 0 < rows },
}

impl<K, J: RowsJob<K>> GroupByNode<K, J> {
    ghost use Rattle.std.specs.Prelude.{◌≡◌, ◌==◌, ◌<◌, ◌++◌, ◌∷◌, [], None, Some, IfOk, IfSome, IsSome, IsOkUnless, OnErr, OnOk};
    ghost use Rattle.std.specs.Arc.{arc_value};
    ghost use Rattle.morsel_meaning.specs.declared.fault.Fault.TheVariants.{OutOfMemory};
    ghost use Rattle.morsel_group_units.specs.GroupAsks.{GroupRulesSeen};
    ghost use Rattle.morsel_group_phases.specs.declared.places.GroupAt.{GroupAt};
    ghost use Rattle.morsel_group_phases.specs.GroupPhases.{FitsGroup, GivesGroupsOf, ends_of_group, frame_of_group, group_at, group_job, group_rules, past_ends};

    /// A node that is not made ready yet, and has taken nothing. Its lanes, for this job, give rows of the columns that are grouped. A load that
    /// it makes has so many rows at most.
    pub fn new(
        alloc: Global,
        rules: Arc<GroupRules, Global>,
        job: &J,
        rows: usize,
    ) -> GroupByNode<K, J>
        requires cuts { J.gives_cuts job.now (arc_value rules).columns }
        requires some { 0 < rows }
        ensures at { group_at result.phase ≡ GroupAt.Sink }
        ensures rules { group_rules result.phase ≡ Some (arc_value rules) }
        ensures job { group_job result.phase ≡ Some job.now }
        ensures ends { past_ends result.phase ≡ [] }
        ensures fits { (sent : J) → FitsGroup J.gives_cuts J.is_given result.phase job.now sent }
        ensures none { (result.pipelines ≡ None) × (result.units ≡ 0) }
    {
        GroupByNode {
            alloc,
            rows,
            phase: GroupPhase::Sink(SinkPhase::new(alloc, rules, job)),
            pipelines: None,
            units: 0,
        }
    }

    /// Whether all units that were taken were given back.
    pub fn is_idle(&self) -> bool
        ensures { result ≡ (self.now.units == 0) }
    {
        self.units == 0
    }

    /// Up to which place of the present lanes rows were taken, while they are.
    pub fn taken_to(&self) -> Option<u64>
        ensures to { IfSome result (λ to. (job : J) → group_job self.now.phase ≡ Some job → ends_of_group self.now.phase ≡ Some (past_ends self.now.phase ++ (job, to) ∷ [])) }
        ensures there { group_at self.now.phase ≡ GroupAt.Sink → IsSome result }
        ensures job { IfSome result (λ to. IsSome (group_job self.now.phase)) }
    {
        self.phase.taken_to()
    }

    /// From now on the rows are those of lanes for this job, behind all that were taken. No unit is out.
    ///
    /// Where it takes no rows, or some of those that were taken are missing, it answers that there is no memory; then it is done.
    pub fn take_from(&mut self, job: &J) -> Result<(), Fault>
        requires cuts { (rules : GroupRulesSeen) → group_rules self.old.phase ≡ Some rules → J.gives_cuts job.now rules.columns }
        ensures takes { OnOk result ((group_at self.new.phase ≡ GroupAt.Sink) × (group_job self.new.phase ≡ Some job.now)) }
        ensures rules { OnOk result (group_rules self.new.phase ≡ group_rules self.old.phase) }
        ensures ends { OnOk result (ends_of_group self.old.phase ≡ Some (past_ends self.new.phase)) }
        ensures err { OnErr result (group_at self.new.phase ≡ GroupAt.Done) }
        ensures none { (self.new.pipelines ≡ self.old.pipelines) × (self.new.units ≡ self.old.units) }
        ensures out_of_memory { IsOkUnless result OutOfMemory }
    {
        self.phase.take_from(self.alloc, job)
    }

    /// Its rows, once no more rows come and until a unit has them: they are the group-by of all rows of its lanes up to their ends.
    pub fn frame(&self) -> Option<&Frame>
        ensures frame { IfSome result (λ frame. frame_of_group self.now.phase ≡ Some frame.now) }
        ensures grouped { IfSome result (λ frame. (rules : GroupRulesSeen) → group_rules self.now.phase ≡ Some rules → GivesGroupsOf J.yields self.now.phase rules frame.now) }
        ensures known { IfSome result (λ frame. IsSome (group_rules self.now.phase) × IsSome (ends_of_group self.now.phase)) }
    {
        self.phase.frame()
    }
}

impl<L, J> ComputeNode<L, J> for GroupByNode<<L as Tokens>::Token, J>
where
    L: Tokens + Lanes<Load<<L as Tokens>::Token, J>>,
    J: RowsJob<<L as Tokens>::Token>,
{
    ghost use Rattle.std.specs.Prelude.{◌≡◌, ◌⊎◌, ◌∷◌, [], false, Some, codes};
    ghost use Rattle.morsel_meaning.specs.declared.fault.Fault.TheVariants.{OutOfMemory};
    ghost use Rattle.morsel_group_phases.specs.GroupTables.{MakesGroups, group_recv_kinds, group_send_kinds};
    ghost use Rattle.morsel_group_phases.specs.GroupPhases.{FitsGroup, IsFaultOfGroups, MovesGroup, frame_of_group, group_at, group_job, group_rules};
    ghost use Rattle.morsel_group_node.specs.GroupUnits.{IsGroupUnitAt, end_of_group, group_lanes};
    ghost use Rattle.morsel_group_node.specs.GroupNodes.{StaysGroupNode};

    type Unit = GroupUnit<L, J>;

    ghost seen = { λ node. record { name = codes "group_by"; blocks = false; pipelines = node.pipelines; recv_kinds = group_recv_kinds (group_at node.phase); send_kinds = group_send_kinds (group_at node.phase); units = node.units } };

    // A unit that takes rows takes those of the lanes that the node has them of, for what the node is asked for; what it gives are the node's rows.
    ghost is_unit = { λ node unit. IsGroupUnitAt (group_at node.phase) unit.task (λ task. (group_job node.phase ≡ Some (L.Receiver.job task.from)) × (group_rules node.phase ≡ Some task.keeper.rules)) (λ task. frame_of_group node.phase ≡ Some task.giver.frame) };

    ghost unit_seen = { λ unit. group_lanes ⟦<KeepUnit<L, J, GroupKeeper> as Stepwise<L::Board>>⟧.seen ⟦<GiveUnit<L, J, GroupGiver> as Stepwise<L::Board>>⟧.seen unit.task };

    ghost unit_fails = { λ unit fault. fault ≡ OutOfMemory };

    ghost end_of = { λ out. end_of_group out };

    ghost fits = { λ node from to. (job : J) × (sent : J) × (from ≡ job ∷ []) × (to ≡ sent ∷ []) × FitsGroup J.gives_cuts J.is_given node.phase job sent };

    ghost makes = { λ node taken sent. MakesGroups (group_at node.phase) (frame_of_group node.phase) taken sent };

    // A fault of the group-by comes where its states move, once all rows were taken; no unit tells one.
    ghost fails = { λ node jobs fault. (fault ≡ OutOfMemory) ⊎ ((jobs ≡ []) × IsFaultOfGroups J.yields node.phase fault) };

    ghost moves = { λ node recv send now recv_now send_now. MovesGroup node.phase recv send now.phase recv_now send_now };

    ghost asks_apart = { λ node. false };

    ghost took = { λ node lists. Unit {0} };

    ghost stays = { λ begun node. StaysGroupNode begun node };

    fn name(&self) -> &str {
        "group_by"
    }

    fn is_memory_intensive_pipeline_blocker(&self) -> bool {
        false
    }

    fn initialize(&mut self, pipelines: u32) {
        self.pipelines = Some(pipelines);
    }

    fn update_state(
        &mut self,
        recv: &mut [PortState],
        send: &mut [PortState],
    ) -> Result<(), Fault> {
        let told = GroupPorts::told_by(recv, send);
        let phase = mem::replace(&mut self.phase, GroupPhase::Done);
        match phase.moved(self.alloc, told) {
            Ok(moved) => self.phase = moved,
            Err(fault) => return Err(fault),
        }
        self.phase.at().answer().tell(recv, send);
        Ok(())
    }

    fn recv_kind(&self, _port: u32) -> PortKind {
        self.phase.at().recv_kind()
    }

    fn send_kind(&self, _port: u32) -> PortKind {
        self.phase.at().send_kind()
    }

    fn take_tasks(
        &mut self,
        alloc: Global,
        _board: &mut L::Board,
        recv: &mut Vec<Ends<L::Receiver>>,
        send: &mut Vec<Ends<L::Sender>>,
    ) -> Result<Vec<GroupUnit<L, J>>, Fault> {
        match &self.phase {
            GroupPhase::Sink(_) => {
                let ends = take_ends(recv);
                let rules = self.phase.rules()?;
                let maker = TakingUnits::<L, J>::new(rules);
                let taking = units_behind(alloc, &maker, ends)?;
                // There are as many units as ends, and as many ends as pipelines.
                self.units = self.pipelines.unwrap_or(0);
                Ok(taking)
            }
            GroupPhase::Source(_) => {
                let to = take_end(send);
                let giver = self.phase.take_giver(alloc, self.rows)?;
                let giving = giving_unit::<L, J>(alloc, giver, to)?;
                let mut units = Vec::new(alloc);
                units.push(giving)?;
                self.units = 1;
                Ok(units)
            }
            // The unit that had its rows did not end whole.
            GroupPhase::Giving(_) | GroupPhase::Given(_) => Err(Fault::OutOfMemory),
            GroupPhase::Done => Ok(Vec::new(alloc)),
        }
    }

    fn give_back(&mut self, alloc: Global, out: GroupOut<L, J>) -> Result<ReceiptsOf<L, J>, Fault> {
        self.units -= 1;
        match out {
            TwoOf::First(out) => {
                let (keeper, receipts) = split(alloc, out);
                self.phase.keep(keeper);
                receipts
            }
            TwoOf::Second(out) => {
                let (giver, receipts) = split(alloc, out);
                self.phase.end(giver);
                receipts
            }
        }
    }
}
