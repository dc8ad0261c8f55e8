//! The node of a join.
ghost use Rattle.std.specs.Prelude.{◌<◌};

use crate::back::split;
use crate::ends::{take_end, take_ends};
use crate::join_unit::{JoinOut, JoinUnit};
use crate::unit_maker::{paired, units_behind};
use crate::units::{KeepingUnits, ProbingUnits, giving_unit};
use morsel_end_units::{GiveUnit, KeepUnit};
use morsel_flat_units::FlatUnit;
use morsel_frame::Schema;
use morsel_join::JoinRules;
use morsel_join_phases::{BuildPhase, JoinPhase, JoinPorts};
use morsel_join_units::{LoneGiver, ProbeMaker, RowKeeper};
use morsel_lane_pipe::{ReceiptsOf, Stepwise};
use morsel_load::{Load, LoadJob};
use morsel_meaning::Fault;
use morsel_ports::{ComputeNode, Ends, PortKind, PortState};
use morsel_prims::{LaneReceiver, LaneSender, Lanes, Task, Tokens};
use morsel_rows_job::RowsJob;
use morsel_stage::OneOf;
use std::alloc::Global;
use std::mem;

/// A join by equal keys: the rows of one side are kept, and the other side's rows looked up in them.
///
/// It has two receiving ports, of the rows that are kept and of those that are looked up, and one sending port.
#[derive(Drop)]
pub struct EquiJoinNode<K, J: RowsJob<K>> {
    alloc: Global,
    // How many rows a load has at most that it makes.
    rows: usize,
    /// What it has in its phase.
    pub phase: JoinPhase<K, J>,
    // For how many pipelines it was made ready.
    pipelines: Option<u32>,
    // How many units are out.
    units: u32,
    ghost some: { 0 < rows },
}

impl<K, J: RowsJob<K>> EquiJoinNode<K, J> {
    ghost use Rattle.std.specs.Prelude.{◌≡◌, ◌==◌, ◌<◌, List, None, Some, IfSome, IsOkUnless, OnErr, OnOk};
    ghost use Rattle.morsel_meaning.specs.declared.fault.Fault.TheVariants.{OutOfMemory};
    ghost use Rattle.morsel_meaning.specs.declared.value.Field.{Field};
    ghost use Rattle.morsel_meaning.specs.Values.{Row};
    ghost use Rattle.morsel_join.specs.declared.build_side.Build.{Build};
    ghost use Rattle.morsel_join.specs.BuildSides.{IsBuild, kept_side};
    ghost use Rattle.morsel_join.specs.Rows.{keeps_left};
    ghost use Rattle.morsel_join.specs.Sides.{FitSides};
    ghost use Rattle.morsel_join_phases.specs.declared.places.JoinAt.{JoinAt};
    ghost use Rattle.morsel_join_phases.specs.JoinPhases.{FitsJoin, asked_job_of, asked_of, asked_rows_of, asked_to_of, at_of, build_of, kept_job_of, kept_to_of, marks_of, rules_of};

    /// A node that is not made ready yet, and has kept nothing.
    ///
    /// The rules are those of a join of rows with these columns: of the side that they say, and of the other one. The lanes of either
    /// are for these jobs. A load that it makes has so many rows at most.
    pub fn new(
        alloc: Global,
        rules: JoinRules,
        columns: Schema,
        asked: Schema,
        job: &J,
        asked_job: &J,
        rows: usize,
    ) -> EquiJoinNode<K, J>
        requires fit { FitSides (keeps_left rules.how rules.maintain_order) columns asked rules }
        requires rows { J.gives_rows job.now columns }
        requires asks { J.gives_rows asked_job.now asked }
        requires some { 0 < rows }
        ensures at { at_of result.phase ≡ JoinAt.Build }
        ensures rules { rules_of result.phase ≡ Some rules }
        ensures asked { asked_of result.phase ≡ Some asked }
        ensures job { (kept_job_of result.phase ≡ Some job.now) × (asked_job_of result.phase ≡ Some asked_job.now) }
        ensures fits { (other sent : J) → FitsJoin J.gives_rows J.gives J.is_all J.finds J.is_alone result.phase job.now other sent }
        ensures none { (result.pipelines ≡ None) × (result.units ≡ 0) }
    {
        EquiJoinNode {
            alloc,
            rows,
            phase: JoinPhase::Build(BuildPhase::new(alloc, rules, columns, asked, job, asked_job)),
            pipelines: None,
            units: 0,
        }
    }

    /// Whether all units that were taken were given back.
    pub fn is_idle(&self) -> bool
        ensures { result ≡ (self.now.units == 0) }
    {
        self.units == 0
    }

    /// Up to which place of their lanes rows were kept; it is known from the end of the phase that keeps them to that of the next one.
    pub fn kept_to(&self) -> Option<u64>
        ensures to { result ≡ kept_to_of self.now.phase }
        ensures gives { IfSome result (λ to. (build : Build) (job : J) → build_of self.now.phase ≡ Some build → kept_job_of self.now.phase ≡ Some job → ∥ J.gives job 0 to (kept_side build).rows ∥₁) }
        ensures built { IfSome result (λ to. (build : Build) → build_of self.now.phase ≡ Some build → IsBuild build) }
    {
        self.phase.kept_to()
    }

    /// Up to which place of their lanes rows were looked up; it is known while the kept rows that none found are given.
    pub fn asked_to(&self) -> Option<u64>
        ensures to { result ≡ asked_to_of self.now.phase }
        ensures gives { IfSome result (λ to. (job : J) (rows : List Row) → asked_job_of self.now.phase ≡ Some job → asked_rows_of self.now.phase ≡ Some rows → ∥ J.gives job 0 to rows ∥₁) }
    {
        self.phase.asked_to()
    }

    /// From now on the rows that are looked up are those of lanes for this job. No unit was taken yet that looks rows up.
    ///
    /// It answers that there is no memory where the node is in no phase that looks rows up, or some were looked up.
    pub fn look_up_in(&mut self, job: &J) -> Result<(), Fault>
        requires rows { (columns : List Field) → asked_of self.old.phase ≡ Some columns → J.gives_rows job.now columns }
        ensures looks { OnOk result ((at_of self.new.phase ≡ JoinAt.Probe) × (asked_job_of self.new.phase ≡ Some job.now)) }
        ensures same { OnOk result ((rules_of self.new.phase ≡ rules_of self.old.phase) × (asked_of self.new.phase ≡ asked_of self.old.phase) × (kept_job_of self.new.phase ≡ kept_job_of self.old.phase) × (build_of self.new.phase ≡ build_of self.old.phase) × (marks_of self.new.phase ≡ marks_of self.old.phase) × (kept_to_of self.new.phase ≡ kept_to_of self.old.phase)) }
        ensures err { OnErr result (self.new.phase ≡ self.old.phase) }
        ensures none { (self.new.pipelines ≡ self.old.pipelines) × (self.new.units ≡ self.old.units) }
        ensures out_of_memory { IsOkUnless result OutOfMemory }
    {
        self.phase.look_up_in(job)
    }
}

impl<L, J> ComputeNode<L, J> for EquiJoinNode<<L as Tokens>::Token, J>
where
    L: Tokens + Lanes<Load<<L as Tokens>::Token, J>>,
    J: RowsJob<<L as Tokens>::Token>,
{
    ghost use Rattle.std.specs.Prelude.{◌≡◌, ◌∷◌, [], false, Some, codes};
    ghost use Rattle.std.specs.Arc.{arc_value};
    ghost use Rattle.morsel_meaning.specs.declared.fault.Fault.TheVariants.{OutOfMemory};
    ghost use Rattle.morsel_join_phases.specs.JoinTables.{MakesAt, is_keeping, recv_kinds_at, send_kinds_at};
    ghost use Rattle.morsel_join_phases.specs.JoinPhases.{FitsJoin, MovesJoin, asked_job_of, at_of, build_of, kept_job_of};
    ghost use Rattle.morsel_join_node.specs.JoinUnits.{IsUnitAt, end_of_join, unit_lanes};
    ghost use Rattle.morsel_join_node.specs.JoinNodes.{StaysNode};

    type Unit = JoinUnit<L, J>;

    ghost seen = { λ node. record { name = codes "equi_join"; blocks = is_keeping (at_of node.phase); pipelines = node.pipelines; recv_kinds = recv_kinds_at (at_of node.phase); send_kinds = send_kinds_at (at_of node.phase); units = node.units } };

    // A unit that keeps rows, or looks rows up, takes those of the lanes that the node has them of; what it looks up, or gives, it has the node's kept rows for.
    ghost is_unit = { λ node unit. IsUnitAt (at_of node.phase) unit.task (λ task. kept_job_of node.phase ≡ Some (L.Receiver.job task.from)) (λ task. (build_of node.phase ≡ Some (arc_value task.maker.build)) × (asked_job_of node.phase ≡ Some (L.Receiver.job task.from))) (λ task. build_of node.phase ≡ Some (arc_value task.giver.lone.build)) };

    ghost unit_seen = { λ unit. unit_lanes ⟦<KeepUnit<L, J, RowKeeper> as Stepwise<L::Board>>⟧.seen ⟦<FlatUnit<L, J, ProbeMaker> as Stepwise<L::Board>>⟧.seen ⟦<GiveUnit<L, J, LoneGiver> as Stepwise<L::Board>>⟧.seen unit.task };

    ghost unit_fails = { λ unit fault. fault ≡ OutOfMemory };

    ghost end_of = { λ out. end_of_join out };

    ghost fits = { λ node from to. (kept : J) × (asked : J) × (sent : J) × (from ≡ kept ∷ asked ∷ []) × (to ≡ sent ∷ []) × FitsJoin J.gives_rows J.gives J.is_all J.finds J.is_alone node.phase kept asked sent };

    ghost makes = { λ node taken sent. MakesAt (at_of node.phase) taken sent };

    ghost fails = { λ node jobs fault. fault ≡ OutOfMemory };

    ghost moves = { λ node recv send now recv_now send_now. MovesJoin node.phase recv send now.phase recv_now send_now };

    ghost asks_apart = { λ node. false };

    ghost took = { λ node lists. Unit {0} };

    ghost stays = { λ begun node. StaysNode begun node };

    fn name(&self) -> &str {
        "equi_join"
    }

    fn is_memory_intensive_pipeline_blocker(&self) -> bool {
        self.phase.at().is_keeping()
    }

    fn initialize(&mut self, pipelines: u32) {
        self.pipelines = Some(pipelines);
    }

    fn update_state(
        &mut self,
        recv: &mut [PortState],
        send: &mut [PortState],
    ) -> Result<(), Fault> {
        let told = JoinPorts::told_by(recv, send);
        let phase = mem::replace(&mut self.phase, JoinPhase::Done);
        let moved = phase.moved(self.alloc, told)?;
        self.phase = moved;
        self.phase.at().answer(told).tell(recv, send);
        Ok(())
    }

    fn recv_kind(&self, port: u32) -> PortKind {
        self.phase.at().recv_kind(port)
    }

    fn send_kind(&self, _port: u32) -> PortKind {
        self.phase.at().send_kind()
    }

    fn take_tasks(
        &mut self,
        alloc: Global,
        _board: &mut L::Board,
        recv: &mut Vec<Ends<L::Receiver>>,
        send: &mut Vec<Ends<L::Sender>>,
    ) -> Result<Vec<JoinUnit<L, J>>, Fault> {
        match &self.phase {
            JoinPhase::Build(_) => {
                let ends = take_ends(recv, 0);
                let keeping = units_behind(alloc, &KeepingUnits::<L, J>::new(), ends)?;
                // There are as many units as ends, and as many ends as pipelines.
                self.units = self.pipelines.unwrap_or(0);
                Ok(keeping)
            }
            JoinPhase::Probe(probe) => {
                let froms = take_ends(recv, 1);
                let tos = take_ends(send, 0);
                let build = probe.build()?;
                let maker = ProbingUnits::<L, J>::new(build, self.rows);
                let pairs = paired(alloc, froms, tos)?;
                let probing = units_behind(alloc, &maker, pairs)?;
                self.units = self.pipelines.unwrap_or(0);
                Ok(probing)
            }
            JoinPhase::Emit(_) => {
                let to = take_end(send);
                let giver = self.phase.take_giver(alloc, self.rows)?;
                let giving = giving_unit::<L, J>(alloc, giver, to)?;
                let mut units = Vec::new(alloc);
                units.push(giving)?;
                self.units = 1;
                Ok(units)
            }
            // The unit that had them did not end whole.
            JoinPhase::Giving(_) | JoinPhase::Given(_) => Err(Fault::OutOfMemory),
            JoinPhase::Done => Ok(Vec::new(alloc)),
        }
    }

    fn give_back(&mut self, alloc: Global, out: JoinOut<L, J>) -> Result<ReceiptsOf<L, J>, Fault> {
        self.units -= 1;
        match out {
            OneOf::First(out) => {
                let (keeper, receipts) = split(alloc, out);
                self.phase.keep(keeper);
                receipts
            }
            OneOf::Second(out) => {
                let (maker, receipts) = split(alloc, out);
                self.phase.mark(maker);
                receipts
            }
            OneOf::Third(out) => {
                let (giver, receipts) = split(alloc, out);
                self.phase.end(giver);
                receipts
            }
        }
    }
}
