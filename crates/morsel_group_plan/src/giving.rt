//! The last phase of a group-by: its rows are written.
ghost use Rattle.std.specs.Prelude.{◌≡◌, ◌⊎◌, ℕ, List, Some, Err, IfErr, IfOk, IfSome, IsSome, OnOk, ◌<◌, ◌≤◌};
ghost use Rattle.std.specs.Arc.{arc_value};
ghost use Rattle.morsel_meaning.specs.declared.fault.Fault.{Fault};
ghost use Rattle.morsel_meaning.specs.declared.fault.Fault.TheVariants.{OutOfMemory};
ghost use Rattle.morsel_load.specs.declared.load.LoadKind.TheVariants.{Morsels, Parts};
ghost use Rattle.morsel_group_units.specs.GroupAsks.{GroupRulesSeen, rules_output};
ghost use Rattle.morsel_group_phases.specs.declared.places.GroupAt.{GroupAt};
ghost use Rattle.morsel_group_phases.specs.GroupPhases.{FitsGroup, KeepsGroup, group_at};
ghost use Rattle.morsel_join_lines.specs.JoinNodes.{AreForOne};
ghost use Rattle.morsel_scan_units.specs.LaneJobs.{LaneFor};
ghost use Rattle.morsel_scan_units.specs.LaneRows.{CarriesCuts, IsGivenLane};
ghost use Rattle.morsel_join_plan.specs.JoinLanes.{HoldsTokensAt, rows_lane};
ghost use Rattle.morsel_group_plan.specs.GroupRuns.{IsLastFault};
ghost use Rattle.morsel_group_plan.specs.GroupLanes.{GivesGroups, GivesStage, HasCauseTo, SweepsGiving, TakesTo};

use crate::lanes::PlaceLanes;
use crate::scan::ScanGroup;
use morsel_group_phases::GroupPhase;
use morsel_join_plan::{AloneLanes, give_into};
use morsel_load::{Load, LoadJob};
use morsel_local::Steps;
use morsel_meaning::Fault;
use morsel_outside::{Gate, Io};
use morsel_plan::ScanRun;
use morsel_ports::{ComputeNode, PortState};
use morsel_prims::{Board, Lanes, Tokens};
use morsel_scan_units::{AtHome, LaneJob};
use morsel_sink::{NDJsonSinkNode, SinkWriter};
use std::alloc::Global;
use std::sync::Arc;
use std::sync::ledger::Ledger;

/// Moves a group-by on that has taken all rows: from now on it gives its own. Where the rows have no group-by, it answers why.
fn end_taking<L, K, H>(node: &mut ScanGroup<L, K, H>) -> Result<(), Fault>
where
    L: Tokens + Lanes<Load<<L as Tokens>::Token, LaneJob<K, H>>>,
    <L as Tokens>::Token: AtHome,
    K: AtHome,
    H: Io,
    requires ready { IsSome (⟦<ScanGroup<L, K, H> as ComputeNode<L, LaneJob<K, H>>>⟧.seen node.old).pipelines }
    requires at { group_at node.old.phase ≡ GroupAt.Sink }
    ensures at { OnOk result (group_at node.new.phase ≡ GroupAt.Source) }
    ensures keeps { OnOk result (KeepsGroup node.old.phase node.new.phase) }
    ensures pipelines { (⟦<ScanGroup<L, K, H> as ComputeNode<L, LaneJob<K, H>>>⟧.seen node.new).pipelines ≡ (⟦<ScanGroup<L, K, H> as ComputeNode<L, LaneJob<K, H>>>⟧.seen node.old).pipelines }
    ensures units { (⟦<ScanGroup<L, K, H> as ComputeNode<L, LaneJob<K, H>>>⟧.seen node.new).units ≡ (⟦<ScanGroup<L, K, H> as ComputeNode<L, LaneJob<K, H>>>⟧.seen node.old).units }
    ensures refused { IfErr result (λ fault. (fault ≡ OutOfMemory) ⊎ ((group : GroupRulesSeen) (ends : List (LaneFor × ℕ)) → TakesTo node.old.phase group ends → HasCauseTo group ends fault)) }
{
    let mut recv = [PortState::Done];
    let mut send = [PortState::Ready];
    <ScanGroup<L, K, H> as ComputeNode<L, LaneJob<K, H>>>::update_state(node, &mut recv, &mut send)
}

/// Moves a group-by on that has taken all rows, and answers what the lanes are for through which its rows are given. Where the rows
/// have no group-by, it answers why.
fn place_of_groups<L, K, H>(
    alloc: Global,
    node: &mut ScanGroup<L, K, H>,
    lanes: PlaceLanes<LaneJob<K, H>>,
) -> Result<AloneLanes<LaneJob<K, H>>, Fault>
where
    L: Tokens + Lanes<Load<<L as Tokens>::Token, LaneJob<K, H>>>,
    <L as Tokens>::Token: AtHome,
    K: AtHome,
    H: Io,
    requires ready { IsSome (⟦<ScanGroup<L, K, H> as ComputeNode<L, LaneJob<K, H>>>⟧.seen node.old).pipelines }
    requires at { group_at node.old.phase ≡ GroupAt.Sink }
    requires rows { lanes.rows.kind ≡ Morsels }
    requires taken { lanes.taken ≡ lanes.rows }
    requires kept { (lanes.kept ≡ lanes.rows) × (lanes.sent ≡ lanes.rows) × (lanes.received ≡ lanes.rows) }
    requires texts { (lanes.given ≡ record lanes.rows { kind = Parts }) × (lanes.text ≡ record lanes.rows { kind = Parts }) }
    ensures at { OnOk result (group_at node.new.phase ≡ GroupAt.Source) }
    ensures pipelines { (⟦<ScanGroup<L, K, H> as ComputeNode<L, LaneJob<K, H>>>⟧.seen node.new).pipelines ≡ (⟦<ScanGroup<L, K, H> as ComputeNode<L, LaneJob<K, H>>>⟧.seen node.old).pipelines }
    ensures units { (⟦<ScanGroup<L, K, H> as ComputeNode<L, LaneJob<K, H>>>⟧.seen node.new).units ≡ (⟦<ScanGroup<L, K, H> as ComputeNode<L, LaneJob<K, H>>>⟧.seen node.old).units }
    ensures rows { IfOk result (λ place. place.rows ≡ lanes.rows) }
    ensures kept { IfOk result (λ place. place.kept ≡ record place.rows { stage = place.given.stage }) }
    ensures texts { IfOk result (λ place. place.given ≡ record place.rows { kind = Parts; stage = place.given.stage }) }
    ensures first { IfOk result (λ place. AreForOne place.rows place.kept place.first.recv.items place.first.send.items) }
    ensures last { IfOk result (λ place. AreForOne place.kept place.given place.last.recv.items place.last.send.items) }
    ensures fits { IfOk result (λ place. FitsGroup CarriesCuts IsGivenLane node.new.phase place.rows place.kept) }
    ensures gives { IfOk result (λ place. (group : GroupRulesSeen) (ends : List (LaneFor × ℕ)) → TakesTo node.old.phase group ends → GivesStage group ends place.given.stage) }
    ensures refused { IfErr result (λ fault. (fault ≡ OutOfMemory) ⊎ ((group : GroupRulesSeen) (ends : List (LaneFor × ℕ)) → TakesTo node.old.phase group ends → HasCauseTo group ends fault)) }
{
    match end_taking::<L, K, H>(node) {
        Ok(()) => {}
        Err(fault) => return Err(fault),
    }
    let GroupPhase::Source(_) = &node.phase else {
        return Err(Fault::OutOfMemory);
    };
    let Some(frame) = node.frame() else {
        return Err(Fault::OutOfMemory);
    };
    match lanes.of_rows(alloc, frame) {
        Ok(place) => Ok(place),
        Err(fault) => Err(fault),
    }
}

/// What a run answers that reads nothing: any fault of it but that of a write is want of memory.
fn of_writing(written: Result<u64, Fault>) -> Result<u64, Fault>
    ensures last { IfErr result IsLastFault }
    ensures same { (result ≡ written) ⊎ ((fault : Fault) × (written ≡ Err fault) × (result ≡ Err OutOfMemory)) }
{
    match written {
        Ok(count) => Ok(count),
        Err(Fault::WriteFault) => Err(Fault::WriteFault),
        Err(_) => Err(Fault::OutOfMemory),
    }
}

/// Writes the rows of a group-by that has taken all rows into the last sink; answers how many there are.
///
/// The group-by and the board are lent, and taken; the writer has written no row. The sink is of the columns of the group-by's rows.
pub fn give_groups<L, K, H, G, Y>(
    alloc: Global,
    io: &mut H,
    board: &mut Option<L::Board>,
    lanes: PlaceLanes<LaneJob<K, H>>,
    sink: Arc<NDJsonSinkNode, Global>,
    node: &mut Option<ScanGroup<L, K, H>>,
    writer: SinkWriter,
    run: ScanRun,
    gate: &G,
    steps: &mut Steps<Y>,
) -> Result<u64, Fault>
where
    L: Tokens + Lanes<Load<<L as Tokens>::Token, LaneJob<K, H>>>,
    <L as Tokens>::Token: AtHome + Drop,
    K: AtHome,
    H: Io,
    G: Gate,
    Y: Ledger,
    requires made { 0 < (H.seen io.old).sinks }
    requires none_written { writer.rows ≡ 0 }
    requires pipelines { (1 ≤ run.line.pipelines) × (run.line.pipelines ≤ 32768) }
    requires spread_room { (1 ≤ run.line.rooms.spread) × (run.line.rooms.spread ≤ 65536) }
    requires merge_room { (1 ≤ run.line.rooms.merge) × (run.line.rooms.merge ≤ 65536) }
    requires some_board { IsSome board.old }
    requires tokens { IfSome board.old (λ board. HoldsTokensAt ⟦<LaneJob<K, H> as LoadJob<<L as Tokens>::Token>>⟧.holds L.token_home lanes.rows.tokens (L.Board.id board).group_table) }
    requires rows { lanes.rows ≡ rows_lane lanes.rows.scan lanes.rows.reader lanes.rows.outside lanes.rows.tokens }
    requires taken { lanes.taken ≡ lanes.rows }
    requires kept { (lanes.kept ≡ lanes.rows) × (lanes.sent ≡ lanes.rows) × (lanes.received ≡ lanes.rows) }
    requires texts { (lanes.given ≡ record lanes.rows { kind = Parts }) × (lanes.text ≡ record lanes.rows { kind = Parts }) }
    requires some_node { IsSome node.old }
    requires takes { IfSome node.old (λ node. (group : GroupRulesSeen) × (ends : List (LaneFor × ℕ)) × TakesTo node.phase group ends × (arc_value sink ≡ rules_output group)) }
    requires ready { IfSome node.old (λ node. (⟦<ScanGroup<L, K, H> as ComputeNode<L, LaneJob<K, H>>>⟧.seen node).pipelines ≡ Some run.line.pipelines) }
    requires idle { IfSome node.old (λ node. (⟦<ScanGroup<L, K, H> as ComputeNode<L, LaneJob<K, H>>>⟧.seen node).units ≡ 0) }
    ensures sweeps { IfSome node.old (λ node. (group : GroupRulesSeen) (ends : List (LaneFor × ℕ)) → TakesTo node.phase group ends → SweepsGiving (record { scan = lanes.rows.scan; reader = lanes.rows.reader }) ends lanes.rows.outside steps.old steps.new) }
    ensures gives { IfSome node.old (λ node. (group : GroupRulesSeen) (ends : List (LaneFor × ℕ)) → TakesTo node.phase group ends
        → GivesGroups (record { scan = lanes.rows.scan; reader = lanes.rows.reader }) group ends lanes.rows.outside (H.seen io.old) result (H.seen io.new)) }
{
    let Some(mut first) = node.take() else {
        unreachable!()
    };
    let place = match place_of_groups::<L, K, H>(alloc, &mut first, lanes) {
        Ok(place) => place,
        Err(fault) => return Err(fault),
    };
    of_writing(give_into::<L, K, H, ScanGroup<L, K, H>, G, Y>(
        alloc,
        io,
        board,
        &place,
        sink,
        &mut Some(first),
        writer,
        run,
        gate,
        steps,
    ))
}
