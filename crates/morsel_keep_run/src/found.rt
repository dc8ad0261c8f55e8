//! The run of three nodes, the second of which gives what it finds for what the first one gives, and the third of which keeps that.
ghost use Rattle.std.specs.Prelude.{◌≡◌, All, IfOk, IfSome, IsSome, IsOkUnless, ◌≤◌};
ghost use Rattle.morsel_meaning.specs.declared.fault.Fault.{Fault};
ghost use Rattle.morsel_meaning.specs.declared.fault.Fault.TheVariants.{OutOfMemory};
ghost use Rattle.morsel_lane_pipe.specs.Tasks.{HoldsTokensOf};
ghost use Rattle.morsel_pair.specs.Pairs.{ByEither};
ghost use Rattle.morsel_phase.specs.Lines.{IsLineNode};
ghost use Rattle.morsel_read.specs.ScanReads.{pieces_at_start, SuitsPieces};
ghost use Rattle.morsel_scan_units.specs.LaneJobs.{IsUnitFault};
ghost use Rattle.morsel_join_lines.specs.JoinNodes.{AreForOne, AreForSecond, IsFinding, KeepsFor};
ghost use Rattle.morsel_join_lines.specs.TasksOf.{AreTasksOf};
ghost use Rattle.morsel_join_tasks.specs.FedLanes.{IsFedBy};
ghost use Rattle.morsel_join_tasks.specs.Beside.{answer_beside};
ghost use Rattle.morsel_keep_run.specs.KeepRuns.{KeepsOrNot, SweepsKept};

use crate::run::{KeepBase, KeepStart, keep_orders};
use morsel_join_lines::{FindKeepJobs, FindKeepNodes, OpenFindKeep, open_find_keep};
use morsel_join_tasks::pair_units;
use morsel_load::{Load, LoadJob};
use morsel_local::Steps;
use morsel_meaning::Fault;
use morsel_node_stage::NodeTasks;
use morsel_outside::{Gate, Io};
use morsel_pair::PairStage;
use morsel_phase::{LinePlan, MakesPipeTasks, PipeOrder};
use morsel_ports::ComputeNode;
use morsel_prims::{Board, LaneSender, Lanes, Task, Tokens};
use morsel_read::ScanReader;
use morsel_scan_units::{AtHome, LaneJob};
use morsel_stage::Stage;
use rand_xoshiro::Xoshiro256PlusPlus;
use std::alloc::Global;
use std::sync::ledger::Ledger;

/// The two nodes that come back of a line that keeps what is found.
#[derive(Drop)]
pub struct FoundNodes<M, Z> {
    /// The one that finds.
    pub finds: M,
    /// The one that keeps what was found.
    pub keeps: Z,
}

/// The nodes of two stages.
fn nodes_of<L, J, M, Z>(
    kept: Result<(PairStage<NodeTasks<L, J, M>, NodeTasks<L, J, Z>>, u64), Fault>,
) -> Result<(FoundNodes<M, Z>, u64), Fault>
    ensures same { answer_beside result ≡ answer_beside kept }
    ensures nodes { IfOk kept (λ kept. IfOk result (λ end. (end.0.finds ≡ kept.0.first.node) × (end.0.keeps ≡ kept.0.second.node))) }
{
    match kept {
        Ok((stages, given)) => {
            let PairStage { first, second } = stages;
            let NodeTasks { node: finds, .. } = first;
            let NodeTasks { node: keeps, .. } = second;
            Ok((FoundNodes { finds, keeps }, given))
        }
        Err(fault) => Err(fault),
    }
}

/// Gives three nodes their ends on a board, and takes their units. The nodes are lent, and taken.
fn open_found_units<L, K, H, A, M, Z>(
    alloc: Global,
    mut board: L::Board,
    jobs: FindKeepJobs<'_, LaneJob<K, H>>,
    nodes: &mut Option<FindKeepNodes<A, M, Z>>,
    plan: LinePlan,
    rng: Xoshiro256PlusPlus,
) -> Result<
    KeepStart<
        L,
        LaneJob<K, H>,
        NodeTasks<L, LaneJob<K, H>, A>,
        PairStage<NodeTasks<L, LaneJob<K, H>, M>, NodeTasks<L, LaneJob<K, H>, Z>>,
    >,
    Fault,
>
where
    L: Tokens + Lanes<Load<<L as Tokens>::Token, LaneJob<K, H>>>,
    <L as Tokens>::Token: AtHome,
    K: AtHome,
    H: Io,
    A: ComputeNode<L, LaneJob<K, H>> + Drop,
    M: ComputeNode<L, LaneJob<K, H>> + Drop,
    Z: ComputeNode<L, LaneJob<K, H>> + Drop,
    requires first_jobs { AreForOne jobs.fed.now jobs.asked.now jobs.first.recv.now.items jobs.first.send.now.items }
    requires middle_jobs { AreForSecond jobs.asked.now jobs.found.now jobs.middle.recv.now.items jobs.middle.send.now.items }
    requires pipelines { (1 ≤ plan.pipelines) × (plan.pipelines ≤ 32768) }
    requires spread_room { (1 ≤ plan.rooms.spread) × (plan.rooms.spread ≤ 65536) }
    requires merge_room { (1 ≤ plan.rooms.merge) × (plan.rooms.merge ≤ 65536) }
    requires some { IsSome nodes.old }
    requires first { IfSome nodes.old (λ nodes. IsLineNode plan.pipelines (A.seen nodes.first)) }
    requires middle { IfSome nodes.old (λ nodes. IsFinding plan.pipelines (M.seen nodes.middle)) }
    requires last { IfSome nodes.old (λ nodes. KeepsFor plan.pipelines jobs.found.now jobs.last.recv.now.items jobs.last.send.now.items (Z.seen nodes.last)) }
    requires first_fits { IfSome nodes.old (λ nodes. A.fits nodes.first jobs.first.recv.now.items jobs.first.send.now.items) }
    requires middle_fits { IfSome nodes.old (λ nodes. M.fits nodes.middle jobs.middle.recv.now.items jobs.middle.send.now.items) }
    requires last_fits { IfSome nodes.old (λ nodes. Z.fits nodes.last jobs.last.recv.now.items jobs.last.send.now.items) }
    requires first_fails { IfSome nodes.old (λ nodes. (fault : Fault) → A.fails nodes.first jobs.first.recv.now.items fault → IsUnitFault jobs.fed.now fault) }
    requires middle_fails { IfSome nodes.old (λ nodes. (fault : Fault) → M.fails nodes.middle jobs.middle.recv.now.items fault → IsUnitFault jobs.fed.now fault) }
    requires last_fails { IfSome nodes.old (λ nodes. (fault : Fault) → Z.fails nodes.last jobs.last.recv.now.items fault → IsUnitFault jobs.fed.now fault) }
    requires fed_tokens { HoldsTokensOf ⟦<LaneJob<K, H> as LoadJob<<L as Tokens>::Token>>⟧.holds L.token_home jobs.fed.now (L.Board.id board).group_table }
    requires first_tokens { All (λ job. HoldsTokensOf ⟦<LaneJob<K, H> as LoadJob<<L as Tokens>::Token>>⟧.holds L.token_home job (L.Board.id board).group_table) jobs.first.recv.now.items }
    requires middle_tokens { All (λ job. HoldsTokensOf ⟦<LaneJob<K, H> as LoadJob<<L as Tokens>::Token>>⟧.holds L.token_home job (L.Board.id board).group_table) jobs.middle.recv.now.items }
    requires last_tokens { All (λ job. HoldsTokensOf ⟦<LaneJob<K, H> as LoadJob<<L as Tokens>::Token>>⟧.holds L.token_home job (L.Board.id board).group_table) jobs.last.recv.now.items }
    ensures feed { IfOk result (λ start. (L.Sender.home start.base.feed ≡ (L.Board.id start.base.board).lane_table) × (L.Sender.job start.base.feed ≡ jobs.entry.fed.now)) }
    ensures first { IfOk result (λ start. AreTasksOf ⟦<NodeTasks<L, LaneJob<K, H>, A> as Stage<L::Board>>⟧.owes ⟦<NodeTasks<L, LaneJob<K, H>, A> as Stage<L::Board>>⟧.fails (A.Unit.can_poll (L.Board.id start.base.board)) (IsUnitFault jobs.entry.fed.now) start.base.first.stage start.base.first.tasks.items) }
    ensures last { IfOk result (λ start. AreTasksOf ⟦<PairStage<NodeTasks<L, LaneJob<K, H>, M>, NodeTasks<L, LaneJob<K, H>, Z>> as Stage<L::Board>>⟧.owes ⟦<PairStage<NodeTasks<L, LaneJob<K, H>, M>, NodeTasks<L, LaneJob<K, H>, Z>> as Stage<L::Board>>⟧.fails (λ task. ByEither task (M.Unit.can_poll (L.Board.id start.base.board)) (Z.Unit.can_poll (L.Board.id start.base.board))) (IsUnitFault jobs.entry.fed.now) start.base.last.stage start.base.last.tasks.items) }
    ensures finding_stays { (begun : M) → IfSome nodes.old (λ nodes. M.stays begun nodes.middle) → IfOk result (λ start. M.stays begun start.base.last.stage.first.node) }
    ensures keeping_stays { (begun : Z) → IfSome nodes.old (λ nodes. Z.stays begun nodes.last) → IfOk result (λ start. Z.stays begun start.base.last.stage.second.node) }
    ensures ready { IfOk result (λ start. ⟦<PipeOrder<L, LaneJob<K, H>> as MakesPipeTasks<L::Board, LaneJob<K, H>>>⟧.ready start.fed jobs.entry.fed.now (L.Board.id start.base.board)) }
    ensures out_of_memory { IsOkUnless result OutOfMemory }
{
    let Some(nodes) = nodes.take() else {
        unreachable!()
    };
    let lane = jobs.fed;
    let OpenFindKeep {
        first,
        middle,
        last,
        feed,
        fed,
    } = open_find_keep::<L, LaneJob<K, H>, A, M, Z>(
        alloc,
        &mut board,
        jobs,
        nodes,
        plan.pipelines,
    )?;
    let both = pair_units(alloc, &board, lane, middle, last)?;
    let base = KeepBase {
        board,
        first,
        last: both,
        feed,
    };
    let fed = PipeOrder {
        pipe: Some(fed),
        rooms: plan.rooms,
        rng,
    };
    Ok(KeepStart { base, fed })
}

/// Reads a scan's files through three nodes, the second of which gives what it finds for what the first one gives, and the third of
/// which keeps that; answers both, and how many bytes were given. A row finds at most `per_row` others.
///
/// The board and the nodes, which were made ready for the plan's pipelines, are lent, and taken. The reader has read nothing.
#[tactic(auto, using(crate::proofs::KeepLemmas::kept_unswept))]
pub fn keep_found_nodes<L, K, H, A, M, Z, G, Y>(
    alloc: Global,
    io: &mut H,
    reader: ScanReader,
    board: &mut Option<L::Board>,
    jobs: FindKeepJobs<'_, LaneJob<K, H>>,
    nodes: &mut Option<FindKeepNodes<A, M, Z>>,
    plan: LinePlan,
    rng: Xoshiro256PlusPlus,
    gate: &G,
    per_row: u64,
    steps: &mut Steps<Y>,
) -> Result<(FoundNodes<M, Z>, u64), Fault>
where
    L: Tokens + Lanes<Load<<L as Tokens>::Token, LaneJob<K, H>>>,
    <L as Tokens>::Token: AtHome,
    K: AtHome,
    H: Io,
    A: ComputeNode<L, LaneJob<K, H>> + Drop,
    M: ComputeNode<L, LaneJob<K, H>> + Drop,
    Z: ComputeNode<L, LaneJob<K, H>> + Drop,
    G: Gate,
    Y: Ledger,
    requires suits { SuitsPieces (H.seen io.old) reader }
    requires start { reader ≡ pieces_at_start reader.sources }
    requires lane { IsFedBy reader (H.seen io.old) jobs.fed.now }
    requires first_jobs { AreForOne jobs.fed.now jobs.asked.now jobs.first.recv.now.items jobs.first.send.now.items }
    requires middle_jobs { AreForSecond jobs.asked.now jobs.found.now jobs.middle.recv.now.items jobs.middle.send.now.items }
    requires pipelines { (1 ≤ plan.pipelines) × (plan.pipelines ≤ 32768) }
    requires spread_room { (1 ≤ plan.rooms.spread) × (plan.rooms.spread ≤ 65536) }
    requires merge_room { (1 ≤ plan.rooms.merge) × (plan.rooms.merge ≤ 65536) }
    requires some_board { IsSome board.old }
    requires some_nodes { IsSome nodes.old }
    requires first { IfSome nodes.old (λ nodes. IsLineNode plan.pipelines (A.seen nodes.first)) }
    requires middle { IfSome nodes.old (λ nodes. IsFinding plan.pipelines (M.seen nodes.middle)) }
    requires last { IfSome nodes.old (λ nodes. KeepsFor plan.pipelines jobs.found.now jobs.last.recv.now.items jobs.last.send.now.items (Z.seen nodes.last)) }
    requires first_fits { IfSome nodes.old (λ nodes. A.fits nodes.first jobs.first.recv.now.items jobs.first.send.now.items) }
    requires middle_fits { IfSome nodes.old (λ nodes. M.fits nodes.middle jobs.middle.recv.now.items jobs.middle.send.now.items) }
    requires last_fits { IfSome nodes.old (λ nodes. Z.fits nodes.last jobs.last.recv.now.items jobs.last.send.now.items) }
    requires first_fails { IfSome nodes.old (λ nodes. (fault : Fault) → A.fails nodes.first jobs.first.recv.now.items fault → IsUnitFault jobs.fed.now fault) }
    requires middle_fails { IfSome nodes.old (λ nodes. (fault : Fault) → M.fails nodes.middle jobs.middle.recv.now.items fault → IsUnitFault jobs.fed.now fault) }
    requires last_fails { IfSome nodes.old (λ nodes. (fault : Fault) → Z.fails nodes.last jobs.last.recv.now.items fault → IsUnitFault jobs.fed.now fault) }
    requires fed_tokens { IfSome board.old (λ board. HoldsTokensOf ⟦<LaneJob<K, H> as LoadJob<<L as Tokens>::Token>>⟧.holds L.token_home jobs.fed.now (L.Board.id board).group_table) }
    requires first_tokens { IfSome board.old (λ board. All (λ job. HoldsTokensOf ⟦<LaneJob<K, H> as LoadJob<<L as Tokens>::Token>>⟧.holds L.token_home job (L.Board.id board).group_table) jobs.first.recv.now.items) }
    requires middle_tokens { IfSome board.old (λ board. All (λ job. HoldsTokensOf ⟦<LaneJob<K, H> as LoadJob<<L as Tokens>::Token>>⟧.holds L.token_home job (L.Board.id board).group_table) jobs.middle.recv.now.items) }
    requires last_tokens { IfSome board.old (λ board. All (λ job. HoldsTokensOf ⟦<LaneJob<K, H> as LoadJob<<L as Tokens>::Token>>⟧.holds L.token_home job (L.Board.id board).group_table) jobs.last.recv.now.items) }
    ensures sweeps { SweepsKept jobs.entry.fed.now.scan reader per_row (H.seen io.old) steps.old steps.new }
    ensures finding_stays { (begun : M) → IfSome nodes.old (λ nodes. M.stays begun nodes.middle) → IfOk result (λ end. M.stays begun end.0.finds) }
    ensures keeping_stays { (begun : Z) → IfSome nodes.old (λ nodes. Z.stays begun nodes.last) → IfOk result (λ end. Z.stays begun end.0.keeps) }
    ensures keeps { KeepsOrNot jobs.entry.fed.now.scan reader (H.seen io.old) (answer_beside result) (H.seen io.new) }
{
    let Some(board) = board.take() else {
        unreachable!()
    };
    let fed_job = jobs.fed;
    let Ok(start) = open_found_units::<L, K, H, A, M, Z>(alloc, board, jobs, nodes, plan, rng)
    else {
        return Err(Fault::OutOfMemory);
    };
    let KeepStart { base, mut fed } = start;
    let mut base = Some(base);
    let kept = keep_orders::<
        L,
        K,
        H,
        NodeTasks<L, LaneJob<K, H>, A>,
        PairStage<NodeTasks<L, LaneJob<K, H>, M>, NodeTasks<L, LaneJob<K, H>, Z>>,
        PipeOrder<L, LaneJob<K, H>>,
        G,
        Y,
    >(
        alloc, io, reader, fed_job, &mut base, &mut fed, gate, per_row, steps,
    );
    nodes_of(kept)
}
