//! The run of two nodes, the second of which keeps what the first one gives.
ghost use Rattle.std.specs.Prelude.{◌≡◌, All, IfOk, IfSome, IsSome, IsOkUnless, ◌+◌, ◌*◌, ◌≤◌};
ghost use Rattle.std.specs.List.{sum_by};
ghost use Rattle.morsel_meaning.specs.declared.fault.Fault.{Fault};
ghost use Rattle.morsel_meaning.specs.declared.fault.Fault.TheVariants.{OutOfMemory};
ghost use Rattle.morsel_lane_pipe.specs.Tasks.{HoldsTokensOf};
ghost use Rattle.morsel_pair.specs.Pairs.{ByEither};
ghost use Rattle.morsel_phase.specs.Lines.{IsLineNode};
ghost use Rattle.morsel_read.specs.ScanReads.{pieces_at_start, sizes_in, SuitsPieces};
ghost use Rattle.morsel_scan_units.specs.LaneJobs.{IsUnitFault};
ghost use Rattle.morsel_join_lines.specs.JoinNodes.{AreForOne, KeepsFor};
ghost use Rattle.morsel_join_lines.specs.TasksOf.{AreTasksOf};
ghost use Rattle.morsel_join_tasks.specs.FedLanes.{IsFedBy};
ghost use Rattle.morsel_join_tasks.specs.Beside.{answer_beside};
ghost use Rattle.morsel_keep_run.specs.KeepRuns.{KeepsOrNot, SweepsKept};

use crate::line::{KeepParts, keep_parts};
use morsel_join_lines::{KeepJobs, KeepNodes, OpenKeep, open_keep};
use morsel_join_tasks::{pair_units, pipe_units};
use morsel_load::{Load, LoadJob};
use morsel_local::Steps;
use morsel_meaning::Fault;
use morsel_node_stage::{NodeTasks, PipeTasks};
use morsel_outside::{Gate, Io};
use morsel_pair::PairStage;
use morsel_phase::{LinePlan, MakesPipeTasks, PipeOrder};
use morsel_ports::ComputeNode;
use morsel_prims::{Board, LaneSender, Lanes, Task, Tokens};
use morsel_read::ScanReader;
use morsel_scan_units::{AtHome, LaneJob};
use morsel_stage::Stage;
use morsel_stage_tasks::StageTasks;
use rand_xoshiro::Xoshiro256PlusPlus;
use std::alloc::Global;
use std::sync::ledger::Ledger;

/// The tasks of two nodes, and those of the pipe before them.
fn keep_tasks<B, K, H, S, T, U>(
    alloc: Global,
    board: &B,
    lane: &LaneJob<K, H>,
    first: StageTasks<B, S>,
    last: StageTasks<B, T>,
    pipe: StageTasks<B, U>,
) -> Result<StageTasks<B, PairStage<PairStage<S, T>, U>>, Fault>
where
    B: Board,
    K: AtHome,
    H: Io,
    S: Stage<B> + Drop,
    T: Stage<B> + Drop,
    U: Stage<B> + Drop,
    requires first { AreTasksOf S.owes S.fails (S.Task.can_poll (B.id board.now)) (IsUnitFault lane.now) first.stage first.tasks.items }
    requires last { AreTasksOf T.owes T.fails (T.Task.can_poll (B.id board.now)) (IsUnitFault lane.now) last.stage last.tasks.items }
    requires pipe { AreTasksOf U.owes U.fails (U.Task.can_poll (B.id board.now)) (IsUnitFault lane.now) pipe.stage pipe.tasks.items }
    ensures last { IfOk result (λ all. all.stage.first.second ≡ last.stage) }
    ensures tasks { IfOk result (λ all. AreTasksOf ⟦<PairStage<PairStage<S, T>, U> as Stage<B>>⟧.owes ⟦<PairStage<PairStage<S, T>, U> as Stage<B>>⟧.fails (λ task. ByEither task (λ unit. ByEither unit (S.Task.can_poll (B.id board.now)) (T.Task.can_poll (B.id board.now))) (U.Task.can_poll (B.id board.now))) (IsUnitFault lane.now) all.stage all.tasks.items) }
    ensures out_of_memory { IsOkUnless result OutOfMemory }
{
    let nodes = pair_units(alloc, board, lane, first, last)?;
    let all = pair_units(alloc, board, lane, nodes, pipe)?;
    Ok(all)
}

/// Of the stages of a line that keeps, that of the last node.
fn last_of<S: Drop, T, U: Drop>(
    kept: Result<(PairStage<PairStage<S, T>, U>, u64), Fault>,
) -> Result<(T, u64), Fault>
    ensures same { answer_beside result ≡ answer_beside kept }
    ensures stage { IfOk kept (λ kept. IfOk result (λ end. end.0 ≡ kept.0.first.second)) }
{
    match kept {
        Ok((stage, given)) => {
            let PairStage { first: nodes, .. } = stage;
            let PairStage { second: last, .. } = nodes;
            Ok((last, given))
        }
        Err(fault) => Err(fault),
    }
}

/// The node of a stage.
fn node_of<L, J, N>(kept: Result<(NodeTasks<L, J, N>, u64), Fault>) -> Result<(N, u64), Fault>
    ensures same { answer_beside result ≡ answer_beside kept }
    ensures node { IfOk kept (λ kept. IfOk result (λ end. end.0 ≡ kept.0.node)) }
{
    match kept {
        Ok((stage, given)) => {
            let NodeTasks { node, .. } = stage;
            Ok((node, given))
        }
        Err(fault) => Err(fault),
    }
}

/// What a line that keeps is made of, but for the tasks of its pipe: a board, two stages, and the caller's end.
#[derive(Drop)]
pub(crate) struct KeepBase<L, J, S, T>
where
    L: Tokens + Lanes<Load<<L as Tokens>::Token, J>>,
    J: LoadJob<<L as Tokens>::Token>,
    S: Stage<<L as Tokens>::Board>,
    T: Stage<<L as Tokens>::Board>,
{
    pub(crate) board: L::Board,
    pub(crate) first: StageTasks<L::Board, S>,
    pub(crate) last: StageTasks<L::Board, T>,
    pub(crate) feed: L::Sender,
}

/// Makes the tasks of the pipe of a line that keeps, and runs it; answers how many bytes were given, and whose the tasks of the
/// last stage were. A row finds at most so many, or none where it is kept itself.
///
/// What the line is made of is lent, and taken.
#[tactic(auto, using(crate::proofs::KeepLemmas::kept_unswept))]
pub(crate) fn keep_orders<L, K, H, S, T, P, G, Y>(
    alloc: Global,
    io: &mut H,
    reader: ScanReader,
    lane: &LaneJob<K, H>,
    base: &mut Option<KeepBase<L, LaneJob<K, H>, S, T>>,
    fed: &mut P,
    gate: &G,
    per_row: u64,
    steps: &mut Steps<Y>,
) -> Result<(T, u64), Fault>
where
    L: Tokens + Lanes<Load<<L as Tokens>::Token, LaneJob<K, H>>>,
    <L as Tokens>::Token: AtHome,
    K: AtHome,
    H: Io,
    S: Stage<<L as Tokens>::Board> + Drop,
    T: Stage<<L as Tokens>::Board> + Drop,
    P: MakesPipeTasks<<L as Tokens>::Board, LaneJob<K, H>>,
    G: Gate,
    Y: Ledger,
    requires suits { SuitsPieces (H.seen io.old) reader }
    requires start { reader ≡ pieces_at_start reader.sources }
    requires lane { IsFedBy reader (H.seen io.old) lane.now }
    requires some { IsSome base.old }
    requires feed { IfSome base.old (λ base. (L.Sender.home base.feed ≡ (L.Board.id base.board).lane_table) × (L.Sender.job base.feed ≡ lane.now)) }
    requires first { IfSome base.old (λ base. AreTasksOf S.owes S.fails (S.Task.can_poll (L.Board.id base.board)) (IsUnitFault lane.now) base.first.stage base.first.tasks.items) }
    requires last { IfSome base.old (λ base. AreTasksOf T.owes T.fails (T.Task.can_poll (L.Board.id base.board)) (IsUnitFault lane.now) base.last.stage base.last.tasks.items) }
    requires ready { IfSome base.old (λ base. P.ready fed.old lane.now (L.Board.id base.board)) }
    ensures sweeps { SweepsKept lane.now.scan reader per_row (H.seen io.old) steps.old steps.new }
    ensures stays { (begun : T) → IfSome base.old (λ base. T.stays begun base.last.stage) → IfOk result (λ end. T.stays begun end.0) }
    ensures keeps { KeepsOrNot lane.now.scan reader (H.seen io.old) (answer_beside result) (H.seen io.new) }
{
    let Some(
        KeepBase {
            mut board,
            first,
            last,
            feed,
        },
    ) = base.take()
    else {
        unreachable!()
    };
    let Ok(pipe) = pipe_units::<L::Board, K, H, P>(alloc, &mut board, lane, lane, fed) else {
        return Err(Fault::OutOfMemory);
    };
    let Ok(tasks) = keep_tasks(alloc, &board, lane, first, last, pipe) else {
        return Err(Fault::OutOfMemory);
    };
    let mut parts = Some(KeepParts { board, tasks, feed });
    let kept = keep_parts::<L, K, H, PairStage<PairStage<S, T>, PipeTasks<P::Task>>, G, Y>(
        alloc, io, reader, lane, &mut parts, gate, per_row, steps,
    );
    last_of(kept)
}

/// What a line that keeps is made of, and what makes the tasks of its pipe.
#[derive(Drop)]
pub(crate) struct KeepStart<L, J, S, T>
where
    L: Tokens + Lanes<Load<<L as Tokens>::Token, J>>,
    J: LoadJob<<L as Tokens>::Token>,
    S: Stage<<L as Tokens>::Board>,
    T: Stage<<L as Tokens>::Board>,
{
    pub(crate) base: KeepBase<L, J, S, T>,
    pub(crate) fed: PipeOrder<L, J>,
}

/// Gives two nodes their ends on a board, and takes their units. The nodes are lent, and taken.
fn open_units<L, K, H, A, M>(
    alloc: Global,
    mut board: L::Board,
    jobs: KeepJobs<'_, LaneJob<K, H>>,
    nodes: &mut Option<KeepNodes<A, M>>,
    plan: LinePlan,
    rng: Xoshiro256PlusPlus,
) -> Result<
    KeepStart<L, LaneJob<K, H>, NodeTasks<L, LaneJob<K, H>, A>, NodeTasks<L, LaneJob<K, H>, M>>,
    Fault,
>
where
    L: Tokens + Lanes<Load<<L as Tokens>::Token, LaneJob<K, H>>>,
    <L as Tokens>::Token: AtHome,
    K: AtHome,
    H: Io,
    A: ComputeNode<L, LaneJob<K, H>> + Drop,
    M: ComputeNode<L, LaneJob<K, H>> + Drop,
    requires first_jobs { AreForOne jobs.fed.now jobs.between.now jobs.first.recv.now.items jobs.first.send.now.items }
    requires pipelines { (1 ≤ plan.pipelines) × (plan.pipelines ≤ 32768) }
    requires spread_room { (1 ≤ plan.rooms.spread) × (plan.rooms.spread ≤ 65536) }
    requires merge_room { (1 ≤ plan.rooms.merge) × (plan.rooms.merge ≤ 65536) }
    requires some { IsSome nodes.old }
    requires first { IfSome nodes.old (λ nodes. IsLineNode plan.pipelines (A.seen nodes.first)) }
    requires last { IfSome nodes.old (λ nodes. KeepsFor plan.pipelines jobs.between.now jobs.last.recv.now.items jobs.last.send.now.items (M.seen nodes.last)) }
    requires first_fits { IfSome nodes.old (λ nodes. A.fits nodes.first jobs.first.recv.now.items jobs.first.send.now.items) }
    requires last_fits { IfSome nodes.old (λ nodes. M.fits nodes.last jobs.last.recv.now.items jobs.last.send.now.items) }
    requires first_fails { IfSome nodes.old (λ nodes. (fault : Fault) → A.fails nodes.first jobs.first.recv.now.items fault → IsUnitFault jobs.fed.now fault) }
    requires last_fails { IfSome nodes.old (λ nodes. (fault : Fault) → M.fails nodes.last jobs.last.recv.now.items fault → IsUnitFault jobs.fed.now fault) }
    requires fed_tokens { HoldsTokensOf ⟦<LaneJob<K, H> as LoadJob<<L as Tokens>::Token>>⟧.holds L.token_home jobs.fed.now (L.Board.id board).group_table }
    requires first_tokens { All (λ job. HoldsTokensOf ⟦<LaneJob<K, H> as LoadJob<<L as Tokens>::Token>>⟧.holds L.token_home job (L.Board.id board).group_table) jobs.first.recv.now.items }
    requires last_tokens { All (λ job. HoldsTokensOf ⟦<LaneJob<K, H> as LoadJob<<L as Tokens>::Token>>⟧.holds L.token_home job (L.Board.id board).group_table) jobs.last.recv.now.items }
    ensures feed { IfOk result (λ start. (L.Sender.home start.base.feed ≡ (L.Board.id start.base.board).lane_table) × (L.Sender.job start.base.feed ≡ jobs.entry.fed.now)) }
    ensures first { IfOk result (λ start. AreTasksOf ⟦<NodeTasks<L, LaneJob<K, H>, A> as Stage<L::Board>>⟧.owes ⟦<NodeTasks<L, LaneJob<K, H>, A> as Stage<L::Board>>⟧.fails (A.Unit.can_poll (L.Board.id start.base.board)) (IsUnitFault jobs.entry.fed.now) start.base.first.stage start.base.first.tasks.items) }
    ensures last { IfOk result (λ start. AreTasksOf ⟦<NodeTasks<L, LaneJob<K, H>, M> as Stage<L::Board>>⟧.owes ⟦<NodeTasks<L, LaneJob<K, H>, M> as Stage<L::Board>>⟧.fails (M.Unit.can_poll (L.Board.id start.base.board)) (IsUnitFault jobs.entry.fed.now) start.base.last.stage start.base.last.tasks.items) }
    ensures stays { (begun : M) → IfSome nodes.old (λ nodes. M.stays begun nodes.last) → IfOk result (λ start. M.stays begun start.base.last.stage.node) }
    ensures ready { IfOk result (λ start. ⟦<PipeOrder<L, LaneJob<K, H>> as MakesPipeTasks<L::Board, LaneJob<K, H>>>⟧.ready start.fed jobs.entry.fed.now (L.Board.id start.base.board)) }
    ensures out_of_memory { IsOkUnless result OutOfMemory }
{
    let Some(nodes) = nodes.take() else {
        unreachable!()
    };
    let OpenKeep {
        first,
        last,
        feed,
        fed,
    } = open_keep::<L, LaneJob<K, H>, A, M>(alloc, &mut board, jobs, nodes, plan.pipelines)?;
    let base = KeepBase {
        board,
        first,
        last,
        feed,
    };
    let fed = PipeOrder {
        pipe: Some(fed),
        rooms: plan.rooms,
        rng,
    };
    Ok(KeepStart { base, fed })
}

/// Reads a scan's files through two nodes, the second of which keeps what the first one gives; answers that node, and how many
/// bytes were given.
///
/// The board and the nodes, which were made ready for the plan's pipelines, are lent, and taken. The reader has read nothing.
pub fn keep_nodes<L, K, H, A, M, G, Y>(
    alloc: Global,
    io: &mut H,
    reader: ScanReader,
    board: &mut Option<L::Board>,
    jobs: KeepJobs<'_, LaneJob<K, H>>,
    nodes: &mut Option<KeepNodes<A, M>>,
    plan: LinePlan,
    rng: Xoshiro256PlusPlus,
    gate: &G,
    steps: &mut Steps<Y>,
) -> Result<(M, u64), Fault>
where
    L: Tokens + Lanes<Load<<L as Tokens>::Token, LaneJob<K, H>>>,
    <L as Tokens>::Token: AtHome,
    K: AtHome,
    H: Io,
    A: ComputeNode<L, LaneJob<K, H>> + Drop,
    M: ComputeNode<L, LaneJob<K, H>> + Drop,
    G: Gate,
    Y: Ledger,
    requires suits { SuitsPieces (H.seen io.old) reader }
    requires start { reader ≡ pieces_at_start reader.sources }
    requires lane { IsFedBy reader (H.seen io.old) jobs.fed.now }
    requires first_jobs { AreForOne jobs.fed.now jobs.between.now jobs.first.recv.now.items jobs.first.send.now.items }
    requires pipelines { (1 ≤ plan.pipelines) × (plan.pipelines ≤ 32768) }
    requires spread_room { (1 ≤ plan.rooms.spread) × (plan.rooms.spread ≤ 65536) }
    requires merge_room { (1 ≤ plan.rooms.merge) × (plan.rooms.merge ≤ 65536) }
    requires some_board { IsSome board.old }
    requires some_nodes { IsSome nodes.old }
    requires first { IfSome nodes.old (λ nodes. IsLineNode plan.pipelines (A.seen nodes.first)) }
    requires last { IfSome nodes.old (λ nodes. KeepsFor plan.pipelines jobs.between.now jobs.last.recv.now.items jobs.last.send.now.items (M.seen nodes.last)) }
    requires first_fits { IfSome nodes.old (λ nodes. A.fits nodes.first jobs.first.recv.now.items jobs.first.send.now.items) }
    requires last_fits { IfSome nodes.old (λ nodes. M.fits nodes.last jobs.last.recv.now.items jobs.last.send.now.items) }
    requires first_fails { IfSome nodes.old (λ nodes. (fault : Fault) → A.fails nodes.first jobs.first.recv.now.items fault → IsUnitFault jobs.fed.now fault) }
    requires last_fails { IfSome nodes.old (λ nodes. (fault : Fault) → M.fails nodes.last jobs.last.recv.now.items fault → IsUnitFault jobs.fed.now fault) }
    requires fed_tokens { IfSome board.old (λ board. HoldsTokensOf ⟦<LaneJob<K, H> as LoadJob<<L as Tokens>::Token>>⟧.holds L.token_home jobs.fed.now (L.Board.id board).group_table) }
    requires first_tokens { IfSome board.old (λ board. All (λ job. HoldsTokensOf ⟦<LaneJob<K, H> as LoadJob<<L as Tokens>::Token>>⟧.holds L.token_home job (L.Board.id board).group_table) jobs.first.recv.now.items) }
    requires last_tokens { IfSome board.old (λ board. All (λ job. HoldsTokensOf ⟦<LaneJob<K, H> as LoadJob<<L as Tokens>::Token>>⟧.holds L.token_home job (L.Board.id board).group_table) jobs.last.recv.now.items) }
    ensures sweeps { steps.new ≤ steps.old + 512 * (sum_by (λ n. n) (sizes_in (H.seen io.old).sizes reader.sources.files) + 1) }
    ensures stays { (begun : M) → IfSome nodes.old (λ nodes. M.stays begun nodes.last) → IfOk result (λ end. M.stays begun end.0) }
    ensures keeps { KeepsOrNot jobs.entry.fed.now.scan reader (H.seen io.old) (answer_beside result) (H.seen io.new) }
{
    let Some(board) = board.take() else {
        unreachable!()
    };
    let fed_job = jobs.fed;
    let Ok(start) = open_units::<L, K, H, A, M>(alloc, board, jobs, nodes, plan, rng) else {
        return Err(Fault::OutOfMemory);
    };
    let KeepStart { base, mut fed } = start;
    let mut base = Some(base);
    let kept = keep_orders::<
        L,
        K,
        H,
        NodeTasks<L, LaneJob<K, H>, A>,
        NodeTasks<L, LaneJob<K, H>, M>,
        PipeOrder<L, LaneJob<K, H>>,
        G,
        Y,
    >(
        alloc, io, reader, fed_job, &mut base, &mut fed, gate, 0, steps,
    );
    node_of(kept)
}
