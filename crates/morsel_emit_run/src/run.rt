//! The run of two nodes, the first of which gives of what it has kept.
ghost use Rattle.std.specs.Prelude.{◌≡◌, All, IfOk, IfSome, IsSome, IsOkUnless, ◌<◌, ◌≤◌};
ghost use Rattle.morsel_meaning.specs.declared.fault.Fault.{Fault};
ghost use Rattle.morsel_meaning.specs.declared.fault.Fault.TheVariants.{OutOfMemory};
ghost use Rattle.morsel_load.specs.declared.load.LoadKind.TheVariants.{Parts};
ghost use Rattle.morsel_lane_pipe.specs.Tasks.{HoldsTokensOf};
ghost use Rattle.morsel_pair.specs.Pairs.{ByEither};
ghost use Rattle.morsel_phase.specs.Lines.{IsLineNode};
ghost use Rattle.morsel_line.specs.RowStages.{StageSeen};
ghost use Rattle.morsel_scan_units.specs.LaneJobs.{IsUnitFault};
ghost use Rattle.morsel_join_lines.specs.JoinNodes.{AreForOne, GivesFor};
ghost use Rattle.morsel_join_lines.specs.TasksOf.{AreTasksOf};
ghost use Rattle.morsel_emit_run.specs.EmitRuns.{IsOnePlaceStage, SweepsPlace, WritesPlaceOrNot};

use crate::line::emit_parts;
use morsel_join_lines::{EmitJobs, EmitNodes, OpenEmit, open_emit};
use morsel_join_tasks::{UnfedParts, pair_units, pipe_units};
use morsel_load::{Load, LoadJob};
use morsel_local::Steps;
use morsel_meaning::Fault;
use morsel_node_stage::{NodeTasks, PipeTasks};
use morsel_outside::{Gate, Io};
use morsel_pair::PairStage;
use morsel_phase::{LinePlan, MakesPipeTasks, PipeOrder};
use morsel_ports::ComputeNode;
use morsel_prims::{Board, LaneReceiver, Lanes, Task, Tokens};
use morsel_scan_units::{AtHome, LaneJob};
use morsel_sink::SinkWriter;
use morsel_stage::Stage;
use morsel_stage_tasks::StageTasks;
use rand_xoshiro::Xoshiro256PlusPlus;
use std::alloc::Global;
use std::sync::ledger::Ledger;

/// The tasks of two nodes, and those of the pipes between and behind them.
fn emit_tasks<B, K, H, S, T, U, W>(
    alloc: Global,
    board: &B,
    lane: &LaneJob<K, H>,
    first: StageTasks<B, S>,
    last: StageTasks<B, T>,
    spreading: StageTasks<B, U>,
    merging: StageTasks<B, W>,
) -> Result<StageTasks<B, PairStage<PairStage<S, T>, PairStage<U, W>>>, Fault>
where
    B: Board,
    K: AtHome,
    H: Io,
    S: Stage<B> + Drop,
    T: Stage<B> + Drop,
    U: Stage<B> + Drop,
    W: Stage<B> + Drop,
    requires first { AreTasksOf S.owes S.fails (S.Task.can_poll (B.id board.now)) (IsUnitFault lane.now) first.stage first.tasks.items }
    requires last { AreTasksOf T.owes T.fails (T.Task.can_poll (B.id board.now)) (IsUnitFault lane.now) last.stage last.tasks.items }
    requires spreading { AreTasksOf U.owes U.fails (U.Task.can_poll (B.id board.now)) (IsUnitFault lane.now) spreading.stage spreading.tasks.items }
    requires merging { AreTasksOf W.owes W.fails (W.Task.can_poll (B.id board.now)) (IsUnitFault lane.now) merging.stage merging.tasks.items }
    ensures tasks { IfOk result (λ all. AreTasksOf ⟦<PairStage<PairStage<S, T>, PairStage<U, W>> as Stage<B>>⟧.owes ⟦<PairStage<PairStage<S, T>, PairStage<U, W>> as Stage<B>>⟧.fails (λ task. ByEither task (λ unit. ByEither unit (S.Task.can_poll (B.id board.now)) (T.Task.can_poll (B.id board.now))) (λ step. ByEither step (U.Task.can_poll (B.id board.now)) (W.Task.can_poll (B.id board.now)))) (IsUnitFault lane.now) all.stage all.tasks.items) }
    ensures out_of_memory { IsOkUnless result OutOfMemory }
{
    let nodes = pair_units(alloc, board, lane, first, last)?;
    let pipes = pair_units(alloc, board, lane, spreading, merging)?;
    let all = pair_units(alloc, board, lane, nodes, pipes)?;
    Ok(all)
}

/// What a line into which nothing is fed is made of, but for the tasks of its pipes: a board, two stages, and the caller's end.
#[derive(Drop)]
struct EmitBase<L, J, S, T>
where
    L: Tokens + Lanes<Load<<L as Tokens>::Token, J>>,
    J: LoadJob<<L as Tokens>::Token>,
    S: Stage<<L as Tokens>::Board>,
    T: Stage<<L as Tokens>::Board>,
{
    pub board: L::Board,
    pub first: StageTasks<L::Board, S>,
    pub last: StageTasks<L::Board, T>,
    pub take: L::Receiver,
}

/// What the lanes of a line are for into which nothing is fed: those of the rows between its nodes, and of the texts that it gives.
#[derive(Clone, Copy, Debug)]
struct EmitLanes<'a, J> {
    pub between: &'a J,
    pub given: &'a J,
}

/// Makes the tasks of the pipes of a line into which nothing is fed, and runs it; answers how many rows were written.
///
/// What the line is made of is lent, and taken.
#[tactic(auto, using(crate::proofs::PlaceLemmas::place_unswept))]
fn emit_orders<L, K, H, S, T, P, G, Y>(
    alloc: Global,
    io: &mut H,
    writer: SinkWriter,
    lanes: EmitLanes<'_, LaneJob<K, H>>,
    base: &mut Option<EmitBase<L, LaneJob<K, H>, S, T>>,
    kept: &mut P,
    given: &mut P,
    gate: &G,
    steps: &mut Steps<Y>,
) -> Result<u64, Fault>
where
    L: Tokens + Lanes<Load<<L as Tokens>::Token, LaneJob<K, H>>>,
    <L as Tokens>::Token: AtHome,
    K: AtHome,
    H: Io,
    S: Stage<<L as Tokens>::Board> + Drop,
    T: Stage<<L as Tokens>::Board> + Drop,
    P: MakesPipeTasks<<L as Tokens>::Board, LaneJob<K, H>>,
    G: Gate,
    Y: Ledger,
    requires made { 0 < (H.seen io.old).sinks }
    requires none_written { writer.rows ≡ 0 }
    requires kind { lanes.given.now.kind ≡ Parts }
    requires some { IsSome base.old }
    requires take { IfSome base.old (λ base. (L.Receiver.home base.take ≡ (L.Board.id base.board).lane_table) × (L.Receiver.job base.take ≡ lanes.given.now)) }
    requires first { IfSome base.old (λ base. AreTasksOf S.owes S.fails (S.Task.can_poll (L.Board.id base.board)) (IsUnitFault lanes.given.now) base.first.stage base.first.tasks.items) }
    requires last { IfSome base.old (λ base. AreTasksOf T.owes T.fails (T.Task.can_poll (L.Board.id base.board)) (IsUnitFault lanes.given.now) base.last.stage base.last.tasks.items) }
    requires kept_ready { IfSome base.old (λ base. P.ready kept.old lanes.between.now (L.Board.id base.board)) }
    requires given_ready { IfSome base.old (λ base. P.ready given.old lanes.given.now (L.Board.id base.board)) }
    ensures sweeps { (stage : StageSeen) → lanes.entry.given.now.stage ≡ stage → IsOnePlaceStage stage → SweepsPlace lanes.entry.given.now.scan lanes.entry.given.now.reader lanes.entry.given.now.outside stage steps.old steps.new }
    ensures writes { (stage : StageSeen) → lanes.entry.given.now.stage ≡ stage → IsOnePlaceStage stage → WritesPlaceOrNot lanes.entry.given.now.scan lanes.entry.given.now.reader lanes.entry.given.now.outside stage (H.seen io.old) result (H.seen io.new) }
{
    let Some(
        EmitBase {
            mut board,
            first,
            last,
            take,
        },
    ) = base.take()
    else {
        unreachable!()
    };
    let Ok(spreading) = pipe_units::<L::Board, K, H, P>(
        alloc,
        &mut board,
        lanes.given,
        lanes.between,
        kept,
    ) else {
        return Err(Fault::OutOfMemory);
    };
    let Ok(merging) = pipe_units::<L::Board, K, H, P>(
        alloc,
        &mut board,
        lanes.given,
        lanes.given,
        given,
    ) else {
        return Err(Fault::OutOfMemory);
    };
    let Ok(tasks) = emit_tasks(alloc, &board, lanes.given, first, last, spreading, merging) else {
        return Err(Fault::OutOfMemory);
    };
    emit_parts::<
        L,
        K,
        H,
        PairStage<PairStage<S, T>, PairStage<PipeTasks<P::Task>, PipeTasks<P::Task>>>,
        G,
        Y,
    >(
        alloc,
        io,
        writer,
        lanes.given,
        &mut Some(UnfedParts { board, tasks, take }),
        gate,
        steps,
    )
}

/// What a line into which nothing is fed is made of, and what makes the tasks of its pipes.
#[derive(Drop)]
struct EmitStart<L, J, S, T>
where
    L: Tokens + Lanes<Load<<L as Tokens>::Token, J>>,
    J: LoadJob<<L as Tokens>::Token>,
    S: Stage<<L as Tokens>::Board>,
    T: Stage<<L as Tokens>::Board>,
{
    pub base: EmitBase<L, J, S, T>,
    pub kept: PipeOrder<L, J>,
    pub given: PipeOrder<L, J>,
}

/// Gives two nodes their ends on a board, and takes their units. The nodes are lent, and taken.
fn open_units<L, K, H, M, Z>(
    alloc: Global,
    mut board: L::Board,
    jobs: EmitJobs<'_, LaneJob<K, H>>,
    nodes: &mut Option<EmitNodes<M, Z>>,
    ready: u32,
    plan: LinePlan,
    rng: Xoshiro256PlusPlus,
) -> Result<
    EmitStart<L, LaneJob<K, H>, NodeTasks<L, LaneJob<K, H>, M>, NodeTasks<L, LaneJob<K, H>, Z>>,
    Fault,
>
where
    L: Tokens + Lanes<Load<<L as Tokens>::Token, LaneJob<K, H>>>,
    <L as Tokens>::Token: AtHome,
    K: AtHome,
    H: Io,
    M: ComputeNode<L, LaneJob<K, H>> + Drop,
    Z: ComputeNode<L, LaneJob<K, H>> + Drop,
    requires last_jobs { AreForOne jobs.kept.now jobs.given.now jobs.last.recv.now.items jobs.last.send.now.items }
    requires pipelines { (1 ≤ plan.pipelines) × (plan.pipelines ≤ 32768) }
    requires spread_room { (1 ≤ plan.rooms.spread) × (plan.rooms.spread ≤ 65536) }
    requires merge_room { (1 ≤ plan.rooms.merge) × (plan.rooms.merge ≤ 65536) }
    requires some { IsSome nodes.old }
    requires first { IfSome nodes.old (λ nodes. GivesFor ready jobs.kept.now jobs.first.recv.now.items jobs.first.send.now.items (M.seen nodes.first)) }
    requires last { IfSome nodes.old (λ nodes. IsLineNode plan.pipelines (Z.seen nodes.last)) }
    requires first_fits { IfSome nodes.old (λ nodes. M.fits nodes.first jobs.first.recv.now.items jobs.first.send.now.items) }
    requires last_fits { IfSome nodes.old (λ nodes. Z.fits nodes.last jobs.last.recv.now.items jobs.last.send.now.items) }
    requires first_fails { IfSome nodes.old (λ nodes. (fault : Fault) → M.fails nodes.first jobs.first.recv.now.items fault → IsUnitFault jobs.given.now fault) }
    requires last_fails { IfSome nodes.old (λ nodes. (fault : Fault) → Z.fails nodes.last jobs.last.recv.now.items fault → IsUnitFault jobs.given.now fault) }
    requires kept_tokens { HoldsTokensOf ⟦<LaneJob<K, H> as LoadJob<<L as Tokens>::Token>>⟧.holds L.token_home jobs.kept.now (L.Board.id board).group_table }
    requires first_tokens { All (λ job. HoldsTokensOf ⟦<LaneJob<K, H> as LoadJob<<L as Tokens>::Token>>⟧.holds L.token_home job (L.Board.id board).group_table) jobs.first.recv.now.items }
    requires last_tokens { All (λ job. HoldsTokensOf ⟦<LaneJob<K, H> as LoadJob<<L as Tokens>::Token>>⟧.holds L.token_home job (L.Board.id board).group_table) jobs.last.recv.now.items }
    requires given_tokens { HoldsTokensOf ⟦<LaneJob<K, H> as LoadJob<<L as Tokens>::Token>>⟧.holds L.token_home jobs.given.now (L.Board.id board).group_table }
    ensures take { IfOk result (λ start. (L.Receiver.home start.base.take ≡ (L.Board.id start.base.board).lane_table) × (L.Receiver.job start.base.take ≡ jobs.entry.given.now)) }
    ensures first { IfOk result (λ start. AreTasksOf ⟦<NodeTasks<L, LaneJob<K, H>, M> as Stage<L::Board>>⟧.owes ⟦<NodeTasks<L, LaneJob<K, H>, M> as Stage<L::Board>>⟧.fails (M.Unit.can_poll (L.Board.id start.base.board)) (IsUnitFault jobs.entry.given.now) start.base.first.stage start.base.first.tasks.items) }
    ensures last { IfOk result (λ start. AreTasksOf ⟦<NodeTasks<L, LaneJob<K, H>, Z> as Stage<L::Board>>⟧.owes ⟦<NodeTasks<L, LaneJob<K, H>, Z> as Stage<L::Board>>⟧.fails (Z.Unit.can_poll (L.Board.id start.base.board)) (IsUnitFault jobs.entry.given.now) start.base.last.stage start.base.last.tasks.items) }
    ensures kept_ready { IfOk result (λ start. ⟦<PipeOrder<L, LaneJob<K, H>> as MakesPipeTasks<L::Board, LaneJob<K, H>>>⟧.ready start.kept jobs.entry.kept.now (L.Board.id start.base.board)) }
    ensures given_ready { IfOk result (λ start. ⟦<PipeOrder<L, LaneJob<K, H>> as MakesPipeTasks<L::Board, LaneJob<K, H>>>⟧.ready start.given jobs.entry.given.now (L.Board.id start.base.board)) }
    ensures out_of_memory { IsOkUnless result OutOfMemory }
{
    let Some(nodes) = nodes.take() else {
        unreachable!()
    };
    let OpenEmit {
        first,
        last,
        take,
        kept,
        given,
    } = open_emit::<L, LaneJob<K, H>, M, Z>(alloc, &mut board, jobs, nodes, ready, plan.pipelines)?;
    let again = rng.clone()?;
    let base = EmitBase {
        board,
        first,
        last,
        take,
    };
    let kept = PipeOrder {
        pipe: Some(kept),
        rooms: plan.rooms,
        rng: again,
    };
    let given = PipeOrder {
        pipe: Some(given),
        rooms: plan.rooms,
        rng,
    };
    Ok(EmitStart { base, kept, given })
}

/// Writes rows of one place into the last sink: one node gives them, and another makes their text; answers how many rows were written.
/// They are the kept rows of a join that no row of a scan finds, or rows that are given.
///
/// The board and the nodes are lent, and taken. The first node was made ready for so many pipelines, and the last one for those of the
/// plan. The writer has written no row.
#[tactic(auto, using(crate::proofs::PlaceLemmas::place_unswept))]
pub fn emit_nodes<L, K, H, M, Z, G, Y>(
    alloc: Global,
    io: &mut H,
    writer: SinkWriter,
    board: &mut Option<L::Board>,
    jobs: EmitJobs<'_, LaneJob<K, H>>,
    nodes: &mut Option<EmitNodes<M, Z>>,
    ready: u32,
    plan: LinePlan,
    rng: Xoshiro256PlusPlus,
    gate: &G,
    steps: &mut Steps<Y>,
) -> Result<u64, Fault>
where
    L: Tokens + Lanes<Load<<L as Tokens>::Token, LaneJob<K, H>>>,
    <L as Tokens>::Token: AtHome,
    K: AtHome,
    H: Io,
    M: ComputeNode<L, LaneJob<K, H>> + Drop,
    Z: ComputeNode<L, LaneJob<K, H>> + Drop,
    G: Gate,
    Y: Ledger,
    requires made { 0 < (H.seen io.old).sinks }
    requires none_written { writer.rows ≡ 0 }
    requires kind { jobs.given.now.kind ≡ Parts }
    requires last_jobs { AreForOne jobs.kept.now jobs.given.now jobs.last.recv.now.items jobs.last.send.now.items }
    requires pipelines { (1 ≤ plan.pipelines) × (plan.pipelines ≤ 32768) }
    requires spread_room { (1 ≤ plan.rooms.spread) × (plan.rooms.spread ≤ 65536) }
    requires merge_room { (1 ≤ plan.rooms.merge) × (plan.rooms.merge ≤ 65536) }
    requires some_board { IsSome board.old }
    requires some_nodes { IsSome nodes.old }
    requires first { IfSome nodes.old (λ nodes. GivesFor ready jobs.kept.now jobs.first.recv.now.items jobs.first.send.now.items (M.seen nodes.first)) }
    requires last { IfSome nodes.old (λ nodes. IsLineNode plan.pipelines (Z.seen nodes.last)) }
    requires first_fits { IfSome nodes.old (λ nodes. M.fits nodes.first jobs.first.recv.now.items jobs.first.send.now.items) }
    requires last_fits { IfSome nodes.old (λ nodes. Z.fits nodes.last jobs.last.recv.now.items jobs.last.send.now.items) }
    requires first_fails { IfSome nodes.old (λ nodes. (fault : Fault) → M.fails nodes.first jobs.first.recv.now.items fault → IsUnitFault jobs.given.now fault) }
    requires last_fails { IfSome nodes.old (λ nodes. (fault : Fault) → Z.fails nodes.last jobs.last.recv.now.items fault → IsUnitFault jobs.given.now fault) }
    requires kept_tokens { IfSome board.old (λ board. HoldsTokensOf ⟦<LaneJob<K, H> as LoadJob<<L as Tokens>::Token>>⟧.holds L.token_home jobs.kept.now (L.Board.id board).group_table) }
    requires first_tokens { IfSome board.old (λ board. All (λ job. HoldsTokensOf ⟦<LaneJob<K, H> as LoadJob<<L as Tokens>::Token>>⟧.holds L.token_home job (L.Board.id board).group_table) jobs.first.recv.now.items) }
    requires last_tokens { IfSome board.old (λ board. All (λ job. HoldsTokensOf ⟦<LaneJob<K, H> as LoadJob<<L as Tokens>::Token>>⟧.holds L.token_home job (L.Board.id board).group_table) jobs.last.recv.now.items) }
    requires given_tokens { IfSome board.old (λ board. HoldsTokensOf ⟦<LaneJob<K, H> as LoadJob<<L as Tokens>::Token>>⟧.holds L.token_home jobs.given.now (L.Board.id board).group_table) }
    ensures sweeps { (stage : StageSeen) → jobs.entry.given.now.stage ≡ stage → IsOnePlaceStage stage → SweepsPlace jobs.entry.given.now.scan jobs.entry.given.now.reader jobs.entry.given.now.outside stage steps.old steps.new }
    ensures writes { (stage : StageSeen) → jobs.entry.given.now.stage ≡ stage → IsOnePlaceStage stage → WritesPlaceOrNot jobs.entry.given.now.scan jobs.entry.given.now.reader jobs.entry.given.now.outside stage (H.seen io.old) result (H.seen io.new) }
{
    let Some(board) = board.take() else {
        unreachable!()
    };
    let lanes = EmitLanes {
        between: jobs.kept,
        given: jobs.given,
    };
    let Ok(start) = open_units::<L, K, H, M, Z>(alloc, board, jobs, nodes, ready, plan, rng) else {
        return Err(Fault::OutOfMemory);
    };
    let EmitStart {
        base,
        mut kept,
        mut given,
    } = start;
    emit_orders::<
        L,
        K,
        H,
        NodeTasks<L, LaneJob<K, H>, M>,
        NodeTasks<L, LaneJob<K, H>, Z>,
        PipeOrder<L, LaneJob<K, H>>,
        G,
        Y,
    >(
        alloc,
        io,
        writer,
        lanes,
        &mut Some(base),
        &mut kept,
        &mut given,
        gate,
        steps,
    )
}
