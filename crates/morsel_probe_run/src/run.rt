//! The run of three nodes, the middle one of which gives what it finds for what the first one gives.
ghost use Rattle.std.specs.Prelude.{◌≡◌, All, IfOk, IfSome, IsSome, IsOkUnless, ◌<◌, ◌≤◌};
ghost use Rattle.morsel_meaning.specs.declared.fault.Fault.{Fault};
ghost use Rattle.morsel_meaning.specs.declared.fault.Fault.TheVariants.{OutOfMemory};
ghost use Rattle.morsel_load.specs.declared.load.LoadKind.TheVariants.{Pieces, Parts};
ghost use Rattle.morsel_lane_pipe.specs.Tasks.{HoldsTokensOf};
ghost use Rattle.morsel_pair.specs.Pairs.{ByEither};
ghost use Rattle.morsel_phase.specs.Lines.{IsLineNode};
ghost use Rattle.morsel_join.specs.Sides.{KeptSide};
ghost use Rattle.morsel_read.specs.ScanReads.{pieces_at_start, SuitsPieces};
ghost use Rattle.morsel_line.specs.RowStages.{FoundRows, ScannedRows};
ghost use Rattle.morsel_scan_units.specs.LaneJobs.{IsUnitFault};
ghost use Rattle.morsel_join_lines.specs.JoinNodes.{AreForOne, AreForSecond, IsFinding};
ghost use Rattle.morsel_join_lines.specs.TasksOf.{AreTasksOf};
ghost use Rattle.morsel_probe_run.specs.ProbeRuns.{AreAllUpTo, SweepsFound, WritesFoundOrNot, rows_written};

use crate::line::probe_parts;
use crate::probe_end::ProbeEnd;
use morsel_join_lines::{OpenProbe, ProbeJobs, ProbeNodes, open_probe};
use morsel_join_tasks::{LaneParts, pair_units, pipe_units};
use morsel_load::{Load, LoadJob};
use morsel_local::Steps;
use morsel_meaning::Fault;
use morsel_node_stage::{NodeTasks, PipeTasks};
use morsel_outside::{Gate, Io};
use morsel_pair::PairStage;
use morsel_phase::{LinePlan, MakesPipeTasks, PipeOrder};
use morsel_ports::ComputeNode;
use morsel_prims::{Board, LaneReceiver, LaneSender, Lanes, Task, Tokens};
use morsel_read::ScanReader;
use morsel_scan_units::{AtHome, LaneJob};
use morsel_sink::SinkWriter;
use morsel_stage::Stage;
use morsel_stage_tasks::StageTasks;
use rand_xoshiro::Xoshiro256PlusPlus;
use std::alloc::Global;
use std::sync::ledger::Ledger;

/// The tasks of three nodes, in order of the line.
#[derive(Drop)]
struct ThreeTasks<B: Board, S: Stage<B>, T: Stage<B>, U: Stage<B>> {
    pub first: StageTasks<B, S>,
    pub middle: StageTasks<B, T>,
    pub last: StageTasks<B, U>,
}

/// The tasks of three nodes.
fn node_tasks<B, K, H, S, T, U>(
    alloc: Global,
    board: &B,
    lane: &LaneJob<K, H>,
    nodes: ThreeTasks<B, S, T, U>,
) -> Result<StageTasks<B, PairStage<PairStage<S, T>, U>>, Fault>
where
    B: Board,
    K: AtHome,
    H: Io,
    S: Stage<B> + Drop,
    T: Stage<B> + Drop,
    U: Stage<B> + Drop,
    requires first { AreTasksOf S.owes S.fails (S.Task.can_poll (B.id board.now)) (IsUnitFault lane.now) nodes.first.stage nodes.first.tasks.items }
    requires middle { AreTasksOf T.owes T.fails (T.Task.can_poll (B.id board.now)) (IsUnitFault lane.now) nodes.middle.stage nodes.middle.tasks.items }
    requires last { AreTasksOf U.owes U.fails (U.Task.can_poll (B.id board.now)) (IsUnitFault lane.now) nodes.last.stage nodes.last.tasks.items }
    ensures middle { IfOk result (λ all. all.stage.first.second ≡ nodes.middle.stage) }
    ensures tasks { IfOk result (λ all. AreTasksOf ⟦<PairStage<PairStage<S, T>, U> as Stage<B>>⟧.owes ⟦<PairStage<PairStage<S, T>, U> as Stage<B>>⟧.fails (λ task. ByEither task (λ unit. ByEither unit (S.Task.can_poll (B.id board.now)) (T.Task.can_poll (B.id board.now))) (U.Task.can_poll (B.id board.now))) (IsUnitFault lane.now) all.stage all.tasks.items) }
    ensures out_of_memory { IsOkUnless result OutOfMemory }
{
    let ThreeTasks {
        first,
        middle,
        last,
    } = nodes;
    let early = pair_units(alloc, board, lane, first, middle)?;
    let all = pair_units(alloc, board, lane, early, last)?;
    Ok(all)
}

/// The tasks of a line's nodes, and those of the pipes before and behind them.
fn probe_tasks<B, K, H, S, U, W>(
    alloc: Global,
    board: &B,
    lane: &LaneJob<K, H>,
    nodes: StageTasks<B, S>,
    spreading: StageTasks<B, U>,
    merging: StageTasks<B, W>,
) -> Result<StageTasks<B, PairStage<S, PairStage<U, W>>>, Fault>
where
    B: Board,
    K: AtHome,
    H: Io,
    S: Stage<B> + Drop,
    U: Stage<B> + Drop,
    W: Stage<B> + Drop,
    requires nodes { AreTasksOf S.owes S.fails (S.Task.can_poll (B.id board.now)) (IsUnitFault lane.now) nodes.stage nodes.tasks.items }
    requires spreading { AreTasksOf U.owes U.fails (U.Task.can_poll (B.id board.now)) (IsUnitFault lane.now) spreading.stage spreading.tasks.items }
    requires merging { AreTasksOf W.owes W.fails (W.Task.can_poll (B.id board.now)) (IsUnitFault lane.now) merging.stage merging.tasks.items }
    ensures nodes { IfOk result (λ all. all.stage.first ≡ nodes.stage) }
    ensures tasks { IfOk result (λ all. AreTasksOf ⟦<PairStage<S, PairStage<U, W>> as Stage<B>>⟧.owes ⟦<PairStage<S, PairStage<U, W>> as Stage<B>>⟧.fails (λ task. ByEither task (S.Task.can_poll (B.id board.now)) (λ step. ByEither step (U.Task.can_poll (B.id board.now)) (W.Task.can_poll (B.id board.now)))) (IsUnitFault lane.now) all.stage all.tasks.items) }
    ensures out_of_memory { IsOkUnless result OutOfMemory }
{
    let pipes = pair_units(alloc, board, lane, spreading, merging)?;
    let all = pair_units(alloc, board, lane, nodes, pipes)?;
    Ok(all)
}

/// Of the stages of a line of three nodes, that of the middle one.
fn middle_of<S: Drop, T, U: Drop, W: Drop>(stages: PairStage<PairStage<PairStage<S, T>, U>, W>) -> T
    ensures { result ≡ stages.first.first.second }
{
    let PairStage { first: nodes, .. } = stages;
    let PairStage { first: early, .. } = nodes;
    let PairStage { second: middle, .. } = early;
    middle
}

/// What a line of three nodes is made of, but for the tasks of its pipes: a board, three stages, and the caller's two ends.
#[derive(Drop)]
struct ProbeBase<L, J, S, T, U>
where
    L: Tokens + Lanes<Load<<L as Tokens>::Token, J>>,
    J: LoadJob<<L as Tokens>::Token>,
    S: Stage<<L as Tokens>::Board>,
    T: Stage<<L as Tokens>::Board>,
    U: Stage<<L as Tokens>::Board>,
{
    pub board: L::Board,
    pub nodes: ThreeTasks<L::Board, S, T, U>,
    pub feed: L::Sender,
    pub take: L::Receiver,
}

/// Makes the tasks of the pipes of a line that looks up rows, and runs it; answers how many rows were written, the middle stage, and how
/// many bytes of the files were given.
///
/// What the line is made of is lent, and taken.
#[tactic(auto, using(crate::proofs::FoundLemmas::found_unswept))]
fn probe_orders<L, K, H, S, T, U, P, G, Y>(
    alloc: Global,
    io: &mut H,
    reader: ScanReader,
    writer: SinkWriter,
    fed_job: &LaneJob<K, H>,
    lane: &LaneJob<K, H>,
    base: &mut Option<ProbeBase<L, LaneJob<K, H>, S, T, U>>,
    fed: &mut P,
    given: &mut P,
    bound: u64,
    gate: &G,
    steps: &mut Steps<Y>,
) -> Result<ProbeEnd<T>, Fault>
where
    L: Tokens + Lanes<Load<<L as Tokens>::Token, LaneJob<K, H>>>,
    <L as Tokens>::Token: AtHome,
    K: AtHome,
    H: Io,
    S: Stage<<L as Tokens>::Board> + Drop,
    T: Stage<<L as Tokens>::Board> + Drop,
    U: Stage<<L as Tokens>::Board> + Drop,
    P: MakesPipeTasks<<L as Tokens>::Board, LaneJob<K, H>>,
    G: Gate,
    Y: Ledger,
    requires made { 0 < (H.seen io.old).sinks }
    requires suits { SuitsPieces (H.seen io.old) reader }
    requires start { reader ≡ pieces_at_start reader.sources }
    requires none_written { writer.rows ≡ 0 }
    requires reader { lane.now.reader ≡ reader }
    requires outside { lane.now.outside ≡ H.seen io.old }
    requires kind { lane.now.kind ≡ Parts }
    requires fed_is { fed_job.now ≡ record lane.now { kind = Pieces; stage = ScannedRows } }
    requires some { IsSome base.old }
    requires feed { IfSome base.old (λ base. (L.Sender.home base.feed ≡ (L.Board.id base.board).lane_table) × (L.Sender.job base.feed ≡ fed_job.now)) }
    requires take { IfSome base.old (λ base. (L.Receiver.home base.take ≡ (L.Board.id base.board).lane_table) × (L.Receiver.job base.take ≡ lane.now)) }
    requires first { IfSome base.old (λ base. AreTasksOf S.owes S.fails (S.Task.can_poll (L.Board.id base.board)) (IsUnitFault lane.now) base.nodes.first.stage base.nodes.first.tasks.items) }
    requires middle { IfSome base.old (λ base. AreTasksOf T.owes T.fails (T.Task.can_poll (L.Board.id base.board)) (IsUnitFault lane.now) base.nodes.middle.stage base.nodes.middle.tasks.items) }
    requires last { IfSome base.old (λ base. AreTasksOf U.owes U.fails (U.Task.can_poll (L.Board.id base.board)) (IsUnitFault lane.now) base.nodes.last.stage base.nodes.last.tasks.items) }
    requires fed_ready { IfSome base.old (λ base. P.ready fed.old fed_job.now (L.Board.id base.board)) }
    requires given_ready { IfSome base.old (λ base. P.ready given.old lane.now (L.Board.id base.board)) }
    ensures sweeps { (side : KeptSide) → lane.now.stage ≡ FoundRows side → SweepsFound lane.now.scan reader side (H.seen io.old) steps.old steps.new }
    ensures stays { (begun : T) → IfSome base.old (λ base. T.stays begun base.nodes.middle.stage) → IfOk result (λ end. T.stays begun end.node) }
    ensures all { (side : KeptSide) → lane.now.stage ≡ FoundRows side → IfOk result (λ end. AreAllUpTo lane.now.scan reader (H.seen io.old) end.given) }
    ensures writes { (side : KeptSide) → lane.now.stage ≡ FoundRows side → WritesFoundOrNot lane.now.scan reader side bound (H.seen io.old) (rows_written result) (H.seen io.new) }
{
    let Some(
        ProbeBase {
            mut board,
            nodes,
            feed,
            take,
        },
    ) = base.take()
    else {
        unreachable!()
    };
    let Ok(spreading) = pipe_units::<L::Board, K, H, P>(alloc, &mut board, lane, fed_job, fed)
    else {
        return Err(Fault::OutOfMemory);
    };
    let Ok(merging) = pipe_units::<L::Board, K, H, P>(alloc, &mut board, lane, lane, given) else {
        return Err(Fault::OutOfMemory);
    };
    let Ok(nodes) = node_tasks(alloc, &board, lane, nodes) else {
        return Err(Fault::OutOfMemory);
    };
    let Ok(tasks) = probe_tasks(alloc, &board, lane, nodes, spreading, merging) else {
        return Err(Fault::OutOfMemory);
    };
    let ProbeEnd {
        node: stages,
        rows,
        given: bytes,
    } = probe_parts::<
        L,
        K,
        H,
        PairStage<PairStage<PairStage<S, T>, U>, PairStage<PipeTasks<P::Task>, PipeTasks<P::Task>>>,
        G,
        Y,
    >(
        alloc,
        io,
        reader,
        writer,
        lane,
        &mut Some(LaneParts {
            board,
            tasks,
            feed,
            take,
        }),
        bound,
        gate,
        steps,
    )?;
    let middle = middle_of(stages);
    Ok(ProbeEnd {
        node: middle,
        rows,
        given: bytes,
    })
}

/// What a line of three nodes is made of, and what makes the tasks of its pipes.
#[derive(Drop)]
struct ProbeStart<L, J, S, T, U>
where
    L: Tokens + Lanes<Load<<L as Tokens>::Token, J>>,
    J: LoadJob<<L as Tokens>::Token>,
    S: Stage<<L as Tokens>::Board>,
    T: Stage<<L as Tokens>::Board>,
    U: Stage<<L as Tokens>::Board>,
{
    pub base: ProbeBase<L, J, S, T, U>,
    pub fed: PipeOrder<L, J>,
    pub given: PipeOrder<L, J>,
}

/// Gives three nodes their ends on a board, and takes their units. The nodes are lent, and taken.
fn open_units<L, K, H, A, M, Z>(
    alloc: Global,
    mut board: L::Board,
    jobs: ProbeJobs<'_, LaneJob<K, H>>,
    nodes: &mut Option<ProbeNodes<A, M, Z>>,
    plan: LinePlan,
    rng: Xoshiro256PlusPlus,
) -> Result<
    ProbeStart<
        L,
        LaneJob<K, H>,
        NodeTasks<L, LaneJob<K, H>, A>,
        NodeTasks<L, LaneJob<K, H>, M>,
        NodeTasks<L, LaneJob<K, H>, Z>,
    >,
    Fault,
>
where
    L: Tokens + Lanes<Load<<L as Tokens>::Token, LaneJob<K, H>>>,
    <L as Tokens>::Token: AtHome,
    K: AtHome,
    H: Io,
    A: ComputeNode<L, LaneJob<K, H>> + Drop,
    M: ComputeNode<L, LaneJob<K, H>> + Drop,
    Z: ComputeNode<L, LaneJob<K, H>> + Drop,
    requires first_jobs { AreForOne jobs.fed.now jobs.asked.now jobs.first.recv.now.items jobs.first.send.now.items }
    requires middle_jobs { AreForSecond jobs.asked.now jobs.found.now jobs.middle.recv.now.items jobs.middle.send.now.items }
    requires last_jobs { AreForOne jobs.found.now jobs.given.now jobs.last.recv.now.items jobs.last.send.now.items }
    requires pipelines { (1 ≤ plan.pipelines) × (plan.pipelines ≤ 32768) }
    requires spread_room { (1 ≤ plan.rooms.spread) × (plan.rooms.spread ≤ 65536) }
    requires merge_room { (1 ≤ plan.rooms.merge) × (plan.rooms.merge ≤ 65536) }
    requires some { IsSome nodes.old }
    requires first { IfSome nodes.old (λ nodes. IsLineNode plan.pipelines (A.seen nodes.first)) }
    requires middle { IfSome nodes.old (λ nodes. IsFinding plan.pipelines (M.seen nodes.middle)) }
    requires last { IfSome nodes.old (λ nodes. IsLineNode plan.pipelines (Z.seen nodes.last)) }
    requires first_fits { IfSome nodes.old (λ nodes. A.fits nodes.first jobs.first.recv.now.items jobs.first.send.now.items) }
    requires middle_fits { IfSome nodes.old (λ nodes. M.fits nodes.middle jobs.middle.recv.now.items jobs.middle.send.now.items) }
    requires last_fits { IfSome nodes.old (λ nodes. Z.fits nodes.last jobs.last.recv.now.items jobs.last.send.now.items) }
    requires first_fails { IfSome nodes.old (λ nodes. (fault : Fault) → A.fails nodes.first jobs.first.recv.now.items fault → IsUnitFault jobs.given.now fault) }
    requires middle_fails { IfSome nodes.old (λ nodes. (fault : Fault) → M.fails nodes.middle jobs.middle.recv.now.items fault → IsUnitFault jobs.given.now fault) }
    requires last_fails { IfSome nodes.old (λ nodes. (fault : Fault) → Z.fails nodes.last jobs.last.recv.now.items fault → IsUnitFault jobs.given.now fault) }
    requires fed_tokens { HoldsTokensOf ⟦<LaneJob<K, H> as LoadJob<<L as Tokens>::Token>>⟧.holds L.token_home jobs.fed.now (L.Board.id board).group_table }
    requires first_tokens { All (λ job. HoldsTokensOf ⟦<LaneJob<K, H> as LoadJob<<L as Tokens>::Token>>⟧.holds L.token_home job (L.Board.id board).group_table) jobs.first.recv.now.items }
    requires middle_tokens { All (λ job. HoldsTokensOf ⟦<LaneJob<K, H> as LoadJob<<L as Tokens>::Token>>⟧.holds L.token_home job (L.Board.id board).group_table) jobs.middle.recv.now.items }
    requires last_tokens { All (λ job. HoldsTokensOf ⟦<LaneJob<K, H> as LoadJob<<L as Tokens>::Token>>⟧.holds L.token_home job (L.Board.id board).group_table) jobs.last.recv.now.items }
    requires given_tokens { HoldsTokensOf ⟦<LaneJob<K, H> as LoadJob<<L as Tokens>::Token>>⟧.holds L.token_home jobs.given.now (L.Board.id board).group_table }
    ensures feed { IfOk result (λ start. (L.Sender.home start.base.feed ≡ (L.Board.id start.base.board).lane_table) × (L.Sender.job start.base.feed ≡ jobs.entry.fed.now)) }
    ensures take { IfOk result (λ start. (L.Receiver.home start.base.take ≡ (L.Board.id start.base.board).lane_table) × (L.Receiver.job start.base.take ≡ jobs.entry.given.now)) }
    ensures first { IfOk result (λ start. AreTasksOf ⟦<NodeTasks<L, LaneJob<K, H>, A> as Stage<L::Board>>⟧.owes ⟦<NodeTasks<L, LaneJob<K, H>, A> as Stage<L::Board>>⟧.fails (A.Unit.can_poll (L.Board.id start.base.board)) (IsUnitFault jobs.entry.given.now) start.base.nodes.first.stage start.base.nodes.first.tasks.items) }
    ensures middle { IfOk result (λ start. AreTasksOf ⟦<NodeTasks<L, LaneJob<K, H>, M> as Stage<L::Board>>⟧.owes ⟦<NodeTasks<L, LaneJob<K, H>, M> as Stage<L::Board>>⟧.fails (M.Unit.can_poll (L.Board.id start.base.board)) (IsUnitFault jobs.entry.given.now) start.base.nodes.middle.stage start.base.nodes.middle.tasks.items) }
    ensures last { IfOk result (λ start. AreTasksOf ⟦<NodeTasks<L, LaneJob<K, H>, Z> as Stage<L::Board>>⟧.owes ⟦<NodeTasks<L, LaneJob<K, H>, Z> as Stage<L::Board>>⟧.fails (Z.Unit.can_poll (L.Board.id start.base.board)) (IsUnitFault jobs.entry.given.now) start.base.nodes.last.stage start.base.nodes.last.tasks.items) }
    ensures stays { (begun : M) → IfSome nodes.old (λ nodes. M.stays begun nodes.middle) → IfOk result (λ start. M.stays begun start.base.nodes.middle.stage.node) }
    ensures fed_ready { IfOk result (λ start. ⟦<PipeOrder<L, LaneJob<K, H>> as MakesPipeTasks<L::Board, LaneJob<K, H>>>⟧.ready start.fed jobs.entry.fed.now (L.Board.id start.base.board)) }
    ensures given_ready { IfOk result (λ start. ⟦<PipeOrder<L, LaneJob<K, H>> as MakesPipeTasks<L::Board, LaneJob<K, H>>>⟧.ready start.given jobs.entry.given.now (L.Board.id start.base.board)) }
    ensures out_of_memory { IsOkUnless result OutOfMemory }
{
    let Some(nodes) = nodes.take() else {
        unreachable!()
    };
    let OpenProbe {
        first,
        middle,
        last,
        feed,
        take,
        fed,
        given,
    } = open_probe::<L, LaneJob<K, H>, A, M, Z>(alloc, &mut board, jobs, nodes, plan.pipelines)?;
    let again = rng.clone()?;
    let nodes = ThreeTasks {
        first,
        middle,
        last,
    };
    let base = ProbeBase {
        board,
        nodes,
        feed,
        take,
    };
    let fed = PipeOrder {
        pipe: Some(fed),
        rooms: plan.rooms,
        rng: again,
    };
    let given = PipeOrder {
        pipe: Some(given),
        rooms: plan.rooms,
        rng,
    };
    Ok(ProbeStart { base, fed, given })
}

/// Reads a scan's files, and writes what their rows find into the last sink: one node makes the rows, the middle one finds, and the
/// last one makes the text; answers the middle node, how many rows were written, and how many bytes of the files were
/// given.
///
/// The board and the nodes, which were made ready for the plan's pipelines, are lent, and taken. The reader has read nothing, and
/// the writer has written no row. `bound` says how many bytes of rows, the longest record not counted, reading may run ahead of
/// writing.
#[tactic(auto, using(crate::proofs::FoundLemmas::found_unswept))]
pub fn probe_nodes<L, K, H, A, M, Z, G, Y>(
    alloc: Global,
    io: &mut H,
    reader: ScanReader,
    writer: SinkWriter,
    board: &mut Option<L::Board>,
    jobs: ProbeJobs<'_, LaneJob<K, H>>,
    nodes: &mut Option<ProbeNodes<A, M, Z>>,
    plan: LinePlan,
    rng: Xoshiro256PlusPlus,
    bound: u64,
    gate: &G,
    steps: &mut Steps<Y>,
) -> Result<ProbeEnd<M>, Fault>
where
    L: Tokens + Lanes<Load<<L as Tokens>::Token, LaneJob<K, H>>>,
    <L as Tokens>::Token: AtHome,
    K: AtHome,
    H: Io,
    A: ComputeNode<L, LaneJob<K, H>> + Drop,
    M: ComputeNode<L, LaneJob<K, H>> + Drop,
    Z: ComputeNode<L, LaneJob<K, H>> + Drop,
    G: Gate,
    Y: Ledger,
    requires made { 0 < (H.seen io.old).sinks }
    requires suits { SuitsPieces (H.seen io.old) reader }
    requires start { reader ≡ pieces_at_start reader.sources }
    requires none_written { writer.rows ≡ 0 }
    requires reader { jobs.given.now.reader ≡ reader }
    requires outside { jobs.given.now.outside ≡ H.seen io.old }
    requires kind { jobs.given.now.kind ≡ Parts }
    requires fed { jobs.fed.now ≡ record jobs.given.now { kind = Pieces; stage = ScannedRows } }
    requires first_jobs { AreForOne jobs.fed.now jobs.asked.now jobs.first.recv.now.items jobs.first.send.now.items }
    requires middle_jobs { AreForSecond jobs.asked.now jobs.found.now jobs.middle.recv.now.items jobs.middle.send.now.items }
    requires last_jobs { AreForOne jobs.found.now jobs.given.now jobs.last.recv.now.items jobs.last.send.now.items }
    requires pipelines { (1 ≤ plan.pipelines) × (plan.pipelines ≤ 32768) }
    requires spread_room { (1 ≤ plan.rooms.spread) × (plan.rooms.spread ≤ 65536) }
    requires merge_room { (1 ≤ plan.rooms.merge) × (plan.rooms.merge ≤ 65536) }
    requires some_board { IsSome board.old }
    requires some_nodes { IsSome nodes.old }
    requires first { IfSome nodes.old (λ nodes. IsLineNode plan.pipelines (A.seen nodes.first)) }
    requires middle { IfSome nodes.old (λ nodes. IsFinding plan.pipelines (M.seen nodes.middle)) }
    requires last { IfSome nodes.old (λ nodes. IsLineNode plan.pipelines (Z.seen nodes.last)) }
    requires first_fits { IfSome nodes.old (λ nodes. A.fits nodes.first jobs.first.recv.now.items jobs.first.send.now.items) }
    requires middle_fits { IfSome nodes.old (λ nodes. M.fits nodes.middle jobs.middle.recv.now.items jobs.middle.send.now.items) }
    requires last_fits { IfSome nodes.old (λ nodes. Z.fits nodes.last jobs.last.recv.now.items jobs.last.send.now.items) }
    requires first_fails { IfSome nodes.old (λ nodes. (fault : Fault) → A.fails nodes.first jobs.first.recv.now.items fault → IsUnitFault jobs.given.now fault) }
    requires middle_fails { IfSome nodes.old (λ nodes. (fault : Fault) → M.fails nodes.middle jobs.middle.recv.now.items fault → IsUnitFault jobs.given.now fault) }
    requires last_fails { IfSome nodes.old (λ nodes. (fault : Fault) → Z.fails nodes.last jobs.last.recv.now.items fault → IsUnitFault jobs.given.now fault) }
    requires fed_tokens { IfSome board.old (λ board. HoldsTokensOf ⟦<LaneJob<K, H> as LoadJob<<L as Tokens>::Token>>⟧.holds L.token_home jobs.fed.now (L.Board.id board).group_table) }
    requires first_tokens { IfSome board.old (λ board. All (λ job. HoldsTokensOf ⟦<LaneJob<K, H> as LoadJob<<L as Tokens>::Token>>⟧.holds L.token_home job (L.Board.id board).group_table) jobs.first.recv.now.items) }
    requires middle_tokens { IfSome board.old (λ board. All (λ job. HoldsTokensOf ⟦<LaneJob<K, H> as LoadJob<<L as Tokens>::Token>>⟧.holds L.token_home job (L.Board.id board).group_table) jobs.middle.recv.now.items) }
    requires last_tokens { IfSome board.old (λ board. All (λ job. HoldsTokensOf ⟦<LaneJob<K, H> as LoadJob<<L as Tokens>::Token>>⟧.holds L.token_home job (L.Board.id board).group_table) jobs.last.recv.now.items) }
    requires given_tokens { IfSome board.old (λ board. HoldsTokensOf ⟦<LaneJob<K, H> as LoadJob<<L as Tokens>::Token>>⟧.holds L.token_home jobs.given.now (L.Board.id board).group_table) }
    ensures sweeps { (side : KeptSide) → jobs.entry.given.now.stage ≡ FoundRows side → SweepsFound jobs.entry.given.now.scan reader side (H.seen io.old) steps.old steps.new }
    ensures stays { (begun : M) → IfSome nodes.old (λ nodes. M.stays begun nodes.middle) → IfOk result (λ end. M.stays begun end.node) }
    ensures all { (side : KeptSide) → jobs.entry.given.now.stage ≡ FoundRows side → IfOk result (λ end. AreAllUpTo jobs.entry.given.now.scan reader (H.seen io.old) end.given) }
    ensures writes { (side : KeptSide) → jobs.entry.given.now.stage ≡ FoundRows side → WritesFoundOrNot jobs.entry.given.now.scan reader side bound (H.seen io.old) (rows_written result) (H.seen io.new) }
{
    let Some(board) = board.take() else {
        unreachable!()
    };
    let (fed_job, given_job) = (jobs.fed, jobs.given);
    let Ok(start) = open_units::<L, K, H, A, M, Z>(alloc, board, jobs, nodes, plan, rng) else {
        return Err(Fault::OutOfMemory);
    };
    let ProbeStart {
        base,
        mut fed,
        mut given,
    } = start;
    let ProbeEnd {
        node: stage,
        rows,
        given: bytes,
    } = probe_orders::<
        L,
        K,
        H,
        NodeTasks<L, LaneJob<K, H>, A>,
        NodeTasks<L, LaneJob<K, H>, M>,
        NodeTasks<L, LaneJob<K, H>, Z>,
        PipeOrder<L, LaneJob<K, H>>,
        G,
        Y,
    >(
        alloc,
        io,
        reader,
        writer,
        fed_job,
        given_job,
        &mut Some(base),
        &mut fed,
        &mut given,
        bound,
        gate,
        steps,
    )?;
    let NodeTasks { node, .. } = stage;
    Ok(ProbeEnd {
        node,
        rows,
        given: bytes,
    })
}
