//! A line of two nodes, between the caller's two ends.
ghost use Rattle.std.specs.Prelude.{◌≡◌, ◌≤◌, ◌⊎◌, ◌++◌, All, [], ◌∷◌, IfOk, IsOkUnless, length};
ghost use Rattle.morsel_meaning.specs.declared.fault.Fault.{Fault};
ghost use Rattle.morsel_meaning.specs.declared.fault.Fault.TheVariants.{OutOfMemory};
ghost use Rattle.morsel_merge.specs.Ends.{IsNewReceiver, IsNewSender};
ghost use Rattle.morsel_lane_pipe.specs.Tasks.{HoldsTokensOf};
ghost use Rattle.morsel_ports.specs.Pipes.{ToMerge, ToSpread, pipe_receivers, pipe_senders, pipelines_of, stage_of};
ghost use Rattle.morsel_phase.specs.Lines.{IsLineNode};
ghost use Rattle.morsel_phase.specs.Stages.{HasNoFault, HasOut};
ghost use Rattle.morsel_stage.specs.Joined.{outputs_left};
ghost use Rattle.morsel_stage.specs.Kinds.{firsts, seconds, thirds};
ghost use Rattle.morsel_stage.specs.Unjoined.{unjoined};

use crate::ends::{fed_ends, given_ends, middle_ends};
use crate::line_stage::{LineStage, LineTask};
use crate::node_stage::{NodeEnds, NodeStage, open_node};
use morsel_lane_pipe::PipeOut;
use morsel_load::{Load, LoadJob};
use morsel_local::Local;
use morsel_meaning::Fault;
use morsel_ports::{ComputeNode, LANE_ROOM, PhysicalPipe};
use morsel_prims::{Board, Lanes, Task, Tokens};
use morsel_stage::{LineTasks, Stage, spawn_all};
use std::alloc::Global;
use std::marker::PhantomData;

/// For how many loads there is room: in each lane of a distributor, and in each of a linearizer.
#[derive(Clone, Copy, Debug)]
pub struct LineRooms {
    /// In each lane of a distributor.
    pub spread: u32,
    /// In each lane of a linearizer.
    pub merge: u32,
}

/// How a line is made.
#[derive(Clone, Copy, Debug)]
pub struct LinePlan {
    /// How many units each node gets.
    pub pipelines: u32,
    /// For how many loads there is room.
    pub rooms: LineRooms,
}

/// What the lanes of a line of two nodes are for.
#[derive(Clone, Copy, Debug)]
pub struct LineJobs<'a, J> {
    /// Those of what the caller feeds, and the first node takes.
    pub fed: &'a J,
    /// Those of what the first node gives, and the last one takes.
    pub between: &'a J,
    /// Those of what the last node gives, and the caller takes.
    pub given: &'a J,
}

/// The two nodes of a line.
#[derive(Drop)]
pub struct LineNodes<A, Z> {
    /// The one that takes what the caller feeds.
    pub first: A,
    /// The one that gives what the caller takes.
    pub last: Z,
}

/// The two nodes of a line with their units out.
#[derive(Drop)]
pub struct OpenNodes<L, J, A, Z>
where
    L: Tokens + Lanes<Load<<L as Tokens>::Token, J>>,
    J: LoadJob<<L as Tokens>::Token>,
    A: ComputeNode<L, J>,
    Z: ComputeNode<L, J>,
{
    /// The first node.
    pub first: NodeStage<A, J>,
    /// Its units.
    pub firsts: Vec<A::Unit>,
    /// The last node.
    pub last: NodeStage<Z, J>,
    /// Its units.
    pub lasts: Vec<Z::Unit>,
}

/// A line of two nodes whose ends are given, and whose pipes have no tasks yet.
#[derive(Drop)]
pub struct OpenLine<L, J, A, Z>
where
    L: Tokens + Lanes<Load<<L as Tokens>::Token, J>>,
    J: LoadJob<<L as Tokens>::Token>,
    A: ComputeNode<L, J>,
    Z: ComputeNode<L, J>,
{
    /// The nodes.
    pub nodes: OpenNodes<L, J, A, Z>,
    /// Through which the caller feeds.
    pub feed: L::Sender,
    /// From which the caller takes.
    pub take: L::Receiver,
    /// The pipe before the first node.
    pub fed: PhysicalPipe<L, J>,
    /// The pipe behind the last one.
    pub given: PhysicalPipe<L, J>,
}

/// Gives two nodes, which were made ready for so many pipelines, their ends, and takes their units.
pub fn open_line<L, J, A, Z>(
    alloc: Global,
    board: &mut L::Board,
    jobs: LineJobs<'_, J>,
    nodes: LineNodes<A, Z>,
    pipelines: u32,
) -> Result<OpenLine<L, J, A, Z>, Fault>
where
    L: Tokens + Lanes<Load<<L as Tokens>::Token, J>>,
    J: LoadJob<<L as Tokens>::Token>,
    A: ComputeNode<L, J> + Drop,
    Z: ComputeNode<L, J> + Drop,
    requires pipelines { (1 ≤ pipelines) × (pipelines ≤ 32768) }
    requires first { IsLineNode pipelines (A.seen nodes.first) }
    requires last { IsLineNode pipelines (Z.seen nodes.last) }
    requires first_fits { A.fits nodes.first (jobs.fed.now ∷ []) (jobs.between.now ∷ []) }
    requires last_fits { Z.fits nodes.last (jobs.between.now ∷ []) (jobs.given.now ∷ []) }
    requires fed_tokens { HoldsTokensOf J.holds L.token_home jobs.fed.now (L.Board.id board.old).group_table }
    requires between_tokens { HoldsTokensOf J.holds L.token_home jobs.between.now (L.Board.id board.old).group_table }
    ensures first_len { IfOk result (λ line. length line.nodes.firsts.items ≡ pipelines) }
    ensures last_len { IfOk result (λ line. length line.nodes.lasts.items ≡ pipelines) }
    ensures firsts { IfOk result (λ line. All (A.Unit.can_poll (L.Board.id board.old)) line.nodes.firsts.items) }
    ensures lasts { IfOk result (λ line. All (Z.Unit.can_poll (L.Board.id board.old)) line.nodes.lasts.items) }
    ensures first_out { IfOk result (λ line. HasOut (A.seen line.nodes.first.node).units (A.is_unit line.nodes.first.node) A.unit_fails (A.fails line.nodes.first.begun.value (line.nodes.first.job.value ∷ [])) line.nodes.firsts.items) }
    ensures last_out { IfOk result (λ line. HasOut (Z.seen line.nodes.last.node).units (Z.is_unit line.nodes.last.node) Z.unit_fails (Z.fails line.nodes.last.begun.value (line.nodes.last.job.value ∷ [])) line.nodes.lasts.items) }
    ensures first_begun { IfOk result (λ line. (line.nodes.first.begun.value ≡ nodes.first) × (line.nodes.first.job.value ≡ jobs.entry.fed.now)) }
    ensures last_begun { IfOk result (λ line. (line.nodes.last.begun.value ≡ nodes.last) × (line.nodes.last.job.value ≡ jobs.entry.between.now)) }
    ensures feed { IfOk result (λ line. IsNewSender L.Sender.home L.Sender.job L.Sender.room L.Sender.sent (L.Board.id board.old).lane_table jobs.entry.fed.now (L.room_of LANE_ROOM) line.feed) }
    ensures take { IfOk result (λ line. IsNewReceiver L.Receiver.home L.Receiver.job L.Receiver.taken L.Receiver.is_whole L.Receiver.is_cut (L.Board.id board.old).lane_table jobs.entry.given.now line.take) }
    ensures fed_stage { IfOk result (λ line. stage_of line.fed ≡ ToSpread) }
    ensures fed_pipelines { IfOk result (λ line. pipelines_of line.fed ≡ pipelines) }
    ensures fed_senders { IfOk result (λ line. All (IsNewSender L.Sender.home L.Sender.job L.Sender.room L.Sender.sent (L.Board.id board.old).lane_table jobs.entry.fed.now (L.room_of LANE_ROOM)) (pipe_senders line.fed)) }
    ensures fed_receivers { IfOk result (λ line. All (IsNewReceiver L.Receiver.home L.Receiver.job L.Receiver.taken L.Receiver.is_whole L.Receiver.is_cut (L.Board.id board.old).lane_table jobs.entry.fed.now) (pipe_receivers line.fed)) }
    ensures given_stage { IfOk result (λ line. stage_of line.given ≡ ToMerge) }
    ensures given_pipelines { IfOk result (λ line. pipelines_of line.given ≡ pipelines) }
    ensures given_senders { IfOk result (λ line. All (IsNewSender L.Sender.home L.Sender.job L.Sender.room L.Sender.sent (L.Board.id board.old).lane_table jobs.entry.given.now (L.room_of LANE_ROOM)) (pipe_senders line.given)) }
    ensures given_receivers { IfOk result (λ line. All (IsNewReceiver L.Receiver.home L.Receiver.job L.Receiver.taken L.Receiver.is_whole L.Receiver.is_cut (L.Board.id board.old).lane_table jobs.entry.given.now) (pipe_receivers line.given)) }
    ensures out_of_memory { IsOkUnless result OutOfMemory }
    ensures same_board { L.Board.id board.new ≡ L.Board.id board.old }
{
    let fed = fed_ends::<L, J>(alloc, board, pipelines, jobs.fed)?;
    let middle = middle_ends::<L, J>(alloc, board, pipelines, jobs.between)?;
    let given = given_ends::<L, J>(alloc, board, pipelines, jobs.given)?;
    let first_ends = NodeEnds {
        from: fed.from,
        to: middle.to,
        from_job: jobs.fed,
        to_job: jobs.between,
    };
    let (first, firsts) = open_node::<L, J, A>(alloc, board, nodes.first, first_ends)?;
    let last_ends = NodeEnds {
        from: middle.from,
        to: given.to,
        from_job: jobs.between,
        to_job: jobs.given,
    };
    let (last, lasts) = open_node::<L, J, Z>(alloc, board, nodes.last, last_ends)?;
    Ok(OpenLine {
        nodes: OpenNodes {
            first,
            firsts,
            last,
            lasts,
        },
        feed: fed.feed,
        take: given.take,
        fed: fed.pipe,
        given: given.pipe,
    })
}

/// A line whose tasks are spawned.
#[derive(Drop)]
pub struct StartedLine<B: Board + Drop, G: Stage<B>> {
    /// The tasks.
    pub local: Local<G::Task, B>,
    /// How many there are.
    pub spawned: u32,
    /// Whose they are.
    pub stage: G,
}

/// Spawns the units of two nodes, and the tasks of the pipes before and behind them, on a board.
pub fn start_line<L, J, A, Z, P, R>(
    alloc: Global,
    board: L::Board,
    nodes: OpenNodes<L, J, A, Z>,
    spreading: Vec<P>,
    merging: Vec<P>,
) -> Result<StartedLine<L::Board, LineStage<L, J, A, Z, P>>, Fault>
where
    L: Tokens + Lanes<Load<<L as Tokens>::Token, J>>,
    J: LoadJob<<L as Tokens>::Token>,
    A: ComputeNode<L, J> + Drop,
    Z: ComputeNode<L, J> + Drop,
    P: Task<<L as Tokens>::Board, Out = PipeOut<R>> + Drop,
    R: Drop,
    requires firsts { All (A.Unit.can_poll (L.Board.id board)) nodes.firsts.items }
    requires lasts { All (Z.Unit.can_poll (L.Board.id board)) nodes.lasts.items }
    requires spreading { All (P.can_poll (L.Board.id board)) spreading.items }
    requires merging { All (P.can_poll (L.Board.id board)) merging.items }
    requires first_out { HasOut (A.seen nodes.first.node).units (A.is_unit nodes.first.node) A.unit_fails (A.fails nodes.first.begun.value (nodes.first.job.value ∷ [])) nodes.firsts.items }
    requires last_out { HasOut (Z.seen nodes.last.node).units (Z.is_unit nodes.last.node) Z.unit_fails (Z.fails nodes.last.begun.value (nodes.last.job.value ∷ [])) nodes.lasts.items }
    requires spreading_faults { All (HasNoFault P.gives) spreading.items }
    requires merging_faults { All (HasNoFault P.gives) merging.items }
    ensures none_ended { IfOk result (λ line. outputs_left line.spawned line.local.tasks ≡ 0) }
    ensures home { IfOk result (λ line. line.local.home ≡ L.Board.id board) }
    ensures capacity { IfOk result (λ line. line.local.capacity ≡ line.spawned) }
    ensures firsts { IfOk result (λ line. firsts (unjoined line.local.tasks) ≡ nodes.firsts.items) }
    ensures seconds { IfOk result (λ line. seconds (unjoined line.local.tasks) ≡ nodes.lasts.items) }
    ensures thirds { IfOk result (λ line. thirds (unjoined line.local.tasks) ≡ spreading.items ++ merging.items) }
    ensures board { IfOk result (λ line. L.Board.id line.local.cx.board ≡ L.Board.id board) }
    ensures owed { IfOk result (λ line. ⟦<LineStage<L, J, A, Z, P> as Stage<L::Board>>⟧.owes line.stage (unjoined line.local.tasks)) }
    ensures fails { IfOk result (λ line. (fault : Fault) → ⟦<LineStage<L, J, A, Z, P> as Stage<L::Board>>⟧.fails line.stage fault → (fault ≡ OutOfMemory) ⊎ A.fails nodes.first.begun.value (nodes.first.job.value ∷ []) fault ⊎ Z.fails nodes.last.begun.value (nodes.last.job.value ∷ []) fault) }
    ensures out_of_memory { IsOkUnless result OutOfMemory }
{
    let OpenNodes {
        first,
        firsts,
        last,
        lasts,
    } = nodes;
    let tasks = LineTasks {
        firsts,
        seconds: lasts,
        spreading,
        merging,
    };
    let (local, spawned) = spawn_all(alloc, board, tasks)?;
    Ok(StartedLine {
        local,
        spawned,
        stage: LineStage {
            first,
            last,
            lanes: PhantomData,
            pipes: PhantomData,
        },
    })
}
