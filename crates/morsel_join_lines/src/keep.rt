//! The first phase: a node keeps what comes.
ghost use Rattle.std.specs.Prelude.{◌≡◌, ◌≤◌, All, IfOk, IsOkUnless};
ghost use Rattle.morsel_meaning.specs.declared.fault.Fault.TheVariants.{OutOfMemory};
ghost use Rattle.morsel_merge.specs.Ends.{IsNewReceiver, IsNewSender};
ghost use Rattle.morsel_lane_pipe.specs.Tasks.{HoldsTokensOf};
ghost use Rattle.morsel_phase.specs.Lines.{IsLineNode};
ghost use Rattle.morsel_ports.specs.Pipes.{ToSpread, pipe_receivers, pipe_senders, pipelines_of, stage_of};
ghost use Rattle.morsel_join_lines.specs.JoinNodes.{AreForOne, KeepsFor};
ghost use Rattle.morsel_join_lines.specs.TasksOf.{AreTasksOf};

use crate::ends::{shared_ends, spread_ends};
use crate::units::{PortJobs, open_keeping, open_through};
use morsel_load::{Load, LoadJob};
use morsel_meaning::Fault;
use morsel_node_stage::NodeTasks;
use morsel_ports::{ComputeNode, LANE_ROOM, PhysicalPipe};
use morsel_prims::{Board, Lanes, Task, Tokens};
use morsel_stage::Stage;
use morsel_stage_tasks::StageTasks;
use std::alloc::Global;

/// What the lanes of a line are for whose last node keeps what it takes.
#[derive(Clone, Copy, Debug)]
pub struct KeepJobs<'a, J> {
    /// Those of what the caller feeds, and the first node takes.
    pub fed: &'a J,
    /// Those of what the first node gives, and the last one keeps.
    pub between: &'a J,
    /// Those of the first node's ports.
    pub first: PortJobs<'a, J>,
    /// Those of the last node's ports.
    pub last: PortJobs<'a, J>,
}

/// The two nodes of a line whose last node keeps what it takes.
#[derive(Drop)]
pub struct KeepNodes<A, M> {
    /// The one that takes what the caller feeds.
    pub first: A,
    /// The one that keeps what the first one gives.
    pub last: M,
}

/// A line of two nodes whose ends are given, and whose pipe has no tasks yet. Nothing comes out of it.
#[derive(Drop)]
pub struct OpenKeep<L, J, A, M>
where
    L: Tokens + Lanes<Load<<L as Tokens>::Token, J>>,
    J: LoadJob<<L as Tokens>::Token>,
    A: ComputeNode<L, J>,
    M: ComputeNode<L, J>,
{
    /// The first node and its units.
    pub first: StageTasks<L::Board, NodeTasks<L, J, A>>,
    /// The last node and its units.
    pub last: StageTasks<L::Board, NodeTasks<L, J, M>>,
    /// Through which the caller feeds.
    pub feed: L::Sender,
    /// The pipe before the first node.
    pub fed: PhysicalPipe<L, J>,
}

/// Gives two nodes, which were made ready for so many pipelines, their ends, and takes their units.
pub fn open_keep<L, J, A, M>(
    alloc: Global,
    board: &mut L::Board,
    jobs: KeepJobs<'_, J>,
    nodes: KeepNodes<A, M>,
    pipelines: u32,
) -> Result<OpenKeep<L, J, A, M>, Fault>
where
    L: Tokens + Lanes<Load<<L as Tokens>::Token, J>>,
    J: LoadJob<<L as Tokens>::Token>,
    A: ComputeNode<L, J> + Drop,
    M: ComputeNode<L, J> + Drop,
    requires pipelines { (1 ≤ pipelines) × (pipelines ≤ 32768) }
    requires first { IsLineNode pipelines (A.seen nodes.first) }
    requires last { KeepsFor pipelines jobs.between.now jobs.last.recv.now.items jobs.last.send.now.items (M.seen nodes.last) }
    requires first_jobs { AreForOne jobs.fed.now jobs.between.now jobs.first.recv.now.items jobs.first.send.now.items }
    requires first_fits { A.fits nodes.first jobs.first.recv.now.items jobs.first.send.now.items }
    requires last_fits { M.fits nodes.last jobs.last.recv.now.items jobs.last.send.now.items }
    requires first_tokens { All (λ job. HoldsTokensOf J.holds L.token_home job (L.Board.id board.old).group_table) jobs.first.recv.now.items }
    requires last_tokens { All (λ job. HoldsTokensOf J.holds L.token_home job (L.Board.id board.old).group_table) jobs.last.recv.now.items }
    ensures first { IfOk result (λ line. AreTasksOf ⟦<NodeTasks<L, J, A> as Stage<L::Board>>⟧.owes ⟦<NodeTasks<L, J, A> as Stage<L::Board>>⟧.fails (A.Unit.can_poll (L.Board.id board.old)) (A.fails nodes.first jobs.entry.first.recv.now.items) line.first.stage line.first.tasks.items) }
    ensures last { IfOk result (λ line. AreTasksOf ⟦<NodeTasks<L, J, M> as Stage<L::Board>>⟧.owes ⟦<NodeTasks<L, J, M> as Stage<L::Board>>⟧.fails (M.Unit.can_poll (L.Board.id board.old)) (M.fails nodes.last jobs.entry.last.recv.now.items) line.last.stage line.last.tasks.items) }
    ensures stays { IfOk result (λ line. (begun : M) → M.stays begun nodes.last → M.stays begun line.last.stage.node) }
    ensures feed { IfOk result (λ line. IsNewSender L.Sender.home L.Sender.job L.Sender.room L.Sender.sent (L.Board.id board.old).lane_table jobs.entry.fed.now (L.room_of LANE_ROOM) line.feed) }
    ensures fed_stage { IfOk result (λ line. stage_of line.fed ≡ ToSpread) }
    ensures fed_pipelines { IfOk result (λ line. pipelines_of line.fed ≡ pipelines) }
    ensures fed_senders { IfOk result (λ line. All (IsNewSender L.Sender.home L.Sender.job L.Sender.room L.Sender.sent (L.Board.id board.old).lane_table jobs.entry.fed.now (L.room_of LANE_ROOM)) (pipe_senders line.fed)) }
    ensures fed_receivers { IfOk result (λ line. All (IsNewReceiver L.Receiver.home L.Receiver.job L.Receiver.taken L.Receiver.is_whole L.Receiver.is_cut (L.Board.id board.old).lane_table jobs.entry.fed.now) (pipe_receivers line.fed)) }
    ensures out_of_memory { IsOkUnless result OutOfMemory }
    ensures same_board { L.Board.id board.new ≡ L.Board.id board.old }
{
    let KeepNodes {
        first: first_node,
        last: last_node,
    } = nodes;
    let KeepJobs {
        fed: fed_job,
        between,
        first: first_jobs,
        last: last_jobs,
    } = jobs;
    let fed = spread_ends::<L, J>(alloc, board, pipelines, fed_job)?;
    let middle = shared_ends::<L, J>(alloc, board, pipelines, between)?;
    let first = open_through::<L, J, A>(
        alloc, board, first_node, fed.from, middle.to, fed_job, between, first_jobs,
    )?;
    let last = open_keeping::<L, J, M>(alloc, board, last_node, middle.from, between, last_jobs)?;
    Ok(OpenKeep {
        first,
        last,
        feed: fed.to,
        fed: fed.pipe,
    })
}
