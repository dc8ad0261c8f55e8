//! The last phase: a node gives of what it has kept.
ghost use Rattle.std.specs.Prelude.{◌≡◌, ◌≤◌, All, IfOk, IsOkUnless};
ghost use Rattle.morsel_meaning.specs.declared.fault.Fault.TheVariants.{OutOfMemory};
ghost use Rattle.morsel_merge.specs.Ends.{IsNewReceiver, IsNewSender};
ghost use Rattle.morsel_lane_pipe.specs.Tasks.{HoldsTokensOf};
ghost use Rattle.morsel_phase.specs.Lines.{IsLineNode};
ghost use Rattle.morsel_ports.specs.Pipes.{ToMerge, ToSpread, pipe_receivers, pipe_senders, pipelines_of, stage_of};
ghost use Rattle.morsel_join_lines.specs.JoinNodes.{AreForOne, GivesFor};
ghost use Rattle.morsel_join_lines.specs.TasksOf.{AreTasksOf};

use crate::ends::{merged_ends, spread_ends};
use crate::units::{PortJobs, open_giving, open_through};
use morsel_load::{Load, LoadJob};
use morsel_meaning::Fault;
use morsel_node_stage::NodeTasks;
use morsel_ports::{ComputeNode, LANE_ROOM, PhysicalPipe};
use morsel_prims::{Board, Lanes, Task, Tokens};
use morsel_stage::Stage;
use morsel_stage_tasks::StageTasks;
use std::alloc::Global;

/// What the lanes of a line are for whose first node gives of what it has kept.
#[derive(Clone, Copy, Debug)]
pub struct EmitJobs<'a, J> {
    /// Those of what the first node gives, and the last one takes.
    pub kept: &'a J,
    /// Those of what the last node gives, and the caller takes.
    pub given: &'a J,
    /// Those of the first node's ports.
    pub first: PortJobs<'a, J>,
    /// Those of the last node's ports.
    pub last: PortJobs<'a, J>,
}

/// The two nodes of a line whose first node gives of what it has kept.
#[derive(Drop)]
pub struct EmitNodes<M, Z> {
    /// The one that gives of what it has kept.
    pub first: M,
    /// The one that gives what the caller takes.
    pub last: Z,
}

/// A line of two nodes whose ends are given, and whose pipes have no tasks yet. Nothing is fed into it.
#[derive(Drop)]
pub struct OpenEmit<L, J, M, Z>
where
    L: Tokens + Lanes<Load<<L as Tokens>::Token, J>>,
    J: LoadJob<<L as Tokens>::Token>,
    M: ComputeNode<L, J>,
    Z: ComputeNode<L, J>,
{
    /// The first node and its units.
    pub first: StageTasks<L::Board, NodeTasks<L, J, M>>,
    /// The last node and its units.
    pub last: StageTasks<L::Board, NodeTasks<L, J, Z>>,
    /// From which the caller takes.
    pub take: L::Receiver,
    /// The pipe between the nodes.
    pub kept: PhysicalPipe<L, J>,
    /// The pipe behind the last node.
    pub given: PhysicalPipe<L, J>,
}

/// Gives two nodes their ends, and takes their units. The first one, which was made ready for so many pipelines, has one unit; the last
/// one was made ready for the pipelines of this line.
pub fn open_emit<L, J, M, Z>(
    alloc: Global,
    board: &mut L::Board,
    jobs: EmitJobs<'_, J>,
    nodes: EmitNodes<M, Z>,
    ready: u32,
    pipelines: u32,
) -> Result<OpenEmit<L, J, M, Z>, Fault>
where
    L: Tokens + Lanes<Load<<L as Tokens>::Token, J>>,
    J: LoadJob<<L as Tokens>::Token>,
    M: ComputeNode<L, J> + Drop,
    Z: ComputeNode<L, J> + Drop,
    requires pipelines { (1 ≤ pipelines) × (pipelines ≤ 32768) }
    requires first { GivesFor ready jobs.kept.now jobs.first.recv.now.items jobs.first.send.now.items (M.seen nodes.first) }
    requires last { IsLineNode pipelines (Z.seen nodes.last) }
    requires last_jobs { AreForOne jobs.kept.now jobs.given.now jobs.last.recv.now.items jobs.last.send.now.items }
    requires first_fits { M.fits nodes.first jobs.first.recv.now.items jobs.first.send.now.items }
    requires last_fits { Z.fits nodes.last jobs.last.recv.now.items jobs.last.send.now.items }
    requires first_tokens { All (λ job. HoldsTokensOf J.holds L.token_home job (L.Board.id board.old).group_table) jobs.first.recv.now.items }
    requires last_tokens { All (λ job. HoldsTokensOf J.holds L.token_home job (L.Board.id board.old).group_table) jobs.last.recv.now.items }
    ensures first { IfOk result (λ line. AreTasksOf ⟦<NodeTasks<L, J, M> as Stage<L::Board>>⟧.owes ⟦<NodeTasks<L, J, M> as Stage<L::Board>>⟧.fails (M.Unit.can_poll (L.Board.id board.old)) (M.fails nodes.first jobs.entry.first.recv.now.items) line.first.stage line.first.tasks.items) }
    ensures last { IfOk result (λ line. AreTasksOf ⟦<NodeTasks<L, J, Z> as Stage<L::Board>>⟧.owes ⟦<NodeTasks<L, J, Z> as Stage<L::Board>>⟧.fails (Z.Unit.can_poll (L.Board.id board.old)) (Z.fails nodes.last jobs.entry.last.recv.now.items) line.last.stage line.last.tasks.items) }
    ensures take { IfOk result (λ line. IsNewReceiver L.Receiver.home L.Receiver.job L.Receiver.taken L.Receiver.is_whole L.Receiver.is_cut (L.Board.id board.old).lane_table jobs.entry.given.now line.take) }
    ensures kept_stage { IfOk result (λ line. stage_of line.kept ≡ ToSpread) }
    ensures kept_pipelines { IfOk result (λ line. pipelines_of line.kept ≡ pipelines) }
    ensures kept_senders { IfOk result (λ line. All (IsNewSender L.Sender.home L.Sender.job L.Sender.room L.Sender.sent (L.Board.id board.old).lane_table jobs.entry.kept.now (L.room_of LANE_ROOM)) (pipe_senders line.kept)) }
    ensures kept_receivers { IfOk result (λ line. All (IsNewReceiver L.Receiver.home L.Receiver.job L.Receiver.taken L.Receiver.is_whole L.Receiver.is_cut (L.Board.id board.old).lane_table jobs.entry.kept.now) (pipe_receivers line.kept)) }
    ensures given_stage { IfOk result (λ line. stage_of line.given ≡ ToMerge) }
    ensures given_pipelines { IfOk result (λ line. pipelines_of line.given ≡ pipelines) }
    ensures given_senders { IfOk result (λ line. All (IsNewSender L.Sender.home L.Sender.job L.Sender.room L.Sender.sent (L.Board.id board.old).lane_table jobs.entry.given.now (L.room_of LANE_ROOM)) (pipe_senders line.given)) }
    ensures given_receivers { IfOk result (λ line. All (IsNewReceiver L.Receiver.home L.Receiver.job L.Receiver.taken L.Receiver.is_whole L.Receiver.is_cut (L.Board.id board.old).lane_table jobs.entry.given.now) (pipe_receivers line.given)) }
    ensures out_of_memory { IsOkUnless result OutOfMemory }
    ensures same_board { L.Board.id board.new ≡ L.Board.id board.old }
{
    let EmitNodes {
        first: first_node,
        last: last_node,
    } = nodes;
    let EmitJobs {
        kept: kept_job,
        given: given_job,
        first: first_jobs,
        last: last_jobs,
    } = jobs;
    let kept = spread_ends::<L, J>(alloc, board, pipelines, kept_job)?;
    let given = merged_ends::<L, J>(alloc, board, pipelines, given_job)?;
    let first = open_giving::<L, J, M>(
        alloc, board, first_node, ready, kept.to, kept_job, first_jobs,
    )?;
    let last = open_through::<L, J, Z>(
        alloc, board, last_node, kept.from, given.to, kept_job, given_job, last_jobs,
    )?;
    Ok(OpenEmit {
        first,
        last,
        take: given.from,
        kept: kept.pipe,
        given: given.pipe,
    })
}
