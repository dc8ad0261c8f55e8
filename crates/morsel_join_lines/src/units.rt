//! The units of a node between the ends of its ports.
ghost use Rattle.std.specs.Prelude.{◌≡◌, ℕ, ◌∷◌, ◌++◌, [], All, List, IfOk, OnOk, IsOkUnless, length, replicate};
ghost use Rattle.morsel_meaning.specs.declared.fault.Fault.TheVariants.{OutOfMemory};
ghost use Rattle.morsel_merge.specs.Ends.{IsNewReceiver, IsNewSender};
ghost use Rattle.morsel_lane_pipe.specs.Tasks.{HoldsTokensOf};
ghost use Rattle.morsel_phase.specs.Lines.{IsLineNode};
ghost use Rattle.morsel_ports.specs.declared.node.Ends.{Ends};
ghost use Rattle.morsel_ports.specs.declared.node.Ends.TheVariants.{Absent};
ghost use Rattle.morsel_join_lines.specs.JoinNodes.{AreForOne, AreForSecond, GivesFor, IsFinding, KeepsFor};
ghost use Rattle.morsel_join_lines.specs.TasksOf.{AreTasksOf};

use morsel_load::{Load, LoadJob};
use morsel_meaning::Fault;
use morsel_node_stage::{NodePorts, NodeTasks, open_ports};
use morsel_ports::{ComputeNode, Ends};
use morsel_prims::{Lanes, Task, Tokens};
use morsel_stage::Stage;
use morsel_stage_tasks::StageTasks;
use std::alloc::Global;

/// What the lanes of a node's ports are for, in order of ports; also of ports that have no ends.
#[derive(Clone, Copy, Debug)]
pub struct PortJobs<'a, J> {
    /// Those of its receiving ports.
    pub recv: &'a Vec<J>,
    /// Those of its sending ports.
    pub send: &'a Vec<J>,
}

/// What the only port gets.
fn one_port<E: Drop>(alloc: Global, port: Ends<E>) -> Result<Vec<Ends<E>>, Fault>
    ensures ports { IfOk result (λ ports. ports.items ≡ port ∷ []) }
    ensures out_of_memory { IsOkUnless result OutOfMemory }
{
    let mut ports = Vec::new(alloc);
    ports.push(port)?;
    Ok(ports)
}

/// What two ports get.
fn two_ports<E: Drop>(alloc: Global, first: Ends<E>, second: Ends<E>) -> Result<Vec<Ends<E>>, Fault>
    ensures ports { IfOk result (λ ports. ports.items ≡ first ∷ second ∷ []) }
    ensures out_of_memory { IsOkUnless result OutOfMemory }
{
    let mut ports = Vec::new(alloc);
    ports.push(first)?;
    ports.push(second)?;
    Ok(ports)
}

/// Gives no ends to so many more ports.
fn add_absent<E: Drop>(ports: &mut Vec<Ends<E>>, more: usize) -> Result<(), Fault>
    ensures ports { OnOk result (ports.new.items ≡ ports.old.items ++ replicate more Absent) }
    ensures out_of_memory { IsOkUnless result OutOfMemory }
{
    for _ in 0..more {
        ports.push(Ends::Absent)?;
    }
    Ok(())
}

/// What ports get of which the first one alone has ends; there is one for each of these jobs.
fn first_ports<E: Drop, J>(
    alloc: Global,
    first: Ends<E>,
    jobs: &Vec<J>,
) -> Result<Vec<Ends<E>>, Fault>
    ensures ports { (job : J) (others : List J) → jobs.now.items ≡ job ∷ others → IfOk result (λ ports. ports.items ≡ first ∷ replicate (length others) Absent) }
    ensures out_of_memory { IsOkUnless result OutOfMemory }
{
    let mut ports = one_port(alloc, first)?;
    add_absent(&mut ports, jobs.len().saturating_sub(1))?;
    Ok(ports)
}

/// What ports get of which none has ends; there is one for each of these jobs.
fn no_ports<E: Drop, J>(alloc: Global, jobs: &Vec<J>) -> Result<Vec<Ends<E>>, Fault>
    ensures ports { IfOk result (λ ports. ports.items ≡ replicate (length jobs.now.items) Absent) }
    ensures out_of_memory { IsOkUnless result OutOfMemory }
{
    let mut ports = Vec::new(alloc);
    add_absent(&mut ports, jobs.len())?;
    Ok(ports)
}

/// The units of a node of one receiving and one sending port, both parallel.
pub fn open_through<L, J, N>(
    alloc: Global,
    board: &mut L::Board,
    node: N,
    from: Vec<L::Receiver>,
    to: Vec<L::Sender>,
    from_job: &J,
    to_job: &J,
    jobs: PortJobs<'_, J>,
) -> Result<StageTasks<L::Board, NodeTasks<L, J, N>>, Fault>
where
    L: Tokens + Lanes<Load<<L as Tokens>::Token, J>>,
    J: LoadJob<<L as Tokens>::Token>,
    N: ComputeNode<L, J> + Drop,
    requires node { IsLineNode (length from.items) (N.seen node) }
    requires as_many { length to.items ≡ length from.items }
    requires jobs { AreForOne from_job.now to_job.now jobs.recv.now.items jobs.send.now.items }
    requires fits { N.fits node jobs.recv.now.items jobs.send.now.items }
    requires from { All (IsNewReceiver L.Receiver.home L.Receiver.job L.Receiver.taken L.Receiver.is_whole L.Receiver.is_cut (L.Board.id board.old).lane_table from_job.now) from.items }
    requires to { All (λ end. (room : ℕ) × IsNewSender L.Sender.home L.Sender.job L.Sender.room L.Sender.sent (L.Board.id board.old).lane_table to_job.now room end) to.items }
    requires tokens { All (λ job. HoldsTokensOf J.holds L.token_home job (L.Board.id board.old).group_table) jobs.recv.now.items }
    ensures tasks { IfOk result (λ opened. AreTasksOf ⟦<NodeTasks<L, J, N> as Stage<L::Board>>⟧.owes ⟦<NodeTasks<L, J, N> as Stage<L::Board>>⟧.fails (N.Unit.can_poll (L.Board.id board.old)) (N.fails node jobs.entry.recv.now.items) opened.stage opened.tasks.items) }
    ensures out_of_memory { IsOkUnless result OutOfMemory }
    ensures same_board { L.Board.id board.new ≡ L.Board.id board.old }
{
    let recv = one_port(alloc, Ends::Parallel(from))?;
    let send = one_port(alloc, Ends::Parallel(to))?;
    let ports = NodePorts { recv, send };
    let (stage, tasks) = open_ports::<L, J, N>(alloc, board, node, ports, jobs.recv, jobs.send)?;
    Ok(StageTasks { stage, tasks })
}

/// The units of a node that keeps what it takes from these ends.
pub fn open_keeping<L, J, N>(
    alloc: Global,
    board: &mut L::Board,
    node: N,
    from: Vec<L::Receiver>,
    job: &J,
    jobs: PortJobs<'_, J>,
) -> Result<StageTasks<L::Board, NodeTasks<L, J, N>>, Fault>
where
    L: Tokens + Lanes<Load<<L as Tokens>::Token, J>>,
    J: LoadJob<<L as Tokens>::Token>,
    N: ComputeNode<L, J> + Drop,
    requires node { KeepsFor (length from.items) job.now jobs.recv.now.items jobs.send.now.items (N.seen node) }
    requires fits { N.fits node jobs.recv.now.items jobs.send.now.items }
    requires from { All (IsNewReceiver L.Receiver.home L.Receiver.job L.Receiver.taken L.Receiver.is_whole L.Receiver.is_cut (L.Board.id board.old).lane_table job.now) from.items }
    requires tokens { All (λ job. HoldsTokensOf J.holds L.token_home job (L.Board.id board.old).group_table) jobs.recv.now.items }
    ensures tasks { IfOk result (λ opened. AreTasksOf ⟦<NodeTasks<L, J, N> as Stage<L::Board>>⟧.owes ⟦<NodeTasks<L, J, N> as Stage<L::Board>>⟧.fails (N.Unit.can_poll (L.Board.id board.old)) (N.fails node jobs.entry.recv.now.items) opened.stage opened.tasks.items) }
    ensures stays { IfOk result (λ opened. (begun : N) → N.stays begun node → N.stays begun opened.stage.node) }
    ensures out_of_memory { IsOkUnless result OutOfMemory }
    ensures same_board { L.Board.id board.new ≡ L.Board.id board.old }
{
    let recv = first_ports(alloc, Ends::Parallel(from), jobs.recv)?;
    let send = one_port(alloc, Ends::Absent)?;
    let ports = NodePorts { recv, send };
    let (stage, tasks) = open_ports::<L, J, N>(alloc, board, node, ports, jobs.recv, jobs.send)?;
    Ok(StageTasks { stage, tasks })
}

/// The units of a node that gives what it finds for what it takes from these ends.
pub fn open_finding<L, J, N>(
    alloc: Global,
    board: &mut L::Board,
    node: N,
    from: Vec<L::Receiver>,
    to: Vec<L::Sender>,
    from_job: &J,
    to_job: &J,
    jobs: PortJobs<'_, J>,
) -> Result<StageTasks<L::Board, NodeTasks<L, J, N>>, Fault>
where
    L: Tokens + Lanes<Load<<L as Tokens>::Token, J>>,
    J: LoadJob<<L as Tokens>::Token>,
    N: ComputeNode<L, J> + Drop,
    requires node { IsFinding (length from.items) (N.seen node) }
    requires as_many { length to.items ≡ length from.items }
    requires jobs { AreForSecond from_job.now to_job.now jobs.recv.now.items jobs.send.now.items }
    requires fits { N.fits node jobs.recv.now.items jobs.send.now.items }
    requires from { All (IsNewReceiver L.Receiver.home L.Receiver.job L.Receiver.taken L.Receiver.is_whole L.Receiver.is_cut (L.Board.id board.old).lane_table from_job.now) from.items }
    requires to { All (λ end. (room : ℕ) × IsNewSender L.Sender.home L.Sender.job L.Sender.room L.Sender.sent (L.Board.id board.old).lane_table to_job.now room end) to.items }
    requires tokens { All (λ job. HoldsTokensOf J.holds L.token_home job (L.Board.id board.old).group_table) jobs.recv.now.items }
    ensures tasks { IfOk result (λ opened. AreTasksOf ⟦<NodeTasks<L, J, N> as Stage<L::Board>>⟧.owes ⟦<NodeTasks<L, J, N> as Stage<L::Board>>⟧.fails (N.Unit.can_poll (L.Board.id board.old)) (N.fails node jobs.entry.recv.now.items) opened.stage opened.tasks.items) }
    ensures stays { IfOk result (λ opened. (begun : N) → N.stays begun node → N.stays begun opened.stage.node) }
    ensures out_of_memory { IsOkUnless result OutOfMemory }
    ensures same_board { L.Board.id board.new ≡ L.Board.id board.old }
{
    let recv = two_ports(alloc, Ends::Absent, Ends::Parallel(from))?;
    let send = one_port(alloc, Ends::Parallel(to))?;
    let ports = NodePorts { recv, send };
    let (stage, tasks) = open_ports::<L, J, N>(alloc, board, node, ports, jobs.recv, jobs.send)?;
    Ok(StageTasks { stage, tasks })
}

/// The units of a node that gives through this end, and takes nothing.
pub fn open_giving<L, J, N>(
    alloc: Global,
    board: &mut L::Board,
    node: N,
    pipelines: u32,
    to: L::Sender,
    job: &J,
    jobs: PortJobs<'_, J>,
) -> Result<StageTasks<L::Board, NodeTasks<L, J, N>>, Fault>
where
    L: Tokens + Lanes<Load<<L as Tokens>::Token, J>>,
    J: LoadJob<<L as Tokens>::Token>,
    N: ComputeNode<L, J> + Drop,
    requires node { GivesFor pipelines job.now jobs.recv.now.items jobs.send.now.items (N.seen node) }
    requires fits { N.fits node jobs.recv.now.items jobs.send.now.items }
    requires to { (room : ℕ) × IsNewSender L.Sender.home L.Sender.job L.Sender.room L.Sender.sent (L.Board.id board.old).lane_table job.now room to }
    requires tokens { All (λ job. HoldsTokensOf J.holds L.token_home job (L.Board.id board.old).group_table) jobs.recv.now.items }
    ensures tasks { IfOk result (λ opened. AreTasksOf ⟦<NodeTasks<L, J, N> as Stage<L::Board>>⟧.owes ⟦<NodeTasks<L, J, N> as Stage<L::Board>>⟧.fails (N.Unit.can_poll (L.Board.id board.old)) (N.fails node jobs.entry.recv.now.items) opened.stage opened.tasks.items) }
    ensures out_of_memory { IsOkUnless result OutOfMemory }
    ensures same_board { L.Board.id board.new ≡ L.Board.id board.old }
{
    let recv = no_ports(alloc, jobs.recv)?;
    let send = one_port(alloc, Ends::Serial(to))?;
    let ports = NodePorts { recv, send };
    let (stage, tasks) = open_ports::<L, J, N>(alloc, board, node, ports, jobs.recv, jobs.send)?;
    Ok(StageTasks { stage, tasks })
}
