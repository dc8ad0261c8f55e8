//! A node gets its ends.
ghost use Rattle.std.specs.Prelude.{◌≡◌, ℕ, All, IfOk, IsOkUnless, IsSome};
ghost use Rattle.morsel_meaning.specs.declared.fault.Fault.TheVariants.{OutOfMemory};
ghost use Rattle.morsel_merge.specs.Ends.{IsNewReceiver, IsNewSender};
ghost use Rattle.morsel_lane_pipe.specs.Tasks.{HoldsTokensOf};
ghost use Rattle.morsel_ports.specs.Nodes.{AreEndsFor, AreEndsOfKinds, AreUnitsBetween, unit_between};
ghost use Rattle.morsel_phase.specs.Stages.{HasOut};

use crate::node_tasks::NodeTasks;
use morsel_load::{Load, LoadJob};
use morsel_meaning::Fault;
use morsel_ports::{ComputeNode, Ends};
use morsel_prims::{Lanes, Tokens};
use std::alloc::Global;
use std::marker::PhantomData;
use std::snapshot::Snapshot;

/// What the ports of a node get in a phase, and what their lanes are for, in order of ports.
#[derive(Drop)]
pub struct NodePorts<R, S> {
    /// What its receiving ports get.
    pub recv: Vec<Ends<R>>,
    /// What its sending ports get.
    pub send: Vec<Ends<S>>,
}

/// A node that was made ready, and its units between these ends, whose lanes are for these jobs.
pub fn open_ports<L, J, N>(
    alloc: Global,
    board: &mut L::Board,
    mut node: N,
    ports: NodePorts<L::Receiver, L::Sender>,
    from: &Vec<J>,
    to: &Vec<J>,
) -> Result<(NodeTasks<L, J, N>, Vec<N::Unit>), Fault>
where
    L: Tokens + Lanes<Load<<L as Tokens>::Token, J>>,
    J: LoadJob<<L as Tokens>::Token>,
    N: ComputeNode<L, J> + Drop,
    requires ready { IsSome (N.seen node).pipelines }
    requires none_out { (N.seen node).units ≡ 0 }
    requires recv { AreEndsOfKinds (N.seen node).recv_kinds (N.seen node).pipelines ports.recv.items }
    requires send { AreEndsOfKinds (N.seen node).send_kinds (N.seen node).pipelines ports.send.items }
    requires fits { N.fits node from.now.items to.now.items }
    requires from { AreEndsFor (λ job end. IsNewReceiver L.Receiver.home L.Receiver.job L.Receiver.taken L.Receiver.is_whole L.Receiver.is_cut (L.Board.id board.old).lane_table job end) ports.recv.items from.now.items }
    requires to { AreEndsFor (λ job end. (room : ℕ) × IsNewSender L.Sender.home L.Sender.job L.Sender.room L.Sender.sent (L.Board.id board.old).lane_table job room end) ports.send.items to.now.items }
    requires tokens { All (λ job. HoldsTokensOf J.holds L.token_home job (L.Board.id board.old).group_table) from.now.items }
    ensures can_poll { IfOk result (λ opened. All (N.Unit.can_poll (L.Board.id board.old)) opened.1.items) }
    ensures between { IfOk result (λ opened. AreUnitsBetween N.unit_seen (unit_between L.Receiver.lane L.Sender.lane (L.Board.id board.old).lane_table ports.recv.items ports.send.items) ports.recv.items ports.send.items opened.1.items) }
    ensures out { IfOk result (λ opened. HasOut (N.seen opened.0.node).units (N.is_unit opened.0.node) N.unit_fails (N.fails opened.0.begun.value opened.0.jobs.value.items) opened.1.items) }
    ensures begun { IfOk result (λ opened. (opened.0.begun.value ≡ node) × (opened.0.jobs.value.items ≡ from.now.items)) }
    ensures stays { IfOk result (λ opened. (begun : N) → N.stays begun node → N.stays begun opened.0.node) }
    ensures out_of_memory { IsOkUnless result OutOfMemory }
    ensures same_board { L.Board.id board.new ≡ L.Board.id board.old }
{
    let begun = Snapshot::of(&node);
    let jobs = Snapshot::of(from);
    let NodePorts { mut recv, mut send } = ports;
    let units = node.take_tasks(alloc, board, &mut recv, &mut send)?;
    let stage = NodeTasks {
        node,
        begun,
        jobs,
        lanes: PhantomData,
    };
    Ok((stage, units))
}
