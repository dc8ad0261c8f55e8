//! Nodes of any kind, as a query has them.
ghost use Rattle.std.specs.Prelude.{◌≡◌, [], ◌∷◌, All, IsSome, IfOk, OnOk, length};
ghost use Rattle.morsel_meaning.specs.declared.fault.Fault.{Fault};
ghost use Rattle.morsel_merge.specs.Ends.{IsNewReceiver, IsNewSender};
ghost use Rattle.morsel_lane_pipe.specs.Tasks.{HoldsTokensOf};
ghost use Rattle.morsel_ports.specs.declared.node.PortKind.TheVariants.{Serial};
ghost use Rattle.morsel_ports.specs.Nodes.{EndedBy};

use morsel_lane_pipe::ReceiptsOf;
use morsel_load::{Load, LoadJob};
use morsel_meaning::Fault;
use morsel_ports::{ComputeNode, Ends, LANE_ROOM};
use morsel_prims::{Lanes, Task, Tokens};
use std::alloc::Global;

/// The unit of a node between one receiving and one sending end, for one job.
pub fn take_unit<
    L: Tokens + Lanes<Load<<L as Tokens>::Token, J>>,
    J: LoadJob<<L as Tokens>::Token>,
    N: ComputeNode<L, J>,
>(
    alloc: Global,
    board: &mut L::Board,
    node: &mut N,
    job: &J,
    from: L::Receiver,
    to: L::Sender,
) -> Result<Vec<N::Unit>, Fault>
    requires initialized { IsSome (N.seen node.old).pipelines }
    requires units { (N.seen node.old).units ≡ 0 }
    requires recv { (N.seen node.old).recv_kinds ≡ Serial ∷ [] }
    requires send { (N.seen node.old).send_kinds ≡ Serial ∷ [] }
    requires fits { N.fits node.old (job.now ∷ []) (job.now ∷ []) }
    requires from { IsNewReceiver L.Receiver.home L.Receiver.job L.Receiver.taken L.Receiver.is_whole L.Receiver.is_cut (L.Board.id board.old).lane_table job.now from }
    requires to { IsNewSender L.Sender.home L.Sender.job L.Sender.room L.Sender.sent (L.Board.id board.old).lane_table job.now (L.room_of LANE_ROOM) to }
    requires tokens { HoldsTokensOf J.holds L.token_home job.now (L.Board.id board.old).group_table }
    ensures unit { IfOk result (λ units. (unit : N.Unit) × (units.items ≡ unit ∷ []) × (N.unit_seen unit ≡ record { home = (L.Board.id board.old).lane_table; from = L.Receiver.lane from ∷ []; to = L.Sender.lane to ∷ [] }) × N.is_unit node.new unit × N.Unit.can_poll (L.Board.id board.new) unit) }
    ensures out { OnOk result ((N.seen node.new).units ≡ 1) }
{
    let mut recv = Vec::new(alloc);
    recv.push(Ends::Serial(from))?;
    let mut send = Vec::new(alloc);
    send.push(Ends::Serial(to))?;
    let units = node.take_tasks(alloc, board, &mut recv, &mut send)?;
    Ok(units)
}

/// Gives back what all units of a node ended with, up to the first fault.
pub fn give_all_back<
    L: Tokens + Lanes<Load<<L as Tokens>::Token, J>>,
    J: LoadJob<<L as Tokens>::Token>,
    N: ComputeNode<L, J>,
>(
    alloc: Global,
    node: &mut N,
    outs: Vec<<N::Unit as Task<L::Board>>::Out>,
) -> Result<Vec<ReceiptsOf<L, J>>, Fault>
    requires units { (N.seen node.old).units ≡ length outs.items }
    requires outs { All (λ out. (unit : N.Unit) × N.is_unit node.old unit × N.Unit.gives unit out) outs.items }
    ensures len { IfOk result (λ all. length all.items ≡ length outs.items) }
    ensures none_out { OnOk result ((N.seen node.new).units ≡ 0) }
    // No fault is lost.
    ensures no_fault { OnOk result (All (λ out. (fault : Fault) → N.end_of out ≡ EndedBy fault → ⊥) outs.items) }
{
    let mut all = Vec::new(alloc);
    'outs: for out in outs {
        all.push(node.give_back(alloc, out)?)?;
    }
    Ok(all)
}
