//! The ends of a line of two nodes, between the caller's two.
ghost use Rattle.std.specs.Prelude.{◌≡◌, ◌≤◌, All, [], ◌∷◌, IfOk, IsOkUnless, length, map};
ghost use Rattle.morsel_meaning.specs.declared.fault.Fault.TheVariants.{OutOfMemory};
ghost use Rattle.morsel_merge.specs.Ends.{IsNewReceiver, IsNewSender};
ghost use Rattle.morsel_ports.specs.Pipes.{ToMerge, ToSpread, pipe_receivers, pipe_senders, pipelines_of, stage_of};

use morsel_load::{Load, LoadJob};
use morsel_meaning::Fault;
use morsel_ports::{LANE_ROOM, PhysicalPipe};
use morsel_prims::{Lanes, Tokens};
use std::alloc::Global;

/// The pipe before the first node, with the ends that the caller and the node got of it: a lane that is to be spread over several.
#[derive(Drop)]
pub struct FedEnds<
    L: Tokens + Lanes<Load<<L as Tokens>::Token, J>>,
    J: LoadJob<<L as Tokens>::Token>,
> {
    /// Through which the caller feeds.
    pub feed: L::Sender,
    /// From which the first node takes.
    pub from: Vec<L::Receiver>,
    /// The pipe, which has the others.
    pub pipe: PhysicalPipe<L, J>,
}

/// The ends of a pipe from the caller to a node.
pub fn fed_ends<L: Tokens + Lanes<Load<<L as Tokens>::Token, J>>, J: LoadJob<<L as Tokens>::Token>>(
    alloc: Global,
    board: &mut L::Board,
    pipelines: u32,
    job: &J,
) -> Result<FedEnds<L, J>, Fault>
    requires pipelines { (1 ≤ pipelines) × (pipelines ≤ 32768) }
    ensures feed { IfOk result (λ ends. IsNewSender L.Sender.home L.Sender.job L.Sender.room L.Sender.sent (L.Board.id board.old).lane_table job.now (L.room_of LANE_ROOM) ends.feed) }
    ensures from { IfOk result (λ ends. All (IsNewReceiver L.Receiver.home L.Receiver.job L.Receiver.taken L.Receiver.is_whole L.Receiver.is_cut (L.Board.id board.old).lane_table job.now) ends.from.items) }
    ensures len { IfOk result (λ ends. length ends.from.items ≡ pipelines) }
    ensures feed_lane { IfOk result (λ ends. map L.Receiver.lane (pipe_receivers ends.pipe) ≡ L.Sender.lane ends.feed ∷ []) }
    ensures from_lanes { IfOk result (λ ends. map L.Sender.lane (pipe_senders ends.pipe) ≡ map L.Receiver.lane ends.from.items) }
    ensures stage { IfOk result (λ ends. stage_of ends.pipe ≡ ToSpread) }
    ensures pipelines { IfOk result (λ ends. pipelines_of ends.pipe ≡ pipelines) }
    ensures senders { IfOk result (λ ends. All (IsNewSender L.Sender.home L.Sender.job L.Sender.room L.Sender.sent (L.Board.id board.old).lane_table job.now (L.room_of LANE_ROOM)) (pipe_senders ends.pipe)) }
    ensures receivers { IfOk result (λ ends. All (IsNewReceiver L.Receiver.home L.Receiver.job L.Receiver.taken L.Receiver.is_whole L.Receiver.is_cut (L.Board.id board.old).lane_table job.now) (pipe_receivers ends.pipe)) }
    ensures out_of_memory { IsOkUnless result OutOfMemory }
    ensures same_board { L.Board.id board.new ≡ L.Board.id board.old }
{
    let mut pipe = PhysicalPipe::<L, J>::new(pipelines);
    let from = pipe.recv_port().parallel(alloc, board, job)?;
    let feed = pipe.send_port().serial(alloc, board, job)?;
    Ok(FedEnds { feed, from, pipe })
}

/// The pipe behind the last node, with the ends that the node and the caller got of it: lanes that are to be merged into one.
#[derive(Drop)]
pub struct GivenEnds<
    L: Tokens + Lanes<Load<<L as Tokens>::Token, J>>,
    J: LoadJob<<L as Tokens>::Token>,
> {
    /// Through which the last node gives.
    pub to: Vec<L::Sender>,
    /// From which the caller takes.
    pub take: L::Receiver,
    /// The pipe, which has the others.
    pub pipe: PhysicalPipe<L, J>,
}

/// The ends of a pipe from a node to the caller.
pub fn given_ends<
    L: Tokens + Lanes<Load<<L as Tokens>::Token, J>>,
    J: LoadJob<<L as Tokens>::Token>,
>(alloc: Global, board: &mut L::Board, pipelines: u32, job: &J) -> Result<GivenEnds<L, J>, Fault>
    requires pipelines { (1 ≤ pipelines) × (pipelines ≤ 32768) }
    ensures take { IfOk result (λ ends. IsNewReceiver L.Receiver.home L.Receiver.job L.Receiver.taken L.Receiver.is_whole L.Receiver.is_cut (L.Board.id board.old).lane_table job.now ends.take) }
    ensures to { IfOk result (λ ends. All (IsNewSender L.Sender.home L.Sender.job L.Sender.room L.Sender.sent (L.Board.id board.old).lane_table job.now (L.room_of LANE_ROOM)) ends.to.items) }
    ensures len { IfOk result (λ ends. length ends.to.items ≡ pipelines) }
    ensures take_lane { IfOk result (λ ends. map L.Sender.lane (pipe_senders ends.pipe) ≡ L.Receiver.lane ends.take ∷ []) }
    ensures to_lanes { IfOk result (λ ends. map L.Receiver.lane (pipe_receivers ends.pipe) ≡ map L.Sender.lane ends.to.items) }
    ensures stage { IfOk result (λ ends. stage_of ends.pipe ≡ ToMerge) }
    ensures pipelines { IfOk result (λ ends. pipelines_of ends.pipe ≡ pipelines) }
    ensures senders { IfOk result (λ ends. All (IsNewSender L.Sender.home L.Sender.job L.Sender.room L.Sender.sent (L.Board.id board.old).lane_table job.now (L.room_of LANE_ROOM)) (pipe_senders ends.pipe)) }
    ensures receivers { IfOk result (λ ends. All (IsNewReceiver L.Receiver.home L.Receiver.job L.Receiver.taken L.Receiver.is_whole L.Receiver.is_cut (L.Board.id board.old).lane_table job.now) (pipe_receivers ends.pipe)) }
    ensures out_of_memory { IsOkUnless result OutOfMemory }
    ensures same_board { L.Board.id board.new ≡ L.Board.id board.old }
{
    let mut pipe = PhysicalPipe::<L, J>::new(pipelines);
    let take = pipe.recv_port().serial(alloc, board, job)?;
    let to = pipe.send_port().parallel(alloc, board, job)?;
    Ok(GivenEnds { to, take, pipe })
}

/// The ends of the lanes between two nodes, which both of them get.
#[derive(Drop)]
pub struct MiddleEnds<S, R> {
    /// Through which the first node gives.
    pub to: Vec<S>,
    /// From which the last one takes.
    pub from: Vec<R>,
}

/// The ends of a pipe between two nodes.
pub fn middle_ends<
    L: Tokens + Lanes<Load<<L as Tokens>::Token, J>>,
    J: LoadJob<<L as Tokens>::Token>,
>(
    alloc: Global,
    board: &mut L::Board,
    pipelines: u32,
    job: &J,
) -> Result<MiddleEnds<L::Sender, L::Receiver>, Fault>
    requires pipelines { (1 ≤ pipelines) × (pipelines ≤ 32768) }
    ensures to { IfOk result (λ ends. All (IsNewSender L.Sender.home L.Sender.job L.Sender.room L.Sender.sent (L.Board.id board.old).lane_table job.now (L.room_of LANE_ROOM)) ends.to.items) }
    ensures from { IfOk result (λ ends. All (IsNewReceiver L.Receiver.home L.Receiver.job L.Receiver.taken L.Receiver.is_whole L.Receiver.is_cut (L.Board.id board.old).lane_table job.now) ends.from.items) }
    ensures same_lanes { IfOk result (λ ends. map L.Sender.lane ends.to.items ≡ map L.Receiver.lane ends.from.items) }
    ensures to_len { IfOk result (λ ends. length ends.to.items ≡ pipelines) }
    ensures from_len { IfOk result (λ ends. length ends.from.items ≡ pipelines) }
    ensures out_of_memory { IsOkUnless result OutOfMemory }
    ensures same_board { L.Board.id board.new ≡ L.Board.id board.old }
{
    let mut pipe = PhysicalPipe::<L, J>::new(pipelines);
    let from = pipe.recv_port().parallel(alloc, board, job)?;
    let to = pipe.send_port().parallel(alloc, board, job)?;
    Ok(MiddleEnds { to, from })
}
