//! The ends of the pipes of a line.
ghost use Rattle.std.specs.Prelude.{◌≡◌, ◌≤◌, All, [], ◌∷◌, IfOk, IsOkUnless, length, map};
ghost use Rattle.morsel_meaning.specs.declared.fault.Fault.TheVariants.{OutOfMemory};
ghost use Rattle.morsel_merge.specs.Ends.{IsNewReceiver, IsNewSender};
ghost use Rattle.morsel_ports.specs.Pipes.{ToMerge, ToSpread, pipe_receivers, pipe_senders, pipelines_of, stage_of};

use morsel_load::{Load, LoadJob};
use morsel_meaning::Fault;
use morsel_ports::{LANE_ROOM, PhysicalPipe};
use morsel_prims::{Lanes, Tokens};
use std::alloc::Global;

/// A pipe whose loads are spread: from one sending end to a receiving end for each pipeline.
#[derive(Drop)]
pub struct SpreadEnds<
    L: Tokens + Lanes<Load<<L as Tokens>::Token, J>>,
    J: LoadJob<<L as Tokens>::Token>,
> {
    /// Through which loads go in.
    pub to: L::Sender,
    /// From which they are taken.
    pub from: Vec<L::Receiver>,
    /// The pipe, which has the other ends.
    pub pipe: PhysicalPipe<L, J>,
}

/// The ends of a pipe whose loads are spread.
pub fn spread_ends<
    L: Tokens + Lanes<Load<<L as Tokens>::Token, J>>,
    J: LoadJob<<L as Tokens>::Token>,
>(alloc: Global, board: &mut L::Board, pipelines: u32, job: &J) -> Result<SpreadEnds<L, J>, Fault>
    requires pipelines { (1 ≤ pipelines) × (pipelines ≤ 32768) }
    ensures to { IfOk result (λ ends. IsNewSender L.Sender.home L.Sender.job L.Sender.room L.Sender.sent (L.Board.id board.old).lane_table job.now (L.room_of LANE_ROOM) ends.to) }
    ensures from { IfOk result (λ ends. All (IsNewReceiver L.Receiver.home L.Receiver.job L.Receiver.taken L.Receiver.is_whole L.Receiver.is_cut (L.Board.id board.old).lane_table job.now) ends.from.items) }
    ensures len { IfOk result (λ ends. length ends.from.items ≡ pipelines) }
    ensures to_lane { IfOk result (λ ends. map L.Receiver.lane (pipe_receivers ends.pipe) ≡ L.Sender.lane ends.to ∷ []) }
    ensures from_lanes { IfOk result (λ ends. map L.Sender.lane (pipe_senders ends.pipe) ≡ map L.Receiver.lane ends.from.items) }
    ensures stage { IfOk result (λ ends. stage_of ends.pipe ≡ ToSpread) }
    ensures pipelines { IfOk result (λ ends. pipelines_of ends.pipe ≡ pipelines) }
    ensures senders { IfOk result (λ ends. All (IsNewSender L.Sender.home L.Sender.job L.Sender.room L.Sender.sent (L.Board.id board.old).lane_table job.now (L.room_of LANE_ROOM)) (pipe_senders ends.pipe)) }
    ensures receivers { IfOk result (λ ends. All (IsNewReceiver L.Receiver.home L.Receiver.job L.Receiver.taken L.Receiver.is_whole L.Receiver.is_cut (L.Board.id board.old).lane_table job.now) (pipe_receivers ends.pipe)) }
    ensures out_of_memory { IsOkUnless result OutOfMemory }
    ensures same_board { L.Board.id board.new ≡ L.Board.id board.old }
{
    let mut pipe = PhysicalPipe::<L, J>::new(pipelines);
    let from = pipe.recv_port().parallel(alloc, board, job)?;
    let to = pipe.send_port().serial(alloc, board, job)?;
    Ok(SpreadEnds { to, from, pipe })
}

/// A pipe whose loads are merged: from a sending end for each pipeline to one receiving end.
#[derive(Drop)]
pub struct MergedEnds<
    L: Tokens + Lanes<Load<<L as Tokens>::Token, J>>,
    J: LoadJob<<L as Tokens>::Token>,
> {
    /// Through which loads go in.
    pub to: Vec<L::Sender>,
    /// From which they are taken.
    pub from: L::Receiver,
    /// The pipe, which has the other ends.
    pub pipe: PhysicalPipe<L, J>,
}

/// The ends of a pipe whose loads are merged.
pub fn merged_ends<
    L: Tokens + Lanes<Load<<L as Tokens>::Token, J>>,
    J: LoadJob<<L as Tokens>::Token>,
>(alloc: Global, board: &mut L::Board, pipelines: u32, job: &J) -> Result<MergedEnds<L, J>, Fault>
    requires pipelines { (1 ≤ pipelines) × (pipelines ≤ 32768) }
    ensures from { IfOk result (λ ends. IsNewReceiver L.Receiver.home L.Receiver.job L.Receiver.taken L.Receiver.is_whole L.Receiver.is_cut (L.Board.id board.old).lane_table job.now ends.from) }
    ensures to { IfOk result (λ ends. All (IsNewSender L.Sender.home L.Sender.job L.Sender.room L.Sender.sent (L.Board.id board.old).lane_table job.now (L.room_of LANE_ROOM)) ends.to.items) }
    ensures len { IfOk result (λ ends. length ends.to.items ≡ pipelines) }
    ensures from_lane { IfOk result (λ ends. map L.Sender.lane (pipe_senders ends.pipe) ≡ L.Receiver.lane ends.from ∷ []) }
    ensures to_lanes { IfOk result (λ ends. map L.Receiver.lane (pipe_receivers ends.pipe) ≡ map L.Sender.lane ends.to.items) }
    ensures stage { IfOk result (λ ends. stage_of ends.pipe ≡ ToMerge) }
    ensures pipelines { IfOk result (λ ends. pipelines_of ends.pipe ≡ pipelines) }
    ensures senders { IfOk result (λ ends. All (IsNewSender L.Sender.home L.Sender.job L.Sender.room L.Sender.sent (L.Board.id board.old).lane_table job.now (L.room_of LANE_ROOM)) (pipe_senders ends.pipe)) }
    ensures receivers { IfOk result (λ ends. All (IsNewReceiver L.Receiver.home L.Receiver.job L.Receiver.taken L.Receiver.is_whole L.Receiver.is_cut (L.Board.id board.old).lane_table job.now) (pipe_receivers ends.pipe)) }
    ensures out_of_memory { IsOkUnless result OutOfMemory }
    ensures same_board { L.Board.id board.new ≡ L.Board.id board.old }
{
    let mut pipe = PhysicalPipe::<L, J>::new(pipelines);
    let from = pipe.recv_port().serial(alloc, board, job)?;
    let to = pipe.send_port().parallel(alloc, board, job)?;
    Ok(MergedEnds { to, from, pipe })
}

/// The ends of lanes between two nodes, one for each pipeline, between which nothing stands.
#[derive(Drop)]
pub struct SharedEnds<S, R> {
    /// Through which loads go in.
    pub to: Vec<S>,
    /// From which they are taken.
    pub from: Vec<R>,
}

/// The ends of a pipe between two nodes, both of which are parallel there.
pub fn shared_ends<
    L: Tokens + Lanes<Load<<L as Tokens>::Token, J>>,
    J: LoadJob<<L as Tokens>::Token>,
>(
    alloc: Global,
    board: &mut L::Board,
    pipelines: u32,
    job: &J,
) -> Result<SharedEnds<L::Sender, L::Receiver>, Fault>
    requires pipelines { (1 ≤ pipelines) × (pipelines ≤ 32768) }
    ensures to { IfOk result (λ ends. All (IsNewSender L.Sender.home L.Sender.job L.Sender.room L.Sender.sent (L.Board.id board.old).lane_table job.now (L.room_of LANE_ROOM)) ends.to.items) }
    ensures from { IfOk result (λ ends. All (IsNewReceiver L.Receiver.home L.Receiver.job L.Receiver.taken L.Receiver.is_whole L.Receiver.is_cut (L.Board.id board.old).lane_table job.now) ends.from.items) }
    ensures same_lanes { IfOk result (λ ends. map L.Sender.lane ends.to.items ≡ map L.Receiver.lane ends.from.items) }
    ensures to_len { IfOk result (λ ends. length ends.to.items ≡ pipelines) }
    ensures from_len { IfOk result (λ ends. length ends.from.items ≡ pipelines) }
    ensures out_of_memory { IsOkUnless result OutOfMemory }
    ensures same_board { L.Board.id board.new ≡ L.Board.id board.old }
{
    let mut pipe = PhysicalPipe::<L, J>::new(pipelines);
    let from = pipe.recv_port().parallel(alloc, board, job)?;
    let to = pipe.send_port().parallel(alloc, board, job)?;
    Ok(SharedEnds { to, from })
}
