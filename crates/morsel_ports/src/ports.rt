//! The two sides of a pipe, where its nodes get their ends.
ghost use Rattle.std.specs.Prelude.{◌≡◌, true, All, [], ◌∷◌, map, vec_len, IfOk, OnOk, OnErr, IsOkAnd, IsOkUnless};
ghost use Rattle.morsel_meaning.specs.declared.fault.Fault.TheVariants.{OutOfMemory};
ghost use Rattle.morsel_prims.specs.Waiting.{SameWaiting};
ghost use Rattle.morsel_merge.specs.Ends.{IsNewReceiver, IsNewSender};
ghost use Rattle.morsel_ports.specs.Pipes.{Direct, HalfParallel, HalfSerial, ToMerge, ToSpread, is_half, is_receiver_serial, is_uninit, pipe_receivers, pipe_senders, pipelines_of, stage_of};

use crate::pipe::{LANE_ROOM, PhysicalPipe};
use morsel_load::{Load, LoadJob};
use morsel_meaning::Fault;
use morsel_merge::make_lanes;
use morsel_prims::{Lanes, Tokens};
use std::alloc::Global;

/// The side of a pipe on which loads are received.
#[derive(Drop)]
pub struct RecvPort<
    'a,
    L: Tokens + Lanes<Load<<L as Tokens>::Token, J>>,
    J: LoadJob<<L as Tokens>::Token>,
> {
    pub(crate) pipe: &'a mut PhysicalPipe<L, J>,
}

/// The side of a pipe on which loads are sent.
#[derive(Drop)]
pub struct SendPort<
    'a,
    L: Tokens + Lanes<Load<<L as Tokens>::Token, J>>,
    J: LoadJob<<L as Tokens>::Token>,
> {
    pub(crate) pipe: &'a mut PhysicalPipe<L, J>,
}

impl<
    'a,
    L: Tokens + Lanes<Load<<L as Tokens>::Token, J>>,
    J: LoadJob<<L as Tokens>::Token>,
> RecvPort<'a, L, J> {
    /// One receiving end, of a new lane for this job. The pipe keeps the other end.
    pub fn serial(self, alloc: Global, board: &mut L::Board, job: &J) -> Result<L::Receiver, Fault>
        requires uninit { is_uninit (stage_of self.pipe.now) ≡ true }
        ensures stage { OnOk result (stage_of self.exit.0.now ≡ HalfSerial) }
        ensures pipelines { OnOk result (pipelines_of self.exit.0.now ≡ pipelines_of self.entry.pipe.now) }
        ensures end { IfOk result (IsNewReceiver L.Receiver.home L.Receiver.job L.Receiver.taken L.Receiver.is_whole L.Receiver.is_cut (L.Board.id board.old).lane_table job.now) }
        ensures other { OnOk result (All (IsNewSender L.Sender.home L.Sender.job L.Sender.room L.Sender.sent (L.Board.id board.old).lane_table job.now (L.room_of LANE_ROOM)) (pipe_senders self.exit.0.now)) }
        ensures lane { IfOk result (λ end. map L.Sender.lane (pipe_senders self.exit.0.now) ≡ L.Receiver.lane end ∷ []) }
        ensures err { OnErr result (self.exit.0.now ≡ self.entry.pipe.now) }
        ensures out_of_memory { IsOkUnless result OutOfMemory }
        ensures same_waiting { SameWaiting (L.Board.waits_at board.old) (L.Board.waits_at board.new) }
        ensures same_board { L.Board.id board.new ≡ L.Board.id board.old }
    {
        let RecvPort { pipe } = self;
        let PhysicalPipe::Uninit(pipelines) = pipe else {
            unreachable!()
        };
        let pipelines = *pipelines;
        let (sender, receiver) = L::lane(alloc, board, LANE_ROOM, job)?;
        *pipe = PhysicalPipe::SerialReceiver(pipelines, sender);
        Ok(receiver)
    }

    /// A receiving end for each pipeline, of new lanes for this job. The pipe keeps the other ends.
    pub fn parallel(
        self,
        alloc: Global,
        board: &mut L::Board,
        job: &J,
    ) -> Result<Vec<L::Receiver>, Fault>
        requires uninit { is_uninit (stage_of self.pipe.now) ≡ true }
        ensures stage { OnOk result (stage_of self.exit.0.now ≡ HalfParallel) }
        ensures pipelines { OnOk result (pipelines_of self.exit.0.now ≡ pipelines_of self.entry.pipe.now) }
        ensures len { IfOk result (λ ends. vec_len ends ≡ pipelines_of self.entry.pipe.now) }
        ensures ends { IfOk result (λ ends. All (IsNewReceiver L.Receiver.home L.Receiver.job L.Receiver.taken L.Receiver.is_whole L.Receiver.is_cut (L.Board.id board.old).lane_table job.now) ends.items) }
        ensures others { OnOk result (All (IsNewSender L.Sender.home L.Sender.job L.Sender.room L.Sender.sent (L.Board.id board.old).lane_table job.now (L.room_of LANE_ROOM)) (pipe_senders self.exit.0.now)) }
        ensures lanes { IfOk result (λ ends. map L.Sender.lane (pipe_senders self.exit.0.now) ≡ map L.Receiver.lane ends.items) }
        ensures err { OnErr result (self.exit.0.now ≡ self.entry.pipe.now) }
        ensures out_of_memory { IsOkUnless result OutOfMemory }
        ensures same_waiting { SameWaiting (L.Board.waits_at board.old) (L.Board.waits_at board.new) }
        ensures same_board { L.Board.id board.new ≡ L.Board.id board.old }
    {
        let RecvPort { pipe } = self;
        let PhysicalPipe::Uninit(pipelines) = pipe else {
            unreachable!()
        };
        let pipelines = *pipelines;
        let (senders, receivers) = make_lanes::<Load<L::Token, J>, L>(
            alloc, board, pipelines, LANE_ROOM, job,
        )?;
        *pipe = PhysicalPipe::ParallelReceiver(senders);
        Ok(receivers)
    }
}

impl<
    'a,
    L: Tokens + Lanes<Load<<L as Tokens>::Token, J>>,
    J: LoadJob<<L as Tokens>::Token>,
> SendPort<'a, L, J> {
    /// Whether the next node has one receiving end.
    pub fn is_receiver_serial(&self) -> bool
        ensures { result ≡ is_receiver_serial (stage_of self.now.pipe.now) }
    {
        matches!(self.pipe, PhysicalPipe::SerialReceiver(..))
    }

    /// One sending end: of the next node's lane where that has one receiving end, and else of a new lane for this job,
    /// whose other end the pipe keeps.
    pub fn serial(self, alloc: Global, board: &mut L::Board, job: &J) -> Result<L::Sender, Fault>
        requires half { is_half (stage_of self.pipe.now) ≡ true }
        // Where both ends are serial, it is never refused.
        ensures same_lane { stage_of self.entry.pipe.now ≡ HalfSerial → IsOkAnd result (λ end. pipe_senders self.entry.pipe.now ≡ end ∷ []) }
        ensures direct { stage_of self.entry.pipe.now ≡ HalfSerial → stage_of self.exit.0.now ≡ Direct }
        ensures stage { stage_of self.entry.pipe.now ≡ HalfParallel → OnOk result (stage_of self.exit.0.now ≡ ToSpread) }
        ensures pipelines { stage_of self.entry.pipe.now ≡ HalfParallel → OnOk result (pipelines_of self.exit.0.now ≡ pipelines_of self.entry.pipe.now) }
        ensures same_others { stage_of self.entry.pipe.now ≡ HalfParallel → OnOk result (pipe_senders self.exit.0.now ≡ pipe_senders self.entry.pipe.now) }
        ensures end { stage_of self.entry.pipe.now ≡ HalfParallel → IfOk result (IsNewSender L.Sender.home L.Sender.job L.Sender.room L.Sender.sent (L.Board.id board.old).lane_table job.now (L.room_of LANE_ROOM)) }
        ensures other { stage_of self.entry.pipe.now ≡ HalfParallel → OnOk result (All (IsNewReceiver L.Receiver.home L.Receiver.job L.Receiver.taken L.Receiver.is_whole L.Receiver.is_cut (L.Board.id board.old).lane_table job.now) (pipe_receivers self.exit.0.now)) }
        ensures lane { stage_of self.entry.pipe.now ≡ HalfParallel → IfOk result (λ end. map L.Receiver.lane (pipe_receivers self.exit.0.now) ≡ L.Sender.lane end ∷ []) }
        ensures err { OnErr result (self.exit.0.now ≡ self.entry.pipe.now) }
        ensures out_of_memory { IsOkUnless result OutOfMemory }
        ensures same_waiting { SameWaiting (L.Board.waits_at board.old) (L.Board.waits_at board.new) }
        ensures same_board { L.Board.id board.new ≡ L.Board.id board.old }
    {
        let SendPort { pipe } = self;
        match std::mem::replace(pipe, PhysicalPipe::Initialized) {
            PhysicalPipe::SerialReceiver(_, sender) => Ok(sender),
            PhysicalPipe::ParallelReceiver(senders) => {
                match L::lane(alloc, board, LANE_ROOM, job) {
                    Ok((sender, receiver)) => {
                        *pipe = PhysicalPipe::NeedsDistributor(receiver, senders);
                        Ok(sender)
                    }
                    Err(fault) => {
                        *pipe = PhysicalPipe::ParallelReceiver(senders);
                        Err(fault)
                    }
                }
            }
            _ => unreachable!(),
        }
    }

    /// A sending end for each pipeline: of the next node's lanes where that has as many receiving ends, and else of new
    /// lanes for this job, whose other ends the pipe keeps.
    pub fn parallel(
        self,
        alloc: Global,
        board: &mut L::Board,
        job: &J,
    ) -> Result<Vec<L::Sender>, Fault>
        requires half { is_half (stage_of self.pipe.now) ≡ true }
        // Where both ends are parallel, it is never refused.
        ensures same_lanes { stage_of self.entry.pipe.now ≡ HalfParallel → IsOkAnd result (λ ends. pipe_senders self.entry.pipe.now ≡ ends.items) }
        ensures direct { stage_of self.entry.pipe.now ≡ HalfParallel → stage_of self.exit.0.now ≡ Direct }
        ensures stage { stage_of self.entry.pipe.now ≡ HalfSerial → OnOk result (stage_of self.exit.0.now ≡ ToMerge) }
        ensures pipelines { stage_of self.entry.pipe.now ≡ HalfSerial → OnOk result (pipelines_of self.exit.0.now ≡ pipelines_of self.entry.pipe.now) }
        ensures same_other { stage_of self.entry.pipe.now ≡ HalfSerial → OnOk result (pipe_senders self.exit.0.now ≡ pipe_senders self.entry.pipe.now) }
        ensures len { IfOk result (λ ends. vec_len ends ≡ pipelines_of self.entry.pipe.now) }
        ensures ends { stage_of self.entry.pipe.now ≡ HalfSerial → IfOk result (λ ends. All (IsNewSender L.Sender.home L.Sender.job L.Sender.room L.Sender.sent (L.Board.id board.old).lane_table job.now (L.room_of LANE_ROOM)) ends.items) }
        ensures others { stage_of self.entry.pipe.now ≡ HalfSerial → OnOk result (All (IsNewReceiver L.Receiver.home L.Receiver.job L.Receiver.taken L.Receiver.is_whole L.Receiver.is_cut (L.Board.id board.old).lane_table job.now) (pipe_receivers self.exit.0.now)) }
        ensures lanes { stage_of self.entry.pipe.now ≡ HalfSerial → IfOk result (λ ends. map L.Receiver.lane (pipe_receivers self.exit.0.now) ≡ map L.Sender.lane ends.items) }
        ensures err { OnErr result (self.exit.0.now ≡ self.entry.pipe.now) }
        ensures out_of_memory { IsOkUnless result OutOfMemory }
        ensures same_waiting { SameWaiting (L.Board.waits_at board.old) (L.Board.waits_at board.new) }
        ensures same_board { L.Board.id board.new ≡ L.Board.id board.old }
    {
        let SendPort { pipe } = self;
        match std::mem::replace(pipe, PhysicalPipe::Initialized) {
            PhysicalPipe::ParallelReceiver(senders) => Ok(senders),
            PhysicalPipe::SerialReceiver(pipelines, sender) => {
                match make_lanes::<Load<L::Token, J>, L>(alloc, board, pipelines, LANE_ROOM, job) {
                    Ok((senders, receivers)) => {
                        *pipe = PhysicalPipe::NeedsLinearizer(receivers, sender);
                        Ok(senders)
                    }
                    Err(fault) => {
                        *pipe = PhysicalPipe::SerialReceiver(pipelines, sender);
                        Err(fault)
                    }
                }
            }
            _ => unreachable!(),
        }
    }
}
