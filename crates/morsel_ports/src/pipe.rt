//! A pipe: the lanes between the sending ends of one node and the receiving ends of the next.
//!
//! The next node gets its ends first. The number of pipelines is that of the ends at a parallel port.
//!
//! ```text
//! receiving ends   sending ends   the pipe then has
//! serial           serial         nothing: both nodes have the ends of one lane
//! parallel         parallel       nothing: both nodes have the ends of the same lanes
//! serial           parallel       the other ends, which a linearizer is to merge
//! parallel         serial         the other ends, over which a distributor is to spread
//! ```
ghost use Rattle.std.specs.Prelude.{◌≡◌, ◌≤◌, true};
ghost use Rattle.morsel_ports.specs.Pipes.{is_half, is_uninit, stage_of};

use crate::ports::{RecvPort, SendPort};
use morsel_load::{Load, LoadJob};
use morsel_prims::{Lanes, Tokens};

/// For how many loads the lane of a node's end has room.
pub const LANE_ROOM: u32 = 1;

/// How far the two nodes of a pipe are, and the ends that they did not get.
#[derive(Drop)]
pub enum PhysicalPipe<
    L: Tokens + Lanes<Load<<L as Tokens>::Token, J>>,
    J: LoadJob<<L as Tokens>::Token>,
> {
    /// Neither node has its ends. The number is that of the pipelines.
    Uninit(u32),
    /// The next node has one receiving end; this is the other end of its lane.
    SerialReceiver(u32, L::Sender),
    /// The next node has a receiving end for each pipeline; these are the other ends of the lanes.
    ParallelReceiver(Vec<L::Sender>),
    /// Several lanes are to be merged into one.
    NeedsLinearizer(Vec<L::Receiver>, L::Sender),
    /// One lane is to be spread over several.
    NeedsDistributor(L::Receiver, Vec<L::Sender>),
    /// Both nodes have the ends of the same lanes.
    Initialized,
}

impl<
    L: Tokens + Lanes<Load<<L as Tokens>::Token, J>>,
    J: LoadJob<<L as Tokens>::Token>,
> PhysicalPipe<L, J> {
    /// A pipe for so many pipelines.
    pub fn new(pipelines: u32) -> PhysicalPipe<L, J>
        requires pipelines { (1 ≤ pipelines) × (pipelines ≤ 32768) }
        ensures { result ≡ PhysicalPipe.Uninit pipelines }
    {
        PhysicalPipe::Uninit(pipelines)
    }

    /// Whether neither node has its ends.
    pub fn is_uninit(&self) -> bool
        ensures { result ≡ is_uninit (stage_of self.now) }
    {
        matches!(self, PhysicalPipe::Uninit(_))
    }

    /// Whether the next node alone has its ends.
    pub fn is_half(&self) -> bool
        ensures { result ≡ is_half (stage_of self.now) }
    {
        matches!(
            self,
            PhysicalPipe::SerialReceiver(..) | PhysicalPipe::ParallelReceiver(_)
        )
    }

    /// Where the next node gets its receiving ends.
    pub fn recv_port(&mut self) -> RecvPort<'_, L, J>
        requires uninit { is_uninit (stage_of self.old) ≡ true }
        ensures same_reference { result.pipe.ghost_name ≡ self.entry.ghost_name }
        ensures lent { result.pipe.now ≡ self.old }
    {
        RecvPort { pipe: self }
    }

    /// Where the node before it gets its sending ends.
    pub fn send_port(&mut self) -> SendPort<'_, L, J>
        requires half { is_half (stage_of self.old) ≡ true }
        ensures same_reference { result.pipe.ghost_name ≡ self.entry.ghost_name }
        ensures lent { result.pipe.now ≡ self.old }
    {
        SendPort { pipe: self }
    }
}
