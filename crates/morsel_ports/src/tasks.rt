//! The tasks between the ends of a pipe.
ghost use Rattle.std.specs.Prelude.{◌≡◌, ◌≤◌, ◌+◌, false, true, All, List, [], ◌∷◌, Some, length, map, IfOk, IsOkAnd, IsOkUnless};
ghost use Rattle.morsel_meaning.specs.declared.fault.Fault.TheVariants.{OutOfMemory};
ghost use Rattle.morsel_prims.specs.Polled.{LaneId};
ghost use Rattle.morsel_prims.specs.Waiting.{SameWaiting};
ghost use Rattle.morsel_merge.specs.Ends.{IsNewReceiver, IsNewSender};
ghost use Rattle.morsel_lane_pipe.specs.Tasks.{HoldsTokensOf};
ghost use Rattle.morsel_ports.specs.Pipes.{Direct, ToMerge, ToSpread, is_direct, is_made, pipe_receivers, pipe_senders, pipelines_of, stage_of};
ghost use Rattle.morsel_ports.specs.Between.{merging_tasks, spreading_tasks, task_lanes};

use crate::gathering::{gather_merging, gather_spreading};
use crate::joining::join_each;
use crate::pipe::{LANE_ROOM, PhysicalPipe};
use morsel_lane_pipe::{Distributing, HandingOn, Inserting, LoadOf, Merging, Stepwise};
use morsel_load::{Load, LoadJob};
use morsel_meaning::Fault;
use morsel_merge::{Linearizer, distributor_channel};
use morsel_pipe_task::{PipeTask, PipeWork};
use morsel_prims::{Lanes, Task, Tokens};
use rand_xoshiro::Xoshiro256PlusPlus;
use std::alloc::Global;

impl<
    L: Tokens + Lanes<Load<<L as Tokens>::Token, J>>,
    J: LoadJob<<L as Tokens>::Token>,
> PhysicalPipe<L, J> {
    /// The tasks between the ends of a pipe whose two nodes have theirs; there are none where both are of the same lanes.
    ///
    /// The job is that of the ends. `room` is that of each lane of a distributor, and of a linearizer, and a distributor
    /// draws by `rng`.
    pub fn tasks(
        self,
        alloc: Global,
        board: &mut L::Board,
        room: (u32, u32),
        job: &J,
        rng: Xoshiro256PlusPlus,
    ) -> Result<Vec<PipeTask<L, J>>, Fault>
        requires made { is_made (stage_of self) ≡ true }
        requires pipelines { is_direct (stage_of self) ≡ false → (1 ≤ pipelines_of self) × (pipelines_of self ≤ 32768) }
        requires spread_room { (1 ≤ room.0) × (room.0 ≤ 65536) }
        requires merge_room { (1 ≤ room.1) × (room.1 ≤ 65536) }
        requires senders { All (IsNewSender L.Sender.home L.Sender.job L.Sender.room L.Sender.sent (L.Board.id board.old).lane_table job.now (L.room_of LANE_ROOM)) (pipe_senders self) }
        requires receivers { All (IsNewReceiver L.Receiver.home L.Receiver.job L.Receiver.taken L.Receiver.is_whole L.Receiver.is_cut (L.Board.id board.old).lane_table job.now) (pipe_receivers self) }
        requires tokens { HoldsTokensOf J.holds L.token_home job.now (L.Board.id board.old).group_table }
        ensures can_poll { IfOk result (λ tasks. All (⟦<PipeTask<L, J> as Task<L::Board>>⟧.can_poll (L.Board.id board.old)) tasks.items) }
        ensures none { stage_of self ≡ Direct → IsOkAnd result (λ tasks. tasks.items ≡ []) }
        ensures merge { stage_of self ≡ ToMerge → IfOk result (λ tasks. (inner : List LaneId) × (length inner ≡ pipelines_of self) × (map (λ task. task_lanes ⟦<PipeWork<L, J> as Stepwise<L::Board>>⟧.seen task.task) tasks.items ≡ merging_tasks (L.Board.id board.old).lane_table (map L.Receiver.lane (pipe_receivers self)) inner (map L.Sender.lane (pipe_senders self)))) }
        ensures spread { stage_of self ≡ ToSpread → IfOk result (λ tasks. (inner : List LaneId) × (length inner ≡ pipelines_of self) × (map (λ task. task_lanes ⟦<PipeWork<L, J> as Stepwise<L::Board>>⟧.seen task.task) tasks.items ≡ spreading_tasks (L.Board.id board.old).lane_table (map L.Receiver.lane (pipe_receivers self)) inner (map L.Sender.lane (pipe_senders self)))) }
        ensures len { is_direct (stage_of self) ≡ false → IfOk result (λ tasks. length tasks.items ≡ pipelines_of self + 1) }
        ensures out_of_memory { IsOkUnless result OutOfMemory }
        ensures same_waiting { SameWaiting (L.Board.waits_at board.old) (L.Board.waits_at board.new) }
        ensures same_board { L.Board.id board.new ≡ L.Board.id board.old }
    {
        match self {
            PhysicalPipe::Initialized => Ok(Vec::new(alloc)),
            PhysicalPipe::NeedsLinearizer(receivers, sender) => {
                merged(alloc, board, room.1, job, receivers, sender)
            }
            PhysicalPipe::NeedsDistributor(receiver, senders) => {
                spread(alloc, board, room.0, job, rng, receiver, senders)
            }
            _ => unreachable!(),
        }
    }
}

/// The tasks that merge several lanes into one.
fn merged<L: Tokens + Lanes<Load<<L as Tokens>::Token, J>>, J: LoadJob<<L as Tokens>::Token>>(
    alloc: Global,
    board: &mut L::Board,
    room: u32,
    job: &J,
    receivers: Vec<L::Receiver>,
    sender: L::Sender,
) -> Result<Vec<PipeTask<L, J>>, Fault>
    requires pipelines { (1 ≤ length receivers.items) × (length receivers.items ≤ 32768) }
    requires room { (1 ≤ room) × (room ≤ 65536) }
    requires sender { IsNewSender L.Sender.home L.Sender.job L.Sender.room L.Sender.sent (L.Board.id board.old).lane_table job.now (L.room_of LANE_ROOM) sender }
    requires receivers { All (IsNewReceiver L.Receiver.home L.Receiver.job L.Receiver.taken L.Receiver.is_whole L.Receiver.is_cut (L.Board.id board.old).lane_table job.now) receivers.items }
    requires tokens { HoldsTokensOf J.holds L.token_home job.now (L.Board.id board.old).group_table }
    ensures can_poll { IfOk result (λ tasks. All (⟦<PipeTask<L, J> as Task<L::Board>>⟧.can_poll (L.Board.id board.old)) tasks.items) }
    ensures merge { IfOk result (λ tasks. (inner : List LaneId) × (length inner ≡ length receivers.items) × (map (λ task. task_lanes ⟦<PipeWork<L, J> as Stepwise<L::Board>>⟧.seen task.task) tasks.items ≡ merging_tasks (L.Board.id board.old).lane_table (map L.Receiver.lane receivers.items) inner (L.Sender.lane sender ∷ []))) }
    ensures out_of_memory { IsOkUnless result OutOfMemory }
    ensures same_waiting { SameWaiting (L.Board.waits_at board.old) (L.Board.waits_at board.new) }
    ensures same_board { L.Board.id board.new ≡ L.Board.id board.old }
{
    let count = receivers.len() as u32;
    let (linearizer, inserters) = Linearizer::<LoadOf<L, J>, L>::new(
        alloc, board, count, room, job,
    )?;
    let merging = Merging::new(alloc, linearizer, sender)?;
    let inserting = join_each::<L::Board, Inserting<L, J>>(alloc, board, receivers, inserters)?;
    gather_merging(alloc, &mut Some(merging), inserting)
}

/// The tasks that spread one lane over several.
fn spread<L: Tokens + Lanes<Load<<L as Tokens>::Token, J>>, J: LoadJob<<L as Tokens>::Token>>(
    alloc: Global,
    board: &mut L::Board,
    room: u32,
    job: &J,
    rng: Xoshiro256PlusPlus,
    receiver: L::Receiver,
    senders: Vec<L::Sender>,
) -> Result<Vec<PipeTask<L, J>>, Fault>
    requires pipelines { (1 ≤ length senders.items) × (length senders.items ≤ 32768) }
    requires room { (1 ≤ room) × (room ≤ 65536) }
    requires senders { All (IsNewSender L.Sender.home L.Sender.job L.Sender.room L.Sender.sent (L.Board.id board.old).lane_table job.now (L.room_of LANE_ROOM)) senders.items }
    requires receiver { IsNewReceiver L.Receiver.home L.Receiver.job L.Receiver.taken L.Receiver.is_whole L.Receiver.is_cut (L.Board.id board.old).lane_table job.now receiver }
    requires tokens { HoldsTokensOf J.holds L.token_home job.now (L.Board.id board.old).group_table }
    ensures can_poll { IfOk result (λ tasks. All (⟦<PipeTask<L, J> as Task<L::Board>>⟧.can_poll (L.Board.id board.old)) tasks.items) }
    ensures spread { IfOk result (λ tasks. (inner : List LaneId) × (length inner ≡ length senders.items) × (map (λ task. task_lanes ⟦<PipeWork<L, J> as Stepwise<L::Board>>⟧.seen task.task) tasks.items ≡ spreading_tasks (L.Board.id board.old).lane_table (L.Receiver.lane receiver ∷ []) inner (map L.Sender.lane senders.items))) }
    ensures out_of_memory { IsOkUnless result OutOfMemory }
    ensures same_waiting { SameWaiting (L.Board.waits_at board.old) (L.Board.waits_at board.new) }
    ensures same_board { L.Board.id board.new ≡ L.Board.id board.old }
{
    let count = senders.len() as u32;
    let (distributor, lanes) = distributor_channel::<LoadOf<L, J>, L, Xoshiro256PlusPlus>(
        alloc, board, count, room, job, rng,
    )?;
    let distributing = Distributing::new(alloc, receiver, distributor)?;
    let handing_on = join_each::<L::Board, HandingOn<L, J>>(alloc, board, lanes, senders)?;
    gather_spreading(alloc, &mut Some(distributing), handing_on)
}
