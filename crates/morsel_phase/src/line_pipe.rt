//! The tasks of the pipes of a line.
ghost use Rattle.std.specs.Prelude.{◌≡◌, ◌≤◌, All, IfOk, IsOkUnless, length};
ghost use Rattle.morsel_meaning.specs.declared.fault.Fault.TheVariants.{OutOfMemory};
ghost use Rattle.morsel_phase.specs.Lines.{tasks_of};
ghost use Rattle.morsel_phase.specs.Stages.{HasNoFault};
ghost use Rattle.morsel_ports.specs.Pipes.{pipelines_of};

use crate::start::LineRooms;
use morsel_lane_pipe::{PipeOut, ReceiptsOf};
use morsel_load::{Load, LoadJob};
use morsel_meaning::Fault;
use morsel_pipe_task::PipeTask;
use morsel_ports::PhysicalPipe;
use morsel_prims::{Board, Lanes, Task, Tokens};
use rand_xoshiro::Xoshiro256PlusPlus;
use std::alloc::Global;

/// What makes the tasks of a pipe on a board, whose lanes are for a job. A proof that names the kind of the tasks is large, so
/// whoever runs a line takes any kind.
pub trait MakesPipeTasks<B: Board, J> {
    ghost use Rattle.std.specs.Prelude.{◌≡◌, ℕ, All, IfOk, IsOkUnless, length};
    ghost use Rattle.morsel_meaning.specs.declared.fault.Fault.TheVariants.{OutOfMemory};
    ghost use Rattle.morsel_prims.specs.Polled.{BoardId};
    ghost use Rattle.morsel_phase.specs.Stages.{HasNoFault};

    /// What a task that has ended whole gives.
    type Receipts: Drop;

    /// A task of the pipe.
    type Task: Task<B, Out = PipeOut<Self::Receipts>> + Drop;

    /// Its tasks can be made on this board, for this job.
    ghost ready: { Self → J → BoardId → Type 0 };

    /// How many they are.
    ghost count: { Self → ℕ };

    /// The tasks of the pipe, which are made once.
    fn pipe_tasks(
        &mut self,
        alloc: Global,
        board: &mut B,
        job: &J,
    ) -> Result<Vec<Self::Task>, Fault>
        requires ready { ready self.old job.now (B.id board.old) }
        ensures len { IfOk result (λ tasks. length tasks.items ≡ count self.old) }
        ensures can_poll { IfOk result (λ tasks. All (Self.Task.can_poll (B.id board.old)) tasks.items) }
        ensures no_fault { IfOk result (λ tasks. All (HasNoFault Self.Task.gives) tasks.items) }
        ensures out_of_memory { IsOkUnless result OutOfMemory }
        ensures same_board { B.id board.new ≡ B.id board.old };
}

/// A pipe whose two nodes have their ends, until its tasks are made, and what they are made with.
#[derive(Drop)]
pub struct PipeOrder<L, J>
where
    L: Tokens + Lanes<Load<<L as Tokens>::Token, J>>,
    J: LoadJob<<L as Tokens>::Token>,
{
    /// The pipe.
    pub pipe: Option<PhysicalPipe<L, J>>,
    /// For how many loads there is room in it.
    pub rooms: LineRooms,
    /// From where on a distributor draws.
    pub rng: Xoshiro256PlusPlus,
}

impl<L, J> MakesPipeTasks<L::Board, J> for PipeOrder<L, J>
where
    L: Tokens + Lanes<Load<<L as Tokens>::Token, J>>,
    J: LoadJob<<L as Tokens>::Token>,
{
    ghost use Rattle.std.specs.Prelude.{◌≡◌, ◌≤◌, true, false, All, IfSome, IsSome};
    ghost use Rattle.morsel_merge.specs.Ends.{IsNewReceiver, IsNewSender};
    ghost use Rattle.morsel_lane_pipe.specs.Tasks.{HoldsTokensOf};
    ghost use Rattle.morsel_phase.specs.Lines.{tasks_of};
    ghost use Rattle.morsel_ports.specs.Pipes.{is_direct, is_made, pipe_receivers, pipe_senders, pipelines_of, stage_of};
    ghost use Rattle.morsel_ports.specs.declared.pipe.TheConstants.{LANE_ROOM};

    type Receipts = ReceiptsOf<L, J>;

    type Task = PipeTask<L, J>;

    ghost ready = { λ order job board. IsSome order.pipe
        × ((1 ≤ order.rooms.spread) × (order.rooms.spread ≤ 65536))
        × ((1 ≤ order.rooms.merge) × (order.rooms.merge ≤ 65536))
        × HoldsTokensOf J.holds L.token_home job board.group_table
        × IfSome order.pipe (λ pipe. (is_made (stage_of pipe) ≡ true) × (is_direct (stage_of pipe) ≡ false)
        × ((1 ≤ pipelines_of pipe) × (pipelines_of pipe ≤ 32768))
        × All (IsNewSender L.Sender.home L.Sender.job L.Sender.room L.Sender.sent board.lane_table job (L.room_of LANE_ROOM)) (pipe_senders pipe)
        × All (IsNewReceiver L.Receiver.home L.Receiver.job L.Receiver.taken L.Receiver.is_whole L.Receiver.is_cut board.lane_table job) (pipe_receivers pipe)) };

    ghost count = { λ order. tasks_of pipelines_of order.pipe };

    fn pipe_tasks(
        &mut self,
        alloc: Global,
        board: &mut L::Board,
        job: &J,
    ) -> Result<Vec<PipeTask<L, J>>, Fault>
        requires ready { ⟦<PipeOrder<L, J> as MakesPipeTasks<L::Board, J>>⟧.ready self.old job.now (L.Board.id board.old) }
        ensures len { IfOk result (λ tasks. length tasks.items ≡ tasks_of pipelines_of self.old.pipe) }
        ensures can_poll { IfOk result (λ tasks. All (⟦<PipeTask<L, J> as Task<L::Board>>⟧.can_poll (L.Board.id board.old)) tasks.items) }
        ensures no_fault { IfOk result (λ tasks. All (HasNoFault ⟦<PipeTask<L, J> as Task<L::Board>>⟧.gives) tasks.items) }
        ensures out_of_memory { IsOkUnless result OutOfMemory }
        ensures same_board { L.Board.id board.new ≡ L.Board.id board.old }
    {
        let Some(pipe) = self.pipe.take() else {
            unreachable!()
        };
        let room = (self.rooms.spread, self.rooms.merge);
        pipe.tasks(alloc, board, room, job, self.rng.clone()?)
    }
}
