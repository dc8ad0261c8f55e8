//! What makes the tasks of a pipe.
use crate::tests::between::{distributing, merging};
use morsel_lane_pipe::{HandingOn, Inserting, LoadOf, PipeOut, ReceiptsOf, Stepping};
use morsel_load::{Load, LoadJob};
use morsel_meaning::Fault;
use morsel_merge::Inserter;
use morsel_pipe_task::{PipeTask, PipeWork};
use morsel_prims::{Lanes, Task, Tokens};
use std::alloc::Global;

/// What makes the tasks of a pipe. A proof that names the kind of the tasks is large, so whoever joins a pipe takes any kind.
pub trait MakesTasks<
    L: Tokens + Lanes<Load<<L as Tokens>::Token, J>>,
    J: LoadJob<<L as Tokens>::Token>,
> {
    ghost use Rattle.std.specs.Prelude.{◌≡◌, ◌≤◌, [], All, IfOk};
    ghost use Rattle.morsel_merge.specs.Ends.{IsNewReceiver, IsNewSender};
    ghost use Rattle.morsel_lane_pipe.specs.Tasks.{HoldsTokensOf};

    /// A task.
    type Made: Task<L::Board, Out = PipeOut<ReceiptsOf<L, J>>> + Drop;

    /// The task behind the two lanes of a linearizer, and the sending ends of the lanes.
    fn merging(
        alloc: Global,
        board: &mut L::Board,
        room: u32,
        job: &J,
        to: L::Sender,
    ) -> Result<(Self::Made, Vec<Inserter<LoadOf<L, J>, L>>), Fault>
        requires asked { (1 ≤ room) × (room ≤ 65536) }
        requires of_board { (L.Sender.home to ≡ (L.Board.id board.old).lane_table) × (L.Sender.job to ≡ job.now) }
        requires fresh { L.Sender.sent to ≡ [] }
        ensures may_poll { IfOk result (λ made. Self.Made.can_poll (L.Board.id board.old) made.0) }
        ensures inserters { IfOk result (λ made. All (λ inserter. IsNewSender L.Sender.home L.Sender.job L.Sender.room L.Sender.sent (L.Board.id board.old).lane_table job.now (L.room_of room) inserter.sender) made.1.items) }
        ensures same_board { L.Board.id board.new ≡ L.Board.id board.old };

    /// The task before the two lanes of a distributor, and the receiving ends of the lanes. The seed says which lanes are drawn.
    fn distributing(
        alloc: Global,
        board: &mut L::Board,
        room: u32,
        job: &J,
        from: L::Receiver,
        seed: u64,
    ) -> Result<(Self::Made, Vec<L::Receiver>), Fault>
        requires asked { (1 ≤ room) × (room ≤ 65536) }
        requires of_board { (L.Receiver.home from ≡ (L.Board.id board.old).lane_table) × (L.Receiver.job from ≡ job.now) }
        requires tokens { HoldsTokensOf J.holds L.token_home job.now (L.Board.id board.old).group_table }
        requires fresh { L.Receiver.taken from ≡ [] }
        ensures may_poll { IfOk result (λ made. Self.Made.can_poll (L.Board.id board.old) made.0) }
        ensures receivers { IfOk result (λ made. All (IsNewReceiver L.Receiver.home L.Receiver.job L.Receiver.taken L.Receiver.is_whole L.Receiver.is_cut (L.Board.id board.old).lane_table job.now) made.1.items) }
        ensures same_board { L.Board.id board.new ≡ L.Board.id board.old };

    /// The task before a lane of a linearizer.
    fn inserting(
        alloc: Global,
        board: &mut L::Board,
        from: L::Receiver,
        to: L::Sender,
    ) -> Result<Self::Made, Fault>
        requires home { (L.Receiver.home from ≡ (L.Board.id board.old).lane_table) × (L.Sender.home to ≡ (L.Board.id board.old).lane_table) }
        requires same_job { L.Sender.job to ≡ L.Receiver.job from }
        requires fresh { (L.Receiver.taken from ≡ []) × (L.Sender.sent to ≡ []) }
        requires tokens { HoldsTokensOf J.holds L.token_home (L.Receiver.job from) (L.Board.id board.old).group_table }
        ensures may_poll { IfOk result (Self.Made.can_poll (L.Board.id board.old)) }
        ensures same_board { L.Board.id board.new ≡ L.Board.id board.old };

    /// The task behind a lane of a distributor.
    fn handing_on(
        alloc: Global,
        board: &mut L::Board,
        from: L::Receiver,
        to: L::Sender,
    ) -> Result<Self::Made, Fault>
        requires home { (L.Receiver.home from ≡ (L.Board.id board.old).lane_table) × (L.Sender.home to ≡ (L.Board.id board.old).lane_table) }
        requires same_job { L.Sender.job to ≡ L.Receiver.job from }
        requires fresh { (L.Receiver.taken from ≡ []) × (L.Sender.sent to ≡ []) }
        requires tokens { HoldsTokensOf J.holds L.token_home (L.Receiver.job from) (L.Board.id board.old).group_table }
        ensures may_poll { IfOk result (Self.Made.can_poll (L.Board.id board.old)) }
        ensures same_board { L.Board.id board.new ≡ L.Board.id board.old };
}

/// Makes the tasks that queries have.
pub struct PipeTasks;

impl<L: Tokens + Lanes<Load<<L as Tokens>::Token, J>>, J: LoadJob<<L as Tokens>::Token>> MakesTasks<
    L,
    J,
> for PipeTasks {
    type Made = PipeTask<L, J>;

    fn merging(
        alloc: Global,
        board: &mut L::Board,
        room: u32,
        job: &J,
        to: L::Sender,
    ) -> Result<(PipeTask<L, J>, Vec<Inserter<LoadOf<L, J>, L>>), Fault> {
        merging::<L, J>(alloc, board, room, job, to)
    }

    fn distributing(
        alloc: Global,
        board: &mut L::Board,
        room: u32,
        job: &J,
        from: L::Receiver,
        seed: u64,
    ) -> Result<(PipeTask<L, J>, Vec<L::Receiver>), Fault> {
        distributing::<L, J>(alloc, board, room, job, from, seed)
    }

    fn inserting(
        alloc: Global,
        _board: &mut L::Board,
        from: L::Receiver,
        to: L::Sender,
    ) -> Result<PipeTask<L, J>, Fault> {
        let task = Inserting::new(alloc, from, Inserter { sender: to })?;
        Ok(Stepping::new(PipeWork::Inserting(task)))
    }

    fn handing_on(
        alloc: Global,
        board: &mut L::Board,
        from: L::Receiver,
        to: L::Sender,
    ) -> Result<PipeTask<L, J>, Fault> {
        let task = HandingOn::new(alloc, board, from, to)?;
        Ok(Stepping::new(PipeWork::HandingOn(task)))
    }
}
