//! Pipes between two nodes, by how many ends each has.
ghost use Rattle.std.specs.Prelude.{◌≡◌, ◌≤◌, true, false, All, IfOk, length, OnOk, IsOkUnless};
ghost use Rattle.morsel_meaning.specs.declared.fault.Fault.TheVariants.{OutOfMemory};
ghost use Rattle.morsel_prims.specs.Polled.{BoardId};
ghost use Rattle.morsel_merge.specs.Ends.{IsNewReceiver, IsNewSender};
ghost use Rattle.morsel_ports.specs.Pipes.{is_direct, is_half, is_uninit, pipe_receivers, pipe_senders, pipelines_of, stage_of};
ghost use Rattle.morsel_lane_pipe.specs.Tasks.{HoldsTokensOf};
ghost use Rattle.morsel_ports_uses.specs.Pairings.{half_stage, made_stage, tasks_between};

use morsel_load::{Load, LoadJob};
use morsel_meaning::Fault;
use morsel_pipe_task::PipeTask;
use morsel_ports::{LANE_ROOM, PhysicalPipe};
use morsel_prims::{Lanes, Task, Tokens};
use rand_xoshiro::Xoshiro256PlusPlus;
use std::alloc::Global;

/// How many ends the two nodes of a pipe have: one each, or one for each pipeline.
#[derive(Clone, Copy, Debug, PartialEq, Eq)]
pub struct Pairing {
    /// Whether the node before the pipe has one sending end.
    pub sends_one: bool,
    /// Whether the node behind it has one receiving end.
    pub takes_one: bool,
}

/// Takes the receiving ends of a pipe.
fn take_receivers<
    L: Tokens + Lanes<Load<<L as Tokens>::Token, J>>,
    J: LoadJob<<L as Tokens>::Token>,
>(
    alloc: Global,
    board: &mut L::Board,
    job: &J,
    pipe: &mut PhysicalPipe<L, J>,
    takes_one: bool,
) -> Result<(), Fault>
    requires uninit { is_uninit (stage_of pipe.old) ≡ true }
    ensures stage { OnOk result (stage_of pipe.new ≡ half_stage takes_one) }
    ensures pipelines { OnOk result (pipelines_of pipe.new ≡ pipelines_of pipe.old) }
    ensures senders { OnOk result (All (IsNewSender L.Sender.home L.Sender.job L.Sender.room L.Sender.sent (L.Board.id board.old).lane_table job.now (L.room_of LANE_ROOM)) (pipe_senders pipe.new)) }
    ensures out_of_memory { IsOkUnless result OutOfMemory }
    ensures same_board { L.Board.id board.new ≡ L.Board.id board.old }
{
    if takes_one {
        pipe.recv_port().serial(alloc, board, job)?;
    } else {
        pipe.recv_port().parallel(alloc, board, job)?;
    }
    Ok(())
}

/// Takes the sending ends of a pipe whose receiving ends were taken.
fn take_senders<L: Tokens + Lanes<Load<<L as Tokens>::Token, J>>, J: LoadJob<<L as Tokens>::Token>>(
    alloc: Global,
    board: &mut L::Board,
    job: &J,
    pipe: &mut PhysicalPipe<L, J>,
    sends_one: bool,
    takes_one: bool,
) -> Result<(), Fault>
    requires half { stage_of pipe.old ≡ half_stage takes_one }
    requires senders { All (IsNewSender L.Sender.home L.Sender.job L.Sender.room L.Sender.sent (L.Board.id board.old).lane_table job.now (L.room_of LANE_ROOM)) (pipe_senders pipe.old) }
    ensures stage { OnOk result (stage_of pipe.new ≡ made_stage sends_one takes_one) }
    ensures pipelines { OnOk result (is_direct (made_stage sends_one takes_one) ≡ false → pipelines_of pipe.new ≡ pipelines_of pipe.old) }
    ensures senders { OnOk result (All (IsNewSender L.Sender.home L.Sender.job L.Sender.room L.Sender.sent (L.Board.id board.old).lane_table job.now (L.room_of LANE_ROOM)) (pipe_senders pipe.new)) }
    ensures receivers { OnOk result (All (IsNewReceiver L.Receiver.home L.Receiver.job L.Receiver.taken L.Receiver.is_whole L.Receiver.is_cut (L.Board.id board.old).lane_table job.now) (pipe_receivers pipe.new)) }
    ensures out_of_memory { IsOkUnless result OutOfMemory }
    ensures same_board { L.Board.id board.new ≡ L.Board.id board.old }
{
    if sends_one {
        pipe.send_port().serial(alloc, board, job)?;
    } else {
        pipe.send_port().parallel(alloc, board, job)?;
    }
    Ok(())
}

/// A pipe whose two nodes have taken their ends.
pub fn pipe_between<
    L: Tokens + Lanes<Load<<L as Tokens>::Token, J>>,
    J: LoadJob<<L as Tokens>::Token>,
>(
    alloc: Global,
    board: &mut L::Board,
    job: &J,
    pipelines: u32,
    pairing: Pairing,
) -> Result<PhysicalPipe<L, J>, Fault>
    requires pipelines { (1 ≤ pipelines) × (pipelines ≤ 32768) }
    ensures stage { IfOk result (λ pipe. stage_of pipe ≡ made_stage pairing.sends_one pairing.takes_one) }
    ensures pipelines { IfOk result (λ pipe. is_direct (made_stage pairing.sends_one pairing.takes_one) ≡ false → pipelines_of pipe ≡ pipelines) }
    ensures senders { IfOk result (λ pipe. All (IsNewSender L.Sender.home L.Sender.job L.Sender.room L.Sender.sent (L.Board.id board.old).lane_table job.now (L.room_of LANE_ROOM)) (pipe_senders pipe)) }
    ensures receivers { IfOk result (λ pipe. All (IsNewReceiver L.Receiver.home L.Receiver.job L.Receiver.taken L.Receiver.is_whole L.Receiver.is_cut (L.Board.id board.old).lane_table job.now) (pipe_receivers pipe)) }
    ensures out_of_memory { IsOkUnless result OutOfMemory }
    ensures same_board { L.Board.id board.new ≡ L.Board.id board.old }
{
    let mut pipe = PhysicalPipe::new(pipelines);
    take_receivers(alloc, board, job, &mut pipe, pairing.takes_one)?;
    take_senders(
        alloc,
        board,
        job,
        &mut pipe,
        pairing.sends_one,
        pairing.takes_one,
    )?;
    Ok(pipe)
}

/// The tasks between the ends of a pipe whose two nodes have taken theirs.
pub fn tasks_of_pairing<
    L: Tokens + Lanes<Load<<L as Tokens>::Token, J>>,
    J: LoadJob<<L as Tokens>::Token>,
>(
    alloc: Global,
    board: &mut L::Board,
    job: &J,
    pipelines: u32,
    pairing: Pairing,
    rng: Xoshiro256PlusPlus,
) -> Result<Vec<PipeTask<L, J>>, Fault>
    requires pipelines { (1 ≤ pipelines) × (pipelines ≤ 32768) }
    requires tokens { HoldsTokensOf J.holds L.token_home job.now (L.Board.id board.old).group_table }
    ensures len { IfOk result (λ tasks. length tasks.items ≡ tasks_between pairing pipelines) }
    ensures can_poll { IfOk result (λ tasks. (id : BoardId) × (id ≡ L.Board.id board.old) × All (⟦<PipeTask<L, J> as Task<L::Board>>⟧.can_poll id) tasks.items) }
    ensures out_of_memory { IsOkUnless result OutOfMemory }
    ensures same_board { L.Board.id board.new ≡ L.Board.id board.old }
{
    let pipe = pipe_between::<L, J>(alloc, board, job, pipelines, pairing)?;
    let tasks = pipe.tasks(alloc, board, (4, 4), job, rng)?;
    Ok(tasks)
}
