//! The four pairings of serial and parallel ends, with two pipelines.
ghost use Rattle.std.specs.Prelude.{◌≡◌, [], All};
ghost use Rattle.morsel_merge.specs.Ends.{IsNewReceiver, IsNewSender};
ghost use Rattle.morsel_lane_pipe_uses.specs.Sites.{IsEndAt};

use crate::tests::made::MakesTasks;
use crate::tests::pipe::{Pipe, distributing, handing_on, inserting, merging};
use morsel_lane_pipe::LoadOf;
use morsel_load::{Load, LoadJob};
use morsel_meaning::Fault;
use morsel_merge::Inserter;
use morsel_prims::{Lanes, Tokens};
use std::alloc::Global;
use std::mem::drop;

/// How many sending ends a pipe has, and how many receiving ones.
#[derive(Clone, Copy, Debug, PartialEq, Eq)]
pub enum Pairing {
    /// One and one.
    Serial,
    /// Two and two.
    Parallel,
    /// Two and one.
    Merged,
    /// One and two.
    Spread,
}

/// Makes the lanes and tasks of this pipe. The seed says which lanes are drawn.
pub fn join<L, J, M>(
    alloc: Global,
    pipe: &mut Pipe<L, J, M::Made>,
    job: &J,
    pairing: Pairing,
    seed: u64,
) -> Result<(), Fault>
where
    L: Tokens + Lanes<Load<<L as Tokens>::Token, J>>,
    J: LoadJob<<L as Tokens>::Token>,
    M: MakesTasks<L, J>,
    requires same_job { job.now ≡ pipe.old.job }
{
    match pairing {
        Pairing::Serial => pipe.pass(alloc, job),
        Pairing::Parallel => {
            pipe.pass(alloc, job)?;
            pipe.pass(alloc, job)
        }
        Pairing::Merged => merge_two::<L, J, M>(alloc, pipe, job),
        Pairing::Spread => spread_two::<L, J, M>(alloc, pipe, job, seed),
    }
}

/// Makes the lanes and tasks where two sending ends are merged into one receiving end.
fn merge_two<L, J, M>(alloc: Global, pipe: &mut Pipe<L, J, M::Made>, job: &J) -> Result<(), Fault>
where
    L: Tokens + Lanes<Load<<L as Tokens>::Token, J>>,
    J: LoadJob<<L as Tokens>::Token>,
    M: MakesTasks<L, J>,
    requires same_job { job.now ≡ pipe.old.job }
{
    let to = pipe.leave(alloc, job)?;
    let (task, mut inserters) = merging::<L, J, M>(alloc, pipe, job, to)?;
    let done = merge_behind::<L, J, M>(alloc, pipe, job, task, &mut inserters);
    drop(inserters);
    done
}

/// Adds this task behind two lanes of a linearizer, and the tasks before them.
fn merge_behind<L, J, M>(
    alloc: Global,
    pipe: &mut Pipe<L, J, M::Made>,
    job: &J,
    task: M::Made,
    inserters: &mut Vec<Inserter<LoadOf<L, J>, L>>,
) -> Result<(), Fault>
where
    L: Tokens + Lanes<Load<<L as Tokens>::Token, J>>,
    J: LoadJob<<L as Tokens>::Token>,
    M: MakesTasks<L, J>,
    requires same_job { job.now ≡ pipe.old.job }
    requires may_poll { M.Made.can_poll (pipe.old.board) task }
    requires inserters { All (λ inserter. IsNewSender L.Sender.home L.Sender.job L.Sender.room L.Sender.sent pipe.old.board.lane_table job.now (L.room_of pipe.old.room) inserter.sender) inserters.old.items }
{
    pipe.push(task)?;
    insert_next::<L, J, M>(alloc, pipe, job, inserters)?;
    insert_next::<L, J, M>(alloc, pipe, job, inserters)
}

/// Adds the task before the last of these lanes of a linearizer, if one is left.
fn insert_next<L, J, M>(
    alloc: Global,
    pipe: &mut Pipe<L, J, M::Made>,
    job: &J,
    inserters: &mut Vec<Inserter<LoadOf<L, J>, L>>,
) -> Result<(), Fault>
where
    L: Tokens + Lanes<Load<<L as Tokens>::Token, J>>,
    J: LoadJob<<L as Tokens>::Token>,
    M: MakesTasks<L, J>,
    requires same_job { job.now ≡ pipe.old.job }
    requires inserters { All (λ inserter. IsNewSender L.Sender.home L.Sender.job L.Sender.room L.Sender.sent pipe.old.board.lane_table job.now (L.room_of pipe.old.room) inserter.sender) inserters.old.items }
    ensures inserters { All (λ inserter. IsNewSender L.Sender.home L.Sender.job L.Sender.room L.Sender.sent pipe.old.board.lane_table job.now (L.room_of pipe.old.room) inserter.sender) inserters.new.items }
    ensures same { pipe.new ≡ pipe.old }
{
    match inserters.pop() {
        Some(inserter) => insert::<L, J, M>(alloc, pipe, job, inserter.sender),
        None => Ok(()),
    }
}

/// Adds the task before this lane of a linearizer.
fn insert<L, J, M>(
    alloc: Global,
    pipe: &mut Pipe<L, J, M::Made>,
    job: &J,
    to: L::Sender,
) -> Result<(), Fault>
where
    L: Tokens + Lanes<Load<<L as Tokens>::Token, J>>,
    J: LoadJob<<L as Tokens>::Token>,
    M: MakesTasks<L, J>,
    requires same_job { job.now ≡ pipe.old.job }
    requires of_site { IsEndAt pipe.old (L.Sender.home to) (L.Sender.job to) }
    requires fresh { L.Sender.sent to ≡ [] }
    ensures same { pipe.new ≡ pipe.old }
{
    let from = pipe.enter(alloc, job)?;
    let task = inserting::<L, J, M>(alloc, pipe, from, to)?;
    pipe.push(task)
}

/// Makes the lanes and tasks where one sending end is spread over two receiving ends. The seed says which lanes are drawn.
fn spread_two<L, J, M>(
    alloc: Global,
    pipe: &mut Pipe<L, J, M::Made>,
    job: &J,
    seed: u64,
) -> Result<(), Fault>
where
    L: Tokens + Lanes<Load<<L as Tokens>::Token, J>>,
    J: LoadJob<<L as Tokens>::Token>,
    M: MakesTasks<L, J>,
    requires same_job { job.now ≡ pipe.old.job }
{
    let from = pipe.enter(alloc, job)?;
    let (task, mut lanes) = distributing::<L, J, M>(alloc, pipe, job, from, seed)?;
    let done = spread_before::<L, J, M>(alloc, pipe, job, task, &mut lanes);
    drop(lanes);
    done
}

/// Adds this task before two lanes of a distributor, and the tasks behind them.
fn spread_before<L, J, M>(
    alloc: Global,
    pipe: &mut Pipe<L, J, M::Made>,
    job: &J,
    task: M::Made,
    lanes: &mut Vec<L::Receiver>,
) -> Result<(), Fault>
where
    L: Tokens + Lanes<Load<<L as Tokens>::Token, J>>,
    J: LoadJob<<L as Tokens>::Token>,
    M: MakesTasks<L, J>,
    requires same_job { job.now ≡ pipe.old.job }
    requires may_poll { M.Made.can_poll (pipe.old.board) task }
    requires receivers { All (IsNewReceiver L.Receiver.home L.Receiver.job L.Receiver.taken L.Receiver.is_whole L.Receiver.is_cut pipe.old.board.lane_table job.now) lanes.old.items }
{
    pipe.push(task)?;
    hand_on_next::<L, J, M>(alloc, pipe, job, lanes)?;
    hand_on_next::<L, J, M>(alloc, pipe, job, lanes)
}

/// Adds the task behind the last of these lanes of a distributor, if one is left.
fn hand_on_next<L, J, M>(
    alloc: Global,
    pipe: &mut Pipe<L, J, M::Made>,
    job: &J,
    lanes: &mut Vec<L::Receiver>,
) -> Result<(), Fault>
where
    L: Tokens + Lanes<Load<<L as Tokens>::Token, J>>,
    J: LoadJob<<L as Tokens>::Token>,
    M: MakesTasks<L, J>,
    requires same_job { job.now ≡ pipe.old.job }
    requires receivers { All (IsNewReceiver L.Receiver.home L.Receiver.job L.Receiver.taken L.Receiver.is_whole L.Receiver.is_cut pipe.old.board.lane_table job.now) lanes.old.items }
    ensures receivers { All (IsNewReceiver L.Receiver.home L.Receiver.job L.Receiver.taken L.Receiver.is_whole L.Receiver.is_cut pipe.old.board.lane_table job.now) lanes.new.items }
    ensures same { pipe.new ≡ pipe.old }
{
    match lanes.pop() {
        Some(from) => hand_on::<L, J, M>(alloc, pipe, job, from),
        None => Ok(()),
    }
}

/// Adds the task behind this lane of a distributor.
fn hand_on<L, J, M>(
    alloc: Global,
    pipe: &mut Pipe<L, J, M::Made>,
    job: &J,
    from: L::Receiver,
) -> Result<(), Fault>
where
    L: Tokens + Lanes<Load<<L as Tokens>::Token, J>>,
    J: LoadJob<<L as Tokens>::Token>,
    M: MakesTasks<L, J>,
    requires same_job { job.now ≡ pipe.old.job }
    requires of_site { IsEndAt pipe.old (L.Receiver.home from) (L.Receiver.job from) }
    requires fresh { L.Receiver.taken from ≡ [] }
    ensures same { pipe.new ≡ pipe.old }
{
    let to = pipe.leave(alloc, job)?;
    let task = handing_on::<L, J, M>(alloc, pipe, from, to)?;
    pipe.push(task)
}
