//! The tasks that have several lanes at one side, the ends of those lanes, what goes through one end, and how a task is polled.
ghost use Rattle.std.specs.Prelude.{◌≡◌, ◌≤◌, [], All, IfOk, IfSome, None, Some};
ghost use Rattle.morsel_merge.specs.Ends.{IsNewReceiver, IsNewSender};
ghost use Rattle.morsel_load.specs.Loads.{LoadSeen, held_token};
ghost use Rattle.morsel_lane_pipe.specs.Tasks.{HoldsTokensOf};

use crate::tests::numbered::number_of;
use crate::tests::piped::SendAnswer;
use morsel_lane_pipe::{Distributing, LoadOf, Merging, Stepping};
use morsel_load::{Load, LoadJob};
use morsel_meaning::Fault;
use morsel_merge::{Inserter, Linearizer, distributor_channel};
use morsel_pipe_task::{PipeTask, PipeWork};
use morsel_prims::{Board, Cx, LaneReceiver, LaneSender, Lanes, Poll, RecvError, Task, Tokens};
use rand_core::SeedableRng;
use rand_xoshiro::Xoshiro256PlusPlus;
use std::alloc::Global;
use std::snapshot::Snapshot;

/// The task behind the two lanes of a linearizer, and the sending ends of the lanes.
pub fn merging<L, J>(
    alloc: Global,
    board: &mut L::Board,
    room: u32,
    job: &J,
    to: L::Sender,
) -> Result<(PipeTask<L, J>, Vec<Inserter<LoadOf<L, J>, L>>), Fault>
where
    L: Tokens + Lanes<Load<<L as Tokens>::Token, J>>,
    J: LoadJob<<L as Tokens>::Token>,
    requires asked { (1 ≤ room) × (room ≤ 65536) }
    requires of_board { (L.Sender.home to ≡ (L.Board.id board.old).lane_table) × (L.Sender.job to ≡ job.now) }
    requires fresh { L.Sender.sent to ≡ [] }
    ensures may_poll { IfOk result (λ made. ⟦<PipeTask<L, J> as Task<L::Board>>⟧.can_poll (L.Board.id board.old) made.0) }
    ensures inserters { IfOk result (λ made. All (λ inserter. IsNewSender L.Sender.home L.Sender.job L.Sender.room L.Sender.sent (L.Board.id board.old).lane_table job.now (L.room_of room) inserter.sender) made.1.items) }
    ensures same_board { L.Board.id board.new ≡ L.Board.id board.old }
{
    let (from, inserters) = Linearizer::new(alloc, board, 2, room, job)?;
    let task = Merging::new(alloc, from, to)?;
    Ok((Stepping::new(PipeWork::Merging(task)), inserters))
}

/// The task before the two lanes of a distributor, and the receiving ends of the lanes. The seed says which lanes are drawn.
pub fn distributing<L, J>(
    alloc: Global,
    board: &mut L::Board,
    room: u32,
    job: &J,
    from: L::Receiver,
    seed: u64,
) -> Result<(PipeTask<L, J>, Vec<L::Receiver>), Fault>
where
    L: Tokens + Lanes<Load<<L as Tokens>::Token, J>>,
    J: LoadJob<<L as Tokens>::Token>,
    requires asked { (1 ≤ room) × (room ≤ 65536) }
    requires of_board { (L.Receiver.home from ≡ (L.Board.id board.old).lane_table) × (L.Receiver.job from ≡ job.now) }
    requires tokens { HoldsTokensOf J.holds L.token_home job.now (L.Board.id board.old).group_table }
    requires fresh { L.Receiver.taken from ≡ [] }
    ensures may_poll { IfOk result (λ made. ⟦<PipeTask<L, J> as Task<L::Board>>⟧.can_poll (L.Board.id board.old) made.0) }
    ensures receivers { IfOk result (λ made. All (IsNewReceiver L.Receiver.home L.Receiver.job L.Receiver.taken L.Receiver.is_whole L.Receiver.is_cut (L.Board.id board.old).lane_table job.now) made.1.items) }
    ensures same_board { L.Board.id board.new ≡ L.Board.id board.old }
{
    let rng = Xoshiro256PlusPlus::seed_from_u64(seed);
    let (to, lanes) = distributor_channel(alloc, board, 2, room, job, rng)?;
    let task = Distributing::new(alloc, from, to)?;
    Ok((Stepping::new(PipeWork::Distributing(task)), lanes))
}

/// Sends a load through this end.
pub fn send_through<L, J>(
    end: &mut L::Sender,
    cx: &mut Cx<L::Board>,
    load: LoadOf<L, J>,
) -> SendAnswer
where
    L: Tokens + Lanes<Load<<L as Tokens>::Token, J>>,
    J: LoadJob<<L as Tokens>::Token>,
    requires home { L.Sender.home end.old ≡ (L.Board.id cx.old.board).lane_table }
    requires any { (seen : LoadSeen) → J.suits (L.Sender.job end.old) seen }
    requires token { HoldsTokensOf J.holds L.token_home (L.Sender.job end.old) (L.Board.id cx.old.board).group_table }
    requires token_home { IfSome (held_token load) (λ token. L.token_home token ≡ (L.Board.id cx.old.board).group_table) }
    ensures same_end { (L.Sender.home end.new ≡ L.Sender.home end.old) × (L.Sender.job end.new ≡ L.Sender.job end.old) }
    ensures same_board { L.Board.id cx.new.board ≡ L.Board.id cx.old.board }
{
    SendAnswer::of(end.try_send(cx, load))
}

/// Takes a load, whose token is of the board.
fn take_from<L, J>(
    end: &mut L::Receiver,
    cx: &mut Cx<L::Board>,
    job: &Snapshot<J>,
) -> Result<LoadOf<L, J>, RecvError>
where
    L: Tokens + Lanes<Load<<L as Tokens>::Token, J>>,
    J: LoadJob<<L as Tokens>::Token>,
    requires home { L.Receiver.home end.old ≡ (L.Board.id cx.old.board).lane_table }
    requires same_job { L.Receiver.job end.old ≡ job.now.value }
    requires tokens { HoldsTokensOf J.holds L.token_home job.now.value (L.Board.id cx.old.board).group_table }
    ensures token { IfOk result (λ load. IfSome (held_token load) (λ token. L.token_home token ≡ (L.Board.id cx.old.board).group_table)) }
    ensures same_end { (L.Receiver.home end.new ≡ L.Receiver.home end.old) × (L.Receiver.job end.new ≡ L.Receiver.job end.old) }
    ensures same_board { L.Board.id cx.new.board ≡ L.Board.id cx.old.board }
{
    end.try_recv(cx)
}

/// Takes a load, and keeps it.
pub fn take_into<L, J>(
    end: &mut L::Receiver,
    cx: &mut Cx<L::Board>,
    job: &Snapshot<J>,
    held: &mut Option<LoadOf<L, J>>,
) -> Result<(), RecvError>
where
    L: Tokens + Lanes<Load<<L as Tokens>::Token, J>>,
    J: LoadJob<<L as Tokens>::Token>,
    requires home { L.Receiver.home end.old ≡ (L.Board.id cx.old.board).lane_table }
    requires same_job { L.Receiver.job end.old ≡ job.now.value }
    requires tokens { HoldsTokensOf J.holds L.token_home job.now.value (L.Board.id cx.old.board).group_table }
    requires held { IfSome held.old (λ load. IfSome (held_token load) (λ token. L.token_home token ≡ (L.Board.id cx.old.board).group_table)) }
    ensures held { IfSome held.new (λ load. IfSome (held_token load) (λ token. L.token_home token ≡ (L.Board.id cx.old.board).group_table)) }
    ensures same_end { (L.Receiver.home end.new ≡ L.Receiver.home end.old) × (L.Receiver.job end.new ≡ L.Receiver.job end.old) }
    ensures same_board { L.Board.id cx.new.board ≡ L.Board.id cx.old.board }
{
    let load = take_from::<L, J>(end, cx, job)?;
    keep(held, load);
    Ok(())
}

/// Keeps a value in the place of the one before.
fn keep<T: Drop>(held: &mut Option<T>, value: T)
    ensures { held.new ≡ Some value }
{
    *held = Some(value);
}

/// Releases the load that is held, if there is one, and gives its number.
pub fn consume_held<L, J>(cx: &mut Cx<L::Board>, held: &mut Option<LoadOf<L, J>>) -> Option<u64>
where
    L: Tokens + Lanes<Load<<L as Tokens>::Token, J>>,
    J: LoadJob<<L as Tokens>::Token>,
    requires held { IfSome held.old (λ load. IfSome (held_token load) (λ token. L.token_home token ≡ (L.Board.id cx.old.board).group_table)) }
    ensures none { held.new ≡ None }
    ensures same_board { L.Board.id cx.new.board ≡ L.Board.id cx.old.board }
{
    let mut load = held.take()?;
    release_token::<L, J>(cx, &mut load);
    Some(number_of(&load))
}

/// Releases the token of a load, if it has one.
fn release_token<L, J>(cx: &mut Cx<L::Board>, load: &mut LoadOf<L, J>)
where
    L: Tokens + Lanes<Load<<L as Tokens>::Token, J>>,
    J: LoadJob<<L as Tokens>::Token>,
    requires token { IfSome (held_token load.old) (λ token. L.token_home token ≡ (L.Board.id cx.old.board).group_table) }
    ensures same_board { L.Board.id cx.new.board ≡ L.Board.id cx.old.board }
{
    if let Some(token) = load.take_consume_token() {
        L::release(cx, token);
    }
}

/// The one token of a new group, which is kept.
pub fn token_of<L: Tokens>(
    alloc: Global,
    cx: &mut Cx<L::Board>,
    group: &mut Option<L::Group>,
) -> Result<L::Token, Fault>
    requires group { IfSome group.old (λ one. L.group_home one ≡ (L.Board.id cx.old.board).group_table) }
    ensures token { IfOk result (λ token. L.token_home token ≡ (L.Board.id cx.old.board).group_table) }
    ensures group { IfSome group.new (λ one. L.group_home one ≡ (L.Board.id cx.old.board).group_table) }
    ensures same_board { L.Board.id cx.new.board ≡ L.Board.id cx.old.board }
{
    let mut made = L::group(alloc, &mut cx.board)?;
    let token = L::token(cx, &mut made)?;
    keep(group, made);
    Ok(token)
}

/// Polls a task that has not ended: what it ended with.
pub fn poll_once<B, T>(cx: &mut Cx<B>, slot: &mut Option<T>) -> Option<T::Out>
where
    B: Board,
    T: Task<B> + Drop,
    requires may_poll { IfSome slot.old (T.can_poll (B.id cx.old.board)) }
    ensures again { IfSome slot.new (T.can_poll (B.id cx.old.board)) }
    ensures same_board { B.id cx.new.board ≡ B.id cx.old.board }
{
    let mut task = slot.take()?;
    match task.poll(cx) {
        Poll::Pending => {
            *slot = Some(task);
            None
        }
        Poll::Ready(out) => Some(out),
    }
}
