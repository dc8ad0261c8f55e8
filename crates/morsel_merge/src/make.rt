//! Makes several lanes at once.
ghost use Rattle.std.specs.Prelude.{◌≡◌, ◌≤◌, All, map, vec_len, IfOk, IfErr};
ghost use Rattle.morsel_meaning.specs.declared.fault.Fault.TheVariants.{OutOfMemory};
ghost use Rattle.morsel_prims.specs.Waiting.{SameWaiting};
ghost use Rattle.morsel_merge.specs.Ends.{IsNewReceiver, IsNewSender};
ghost use Rattle.morsel_merge.specs.Merging.{AreNone};

use morsel_meaning::Fault;
use morsel_prims::{Lanes, Message, Tokens};
use std::alloc::Global;

/// So many lanes for this job, each with the room that is asked for: their sending and their receiving ends.
pub fn make_lanes<T: Message, M: Tokens + Lanes<T>>(
    alloc: Global,
    board: &mut M::Board,
    count: u32,
    asked: u32,
    job: &T::Job,
) -> Result<(Vec<M::Sender>, Vec<M::Receiver>), Fault>
    requires asked { (1 ≤ asked) × (asked ≤ 65536) }
    ensures len { IfOk result (λ made. (vec_len made.0 ≡ count) × (vec_len made.1 ≡ count)) }
    ensures lanes { IfOk result (λ made. map M.Sender.lane made.0.items ≡ map M.Receiver.lane made.1.items) }
    ensures senders { IfOk result (λ made. All (IsNewSender M.Sender.home M.Sender.job M.Sender.room M.Sender.sent (M.Board.id board.old).lane_table job.now (M.room_of asked)) made.0.items) }
    ensures receivers { IfOk result (λ made. All (IsNewReceiver M.Receiver.home M.Receiver.job M.Receiver.taken M.Receiver.is_whole M.Receiver.is_cut (M.Board.id board.old).lane_table job.now) made.1.items) }
    ensures rooms { IfOk result (λ made. All (λ end. M.Sender.room end ≤ asked) made.0.items) }
    ensures out_of_memory { IfErr result (λ fault. fault ≡ OutOfMemory) }
    ensures same_waiting { SameWaiting (M.Board.waits_at board.old) (M.Board.waits_at board.new) }
    ensures same_board { M.Board.id board.new ≡ M.Board.id board.old }
{
    let mut senders = Vec::with_capacity(alloc, count as usize)?;
    let mut receivers = Vec::with_capacity(alloc, count as usize)?;
    'lanes: for _ in 0..count {
        let (sender, receiver) = M::lane(alloc, board, asked, job)?;
        senders.push_reserved(sender);
        receivers.push_reserved(receiver);
    }
    Ok((senders, receivers))
}

/// So many places, each of which holds nothing.
pub fn nothing_held<T: Drop>(alloc: Global, count: usize) -> Result<Vec<Option<T>>, Fault>
    ensures len { IfOk result (λ held. vec_len held ≡ count) }
    ensures none { IfOk result (λ held. AreNone held.items) }
    ensures out_of_memory { IfErr result (λ fault. fault ≡ OutOfMemory) }
{
    let mut held = Vec::with_capacity(alloc, count)?;
    'places: for _ in 0..count {
        held.push_reserved(None);
    }
    Ok(held)
}
