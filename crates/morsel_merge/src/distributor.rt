//! Spreads what one sender sends over several lanes.
//!
//! A value is offered first to the lane that is next in turn, or to a shorter one among some that are drawn, and then to
//! all lanes. It goes into one of them. Where none takes it and one is full, who polls is registered at each lane that
//! is full.
ghost use Rattle.std.specs.Prelude.{◌≡◌, ◌<◌, ◌≤◌, All, List, [], map, vec_capacity, vec_len, IfOk, IfErr};
ghost use Rattle.morsel_meaning.specs.declared.fault.Fault.TheVariants.{OutOfMemory};
ghost use Rattle.morsel_prims.specs.Waiting.{SameWaiting};
ghost use Rattle.morsel_merge.specs.Ends.{IsNewReceiver, IsNewSender};
ghost use Rattle.morsel_merge.specs.Spread.{AreSent, sent_values};

use crate::choose::try_lanes;
use crate::close::{cut_lanes, finish_lanes};
use crate::held::held_bound;
use crate::log::Log;
use crate::make::make_lanes;
use crate::spread::Sent;
use crate::wait::poll_lanes;
use morsel_meaning::Fault;
use morsel_prims::{Cx, LaneSender, Lanes, Message, Poll, SendError, Tokens};
use rand_core::Rng;
use std::alloc::Global;
use std::snapshot::Snapshot;

/// Spreads what is sent over several lanes.
#[derive(Drop)]
pub struct DistSender<T: Message, M: Tokens + Lanes<T>, R> {
    /// The sending ends, in order of lanes.
    pub(crate) lanes: Vec<M::Sender>,
    /// What was sent, and through which lane.
    pub(crate) log: Log<Sent<T>>,
    /// The lane that was last in turn.
    pub(crate) last: usize,
    /// Draws lanes.
    pub(crate) rng: R,
    /// Room for the receipts of all lanes.
    pub(crate) receipts: Vec<<M::Sender as LaneSender<T, M::Board>>::Receipt>,
    /// What the lanes are for.
    pub(crate) job: Snapshot<T::Job>,
    /// The board with which it was made.
    pub(crate) board: Snapshot<M::Board>,
    ghost within: { last < vec_len lanes },
    ghost few: { vec_len lanes ≤ 32768 },
    ghost homes: { All (λ end. M.Sender.home end ≡ (M.Board.id board.value).lane_table) lanes.items },
    ghost jobs: { All (λ end. M.Sender.job end ≡ job.value) lanes.items },
    ghost rooms: { All (λ end. M.Sender.room end ≤ 65536) lanes.items },
    ghost sent: { AreSent (map M.Sender.sent lanes.items) log.seat.me.0 },
    ghost empty: { receipts.items ≡ [] },
    ghost room: { vec_len lanes ≤ vec_capacity receipts },
}

/// Tells that all lanes of a distributor were finished, and what was sent through them.
#[derive(Drop)]
pub struct DistSent<T: Message, M: Tokens + Lanes<T>> {
    /// The receipts of the lanes, in order.
    pub(crate) receipts: Vec<<M::Sender as LaneSender<T, M::Board>>::Receipt>,
    /// What was sent, and through which lane.
    pub(crate) log: Log<Sent<T>>,
    /// The board with which it was made.
    pub(crate) board: Snapshot<M::Board>,
    ghost sent: { AreSent (map M.Sender.all_sent receipts.items) log.seat.me.0 },
}

impl<T: Message, M: Tokens + Lanes<T>> DistSent<T, M> {
    ghost use Rattle.morsel_merge.specs.Merging.{AreSpread};

    /// The receipts of the lanes, in order.
    pub fn receipts(self) -> Vec<<M::Sender as LaneSender<T, M::Board>>::Receipt>
        ensures same { result ≡ self.receipts }
        ensures spread { AreSpread (map M.Sender.all_sent result.items) (sent_values self.log.seat.me.0) }
    {
        let DistSent { receipts, .. } = self;
        receipts
    }
}

impl<T, M, R> LaneSender<T, M::Board> for DistSender<T, M, R>
where
    T: Message,
    M: Tokens + Lanes<T>,
    R: Rng + Drop,
{
    ghost use Rattle.std.specs.Prelude.{sum};
    ghost use Rattle.std.specs.List.{flat_map};
    ghost use Rattle.morsel_prims.specs.Woken.{Woken};
    ghost use Rattle.morsel_merge.specs.Boards.{OnEarlier, OnEarlierEnd, OnLater, OnLaterEnd};
    ghost use Rattle.morsel_merge.specs.Ends.{sender_seen};
    ghost use Rattle.morsel_merge.specs.Spread.{AreFoundEach, AreFull, AreHeld, AreSameLanes, EachLane, IsAwaited, IsFoundLast, IsLook, LastLane, SomeLane};

    type Receipt = DistSent<T, M>;

    ghost home = { λ end. (M.Board.id end.board.value).lane_table };

    ghost lane = { λ end. record { table = end.log.seat.table_id; place = 0 } };

    ghost room = { λ end. sum (map M.Sender.room end.lanes.items) };

    ghost job = { λ end. end.job.value };

    ghost sent = { λ end. sent_values end.log.seat.me.0 };

    ghost wait_places = { λ end. flat_map M.Sender.wait_places end.lanes.items };

    ghost registered = { λ board old new task. LastLane (λ lane lane'. IsAwaited (IsLook M.Sender.found_held M.Sender.found_full M.Sender.found_closed) M.Sender.found_full M.Sender.found_closed M.Sender.registered task lane lane' board) old.lanes.items new.lanes.items × (wakes : Woken) × EachLane (λ lane lane'. OnEarlier M.Board.waits_at (flat_map M.Sender.wait_places old.lanes.items) task board wakes (IsAwaited (IsLook M.Sender.found_held M.Sender.found_full M.Sender.found_closed) M.Sender.found_full M.Sender.found_closed M.Sender.registered task lane lane')) old.lanes.items new.lanes.items };

    ghost found_waiting = { λ board old new tasks. OnLater M.Board.waits_at (flat_map M.Sender.wait_places old.lanes.items) board (λ mid. SomeLane (IsFoundLast (IsLook M.Sender.found_held M.Sender.found_full M.Sender.found_closed) (λ lane lane'. M.Sender.found_waiting mid lane lane' tasks)) old.lanes.items new.lanes.items) };

    ghost found_room = { λ board old new. AreSameLanes (sender_seen M.Sender.home M.Sender.lane M.Sender.room M.Sender.job M.Sender.wait_places) old.lanes.items new.lanes.items × SomeLane (IsFoundLast (IsLook M.Sender.found_held M.Sender.found_full M.Sender.found_closed) (M.Sender.found_room board)) old.lanes.items new.lanes.items };

    ghost found_full = { λ board old new. AreSameLanes (sender_seen M.Sender.home M.Sender.lane M.Sender.room M.Sender.job M.Sender.wait_places) old.lanes.items new.lanes.items × AreFull (IsLook M.Sender.found_held M.Sender.found_full M.Sender.found_closed) (M.Sender.found_full board) (M.Sender.found_closed board) old.lanes.items new.lanes.items };

    ghost found_closed = { λ board old new. AreSameLanes (sender_seen M.Sender.home M.Sender.lane M.Sender.room M.Sender.job M.Sender.wait_places) old.lanes.items new.lanes.items × EachLane (IsFoundLast (IsLook M.Sender.found_held M.Sender.found_full M.Sender.found_closed) (M.Sender.found_closed board)) old.lanes.items new.lanes.items };

    ghost found_held = { λ board old new count. AreSameLanes (sender_seen M.Sender.home M.Sender.lane M.Sender.room M.Sender.job M.Sender.wait_places) old.lanes.items new.lanes.items × AreHeld (M.Sender.found_held board) old.lanes.items new.lanes.items count };

    ghost has_cut = { λ board end. (wakes : Woken) × All (λ lane. OnEarlierEnd M.Board.waits_at board wakes (λ mid. M.Sender.has_cut mid lane)) end.lanes.items };

    ghost found_waiting_cut = { λ board end tasks. AreFoundEach (λ lane left own. OnLaterEnd M.Board.waits_at board (λ mid. M.Sender.found_waiting_cut mid lane own)) end.lanes.items end.lanes.items tasks };

    ghost receipt_home = { λ sent. (M.Board.id sent.board.value).lane_table };

    ghost receipt_lane = { λ sent. record { table = sent.log.seat.table_id; place = 0 } };

    ghost all_sent = { λ sent. sent_values sent.log.seat.me.0 };

    ghost has_finished = { λ board sent. (wakes : Woken) × All (λ receipt. OnEarlierEnd M.Board.waits_at board wakes (λ mid. M.Sender.has_finished mid receipt)) sent.receipts.items };

    ghost found_waiting_finish = { λ board end sent tasks. (map M.Sender.receipt_lane sent.receipts.items ≡ map M.Sender.lane end.lanes.items) × (map M.Sender.receipt_home sent.receipts.items ≡ map M.Sender.home end.lanes.items) × (map M.Sender.all_sent sent.receipts.items ≡ map M.Sender.sent end.lanes.items) × AreFoundEach (λ lane receipt own. OnLaterEnd M.Board.waits_at board (λ mid. M.Sender.found_waiting_finish mid lane receipt own)) end.lanes.items sent.receipts.items tasks };

    fn poll_send(&mut self, cx: &mut Cx<M::Board>, value: &mut Option<T>) -> Poll<Result<(), T>> {
        let Some(held) = value.take() else {
            unreachable!()
        };
        self.last = next_in_turn(self.last, self.lanes.len());
        match poll_lanes(
            &mut self.lanes,
            &mut self.log,
            &self.job,
            self.last,
            &mut self.rng,
            cx,
            held,
        ) {
            Ok(()) => Poll::Ready(Ok(())),
            Err(SendError::Closed(held)) => Poll::Ready(Err(held)),
            Err(SendError::Full(held)) => {
                *value = Some(held);
                Poll::Pending
            }
        }
    }

    fn try_send(&mut self, cx: &mut Cx<M::Board>, value: T) -> Result<(), SendError<T>> {
        self.last = next_in_turn(self.last, self.lanes.len());
        try_lanes(
            &mut self.lanes,
            &mut self.log,
            &self.job,
            self.last,
            &mut self.rng,
            cx,
            value,
        )
    }

    fn len_bound(&mut self, cx: &mut Cx<M::Board>) -> u32 {
        held_bound(&mut self.lanes, cx)
    }

    fn finish(self, cx: &mut Cx<M::Board>) -> DistSent<T, M> {
        let DistSender {
            lanes,
            log,
            receipts,
            board,
            ..
        } = self;
        let receipts = finish_lanes(lanes, receipts, cx);
        DistSent {
            receipts,
            log,
            board,
        }
    }

    fn cut(self, cx: &mut Cx<M::Board>) {
        let DistSender { lanes, .. } = self;
        cut_lanes(lanes, cx);
    }
}

/// The lane that is next in turn, of so many.
fn next_in_turn(last: usize, count: usize) -> usize
    requires within { last < count }
    ensures within { result < count }
{
    let next = last + 1;
    if next < count { next } else { 0 }
}

/// So many lanes for this job, each with room for `bufsize` values: what sends through them, and their receiving ends.
pub fn distributor_channel<T: Message, M: Tokens + Lanes<T>, R: Rng + Drop>(
    alloc: Global,
    board: &mut M::Board,
    receivers: u32,
    bufsize: u32,
    job: &T::Job,
    rng: R,
) -> Result<(DistSender<T, M, R>, Vec<M::Receiver>), Fault>
    requires receivers { (1 ≤ receivers) × (receivers ≤ 32768) }
    requires bufsize { (1 ≤ bufsize) × (bufsize ≤ 65536) }
    ensures home { IfOk result (λ made. M.Board.id made.0.board.value ≡ M.Board.id board.old) }
    ensures job { IfOk result (λ made. made.0.job.value ≡ job.now) }
    ensures empty { IfOk result (λ made. sent_values made.0.log.seat.me.0 ≡ []) }
    ensures len { IfOk result (λ made. (vec_len made.0.lanes ≡ receivers) × (vec_len made.1 ≡ receivers)) }
    ensures lanes { IfOk result (λ made. map M.Sender.lane made.0.lanes.items ≡ map M.Receiver.lane made.1.items) }
    ensures senders { IfOk result (λ made. All (IsNewSender M.Sender.home M.Sender.job M.Sender.room M.Sender.sent (M.Board.id board.old).lane_table job.now (M.room_of bufsize)) made.0.lanes.items) }
    ensures receivers { IfOk result (λ made. All (IsNewReceiver M.Receiver.home M.Receiver.job M.Receiver.taken M.Receiver.is_whole M.Receiver.is_cut (M.Board.id board.old).lane_table job.now) made.1.items) }
    ensures out_of_memory { IfErr result (λ fault. fault ≡ OutOfMemory) }
    ensures same_waiting { SameWaiting (M.Board.waits_at board.old) (M.Board.waits_at board.new) }
    ensures same_board { M.Board.id board.new ≡ M.Board.id board.old }
{
    let receipts = Vec::with_capacity(alloc, receivers as usize)?;
    let log = Log::new(alloc)?;
    let (lanes, receivers) = make_lanes::<T, M>(alloc, board, receivers, bufsize, job)?;
    let sender = DistSender {
        lanes,
        log,
        last: 0,
        rng,
        receipts,
        job: Snapshot::of(job),
        board: Snapshot::of(board),
    };
    Ok((sender, receivers))
}
