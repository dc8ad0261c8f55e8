//! Merges lanes by the order of what they carry, the greatest value first.
//!
//! Each lane holds one value, or has ended whole, before a value is given; so where each lane runs from greatest to
//! least, no value that comes later is greater than the one that is given.
ghost use Rattle.std.specs.Prelude.{◌≡◌, ◌<◌, ◌≤◌, true, All, ℕ, List, [], vec_capacity, vec_len};
ghost use Rattle.morsel_merge.specs.Merging.{AreHeldOrWhole};

use crate::ask::{Cause, ask_lanes};
use crate::close::cut_receivers;
use crate::greatest::take_greatest;
use crate::inserter::{Inserter, inserters_of};
use crate::make::{make_lanes, nothing_held};
use morsel_meaning::Fault;
use morsel_prims::{Cx, LaneReceiver, Lanes, Message, Poll, Tokens};
use std::alloc::Global;
use std::snapshot::Snapshot;

/// What a linearizer gives.
#[derive(Clone, Copy, Debug, Drop, PartialEq, Eq)]
pub enum Got<T> {
    /// The greatest value that is held.
    Item(T),
    /// All lanes ended whole, and all was given.
    End,
    /// A lane was cut.
    Cut,
}

/// Merges lanes by the order of what they carry, the greatest value first.
#[derive(Drop)]
pub struct Linearizer<T: Message, M: Tokens + Lanes<T>> {
    /// The receiving ends, in order of lanes.
    pub(crate) receivers: Vec<M::Receiver>,
    /// The value that was taken from each lane, and was not given yet.
    pub(crate) held: Vec<Option<T>>,
    /// The lanes that are to be asked before a value is given: from this one ..
    pub(crate) from: usize,
    /// .. and before this one.
    pub(crate) to: usize,
    /// Whether it has answered that all lanes ended whole.
    pub(crate) ended: bool,
    /// Room for the receipts of all lanes.
    pub(crate) receipts: Vec<<M::Receiver as LaneReceiver<T, M::Board>>::Receipt>,
    /// What the lanes are for.
    pub(crate) job: Snapshot<T::Job>,
    /// The board with which it was made.
    pub(crate) board: Snapshot<M::Board>,
    ghost long: { vec_len held ≡ vec_len receivers },
    ghost within: { (from ≤ to) × (to ≤ vec_len receivers) },
    ghost homes: { All (λ end. M.Receiver.home end ≡ (M.Board.id board.value).lane_table) receivers.items },
    ghost jobs: { All (λ end. M.Receiver.job end ≡ job.value) receivers.items },
    ghost asked: { AreHeldOrWhole M.Receiver.is_whole receivers.items held.items from to },
    ghost empty: { receipts.items ≡ [] },
    ghost room: { vec_len receivers ≤ vec_capacity receipts },
    ghost whole: { ended ≡ true → All (λ end. M.Receiver.is_whole end ≡ true) receivers.items },
}

impl<T: Message + Ord, M: Tokens + Lanes<T>> Linearizer<T, M> {
    ghost use Rattle.std.specs.Prelude.{false, ◌∷◌, ◌++◌, IfErr, IfOk, map, slice_index_or};
    ghost use Rattle.std.specs.List.{flat_map};
    ghost use Rattle.morsel_prims.specs.Polled.{IfReady, OnPending};
    ghost use Rattle.morsel_meaning.specs.declared.fault.Fault.TheVariants.{OutOfMemory};
    ghost use Rattle.morsel_prims.specs.Waiting.{KeepsOthersWaiting, KeepsWaiting, SameWaiting};
    ghost use Rattle.morsel_prims.specs.Woken.{AreFoundWoken, KeepsWakes};
    ghost use Rattle.morsel_merge.specs.Boards.{OnEarlierEnd, OnLaterEnd};
    ghost use Rattle.morsel_merge.specs.Spread.{AreFoundEach};
    ghost use Rattle.morsel_merge.specs.Ends.{IsNewSender, receiver_seen};
    ghost use Rattle.morsel_merge.specs.Got.{IfItem, got_list};
    ghost use Rattle.morsel_merge.specs.Merging.{AreNone, IsMerged, IsMerging, IsNextCut};
    ghost use Rattle.morsel_merge.specs.declared.linearizer.Got.TheVariants.{Cut, End};

    /// Lanes for this job, with room for `buffer` values each: what merges them, and their sending ends.
    pub fn new(
        alloc: Global,
        board: &mut M::Board,
        inserters: u32,
        buffer: u32,
        job: &T::Job,
    ) -> Result<(Linearizer<T, M>, Vec<Inserter<T, M>>), Fault>
        requires inserters { (1 ≤ inserters) × (inserters ≤ 32768) }
        requires buffer { (1 ≤ buffer) × (buffer ≤ 65536) }
        ensures home { IfOk result (λ made. M.Board.id made.0.board.value ≡ M.Board.id board.old) }
        ensures job { IfOk result (λ made. made.0.job.value ≡ job.now) }
        ensures begins { IfOk result (λ made. IsMerging T.cmp (T.suits job.now) (map M.Receiver.taken made.0.receivers.items) made.0.held.items made.0.from made.0.to []) }
        ensures len { IfOk result (λ made. (vec_len made.0.receivers ≡ inserters) × (vec_len made.1 ≡ inserters)) }
        ensures lanes { IfOk result (λ made. map (λ inserter. M.Sender.lane inserter.sender) made.1.items ≡ map M.Receiver.lane made.0.receivers.items) }
        ensures inserters { IfOk result (λ made. All (λ inserter. IsNewSender M.Sender.home M.Sender.job M.Sender.room M.Sender.sent (M.Board.id board.old).lane_table job.now (M.room_of buffer) inserter.sender) made.1.items) }
        ensures unended { IfOk result (λ made. All (λ end. (M.Receiver.is_whole end ≡ false) × (M.Receiver.is_cut end ≡ false)) made.0.receivers.items) }
        ensures out_of_memory { IfErr result (λ fault. fault ≡ OutOfMemory) }
        ensures same_waiting { SameWaiting (M.Board.waits_at board.old) (M.Board.waits_at board.new) }
        ensures same_board { M.Board.id board.new ≡ M.Board.id board.old }
    {
        let count = inserters as usize;
        let receipts = Vec::with_capacity(alloc, count)?;
        let held = nothing_held(alloc, count)?;
        let (senders, receivers) = make_lanes::<T, M>(alloc, board, inserters, buffer, job)?;
        let inserters = inserters_of(alloc, senders)?;
        let linearizer = Linearizer {
            receivers,
            held,
            from: 0,
            to: count,
            ended: false,
            receipts,
            job: Snapshot::of(job),
            board: Snapshot::of(board),
        };
        Ok((linearizer, inserters))
    }

    /// What was taken from each lane, and that it is all, in order of lanes.
    pub fn receipts(self) -> Vec<<M::Receiver as LaneReceiver<T, M::Board>>::Receipt>
        requires ended { self.ended ≡ true }
        ensures lanes { map M.Receiver.receipt_lane result.items ≡ map M.Receiver.lane self.receivers.items }
        ensures homes { map M.Receiver.receipt_home result.items ≡ map M.Receiver.home self.receivers.items }
        ensures taken { map M.Receiver.all_taken result.items ≡ map M.Receiver.taken self.receivers.items }
    {
        let Linearizer {
            receivers,
            mut receipts,
            ..
        } = self;
        for receiver in receivers {
            receipts.push_reserved(receiver.receipt());
        }
        receipts
    }

    /// Closes all lanes before their ends. What is held, and what was sent and not taken, is not given.
    pub fn cut(self, cx: &mut Cx<M::Board>)
        requires home { (M.Board.id self.board.value).lane_table ≡ (M.Board.id cx.old.board).lane_table }
        ensures cut { All (λ end. OnEarlierEnd M.Board.waits_at cx.new.board cx.new.wakes (λ board. M.Receiver.has_cut board end)) self.receivers.items }
        ensures woken { AreFoundWoken (AreFoundEach (λ end left tasks. OnLaterEnd M.Board.waits_at cx.old.board (λ board. M.Receiver.found_waiting_cut board end tasks)) self.receivers.items self.receivers.items) cx.new.wakes }
        ensures keeps_waiting { KeepsWaiting (M.Board.waits_at cx.old.board) (M.Board.waits_at cx.new.board) cx.new.wakes }
        ensures same_board { M.Board.id cx.new.board ≡ M.Board.id cx.old.board }
        ensures same_task { cx.new.me ≡ cx.old.me }
        ensures wakes { KeepsWakes cx.old.wakes cx.new.wakes }
    {
        let Linearizer { receivers, .. } = self;
        cut_receivers(receivers, cx);
    }

    /// Gives the greatest value that is held, once each lane holds one or has ended whole; or registers who polls at a
    /// lane that has none yet.
    pub fn poll_get(&mut self, cx: &mut Cx<M::Board>) -> Poll<Got<T>>
        requires home { (M.Board.id self.old.board.value).lane_table ≡ (M.Board.id cx.old.board).lane_table }
        ensures same_home { self.new.board ≡ self.old.board }
        ensures same_job { self.new.job ≡ self.old.job }
        ensures seen { map (receiver_seen M.Receiver.home M.Receiver.lane M.Receiver.job M.Receiver.wait_places) self.new.receivers.items ≡ map (receiver_seen M.Receiver.home M.Receiver.lane M.Receiver.job M.Receiver.wait_places) self.old.receivers.items }
        // What was given before, and then this, is what was given.
        ensures merging { (given : List T) → IsMerging T.cmp (T.suits self.old.job.value) (map M.Receiver.taken self.old.receivers.items) self.old.held.items self.old.from self.old.to given → IsMerging T.cmp (T.suits self.old.job.value) (map M.Receiver.taken self.new.receivers.items) self.new.held.items self.new.from self.new.to (given ++ got_list result) }
        ensures suits { (given : List T) → IsMerging T.cmp (T.suits self.old.job.value) (map M.Receiver.taken self.old.receivers.items) self.old.held.items self.old.from self.old.to given → IfItem result (T.suits self.old.job.value) }
        ensures merged { IfReady result (λ got. got ≡ End → (given : List T) → IsMerging T.cmp (T.suits self.old.job.value) (map M.Receiver.taken self.old.receivers.items) self.old.held.items self.old.from self.old.to given → IsMerged T.cmp (map M.Receiver.taken self.new.receivers.items) given) }
        ensures whole { IfReady result (λ got. got ≡ End → All (λ end. M.Receiver.is_whole end ≡ true) self.new.receivers.items) }
        ensures ended { IfReady result (λ got. got ≡ End → self.new.ended ≡ true) }
        ensures cut { IfReady result (λ got. got ≡ Cut → IsNextCut M.Receiver.is_cut self.new.receivers.items self.new.from self.new.to) }
        ensures found_cut { IfReady result (λ got. got ≡ Cut → (d : M.Receiver) → M.Receiver.found_ended cx.new.board (slice_index_or self.new.receivers.items self.new.from d) false) }
        // The answer that stays.
        ensures again { IsNextCut M.Receiver.is_cut self.old.receivers.items self.old.from self.old.to → result ≡ Poll.Ready Cut }
        ensures empty { OnPending result ((d : M.Receiver) → M.Receiver.found_empty cx.new.board (slice_index_or self.old.receivers.items self.new.from d) (slice_index_or self.new.receivers.items self.new.from d)) }
        ensures registered { OnPending result ((d : M.Receiver) → M.Receiver.registered cx.new.board (slice_index_or self.old.receivers.items self.new.from d) (slice_index_or self.new.receivers.items self.new.from d) cx.old.me) }
        ensures keeps_waiting { KeepsOthersWaiting (flat_map M.Receiver.wait_places self.old.receivers.items) cx.old.me (M.Board.waits_at cx.old.board) (M.Board.waits_at cx.new.board) cx.new.wakes }
        ensures same_board { M.Board.id cx.new.board ≡ M.Board.id cx.old.board }
        ensures same_task { cx.new.me ≡ cx.old.me }
        ensures wakes { KeepsWakes cx.old.wakes cx.new.wakes }
    {
        self.ended = false;
        let stop = ask_lanes(
            &mut self.receivers,
            &mut self.held,
            &self.job,
            self.from,
            self.to,
            cx,
        );
        self.from = stop.lane;
        match stop.cause {
            Cause::Empty => Poll::Pending,
            Cause::Cut => Poll::Ready(Got::Cut),
            Cause::Asked => Poll::Ready(self.give()),
        }
    }

    /// Gives the greatest value that is held, where no lane is to be asked.
    fn give(&mut self) -> Got<T>
        requires asked { self.old.from ≡ self.old.to }
        requires unended { self.old.ended ≡ false }
        ensures same_home { self.new.board ≡ self.old.board }
        ensures same_job { self.new.job ≡ self.old.job }
        ensures same_receivers { self.new.receivers ≡ self.old.receivers }
        ensures merging { (given : List T) → IsMerging T.cmp (T.suits self.old.job.value) (map M.Receiver.taken self.old.receivers.items) self.old.held.items self.old.from self.old.to given → IsMerging T.cmp (T.suits self.old.job.value) (map M.Receiver.taken self.old.receivers.items) self.new.held.items self.new.from self.new.to (given ++ got_list (Poll.Ready result)) }
        ensures suits { (given : List T) → IsMerging T.cmp (T.suits self.old.job.value) (map M.Receiver.taken self.old.receivers.items) self.old.held.items self.old.from self.old.to given → IfItem (Poll.Ready result) (T.suits self.old.job.value) }
        ensures none { result ≡ End → AreNone self.old.held.items }
        ensures whole { result ≡ End → All (λ end. M.Receiver.is_whole end ≡ true) self.old.receivers.items }
        ensures ended { result ≡ End → self.new.ended ≡ true }
        ensures uncut { result ≡ Cut → ⊥ }
    {
        let Some((lane, value)) = take_greatest(&mut self.held) else {
            self.ended = true;
            return Got::End;
        };
        self.from = lane;
        self.to = lane + 1;
        Got::Item(value)
    }
}
