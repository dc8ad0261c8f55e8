//! The queues of the lanes of one thread.
ghost use Rattle.std.specs.Prelude.{◌≡◌, ℕ, ◌*◌, ◌≤◌, true, false, [], ◌∷◌, ◌++◌, length, slice_get, None, Some, IfOk, OnOk, OnErr, IfErr, IfSome, IsNone, ◌+◌, if◌then◌else◌};
ghost use Rattle.morsel_meaning.specs.declared.fault.Fault.TheVariants.{OutOfMemory};
ghost use Rattle.morsel_prims.specs.Marks.{ArePlainLanes, AreFor, HasRoom, IsEmptyLane, IsFullLane, IsNewRow, IsShutLane, OnlyLane, WaitsToSend, WaitsToTake, are_sendable, is_shut, is_unclosed, lane_end, lane_job, lane_room, lane_values, recv_waits_of, send_waits_of, sent_row};
ghost use Rattle.morsel_prims.specs.Polled.{LaneHistory, refused_value, IfFull, IfClosed};
ghost use Rattle.morsel_prims.specs.declared.lane.RecvError.{RecvError};
ghost use Rattle.morsel_prims.specs.Rows.{place_of_row, list_of_row};
ghost use Rattle.morsel_prims.specs.declared.plain_item.Mark.TheVariants.{Value, End, Shut};
ghost use Rattle.morsel_prims.specs.declared.plain_item.PlainLane.{PlainLane};

use crate::lane::{Message, RecvError, SendError};
use crate::plain_item::{Mark, PlainLane, Suited};
use crate::roll::{Roll, RollRow};
use circular_buffer::HeapCircularBuffer;
use morsel_meaning::{Fault, TaskNo};
use std::alloc::Global;
use std::snapshot::Snapshot;

/// What an end wrote.
pub type QueueRow<T> = RollRow<Mark<Suited<T>, <T as Message>::Job>>;

/// The queues of all lanes of one thread.
#[derive(Drop)]
pub struct PlainQueues<T: Message> {
    /// What the ends wrote: rows 2i and 2i + 1 are those of lane i.
    pub(crate) roll: Roll<Mark<Suited<T>, T::Job>>,
    /// The queue of each lane, and who waits there.
    pub(crate) lanes: Vec<PlainLane<Suited<T>, T::Job>>,
    ghost kept: { ArePlainLanes roll.seat.me.0.rows lanes.items },
}

impl<T: Message> PlainQueues<T> {
    /// No lanes.
    pub fn new(alloc: Global) -> Result<PlainQueues<T>, Fault>
        ensures empty { IfOk result (λ queues. (queues.roll.seat.me.0.rows ≡ []) × (queues.lanes.items ≡ [])) }
        ensures out_of_memory { IfErr result (λ fault. fault ≡ OutOfMemory) }
    {
        let roll = Roll::new(alloc)?;
        Ok(PlainQueues {
            roll,
            lanes: Vec::new(alloc),
        })
    }

    /// One more lane: which it is, and the rows of its two ends.
    pub fn add(
        &mut self,
        alloc: Global,
        room: u32,
        job: &T::Job,
    ) -> Result<(usize, QueueRow<T>, QueueRow<T>), Fault>
        requires room { room ≤ 65536 }
        ensures same_table { self.new.roll.seat.table_id ≡ self.old.roll.seat.table_id }
        ensures table { IfOk result (λ made. (made.1.badge.table_id ≡ self.old.roll.seat.table_id) × (made.2.badge.table_id ≡ self.old.roll.seat.table_id)) }
        ensures place { IfOk result (λ made. (place_of_row made.1.badge.views ≡ 2 * made.0) × (place_of_row made.2.badge.views ≡ 2 * made.0 + 1)) }
        ensures rows { IfOk result (λ made. IsNewRow job.now room (list_of_row made.1.badge.views) × IsNewRow job.now room (list_of_row made.2.badge.views)) }
        ensures last { IfOk result (λ made. made.0 ≡ length self.old.lanes.items) }
        ensures nobody { IfOk result (λ made. (send_waits_of (slice_get self.new.lanes.items made.0) ≡ None) × (recv_waits_of (slice_get self.new.lanes.items made.0) ≡ None)) }
        ensures others { IfOk result (λ made. OnlyLane made.0 self.old.lanes.items self.new.lanes.items) }
        ensures out_of_memory { IfErr result (λ fault. fault ≡ OutOfMemory) }
        ensures err { OnErr result ((self.new.lanes.items ≡ self.old.lanes.items) × (self.new.roll.seat.me.0.rows ≡ self.old.roll.seat.me.0.rows)) }
    {
        // What wants memory comes first.
        let queue = HeapCircularBuffer::with_capacity(alloc, room as usize + 1)?;
        self.lanes.reserve(1)?;
        let PlainQueues { roll, lanes } = self;
        let index = lanes.len();
        let mark = Mark::Job(Snapshot::of(job), room);
        let sent = roll.begin(&mark);
        let taken = roll.begin(&mark);
        lanes.push_reserved(PlainLane {
            queue,
            room,
            shut: false,
            send_waits: None,
            recv_waits: None,
        });
        Ok((index, sent, taken))
    }

    /// The lane takes the value, if it has room. The task that waits for it is handed out.
    pub fn send(
        &mut self,
        index: usize,
        mine: &mut QueueRow<T>,
        value: Suited<T>,
    ) -> Result<Option<TaskNo>, SendError<Suited<T>>>
        requires table { mine.old.badge.table_id ≡ self.old.roll.seat.table_id }
        requires place { place_of_row mine.old.badge.views ≡ 2 * index }
        requires unclosed { is_unclosed (list_of_row mine.old.badge.views) ≡ true }
        requires job { lane_job (list_of_row mine.old.badge.views) ≡ Some value.1 }
        ensures table { (self.new.roll.seat.table_id ≡ self.old.roll.seat.table_id) × (mine.new.badge.table_id ≡ mine.old.badge.table_id) × (place_of_row mine.new.badge.views ≡ place_of_row mine.old.badge.views) }
        ensures sent { OnOk result (list_of_row mine.new.badge.views ≡ list_of_row mine.old.badge.views ++ Value value ∷ []) }
        ensures room { OnOk result (HasRoom (slice_get self.new.lanes.items index)) }
        ensures woken { IfOk result (λ task. task ≡ recv_waits_of (slice_get self.old.lanes.items index)) }
        ensures nobody { OnOk result (recv_waits_of (slice_get self.new.lanes.items index) ≡ None) }
        ensures same_waits { OnOk result (send_waits_of (slice_get self.new.lanes.items index) ≡ send_waits_of (slice_get self.old.lanes.items index)) }
        ensures others { OnlyLane index self.old.lanes.items self.new.lanes.items }
        ensures err { OnErr result (list_of_row mine.new.badge.views ≡ list_of_row mine.old.badge.views) }
        ensures same_lanes { OnErr result (self.new.lanes.items ≡ self.old.lanes.items) }
        ensures same_rows { OnErr result (self.new.roll.seat.me.0.rows ≡ self.old.roll.seat.me.0.rows) }
        ensures back { IfErr result (λ refused. refused_value refused ≡ value) }
        ensures full { IfErr result (λ refused. IfFull refused (IsFullLane (slice_get self.new.lanes.items index))) }
        ensures closed { IfErr result (λ refused. IfClosed refused (IsShutLane (slice_get self.new.lanes.items index))) }
    {
        let PlainQueues { roll, lanes } = self;
        roll.look(mine);
        let lane = &lanes[index];
        if lane.shut {
            return Err(SendError::Closed(value));
        }
        if lane.queue.len() >= lane.room as usize {
            return Err(SendError::Full(value));
        }
        let mark = Mark::Value(value);
        roll.write(mine, &mark);
        let lane = &mut lanes[index];
        let _ = lane.queue.push_back(mark);
        Ok(lane.recv_waits.take())
    }

    /// The sender closes the lane. The task that waits for it is handed out.
    pub fn close(&mut self, index: usize, mine: &mut QueueRow<T>, whole: bool) -> Option<TaskNo>
        requires table { mine.old.badge.table_id ≡ self.old.roll.seat.table_id }
        requires place { place_of_row mine.old.badge.views ≡ 2 * index }
        requires unclosed { is_unclosed (list_of_row mine.old.badge.views) ≡ true }
        ensures table { (self.new.roll.seat.table_id ≡ self.old.roll.seat.table_id) × (mine.new.badge.table_id ≡ mine.old.badge.table_id) × (place_of_row mine.new.badge.views ≡ place_of_row mine.old.badge.views) }
        ensures ended { list_of_row mine.new.badge.views ≡ list_of_row mine.old.badge.views ++ End whole ∷ [] }
        ensures row { sent_row self.new.roll.seat.me.0.rows index ≡ list_of_row mine.new.badge.views }
        ensures woken { result ≡ recv_waits_of (slice_get self.old.lanes.items index) }
        ensures nobody { recv_waits_of (slice_get self.new.lanes.items index) ≡ None }
        ensures same_waits { send_waits_of (slice_get self.new.lanes.items index) ≡ send_waits_of (slice_get self.old.lanes.items index) }
        ensures others { OnlyLane index self.old.lanes.items self.new.lanes.items }
    {
        let PlainQueues { roll, lanes } = self;
        let mark = Mark::End(whole);
        roll.write(mine, &mark);
        let lane = &mut lanes[index];
        let _ = lane.queue.push_back(mark);
        lane.recv_waits.take()
    }

    /// Takes what comes first. The task that waits for room is handed out.
    pub fn take(
        &mut self,
        index: usize,
        mine: &mut QueueRow<T>,
    ) -> Option<(Mark<Suited<T>, T::Job>, Option<TaskNo>)>
        requires table { mine.old.badge.table_id ≡ self.old.roll.seat.table_id }
        requires place { place_of_row mine.old.badge.views ≡ 2 * index + 1 }
        requires unshut { is_shut (list_of_row mine.old.badge.views) ≡ false }
        ensures table { (self.new.roll.seat.table_id ≡ self.old.roll.seat.table_id) × (mine.new.badge.table_id ≡ mine.old.badge.table_id) × (place_of_row mine.new.badge.views ≡ place_of_row mine.old.badge.views) }
        ensures taken { IfSome result (λ taken. list_of_row mine.new.badge.views ≡ list_of_row mine.old.badge.views ++ taken.0 ∷ []) }
        ensures sendable { IfSome result (λ taken. are_sendable (taken.0 ∷ []) ≡ true) }
        ensures job { IfSome result (λ taken. (job : _) → lane_job (list_of_row mine.old.badge.views) ≡ Some job → AreFor job (taken.0 ∷ [])) }
        ensures woken { IfSome result (λ taken. taken.1 ≡ send_waits_of (slice_get self.old.lanes.items index)) }
        ensures nobody { IfSome result (λ taken. send_waits_of (slice_get self.new.lanes.items index) ≡ None) }
        ensures same_waits { recv_waits_of (slice_get self.new.lanes.items index) ≡ recv_waits_of (slice_get self.old.lanes.items index) }
        ensures others { OnlyLane index self.old.lanes.items self.new.lanes.items }
        ensures none { IsNone result → list_of_row mine.new.badge.views ≡ list_of_row mine.old.badge.views }
        ensures same_lanes { IsNone result → self.new.lanes.items ≡ self.old.lanes.items }
        ensures same_rows { IsNone result → self.new.roll.seat.me.0.rows ≡ self.old.roll.seat.me.0.rows }
        ensures empty { IsNone result → IsEmptyLane (slice_get self.new.lanes.items index) }
        ensures all { IsNone result → sent_row self.new.roll.seat.me.0.rows index ≡ list_of_row mine.new.badge.views }
    {
        let PlainQueues { roll, lanes } = self;
        roll.look(mine);
        let lane = &mut lanes[index];
        let Some(mark) = lane.queue.pop_front() else {
            return None;
        };
        roll.copy(mine, &mark);
        Some((mark, lane.send_waits.take()))
    }

    /// The receiver closes the lane. The task that waits for room is handed out.
    pub fn shut(&mut self, index: usize, mine: &mut QueueRow<T>) -> Option<TaskNo>
        requires table { mine.old.badge.table_id ≡ self.old.roll.seat.table_id }
        requires place { place_of_row mine.old.badge.views ≡ 2 * index + 1 }
        ensures table { (self.new.roll.seat.table_id ≡ self.old.roll.seat.table_id) × (mine.new.badge.table_id ≡ mine.old.badge.table_id) × (place_of_row mine.new.badge.views ≡ place_of_row mine.old.badge.views) }
        ensures shut { IsShutLane (slice_get self.new.lanes.items index) }
        ensures woken { result ≡ send_waits_of (slice_get self.old.lanes.items index) }
        ensures nobody { send_waits_of (slice_get self.new.lanes.items index) ≡ None }
        ensures same_waits { recv_waits_of (slice_get self.new.lanes.items index) ≡ recv_waits_of (slice_get self.old.lanes.items index) }
        ensures others { OnlyLane index self.old.lanes.items self.new.lanes.items }
    {
        let PlainQueues { roll, lanes } = self;
        roll.write(mine, &Mark::Shut);
        let lane = &mut lanes[index];
        lane.shut = true;
        lane.send_waits.take()
    }

    /// The task waits until the lane has room.
    pub fn wait_to_send(&mut self, index: usize, mine: &mut QueueRow<T>, task: TaskNo)
        requires table { mine.old.badge.table_id ≡ self.old.roll.seat.table_id }
        requires place { place_of_row mine.old.badge.views ≡ 2 * index }
        ensures table { (self.new.roll.seat.table_id ≡ self.old.roll.seat.table_id) × (mine.new.badge.table_id ≡ mine.old.badge.table_id) × (mine.new.badge.views ≡ mine.old.badge.views) }
        ensures waits { send_waits_of (slice_get self.new.lanes.items index) ≡ Some task }
        ensures lane { WaitsToSend (slice_get self.old.lanes.items index) (slice_get self.new.lanes.items index) }
        ensures others { OnlyLane index self.old.lanes.items self.new.lanes.items }
        ensures rows { self.new.roll.seat.me.0.rows ≡ self.old.roll.seat.me.0.rows }
    {
        let PlainQueues { roll, lanes } = self;
        roll.look(mine);
        let lane = &mut lanes[index];
        lane.send_waits = Some(task);
    }

    /// The task waits until there is something in the lane.
    pub fn wait_to_take(&mut self, index: usize, mine: &mut QueueRow<T>, task: TaskNo)
        requires table { mine.old.badge.table_id ≡ self.old.roll.seat.table_id }
        requires place { place_of_row mine.old.badge.views ≡ 2 * index + 1 }
        ensures table { (self.new.roll.seat.table_id ≡ self.old.roll.seat.table_id) × (mine.new.badge.table_id ≡ mine.old.badge.table_id) × (mine.new.badge.views ≡ mine.old.badge.views) }
        ensures waits { recv_waits_of (slice_get self.new.lanes.items index) ≡ Some task }
        ensures lane { WaitsToTake (slice_get self.old.lanes.items index) (slice_get self.new.lanes.items index) }
        ensures others { OnlyLane index self.old.lanes.items self.new.lanes.items }
        ensures rows { self.new.roll.seat.me.0.rows ≡ self.old.roll.seat.me.0.rows }
    {
        let PlainQueues { roll, lanes } = self;
        roll.look(mine);
        let lane = &mut lanes[index];
        lane.recv_waits = Some(task);
    }

    /// How many values the lane holds; at most its room.
    pub fn held(&mut self, index: usize, mine: &mut QueueRow<T>, room: u32) -> u32
        requires table { mine.old.badge.table_id ≡ self.old.roll.seat.table_id }
        requires place { place_of_row mine.old.badge.views ≡ 2 * index }
        requires unclosed { is_unclosed (list_of_row mine.old.badge.views) ≡ true }
        requires room { lane_room (list_of_row mine.old.badge.views) ≡ Some room }
        ensures table { (self.new.roll.seat.table_id ≡ self.old.roll.seat.table_id) × (mine.new.badge.table_id ≡ mine.old.badge.table_id) × (mine.new.badge.views ≡ mine.old.badge.views) }
        ensures held { (lane : PlainLane _ _) × (slice_get self.new.lanes.items index ≡ Some lane) × (length lane.queue.items ≤ result) }
        ensures within { result ≤ room }
        ensures lanes { self.new.lanes.items ≡ self.old.lanes.items }
        ensures rows { self.new.roll.seat.me.0.rows ≡ self.old.roll.seat.me.0.rows }
    {
        self.roll.look(mine);
        let lane = &self.lanes[index];
        let held = lane.queue.len();
        // The lane never holds more.
        if held > room as usize {
            return room;
        }
        held as u32
    }

    /// How the lane ended, for a receiver that has taken the sender's end. Changes nothing, and tells that it has taken all.
    pub fn told_end(&mut self, index: usize, mine: &mut QueueRow<T>, whole: bool) -> RecvError
        requires table { mine.old.badge.table_id ≡ self.old.roll.seat.table_id }
        requires place { place_of_row mine.old.badge.views ≡ 2 * index + 1 }
        requires unshut { is_shut (list_of_row mine.old.badge.views) ≡ false }
        requires ended { lane_end (list_of_row mine.old.badge.views) ≡ Some whole }
        ensures table { (self.new.roll.seat.table_id ≡ self.old.roll.seat.table_id) × (mine.new.badge.table_id ≡ mine.old.badge.table_id) × (mine.new.badge.views ≡ mine.old.badge.views) }
        ensures all { sent_row self.new.roll.seat.me.0.rows index ≡ list_of_row mine.new.badge.views }
        ensures answer { result ≡ (if whole then RecvError.Whole else RecvError.Cut) }
        ensures lanes { self.new.lanes.items ≡ self.old.lanes.items }
        ensures rows { self.new.roll.seat.me.0.rows ≡ self.old.roll.seat.me.0.rows }
    {
        self.roll.look(mine);
        if whole {
            RecvError::Whole
        } else {
            RecvError::Cut
        }
    }

    /// Changes nothing, and tells that what was taken is the beginning of what was sent.
    pub fn look_history(&mut self, index: usize, sent: &mut QueueRow<T>, taken: &mut QueueRow<T>)
        requires table { (sent.old.badge.table_id ≡ self.old.roll.seat.table_id) × (taken.old.badge.table_id ≡ self.old.roll.seat.table_id) }
        requires place { (place_of_row sent.old.badge.views ≡ 2 * index) × (place_of_row taken.old.badge.views ≡ 2 * index + 1) }
        requires unclosed { is_unclosed (list_of_row sent.old.badge.views) ≡ true }
        requires unshut { is_shut (list_of_row taken.old.badge.views) ≡ false }
        ensures table { (self.new.roll.seat.table_id ≡ self.old.roll.seat.table_id) × (sent.new.badge.table_id ≡ sent.old.badge.table_id) × (taken.new.badge.table_id ≡ taken.old.badge.table_id) }
        ensures same_rows { (sent.new.badge.views ≡ sent.old.badge.views) × (taken.new.badge.views ≡ taken.old.badge.views) }
        ensures lanes { self.new.lanes.items ≡ self.old.lanes.items }
        ensures rows { self.new.roll.seat.me.0.rows ≡ self.old.roll.seat.me.0.rows }
        ensures history { (room : ℕ) → lane_room (list_of_row sent.old.badge.views) ≡ Some room → LaneHistory (lane_values (list_of_row sent.old.badge.views)) (lane_values (list_of_row taken.old.badge.views)) room }
    {
        self.roll.look(sent);
        self.roll.look(taken);
    }

    /// Changes nothing, and tells that what was sent is what was taken, where the receiver has taken the sender's end.
    pub fn look_both(&mut self, index: usize, sent: &mut QueueRow<T>, taken: &mut QueueRow<T>)
        requires table { (sent.old.badge.table_id ≡ self.old.roll.seat.table_id) × (taken.old.badge.table_id ≡ self.old.roll.seat.table_id) }
        requires place { (place_of_row sent.old.badge.views ≡ 2 * index) × (place_of_row taken.old.badge.views ≡ 2 * index + 1) }
        requires unshut { is_shut (list_of_row taken.old.badge.views) ≡ false }
        requires ended { lane_end (list_of_row taken.old.badge.views) ≡ Some true }
        ensures table { self.new.roll.seat.table_id ≡ self.old.roll.seat.table_id }
        ensures same { list_of_row sent.old.badge.views ≡ list_of_row taken.old.badge.views }
        ensures lanes { self.new.lanes.items ≡ self.old.lanes.items }
        ensures rows { self.new.roll.seat.me.0.rows ≡ self.old.roll.seat.me.0.rows }
    {
        self.roll.look(sent);
        self.roll.look(taken);
    }
}
