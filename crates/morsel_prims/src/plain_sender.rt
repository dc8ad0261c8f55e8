//! The sending end of a lane of one thread.
ghost use Rattle.std.specs.Prelude.{◌≡◌, ◌*◌, true, Some};
ghost use Rattle.morsel_prims.specs.Marks.{is_shut, is_unclosed, lane_end, lane_job, lane_room};
ghost use Rattle.morsel_prims.specs.Rows.{place_of_row, list_of_row};

use crate::lane::{LaneSender, Message, SendError};
use crate::plain_board::PlainBoard;
use crate::plain_item::Suited;
use crate::plain_queues::QueueRow;
use crate::poll::Poll;
use crate::task::Cx;
use std::snapshot::Snapshot;

/// The sending end of a lane of one thread.
#[derive(Drop)]
pub struct PlainSender<T: Message> {
    /// What it wrote: what the lane is for, and the values that it sent.
    pub(crate) row: QueueRow<T>,
    /// Which lane of the board it is, from 0.
    pub(crate) index: usize,
    /// For how many values the lane has room.
    pub(crate) room: u32,
    /// What the lane is for.
    pub(crate) job: Snapshot<T::Job>,
    ghost placed: { place_of_row row.badge.views ≡ 2 * index },
    ghost unclosed: { is_unclosed (list_of_row row.badge.views) ≡ true },
    ghost of_job: { lane_job (list_of_row row.badge.views) ≡ Some job.value },
    ghost of_room: { lane_room (list_of_row row.badge.views) ≡ Some room },
}

/// Tells what was sent through a lane of one thread, and that it is all.
#[derive(Drop)]
pub struct PlainSent<T: Message> {
    /// What the sender wrote.
    pub(crate) row: QueueRow<T>,
    /// Which lane of the board it is, from 0.
    pub(crate) index: usize,
    ghost placed: { place_of_row row.badge.views ≡ 2 * index },
    ghost ended: { lane_end (list_of_row row.badge.views) ≡ Some true },
}

impl<T: Message> LaneSender<T, PlainBoard<T>> for PlainSender<T> {
    ghost use Rattle.std.specs.Prelude.{false, slice_get, length, [], ◌∷◌, ◌++◌};
    ghost use Rattle.morsel_prims.specs.Marks.{HasRoom, IsFullLane, IsShutLane, lane_values, recv_waits_of, send_waits_of, sent_row};
    ghost use Rattle.morsel_prims.specs.Polled.{held_list};
    ghost use Rattle.morsel_prims.specs.Waiting.{ForRoom};
    ghost use Rattle.morsel_prims.specs.declared.plain_item.Mark.TheVariants.{End};
    ghost use Rattle.morsel_prims.specs.declared.plain_item.PlainLane.{PlainLane};

    type Receipt = PlainSent<T>;

    ghost home = { λ end. end.row.badge.table_id };

    ghost lane = { λ end. record { table = end.row.badge.table_id; place = end.index } };

    ghost room = { λ end. end.room };

    ghost job = { λ end. end.job.value };

    ghost sent = { λ end. lane_values (list_of_row end.row.badge.views) };

    ghost wait_places = { λ end. ForRoom end.index ∷ [] };

    ghost registered = { λ board old new task. send_waits_of (slice_get board.lanes new.index) ≡ Some task };

    ghost found_waiting = { λ board old new tasks. tasks ≡ held_list (recv_waits_of (slice_get board.lanes old.index)) };

    ghost found_room = { λ board old new. HasRoom (slice_get board.lanes new.index) };

    ghost found_full = { λ board old new. IsFullLane (slice_get board.lanes new.index) };

    ghost found_closed = { λ board old new. IsShutLane (slice_get board.lanes new.index) };

    ghost found_held = { λ board old new held. (lane : PlainLane _ _) × (slice_get board.lanes new.index ≡ Some lane) × (held ≡ length lane.queue.items) };

    ghost has_cut = { λ board end. sent_row board.rows end.index ≡ list_of_row end.row.badge.views ++ End false ∷ [] };

    ghost found_waiting_cut = { λ board end tasks. tasks ≡ held_list (recv_waits_of (slice_get board.lanes end.index)) };

    ghost receipt_home = { λ sent. sent.row.badge.table_id };

    ghost receipt_lane = { λ sent. record { table = sent.row.badge.table_id; place = sent.index } };

    ghost all_sent = { λ sent. lane_values (list_of_row sent.row.badge.views) };

    ghost has_finished = { λ board sent. (sent_row board.rows sent.index ≡ list_of_row sent.row.badge.views) × (lane_end (list_of_row sent.row.badge.views) ≡ Some true) };

    ghost found_waiting_finish = { λ board end sent tasks. tasks ≡ held_list (recv_waits_of (slice_get board.lanes end.index)) };

    fn poll_send(
        &mut self,
        cx: &mut Cx<PlainBoard<T>>,
        value: &mut Option<T>,
    ) -> Poll<Result<(), T>> {
        let Some(held) = value.take() else {
            // There is a value.
            return Poll::Pending;
        };
        match self.try_send(cx, held) {
            Ok(()) => Poll::Ready(Ok(())),
            Err(SendError::Closed(held)) => Poll::Ready(Err(held)),
            Err(SendError::Full(held)) => {
                *value = Some(held);
                cx.board
                    .queues
                    .wait_to_send(self.index, &mut self.row, cx.me);
                Poll::Pending
            }
        }
    }

    fn try_send(&mut self, cx: &mut Cx<PlainBoard<T>>, value: T) -> Result<(), SendError<T>> {
        let suited = Suited::new(value, &self.job);
        match cx.board.queues.send(self.index, &mut self.row, suited) {
            Ok(task) => {
                cx.wakes.wake(task);
                Ok(())
            }
            Err(SendError::Full(suited)) => Err(SendError::Full(suited.into_value())),
            Err(SendError::Closed(suited)) => Err(SendError::Closed(suited.into_value())),
        }
    }

    fn len_bound(&mut self, cx: &mut Cx<PlainBoard<T>>) -> u32 {
        cx.board.queues.held(self.index, &mut self.row, self.room)
    }

    fn finish(self, cx: &mut Cx<PlainBoard<T>>) -> PlainSent<T> {
        let PlainSender {
            mut row,
            index,
            room: _,
            job: _,
        } = self;
        let task = cx.board.queues.close(index, &mut row, true);
        cx.wakes.wake(task);
        PlainSent { row, index }
    }

    fn cut(self, cx: &mut Cx<PlainBoard<T>>) {
        let PlainSender {
            mut row,
            index,
            room: _,
            job: _,
        } = self;
        let task = cx.board.queues.close(index, &mut row, false);
        cx.wakes.wake(task);
    }
}
