//! The receiving end of a lane of one thread.
ghost use Rattle.std.specs.Prelude.{◌≡◌, ◌*◌, ◌+◌, true, false, Some};
ghost use Rattle.morsel_prims.specs.Marks.{is_shut, lane_end, lane_job};
ghost use Rattle.morsel_prims.specs.Rows.{place_of_row, list_of_row};

use crate::lane::{Ended, LaneReceiver, Message, RecvError};
use crate::plain_board::PlainBoard;
use crate::plain_item::Mark;
use crate::plain_queues::QueueRow;
use crate::poll::Poll;
use crate::task::Cx;
use std::snapshot::Snapshot;

/// The receiving end of a lane of one thread.
#[derive(Drop)]
pub struct PlainReceiver<T: Message> {
    /// What it wrote: what the lane is for, and what it took.
    pub(crate) row: QueueRow<T>,
    /// Which lane of the board it is, from 0.
    pub(crate) index: usize,
    /// What the lane is for.
    pub(crate) job: Snapshot<T::Job>,
    /// How the lane ended, as whole or as cut, once the sender's end was taken.
    pub(crate) ended: Option<bool>,
    ghost placed: { place_of_row row.badge.views ≡ 2 * index + 1 },
    ghost unshut: { is_shut (list_of_row row.badge.views) ≡ false },
    ghost of_job: { lane_job (list_of_row row.badge.views) ≡ Some job.value },
    ghost at_end: { lane_end (list_of_row row.badge.views) ≡ ended },
}

/// Tells what was taken from a lane of one thread, and that it is all.
#[derive(Drop)]
pub struct PlainTaken<T: Message> {
    /// What the receiver wrote.
    pub(crate) row: QueueRow<T>,
    /// Which lane of the board it is, from 0.
    pub(crate) index: usize,
    ghost placed: { place_of_row row.badge.views ≡ 2 * index + 1 },
    ghost unshut: { is_shut (list_of_row row.badge.views) ≡ false },
    ghost whole: { lane_end (list_of_row row.badge.views) ≡ Some true },
}

impl<T: Message> LaneReceiver<T, PlainBoard<T>> for PlainReceiver<T> {
    ghost use Rattle.std.specs.Prelude.{slice_get, [], ◌∷◌};
    ghost use Rattle.morsel_prims.specs.Marks.{IsEmptyLane, IsShutLane, is_closed_as, is_unclosed, lane_values, recv_waits_of, send_waits_of, sent_row};
    ghost use Rattle.morsel_prims.specs.Polled.{held_list};
    ghost use Rattle.morsel_prims.specs.Waiting.{ForValue};

    type Receipt = PlainTaken<T>;

    ghost home = { λ end. end.row.badge.table_id };

    ghost lane = { λ end. record { table = end.row.badge.table_id; place = end.index } };

    ghost job = { λ end. end.job.value };

    ghost taken = { λ end. lane_values (list_of_row end.row.badge.views) };

    ghost is_whole = { λ end. is_closed_as (lane_end (list_of_row end.row.badge.views)) true };

    ghost is_cut = { λ end. is_closed_as (lane_end (list_of_row end.row.badge.views)) false };

    ghost wait_places = { λ end. ForValue end.index ∷ [] };

    ghost registered = { λ board old new task. recv_waits_of (slice_get board.lanes new.index) ≡ Some task };

    ghost found_waiting = { λ board old new tasks. tasks ≡ held_list (send_waits_of (slice_get board.lanes old.index)) };

    ghost found_empty = { λ board old new. IsEmptyLane (slice_get board.lanes new.index) × (sent_row board.rows new.index ≡ list_of_row new.row.badge.views) × (is_unclosed (list_of_row new.row.badge.views) ≡ true) };

    ghost found_ended = { λ board end whole. (sent_row board.rows end.index ≡ list_of_row end.row.badge.views) × (lane_end (list_of_row end.row.badge.views) ≡ Some whole) };

    ghost has_cut = { λ board end. IsShutLane (slice_get board.lanes end.index) };

    ghost found_waiting_cut = { λ board end tasks. tasks ≡ held_list (send_waits_of (slice_get board.lanes end.index)) };

    ghost receipt_home = { λ taken. taken.row.badge.table_id };

    ghost receipt_lane = { λ taken. record { table = taken.row.badge.table_id; place = taken.index } };

    ghost all_taken = { λ taken. lane_values (list_of_row taken.row.badge.views) };

    fn receipt(self) -> PlainTaken<T> {
        let PlainReceiver {
            row,
            index,
            job: _,
            ended: _,
        } = self;
        PlainTaken { row, index }
    }

    fn poll_recv(&mut self, cx: &mut Cx<PlainBoard<T>>) -> Poll<Result<T, Ended>> {
        match self.try_recv(cx) {
            Ok(value) => Poll::Ready(Ok(value)),
            Err(RecvError::Whole) => Poll::Ready(Err(Ended::Whole)),
            Err(RecvError::Cut) => Poll::Ready(Err(Ended::Cut)),
            Err(RecvError::Empty) => {
                cx.board
                    .queues
                    .wait_to_take(self.index, &mut self.row, cx.me);
                Poll::Pending
            }
        }
    }

    fn try_recv(&mut self, cx: &mut Cx<PlainBoard<T>>) -> Result<T, RecvError> {
        if let Some(whole) = self.ended {
            return Err(cx.board.queues.told_end(self.index, &mut self.row, whole));
        }
        let Some((mark, task)) = cx.board.queues.take(self.index, &mut self.row) else {
            return Err(RecvError::Empty);
        };
        match mark {
            Mark::Value(suited) => {
                cx.wakes.wake(task);
                Ok(suited.into_value())
            }
            Mark::End(whole) => {
                self.ended = Some(whole);
                cx.wakes.wake(task);
                Err(cx.board.queues.told_end(self.index, &mut self.row, whole))
            }
            // A queue has nothing else.
            _ => Err(RecvError::Empty),
        }
    }

    fn cut(self, cx: &mut Cx<PlainBoard<T>>) {
        let PlainReceiver {
            mut row,
            index,
            job: _,
            ended: _,
        } = self;
        let task = cx.board.queues.shut(index, &mut row);
        cx.wakes.wake(task);
    }
}
