//! Closes several lanes, one after the other.
ghost use Rattle.std.specs.Prelude.{◌≡◌, ◌≤◌, All, [], map, vec_capacity, vec_len};
ghost use Rattle.morsel_prims.specs.Waiting.{KeepsWaiting};
ghost use Rattle.morsel_prims.specs.Woken.{AreFoundWoken, KeepsWakes};
ghost use Rattle.morsel_merge.specs.Boards.{OnEarlierEnd, OnLaterEnd};
ghost use Rattle.morsel_merge.specs.Spread.{AreFoundEach};

use morsel_prims::{Board, Cx, LaneReceiver, LaneSender, Message};

/// Finishes the lanes; what tells what was sent through each is put into `receipts`, which has the room.
pub fn finish_lanes<T: Message, B: Board, S: LaneSender<T, B> + Drop>(
    lanes: Vec<S>,
    mut receipts: Vec<S::Receipt>,
    cx: &mut Cx<B>,
) -> Vec<S::Receipt>
    requires home { All (λ end. S.home end ≡ (B.id cx.old.board).lane_table) lanes.items }
    requires empty { receipts.items ≡ [] }
    requires room { vec_len lanes ≤ vec_capacity receipts }
    ensures lanes { map S.receipt_lane result.items ≡ map S.lane lanes.items }
    ensures homes { map S.receipt_home result.items ≡ map S.home lanes.items }
    ensures sent { map S.all_sent result.items ≡ map S.sent lanes.items }
    ensures finished { All (λ receipt. OnEarlierEnd B.waits_at cx.new.board cx.new.wakes (λ board. S.has_finished board receipt)) result.items }
    ensures woken { AreFoundWoken (AreFoundEach (λ end receipt tasks. OnLaterEnd B.waits_at cx.old.board (λ board. S.found_waiting_finish board end receipt tasks)) lanes.items result.items) cx.new.wakes }
    ensures keeps_waiting { KeepsWaiting (B.waits_at cx.old.board) (B.waits_at cx.new.board) cx.new.wakes }
    ensures same_board { B.id cx.new.board ≡ B.id cx.old.board }
    ensures same_task { cx.new.me ≡ cx.old.me }
    ensures wakes { KeepsWakes cx.old.wakes cx.new.wakes }
{
    for lane in lanes {
        receipts.push_reserved(lane.finish(cx));
    }
    receipts
}

/// Cuts the lanes.
pub fn cut_lanes<T: Message, B: Board, S: LaneSender<T, B> + Drop>(lanes: Vec<S>, cx: &mut Cx<B>)
    requires home { All (λ end. S.home end ≡ (B.id cx.old.board).lane_table) lanes.items }
    ensures cut { All (λ end. OnEarlierEnd B.waits_at cx.new.board cx.new.wakes (λ board. S.has_cut board end)) lanes.items }
    ensures woken { AreFoundWoken (AreFoundEach (λ end left tasks. OnLaterEnd B.waits_at cx.old.board (λ board. S.found_waiting_cut board end tasks)) lanes.items lanes.items) cx.new.wakes }
    ensures keeps_waiting { KeepsWaiting (B.waits_at cx.old.board) (B.waits_at cx.new.board) cx.new.wakes }
    ensures same_board { B.id cx.new.board ≡ B.id cx.old.board }
    ensures same_task { cx.new.me ≡ cx.old.me }
    ensures wakes { KeepsWakes cx.old.wakes cx.new.wakes }
{
    for lane in lanes {
        lane.cut(cx);
    }
}

/// Closes the receiving ends of lanes.
pub fn cut_receivers<T: Message, B: Board, R: LaneReceiver<T, B> + Drop>(
    receivers: Vec<R>,
    cx: &mut Cx<B>,
)
    requires home { All (λ end. R.home end ≡ (B.id cx.old.board).lane_table) receivers.items }
    ensures cut { All (λ end. OnEarlierEnd B.waits_at cx.new.board cx.new.wakes (λ board. R.has_cut board end)) receivers.items }
    ensures woken { AreFoundWoken (AreFoundEach (λ end left tasks. OnLaterEnd B.waits_at cx.old.board (λ board. R.found_waiting_cut board end tasks)) receivers.items receivers.items) cx.new.wakes }
    ensures keeps_waiting { KeepsWaiting (B.waits_at cx.old.board) (B.waits_at cx.new.board) cx.new.wakes }
    ensures same_board { B.id cx.new.board ≡ B.id cx.old.board }
    ensures same_task { cx.new.me ≡ cx.old.me }
    ensures wakes { KeepsWakes cx.old.wakes cx.new.wakes }
{
    for receiver in receivers {
        receiver.cut(cx);
    }
}
