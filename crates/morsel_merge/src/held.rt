//! How many values several lanes hold together.
ghost use Rattle.std.specs.Prelude.{◌≡◌, ℕ, ◌≤◌, All, length, map, sum};
ghost use Rattle.morsel_prims.specs.Woken.{KeepsWakes};
ghost use Rattle.morsel_merge.specs.Ends.{sender_seen};
ghost use Rattle.morsel_merge.specs.Spread.{AreHeld, AreLookedAt, IsLook};

use morsel_prims::{Board, Cx, LaneSender, Message};

/// At least as many values as the lanes hold together.
pub fn held_bound<T: Message, B: Board, S: LaneSender<T, B>>(lanes: &mut [S], cx: &mut Cx<B>) -> u32
    requires few { length lanes.old ≤ 32768 }
    requires rooms { All (λ end. S.room end ≤ 65536) lanes.old }
    requires home { All (λ end. S.home end ≡ (B.id cx.old.board).lane_table) lanes.old }
    ensures looked { AreLookedAt (sender_seen S.home S.lane S.room S.job S.wait_places) S.sent (IsLook S.found_held S.found_full S.found_closed) lanes.old lanes.new }
    ensures at_least { (count : ℕ) × AreHeld (S.found_held cx.new.board) lanes.old lanes.new count × (count ≤ result) }
    ensures at_most { result ≤ sum (map S.room lanes.old) }
    ensures unchanged { cx.new.board ≡ cx.old.board }
    ensures same_task { cx.new.me ≡ cx.old.me }
    ensures wakes { KeepsWakes cx.old.wakes cx.new.wakes }
{
    let mut bound = 0u32;
    for lane in 0..lanes.len() {
        bound += lanes[lane].len_bound(cx);
    }
    bound
}
