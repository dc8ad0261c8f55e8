//! What the lanes of these uses carry.
ghost use Rattle.std.specs.Prelude.{◌≡◌, ◌<◌, [], ◌∷◌, ◌++◌, OnOk};

use morsel_prims::{Board, Cx, LaneSender, Message, SendError};

/// A number below a bound, which is the lane's job.
#[derive(Clone, Copy, Debug, Drop, PartialEq, Eq)]
pub struct Number(pub u64);

impl Message for Number {
    ghost use Rattle.std.specs.Prelude.{◌<◌};

    type Job = u64;

    ghost suits = { λ bound number. number.0 < bound };
}

/// Sends seven through any lane for numbers below more than seven.
pub fn send_seven<B: Board, S: LaneSender<Number, B>>(
    sender: &mut S,
    cx: &mut Cx<B>,
) -> Result<(), SendError<Number>>
    requires home { S.home sender.old ≡ (B.id cx.old.board).lane_table }
    requires job { 7 < S.job sender.old }
    ensures ok { OnOk result (S.sent sender.new ≡ S.sent sender.old ++ record { 0 = 7 } ∷ []) }
    ensures same_board { B.id cx.new.board ≡ B.id cx.old.board }
{
    sender.try_send(cx, Number(7))
}
