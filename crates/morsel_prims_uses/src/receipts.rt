//! How a caller settles a lane whose sender has finished.
ghost use Rattle.std.specs.Prelude.{◌≡◌, OnOk};

use crate::number::Number;
use morsel_prims::{Cx, LaneReceiver, LaneSender, Lanes, RecvError, Tokens};

/// Compares what both ends of a lane know, where the receiver finds that nothing is left.
///
/// A value that is left is `Empty`, since the lane is then not settled.
pub fn settle<L: Tokens + Lanes<Number>>(
    cx: &mut Cx<L::Board>,
    sent: <L::Sender as LaneSender<Number, L::Board>>::Receipt,
    mut receiver: L::Receiver,
) -> Result<(), RecvError>
    requires sent_home { L.Sender.receipt_home sent ≡ (L.Board.id cx.old.board).lane_table }
    requires receiver_home { L.Receiver.home receiver ≡ (L.Board.id cx.old.board).lane_table }
    requires lane { L.Sender.receipt_lane sent ≡ L.Receiver.lane receiver }
    ensures settled { OnOk result (L.Receiver.taken receiver ≡ L.Sender.all_sent sent) }
    ensures same_board { L.Board.id cx.new.board ≡ L.Board.id cx.old.board }
{
    match receiver.try_recv(cx) {
        Err(RecvError::Whole) => {
            L::agree(&mut cx.board, sent, receiver.receipt());
            Ok(())
        }
        Err(refusal) => Err(refusal),
        Ok(_) => Err(RecvError::Empty),
    }
}
