//! What both ends of a lane between threads know together, while it is open.
ghost use Rattle.std.specs.Prelude.{◌≡◌, Option, []};
ghost use Rattle.morsel_prims.specs.Polled.{LaneHistory};
ghost use Rattle.morsel_prims.specs.declared.lane.Ended.{Ended};
ghost use Rattle.morsel_words.specs.Ends.{phase_at};
ghost use Rattle.morsel_words.specs.declared.view.Sending.TheVariants as sending;
ghost use Rattle.morsel_words.specs.declared.view.LanePart.TheVariants as part;

use crate::close_word::JoinEnds;
use crate::lane::PartEnds;
use crate::receiver::WordReceiver;
use crate::sender::WordSender;
use crate::view::LaneView;
use crate::word::{LaneSeat, LaneWords};
use atomic_table::{Play, Split};
use morsel_prims::Message;
use std::mem;

struct SpareSeat;

impl<T, J> Split<LaneView<T, J>> for SpareSeat {
    ghost use Rattle.morsel_words.specs.HistorySteps.{kept_view, spare_view};

    ghost left = { kept_view };

    ghost right = { spare_view };
}

struct SeekHistory;

impl<T, J> Play<Option<T>, LaneView<T, J>> for SeekHistory {
    ghost use Rattle.morsel_words.specs.HistorySteps.{FindsHistory};

    ghost then = { FindsHistory };
}

/// Brings the seats of both ends together for one look, and parts them again: what was taken is the beginning of what was sent.
fn look_both<T: Message>(lane: &LaneWords<T>, sent: &mut LaneSeat<T>, taken: &mut LaneSeat<T>)
    requires table { (sent.old.table_id ≡ lane.now.table_id) × (taken.old.table_id ≡ lane.now.table_id) × (lane.now.table_id.words ≡ 3) }
    requires sender { (sent.old.me.0.part ≡ part.Sender) × (sent.old.me.0.sending.phase ≡ sending.Idle) × (sent.old.me.1 ≡ []) }
    requires receiver { (taken.old.me.0.part ≡ part.Receiver) × ((ended : Option Ended) × (taken.old.me.0.taking.phase ≡ phase_at ended)) × (taken.old.me.1 ≡ []) }
    ensures history { LaneHistory sent.old.me.0.sending.sent taken.old.me.0.taking.taken 1 }
    ensures same { (sent.new.table_id ≡ sent.old.table_id) × (taken.new.table_id ≡ taken.old.table_id) }
    ensures sender { (sent.new.me.0.part ≡ part.Sender) × (sent.new.me.0.sending ≡ sent.old.me.0.sending) × (sent.new.me.0.found ≡ sent.old.me.0.found) × (sent.new.me.1 ≡ []) }
    ensures receiver { (taken.new.me.0.part ≡ part.Receiver) × (taken.new.me.0.taking ≡ taken.old.me.0.taking) × (taken.new.me.0.job ≡ taken.old.me.0.job) × (taken.new.me.1 ≡ []) }
{
    let spare = lane.split_seat::<SpareSeat>(sent);
    let other = mem::replace(taken, spare);
    lane.join_seat::<JoinEnds>(sent, other);
    lane.load::<SeekHistory>(sent, 0);
    *taken = lane.split_seat::<PartEnds>(sent);
}

/// Changes nothing, and tells that what was taken is the beginning of what was sent; the lane holds the rest.
pub fn tell_history<T: Message>(sender: &mut WordSender<T>, receiver: &mut WordReceiver<T>)
    requires lane { sender.old.table ≡ receiver.old.table }
    ensures history { LaneHistory sender.old.sent receiver.old.taken 1 }
    ensures same_sender { (sender.new.table ≡ sender.old.table) × (sender.new.job ≡ sender.old.job) × (sender.new.sent ≡ sender.old.sent) }
    ensures same_receiver { (receiver.new.table ≡ receiver.old.table) × (receiver.new.job ≡ receiver.old.job) × (receiver.new.taken ≡ receiver.old.taken) × (receiver.new.ended ≡ receiver.old.ended) }
{
    let table = &sender.table;
    look_both(&table.shared, &mut sender.seat, &mut receiver.seat);
}
