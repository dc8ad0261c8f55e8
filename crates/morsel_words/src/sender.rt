//! The sending end of a lane between threads.
ghost use Rattle.std.specs.Prelude.{◌≡◌, ◌+◌, ◌++◌, cond, Bool, [], ◌∷◌, IfOk, OnOk, OnErr, IfErr};
ghost use Rattle.morsel_prims.specs.Polled.{refused_value, IfFull, IfClosed};
ghost use Rattle.morsel_words.specs.Since.{WasFound, FoundWaiter};
ghost use Rattle.morsel_words.specs.declared.view.Found.TheVariants as found;

use crate::sending::{held, send, wait};
use crate::view::LaneView;
use crate::word::{LaneRuled, LaneSeat};
use atomic_table::Table;
use morsel_meaning::TaskNo;
use morsel_prims::{Message, SendError};
use std::alloc::Global;
use std::marker::Model;
use std::sync::Arc;

/// The words, the slot and the memory of a lane.
pub(crate) type LaneTable<T> = Table<
    Option<T>,
    LaneView<T, <T as Message>::Job>,
    <T as Message>::Job,
    LaneRuled,
    Global,
>;

/// The sending end of a lane between threads. One that is dropped stays for its peer as it is, for good.
#[derive(Drop)]
pub struct WordSender<T: Message> {
    /// The lane.
    pub(crate) table: Arc<LaneTable<T>, Global>,
    /// Its seat.
    pub(crate) seat: LaneSeat<T>,
}

impl<T: Message> Model for WordSender<T> {
    ghost use Rattle.morsel_words.specs.Ends.{SendSeen, send_seen, IsSender};
    ghost use Rattle.std.specs.Arc.{arc_value};

    ghost Value = { SendSeen T T.Job };

    ghost view = { λ end. send_seen (arc_value end.table).shared.key end.seat };

    ghost invariant = { λ end. IsSender (arc_value end.table).shared.table_id end.seat };
}

impl<T: Message> WordSender<T> {
    /// Sends the value, and answers the task that waited for it; or hands the value back.
    pub fn send(&mut self, value: T) -> Result<Option<TaskNo>, SendError<T>>
        requires suits { T.suits self.old.job value }
        ensures same_end { (self.new.table ≡ self.old.table) × (self.new.job ≡ self.old.job) }
        ensures ok { OnOk result (self.new.sent ≡ self.old.sent ++ value ∷ []) }
        ensures room { OnOk result (WasFound self.old.found self.new.found found.Room) }
        ensures waiter { IfOk result (FoundWaiter found.Sent self.old.found self.new.found) }
        ensures back { IfErr result (λ refused. refused_value refused ≡ value) }
        ensures err { OnErr result (self.new.sent ≡ self.old.sent) }
        ensures full { IfErr result (λ refused. IfFull refused (WasFound self.old.found self.new.found found.Full)) }
        ensures closed { IfErr result (λ refused. IfClosed refused (WasFound self.old.found self.new.found found.Closed)) }
    {
        let table = &self.table;
        send(&table.shared, &mut self.seat, value)
    }

    /// Asks to be woken as `me` once the lane has room, and hands the value back; or sends it, where there is room by then.
    pub fn wait(&mut self, me: TaskNo, value: T) -> Result<Option<TaskNo>, SendError<T>>
        requires suits { T.suits self.old.job value }
        ensures same_end { (self.new.table ≡ self.old.table) × (self.new.job ≡ self.old.job) }
        ensures ok { OnOk result (self.new.sent ≡ self.old.sent ++ value ∷ []) }
        ensures room { OnOk result (WasFound self.old.found self.new.found found.Room) }
        ensures waiter { IfOk result (FoundWaiter found.Sent self.old.found self.new.found) }
        ensures back { IfErr result (λ refused. refused_value refused ≡ value) }
        ensures err { OnErr result (self.new.sent ≡ self.old.sent) }
        ensures full { IfErr result (λ refused. IfFull refused (WasFound self.old.found self.new.found found.Full)) }
        ensures registered { IfErr result (λ refused. IfFull refused (WasFound self.old.found self.new.found (found.Waits (me.0 + 1)))) }
        ensures closed { IfErr result (λ refused. IfClosed refused (WasFound self.old.found self.new.found found.Closed)) }
    {
        let table = &self.table;
        wait(&table.shared, &mut self.seat, me, value)
    }

    /// How many values the lane held at a step of this call.
    pub fn len_bound(&mut self) -> u32
        ensures same_end { (self.new.table ≡ self.old.table) × (self.new.job ≡ self.old.job) }
        ensures sent { self.new.sent ≡ self.old.sent }
        ensures held { (some : Bool) × WasFound self.old.found self.new.found (found.Held some) × (result ≡ cond some 1 0) }
    {
        let table = &self.table;
        held(&table.shared, &mut self.seat)
    }
}
