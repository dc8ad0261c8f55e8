//! The receiving end of a lane between threads.
ghost use Rattle.std.specs.Prelude.{◌≡◌, ◌+◌, ◌++◌, true, [], ◌∷◌, ⊤, None, Some, Err, IfOk, OnOk, OnErr, IfErr, IfSome};
ghost use Rattle.morsel_prims.specs.Polled.{ByRefusal};
ghost use Rattle.morsel_prims.specs.declared.lane.Ended.{Ended};
ghost use Rattle.morsel_words.specs.Ends.{answer_at};
ghost use Rattle.morsel_words.specs.Since.{WasFound, TookWaiter};
ghost use Rattle.morsel_words.specs.declared.view.Found.TheVariants as found;

use crate::sender::LaneTable;
use crate::taking::{receive, wait_to_take};
use crate::word::LaneSeat;
use morsel_meaning::TaskNo;
use morsel_prims::{Ended, Message, RecvError};
use std::alloc::Global;
use std::marker::Model;
use std::sync::Arc;

/// The receiving end of a lane between threads. One that is dropped stays for its peer as it is, for good.
#[derive(Drop)]
pub struct WordReceiver<T: Message> {
    /// The lane.
    pub(crate) table: Arc<LaneTable<T>, Global>,
    /// Its seat.
    pub(crate) seat: LaneSeat<T>,
    /// How it has found the lane ended.
    pub(crate) ended: Option<Ended>,
}

impl<T: Message> Model for WordReceiver<T> {
    ghost use Rattle.morsel_words.specs.Ends.{TakeSeen, take_seen, IsReceiver};
    ghost use Rattle.std.specs.Arc.{arc_value};

    ghost Value = { TakeSeen T T.Job };

    ghost view = { λ end. take_seen (arc_value end.table).shared.key end.ended end.seat };

    ghost invariant = { λ end. IsReceiver (arc_value end.table).shared.table_id (arc_value end.table).shared.key end.ended end.seat };
}

impl<T: Message> WordReceiver<T> {
    /// Takes the next value, and answers the task that waited for room; or tells why there is none.
    pub fn receive(&mut self) -> Result<(T, Option<TaskNo>), RecvError>
        ensures same_end { (self.new.table ≡ self.old.table) × (self.new.job ≡ self.old.job) }
        ensures ok { IfOk result (λ got. self.new.taken ≡ self.old.taken ++ got.0 ∷ []) }
        ensures suits { IfOk result (λ got. T.suits self.old.job got.0) }
        ensures held { OnOk result (WasFound self.old.found self.new.found (found.Held true)) }
        ensures waiter { IfOk result (TookWaiter self.old.found self.new.found) }
        ensures going { OnOk result (self.new.ended ≡ None) }
        ensures err { OnErr result (self.new.taken ≡ self.old.taken) }
        ensures refused { IfErr result (λ refused. ByRefusal refused ((self.new.ended ≡ None) × WasFound self.old.found self.new.found found.Empty) (self.new.ended ≡ Some Ended.Whole) (self.new.ended ≡ Some Ended.Cut)) }
        ensures stays { IfSome self.old.ended (λ end. result ≡ Err (answer_at end)) }
    {
        let table = &self.table;
        receive(&table.shared, &mut self.seat, &mut self.ended)
    }

    /// Asks to be woken as `me` once there is a value, and tells that there is none; or takes the next one, where there is one by then.
    pub fn wait(&mut self, me: TaskNo) -> Result<(T, Option<TaskNo>), RecvError>
        ensures same_end { (self.new.table ≡ self.old.table) × (self.new.job ≡ self.old.job) }
        ensures ok { IfOk result (λ got. self.new.taken ≡ self.old.taken ++ got.0 ∷ []) }
        ensures suits { IfOk result (λ got. T.suits self.old.job got.0) }
        ensures held { OnOk result (WasFound self.old.found self.new.found (found.Held true)) }
        ensures waiter { IfOk result (TookWaiter self.old.found self.new.found) }
        ensures going { OnOk result (self.new.ended ≡ None) }
        ensures err { OnErr result (self.new.taken ≡ self.old.taken) }
        ensures refused { IfErr result (λ refused. ByRefusal refused ((self.new.ended ≡ None) × WasFound self.old.found self.new.found found.Empty) (self.new.ended ≡ Some Ended.Whole) (self.new.ended ≡ Some Ended.Cut)) }
        ensures registered { IfErr result (λ refused. ByRefusal refused (WasFound self.old.found self.new.found (found.Waits (me.0 + 1))) ⊤ ⊤) }
        ensures stays { IfSome self.old.ended (λ end. result ≡ Err (answer_at end)) }
    {
        let table = &self.table;
        wait_to_take(&table.shared, &mut self.seat, &mut self.ended, me)
    }
}
