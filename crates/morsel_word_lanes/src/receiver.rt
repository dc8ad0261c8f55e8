//! The receiving end of a connector.
ghost use Rattle.std.specs.Prelude.{◌≡◌, ◌+◌, ◌++◌, [], ◌∷◌, ⊤, None, Some, Err, IfOk, OnOk, OnErr, IfErr, IfSome};
ghost use Rattle.morsel_prims.specs.Polled.{ByRefusal};
ghost use Rattle.morsel_prims.specs.Woken.{AreFoundWoken, KeepsWakes};
ghost use Rattle.morsel_prims.specs.declared.lane.Ended.{Ended};
ghost use Rattle.morsel_words.specs.Ends.{answer_at};
ghost use Rattle.morsel_words.specs.Since.{WasFound};
ghost use Rattle.morsel_words.specs.declared.view.Found.TheVariants as found;
ghost use Rattle.morsel_word_lanes.specs.Ends.{FoundWaiting};

use morsel_prims::{Cx, Ended, LaneReceiver, Message, Poll, RecvError};
use morsel_words::{WordReceiver, WordTaken};
use std::marker::Model;

/// The receiving end of a lane between threads, with room for one value. One that is dropped stays for its peer as it is, for good.
#[derive(Drop)]
pub struct Receiver<T: Message> {
    pub(crate) end: WordReceiver<T>,
}

impl<T: Message> Model for Receiver<T> {
    ghost use Rattle.morsel_words.specs.Ends.{TakeSeen};

    ghost Value = { TakeSeen T T.Job };

    ghost view = { λ receiver. receiver.end };
}

impl<T: Message> LaneReceiver<T, ()> for Receiver<T> {
    ghost use Rattle.morsel_prims.specs.Polled.{no_table};
    ghost use Rattle.morsel_word_lanes.specs.Ends.{FoundWaitingAtClose, ended_whole, ended_cut, end_as};

    type Receipt = WordTaken<T>;

    ghost home = { λ end. no_table };

    ghost lane = { λ end. record { table = end.table; place = 0 } };

    ghost job = { λ end. end.job };

    ghost taken = { λ end. end.taken };

    ghost is_whole = { λ end. ended_whole end.ended };

    ghost is_cut = { λ end. ended_cut end.ended };

    ghost wait_places = { λ end. [] };

    ghost registered = { λ board old new task. WasFound old.found new.found (found.Waits (task.0 + 1)) };

    ghost found_waiting = { λ board old new. FoundWaiting found.Took old.found new.found };

    ghost found_empty = { λ board old new. WasFound old.found new.found found.Empty };

    ghost found_ended = { λ board end whole. end.ended ≡ Some (end_as whole) };

    ghost has_cut = { λ board end. ⊤ };

    ghost found_waiting_cut = { λ board end. FoundWaitingAtClose end.found };

    ghost receipt_home = { λ taken. no_table };

    ghost receipt_lane = { λ taken. record { table = taken.table; place = 0 } };

    ghost all_taken = { λ taken. taken.taken };

    fn receipt(self) -> WordTaken<T> {
        let Receiver { end } = self;
        end.receipt()
    }

    fn poll_recv(&mut self, cx: &mut Cx<()>) -> Poll<Result<T, Ended>> {
        match self.try_recv(cx) {
            Ok(value) => return Poll::Ready(Ok(value)),
            Err(RecvError::Whole) => return Poll::Ready(Err(Ended::Whole)),
            Err(RecvError::Cut) => return Poll::Ready(Err(Ended::Cut)),
            Err(RecvError::Empty) => {}
        }
        match self.wait_for_value(cx) {
            Ok(value) => Poll::Ready(Ok(value)),
            Err(RecvError::Whole) => Poll::Ready(Err(Ended::Whole)),
            Err(RecvError::Cut) => Poll::Ready(Err(Ended::Cut)),
            Err(RecvError::Empty) => Poll::Pending,
        }
    }

    fn try_recv(&mut self, cx: &mut Cx<()>) -> Result<T, RecvError> {
        let (value, task) = self.end.receive()?;
        cx.wakes.wake(task);
        Ok(value)
    }

    fn cut(self, cx: &mut Cx<()>) {
        let Receiver { end } = self;
        let task = end.cut();
        cx.wakes.wake(task);
    }
}

impl<T: Message> Receiver<T> {
    /// Registers who polls where there is no value; or takes the next one, where there is one by then.
    fn wait_for_value(&mut self, cx: &mut Cx<()>) -> Result<T, RecvError>
        ensures same_end { (self.new.table ≡ self.old.table) × (self.new.job ≡ self.old.job) }
        ensures same_task { cx.new.me ≡ cx.old.me }
        ensures wakes { KeepsWakes cx.old.wakes cx.new.wakes }
        ensures ok { IfOk result (λ value. self.new.taken ≡ self.old.taken ++ value ∷ []) }
        ensures suits { IfOk result (T.suits self.old.job) }
        ensures going { OnOk result (self.new.ended ≡ None) }
        ensures woken { OnOk result (AreFoundWoken (FoundWaiting found.Took self.old.found self.new.found) cx.new.wakes) }
        ensures err { OnErr result (self.new.taken ≡ self.old.taken) }
        ensures refused { IfErr result (λ refused. ByRefusal refused ((self.new.ended ≡ None) × WasFound self.old.found self.new.found found.Empty) (self.new.ended ≡ Some Ended.Whole) (self.new.ended ≡ Some Ended.Cut)) }
        ensures registered { IfErr result (λ refused. ByRefusal refused (WasFound self.old.found self.new.found (found.Waits (cx.old.me.0 + 1))) ⊤ ⊤) }
        ensures stays { IfSome self.old.ended (λ end. result ≡ Err (answer_at end)) }
    {
        let (value, task) = self.end.wait(cx.me)?;
        cx.wakes.wake(task);
        Ok(value)
    }
}
