//! The sending end of a connector.
ghost use Rattle.std.specs.Prelude.{◌≡◌, ◌+◌, ◌++◌, [], ◌∷◌, OnOk, OnErr, IfErr};
ghost use Rattle.morsel_prims.specs.Polled.{refused_value, IfFull, IfClosed};
ghost use Rattle.morsel_prims.specs.Woken.{AreFoundWoken, KeepsWakes};
ghost use Rattle.morsel_words.specs.Since.{WasFound};
ghost use Rattle.morsel_words.specs.declared.view.Found.TheVariants as found;
ghost use Rattle.morsel_word_lanes.specs.Ends.{FoundWaiting};

use morsel_prims::{Cx, LaneSender, Message, Poll, SendError};
use morsel_words::{WordSender, WordSent};
use std::marker::Model;

/// The sending end of a lane between threads, with room for one value. One that is dropped stays for its peer as it is, for good.
#[derive(Drop)]
pub struct Sender<T: Message> {
    pub(crate) end: WordSender<T>,
}

impl<T: Message> Model for Sender<T> {
    ghost use Rattle.morsel_words.specs.Ends.{SendSeen};

    ghost Value = { SendSeen T T.Job };

    ghost view = { λ sender. sender.end };
}

impl<T: Message> LaneSender<T, ()> for Sender<T> {
    ghost use Rattle.std.specs.Prelude.{⊤};
    ghost use Rattle.morsel_prims.specs.Polled.{no_table};
    ghost use Rattle.morsel_word_lanes.specs.Ends.{FoundWaitingAtClose, FoundHeld, HasClosed};

    type Receipt = WordSent<T>;

    ghost home = { λ end. no_table };

    ghost lane = { λ end. record { table = end.table; place = 0 } };

    ghost room = { λ end. 1 };

    ghost job = { λ end. end.job };

    ghost sent = { λ end. end.sent };

    ghost wait_places = { λ end. [] };

    ghost registered = { λ board old new task. WasFound old.found new.found (found.Waits (task.0 + 1)) };

    ghost found_waiting = { λ board old new. FoundWaiting found.Sent old.found new.found };

    ghost found_room = { λ board old new. WasFound old.found new.found found.Room };

    ghost found_full = { λ board old new. WasFound old.found new.found found.Full };

    ghost found_closed = { λ board old new. WasFound old.found new.found found.Closed };

    ghost found_held = { λ board old new. FoundHeld old.found new.found };

    ghost has_cut = { λ board end. ⊤ };

    ghost found_waiting_cut = { λ board end. FoundWaitingAtClose end.found };

    ghost receipt_home = { λ sent. no_table };

    ghost receipt_lane = { λ sent. record { table = sent.table; place = 0 } };

    ghost all_sent = { λ sent. sent.sent };

    ghost has_finished = { λ board sent. HasClosed sent.found };

    ghost found_waiting_finish = { λ board end sent. FoundWaiting found.Closing end.found sent.found };

    fn poll_send(&mut self, cx: &mut Cx<()>, value: &mut Option<T>) -> Poll<Result<(), T>> {
        let Some(item) = value.take() else {
            unreachable!()
        };
        let item = match self.try_send(cx, item) {
            Ok(()) => return Poll::Ready(Ok(())),
            Err(SendError::Closed(item)) => return Poll::Ready(Err(item)),
            Err(SendError::Full(item)) => item,
        };
        match self.wait_for_room(cx, item) {
            Ok(()) => Poll::Ready(Ok(())),
            Err(SendError::Closed(item)) => Poll::Ready(Err(item)),
            Err(SendError::Full(item)) => {
                *value = Some(item);
                Poll::Pending
            }
        }
    }

    fn try_send(&mut self, cx: &mut Cx<()>, value: T) -> Result<(), SendError<T>> {
        let task = self.end.send(value)?;
        cx.wakes.wake(task);
        Ok(())
    }

    fn len_bound(&mut self, cx: &mut Cx<()>) -> u32 {
        let _ = cx;
        self.end.len_bound()
    }

    fn finish(self, cx: &mut Cx<()>) -> WordSent<T> {
        let Sender { end } = self;
        let (sent, task) = end.finish();
        cx.wakes.wake(task);
        sent
    }

    fn cut(self, cx: &mut Cx<()>) {
        let Sender { end } = self;
        let task = end.cut();
        cx.wakes.wake(task);
    }
}

impl<T: Message> Sender<T> {
    /// Registers who polls where the lane is full, and hands the value back; or sends it where there is room by then.
    fn wait_for_room(&mut self, cx: &mut Cx<()>, value: T) -> Result<(), SendError<T>>
        requires suits { T.suits self.old.job value }
        ensures same_end { (self.new.table ≡ self.old.table) × (self.new.job ≡ self.old.job) }
        ensures same_task { cx.new.me ≡ cx.old.me }
        ensures wakes { KeepsWakes cx.old.wakes cx.new.wakes }
        ensures ok { OnOk result (self.new.sent ≡ self.old.sent ++ value ∷ []) }
        ensures room { OnOk result (WasFound self.old.found self.new.found found.Room) }
        ensures woken { OnOk result (AreFoundWoken (FoundWaiting found.Sent self.old.found self.new.found) cx.new.wakes) }
        ensures back { IfErr result (λ refused. refused_value refused ≡ value) }
        ensures err { OnErr result (self.new.sent ≡ self.old.sent) }
        ensures full { IfErr result (λ refused. IfFull refused (WasFound self.old.found self.new.found found.Full)) }
        ensures registered { IfErr result (λ refused. IfFull refused (WasFound self.old.found self.new.found (found.Waits (cx.old.me.0 + 1)))) }
        ensures closed { IfErr result (λ refused. IfClosed refused (WasFound self.old.found self.new.found found.Closed)) }
    {
        let task = self.end.wait(cx.me, value)?;
        cx.wakes.wake(task);
        Ok(())
    }
}
