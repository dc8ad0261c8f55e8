//! The two ends of a lane.
//!
//! A lane has two lists: what was sent, and what was taken. Each end knows its own. What an end of another task did is
//! known at the end, where the receipts of both ends agree.
use crate::poll::Poll;
use crate::task::{Board, Cx};

/// Why a value was not sent.
#[derive(Clone, Copy, Debug, Drop, PartialEq, Eq)]
pub enum SendError<T> {
    /// The lane has no room; the value comes back.
    Full(T),
    /// The receiver has closed; the value comes back.
    Closed(T),
}

/// Why nothing was received.
#[derive(Clone, Copy, Debug, PartialEq, Eq)]
pub enum RecvError {
    /// There is nothing in the lane, and it is open.
    Empty,
    /// All was taken, and the sender has finished.
    Whole,
    /// All was taken, and the sender has cut the lane.
    Cut,
}

/// How a lane ended.
#[derive(Clone, Copy, Debug, PartialEq, Eq)]
pub enum Ended {
    /// The sender has finished.
    Whole,
    /// The sender has cut the lane.
    Cut,
}

/// What a lane carries.
pub trait Message: Drop {
    /// What a lane is for. Contracts alone see it.
    type Job;

    /// The value is one that a lane with this job may carry.
    ghost suits: { Self.Job → Self → Type 0 };
}

/// The sending end of a lane.
pub trait LaneSender<T: Message, B: Board> {
    ghost use Rattle.std.specs.Prelude.{◌≡◌, ℕ, ◌≤◌, Option, None, Some, IfSome, IsSome, List, [], ◌∷◌, ◌++◌, OnOk, OnErr, IfErr};
    ghost use Rattle.atomic_table.specs.Seated.{TableId};
    ghost use Rattle.morsel_meaning.specs.declared.task.TaskNo.{TaskNo};
    ghost use Rattle.morsel_prims.specs.Polled.{LaneId, IfReady, OnPending, held_list, refused_value, IfFull, IfClosed, UnlessClosed};
    ghost use Rattle.morsel_prims.specs.Waiting.{KeepsOthersWaiting, KeepsWaiting, WaitPlace};
    ghost use Rattle.morsel_prims.specs.Woken.{AreFoundWoken, KeepsWakes};

    /// What tells that the lane was finished, and what was sent.
    type Receipt: Drop;

    /// The table of the board on which it was made.
    ghost home: { Self → TableId };

    /// Which lane it is an end of.
    ghost lane: { Self → LaneId };

    /// For how many values the lane has room.
    ghost room: { Self → ℕ };

    /// What the lane is for.
    ghost job: { Self → T.Job };

    /// What was sent, the first value first.
    ghost sent: { Self → List T };

    /// Where on the board the end may wait.
    ghost wait_places: { Self → List WaitPlace };

    /// This task is registered where the end waits: by the board after a call, and by the end before and after.
    ghost registered: { B → Self → Self → TaskNo → Type 0 };

    /// A step of a call found these tasks waiting for it: by the board before the call, and by the end before and after.
    ghost found_waiting: { B → Self → Self → List TaskNo → Type 0 };

    /// A step of a call found the receiver open and room in the lane: by the board after it, and by the end before and after.
    ghost found_room: { B → Self → Self → Type 0 };

    /// A step of a call found the receiver open and the lane full.
    ghost found_full: { B → Self → Self → Type 0 };

    /// A step of a call found the receiver closed.
    ghost found_closed: { B → Self → Self → Type 0 };

    /// A step of a call found so many values in the lane.
    ghost found_held: { B → Self → Self → ℕ → Type 0 };

    /// The end was cut: by the board after it.
    ghost has_cut: { B → Self → Type 0 };

    /// A cut found these tasks waiting for the end: by the board before it.
    ghost found_waiting_cut: { B → Self → List TaskNo → Type 0 };

    /// The table of the board on which a receipt's lane was made.
    ghost receipt_home: { Self.Receipt → TableId };

    /// The lane of a receipt.
    ghost receipt_lane: { Self.Receipt → LaneId };

    /// All that was sent.
    ghost all_sent: { Self.Receipt → List T };

    /// The lane of a receipt was finished: by the board after it.
    ghost has_finished: { B → Self.Receipt → Type 0 };

    /// A finish found these tasks waiting for the end: by the board before it, by the end, and by the receipt.
    ghost found_waiting_finish: { B → Self → Self.Receipt → List TaskNo → Type 0 };

    /// Sends the value that `value` holds, or registers who polls where the lane is full.
    fn poll_send(&mut self, cx: &mut Cx<B>, value: &mut Option<T>) -> Poll<Result<(), T>>
        requires home { home self.old ≡ (B.id cx.old.board).lane_table }
        requires some { IsSome value.old }
        requires suits { IfSome value.old (T.suits (job self.old)) }
        ensures same_end { (home self.new ≡ home self.old) × (lane self.new ≡ lane self.old) × (room self.new ≡ room self.old) × (job self.new ≡ job self.old) × (wait_places self.new ≡ wait_places self.old) }
        ensures same_board { B.id cx.new.board ≡ B.id cx.old.board }
        ensures same_task { cx.new.me ≡ cx.old.me }
        ensures keeps_waiting { KeepsOthersWaiting (wait_places self.old) cx.old.me (B.waits_at cx.old.board) (B.waits_at cx.new.board) cx.new.wakes }
        ensures wakes { KeepsWakes cx.old.wakes cx.new.wakes }
        // What is sent, and then what is held, is what it was, unless the receiver has closed.
        ensures sent { UnlessClosed result (sent self.new ++ held_list value.new ≡ sent self.old ++ held_list value.old) }
        ensures left { IfReady result (λ answer. value.new ≡ None) }
        ensures room { IfReady result (λ answer. OnOk answer (found_room cx.new.board self.old self.new)) }
        ensures woken { IfReady result (λ answer. OnOk answer (AreFoundWoken (found_waiting cx.old.board self.old self.new) cx.new.wakes)) }
        ensures back { IfReady result (λ answer. IfErr answer (λ refused. value.old ≡ Some refused)) }
        ensures err { IfReady result (λ answer. OnErr answer (sent self.new ≡ sent self.old)) }
        ensures closed { IfReady result (λ answer. OnErr answer (found_closed cx.new.board self.old self.new)) }
        ensures same_value { OnPending result (value.new ≡ value.old) }
        ensures same_sent { OnPending result (sent self.new ≡ sent self.old) }
        ensures full { OnPending result (found_full cx.new.board self.old self.new) }
        ensures registered { OnPending result (registered cx.new.board self.old self.new cx.old.me) };

    /// Sends the value, or hands it back.
    fn try_send(&mut self, cx: &mut Cx<B>, value: T) -> Result<(), SendError<T>>
        requires home { home self.old ≡ (B.id cx.old.board).lane_table }
        requires suits { T.suits (job self.old) value }
        ensures same_end { (home self.new ≡ home self.old) × (lane self.new ≡ lane self.old) × (room self.new ≡ room self.old) × (job self.new ≡ job self.old) × (wait_places self.new ≡ wait_places self.old) }
        ensures same_board { B.id cx.new.board ≡ B.id cx.old.board }
        ensures same_task { cx.new.me ≡ cx.old.me }
        ensures keeps_waiting { KeepsWaiting (B.waits_at cx.old.board) (B.waits_at cx.new.board) cx.new.wakes }
        ensures wakes { KeepsWakes cx.old.wakes cx.new.wakes }
        ensures ok { OnOk result (sent self.new ≡ sent self.old ++ value ∷ []) }
        ensures room { OnOk result (found_room cx.new.board self.old self.new) }
        ensures woken { OnOk result (AreFoundWoken (found_waiting cx.old.board self.old self.new) cx.new.wakes) }
        ensures back { IfErr result (λ refused. refused_value refused ≡ value) }
        ensures err { OnErr result (sent self.new ≡ sent self.old) }
        ensures unchanged { OnErr result (cx.new.board ≡ cx.old.board) }
        ensures full { IfErr result (λ refused. IfFull refused (found_full cx.new.board self.old self.new)) }
        ensures closed { IfErr result (λ refused. IfClosed refused (found_closed cx.new.board self.old self.new)) };

    /// At least as many values as the lane holds.
    fn len_bound(&mut self, cx: &mut Cx<B>) -> u32
        requires home { home self.old ≡ (B.id cx.old.board).lane_table }
        ensures same_end { (home self.new ≡ home self.old) × (lane self.new ≡ lane self.old) × (room self.new ≡ room self.old) × (job self.new ≡ job self.old) × (wait_places self.new ≡ wait_places self.old) }
        ensures same_board { B.id cx.new.board ≡ B.id cx.old.board }
        ensures same_task { cx.new.me ≡ cx.old.me }
        ensures wakes { KeepsWakes cx.old.wakes cx.new.wakes }
        ensures sent { sent self.new ≡ sent self.old }
        ensures unchanged { cx.new.board ≡ cx.old.board }
        ensures at_least { (held : ℕ) × found_held cx.new.board self.old self.new held × (held ≤ result) }
        ensures at_most { result ≤ room self.old };

    /// Closes the lane: all was sent.
    fn finish(self, cx: &mut Cx<B>) -> Self::Receipt
        requires home { home self ≡ (B.id cx.old.board).lane_table }
        ensures lane { (receipt_lane result ≡ lane self) × (receipt_home result ≡ home self) }
        ensures sent { all_sent result ≡ sent self }
        ensures finished { has_finished cx.new.board result }
        ensures woken { AreFoundWoken (found_waiting_finish cx.old.board self result) cx.new.wakes }
        ensures same_board { B.id cx.new.board ≡ B.id cx.old.board }
        ensures same_task { cx.new.me ≡ cx.old.me }
        ensures keeps_waiting { KeepsWaiting (B.waits_at cx.old.board) (B.waits_at cx.new.board) cx.new.wakes }
        ensures wakes { KeepsWakes cx.old.wakes cx.new.wakes };

    /// Closes the lane: what was sent is not all.
    fn cut(self, cx: &mut Cx<B>)
        requires home { home self ≡ (B.id cx.old.board).lane_table }
        ensures cut { has_cut cx.new.board self }
        ensures woken { AreFoundWoken (found_waiting_cut cx.old.board self) cx.new.wakes }
        ensures same_board { B.id cx.new.board ≡ B.id cx.old.board }
        ensures same_task { cx.new.me ≡ cx.old.me }
        ensures keeps_waiting { KeepsWaiting (B.waits_at cx.old.board) (B.waits_at cx.new.board) cx.new.wakes }
        ensures wakes { KeepsWakes cx.old.wakes cx.new.wakes };
}

/// The receiving end of a lane.
pub trait LaneReceiver<T: Message, B: Board> {
    ghost use Rattle.std.specs.Prelude.{◌≡◌, Bool, true, false, List, [], ◌∷◌, ◌++◌, Err, IfOk, OnOk, OnErr, IfErr};
    ghost use Rattle.atomic_table.specs.Seated.{TableId};
    ghost use Rattle.morsel_meaning.specs.declared.task.TaskNo.{TaskNo};
    ghost use Rattle.morsel_prims.specs.Polled.{LaneId, IfReady, OnPending, ByRefusal, ByEnd};
    ghost use Rattle.morsel_prims.specs.Waiting.{KeepsOthersWaiting, KeepsWaiting, WaitPlace};
    ghost use Rattle.morsel_prims.specs.Woken.{AreFoundWoken, KeepsWakes};
    ghost use Rattle.morsel_prims.specs.declared.poll.Poll.TheVariants.{Ready};
    ghost use Rattle.morsel_prims.specs.declared.lane.RecvError.{RecvError};
    ghost use Rattle.morsel_prims.specs.declared.lane.Ended.{Ended};

    /// What tells that the lane ended whole, and what was taken.
    type Receipt: Drop;

    /// The table of the board on which it was made.
    ghost home: { Self → TableId };

    /// Which lane it is an end of.
    ghost lane: { Self → LaneId };

    /// What the lane is for.
    ghost job: { Self → T.Job };

    /// What was taken, the first value first.
    ghost taken: { Self → List T };

    /// It has answered that the lane ended whole.
    ghost is_whole: { Self → Bool };

    /// It has answered that the lane was cut.
    ghost is_cut: { Self → Bool };

    /// Where on the board the end may wait.
    ghost wait_places: { Self → List WaitPlace };

    /// This task is registered where the end waits: by the board after a call, and by the end before and after.
    ghost registered: { B → Self → Self → TaskNo → Type 0 };

    /// A step of a call found these tasks waiting for it: by the board before the call, and by the end before and after.
    ghost found_waiting: { B → Self → Self → List TaskNo → Type 0 };

    /// A step of a call found the lane open and empty: by the board after it, and by the end before and after.
    ghost found_empty: { B → Self → Self → Type 0 };

    /// All of what was sent was taken, and the sender has finished, or else cut the lane: by the board after a call, and by the end after it.
    ghost found_ended: { B → Self → Bool → Type 0 };

    /// The end has closed: by the board after it.
    ghost has_cut: { B → Self → Type 0 };

    /// A cut found these tasks waiting for the end: by the board before it.
    ghost found_waiting_cut: { B → Self → List TaskNo → Type 0 };

    /// The table of the board on which a receipt's lane was made.
    ghost receipt_home: { Self.Receipt → TableId };

    /// The lane of a receipt.
    ghost receipt_lane: { Self.Receipt → LaneId };

    /// All that was taken.
    ghost all_taken: { Self.Receipt → List T };

    /// What the receiver of a lane that ended whole has taken is all.
    fn receipt(self) -> Self::Receipt
        requires whole { is_whole self ≡ true }
        ensures lane { (receipt_lane result ≡ lane self) × (receipt_home result ≡ home self) }
        ensures taken { all_taken result ≡ taken self };

    /// Takes the next value, or registers who polls where there is none.
    fn poll_recv(&mut self, cx: &mut Cx<B>) -> Poll<Result<T, Ended>>
        requires home { home self.old ≡ (B.id cx.old.board).lane_table }
        ensures same_end { (home self.new ≡ home self.old) × (lane self.new ≡ lane self.old) × (job self.new ≡ job self.old) × (wait_places self.new ≡ wait_places self.old) }
        ensures same_board { B.id cx.new.board ≡ B.id cx.old.board }
        ensures same_task { cx.new.me ≡ cx.old.me }
        ensures keeps_waiting { KeepsOthersWaiting (wait_places self.old) cx.old.me (B.waits_at cx.old.board) (B.waits_at cx.new.board) cx.new.wakes }
        ensures wakes { KeepsWakes cx.old.wakes cx.new.wakes }
        ensures ok { IfReady result (λ answer. IfOk answer (λ value. taken self.new ≡ taken self.old ++ value ∷ [])) }
        ensures suits { IfReady result (λ answer. IfOk answer (T.suits (job self.old))) }
        ensures unended { IfReady result (λ answer. OnOk answer ((is_whole self.new ≡ false) × (is_cut self.new ≡ false))) }
        ensures woken { IfReady result (λ answer. OnOk answer (AreFoundWoken (found_waiting cx.old.board self.old self.new) cx.new.wakes)) }
        ensures err { IfReady result (λ answer. OnErr answer (taken self.new ≡ taken self.old)) }
        ensures ended { IfReady result (λ answer. IfErr answer (λ end. ByEnd end ((is_whole self.new ≡ true) × found_ended cx.new.board self.new true) ((is_cut self.new ≡ true) × found_ended cx.new.board self.new false))) }
        ensures same_taken { OnPending result (taken self.new ≡ taken self.old) }
        ensures pending { OnPending result ((is_whole self.new ≡ false) × (is_cut self.new ≡ false)) }
        ensures empty { OnPending result (found_empty cx.new.board self.old self.new) }
        ensures registered { OnPending result (registered cx.new.board self.old self.new cx.old.me) }
        // The answers that stay.
        ensures whole { is_whole self.old ≡ true → result ≡ Ready (Err Ended.Whole) }
        ensures cut { is_cut self.old ≡ true → result ≡ Ready (Err Ended.Cut) };

    /// Takes the next value.
    fn try_recv(&mut self, cx: &mut Cx<B>) -> Result<T, RecvError>
        requires home { home self.old ≡ (B.id cx.old.board).lane_table }
        ensures same_end { (home self.new ≡ home self.old) × (lane self.new ≡ lane self.old) × (job self.new ≡ job self.old) × (wait_places self.new ≡ wait_places self.old) }
        ensures same_board { B.id cx.new.board ≡ B.id cx.old.board }
        ensures same_task { cx.new.me ≡ cx.old.me }
        ensures keeps_waiting { KeepsWaiting (B.waits_at cx.old.board) (B.waits_at cx.new.board) cx.new.wakes }
        ensures wakes { KeepsWakes cx.old.wakes cx.new.wakes }
        ensures ok { IfOk result (λ value. taken self.new ≡ taken self.old ++ value ∷ []) }
        ensures suits { IfOk result (T.suits (job self.old)) }
        ensures unended { OnOk result ((is_whole self.new ≡ false) × (is_cut self.new ≡ false)) }
        ensures woken { OnOk result (AreFoundWoken (found_waiting cx.old.board self.old self.new) cx.new.wakes) }
        ensures err { OnErr result (taken self.new ≡ taken self.old) }
        ensures refused { IfErr result (λ refusal. ByRefusal refusal (found_empty cx.new.board self.old self.new) ((is_whole self.new ≡ true) × found_ended cx.new.board self.new true) ((is_cut self.new ≡ true) × found_ended cx.new.board self.new false)) }
        ensures empty { IfErr result (λ refusal. refusal ≡ RecvError.Empty → (is_whole self.new ≡ false) × (is_cut self.new ≡ false)) }
        ensures unchanged { IfErr result (λ refusal. refusal ≡ RecvError.Empty → cx.new.board ≡ cx.old.board) }
        // The answers that stay.
        ensures whole { is_whole self.old ≡ true → result ≡ Err RecvError.Whole }
        ensures cut { is_cut self.old ≡ true → result ≡ Err RecvError.Cut };

    /// Closes the lane. What was sent and not taken stays untaken.
    fn cut(self, cx: &mut Cx<B>)
        requires home { home self ≡ (B.id cx.old.board).lane_table }
        ensures cut { has_cut cx.new.board self }
        ensures woken { AreFoundWoken (found_waiting_cut cx.old.board self) cx.new.wakes }
        ensures same_board { B.id cx.new.board ≡ B.id cx.old.board }
        ensures same_task { cx.new.me ≡ cx.old.me }
        ensures keeps_waiting { KeepsWaiting (B.waits_at cx.old.board) (B.waits_at cx.new.board) cx.new.wakes }
        ensures wakes { KeepsWakes cx.old.wakes cx.new.wakes };
}
