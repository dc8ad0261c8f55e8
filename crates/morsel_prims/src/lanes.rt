//! Who makes lanes, and groups of tokens.
use crate::lane::{LaneReceiver, LaneSender, Message};
use crate::poll::Poll;
use crate::task::{Board, Cx};
use morsel_meaning::Fault;
use std::alloc::Global;

/// Groups that count their tokens.
///
/// A group, and each token, has parts, which contracts alone see. A group has 2^62 of them when it is made, and again
/// where all tokens were released.
pub trait Tokens {
    ghost use Rattle.std.specs.Prelude.{◌≡◌, ℕ, ◌+◌, ◌/◌, ◌^◌, ◌<◌, ◌≤◌, List, IfOk, OnOk, OnErr, IfErr};
    ghost use Rattle.atomic_table.specs.Seated.{TableId};
    ghost use Rattle.morsel_meaning.specs.declared.task.TaskNo.{TaskNo};
    ghost use Rattle.morsel_meaning.specs.declared.fault.Fault.TheVariants.{OutOfMemory};
    ghost use Rattle.morsel_prims.specs.Polled.{LaneId, IfReady, OnPending};
    ghost use Rattle.morsel_prims.specs.Waiting.{KeepsOthersWaiting, KeepsWaiting, SameWaiting, WaitPlace};
    ghost use Rattle.morsel_prims.specs.Woken.{AreFoundWoken, KeepsWakes};

    /// Where lanes and groups are kept.
    type Board: Board + Drop;

    /// Counts its tokens.
    type Group: Drop;

    /// Is counted by its group until it is released.
    type Token: Drop;

    /// The table of the board on which a group was made.
    ghost group_home: { Self.Group → TableId };

    /// Which group it is.
    ghost group_id: { Self.Group → LaneId };

    /// A group's parts.
    ghost parts: { Self.Group → ℕ };

    /// Where on the board a task may wait for the group.
    ghost wait_places: { Self.Group → List WaitPlace };

    /// This task is registered at a group: by the board after a call, and by the group before and after.
    ghost group_registered: { Self.Board → Self.Group → Self.Group → TaskNo → Type 0 };

    /// A step of a call found tokens that are not released: by the board after it, and by the group before and after.
    ghost found_tokens: { Self.Board → Self.Group → Self.Group → Type 0 };

    /// A step of a call found that each token was released: by the board after it, and by the group before and after.
    ghost found_none: { Self.Board → Self.Group → Self.Group → Type 0 };

    /// No step of a call changed the count: by the board before and after it, and by the group before and after.
    ghost kept_count: { Self.Board → Self.Board → Self.Group → Self.Group → Type 0 };

    /// No group had the identity of this one: by the board before it was made.
    ghost is_new: { Self.Board → Self.Group → Type 0 };

    /// A step of a call added one to the count: by the board before and after it, and by the group before and after.
    ghost counted_one: { Self.Board → Self.Board → Self.Group → Self.Group → Type 0 };

    /// A step of a call added one to the count: by the board before and after it, and by a token before and after.
    ghost counted_more: { Self.Board → Self.Board → Self.Token → Self.Token → Type 0 };

    /// A step of a call took one from the count: by the board before and after it, and by the token.
    ghost counted_less: { Self.Board → Self.Board → Self.Token → Type 0 };

    /// The table of the board on which a token was made.
    ghost token_home: { Self.Token → TableId };

    /// The group of a token.
    ghost token_group: { Self.Token → LaneId };

    /// A token's parts.
    ghost token_parts: { Self.Token → ℕ };

    /// A release found these tasks waiting for this token, as the last one: by the board before it.
    ghost found_waiting_token: { Self.Board → Self.Token → List TaskNo → Type 0 };

    /// A group without tokens.
    fn group(alloc: Global, board: &mut Self::Board) -> Result<Self::Group, Fault>
        ensures home { IfOk result (λ group. group_home group ≡ (Self.Board.id board.new).group_table) }
        ensures parts { IfOk result (λ group. parts group ≡ 2 ^ 62) }
        ensures new { IfOk result (is_new board.old) }
        ensures none { IfOk result (λ group. found_none board.new group group) }
        ensures out_of_memory { IfErr result (λ fault. fault ≡ OutOfMemory) }
        ensures err { OnErr result (board.new ≡ board.old) }
        ensures same_waiting { SameWaiting (Self.Board.waits_at board.old) (Self.Board.waits_at board.new) }
        ensures same_board { Self.Board.id board.new ≡ Self.Board.id board.old };

    /// One more token of the group.
    fn token(cx: &mut Cx<Self::Board>, group: &mut Self::Group) -> Result<Self::Token, Fault>
        requires home { group_home group.old ≡ (Self.Board.id cx.old.board).group_table }
        requires parts { 2 ^ 31 < parts group.old }
        ensures same_group { (group_home group.new ≡ group_home group.old) × (group_id group.new ≡ group_id group.old) × (wait_places group.new ≡ wait_places group.old) }
        ensures token { IfOk result (λ token. (token_home token ≡ group_home group.old) × (token_group token ≡ group_id group.old)) }
        ensures token_parts { IfOk result (λ token. token_parts token ≡ 2 ^ 31) }
        ensures ok { OnOk result (parts group.new + 2 ^ 31 ≡ parts group.old) }
        ensures counted { OnOk result (counted_one cx.old.board cx.new.board group.old group.new) }
        ensures err { OnErr result ((parts group.new ≡ parts group.old) × (cx.new.board ≡ cx.old.board)) }
        ensures out_of_memory { IfErr result (λ fault. fault ≡ OutOfMemory) }
        ensures same_waiting { SameWaiting (Self.Board.waits_at cx.old.board) (Self.Board.waits_at cx.new.board) }
        ensures same_board { Self.Board.id cx.new.board ≡ Self.Board.id cx.old.board }
        ensures same_task { cx.new.me ≡ cx.old.me }
        ensures wakes { KeepsWakes cx.old.wakes cx.new.wakes };

    /// One more token of the token's group.
    fn again(cx: &mut Cx<Self::Board>, token: &mut Self::Token) -> Result<Self::Token, Fault>
        requires home { token_home token.old ≡ (Self.Board.id cx.old.board).group_table }
        requires parts { 2 ≤ token_parts token.old }
        ensures same_token { (token_home token.new ≡ token_home token.old) × (token_group token.new ≡ token_group token.old) }
        ensures token { IfOk result (λ more. (token_home more ≡ token_home token.old) × (token_group more ≡ token_group token.old)) }
        ensures more { IfOk result (λ more. token_parts more ≡ token_parts token.old / 2) }
        ensures ok { IfOk result (λ more. token_parts token.new + token_parts more ≡ token_parts token.old) }
        ensures counted { OnOk result (counted_more cx.old.board cx.new.board token.old token.new) }
        ensures err { OnErr result ((token_parts token.new ≡ token_parts token.old) × (cx.new.board ≡ cx.old.board)) }
        ensures out_of_memory { IfErr result (λ fault. fault ≡ OutOfMemory) }
        ensures same_waiting { SameWaiting (Self.Board.waits_at cx.old.board) (Self.Board.waits_at cx.new.board) }
        ensures same_board { Self.Board.id cx.new.board ≡ Self.Board.id cx.old.board }
        ensures same_task { cx.new.me ≡ cx.old.me }
        ensures wakes { KeepsWakes cx.old.wakes cx.new.wakes };

    /// Its group counts the token no more.
    fn release(cx: &mut Cx<Self::Board>, token: Self::Token)
        requires home { token_home token ≡ (Self.Board.id cx.old.board).group_table }
        ensures counted { counted_less cx.old.board cx.new.board token }
        ensures woken { AreFoundWoken (found_waiting_token cx.old.board token) cx.new.wakes }
        ensures keeps_waiting { KeepsWaiting (Self.Board.waits_at cx.old.board) (Self.Board.waits_at cx.new.board) cx.new.wakes }
        ensures same_board { Self.Board.id cx.new.board ≡ Self.Board.id cx.old.board }
        ensures same_task { cx.new.me ≡ cx.old.me }
        ensures wakes { KeepsWakes cx.old.wakes cx.new.wakes };

    /// Waits until no token is left. A later wait takes the place of an earlier one.
    fn poll_wait(cx: &mut Cx<Self::Board>, group: &mut Self::Group) -> Poll<()>
        requires home { group_home group.old ≡ (Self.Board.id cx.old.board).group_table }
        ensures same_group { (group_home group.new ≡ group_home group.old) × (group_id group.new ≡ group_id group.old) × (wait_places group.new ≡ wait_places group.old) }
        ensures ready { IfReady result (λ _. parts group.new ≡ 2 ^ 62) }
        ensures none { IfReady result (λ _. found_none cx.new.board group.old group.new) }
        ensures unchanged { IfReady result (λ _. cx.new.board ≡ cx.old.board) }
        ensures same_count { kept_count cx.old.board cx.new.board group.old group.new }
        ensures same_parts { OnPending result (parts group.new ≡ parts group.old) }
        ensures tokens { OnPending result (found_tokens cx.new.board group.old group.new) }
        ensures registered { OnPending result (group_registered cx.new.board group.old group.new cx.old.me) }
        ensures keeps_waiting { KeepsOthersWaiting (wait_places group.old) cx.old.me (Self.Board.waits_at cx.old.board) (Self.Board.waits_at cx.new.board) cx.new.wakes }
        ensures same_board { Self.Board.id cx.new.board ≡ Self.Board.id cx.old.board }
        ensures same_task { cx.new.me ≡ cx.old.me }
        ensures wakes { KeepsWakes cx.old.wakes cx.new.wakes };
}

/// Makes lanes, and compares what their two ends know.
pub trait Lanes<T: Message>: Tokens {
    ghost use Rattle.std.specs.Prelude.{◌≡◌, ℕ, ◌≤◌, [], false, IfOk, IfErr, OnErr};
    ghost use Rattle.morsel_meaning.specs.declared.fault.Fault.TheVariants.{OutOfMemory};
    ghost use Rattle.morsel_prims.specs.Polled.{LaneHistory};
    ghost use Rattle.morsel_prims.specs.Waiting.{SameWaiting};

    /// The sending end of a lane.
    type Sender: LaneSender<T, Self::Board> + Drop;

    /// The receiving end of a lane.
    type Receiver: LaneReceiver<T, Self::Board> + Drop;

    /// The room of a lane that is asked for so many values.
    ghost room_of: { ℕ → ℕ };

    /// The room of a lane that is asked for so many values.
    fn room(asked: u32) -> u32
        requires asked { (1 ≤ asked) × (asked ≤ 65536) }
        ensures room { result ≡ room_of asked }
        ensures within { (1 ≤ room_of asked) × (room_of asked ≤ asked) };

    /// A lane for this job: its two ends.
    fn lane(
        alloc: Global,
        board: &mut Self::Board,
        asked: u32,
        job: &T::Job,
    ) -> Result<(Self::Sender, Self::Receiver), Fault>
        requires asked { (1 ≤ asked) × (asked ≤ 65536) }
        ensures job { IfOk result (λ ends. (Self.Sender.job ends.0 ≡ job.now) × (Self.Receiver.job ends.1 ≡ job.now)) }
        ensures home { IfOk result (λ ends. (Self.Sender.home ends.0 ≡ (Self.Board.id board.new).lane_table) × (Self.Receiver.home ends.1 ≡ (Self.Board.id board.new).lane_table)) }
        ensures lane { IfOk result (λ ends. Self.Sender.lane ends.0 ≡ Self.Receiver.lane ends.1) }
        ensures empty { IfOk result (λ ends. (Self.Sender.sent ends.0 ≡ []) × (Self.Receiver.taken ends.1 ≡ [])) }
        ensures unended { IfOk result (λ ends. (Self.Receiver.is_whole ends.1 ≡ false) × (Self.Receiver.is_cut ends.1 ≡ false)) }
        ensures room { IfOk result (λ ends. Self.Sender.room ends.0 ≡ room_of asked) }
        ensures within { (1 ≤ room_of asked) × (room_of asked ≤ asked) }
        ensures out_of_memory { IfErr result (λ fault. fault ≡ OutOfMemory) }
        ensures err { OnErr result (board.new ≡ board.old) }
        ensures same_waiting { SameWaiting (Self.Board.waits_at board.old) (Self.Board.waits_at board.new) }
        ensures same_board { Self.Board.id board.new ≡ Self.Board.id board.old };

    /// Changes nothing, and tells that what was taken is the beginning of what was sent; the lane holds the rest.
    fn history(board: &mut Self::Board, sender: &mut Self::Sender, receiver: &mut Self::Receiver)
        requires home { (Self.Sender.home sender.old ≡ (Self.Board.id board.old).lane_table) × (Self.Receiver.home receiver.old ≡ (Self.Board.id board.old).lane_table) }
        requires lane { Self.Sender.lane sender.old ≡ Self.Receiver.lane receiver.old }
        ensures history { LaneHistory (Self.Sender.sent sender.old) (Self.Receiver.taken receiver.old) (Self.Sender.room sender.old) }
        ensures same_sender { (Self.Sender.home sender.new ≡ Self.Sender.home sender.old) × (Self.Sender.lane sender.new ≡ Self.Sender.lane sender.old) × (Self.Sender.room sender.new ≡ Self.Sender.room sender.old) × (Self.Sender.job sender.new ≡ Self.Sender.job sender.old) × (Self.Sender.wait_places sender.new ≡ Self.Sender.wait_places sender.old) }
        ensures same_receiver { (Self.Receiver.home receiver.new ≡ Self.Receiver.home receiver.old) × (Self.Receiver.lane receiver.new ≡ Self.Receiver.lane receiver.old) × (Self.Receiver.job receiver.new ≡ Self.Receiver.job receiver.old) × (Self.Receiver.wait_places receiver.new ≡ Self.Receiver.wait_places receiver.old) }
        ensures same_lists { (Self.Sender.sent sender.new ≡ Self.Sender.sent sender.old) × (Self.Receiver.taken receiver.new ≡ Self.Receiver.taken receiver.old) }
        ensures same_end { (Self.Receiver.is_whole receiver.new ≡ Self.Receiver.is_whole receiver.old) × (Self.Receiver.is_cut receiver.new ≡ Self.Receiver.is_cut receiver.old) }
        ensures unchanged { board.new ≡ board.old }
        ensures same_board { Self.Board.id board.new ≡ Self.Board.id board.old };

    /// What was sent through a lane is what was taken from it.
    fn agree(
        board: &mut Self::Board,
        sent: <Self::Sender as LaneSender<T, Self::Board>>::Receipt,
        taken: <Self::Receiver as LaneReceiver<T, Self::Board>>::Receipt,
    )
        requires home { (Self.Sender.receipt_home sent ≡ (Self.Board.id board.old).lane_table) × (Self.Receiver.receipt_home taken ≡ (Self.Board.id board.old).lane_table) }
        requires lane { Self.Sender.receipt_lane sent ≡ Self.Receiver.receipt_lane taken }
        ensures same { Self.Sender.all_sent sent ≡ Self.Receiver.all_taken taken }
        ensures unchanged { board.new ≡ board.old }
        ensures same_board { Self.Board.id board.new ≡ Self.Board.id board.old };
}
