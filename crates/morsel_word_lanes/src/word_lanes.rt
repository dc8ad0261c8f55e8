//! Who makes lanes and groups between threads.
ghost use Rattle.std.specs.Prelude.{◌≡◌};

use crate::connect::connector;
use crate::receiver::Receiver;
use crate::sender::Sender;
use morsel_meaning::Fault;
use morsel_prims::{Cx, Lanes, Message, Poll, Tokens};
use morsel_word_groups::{WaitGroup, WaitToken};
use morsel_words::{WordSent, WordTaken, agree_receipts, tell_history};
use std::alloc::Global;

/// Lanes between threads, each with room for one value, and groups of tokens. No value of it is needed.
#[derive(Drop)]
pub struct WordLanes {}

impl Tokens for WordLanes {
    ghost use Rattle.std.specs.Prelude.{◌+◌, [], ◌∷◌, ⊤};
    ghost use Rattle.morsel_prims.specs.Polled.{no_table};
    ghost use Rattle.morsel_words.specs.Since.{WasFound};
    ghost use Rattle.morsel_word_groups.specs.Seen.{OnlyLooked, FoundWaitingForLast};
    ghost use Rattle.morsel_word_groups.specs.declared.view.GroupFound.TheVariants as found;
    ghost use Rattle.morsel_word_lanes.specs.Groups.{FoundNone, FoundLess};

    type Board = ();

    type Group = WaitGroup;

    type Token = WaitToken;

    ghost group_home = { λ group. no_table };

    ghost group_id = { λ group. record { table = group.table; place = 0 } };

    ghost parts = { λ group. group.parts };

    ghost wait_places = { λ group. [] };

    ghost group_registered = { λ board old new task. WasFound old.found new.found (found.Waits (task.0 + 1)) };

    ghost found_tokens = { λ board old new. WasFound old.found new.found found.SomeLeft };

    ghost found_none = { λ board old new. FoundNone old.found new.found };

    ghost kept_count = { λ before after old new. OnlyLooked old.found new.found };

    ghost is_new = { λ board group. ⊤ };

    ghost counted_one = { λ before after old new. new.found ≡ found.More ∷ old.found };

    ghost counted_more = { λ before after old new. new.found ≡ found.More ∷ old.found };

    ghost counted_less = { λ before after token. FoundLess token.found };

    ghost token_home = { λ token. no_table };

    ghost token_group = { λ token. record { table = token.table; place = 0 } };

    ghost token_parts = { λ token. token.parts };

    ghost found_waiting_token = { λ board token. FoundWaitingForLast token.found };

    fn group(alloc: Global, board: &mut ()) -> Result<WaitGroup, Fault> {
        let _ = board;
        WaitGroup::new(alloc)
    }

    fn token(cx: &mut Cx<()>, group: &mut WaitGroup) -> Result<WaitToken, Fault> {
        group.token(cx)
    }

    fn again(cx: &mut Cx<()>, token: &mut WaitToken) -> Result<WaitToken, Fault> {
        token.again(cx)
    }

    fn release(cx: &mut Cx<()>, token: WaitToken) {
        token.release(cx);
    }

    fn poll_wait(cx: &mut Cx<()>, group: &mut WaitGroup) -> Poll<()> {
        group.poll_wait(cx)
    }
}

impl<T: Message> Lanes<T> for WordLanes {
    type Sender = Sender<T>;

    type Receiver = Receiver<T>;

    ghost room_of = { λ asked. 1 };

    fn room(asked: u32) -> u32 {
        let _ = asked;
        1
    }

    fn lane(
        alloc: Global,
        board: &mut (),
        asked: u32,
        job: &T::Job,
    ) -> Result<(Sender<T>, Receiver<T>), Fault> {
        let _ = board;
        let _ = asked;
        connector(alloc, job)
    }

    fn history(board: &mut (), sender: &mut Sender<T>, receiver: &mut Receiver<T>) {
        let _ = board;
        tell_history(&mut sender.end, &mut receiver.end);
    }

    fn agree(board: &mut (), sent: WordSent<T>, taken: WordTaken<T>) {
        let _ = board;
        agree_receipts(sent, taken);
    }
}
