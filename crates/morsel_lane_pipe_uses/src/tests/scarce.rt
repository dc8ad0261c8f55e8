//! Lanes on which memory is out after so many tokens of a group.
use morsel_meaning::Fault;
use morsel_prims::{Cx, LaneReceiver, LaneSender, Lanes, Message, Poll, Tokens};
use std::alloc::Global;
use std::marker::PhantomData;

/// These lanes, but that a group gives so many tokens.
#[derive(Drop)]
pub struct ScarceLanes<M, const TOKENS: u32> {
    marker: PhantomData<M>,
}

/// A group, and how many tokens it may still give.
#[derive(Drop)]
pub struct ScarceGroup<G> {
    group: G,
    left: u32,
}

impl<M: Tokens, const TOKENS: u32> Tokens for ScarceLanes<M, TOKENS> {
    type Board = M::Board;

    type Group = ScarceGroup<M::Group>;

    type Token = M::Token;

    ghost group_home = { λ group. M.group_home group.group };

    ghost group_id = { λ group. M.group_id group.group };

    ghost parts = { λ group. M.parts group.group };

    ghost wait_places = { λ group. M.wait_places group.group };

    ghost group_registered = { λ board old new task. M.group_registered board old.group new.group task };

    ghost found_tokens = { λ board old new. M.found_tokens board old.group new.group };

    ghost found_none = { λ board old new. M.found_none board old.group new.group };

    ghost kept_count = { λ before after old new. M.kept_count before after old.group new.group };

    ghost is_new = { λ board group. M.is_new board group.group };

    ghost counted_one = { λ before after old new. M.counted_one before after old.group new.group };

    ghost counted_more = { λ before after old new. M.counted_more before after old new };

    ghost counted_less = { λ before after token. M.counted_less before after token };

    ghost token_home = { λ token. M.token_home token };

    ghost token_group = { λ token. M.token_group token };

    ghost token_parts = { λ token. M.token_parts token };

    ghost found_waiting_token = { λ board token tasks. M.found_waiting_token board token tasks };

    fn group(alloc: Global, board: &mut M::Board) -> Result<ScarceGroup<M::Group>, Fault> {
        let group = M::group(alloc, board)?;
        Ok(ScarceGroup {
            group,
            left: TOKENS,
        })
    }

    fn token(cx: &mut Cx<M::Board>, group: &mut ScarceGroup<M::Group>) -> Result<M::Token, Fault> {
        if group.left == 0 {
            return Err(Fault::OutOfMemory);
        }
        group.left -= 1;
        M::token(cx, &mut group.group)
    }

    fn again(cx: &mut Cx<M::Board>, token: &mut M::Token) -> Result<M::Token, Fault> {
        M::again(cx, token)
    }

    fn release(cx: &mut Cx<M::Board>, token: M::Token) {
        M::release(cx, token);
    }

    fn poll_wait(cx: &mut Cx<M::Board>, group: &mut ScarceGroup<M::Group>) -> Poll<()> {
        M::poll_wait(cx, &mut group.group)
    }
}

impl<T: Message, M: Lanes<T>, const TOKENS: u32> Lanes<T> for ScarceLanes<M, TOKENS> {
    type Sender = M::Sender;

    type Receiver = M::Receiver;

    ghost room_of = { λ asked. M.room_of asked };

    fn room(asked: u32) -> u32 {
        M::room(asked)
    }

    fn lane(
        alloc: Global,
        board: &mut M::Board,
        asked: u32,
        job: &T::Job,
    ) -> Result<(M::Sender, M::Receiver), Fault> {
        M::lane(alloc, board, asked, job)
    }

    fn history(board: &mut M::Board, sender: &mut M::Sender, receiver: &mut M::Receiver) {
        M::history(board, sender, receiver);
    }

    fn agree(
        board: &mut M::Board,
        sent: <M::Sender as LaneSender<T, M::Board>>::Receipt,
        taken: <M::Receiver as LaneReceiver<T, M::Board>>::Receipt,
    ) {
        M::agree(board, sent, taken);
    }
}
