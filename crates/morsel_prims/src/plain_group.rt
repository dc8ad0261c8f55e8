//! Groups of tokens of one thread.
ghost use Rattle.std.specs.Prelude.{◌≡◌, [], ◌∷◌, Some};
ghost use Rattle.morsel_prims.specs.Counts.{group_of};
ghost use Rattle.morsel_prims.specs.Rows.{list_of_row};
ghost use Rattle.morsel_prims.specs.declared.plain_counts.GroupMark.TheVariants.{Token};

use crate::lane::Message;
use crate::lanes::Tokens;
use crate::plain_board::PlainBoard;
use crate::plain_counts::GroupMark;
use crate::plain_lanes::PlainLanes;
use crate::poll::Poll;
use crate::roll::RollRow;
use crate::task::Cx;
use morsel_meaning::Fault;
use std::alloc::Global;

/// A group of tokens of one thread.
#[derive(Drop)]
pub struct PlainGroup {
    /// What it wrote: which group it is.
    pub(crate) row: RollRow<GroupMark>,
    /// Which group of the board it is, from 0.
    pub(crate) index: usize,
    /// Its parts.
    pub(crate) parts: u64,
    ghost of_group: { group_of (list_of_row row.badge.views) ≡ Some index },
}

/// A token of one thread, which its group counts.
#[derive(Drop)]
pub struct PlainToken {
    /// What it wrote: of which group it is, and later that it was released.
    pub(crate) row: RollRow<GroupMark>,
    /// Of which group of the board it is, from 0.
    pub(crate) index: usize,
    /// Its parts.
    pub(crate) parts: u64,
    ghost counted: { list_of_row row.badge.views ≡ Token index ∷ [] },
}

impl<T: Message> Tokens for PlainLanes<T> {
    ghost use Rattle.std.specs.Prelude.{length, slice_get};
    ghost use Rattle.morsel_prims.specs.Counts.{CountsLess, CountsMore, CountsSame, HasNone, HasSome, group_waits_of, waits_if_last};
    ghost use Rattle.morsel_prims.specs.Polled.{held_list};
    ghost use Rattle.morsel_prims.specs.Waiting.{ForLastToken};

    type Board = PlainBoard<T>;

    type Group = PlainGroup;

    type Token = PlainToken;

    ghost group_home = { λ group. group.row.badge.table_id };

    ghost group_id = { λ group. record { table = group.row.badge.table_id; place = group.index } };

    ghost parts = { λ group. group.parts };

    ghost wait_places = { λ group. ForLastToken group.index ∷ [] };

    ghost group_registered = { λ board old new task. group_waits_of (slice_get board.groups new.index) ≡ Some task };

    ghost found_tokens = { λ board old new. HasSome (slice_get board.groups new.index) };

    ghost found_none = { λ board old new. HasNone (slice_get board.groups new.index) };

    ghost kept_count = { λ before after old new. CountsSame (slice_get before.groups old.index) (slice_get after.groups old.index) };

    ghost is_new = { λ board group. group.index ≡ length board.groups };

    ghost counted_one = { λ before after old new. CountsMore (slice_get before.groups old.index) (slice_get after.groups old.index) };

    ghost counted_more = { λ before after old new. CountsMore (slice_get before.groups old.index) (slice_get after.groups old.index) };

    ghost counted_less = { λ before after token. CountsLess (slice_get before.groups token.index) (slice_get after.groups token.index) };

    ghost token_home = { λ token. token.row.badge.table_id };

    ghost token_group = { λ token. record { table = token.row.badge.table_id; place = token.index } };

    ghost token_parts = { λ token. token.parts };

    ghost found_waiting_token = { λ board token tasks. tasks ≡ held_list (waits_if_last (slice_get board.groups token.index)) };

    fn group(alloc: Global, board: &mut PlainBoard<T>) -> Result<PlainGroup, Fault> {
        // The list of groups has the board's allocator.
        let _ = alloc;
        let (index, row) = board.counts.add()?;
        Ok(PlainGroup {
            row,
            index,
            parts: 1 << 62,
        })
    }

    fn token(cx: &mut Cx<PlainBoard<T>>, group: &mut PlainGroup) -> Result<PlainToken, Fault> {
        let row = cx.board.counts.count_one(group.index, &mut group.row)?;
        group.parts -= 1 << 31;
        Ok(PlainToken {
            row,
            index: group.index,
            parts: 1 << 31,
        })
    }

    fn again(cx: &mut Cx<PlainBoard<T>>, token: &mut PlainToken) -> Result<PlainToken, Fault> {
        let row = cx.board.counts.count_one(token.index, &mut token.row)?;
        let half = token.parts / 2;
        token.parts -= half;
        Ok(PlainToken {
            row,
            index: token.index,
            parts: half,
        })
    }

    fn release(cx: &mut Cx<PlainBoard<T>>, token: PlainToken) {
        let PlainToken {
            mut row,
            index,
            parts: _,
        } = token;
        let task = cx.board.counts.release(index, &mut row);
        cx.wakes.wake(task);
    }

    fn poll_wait(cx: &mut Cx<PlainBoard<T>>, group: &mut PlainGroup) -> Poll<()> {
        if cx.board.counts.wait(group.index, &mut group.row, cx.me) {
            group.parts = 1 << 62;
            return Poll::Ready(());
        }
        Poll::Pending
    }
}
