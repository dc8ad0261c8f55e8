//! The calls of a group and of its tokens, step by step.
ghost use Rattle.std.specs.Prelude.{◌≡◌, ◌+◌, ◌≤◌, ◌<◌, ◌/◌, ◌^◌, true, false, ◌∷◌};
ghost use Rattle.morsel_words.specs.Since.{WasFound};
ghost use Rattle.morsel_word_groups.specs.Seen.{OnlyLooked, FoundLast};
ghost use Rattle.morsel_word_groups.specs.declared.view.GroupFound.TheVariants as found;
ghost use Rattle.morsel_word_groups.specs.declared.view.GroupPart.TheVariants as part;

use crate::word::{
    GroupSeat, GroupWords, count_less, count_more, has_tokens, part_from_group, part_from_token,
    register, take_number, withdraw,
};
use morsel_meaning::TaskNo;
use morsel_words::task_of;

/// Counts a token of the group, and parts from it.
pub(crate) fn give_token(group: &GroupWords, seat: &mut GroupSeat) -> GroupSeat
    requires table { (seat.old.table_id ≡ group.now.table_id) × (group.now.table_id.words ≡ 2) }
    requires group { (seat.old.me.0.part ≡ part.Group) × (seat.old.me.0.added ≡ false) × (seat.old.me.0.owes ≡ false) }
    requires parts { 2 ^ 31 < seat.old.me.0.spare }
    ensures same { (seat.new.table_id ≡ seat.old.table_id) × (result.table_id ≡ seat.old.table_id) }
    ensures group { (seat.new.me.0.part ≡ part.Group) × (seat.new.me.0.added ≡ false) × (seat.new.me.0.owes ≡ false) }
    ensures token { (result.me.0.part ≡ part.Token) × (result.me.0.added ≡ false) }
    ensures given { result.me.0.spare + 1 ≡ 2 ^ 31 }
    ensures parts { seat.new.me.0.spare + 2 ^ 31 ≡ seat.old.me.0.spare }
    ensures counted { seat.new.me.0.found ≡ found.More ∷ seat.old.me.0.found }
{
    count_more(group, seat);
    part_from_group(group, seat)
}

/// Counts a token beside this one, and parts from it.
pub(crate) fn give_another(group: &GroupWords, seat: &mut GroupSeat) -> GroupSeat
    requires table { (seat.old.table_id ≡ group.now.table_id) × (group.now.table_id.words ≡ 2) }
    requires token { (seat.old.me.0.part ≡ part.Token) × (seat.old.me.0.added ≡ false) }
    requires parts { 1 ≤ seat.old.me.0.spare }
    ensures same { (seat.new.table_id ≡ seat.old.table_id) × (result.table_id ≡ seat.old.table_id) }
    ensures token { (seat.new.me.0.part ≡ part.Token) × (seat.new.me.0.added ≡ false) }
    ensures other { (result.me.0.part ≡ part.Token) × (result.me.0.added ≡ false) }
    ensures given { result.me.0.spare + 1 ≡ (seat.old.me.0.spare + 1) / 2 }
    ensures parts { (seat.new.me.0.spare + 1) + (result.me.0.spare + 1) ≡ seat.old.me.0.spare + 1 }
    ensures counted { seat.new.me.0.found ≡ found.More ∷ seat.old.me.0.found }
{
    count_more(group, seat);
    part_from_token(group, seat)
}

/// Releases the token. Answers the task that waited for it, where it was the last.
pub(crate) fn release(group: &GroupWords, seat: &mut GroupSeat) -> Option<TaskNo>
    requires table { (seat.old.table_id ≡ group.now.table_id) × (group.now.table_id.words ≡ 2) }
    requires token { (seat.old.me.0.part ≡ part.Token) × (seat.old.me.0.added ≡ false) }
    ensures waiter { FoundLast seat.old.me.0.found seat.new.me.0.found result }
{
    if !count_less(group, seat) {
        return None;
    }
    task_of(take_number(group, seat))
}

/// Whether no token is left. Where one is, the task waits.
pub(crate) fn wait_for_last(group: &GroupWords, seat: &mut GroupSeat, me: TaskNo) -> bool
    requires table { (seat.old.table_id ≡ group.now.table_id) × (group.now.table_id.words ≡ 2) }
    requires group { (seat.old.me.0.part ≡ part.Group) × (seat.old.me.0.added ≡ false) × (seat.old.me.0.owes ≡ false) }
    ensures same { seat.new.table_id ≡ seat.old.table_id }
    ensures group { (seat.new.me.0.part ≡ part.Group) × (seat.new.me.0.added ≡ false) × (seat.new.me.0.owes ≡ false) }
    ensures looked { OnlyLooked seat.old.me.0.found seat.new.me.0.found }
    ensures ready { result ≡ true → seat.new.me.0.spare ≡ 2 ^ 62 }
    ensures none { result ≡ true → WasFound seat.old.me.0.found seat.new.me.0.found found.NoneLeft }
    ensures same_parts { result ≡ false → seat.new.me.0.spare ≡ seat.old.me.0.spare }
    ensures tokens { result ≡ false → WasFound seat.old.me.0.found seat.new.me.0.found found.SomeLeft }
    ensures registered { result ≡ false → WasFound seat.old.me.0.found seat.new.me.0.found (found.Waits (me.0 + 1)) }
{
    if !has_tokens(group, seat) {
        return true;
    }
    register(group, seat, u64::from(me.0) + 1);
    if has_tokens(group, seat) {
        return false;
    }
    withdraw(group, seat);
    true
}
