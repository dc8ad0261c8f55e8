//! The words of a group between threads, and each single step of the group or a token on them.
//!
//! Word 0 is the count of tokens that were not released. Word 1 is the wait word: the number under which a task waits for
//! the last token, one more than the task's own, or 0.
//!
//! | Seat | Counts for | Step | Becomes |
//! |---|---|---|---|
//! | group | nothing | adds one to the count | a group that has still to part from a token |
//! | token | itself | adds one to the count | a token that has still to part from another |
//! | one that has still to part | one more | is parted | what it was, and a new token |
//! | token | itself | takes one from the count | released; the last one has still to look after the wait word |
//! | the last token, released | nothing | swaps the wait word to 0 | released |
//! | group | nothing | swaps the wait word to a number | a group that has to look again |
//! | group that has to look again | nothing | loads the count: tokens are left | a group |
//! | group that has to look again | nothing | loads the count: none is left; swaps the wait word to 0 | a group |
//!
//! 1. Each seat has a part for each token that it counts for, and all seats together have at most 2^62 parts. So the count
//!    is at most 2^62.
//! 2. Where a group finds no token left, nobody else has parts, and it has all of them again.
//! 3. A group puts the number into the wait word first, and then looks again. The last token takes one from the count first,
//!    and then takes the number. So no task waits at a group that has no token, but for the time between such two steps.
ghost use Rattle.std.specs.Prelude.{◌≡◌, ◌+◌, ◌≤◌, ◌^◌, true, false, ◌∷◌};
ghost use Rattle.morsel_word_groups.specs.GroupSteps.{IsOpen, with_one_more, looked, registered, withdrawn, released, group_left, group_given, token_left, token_given};
ghost use Rattle.morsel_word_groups.specs.declared.view.GroupFound.TheVariants as found;
ghost use Rattle.morsel_word_groups.specs.declared.view.GroupPart.TheVariants as part;

use crate::view::GroupView;
use atomic_table::{Play, Seat, Shared, Split, TableRule};

/// The rule of a group between threads.
pub struct GroupRuled;

impl TableRule<(), GroupView, ()> for GroupRuled {
    ghost use Rattle.morsel_word_groups.specs.Group.{IsGroupTable, new_group_view};

    ghost holds = { λ _. IsGroupTable };

    ghost first = { λ _. new_group_view };
}

struct AddOne;

impl Play<(), GroupView> for AddOne {
    ghost use Rattle.morsel_word_groups.specs.GroupSteps.{AddsToken};

    ghost then = { AddsToken };
}

struct TakeOne;

impl Play<(), GroupView> for TakeOne {
    ghost use Rattle.morsel_word_groups.specs.GroupSteps.{ReleasesToken};

    ghost then = { ReleasesToken };
}

struct SeekTokens;

impl Play<(), GroupView> for SeekTokens {
    ghost use Rattle.morsel_word_groups.specs.GroupSteps.{Looks};

    ghost then = { Looks };
}

struct PutGroupNumber;

impl Play<(), GroupView> for PutGroupNumber {
    ghost use Rattle.morsel_word_groups.specs.GroupSteps.{Registers};

    ghost then = { Registers };
}

struct ClearNumber;

impl Play<(), GroupView> for ClearNumber {
    ghost use Rattle.morsel_word_groups.specs.GroupSteps.{Withdraws};

    ghost then = { Withdraws };
}

struct TakeGroupNumber;

impl Play<(), GroupView> for TakeGroupNumber {
    ghost use Rattle.morsel_word_groups.specs.GroupSteps.{TakesNumber};

    ghost then = { TakesNumber };
}

struct PartFromGroup;

impl Split<GroupView> for PartFromGroup {
    ghost use Rattle.morsel_word_groups.specs.GroupSteps.{group_left, group_given};

    ghost left = { group_left };

    ghost right = { group_given };
}

struct PartFromToken;

impl Split<GroupView> for PartFromToken {
    ghost use Rattle.morsel_word_groups.specs.GroupSteps.{token_left, token_given};

    ghost left = { token_left };

    ghost right = { token_given };
}

/// The words of a group.
pub(crate) type GroupWords = Shared<(), GroupView, (), GroupRuled>;

/// The seat of a group or a token.
pub(crate) type GroupSeat = Seat<(), GroupView>;

/// Adds one to the count, for a token from which the seat has still to part.
pub(crate) fn count_more(group: &GroupWords, seat: &mut GroupSeat)
    requires table { (seat.old.table_id ≡ group.now.table_id) × (group.now.table_id.words ≡ 2) }
    requires open { IsOpen seat.old.me.0.part × (seat.old.me.0.added ≡ false) }
    requires spare { 1 ≤ seat.old.me.0.spare }
    ensures same { seat.new.table_id ≡ seat.old.table_id }
    ensures more { seat.new.me ≡ (with_one_more seat.old.me.0, seat.old.me.1) }
{
    group.fetch_add::<AddOne>(seat, 0, 1);
}

/// A new token of the group, which the group has counted.
pub(crate) fn part_from_group(group: &GroupWords, seat: &mut GroupSeat) -> GroupSeat
    requires table { (seat.old.table_id ≡ group.now.table_id) × (group.now.table_id.words ≡ 2) }
    requires group { (seat.old.me.0.part ≡ part.Group) × (seat.old.me.0.added ≡ true) }
    requires spare { 2 ^ 31 ≤ seat.old.me.0.spare + 1 }
    ensures same { (seat.new.table_id ≡ seat.old.table_id) × (result.table_id ≡ seat.old.table_id) }
    ensures left { seat.new.me ≡ (group_left seat.old.me.0, seat.old.me.1) }
    ensures given { result.me.0 ≡ group_given seat.old.me.0 }
{
    group.split_seat::<PartFromGroup>(seat)
}

/// A new token beside another one, which that has counted.
pub(crate) fn part_from_token(group: &GroupWords, seat: &mut GroupSeat) -> GroupSeat
    requires table { (seat.old.table_id ≡ group.now.table_id) × (group.now.table_id.words ≡ 2) }
    requires token { (seat.old.me.0.part ≡ part.Token) × (seat.old.me.0.added ≡ true) }
    ensures same { (seat.new.table_id ≡ seat.old.table_id) × (result.table_id ≡ seat.old.table_id) }
    ensures left { seat.new.me ≡ (token_left seat.old.me.0, seat.old.me.1) }
    ensures given { result.me.0 ≡ token_given seat.old.me.0 }
{
    group.split_seat::<PartFromToken>(seat)
}

/// Takes one from the count. Answers whether that was the last token.
pub(crate) fn count_less(group: &GroupWords, seat: &mut GroupSeat) -> bool
    requires table { (seat.old.table_id ≡ group.now.table_id) × (group.now.table_id.words ≡ 2) }
    requires token { (seat.old.me.0.part ≡ part.Token) × (seat.old.me.0.added ≡ false) }
    ensures same { seat.new.table_id ≡ seat.old.table_id }
    ensures less { seat.new.me ≡ (released result seat.old.me.0, seat.old.me.1) }
{
    group.fetch_sub::<TakeOne>(seat, 0, 1) == 1
}

/// Looks whether a token is left.
pub(crate) fn has_tokens(group: &GroupWords, seat: &mut GroupSeat) -> bool
    requires table { (seat.old.table_id ≡ group.now.table_id) × (group.now.table_id.words ≡ 2) }
    requires group { (seat.old.me.0.part ≡ part.Group) × (seat.old.me.0.added ≡ false) }
    ensures same { seat.new.table_id ≡ seat.old.table_id }
    ensures some { result ≡ true → seat.new.me ≡ (looked false seat.old.me.0, seat.old.me.1) }
    ensures none { result ≡ false → seat.new.me ≡ (looked true seat.old.me.0, seat.old.me.1) }
{
    group.load::<SeekTokens>(seat, 0) != 0
}

/// Puts the number under which a task waits into the wait word.
pub(crate) fn register(group: &GroupWords, seat: &mut GroupSeat, number: u64)
    requires table { (seat.old.table_id ≡ group.now.table_id) × (group.now.table_id.words ≡ 2) }
    requires group { seat.old.me.0.part ≡ part.Group }
    requires number { number ≤ 4294967296 }
    ensures same { seat.new.table_id ≡ seat.old.table_id }
    ensures registered { seat.new.me ≡ (registered number seat.old.me.0, seat.old.me.1) }
{
    group.swap::<PutGroupNumber>(seat, 1, number);
}

/// Clears the wait word.
pub(crate) fn withdraw(group: &GroupWords, seat: &mut GroupSeat)
    requires table { (seat.old.table_id ≡ group.now.table_id) × (group.now.table_id.words ≡ 2) }
    requires group { seat.old.me.0.part ≡ part.Group }
    ensures same { seat.new.table_id ≡ seat.old.table_id }
    ensures withdrawn { seat.new.me ≡ (withdrawn seat.old.me.0, seat.old.me.1) }
{
    group.swap::<ClearNumber>(seat, 1, 0);
}

/// Takes the number under which a task waits out of the wait word.
pub(crate) fn take_number(group: &GroupWords, seat: &mut GroupSeat) -> u64
    requires table { (seat.old.table_id ≡ group.now.table_id) × (group.now.table_id.words ≡ 2) }
    requires token { seat.old.me.0.part ≡ part.Released }
    ensures same { seat.new.table_id ≡ seat.old.table_id }
    ensures within { result ≤ 4294967296 }
    ensures found { seat.new.me.0.found ≡ found.Waiter result ∷ seat.old.me.0.found }
{
    group.swap::<TakeGroupNumber>(seat, 1, 0)
}
