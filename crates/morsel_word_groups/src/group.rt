//! A group between threads, and its tokens.
ghost use Rattle.std.specs.Prelude.{◌≡◌, ◌+◌, ◌/◌, ◌^◌, ◌<◌, ◌≤◌, [], ◌∷◌, IfOk, IfErr, OnOk, OnErr};
ghost use Rattle.morsel_meaning.specs.declared.fault.Fault.TheVariants.{OutOfMemory};
ghost use Rattle.morsel_prims.specs.Polled.{IfReady, OnPending};
ghost use Rattle.morsel_prims.specs.Woken.{AreFoundWoken, KeepsWakes};
ghost use Rattle.morsel_words.specs.Since.{WasFound};
ghost use Rattle.morsel_word_groups.specs.Seen.{OnlyLooked, FoundWaitingForLast};
ghost use Rattle.morsel_word_groups.specs.declared.view.GroupFound.TheVariants as found;

use crate::calls::{give_another, give_token, release, wait_for_last};
use crate::view::GroupView;
use crate::word::{GroupRuled, GroupSeat};
use atomic_table::Table;
use morsel_meaning::Fault;
use morsel_prims::{Cx, Poll};
use std::alloc::Global;
use std::marker::Model;
use std::sync::Arc;

/// The words of a group and their memory.
type GroupTable = Table<(), GroupView, (), GroupRuled, Global>;

/// A group of tokens between threads. A token that is dropped stays counted.
#[derive(Drop)]
pub struct WaitGroup {
    table: Arc<GroupTable, Global>,
    seat: GroupSeat,
}

impl Model for WaitGroup {
    ghost use Rattle.morsel_word_groups.specs.Seen.{GroupSeen, group_seen, IsGroup};
    ghost use Rattle.std.specs.Arc.{arc_value};

    ghost Value = { GroupSeen };

    ghost view = { λ group. group_seen group.seat };

    ghost invariant = { λ group. IsGroup (arc_value group.table).shared.table_id group.seat };
}

/// A token, which its group counts until it is released.
#[derive(Drop)]
pub struct WaitToken {
    table: Arc<GroupTable, Global>,
    seat: GroupSeat,
}

impl Model for WaitToken {
    ghost use Rattle.morsel_word_groups.specs.Seen.{TokenSeen, token_seen, IsToken};
    ghost use Rattle.std.specs.Arc.{arc_value};

    ghost Value = { TokenSeen };

    ghost view = { λ token. token_seen token.seat };

    ghost invariant = { λ token. IsToken (arc_value token.table).shared.table_id token.seat };
}

impl WaitGroup {
    /// A group without tokens.
    pub fn new(alloc: Global) -> Result<WaitGroup, Fault>
        ensures parts { IfOk result (λ group. group.parts ≡ 2 ^ 62) }
        ensures none { IfOk result (λ group. group.found ≡ []) }
        ensures out_of_memory { IfErr result (λ fault. fault ≡ OutOfMemory) }
    {
        let (table, seat) = Table::of_words(alloc, &[0, 0], &())?;
        let table = Arc::new(alloc, table)?;
        Ok(WaitGroup { table, seat })
    }

    /// One more token of the group.
    pub fn token(&mut self, cx: &mut Cx<()>) -> Result<WaitToken, Fault>
        requires parts { 2 ^ 31 < self.old.parts }
        ensures same_group { self.new.table ≡ self.old.table }
        ensures token { IfOk result (λ token. token.table ≡ self.old.table) }
        ensures token_parts { IfOk result (λ token. token.parts ≡ 2 ^ 31) }
        ensures ok { OnOk result (self.new.parts + 2 ^ 31 ≡ self.old.parts) }
        ensures counted { OnOk result (self.new.found ≡ found.More ∷ self.old.found) }
        ensures err { OnErr result (self.new ≡ self.old) }
        ensures out_of_memory { IfErr result (λ fault. fault ≡ OutOfMemory) }
        ensures same_task { cx.new.me ≡ cx.old.me }
        ensures wakes { KeepsWakes cx.old.wakes cx.new.wakes }
    {
        let _ = cx;
        let again = Arc::try_clone(&self.table)?;
        let table = &self.table;
        let seat = give_token(&table.shared, &mut self.seat);
        Ok(WaitToken { table: again, seat })
    }

    /// Waits until no token is left. A later wait takes the place of an earlier one.
    pub fn poll_wait(&mut self, cx: &mut Cx<()>) -> Poll<()>
        ensures same_group { self.new.table ≡ self.old.table }
        ensures ready { IfReady result (λ _. self.new.parts ≡ 2 ^ 62) }
        ensures none { IfReady result (λ _. WasFound self.old.found self.new.found found.NoneLeft) }
        ensures same_count { OnlyLooked self.old.found self.new.found }
        ensures same_parts { OnPending result (self.new.parts ≡ self.old.parts) }
        ensures tokens { OnPending result (WasFound self.old.found self.new.found found.SomeLeft) }
        ensures registered { OnPending result (WasFound self.old.found self.new.found (found.Waits (cx.old.me.0 + 1))) }
        ensures same_task { cx.new.me ≡ cx.old.me }
        ensures wakes { KeepsWakes cx.old.wakes cx.new.wakes }
    {
        let table = &self.table;
        if wait_for_last(&table.shared, &mut self.seat, cx.me) {
            return Poll::Ready(());
        }
        Poll::Pending
    }
}

impl WaitToken {
    /// One more token of the token's group.
    pub fn again(&mut self, cx: &mut Cx<()>) -> Result<WaitToken, Fault>
        requires parts { 2 ≤ self.old.parts }
        ensures same_token { self.new.table ≡ self.old.table }
        ensures token { IfOk result (λ more. more.table ≡ self.old.table) }
        ensures more { IfOk result (λ more. more.parts ≡ self.old.parts / 2) }
        ensures ok { IfOk result (λ more. self.new.parts + more.parts ≡ self.old.parts) }
        ensures counted { OnOk result (self.new.found ≡ found.More ∷ self.old.found) }
        ensures err { OnErr result (self.new ≡ self.old) }
        ensures out_of_memory { IfErr result (λ fault. fault ≡ OutOfMemory) }
        ensures same_task { cx.new.me ≡ cx.old.me }
        ensures wakes { KeepsWakes cx.old.wakes cx.new.wakes }
    {
        let _ = cx;
        let again = Arc::try_clone(&self.table)?;
        let table = &self.table;
        let seat = give_another(&table.shared, &mut self.seat);
        Ok(WaitToken { table: again, seat })
    }

    /// The group counts the token no more. Where it was the last, the task that waits for it is woken.
    pub fn release(self, cx: &mut Cx<()>)
        ensures woken { AreFoundWoken (FoundWaitingForLast self.found) cx.new.wakes }
        ensures same_task { cx.new.me ≡ cx.old.me }
        ensures wakes { KeepsWakes cx.old.wakes cx.new.wakes }
    {
        let WaitToken { table, mut seat } = self;
        let task = release(&table.shared, &mut seat);
        cx.wakes.wake(task);
    }
}
