//! A group between threads that has a number.
ghost use Rattle.std.specs.Prelude.{◌≡◌, ◌+◌, ◌^◌, ◌<◌, [], ◌∷◌, IfOk, IfErr, OnOk, OnErr};
ghost use Rattle.morsel_meaning.specs.declared.fault.Fault.TheVariants.{OutOfMemory};
ghost use Rattle.morsel_prims.specs.Polled.{IfReady, OnPending};
ghost use Rattle.morsel_prims.specs.Woken.{KeepsWakes};
ghost use Rattle.morsel_words.specs.Since.{WasFound};
ghost use Rattle.morsel_word_groups.specs.Seen.{OnlyLooked};
ghost use Rattle.morsel_word_groups.specs.declared.view.GroupFound.TheVariants as found;

use crate::group::{WaitGroup, WaitToken};
use morsel_meaning::Fault;
use morsel_prims::{Cx, Poll};
use std::alloc::Global;
use std::marker::Model;

/// A group of tokens that has a number, as that of the task whose tokens it counts.
#[derive(Drop)]
pub struct IndexedWaitGroup {
    number: usize,
    waiting: WaitGroup,
}

impl Model for IndexedWaitGroup {
    ghost use Rattle.morsel_word_groups.specs.Seen.{IndexedSeen};

    ghost Value = { IndexedSeen };

    ghost view = { λ it. record { index = it.number; group = it.waiting } };
}

impl IndexedWaitGroup {
    /// A group without tokens, of this number.
    pub fn new(alloc: Global, index: usize) -> Result<IndexedWaitGroup, Fault>
        ensures index { IfOk result (λ it. it.index ≡ index) }
        ensures parts { IfOk result (λ it. it.group.parts ≡ 2 ^ 62) }
        ensures none { IfOk result (λ it. it.group.found ≡ []) }
        ensures out_of_memory { IfErr result (λ fault. fault ≡ OutOfMemory) }
    {
        Ok(IndexedWaitGroup {
            number: index,
            waiting: WaitGroup::new(alloc)?,
        })
    }

    /// Its number.
    pub fn index(&self) -> usize
        ensures index { result ≡ self.now.index }
    {
        self.number
    }

    /// One more token of the group.
    pub fn token(&mut self, cx: &mut Cx<()>) -> Result<WaitToken, Fault>
        requires parts { 2 ^ 31 < self.old.group.parts }
        ensures same_group { (self.new.index ≡ self.old.index) × (self.new.group.table ≡ self.old.group.table) }
        ensures token { IfOk result (λ token. token.table ≡ self.old.group.table) }
        ensures token_parts { IfOk result (λ token. token.parts ≡ 2 ^ 31) }
        ensures ok { OnOk result (self.new.group.parts + 2 ^ 31 ≡ self.old.group.parts) }
        ensures counted { OnOk result (self.new.group.found ≡ found.More ∷ self.old.group.found) }
        ensures err { OnErr result (self.new ≡ self.old) }
        ensures out_of_memory { IfErr result (λ fault. fault ≡ OutOfMemory) }
        ensures same_task { cx.new.me ≡ cx.old.me }
        ensures wakes { KeepsWakes cx.old.wakes cx.new.wakes }
    {
        self.waiting.token(cx)
    }

    /// Waits until no token is left. A later wait takes the place of an earlier one.
    pub fn poll_wait(&mut self, cx: &mut Cx<()>) -> Poll<()>
        ensures same_group { (self.new.index ≡ self.old.index) × (self.new.group.table ≡ self.old.group.table) }
        ensures ready { IfReady result (λ _. self.new.group.parts ≡ 2 ^ 62) }
        ensures none { IfReady result (λ _. WasFound self.old.group.found self.new.group.found found.NoneLeft) }
        ensures same_count { OnlyLooked self.old.group.found self.new.group.found }
        ensures same_parts { OnPending result (self.new.group.parts ≡ self.old.group.parts) }
        ensures tokens { OnPending result (WasFound self.old.group.found self.new.group.found found.SomeLeft) }
        ensures registered { OnPending result (WasFound self.old.group.found self.new.group.found (found.Waits (cx.old.me.0 + 1))) }
        ensures same_task { cx.new.me ≡ cx.old.me }
        ensures wakes { KeepsWakes cx.old.wakes cx.new.wakes }
    {
        self.waiting.poll_wait(cx)
    }
}
