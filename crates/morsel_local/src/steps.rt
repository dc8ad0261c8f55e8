//! The count of sweeps, which contracts alone see.
ghost use Rattle.std.specs.Prelude.{◌≡◌, ◌+◌, ◌<◌};

use std::marker::Model;
use std::sync::ledger::{Blank, Book, Ledger, Share};

/// How many sweeps were made. It takes no bytes, and only a sweep changes it.
#[derive(Drop)]
pub struct Steps<Y: Ledger> {
    book: Book<Y>,
    share: Share<Y>,
}

impl<Y: Ledger> Model for Steps<Y> {
    ghost use Rattle.std.specs.Prelude.{ℕ, ◌<◌};

    ghost Value = { ℕ };

    ghost view = { λ steps. steps.book.total };

    ghost invariant = { λ steps. 0 < steps.share.parts };
}

impl<Y: Ledger> Steps<Y> {
    /// No sweeps yet.
    pub fn new(blank: Blank) -> Steps<Y>
        requires name { blank.name ≡ Y.name }
        requires parts { blank.parts ≡ Y.parts }
        requires some { 0 < blank.parts }
        ensures none { result ≡ 0 }
    {
        let (book, share) = blank.open::<Y>();
        Steps { book, share }
    }

    /// One sweep more.
    pub(crate) fn tick(&mut self)
        ensures counted { self.new ≡ self.old + 1 }
    {
        self.book.add(&mut self.share, 1);
    }
}
