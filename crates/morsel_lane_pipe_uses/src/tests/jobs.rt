//! What the lanes of these uses are for: any loads.
use morsel_load::LoadJob;
use morsel_prims::{PlainGroup, PlainToken};
use morsel_word_groups::WaitToken;
use std::snapshot::Snapshot;

/// Any loads on a board of one thread, whose tokens are of the table of this group.
#[derive(Drop)]
pub struct PlainJob {
    /// A group of the board.
    pub group: Snapshot<PlainGroup>,
}

impl LoadJob<PlainToken> for PlainJob {
    ghost use Rattle.std.specs.Prelude.{◌≡◌};

    ghost suits = { λ job load. Unit {0} };

    ghost holds = { λ job token. token.row.badge.table_id ≡ job.group.value.row.badge.table_id };
}

/// Any loads between threads.
#[derive(Drop)]
pub struct WordJob;

impl LoadJob<WaitToken> for WordJob {
    ghost suits = { λ job load. Unit {0} };

    ghost holds = { λ job token. Unit {0} };
}
