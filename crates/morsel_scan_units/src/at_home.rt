//! Of which board a token or a group is.
use morsel_prims::{PlainGroup, PlainToken};

/// What is made on a board. Contracts alone see on which.
pub trait AtHome {
    ghost use Rattle.atomic_table.specs.Seated.{TableId};

    /// The table of the board on which it was made.
    ghost home: { Self → TableId };
}

impl AtHome for PlainToken {
    ghost home = { λ token. token.row.badge.table_id };
}

impl AtHome for PlainGroup {
    ghost home = { λ group. group.row.badge.table_id };
}
