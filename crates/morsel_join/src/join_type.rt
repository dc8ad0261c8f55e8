//! Kinds of joins, and what they promise of the order of their rows.

/// Which rows a join has beside the pairs.
#[derive(Clone, Copy, Debug, PartialEq, Eq)]
pub enum JoinType {
    /// The pairs alone.
    Inner,
    /// The pairs, and left rows that are in none.
    Left,
    /// The pairs, and right rows that are in none.
    Right,
    /// The pairs, and the rows of both sides that are in none.
    Full,
}

/// The promised order of a join's rows.
#[derive(Clone, Copy, Debug, PartialEq, Eq)]
pub enum MaintainOrderJoin {
    /// Any order.
    None,
    /// By the left row, and rows without one last.
    Left,
    /// By the right row, and rows without one last.
    Right,
    /// By the left row, and by the right row where the left ones are the same.
    LeftRight,
    /// By the right row, and by the left row where the right ones are the same.
    RightLeft,
}
