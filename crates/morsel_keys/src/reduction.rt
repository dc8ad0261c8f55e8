//! What is said of the values of a group.

/// What is said of the values of a group. Each reads them in the order of the input.
#[derive(Clone, Copy, Debug, PartialEq, Eq)]
pub enum Reduction {
    /// How many there are, nulls too.
    Len,
    /// The numbers, added up. Nulls are skipped.
    Sum,
    /// The least that is no null, and null where there is none.
    Min,
    /// The greatest that is no null, and null where there is none.
    Max,
    /// The first, null or not.
    First,
    /// The last, null or not.
    Last,
}
