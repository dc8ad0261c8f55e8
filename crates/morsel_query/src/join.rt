//! What a query asks of a join.
use morsel_join::JoinArgs;
use morsel_meaning::Name;
use morsel_scan::ScanSpec;

/// How the rows of a join are found. Which rows these are does not depend on it.
#[derive(Clone, Copy, Debug, PartialEq, Eq)]
pub enum JoinHow {
    /// The rows of one side are kept by their keys, and those of the other side looked up, some at a time.
    Hash,
    /// All rows of both sides are at hand before the first row is given.
    Memory,
}

/// A join of a query's scan with another one.
#[derive(Debug, Drop)]
pub struct JoinSpec {
    /// The right side.
    pub right: ScanSpec,
    /// The columns of the left side's rows whose values are to be equal to those of the right keys, one by one.
    pub left_keys: Vec<Name>,
    /// The columns of the right side's rows.
    pub right_keys: Vec<Name>,
    /// What is asked of its rows.
    pub args: JoinArgs,
    /// How its rows are found.
    pub how: JoinHow,
}
