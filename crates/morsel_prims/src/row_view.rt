//! What a seat of a roll knows.
use std::collections::LinkedList;

/// What a seat of a roll knows: all rows, where it keeps them; and one of them, where it has one. No value of it is made.
pub struct RowView<T> {
    /// Whether it keeps all rows.
    pub keeps: bool,
    /// All rows, where it keeps them.
    pub rows: LinkedList<LinkedList<T>>,
    /// Whether it has a row.
    pub has: bool,
    /// The place of its row, from 0.
    pub place: u64,
    /// What its row has.
    pub list: LinkedList<T>,
}
