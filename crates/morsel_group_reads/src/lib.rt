//! What a group-by reads of a join: the same rows, with only the columns that it needs.
//!
//! A group-by of those rows says what one of the whole rows says.
#![tactic(auto)]

mod reads;

pub use reads::columns_read;
