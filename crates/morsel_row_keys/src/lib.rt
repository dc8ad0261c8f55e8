//! Keys of several columns at once: whole columns of rows are numbered in loops over packed values.
//!
//! Contracts see a `RowKeys` as its types and the list of its keys, in order of arrival.
#![tactic(auto)]

mod chain;
mod pair_keys;
mod refusal;
mod row_keys;

pub use row_keys::RowKeys;
