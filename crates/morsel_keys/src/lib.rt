//! Keys and reductions: the tables under joins and groups.
//!
//! Contracts see a table of keys as the list of its keys in order of arrival (`KeyTable`), and an accumulator as what it has of its values
//! (`Acc`). `reduction_of` says what a reduction says of values in their order.
#![tactic(auto)]

mod acc;
mod cells;
mod column_keys;
mod kept;
mod key_row;
mod laws;
mod reduction;
mod slots;
mod store;
mod table;
mod text_mix;
mod texts;
mod words;

pub use acc::Acc;
pub use column_keys::ColumnKeys;
pub use laws::{reductions_follow_places, tables_merge};
pub use reduction::Reduction;
pub use table::KeyTable;
