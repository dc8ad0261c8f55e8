//! The readers of a scan's files.
mod blocks;
mod front;
mod rows;

pub use blocks::BlockReader;
pub use rows::{RowBlock, RowReader};
