//! The node of a group-by, over any lanes: it takes rows into groups, and gives one row for each key.
#![tactic(auto)]

mod back;
mod ends;
mod group_unit;
mod node;
mod units;

pub use group_unit::{GroupOut, GroupTask, GroupUnit};
pub use node::GroupByNode;
pub use units::TakingUnits;
