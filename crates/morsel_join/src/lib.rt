//! Joins by equal keys: which rows a join has, in which promised order, and the tables that find them.
#![tactic(auto)]

mod build;
mod build_side;
mod chains;
mod frames;
mod gather;
mod hits;
mod join_rows;
mod join_type;
mod key_columns;
pub mod laws;
mod lone_rows;
mod payload;
mod probe;
mod probe_some;
mod probing;
mod rules;
mod select;
mod some_rows;

pub use build_side::Build;
pub use frames::join_frames;
pub use hits::Hits;
pub use join_type::{JoinType, MaintainOrderJoin};
pub use lone_rows::LoneRows;
pub use payload::{JoinArgs, Payload};
pub use probing::Probing;
pub use rules::{JoinColumn, JoinRules};
pub use select::payload_select;
pub use some_rows::SomeRows;
