//! Groups: one row for each distinct key, with what reductions say of the rows of this key.
//!
//! What is asked of a group-by and the columns of its rows, the groups that take rows in parts, and the laws by which their rows are those of all.
#![tactic(auto)]

mod blank;
mod counts;
mod finish;
mod fresh;
mod groups;
mod laws;
mod local;
mod part;
mod plan;
mod spec;
mod table;

pub use laws::{groups_have_causes, parts_are_grouped, rows_are_taken};
pub use local::LocalGroups;
pub use plan::group_schema;
pub use spec::{Agg, GroupSpec};
