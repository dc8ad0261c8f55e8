//! What the units of a group-by make: loads are taken into local groups, and the rows of all of them are given.
#![tactic(auto)]

mod giver;
mod grouped;
mod keeper;
mod order;
mod rules;
mod taken;
mod taken_load;

pub use giver::GroupGiver;
pub use grouped::GroupedRows;
pub use keeper::GroupKeeper;
pub use rules::GroupRules;
pub use taken::TakenGroups;
pub use taken_load::TakenLoad;
