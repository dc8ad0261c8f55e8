//! What the units of a join make: kept rows of one side, rows that the other side's rows find among them, and kept rows that none finds.
#![tactic(auto)]

mod lone_giver;
mod looked_up;
mod order;
mod probe_maker;
mod row_cutter;
mod row_keeper;

pub use lone_giver::LoneGiver;
pub use looked_up::{LookedUp, looked_in_order};
pub use order::in_order;
pub use probe_maker::ProbeMaker;
pub use row_cutter::RowCutter;
pub use row_keeper::{KeptRows, RowKeeper};
