//! The node of a join by equal keys, over any lanes: it keeps the rows of one side, looks the other side's rows up in them, and gives those that none found.
#![tactic(auto)]

mod back;
mod ends;
mod join_unit;
mod node;
mod unit_maker;
mod units;

pub use join_unit::{JoinOut, JoinTask, JoinUnit};
pub use node::EquiJoinNode;
pub use unit_maker::{UnitMaker, units_behind};
pub use units::{KeepingUnits, ProbingUnits};
