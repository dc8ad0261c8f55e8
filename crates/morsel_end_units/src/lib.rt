//! The units of nodes that keep what they take, and of those that give loads of their own.
#![tactic(auto)]

mod give_unit;
mod keep_unit;
mod keeping;
mod load_keeper;
mod loads_giver;

pub use give_unit::GiveUnit;
pub use keep_unit::KeepUnit;
pub use keeping::keep_given;
pub use load_keeper::LoadKeeper;
pub use loads_giver::LoadsGiver;
