//! The units of nodes that make several loads of one.
#![tactic(auto)]

mod flat_unit;
mod loads_maker;

pub use flat_unit::FlatUnit;
pub use loads_maker::LoadsMaker;
