//! Several lanes as one: what merges them by the order of what they carry, and what spreads one over many.
//!
//! Both stand on the traits of lanes alone, and work over any lanes.
#![tactic(auto)]

mod ask;
mod choose;
mod close;
mod distributor;
mod greatest;
mod held;
mod inserter;
mod linearizer;
mod log;
mod make;
mod spread;
mod wait;

pub use distributor::{DistSender, DistSent, distributor_channel};
pub use inserter::Inserter;
pub use linearizer::{Got, Linearizer};
pub use make::make_lanes;
