//! A join by equal keys by its phases: what it has in each of them, and the table by which the states of its ports move.
#![tactic(auto)]

mod alone;
mod build_phase;
mod emit_phase;
mod laws;
mod phase;
mod places;
mod probe_phase;

pub use alone::gives_alone;
pub use build_phase::BuildPhase;
pub use emit_phase::EmitPhase;
pub use laws::no_move_is_left;
pub use phase::JoinPhase;
pub use places::{JoinAt, JoinPorts};
pub use probe_phase::ProbePhase;
