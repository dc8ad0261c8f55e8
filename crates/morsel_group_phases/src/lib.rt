//! A group-by by its phases: what it has in each of them, and the table by which the states of its ports move.
#![tactic(auto)]

mod lane_end;
mod laws;
mod phase;
mod places;
mod sink_phase;
mod source_phase;

pub use lane_end::LaneEnd;
pub use laws::no_group_move_is_left;
pub use phase::GroupPhase;
pub use places::{GroupAt, GroupPorts};
pub use sink_phase::SinkPhase;
pub use source_phase::SourcePhase;
