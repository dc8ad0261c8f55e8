//! The line of lanes and tasks on one thread, between the caller's two ends.
#![tactic(auto)]

mod keep_line;
mod lane_line;

pub use keep_line::{KeepLine, abandon_keep, take_keep_stage};
pub use lane_line::{Feed, LaneLine, abandon_line, made, take_lane_stage};
