//! The run of a group-by of a scan, or of a join of two.
#![tactic(auto)]

mod giving;
mod joined;
mod joined_rows;
mod lanes;
mod lone;
mod scan;

pub use giving::give_groups;
pub use joined::write_joined_groups;
pub use lanes::{PlaceLanes, grouped_sink, place_lanes, taken_lanes};
pub use lone::take_lone_rows;
pub use scan::{PlannedGroup, ScanGroup, all_taken, write_groups};
