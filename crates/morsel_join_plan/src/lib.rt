//! The run of a join of two scans through its lines, and the runs of its phases, which are those of other nodes too.
#![tactic(auto)]

mod alone;
mod found;
mod join;
mod keep;
mod lanes;
mod look_up;

pub use alone::{end_looking_up, give_into};
pub use found::keep_found;
pub use join::{
    JoinBoard, JoinLoad, JoinSide, JoinWriters, PlainJoin, kept_rows, new_board, write_join,
};
pub use keep::{ScanJoin, keep_side, keep_with};
pub use lanes::{
    AloneLanes, FoundLanes, KeptLanes, NodeLanes, alone_lanes, found_lanes, joined_sink,
    kept_lanes, side_lane,
};
