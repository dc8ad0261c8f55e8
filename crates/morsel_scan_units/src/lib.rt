//! The units of a scan: what makes the pieces of files into rows and rows into the text of a sink, and what the lanes between
//! them are for.
#![tactic(auto)]

mod at_home;
mod frame_encoder;
mod lane_job;
mod lane_rows;
mod piece_decoder;

pub use at_home::AtHome;
pub use frame_encoder::FrameEncoder;
pub use lane_job::LaneJob;
pub use piece_decoder::PieceDecoder;
