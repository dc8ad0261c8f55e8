//! The text of NDJSON: the rows of a frame as JSON, one object a line.
#![tactic(auto)]

mod beginning;
mod cursor;
mod digits;
mod lines;
mod members;
mod values;

pub use lines::write_ndjson;
