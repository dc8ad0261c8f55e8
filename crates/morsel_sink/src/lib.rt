//! Sinks: where the rows of a query go, the node that encodes them, and the writer of their text.
#![tactic(auto)]

mod json_node;
mod spec;
mod writer;

pub use json_node::{NDJsonSinkNode, parts_are_the_text};
pub use spec::{SinkFormat, SinkSpec};
pub use writer::SinkWriter;
