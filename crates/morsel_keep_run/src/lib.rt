//! The phases of a query in which a scan's files are read, and their rows, or what those find, are kept by a node, through any lanes.
#![tactic(auto)]

mod found;
mod line;
mod run;

pub use found::{FoundNodes, keep_found_nodes};
pub use run::keep_nodes;
