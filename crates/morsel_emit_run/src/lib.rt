//! The last phase of a join: the kept rows that no row of a scan finds are given by a node, through any lanes, and written.
#![tactic(auto)]

mod line;
mod run;

pub use run::emit_nodes;
