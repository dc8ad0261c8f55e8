//! The second phase of a join: a scan's files are read, and what their rows find on a kept side is written, through any lanes.
#![tactic(auto)]

mod line;
mod probe_end;
mod run;

pub use probe_end::ProbeEnd;
pub use run::probe_nodes;
