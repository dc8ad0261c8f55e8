//! The plan of a scan that is run: its nodes, the lanes between them, and the run of any two nodes through a line.
#![tactic(auto)]

mod run;
mod scan;

pub use run::run_nodes;
pub use scan::{ScanNodes, ScanRun, write_over, write_scan};
