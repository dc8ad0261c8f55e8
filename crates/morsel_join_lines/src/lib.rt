//! The three phases of a join, over any lanes and any nodes: the ends of their lines, and the units of their nodes between those.
#![tactic(auto)]

mod emit;
mod ends;
mod find_keep;
mod keep;
mod probe;
mod units;

pub use emit::{EmitJobs, EmitNodes, OpenEmit, open_emit};
pub use find_keep::{FindKeepJobs, FindKeepNodes, OpenFindKeep, open_find_keep};
pub use keep::{KeepJobs, KeepNodes, OpenKeep, open_keep};
pub use probe::{OpenProbe, ProbeJobs, ProbeNodes, open_probe};
pub use units::PortJobs;
