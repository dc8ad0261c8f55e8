//! The tasks of the stages of a scan's line, put together: each may end by no fault but those that its units may end with.
#![tactic(auto)]

mod line;
mod units;

pub use line::{LaneParts, UnfedParts, start_line_of, start_unfed};
pub use units::{pair_units, pipe_units};
