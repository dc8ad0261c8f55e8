//! What the programs share that time parts of the engine: what they are asked for, how long a part takes, the line that
//! tells it, and the tables that are timed.
#![tactic(auto)]

mod asked;
mod table;
mod timing;

pub use asked::{timing_asked, timing_ended};
pub use table::{Numbers, bare_frame, number_column, number_frame, text_frame};
pub use timing::{Best, Timing, nanos_since, now, tell};
