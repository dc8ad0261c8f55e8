//! The caller of a line of tasks: it reads the pieces of a scan, feeds them, and writes what comes out.
//!
//! `line` has what it asks of a reader and of a line, `written` how far the text is, `progress` when a run is given up, and `caller` the loop and its parts, of which
//! other loops are made.
#![tactic(auto)]

mod caller;
mod line;
mod progress;
mod written;

pub use caller::{Input, drive, feed_on, read_on, write_on};
pub use line::{Line, LineJob, PieceSource, Taken};
pub use progress::{IDLE_SWEEPS, Progress, Reached, after_sweep, place_reached};
pub use written::Written;
