//! What a line of CSV pieces is for, and the reader that feeds it.
#![tactic(auto)]

mod faults;
mod job;
mod row_stage;
mod scan_source;

pub use faults::piece_fault;
pub use job::{ScanJob, a_scan_has_a_sound_axis};
pub use row_stage::RowStage;
pub use scan_source::ScanSource;
