//! Queries: what is asked of files, how two scans are joined, how rows are grouped, and where the answer goes, the numbers by which it is run, and the plan in
//! which the names of a query meet the columns of its files.
#![tactic(auto)]

mod flaws;
mod join;
mod name_sets;
mod options;
mod plans;
mod query;
mod scan_plan;

pub use flaws::{a_sound_query_has_no_flaw, flaw_of_group, flaw_of_keys, flaw_of_side};
pub use join::{JoinHow, JoinSpec};
pub use options::{Options, ahead};
pub use plans::{JoinPlan, QueryPlan, check, plan};
pub use query::Query;
pub use scan_plan::{ScanPlan, plan_scan};
