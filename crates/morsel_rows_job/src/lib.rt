//! What lanes of rows are for, before and behind a join.
#![tactic(auto)]

mod rows_job;

pub use rows_job::RowsJob;
