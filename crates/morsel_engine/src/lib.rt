//! Runs queries: from the bytes of the input files to the bytes of the output file.
#![tactic(auto)]

mod groups;
mod join;
mod joined_groups;
mod outside;
mod run;
mod scan;

pub use run::{run_local, run_pipelines};
