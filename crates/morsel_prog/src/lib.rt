//! The main calls: from the words of a command line to its answer and its status.
//!
//! `words` reads the command line, `query_file` a query file, `commands` makes the query of a command, `program` has the two main
//! calls, and `report` tells an answer.
#![tactic(auto)]

mod commands;
mod program;
mod query_file;
mod report;
mod words;

pub use morsel_engine::{run_local, run_pipelines};
pub use program::{local_main, morsel_main};
pub use report::status_of;
