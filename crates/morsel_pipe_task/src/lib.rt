//! A task of a pipe, of whichever of the four kinds.
#![tactic(auto)]

mod pipe_task;

pub use pipe_task::{PipeTask, PipeWork};
