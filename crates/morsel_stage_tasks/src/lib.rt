//! The tasks of stages before they are spawned: put together by pairs, and spawned on a board.
#![tactic(auto)]

mod stage_tasks;
mod start;

pub use stage_tasks::{StageTasks, pair_tasks};
pub use start::{StartedTasks, start_tasks};
