//! Stages of a phase by themselves: a node with any ports, and the tasks of pipes.
#![tactic(auto)]

mod node_tasks;
mod opening;
mod pipe_tasks;

pub use node_tasks::NodeTasks;
pub use opening::{NodePorts, open_ports};
pub use pipe_tasks::PipeTasks;
