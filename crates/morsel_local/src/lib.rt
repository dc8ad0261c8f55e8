//! Tasks that run on one thread, in sweeps.
#![tactic(auto)]

mod local;
mod local_task;
mod spawned;
mod steps;

pub use local::{Local, SpawnError};
pub use steps::Steps;
