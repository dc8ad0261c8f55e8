//! The tasks of a phase on one thread: tasks of three kinds as one, whose they are, and what they end with.
#![tactic(auto)]

mod join;
mod one_of;
mod spawn;
mod stage;

pub use join::join_ended;
pub use one_of::OneOf;
pub use spawn::{LineTasks, spawn_all};
pub use stage::Stage;
