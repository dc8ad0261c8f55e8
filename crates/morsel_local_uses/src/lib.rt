//! Uses of tasks on one thread as a caller has them.
#![tactic(auto)]

mod restless;
mod timer;
mod timers;

pub use restless::Restless;
pub use timer::Timer;
pub use timers::Timers;

#[cfg(test)]
mod tests;
