//! Uses of lanes and groups between threads, as a caller has them.
#![tactic(auto)]

mod across;
mod number;

pub use across::{Handover, hand_over};
pub use number::Crossing;

#[cfg(test)]
mod end_tests;
#[cfg(test)]
mod group_tests;
#[cfg(test)]
mod lane_tests;
#[cfg(test)]
mod thread_tests;
