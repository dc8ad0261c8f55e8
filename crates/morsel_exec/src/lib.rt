//! Tasks and their scheduling: the machine whose events every scheduler makes, the running word of a task with the
//! laws of its four fetches, and the order in which a worker looks for others' tasks.
#![tactic(auto)]

pub mod laws;
pub mod machine;
mod permutation;

pub use permutation::{Permutation, random_permutation};
