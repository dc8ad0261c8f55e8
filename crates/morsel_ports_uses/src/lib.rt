//! Uses of pipes, their ports and nodes, as a caller has them.
#![tactic(auto)]

mod handing;
mod nodes;
mod pairings;

pub use handing::HandingNode;
pub use nodes::{give_all_back, take_unit};
pub use pairings::{Pairing, pipe_between, tasks_of_pairing};

#[cfg(test)]
mod tests;
