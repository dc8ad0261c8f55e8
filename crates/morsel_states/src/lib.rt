//! Accumulators of many groups at once, in flat vectors, which contracts see as what an `Acc` has of each group.
#![tactic(auto)]

mod accs;
mod bounds;
mod flat;
mod joins;
mod laws;
mod lens;
mod picks;
mod states;
mod sums;

pub use laws::{states_keep_groups, states_keep_parts};
pub use states::States;
