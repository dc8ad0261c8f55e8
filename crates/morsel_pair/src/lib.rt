//! Two stages of a phase as one: tasks of two kinds, and whose they are.
#![tactic(auto)]

mod pair_stage;
mod spawn;
mod two_of;

pub use pair_stage::PairStage;
pub use spawn::{as_firsts, as_seconds, spawn_each};
pub use two_of::TwoOf;
