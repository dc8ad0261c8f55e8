//! The units of nodes: tasks that take loads from one lane, make others of them, and send those through another.
#![tactic(auto)]

mod finished;
mod load_maker;
mod node_unit;
mod sending_end;

pub use finished::Finished;
pub use load_maker::LoadMaker;
pub use node_unit::NodeUnit;
pub use sending_end::SendingEnd;
