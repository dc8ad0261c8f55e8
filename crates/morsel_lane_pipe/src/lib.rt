//! The tasks of pipes: what hands loads from the sending ends of one node to the receiving ends of the next, and what
//! tells at the end that all of them came out.
#![tactic(auto)]

mod distributing;
mod handing_on;
mod inserting;
mod merging;
mod passing;
mod receipts;
mod settle;
mod stepping;
mod stepwise;

pub use distributing::Distributing;
pub use handing_on::HandingOn;
pub use inserting::Inserting;
pub use merging::Merging;
pub use receipts::{LoadOf, PipeOut, Receipts, ReceiptsOf, Room, SentOf, TakenOf};
pub use settle::{settle_lanes, settle_merged, settle_spread};
pub use stepping::Stepping;
pub use stepwise::{Ending, Stepwise};
