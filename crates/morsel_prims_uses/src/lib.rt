//! Uses of lanes and tokens as a caller has them.
#![tactic(auto)]

mod number;
mod receipts;

pub use number::{Number, send_seven};
pub use receipts::settle;

#[cfg(test)]
mod tests;
