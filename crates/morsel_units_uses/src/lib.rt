//! What follows from the promises of units, and what does not.
#![tactic(auto)]

mod laws;

pub use laws::loads_that_end_no_stretch_are_not_counted;
