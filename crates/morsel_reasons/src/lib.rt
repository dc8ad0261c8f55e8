//! What is to be mended, told in words behind an answer that tells a fault.
//!
//! `reason` takes the words of a command and the line that was printed, and reads the named files once more. It takes no part in
//! any answer: what is proved of it is that it is safe and returns.
#![tactic(auto)]

mod answers;
mod headers;
mod misfits;
mod records;
mod spots;
mod told;
mod usage;
mod walk;

pub use answers::reason;
