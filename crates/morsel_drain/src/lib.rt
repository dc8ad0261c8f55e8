//! The callers of two other kinds of line: of one that gives no text, into which the pieces of a scan are fed; and of one that is
//! fed nothing, whose text is written.
#![tactic(auto)]

mod draining;
mod pouring;

pub use draining::drain;
pub use pouring::pour;
