//! Files that are read once more, to say what is wrong in them: their bytes from a place on, and the numbers of their lines.
#![tactic(auto)]

mod files;

pub use files::{bytes_from, line_of, open};
