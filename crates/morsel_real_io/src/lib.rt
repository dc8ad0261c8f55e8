//! The outside of a program: files of the system and standard output.
#![tactic(auto)]

mod real_io;

pub use real_io::RealIo;
