//! Groups of tokens between threads, without a lock: a count, and who waits until it is 0.
//!
//! Each call of a group or a token is a few single steps on two words, and what it says holds whatever steps others make
//! between them.
#![tactic(auto)]

mod calls;
mod group;
mod indexed;
mod view;
mod word;

pub use group::{WaitGroup, WaitToken};
pub use indexed::IndexedWaitGroup;
