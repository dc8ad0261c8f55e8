//! Lanes between threads, without a lock: a word, one slot, and who waits.
//!
//! Each call of an end is a few single steps on words of a table, and what it says holds whatever steps the other end
//! makes between them.
#![tactic(auto)]

mod close_word;
mod closing;
mod history;
mod lane;
mod receiver;
mod sender;
mod sending;
mod take_word;
mod taking;
mod view;
mod word;

pub use closing::{WordSent, WordTaken, agree_receipts};
pub use history::tell_history;
pub use lane::word_lane;
pub use receiver::WordReceiver;
pub use sender::WordSender;
pub use sending::task_of;
