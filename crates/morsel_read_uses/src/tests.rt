//! Files in memory, read by chunks, with pieces and rows worked out by hand.
//!
//! A helper says `expect` where memory may be out, and gives what it makes to `drop`: a value that is let go at several
//! exits has each of them proved.
mod faults;
mod makers;
mod one_file;
mod pieces;
mod reading;
mod rows;
