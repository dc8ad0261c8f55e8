//! Pieces decoded with ample memory, with rows worked out by hand.
//!
//! A helper says `expect` where memory may be out, and gives what it makes to `drop`: a value that is let go at several
//! exits has each of them proved.
mod decode;
mod makers;
mod show;
