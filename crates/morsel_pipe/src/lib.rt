//! What goes through the pipes of a query: the numbers of morsels, the pieces of files that a scan gives, and the texts of rows.
#![tactic(auto)]

mod encoded;
mod piece;
mod seq;
#[cfg(test)]
mod tests;

pub use encoded::Encoded;
pub use piece::{RawPart, RawPiece};
pub use seq::MorselSeq;
