//! Predicates over the rows of a frame, with three-valued truth, and the filter that keeps the rows that are true.
//!
//! Contracts see a predicate as its tree (`PredNode`), and a frame as a table: `truth` says what a tree says of a row,
//! `flaw` what a schema has against it, and `kept_rows` which rows a filter keeps.
#![tactic(auto)]

mod check;
mod compare;
mod eval;
mod filters;
mod node;
mod order_truths;
mod pred;
mod truth;

pub use filters::filter;
pub use node::{CmpOp, PredNode, Rhs};
pub use pred::Pred;
pub use truth::Truth;
