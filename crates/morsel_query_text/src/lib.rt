//! Queries read of JSON trees.
//!
//! `specs/QueryTexts.antt` says which query a tree is, with a line for each key.
#![tactic(auto)]

mod csv;
mod group;
mod join;
mod lists;
mod make;
mod options;
mod predicate;
mod query;
mod scan;
mod text;
mod trees;

pub use query::{a_tree_is_one_predicate, a_tree_is_one_query, query_of};
