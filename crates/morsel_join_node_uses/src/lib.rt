//! Uses of the node of a join as a query has it.
#![tactic(auto)]

#[cfg(test)]
mod tests;
