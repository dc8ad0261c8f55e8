//! Uses of the node of a group-by as a query has it.
#![tactic(auto)]

#[cfg(test)]
mod tests;
