//! Uses of the nodes of a scan as a query has them.
#![tactic(auto)]

#[cfg(test)]
mod tests;
