//! Uses of the tasks of pipes, as a caller has them.
#![tactic(auto)]

#[cfg(test)]
mod tests;
