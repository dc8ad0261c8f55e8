//! Uses of the readers of files as a caller has them.
#![tactic(auto)]

#[cfg(test)]
mod tests;
