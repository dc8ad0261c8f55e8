//! Uses of several lanes as one, as a caller has them.
#![tactic(auto)]

#[cfg(test)]
mod tests;
