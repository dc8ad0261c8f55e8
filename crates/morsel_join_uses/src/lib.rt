//! Uses of joins as a caller has them: tests that take the public calls alone.
#![tactic(auto)]

#[cfg(test)]
mod tests;
