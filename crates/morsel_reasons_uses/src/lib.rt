//! Reasons as a caller has them: tests of the one public call.
#![tactic(auto)]

#[cfg(test)]
mod tests;
