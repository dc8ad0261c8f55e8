//! Uses of what lanes carry, as a caller has it.
#![tactic(auto)]

#[cfg(test)]
mod tests;
