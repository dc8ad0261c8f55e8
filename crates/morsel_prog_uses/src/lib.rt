//! The main calls as a program has them: tests over files in memory.
#![tactic(auto)]

#[cfg(test)]
mod tests;
