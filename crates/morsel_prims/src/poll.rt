//! What a poll answers.

/// What a poll answers: the value, or that there is none yet.
#[derive(Clone, Copy, Debug, Drop, PartialEq, Eq)]
pub enum Poll<T> {
    /// The value is there.
    Ready(T),
    /// There is no value yet, and who polls is registered where there will be one.
    Pending,
}
