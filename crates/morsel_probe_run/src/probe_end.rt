//! What a run answers that writes what rows find.

/// How many rows were written, and by whom they were found.
#[derive(Drop)]
pub struct ProbeEnd<M> {
    /// The node that found them, or the stages of its line.
    pub node: M,
    /// How many rows were written.
    pub rows: u64,
    /// How many bytes of the files were given.
    pub given: u64,
}
