//! Room that reading keeps from one text to the next.
use std::alloc::Global;

/// Room that reading keeps from one text to the next, so that a text costs no memory of its own where the one before it was as
/// long. What it holds says nothing.
#[derive(Debug, Drop)]
pub struct ReadRoom {
    /// The places of marks.
    pub(crate) places: Vec<u32>,
    /// The content of a field that contains quotes.
    pub(crate) content: Vec<u8>,
}

impl ReadRoom {
    /// No room yet.
    pub fn new(alloc: Global) -> ReadRoom {
        ReadRoom {
            places: Vec::new(alloc),
            content: Vec::new(alloc),
        }
    }
}
