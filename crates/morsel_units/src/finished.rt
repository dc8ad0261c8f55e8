//! What a unit that ended whole gives back.

/// The receipts of a unit that ended whole, and what it worked with.
#[derive(Debug, Drop)]
pub struct Finished<R, W> {
    /// Of its ends.
    pub receipts: R,
    /// What made its loads, kept them, or gave them.
    pub work: W,
}
