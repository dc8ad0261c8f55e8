//! Rows that come some at a time.
use morsel_frame::Frame;

/// Some of the rows that were asked for.
#[derive(Drop)]
pub struct SomeRows {
    /// The rows.
    pub frame: Frame,
    /// Whether no row comes after them.
    pub last: bool,
}
