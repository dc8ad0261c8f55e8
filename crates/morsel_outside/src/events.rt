//! What is told of calls to the outside: reads and writes, and the names that were asked for.
use morsel_meaning::Name;

/// A read of a file, or a write to a sink. A call that ran out of memory is none.
#[derive(Clone, Copy, Debug, PartialEq, Eq)]
pub enum IoEvent {
    /// `len` bytes of the file were asked, from byte `at` on.
    ReadAt { file: usize, at: u64, len: usize },
    /// The text of the last sink gained `len` bytes.
    Wrote { len: usize },
}

/// A name that was asked for, and what for.
#[derive(Debug, Drop, PartialEq, Eq)]
pub enum Asked {
    /// A file of this name was to be opened.
    Open(Name),
    /// A sink of this name was to be made.
    Make(Name),
}
