//! The line that a run printed last, kept for what is told of it on standard error.
//!
//! Each call goes on to the outside below, and nothing of the outside is seen but what is seen of that.
ghost use Rattle.std.specs.Prelude.{◌≡◌};

use morsel_outside::{FileNo, Io, IoErr};
use std::alloc::Global;

/// An outside whose last printed line is kept.
#[derive(Drop)]
pub struct KeptLine<H: Io + Drop> {
    alloc: Global,
    below: H,
    // none before a line was printed, and where there is no memory for it
    line: Option<String>,
}

impl<H: Io + Drop> KeptLine<H> {
    /// The outside, of which no line is kept yet.
    pub fn new(alloc: Global, below: H) -> Self
        ensures { H.seen result.below ≡ H.seen below }
    {
        KeptLine {
            alloc,
            below,
            line: None,
        }
    }

    /// The outside below.
    pub fn below(&self) -> &H {
        &self.below
    }

    /// The line that was printed last.
    pub fn line(&self) -> Option<&str> {
        match &self.line {
            Some(line) => Some(line.as_str()),
            None => None,
        }
    }
}

impl<H: Io + Drop> Io for KeptLine<H> {
    ghost seen = { λ kept. H.seen kept.below };

    fn open_source(&mut self, name: &str) -> Result<FileNo, IoErr> {
        self.below.open_source(name)
    }

    fn size(&self, file: FileNo) -> u64 {
        self.below.size(file)
    }

    fn read_range(&mut self, file: FileNo, at: u64, into: &mut [u8]) -> Result<(), IoErr> {
        self.below.read_range(file, at, into)
    }

    fn make_sink(&mut self, name: &str) -> Result<(), IoErr> {
        self.below.make_sink(name)
    }

    fn write(&mut self, piece: &[u8]) -> Result<(), IoErr> {
        self.below.write(piece)
    }

    fn print(&mut self, line: &str) -> Result<(), IoErr> {
        self.line = String::from_str(self.alloc, line).ok();
        self.below.print(line)
    }
}
