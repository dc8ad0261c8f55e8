//! The outside: files that are opened and read, sinks that are made and written, lines that are printed.
ghost use Rattle.std.specs.Prelude.{◌≡◌, ◌+◌, ◌<◌, ◌≤◌, length, slice_index};
ghost use Rattle.morsel_outside.specs.Outside.{Outside};
ghost use Rattle.morsel_outside.specs.Calls.{Opens, Reads, Makes, Writes, Prints};

use thiserror::Error;

/// The number of an opened file, from 0 on, in the order of opening.
#[derive(Clone, Copy, Debug, PartialEq, Eq)]
pub struct FileNo(pub usize);

/// Why a call to the outside did not do its work.
#[derive(Clone, Copy, Debug, Error, PartialEq, Eq)]
pub enum IoErr {
    /// There was no memory. Nothing changed.
    #[error("out of memory")]
    OutOfMemory,
    /// The outside failed, and counted it.
    #[error("failed")]
    Failed,
}

/// Files to read, sinks to write and lines to print.
///
/// What a call does to `seen` is one relation of `specs/Calls.antt` for each call, by cases on its answer.
pub trait Io {
    /// All that contracts see of the outside.
    ghost seen: { Self → Outside };

    /// Opens a file. Its size is fixed from then on.
    fn open_source(&mut self, name: &str) -> Result<FileNo, IoErr>
        ensures { Opens (seen self.old) name.now result (seen self.new) };

    /// The size of an opened file, in bytes.
    fn size(&self, file: FileNo) -> u64
        requires { file.0 < length (seen self.now).sizes }
        ensures { result ≡ slice_index (seen self.now).sizes file.0 };

    /// Fills `into` with the bytes of the file from place `at` on. A short range is `Failed`.
    fn read_range(&mut self, file: FileNo, at: u64, into: &mut [u8]) -> Result<(), IoErr>
        requires opened { file.0 < length (seen self.old).sizes }
        requires within { at + length into.old ≤ slice_index (seen self.old).sizes file.0 }
        ensures { Reads (seen self.old) file.0 at into.new result (seen self.new) };

    /// Makes a sink with an empty text, to which each later `write` goes.
    fn make_sink(&mut self, name: &str) -> Result<(), IoErr>
        ensures { Makes (seen self.old) name.now result (seen self.new) };

    /// Appends the piece to the text of the last sink. After `Failed` a prefix of it was appended.
    fn write(&mut self, piece: &[u8]) -> Result<(), IoErr>
        requires { 0 < (seen self.old).sinks }
        ensures { Writes (seen self.old) piece.now result (seen self.new) };

    /// Prints the line and a line feed.
    fn print(&mut self, line: &str) -> Result<(), IoErr>
        ensures { Prints (seen self.old) line.now result (seen self.new) };
}
