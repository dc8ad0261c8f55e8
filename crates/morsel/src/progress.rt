//! Progress on a terminal: one line on standard error that tells how far a run is.
//!
//! Each call goes on to the outside below, and nothing of the outside is seen but what is seen of that. What is counted on the
//! way is shown, and used for nothing else.
ghost use Rattle.std.specs.Prelude.{◌≡◌};

use morsel_outside::{FileNo, Io, IoErr};
use std::rt::Clock;
use std::time::Instant;

/// How many milliseconds pass before the line is shown, and between two of it.
const FIRST_MILLIS: u64 = 1_000;

const PAUSE_MILLIS: u64 = 200;

/// What a terminal takes for: go to the beginning of the line, and clear it.
const CLEAR: &str = "\r\x1b[K";

/// An outside whose reads and writes are shown.
#[derive(Drop)]
pub struct ProgressLine<'r, R: Clock + Eprint, H: Io + Drop> {
    rt: &'r R,
    below: H,
    // none where nothing is to be shown
    start: Option<Instant>,
    next_millis: u64,
    is_shown: bool,
    to_read: u64,
    bytes_read: u64,
    written: u64,
}

impl<'r, R: Clock + Eprint, H: Io + Drop> ProgressLine<'r, R, H> {
    /// The outside, shown on a terminal if there is one.
    pub fn new(rt: &'r R, below: H, is_terminal: bool) -> Self
        ensures { H.seen result.below ≡ H.seen below }
    {
        let start = if is_terminal {
            Instant::now(rt).ok()
        } else {
            None
        };
        ProgressLine {
            rt,
            below,
            start,
            next_millis: FIRST_MILLIS,
            is_shown: false,
            to_read: 0,
            bytes_read: 0,
            written: 0,
        }
    }

    /// The outside below.
    pub fn below(&self) -> &H {
        &self.below
    }

    /// Shows the line, where it is due.
    fn show(&mut self)
        ensures { self.new.below ≡ self.old.below }
    {
        let Some(start) = self.start else {
            return;
        };
        let Ok(elapsed) = start.elapsed(self.rt) else {
            return;
        };
        let millis = elapsed
            .as_secs()
            .saturating_mul(1_000)
            .saturating_add(u64::from(elapsed.subsec_millis()));
        if millis < self.next_millis {
            return;
        }
        self.next_millis = millis.saturating_add(PAUSE_MILLIS);
        self.is_shown = true;
        let (bytes_read, to_read) = (self.bytes_read / 1_000_000, self.to_read / 1_000_000);
        let (speed, written) = (
            self.bytes_read / 1_000 / millis.max(1),
            self.written / 1_000_000,
        );
        let _ = eprint!(self.rt;
            "{CLEAR}{bytes_read} of {to_read} MB read, {speed} MB/s, {written} MB written"
        );
    }

    /// Clears the line, where there is one.
    pub fn clear(&mut self)
        ensures { self.new.below ≡ self.old.below }
    {
        if self.is_shown {
            self.is_shown = false;
            let _ = eprint!(self.rt; "{CLEAR}");
        }
    }
}

impl<'r, R: Clock + Eprint, H: Io + Drop> Io for ProgressLine<'r, R, H> {
    ghost seen = { λ progress. H.seen progress.below };

    fn open_source(&mut self, name: &str) -> Result<FileNo, IoErr> {
        let file = self.below.open_source(name)?;
        self.to_read = self.to_read.saturating_add(self.below.size(file));
        Ok(file)
    }

    fn size(&self, file: FileNo) -> u64 {
        self.below.size(file)
    }

    fn read_range(&mut self, file: FileNo, at: u64, into: &mut [u8]) -> Result<(), IoErr> {
        let answer = self.below.read_range(file, at, into);
        self.bytes_read = self.bytes_read.saturating_add(into.len() as u64);
        self.show();
        answer
    }

    fn make_sink(&mut self, name: &str) -> Result<(), IoErr> {
        self.below.make_sink(name)
    }

    fn write(&mut self, piece: &[u8]) -> Result<(), IoErr> {
        let answer = self.below.write(piece);
        self.written = self.written.saturating_add(piece.len() as u64);
        self.show();
        answer
    }

    fn print(&mut self, line: &str) -> Result<(), IoErr> {
        // Standard output may be the same terminal.
        self.clear();
        self.below.print(line)
    }
}
