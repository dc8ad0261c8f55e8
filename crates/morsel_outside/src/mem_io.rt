//! An outside in memory that tells everything, and fails at the calls that it is told to fail at.
ghost use Rattle.std.specs.Prelude.{◌≡◌, ◌<◌, ◌≤◌, ◌+◌, length, slice_index, take, min};
ghost use Rattle.morsel_outside.specs.Actions.{Rises};
ghost use Rattle.morsel_outside.specs.Calls.{Opens, Reads, Makes, Writes, Prints};
ghost use Rattle.morsel_outside.specs.Memory.{sizes_of};
ghost use Rattle.morsel_outside.specs.MemoryParts.{stored_files};
ghost use Rattle.morsel_outside.specs.MemIo.{told_of, at_start, read_fails, taken_at, next_taken, OpensStored, ReadsHeld, MakesKept, WritesKept, PrintsKept, after_read, after_read_fault, after_write, after_write_fault, after_print_fault};

use crate::memory::Memory;
use crate::{FileNo, Io, IoErr, IoEvent};
use morsel_meaning::Name;
use std::alloc::Global;
use std::marker::Model;

/// An outside in memory whose numbered calls fail.
///
/// Opens and reads are counted together from 0, and so are makes, writes and prints.
#[derive(Debug, Drop)]
pub struct MemIo {
    memory: Memory,
    fail_reads: Vec<u64>,
    fail_writes: Vec<(u64, u64)>,
    reads: u64,
    writes: u64,
    read_faults: u64,
    write_faults: u64,
    print_faults: u64,
    failed: usize,
}

impl Model for MemIo {
    ghost use Rattle.morsel_outside.specs.MemIo.{FaultyMemory};

    ghost Value = { FaultyMemory };

    ghost view = { λ m. record {
      contents = m.memory;
      fail_reads = m.fail_reads.items;
      fail_writes = m.fail_writes.items;
      reads = m.reads;
      writes = m.writes;
      read_faults = m.read_faults;
      write_faults = m.write_faults;
      print_faults = m.print_faults;
      failed = m.failed;
    } };
}

impl MemIo {
    /// An outside of these files, of which nothing was asked yet.
    ///
    /// `fail_reads` has the numbers of the opens and reads that fail. `fail_writes` has the numbers of the makes, writes
    /// and prints that fail, each with how many bytes of its piece a write takes then.
    pub fn new(
        alloc: Global,
        files: Vec<(Name, Vec<u8>)>,
        fail_reads: Vec<u64>,
        fail_writes: Vec<(u64, u64)>,
    ) -> MemIo
        ensures { result ≡ at_start (stored_files files.items) fail_reads.items fail_writes.items }
    {
        MemIo {
            memory: Memory::new(alloc, files),
            fail_reads,
            fail_writes,
            reads: 0,
            writes: 0,
            read_faults: 0,
            write_faults: 0,
            print_faults: 0,
            failed: 0,
        }
    }

    /// What was opened, made, written, printed and asked.
    pub fn memory(&self) -> &Memory
        ensures { result.now ≡ self.now.contents }
    {
        &self.memory
    }

    /// How many opens and reads failed.
    pub fn read_faults(&self) -> u64
        ensures { result ≡ self.now.read_faults }
    {
        self.read_faults
    }

    /// How many makes, writes and prints failed.
    pub fn write_faults(&self) -> u64
        ensures { result ≡ self.now.write_faults }
    {
        self.write_faults
    }

    /// How many prints failed.
    pub fn print_faults(&self) -> u64
        ensures { result ≡ self.now.print_faults }
    {
        self.print_faults
    }

    /// The number of the file whose open or read failed last.
    pub fn failed(&self) -> usize
        ensures { result ≡ self.now.failed }
    {
        self.failed
    }

    fn read_fails(&self) -> bool
        ensures { result ≡ read_fails self.now }
    {
        self.fail_reads.as_slice().contains(&self.reads)
    }

    fn next_taken(&self) -> Option<u64>
        ensures { result ≡ next_taken self.now }
    {
        taken_at(self.fail_writes.as_slice(), self.writes)
    }

    fn count_read(&mut self)
        ensures { self.new ≡ after_read self.old self.old.contents }
    {
        self.reads = self.reads.saturating_add(1);
    }

    fn count_read_fault(&mut self, file: usize)
        ensures after { self.new ≡ after_read_fault self.old self.old.contents file }
        ensures rises { Rises self.old.read_faults self.new.read_faults }
    {
        self.reads = self.reads.saturating_add(1);
        self.read_faults = self.read_faults.saturating_add(1);
        self.failed = file;
    }

    fn count_write(&mut self)
        ensures { self.new ≡ after_write self.old self.old.contents }
    {
        self.writes = self.writes.saturating_add(1);
    }

    fn count_write_fault(&mut self)
        ensures after { self.new ≡ after_write_fault self.old self.old.contents }
        ensures rises { Rises self.old.write_faults self.new.write_faults }
    {
        self.writes = self.writes.saturating_add(1);
        self.write_faults = self.write_faults.saturating_add(1);
    }

    fn count_print_fault(&mut self)
        ensures after { self.new ≡ after_print_fault self.old }
        ensures rises { Rises self.old.write_faults self.new.write_faults }
    {
        self.writes = self.writes.saturating_add(1);
        self.write_faults = self.write_faults.saturating_add(1);
        self.print_faults = self.print_faults.saturating_add(1);
    }

    fn open(&mut self, name: &str) -> Result<FileNo, IoErr>
        ensures { OpensStored self.old name.now result self.new }
    {
        if self.read_fails() || !self.memory.has(name) {
            let Ok(()) = self.memory.ask_file(name) else {
                return Err(IoErr::OutOfMemory);
            };
            let file = self.memory.opened();
            self.count_read_fault(file);
            return Err(IoErr::Failed);
        }
        let Ok(file) = self.memory.open(name) else {
            return Err(IoErr::OutOfMemory);
        };
        self.count_read();
        Ok(file)
    }

    fn read(&mut self, file: FileNo, at: u64, into: &mut [u8]) -> Result<(), IoErr>
        requires opened { file.0 < length (sizes_of self.old.contents) }
        requires within { at + length into.old ≤ slice_index (sizes_of self.old.contents) file.0 }
        ensures { ReadsHeld self.old file.0 at into.new result self.new }
    {
        let fails = self.read_fails();
        let event = IoEvent::ReadAt {
            file: file.0,
            at,
            len: into.len(),
        };
        let Ok(()) = self.memory.note(event) else {
            return Err(IoErr::OutOfMemory);
        };
        if fails {
            self.count_read_fault(file.0);
            return Err(IoErr::Failed);
        }
        self.memory.fill(file, at, into);
        self.count_read();
        Ok(())
    }

    fn make(&mut self, name: &str) -> Result<(), IoErr>
        ensures { MakesKept self.old name.now result self.new }
    {
        if self.next_taken().is_some() {
            let Ok(()) = self.memory.ask_sink(name) else {
                return Err(IoErr::OutOfMemory);
            };
            self.count_write_fault();
            return Err(IoErr::Failed);
        }
        let Ok(()) = self.memory.make(name) else {
            return Err(IoErr::OutOfMemory);
        };
        self.count_write();
        Ok(())
    }

    fn append(&mut self, piece: &[u8]) -> Result<(), IoErr>
        requires { 0 < length self.old.contents.made }
        ensures { WritesKept self.old piece.now result self.new }
    {
        if let Some(taken) = self.next_taken() {
            let Ok(()) = self.memory.append(front(piece, taken)) else {
                return Err(IoErr::OutOfMemory);
            };
            self.count_write_fault();
            return Err(IoErr::Failed);
        }
        let Ok(()) = self.memory.append(piece) else {
            return Err(IoErr::OutOfMemory);
        };
        self.count_write();
        Ok(())
    }

    fn keep_line(&mut self, line: &str) -> Result<(), IoErr>
        ensures { PrintsKept self.old line.now result self.new }
    {
        if self.next_taken().is_some() {
            self.count_print_fault();
            return Err(IoErr::Failed);
        }
        let Ok(()) = self.memory.print(line) else {
            return Err(IoErr::OutOfMemory);
        };
        self.count_write();
        Ok(())
    }
}

impl Io for MemIo {
    ghost seen = { told_of };

    fn open_source(&mut self, name: &str) -> Result<FileNo, IoErr>
        ensures opens { Opens (told_of self.old) name.now result (told_of self.new) }
        ensures stored { OpensStored self.old name.now result self.new }
    {
        self.open(name)
    }

    fn size(&self, file: FileNo) -> u64 {
        self.memory.size(file)
    }

    fn read_range(&mut self, file: FileNo, at: u64, into: &mut [u8]) -> Result<(), IoErr>
        requires opened { file.0 < length (told_of self.old).sizes }
        requires within { at + length into.old ≤ slice_index (told_of self.old).sizes file.0 }
        ensures reads { Reads (told_of self.old) file.0 at into.new result (told_of self.new) }
        ensures held { ReadsHeld self.old file.0 at into.new result self.new }
    {
        self.read(file, at, into)
    }

    fn make_sink(&mut self, name: &str) -> Result<(), IoErr>
        ensures makes { Makes (told_of self.old) name.now result (told_of self.new) }
        ensures kept { MakesKept self.old name.now result self.new }
    {
        self.make(name)
    }

    fn write(&mut self, piece: &[u8]) -> Result<(), IoErr>
        requires { 0 < (told_of self.old).sinks }
        ensures writes { Writes (told_of self.old) piece.now result (told_of self.new) }
        ensures kept { WritesKept self.old piece.now result self.new }
    {
        self.append(piece)
    }

    fn print(&mut self, line: &str) -> Result<(), IoErr>
        ensures prints { Prints (told_of self.old) line.now result (told_of self.new) }
        ensures kept { PrintsKept self.old line.now result self.new }
    {
        self.keep_line(line)
    }
}

/// The second of the first pair of this number.
fn taken_at(pairs: &[(u64, u64)], number: u64) -> Option<u64>
    ensures { result ≡ taken_at pairs.now number }
{
    for pair in pairs {
        if pair.0 == number {
            return Some(pair.1);
        }
    }
    None
}

/// As many of the first bytes as there are, and at most `taken`.
fn front(piece: &[u8], taken: u64) -> &[u8]
    ensures { result.now ≡ take (min taken (length piece.now)) piece.now }
{
    let end = (piece.len() as u64).min(taken) as usize;
    &piece[..end]
}
