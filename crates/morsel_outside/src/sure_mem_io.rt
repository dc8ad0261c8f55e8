//! An outside in memory that tells everything and never fails.
ghost use Rattle.std.specs.Prelude.{◌≡◌, ◌<◌, ◌≤◌, ◌+◌, length, slice_index, OnOk, OnErr, IsOkUnless};
ghost use Rattle.morsel_outside.specs.Actions.{Rises};
ghost use Rattle.morsel_outside.specs.Calls.{Opens, Reads, Makes, Writes, Prints};
ghost use Rattle.morsel_outside.specs.Memory.{Contents, untouched, sure, with_opened, with_made, with_event, with_written, with_printed};
ghost use Rattle.morsel_outside.specs.MemoryParts.{stored_files};

use crate::memory::Memory;
use crate::{FileNo, Io, IoErr, IoEvent};
use morsel_meaning::Name;
use std::alloc::Global;
use std::marker::Model;

/// An outside in memory that never fails: a name of which there is no file opens as an empty file.
#[derive(Debug, Drop)]
pub struct SureMemIo {
    memory: Memory,
}

impl Model for SureMemIo {
    ghost use Rattle.morsel_outside.specs.Memory.{Contents};

    ghost Value = { Contents };

    ghost view = { λ m. m.memory };
}

impl SureMemIo {
    /// An outside of these files, of which nothing was asked yet.
    pub fn new(alloc: Global, files: Vec<(Name, Vec<u8>)>) -> SureMemIo
        ensures { result ≡ untouched (stored_files files.items) }
    {
        SureMemIo {
            memory: Memory::new(alloc, files),
        }
    }

    /// What was opened, made, written, printed and asked.
    pub fn memory(&self) -> &Memory
        ensures { result.now ≡ self.now }
    {
        &self.memory
    }
}

impl Io for SureMemIo {
    ghost seen = { sure };

    fn open_source(&mut self, name: &str) -> Result<FileNo, IoErr>
        ensures opens { Opens (sure self.old) name.now result (sure self.new) }
        ensures stored { OnOk result (self.new ≡ with_opened self.old name.now) }
        ensures err { OnErr result (self.new ≡ self.old) }
        ensures out_of_memory { IsOkUnless result IoErr.OutOfMemory }
    {
        let Ok(file) = self.memory.open(name) else {
            return Err(IoErr::OutOfMemory);
        };
        Ok(file)
    }

    fn size(&self, file: FileNo) -> u64 {
        self.memory.size(file)
    }

    fn read_range(&mut self, file: FileNo, at: u64, into: &mut [u8]) -> Result<(), IoErr>
        requires opened { file.0 < length (sure self.old).sizes }
        requires within { at + length into.old ≤ slice_index (sure self.old).sizes file.0 }
        ensures reads { Reads (sure self.old) file.0 at into.new result (sure self.new) }
        ensures noted { OnOk result (self.new ≡ with_event self.old (IoEvent.ReadAt file.0 at (length into.new))) }
        ensures err { OnErr result (self.new ≡ self.old) }
        ensures out_of_memory { IsOkUnless result IoErr.OutOfMemory }
    {
        let event = IoEvent::ReadAt {
            file: file.0,
            at,
            len: into.len(),
        };
        let Ok(()) = self.memory.note(event) else {
            return Err(IoErr::OutOfMemory);
        };
        self.memory.fill(file, at, into);
        Ok(())
    }

    fn make_sink(&mut self, name: &str) -> Result<(), IoErr>
        ensures makes { Makes (sure self.old) name.now result (sure self.new) }
        ensures kept { OnOk result (self.new ≡ with_made self.old name.now) }
        ensures err { OnErr result (self.new ≡ self.old) }
        ensures out_of_memory { IsOkUnless result IoErr.OutOfMemory }
    {
        let Ok(()) = self.memory.make(name) else {
            return Err(IoErr::OutOfMemory);
        };
        Ok(())
    }

    fn write(&mut self, piece: &[u8]) -> Result<(), IoErr>
        requires { 0 < (sure self.old).sinks }
        ensures writes { Writes (sure self.old) piece.now result (sure self.new) }
        ensures kept { OnOk result (self.new ≡ with_written self.old piece.now) }
        ensures err { OnErr result (self.new ≡ self.old) }
        ensures out_of_memory { IsOkUnless result IoErr.OutOfMemory }
    {
        let Ok(()) = self.memory.append(piece) else {
            return Err(IoErr::OutOfMemory);
        };
        Ok(())
    }

    fn print(&mut self, line: &str) -> Result<(), IoErr>
        ensures prints { Prints (sure self.old) line.now result (sure self.new) }
        ensures kept { OnOk result (self.new ≡ with_printed self.old line.now) }
        ensures err { OnErr result (self.new ≡ self.old) }
        ensures out_of_memory { IsOkUnless result IoErr.OutOfMemory }
    {
        let Ok(()) = self.memory.print(line) else {
            return Err(IoErr::OutOfMemory);
        };
        Ok(())
    }
}

/// Such an outside has no fault at any moment, so no count of faults ever rises.
pub fn sure_never_fails()
    ensures read_faults { (io : Contents) → (⟦<crate::SureMemIo as crate::Io>⟧.seen io).read_faults ≡ 0 }
    ensures write_faults { (io : Contents) → (⟦<crate::SureMemIo as crate::Io>⟧.seen io).write_faults ≡ 0 }
    ensures print_faults { (io : Contents) → (⟦<crate::SureMemIo as crate::Io>⟧.seen io).print_faults ≡ 0 }
    ensures reads { (old new : Contents) → Rises (sure old).read_faults (sure new).read_faults → ⊥ }
    ensures writes { (old new : Contents) → Rises (sure old).write_faults (sure new).write_faults → ⊥ }
{}
