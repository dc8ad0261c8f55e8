//! The outside of the program: files of the system and standard output.
//!
//! This is the trusted edge: the clauses speak of sizes, counts and names alone, and what the files hold is the system's
//! word. `sources` opens what is read, `sinks` makes what is written, and `reasons` tells what the system said of a failure.
//!
//! A file that is changed in place while it is read is answered as it was at each read.
ghost use Rattle.std.specs.Prelude.{◌≡◌, ◌+◌, ◌<◌, ◌≤◌, [], length, slice_index, IfOk, OnOk, OnErr, None};
ghost use Rattle.morsel_outside.specs.Actions.{Rises};
ghost use Rattle.morsel_real_io.specs.RealIo.{untold, with_source, with_name_asked, with_sink_made, with_read_fault, with_write_fault, with_print_fault};

mod reasons;
mod sinks;
mod sources;
#[cfg(test)]
mod tests;

use morsel_meaning::{Fault, Name};
use morsel_outside::{Asked, FileNo, Io, IoErr};
use reasons::reason_of;
use sinks::OpenSink;
use sources::{Source, Version, is_out_of_descriptors};
use std::alloc::Global;
use std::io;
use std::io::{ErrorKind, Write};
use std::marker::Model;
use std::os::unix::fs::FileExt;
use std::rt::Files;

/// How many descriptors of sources are kept, well below the thousand or so that most systems let a process have.
const KEPT_LIMIT: usize = 256;

/// The files of the system, and standard output for printed lines.
#[derive(Drop)]
pub struct RealIo<'r, R: Files + Print> {
    rt: &'r R,
    alloc: Global,
    sources: Vec<Source>,
    // the descriptors of the first sources, in their order
    kept: Vec<R::File>,
    sinks: Vec<OpenSink<R::File>>,
    asked: Vec<Asked>,
    read_faults: u64,
    write_faults: u64,
    print_faults: u64,
    failed: usize,
    reason: Option<String>,
}

impl<'r, R: Files + Print> Model for RealIo<'r, R> {
    ghost use Rattle.std.specs.Prelude.{map, length};
    ghost use Rattle.morsel_outside.specs.Outside.{Outside};
    ghost use Rattle.morsel_real_io.specs.RealIo.{untold};

    ghost Value = { Outside };

    ghost view = { λ m. untold (map (λ source. source.version.size) m.sources.items) (length m.sinks.items) m.read_faults m.write_faults m.print_faults m.failed m.asked.items };
}

impl<'r, R: Files + Print> RealIo<'r, R>
where
    R::File: FileExt,
{
    /// The outside of this runtime, of which nothing was asked yet.
    pub fn new(rt: &'r R, alloc: Global) -> Self
        ensures { result ≡ untold [] 0 0 0 0 0 [] }
    {
        RealIo {
            rt,
            alloc,
            sources: Vec::new(alloc),
            kept: Vec::new(alloc),
            sinks: Vec::new(alloc),
            asked: Vec::new(alloc),
            read_faults: 0,
            write_faults: 0,
            print_faults: 0,
            failed: 0,
            reason: None,
        }
    }

    /// What the system said of the last failure, after the name of the file; `None` where there was none, or no memory for
    /// its words. A line that can't be printed leaves what was said before it, since that is the first cause.
    pub fn reason(&self) -> Option<&str> {
        match &self.reason {
            Some(reason) => Some(reason.as_str()),
            None => None,
        }
    }

    /// Whether a call that failed is worth another try: it had no descriptor, and a kept one is let go for it.
    fn lets_one_go(&mut self, error: &io::Error) -> bool
        ensures { self.new ≡ self.old }
    {
        is_out_of_descriptors(error) && self.kept.pop().is_some()
    }

    fn open(&mut self, name: &str) -> io::Result<(R::File, Version)>
        ensures { self.new ≡ self.old }
    {
        match sources::open(self.rt, name) {
            Err(error) if self.lets_one_go(&error) => sources::open(self.rt, name),
            opened => opened,
        }
    }

    fn keep_source(&mut self, name: &str, version: Version) -> Result<FileNo, Fault>
        ensures number { IfOk result (λ file. file.0 ≡ length self.old.sizes) }
        ensures ok { OnOk result (self.new ≡ with_source self.old version.size name.now) }
        ensures err { OnErr result (self.new ≡ self.old) }
        ensures untold { self.old.held ≡ None }
    {
        let file = FileNo(self.sources.len());
        self.sources.reserve(1)?;
        self.asked.reserve(1)?;
        let source_name = Name::new(self.alloc, name)?;
        let asked = Asked::Open(Name::new(self.alloc, name)?);
        self.sources.push_reserved(Source {
            name: source_name,
            version,
        });
        self.asked.push_reserved(asked);
        Ok(file)
    }

    /// Keeps the descriptor of the last source, where the limit and the memory let it.
    fn keep_descriptor(&mut self, descriptor: R::File)
        ensures { self.new ≡ self.old }
    {
        if self.kept.len() + 1 == self.sources.len() && self.kept.len() < KEPT_LIMIT {
            let _ = self.kept.push(descriptor);
        }
    }

    fn open_again(&mut self, file: usize) -> io::Result<R::File>
        requires { file < length self.old.sizes }
        ensures { self.new ≡ self.old }
    {
        match sources::open_again(self.rt, &self.sources[file]) {
            Err(error) if self.lets_one_go(&error) => {
                sources::open_again(self.rt, &self.sources[file])
            }
            opened => opened,
        }
    }

    /// Fills `into` with the bytes of the file from place `at` on.
    fn fill(&mut self, file: usize, at: u64, into: &mut [u8]) -> io::Result<()>
        requires { file < length self.old.sizes }
        ensures same { self.new ≡ self.old }
        ensures untold { (self.old.held ≡ None) × (self.old.events ≡ None) }
    {
        if let Some(kept) = self.kept.get(file) {
            return kept.read_exact_at(into, at);
        }
        self.open_again(file)?.read_exact_at(into, at)
    }

    /// Notes the name of a file that could not be opened.
    fn ask_file(&mut self, name: &str) -> Result<(), Fault>
        ensures ok { OnOk result (self.new ≡ with_name_asked self.old (Asked.Open name.now)) }
        ensures err { OnErr result (self.new ≡ self.old) }
    {
        let name = Name::new(self.alloc, name)?;
        self.asked.push(Asked::Open(name))?;
        Ok(())
    }

    /// Notes the name of a sink that is to be made.
    fn ask_sink(&mut self, name: &str) -> Result<(), Fault>
        ensures ok { OnOk result (self.new ≡ with_name_asked self.old (Asked.Make name.now)) }
        ensures err { OnErr result (self.new ≡ self.old) }
    {
        let name = Name::new(self.alloc, name)?;
        self.asked.push(Asked::Make(name))?;
        Ok(())
    }

    /// The place for one sink more, and its name.
    fn room_for_sink(&mut self, name: &str) -> Result<Name, Fault>
        ensures { self.new ≡ self.old }
    {
        self.sinks.reserve(1)?;
        Name::new(self.alloc, name)
    }

    fn create(&mut self, name: &str) -> io::Result<R::File>
        ensures same { self.new ≡ self.old }
        ensures untold { self.old.made ≡ None }
    {
        match sinks::create(self.rt, name, self.sources.as_slice()) {
            Err(error) if self.lets_one_go(&error) => {
                sinks::create(self.rt, name, self.sources.as_slice())
            }
            created => created,
        }
    }

    fn keep_sink(&mut self, name: Name) -> io::Result<()>
        ensures ok { OnOk result (self.new ≡ with_sink_made self.old) }
        ensures err { OnErr result (self.new ≡ self.old) }
        ensures untold { self.old.made ≡ None }
    {
        let file = self.create(name.as_str())?;
        let Ok(()) = self.sinks.push(OpenSink { name, file }) else {
            return Err(io::Error::from(ErrorKind::OutOfMemory));
        };
        Ok(())
    }

    fn append(&mut self, piece: &[u8]) -> Result<(), Option<String>>
        requires { 0 < self.old.sinks }
        ensures same { self.new ≡ self.old }
        ensures untold { (self.old.made ≡ None) × (self.old.events ≡ None) }
    {
        write_last(self.alloc, self.sinks.as_mut_slice(), piece)
    }

    fn print_line(&mut self, line: &str) -> Result<(), Option<String>>
        ensures same { self.new ≡ self.old }
        ensures untold { self.old.printed ≡ None }
    {
        match self.rt.println(line) {
            Ok(()) => Ok(()),
            Err(error) => Err(self.reason_of_line(&error)),
        }
    }

    /// What was said before, or else what the system says of a line that could not be printed.
    fn reason_of_line(&mut self, error: &io::Error) -> Option<String>
        ensures { self.new ≡ self.old }
    {
        match self.reason.take() {
            Some(earlier) => Some(earlier),
            None => reason_of(self.alloc, "standard output", error),
        }
    }

    fn count_read_fault(&mut self, file: usize, reason: Option<String>)
        ensures after { self.new ≡ with_read_fault self.old file }
        ensures rises { Rises self.old.read_faults self.new.read_faults }
    {
        self.read_faults = self.read_faults.saturating_add(1);
        self.failed = file;
        self.reason = reason;
    }

    fn count_write_fault(&mut self, reason: Option<String>)
        ensures after { self.new ≡ with_write_fault self.old }
        ensures rises { Rises self.old.write_faults self.new.write_faults }
    {
        self.write_faults = self.write_faults.saturating_add(1);
        self.reason = reason;
    }

    fn count_print_fault(&mut self, reason: Option<String>)
        ensures after { self.new ≡ with_print_fault self.old }
        ensures rises { Rises self.old.write_faults self.new.write_faults }
        ensures prints { Rises self.old.print_faults self.new.print_faults }
    {
        self.count_write_fault(reason);
        self.print_faults = self.print_faults.saturating_add(1);
    }
}

impl<'r, R: Files + Print> Io for RealIo<'r, R>
where
    R::File: FileExt,
{
    ghost seen = { λ m. m };

    fn open_source(&mut self, name: &str) -> Result<FileNo, IoErr> {
        let error = match self.open(name) {
            Ok((descriptor, version)) => {
                let Ok(file) = self.keep_source(name, version) else {
                    return Err(IoErr::OutOfMemory);
                };
                self.keep_descriptor(descriptor);
                return Ok(file);
            }
            Err(error) => error,
        };
        let file = self.sources.len();
        let reason = reason_of(self.alloc, name, &error);
        let Ok(()) = self.ask_file(name) else {
            return Err(IoErr::OutOfMemory);
        };
        self.count_read_fault(file, reason);
        Err(IoErr::Failed)
    }

    fn size(&self, file: FileNo) -> u64 {
        self.sources[file.0].version.size
    }

    fn read_range(&mut self, file: FileNo, at: u64, into: &mut [u8]) -> Result<(), IoErr> {
        let Err(error) = self.fill(file.0, at, into) else {
            return Ok(());
        };
        let reason = reason_of(self.alloc, self.sources[file.0].name.as_str(), &error);
        self.count_read_fault(file.0, reason);
        Err(IoErr::Failed)
    }

    fn make_sink(&mut self, name: &str) -> Result<(), IoErr> {
        let Ok(sink_name) = self.room_for_sink(name) else {
            return Err(IoErr::OutOfMemory);
        };
        let Ok(()) = self.ask_sink(name) else {
            return Err(IoErr::OutOfMemory);
        };
        let Err(error) = self.keep_sink(sink_name) else {
            return Ok(());
        };
        let reason = reason_of(self.alloc, name, &error);
        self.count_write_fault(reason);
        Err(IoErr::Failed)
    }

    fn write(&mut self, piece: &[u8]) -> Result<(), IoErr> {
        let Err(reason) = self.append(piece) else {
            return Ok(());
        };
        self.count_write_fault(reason);
        Err(IoErr::Failed)
    }

    fn print(&mut self, line: &str) -> Result<(), IoErr> {
        let Err(reason) = self.print_line(line) else {
            return Ok(());
        };
        self.count_print_fault(reason);
        Err(IoErr::Failed)
    }
}

/// Writes the piece to the last sink; after a failure, what the system said of it.
fn write_last<F: Write + Drop>(
    alloc: Global,
    sinks: &mut [OpenSink<F>],
    piece: &[u8],
) -> Result<(), Option<String>>
    requires { 0 < length sinks.old }
{
    let last = sinks.len() - 1;
    let sink = &mut sinks[last];
    match sink.file.write_all(piece) {
        Ok(()) => Ok(()),
        Err(error) => Err(reason_of(alloc, sink.name.as_str(), &error)),
    }
}
