//! Files in memory, and what an outside in memory tells: what was opened, made, written, printed and asked.
ghost use Rattle.std.specs.Prelude.{◌≡◌, ◌+◌, ◌<◌, ◌≤◌, [], ◌∷◌, ◌++◌, length, map, IfOk, OnOk, OnErr, IsOkUnless, is_some, MatchOption, Some, None, slice_get, slice_index, slice_range, get_or};
ghost use Rattle.morsel_outside.specs.Outside.{append_last};
ghost use Rattle.morsel_outside.specs.MemoryParts.{stored_files, sinks_of};
ghost use Rattle.morsel_outside.specs.Memory.{untouched, sizes_of, bytes_of, bytes_or_none, with_opened, with_made, with_event, with_asked, with_written, with_printed};

use crate::{Asked, FileNo, IoEvent};
use morsel_meaning::{Fault, Name};
use std::alloc::Global;
use std::marker::Model;

/// A sink with the text that it has so far.
#[derive(Debug, Drop)]
struct MemSink {
    name: Name,
    text: Vec<u8>,
}

/// Files that can be opened, and all that was opened, made, written, printed and asked, each in its order.
#[derive(Debug, Drop)]
pub struct Memory {
    alloc: Global,
    files: Vec<(Name, Vec<u8>)>,
    held: Vec<Vec<u8>>,
    made: Vec<MemSink>,
    printed: Vec<Name>,
    events: Vec<IoEvent>,
    asked: Vec<Asked>,
}

impl Model for Memory {
    ghost use Rattle.morsel_outside.specs.Memory.{Contents};
    ghost use Rattle.morsel_outside.specs.MemoryParts.{stored_files, held_files, sinks_of};

    ghost Value = { Contents };

    ghost view = { λ m. record {
      files = stored_files m.files.items;
      held = held_files m.held.items;
      made = sinks_of m.made.items;
      printed = m.printed.items;
      events = m.events.items;
      asked = m.asked.items;
    } };
}

impl Memory {
    pub(crate) fn new(alloc: Global, files: Vec<(Name, Vec<u8>)>) -> Memory
        ensures { result ≡ untouched (stored_files files.items) }
    {
        Memory {
            alloc,
            files,
            held: Vec::new(alloc),
            made: Vec::new(alloc),
            printed: Vec::new(alloc),
            events: Vec::new(alloc),
            asked: Vec::new(alloc),
        }
    }

    /// How many files were opened.
    pub fn opened(&self) -> usize
        ensures { result ≡ length self.now.held }
    {
        self.held.len()
    }

    /// The bytes of an opened file.
    pub fn bytes(&self, file: FileNo) -> &[u8]
        requires { file.0 < length self.now.held }
        ensures { result.now ≡ get_or self.now.held file.0 [] }
    {
        self.held[file.0].as_slice()
    }

    /// How many sinks were made.
    pub fn sinks(&self) -> usize
        ensures { result ≡ length self.now.made }
    {
        self.made.len()
    }

    /// The name of a sink, in order of making.
    pub fn sink_name(&self, at: usize) -> &str
        requires { at < length self.now.made }
        ensures { (get_or self.now.made at (record { name = []; text = [] })).name ≡ result.now }
    {
        self.made[at].name.as_str()
    }

    /// The text of a sink, in order of making.
    pub fn text(&self, at: usize) -> &[u8]
        requires { at < length self.now.made }
        ensures { (get_or self.now.made at (record { name = []; text = [] })).text ≡ result.now }
    {
        self.made[at].text.as_slice()
    }

    /// How many lines were printed.
    pub fn lines(&self) -> usize
        ensures { result ≡ length self.now.printed }
    {
        self.printed.len()
    }

    /// A printed line, without its line feed.
    pub fn line(&self, at: usize) -> &str
        requires { at < length self.now.printed }
        ensures { slice_get self.now.printed at ≡ Some result.now }
    {
        self.printed[at].as_str()
    }

    /// How many reads and writes there were.
    pub fn events(&self) -> usize
        ensures { result ≡ length self.now.events }
    {
        self.events.len()
    }

    /// A read or a write, in their order.
    pub fn event(&self, at: usize) -> IoEvent
        requires { at < length self.now.events }
        ensures { slice_get self.now.events at ≡ Some result }
    {
        self.events[at]
    }

    /// How many names were asked for.
    pub fn names(&self) -> usize
        ensures { result ≡ length self.now.asked }
    {
        self.asked.len()
    }

    /// A name that was asked for, in the order of asking, and what for.
    pub fn asked(&self, at: usize) -> &Asked
        requires { at < length self.now.asked }
        ensures { slice_get self.now.asked at ≡ Some result.now }
    {
        &self.asked[at]
    }

    /// Whether a file of this name can be opened.
    pub(crate) fn has(&self, name: &str) -> bool
        ensures { result ≡ is_some (bytes_of self.now.files name.now) }
    {
        find(self.files.as_slice(), name).is_some()
    }

    /// Opens the first file of this name, or an empty one where there is none.
    pub(crate) fn open(&mut self, name: &str) -> Result<FileNo, Fault>
        ensures number { IfOk result (λ file. file.0 ≡ length self.old.held) }
        ensures ok { OnOk result (self.new ≡ with_opened self.old name.now) }
        ensures err { OnErr result (self.new ≡ self.old) }
    {
        let file = FileNo(self.held.len());
        let bytes = copy(self.alloc, self.files.as_slice(), name)?;
        let asked = Asked::Open(Name::new(self.alloc, name)?);
        self.held.reserve(1)?;
        self.asked.reserve(1)?;
        self.held.push_reserved(bytes);
        self.asked.push_reserved(asked);
        Ok(file)
    }

    /// Notes the name of a file that could not be opened.
    pub(crate) fn ask_file(&mut self, name: &str) -> Result<(), Fault>
        ensures ok { OnOk result (self.new ≡ with_asked self.old (Asked.Open name.now)) }
        ensures err { OnErr result (self.new ≡ self.old) }
    {
        let name = Name::new(self.alloc, name)?;
        self.asked.push(Asked::Open(name))?;
        Ok(())
    }

    /// Notes the name of a sink that could not be made.
    pub(crate) fn ask_sink(&mut self, name: &str) -> Result<(), Fault>
        ensures ok { OnOk result (self.new ≡ with_asked self.old (Asked.Make name.now)) }
        ensures err { OnErr result (self.new ≡ self.old) }
    {
        let name = Name::new(self.alloc, name)?;
        self.asked.push(Asked::Make(name))?;
        Ok(())
    }

    /// Notes a read or a write.
    pub(crate) fn note(&mut self, event: IoEvent) -> Result<(), Fault>
        ensures ok { OnOk result (self.new ≡ with_event self.old event) }
        ensures err { OnErr result (self.new ≡ self.old) }
    {
        self.events.push(event)?;
        Ok(())
    }

    /// The size of an opened file.
    pub(crate) fn size(&self, file: FileNo) -> u64
        requires { file.0 < length (sizes_of self.now) }
        ensures { result ≡ slice_index (sizes_of self.now) file.0 }
    {
        self.held[file.0].as_slice().len() as u64
    }

    /// Fills `into` with the bytes of the file from place `at` on.
    #[tactic(auto, using(crate::proofs::MemoryLemmas::size_at))]
    pub(crate) fn fill(&self, file: FileNo, at: u64, into: &mut [u8])
        requires opened { file.0 < length (sizes_of self.now) }
        requires within { at + length into.old ≤ slice_index (sizes_of self.now) file.0 }
        ensures { into.new ≡ slice_range (get_or self.now.held file.0 []) at (at + length into.new) }
    {
        copy_range(self.bytes(file), at as usize, into);
    }

    /// Makes a sink with an empty text.
    pub(crate) fn make(&mut self, name: &str) -> Result<(), Fault>
        ensures ok { OnOk result (self.new ≡ with_made self.old name.now) }
        ensures err { OnErr result (self.new ≡ self.old) }
    {
        let sink = MemSink {
            name: Name::new(self.alloc, name)?,
            text: Vec::new(self.alloc),
        };
        let asked = Asked::Make(Name::new(self.alloc, name)?);
        self.made.reserve(1)?;
        self.asked.reserve(1)?;
        self.made.push_reserved(sink);
        self.asked.push_reserved(asked);
        Ok(())
    }

    /// Appends the piece to the text of the last sink, and notes it.
    pub(crate) fn append(&mut self, piece: &[u8]) -> Result<(), Fault>
        requires { 0 < length self.old.made }
        ensures ok { OnOk result (self.new ≡ with_written self.old piece.now) }
        ensures err { OnErr result (self.new ≡ self.old) }
    {
        self.events.reserve(1)?;
        extend_last(self.made.as_mut_slice(), piece)?;
        self.events
            .push_reserved(IoEvent::Wrote { len: piece.len() });
        Ok(())
    }

    /// Keeps a printed line.
    pub(crate) fn print(&mut self, line: &str) -> Result<(), Fault>
        ensures ok { OnOk result (self.new ≡ with_printed self.old line.now) }
        ensures err { OnErr result (self.new ≡ self.old) }
    {
        let line = Name::new(self.alloc, line)?;
        self.printed.push(line)?;
        Ok(())
    }
}

/// The bytes of the first file of this name.
fn find<'a>(files: &'a [(Name, Vec<u8>)], name: &str) -> Option<&'a [u8]>
    ensures { MatchOption result (bytes_of (stored_files files.now) name.now ≡ None) (λ bytes. bytes_of (stored_files files.now) name.now ≡ Some bytes.now) }
{
    for file in files {
        if file.0.as_str() == name {
            return Some(file.1.as_slice());
        }
    }
    None
}

/// A copy of the bytes of the first file of this name, or of none where there is no such file.
fn copy(alloc: Global, files: &[(Name, Vec<u8>)], name: &str) -> Result<Vec<u8>, Fault>
    ensures { IfOk result (λ bytes. bytes.items ≡ bytes_or_none (stored_files files.now) name.now) }
{
    match find(files, name) {
        Some(bytes) => Ok(Vec::from_slice(alloc, bytes)?),
        None => Ok(Vec::new(alloc)),
    }
}

/// Fills `into` with the bytes from place `at` on.
fn copy_range(bytes: &[u8], at: usize, into: &mut [u8])
    requires { at + length into.old ≤ length bytes.now }
    ensures { into.new ≡ slice_range bytes.now at (at + length into.new) }
{
    into.copy_from_slice(&bytes[at..at + into.len()]);
}

/// Appends the piece to the text of the last sink.
fn extend_last(sinks: &mut [MemSink], piece: &[u8]) -> Result<(), Fault>
    requires { 0 < length sinks.old }
    ensures ok { OnOk result (sinks_of sinks.new ≡ append_last (sinks_of sinks.old) piece.now) }
    ensures err { OnErr result (sinks_of sinks.new ≡ sinks_of sinks.old) }
{
    let last = sinks.len() - 1;
    let sink = &mut sinks[last];
    sink.text.extend_from_slice(piece)?;
    Ok(())
}
