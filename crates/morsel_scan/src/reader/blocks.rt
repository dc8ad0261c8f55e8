//! One file, read in chunks and given in blocks of whole records.
//!
//! What is held is what was asked and not given. It has no whole record when a chunk is read; once there is one, the whole records
//! that are held are a block. At the end of the file all that is held is the last block.
ghost use Rattle.std.specs.Prelude.{◌≡◌, ◌+◌, ◌-◌, ◌<◌, ◌≤◌, ◌^◌, List, ℕ, length, take, drop, min, slice_index, IfOk, IfErr, OnOk, OnErr, IsOkUnless};
ghost use Rattle.morsel_outside.specs.Calls.{Reads};
ghost use Rattle.morsel_grammar.specs.Dialect.{Dialect, IsDialect};
ghost use Rattle.morsel_scan.specs.FileReads.{IsTold};
ghost use Rattle.morsel_scan.specs.Blocks.{BlocksRead, blocks_at_start, given_to, IsOpenFile, IsSameFile, IsReadOf, IsLastCut, FindsBlock, IsBlockFaultOf, ReadsForBlock, compression_code};
ghost use Rattle.morsel_scan.specs.Chunks.{ReadsChunk, ReadsMore, FeedsHeld, FindsLast};

use morsel_cut::Cutter;
use morsel_grammar::CsvOptions;
use morsel_meaning::Fault;
use morsel_outside::{FileNo, Io, IoErr};
use std::alloc::{AllocError, Global};
use std::marker::Model;
use std::mem::replace;

/// A file of which blocks are given: some whole records each, and at the end of the file what is left.
#[derive(Debug, Drop)]
pub struct BlockReader {
    file: FileNo,
    source: u32,
    size: u64,
    asked: u64,
    held: Vec<u8>,
    cutter: Cutter,
}

impl Model for BlockReader {
    ghost use Rattle.morsel_scan.specs.Blocks.{BlocksRead};

    ghost Value = { BlocksRead };

    ghost view = { λ b. record {
      file = b.file.0;
      source = b.source;
      size = b.size;
      asked = b.asked;
      held = b.held.items;
      cutting = b.cutter;
    } };
}

impl BlockReader {
    /// A file of which nothing was read. `source` is the number that its faults tell.
    pub fn new(
        alloc: Global,
        options: &CsvOptions,
        source: u32,
        file: FileNo,
        size: u64,
    ) -> Result<BlockReader, Fault>
        ensures value { IfOk result (λ reader. reader ≡ blocks_at_start options.now source file.0 size) }
        ensures out_of_memory { IsOkUnless result Fault.OutOfMemory }
    {
        let cutter = Cutter::new(options, source)?;
        Ok(BlockReader {
            file,
            source,
            size,
            asked: 0,
            held: Vec::new(alloc),
            cutter,
        })
    }

    /// The number that its faults tell.
    pub fn source(&self) -> u32
        ensures { result ≡ self.now.source }
    {
        self.source
    }

    /// The size of the file.
    pub fn size(&self) -> u64
        ensures { result ≡ self.now.size }
    {
        self.size
    }

    /// How many bytes of the file were asked.
    pub fn asked(&self) -> u64
        ensures { result ≡ self.now.asked }
    {
        self.asked
    }

    /// The place up to which the file was given.
    pub fn given(&self) -> u64
        requires { length self.now.held ≤ self.now.asked }
        ensures { result ≡ given_to self.now }
    {
        self.asked - self.held.len() as u64
    }

    /// The bytes from there on that were asked.
    pub fn held(&self) -> &[u8]
        ensures { result.now ≡ self.now.held }
    {
        &self.held
    }

    /// Reads on until there is a block, and tells how many of the held bytes are one; 0 where all was given.
    ///
    /// What is held at the end of the file is one block, so that its last record is found with those before it.
    pub fn find<H: Io>(&mut self, io: &mut H, chunk: u32) -> Result<usize, Fault>
        requires some { 0 < chunk }
        requires open { IsOpenFile (H.seen io.old) self.old }
        ensures open { OnOk result (IsOpenFile (H.seen io.new) self.new) }
        ensures same { OnOk result (IsSameFile self.old self.new) }
        ensures within { IfOk result (λ len. len ≤ length self.new.held) }
        ensures last { IfOk result (λ len. self.new.asked ≡ self.new.size → len ≡ length self.new.held) }
        ensures end { IfOk result (λ len. len ≡ 0 → self.new.asked ≡ self.new.size) }
        ensures listed { IfErr result (λ fault. IsBlockFaultOf self.old.source fault) }
        ensures reads { ReadsForBlock (H.seen io.old) self.old chunk result (H.seen io.new) self.new }
        ensures block { (o : Dialect) (bytes : List ℕ) → IsDialect o → IsReadOf o bytes self.old → IsLastCut o bytes self.old.asked (given_to self.old)
            → IsTold (H.seen io.old).held self.old.file bytes → FindsBlock o bytes self.old result self.new }
    {
        'chunks: while self.asked < self.size {
            let len = match self.read_chunk(io, chunk) {
                Ok(len) => len,
                Err(fault) => return Err(fault),
            };
            if self.asked < self.size {
                if len > 0 {
                    return Ok(len);
                }
            }
        }
        self.find_last()
    }

    /// What is held at the end of the file.
    fn find_last(&self) -> Result<usize, Fault>
        ensures { FindsLast self.now result }
    {
        if self.held.is_empty() {
            return Ok(0);
        }
        match self.cutter.may_end() {
            Ok(()) => Ok(self.held.len()),
            Err(fault) => Err(fault),
        }
    }

    /// Reads a chunk, and tells how many of the held bytes there are up to the last end of a record in it; 0 where none ends in it.
    fn read_chunk<H: Io>(&mut self, io: &mut H, chunk: u32) -> Result<usize, Fault>
        requires some { 0 < chunk }
        requires more { self.old.asked < self.old.size }
        requires open { IsOpenFile (H.seen io.old) self.old }
        ensures reads { ReadsChunk (H.seen io.old) self.old chunk result (H.seen io.new) self.new }
        ensures within { IfOk result (λ len. len ≤ length self.new.held) }
    {
        let before = self.held.len();
        let len = chunk_len(self.size - self.asked, chunk);
        match read_more(io, self.file, self.asked, &mut self.held, len) {
            Ok(()) => {}
            Err(IoErr::OutOfMemory) => return Err(Fault::OutOfMemory),
            Err(IoErr::Failed) => return Err(Fault::ReadFault { file: self.source }),
        }
        let is_begin = before as u64 == self.asked;
        self.asked += len as u64;
        if is_begin {
            if let Some(code) = compression_code(&self.held) {
                return Err(Fault::Unsupported {
                    file: self.source,
                    code,
                });
            }
        }
        feed_held(&mut self.cutter, &self.held, before)
    }

    /// Gives the first `len` bytes that are held. The others are moved into a new buffer, with room for a chunk.
    pub fn take_front(&mut self, alloc: Global, len: usize, chunk: u32) -> Result<Vec<u8>, Fault>
        requires within { len ≤ length self.old.held }
        requires asked { self.old.asked ≤ self.old.size }
        ensures front { IfOk result (λ front. front.items ≡ take len self.old.held) }
        ensures left { OnOk result (self.new ≡ record self.old { held = drop len self.old.held }) }
        ensures err { OnErr result (self.new ≡ self.old) }
        ensures out_of_memory { IsOkUnless result Fault.OutOfMemory }
    {
        let room = chunk_len(self.size - self.asked, chunk);
        let rest = match rest_of(alloc, &self.held, len, room) {
            Ok(rest) => rest,
            Err(fault) => return Err(fault),
        };
        let mut front = replace(&mut self.held, rest);
        front.truncate(len);
        Ok(front)
    }

    /// Lets the first `len` bytes that are held go.
    pub fn drop_front(&mut self, len: usize)
        requires { len ≤ length self.old.held }
        ensures { self.new ≡ record self.old { held = drop len self.old.held } }
    {
        drop_front(&mut self.held, len);
    }
}

/// Feeds the bytes that are held but for the first ones, and tells how many there are up to the last end in them; 0 where there is none.
fn feed_held(cutter: &mut Cutter, held: &[u8], before: usize) -> Result<usize, Fault>
    requires within { before ≤ length held.now }
    requires places { cutter.old.fed + (length held.now - before) < 2 ^ 64 }
    ensures { FeedsHeld cutter.old before (drop before held.now) result cutter.new }
{
    match cutter.feed(&held[before..]) {
        Ok(0) => Ok(0),
        Ok(end) => Ok(before + end),
        Err(fault) => Err(fault),
    }
}

/// How many bytes the next read asks, of so many that were not asked.
fn chunk_len(left: u64, chunk: u32) -> usize
    ensures { result ≡ min left chunk }
{
    left.min(u64::from(chunk)) as usize
}

/// Reads `len` bytes of a file from a place on, and puts them after those that are held.
fn read_more<H: Io>(
    io: &mut H,
    file: FileNo,
    at: u64,
    held: &mut Vec<u8>,
    len: usize,
) -> Result<(), IoErr>
    requires opened { file.0 < length (H.seen io.old).sizes }
    requires within { at + len ≤ slice_index (H.seen io.old).sizes file.0 }
    ensures { ReadsMore (H.seen io.old) file.0 at len held.old.items result (H.seen io.new) held.new.items }
{
    let before = held.len();
    let Ok(()) = grow(held, len) else {
        return Err(IoErr::OutOfMemory);
    };
    read_into(io, file, at, held, before)
}

/// Adds `len` bytes.
fn grow(bytes: &mut Vec<u8>, len: usize) -> Result<(), AllocError>
    ensures len { OnOk result (length bytes.new.items ≡ length bytes.old.items + len) }
    ensures front { OnOk result (take (length bytes.old.items) bytes.new.items ≡ bytes.old.items) }
{
    let Some(size) = bytes.len().checked_add(len) else {
        return Err(AllocError);
    };
    bytes.resize(size, 0)
}

/// Reads bytes of a file into all of a buffer but its first bytes.
fn read_into<H: Io>(
    io: &mut H,
    file: FileNo,
    at: u64,
    buffer: &mut [u8],
    before: usize,
) -> Result<(), IoErr>
    requires opened { file.0 < length (H.seen io.old).sizes }
    requires before { before ≤ length buffer.old }
    requires within { at + (length buffer.old - before) ≤ slice_index (H.seen io.old).sizes file.0 }
    ensures front { take before buffer.new ≡ take before buffer.old }
    ensures reads { Reads (H.seen io.old) file.0 at (drop before buffer.new) result (H.seen io.new) }
{
    io.read_range(file, at, &mut buffer[before..])
}

/// The bytes after the first `len`, in a buffer with room for some more.
fn rest_of(alloc: Global, bytes: &[u8], len: usize, room: usize) -> Result<Vec<u8>, Fault>
    requires { len ≤ length bytes.now }
    ensures rest { IfOk result (λ rest. rest.items ≡ drop len bytes.now) }
    ensures out_of_memory { IsOkUnless result Fault.OutOfMemory }
{
    let rest = &bytes[len..];
    let Some(size) = rest.len().checked_add(room) else {
        return Err(Fault::OutOfMemory);
    };
    let mut buffer = Vec::with_capacity(alloc, size)?;
    buffer.extend_from_slice(rest)?;
    Ok(buffer)
}

/// Moves the bytes after the first `len` to the front, and lets those go.
pub fn drop_front(bytes: &mut Vec<u8>, len: usize)
    requires { len ≤ length bytes.old.items }
    ensures { bytes.new.items ≡ drop len bytes.old.items }
{
    if len == 0 {
        return;
    }
    let left = bytes.len() - len;
    bytes.copy_within(len.., 0);
    bytes.truncate(left);
}

/// The number of the compression whose files begin as these bytes do, where there is one.
fn compression_code(bytes: &[u8]) -> Option<u32>
    ensures { result ≡ compression_code bytes.now }
{
    match bytes {
        [31, 139, ..] => Some(31),
        [40, 181, 47, 253, ..] => Some(40),
        _ => None,
    }
}
