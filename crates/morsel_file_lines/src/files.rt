//! Files that are read once more.
ghost use Rattle.std.specs.Prelude.{◌≡◌, ◌+◌, ◌<◌, ◌≤◌, None, Ok, length, slice_index, IfOk, OnOk, IfSome};
ghost use Rattle.std.specs.List.{count_by};
ghost use Rattle.morsel_outside.specs.Calls.{Holds, Opens};
ghost use Rattle.morsel_file_lines.specs.Lines.{is_feed, HasFeeds, IsLineOf};

use morsel_outside::{FileNo, Io};
use morsel_query_reasons::Unsaid;
use std::alloc::Global;

/// How many bytes are read at once to count lines.
const CHUNK: usize = 65_536;

/// How many bytes lines are counted in, which takes some seconds.
const MOST_COUNTED: u64 = 4_294_967_296;

/// Opens a file.
pub fn open<H: Io>(io: &mut H, name: &str) -> Result<FileNo, Unsaid>
    ensures opened { IfOk result (λ file. file.0 < length (H.seen io.new).sizes) }
    ensures named { IfOk result (λ file. Opens (H.seen io.old) name.now (Ok file) (H.seen io.new)) }
{
    match io.open_source(name) {
        Ok(file) => Ok(file),
        Err(_) => Err(Unsaid),
    }
}

/// Reads the bytes from a place on.
fn read<H: Io>(io: &mut H, file: FileNo, at: u64, into: &mut [u8]) -> Result<(), Unsaid>
    requires opened { file.0 < length (H.seen io.old).sizes }
    requires within { at + length into.old ≤ slice_index (H.seen io.old).sizes file.0 }
    ensures same_sizes { (H.seen io.new).sizes ≡ (H.seen io.old).sizes }
    ensures same_held { (H.seen io.new).held ≡ (H.seen io.old).held }
    ensures ok { OnOk result (Holds (H.seen io.old).held file.0 at into.new) }
{
    match io.read_range(file, at, into) {
        Ok(()) => Ok(()),
        Err(_) => Err(Unsaid),
    }
}

/// The bytes of a file from a place on, at most so many.
pub fn bytes_from<H: Io>(
    alloc: Global,
    io: &mut H,
    file: FileNo,
    at: u64,
    most: usize,
) -> Result<Vec<u8>, Unsaid>
    requires { file.0 < length (H.seen io.old).sizes }
    ensures same_sizes { (H.seen io.new).sizes ≡ (H.seen io.old).sizes }
    ensures value { IfOk result (λ bytes. Holds (H.seen io.old).held file.0 at bytes.items) }
    ensures most { IfOk result (λ bytes. length bytes.items ≤ most) }
    ensures whole { IfOk result (λ bytes. length bytes.items < most → at + length bytes.items ≡ slice_index (H.seen io.old).sizes file.0) }
{
    let size = io.size(file);
    if at > size {
        return Err(Unsaid);
    }
    let len = (size - at).min(most as u64) as usize;
    let mut bytes = vec![in alloc; 0u8; len]?;
    read(io, file, at, bytes.as_mut_slice())?;
    Ok(bytes)
}

/// The number of the line, from 1, that has the byte at this place; none where that is too far to be counted.
pub fn line_of<H: Io>(
    alloc: Global,
    io: &mut H,
    file: FileNo,
    at: u64,
) -> Result<Option<u64>, Unsaid>
    requires { file.0 < length (H.seen io.old).sizes }
    ensures same_sizes { (H.seen io.new).sizes ≡ (H.seen io.old).sizes }
    ensures value { IfOk result (λ found. IfSome found (λ line. IsLineOf (H.seen io.old).held file.0 at line)) }
    ensures none { IfOk result (λ found. found ≡ None → 4_294_967_296 < at) }
{
    if at > io.size(file) {
        return Err(Unsaid);
    }
    if at > MOST_COUNTED {
        return Ok(None);
    }
    let mut chunk = vec![in alloc; 0u8; CHUNK]?;
    let line = count_lines(io, file, at, chunk.as_mut_slice())?;
    Ok(Some(line))
}

/// The number of the line, from 1, that has the byte at this place. It is read by the chunk.
fn count_lines<H: Io>(io: &mut H, file: FileNo, at: u64, chunk: &mut [u8]) -> Result<u64, Unsaid>
    requires opened { file.0 < length (H.seen io.old).sizes }
    requires within { at ≤ slice_index (H.seen io.old).sizes file.0 }
    requires near { at ≤ 4_294_967_296 }
    requires room { 0 < length chunk.old }
    ensures same_sizes { (H.seen io.new).sizes ≡ (H.seen io.old).sizes }
    ensures value { IfOk result (λ line. IsLineOf (H.seen io.old).held file.0 at line) }
{
    let mut line: u64 = 1;
    let mut from: u64 = 0;
    while from < at {
        let len = (at - from).min(chunk.len() as u64) as usize;
        line += feeds_from(io, file, from, &mut chunk[..len])?;
        from += len as u64;
    }
    Ok(line)
}

/// How many line feeds there are from a place on, in as many bytes as the chunk has.
#[tactic(auto, using(crate::proofs::LineLemmas::feeds_of_held))]
fn feeds_from<H: Io>(io: &mut H, file: FileNo, at: u64, chunk: &mut [u8]) -> Result<u64, Unsaid>
    requires opened { file.0 < length (H.seen io.old).sizes }
    requires within { at + length chunk.old ≤ slice_index (H.seen io.old).sizes file.0 }
    ensures same_sizes { (H.seen io.new).sizes ≡ (H.seen io.old).sizes }
    ensures same_held { (H.seen io.new).held ≡ (H.seen io.old).held }
    ensures value { IfOk result (λ feeds. HasFeeds (H.seen io.old).held file.0 at (length chunk.old) feeds) }
    ensures no_more { IfOk result (λ feeds. feeds ≤ length chunk.old) }
{
    read(io, file, at, chunk)?;
    Ok(feeds_in(chunk))
}

/// How many line feeds there are.
fn feeds_in(bytes: &[u8]) -> u64
    ensures { result ≡ count_by is_feed bytes.now }
{
    let mut feeds: u64 = 0;
    for byte in bytes {
        if *byte == b'\n' {
            feeds += 1;
        }
    }
    feeds
}
