//! What an outside in memory tells, compared with what was done; and reads that stay within a file.
ghost use Rattle.std.specs.Prelude.{◌<◌, length};

use morsel_outside::{Asked, FileNo, Io, IoErr, IoEvent, Memory};

/// Whether one file is open, and has these bytes.
pub(super) fn has_opened(memory: &Memory, bytes: &[u8]) -> bool {
    memory.opened() == 1 && memory.bytes(FileNo(0)) == bytes
}

/// Whether one sink was made, with this name and text.
pub(super) fn has_sink(memory: &Memory, name: &str, text: &[u8]) -> bool {
    memory.sinks() == 1 && memory.sink_name(0) == name && memory.text(0) == text
}

/// Whether one line was printed, this one.
pub(super) fn has_line(memory: &Memory, line: &str) -> bool {
    memory.lines() == 1 && memory.line(0) == line
}

/// Whether this was the event of this number.
pub(super) fn has_event(memory: &Memory, at: usize, event: IoEvent) -> bool {
    at < memory.events() && memory.event(at) == event
}

/// The name that was to be opened, and none where a sink was to be made.
fn opening(asked: &Asked) -> Option<&str> {
    match asked {
        Asked::Open(name) => Some(name.as_str()),
        Asked::Make(_) => None,
    }
}

/// The name of the sink that was to be made, and none where a file was to be opened.
fn making(asked: &Asked) -> Option<&str> {
    match asked {
        Asked::Open(_) => None,
        Asked::Make(name) => Some(name.as_str()),
    }
}

/// Whether a file of this name was asked for, after so many other names.
pub(super) fn has_asked_open(memory: &Memory, at: usize, name: &str) -> bool {
    at < memory.names() && opening(memory.asked(at)) == Some(name)
}

/// Whether a sink of this name was asked for, after so many other names.
pub(super) fn has_asked_make(memory: &Memory, at: usize, name: &str) -> bool {
    at < memory.names() && making(memory.asked(at)) == Some(name)
}

/// Fills `into` from place `at` of an opened file on, and answers whether the file reaches so far.
pub(super) fn read_within<H: Io>(
    io: &mut H,
    file: FileNo,
    at: u64,
    into: &mut [u8],
) -> Result<bool, IoErr>
    requires { file.0 < length (H.seen io.old).sizes }
{
    let size = io.size(file);
    if at > size || into.len() as u64 > size - at {
        return Ok(false);
    }
    io.read_range(file, at, into)?;
    Ok(true)
}
