//! The query file: its bytes, and the query that they are.
ghost use Rattle.std.specs.Prelude.{◌≡◌, ◌⊎◌, ◌<◌, ◌≤◌, IfOk, IfErr, length};
ghost use Rattle.morsel_prog.specs.QueryFiles.{most_query_bytes, IsQueryFile, RefusesBytesOf};
ghost use Rattle.morsel_prog.specs.QueryReads.{OpensQueryFile, ReadsOpened, ReadsWhole, bytes_seen};

use morsel_meaning::{Fault, QUERY_FILE};
use morsel_outside::{FileNo, Io, IoErr};
use morsel_query::{Options, Query};
use morsel_query_text::query_of;
use serde_json::Value;
use std::alloc::Global;

/// How many bytes the text of a query may have.
const MOST_QUERY_BYTES: u64 = 1_048_576;

/// The bytes of the query file of this name, which is opened and read whole. One that has too many bytes is `QueryText`, and
/// is not read.
pub fn read_query_file<H: Io>(alloc: Global, io: &mut H, name: &str) -> Result<Vec<u8>, Fault>
    ensures { ReadsWhole (H.seen io.old) name.now (bytes_seen result) (H.seen io.new) }
{
    let file = open_query_file(io, name)?;
    read_opened(alloc, io, file)
}

/// Opens the query file.
fn open_query_file<H: Io>(io: &mut H, name: &str) -> Result<FileNo, Fault>
    ensures { OpensQueryFile (H.seen io.old) name.now result (H.seen io.new) }
{
    match io.open_source(name) {
        Ok(file) => Ok(file),
        Err(IoErr::OutOfMemory) => Err(Fault::OutOfMemory),
        Err(IoErr::Failed) => Err(Fault::ReadFault { file: QUERY_FILE }),
    }
}

/// The bytes of an open query file, where they are not too many.
fn read_opened<H: Io>(alloc: Global, io: &mut H, file: FileNo) -> Result<Vec<u8>, Fault>
    requires { file.0 < length (H.seen io.old).sizes }
    ensures { ReadsOpened (H.seen io.old) file.0 (bytes_seen result) (H.seen io.new) }
{
    let size = io.size(file);
    if size > MOST_QUERY_BYTES {
        return Err(Fault::QueryText);
    }
    let mut bytes = vec![in alloc; 0u8; size as usize]?;
    match io.read_range(file, 0, bytes.as_mut_slice()) {
        Ok(()) => Ok(bytes),
        Err(IoErr::OutOfMemory) => Err(Fault::OutOfMemory),
        Err(IoErr::Failed) => Err(Fault::ReadFault { file: QUERY_FILE }),
    }
}

/// The query that the bytes of a query file are, into a sink of the name `out`, with the options by which it is to be run.
///
/// Bytes that are no query are `QueryText`: they are not UTF-8, no JSON text, nested too deep, or of another tree. A query with
/// a flaw is `InvalidQuery`, or `Duplicate` where a schema has a name twice.
pub fn query_of_bytes(alloc: Global, bytes: &[u8], out: &str) -> Result<(Query, Options), Fault>
    requires { length bytes.now ≤ most_query_bytes }
    ensures ok { IfOk result (λ pair. IsQueryFile bytes.now out.now pair.0 pair.1) }
    ensures refused { IfErr result (λ fault. (fault ≡ Fault.OutOfMemory) ⊎ RefusesBytesOf bytes.now out.now fault) }
{
    match Value::from_slice(alloc, bytes) {
        Ok(tree) => query_of(alloc, &tree, out),
        Err(error) if error.is_memory() => Err(Fault::OutOfMemory),
        Err(_) => Err(Fault::QueryText),
    }
}
