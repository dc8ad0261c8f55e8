//! What the records of a block are to the rows: its mark and header are passed, and the rows after them are counted.
ghost use Rattle.std.specs.Prelude.{◌≡◌, ◌+◌, ◌<◌, ◌≤◌, ◌^◌, List, length, IfOk, IfErr, OnOk, IsUtf8};
ghost use Rattle.morsel_grammar.specs.Grammar.{CsvRecord, Records};
ghost use Rattle.morsel_grammar.specs.Rows.{behind_header};
ghost use Rattle.morsel_grammar.specs.GrammarRows.{awaits_header_after};
ghost use Rattle.morsel_scan.specs.FileReads.{text_at};
ghost use Rattle.morsel_scan.specs.RowBlocks.{IsTextFault, IsTextFaultOf};
ghost use Rattle.morsel_scan.specs.BlockRows.{mark_at, header_front, FindsFront, IsHeaderPart};

use morsel_cut::{HeadEnd, head_end, rows_of};
use morsel_frame::Schema;
use morsel_grammar::CsvOptions;
use morsel_meaning::{ComputeKind, Fault};
use morsel_text::read_records;
use std::alloc::Global;

/// The front of a block, which has no rows, and how many rows come after it.
#[derive(Clone, Copy, Debug)]
pub struct BlockFront {
    /// How many bytes the mark and the records up to the header have.
    pub len: usize,
    /// How many rows come after them.
    pub rows: usize,
    /// Whether the header is still to come after the block.
    pub awaits_header: bool,
}

/// The front of a block that stands at this place of a file. Where a block has no rows, all of it is tested to be UTF-8; else its front.
pub fn front_of(
    alloc: Global,
    block: &[u8],
    at: u64,
    source: u32,
    awaits_header: bool,
    columns: usize,
    options: &CsvOptions,
) -> Result<BlockFront, Fault>
    requires { at + length block.now < 2 ^ 64 }
    ensures within { IfOk result (λ front. front.len ≤ length block.now) }
    ensures few { IfOk result (λ front. front.len + front.rows ≤ length block.now) }
    ensures front { (records : List CsvRecord) → Records options.now (text_at at block.now) records
        → FindsFront options.now columns awaits_header source at block.now records result }
    ensures listed { IfErr result (λ fault. IsTextFaultOf source fault) }
{
    // Only the proof needs this call: its clause says that these options do not contradict each other.
    let _comment = options.comment();
    let mark = mark_at(at, block);
    let text = &block[mark..];
    let head = header_part(text, awaits_header, options);
    let len = mark + head.len;
    match test_text(
        alloc,
        &text[..head.len],
        at + mark as u64,
        source,
        true,
        options,
    ) {
        Ok(()) => {}
        Err(fault) => return Err(fault),
    }
    let rows = rows_of(&block[len..], columns, options);
    if rows == 0 {
        match test_text(
            alloc,
            &block[len..],
            at + len as u64,
            source,
            false,
            options,
        ) {
            Ok(()) => {}
            Err(fault) => return Err(fault),
        }
    }
    Ok(BlockFront {
        len,
        rows,
        awaits_header: head.awaits_header,
    })
}

/// How many bytes the byte order mark takes, of bytes that begin at this place of a file.
fn mark_at(at: u64, bytes: &[u8]) -> usize
    ensures value { result ≡ mark_at at bytes.now }
    ensures within { result ≤ length bytes.now }
{
    if at > 0 {
        return 0;
    }
    match bytes {
        [239, 187, 191, ..] => 3,
        _ => 0,
    }
}

/// Where the header of a text ends; where it is not to come, nothing is before its end.
fn header_part(text: &[u8], awaits_header: bool, options: &CsvOptions) -> HeadEnd
    ensures within { result.len ≤ length text.now }
    ensures part { (records : List CsvRecord) → Records options.now text.now records → IsHeaderPart options.now awaits_header text.now records result }
{
    if awaits_header {
        return head_end(text, options);
    }
    HeadEnd {
        len: 0,
        awaits_header: false,
    }
}

/// Refuses records without rows of which one is not UTF-8, at its place. `head` says whether the header may be among them.
fn test_text(
    alloc: Global,
    text: &[u8],
    at: u64,
    source: u32,
    head: bool,
    options: &CsvOptions,
) -> Result<(), Fault>
    requires { at + length text.now < 2 ^ 64 }
    ensures ok { OnOk result (IsUtf8 text.now) }
    ensures err { IfErr result (λ fault. IsTextFault options.now source at text.now fault) }
{
    if text.is_empty() {
        return Ok(());
    }
    let Ok(no_columns) = Schema::new(alloc, Vec::new(alloc)) else {
        return Err(Fault::OutOfMemory);
    };
    match read_records(alloc, text, at, source, &no_columns, &[], head, options) {
        Ok(_) => Ok(()),
        Err(
            Fault::ComputeError {
                kind: ComputeKind::NotUtf8,
                file,
                at,
            },
        ) => Err(Fault::ComputeError {
            kind: ComputeKind::NotUtf8,
            file,
            at,
        }),
        // Records without rows have no other flaw: what refuses them is out of memory.
        Err(_) => Err(Fault::OutOfMemory),
    }
}
