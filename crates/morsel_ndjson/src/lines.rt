//! Rows as JSON, one object a line.
ghost use Rattle.std.specs.Prelude.{◌≡◌, ◌+◌, ◌^◌, ◌≤◌, ◌++◌, length, take, drop, OnOk, OnErr, IfOk, IsOkUnless, codes, if◌then◌else◌};
ghost use Rattle.morsel_meaning.specs.declared.fault.Fault.TheVariants as faults;
ghost use Rattle.morsel_meaning.specs.Values.{names_of};
ghost use Rattle.morsel_ndjson.specs.Ndjson.{ndjson};
ghost use Rattle.morsel_ndjson.specs.Members.{beginnings, members_from, members_at, members_room, line_end, HaveRow, Puts};

use crate::beginning::{Beginning, make_beginnings};
use crate::cursor::{make_room, put_byte, put_bytes};
use crate::members::{Member, make_members, row_room};
use morsel_frame::Frame;
use morsel_meaning::Fault;
use std::alloc::AllocError;

/// How many bytes most values have at most: an estimate.
const USUAL_LEN: usize = 10;

/// Appends the rows of the frame as JSON, one object a line; appends nothing where memory runs out.
pub fn write_ndjson(out: &mut Vec<u8>, frame: &Frame) -> Result<(), Fault>
    ensures ok { OnOk result (out.new.items ≡ out.old.items ++ ndjson (names_of frame.now.schema) frame.now.rows) }
    ensures err { OnErr result (out.new.items ≡ out.old.items) }
    ensures out_of_memory { IsOkUnless result Fault.OutOfMemory }
{
    let len = out.len();
    match put_rows(out, len, frame) {
        Ok(end) => {
            out.truncate(end);
            Ok(())
        }
        Err(fault) => {
            out.truncate(len);
            Err(fault)
        }
    }
}

/// Puts each row as a line.
fn put_rows(out: &mut Vec<u8>, at: usize, frame: &Frame) -> Result<usize, Fault>
    requires { at ≤ length out.old.items }
    ensures put { Puts out.old.items at (ndjson (names_of frame.now.schema) frame.now.rows) result out.new.items }
    ensures out_of_memory { IsOkUnless result Fault.OutOfMemory }
{
    let begins = make_beginnings(*out.allocator(), frame.schema())?;
    let members = make_members(*out.allocator(), &begins, frame)?;
    make_usual_room(out, at, &begins, frame.height());
    Ok(put_lines(out, at, &members, frame)?)
}

/// Makes room for lines of a usual length, where there is so much memory.
fn make_usual_room(out: &mut Vec<u8>, at: usize, begins: &[Beginning], rows: usize)
    requires { at ≤ length out.old.items }
    ensures within { at ≤ length out.new.items }
    ensures same_front { take at out.new.items ≡ take at out.old.items }
{
    let mut each: usize = 2;
    for begin in begins {
        each = each.saturating_add(begin.len()).saturating_add(USUAL_LEN);
    }
    let _ = make_room(out, at, rows.saturating_mul(each));
}

/// Puts each row as a line, with the members of each column at hand.
// Not inlined, so that its loop has the registers to itself.
#[inline(never)]
fn put_lines(
    out: &mut Vec<u8>,
    at: usize,
    members: &[Member<'_>],
    frame: &Frame,
) -> Result<usize, AllocError>
    requires within { at ≤ length out.old.items }
    requires members { members.now ≡ members_from 0 (beginnings 123 (names_of frame.now.schema)) frame.now.rows }
    ensures { Puts out.old.items at (ndjson (names_of frame.now.schema) frame.now.rows) result out.new.items }
{
    let Some(room) = row_room(members) else {
        return Err(AllocError)
    };
    let mut to = at;
    for row in 0..frame.height() {
        match put_line(out, to, members, row, room) {
            Ok(end) => to = end,
            Err(error) => return Err(error),
        }
    }
    Ok(to)
}

/// Puts one row as a line.
#[inline(always)]
fn put_line(
    out: &mut Vec<u8>,
    at: usize,
    members: &[Member<'_>],
    row: usize,
    room: usize,
) -> Result<usize, AllocError>
    requires within { at ≤ length out.old.items }
    requires row { HaveRow row members.now }
    requires whole { members_room members.now ≤ room }
    requires small { room ≤ 2 ^ 60 }
    ensures { Puts out.old.items at (members_at row members.now ++ line_end members.now) result out.new.items }
{
    let Ok(()) = make_room(out, at, room) else {
        return Err(AllocError)
    };
    let end = put_members(out, at, members, row, room)?;
    Ok(put_end(out.as_mut_slice(), end, members.is_empty()))
}

/// Puts the members of one row, and leaves room for the end of its line.
#[inline(always)]
fn put_members(
    out: &mut Vec<u8>,
    at: usize,
    members: &[Member<'_>],
    row: usize,
    room: usize,
) -> Result<usize, AllocError>
    requires row { HaveRow row members.now }
    requires whole { members_room members.now ≤ room }
    requires small { room ≤ 2 ^ 60 }
    requires room { at + members_room members.now ≤ length out.old.items }
    ensures put { Puts out.old.items at (members_at row members.now) result out.new.items }
    ensures left { IfOk result (λ end. end + 3 ≤ length out.new.items) }
{
    let (count, end) = put_fitting(out.as_mut_slice(), at, members, row);
    if count < members.len() {
        return put_others(out, end, &members[count..], row, room);
    }
    Ok(end)
}

/// Puts the members of one row up to the first that may need more room than the row has for it, and says how many they are and
/// where they end.
#[inline(always)]
fn put_fitting(out: &mut [u8], at: usize, members: &[Member<'_>], row: usize) -> (usize, usize)
    requires row { HaveRow row members.now }
    requires room { at + members_room members.now ≤ length out.old }
    ensures some { result.0 ≤ length members.now }
    ensures rises { at ≤ result.1 }
    ensures within { result.1 + members_room (drop result.0 members.now) ≤ length out.new }
    ensures written { take result.1 out.new ++ members_at row (drop result.0 members.now) ≡ take at out.old ++ members_at row members.now }
{
    let mut to = at;
    for column in 0..members.len() {
        match members[column].put_small(out, to, row) {
            Some(end) => to = end,
            None => return (column, to),
        }
    }
    (members.len(), to)
}

/// Puts the last members of one row, whatever they are, and leaves room for the end of its line.
// Apart from the loop over those that fit, so that this one has its registers, and nothing of it is asked there.
#[cold]
#[inline(never)]
fn put_others(
    out: &mut Vec<u8>,
    at: usize,
    members: &[Member<'_>],
    row: usize,
    room: usize,
) -> Result<usize, AllocError>
    requires row { HaveRow row members.now }
    requires whole { members_room members.now ≤ room }
    requires small { room ≤ 2 ^ 60 }
    requires room { at + members_room members.now ≤ length out.old.items }
    ensures put { Puts out.old.items at (members_at row members.now) result out.new.items }
    ensures left { IfOk result (λ end. end + 3 ≤ length out.new.items) }
{
    let mut to = at;
    for column in 0..members.len() {
        match members[column].put(out, to, row, room) {
            Ok(end) => to = end,
            Err(error) => return Err(error),
        }
    }
    Ok(to)
}

/// Puts the end of a line.
#[inline(always)]
fn put_end(out: &mut [u8], at: usize, is_empty: bool) -> usize
    requires { at + 3 ≤ length out.old }
    ensures rises { at ≤ result }
    ensures within { result ≤ at + 3 }
    ensures written { take result out.new ≡ take at out.old ++ (if is_empty then codes "{}\n" else codes "}\n") }
{
    if is_empty {
        return put_bytes(out, at, b"{}\n");
    }
    let at = put_byte(out, at, b'}');
    put_byte(out, at, b'\n')
}
