//! Columns as rows are written from them: each value after what its column's member begins with. A column is found in the
//! frame once, and what it lends is known by its type.
ghost use Rattle.std.specs.Prelude.{◌≡◌, ◌+◌, ◌*◌, ◌^◌, ◌≤◌, ◌<◌, ◌++◌, ℕ, pos, false, None, length, take, get_or, IfOk, IfSome, if◌then◌else◌};
ghost use Rattle.morsel_meaning.specs.Values.{names_of};
ghost use Rattle.morsel_frame.specs.Cells.{value_of};
ghost use Rattle.morsel_frame.specs.Columns.{value_at};
ghost use Rattle.morsel_ndjson.specs.Ndjson.{json_value};
ghost use Rattle.morsel_ndjson.specs.Members.{beginnings, members_from, members_room, Puts};

use crate::beginning::Beginning;
use crate::cursor::make_room;
use crate::values::{put_short, put_text, put_value};
use morsel_frame::{Cell, Column, Frame, Texts};
use morsel_meaning::{ColType, Value};
use std::alloc::{AllocError, Global};
use std::marker::Model;

/// More room than any memory has: so much for a row, or a text of so many bytes, is refused.
const MOST_ROOM: usize = 1 << 60;

/// The values that a column lends.
#[derive(Clone, Copy, Drop)]
pub enum Lent<'a> {
    Ints(&'a [i64]),
    Bools(&'a [bool]),
    Texts(&'a Texts),
}

/// What a column's member begins with, which of its values are there, and all its values.
#[derive(Drop)]
pub struct Member<'a> {
    begin: &'a Beginning,
    valid: &'a [bool],
    lent: Lent<'a>,
}

impl<'a> Model for Member<'a> {
    ghost use Rattle.std.specs.Prelude.{◌≡◌, length};
    ghost use Rattle.morsel_frame.specs.Columns.{masked};
    ghost use Rattle.morsel_ndjson.specs.Members.{lent_values, BegunValues};

    ghost Value = { BegunValues };

    ghost view = { λ member. (member.begin.now, masked member.valid.now (lent_values member.lent)) };

    ghost invariant = { λ member. length member.valid.now ≡ length (lent_values member.lent) };
}

impl<'a> Member<'a> {
    /// The values of a column, each after this beginning.
    fn new(begin: &'a Beginning, column: &'a Column) -> Member<'a>
        ensures { result ≡ (begin.now, column.now.values) }
    {
        match column.kind() {
            ColType::Int => {
                let (valid, numbers) = column.ints().unwrap();
                Member {
                    begin,
                    valid,
                    lent: Lent::Ints(numbers),
                }
            }
            ColType::Bool => {
                let (valid, flags) = column.bools().unwrap();
                Member {
                    begin,
                    valid,
                    lent: Lent::Bools(flags),
                }
            }
            ColType::Text => {
                let (valid, texts) = column.texts().unwrap();
                Member {
                    begin,
                    valid,
                    lent: Lent::Texts(texts),
                }
            }
        }
    }

    /// The room for a value and what it begins with, where the value is no text of more than 16 bytes.
    fn room(&self) -> Option<usize>
        ensures { IfSome result (λ room. room ≡ length self.now.0 + 114) }
    {
        // Six bytes for each byte of a text, and 18 for its quotes and a lane that is put whole.
        self.begin.len().checked_add(114)
    }

    /// Puts the member of a row within the room of a value, or says that it is a text that may need more.
    #[inline(always)]
    pub fn put_small(&self, out: &mut [u8], at: usize, row: usize) -> Option<usize>
        requires row { row < length self.now.1 }
        requires room { at + (length self.now.0 + 114) ≤ length out.old }
        ensures kept { result ≡ None → take at out.new ≡ take at out.old }
        ensures rises { IfSome result (λ end. at ≤ end) }
        ensures within { IfSome result (λ end. end ≤ at + (length self.now.0 + 114)) }
        ensures written { IfSome result (λ end. take end out.new ≡ take at out.old ++ (self.now.0 ++ json_value (value_at self.now.1 row))) }
    {
        let valid = self.valid[row];
        match self.lent {
            Lent::Ints(numbers) => Some(put_int_at(out, at, self.begin, valid, numbers, row)),
            Lent::Bools(flags) => Some(put_bool_at(out, at, self.begin, valid, flags, row)),
            Lent::Texts(texts) => {
                let (bytes, len) = texts.bytes_from(row);
                put_short_at(out, at, self.begin, valid, bytes, len)
            }
        }
    }

    /// Puts the member of a row, whatever it is. As much room as there was after it, up to `room`, there is again.
    #[inline(always)]
    pub fn put(
        &self,
        out: &mut Vec<u8>,
        at: usize,
        row: usize,
        room: usize,
    ) -> Result<usize, AllocError>
        requires row { row < length self.now.1 }
        requires own { length self.now.0 + 114 ≤ room }
        requires small { room ≤ 2 ^ 60 }
        requires room { at + (length self.now.0 + 114) ≤ length out.old.items }
        ensures put { Puts out.old.items at (self.now.0 ++ json_value (value_at self.now.1 row)) result out.new.items }
        ensures left { IfOk result (λ end. (more : ℕ) → more ≤ room →
            at + (length self.now.0 + 114) + more ≤ length out.old.items → end + more ≤ length out.new.items) }
    {
        let valid = self.valid[row];
        match self.lent {
            Lent::Ints(numbers) => { Ok(put_int_member(out, at, self.begin, valid, numbers, row)) }
            Lent::Bools(flags) => Ok(put_bool_member(out, at, self.begin, valid, flags, row)),
            Lent::Texts(texts) => {
                let (bytes, len) = texts.bytes_from(row);
                put_text_member(out, at, self.begin, valid, bytes, len, room)
            }
        }
    }
}

/// The members of all columns, with the beginnings at hand.
pub fn make_members<'a>(
    alloc: Global,
    begins: &'a [Beginning],
    frame: &'a Frame,
) -> Result<Vec<Member<'a>>, AllocError>
    requires { begins.now ≡ beginnings 123 (names_of frame.now.schema) }
    ensures { IfOk result (λ members. members.items ≡ members_from 0 begins.now frame.now.rows) }
{
    let mut members = Vec::with_capacity(alloc, begins.len())?;
    for at in 0..begins.len() {
        members.push(Member::new(&begins[at], frame.column(at)))?;
    }
    Ok(members)
}

/// The room for a row, but for its texts of more than 16 bytes.
pub fn row_room(members: &[Member<'_>]) -> Option<usize>
    ensures room { IfSome result (λ room. room ≡ members_room members.now) }
    ensures small { IfSome result (λ room. room ≤ 2 ^ 60) }
{
    let mut room: usize = 3;
    for at in 0..members.len() {
        let Some(more) = members[at].room() else {
            return None;
        };
        let Some(sum) = room.checked_add(more) else {
            return None;
        };
        room = sum;
    }
    if room > MOST_ROOM { None } else { Some(room) }
}

/// The number at a place, under its mark.
#[inline(always)]
fn int_at(valid: bool, numbers: &[i64], at: usize) -> Cell<'static>
    requires { at < length numbers.now }
    ensures { value_of result ≡ (if valid then Value.Int (get_or numbers.now at (pos 0)) else Value.Null) }
{
    if valid {
        Cell::Int(numbers[at])
    } else {
        Cell::Null
    }
}

/// The truth value at a place, under its mark.
#[inline(always)]
fn bool_at(valid: bool, flags: &[bool], at: usize) -> Cell<'static>
    requires { at < length flags.now }
    ensures { value_of result ≡ (if valid then Value.Bool (get_or flags.now at false) else Value.Null) }
{
    if valid {
        Cell::Bool(flags[at])
    } else {
        Cell::Null
    }
}

/// Puts a beginning and a number under its mark.
#[inline(always)]
fn put_int_member(
    out: &mut Vec<u8>,
    at: usize,
    begin: &Beginning,
    valid: bool,
    numbers: &[i64],
    row: usize,
) -> usize
    requires row { row < length numbers.now }
    requires room { at + (length begin.now + 20) ≤ length out.old.items }
    ensures rises { at ≤ result }
    ensures within { result ≤ at + (length begin.now + 20) }
    ensures same_len { length out.new.items ≡ length out.old.items }
    ensures inside { result ≤ length out.new.items }
    ensures written { take result out.new.items ≡ take at out.old.items ++
        (begin.now ++ json_value (if valid then Value.Int (get_or numbers.now row (pos 0)) else Value.Null)) }
{
    put_int_at(out.as_mut_slice(), at, begin, valid, numbers, row)
}

/// Puts a beginning and a number under its mark, within a slice.
///
/// The value is looked at after the beginning is put, so that it is asked only once whether it is there.
#[inline(always)]
fn put_int_at(
    out: &mut [u8],
    at: usize,
    begin: &Beginning,
    valid: bool,
    numbers: &[i64],
    row: usize,
) -> usize
    requires row { row < length numbers.now }
    requires room { at + (length begin.now + 20) ≤ length out.old }
    ensures rises { at ≤ result }
    ensures within { result ≤ at + (length begin.now + 20) }
    ensures written { take result out.new ≡ take at out.old ++
        (begin.now ++ json_value (if valid then Value.Int (get_or numbers.now row (pos 0)) else Value.Null)) }
{
    let to = begin.put(out, at);
    put_value(out, to, int_at(valid, numbers, row))
}

/// Puts a beginning and a truth value under its mark.
#[inline(always)]
fn put_bool_member(
    out: &mut Vec<u8>,
    at: usize,
    begin: &Beginning,
    valid: bool,
    flags: &[bool],
    row: usize,
) -> usize
    requires row { row < length flags.now }
    requires room { at + (length begin.now + 20) ≤ length out.old.items }
    ensures rises { at ≤ result }
    ensures within { result ≤ at + (length begin.now + 20) }
    ensures same_len { length out.new.items ≡ length out.old.items }
    ensures inside { result ≤ length out.new.items }
    ensures written { take result out.new.items ≡ take at out.old.items ++
        (begin.now ++ json_value (if valid then Value.Bool (get_or flags.now row false) else Value.Null)) }
{
    put_bool_at(out.as_mut_slice(), at, begin, valid, flags, row)
}

/// Puts a beginning and a truth value under its mark, within a slice.
#[inline(always)]
fn put_bool_at(
    out: &mut [u8],
    at: usize,
    begin: &Beginning,
    valid: bool,
    flags: &[bool],
    row: usize,
) -> usize
    requires row { row < length flags.now }
    requires room { at + (length begin.now + 20) ≤ length out.old }
    ensures rises { at ≤ result }
    ensures within { result ≤ at + (length begin.now + 20) }
    ensures written { take result out.new ≡ take at out.old ++
        (begin.now ++ json_value (if valid then Value.Bool (get_or flags.now row false) else Value.Null)) }
{
    let to = begin.put(out, at);
    put_value(out, to, bool_at(valid, flags, row))
}

/// Puts a beginning and a text of at most 16 bytes under its mark, or says that the text may be no such text. It is the first
/// `len` of these bytes.
#[inline(always)]
fn put_short_at(
    out: &mut [u8],
    at: usize,
    begin: &Beginning,
    valid: bool,
    bytes: &[u8],
    len: usize,
) -> Option<usize>
    requires within { len ≤ length bytes.now }
    requires room { at + (length begin.now + 114) ≤ length out.old }
    ensures kept { result ≡ None → take at out.new ≡ take at out.old }
    ensures rises { IfSome result (λ end. at ≤ end) }
    ensures within { IfSome result (λ end. end ≤ at + (length begin.now + 114)) }
    ensures written { IfSome result (λ end. take end out.new ≡ take at out.old ++
        (begin.now ++ json_value (if valid then Value.Text (take len bytes.now) else Value.Null))) }
{
    if len > 16 || bytes.len() < 16 {
        return None;
    }
    let to = begin.put(out, at);
    if valid {
        Some(put_short(out, to, bytes, len))
    } else {
        Some(put_value(out, to, Cell::Null))
    }
}

/// Puts a beginning and a text under its mark, for which there is room. The text is the first `len` of these bytes.
#[inline(always)]
fn put_text_at(
    out: &mut [u8],
    at: usize,
    begin: &Beginning,
    valid: bool,
    bytes: &[u8],
    len: usize,
) -> usize
    requires within { len ≤ length bytes.now }
    requires room { at + (length begin.now + 36 + 6 * len) ≤ length out.old }
    ensures rises { at ≤ result }
    ensures within { result ≤ at + (length begin.now + 20 + 6 * len) }
    ensures written { take result out.new ≡ take at out.old ++
        (begin.now ++ json_value (if valid then Value.Text (take len bytes.now) else Value.Null)) }
{
    let to = begin.put(out, at);
    if valid {
        put_text(out, to, bytes, len)
    } else {
        put_value(out, to, Cell::Null)
    }
}

/// Puts a beginning and a text under its mark, with so much room after it, which is also enough for what is no text. The text is the first
/// `len` of these bytes.
#[inline(always)]
fn put_text_member(
    out: &mut Vec<u8>,
    at: usize,
    begin: &Beginning,
    valid: bool,
    bytes: &[u8],
    len: usize,
    room: usize,
) -> Result<usize, AllocError>
    requires text { len ≤ length bytes.now }
    requires within { at ≤ length out.old.items }
    requires own { length begin.now + 114 ≤ room }
    requires small { room ≤ 2 ^ 60 }
    ensures put { Puts out.old.items at
        (begin.now ++ json_value (if valid then Value.Text (take len bytes.now) else Value.Null)) result out.new.items }
    ensures left { IfOk result (λ end. end + room ≤ length out.new.items) }
{
    if len > MOST_ROOM {
        return Err(AllocError);
    }
    make_room(out, at, 2 * room + 6 * len)?;
    Ok(put_text_at(out.as_mut_slice(), at, begin, valid, bytes, len))
}
