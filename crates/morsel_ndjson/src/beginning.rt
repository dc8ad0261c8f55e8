//! What comes before each value of a row, made once for each column.
ghost use Rattle.std.specs.Prelude.{◌≡◌, ◌+◌, ◌*◌, ◌≤◌, ◌++◌, [], length, take, OnOk, IfOk, IsOkUnless};
ghost use Rattle.morsel_meaning.specs.declared.fault.Fault.TheVariants as faults;
ghost use Rattle.morsel_meaning.specs.Values.{names_of};
ghost use Rattle.morsel_ndjson.specs.Members.{beginning, beginnings};

use crate::cursor::{put_byte, put_words};
use crate::values::put_string;
use morsel_frame::Schema;
use morsel_meaning::Fault;
use std::alloc::Global;
use std::marker::Model;

/// A member up to its value, with room for whole words after it.
#[derive(Drop)]
pub struct Beginning {
    padded: Vec<u8>,
    len: usize,
}

impl Model for Beginning {
    ghost use Rattle.std.specs.Prelude.{ℕ, List, ◌+◌, ◌≤◌, length, take};

    ghost Value = { List ℕ };

    ghost view = { λ begin. take begin.len begin.padded.items };

    ghost invariant = { λ begin. begin.len + 16 ≤ length begin.padded.items };
}

impl Beginning {
    /// The mark, the name in quotes and a colon.
    fn new(alloc: Global, mark: u8, name: &str) -> Result<Beginning, Fault>
        ensures value { IfOk result (λ begin. begin ≡ beginning mark name.now) }
        ensures out_of_memory { IsOkUnless result Fault.OutOfMemory }
    {
        let Some(most) = name.len().checked_mul(6) else {
            return Err(Fault::OutOfMemory)
        };
        let Some(room) = most.checked_add(20) else {
            return Err(Fault::OutOfMemory)
        };
        let mut padded = Vec::new(alloc);
        padded.resize(room, 0)?;
        let len = put_beginning(&mut padded, mark, name.as_bytes());
        Ok(Beginning { padded, len })
    }

    /// How many bytes it has.
    #[inline(always)]
    pub fn len(&self) -> usize
        ensures { result ≡ length self.now }
    {
        self.len
    }

    /// Puts the bytes, and writes over up to 16 after them.
    #[inline(always)]
    pub fn put(&self, out: &mut [u8], at: usize) -> usize
        requires { at + length self.now + 16 ≤ length out.old }
        ensures end { result ≡ at + length self.now }
        ensures written { take result out.new ≡ take at out.old ++ self.now }
    {
        put_words(out, at, &self.padded, self.len)
    }
}

/// Puts a mark, a name in quotes and a colon.
fn put_beginning(out: &mut [u8], mark: u8, name: &[u8]) -> usize
    requires { 6 * length name.now + 4 ≤ length out.old }
    ensures within { result ≤ 6 * length name.now + 4 }
    ensures written { take result out.new ≡ beginning mark name.now }
{
    let at = put_byte(out, 0, mark);
    let at = put_string(out, at, name);
    put_byte(out, at, b':')
}

/// What each column's member begins with.
pub fn make_beginnings(alloc: Global, schema: &Schema) -> Result<Vec<Beginning>, Fault>
    ensures value { IfOk result (λ begins. begins.items ≡ beginnings 123 (names_of schema.now)) }
    ensures out_of_memory { IsOkUnless result Fault.OutOfMemory }
{
    let mut begins = Vec::with_capacity(alloc, schema.len())?;
    let mut mark = b'{';
    for at in 0..schema.len() {
        begins.push(Beginning::new(alloc, mark, schema.field(at).name.as_str())?)?;
        mark = b',';
    }
    Ok(begins)
}
