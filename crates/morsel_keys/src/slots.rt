//! Slots: where the search for a key begins, the first free slot from there, and the writing of one.
ghost use Rattle.std.specs.Prelude.{◌≡◌, ◌<◌, ◌≤◌, OnOk, OnErr, IsOkUnless, length, get_or};
ghost use Rattle.morsel_keys.specs.Slots.{IsHole, with_slot};
ghost use Rattle.morsel_keys.specs.Words.{spread_of};

use morsel_meaning::Fault;

/// How many slots a table has at least for each key.
pub const SLOTS_PER_KEY: usize = 2;

/// The place where the search for a mixed key begins. Its top bits decide, so that keys one after the other are rarely in one place.
#[tactic(auto, unfolding(crate::specs::Words::spread_of))]
#[inline(always)]
pub fn spread(mixed: u64, mask: usize) -> usize
    ensures value { result ≡ spread_of mask mixed }
    ensures within { result ≤ mask }
{
    let spread = (mixed >> 32).wrapping_mul((mask as u64).wrapping_add(1));
    (spread >> 32) as usize & mask
}

/// The slot at a place, and 0 past the end.
#[inline(always)]
pub fn slot_at(slots: &[u32], at: usize) -> u32
    ensures { result ≡ get_or slots.now at 0 }
{
    if at < slots.len() { slots[at] } else { 0 }
}

/// The first free place from a place on, or the end.
pub fn hole(slots: &[u32], from: usize) -> usize
    requires { from ≤ length slots.now }
    ensures { IsHole slots.now from result }
{
    for at in from..slots.len() {
        if slots[at] == 0 {
            return at;
        }
    }
    slots.len()
}

/// Writes a slot, or puts it last.
pub fn put(slots: &mut Vec<u32>, at: usize, slot: u32) -> Result<(), Fault>
    requires { at ≤ length slots.old.items }
    ensures ok { OnOk result (slots.new.items ≡ with_slot at slot slots.old.items) }
    ensures err { OnErr result (slots.new.items ≡ slots.old.items) }
    ensures out_of_memory { IsOkUnless result Fault.OutOfMemory }
{
    if at < slots.len() {
        slots[at] = slot;
    } else {
        slots.push(slot)?;
    }
    Ok(())
}
