//! What rows find in chains: the pairs of row numbers, and the rows that are in none.
ghost use Rattle.std.specs.Prelude.{◌≡◌, ◌<◌, ◌≤◌, ◌+◌, ◌^◌, ◌++◌, ◌||◌, ℕ, List, false, length, OnOk, IsOkUnless, get_or};
ghost use Rattle.std.specs.List.{list_any};
ghost use Rattle.morsel_join.specs.Chains.{LinksRise, AreRowChains, same_number};
ghost use Rattle.morsel_join.specs.Probes.{PutsChain, PutsRow, PutsLookedUp, PutsLone, PutsLoneRow};

use morsel_meaning::Fault;

/// The number that names no row.
pub const NO_ROW: u32 = u32::MAX;

/// Puts a row last, with each row of a chain.
fn follow(
    next: &[u32],
    head: u32,
    row: u32,
    lefts: &mut Vec<u32>,
    rights: &mut Vec<u32>,
) -> Result<(), Fault>
    requires within { head ≤ length next.now }
    requires rises { LinksRise next.now }
    ensures ok { OnOk result (PutsChain next.now head row lefts.old.items rights.old.items lefts.new.items rights.new.items) }
    ensures out_of_memory { IsOkUnless result Fault.OutOfMemory }
{
    let mut at = head;
    while at != 0 {
        lefts.push(row)?;
        rights.push(at - 1)?;
        at = next[(at - 1) as usize];
    }
    Ok(())
}

/// Puts a row last, with each row of a chain; where there is none, alone if it is wanted.
#[inline(always)]
fn probe_row(
    next: &[u32],
    head: u32,
    row: u32,
    wanted: bool,
    lefts: &mut Vec<u32>,
    rights: &mut Vec<u32>,
) -> Result<(), Fault>
    requires within { head ≤ length next.now }
    requires rises { LinksRise next.now }
    ensures ok { OnOk result (PutsRow next.now head wanted row lefts.old.items rights.old.items lefts.new.items rights.new.items) }
    ensures out_of_memory { IsOkUnless result Fault.OutOfMemory }
{
    if head != 0 {
        follow(next, head, row, lefts, rights)?;
        return Ok(());
    }
    if wanted {
        lefts.push(row)?;
        rights.push(NO_ROW)?;
    }
    Ok(())
}

/// The link of a key's number, and 0 where there is no such key.
#[inline(always)]
pub fn head_of(first: &[u32], number: u32) -> u32
    ensures { result ≡ get_or first.now number 0 }
{
    let key = number as usize;
    if key < first.len() { first[key] } else { 0 }
}

/// Puts rows last, each with the rows that have its key's number, in their order; where there are none, alone if it is wanted.
pub fn probe(
    first: &[u32],
    next: &[u32],
    numbers: &[u32],
    wanted: bool,
    lefts: &mut Vec<u32>,
    rights: &mut Vec<u32>,
) -> Result<(), Fault>
    requires heads { (k : ℕ) → get_or first.now k 0 ≤ length next.now }
    requires rises { LinksRise next.now }
    requires short { length numbers.now < 2 ^ 32 }
    ensures ok { OnOk result ((build : List ℕ) → AreRowChains build first.now next.now 0 → PutsLookedUp (length first.now) build numbers.now wanted lefts.old.items rights.old.items lefts.new.items rights.new.items) }
    ensures out_of_memory { IsOkUnless result Fault.OutOfMemory }
{
    for row in 0..numbers.len() {
        let head = head_of(first, numbers[row]);
        probe_row(next, head, row as u32, wanted, lefts, rights)?;
    }
    Ok(())
}

/// Marks the keys that have these numbers. A number past the keys is no key's.
pub fn mark_seen(seen: &mut [bool], numbers: &[u32])
    ensures len { length seen.new ≡ length seen.old }
    ensures marked { (m : ℕ) → get_or seen.new m false ≡ (get_or seen.old m false || list_any (λ n. same_number (length seen.old) n m) numbers.now) }
{
    for number in numbers {
        mark_key(seen, *number);
    }
}

/// Marks the key of this number, if there is one.
#[inline(always)]
fn mark_key(seen: &mut [bool], number: u32)
    ensures len { length seen.new ≡ length seen.old }
    ensures marked { (m : ℕ) → get_or seen.new m false ≡ (get_or seen.old m false || same_number (length seen.old) number m) }
{
    let key = number as usize;
    if key >= seen.len() {
        return;
    }
    seen[key] = true;
}

/// Whether the key of this number is marked.
#[inline(always)]
pub fn is_seen(seen: &[bool], number: u32) -> bool
    ensures { result ≡ get_or seen.now number false }
{
    let key = number as usize;
    key < seen.len() && seen[key]
}

/// Puts those rows last alone whose keys are not marked.
pub fn put_lone(
    seen: &[bool],
    numbers: &[u32],
    lefts: &mut Vec<u32>,
    rights: &mut Vec<u32>,
) -> Result<(), Fault>
    requires short { length numbers.now < 2 ^ 32 }
    ensures ok { OnOk result (PutsLone seen.now 0 numbers.now lefts.old.items rights.old.items lefts.new.items rights.new.items) }
    ensures out_of_memory { IsOkUnless result Fault.OutOfMemory }
{
    for row in 0..numbers.len() {
        put_lone_row(seen, numbers[row], row as u32, lefts, rights)?;
    }
    Ok(())
}

/// Puts a row last alone if its key is not marked.
#[inline(always)]
pub fn put_lone_row(
    seen: &[bool],
    number: u32,
    row: u32,
    lefts: &mut Vec<u32>,
    rights: &mut Vec<u32>,
) -> Result<(), Fault>
    ensures ok { OnOk result (PutsLoneRow seen.now number row lefts.old.items rights.old.items lefts.new.items rights.new.items) }
    ensures out_of_memory { IsOkUnless result Fault.OutOfMemory }
{
    if is_seen(seen, number) {
        return Ok(());
    }
    lefts.push(NO_ROW)?;
    rights.push(row)?;
    Ok(())
}
