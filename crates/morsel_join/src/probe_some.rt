//! What rows find in chains, and the rows that are in none, so many at a time.
ghost use Rattle.std.specs.Prelude.{◌≡◌, ◌<◌, ◌≤◌, ◌+◌, ◌⊎◌, ◌^◌, ℕ, List, [], true, false, length, map, IfOk, IsOkUnless, get_or};
ghost use Rattle.morsel_join.specs.Chains.{AreRowChains, Chain, LinksRise};
ghost use Rattle.morsel_join.specs.Cuts.{AreItemsFrom, AreMarkedUp, FindNothing, PutsFirst, PutsFollowed, PutsFrom, PutsUnmarked, unmarked_items};
ghost use Rattle.morsel_join.specs.Items.{Both, JoinItem, or_lone};

use crate::probe::{NO_ROW, head_of, is_seen, put_lone_row};
use morsel_meaning::Fault;

/// A place among what rows find.
#[derive(Clone, Copy, Debug, PartialEq, Eq)]
pub struct Cursor {
    /// How many rows were begun.
    pub at: usize,
    /// The row that was begun last.
    pub row: u32,
    /// The link to the next of the kept rows that it finds, and 0 where there is none.
    pub link: u32,
}

impl Cursor {
    /// Whether nothing is left of so many rows.
    pub(crate) fn is_end(self, rows: usize) -> bool
        ensures yes { result ≡ true → (self.link ≡ 0) × (rows ≤ self.at) }
        ensures no { self.link ≡ 0 → rows ≤ self.at → result ≡ true }
    {
        self.link == 0 && self.at >= rows
    }
}

/// Puts a row last with each row of a chain, until there are so many. The answer is the link to the first row that is left, or 0.
fn follow_some(
    next: &[u32],
    head: u32,
    row: u32,
    limit: usize,
    lefts: &mut Vec<u32>,
    rights: &mut Vec<u32>,
) -> Result<u32, Fault>
    requires within { head ≤ length next.now }
    requires rises { LinksRise next.now }
    requires room { length lefts.old.items ≤ limit }
    requires len { length rights.old.items ≡ length lefts.old.items }
    ensures ok { IfOk result (λ link. (chain : List ℕ) → Chain next.now head chain → PutsFollowed next.now row (map (Both row) chain) lefts.old.items rights.old.items lefts.new.items rights.new.items link) }
    ensures within { IfOk result (λ link. link ≤ length next.now) }
    ensures full { IfOk result (λ link. (link ≡ 0) ⊎ (length lefts.new.items ≡ limit)) }
    ensures room { IfOk result (λ link. length lefts.new.items ≤ limit) }
    ensures len { IfOk result (λ link. length rights.new.items ≡ length lefts.new.items) }
    ensures out_of_memory { IsOkUnless result Fault.OutOfMemory }
{
    let mut link = head;
    while link != 0 && lefts.len() < limit {
        lefts.push(row)?;
        rights.push(link - 1)?;
        link = next[(link - 1) as usize];
    }
    Ok(link)
}

/// The same, and the row alone where there is no chain and it is wanted.
#[inline(always)]
fn probe_row_some(
    next: &[u32],
    head: u32,
    row: u32,
    wanted: bool,
    limit: usize,
    lefts: &mut Vec<u32>,
    rights: &mut Vec<u32>,
) -> Result<u32, Fault>
    requires within { head ≤ length next.now }
    requires rises { LinksRise next.now }
    requires room { length lefts.old.items < limit }
    requires len { length rights.old.items ≡ length lefts.old.items }
    ensures ok { IfOk result (λ link. (chain : List ℕ) → Chain next.now head chain → PutsFollowed next.now row (or_lone wanted row chain) lefts.old.items rights.old.items lefts.new.items rights.new.items link) }
    ensures within { IfOk result (λ link. link ≤ length next.now) }
    ensures full { IfOk result (λ link. (link ≡ 0) ⊎ (length lefts.new.items ≡ limit)) }
    ensures room { IfOk result (λ link. length lefts.new.items ≤ limit) }
    ensures len { IfOk result (λ link. length rights.new.items ≡ length lefts.new.items) }
    ensures out_of_memory { IsOkUnless result Fault.OutOfMemory }
{
    if head != 0 {
        return Ok(follow_some(next, head, row, limit, lefts, rights)?);
    }
    if !wanted {
        return Ok(0);
    }
    lefts.push(row)?;
    rights.push(NO_ROW)?;
    Ok(0)
}

/// Puts what rows find last, from a cursor on, until there are so many. The answer is the cursor to what is left.
fn probe_some(
    first: &[u32],
    next: &[u32],
    numbers: &[u32],
    wanted: bool,
    from: Cursor,
    limit: usize,
    lefts: &mut Vec<u32>,
    rights: &mut Vec<u32>,
) -> Result<Cursor, Fault>
    requires heads { (k : ℕ) → get_or first.now k 0 ≤ length next.now }
    requires rises { LinksRise next.now }
    requires short { length numbers.now < 2 ^ 32 }
    requires within { from.link ≤ length next.now }
    requires room { length lefts.old.items ≤ limit }
    requires len { length rights.old.items ≡ length lefts.old.items }
    ensures ok { IfOk result (λ cursor. (kept : List ℕ) (items : List JoinItem) → AreRowChains kept first.now next.now 0 → AreItemsFrom kept (length first.now) next.now numbers.now wanted from items → PutsFrom kept (length first.now) next.now numbers.now wanted items lefts.old.items rights.old.items lefts.new.items rights.new.items cursor) }
    ensures within { IfOk result (λ cursor. cursor.link ≤ length next.now) }
    ensures full { IfOk result (λ cursor. ((cursor.link ≡ 0) × (length numbers.now ≤ cursor.at)) ⊎ (length lefts.new.items ≡ limit)) }
    ensures room { IfOk result (λ cursor. length lefts.new.items ≤ limit) }
    ensures len { IfOk result (λ cursor. length rights.new.items ≡ length lefts.new.items) }
    ensures out_of_memory { IsOkUnless result Fault.OutOfMemory }
{
    let mut at = from.at;
    let mut row = from.row;
    let mut link = follow_some(next, from.link, row, limit, lefts, rights)?;
    while at < numbers.len() && lefts.len() < limit {
        let head = head_of(first, numbers[at]);
        row = at as u32;
        link = probe_row_some(next, head, row, wanted, limit, lefts, rights)?;
        at += 1;
    }
    Ok(Cursor { at, row, link })
}

/// The same; the cursor that is answered is past the rows that find nothing.
pub fn find_some(
    first: &[u32],
    next: &[u32],
    numbers: &[u32],
    wanted: bool,
    from: Cursor,
    limit: usize,
    lefts: &mut Vec<u32>,
    rights: &mut Vec<u32>,
) -> Result<Cursor, Fault>
    requires heads { (k : ℕ) → get_or first.now k 0 ≤ length next.now }
    requires rises { LinksRise next.now }
    requires short { length numbers.now < 2 ^ 32 }
    requires within { from.link ≤ length next.now }
    requires room { length lefts.old.items ≤ limit }
    requires len { length rights.old.items ≡ length lefts.old.items }
    ensures ok { IfOk result (λ cursor. (kept : List ℕ) (items : List JoinItem) → AreRowChains kept first.now next.now 0 → AreItemsFrom kept (length first.now) next.now numbers.now wanted from items → PutsFrom kept (length first.now) next.now numbers.now wanted items lefts.old.items rights.old.items lefts.new.items rights.new.items cursor) }
    ensures within { IfOk result (λ cursor. cursor.link ≤ length next.now) }
    ensures full { IfOk result (λ cursor. ((cursor.link ≡ 0) × (length numbers.now ≤ cursor.at)) ⊎ (length lefts.new.items ≡ limit)) }
    ensures settled { IfOk result (λ cursor. (kept : List ℕ) (items : List JoinItem) → AreRowChains kept first.now next.now 0 → AreItemsFrom kept (length first.now) next.now numbers.now wanted cursor items → items ≡ [] → (cursor.link ≡ 0) × (length numbers.now ≤ cursor.at)) }
    ensures room { IfOk result (λ cursor. length lefts.new.items ≤ limit) }
    ensures len { IfOk result (λ cursor. length rights.new.items ≡ length lefts.new.items) }
    ensures out_of_memory { IsOkUnless result Fault.OutOfMemory }
{
    let stopped = probe_some(first, next, numbers, wanted, from, limit, lefts, rights)?;
    let cursor = past_barren(first, numbers, wanted, stopped);
    Ok(cursor)
}

/// The cursor past the rows that find nothing. Where such rows are wanted there are none.
fn past_barren(first: &[u32], numbers: &[u32], wanted: bool, from: Cursor) -> Cursor
    ensures same { (result.row ≡ from.row) × (result.link ≡ from.link) }
    ensures wanted { wanted ≡ true → result.at ≡ from.at }
    ensures past { wanted ≡ false → FindNothing first.now numbers.now from.at result.at }
{
    if wanted {
        return from;
    }
    Cursor {
        at: next_found(first, numbers, from.at),
        row: from.row,
        link: from.link,
    }
}

/// The first row from one on that finds something.
fn next_found(first: &[u32], numbers: &[u32], from: usize) -> usize
    ensures { FindNothing first.now numbers.now from result }
{
    let mut at = from;
    while at < numbers.len() {
        if head_of(first, numbers[at]) != 0 {
            return at;
        }
        at += 1;
    }
    at
}

/// Puts those rows from one on last alone whose keys are not marked, until there are so many. The answer is the row behind those that were looked at.
fn put_lone_some(
    seen: &[bool],
    numbers: &[u32],
    from: usize,
    limit: usize,
    lefts: &mut Vec<u32>,
    rights: &mut Vec<u32>,
) -> Result<usize, Fault>
    requires short { length numbers.now < 2 ^ 32 }
    requires room { length lefts.old.items ≤ limit }
    requires len { length rights.old.items ≡ length lefts.old.items }
    ensures ok { IfOk result (λ at. PutsUnmarked seen.now numbers.now from lefts.old.items rights.old.items lefts.new.items rights.new.items at) }
    ensures full { IfOk result (λ at. (length numbers.now ≤ at) ⊎ (length lefts.new.items ≡ limit)) }
    ensures room { IfOk result (λ at. length lefts.new.items ≤ limit) }
    ensures len { IfOk result (λ at. length rights.new.items ≡ length lefts.new.items) }
    ensures out_of_memory { IsOkUnless result Fault.OutOfMemory }
{
    let mut at = from;
    while at < numbers.len() && lefts.len() < limit {
        put_lone_row(seen, numbers[at], at as u32, lefts, rights)?;
        at += 1;
    }
    Ok(at)
}

/// The same; the row that is answered is one whose key is not marked, if there is one.
pub fn find_lone(
    seen: &[bool],
    numbers: &[u32],
    from: usize,
    limit: usize,
    lefts: &mut Vec<u32>,
    rights: &mut Vec<u32>,
) -> Result<usize, Fault>
    requires short { length numbers.now < 2 ^ 32 }
    requires room { length lefts.old.items ≤ limit }
    requires len { length rights.old.items ≡ length lefts.old.items }
    ensures ok { IfOk result (λ at. PutsFirst (unmarked_items seen.now numbers.now from) (unmarked_items seen.now numbers.now at) lefts.old.items rights.old.items lefts.new.items rights.new.items) }
    ensures full { IfOk result (λ at. (length numbers.now ≤ at) ⊎ (length lefts.new.items ≡ limit)) }
    ensures settled { IfOk result (λ at. unmarked_items seen.now numbers.now at ≡ [] → length numbers.now ≤ at) }
    ensures room { IfOk result (λ at. length lefts.new.items ≤ limit) }
    ensures len { IfOk result (λ at. length rights.new.items ≡ length lefts.new.items) }
    ensures out_of_memory { IsOkUnless result Fault.OutOfMemory }
{
    let stopped = put_lone_some(seen, numbers, from, limit, lefts, rights)?;
    let at = next_unmarked(seen, numbers, stopped);
    Ok(at)
}

/// The first row from one on whose key is not marked.
fn next_unmarked(seen: &[bool], numbers: &[u32], from: usize) -> usize
    ensures { AreMarkedUp seen.now numbers.now from result }
{
    let mut at = from;
    while at < numbers.len() {
        if !is_seen(seen, numbers[at]) {
            return at;
        }
        at += 1;
    }
    at
}
