//! The side of a join whose rows are kept by their keys, and found by the rows of the other side.
ghost use Rattle.std.specs.Prelude.{◌≡◌, ◌<◌, ◌≤◌, ◌⊎◌, ◌^◌, ◌++◌, [], true, false, List, length, map, IfOk, OnOk, IsOkUnless};
ghost use Rattle.std.specs.List.{All};
ghost use Rattle.morsel_meaning.specs.declared.value.Field.{Field};
ghost use Rattle.morsel_meaning.specs.declared.fault.Fault.TheVariants.{OutOfMemory};
ghost use Rattle.morsel_join.specs.BuildSides.{IsBuild, kept_side, rows_of_tables};
ghost use Rattle.morsel_join.specs.Builds.{AreKeyed};
ghost use Rattle.morsel_join.specs.Chains.{left_mark, right_mark};
ghost use Rattle.morsel_join.specs.Cuts.{PutsFirst, unmarked_items};
ghost use Rattle.morsel_join.specs.Items.{JoinItem};
ghost use Rattle.morsel_join.specs.Probings.{AreItemsIn, AreNumbersOf, FindsItems};
ghost use Rattle.morsel_join.specs.Rows.{FitRules, keeps_left};
ghost use Rattle.morsel_join.specs.Sides.{FitSides, asked_keys, kept_keys, side_row, wants_asked, wants_kept};

use crate::build::{KeyedRows, keyed_rows};
use crate::frames::{wants_left, wants_right};
use crate::gather::gather_rows;
use crate::join_rows::found_numbers;
use crate::probe_some::{Cursor, find_lone, find_some};
use crate::rules::JoinRules;
use morsel_frame::{Frame, Schema};
use morsel_meaning::Fault;
use std::alloc::Global;

/// The rows of one side of a join, by their keys.
#[derive(Drop)]
pub struct Build {
    /// The rules of the join.
    pub rules: JoinRules,
    /// Whether the left rows are kept.
    pub is_left: bool,
    /// The columns of the rows that are looked up.
    pub asked: Schema,
    /// The kept rows.
    pub(crate) kept: Frame,
    /// The same by their keys.
    pub(crate) keyed: KeyedRows,
}

impl Build {
    /// The rows of these frames, one frame after the other, of the side that the rules say, which has these columns; the rows that are looked up
    /// have the other ones. More than 4,294,967,295 rows, which no scan has, are out of memory.
    pub fn new(
        alloc: Global,
        rules: JoinRules,
        columns: Schema,
        frames: Vec<Frame>,
        asked: Schema,
    ) -> Result<Build, Fault>
        requires fit { FitSides (keeps_left rules.how rules.maintain_order) columns asked rules }
        requires columns { All (λ frame. frame.schema ≡ columns) frames.items }
        ensures built { IfOk result IsBuild }
        ensures rules { IfOk result (λ build. build.rules ≡ rules) }
        ensures asked { IfOk result (λ build. build.asked ≡ asked) }
        ensures rows { IfOk result (λ build. (kept_side build).rows ≡ rows_of_tables frames.items) }
        ensures out_of_memory { IsOkUnless result OutOfMemory }
    {
        let kept = stacked(alloc, columns, frames)?;
        let is_left = rules.keeps_left();
        let keyed = keyed_side(alloc, &rules, is_left, &kept)?;
        Ok(Build {
            rules,
            is_left,
            asked,
            kept,
            keyed,
        })
    }

    /// How many keys the kept rows have.
    pub(crate) fn keys(&self) -> usize
        ensures { result ≡ length self.now.keyed.keys.keys }
    {
        self.keyed.keys.len()
    }

    /// How many kept rows there are.
    pub fn height(&self) -> usize
        ensures { result ≡ length self.now.kept.rows }
    {
        self.kept.height()
    }

    /// The numbers of rows' keys among those of the kept rows, and `u32::MAX` where there is no such key.
    pub(crate) fn numbers(&self, alloc: Global, asked: &Frame) -> Result<Vec<u32>, Fault>
        requires built { IsBuild self.now }
        requires columns { asked.now.schema ≡ self.now.asked }
        ensures ok { IfOk result (λ numbers. AreNumbersOf self.now asked.now.rows numbers.items) }
        ensures out_of_memory { IsOkUnless result OutOfMemory }
    {
        if self.is_left {
            return Ok(found_numbers(alloc, &self.keyed.keys, asked, &self.rules.right_keys)?);
        }
        Ok(found_numbers(alloc, &self.keyed.keys, asked, &self.rules.left_keys)?)
    }

    /// Whether the kind has the rows that find nothing.
    pub(crate) fn wants_asked(&self) -> bool
        ensures { result ≡ wants_asked (kept_side self.now) }
    {
        if self.is_left {
            return wants_right(self.rules.how);
        }
        wants_left(self.rules.how)
    }

    /// Whether the kind has the kept rows that no row finds.
    pub(crate) fn wants_kept(&self) -> bool
        ensures { result ≡ wants_kept (kept_side self.now) }
    {
        if self.is_left {
            return wants_left(self.rules.how);
        }
        wants_right(self.rules.how)
    }

    /// The kept row from which on those are given that no row finds: the first one, or none where the kind has them not.
    pub(crate) fn first_alone(&self) -> usize
        ensures wanted { wants_kept (kept_side self.now) ≡ true → result ≡ 0 }
        ensures unwanted { wants_kept (kept_side self.now) ≡ false → result ≡ length self.now.kept.rows }
    {
        if self.wants_kept() {
            return 0;
        }
        self.kept.height()
    }

    /// The rows of items, whose rows and kept rows have these numbers; `u32::MAX` where there is none.
    pub(crate) fn gather(
        &self,
        alloc: Global,
        asked: &Frame,
        asked_rows: &[u32],
        kept_rows: &[u32],
    ) -> Result<Frame, Fault>
        requires built { IsBuild self.now }
        requires columns { asked.now.schema ≡ self.now.asked }
        requires short { length asked.now.rows < 2 ^ 32 }
        requires len { length kept_rows.now ≡ length asked_rows.now }
        ensures ok { IfOk result (λ out. (items : List JoinItem) → asked_rows.now ≡ map left_mark items → kept_rows.now ≡ map right_mark items → out ≡ record { schema = self.now.rules.output; rows = map (side_row (kept_side self.now) asked.now.rows) items }) }
        ensures schema { IfOk result (λ out. out.schema ≡ self.now.rules.output) }
        ensures out_of_memory { IsOkUnless result OutOfMemory }
    {
        if self.is_left {
            return Ok(gather_exchanged(
                alloc,
                &self.rules,
                asked,
                &self.kept,
                asked_rows,
                kept_rows,
            )?);
        }
        Ok(gather_straight(alloc, &self.rules, asked, &self.kept, asked_rows, kept_rows)?)
    }

    /// Puts what rows with these numbers find last, from a cursor on, until there are so many. The answer is the cursor to the next that is left.
    pub(crate) fn find(
        &self,
        numbers: &[u32],
        from: Cursor,
        limit: usize,
        lefts: &mut Vec<u32>,
        rights: &mut Vec<u32>,
    ) -> Result<Cursor, Fault>
        requires built { IsBuild self.now }
        requires short { length numbers.now < 2 ^ 32 }
        requires within { from.link ≤ length self.now.keyed.next.items }
        requires room { length lefts.old.items ≤ limit }
        requires len { length rights.old.items ≡ length lefts.old.items }
        ensures ok { IfOk result (λ cursor. (items : List JoinItem) → AreItemsIn self.now numbers.now from items → FindsItems self.now numbers.now items lefts.old.items rights.old.items lefts.new.items rights.new.items cursor) }
        ensures within { IfOk result (λ cursor. cursor.link ≤ length self.now.keyed.next.items) }
        ensures full { IfOk result (λ cursor. ((cursor.link ≡ 0) × (length numbers.now ≤ cursor.at)) ⊎ (length lefts.new.items ≡ limit)) }
        ensures settled { IfOk result (λ cursor. (items : List JoinItem) → AreItemsIn self.now numbers.now cursor items → items ≡ [] → (cursor.link ≡ 0) × (length numbers.now ≤ cursor.at)) }
        ensures room { IfOk result (λ cursor. length lefts.new.items ≤ limit) }
        ensures len { IfOk result (λ cursor. length rights.new.items ≡ length lefts.new.items) }
        ensures out_of_memory { IsOkUnless result OutOfMemory }
    {
        let wanted = self.wants_asked();
        let cursor = find_some(
            &self.keyed.first,
            &self.keyed.next,
            numbers,
            wanted,
            from,
            limit,
            lefts,
            rights,
        )?;
        Ok(cursor)
    }

    /// Puts those kept rows from one on last alone whose keys are not marked, until there are so many. The answer is the next such row.
    pub(crate) fn find_alone(
        &self,
        seen: &[bool],
        from: usize,
        limit: usize,
        lefts: &mut Vec<u32>,
        rights: &mut Vec<u32>,
    ) -> Result<usize, Fault>
        requires built { IsBuild self.now }
        requires room { length lefts.old.items ≤ limit }
        requires len { length rights.old.items ≡ length lefts.old.items }
        ensures ok { IfOk result (λ at. PutsFirst (unmarked_items seen.now self.now.keyed.numbers.items from) (unmarked_items seen.now self.now.keyed.numbers.items at) lefts.old.items rights.old.items lefts.new.items rights.new.items) }
        ensures full { IfOk result (λ at. (length self.now.kept.rows ≤ at) ⊎ (length lefts.new.items ≡ limit)) }
        ensures settled { IfOk result (λ at. unmarked_items seen.now self.now.keyed.numbers.items at ≡ [] → length self.now.kept.rows ≤ at) }
        ensures room { IfOk result (λ at. length lefts.new.items ≤ limit) }
        ensures len { IfOk result (λ at. length rights.new.items ≡ length lefts.new.items) }
        ensures out_of_memory { IsOkUnless result OutOfMemory }
    {
        let at = find_lone(seen, &self.keyed.numbers, from, limit, lefts, rights)?;
        Ok(at)
    }
}

/// The rows of items where the right rows are kept.
fn gather_straight(
    alloc: Global,
    rules: &JoinRules,
    asked: &Frame,
    kept: &Frame,
    asked_rows: &[u32],
    kept_rows: &[u32],
) -> Result<Frame, Fault>
    requires fit { FitRules asked.now.schema kept.now.schema rules.now }
    requires asked_short { length asked.now.rows < 2 ^ 32 }
    requires kept_short { length kept.now.rows < 2 ^ 32 }
    requires len { length kept_rows.now ≡ length asked_rows.now }
    ensures ok { IfOk result (λ out. (items : List JoinItem) → asked_rows.now ≡ map left_mark items → kept_rows.now ≡ map right_mark items → out ≡ record { schema = rules.now.output; rows = map (side_row (record { rules = rules.now; is_left = false; rows = kept.now.rows }) asked.now.rows) items }) }
    ensures schema { IfOk result (λ out. out.schema ≡ rules.now.output) }
    ensures out_of_memory { IsOkUnless result OutOfMemory }
{
    let out = gather_rows(alloc, asked, kept, rules, asked_rows, kept_rows)?;
    Ok(out)
}

/// The rows of items where the left rows are kept.
fn gather_exchanged(
    alloc: Global,
    rules: &JoinRules,
    asked: &Frame,
    kept: &Frame,
    asked_rows: &[u32],
    kept_rows: &[u32],
) -> Result<Frame, Fault>
    requires fit { FitRules kept.now.schema asked.now.schema rules.now }
    requires asked_short { length asked.now.rows < 2 ^ 32 }
    requires kept_short { length kept.now.rows < 2 ^ 32 }
    requires len { length kept_rows.now ≡ length asked_rows.now }
    ensures ok { IfOk result (λ out. (items : List JoinItem) → asked_rows.now ≡ map left_mark items → kept_rows.now ≡ map right_mark items → out ≡ record { schema = rules.now.output; rows = map (side_row (record { rules = rules.now; is_left = true; rows = kept.now.rows }) asked.now.rows) items }) }
    ensures schema { IfOk result (λ out. out.schema ≡ rules.now.output) }
    ensures out_of_memory { IsOkUnless result OutOfMemory }
{
    let out = gather_rows(alloc, kept, asked, rules, kept_rows, asked_rows)?;
    Ok(out)
}

/// The rows of the side that is kept, by their keys.
fn keyed_side(
    alloc: Global,
    rules: &JoinRules,
    is_left: bool,
    kept: &Frame,
) -> Result<KeyedRows, Fault>
    requires fit { (asked : List Field) × FitSides is_left kept.now.schema asked rules.now }
    requires short { length kept.now.rows < 2 ^ 32 }
    ensures ok { IfOk result (λ keyed. AreKeyed rules.now.join_nulls (kept_keys (record { rules = rules.now; is_left = is_left; rows = kept.now.rows })) rules.now.kinds.items kept.now.rows keyed) }
    ensures out_of_memory { IsOkUnless result OutOfMemory }
{
    if is_left {
        return Ok(keyed_rows(
            alloc,
            kept,
            &rules.left_keys,
            &rules.kinds,
            rules.join_nulls,
        )?);
    }
    Ok(keyed_rows(
        alloc,
        kept,
        &rules.right_keys,
        &rules.kinds,
        rules.join_nulls,
    )?)
}

/// The rows of frames of these columns, one frame after the other.
fn stacked(alloc: Global, columns: Schema, frames: Vec<Frame>) -> Result<Frame, Fault>
    requires columns { All (λ frame. frame.schema ≡ columns) frames.items }
    ensures ok { IfOk result (λ all. all ≡ record { schema = columns; rows = rows_of_tables frames.items }) }
    ensures short { IfOk result (λ all. length all.rows < 2 ^ 32) }
    ensures out_of_memory { IsOkUnless result OutOfMemory }
{
    let mut all = Frame::empty(alloc, columns);
    for frame in frames {
        let Ok(()) = stack(&mut all, &frame) else {
            return Err(Fault::OutOfMemory);
        };
    }
    Ok(all)
}

/// Puts the rows of a frame last.
fn stack(all: &mut Frame, frame: &Frame) -> Result<(), Fault>
    requires columns { frame.now.schema ≡ all.old.schema }
    requires short { length all.old.rows < 2 ^ 32 }
    ensures ok { OnOk result (all.new ≡ record all.old { rows = all.old.rows ++ frame.now.rows }) }
    ensures short { OnOk result (length all.new.rows < 2 ^ 32) }
    ensures out_of_memory { IsOkUnless result OutOfMemory }
{
    let most = u32::MAX as usize;
    if frame.height() > most - all.height() {
        return Err(Fault::OutOfMemory);
    }
    match all.vstack(frame) {
        Ok(()) => Ok(()),
        Err(_) => Err(Fault::OutOfMemory),
    }
}
