//! Rows of one side of a join that are looked up in the kept side, and what they find there, some at a time.
ghost use Rattle.std.specs.Prelude.{◌≡◌, ◌<◌, ◌≤◌, ◌^◌, ◌++◌, List, length, IfOk, OnErr, IsOkUnless};
ghost use Rattle.std.specs.Arc.{arc_value};
ghost use Rattle.morsel_meaning.specs.declared.fault.Fault.TheVariants.{OutOfMemory};
ghost use Rattle.morsel_meaning.specs.Values.{Row};
ghost use Rattle.morsel_join.specs.BuildSides.{IsBuild, kept_side};
ghost use Rattle.morsel_join.specs.Cuts.{GivesSome};
ghost use Rattle.morsel_join.specs.Hits.{AreMarks, HaveHit};
ghost use Rattle.morsel_join.specs.Probings.{AreFoundFrom, AreNumbersOf, IsProbing, LooksUp};
ghost use Rattle.morsel_join.specs.Sides.{rows_found};

use crate::build_side::Build;
use crate::hits::Hits;
use crate::probe::mark_seen;
use crate::probe_some::Cursor;
use crate::some_rows::SomeRows;
use morsel_frame::Frame;
use morsel_meaning::Fault;
use std::alloc::Global;
use std::sync::Arc;

/// Rows that are looked up in a kept side.
#[derive(Drop)]
pub struct Probing {
    /// The kept side.
    pub build: Arc<Build, Global>,
    /// The rows.
    pub frame: Frame,
    // The numbers of their keys among those of the kept rows.
    numbers: Vec<u32>,
    cursor: Cursor,
}

impl Probing {
    /// The rows of a frame, of which nothing was given.
    pub fn new(alloc: Global, build: Arc<Build, Global>, frame: Frame) -> Result<Probing, Fault>
        requires built { IsBuild (arc_value build) }
        requires columns { frame.schema ≡ (arc_value build).asked }
        requires short { length frame.rows < 2 ^ 32 }
        ensures probing { IfOk result IsProbing }
        ensures build { IfOk result (λ probing. arc_value probing.build ≡ arc_value build) }
        ensures frame { IfOk result (λ probing. probing.frame ≡ frame) }
        ensures all { IfOk result (λ probing. LooksUp probing (rows_found (kept_side (arc_value build)) frame.rows)) }
        ensures out_of_memory { IsOkUnless result OutOfMemory }
    {
        let numbers = build.numbers(alloc, &frame)?;
        let cursor = Cursor {
            at: 0,
            row: 0,
            link: 0,
        };
        Ok(Probing {
            build,
            frame,
            numbers,
            cursor,
        })
    }

    /// Marks the kept rows that the rows find.
    pub fn mark(&self, hits: &mut Hits)
        requires probing { IsProbing self.now }
        requires marks { AreMarks (arc_value self.now.build) hits.old.seen.items }
        ensures marks { AreMarks (arc_value self.now.build) hits.new.seen.items }
        ensures hit { (asked : List Row) → HaveHit (arc_value self.now.build) hits.old.seen.items asked → HaveHit (arc_value self.now.build) hits.new.seen.items (asked ++ self.now.frame.rows) }
    {
        mark_seen(&mut hits.seen, &self.numbers);
    }

    /// The next of the rows that are found, so many where there are as many. On an error nothing was given.
    pub fn next(&mut self, alloc: Global, rows: usize) -> Result<SomeRows, Fault>
        requires probing { IsProbing self.old }
        requires some { 0 < rows }
        ensures probing { IsProbing self.new }
        ensures build { self.new.build ≡ self.old.build }
        ensures frame { self.new.frame ≡ self.old.frame }
        ensures rows { (rest : List Row) → LooksUp self.old rest → IfOk result (λ some. GivesSome (LooksUp self.new) rows rest some) }
        ensures columns { IfOk result (λ some. some.frame.schema ≡ (arc_value self.old.build).rules.output) }
        ensures err { OnErr result (self.new ≡ self.old) }
        ensures out_of_memory { IsOkUnless result OutOfMemory }
    {
        let (some, cursor) = found_from(
            alloc,
            &self.build,
            &self.frame,
            &self.numbers,
            self.cursor,
            rows,
        )?;
        self.cursor = cursor;
        Ok(some)
    }
}

/// The next of the rows that are found from a cursor on, so many where there are as many, and the cursor to what is left.
fn found_from(
    alloc: Global,
    build: &Build,
    asked: &Frame,
    numbers: &[u32],
    from: Cursor,
    limit: usize,
) -> Result<(SomeRows, Cursor), Fault>
    requires built { IsBuild build.now }
    requires columns { asked.now.schema ≡ build.now.asked }
    requires short { length asked.now.rows < 2 ^ 32 }
    requires numbers { AreNumbersOf build.now asked.now.rows numbers.now }
    requires within { from.link ≤ length build.now.keyed.next.items }
    requires some { 0 < limit }
    ensures rows { IfOk result (λ found. (rest : List Row) → AreFoundFrom build.now asked.now.rows from rest → GivesSome (AreFoundFrom build.now asked.now.rows found.1) limit rest found.0) }
    ensures within { IfOk result (λ found. found.1.link ≤ length build.now.keyed.next.items) }
    ensures columns { IfOk result (λ found. found.0.frame.schema ≡ build.now.rules.output) }
    ensures out_of_memory { IsOkUnless result OutOfMemory }
{
    let mut lefts = Vec::new(alloc);
    let mut rights = Vec::new(alloc);
    let cursor = build.find(numbers, from, limit, &mut lefts, &mut rights)?;
    let frame = build.gather(alloc, asked, &lefts, &rights)?;
    let last = cursor.is_end(numbers.len());
    Ok((SomeRows { frame, last }, cursor))
}
