//! The kept rows that no row finds, some at a time.
ghost use Rattle.std.specs.Prelude.{◌≡◌, ◌<◌, ◌≤◌, true, List, [], IfOk, OnErr, IsOkUnless};
ghost use Rattle.std.specs.Arc.{arc_value};
ghost use Rattle.morsel_meaning.specs.declared.fault.Fault.TheVariants.{OutOfMemory};
ghost use Rattle.morsel_meaning.specs.Values.{Row};
ghost use Rattle.morsel_join.specs.BuildSides.{IsBuild, kept_side};
ghost use Rattle.morsel_join.specs.Cuts.{GivesSome};
ghost use Rattle.morsel_join.specs.Hits.{AreMarks, HaveHit};
ghost use Rattle.morsel_join.specs.LoneRows.{AreLone, LeavesAlone, rows_alone_from};
ghost use Rattle.morsel_join.specs.Sides.{rows_alone};

use crate::build_side::Build;
use crate::hits::Hits;
use crate::some_rows::SomeRows;
use morsel_frame::Frame;
use morsel_meaning::Fault;
use std::alloc::Global;
use std::sync::Arc;

/// The kept rows of a join that no row finds, where its kind has them.
#[derive(Drop)]
pub struct LoneRows {
    /// The kept side.
    pub build: Arc<Build, Global>,
    /// Which of its rows were found.
    pub hits: Hits,
    // No rows of the other side.
    none: Frame,
    at: usize,
}

impl LoneRows {
    /// The rows whose keys are not marked, of which nothing was given.
    pub fn new(alloc: Global, build: Arc<Build, Global>, hits: Hits) -> Result<LoneRows, Fault>
        requires built { IsBuild (arc_value build) }
        requires marks { AreMarks (arc_value build) hits.seen.items }
        ensures lone { IfOk result AreLone }
        ensures build { IfOk result (λ lone. arc_value lone.build ≡ arc_value build) }
        ensures all { IfOk result (λ lone. (asked : List Row) → HaveHit (arc_value build) hits.seen.items asked → LeavesAlone lone (rows_alone (kept_side (arc_value build)) asked)) }
        ensures out_of_memory { IsOkUnless result OutOfMemory }
    {
        let columns = build.asked.again()?;
        let at = build.first_alone();
        Ok(LoneRows {
            build,
            hits,
            none: Frame::empty(alloc, columns),
            at,
        })
    }

    /// The next of the rows that are alone, so many where there are as many. On an error nothing was given.
    pub fn next(&mut self, alloc: Global, rows: usize) -> Result<SomeRows, Fault>
        requires lone { AreLone self.old }
        requires some { 0 < rows }
        ensures lone { AreLone self.new }
        ensures build { self.new.build ≡ self.old.build }
        ensures hits { self.new.hits ≡ self.old.hits }
        ensures rows { (rest : List Row) → LeavesAlone self.old rest → IfOk result (λ some. GivesSome (LeavesAlone self.new) rows rest some) }
        ensures columns { IfOk result (λ some. some.frame.schema ≡ (arc_value self.old.build).rules.output) }
        ensures err { OnErr result (self.new ≡ self.old) }
        ensures out_of_memory { IsOkUnless result OutOfMemory }
    {
        let (some, at) = alone_from(
            alloc,
            &self.build,
            &self.none,
            &self.hits.seen,
            self.at,
            rows,
        )?;
        self.at = at;
        Ok(some)
    }
}

/// The next of the kept rows from a place on whose keys are not marked, so many where there are as many, and the place of the next one.
fn alone_from(
    alloc: Global,
    build: &Build,
    none: &Frame,
    seen: &[bool],
    from: usize,
    limit: usize,
) -> Result<(SomeRows, usize), Fault>
    requires built { IsBuild build.now }
    requires blank { none.now ≡ record { schema = build.now.asked; rows = [] } }
    requires some { 0 < limit }
    ensures rows { IfOk result (λ found. GivesSome (λ rest. rest ≡ rows_alone_from build.now seen.now found.1) limit (rows_alone_from build.now seen.now from) found.0) }
    ensures columns { IfOk result (λ found. found.0.frame.schema ≡ build.now.rules.output) }
    ensures out_of_memory { IsOkUnless result OutOfMemory }
{
    let mut lefts = Vec::new(alloc);
    let mut rights = Vec::new(alloc);
    let at = build.find_alone(seen, from, limit, &mut lefts, &mut rights)?;
    let frame = build.gather(alloc, none, &lefts, &rights)?;
    let last = is_past(at, build.height());
    Ok((SomeRows { frame, last }, at))
}

/// Whether a place is past so many rows.
fn is_past(at: usize, height: usize) -> bool
    ensures past { result ≡ true → height ≤ at }
    ensures all { height ≤ at → result ≡ true }
{
    at >= height
}
