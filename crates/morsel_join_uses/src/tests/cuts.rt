//! Joins whose rows are looked up by morsels of so many, one after the other, each of which gives at most as many rows at a time. The kept rows
//! come in two frames, and those that none finds come last.
ghost use Rattle.std.specs.Prelude.{◌≡◌, ◌<◌, ◌^◌, true, false, length, IfOk, OnOk};
ghost use Rattle.std.specs.Arc.{arc_value};
ghost use Rattle.std.specs.List.{All};
ghost use Rattle.morsel_join.specs.BuildSides.{IsBuild};
ghost use Rattle.morsel_join.specs.Hits.{AreMarks};
ghost use Rattle.morsel_join.specs.LoneRows.{AreLone};
ghost use Rattle.morsel_join.specs.Probings.{IsProbing};
ghost use Rattle.morsel_join.specs.Rows.{FitRules, keeps_left};
ghost use Rattle.morsel_join.specs.Sides.{FitSides};

use super::plain::are_joined;
use super::tables::{ASKED, Asked, Found, Tables, asked_of, put_rows, rules_of, tables_of};
use morsel_frame::{Frame, Schema};
use morsel_join::{Build, Hits, JoinRules, LoneRows, Probing};
use morsel_meaning::Fault;
use std::alloc::Global;
use std::mem::drop;
use std::sync::Arc;
use std::test::Fail;

/// More calls than any test makes for one morsel.
const CALLS: usize = 1000;

/// Puts those of so many rows of a frame from one on that there are last.
fn put_part(
    alloc: Global,
    frame: &Frame,
    from: usize,
    len: usize,
    parts: &mut Vec<Frame>,
) -> Result<(), Fault>
    requires { All (λ part. part.schema ≡ frame.now.schema) parts.old.items }
    ensures { OnOk result (All (λ part. part.schema ≡ frame.now.schema) parts.new.items) }
{
    parts.push(frame.slice(alloc, from, len)?)?;
    Ok(())
}

/// The first so many rows of a frame, and those that follow.
fn parts_of(alloc: Global, frame: &Frame, size: usize) -> Result<Vec<Frame>, Fault>
    ensures { IfOk result (λ parts. All (λ part. part.schema ≡ frame.now.schema) parts.items) }
{
    let mut parts = Vec::new(alloc);
    put_part(alloc, frame, 0, size, &mut parts)?;
    put_part(alloc, frame, size, frame.height(), &mut parts)?;
    Ok(parts)
}

/// The columns of the kept and of the other table.
#[derive(Drop)]
struct Sides {
    kept: Schema,
    asked: Schema,
}

fn sides_of(kept: &Frame, asked: &Frame) -> Result<Sides, Fault>
    ensures kept { IfOk result (λ sides. sides.kept ≡ kept.now.schema) }
    ensures asked { IfOk result (λ sides. sides.asked ≡ asked.now.schema) }
{
    let kept = kept.schema().again()?;
    let asked = asked.schema().again()?;
    Ok(Sides { kept, asked })
}

fn build_between(
    alloc: Global,
    rules: JoinRules,
    sides: Sides,
    kept: &Frame,
    size: usize,
) -> Result<Build, Fault>
    requires fit { FitSides (keeps_left rules.how rules.maintain_order) sides.kept sides.asked rules }
    requires columns { sides.kept ≡ kept.now.schema }
    ensures built { IfOk result IsBuild }
    ensures asked { IfOk result (λ build. build.asked ≡ sides.asked) }
{
    let parts = parts_of(alloc, kept, size)?;
    Build::new(alloc, rules, sides.kept, parts, sides.asked)
}

/// The kept side of the rows of one frame, which come in two, for rows with the columns of another.
fn build_of(
    alloc: Global,
    rules: JoinRules,
    kept: &Frame,
    asked: &Frame,
    size: usize,
) -> Result<Build, Fault>
    requires { FitSides (keeps_left rules.how rules.maintain_order) kept.now.schema asked.now.schema rules }
    ensures built { IfOk result IsBuild }
    ensures asked { IfOk result (λ build. build.asked ≡ asked.now.schema) }
{
    let sides = sides_of(kept, asked)?;
    build_between(alloc, rules, sides, kept, size)
}

/// The same, shared.
fn shared_of(
    alloc: Global,
    rules: JoinRules,
    kept: &Frame,
    asked: &Frame,
    size: usize,
) -> Result<Arc<Build, Global>, Fault>
    requires { FitSides (keeps_left rules.how rules.maintain_order) kept.now.schema asked.now.schema rules }
    ensures built { IfOk result (λ build. IsBuild (arc_value build)) }
    ensures asked { IfOk result (λ build. (arc_value build).asked ≡ asked.now.schema) }
{
    let build = build_of(alloc, rules, kept, asked, size)?;
    Ok(Arc::new(alloc, build)?)
}

/// Puts the next of the rows that are found last. The answer is whether there are no more.
fn put_next(
    alloc: Global,
    probing: &mut Probing,
    limit: usize,
    rows: &mut Vec<Found>,
) -> Result<bool, Fault>
    requires probing { IsProbing probing.old }
    requires some { 0 < limit }
    ensures probing { IsProbing probing.new }
{
    let some = probing.next(alloc, limit)?;
    put_rows(&some.frame, rows)?;
    Ok(some.last)
}

/// Puts all rows that are found last.
fn put_found(
    alloc: Global,
    probing: &mut Probing,
    limit: usize,
    rows: &mut Vec<Found>,
) -> Result<(), Fault>
    requires probing { IsProbing probing.old }
    requires some { 0 < limit }
{
    'calls: for _ in 0..CALLS {
        if put_next(alloc, probing, limit, rows)? {
            return Ok(());
        }
    }
    Err(Fault::Usage)
}

/// Marks what is found apart, and joins the marks.
fn join_marks(alloc: Global, probing: &Probing, hits: &mut Hits) -> Result<(), Fault>
    requires probing { IsProbing probing.now }
    requires marks { AreMarks (arc_value probing.now.build) hits.old.seen.items }
    ensures marks { AreMarks (arc_value probing.now.build) hits.new.seen.items }
{
    let mut own = Hits::new(alloc, &probing.build)?;
    probing.mark(&mut own);
    hits.join(&own);
    Ok(())
}

/// So many of the rows from one on.
fn slice_of(alloc: Global, asked: &Frame, from: usize, size: usize) -> Result<Frame, Fault>
    ensures columns { IfOk result (λ morsel. morsel.schema ≡ asked.now.schema) }
    ensures short { IfOk result (λ morsel. length morsel.rows < 2 ^ 32) }
{
    let morsel = asked.slice(alloc, from, size)?;
    if morsel.height() > 1000 {
        drop(morsel);
        return Err(Fault::Usage);
    }
    Ok(morsel)
}

/// So many of the rows from one on, which are looked up.
fn probing_of(
    alloc: Global,
    build: &Arc<Build, Global>,
    asked: &Frame,
    from: usize,
    size: usize,
) -> Result<Probing, Fault>
    requires built { IsBuild (arc_value build.now) }
    requires columns { asked.now.schema ≡ (arc_value build.now).asked }
    ensures probing { IfOk result IsProbing }
    ensures build { IfOk result (λ probing. arc_value probing.build ≡ arc_value build.now) }
{
    let morsel = slice_of(alloc, asked, from, size)?;
    Probing::new(alloc, build.clone()?, morsel)
}

/// Puts what the rows of a morsel find last.
fn put_morsel(
    alloc: Global,
    probing: &mut Probing,
    limit: usize,
    hits: &mut Hits,
    rows: &mut Vec<Found>,
) -> Result<(), Fault>
    requires probing { IsProbing probing.old }
    requires some { 0 < limit }
    requires marks { AreMarks (arc_value probing.old.build) hits.old.seen.items }
    ensures marks { AreMarks (arc_value probing.old.build) hits.new.seen.items }
{
    join_marks(alloc, probing, hits)?;
    put_found(alloc, probing, limit, rows)
}

/// Puts what the rows find that begin with one, so many of them.
fn put_morsel_at(
    alloc: Global,
    build: &Arc<Build, Global>,
    asked: &Frame,
    from: usize,
    size: usize,
    hits: &mut Hits,
    rows: &mut Vec<Found>,
) -> Result<(), Fault>
    requires built { IsBuild (arc_value build.now) }
    requires columns { asked.now.schema ≡ (arc_value build.now).asked }
    requires some { 0 < size }
    requires marks { AreMarks (arc_value build.now) hits.old.seen.items }
    ensures marks { AreMarks (arc_value build.now) hits.new.seen.items }
{
    let mut probing = probing_of(alloc, build, asked, from, size)?;
    put_morsel(alloc, &mut probing, size, hits, rows)
}

/// Puts what rows find last, by morsels of so many.
fn put_morsels(
    alloc: Global,
    build: &Arc<Build, Global>,
    asked: &Frame,
    size: usize,
    hits: &mut Hits,
    rows: &mut Vec<Found>,
) -> Result<(), Fault>
    requires built { IsBuild (arc_value build.now) }
    requires columns { asked.now.schema ≡ (arc_value build.now).asked }
    requires some { 0 < size }
    requires marks { AreMarks (arc_value build.now) hits.old.seen.items }
    ensures marks { AreMarks (arc_value build.now) hits.new.seen.items }
{
    for at in 0..asked.height().div_ceil(size) {
        put_morsel_at(alloc, build, asked, at.wrapping_mul(size), size, hits, rows)?;
    }
    Ok(())
}

/// Puts the next of the rows that are alone last. The answer is whether there are no more.
fn put_next_lone(
    alloc: Global,
    lone: &mut LoneRows,
    limit: usize,
    rows: &mut Vec<Found>,
) -> Result<bool, Fault>
    requires lone { AreLone lone.old }
    requires some { 0 < limit }
    ensures lone { AreLone lone.new }
{
    let some = lone.next(alloc, limit)?;
    put_rows(&some.frame, rows)?;
    Ok(some.last)
}

/// Puts all rows that are alone last.
fn put_lone(
    alloc: Global,
    lone: &mut LoneRows,
    limit: usize,
    rows: &mut Vec<Found>,
) -> Result<(), Fault>
    requires lone { AreLone lone.old }
    requires some { 0 < limit }
{
    'calls: for _ in 0..CALLS {
        if put_next_lone(alloc, lone, limit, rows)? {
            return Ok(());
        }
    }
    Err(Fault::Usage)
}

/// Puts the rows that are found last. The answer is the marks of the kept rows that are.
fn put_found_of(
    alloc: Global,
    build: &Arc<Build, Global>,
    asked: &Frame,
    size: usize,
    rows: &mut Vec<Found>,
) -> Result<Hits, Fault>
    requires built { IsBuild (arc_value build.now) }
    requires columns { asked.now.schema ≡ (arc_value build.now).asked }
    requires some { 0 < size }
    ensures { IfOk result (λ hits. AreMarks (arc_value build.now) hits.seen.items) }
{
    let mut hits = Hits::new(alloc, build)?;
    put_morsels(alloc, build, asked, size, &mut hits, rows)?;
    Ok(hits)
}

/// Puts the rows that are found last. The answer is the kept rows that none finds.
fn lone_of(
    alloc: Global,
    build: Arc<Build, Global>,
    asked: &Frame,
    size: usize,
    rows: &mut Vec<Found>,
) -> Result<LoneRows, Fault>
    requires built { IsBuild (arc_value build) }
    requires columns { asked.now.schema ≡ (arc_value build).asked }
    requires some { 0 < size }
    ensures { IfOk result AreLone }
{
    let hits = put_found_of(alloc, &build, asked, size, rows)?;
    LoneRows::new(alloc, build, hits)
}

/// Puts the rows of a join with a kept side last.
fn put_all(
    alloc: Global,
    build: Arc<Build, Global>,
    asked: &Frame,
    size: usize,
    rows: &mut Vec<Found>,
) -> Result<(), Fault>
    requires built { IsBuild (arc_value build) }
    requires columns { asked.now.schema ≡ (arc_value build).asked }
    requires some { 0 < size }
{
    let mut lone = lone_of(alloc, build, asked, size, rows)?;
    put_lone(alloc, &mut lone, size, rows)
}

/// Puts the rows of a join last, of which one table is kept and the other one is looked up.
fn put_looked_up(
    alloc: Global,
    rules: JoinRules,
    kept: &Frame,
    asked: &Frame,
    size: usize,
    rows: &mut Vec<Found>,
) -> Result<(), Fault>
    requires fit { FitSides (keeps_left rules.how rules.maintain_order) kept.now.schema asked.now.schema rules }
    requires some { 0 < size }
{
    let build = shared_of(alloc, rules, kept, asked, size)?;
    put_all(alloc, build, asked, size, rows)
}

fn put_left_kept(
    alloc: Global,
    rules: JoinRules,
    left: &Frame,
    right: &Frame,
    size: usize,
    rows: &mut Vec<Found>,
) -> Result<(), Fault>
    requires keeps { keeps_left rules.how rules.maintain_order ≡ true }
    requires fit { FitRules left.now.schema right.now.schema rules }
    requires some { 0 < size }
{
    put_looked_up(alloc, rules, left, right, size, rows)
}

fn put_right_kept(
    alloc: Global,
    rules: JoinRules,
    left: &Frame,
    right: &Frame,
    size: usize,
    rows: &mut Vec<Found>,
) -> Result<(), Fault>
    requires keeps { keeps_left rules.how rules.maintain_order ≡ false }
    requires fit { FitRules left.now.schema right.now.schema rules }
    requires some { 0 < size }
{
    put_looked_up(alloc, rules, right, left, size, rows)
}

/// Puts the rows of a join of two tables last.
fn put_join(
    alloc: Global,
    tables: &Tables,
    asked: Asked,
    size: usize,
    rows: &mut Vec<Found>,
) -> Result<(), Fault>
    requires some { 0 < size }
{
    let left = &tables.left;
    let right = &tables.right;
    let rules = rules_of(
        alloc,
        left.schema(),
        right.schema(),
        &[("k", "k")],
        asked,
        "_right",
    )?;
    if rules.keeps_left() {
        put_left_kept(alloc, rules, left, right, size, rows)
    } else {
        put_right_kept(alloc, rules, left, right, size, rows)
    }
}

/// Puts the rows of a join of tables of these keys last, by morsels of so many rows.
pub fn put_join_of(
    alloc: Global,
    lefts: &[Option<i64>],
    rights: &[Option<i64>],
    asked: Asked,
    size: usize,
    rows: &mut Vec<Found>,
) -> Result<(), Fault>
    requires some { 0 < size }
{
    let tables = tables_of(alloc, lefts, rights)?;
    put_join(alloc, &tables, asked, size, rows)
}

const LEFTS: [Option<i64>; 5] = [Some(1), None, Some(2), Some(1), Some(3)];

const RIGHTS: [Option<i64>; 6] = [Some(1), Some(1), None, Some(4), Some(2), Some(1)];

/// Whether the rows of a join by morsels of so many rows are those of the definition.
fn is_join_by(alloc: Global, asked: Asked, size: usize) -> Result<bool, Fault>
    requires some { 0 < size }
{
    let mut rows = Vec::new(alloc);
    put_join_of(alloc, &LEFTS, &RIGHTS, asked, size, &mut rows)?;
    Ok(are_joined(asked, &LEFTS, &RIGHTS, &rows))
}

#[test]
fn rows_that_come_some_at_a_time_are_those_of_the_definition(rt: HostRuntime) -> Result<(), Fail> {
    for number in 0..ASKED {
        for size in 1..8 {
            assert!(rt;
                is_join_by(rt.alloc(), asked_of(number), size)?,
                "{number} by {size}"
            );
        }
    }
    Ok(())
}
