//! Joins: rows that are kept by a key of whole numbers, and ten times as many that are looked up in them.
ghost use Rattle.std.specs.Prelude.{◌≡◌, false, All, IfOk};
ghost use Rattle.std.specs.Arc.{arc_value};
ghost use Rattle.morsel_join.specs.BuildSides.{IsBuild};
ghost use Rattle.morsel_join.specs.Probings.{IsProbing};
ghost use Rattle.morsel_join.specs.Rows.{FitRules, keeps_left};

use crate::tables::{PIECE, drawn_rows, pieces_of, rules_of};
use morsel_frame::Frame;
use morsel_join::{Build, JoinRules, Probing};
use morsel_meaning::Fault;
use morsel_timing::{Best, Timing, now, tell};
use std::alloc::Global;
use std::mem::drop;
use std::rt::Clock;
use std::sync::Arc;

/// How many times as many rows are looked up as are kept.
const SHARE: usize = 10;

/// More calls than a piece's rows need.
const CALLS: usize = 1000000;

/// Runs each part: so many rows are looked up in a tenth of them.
pub fn run<R: Clock + Print + AllocGlobal>(
    rt: &R,
    timing: Timing,
    rows: usize,
) -> Result<(), Fault> {
    let size = rows / SHARE;
    let kept = drawn_rows(rt.alloc(), size, size)?;
    let asked = drawn_rows(rt.alloc(), rows, size)?;
    let best = time_build(rt, timing, &kept, &asked)?;
    tell(rt, timing, "rows kept by a key", best, size)?;
    let best = time_probe(rt, timing, &kept, &asked)?;
    tell(rt, timing, "rows looked up by a key, found", best, rows)
}

/// The kept side of these pieces of a frame, for the rows of another one.
fn build_of(
    alloc: Global,
    rules: JoinRules,
    kept: &Frame,
    pieces: Vec<Frame>,
    asked: &Frame,
) -> Result<Build, Fault>
    requires keeps { keeps_left rules.how rules.maintain_order ≡ false }
    requires fit { FitRules asked.now.schema kept.now.schema rules }
    requires columns { All (λ piece. piece.schema ≡ kept.now.schema) pieces.items }
    ensures built { IfOk result IsBuild }
    ensures asked { IfOk result (λ build. build.asked ≡ asked.now.schema) }
{
    let columns = kept.schema().again()?;
    let others = asked.schema().again()?;
    Build::new(alloc, rules, columns, pieces, others)
}

/// The rows of a frame, kept by their keys for the rows of another one.
fn kept_side(alloc: Global, kept: &Frame, asked: &Frame) -> Result<Build, Fault>
    ensures built { IfOk result IsBuild }
    ensures asked { IfOk result (λ build. build.asked ≡ asked.now.schema) }
{
    let rules = rules_of(alloc, asked.schema(), kept.schema())?;
    if rules.keeps_left() {
        return Err(Fault::Usage);
    }
    let pieces = pieces_of(alloc, kept)?;
    build_of(alloc, rules, kept, pieces, asked)
}

/// The rows of a frame are kept by their keys. How many there are.
fn time_build<R: Clock + AllocGlobal>(
    rt: &R,
    timing: Timing,
    kept: &Frame,
    asked: &Frame,
) -> Result<Best, Fault> {
    let mut best = Best::new();
    for _ in 0..timing.runs {
        let begun = now(rt)?;
        drop(kept_side(rt.alloc(), kept, asked)?);
        best.take_in(rt, begun, kept.height())?;
    }
    Ok(best)
}

/// The rows of one frame are looked up in those of the other. How many rows are found.
fn time_probe<R: Clock + AllocGlobal>(
    rt: &R,
    timing: Timing,
    kept: &Frame,
    asked: &Frame,
) -> Result<Best, Fault> {
    let build = Arc::new(rt.alloc(), kept_side(rt.alloc(), kept, asked)?)?;
    time_look_ups(rt, timing, &build, asked)
}

/// The rows of a frame are looked up in a kept side. How many rows are found.
fn time_look_ups<R: Clock + AllocGlobal>(
    rt: &R,
    timing: Timing,
    build: &Arc<Build, Global>,
    asked: &Frame,
) -> Result<Best, Fault>
    requires built { IsBuild (arc_value build.now) }
    requires columns { (arc_value build.now).asked ≡ asked.now.schema }
{
    let mut best = Best::new();
    for _ in 0..timing.runs {
        let pieces = pieces_of(rt.alloc(), asked)?;
        let begun = now(rt)?;
        let found = found_by_all(rt.alloc(), build, pieces)?;
        best.take_in(rt, begun, found)?;
    }
    Ok(best)
}

/// How many rows these frames find.
fn found_by_all(
    alloc: Global,
    build: &Arc<Build, Global>,
    pieces: Vec<Frame>,
) -> Result<usize, Fault>
    requires built { IsBuild (arc_value build.now) }
    requires columns { All (λ piece. piece.schema ≡ (arc_value build.now).asked) pieces.items }
{
    let mut found: usize = 0;
    'pieces: for piece in pieces {
        found = found.saturating_add(found_by(alloc, build, piece)?);
    }
    Ok(found)
}

/// How many rows this one finds.
fn found_by(alloc: Global, build: &Arc<Build, Global>, piece: Frame) -> Result<usize, Fault>
    requires built { IsBuild (arc_value build.now) }
    requires columns { piece.schema ≡ (arc_value build.now).asked }
{
    if piece.height() > PIECE {
        return Err(Fault::Usage);
    }
    let mut probing = Probing::new(alloc, build.clone()?, piece)?;
    count_found(alloc, &mut probing)
}

/// How many rows are left to be found.
fn count_found(alloc: Global, probing: &mut Probing) -> Result<usize, Fault>
    requires { IsProbing probing.old }
{
    let mut found: usize = 0;
    'calls: for _ in 0..CALLS {
        let some = probing.next(alloc, PIECE)?;
        found = found.saturating_add(some.frame.height());
        if some.last {
            return Ok(found);
        }
    }
    Ok(found)
}
