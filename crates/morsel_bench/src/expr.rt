//! Predicates and filters: a comparison of numbers over a whole column, the rows that are true, and gathering them.
use morsel_expr::{CmpOp, Pred, PredNode, Rhs, Truth, filter};
use morsel_frame::Frame;
use morsel_meaning::{Fault, Name, Value};
use morsel_timing::{Best, Timing, bare_frame, now, number_frame, tell, text_frame};
use std::alloc::Global;
use std::rt::Clock;

/// Runs each part on so many rows.
pub fn run<R: Clock + Print + AllocGlobal>(
    rt: &R,
    timing: Timing,
    rows: usize,
) -> Result<(), Fault> {
    let numbers = number_frame(rt.alloc(), rows)?;
    let mask = above(rt.alloc(), &numbers, 900)?;
    tell_parts(rt, timing, &numbers, &mask)
}

/// Tells each part, of numbers and of the truths that a comparison gave of them.
fn tell_parts<R: Clock + Print + AllocGlobal>(
    rt: &R,
    timing: Timing,
    numbers: &Frame,
    mask: &[Truth],
) -> Result<(), Fault> {
    let eval = time_eval(rt, timing, numbers)?;
    tell(rt, timing, "eval of one comparison, rows", eval, mask.len())?;
    let filter = time_filter(rt, timing, mask)?;
    tell(
        rt,
        timing,
        "filter without columns, rows kept",
        filter,
        mask.len(),
    )?;
    tell_gathers(rt, timing, numbers, mask)
}

/// Tells how the rows that are true are gathered.
fn tell_gathers<R: Clock + Print + AllocGlobal>(
    rt: &R,
    timing: Timing,
    numbers: &Frame,
    mask: &[Truth],
) -> Result<(), Fault> {
    let rows = true_rows(rt.alloc(), mask)?;
    tell_gather(rt, timing, "gather of numbers, rows kept", numbers, &rows)?;
    tell_texts(rt, timing, mask.len(), &rows)
}

/// Tells how these rows of a frame of so many short texts are gathered.
fn tell_texts<R: Clock + Print + AllocGlobal>(
    rt: &R,
    timing: Timing,
    height: usize,
    rows: &[usize],
) -> Result<(), Fault> {
    let texts = text_frame(rt.alloc(), height)?;
    tell_gather(rt, timing, "gather of short texts, rows kept", &texts, rows)
}

/// Tells how these rows of a frame are gathered.
fn tell_gather<R: Clock + Print + AllocGlobal>(
    rt: &R,
    timing: Timing,
    name: &str,
    frame: &Frame,
    rows: &[usize],
) -> Result<(), Fault> {
    let best = time_gather(rt, timing, frame, rows)?;
    tell(rt, timing, name, best, rows.len())
}

/// A comparison of each number with one.
fn time_eval<R: Clock + AllocGlobal>(
    rt: &R,
    timing: Timing,
    numbers: &Frame,
) -> Result<Best, Fault> {
    let mut best = Best::new();
    for _ in 0..timing.runs {
        let begun = now(rt)?;
        let mask = above(rt.alloc(), numbers, 900)?;
        best.take_in(rt, begun, mask.len())?;
    }
    Ok(best)
}

/// The rows of a frame without columns that are true.
fn time_filter<R: Clock + AllocGlobal>(
    rt: &R,
    timing: Timing,
    mask: &[Truth],
) -> Result<Best, Fault> {
    let mut best = Best::new();
    for _ in 0..timing.runs {
        let frame = bare_frame(rt.alloc(), mask.len())?;
        let begun = now(rt)?;
        let kept = kept_of(rt.alloc(), frame, mask)?;
        best.take_in(rt, begun, kept)?;
    }
    Ok(best)
}

/// Some rows of a frame; none where it lacks one of them.
fn time_gather<R: Clock + AllocGlobal>(
    rt: &R,
    timing: Timing,
    frame: &Frame,
    rows: &[usize],
) -> Result<Best, Fault> {
    let mut best = Best::new();
    let height = frame.height();
    if !rows.iter().all(|row| *row < height) {
        return Ok(best);
    }
    for _ in 0..timing.runs {
        let begun = now(rt)?;
        let gathered = frame.gather(rt.alloc(), rows)?;
        best.take_in(rt, begun, gathered.height())?;
    }
    Ok(best)
}

/// Which numbers are above one.
fn above(alloc: Global, frame: &Frame, limit: i64) -> Result<Vec<Truth>, Fault> {
    let name = Name::new(alloc, "v")?;
    let node = PredNode::Cmp(CmpOp::Gt, name, Rhs::Lit(Value::Int(limit)));
    let pred = Pred::new(node)?;
    pred.check(alloc, frame.schema())?;
    pred.eval(alloc, frame)
}

/// The numbers of the rows that are true.
fn true_rows(alloc: Global, mask: &[Truth]) -> Result<Vec<usize>, Fault> {
    let mut rows = Vec::new(alloc);
    for (row, truth) in mask.iter().enumerate() {
        if truth.is_true() {
            rows.push(row)?;
        }
    }
    Ok(rows)
}

/// How many rows a filter keeps, and none where the frame has another number of rows than the mask.
fn kept_of(alloc: Global, frame: Frame, mask: &[Truth]) -> Result<usize, Fault> {
    if frame.height() != mask.len() {
        return Ok(0);
    }
    let kept = filter(alloc, frame, mask)?;
    Ok(kept.height())
}
