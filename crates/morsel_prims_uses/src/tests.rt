//! What comes of lists of calls on lanes. The helpers go over any lanes; the tests run them on those of one thread.
use crate::number::Number;
use line::Line;
use morsel_meaning::Fault;
use morsel_prims::{PlainBoard, PlainLanes};
use std::alloc::Global;

mod drawn;
mod ends;
mod line;
mod tokens;

/// A lane of one thread with this room, at least 1.
fn line_of(alloc: Global, room: u32) -> Result<Line<PlainLanes<Number>>, Fault> {
    Line::new(alloc, PlainBoard::new(alloc)?, room.clamp(1, 8))
}
