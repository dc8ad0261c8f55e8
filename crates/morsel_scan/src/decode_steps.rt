//! The steps from the values of used columns to the rows of a scan: the row index, the path, the filter.
ghost use Rattle.std.specs.Prelude.{◌≡◌, ◌≤◌, Some};
ghost use Rattle.morsel_scan.specs.Nodes.{AddsIndex, PutsIndex, AddsPath, KeepsRows, IsFilterOver};

use crate::{FilterStep, RowIndex};
use morsel_frame::Frame;
use morsel_meaning::{ComputeKind, Fault, Name, QUERY_FILE};
use std::alloc::Global;

/// Adds the row index, where there is one. The first row has this position.
pub fn with_index(
    alloc: Global,
    frame: Frame,
    index: &Option<RowIndex>,
    position: u64,
) -> Result<Frame, Fault>
    requires { position ≤ 4294967295 }
    ensures { AddsIndex index.now position frame result }
{
    match index {
        Some(index) => add_index(alloc, frame, index, position),
        None => Ok(frame),
    }
}

/// Adds a row index. The first row has this position.
fn add_index(alloc: Global, frame: Frame, index: &RowIndex, position: u64) -> Result<Frame, Fault>
    requires { position ≤ 4294967295 }
    ensures { AddsIndex (Some index.now) position frame result }
{
    let height = frame.height() as u64;
    let first = u64::from(index.offset) + position;
    if height == 0 {
        return put_index(alloc, frame, index, 0);
    }
    if height > u64::from(u32::MAX) || first + height > u64::from(u32::MAX) {
        return Err(Fault::ComputeError {
            kind: ComputeKind::IndexTooLarge,
            file: QUERY_FILE,
            at: 0,
        });
    }
    put_index(alloc, frame, index, first as u32)
}

/// Adds a row index from this number on.
fn put_index(alloc: Global, frame: Frame, index: &RowIndex, first: u32) -> Result<Frame, Fault>
    ensures { PutsIndex index.now first frame result }
{
    let name = Name::new(alloc, index.name.as_str())?;
    // The columns of a scan differ in name: what refuses them is out of memory.
    let Ok(made) = frame.with_row_index(alloc, name, first) else {
        return Err(Fault::OutOfMemory);
    };
    Ok(made)
}

/// Adds the path, where there is one: the name of the rows' file.
pub fn with_path(
    alloc: Global,
    frame: Frame,
    path: &Option<Name>,
    source: &Name,
) -> Result<Frame, Fault>
    ensures { AddsPath path.now source.now frame result }
{
    match path {
        Some(path) => put_path(alloc, frame, path, source),
        None => Ok(frame),
    }
}

/// Adds a column of this name, whose values are the name of the rows' file.
fn put_path(alloc: Global, frame: Frame, path: &Name, source: &Name) -> Result<Frame, Fault>
    ensures { AddsPath (Some path.now) source.now frame result }
{
    let name = Name::new(alloc, path.as_str())?;
    // The columns of a scan differ in name: what refuses them is out of memory.
    let Ok(made) = frame.with_text_column(alloc, name, source.as_str()) else {
        return Err(Fault::OutOfMemory);
    };
    Ok(made)
}

/// Keeps the rows that pass the filter, where there is one.
pub fn filtered(alloc: Global, frame: Frame, step: &Option<FilterStep>) -> Result<Frame, Fault>
    requires { IsFilterOver frame.schema step.now }
    ensures { KeepsRows step.now frame result }
{
    match step {
        Some(step) => step.apply(alloc, frame),
        None => Ok(frame),
    }
}
