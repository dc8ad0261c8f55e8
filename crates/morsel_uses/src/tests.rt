//! Each public call once with ample memory, with values worked out by hand.
//!
//! A helper says `expect` where memory may be out, and gives what it makes to `drop`: a value that is let go at several
//! exits has each of them proved.
ghost use Rattle.std.specs.Prelude.{◌≡◌};

use morsel_frame::{Cell, Column};
use morsel_meaning::ColType;
use std::alloc::Global;
use std::process::Abort;

mod columns;
mod frames;
mod mem_io;
mod open_gate;
mod schemas;
mod sure_mem_io;
mod texts;
mod told;

/// A column of numbers.
fn column_of(rt: &impl Abort, alloc: Global, numbers: &[i64]) -> Column
    ensures { result.kind ≡ ColType.Int }
{
    let valid = vec![in alloc; true; numbers.len()].expect(rt, "memory");
    let numbers = Vec::from_slice(alloc, numbers).expect(rt, "memory");
    Column::from_ints(valid, numbers)
}

/// The column has these values.
fn has(rt: &impl Abort, column: &Column, wanted: &[Cell<'_>]) {
    assert_eq!(rt; column.len(), wanted.len());
    for row in 0..wanted.len() {
        if row < column.len() {
            assert_eq!(rt; column.get(row), wanted[row], "at {row}");
        }
    }
}
