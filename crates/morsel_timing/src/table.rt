//! The tables that are timed: numbers below a thousand in no order, and short texts, a few of them null.
ghost use Rattle.std.specs.Prelude.{◌≡◌, IfOk};

use morsel_frame::{Column, Frame, Schema};
use morsel_meaning::{ColType, Fault, Field, Name};
use std::alloc::Global;

/// Numbers in no order, the same at each run.
#[derive(Clone, Copy)]
pub struct Numbers {
    state: u64,
}

impl Numbers {
    /// The first of them.
    pub fn new() -> Numbers {
        Numbers {
            state: 88172645463325252,
        }
    }

    /// The next one.
    pub fn next(&mut self) -> u64 {
        let mut state = self.state;
        state ^= state.wrapping_shl(13);
        state ^= state >> 7;
        state ^= state.wrapping_shl(17);
        self.state = state;
        state
    }
}

/// A column of so many numbers below a thousand, of which one in thirteen is null.
pub fn number_column(alloc: Global, rows: usize) -> Result<Column, Fault>
    ensures { IfOk result (λ column. column.kind ≡ ColType.Int) }
{
    let mut numbers = Numbers::new();
    let mut column = Column::new(alloc, ColType::Int);
    for _ in 0..rows {
        let drawn = numbers.next();
        if drawn % 13 == 0 {
            column.push_null()?;
        } else {
            column.push_int((drawn % 1000) as i64)?;
        }
    }
    Ok(column)
}

/// A column of so many short texts, of which one in thirteen is null.
fn text_column(alloc: Global, rows: usize) -> Result<Column, Fault>
    ensures { IfOk result (λ column. column.kind ≡ ColType.Text) }
{
    let mut numbers = Numbers::new();
    let mut column = Column::new(alloc, ColType::Text);
    for _ in 0..rows {
        let drawn = numbers.next();
        if drawn % 13 == 0 {
            column.push_null()?;
        } else {
            let number = drawn % 100000;
            let text = format!(in alloc; "name{number}")?;
            column.push_text(text.as_str())?;
        }
    }
    Ok(column)
}

/// The frame of one column.
fn frame_of(alloc: Global, name: &str, kind: ColType, column: Column) -> Result<Frame, Fault>
    requires { column.kind ≡ kind }
{
    let name = Name::new(alloc, name)?;
    let schema = Schema::new(alloc, vec![in alloc; Field { name, kind }]?)?;
    let height = column.len();
    Ok(Frame::new(alloc, schema, vec![in alloc; column]?, height))
}

/// The frame of one column of numbers, `v`.
pub fn number_frame(alloc: Global, rows: usize) -> Result<Frame, Fault> {
    let column = number_column(alloc, rows)?;
    frame_of(alloc, "v", ColType::Int, column)
}

/// The frame of one column of texts, `name`.
pub fn text_frame(alloc: Global, rows: usize) -> Result<Frame, Fault> {
    let column = text_column(alloc, rows)?;
    frame_of(alloc, "name", ColType::Text, column)
}

/// A frame of so many rows without columns.
pub fn bare_frame(alloc: Global, rows: usize) -> Result<Frame, Fault> {
    let schema = Schema::new(alloc, Vec::new(alloc))?;
    Ok(Frame::new(alloc, schema, Vec::new(alloc), rows))
}
