//! Rows of one column of numbers, and their parts.
ghost use Rattle.std.specs.Prelude.{◌≡◌, ◌≤◌};

use morsel_frame::{Column, Frame, Schema};
use morsel_meaning::{ColType, Field, Name};
use morsel_pipe::Encoded;
use morsel_sink::NDJsonSinkNode;
use std::alloc::Global;
use std::process::Abort;

pub fn name_of(rt: &impl Abort, alloc: Global, name: &str) -> Name {
    Name::new(alloc, name).expect(rt, "memory")
}

fn column_of(rt: &impl Abort, alloc: Global, numbers: &[i64]) -> Column
    ensures { result.kind ≡ ColType.Int }
{
    let mut valid = Vec::new(alloc);
    valid.resize(numbers.len(), true).expect(rt, "memory");
    let numbers = Vec::from_slice(alloc, numbers).expect(rt, "memory");
    Column::from_ints(valid, numbers)
}

/// The rows of these numbers.
fn frame_of(rt: &impl Abort, alloc: Global, numbers: &[i64]) -> Frame {
    let column = column_of(rt, alloc, numbers);
    let height = column.len();
    let name = name_of(rt, alloc, "n");
    let kind = ColType::Int;
    let fields = vec![in alloc; Field { name, kind }].expect(rt, "memory");
    let schema = Schema::new(alloc, fields).expect(rt, "one name");
    let columns = vec![in alloc; column].expect(rt, "memory");
    Frame::new(alloc, schema, columns, height)
}

/// The part of the rows of these numbers, which are at most a hundred.
pub fn part_of(rt: &impl Abort, alloc: Global, numbers: &[i64]) -> Encoded
    ensures { result.rows ≤ 100 }
{
    let frame = frame_of(rt, alloc, numbers);
    let node = NDJsonSinkNode::new(frame.schema().again().expect(rt, "memory")).expect(
        rt, "memory",
    );
    let part = node.encode(alloc, &frame).expect(rt, "memory");
    assert!(rt; part.rows <= 100);
    part
}
