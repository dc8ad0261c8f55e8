//! The opening of a query's sources and the making of its sink, with the faults that a run answers.
ghost use Rattle.std.specs.Prelude.{◌≡◌, ◌≤◌, ◌++◌, length, Result, IfOk};
ghost use Rattle.morsel_engine.specs.Stages.{OpensSources, MakesSink};
ghost use Rattle.morsel_engine.specs.Opened.{numbers_seen, numbers_of_sides};

use morsel_frame::Schema;
use morsel_join_plan::JoinWriters;
use morsel_meaning::{Fault, Name};
use morsel_outside::{FileNo, Io, IoErr};
use morsel_sink::{SinkSpec, SinkWriter};
use std::alloc::Global;

/// Opens the sources of a scan, in order; the first has this number within the query.
pub fn open_sources<H: Io>(
    alloc: Global,
    io: &mut H,
    names: &[Name],
    first: u32,
) -> Result<Vec<FileNo>, Fault>
    requires few { length names.now ≤ 65536 }
    requires first { first ≤ 65536 }
    ensures { OpensSources (H.seen io.old) names.now first (numbers_seen result) (H.seen io.new) }
{
    let mut files = Vec::new(alloc);
    let mut number = first;
    'names: for name in names {
        match io.open_source(name.as_str()) {
            Ok(file) => {
                let Ok(()) = files.push(file) else {
                    return Err(Fault::OutOfMemory);
                };
            }
            Err(IoErr::OutOfMemory) => return Err(Fault::OutOfMemory),
            Err(IoErr::Failed) => return Err(Fault::ReadFault { file: number }),
        }
        number += 1;
    }
    Ok(files)
}

/// Makes the query's sink, for rows with these columns; answers its writer.
pub fn make_sink<H: Io>(io: &mut H, columns: &Schema, sink: &SinkSpec) -> Result<SinkWriter, Fault>
    ensures made { MakesSink (H.seen io.old) sink.now.name result (H.seen io.new) }
    ensures writer { IfOk result (λ writer. writer ≡ record { schema = columns.now; name = sink.now.name; format = sink.now.format; rows = 0 }) }
{
    let Ok(columns) = columns.clone() else {
        return Err(Fault::OutOfMemory);
    };
    let Ok(mut writer) = SinkWriter::new(columns, sink) else {
        return Err(Fault::OutOfMemory);
    };
    match writer.begin(io) {
        Ok(()) => Ok(writer),
        Err(fault) => Err(fault),
    }
}

/// The open files of the two sides of a join.
#[derive(Drop)]
pub struct SideFiles {
    /// Those of the left side.
    pub left: Vec<FileNo>,
    /// Those of the right side.
    pub right: Vec<FileNo>,
}

/// Opens the sources of both sides of a join, the left ones first.
pub fn open_sides<H: Io>(
    alloc: Global,
    io: &mut H,
    left: &[Name],
    right: &[Name],
) -> Result<SideFiles, Fault>
    requires few_left { length left.now ≤ 65536 }
    requires few_right { length right.now ≤ 65536 }
    ensures opens { OpensSources (H.seen io.old) (left.now ++ right.now) 0 (numbers_of_sides result) (H.seen io.new) }
    ensures one_each { IfOk result (λ files. length files.left.items ≡ length left.now) }
{
    let lefts = match open_sources(alloc, io, left, 0) {
        Ok(files) => files,
        Err(fault) => return Err(fault),
    };
    let first = left.len() as u32;
    let rights = match open_sources(alloc, io, right, first) {
        Ok(files) => files,
        Err(fault) => return Err(fault),
    };
    Ok(SideFiles {
        left: lefts,
        right: rights,
    })
}

/// Makes the query's sink, for rows of a join with these columns; answers their writers.
pub fn make_writers<H: Io>(
    io: &mut H,
    columns: &Schema,
    sink: &SinkSpec,
) -> Result<JoinWriters, Fault>
    ensures made { MakesSink (H.seen io.old) sink.now.name result (H.seen io.new) }
    ensures found { IfOk result (λ writers. writers.found.rows ≡ 0) }
    ensures alone { IfOk result (λ writers. writers.alone.rows ≡ 0) }
{
    let Ok(again) = columns.clone() else {
        return Err(Fault::OutOfMemory);
    };
    let Ok(alone) = SinkWriter::new(again, sink) else {
        return Err(Fault::OutOfMemory);
    };
    match make_sink(io, columns, sink) {
        Ok(found) => Ok(JoinWriters { found, alone }),
        Err(not_made) => Err(not_made),
    }
}
