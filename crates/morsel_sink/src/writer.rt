//! The writer of a sink's text.
ghost use Rattle.std.specs.Prelude.{◌≡◌, ◌+◌, ◌^◌, ◌<◌, Ok, IfOk, IsOkUnless};
ghost use Rattle.morsel_meaning.specs.declared.fault.Fault.TheVariants.{OutOfMemory};
ghost use Rattle.morsel_sink.specs.Writers.{write_fault, BeginsSink, PutsPart};

use crate::spec::{SinkFormat, SinkSpec};
use morsel_frame::Schema;
use morsel_meaning::{Fault, Name};
use morsel_outside::{Io, IoErr};
use morsel_pipe::Encoded;
use std::marker::Model;

/// Makes a sink and writes its text: what comes before the first row, the parts in their order, and what ends it.
///
/// After a fault it is of no more use.
#[derive(Debug, Drop)]
pub struct SinkWriter {
    schema: Schema,
    name: Name,
    format: SinkFormat,
    // Of the parts that were written.
    rows: u64,
}

impl Model for SinkWriter {
    ghost use Rattle.morsel_sink.specs.Writers.{WriterSeen};

    ghost Value = { WriterSeen };

    ghost view = { λ writer. record { schema = writer.schema; name = writer.name; format = writer.format; rows = writer.rows } };
}

/// What a call to the outside came to, as that of a sink.
fn of_sink(told: Result<(), IoErr>) -> Result<(), Fault>
    ensures { result ≡ write_fault told }
{
    match told {
        Ok(()) => Ok(()),
        Err(IoErr::OutOfMemory) => Err(Fault::OutOfMemory),
        Err(IoErr::Failed) => Err(Fault::WriteFault),
    }
}

impl SinkWriter {
    /// A writer of rows of this schema into this sink, which is not made yet.
    pub fn new(schema: Schema, spec: &SinkSpec) -> Result<SinkWriter, Fault>
        ensures value { IfOk result (λ writer. writer ≡ record { schema = schema; name = spec.now.name; format = spec.now.format; rows = 0 }) }
        ensures out_of_memory { IsOkUnless result OutOfMemory }
    {
        Ok(SinkWriter {
            schema,
            name: spec.name.clone()?,
            format: spec.format.clone()?,
            rows: 0,
        })
    }

    /// Makes the sink, and writes what comes before the first row. It comes once, and first.
    pub fn begin<H: Io>(&mut self, io: &mut H) -> Result<(), Fault>
        ensures begins { BeginsSink self.old (H.seen io.old) result (H.seen io.new) }
        ensures same { self.new ≡ self.old }
    {
        of_sink(io.make_sink(self.name.as_str()))
    }

    /// Writes the next part. The sink is the last one that was made.
    pub fn put<H: Io>(&mut self, io: &mut H, part: Encoded) -> Result<(), Fault>
        requires made { 0 < (H.seen io.old).sinks }
        requires few { self.old.rows + part.rows < 2 ^ 64 }
        ensures { PutsPart self.old part (H.seen io.old) result self.new (H.seen io.new) }
    {
        self.put_lent(io, &part)
    }

    /// Writes the next part, which is lent.
    fn put_lent<H: Io>(&mut self, io: &mut H, part: &Encoded) -> Result<(), Fault>
        requires made { 0 < (H.seen io.old).sinks }
        requires few { self.old.rows + part.now.rows < 2 ^ 64 }
        ensures { PutsPart self.old part.now (H.seen io.old) result self.new (H.seen io.new) }
    {
        of_sink(io.write(part.bytes.as_slice()))?;
        self.rows += part.rows;
        Ok(())
    }

    /// Writes what ends the text, which is nothing in NDJSON, and answers how many rows were written.
    pub fn finish<H: Io>(self, io: &mut H) -> Result<u64, Fault>
        ensures rows { result ≡ Ok self.rows }
        ensures same { H.seen io.new ≡ H.seen io.old }
    {
        Ok(self.rows)
    }
}
