//! The node of an NDJSON sink, and the law of its parts.
ghost use Rattle.std.specs.Prelude.{◌≡◌, ℕ, List, IfOk, IsOkUnless};
ghost use Rattle.std.specs.List.{flat_map};
ghost use Rattle.morsel_meaning.specs.Values.{Row, names_of};
ghost use Rattle.morsel_meaning.specs.declared.fault.Fault.TheVariants.{OutOfMemory};
ghost use Rattle.morsel_sink.specs.Sinks.{EncodesRows, text_by_format};
ghost use Rattle.morsel_sink.specs.declared.spec.SinkFormat.{SinkFormat};
ghost use Rattle.morsel_sink.specs.declared.spec.SinkFormat.TheVariants.{NdJson};

use morsel_frame::{Frame, Schema};
use morsel_meaning::Fault;
use morsel_ndjson::write_ndjson;
use morsel_pipe::Encoded;
use std::alloc::Global;
use std::marker::Model;

/// Makes the rows of frames into parts of an NDJSON text.
#[derive(Debug, Drop)]
pub struct NDJsonSinkNode {
    schema: Schema,
}

impl Model for NDJsonSinkNode {
    ghost use Rattle.std.specs.Prelude.{List};
    ghost use Rattle.morsel_meaning.specs.declared.value.Field.{Field};

    ghost Value = { List Field };

    ghost view = { λ node. node.schema };
}

impl NDJsonSinkNode {
    /// A node for frames of this schema.
    pub fn new(schema: Schema) -> Result<NDJsonSinkNode, Fault>
        ensures value { IfOk result (λ node. node ≡ schema) }
        ensures out_of_memory { IsOkUnless result OutOfMemory }
    {
        Ok(NDJsonSinkNode { schema })
    }

    /// The text of the rows of a frame of the node's schema, as all rows of a stretch that begins and ends at 0.
    ///
    /// Whoever knows for which bytes of a scan the rows stand sets the stretch.
    pub fn encode(&self, alloc: Global, frame: &Frame) -> Result<Encoded, Fault>
        requires schema { frame.now.schema ≡ self.now }
        ensures part { IfOk result (EncodesRows NdJson (names_of self.now) frame.now.rows) }
        ensures out_of_memory { IsOkUnless result OutOfMemory }
    {
        let mut bytes = Vec::new(alloc);
        write_ndjson(&mut bytes, frame)?;
        Ok(Encoded {
            rows: frame.height() as u64,
            bytes,
            from: 0,
            to: 0,
            skip: 0,
            last: true,
            meta: None,
        })
    }
}

/// The texts of rows that are cut into parts are, one after the other, the text of all rows.
pub fn parts_are_the_text()
    ensures { (format : SinkFormat) (names : List (List ℕ)) (parts : List (List Row)) → text_by_format format names (flat_map (λ rows. rows) parts) ≡ flat_map (text_by_format format names) parts }
{}
