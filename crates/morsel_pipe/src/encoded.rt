//! The text of rows, on its way to a sink.
use morsel_frame::PartMeta;
use std::marker::Model;

/// The text of some of the rows that a stretch of a scan's bytes gives.
///
/// A stretch that gives many rows, as one of a join may, is written in several parts, one after the other.
#[derive(Debug, Drop)]
pub struct Encoded {
    /// How many rows it has.
    pub rows: u64,
    /// Their text.
    pub bytes: Vec<u8>,
    /// Where its stretch of the scan's bytes begins. Bytes are counted over all sources, one after the other.
    pub from: u64,
    /// Where its stretch ends, and the next one begins.
    pub to: u64,
    /// How many rows of its stretch come before its own.
    pub skip: u64,
    /// Whether its rows are the last ones of its stretch.
    pub last: bool,
    /// What the file keeps of it, where the sink is made of parts of columns. A text sink keeps nothing.
    pub meta: Option<PartMeta>,
}

impl Model for Encoded {
    ghost use Rattle.morsel_pipe.specs.Pieces.{Part};

    ghost Value = { Part };

    ghost view = { λ part. record {
      rows = part.rows;
      bytes = part.bytes.items;
      from = part.from;
      to = part.to;
      skip = part.skip;
      last = part.last;
      meta = part.meta;
    } };
}
