//! The pieces of files that a scan gives.
use crate::MorselSeq;
use morsel_meaning::Name;
use std::marker::Model;

/// A column's part of a row group, by its place in its file.
#[derive(Clone, Copy, Debug, PartialEq, Eq)]
pub struct RawPart {
    /// The column's place in the scan's schema.
    pub column: u32,
    /// The place of its first byte in the file.
    pub at: u64,
    /// How many bytes it has.
    pub length: u64,
}

/// A piece of a file: bytes that can be decoded by themselves, and where they stand in the scan.
#[derive(Debug, Drop)]
pub struct RawPiece {
    /// Its number within the scan.
    pub seq: MorselSeq,
    /// The source's number within the query.
    pub file: u32,
    /// The source's name, as the query has it.
    pub source: Name,
    /// The place in the file of its first record, group or block, in bytes.
    pub at: u64,
    /// The position of its first row within the scan.
    pub first_row: u64,
    /// How many rows it has.
    pub rows: u32,
    /// The offset and the length, within the piece, of the rows that the scan's slice keeps.
    pub slice: (u32, u32),
    /// In a piece of a row-group file, what `bytes` has, part by part; else nothing.
    pub parts: Vec<RawPart>,
    /// The bytes.
    pub bytes: Vec<u8>,
    /// Where its stretch of the scan's bytes begins. Bytes are counted over all sources, one after the other.
    pub from: u64,
    /// Where its stretch ends, and the next piece's begins.
    pub to: u64,
}

impl Model for RawPiece {
    ghost use Rattle.morsel_pipe.specs.Pieces.{Piece};

    ghost Value = { Piece };

    ghost view = { λ piece. record {
      seq = piece.seq;
      file = piece.file;
      source = piece.source;
      at = piece.at;
      first_row = piece.first_row;
      rows = piece.rows;
      slice = piece.slice;
      parts = piece.parts.items;
      bytes = piece.bytes.items;
      from = piece.from;
      to = piece.to;
    } };
}
