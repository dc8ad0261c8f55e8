//! What is kept of one column's part of a file.
use morsel_meaning::Value;

/// Where one column's part lies in a file, its codec, and the least and the greatest of its values.
#[derive(Clone, Debug, Drop, PartialEq, Eq)]
pub struct PartMeta {
    /// The byte of the file at which the part begins.
    pub offset: u64,
    /// How many bytes it has.
    pub length: u64,
    /// How it is encoded.
    pub codec: u8,
    /// The least and the greatest of its values that are no nulls, where they were kept.
    pub bounds: Option<(Value, Value)>,
}
