//! Where the answer of a query goes.
use morsel_meaning::Name;

/// The format of a sink's text.
#[derive(Clone, Debug, Drop)]
pub enum SinkFormat {
    /// NDJSON: one object a line, with a member for each column.
    NdJson,
}

/// A sink: the name of a file, and the format of its text.
#[derive(Debug, Drop)]
pub struct SinkSpec {
    /// The file's name.
    pub name: Name,
    /// The format of its text.
    pub format: SinkFormat,
}
