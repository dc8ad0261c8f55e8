//! What both readers share of reading: what they read with, and what they say of a record.
ghost use Rattle.std.specs.Prelude.{◌≡◌};

use morsel_frame::Schema;
use morsel_grammar::CsvOptions;
use morsel_meaning::{ComputeKind, Fault};
use std::alloc::Global;

/// What records are read with.
#[derive(Clone, Copy)]
pub struct Reader<'a> {
    pub alloc: Global,
    /// The number that faults give to the file.
    pub file: u32,
    pub schema: &'a Schema,
    /// Which columns are used.
    pub used: &'a [bool],
    pub options: &'a CsvOptions,
}

impl<'a> Reader<'a> {
    /// The fault of what begins at this place and is no record, or one of another number of fields than there are columns.
    pub fn malformed(&self, at: u64) -> Fault
        ensures { result ≡ Fault.Malformed self.now.file at }
    {
        Fault::Malformed {
            file: self.file,
            at,
        }
    }

    /// The fault of the record at this place whose values cannot be computed.
    pub fn not_computed(&self, kind: ComputeKind, at: u64) -> Fault
        ensures { result ≡ Fault.ComputeError kind self.now.file at }
    {
        Fault::ComputeError {
            kind,
            file: self.file,
            at,
        }
    }
}

/// One step of reading: a record that was read, or the rows of a batch.
#[derive(Clone, Copy)]
pub struct Step<'a> {
    /// What follows it.
    pub rest: &'a [u8],
    /// Whether the header is still to come.
    pub head: bool,
    /// How many rows it gave.
    pub rows: usize,
}
