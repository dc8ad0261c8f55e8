//! Why a query was not answered: one enum for all crates, with the text that the program prints of each.
use crate::Name;
use std::alloc::{AllocError, AllocFailed};
use std::error::Error;
use std::fmt;

/// The number that a fault gives to the file of the query itself. Sources are numbered from 0.
pub const QUERY_FILE: u32 = 4294967295;

/// Why a query was not answered. The program prints `error N: ` and the fault's text, and ends with status 10 + N.
#[derive(Clone, Debug, Drop, PartialEq, Eq)]
pub enum Fault {
    /// 1: there was no memory.
    OutOfMemory,
    /// 2: a file could not be opened or read.
    ReadFault {
        file: u32,
    },
    /// 3: the sink could not be made or written, or a line not printed.
    WriteFault,
    /// 4: the query or an option has the flaw that `why` names.
    InvalidQuery {
        why: Why,
    },
    /// 5: the record, footer, group or block at this byte of the file is outside its grammar.
    Malformed {
        file: u32,
        at: u64,
    },
    /// 6: a codec, a column type or a compression mark that is not read.
    Unsupported {
        file: u32,
        code: u32,
    },
    /// 7: a named column is in no schema.
    ColumnNotFound {
        name: Name,
    },
    /// 8: the types of this column do not fit.
    SchemaMismatch {
        name: Name,
    },
    /// 9: two columns have one name.
    Duplicate {
        name: Name,
    },
    /// 10: the rows cannot be computed. `file` is `QUERY_FILE` and `at` is 0 for kinds that have no place.
    ComputeError {
        kind: ComputeKind,
        file: u32,
        at: u64,
    },
    /// 11: the bytes of the query file are no query.
    QueryText,
    /// 12: the words are no command.
    Usage,
}

/// The flaw of a query or of an option.
#[derive(Clone, Copy, Debug, PartialEq, Eq)]
pub enum Why {
    /// An option is outside its range.
    OptionRange,
    /// A scan names no source.
    NoSource,
    /// A scan names more than 65,536 sources.
    ManySources,
    /// A CSV schema has no column, or more than 65,535.
    NoColumn,
    /// A block scan names more than one source.
    BlockFiles,
    /// The options of a CSV text contradict each other.
    ParseBytes,
    /// A join has no key on either side, or a group has no key.
    NoKeys,
    /// The keys of one side of a join, or of a group, name a column twice.
    RepeatedKey,
    /// The two key lists of a join differ in length.
    UnequalKeys,
    /// The sink's name is the name of a source.
    SinkIsSource,
    /// A predicate has more than 128 levels.
    PredDepth,
}

/// What could not be computed.
#[derive(Clone, Copy, Debug, PartialEq, Eq)]
pub enum ComputeKind {
    /// A CSV scan has a slice offset below 0.
    NegativeSlice,
    /// The record is not UTF-8.
    NotUtf8,
    /// A used field of the record does not fit its type.
    IllTyped,
    /// A scan has more than 4,294,967,295 rows.
    TooManyRows,
    /// A row index would be above 4,294,967,295.
    IndexTooLarge,
    /// The total of a group is outside 64 bits.
    SumTooLarge,
    /// A group has too many rows, or the texts of a written part too many bytes.
    LenTooLarge,
    /// There are more than 4,294,967,295 distinct keys.
    TooManyGroups,
    /// The footer of a written file would have too many bytes.
    FooterTooLarge,
}

impl Fault {
    ghost use Rattle.std.specs.Prelude.{◌≡◌};
    ghost use Rattle.morsel_meaning.specs.Faults.{fault_number};

    /// The number of the fault, from 1 to 12, which the program prints.
    pub fn number(&self) -> u8
        ensures { result ≡ fault_number self.now }
    {
        match self {
            Fault::OutOfMemory => 1,
            Fault::ReadFault { .. } => 2,
            Fault::WriteFault => 3,
            Fault::InvalidQuery { .. } => 4,
            Fault::Malformed { .. } => 5,
            Fault::Unsupported { .. } => 6,
            Fault::ColumnNotFound { .. } => 7,
            Fault::SchemaMismatch { .. } => 8,
            Fault::Duplicate { .. } => 9,
            Fault::ComputeError { .. } => 10,
            Fault::QueryText => 11,
            Fault::Usage => 12,
        }
    }
}

impl fmt::Display for Why {
    ghost use Rattle.std.specs.Prelude.{Some};
    ghost use Rattle.morsel_meaning.specs.Faults.{why_text};

    ghost output = { λ why. Some (why_text why) };

    fn fmt<W: fmt::Write>(&self, f: &mut fmt::Formatter<W>) -> fmt::Result {
        match self {
            Why::OptionRange => f.write_str("option range"),
            Why::NoSource => f.write_str("no source"),
            Why::ManySources => f.write_str("too many sources"),
            Why::NoColumn => f.write_str("no column"),
            Why::BlockFiles => f.write_str("block files"),
            Why::ParseBytes => f.write_str("parse bytes"),
            Why::NoKeys => f.write_str("no keys"),
            Why::RepeatedKey => f.write_str("repeated key"),
            Why::UnequalKeys => f.write_str("unequal keys"),
            Why::SinkIsSource => f.write_str("sink is source"),
            Why::PredDepth => f.write_str("predicate depth"),
        }
    }
}

impl fmt::Display for ComputeKind {
    ghost use Rattle.std.specs.Prelude.{Some};
    ghost use Rattle.morsel_meaning.specs.Faults.{kind_text};

    ghost output = { λ kind. Some (kind_text kind) };

    fn fmt<W: fmt::Write>(&self, f: &mut fmt::Formatter<W>) -> fmt::Result {
        match self {
            ComputeKind::NegativeSlice => f.write_str("negative slice"),
            ComputeKind::NotUtf8 => f.write_str("not utf8"),
            ComputeKind::IllTyped => f.write_str("ill typed"),
            ComputeKind::TooManyRows => f.write_str("too many rows"),
            ComputeKind::IndexTooLarge => f.write_str("index too large"),
            ComputeKind::SumTooLarge => f.write_str("sum too large"),
            ComputeKind::LenTooLarge => f.write_str("len too large"),
            ComputeKind::TooManyGroups => f.write_str("too many groups"),
            ComputeKind::FooterTooLarge => f.write_str("footer too large"),
        }
    }
}

impl fmt::Display for Fault {
    ghost use Rattle.std.specs.Prelude.{Some};
    ghost use Rattle.morsel_meaning.specs.Faults.{fault_text};

    ghost output = { λ fault. Some (fault_text fault) };

    fn fmt<W: fmt::Write>(&self, f: &mut fmt::Formatter<W>) -> fmt::Result {
        match self {
            Fault::OutOfMemory => f.write_str("out of memory"),
            Fault::ReadFault { file } => write!(f, "read fault in file {file}"),
            Fault::WriteFault => f.write_str("write fault"),
            Fault::InvalidQuery { why } => write!(f, "invalid query: {why}"),
            Fault::Malformed { file, at } => write!(f, "malformed file {file} at {at}"),
            Fault::Unsupported { file, code } => write!(
                f,
                "unsupported code {code} in file {file}"
            ),
            Fault::ColumnNotFound { name } => write!(f, "column not found: {name}"),
            Fault::SchemaMismatch { name } => write!(f, "schema mismatch: {name}"),
            Fault::Duplicate { name } => write!(f, "duplicate column: {name}"),
            Fault::ComputeError { kind, file, at } => match kind {
                ComputeKind::NotUtf8 | ComputeKind::IllTyped => {
                    write!(f, "{kind}, file {file}, at {at}")
                }
                _ => write!(f, "{kind}"),
            },
            Fault::QueryText => f.write_str("query text"),
            Fault::Usage => f.write_str("usage"),
        }
    }
}

impl Error for Fault {}

impl From<AllocError> for Fault {
    ghost use Rattle.std.specs.Prelude.{◌≡◌};
    ghost use Rattle.morsel_meaning.specs.declared.fault.Fault.TheVariants.{OutOfMemory};

    ghost from_gives = { λ _ fault. fault ≡ OutOfMemory };

    fn from(_: AllocError) -> Fault {
        Fault::OutOfMemory
    }
}

impl<T: Drop> From<AllocFailed<T>> for Fault {
    ghost use Rattle.std.specs.Prelude.{◌≡◌};
    ghost use Rattle.morsel_meaning.specs.declared.fault.Fault.TheVariants.{OutOfMemory};

    ghost from_gives = { λ _ fault. fault ≡ OutOfMemory };

    fn from(_: AllocFailed<T>) -> Fault {
        Fault::OutOfMemory
    }
}
