//! The query of a command: the words tell it, or a query file does.
ghost use Rattle.std.specs.Prelude.{◌≡◌, ◌⊎◌, IfOk, IfErr};
ghost use Rattle.morsel_query.specs.QueryFlaws.{IsSound, IsFlawFault};
ghost use Rattle.morsel_prog.specs.Words.{AnswerQuery};
ghost use Rattle.morsel_prog.specs.Results.{command_of_words};
ghost use Rattle.morsel_prog.specs.CommandQueries.{scan_parts};
ghost use Rattle.morsel_prog.specs.QueryReads.{HasOrLacks};

use crate::query_file::{query_of_bytes, read_query_file};
use crate::words::CommandWords;
use morsel_frame::Schema;
use morsel_grammar::CsvOptions;
use morsel_meaning::{Fault, Name};
use morsel_outside::Io;
use morsel_query::{Options, Query};
use morsel_scan::{FileScanOptions, ScanFormat, ScanSpec};
use morsel_sink::{SinkFormat, SinkSpec};
use std::alloc::Global;

/// The query of a command, and the options by which it is to be run. It opens and reads the query file, where the command has
/// one, and no other.
pub fn query_of_command<H: Io>(
    alloc: Global,
    io: &mut H,
    command: CommandWords<'_>,
) -> Result<(Query, Options), Fault>
    ensures { HasOrLacks (H.seen io.old) (command_of_words command.entry) result (H.seen io.new) }
{
    match command {
        CommandWords::Scan { file, schema, out } => {
            Ok((scan_query(alloc, file, schema, out)?, Options::standard()))
        }
        CommandWords::Local { query, out } => query_of_file(alloc, io, query, out),
    }
}

/// The query in the file of this name.
fn query_of_file<H: Io>(
    alloc: Global,
    io: &mut H,
    name: &str,
    out: &str,
) -> Result<(Query, Options), Fault>
    ensures { HasOrLacks (H.seen io.old) (AnswerQuery name.now out.now) result (H.seen io.new) }
{
    let bytes = read_query_file(alloc, io, name)?;
    query_of_bytes(alloc, bytes.as_slice(), out)
}

/// The scan of a whole CSV file, which is written in the standard way, into NDJSON.
fn scan_query(alloc: Global, file: &str, schema: Schema, out: &str) -> Result<Query, Fault>
    ensures ok { IfOk result (λ query. IsSound query × (query ≡ scan_parts file.now schema out.now)) }
    ensures refused { IfErr result (λ fault. (fault ≡ Fault.OutOfMemory) ⊎ IsFlawFault (scan_parts file.now schema out.now) fault) }
{
    let left = ScanSpec {
        sources: vec![in alloc; Name::new(alloc, file)?]?,
        format: ScanFormat::Csv {
            schema,
            options: CsvOptions::standard(alloc)?,
        },
        file_options: FileScanOptions {
            slice: None,
            columns: Vec::new(alloc),
            row_index: None,
            path: None,
            allow_missing_columns: false,
        },
        filter: None,
    };
    let sink = SinkSpec {
        name: Name::new(alloc, out)?,
        format: SinkFormat::NdJson,
    };
    Query::new(left, None, None, sink)
}
