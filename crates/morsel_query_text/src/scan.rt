//! A scan of a query's text.
ghost use Rattle.std.specs.Prelude.{IfOk, IfErr, IfSome, IsNone};
ghost use Rattle.serde_json.specs.View.{view};
ghost use Rattle.morsel_query_text.specs.Written.{WrittenCsv};
ghost use Rattle.morsel_query_text.specs.QueryTexts.{ScanOf};
ghost use Rattle.morsel_query_text.specs.Borrowed.{csv_of, scan_of_text};
ghost use Rattle.morsel_query_text.specs.Reads.{RefusedBy, IsCsvFormat, AreAsked};

use crate::csv::CsvText;
use crate::lists::{fields_due_at, name_at, names_at, names_due_at, row_index_at, slice_at};
use crate::predicate::predicate_at;
use crate::trees::{has_only_keys, text_at, truth_at};
use morsel_expr::PredNode;
use morsel_meaning::{Fault, Field, Name};
use morsel_scan::FileScanOptions;
use serde_json::Value;
use std::alloc::Global;

/// A scan as a query's text has it, before its flaws are looked for.
#[derive(Debug, Drop)]
pub struct ScanText<'t> {
    pub files: Vec<Name>,
    pub fields: Vec<Field>,
    pub csv: CsvText<'t>,
    pub asked: FileScanOptions,
    pub filter: Option<PredNode>,
}

/// The keys of a scan of CSV files.
const KEYS: [&str; 9] = [
    "format",
    "files",
    "schema",
    "csv",
    "columns",
    "slice",
    "row_index",
    "path",
    "filter",
];

/// The scan that a tree is.
pub fn read_scan(alloc: Global, tree: &Value) -> Result<ScanText<'_>, Fault>
    ensures ok { IfOk result (λ scan. ScanOf (view tree.now) (scan_of_text scan)) }
    ensures refused { IfErr result (RefusedBy (ScanOf (view tree.now))) }
{
    let Some(csv) = csv_format(tree) else {
        return Err(Fault::QueryText);
    };
    let asked = read_asked(alloc, tree)?;
    let files = names_due_at(alloc, tree, "files")?;
    let fields = fields_due_at(alloc, tree, "schema")?;
    let filter = predicate_at(alloc, tree, "filter")?;
    Ok(ScanText {
        files,
        fields,
        csv,
        asked,
        filter,
    })
}

/// How the texts of a scan of CSV files are written.
fn csv_format(tree: &Value) -> Option<CsvText<'_>>
    ensures some { IfSome result (λ csv. IsCsvFormat (view tree.now) (csv_of csv)) }
    ensures none { IsNone result → (csv : WrittenCsv) → IsCsvFormat (view tree.now) csv → ⊥ }
{
    if !has_only_keys(tree, &KEYS) {
        return None;
    }
    if text_at(tree, "format", None)? != "csv" {
        return None;
    }
    match tree.get("csv") {
        Some(found) => CsvText::read(found),
        None => Some(CsvText::standard()),
    }
}

/// What a scan asks of the rows of its files.
fn read_asked(alloc: Global, tree: &Value) -> Result<FileScanOptions, Fault>
    ensures ok { IfOk result (AreAsked (view tree.now)) }
    ensures refused { IfErr result (RefusedBy (AreAsked (view tree.now))) }
{
    let slice = slice_at(tree, "slice")?;
    // No key of CSV files, so false.
    let Some(allow_missing_columns) = truth_at(tree, "allow_missing_columns", false) else {
        return Err(Fault::QueryText);
    };
    let columns = names_at(alloc, tree, "columns")?;
    let row_index = row_index_at(alloc, tree, "row_index")?;
    let path = name_at(alloc, tree, "path")?;
    Ok(FileScanOptions {
        slice,
        columns,
        row_index,
        path,
        allow_missing_columns,
    })
}
