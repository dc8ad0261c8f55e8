//! What a scan asks of files.
use morsel_expr::Pred;
use morsel_frame::Schema;
use morsel_grammar::CsvOptions;
use morsel_meaning::Name;
use std::marker::Model;

/// A column of the rows' positions.
#[derive(Debug, Drop)]
pub struct RowIndex {
    /// The column's name.
    pub name: Name,
    /// The number of the first row of the first file, before a slice.
    pub offset: u32,
}

/// What is asked of the rows of files, whatever their format.
#[derive(Debug, Drop)]
pub struct FileScanOptions {
    /// The offset and the length of the rows that are kept; an offset below 0 counts from the end.
    pub slice: Option<(i64, u64)>,
    /// The columns that are kept, each by its name; none means all.
    pub columns: Vec<Name>,
    /// A first column of the rows' positions.
    pub row_index: Option<RowIndex>,
    /// The name of a last column, of the names of the rows' files.
    pub path: Option<Name>,
    /// Whether a file may lack a column, which is then null. Row-group files alone may.
    pub allow_missing_columns: bool,
}

impl Model for FileScanOptions {
    ghost use Rattle.morsel_scan.specs.Scans.{FileOptions};

    ghost Value = { FileOptions };

    ghost view = { λ o. record {
      slice = o.slice;
      columns = o.columns.items;
      row_index = o.row_index;
      path = o.path;
      allow_missing_columns = o.allow_missing_columns;
    } };
}

/// The format of a scan's files.
#[derive(Debug, Drop)]
pub enum ScanFormat {
    /// CSV texts with these columns.
    Csv {
        /// The names and types of the columns.
        schema: Schema,
        /// How the texts are written.
        options: CsvOptions,
    },
}

/// A scan: files, and what is asked of their rows.
#[derive(Debug, Drop)]
pub struct ScanSpec {
    /// The names of the files, in the order of their rows.
    pub sources: Vec<Name>,
    /// Their format.
    pub format: ScanFormat,
    /// What is asked of their rows.
    pub file_options: FileScanOptions,
    /// The predicate of the rows that are kept, over the row index, the columns and the path.
    pub filter: Option<Pred>,
}
