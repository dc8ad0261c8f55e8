//! What the tests are made of: scans, filters and pieces.
ghost use Rattle.std.specs.Prelude.{◌≡◌, ◌+◌, ◌<◌, ◌≤◌};
ghost use Rattle.morsel_scan.specs.CsvScans.{FitsScan};

use morsel_expr::{CmpOp, Pred, PredNode, Rhs};
use morsel_frame::Schema;
use morsel_grammar::CsvOptions;
use morsel_meaning::{ColType, Fault, Field, Name, Value};
use morsel_pipe::{MorselSeq, RawPiece};
use morsel_scan::{CsvSourceNode, FileScanOptions, RowIndex};
use std::alloc::Global;
use std::process::Abort;

/// The number that faults give to the file.
const FILE: u32 = 3;

/// What a test asks of a scan: the columns that are kept, the row index, the path.
#[derive(Clone, Copy)]
pub struct Asked<'a> {
    pub columns: &'a [&'a str],
    pub index: Option<(&'a str, u32)>,
    pub path: Option<&'a str>,
}

/// All columns, without a row index and a path.
pub const ALL: Asked<'static> = Asked {
    columns: &[],
    index: None,
    path: None,
};

/// Where a piece of a test stands: the place of its first byte, the position of its first row, how many rows it has,
/// and which of them the slice keeps.
#[derive(Clone, Copy)]
pub struct Stand {
    pub at: u64,
    pub first_row: u64,
    pub rows: u32,
    pub slice: (u32, u32),
}

pub fn name(rt: &impl Abort, alloc: Global, text: &str) -> Name {
    Name::new(alloc, text).expect(rt, "memory")
}

/// The schema of these columns.
fn schema_of(rt: &impl Abort, alloc: Global, columns: &[(&str, ColType)]) -> Schema {
    let mut fields = Vec::new(alloc);
    for (column, kind) in columns {
        let field = Field {
            name: name(rt, alloc, column),
            kind: *kind,
        };
        fields.push(field).expect(rt, "memory");
    }
    Schema::new(alloc, fields).expect(rt, "distinct names")
}

fn names(rt: &impl Abort, alloc: Global, texts: &[&str]) -> Vec<Name> {
    let mut names = Vec::new(alloc);
    for text in texts {
        names.push(name(rt, alloc, text)).expect(rt, "memory");
    }
    names
}

fn row_index(rt: &impl Abort, alloc: Global, index: Option<(&str, u32)>) -> Option<RowIndex> {
    match index {
        Some((text, offset)) => Some(RowIndex {
            name: name(rt, alloc, text),
            offset,
        }),
        None => None,
    }
}

fn path_of(rt: &impl Abort, alloc: Global, path: Option<&str>) -> Option<Name> {
    match path {
        Some(text) => Some(name(rt, alloc, text)),
        None => None,
    }
}

fn options_of(rt: &impl Abort, alloc: Global, asked: Asked<'_>) -> FileScanOptions {
    FileScanOptions {
        slice: None,
        columns: names(rt, alloc, asked.columns),
        row_index: row_index(rt, alloc, asked.index),
        path: path_of(rt, alloc, asked.path),
        allow_missing_columns: false,
    }
}

/// The node of a scan with these columns.
pub fn node_of(
    rt: &impl Abort,
    alloc: Global,
    columns: &[(&str, ColType)],
    asked: Asked<'_>,
    filter: Option<Pred>,
) -> Result<CsvSourceNode, Fault> {
    let schema = schema_of(rt, alloc, columns);
    let options = CsvOptions::standard(alloc).expect(rt, "memory");
    CsvSourceNode::new(alloc, schema, options, options_of(rt, alloc, asked), filter)
}

/// A piece of the file `f.csv`.
fn piece_of(rt: &impl Abort, alloc: Global, text: &[u8], stand: Stand) -> RawPiece
    ensures { FitsScan result }
{
    let Stand {
        at,
        first_row,
        rows,
        slice,
    } = stand;
    assert!(rt; text.len() < 1000 && at < 1000 && first_row < 1000 && rows < 1000);
    assert!(rt; slice.0 < 1000 && slice.1 < 1000);
    assert!(rt; slice.0 + slice.1 <= rows);
    RawPiece {
        seq: MorselSeq::new(0),
        file: FILE,
        source: name(rt, alloc, "f.csv"),
        at,
        first_row,
        rows,
        slice,
        parts: Vec::new(alloc),
        bytes: Vec::from_slice(alloc, text).expect(rt, "memory"),
        from: at,
        to: at + text.len() as u64,
    }
}

/// What a node makes of a piece.
pub fn decoded(
    rt: &impl Abort,
    alloc: Global,
    node: &CsvSourceNode,
    text: &[u8],
    stand: Stand,
) -> Result<morsel_frame::Frame, Fault> {
    node.decode(alloc, piece_of(rt, alloc, text, stand))
}

fn boxed(rt: &impl Abort, alloc: Global, node: PredNode) -> Box<PredNode> {
    Box::new(alloc, node).expect(rt, "memory")
}

/// A column of numbers compared with a number.
pub fn number(rt: &impl Abort, alloc: Global, op: CmpOp, column: &str, value: i64) -> PredNode {
    PredNode::Cmp(op, name(rt, alloc, column), Rhs::Lit(Value::Int(value)))
}

/// A column of texts that has a text.
pub fn text(rt: &impl Abort, alloc: Global, column: &str, value: &str) -> PredNode {
    PredNode::Cmp(
        CmpOp::Eq,
        name(rt, alloc, column),
        Rhs::Lit(Value::Text(name(rt, alloc, value))),
    )
}

pub fn both(rt: &impl Abort, alloc: Global, a: PredNode, b: PredNode) -> PredNode {
    PredNode::And(boxed(rt, alloc, a), boxed(rt, alloc, b))
}

pub fn pred(rt: &impl Abort, node: PredNode) -> Pred {
    Pred::new(node).expect(rt, "few levels")
}
