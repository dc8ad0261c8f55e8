//! How many rows whole records are: 64 bytes at a time, and one by one where these do not tell.
ghost use Rattle.std.specs.Prelude.{◌≡◌, ◌<◌, ◌≤◌, List, length, if◌then◌else◌};
ghost use Rattle.morsel_grammar.specs.Grammar.{CsvRecord, Records};
ghost use Rattle.morsel_cut.specs.RowCounts.{row_count, TakesRows};

use crate::lines::count_lines;
use crate::record::{is_row, record_size};
use crate::step::Delimiters;
use morsel_grammar::CsvOptions;

/// How many rows of so many columns the records of `bytes` are, which follow the header.
///
/// Comments are none, and an empty record is one of one column alone. A record with too many or too few fields counts as one.
pub fn rows_of(bytes: &[u8], columns: usize, options: &CsvOptions) -> usize
    ensures few { result ≤ length bytes.now }
    ensures rows { (records : List CsvRecord) → Records options.now bytes.now records → result ≡ row_count columns records }
{
    let mut rows = 0;
    let mut at = 0;
    while at < bytes.len() {
        let (len, more) = front_rows(&bytes[at..], columns, options);
        rows += more;
        at += len;
    }
    rows
}

/// How many bytes some records take that a text begins with, and how many rows they are.
fn front_rows(text: &[u8], columns: usize, options: &CsvOptions) -> (usize, usize)
    requires some { 0 < length text.now }
    ensures some { 0 < result.0 }
    ensures within { result.0 ≤ length text.now }
    ensures few { result.1 ≤ result.0 }
    ensures rows { (records : List CsvRecord) → Records options.now text.now records
        → TakesRows options.now columns text.now records result.0 result.1 }
{
    let (len, rows) = line_rows(text, columns, options);
    if len > 0 {
        return (len, rows);
    }
    (
        record_size(text, options),
        one_if(is_row(text, columns, options)),
    )
}

/// How many bytes some records take that a text begins with, and how many rows they are, where these are told 64 bytes at a
/// time; else none.
fn line_rows(text: &[u8], columns: usize, options: &CsvOptions) -> (usize, usize)
    ensures within { result.0 ≤ length text.now }
    ensures few { result.1 ≤ result.0 }
    ensures rows { 0 < result.0 → (records : List CsvRecord) → Records options.now text.now records
        → TakesRows options.now columns text.now records result.0 result.1 }
{
    let None = options.comment() else {
        return (0, 0);
    };
    count_lines(text, columns, Delimiters::of(options))
}

/// One where the test holds, and else none.
#[inline(always)]
fn one_if(test: bool) -> usize
    ensures value { result ≡ (if test then 1 else 0) }
    ensures few { result ≤ 1 }
{
    if test { 1 } else { 0 }
}
