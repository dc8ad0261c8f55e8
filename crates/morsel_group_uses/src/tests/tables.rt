//! All tables of up to four rows, grouped in one part and in several, beside a plain group-by. A function here owns one value that is dropped at
//! most, or hands it on, since each is proved to be dropped at each exit.
ghost use Rattle.std.specs.Prelude.{◌≡◌, ◌<◌, ◌≤◌, ◌∷◌, [], length, IfOk};
ghost use Rattle.morsel_group.specs.Asked.{HasItsColumn, HaveColumns};

use super::asked::names;
use super::grouped::{at_once, grouped};
use super::plain::{is_said, is_value, number_of, said_of, word_of};
use morsel_frame::{Column, Frame, Schema};
use morsel_group::{Agg, GroupSpec};
use morsel_keys::Reduction;
use morsel_meaning::{ColType, Fault, Field, Name};
use std::alloc::Global;
use std::mem::drop;
use std::test::Fail;

/// A row: digits that name its two keys and its value.
#[derive(Clone, Copy, Debug)]
struct Row {
    key: u8,
    other: u8,
    value: u8,
}

/// What is asked: a reduction of values of a type, by one key or by two.
#[derive(Clone, Copy, Debug)]
struct Asked {
    op: Reduction,
    kind: ColType,
    two: bool,
}

/// A column of the rows.
#[derive(Clone, Copy, Debug)]
enum Part {
    Key,
    Other,
    Value,
}

const OPS: [Reduction; 6] = [
    Reduction::Len,
    Reduction::Sum,
    Reduction::Min,
    Reduction::Max,
    Reduction::First,
    Reduction::Last,
];

/// How many tables there are of so many rows, with one key.
const TABLES: [usize; 5] = [1, 9, 81, 729, 6561];

/// The same with two keys, of which the second is one of two.
const TABLES_OF_TWO: [usize; 4] = [1, 18, 324, 5832];

/// The rows that a number stands for.
fn rows_of(alloc: Global, two: bool, count: usize, number: usize) -> Result<Vec<Row>, Fault> {
    let mut rows = Vec::new(alloc);
    let mut left = number;
    for _ in 0..count {
        rows.push(Row {
            key: (left % 3) as u8,
            other: if two { (left / 9 % 2) as u8 } else { 1 },
            value: (left / 3 % 3) as u8,
        })?;
        left = if two { left / 18 } else { left / 9 };
    }
    Ok(rows)
}

fn digit_of(row: Row, part: Part) -> u8 {
    match part {
        Part::Key => row.key,
        Part::Other => row.other,
        Part::Value => row.value,
    }
}

/// Puts the value that a digit names last.
fn push_digit(column: &mut Column, digit: u8) -> Result<(), Fault> {
    match (column.kind(), digit) {
        (_, 0) => column.push_null(),
        (ColType::Int, _) => column.push_int(number_of(digit)),
        (ColType::Bool, _) => column.push_bool(digit == 2),
        (ColType::Text, _) => column.push_text(word_of(digit)),
    }
}

fn push_digits(column: &mut Column, rows: &[Row], part: Part) -> Result<(), Fault> {
    for row in rows {
        push_digit(column, digit_of(*row, part))?;
    }
    Ok(())
}

/// A column of the rows.
fn column_of(alloc: Global, kind: ColType, rows: &[Row], part: Part) -> Result<Column, Fault> {
    let mut column = Column::new(alloc, kind);
    push_digits(&mut column, rows, part)?;
    Ok(column)
}

/// The schema of one column.
fn schema_of_one(alloc: Global, name: &str, kind: ColType) -> Result<Schema, Fault>
    ensures { IfOk result (λ schema. schema ≡ record { name = name.now; kind = kind } ∷ []) }
{
    let name = Name::new(alloc, name)?;
    Schema::new(alloc, vec![in alloc; Field { name, kind }]?)
}

/// The frame of one column.
pub fn framed(alloc: Global, name: &str, column: Column) -> Result<Frame, Fault> {
    let schema = schema_of_one(alloc, name, column.kind())?;
    let height = column.len();
    Ok(Frame::new(alloc, schema, vec![in alloc; column]?, height))
}

/// Two frames side by side, where their heights are the same.
pub fn beside(alloc: Global, frame: Frame, other: Frame) -> Result<Frame, Fault> {
    if frame.height() != other.height() {
        drop(frame);
        drop(other);
        return Err(Fault::Usage);
    }
    frame.hstack(alloc, other)
}

/// The frame of a column of the rows.
fn column_framed(
    alloc: Global,
    name: &str,
    kind: ColType,
    rows: &[Row],
    part: Part,
) -> Result<Frame, Fault> {
    framed(alloc, name, column_of(alloc, kind, rows, part)?)
}

/// The two keys of the rows.
fn keys_of(alloc: Global, rows: &[Row]) -> Result<Frame, Fault> {
    let first = column_framed(alloc, "k", ColType::Text, rows, Part::Key)?;
    beside(
        alloc,
        first,
        column_framed(alloc, "o", ColType::Int, rows, Part::Other)?,
    )
}

/// A table of the rows.
fn table_of(alloc: Global, kind: ColType, rows: &[Row]) -> Result<Frame, Fault> {
    let keys = keys_of(alloc, rows)?;
    beside(
        alloc,
        keys,
        column_framed(alloc, "v", kind, rows, Part::Value)?,
    )
}

/// The reduction of the value; a count of rows reads none.
pub fn agg_of(alloc: Global, op: Reduction, column: &str) -> Result<Agg, Fault>
    ensures { IfOk result (λ agg. HasItsColumn agg.op agg.column) }
{
    let output = Name::new(alloc, "r")?;
    if op == Reduction::Len {
        return Ok(Agg {
            op: Reduction::Len,
            column: None,
            output,
        });
    }
    let column = Some(Name::new(alloc, column)?);
    match op {
        Reduction::Sum => Ok(Agg {
            op: Reduction::Sum,
            column,
            output,
        }),
        Reduction::Min => Ok(Agg {
            op: Reduction::Min,
            column,
            output,
        }),
        Reduction::Max => Ok(Agg {
            op: Reduction::Max,
            column,
            output,
        }),
        Reduction::First => Ok(Agg {
            op: Reduction::First,
            column,
            output,
        }),
        _ => Ok(Agg {
            op: Reduction::Last,
            column,
            output,
        }),
    }
}

/// The reduction of a column by these keys.
pub fn spec_of(
    alloc: Global,
    keys: &[&str],
    op: Reduction,
    column: &str,
) -> Result<GroupSpec, Fault>
    ensures { IfOk result (λ spec. HaveColumns spec.aggs) }
{
    let agg = agg_of(alloc, op, column)?;
    let aggs = vec![in alloc; agg]?;
    Ok(GroupSpec {
        keys: names(alloc, keys)?,
        aggs,
    })
}

/// Whether two rows have one key.
fn is_same_key(row: Row, other: Row, two: bool) -> bool {
    row.key == other.key && (!two || row.other == other.other)
}

/// Whether no row before this one has its key.
fn is_first(rows: &[Row], at: usize, two: bool) -> bool
    requires { at < length rows.now }
{
    for before in 0..at {
        if is_same_key(rows[before], rows[at], two) {
            return false;
        }
    }
    true
}

/// Puts the values of the rows of a key last, in their order.
fn push_values(rows: &[Row], row: Row, two: bool, digits: &mut Vec<u8>) -> Result<(), Fault> {
    for other in rows {
        if is_same_key(row, *other, two) {
            digits.push(other.value)?;
        }
    }
    Ok(())
}

/// Whether a row of the groups has this key.
fn has_key(frame: &Frame, group: usize, row: Row, two: bool) -> bool
    requires { group < length frame.now.rows }
{
    if frame.width() < 2 {
        return false;
    }
    is_value(frame.column(0).get(group), ColType::Text, row.key)
        && (!two || is_value(frame.column(1).get(group), ColType::Int, row.other))
}

/// How many keys there are.
fn keys_in(asked: Asked) -> usize
    ensures { result ≤ 2 }
{
    if asked.two { 2 } else { 1 }
}

/// Whether the last column of a row of the groups has what the reduction says of these values.
fn has_said(frame: &Frame, group: usize, asked: Asked, digits: &[u8]) -> bool
    requires { group < length frame.now.rows }
{
    let last = keys_in(asked);
    if frame.width() != last + 1 {
        return false;
    }
    is_said(
        frame.column(last).get(group),
        asked.kind,
        said_of(asked.op, asked.kind, digits),
    )
}

/// Whether the groups have one with the key of this row and with what is said of these values.
fn has_group(frame: &Frame, row: Row, asked: Asked, digits: &[u8]) -> bool {
    for group in 0..frame.height() {
        if has_key(frame, group, row, asked.two) && has_said(frame, group, asked, digits) {
            return true;
        }
    }
    false
}

/// Whether the groups have that of the row at a place.
fn is_group_right(
    alloc: Global,
    frame: &Frame,
    rows: &[Row],
    at: usize,
    asked: Asked,
) -> Result<bool, Fault>
    requires { at < length rows.now }
{
    let mut digits = Vec::new(alloc);
    push_values(rows, rows[at], asked.two, &mut digits)?;
    Ok(has_group(frame, rows[at], asked, &digits))
}

/// Whether the groups are one for each distinct key, with what is said of its rows.
fn are_groups(alloc: Global, frame: &Frame, rows: &[Row], asked: Asked) -> Result<bool, Fault> {
    let mut distinct: usize = 0;
    for at in 0..rows.len() {
        if is_first(rows, at, asked.two) {
            distinct = distinct.wrapping_add(1);
            if !is_group_right(alloc, frame, rows, at, asked)? {
                return Ok(false);
            }
        }
    }
    Ok(frame.height() == distinct)
}

/// Whether the rows are grouped as the definition says, where they come in so many parts, and all at once for none.
fn is_right(
    alloc: Global,
    table: &Frame,
    spec: &GroupSpec,
    parts: usize,
    asked: Asked,
    rows: &[Row],
) -> Result<bool, Fault>
    requires { HaveColumns spec.now.aggs }
{
    let frame = if parts > 0 {
        grouped(alloc, table, spec, parts)?
    } else {
        at_once(alloc, table, spec)?
    };
    are_groups(alloc, &frame, rows, asked)
}

/// The first way that is wrong in which the rows may come.
fn wrong_way(
    alloc: Global,
    table: &Frame,
    spec: &GroupSpec,
    asked: Asked,
    rows: &[Row],
) -> Result<Option<usize>, Fault>
    requires { HaveColumns spec.now.aggs }
{
    for parts in 0..4 {
        if !is_right(alloc, table, spec, parts, asked, rows)? {
            return Ok(Some(parts));
        }
    }
    Ok(None)
}

fn asked_spec(alloc: Global, asked: Asked) -> Result<GroupSpec, Fault>
    ensures { IfOk result (λ spec. HaveColumns spec.aggs) }
{
    if asked.two {
        spec_of(alloc, &["k", "o"], asked.op, "v")
    } else {
        spec_of(alloc, &["k"], asked.op, "v")
    }
}

fn wrong_rows(alloc: Global, asked: Asked, rows: &[Row]) -> Result<Option<usize>, Fault> {
    let spec = asked_spec(alloc, asked)?;
    let table = table_of(alloc, asked.kind, rows)?;
    wrong_way(alloc, &table, &spec, asked, rows)
}

/// The first way that is wrong in which the rows of the table of this number may come.
fn wrong_table(
    alloc: Global,
    asked: Asked,
    count: usize,
    number: usize,
) -> Result<Option<usize>, Fault> {
    let rows = rows_of(alloc, asked.two, count, number)?;
    wrong_rows(alloc, asked, &rows)
}

/// The first table of so many rows that is grouped wrongly, by its number and the parts in which its rows came.
fn wrong_tables(
    alloc: Global,
    asked: Asked,
    count: usize,
    tables: usize,
) -> Result<Option<(usize, usize)>, Fault> {
    for number in 0..tables {
        if let Some(parts) = wrong_table(alloc, asked, count, number)? {
            return Ok(Some((number, parts)));
        }
    }
    Ok(None)
}

/// Whether a reduction of values of a type is asked of no group-by.
fn is_none(asked: Asked) -> bool {
    asked.op == Reduction::Sum && asked.kind != ColType::Int
}

/// The first table with one key that is grouped wrongly by a reduction.
fn wrong_by(alloc: Global, asked: Asked) -> Result<Option<(usize, usize)>, Fault> {
    if is_none(asked) {
        return Ok(None);
    }
    for count in 0..5 {
        if let Some(case) = wrong_tables(alloc, asked, count, TABLES[count])? {
            return Ok(Some(case));
        }
    }
    Ok(None)
}

/// The first table with one key that is grouped wrongly.
fn wrong_of(alloc: Global, kind: ColType) -> Result<Option<(usize, usize)>, Fault> {
    for op in OPS {
        let asked = Asked {
            op,
            kind,
            two: false,
        };
        if let Some(case) = wrong_by(alloc, asked)? {
            return Ok(Some(case));
        }
    }
    Ok(None)
}

/// The first table with two keys that is grouped wrongly by a reduction.
fn wrong_by_two(alloc: Global, op: Reduction) -> Result<Option<(usize, usize)>, Fault> {
    let asked = Asked {
        op,
        kind: ColType::Int,
        two: true,
    };
    for count in 0..4 {
        if let Some(case) = wrong_tables(alloc, asked, count, TABLES_OF_TWO[count])? {
            return Ok(Some(case));
        }
    }
    Ok(None)
}

/// The first table with two keys that is grouped wrongly.
fn wrong_of_two(alloc: Global) -> Result<Option<(usize, usize)>, Fault> {
    for op in OPS {
        if let Some(case) = wrong_by_two(alloc, op)? {
            return Ok(Some(case));
        }
    }
    Ok(None)
}

#[test]
fn all_small_tables_of_numbers_are_grouped(rt: HostRuntime) -> Result<(), Fail> {
    assert_eq!(rt; wrong_of(rt.alloc(), ColType::Int)?, None);
    Ok(())
}

#[test]
fn all_small_tables_of_truth_values_are_grouped(rt: HostRuntime) -> Result<(), Fail> {
    assert_eq!(rt; wrong_of(rt.alloc(), ColType::Bool)?, None);
    Ok(())
}

#[test]
fn all_small_tables_of_texts_are_grouped(rt: HostRuntime) -> Result<(), Fail> {
    assert_eq!(rt; wrong_of(rt.alloc(), ColType::Text)?, None);
    Ok(())
}

#[test]
fn all_small_tables_are_grouped_by_two_keys(rt: HostRuntime) -> Result<(), Fail> {
    assert_eq!(rt; wrong_of_two(rt.alloc())?, None);
    Ok(())
}
