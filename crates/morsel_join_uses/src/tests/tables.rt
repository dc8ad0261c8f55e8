//! Tables that are made of plain lists, what they are joined by, and the rows of a join as a plain list again. A function here owns one value
//! that is dropped at most, or hands it on, since each is proved to be dropped at each exit.
ghost use Rattle.std.specs.Prelude.{◌≡◌, ◌<◌, ◌∷◌, [], length, IfOk, IfSome};
ghost use Rattle.morsel_join.specs.Rows.{FitRules};

use morsel_frame::{Cell, Column, Frame, Schema};
use morsel_join::{JoinArgs, JoinRules, JoinType, MaintainOrderJoin, join_frames};
use morsel_meaning::{ColType, Fault, Field, Name};
use std::alloc::Global;
use std::mem::drop;

/// What is asked of a join, but for the suffix.
#[derive(Clone, Copy, Debug)]
pub struct Asked {
    pub how: JoinType,
    pub order: MaintainOrderJoin,
    pub nulls: bool,
    pub coalesce: bool,
}

/// A row of a join: the numbers of its left and its right row, and what the columns of keys have.
#[derive(Clone, Copy, Debug, PartialEq, Eq)]
pub struct Found {
    pub left: Option<usize>,
    pub right: Option<usize>,
    /// What the column `k` has.
    pub key: Option<i64>,
    /// What the column `k_right` has, and none where there is no such column.
    pub right_key: Option<i64>,
}

/// How many things may be asked of a join.
pub const ASKED: usize = 80;

const KINDS: [JoinType; 4] = [
    JoinType::Inner,
    JoinType::Left,
    JoinType::Right,
    JoinType::Full,
];

const ORDERS: [MaintainOrderJoin; 5] = [
    MaintainOrderJoin::None,
    MaintainOrderJoin::Left,
    MaintainOrderJoin::Right,
    MaintainOrderJoin::LeftRight,
    MaintainOrderJoin::RightLeft,
];

/// What is asked by a number: each kind with each promise, with nulls equal and not, coalesced and not.
pub fn asked_of(number: usize) -> Asked {
    Asked {
        how: KINDS[number % 4],
        order: ORDERS[number / 4 % 5],
        nulls: number / 20 % 2 == 1,
        coalesce: number / 40 % 2 == 1,
    }
}

/// Puts a number last, or a null.
fn push_number(column: &mut Column, number: Option<i64>) -> Result<(), Fault> {
    match (column.kind(), number) {
        (ColType::Int, Some(number)) => column.push_int(number),
        _ => column.push_null(),
    }
}

fn push_numbers(column: &mut Column, numbers: &[Option<i64>]) -> Result<(), Fault> {
    for number in numbers {
        push_number(column, *number)?;
    }
    Ok(())
}

/// A column of numbers.
fn number_column(alloc: Global, numbers: &[Option<i64>]) -> Result<Column, Fault> {
    let mut column = Column::new(alloc, ColType::Int);
    push_numbers(&mut column, numbers)?;
    Ok(column)
}

/// Puts a text last, or a null.
fn push_word(column: &mut Column, word: Option<&str>) -> Result<(), Fault> {
    match (column.kind(), word) {
        (ColType::Text, Some(word)) => column.push_text(word),
        _ => column.push_null(),
    }
}

fn push_words(column: &mut Column, words: &[Option<&str>]) -> Result<(), Fault> {
    for word in words {
        push_word(column, *word)?;
    }
    Ok(())
}

/// A column of texts.
fn word_column(alloc: Global, words: &[Option<&str>]) -> Result<Column, Fault> {
    let mut column = Column::new(alloc, ColType::Text);
    push_words(&mut column, words)?;
    Ok(column)
}

/// The schema of one column.
fn schema_of_one(alloc: Global, name: &str, kind: ColType) -> Result<Schema, Fault>
    ensures { IfOk result (λ schema. schema ≡ record { name = name.now; kind = kind } ∷ []) }
{
    let name = Name::new(alloc, name)?;
    Schema::new(alloc, vec![in alloc; Field { name, kind }]?)
}

/// The frame of one column.
fn framed(alloc: Global, name: &str, column: Column) -> Result<Frame, Fault> {
    let schema = schema_of_one(alloc, name, column.kind())?;
    let height = column.len();
    Ok(Frame::new(alloc, schema, vec![in alloc; column]?, height))
}

/// The frame of one column of numbers.
fn numbers_of(alloc: Global, name: &str, numbers: &[Option<i64>]) -> Result<Frame, Fault> {
    framed(alloc, name, number_column(alloc, numbers)?)
}

/// The frame of one column of texts.
fn words_of(alloc: Global, name: &str, words: &[Option<&str>]) -> Result<Frame, Fault> {
    framed(alloc, name, word_column(alloc, words)?)
}

/// The frame with a first column of the numbers of its rows.
fn numbered(alloc: Global, frame: Frame, rows: &str) -> Result<Frame, Fault> {
    frame.with_row_index(alloc, Name::new(alloc, rows)?, 0)
}

/// Two frames side by side, where their heights are the same.
fn beside(alloc: Global, frame: Frame, other: Frame) -> Result<Frame, Fault> {
    if frame.height() != other.height() {
        drop(frame);
        drop(other);
        return Err(Fault::Usage);
    }
    frame.hstack(alloc, other)
}

/// A table of these keys in a column of this name, with the numbers of its rows under another name.
fn table_by(alloc: Global, name: &str, keys: &[Option<i64>], rows: &str) -> Result<Frame, Fault> {
    numbered(alloc, numbers_of(alloc, name, keys)?, rows)
}

/// A table of keys of two columns, `k` with numbers and `t` with texts, with the numbers of its rows under another name.
fn table_of_two(
    alloc: Global,
    numbers: &[Option<i64>],
    words: &[Option<&str>],
    rows: &str,
) -> Result<Frame, Fault> {
    let first = numbers_of(alloc, "k", numbers)?;
    let both = beside(alloc, first, words_of(alloc, "t", words)?)?;
    numbered(alloc, both, rows)
}

/// The left and the right table of a join.
#[derive(Drop)]
pub struct Tables {
    pub left: Frame,
    pub right: Frame,
}

/// Two tables of these keys, with the right ones in a column of this name.
pub fn tables_by(
    alloc: Global,
    lefts: &[Option<i64>],
    name: &str,
    rights: &[Option<i64>],
) -> Result<Tables, Fault> {
    let left = table_by(alloc, "k", lefts, "l")?;
    let right = table_by(alloc, name, rights, "r")?;
    Ok(Tables { left, right })
}

/// Two tables of these keys.
pub fn tables_of(
    alloc: Global,
    lefts: &[Option<i64>],
    rights: &[Option<i64>],
) -> Result<Tables, Fault> {
    tables_by(alloc, lefts, "k", rights)
}

/// Two tables of these keys of two columns.
pub fn tables_of_two(
    alloc: Global,
    lefts: (&[Option<i64>], &[Option<&str>]),
    rights: (&[Option<i64>], &[Option<&str>]),
) -> Result<Tables, Fault> {
    let left = table_of_two(alloc, lefts.0, lefts.1, "l")?;
    let right = table_of_two(alloc, rights.0, rights.1, "r")?;
    Ok(Tables { left, right })
}

/// The names of pairs of keys.
#[derive(Drop)]
struct Keys {
    left: Vec<Name>,
    right: Vec<Name>,
}

fn push_name(alloc: Global, names: &mut Vec<Name>, name: &str) -> Result<(), Fault> {
    names.push(Name::new(alloc, name)?)?;
    Ok(())
}

fn push_pair(alloc: Global, keys: &mut Keys, left: &str, right: &str) -> Result<(), Fault> {
    push_name(alloc, &mut keys.left, left)?;
    push_name(alloc, &mut keys.right, right)
}

fn push_pairs(alloc: Global, keys: &mut Keys, pairs: &[(&str, &str)]) -> Result<(), Fault> {
    for (left, right) in pairs {
        push_pair(alloc, keys, *left, *right)?;
    }
    Ok(())
}

fn keys_of(alloc: Global, pairs: &[(&str, &str)]) -> Result<Keys, Fault> {
    let mut keys = Keys {
        left: Vec::new(alloc),
        right: Vec::new(alloc),
    };
    push_pairs(alloc, &mut keys, pairs)?;
    Ok(keys)
}

fn args_of(alloc: Global, asked: Asked, suffix: &str) -> Result<JoinArgs, Fault> {
    Ok(JoinArgs {
        how: asked.how,
        maintain_order: asked.order,
        join_nulls: asked.nulls,
        coalesce: asked.coalesce,
        suffix: Name::new(alloc, suffix)?,
    })
}

/// The rules of a join by keys of these names.
fn rules_by(
    alloc: Global,
    left: &Schema,
    right: &Schema,
    left_keys: &[Name],
    right_keys: &[Name],
    args: &JoinArgs,
) -> Result<JoinRules, Fault>
    ensures { IfOk result (λ rules. FitRules left.now right.now rules) }
{
    if left_keys.len() != right_keys.len()
        || left_keys.is_empty()
        || left.len() > 10
        || right.len() > 10
    {
        return Err(Fault::Usage);
    }
    JoinRules::new(alloc, left, right, left_keys, right_keys, args)
}

fn rules_with(
    alloc: Global,
    left: &Schema,
    right: &Schema,
    pairs: &[(&str, &str)],
    args: &JoinArgs,
) -> Result<JoinRules, Fault>
    ensures { IfOk result (λ rules. FitRules left.now right.now rules) }
{
    let keys = keys_of(alloc, pairs)?;
    rules_by(alloc, left, right, &keys.left, &keys.right, args)
}

/// The rules of a join of tables with these columns, by pairs of columns of these names.
pub fn rules_of(
    alloc: Global,
    left: &Schema,
    right: &Schema,
    pairs: &[(&str, &str)],
    asked: Asked,
    suffix: &str,
) -> Result<JoinRules, Fault>
    ensures { IfOk result (λ rules. FitRules left.now right.now rules) }
{
    let args = args_of(alloc, asked, suffix)?;
    rules_with(alloc, left, right, pairs, &args)
}

fn join_by(alloc: Global, tables: &Tables, rules: &JoinRules) -> Result<Frame, Fault>
    requires { FitRules tables.now.left.schema tables.now.right.schema rules.now }
{
    if tables.left.height() > 1000 || tables.right.height() > 1000 {
        return Err(Fault::Usage);
    }
    join_frames(alloc, &tables.left, &tables.right, rules)
}

/// The join of two tables by pairs of columns of these names.
pub fn joined(
    alloc: Global,
    tables: &Tables,
    pairs: &[(&str, &str)],
    asked: Asked,
) -> Result<Frame, Fault> {
    let left = tables.left.schema();
    let right = tables.right.schema();
    let rules = rules_of(alloc, left, right, pairs, asked, "_right")?;
    join_by(alloc, tables, &rules)
}

/// The place, if a frame has a column there.
fn within(frame: &Frame, at: usize) -> Option<usize>
    ensures { IfSome result (λ at. at < length frame.now.schema) }
{
    if at < frame.width() { Some(at) } else { None }
}

/// The place of a column that is there.
fn place_of(frame: &Frame, name: &str) -> Option<usize>
    ensures { IfSome result (λ at. at < length frame.now.schema) }
{
    match frame.schema().find(name) {
        Some(at) => within(frame, at),
        None => None,
    }
}

/// The number of a row in a column, if it has one there.
pub fn number_at(frame: &Frame, name: &str, row: usize) -> Option<i64> {
    let at = place_of(frame, name)?;
    if row >= frame.height() {
        return None;
    }
    match frame.column(at).get(row) {
        Cell::Int(number) => Some(number),
        _ => None,
    }
}

/// Whether a row has this text in a column.
pub fn has_text(frame: &Frame, name: &str, row: usize, text: &str) -> bool {
    let Some(at) = place_of(frame, name) else {
        return false;
    };
    row < frame.height() && frame.column(at).get(row) == Cell::Text(text)
}

/// The row that has this number, if one is told.
fn row_at(frame: &Frame, name: &str, row: usize) -> Option<usize> {
    let number = number_at(frame, name, row)?;
    if number < 0 {
        None
    } else {
        Some(number as usize)
    }
}

/// Puts the rows of a join last.
pub fn put_rows(frame: &Frame, rows: &mut Vec<Found>) -> Result<(), Fault> {
    for row in 0..frame.height() {
        rows.push(Found {
            left: row_at(frame, "l", row),
            right: row_at(frame, "r", row),
            key: number_at(frame, "k", row),
            right_key: number_at(frame, "k_right", row),
        })?;
    }
    Ok(())
}

/// The rows of a join.
pub fn rows_of(alloc: Global, frame: &Frame) -> Result<Vec<Found>, Fault> {
    let mut rows = Vec::new(alloc);
    put_rows(frame, &mut rows)?;
    Ok(rows)
}

/// Whether the column at a place has this name.
fn is_named(fields: &[Field], at: usize, name: &str) -> bool {
    at < fields.len() && fields[at].name.as_str() == name
}

/// Whether columns have these names.
pub fn has_names(fields: &[Field], names: &[&str]) -> bool {
    for at in 0..names.len() {
        if !is_named(fields, at, names[at]) {
            return false;
        }
    }
    fields.len() == names.len()
}
