//! Keys of a few rows with their numbers, by row, by value and by whole columns.
ghost use Rattle.std.specs.Prelude.{◌≡◌, ◌<◌, ◌∷◌, [], IfOk, length};
ghost use Rattle.std.specs.List.{All};
ghost use Rattle.morsel_meaning.specs.Values.{kinds_of};
ghost use Rattle.morsel_frame.specs.Tables.{fields_at};

use super::rows::by_columns;
use super::samples::{beside, frame_of};
use morsel_frame::{Cell, Column, Frame};
use morsel_keys::{ColumnKeys, KeyTable};
use morsel_meaning::{ColType, Fault, Value};
use std::alloc::Global;
use std::test::Fail;

/// Seeds of tables of keys. None of them changes a number.
const SEEDS: &[u64] = &[0, 1, 11400714819323198485];

/// Whether the rows get these numbers in a table, one after the other, and each is found by its own.
fn numbers_rows(
    table: &mut KeyTable,
    frame: &Frame,
    columns: &[usize],
    wanted: &[u32],
) -> Result<bool, Fault>
    requires columns { All (λ at. at < length frame.now.schema) columns.now }
    requires kinds { kinds_of (fields_at frame.now.schema columns.now) ≡ table.old.kinds }
    ensures { table.new.kinds ≡ table.old.kinds }
{
    if frame.height() != wanted.len() {
        return Ok(false);
    }
    for row in 0..wanted.len() {
        let at = table.insert(frame, columns, row)?;
        if at != wanted[row] || table.find(frame, columns, row) != Some(at) {
            return Ok(false);
        }
    }
    Ok(true)
}

/// Whether the rows of a frame of one column get these numbers in a new table.
fn by_row(
    alloc: Global,
    seed: u64,
    frame: &Frame,
    kind: ColType,
    wanted: &[u32],
) -> Result<bool, Fault>
    requires within { 0 < length frame.now.schema }
    requires kind { kinds_of (fields_at frame.now.schema (0 ∷ [])) ≡ kind ∷ [] }
{
    let mut table = KeyTable::with_seed(vec![in alloc; kind]?, seed);
    numbers_rows(&mut table, frame, &[0], wanted)
}

/// Whether the values get these numbers, one after the other, and each is found by its own.
fn numbers_values(keys: &mut ColumnKeys, column: &Column, wanted: &[u32]) -> Result<bool, Fault>
    requires { column.now.kind ≡ keys.old.kind }
{
    if column.len() != wanted.len() {
        return Ok(false);
    }
    for row in 0..wanted.len() {
        let at = keys.insert(column.get(row))?;
        if at != wanted[row] || keys.find(column.get(row)) != Some(at) {
            return Ok(false);
        }
    }
    Ok(true)
}

/// Whether the values get these numbers among new keys.
fn by_value(alloc: Global, seed: u64, column: &Column, wanted: &[u32]) -> Result<bool, Fault> {
    let mut keys = ColumnKeys::new(alloc, column.kind(), seed);
    numbers_values(&mut keys, column, wanted)
}

/// Whether a column has these numbers, and puts no more keys in where it has them already.
fn numbers_column(
    alloc: Global,
    keys: &mut ColumnKeys,
    column: &Column,
    wanted: &[u32],
) -> Result<bool, Fault>
    requires { column.now.kind ≡ keys.old.kind }
    ensures { keys.new.kind ≡ keys.old.kind }
{
    let mut out = vec![in alloc; 0u32; column.len()]?;
    keys.number(column, &mut out)?;
    Ok(out.as_slice() == wanted)
}

/// Whether these numbers are found of a column.
fn finds_column(
    alloc: Global,
    keys: &ColumnKeys,
    column: &Column,
    wanted: &[u32],
) -> Result<bool, Fault>
    requires { column.now.kind ≡ keys.now.kind }
{
    let mut out = vec![in alloc; 0u32; column.len()]?;
    keys.look_up(column, &mut out);
    Ok(out.as_slice() == wanted)
}

/// The first half of a column.
fn half(alloc: Global, column: &Column) -> Result<Column, Fault>
    ensures { IfOk result (λ half. half.kind ≡ column.now.kind) }
{
    let mut half = Column::new(alloc, column.kind());
    half.append_rows(column, 0, column.len() / 2)?;
    Ok(half)
}

/// Whether a column has the first of these numbers.
fn numbers_first(
    alloc: Global,
    keys: &mut ColumnKeys,
    column: &Column,
    wanted: &[u32],
) -> Result<bool, Fault>
    requires { column.now.kind ≡ keys.old.kind }
    ensures { keys.new.kind ≡ keys.old.kind }
{
    if column.len() > wanted.len() {
        return Ok(false);
    }
    numbers_column(alloc, keys, column, &wanted[..column.len()])
}

/// Whether the first half of a column has the first of these numbers.
fn numbers_half(
    alloc: Global,
    keys: &mut ColumnKeys,
    column: &Column,
    wanted: &[u32],
) -> Result<bool, Fault>
    requires { column.now.kind ≡ keys.old.kind }
    ensures { keys.new.kind ≡ keys.old.kind }
{
    let half = half(alloc, column)?;
    numbers_first(alloc, keys, &half, wanted)
}

/// Whether a column has these numbers, its first half first, and is found by them.
fn by_keys(
    alloc: Global,
    keys: &mut ColumnKeys,
    column: &Column,
    wanted: &[u32],
) -> Result<bool, Fault>
    requires { column.now.kind ≡ keys.old.kind }
{
    Ok(
        numbers_half(alloc, keys, column, wanted)?
            && numbers_column(alloc, keys, column, wanted)?
            && finds_column(alloc, keys, column, wanted)?,
    )
}

/// The same among new keys.
fn by_column(alloc: Global, seed: u64, column: &Column, wanted: &[u32]) -> Result<bool, Fault> {
    let mut keys = ColumnKeys::new(alloc, column.kind(), seed);
    by_keys(alloc, &mut keys, column, wanted)
}

/// Whether the rows of a frame of one column get these numbers: by row, by value, and by whole columns.
pub fn is_numbered(
    alloc: Global,
    seed: u64,
    frame: &Frame,
    kind: ColType,
    wanted: &[u32],
) -> Result<bool, Fault>
    requires within { 0 < length frame.now.schema }
    requires kind { kinds_of (fields_at frame.now.schema (0 ∷ [])) ≡ kind ∷ [] }
{
    let column = frame.column(0);
    Ok(
        by_row(alloc, seed, frame, kind, wanted)?
            && by_value(alloc, seed, column, wanted)?
            && by_column(alloc, seed, column, wanted)?,
    )
}

/// The same, whatever the seed.
fn is_numbered_by_each(
    alloc: Global,
    frame: &Frame,
    kind: ColType,
    wanted: &[u32],
) -> Result<bool, Fault>
    requires within { 0 < length frame.now.schema }
    requires kind { kinds_of (fields_at frame.now.schema (0 ∷ [])) ≡ kind ∷ [] }
{
    for seed in SEEDS {
        if !is_numbered(alloc, *seed, frame, kind, wanted)? {
            return Ok(false);
        }
    }
    Ok(true)
}

/// Whether cells of one type get these numbers, whatever the seed.
fn are_numbered(
    alloc: Global,
    kind: ColType,
    cells: &[Cell<'_>],
    wanted: &[u32],
) -> Result<bool, Fault> {
    let frame = frame_of(alloc, "a", kind, cells)?;
    is_numbered_by_each(alloc, &frame, kind, wanted)
}

#[test]
fn keys_have_numbers_in_order_of_arrival(rt: HostRuntime) -> Result<(), Fail> {
    let numbers = [Cell::Int(7), Cell::Int(8), Cell::Int(7)];
    assert!(rt; are_numbered(rt.alloc(), ColType::Int, &numbers, &[0, 1, 0])?);
    Ok(())
}

/// Row by row, the null and 3 begin at one place.
fn a_null_is_no_number(alloc: Global) -> Result<bool, Fault> {
    let numbers = [
        Cell::Int(3),
        Cell::Null,
        Cell::Int(3),
        Cell::Int(0),
        Cell::Null,
    ];
    are_numbered(alloc, ColType::Int, &numbers, &[0, 1, 0, 2, 1])
}

fn a_null_is_no_truth_value(alloc: Global) -> Result<bool, Fault> {
    let flags = [
        Cell::Null,
        Cell::Bool(true),
        Cell::Bool(false),
        Cell::Bool(true),
    ];
    are_numbered(alloc, ColType::Bool, &flags, &[0, 1, 2, 1])
}

fn a_null_is_no_text(alloc: Global) -> Result<bool, Fault> {
    let texts = [
        Cell::Text(""),
        Cell::Null,
        Cell::Text("-"),
        Cell::Text(""),
        Cell::Null,
    ];
    are_numbered(alloc, ColType::Text, &texts, &[0, 1, 2, 0, 1])
}

#[test]
fn a_null_is_a_key_of_its_own(rt: HostRuntime) -> Result<(), Fail> {
    assert!(rt; a_null_is_no_number(rt.alloc())?);
    assert!(rt; a_null_is_no_truth_value(rt.alloc())?);
    assert!(rt; a_null_is_no_text(rt.alloc())?);
    Ok(())
}

/// The first three texts are mixed to one word by each seed, and so are the two after them.
#[test]
fn equal_hashes_are_no_equal_keys(rt: HostRuntime) -> Result<(), Fail> {
    let texts = [
        Cell::Text("a"),
        Cell::Text("ba"),
        Cell::Text("caa"),
        Cell::Text("abcd"),
        Cell::Text("mbcdabcd"),
        Cell::Text("caa"),
        Cell::Text("mbcdabcd"),
        Cell::Text("a"),
    ];
    assert!(rt; are_numbered(rt.alloc(), ColType::Text, &texts, &[0, 1, 2, 3, 4, 2, 4, 0])?);
    Ok(())
}

/// Whether pairs of texts get these numbers in a new table.
fn pairs_by_row(alloc: Global, seed: u64, pairs: &Frame, wanted: &[u32]) -> Result<bool, Fault>
    requires columns { All (λ at. at < length pairs.now.schema) (0 ∷ 1 ∷ []) }
    requires kinds { kinds_of (fields_at pairs.now.schema (0 ∷ 1 ∷ [])) ≡ ColType.Text ∷ ColType.Text ∷ [] }
{
    let mut table = KeyTable::with_seed(vec![in alloc; ColType::Text, ColType::Text]?, seed);
    numbers_rows(&mut table, pairs, &[0, 1], wanted)
}

/// Whether pairs of texts get these numbers, by row and by whole columns.
fn pairs_by_both(alloc: Global, seed: u64, pairs: &Frame, wanted: &[u32]) -> Result<bool, Fault>
    requires columns { All (λ at. at < length pairs.now.schema) (0 ∷ 1 ∷ []) }
    requires kinds { kinds_of (fields_at pairs.now.schema (0 ∷ 1 ∷ [])) ≡ ColType.Text ∷ ColType.Text ∷ [] }
{
    Ok(
        pairs_by_row(alloc, seed, pairs, wanted)?
            && by_columns(alloc, seed, &[ColType::Text, ColType::Text], pairs, wanted)?,
    )
}

/// Whether pairs of texts get these numbers, by row and by whole columns, whatever the seed.
fn pairs_are_numbered(alloc: Global, pairs: &Frame, wanted: &[u32]) -> Result<bool, Fault>
    requires columns { All (λ at. at < length pairs.now.schema) (0 ∷ 1 ∷ []) }
    requires kinds { kinds_of (fields_at pairs.now.schema (0 ∷ 1 ∷ [])) ≡ ColType.Text ∷ ColType.Text ∷ [] }
{
    for seed in SEEDS {
        if !pairs_by_both(alloc, *seed, pairs, wanted)? {
            return Ok(false);
        }
    }
    Ok(true)
}

/// Pairs of texts.
fn pairs_of(alloc: Global, firsts: &[Cell<'_>], seconds: &[Cell<'_>]) -> Result<Frame, Fault>
    ensures columns { IfOk result (λ pairs. All (λ at. at < length pairs.schema) (0 ∷ 1 ∷ [])) }
    ensures kinds { IfOk result (λ pairs. kinds_of (fields_at pairs.schema (0 ∷ 1 ∷ [])) ≡ ColType.Text ∷ ColType.Text ∷ []) }
{
    let first = frame_of(alloc, "a", ColType::Text, firsts)?;
    beside(alloc, first, frame_of(alloc, "b", ColType::Text, seconds)?)
}

fn pairs_have_numbers(
    alloc: Global,
    firsts: &[Cell<'_>],
    seconds: &[Cell<'_>],
    wanted: &[u32],
) -> Result<bool, Fault> {
    let pairs = pairs_of(alloc, firsts, seconds)?;
    pairs_are_numbered(alloc, &pairs, wanted)
}

#[test]
fn keys_of_two_columns_do_not_run_into_each_other(rt: HostRuntime) -> Result<(), Fail> {
    let firsts = [
        Cell::Text("a"),
        Cell::Text("ab"),
        Cell::Text("abc"),
        Cell::Text(""),
        Cell::Null,
        Cell::Text(""),
        Cell::Null,
        Cell::Text("a"),
    ];
    let seconds = [
        Cell::Text("bc"),
        Cell::Text("c"),
        Cell::Text(""),
        Cell::Text("abc"),
        Cell::Text(""),
        Cell::Null,
        Cell::Null,
        Cell::Text("bc"),
    ];
    let wanted = [0, 1, 2, 3, 4, 5, 6, 0];
    assert!(rt; pairs_have_numbers(rt.alloc(), &firsts, &seconds, &wanted)?);
    Ok(())
}

/// Puts the keys of a frame of one column into a table.
fn put_keys(table: &mut KeyTable, frame: &Frame) -> Result<(), Fault>
    requires within { 0 < length frame.now.schema }
    requires kind { kinds_of (fields_at frame.now.schema (0 ∷ [])) ≡ table.old.kinds }
    ensures { table.new.kinds ≡ table.old.kinds }
{
    for row in 0..frame.height() {
        table.insert(frame, &[0], row)?;
    }
    Ok(())
}

/// A table of the keys of a frame of one column of numbers.
fn table_of(alloc: Global, frame: &Frame) -> Result<KeyTable, Fault>
    requires within { 0 < length frame.now.schema }
    requires kind { kinds_of (fields_at frame.now.schema (0 ∷ [])) ≡ ColType.Int ∷ [] }
    ensures { IfOk result (λ table. table.kinds ≡ ColType.Int ∷ []) }
{
    let mut table = KeyTable::new(vec![in alloc; ColType::Int]?);
    put_keys(&mut table, frame)?;
    Ok(table)
}

/// The number that a table gives another's key of number 1, where it was empty and then has the key 8 alone.
fn moved_into(empty: &mut KeyTable, table: &KeyTable) -> Result<Option<u32>, Fault>
    requires kinds { table.now.kinds ≡ empty.old.kinds }
{
    if table.len() < 2 {
        return Ok(None);
    }
    let at = empty.insert_from(table, 1)?;
    let is_held = empty.len() == 1 && matches!(empty.key(0), [Value::Int(8)]);
    Ok(if is_held { Some(at) } else { None })
}

/// The number that an empty table gives another's key of number 1.
fn moved(alloc: Global, table: &KeyTable) -> Result<Option<u32>, Fault>
    requires { table.now.kinds ≡ ColType.Int ∷ [] }
{
    let mut empty = KeyTable::new(vec![in alloc; ColType::Int]?);
    moved_into(&mut empty, table)
}

/// A table of the keys 7, 8, 7.
fn worked_table(alloc: Global) -> Result<KeyTable, Fault>
    ensures { IfOk result (λ table. table.kinds ≡ ColType.Int ∷ []) }
{
    let numbers = [Cell::Int(7), Cell::Int(8), Cell::Int(7)];
    let frame = frame_of(alloc, "a", ColType::Int, &numbers)?;
    table_of(alloc, &frame)
}

/// Whether of two rows the first is found by 1, and the second not at all.
fn finds_the_first_alone(table: &KeyTable, others: &Frame) -> bool
    requires { 0 < length others.now.schema }
{
    if others.height() != 2 {
        return false;
    }
    table.find(others, &[0], 0) == Some(1) && table.find(others, &[0], 1) == None
}

/// Whether 8 is found by 1, and 9 not at all.
fn finds_eight_alone(alloc: Global, table: &KeyTable) -> Result<bool, Fault> {
    let others = frame_of(alloc, "a", ColType::Int, &[Cell::Int(8), Cell::Int(9)])?;
    Ok(finds_the_first_alone(table, &others))
}

/// The number that an empty table gives the key 8 of the keys 7, 8, 7, where that is found in theirs by 1, and 9 not at all.
fn found_and_moved(alloc: Global) -> Result<Option<u32>, Fault> {
    let table = worked_table(alloc)?;
    if finds_eight_alone(alloc, &table)? {
        moved(alloc, &table)
    } else {
        Ok(None)
    }
}

#[test]
fn a_key_is_found_and_put_into_another_table(rt: HostRuntime) -> Result<(), Fail> {
    assert_eq!(rt; found_and_moved(rt.alloc())?, Some(0));
    Ok(())
}
