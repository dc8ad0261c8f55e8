//! Columns, and the texts that they lend: each public call once with ample memory.
ghost use Rattle.std.specs.Prelude.{◌≡◌};

use super::{column_of, has};
use morsel_frame::{Cell, Column, Texts};
use morsel_meaning::{ColType, Fault, Name, Value};
use std::alloc::Global;
use std::mem::drop;
use std::process::Abort;

const X: Cell<'static> = Cell::Text("x");

const YZ: Cell<'static> = Cell::Text("yz");

/// A column of two nulls.
fn is_made_of_nulls(rt: &impl Abort, alloc: Global, kind: ColType) {
    let column = Column::full_null(alloc, kind, 2).expect(rt, "memory");
    assert_eq!(rt; column.kind(), kind);
    has(rt, &column, &[Cell::Null, Cell::Null]);
    drop(column);
}

#[test]
fn a_column_of_nulls_has_nulls_alone(rt: HostRuntime) {
    is_made_of_nulls(&rt, rt.alloc(), ColType::Int);
    is_made_of_nulls(&rt, rt.alloc(), ColType::Text);
    is_made_of_nulls(&rt, rt.alloc(), ColType::Bool);
}

/// Puts a text, a null, and two texts more, each by another call.
fn put_texts(alloc: Global, column: &mut Column) -> Result<(), Fault>
    requires { column.old.kind ≡ ColType.Text }
{
    column.push_text("x")?;
    column.push_null()?;
    column.push_cell(YZ)?;
    column.push(Value::Text(Name::new(alloc, "")?))
}

/// The texts x, yz and the empty text, and a null after the first.
fn texts_of(rt: &impl Abort, alloc: Global) -> Column {
    let mut texts = Column::new(alloc, ColType::Text);
    put_texts(alloc, &mut texts).expect(rt, "memory");
    texts
}

/// The text that the buffer has at this place, and none past the last.
fn is_kept(texts: &Texts, at: usize, wanted: &str) -> bool {
    at < texts.len() && texts.get(at) == wanted
}

fn is_lent(column: &Column, at: usize, wanted: &str) -> bool {
    match column.texts() {
        Some((_, texts)) => is_kept(texts, at, wanted),
        None => false,
    }
}

#[test]
fn texts_come_back_and_nulls_are_marked(rt: HostRuntime) {
    let texts = texts_of(&rt, rt.alloc());
    has(&rt, &texts, &[X, Cell::Null, YZ, Cell::Text("")]);
    assert!(rt; is_lent(&texts, 0, "x"));
    drop(texts);
}

/// Puts texts by their row numbers, and then all of them, and drops what follows the sixth.
fn put_rows(column: &mut Column, texts: &Column) -> Result<(), Fault>
    requires { texts.now.kind ≡ column.old.kind }
{
    column.append_gather(texts, &[2, u32::MAX, 0, 2])?;
    column.append_rows(texts, 0, texts.len())?;
    column.truncate(6);
    Ok(())
}

#[test]
fn the_greatest_row_number_gathers_a_null(rt: HostRuntime) {
    let texts = texts_of(&rt, rt.alloc());
    let mut gathered = Column::new(rt.alloc(), texts.kind());
    put_rows(&mut gathered, &texts).expect(&rt, "memory");
    has(&rt, &gathered, &[YZ, Cell::Null, X, YZ, X, Cell::Null]);
    drop(gathered);
    drop(texts);
}

/// The values of these rows of a column.
fn picked(rt: &impl Abort, alloc: Global, column: Column, rows: &[usize]) -> Column {
    let mut picked = Column::new(alloc, column.kind());
    picked.append_picks(&column, rows).expect(rt, "memory");
    drop(column);
    picked
}

/// The rows with these numbers have these values.
fn picks(rt: &impl Abort, alloc: Global, column: Column, rows: &[usize], wanted: &[Cell<'_>]) {
    let picked = picked(rt, alloc, column, rows);
    has(rt, &picked, wanted);
    drop(picked);
}

#[test]
fn numbers_are_picked_by_their_rows(rt: HostRuntime) {
    let column = column_of(&rt, rt.alloc(), &[5, 6, 7]);
    let wanted = [Cell::Int(7), Cell::Int(5), Cell::Null, Cell::Int(7)];
    picks(&rt, rt.alloc(), column, &[2, 0, 3, 2], &wanted);
}

#[test]
fn texts_are_picked_by_their_rows(rt: HostRuntime) {
    let column = texts_of(&rt, rt.alloc());
    let wanted = [YZ, Cell::Null, X, Cell::Null, YZ];
    picks(&rt, rt.alloc(), column, &[2, 1, 0, 4, 2], &wanted);
}

/// A column of one truth value.
fn flag_of(rt: &impl Abort, alloc: Global) -> Column {
    let mut flags = Column::new(alloc, ColType::Bool);
    flags.push_bool(true).expect(rt, "memory");
    flags
}

#[test]
fn truth_values_are_picked_by_their_rows(rt: HostRuntime) {
    let column = flag_of(&rt, rt.alloc());
    let wanted = [Cell::Bool(true), Cell::Null, Cell::Bool(true)];
    picks(&rt, rt.alloc(), column, &[0, usize::MAX, 0], &wanted);
}

/// A column of one number, which is pushed.
fn number_of(rt: &impl Abort, alloc: Global) -> Column {
    let mut numbers = Column::new(alloc, ColType::Int);
    numbers.push_int(5).expect(rt, "memory");
    numbers
}

#[test]
fn numbers_and_truth_values_are_lent_whole(rt: HostRuntime) {
    let flags = flag_of(&rt, rt.alloc());
    assert!(rt; flags.ints().is_none() && flags.bools().is_some());
    drop(flags);
    let numbers = number_of(&rt, rt.alloc());
    assert!(rt; numbers.bools().is_none() && numbers.ints().is_some());
    drop(numbers);
}
