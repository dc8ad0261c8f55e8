//! Morsels, loads and tokens, and the rows of pipes by number.
ghost use Rattle.std.specs.Prelude.{◌≡◌, ◌<◌, ◌*◌, ◌∷◌, [], All, None, IfOk};

use morsel_frame::{Cell, Column, Frame, Schema};
use morsel_load::{
    Load, LoadJob, LoadKind, Morsel, SourceToken, Stretch, linearize, split_to_morsels,
};
use morsel_meaning::{ColType, Fault, Field, Name};
use morsel_pipe::{Encoded, MorselSeq};
use std::alloc::Global;
use std::process::Abort;
use std::test::Fail;

/// A token that is a number.
#[derive(Clone, Copy, Debug, Drop, PartialEq, Eq)]
struct Numbered(u32);

/// A job that any load suits.
struct Any;

impl LoadJob<Numbered> for Any {
    ghost suits = { λ job load. Unit {0} };

    ghost holds = { λ job token. Unit {0} };
}

type TestMorsel = Morsel<Numbered, Any>;

type TestLoad = Load<Numbered, Any>;

/// The schema of one column.
fn schema_of_one(alloc: Global, name: &str, kind: ColType) -> Result<Schema, Fault>
    ensures { IfOk result (λ schema. schema ≡ record { name = name.now; kind = kind } ∷ []) }
{
    let name = Name::new(alloc, name)?;
    Schema::new(alloc, vec![in alloc; Field { name, kind }]?)
}

/// The frame of one column.
fn framed(alloc: Global, column: Column) -> Result<Frame, Fault> {
    let schema = schema_of_one(alloc, "a", column.kind())?;
    let height = column.len();
    Ok(Frame::new(alloc, schema, vec![in alloc; column]?, height))
}

/// The column of this number.
fn column_of(alloc: Global, number: i64) -> Result<Column, Fault> {
    let mut column = Column::new(alloc, ColType::Int);
    column.push_int(number)?;
    Ok(column)
}

/// One column `a` with this number in its only row.
fn frame(alloc: Global, number: i64) -> Result<Frame, Fault> {
    framed(alloc, column_of(alloc, number)?)
}

/// One row that has its number.
fn morsel(alloc: Global, seq: u64) -> Result<TestMorsel, Fault>
    requires small { seq < 8 }
    ensures new { IfOk result (λ morsel. (morsel.consume_token ≡ None) × (morsel.seq ≡ 2 * seq)) }
{
    Ok(Morsel::new(
        frame(alloc, seq as i64)?,
        MorselSeq::new(seq),
        SourceToken::new(alloc)?,
    ))
}

fn pieces_are(rt: &impl Abort, height: u64, expected: &[(u64, u64)]) {
    let mut pieces = split_to_morsels(height, 10);
    for piece in expected {
        assert_eq!(rt; pieces.next(), Some(*piece), "of {height}");
    }
    assert_eq!(rt; pieces.next(), None, "of {height}");
}

#[test]
fn rows_are_cut_about_the_ideal(rt: HostRuntime) {
    pieces_are(&rt, 16, &[(0, 9), (9, 7)]);
    pieces_are(&rt, 15, &[(0, 15)]);
    pieces_are(&rt, 30, &[(0, 11), (11, 11), (22, 8)]);
    pieces_are(&rt, 0, &[]);
}

#[test]
fn a_token_and_its_again_are_stopped_by_one_stop(rt: HostRuntime) -> Result<(), Fail> {
    let mut token = SourceToken::new(rt.alloc())?;
    let mut other = token.again()?;
    assert!(rt; !token.stop_requested());
    assert!(rt; !other.stop_requested());
    token.stop();
    assert!(rt; token.stop_requested());
    assert!(rt; other.stop_requested());
    Ok(())
}

fn changes(rt: &impl Abort, morsel: &mut TestMorsel)
    requires unset { morsel.old.consume_token ≡ None }
{
    assert_eq!(rt; morsel.seq().to_u64(), 6);
    morsel.set_seq(MorselSeq::new(4));
    assert_eq!(rt; morsel.seq().to_u64(), 8);
    let whole = Stretch {
        from: 0,
        to: 0,
        skip: 0,
        last: true,
    };
    assert_eq!(rt; morsel.stretch(), whole);
    morsel.set_stretch(Stretch { to: 9, ..whole });
    assert_eq!(rt; morsel.stretch().to, 9);
    assert_eq!(rt; morsel.take_consume_token(), None);
    morsel.set_consume_token(Numbered(5));
    assert_eq!(rt; morsel.take_consume_token(), Some(Numbered(5)));
    assert_eq!(rt; morsel.take_consume_token(), None);
    morsel.df_mut().truncate(0);
    assert_eq!(rt; morsel.df().height(), 0);
    morsel.source_token().stop();
    assert!(rt; morsel.source_token().stop_requested());
}

#[test]
fn each_call_changes_what_it_names(rt: HostRuntime) -> Result<(), Fail> {
    let mut morsel = morsel(rt.alloc(), 3)?;
    changes(&rt, &mut morsel);
    Ok(())
}

fn compared(rt: &impl Abort, low: &TestLoad, high: &TestLoad) {
    assert_eq!(rt; low.seq().to_u64(), 0);
    assert_eq!(rt; low.kind(), LoadKind::Morsels);
    assert_eq!(rt; high.kind(), LoadKind::Parts);
    assert!(rt; low > high);
    assert!(rt; low != high);
    assert!(rt; low.cmp(low).is_eq());
}

#[test]
fn the_greater_number_is_the_lesser_load(rt: HostRuntime) -> Result<(), Fail> {
    let low = Load::Morsel(morsel(rt.alloc(), 0)?);
    let part = Encoded {
        rows: 0,
        bytes: Vec::new(rt.alloc()),
        from: 0,
        to: 0,
        skip: 0,
        last: true,
        meta: None,
    };
    compared(&rt, &low, &Load::Part(MorselSeq::new(1), part));
    Ok(())
}

/// A pipe of one morsel.
fn pipe(alloc: Global, seq: u64) -> Result<Vec<TestMorsel>, Fault>
    requires small { seq < 8 }
    ensures unset { IfOk result (λ pipe. All (λ morsel. morsel.consume_token ≡ None) pipe.items) }
{
    let mut pipe = Vec::new(alloc);
    pipe.push(morsel(alloc, seq)?)?;
    Ok(pipe)
}

/// Three pipes with the numbers 0, 4 and 2.
fn pipes(alloc: Global) -> Result<Vec<Vec<TestMorsel>>, Fault>
    ensures unset { IfOk result (λ pipes. All (λ pipe. All (λ morsel. morsel.consume_token ≡ None) pipe.items) pipes.items) }
{
    let mut pipes = Vec::new(alloc);
    pipes.push(pipe(alloc, 0)?)?;
    pipes.push(pipe(alloc, 4)?)?;
    pipes.push(pipe(alloc, 2)?)?;
    Ok(pipes)
}

/// Whether the first row of a frame has this number.
fn has_number(frame: &Frame, number: i64) -> bool {
    if frame.width() == 0 {
        return false;
    }
    let column = frame.column(0);
    column.len() > 0 && column.get(0) == Cell::Int(number)
}

fn numbers_are(rt: &impl Abort, frames: &[Frame], numbers: &[i64]) {
    assert_eq!(rt; frames.len(), numbers.len());
    for (frame, number) in frames.iter().zip(numbers) {
        assert!(rt; has_number(frame, *number), "{number}");
    }
}

#[test]
fn pipes_are_linearized_by_number(rt: HostRuntime) -> Result<(), Fail> {
    let frames = linearize(rt.alloc(), pipes(rt.alloc())?)?;
    numbers_are(&rt, &frames, &[0, 2, 4]);
    Ok(())
}
