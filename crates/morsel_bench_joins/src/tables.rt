//! The tables that are joined: keys that are drawn.
ghost use Rattle.std.specs.Prelude.{◌≡◌, All, IfOk, OnOk};
ghost use Rattle.morsel_join.specs.Rows.{FitRules};

use morsel_frame::{Column, Frame, Schema};
use morsel_join::{JoinArgs, JoinRules, JoinType, MaintainOrderJoin};
use morsel_meaning::{ColType, Fault, Field, Name};
use morsel_timing::Numbers;
use std::alloc::Global;

/// The rows of a piece.
pub const PIECE: usize = 65536;

/// The frame of one column of keys.
fn frame_of(alloc: Global, keys: Column) -> Result<Frame, Fault> {
    let name = Name::new(alloc, "k")?;
    let kind = keys.kind();
    let schema = Schema::new(alloc, vec![in alloc; Field { name, kind }]?)?;
    let height = keys.len();
    Ok(Frame::new(alloc, schema, vec![in alloc; keys]?, height))
}

/// So many keys that are drawn below a bound.
fn drawn_keys(alloc: Global, rows: usize, bound: usize) -> Result<Column, Fault> {
    let mut numbers = Numbers::new();
    let mut keys = Column::new(alloc, ColType::Int);
    for _ in 0..rows {
        keys.push_int((numbers.next() % (bound as u64).max(1)).cast_signed())?;
    }
    Ok(keys)
}

/// So many rows, whose keys are drawn below a bound.
pub fn drawn_rows(alloc: Global, rows: usize, bound: usize) -> Result<Frame, Fault> {
    frame_of(alloc, drawn_keys(alloc, rows, bound)?)
}

/// Puts a piece of a frame last, of the rows from one on.
fn put_piece(
    alloc: Global,
    whole: &Frame,
    from: usize,
    pieces: &mut Vec<Frame>,
) -> Result<(), Fault>
    requires { All (λ piece. piece.schema ≡ whole.now.schema) pieces.old.items }
    ensures { OnOk result (All (λ piece. piece.schema ≡ whole.now.schema) pieces.new.items) }
{
    pieces.push(whole.slice(alloc, from, PIECE)?)?;
    Ok(())
}

/// The pieces of a frame.
pub fn pieces_of(alloc: Global, whole: &Frame) -> Result<Vec<Frame>, Fault>
    ensures { IfOk result (λ pieces. All (λ piece. piece.schema ≡ whole.now.schema) pieces.items) }
{
    let mut pieces = Vec::new(alloc);
    'each: for piece in 0..whole.height().div_ceil(PIECE) {
        put_piece(alloc, whole, piece.saturating_mul(PIECE), &mut pieces)?;
    }
    Ok(pieces)
}

/// The rules of a join by `k`: the pairs alone, in the order of the left rows.
pub fn rules_of(alloc: Global, left: &Schema, right: &Schema) -> Result<JoinRules, Fault>
    ensures { IfOk result (λ rules. FitRules left.now right.now rules) }
{
    if left.len() > 10 || right.len() > 10 {
        return Err(Fault::Usage);
    }
    let args = JoinArgs {
        how: JoinType::Inner,
        maintain_order: MaintainOrderJoin::Left,
        join_nulls: false,
        coalesce: true,
        suffix: Name::new(alloc, "_right")?,
    };
    let keys = vec![in alloc; Name::new(alloc, "k")?]?;
    JoinRules::new(alloc, left, right, &keys, &keys, &args)
}
