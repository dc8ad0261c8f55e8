//! Pieces of rows that are put to groups.
ghost use Rattle.std.specs.Prelude.{◌≡◌};

use morsel_frame::{Cell, Column};
use morsel_meaning::{ColType, Fault, Value};
use morsel_states::States;

/// Rows of groups, of which the first has this place and each other one the next.
#[derive(Drop)]
pub struct Piece {
    pub groups: Vec<u32>,
    pub column: Column,
    pub place: (u64, u64),
}

/// Puts a cell last; a null in place of one of another type.
pub fn push_cell(column: &mut Column, cell: Cell<'_>) -> Result<(), Fault>
    ensures { column.new.kind ≡ column.old.kind }
{
    match (column.kind(), cell) {
        (ColType::Int, Cell::Int(number)) => column.push_int(number),
        (ColType::Bool, Cell::Bool(flag)) => column.push_bool(flag),
        (ColType::Text, Cell::Text(text)) => column.push_text(text),
        _ => column.push_null(),
    }
}

/// Puts a piece to the groups, where it has a group for each row and no other groups than there are.
pub fn put_piece(states: &mut States, piece: &Piece) -> Result<(), Fault>
    requires { piece.now.column.kind ≡ states.old.kind }
    ensures op { states.new.op ≡ states.old.op }
    ensures kind { states.new.kind ≡ states.old.kind }
{
    let count = states.len();
    let rows = piece.groups.len();
    if rows != piece.column.len() || piece.place.1.checked_add(rows as u64).is_none() {
        return Ok(());
    }
    if !piece.groups.iter().all(|group| (*group as usize) < count) {
        return Ok(());
    }
    states.update(&piece.groups, &piece.column, piece.place)
}

/// What the groups say of one, and null where there is no such group.
pub fn finished(states: &mut States, group: u32) -> Result<Value, Fault> {
    if (group as usize) < states.len() {
        states.finish(group)
    } else {
        Ok(Value::Null)
    }
}
