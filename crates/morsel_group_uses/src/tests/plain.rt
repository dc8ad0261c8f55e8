//! A plain group-by, by the definition: what a reduction says of the values of the rows of one key, in their order. A value is one of three of its
//! type, which a digit names, and 0 is the null.
use morsel_frame::Cell;
use morsel_keys::Reduction;
use morsel_meaning::ColType;

/// What a reduction says: a number, or one of the values.
#[derive(Clone, Copy, Debug)]
pub enum Said {
    Number(i64),
    Value(u8),
}

/// The number that a digit names.
pub fn number_of(digit: u8) -> i64 {
    match digit {
        1 => 7,
        2 => -3,
        _ => 0,
    }
}

/// The text that a digit names.
pub fn word_of(digit: u8) -> &'static str {
    match digit {
        2 => "ab",
        _ => "",
    }
}

/// Where a value that is no null stands in the order of its type.
fn rank(kind: ColType, digit: u8) -> u8 {
    match (kind, digit) {
        (ColType::Int, 1) => 2,
        (ColType::Int, _) => 1,
        (_, 1) => 1,
        _ => 2,
    }
}

/// The lesser or the greater of two values, a null being none.
fn bound(kind: ColType, digit: u8, other: u8, greatest: bool) -> u8 {
    if digit == 0 {
        other
    } else if other == 0 || (rank(kind, other) > rank(kind, digit)) != greatest {
        digit
    } else {
        other
    }
}

/// What the reduction says with one value more, which is the first where nothing was said.
fn with_value(op: Reduction, kind: ColType, said: Option<Said>, digit: u8) -> Said {
    match (op, said) {
        (Reduction::Len, Some(Said::Number(len))) => Said::Number(len.wrapping_add(1)),
        (Reduction::Len, _) => Said::Number(1),
        (Reduction::Sum, Some(Said::Number(sum))) => {
            Said::Number(sum.wrapping_add(number_of(digit)))
        }
        (Reduction::Sum, _) => Said::Number(number_of(digit)),
        (Reduction::Min, Some(Said::Value(least))) => {
            Said::Value(bound(kind, least, digit, false))
        }
        (Reduction::Max, Some(Said::Value(greatest))) => {
            Said::Value(bound(kind, greatest, digit, true))
        }
        (Reduction::First, Some(first)) => first,
        _ => Said::Value(digit),
    }
}

/// What the reduction says of these values, in their order.
pub fn said_of(op: Reduction, kind: ColType, digits: &[u8]) -> Option<Said> {
    let mut said = None;
    for digit in digits {
        said = Some(with_value(op, kind, said, *digit));
    }
    said
}

/// Whether a cell has the value of a type that a digit names.
pub fn is_value(cell: Cell, kind: ColType, digit: u8) -> bool {
    match (cell, kind) {
        (Cell::Null, _) => digit == 0,
        (Cell::Int(number), ColType::Int) => digit != 0 && number == number_of(digit),
        (Cell::Bool(flag), ColType::Bool) => digit != 0 && flag == (digit == 2),
        (Cell::Text(text), ColType::Text) => digit != 0 && text == word_of(digit),
        _ => false,
    }
}

/// Whether a cell has what was said.
pub fn is_said(cell: Cell, kind: ColType, said: Option<Said>) -> bool {
    match said {
        Some(Said::Number(number)) => cell == Cell::Int(number),
        Some(Said::Value(digit)) => is_value(cell, kind, digit),
        None => false,
    }
}
