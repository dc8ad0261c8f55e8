//! Each pair of seventeen small predicates, joined in two ways, beside a plain reading of each row by its cells.
use super::samples::{boxed, compared, frame_of, truths_of};
use morsel_expr::{CmpOp, PredNode, Rhs, Truth};
use morsel_frame::{Cell, Frame};
use morsel_meaning::{ColType, Fault, Name, Value};
use std::alloc::Global;
use std::cmp::Ordering;
use std::test::Fail;

/// How many small predicates there are.
const PARTS: usize = 17;

/// The value of a row under a column; a null where there is none.
fn cell_of<'a>(frame: &'a Frame, name: &Name, row: usize) -> Cell<'a> {
    match frame.schema().find(name.as_str()) {
        Some(at) => {
            let column = frame.column(at);
            if row < column.len() {
                column.get(row)
            } else {
                Cell::Null
            }
        }
        None => Cell::Null,
    }
}

/// The order of two values; none where one is null, or where they are of two types.
fn order_of(a: Cell<'_>, b: Cell<'_>) -> Option<Ordering> {
    match (a, b) {
        (Cell::Int(a), Cell::Int(b)) => Some(a.cmp(&b)),
        (Cell::Bool(a), Cell::Bool(b)) => Some(a.cmp(&b)),
        (Cell::Text(a), Cell::Text(b)) => Some(a.cmp(b)),
        _ => None,
    }
}

fn truth_of(holds: bool) -> Truth {
    if holds { Truth::True } else { Truth::False }
}

/// What a comparison says of two values.
fn plain_compared(op: CmpOp, a: Cell<'_>, b: Cell<'_>) -> Truth {
    let Some(order) = order_of(a, b) else {
        return Truth::Unknown;
    };
    truth_of(match op {
        CmpOp::Eq => order == Ordering::Equal,
        CmpOp::Ne => order != Ordering::Equal,
        CmpOp::Lt => order == Ordering::Less,
        CmpOp::Le => order != Ordering::Greater,
        CmpOp::Gt => order == Ordering::Greater,
        CmpOp::Ge => order != Ordering::Less,
    })
}

fn cell_of_value(value: &Value) -> Cell<'_> {
    match value {
        Value::Null => Cell::Null,
        Value::Int(number) => Cell::Int(*number),
        Value::Bool(flag) => Cell::Bool(*flag),
        Value::Text(text) => Cell::Text(text.as_str()),
    }
}

/// What a tree says of one row.
fn plain(node: &PredNode, frame: &Frame, row: usize) -> Truth {
    match node {
        PredNode::And(a, b) => match (plain(a, frame, row), plain(b, frame, row)) {
            (Truth::True, Truth::True) => Truth::True,
            (Truth::False, _) => Truth::False,
            (_, Truth::False) => Truth::False,
            _ => Truth::Unknown,
        },
        PredNode::Or(a, b) => match (plain(a, frame, row), plain(b, frame, row)) {
            (Truth::False, Truth::False) => Truth::False,
            (Truth::True, _) => Truth::True,
            (_, Truth::True) => Truth::True,
            _ => Truth::Unknown,
        },
        PredNode::Not(a) => match plain(a, frame, row) {
            Truth::True => Truth::False,
            Truth::False => Truth::True,
            Truth::Unknown => Truth::Unknown,
        },
        PredNode::IsNull(name) => truth_of(cell_of(frame, name, row) == Cell::Null),
        PredNode::NotNull(name) => truth_of(cell_of(frame, name, row) != Cell::Null),
        PredNode::Is(name) => plain_compared(
            CmpOp::Eq,
            cell_of(frame, name, row),
            Cell::Bool(true),
        ),
        PredNode::Cmp(op, name, Rhs::Col(other)) => {
            plain_compared(*op, cell_of(frame, name, row), cell_of(frame, other, row))
        }
        PredNode::Cmp(op, name, Rhs::Lit(value)) => {
            plain_compared(*op, cell_of(frame, name, row), cell_of_value(value))
        }
    }
}

/// The comparison of this number.
fn op_of(number: usize) -> CmpOp {
    match number {
        0 => CmpOp::Eq,
        1 => CmpOp::Ne,
        2 => CmpOp::Lt,
        3 => CmpOp::Le,
        4 => CmpOp::Gt,
        _ => CmpOp::Ge,
    }
}

/// Two columns of numbers compared.
fn compared_columns(alloc: Global, op: CmpOp) -> Result<PredNode, Fault> {
    let other = Name::new(alloc, "b")?;
    compared(alloc, op, "a", Rhs::Col(other))
}

/// A column of texts compared with one.
fn compared_texts(alloc: Global) -> Result<PredNode, Fault> {
    let text = Name::new(alloc, "b")?;
    compared(alloc, CmpOp::Lt, "t", Rhs::Lit(Value::Text(text)))
}

/// A small predicate: numbers beside 3 and beside each other, texts, truth values, and tests for nulls.
fn part(alloc: Global, number: usize) -> Result<PredNode, Fault> {
    match number {
        0..6 => compared(alloc, op_of(number), "a", Rhs::Lit(Value::Int(3))),
        6..12 => compared_columns(alloc, op_of(number - 6)),
        12 => Ok(PredNode::IsNull(Name::new(alloc, "a")?)),
        13 => Ok(PredNode::NotNull(Name::new(alloc, "c")?)),
        14 => Ok(PredNode::Is(Name::new(alloc, "c")?)),
        15 => compared_texts(alloc),
        _ => compared(alloc, CmpOp::Ge, "t", Rhs::Lit(Value::Null)),
    }
}

fn boxed_part(alloc: Global, number: usize) -> Result<Box<PredNode>, Fault> {
    boxed(alloc, part(alloc, number)?)
}

fn negated_part(alloc: Global, number: usize) -> Result<Box<PredNode>, Fault> {
    boxed(alloc, PredNode::Not(boxed_part(alloc, number)?))
}

/// A tree and a small predicate joined: both of them, or the tree or not the predicate.
fn joined(
    alloc: Global,
    first: Box<PredNode>,
    second: usize,
    both: bool,
) -> Result<PredNode, Fault> {
    Ok(if both {
        PredNode::And(first, boxed_part(alloc, second)?)
    } else {
        PredNode::Or(first, negated_part(alloc, second)?)
    })
}

/// Two small predicates joined.
fn pair(alloc: Global, first: usize, second: usize, both: bool) -> Result<PredNode, Fault> {
    joined(alloc, boxed_part(alloc, first)?, second, both)
}

/// Whether these are the truths of four rows that the plain reading of a tree says.
fn is_plain(truths: &[Truth], node: &PredNode, frame: &Frame) -> bool {
    for row in 0..truths.len() {
        if truths[row] != plain(node, frame, row) {
            return false;
        }
    }
    truths.len() == 4
}

/// Whether a predicate says of each row what the plain reading of the same tree says.
fn agrees(alloc: Global, frame: &Frame, node: PredNode, same: &PredNode) -> Result<bool, Fault> {
    let truths = truths_of(alloc, node, frame)?;
    Ok(is_plain(&truths, same, frame))
}

/// Whether a pair agrees: 1 where it does.
fn pair_agreeing(
    alloc: Global,
    frame: &Frame,
    first: usize,
    second: usize,
    both: bool,
) -> Result<u32, Fault> {
    let same = pair(alloc, first, second, both)?;
    let agree = agrees(alloc, frame, pair(alloc, first, second, both)?, &same)?;
    Ok(u32::from(agree))
}

/// How many trees agree.
fn agreeing(alloc: Global, frame: &Frame) -> Result<u32, Fault> {
    let mut count = 0u32;
    for first in 0..PARTS {
        for second in 0..PARTS {
            for both in [true, false] {
                count = count.wrapping_add(pair_agreeing(alloc, frame, first, second, both)?);
            }
        }
    }
    Ok(count)
}

/// Two frames side by side, of which the first is left alone where the heights differ.
fn beside(alloc: Global, frame: Frame, other: Frame) -> Result<Frame, Fault> {
    if frame.height() != other.height() {
        return Ok(frame);
    }
    frame.hstack(alloc, other)
}

/// A frame with one column more.
fn with_column(
    alloc: Global,
    frame: Frame,
    name: &str,
    kind: ColType,
    cells: &[Cell<'_>],
) -> Result<Frame, Fault> {
    let other = frame_of(alloc, name, kind, cells)?;
    beside(alloc, frame, other)
}

/// A frame of four rows: a and b of numbers, c of truth values, t of texts, each with a null.
fn mixed(alloc: Global) -> Result<Frame, Fault> {
    let a = [Cell::Int(1), Cell::Null, Cell::Int(5), Cell::Int(3)];
    let b = [Cell::Int(2), Cell::Int(2), Cell::Null, Cell::Int(3)];
    let c = [
        Cell::Bool(true),
        Cell::Bool(false),
        Cell::Null,
        Cell::Bool(true),
    ];
    let t = [
        Cell::Text("ab"),
        Cell::Text("b"),
        Cell::Null,
        Cell::Text("c"),
    ];
    let frame = frame_of(alloc, "a", ColType::Int, &a)?;
    let frame = with_column(alloc, frame, "b", ColType::Int, &b)?;
    let frame = with_column(alloc, frame, "c", ColType::Bool, &c)?;
    with_column(alloc, frame, "t", ColType::Text, &t)
}

fn all_agreeing(alloc: Global) -> Result<u32, Fault> {
    let frame = mixed(alloc)?;
    agreeing(alloc, &frame)
}

#[test]
fn each_small_predicate_is_what_a_plain_reading_says(rt: HostRuntime) -> Result<(), Fail> {
    assert_eq!(rt; all_agreeing(rt.alloc())?, 578);
    Ok(())
}
