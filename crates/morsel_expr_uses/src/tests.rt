//! Predicates on small frames, with values worked out by hand.
mod plain;
mod samples;

use morsel_expr::{CmpOp, Pred, PredNode, Rhs, Truth, filter};
use morsel_frame::{Cell, Frame};
use morsel_meaning::{ColType, Fault, Name, Value, Why};
use samples::{boxed, compared, frame_of, truths_of};
use std::alloc::Global;
use std::test::Fail;

/// A frame of a = 1, null, 5.
fn worked(alloc: Global) -> Result<Frame, Fault> {
    let cells = [Cell::Int(1), Cell::Null, Cell::Int(5)];
    frame_of(alloc, "a", ColType::Int, &cells)
}

/// Whether a is below 3.
fn below_three(alloc: Global) -> Result<PredNode, Fault> {
    compared(alloc, CmpOp::Lt, "a", Rhs::Lit(Value::Int(3)))
}

/// Whether a tree says this of a frame.
fn says(alloc: Global, node: PredNode, frame: &Frame, wanted: &[Truth]) -> Result<bool, Fault> {
    let truths = truths_of(alloc, node, frame)?;
    Ok(truths.as_slice() == wanted)
}

/// Whether a tree says this of a = 1, null, 5.
fn says_of_worked(alloc: Global, node: PredNode, wanted: &[Truth]) -> Result<bool, Fault> {
    let frame = worked(alloc)?;
    says(alloc, node, &frame, wanted)
}

#[test]
fn a_comparison_is_true_unknown_at_a_null_or_false(rt: HostRuntime) -> Result<(), Fail> {
    let wanted = [Truth::True, Truth::Unknown, Truth::False];
    assert!(rt; says_of_worked(rt.alloc(), below_three(rt.alloc())?, &wanted)?);
    Ok(())
}

/// Whether the frame has this one number.
fn is_lone(frame: &Frame, number: i64) -> bool {
    if frame.width() != 1 || frame.height() != 1 {
        return false;
    }
    let column = frame.column(0);
    column.len() == 1 && column.get(0) == Cell::Int(number)
}

/// The rows that are true, and the frame as it is where it has another number of rows than the mask.
fn kept_of(alloc: Global, frame: Frame, mask: &[Truth]) -> Result<Frame, Fault> {
    if frame.height() != mask.len() {
        return Ok(frame);
    }
    filter(alloc, frame, mask)
}

fn truths_below_three(alloc: Global, frame: &Frame) -> Result<Vec<Truth>, Fault> {
    truths_of(alloc, below_three(alloc)?, frame)
}

fn kept_below_three(alloc: Global) -> Result<Frame, Fault> {
    let frame = worked(alloc)?;
    let truths = truths_below_three(alloc, &frame)?;
    kept_of(alloc, frame, &truths)
}

fn keeps_one(alloc: Global) -> Result<bool, Fault> {
    let kept = kept_below_three(alloc)?;
    Ok(is_lone(&kept, 1))
}

#[test]
fn a_filter_keeps_the_rows_that_are_true(rt: HostRuntime) -> Result<(), Fail> {
    assert!(rt; keeps_one(rt.alloc())?);
    Ok(())
}

/// A frame of t = b, ab, null, bb.
fn four_texts(alloc: Global) -> Result<Frame, Fault> {
    let cells = [
        Cell::Text("b"),
        Cell::Text("ab"),
        Cell::Null,
        Cell::Text("bb"),
    ];
    frame_of(alloc, "t", ColType::Text, &cells)
}

/// Whether t is at most b.
fn at_most_b(alloc: Global) -> Result<PredNode, Fault> {
    let text = Name::new(alloc, "b")?;
    compared(alloc, CmpOp::Le, "t", Rhs::Lit(Value::Text(text)))
}

fn says_of_texts(alloc: Global, node: PredNode, wanted: &[Truth]) -> Result<bool, Fault> {
    let frame = four_texts(alloc)?;
    says(alloc, node, &frame, wanted)
}

#[test]
fn texts_go_by_their_bytes_and_not_by_their_length(rt: HostRuntime) -> Result<(), Fail> {
    let wanted = [Truth::True, Truth::True, Truth::Unknown, Truth::False];
    assert!(rt; says_of_texts(rt.alloc(), at_most_b(rt.alloc())?, &wanted)?);
    Ok(())
}

fn equal_to_null(alloc: Global) -> Result<PredNode, Fault> {
    compared(alloc, CmpOp::Eq, "a", Rhs::Lit(Value::Null))
}

#[test]
fn a_comparison_with_a_null_is_unknown(rt: HostRuntime) -> Result<(), Fail> {
    let wanted = [Truth::Unknown; 3];
    assert!(rt; says_of_worked(rt.alloc(), equal_to_null(rt.alloc())?, &wanted)?);
    Ok(())
}

/// A tree of so many levels, and of one where none is asked.
fn chain_of(alloc: Global, levels: u32) -> Result<PredNode, Fault> {
    let mut node = PredNode::IsNull(Name::new(alloc, "a")?);
    for _ in 1..levels {
        node = PredNode::Not(boxed(alloc, node)?);
    }
    Ok(node)
}

/// Whether a tree is refused for its depth.
fn is_too_deep(node: PredNode) -> bool {
    match Pred::new(node) {
        Ok(_) => false,
        Err(fault) => is_depth_fault(&fault),
    }
}

fn is_depth_fault(fault: &Fault) -> bool {
    matches!(
        fault,
        Fault::InvalidQuery {
            why: Why::PredDepth
        }
    )
}

#[test]
fn a_predicate_of_128_levels_is_held(rt: HostRuntime) -> Result<(), Fail> {
    assert!(rt; !is_too_deep(chain_of(rt.alloc(), 128)?));
    Ok(())
}

#[test]
fn a_predicate_of_129_levels_is_refused(rt: HostRuntime) -> Result<(), Fail> {
    assert!(rt; is_too_deep(chain_of(rt.alloc(), 129)?));
    Ok(())
}

#[test]
fn a_long_chain_is_refused_and_dropped(rt: HostRuntime) -> Result<(), Fail> {
    assert!(rt; is_too_deep(chain_of(rt.alloc(), 20000)?));
    Ok(())
}

fn is_null(alloc: Global, name: &str) -> Result<Box<PredNode>, Fault> {
    boxed(alloc, PredNode::IsNull(Name::new(alloc, name)?))
}

/// A tree and a null test, of which both hold.
fn with_test(alloc: Global, node: PredNode, name: &str) -> Result<PredNode, Fault> {
    let first = boxed(alloc, node)?;
    Ok(PredNode::And(first, is_null(alloc, name)?))
}

/// A tree of so many levels, each the first part of the one above it, and of one where none is asked.
fn left_spine_of(alloc: Global, levels: u32) -> Result<PredNode, Fault> {
    let mut node = PredNode::IsNull(Name::new(alloc, "a")?);
    for _ in 1..levels {
        node = with_test(alloc, node, "a")?;
    }
    Ok(node)
}

#[test]
fn a_long_left_spine_is_refused_and_dropped(rt: HostRuntime) -> Result<(), Fail> {
    assert!(rt; is_too_deep(left_spine_of(rt.alloc(), 20000)?));
    Ok(())
}

/// Checks a tree over the columns of a frame.
fn check(alloc: Global, node: PredNode, frame: &Frame) -> Result<(), Fault> {
    let pred = Pred::new(node)?;
    pred.check(alloc, frame.schema())
}

/// Checks a tree over a = 1, null, 5.
fn check_over_worked(alloc: Global, node: PredNode) -> Result<(), Fault> {
    let frame = worked(alloc)?;
    check(alloc, node, &frame)
}

/// The number of a fault, and the name of its column; 0 and no name where there is none.
fn blame(fault: &Fault) -> (u8, &str) {
    match fault {
        Fault::ColumnNotFound { name } | Fault::SchemaMismatch { name } => {
            (fault.number(), name.as_str())
        }
        _ => (fault.number(), ""),
    }
}

/// Whether a tree over a = 1, null, 5 is refused by the fault of this number, and for the column of this name.
fn has_fault(alloc: Global, node: PredNode, number: u8, name: &str) -> bool {
    match check_over_worked(alloc, node) {
        Ok(()) => false,
        Err(fault) => blame(&fault) == (number, name),
    }
}

#[test]
fn a_name_that_no_column_has_is_not_found(rt: HostRuntime) -> Result<(), Fail> {
    let node = compared(rt.alloc(), CmpOp::Eq, "b", Rhs::Lit(Value::Int(1)))?;
    assert!(rt; has_fault(rt.alloc(), node, 7, "b"));
    Ok(())
}

/// A comparison of a with a truth value.
fn mismatch(alloc: Global) -> Result<PredNode, Fault> {
    compared(alloc, CmpOp::Eq, "a", Rhs::Lit(Value::Bool(true)))
}

#[test]
fn a_number_beside_a_truth_value_is_a_mismatch(rt: HostRuntime) -> Result<(), Fail> {
    assert!(rt; has_fault(rt.alloc(), mismatch(rt.alloc())?, 8, "a"));
    Ok(())
}

#[test]
fn a_column_of_numbers_is_no_truth(rt: HostRuntime) -> Result<(), Fail> {
    let node = PredNode::Is(Name::new(rt.alloc(), "a")?);
    assert!(rt; has_fault(rt.alloc(), node, 8, "a"));
    Ok(())
}

#[test]
fn an_absent_name_comes_before_an_earlier_mismatch(rt: HostRuntime) -> Result<(), Fail> {
    let node = with_test(rt.alloc(), mismatch(rt.alloc())?, "z")?;
    assert!(rt; has_fault(rt.alloc(), node, 7, "z"));
    Ok(())
}

#[test]
fn a_mismatch_is_told_where_all_names_are_there(rt: HostRuntime) -> Result<(), Fail> {
    let node = with_test(rt.alloc(), mismatch(rt.alloc())?, "a")?;
    assert!(rt; has_fault(rt.alloc(), node, 8, "a"));
    Ok(())
}
