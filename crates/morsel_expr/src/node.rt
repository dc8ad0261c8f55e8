//! The parts of which a predicate is made.
ghost use Rattle.std.specs.Prelude.{◌≡◌};

use morsel_meaning::{Name, Value};
use std::mem::swap;

/// How two values are compared: by their one order, in which numbers go by size, false comes before true, and texts
/// go by their bytes.
#[derive(Clone, Copy, Debug, PartialEq, Eq)]
pub enum CmpOp {
    /// The values are the same.
    Eq,
    /// They are not the same.
    Ne,
    /// The first comes before the second.
    Lt,
    /// The first comes before the second, or is the same.
    Le,
    /// The first comes after the second.
    Gt,
    /// The first comes after the second, or is the same.
    Ge,
}

/// What a column is compared with.
#[derive(Debug, Drop)]
pub enum Rhs {
    /// The column of this name.
    Col(Name),
    /// A value. A null is of every type, and leaves each comparison unknown.
    Lit(Value),
}

/// A predicate as a tree. One of any depth can be dropped: that takes no memory, and no stack frame for each level.
///
/// Since it has a `drop` of its own, its parts cannot be moved out of it by a pattern.
#[derive(Debug)]
pub enum PredNode {
    /// Whether both hold: the lesser of the two.
    And(Box<PredNode>, Box<PredNode>),
    /// Whether one of them holds: the greater of the two.
    Or(Box<PredNode>, Box<PredNode>),
    /// False and true exchanged.
    Not(Box<PredNode>),
    /// Whether the column has a null. It is never unknown.
    IsNull(Name),
    /// Whether the column has a value. It is never unknown.
    NotNull(Name),
    /// The column of truth values itself.
    Is(Name),
    /// A column compared with another or with a value.
    Cmp(CmpOp, Name, Rhs),
}

impl Drop for PredNode {
    // A loop that takes no memory, since a derived drop calls itself once for each level.
    fn drop(mut self) {
        loop {
            match self {
                PredNode::And(first, second) | PredNode::Or(first, second) => {
                    self = PredNode::take_apart(first, second);
                }
                PredNode::Not(part) => self = Box::into_inner(part),
                PredNode::IsNull(_)
                | PredNode::NotNull(_)
                | PredNode::Is(_)
                | PredNode::Cmp(_, _, _) => return,
            }
        }
    }
}

impl PredNode {
    ghost use Rattle.std.specs.Prelude.{◌≡◌, ◌+◌, ◌*◌, ◌<◌, true};
    ghost use Rattle.morsel_expr.specs.Weights.{weight, is_leaf};

    /// One step of dropping two parts, and what is left of them. A first part that is a leaf is dropped. Of any other
    /// the own first part comes to the front, and the second is put into its box: `(a b) c` becomes `a (b c)`.
    fn take_apart(mut first: Box<PredNode>, mut second: Box<PredNode>) -> PredNode
        ensures { weight result < 1 + 2 * weight first.value + weight second.value }
    {
        match &mut *first {
            PredNode::And(a, b) => rotate(a, b, &mut second),
            PredNode::Or(a, b) => rotate(a, b, &mut second),
            PredNode::Not(a) => swap(a, &mut second),
            _ => {
                Box::into_inner(first).drop_leaf();
                return Box::into_inner(second);
            }
        }
        PredNode::And(second, first)
    }

    /// Drops a node that has no parts.
    fn drop_leaf(self)
        requires { is_leaf self ≡ true }
    {
        match self {
            PredNode::IsNull(_) | PredNode::NotNull(_) | PredNode::Is(_) | PredNode::Cmp(_, _, _) =>
                (),
            // The parts have names, since `_` would drop them, and that calls `drop`.
            PredNode::And(_first, _second) | PredNode::Or(_first, _second) => unreachable!(),
            PredNode::Not(_part) => unreachable!(),
        }
    }
}

/// Moves the second box to the first place, the third to the second, and the first to the third.
fn rotate(a: &mut Box<PredNode>, b: &mut Box<PredNode>, c: &mut Box<PredNode>)
    ensures first { a.new ≡ b.old }
    ensures second { b.new ≡ c.old }
    ensures third { c.new ≡ a.old }
{
    swap(a, b);
    swap(b, c);
}
