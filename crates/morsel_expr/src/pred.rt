//! Predicates that are known to have few levels.
ghost use Rattle.std.specs.Prelude.{◌≡◌, ◌≤◌, ◌↔◌, ◌-◌, None, map, IfOk, IfErr, IsOk, IsOkUnless, IsTrue};
ghost use Rattle.morsel_frame.specs.Refusals.{Refuses};
ghost use Rattle.morsel_expr.specs.Predicates.{truth};
ghost use Rattle.morsel_expr.specs.Flaws.{levels, flaw};

use crate::check::check_node;
use crate::eval::eval_node;
use crate::{PredNode, Truth};
use morsel_frame::{Frame, Schema};
use morsel_meaning::{Fault, Why};
use std::alloc::Global;
use std::marker::Model;

/// How many levels a predicate may have.
const MOST_LEVELS: u8 = 128;

/// A predicate of at most 128 levels, which contracts see as its tree.
#[derive(Debug, Drop)]
pub struct Pred {
    node: PredNode,
}

impl Model for Pred {
    ghost use Rattle.std.specs.Prelude.{◌≤◌};
    ghost use Rattle.morsel_expr.specs.declared.node.PredNode.{PredNode};
    ghost use Rattle.morsel_expr.specs.Flaws.{levels};

    ghost Value = { PredNode };

    ghost use Rattle.morsel_expr.specs.contracts.node.PredNode as tree;
    ghost use Rattle.std.specs.Coded.{codes};

    ghost coded = { Prim.hlevel (codes, tree.the_row.coded) };

    ghost view = { λ pred. pred.node };

    ghost invariant = { λ pred. levels pred.node ≤ 128 };
}

impl Pred {
    /// Holds the tree. One of more than 128 levels is refused.
    pub fn new(node: PredNode) -> Result<Pred, Fault>
        ensures ok { IfOk result (λ pred. pred ≡ node) }
        ensures within { IsOk result ↔ levels node ≤ 128 }
        ensures too_deep { IfErr result (λ fault. fault ≡ Fault.InvalidQuery Why.PredDepth) }
    {
        if !has_room(&node, MOST_LEVELS) {
            return Err(Fault::InvalidQuery {
                why: Why::PredDepth,
            });
        }
        Ok(Pred { node })
    }

    /// The tree.
    pub fn node(&self) -> &PredNode
        ensures { result.now ≡ self.now }
    {
        &self.node
    }

    /// Whether the predicate fits a schema. A name that no column has is not found. Where the two sides of a comparison
    /// differ in type, or `Is` names another type than truth values, it is a mismatch of the first column.
    ///
    /// An absent name anywhere comes before types that differ, and of each kind the first from left to right.
    pub fn check(&self, alloc: Global, schema: &Schema) -> Result<(), Fault>
        ensures { Refuses (flaw schema.now self.now) result }
    {
        check_node(alloc, &self.node, schema)
    }

    /// What the predicate says of each row.
    pub fn eval(&self, alloc: Global, frame: &Frame) -> Result<Vec<Truth>, Fault>
        requires checked { flaw frame.now.schema self.now ≡ None }
        ensures ok { IfOk result (λ truths. truths.items ≡ map (truth frame.now.schema self.now) frame.now.rows) }
        ensures out_of_memory { IsOkUnless result Fault.OutOfMemory }
    {
        eval_node(alloc, &self.node, frame)
    }
}

/// Whether a tree has at most so many levels. It goes no deeper than that.
#[tactic(auto, using(crate::proofs::LevelLemmas::levels_above))]
fn has_room(node: &PredNode, room: u8) -> bool
    ensures { IsTrue result ↔ levels node.now ≤ room }
{
    if room == 0 {
        return false;
    }
    match node {
        PredNode::And(a, b) => has_room(a, room - 1) && has_room(b, room - 1),
        PredNode::Or(a, b) => has_room(a, room - 1) && has_room(b, room - 1),
        PredNode::Not(a) => has_room(a, room - 1),
        _ => true,
    }
}
