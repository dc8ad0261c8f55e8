//! The step of a scan that keeps the rows whose predicate is true.
ghost use Rattle.std.specs.Prelude.{◌≡◌, IfOk, IsOkUnless};
ghost use Rattle.morsel_frame.specs.Refusals.{Refuses};
ghost use Rattle.morsel_expr.specs.Flaws.{flaw};
ghost use Rattle.morsel_scan.specs.Filters.{true_of};

use morsel_expr::{Pred, filter};
use morsel_frame::{Frame, Schema};
use morsel_meaning::Fault;
use std::alloc::Global;
use std::marker::Model;

/// A filter over the frames of one schema.
#[derive(Debug, Drop)]
pub struct FilterStep {
    pred: Pred,
    schema: Schema,
}

impl Model for FilterStep {
    ghost use Rattle.std.specs.Prelude.{◌≡◌, None};
    ghost use Rattle.morsel_expr.specs.Flaws.{flaw};
    ghost use Rattle.morsel_scan.specs.Filters.{Filter};

    ghost Value = { Filter };

    ghost use Rattle.morsel_expr.specs.contracts.node.PredNode as tree;
    ghost use Rattle.std.specs.Coded.{codes};

    ghost coded = { Prim.hlevel (codes, tree.the_row.coded) };

    ghost view = { λ step. record { fields = step.schema; node = step.pred } };

    ghost invariant = { λ step. flaw step.schema step.pred ≡ None };
}

impl FilterStep {
    /// A filter by this predicate. A name that no column has is not found. Where the two sides of a comparison differ in
    /// type, or `Is` names another type than truth values, it is a mismatch of the first column.
    pub fn new(alloc: Global, pred: Pred, schema: &Schema) -> Result<FilterStep, Fault>
        ensures ok { IfOk result (λ step. step ≡ record { fields = schema.now; node = pred }) }
        ensures refused { Refuses (flaw schema.now pred) result }
    {
        pred.check(alloc, schema)?;
        let schema = schema.again()?;
        Ok(FilterStep { pred, schema })
    }

    /// The rows whose predicate is true, in their order.
    #[tactic(auto, using(crate::proofs::FilterLemmas::kept_by_truths))]
    pub fn apply(&self, alloc: Global, frame: Frame) -> Result<Frame, Fault>
        requires fields { frame.schema ≡ self.now.fields }
        ensures ok { IfOk result (λ kept. kept ≡ record frame { rows = true_of self.now frame.rows }) }
        ensures out_of_memory { IsOkUnless result Fault.OutOfMemory }
    {
        let truths = self.pred.eval(alloc, &frame)?;
        filter(alloc, frame, &truths)
    }
}
