//! Connectors that are merged, and a distributor over them.
use crate::tests::merged::{MergePlan, merges_so};
use crate::tests::spread::{SpreadPlan, spreads_so};
use morsel_meaning::Fault;
use morsel_word_lanes::WordLanes;
use std::alloc::Global;
use std::test::Fail;

/// Whether what is planned holds of connectors that are merged.
fn connectors_merge_so(alloc: Global, plan: MergePlan) -> Result<bool, Fault> {
    merges_so::<WordLanes>(alloc, (), plan)
}

/// Whether what is planned holds of a distributor over connectors.
fn connectors_spread_so(alloc: Global, seed: u64, plan: SpreadPlan) -> Result<bool, Fault> {
    spreads_so::<WordLanes>(alloc, (), seed, plan)
}

#[test]
fn two_connectors_are_merged_by_number(rt: HostRuntime) -> Result<(), Fail> {
    assert!(rt; connectors_merge_so(rt.alloc(), MergePlan::InTurn)?);
    Ok(())
}

#[test]
fn a_connector_that_is_cut_gives_no_end(rt: HostRuntime) -> Result<(), Fail> {
    assert!(rt; connectors_merge_so(rt.alloc(), MergePlan::CutAtOnce)?);
    Ok(())
}

#[test]
fn two_connectors_take_two_numbers(rt: HostRuntime) -> Result<(), Fail> {
    for seed in 0..16 {
        let so = connectors_spread_so(rt.alloc(), seed, SpreadPlan::TakeTwo)?;
        assert!(rt; so, "seed {seed}");
    }
    Ok(())
}
