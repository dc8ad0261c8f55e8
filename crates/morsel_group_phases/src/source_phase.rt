//! A group-by once no more rows come.
ghost use Rattle.std.specs.Prelude.{map};
ghost use Rattle.morsel_group_units.specs.TakenLoads.{rows_taken};
ghost use Rattle.morsel_group_phases.specs.LaneEnds.{TookFrom, lane_ended};

use crate::lane_end::LaneEnd;
use morsel_group_units::GroupedRows;
use morsel_rows_job::RowsJob;
use std::marker::PhantomData;

/// What a group-by has once no more rows come.
#[derive(Drop)]
pub struct SourcePhase<K, J: RowsJob<K>> {
    pub grouped: GroupedRows,
    // Where its lanes ended, in their order.
    pub ends: Vec<LaneEnd<J>>,
    lanes: PhantomData<K>,
    /// What was grouped is the rows of these lanes.
    pub ghost took: { ∥ TookFrom J.yields (map lane_ended ends.items) (rows_taken grouped.taken) ∥₁ },
}

impl<K, J: RowsJob<K>> SourcePhase<K, J> {
    ghost use Rattle.std.specs.Prelude.{◌≡◌, map};
    ghost use Rattle.morsel_group_units.specs.TakenLoads.{rows_taken};
    ghost use Rattle.morsel_group_phases.specs.LaneEnds.{TookFrom, lane_ended};

    /// These rows are those of the group-by of what was taken from lanes that ended so.
    pub fn of(grouped: GroupedRows, ends: Vec<LaneEnd<J>>) -> SourcePhase<K, J>
        requires took { ∥ TookFrom J.yields (map lane_ended ends.items) (rows_taken grouped.taken) ∥₁ }
        ensures grouped { result.grouped ≡ grouped }
        ensures ends { result.ends ≡ ends }
    {
        SourcePhase {
            grouped,
            ends,
            lanes: PhantomData,
        }
    }
}
