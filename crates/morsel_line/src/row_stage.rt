//! What becomes of the rows of a scan on their way to a sink.
ghost use Rattle.std.specs.Prelude.{◌≡◌};
ghost use Rattle.std.specs.Arc.{arc_value};
ghost use Rattle.morsel_join.specs.BuildSides.{kept_side};
ghost use Rattle.morsel_line.specs.RowStages.{AloneRows, FoundRows, GivenRows, ScannedRows};

use morsel_frame::Frame;
use morsel_join::Build;
use std::alloc::Global;
use std::marker::Model;
use std::snapshot::Snapshot;
use std::sync::Arc;

/// What rows are.
#[derive(Drop)]
enum Rows {
    // Those of a scan.
    Scanned,
    // What the rows of a scan find on the kept side of a join.
    Found(Arc<Build, Global>),
    // The kept rows of a join that no row of the scan finds.
    Alone(Arc<Build, Global>),
    // These rows.
    Given(Snapshot<Frame>),
}

/// What the rows of a lane are: those of a scan, or what becomes of them.
#[derive(Drop)]
pub struct RowStage {
    rows: Rows,
}

impl Model for RowStage {
    ghost use Rattle.morsel_line.specs.RowStages.{StageSeen, stage_seen};

    ghost Value = { StageSeen };

    ghost view = { λ stage. stage_seen stage.rows };
}

impl RowStage {
    /// Those of the scan.
    pub fn scanned() -> RowStage
        ensures { result ≡ ScannedRows }
    {
        RowStage {
            rows: Rows::Scanned,
        }
    }

    /// What the rows of the scan find on this kept side.
    pub fn found(build: Arc<Build, Global>) -> RowStage
        ensures { result ≡ FoundRows (kept_side (arc_value build)) }
    {
        RowStage {
            rows: Rows::Found(build),
        }
    }

    /// The kept rows of this side that no row of the scan finds.
    pub fn alone(build: Arc<Build, Global>) -> RowStage
        ensures { result ≡ AloneRows (kept_side (arc_value build)) }
    {
        RowStage {
            rows: Rows::Alone(build),
        }
    }

    /// These rows. Contracts alone see them.
    pub fn given(frame: &Frame) -> RowStage
        ensures { result ≡ GivenRows frame.now.schema frame.now.rows }
    {
        RowStage {
            rows: Rows::Given(Snapshot::of(frame)),
        }
    }
}
