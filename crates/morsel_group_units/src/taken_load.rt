//! A load whose rows were taken.
ghost use Rattle.std.specs.Prelude.{◌≡◌, length};

use morsel_frame::Frame;
use morsel_load::Stretch;
use morsel_pipe::MorselSeq;
use std::snapshot::Snapshot;

/// A load whose rows were taken into local groups. Contracts alone see the rows.
#[derive(Drop)]
pub struct TakenLoad {
    /// Its number.
    pub seq: MorselSeq,
    /// How many rows its unit took before.
    pub arrival: u64,
    /// How many rows it has.
    pub count: u64,
    /// Its stretch.
    pub stretch: Stretch,
    /// Its rows.
    pub frame: Snapshot<Frame>,
    /// It has so many.
    pub ghost many: { count ≡ length frame.value.rows },
}
