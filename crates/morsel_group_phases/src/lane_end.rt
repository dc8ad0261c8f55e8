//! Where lanes ended.
use std::snapshot::Snapshot;

/// Up to which place lanes went that ended.
#[derive(Drop)]
pub struct LaneEnd<J> {
    /// What they were for. Contracts alone see it.
    pub job: Snapshot<J>,
    /// The place.
    pub to: u64,
}
