//! What the lanes of loads are for.

/// What a lane of loads is for. Contracts alone see it.
pub trait LoadJob<K> {
    ghost use Rattle.morsel_load.specs.Loads.{LoadSeen};

    /// A load that is seen so is one that the lane may carry.
    ghost suits: { Self → LoadSeen → Type 0 };

    /// A load of the lane may hold this token until it is consumed.
    ghost holds: { Self → K → Type 0 };
}
