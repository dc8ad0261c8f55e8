//! Laws of what units promise, each the contract of a function that does nothing.
ghost use Rattle.morsel_units_uses.specs.Uncounted.{AddsNoStretch, BoundsNoNumber, SomeEndsNone};

use morsel_load::{Load, LoadJob};
use morsel_prims::Message;

/// What a unit promises of the stretches that it sends on holds whatever loads that end no stretch lie among those that are sent, and
/// however many. So it bounds no number of loads, also where each of them suits the lane.
pub fn loads_that_end_no_stretch_are_not_counted<K: Drop, J: LoadJob<K>>()
    ensures uncounted { AddsNoStretch K J }
    ensures unbounded { BoundsNoNumber ⟦<Load<K, J> as Message>⟧.suits }
    ensures some { SomeEndsNone K J }
{}
