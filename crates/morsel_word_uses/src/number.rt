//! What goes from one thread to another.
use morsel_prims::Message;

/// A number.
#[derive(Clone, Copy, Debug, Drop, PartialEq, Eq)]
pub struct Crossing(pub u64);

impl Message for Crossing {
    type Job = ();

    ghost suits = { λ job value. Unit {0} };
}
