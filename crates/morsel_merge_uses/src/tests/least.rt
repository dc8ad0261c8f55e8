//! What the lanes of these uses carry.
use morsel_prims::Message;
use std::cmp::Reverse;

/// A number, of which the least comes first.
#[derive(Clone, Copy, Debug, Drop, PartialEq, Eq, PartialOrd, Ord)]
pub struct Least(pub Reverse<u64>);

impl Message for Least {
    type Job = ();

    ghost suits = { λ job value. Unit {0} };
}
