//! The ends that the ports of a node get.
ghost use Rattle.std.specs.Prelude.{◌≡◌, Some, Vec, slice_get};

use morsel_ports::Ends;
use std::alloc::Global;
use std::mem;

/// Takes the ends of the first port, which has one for each pipeline.
pub fn take_ends<E: Drop>(ports: &mut Vec<Ends<E>>) -> Vec<E>
    requires parallel { (ends : Vec E Global) × (slice_get ports.old.items 0 ≡ Some (Ends.Parallel ends)) }
    ensures ends { slice_get ports.old.items 0 ≡ Some (Ends.Parallel result) }
{
    match mem::replace(&mut ports[0], Ends::Absent) {
        Ends::Parallel(ends) => ends,
        _ => unreachable!(),
    }
}

/// Takes the end of the first port, which has one.
pub fn take_end<E: Drop>(ports: &mut Vec<Ends<E>>) -> E
    requires serial { (end : E) × (slice_get ports.old.items 0 ≡ Some (Ends.Serial end)) }
    ensures end { slice_get ports.old.items 0 ≡ Some (Ends.Serial result) }
{
    match mem::replace(&mut ports[0], Ends::Absent) {
        Ends::Serial(end) => end,
        _ => unreachable!(),
    }
}
