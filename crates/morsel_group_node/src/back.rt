//! What a unit ended with.
ghost use Rattle.std.specs.Prelude.{◌≡◌};
ghost use Rattle.morsel_ports.specs.Nodes.{IsGivenBack};
ghost use Rattle.morsel_join_node.specs.JoinUnits.{end_of_work, work_of};

use morsel_lane_pipe::{PipeOut, Receipts};
use morsel_meaning::Fault;
use morsel_units::Finished;
use std::alloc::Global;

/// What a unit worked with, where it ended whole; and what is answered for it.
pub fn split<R: Drop, S: Drop, W>(
    alloc: Global,
    out: PipeOut<Finished<Receipts<R, S>, W>>,
) -> (Option<W>, Result<Receipts<R, S>, Fault>)
    ensures work { result.0 ≡ work_of out }
    ensures end { IsGivenBack (end_of_work out) result.1 }
{
    match out {
        PipeOut::Whole(finished) => {
            let Finished { receipts, work } = finished;
            (Some(work), Ok(receipts))
        }
        PipeOut::Cut => (
            None,
            Ok(Receipts {
                taken: Vec::new(alloc),
                sent: Vec::new(alloc),
            }),
        ),
        PipeOut::OutOfMemory => (None, Err(Fault::OutOfMemory)),
        PipeOut::Failed(fault) => (None, Err(fault)),
    }
}
