//! What the lanes and groups of one thread are kept on.
ghost use Rattle.std.specs.Prelude.{◌≡◌, [], IfOk, IfErr};
ghost use Rattle.morsel_meaning.specs.declared.fault.Fault.TheVariants.{OutOfMemory};

use crate::lane::Message;
use crate::plain_counts::PlainCounts;
use crate::plain_queues::PlainQueues;
use crate::task::Board;
use morsel_meaning::Fault;
use std::alloc::Global;
use std::marker::Model;

/// All lanes and groups of one thread.
#[derive(Drop)]
pub struct PlainBoard<T: Message> {
    /// Its lanes.
    pub(crate) queues: PlainQueues<T>,
    /// Its groups.
    pub(crate) counts: PlainCounts,
}

impl<T: Message> Model for PlainBoard<T> {
    ghost use Rattle.morsel_prims.specs.Board.{PlainSeen};

    ghost Value = { PlainSeen T T.Job };

    ghost view = { λ board. record { lane_table = board.queues.roll.seat.table_id; rows = board.queues.roll.seat.me.0.rows; lanes = board.queues.lanes.items; group_table = board.counts.roll.seat.table_id; group_rows = board.counts.roll.seat.me.0.rows; groups = board.counts.groups.items } };
}

impl<T: Message> Board for PlainBoard<T> {
    ghost use Rattle.morsel_prims.specs.Board.{waits_among};

    ghost id = { λ board. record { lane_table = board.lane_table; group_table = board.group_table } };

    ghost waits_at = { λ board. waits_among board.lanes board.groups };
}

impl<T: Message> PlainBoard<T> {
    /// No lanes, and no groups.
    pub fn new(alloc: Global) -> Result<PlainBoard<T>, Fault>
        ensures empty { IfOk result (λ board. (board.lanes ≡ []) × (board.groups ≡ [])) }
        ensures out_of_memory { IfErr result (λ fault. fault ≡ OutOfMemory) }
    {
        Ok(PlainBoard {
            queues: PlainQueues::new(alloc)?,
            counts: PlainCounts::new(alloc)?,
        })
    }
}
