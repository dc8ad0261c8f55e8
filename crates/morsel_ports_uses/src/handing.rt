//! A node that hands loads on as they come.
ghost use Rattle.std.specs.Prelude.{◌≡◌, ◌∷◌, [], None};

use morsel_lane_pipe::{Inserting, PipeOut, Receipts, ReceiptsOf, Stepping, Stepwise};
use morsel_load::{Load, LoadJob};
use morsel_meaning::Fault;
use morsel_merge::Inserter;
use morsel_ports::{ComputeNode, Ends, PortKind, PortState};
use morsel_prims::{Lanes, Tokens};
use std::alloc::Global;

/// A node of one receiving and one sending port, whose one unit hands loads on as they come.
#[derive(Debug, Drop)]
pub struct HandingNode {
    // For how many pipelines it was made ready.
    pipelines: Option<u32>,
    // How many units are out.
    units: u32,
}

impl HandingNode {
    /// A node that is not made ready yet.
    pub fn new() -> HandingNode
        ensures { result ≡ record { pipelines = None; units = 0 } }
    {
        HandingNode {
            pipelines: None,
            units: 0,
        }
    }
}

/// Takes the end of a port that is the only one, and has one end.
fn take_end<E: Drop>(ports: &mut Vec<Ends<E>>) -> E
    requires one { (end : E) × (ports.old.items ≡ Ends.Serial end ∷ []) }
    ensures end { ports.old.items ≡ Ends.Serial result ∷ [] }
{
    match ports.pop() {
        Some(Ends::Serial(end)) => end,
        _ => unreachable!(),
    }
}

impl<
    L: Tokens + Lanes<Load<<L as Tokens>::Token, J>>,
    J: LoadJob<<L as Tokens>::Token>,
> ComputeNode<L, J> for HandingNode {
    ghost use Rattle.std.specs.Prelude.{false, codes};
    ghost use Rattle.morsel_meaning.specs.declared.fault.Fault.TheVariants.{OutOfMemory};
    ghost use Rattle.morsel_ports.specs.declared.node.PortKind.TheVariants.{Serial};
    ghost use Rattle.morsel_ports.specs.Nodes.{end_of_out, lanes_of_task};

    type Unit = Stepping<Inserting<L, J>>;

    ghost seen = { λ node. record { name = codes "handing"; blocks = false; pipelines = node.pipelines; recv_kinds = Serial ∷ []; send_kinds = Serial ∷ []; units = node.units } };

    ghost is_unit = { λ node unit. Unit {0} };

    ghost unit_seen = { λ unit. lanes_of_task ⟦<Inserting<L, J> as Stepwise<L::Board>>⟧.seen unit.task };

    ghost unit_fails = { λ unit fault. fault ≡ OutOfMemory };

    ghost end_of = { λ out. end_of_out out };

    ghost fits = { λ node from to. (job : J) × (from ≡ job ∷ []) × (to ≡ job ∷ []) };

    // What it takes it sends.
    ghost makes = { λ node taken sent. taken ≡ sent };

    ghost fails = { λ node jobs fault. fault ≡ OutOfMemory };

    // Each port answers what the other one was told.
    ghost moves = { λ node recv send now recv_then send_then. (recv_then ≡ send) × (send_then ≡ recv) };

    ghost asks_apart = { λ node. false };

    ghost took = { λ node lists. Unit {0} };

    // It keeps nothing of its own.
    ghost stays = { λ begun node. Unit {0} };

    fn name(&self) -> &str {
        "handing"
    }

    fn is_memory_intensive_pipeline_blocker(&self) -> bool {
        false
    }

    fn initialize(&mut self, pipelines: u32) {
        self.pipelines = Some(pipelines);
    }

    fn update_state(
        &mut self,
        recv: &mut [PortState],
        send: &mut [PortState],
    ) -> Result<(), Fault> {
        recv.swap_with_slice(send);
        Ok(())
    }

    fn recv_kind(&self, _port: u32) -> PortKind {
        PortKind::Serial
    }

    fn send_kind(&self, _port: u32) -> PortKind {
        PortKind::Serial
    }

    fn take_tasks(
        &mut self,
        alloc: Global,
        _board: &mut L::Board,
        recv: &mut Vec<Ends<L::Receiver>>,
        send: &mut Vec<Ends<L::Sender>>,
    ) -> Result<Vec<Stepping<Inserting<L, J>>>, Fault> {
        let from = take_end(recv);
        let sender = take_end(send);
        let unit = Inserting::new(alloc, from, Inserter { sender })?;
        let mut units = Vec::new(alloc);
        units.push(Stepping::new(unit))?;
        self.units = 1;
        Ok(units)
    }

    fn give_back(
        &mut self,
        alloc: Global,
        out: PipeOut<ReceiptsOf<L, J>>,
    ) -> Result<ReceiptsOf<L, J>, Fault> {
        self.units -= 1;
        match out {
            PipeOut::Whole(receipts) => Ok(receipts),
            PipeOut::Cut => Ok(Receipts {
                taken: Vec::new(alloc),
                sent: Vec::new(alloc),
            }),
            PipeOut::OutOfMemory => Err(Fault::OutOfMemory),
            PipeOut::Failed(fault) => Err(fault),
        }
    }
}
