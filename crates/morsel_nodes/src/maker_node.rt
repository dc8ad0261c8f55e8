//! A node whose units make one load of each that they take.
ghost use Rattle.std.specs.Prelude.{◌≡◌, ◌∷◌, [], false, None, Vec};
ghost use Rattle.morsel_ports.specs.declared.node.PortState.{PortState};
ghost use Rattle.morsel_nodes.specs.MakerNodes.{Moves, is_done, ready_unless};

use crate::load_makers::{LoadMakers, Role};
use crate::units::{MakerUnit, units_of};
use morsel_lane_pipe::{PipeOut, Receipts, ReceiptsOf, Stepwise};
use morsel_load::{Load, LoadJob};
use morsel_meaning::Fault;
use morsel_ports::{ComputeNode, Ends, PortKind, PortState};
use morsel_prims::{LaneReceiver, LaneSender, Lanes, Task, Tokens};
use morsel_units::{LoadMaker, NodeUnit};
use std::alloc::Global;

/// A node of one receiving and one sending port, both parallel, of which each unit makes one load of each that it takes.
#[derive(Drop)]
pub struct MakerNode<W> {
    makers: W,
    // For how many pipelines it was made ready.
    pipelines: Option<u32>,
    // How many units are out.
    units: u32,
    // Whether a source has finished.
    finished: bool,
}

impl<W> MakerNode<W> {
    /// A node that is not made ready yet.
    pub fn new(makers: W) -> MakerNode<W>
        ensures { result ≡ record { makers = makers; pipelines = None; units = 0; finished = false } }
    {
        MakerNode {
            makers,
            pipelines: None,
            units: 0,
            finished: false,
        }
    }
}

/// Whether no more loads go through a port.
fn done(state: PortState) -> bool
    ensures { result ≡ is_done state }
{
    matches!(state, PortState::Done)
}

/// What a port answers.
fn answer(is_done: bool) -> PortState
    ensures { result ≡ ready_unless is_done }
{
    if is_done {
        PortState::Done
    } else {
        PortState::Ready
    }
}

/// Moves the states of the two ports of a node on, and whether it has finished.
fn move_states(
    role: Role,
    finished: &mut bool,
    units: u32,
    recv: PortState,
    send: PortState,
) -> (PortState, PortState)
    ensures { Moves role finished.old units recv send finished.new result.0 result.1 }
{
    match role {
        Role::Source => {
            *finished = *finished || (done(recv) && units == 0) || done(send);
            (answer(*finished), answer(*finished))
        }
        Role::Sink => (answer(done(recv)), recv),
    }
}

/// Takes the ends of a port that is the only one, and has an end for each pipeline.
fn take_ends<E: Drop>(ports: &mut Vec<Ends<E>>) -> Vec<E>
    requires one { (ends : Vec E Global) × (ports.old.items ≡ Ends.Parallel ends ∷ []) }
    ensures ends { ports.old.items ≡ Ends.Parallel result ∷ [] }
{
    match ports.pop() {
        Some(Ends::Parallel(ends)) => ends,
        _ => unreachable!(),
    }
}

impl<L, J, W> ComputeNode<L, J> for MakerNode<W>
where
    L: Tokens + Lanes<Load<<L as Tokens>::Token, J>>,
    J: LoadJob<<L as Tokens>::Token>,
    W: LoadMakers<<L as Tokens>::Token, J>,
{
    ghost use Rattle.std.specs.Prelude.{◌≡◌, ◌∷◌, ◌⊎◌, [], false, map};
    ghost use Rattle.morsel_meaning.specs.declared.fault.Fault.TheVariants.{OutOfMemory};
    ghost use Rattle.morsel_ports.specs.declared.node.PortKind.TheVariants.{Parallel};
    ghost use Rattle.morsel_ports.specs.Nodes.{end_of_out, lanes_of_task};
    ghost use Rattle.morsel_nodes.specs.MakerNodes.{MayFail, MovesPorts, UnitFails, seen_stretches};

    type Unit = MakerUnit<L, J, W>;

    ghost seen = { λ node. record { name = W.named node.makers; blocks = false; pipelines = node.pipelines; recv_kinds = Parallel ∷ []; send_kinds = Parallel ∷ []; units = node.units } };

    ghost is_unit = { λ node unit. Unit {0} };

    ghost unit_seen = { λ unit. lanes_of_task ⟦<NodeUnit<L, J, <W as LoadMakers<<L as Tokens>::Token, J>>::Maker> as Stepwise<L::Board>>⟧.seen unit.task };

    ghost unit_fails = { λ unit fault. UnitFails ⟦<NodeUnit<L, J, <W as LoadMakers<<L as Tokens>::Token, J>>::Maker> as Stepwise<L::Board>>⟧.fails unit.task fault };

    ghost end_of = { λ out. end_of_out out };

    ghost fits = { λ node from to. (first : J) × (second : J) × (from ≡ first ∷ []) × (to ≡ second ∷ []) × W.joins node.makers first second };

    // What it sends ends the stretches of what it takes, in their order.
    ghost makes = { λ node taken sent. map seen_stretches taken ≡ map seen_stretches sent };

    ghost fails = { λ node jobs fault. (fault ≡ OutOfMemory) ⊎ ((job : J) × (jobs ≡ job ∷ []) × W.Maker.may_fail job fault) };

    ghost moves = { λ node recv send now recv_now send_now. MovesPorts (W.role_of node.makers) node.finished node.units recv send now.finished recv_now send_now };

    ghost asks_apart = { λ node. false };

    ghost took = { λ node lists. Unit {0} };

    ghost stays = { λ begun node. node.makers ≡ begun.makers };

    fn name(&self) -> &str {
        self.makers.name()
    }

    fn is_memory_intensive_pipeline_blocker(&self) -> bool {
        false
    }

    fn initialize(&mut self, pipelines: u32) {
        self.pipelines = Some(pipelines);
    }

    fn update_state(
        &mut self,
        recv: &mut [PortState],
        send: &mut [PortState],
    ) -> Result<(), Fault> {
        let role = self.makers.role();
        let (recv_now, send_now) = move_states(
            role,
            &mut self.finished,
            self.units,
            recv[0],
            send[0],
        );
        recv[0] = recv_now;
        send[0] = send_now;
        Ok(())
    }

    fn recv_kind(&self, _port: u32) -> PortKind {
        PortKind::Parallel
    }

    fn send_kind(&self, _port: u32) -> PortKind {
        PortKind::Parallel
    }

    fn take_tasks(
        &mut self,
        alloc: Global,
        _board: &mut L::Board,
        recv: &mut Vec<Ends<L::Receiver>>,
        send: &mut Vec<Ends<L::Sender>>,
    ) -> Result<Vec<MakerUnit<L, J, W>>, Fault> {
        let froms = take_ends(recv);
        let tos = take_ends(send);
        let units = units_of::<L, J, W>(alloc, &self.makers, froms, tos)?;
        // There are as many units as ends, and as many ends as pipelines.
        self.units = self.pipelines.unwrap_or(0);
        Ok(units)
    }

    fn give_back(
        &mut self,
        alloc: Global,
        out: PipeOut<ReceiptsOf<L, J>>,
    ) -> Result<ReceiptsOf<L, J>, Fault> {
        self.units -= 1;
        match out {
            PipeOut::Whole(receipts) => Ok(receipts),
            PipeOut::Cut => Ok(Receipts {
                taken: Vec::new(alloc),
                sent: Vec::new(alloc),
            }),
            PipeOut::OutOfMemory => Err(Fault::OutOfMemory),
            PipeOut::Failed(fault) => Err(fault),
        }
    }
}
