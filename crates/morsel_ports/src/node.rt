//! What a query knows of its nodes: their ports, and the units that do their work.
//!
//! A query runs by phases. Before each one it lets the nodes move the states of their ports on (`update_state`), asks which
//! ends each port is to have (`recv_kind`, `send_kind`), makes the pipes, and takes the units of each node (`take_tasks`).
//! Once a unit has ended, its node takes back what it ended with (`give_back`).
ghost use Rattle.std.specs.Prelude.{◌≡◌};

use morsel_lane_pipe::ReceiptsOf;
use morsel_load::{Load, LoadJob};
use morsel_meaning::Fault;
use morsel_prims::{Lanes, Task, Tokens};
use std::alloc::Global;

/// How far a port of a node is.
#[derive(Clone, Copy, Debug, PartialEq, Eq)]
pub enum PortState {
    /// It takes or gives loads.
    Ready,
    /// It waits for another port.
    Blocked,
    /// No more loads go through it.
    Done,
}

/// How many ends a port of a node has.
#[derive(Clone, Copy, Debug, PartialEq, Eq)]
pub enum PortKind {
    /// None in this phase.
    Absent,
    /// One.
    Serial,
    /// As many as there are pipelines.
    Parallel,
}

/// The ends that a port of a node gets.
#[derive(Debug, Drop)]
pub enum Ends<E> {
    /// None.
    Absent,
    /// One.
    Serial(E),
    /// One for each pipeline.
    Parallel(Vec<E>),
}

/// A node of a query, whose units work over any lanes.
pub trait ComputeNode<
    L: Tokens + Lanes<Load<<L as Tokens>::Token, J>>,
    J: LoadJob<<L as Tokens>::Token>,
> {
    ghost use Rattle.std.specs.Prelude.{◌≡◌, ◌≤◌, ◌<◌, ◌+◌, ◌++◌, ◌∷◌, [], ℕ, Bool, true, None, Some, List, All, IsSome, IfOk, OnOk, IfErr, IsOkUnless, length, map, slice_get};
    ghost use Rattle.std.specs.List.{flat_map};
    ghost use Rattle.morsel_meaning.specs.declared.fault.Fault.{Fault};
    ghost use Rattle.morsel_meaning.specs.declared.fault.Fault.TheVariants.{OutOfMemory};
    ghost use Rattle.morsel_prims.specs.Waiting.{SameWaiting};
    ghost use Rattle.morsel_merge.specs.Ends.{IsNewReceiver, IsNewSender};
    ghost use Rattle.morsel_load.specs.Loads.{LoadSeen, load_seen, load_seq};
    ghost use Rattle.morsel_lane_pipe.specs.Tasks.{HoldsTokensOf};
    ghost use Rattle.morsel_ports.specs.declared.node.PortState.{PortState};
    ghost use Rattle.morsel_ports.specs.Nodes.{AreApart, AreEndsOfKinds, AreEndsFor, AreUnitReceipts, AreUnitsBetween, IfEndedBy, IfEndedWhole, IsGivenBack, IsSameNode, NodeSeen, UnitEnd, UnitSeen, unit_between};

    /// Does the work of the node between its ends.
    type Unit: Task<L::Board> + Drop;

    /// Its name, its pipelines, the kinds of its ports, and how many units are out.
    ghost seen: { Self → NodeSeen };

    /// It is a unit of this node.
    ghost is_unit: { Self → Self.Unit → Type 0 };

    /// The lanes of a unit.
    ghost unit_seen: { Self.Unit → UnitSeen };

    /// The unit may end by this fault.
    ghost unit_fails: { Self.Unit → Fault → Type 0 };

    /// How a unit ended, by its output.
    ghost end_of: { Self.Unit.Out → UnitEnd L.Receiver.Receipt L.Sender.Receipt };

    /// Lanes with these jobs, one for each receiving port and one for each sending port, may be its own: what its units make
    /// of loads that suit the former, and of what the node holds, suits the latter.
    ghost fits: { Self → List J → List J → Type 0 };

    /// What a unit that ended whole has sent through each of its ends, for what it took from each.
    ghost makes: { Self → List (List LoadSeen) → List (List LoadSeen) → Type 0 };

    /// It, or a unit of it whose receiving ports have lanes for these jobs, may end by this fault.
    ghost fails: { Self → List J → Fault → Type 0 };

    /// The table by which the states of its ports move: the node, and what its receiving and its sending ports are told, and
    /// the node then, and what they answer.
    ghost moves: { Self → List PortState → List PortState → Self → List PortState → List PortState → Type 0 };

    /// Whether its states move only where no number stands in what two of its units took.
    ghost asks_apart: { Self → Bool };

    /// Its units that were given back took loads of these numbers, a list for each of them.
    ghost took: { Self → List (List ℕ) → Type 0 };

    /// What it keeps of what it was, while its units work: as it was, and as it is.
    ghost stays: { Self → Self → Type 0 };

    /// What it is called.
    fn name(&self) -> &str
        ensures { result.now ≡ (seen self.now).name };

    /// Whether it keeps what it takes in memory before it gives anything.
    fn is_memory_intensive_pipeline_blocker(&self) -> bool
        ensures { result ≡ (seen self.now).blocks };

    /// Makes it ready for so many pipelines. This comes once, and first.
    fn initialize(&mut self, pipelines: u32)
        requires once { (seen self.old).pipelines ≡ None }
        requires pipelines { (1 ≤ pipelines) × (pipelines ≤ 32768) }
        ensures ready { seen self.new ≡ record (seen self.old) { pipelines = Some pipelines } }
        ensures fits { (from to : List J) → fits self.old from to → fits self.new from to }
        ensures took { took self.new [] }
        ensures stays { (begun : Self) → stays begun self.old → stays begun self.new };

    /// Moves the states of its ports on: of those where it takes loads, and of those where it gives them.
    fn update_state(&mut self, recv: &mut [PortState], send: &mut [PortState]) -> Result<(), Fault>
        requires initialized { IsSome (seen self.old).pipelines }
        requires recv { length recv.old ≡ length (seen self.old).recv_kinds }
        requires send { length send.old ≡ length (seen self.old).send_kinds }
        requires apart { asks_apart self.old ≡ true → (lists : List (List ℕ)) × took self.old lists × AreApart lists }
        ensures moved { OnOk result (moves self.old recv.old send.old self.new recv.new send.new) }
        ensures fault { IfErr result (fails self.old []) }
        ensures same { IsSameNode (seen self.old) (seen self.new) }
        ensures took { (lists : List (List ℕ)) → took self.old lists → took self.new lists };

    /// How many ends a receiving port has in this phase.
    fn recv_kind(&self, port: u32) -> PortKind
        requires initialized { IsSome (seen self.now).pipelines }
        requires port { port < length (seen self.now).recv_kinds }
        ensures { slice_get (seen self.now).recv_kinds port ≡ Some result };

    /// How many ends a sending port has in this phase.
    fn send_kind(&self, port: u32) -> PortKind
        requires initialized { IsSome (seen self.now).pipelines }
        requires port { port < length (seen self.now).send_kinds }
        ensures { slice_get (seen self.now).send_kinds port ≡ Some result };

    /// The units of this phase, between these ends, which it takes out of the lists: of a parallel port each unit gets one, in
    /// order, and an end that is alone is the first unit's.
    fn take_tasks(
        &mut self,
        alloc: Global,
        board: &mut L::Board,
        recv: &mut Vec<Ends<L::Receiver>>,
        send: &mut Vec<Ends<L::Sender>>,
    ) -> Result<Vec<Self::Unit>, Fault>
        requires initialized { IsSome (seen self.old).pipelines }
        requires units { (seen self.old).units ≡ 0 }
        requires recv { AreEndsOfKinds (seen self.old).recv_kinds (seen self.old).pipelines recv.old.items }
        requires send { AreEndsOfKinds (seen self.old).send_kinds (seen self.old).pipelines send.old.items }
        requires jobs { (from to : List J) × fits self.old from to
            × AreEndsFor (λ job end. IsNewReceiver L.Receiver.home L.Receiver.job L.Receiver.taken L.Receiver.is_whole L.Receiver.is_cut (L.Board.id board.old).lane_table job end) recv.old.items from
            × AreEndsFor (λ job end. (room : ℕ) × IsNewSender L.Sender.home L.Sender.job L.Sender.room L.Sender.sent (L.Board.id board.old).lane_table job room end) send.old.items to
            × All (λ job. HoldsTokensOf J.holds L.token_home job (L.Board.id board.old).group_table) from }
        ensures can_poll { IfOk result (λ units. All (Self.Unit.can_poll (L.Board.id board.old)) units.items) }
        ensures are_units { IfOk result (λ units. All (is_unit self.new) units.items) }
        ensures between { IfOk result (λ units. AreUnitsBetween unit_seen (unit_between L.Receiver.lane L.Sender.lane (L.Board.id board.old).lane_table recv.old.items send.old.items) recv.old.items send.old.items units.items) }
        ensures out { IfOk result (λ units. seen self.new ≡ record (seen self.old) { units = length units.items }) }
        ensures work { (taken sent : List (List LoadSeen)) → makes self.new taken sent → makes self.old taken sent }
        ensures faults { IfOk result (λ units. (from to : List J) → fits self.old from to → AreEndsFor (λ job end. L.Receiver.job end ≡ job) recv.old.items from → All (λ unit. (fault : Fault) → unit_fails unit fault → fails self.old from fault) units.items) }
        ensures took { (lists : List (List ℕ)) → took self.old lists → took self.new lists }
        ensures stays { (begun : Self) → stays begun self.old → stays begun self.new }
        ensures out_of_memory { IsOkUnless result OutOfMemory }
        ensures same_waiting { SameWaiting (L.Board.waits_at board.old) (L.Board.waits_at board.new) }
        ensures same_board { L.Board.id board.new ≡ L.Board.id board.old };

    /// Takes back what a unit ended with: the receipts of its ends, in order of ports, two empty lists where it met an end
    /// that was closed or cut, or its fault.
    fn give_back(
        &mut self,
        alloc: Global,
        out: <Self::Unit as Task<L::Board>>::Out,
    ) -> Result<ReceiptsOf<L, J>, Fault>
        requires units { 0 < (seen self.old).units }
        requires unit { (unit : Self.Unit) × is_unit self.old unit × Self.Unit.gives unit out }
        ensures end { IsGivenBack (end_of out) result }
        ensures receipts { (unit : Self.Unit) → is_unit self.old unit → Self.Unit.gives unit out → IfEndedWhole (end_of out) (AreUnitReceipts L.Receiver.receipt_home L.Receiver.receipt_lane L.Sender.receipt_home L.Sender.receipt_lane (unit_seen unit)) }
        ensures made { (unit : Self.Unit) → is_unit self.old unit → Self.Unit.gives unit out → IfEndedWhole (end_of out) (λ taken sent. makes self.old (map (λ receipt. map load_seen (L.Receiver.all_taken receipt)) taken) (map (λ receipt. map load_seen (L.Sender.all_sent receipt)) sent)) }
        ensures fault { (unit : Self.Unit) → is_unit self.old unit → Self.Unit.gives unit out → IfEndedBy (end_of out) (unit_fails unit) }
        ensures out { record (seen self.new) { units = (seen self.new).units + 1 } ≡ seen self.old }
        ensures others { (unit : Self.Unit) → is_unit self.old unit → is_unit self.new unit }
        ensures work { (taken sent : List (List LoadSeen)) → makes self.new taken sent → makes self.old taken sent }
        ensures took { (lists : List (List ℕ)) → took self.old lists → IfEndedWhole (end_of out) (λ taken sent. took self.new (lists ++ flat_map (λ receipt. map load_seq (L.Receiver.all_taken receipt)) taken ∷ [])) }
        ensures stays { (begun : Self) → stays begun self.old → stays begun self.new };
}
