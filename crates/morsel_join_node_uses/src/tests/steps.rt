//! What the ports of a node are told, what they answer, and what is seen of the node then.
ghost use Rattle.std.specs.Prelude.{◌≡◌, false, IsSome, List, length};
ghost use Rattle.morsel_ports.specs.declared.node.PortState.{PortState};
ghost use Rattle.morsel_ports.specs.Nodes.{IsSameNode};

use morsel_join_node::EquiJoinNode;
use morsel_load::{Load, LoadJob};
use morsel_ports::{ComputeNode, PortKind, PortState};
use morsel_prims::{Lanes, Tokens};
use morsel_rows_job::RowsJob;
use std::process::Abort;

/// The states of the ports of a join: of the rows that are kept, of those that are looked up, and of what it gives.
pub type Ports = [PortState; 3];

/// What is seen of a node: whether it keeps what it takes in memory before it gives anything, and how many ends its ports have.
#[derive(Clone, Copy, Debug, PartialEq, Eq)]
pub struct Seen {
    pub blocks: bool,
    pub kinds: [PortKind; 3],
}

/// A move: what the ports are told, what they answer, and what is seen of the node then.
pub type Step = (Ports, Ports, Seen);

/// What is seen of a join that keeps rows.
pub const BUILD: Seen = Seen {
    blocks: true,
    kinds: [PortKind::Parallel, PortKind::Absent, PortKind::Absent],
};

/// Of one that looks rows up.
pub const PROBE: Seen = Seen {
    blocks: false,
    kinds: [PortKind::Absent, PortKind::Parallel, PortKind::Parallel],
};

/// Of one that gives the kept rows that none found.
pub const EMIT: Seen = Seen {
    blocks: false,
    kinds: [PortKind::Absent, PortKind::Absent, PortKind::Serial],
};

/// Of one that is done.
pub const DONE: Seen = Seen {
    blocks: false,
    kinds: [PortKind::Absent, PortKind::Absent, PortKind::Absent],
};

/// What is seen of a node of two receiving ports and one sending port.
pub fn seen_of<L, J, N>(node: &N) -> Seen
where
    L: Tokens + Lanes<Load<<L as Tokens>::Token, J>>,
    J: LoadJob<<L as Tokens>::Token>,
    N: ComputeNode<L, J>,
    requires initialized { IsSome (N.seen node.now).pipelines }
    requires recv { length (N.seen node.now).recv_kinds ≡ 2 }
    requires send { length (N.seen node.now).send_kinds ≡ 1 }
{
    Seen {
        blocks: node.is_memory_intensive_pipeline_blocker(),
        kinds: [node.recv_kind(0), node.recv_kind(1), node.send_kind(0)],
    }
}

/// What the ports of such a node answer where they are told so.
pub fn answers<L, J, N>(rt: &impl Abort, node: &mut N, told: Ports) -> Ports
where
    L: Tokens + Lanes<Load<<L as Tokens>::Token, J>>,
    J: LoadJob<<L as Tokens>::Token>,
    N: ComputeNode<L, J>,
    requires initialized { IsSome (N.seen node.old).pipelines }
    requires recv { length (N.seen node.old).recv_kinds ≡ 2 }
    requires send { length (N.seen node.old).send_kinds ≡ 1 }
    requires apart { N.asks_apart node.old ≡ false }
    ensures moved { (recv send recv_now send_now : List PortState) × N.moves node.old recv send node.new recv_now send_now }
    ensures same { IsSameNode (N.seen node.old) (N.seen node.new) }
{
    let mut recv = [told[0], told[1]];
    let mut send = [told[2]];
    node.update_state(&mut recv, &mut send).expect(rt, "memory");
    [recv[0], recv[1], send[0]]
}

/// It makes these moves, one after the other.
pub fn moves<L, J, N>(rt: &impl Abort, node: &mut N, steps: &[Step])
where
    L: Tokens + Lanes<Load<<L as Tokens>::Token, J>>,
    J: LoadJob<<L as Tokens>::Token>,
    N: ComputeNode<L, J>,
    requires initialized { IsSome (N.seen node.old).pipelines }
    requires recv { length (N.seen node.old).recv_kinds ≡ 2 }
    requires send { length (N.seen node.old).send_kinds ≡ 1 }
    requires apart { (any : N) → N.asks_apart any ≡ false }
    ensures initialized { IsSome (N.seen node.new).pipelines }
{
    'steps: for step in steps {
        assert_eq!(rt; answers::<L, J, N>(rt, node, step.0), step.1);
        assert_eq!(rt; seen_of::<L, J, N>(node), step.2);
    }
}

/// The node of a join over these lanes.
pub type JoinOver<L, J> = EquiJoinNode<<L as Tokens>::Token, J>;

/// A join makes these moves, one after the other.
// By the bounds of lanes alone: where they are known, the proof would name the units of the node too.
pub fn moves_on<L, J>(rt: &impl Abort, join: &mut JoinOver<L, J>, steps: &[Step])
where
    L: Tokens + Lanes<Load<<L as Tokens>::Token, J>>,
    J: RowsJob<<L as Tokens>::Token>,
    requires initialized { IsSome join.old.pipelines }
    ensures initialized { IsSome join.new.pipelines }
{
    moves::<L, J, JoinOver<L, J>>(rt, join, steps);
}

/// What its ports answer where they are told so.
pub fn join_answers<L, J>(rt: &impl Abort, join: &mut JoinOver<L, J>, told: Ports) -> Ports
where
    L: Tokens + Lanes<Load<<L as Tokens>::Token, J>>,
    J: RowsJob<<L as Tokens>::Token>,
    requires initialized { IsSome join.old.pipelines }
{
    answers::<L, J, JoinOver<L, J>>(rt, join, told)
}
