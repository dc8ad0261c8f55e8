//! What the ports of a node are told, what they answer, and what is seen of the node then.
ghost use Rattle.std.specs.Prelude.{◌≡◌, false, IsSome, List, length};
ghost use Rattle.morsel_ports.specs.declared.node.PortState.{PortState};
ghost use Rattle.morsel_ports.specs.Nodes.{IsSameNode};

use morsel_group_node::GroupByNode;
use morsel_load::{Load, LoadJob};
use morsel_ports::{ComputeNode, PortKind, PortState};
use morsel_prims::{Lanes, Tokens};
use morsel_rows_job::RowsJob;
use std::process::Abort;

/// The states of the ports of a group-by: of the rows that it takes, and of those that it gives.
pub type Ports = [PortState; 2];

/// What the ports answer, and what is seen of the node then: how many ends they have.
#[derive(Clone, Copy, Debug, PartialEq, Eq)]
pub struct Answer {
    pub ports: Ports,
    pub kinds: [PortKind; 2],
}

/// A move: what the ports are told, and what they answer.
pub type Step = (Ports, Answer);

/// It takes rows.
pub const SINK: Answer = Answer {
    ports: [PortState::Ready, PortState::Blocked],
    kinds: [PortKind::Parallel, PortKind::Absent],
};

/// It gives one row for each key.
pub const SOURCE: Answer = Answer {
    ports: [PortState::Done, PortState::Ready],
    kinds: [PortKind::Absent, PortKind::Serial],
};

/// It is done.
pub const DONE: Answer = Answer {
    ports: [PortState::Done, PortState::Done],
    kinds: [PortKind::Absent, PortKind::Absent],
};

/// How many ends the ports of a node of one receiving port and one sending port have.
pub fn kinds_of<L, J, N>(node: &N) -> [PortKind; 2]
where
    L: Tokens + Lanes<Load<<L as Tokens>::Token, J>>,
    J: LoadJob<<L as Tokens>::Token>,
    N: ComputeNode<L, J>,
    requires initialized { IsSome (N.seen node.now).pipelines }
    requires recv { length (N.seen node.now).recv_kinds ≡ 1 }
    requires send { length (N.seen node.now).send_kinds ≡ 1 }
{
    [node.recv_kind(0), node.send_kind(0)]
}

/// What the ports of such a node answer where they are told so.
pub fn answer_of<L, J, N>(rt: &impl Abort, node: &mut N, told: Ports) -> Answer
where
    L: Tokens + Lanes<Load<<L as Tokens>::Token, J>>,
    J: LoadJob<<L as Tokens>::Token>,
    N: ComputeNode<L, J>,
    requires initialized { IsSome (N.seen node.old).pipelines }
    requires recv { length (N.seen node.old).recv_kinds ≡ 1 }
    requires send { length (N.seen node.old).send_kinds ≡ 1 }
    requires apart { N.asks_apart node.old ≡ false }
    ensures moved { (recv send recv_now send_now : List PortState) × N.moves node.old recv send node.new recv_now send_now }
    ensures same { IsSameNode (N.seen node.old) (N.seen node.new) }
{
    let mut recv = [told[0]];
    let mut send = [told[1]];
    node.update_state(&mut recv, &mut send).expect(rt, "memory");
    Answer {
        ports: [recv[0], send[0]],
        kinds: kinds_of::<L, J, N>(node),
    }
}

/// It makes these moves, one after the other.
pub fn moves<L, J, N>(rt: &impl Abort, node: &mut N, steps: &[Step])
where
    L: Tokens + Lanes<Load<<L as Tokens>::Token, J>>,
    J: LoadJob<<L as Tokens>::Token>,
    N: ComputeNode<L, J>,
    requires initialized { IsSome (N.seen node.old).pipelines }
    requires recv { length (N.seen node.old).recv_kinds ≡ 1 }
    requires send { length (N.seen node.old).send_kinds ≡ 1 }
    requires apart { (any : N) → N.asks_apart any ≡ false }
    ensures initialized { IsSome (N.seen node.new).pipelines }
{
    'steps: for step in steps {
        assert_eq!(rt;
            answer_of::<L, J, N>(rt, node, step.0),
            step.1,
            "{:?}",
            step.0
        );
    }
}

/// The node of a group-by over these lanes.
pub type GroupOver<L, J> = GroupByNode<<L as Tokens>::Token, J>;

/// A group-by makes these moves, one after the other.
// By the bounds of lanes alone: where they are known, the proof would name the units of the node too.
pub fn moves_on<L, J>(rt: &impl Abort, group: &mut GroupOver<L, J>, steps: &[Step])
where
    L: Tokens + Lanes<Load<<L as Tokens>::Token, J>>,
    J: RowsJob<<L as Tokens>::Token>,
    requires initialized { IsSome group.old.pipelines }
    ensures initialized { IsSome group.new.pipelines }
{
    moves::<L, J, GroupOver<L, J>>(rt, group, steps);
}

/// How many ends its ports have.
pub fn group_kinds<L, J>(group: &GroupOver<L, J>) -> [PortKind; 2]
where
    L: Tokens + Lanes<Load<<L as Tokens>::Token, J>>,
    J: RowsJob<<L as Tokens>::Token>,
    requires initialized { IsSome group.now.pipelines }
{
    kinds_of::<L, J, GroupOver<L, J>>(group)
}
