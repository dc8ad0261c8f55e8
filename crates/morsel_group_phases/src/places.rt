//! Where a group-by is, and the states of its ports.
ghost use Rattle.std.specs.Prelude.{◌≡◌};

use morsel_ports::{PortKind, PortState};

/// Where a group-by is.
#[derive(Clone, Copy, Debug, PartialEq, Eq)]
pub enum GroupAt {
    /// It takes rows.
    Sink,
    /// It gives one row for each key.
    Source,
    /// Nothing is left to do.
    Done,
}

/// The states of the ports of a group-by.
#[derive(Clone, Copy, Debug)]
pub struct GroupPorts {
    /// Of the receiving port.
    pub taken: PortState,
    /// Of the sending port.
    pub sent: PortState,
}

impl GroupAt {
    ghost use Rattle.std.specs.Prelude.{◌≡◌, ◌∷◌, []};
    ghost use Rattle.morsel_group_phases.specs.GroupTables.{group_answers, group_recv_kinds, group_send_kinds};

    /// How many ends the receiving port has.
    pub fn recv_kind(self) -> PortKind
        ensures { group_recv_kinds self ≡ result ∷ [] }
    {
        match self {
            GroupAt::Sink => PortKind::Parallel,
            GroupAt::Source | GroupAt::Done => PortKind::Absent,
        }
    }

    /// How many ends the sending port has.
    pub fn send_kind(self) -> PortKind
        ensures { group_send_kinds self ≡ result ∷ [] }
    {
        match self {
            GroupAt::Source => PortKind::Serial,
            GroupAt::Sink | GroupAt::Done => PortKind::Absent,
        }
    }

    /// What the ports answer.
    pub fn answer(self) -> GroupPorts
        ensures { result ≡ group_answers self }
    {
        match self {
            GroupAt::Sink => GroupPorts {
                taken: PortState::Ready,
                sent: PortState::Blocked,
            },
            GroupAt::Source => GroupPorts {
                taken: PortState::Done,
                sent: PortState::Ready,
            },
            GroupAt::Done => GroupPorts {
                taken: PortState::Done,
                sent: PortState::Done,
            },
        }
    }
}

impl GroupPorts {
    ghost use Rattle.std.specs.Prelude.{◌≡◌, ◌∷◌, [], length};

    /// What the receiving port and the sending port are told.
    pub fn told_by(recv: &[PortState], send: &[PortState]) -> GroupPorts
        requires one_recv { length recv.now ≡ 1 }
        requires one_send { length send.now ≡ 1 }
        ensures recv { recv.now ≡ result.taken ∷ [] }
        ensures send { send.now ≡ result.sent ∷ [] }
    {
        GroupPorts {
            taken: recv[0],
            sent: send[0],
        }
    }

    /// Tells the ports these states.
    pub fn tell(self, recv: &mut [PortState], send: &mut [PortState])
        requires one_recv { length recv.old ≡ 1 }
        requires one_send { length send.old ≡ 1 }
        ensures recv { recv.new ≡ self.taken ∷ [] }
        ensures send { send.new ≡ self.sent ∷ [] }
    {
        recv[0] = self.taken;
        send[0] = self.sent;
    }
}
