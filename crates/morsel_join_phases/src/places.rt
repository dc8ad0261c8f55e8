//! Where a join is, and the states of its ports.
ghost use Rattle.std.specs.Prelude.{◌≡◌, if◌then◌else◌};
ghost use Rattle.morsel_ports.specs.declared.node.PortKind.{PortKind};

use morsel_ports::{PortKind, PortState};

/// Where a join is.
#[derive(Clone, Copy, Debug, PartialEq, Eq)]
pub enum JoinAt {
    /// It keeps the rows of one side.
    Build,
    /// The other side's rows are looked up in them.
    Probe,
    /// The kept rows that none found are given.
    Emit,
    /// Nothing is left to do.
    Done,
}

/// The states of the ports of a join.
#[derive(Clone, Copy, Debug)]
pub struct JoinPorts {
    /// Of the receiving port of the rows that are kept.
    pub kept: PortState,
    /// Of that of the rows that are looked up.
    pub asked: PortState,
    /// Of the sending port.
    pub sent: PortState,
}

impl JoinAt {
    ghost use Rattle.std.specs.Prelude.{◌≡◌, ◌<◌, ◌∷◌, [], Some, slice_get};
    ghost use Rattle.morsel_join_phases.specs.JoinTables.{answers_at, is_keeping, recv_kinds_at, send_kinds_at};

    /// Whether the join keeps rows before it gives any.
    pub fn is_keeping(self) -> bool
        ensures { result ≡ is_keeping self }
    {
        matches!(self, JoinAt::Build)
    }

    /// How many ends a receiving port has: 0 is that of the rows that are kept, 1 that of the rows that are looked up.
    pub fn recv_kind(self, port: u32) -> PortKind
        requires port { port < 2 }
        ensures { slice_get (recv_kinds_at self) port ≡ Some result }
    {
        match self {
            JoinAt::Build => parallel_if(port == 0),
            JoinAt::Probe => parallel_if(port == 1),
            JoinAt::Emit | JoinAt::Done => PortKind::Absent,
        }
    }

    /// How many ends the sending port has.
    pub fn send_kind(self) -> PortKind
        ensures { send_kinds_at self ≡ result ∷ [] }
    {
        match self {
            JoinAt::Build | JoinAt::Done => PortKind::Absent,
            JoinAt::Probe => PortKind::Parallel,
            JoinAt::Emit => PortKind::Serial,
        }
    }

    /// What the ports answer where they were told so.
    pub fn answer(self, told: JoinPorts) -> JoinPorts
        ensures { result ≡ answers_at told self }
    {
        match self {
            JoinAt::Build => JoinPorts {
                kept: PortState::Ready,
                asked: PortState::Blocked,
                sent: PortState::Blocked,
            },
            JoinAt::Probe => JoinPorts {
                kept: PortState::Done,
                asked: told.sent,
                sent: told.asked,
            },
            JoinAt::Emit => JoinPorts {
                kept: PortState::Done,
                asked: PortState::Done,
                sent: PortState::Ready,
            },
            JoinAt::Done => JoinPorts {
                kept: PortState::Done,
                asked: PortState::Done,
                sent: PortState::Done,
            },
        }
    }
}

impl JoinPorts {
    ghost use Rattle.std.specs.Prelude.{◌≡◌, ◌∷◌, [], length};

    /// What the receiving ports and the sending port are told.
    pub fn told_by(recv: &[PortState], send: &[PortState]) -> JoinPorts
        requires two { length recv.now ≡ 2 }
        requires one { length send.now ≡ 1 }
        ensures recv { recv.now ≡ result.kept ∷ result.asked ∷ [] }
        ensures send { send.now ≡ result.sent ∷ [] }
    {
        JoinPorts {
            kept: recv[0],
            asked: recv[1],
            sent: send[0],
        }
    }

    /// Tells the ports these states.
    pub fn tell(self, recv: &mut [PortState], send: &mut [PortState])
        requires two { length recv.old ≡ 2 }
        requires one { length send.old ≡ 1 }
        ensures recv { recv.new ≡ self.kept ∷ self.asked ∷ [] }
        ensures send { send.new ≡ self.sent ∷ [] }
    {
        recv[0] = self.kept;
        recv[1] = self.asked;
        send[0] = self.sent;
    }
}

/// As many ends as there are pipelines, or none.
fn parallel_if(there: bool) -> PortKind
    ensures { result ≡ (if there then PortKind.Parallel else PortKind.Absent) }
{
    if there {
        return PortKind::Parallel;
    }
    PortKind::Absent
}
