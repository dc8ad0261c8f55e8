//! What the lanes of the phases of a join are for.
ghost use Rattle.std.specs.Prelude.{◌≡◌, ◌∷◌, [], IfOk, IsOkUnless};
ghost use Rattle.std.specs.Arc.{arc_value};
ghost use Rattle.morsel_meaning.specs.declared.fault.Fault.TheVariants.{OutOfMemory};
ghost use Rattle.morsel_load.specs.declared.load.LoadKind.TheVariants.{Parts, Pieces};
ghost use Rattle.morsel_join.specs.BuildSides.{kept_side};
ghost use Rattle.morsel_line.specs.RowStages.{AloneRows, FoundRows};
ghost use Rattle.morsel_join_lines.specs.JoinNodes.{AreForOne};
ghost use Rattle.morsel_join_plan.specs.JoinLanes.{rows_lane};

use crate::join::JoinSide;
use morsel_join::Build;
use morsel_line::RowStage;
use morsel_load::LoadKind;
use morsel_meaning::Fault;
use morsel_outside::Io;
use morsel_scan_units::{AtHome, LaneJob};
use morsel_sink::NDJsonSinkNode;
use std::alloc::Global;
use std::sync::Arc;

/// What the lanes of a node's ports are for, in order of ports.
#[derive(Drop)]
pub struct NodeLanes<J> {
    /// Those of its receiving ports.
    pub recv: Vec<J>,
    /// Those of its sending ports.
    pub send: Vec<J>,
}

impl<J: Drop> NodeLanes<J> {
    /// Those of a node of one receiving and one sending port.
    pub fn through(alloc: Global, from: J, to: J) -> Result<NodeLanes<J>, Fault>
        ensures lanes { IfOk result (λ lanes. AreForOne from to lanes.recv.items lanes.send.items) }
        ensures out_of_memory { IsOkUnless result OutOfMemory }
    {
        let mut recv = Vec::new(alloc);
        recv.push(from)?;
        let mut send = Vec::new(alloc);
        send.push(to)?;
        Ok(NodeLanes { recv, send })
    }

    /// Those of a join: of the rows that it keeps, of those that it looks up, and of what it gives.
    pub fn of_join(alloc: Global, kept: J, asked: J, sent: J) -> Result<NodeLanes<J>, Fault>
        ensures recv { IfOk result (λ lanes. lanes.recv.items ≡ kept ∷ asked ∷ []) }
        ensures send { IfOk result (λ lanes. lanes.send.items ≡ sent ∷ []) }
        ensures out_of_memory { IsOkUnless result OutOfMemory }
    {
        let mut recv = Vec::new(alloc);
        recv.push(kept)?;
        recv.push(asked)?;
        let mut send = Vec::new(alloc);
        send.push(sent)?;
        Ok(NodeLanes { recv, send })
    }
}

/// What a lane of a side is for, with tokens of the group's board: the reader of the side is to read its files from this outside.
pub fn side_lane<K: AtHome, H: Io>(
    kind: LoadKind,
    side: &JoinSide,
    io: &H,
    group: &K,
    stage: &RowStage,
) -> LaneJob<K, H>
    ensures { result ≡ record (rows_lane side.now.node side.now.reader (H.seen io.now) (K.home group.now)) { kind = kind; stage = stage.now } }
{
    LaneJob::new(kind, &side.node, &side.reader, io, group, stage)
}

/// What the lanes of the phase are for that keeps rows.
#[derive(Drop)]
pub struct KeptLanes<J> {
    /// Those of the pieces of the side.
    pub fed: J,
    /// Those of its rows.
    pub rows: J,
    /// Those of the source.
    pub first: NodeLanes<J>,
    /// Those of the join.
    pub last: NodeLanes<J>,
}

/// What the lanes are for where the rows of a side are kept.
pub fn kept_lanes<K: AtHome, H: Io>(
    alloc: Global,
    side: &JoinSide,
    io: &H,
    group: &K,
) -> Result<KeptLanes<LaneJob<K, H>>, Fault>
    ensures rows { IfOk result (λ lanes. lanes.rows ≡ rows_lane side.now.node side.now.reader (H.seen io.now) (K.home group.now)) }
    ensures fed { IfOk result (λ lanes. lanes.fed ≡ record lanes.rows { kind = Pieces }) }
    ensures first { IfOk result (λ lanes. AreForOne lanes.fed lanes.rows lanes.first.recv.items lanes.first.send.items) }
    ensures last_recv { IfOk result (λ lanes. lanes.last.recv.items ≡ lanes.rows ∷ lanes.rows ∷ []) }
    ensures last_send { IfOk result (λ lanes. lanes.last.send.items ≡ lanes.rows ∷ []) }
    ensures out_of_memory { IsOkUnless result OutOfMemory }
{
    let scanned = RowStage::scanned();
    let (pieces, morsels) = (LoadKind::Pieces, LoadKind::Morsels);
    let first = NodeLanes::through(
        alloc,
        side_lane(pieces, side, io, group, &scanned),
        side_lane(morsels, side, io, group, &scanned),
    )?;
    let last = NodeLanes::of_join(
        alloc,
        side_lane(morsels, side, io, group, &scanned),
        side_lane(morsels, side, io, group, &scanned),
        side_lane(morsels, side, io, group, &scanned),
    )?;
    Ok(KeptLanes {
        fed: side_lane(pieces, side, io, group, &scanned),
        rows: side_lane(morsels, side, io, group, &scanned),
        first,
        last,
    })
}

/// What the lanes of the phase are for that looks rows up.
#[derive(Drop)]
pub struct FoundLanes<J> {
    /// Those of the pieces of the side.
    pub fed: J,
    /// Those of its rows.
    pub rows: J,
    /// Those of what the rows find.
    pub found: J,
    /// Those of its text.
    pub given: J,
    /// Those of the source.
    pub first: NodeLanes<J>,
    /// Those of the join.
    pub middle: NodeLanes<J>,
    /// Those of the sink.
    pub last: NodeLanes<J>,
}

/// What the lanes are for where the rows of a side are looked up in these kept rows.
pub fn found_lanes<K: AtHome, H: Io>(
    alloc: Global,
    side: &JoinSide,
    io: &H,
    group: &K,
    build: &Arc<Build, Global>,
) -> Result<FoundLanes<LaneJob<K, H>>, Fault>
    ensures rows { IfOk result (λ lanes. lanes.rows ≡ rows_lane side.now.node side.now.reader (H.seen io.now) (K.home group.now)) }
    ensures fed { IfOk result (λ lanes. lanes.fed ≡ record lanes.rows { kind = Pieces }) }
    ensures found { IfOk result (λ lanes. lanes.found ≡ record lanes.rows { stage = FoundRows (kept_side (arc_value build.now)) }) }
    ensures given { IfOk result (λ lanes. lanes.given ≡ record lanes.rows { kind = Parts; stage = FoundRows (kept_side (arc_value build.now)) }) }
    ensures first { IfOk result (λ lanes. AreForOne lanes.fed lanes.rows lanes.first.recv.items lanes.first.send.items) }
    ensures middle_recv { IfOk result (λ lanes. lanes.middle.recv.items ≡ lanes.rows ∷ lanes.rows ∷ []) }
    ensures middle_send { IfOk result (λ lanes. lanes.middle.send.items ≡ lanes.found ∷ []) }
    ensures last { IfOk result (λ lanes. AreForOne lanes.found lanes.given lanes.last.recv.items lanes.last.send.items) }
    ensures out_of_memory { IsOkUnless result OutOfMemory }
{
    let scanned = RowStage::scanned();
    let found = RowStage::found(build.clone()?);
    let (pieces, morsels, parts) = (LoadKind::Pieces, LoadKind::Morsels, LoadKind::Parts);
    let first = NodeLanes::through(
        alloc,
        side_lane(pieces, side, io, group, &scanned),
        side_lane(morsels, side, io, group, &scanned),
    )?;
    let middle = NodeLanes::of_join(
        alloc,
        side_lane(morsels, side, io, group, &scanned),
        side_lane(morsels, side, io, group, &scanned),
        side_lane(morsels, side, io, group, &found),
    )?;
    let last = NodeLanes::through(
        alloc,
        side_lane(morsels, side, io, group, &found),
        side_lane(parts, side, io, group, &found),
    )?;
    Ok(FoundLanes {
        fed: side_lane(pieces, side, io, group, &scanned),
        rows: side_lane(morsels, side, io, group, &scanned),
        found: side_lane(morsels, side, io, group, &found),
        given: side_lane(parts, side, io, group, &found),
        first,
        middle,
        last,
    })
}

/// What the lanes of the phase are for that gives kept rows which none finds.
#[derive(Drop)]
pub struct AloneLanes<J> {
    /// Those of the rows that do not find them.
    pub rows: J,
    /// Those of the kept rows.
    pub kept: J,
    /// Those of their text.
    pub given: J,
    /// Those of the join.
    pub first: NodeLanes<J>,
    /// Those of the sink.
    pub last: NodeLanes<J>,
}

/// What the lanes are for where those of these kept rows are given that no row of a side finds.
pub fn alone_lanes<K: AtHome, H: Io>(
    alloc: Global,
    side: &JoinSide,
    io: &H,
    group: &K,
    build: &Arc<Build, Global>,
) -> Result<AloneLanes<LaneJob<K, H>>, Fault>
    ensures rows { IfOk result (λ lanes. lanes.rows ≡ rows_lane side.now.node side.now.reader (H.seen io.now) (K.home group.now)) }
    ensures kept { IfOk result (λ lanes. lanes.kept ≡ record lanes.rows { stage = AloneRows (kept_side (arc_value build.now)) }) }
    ensures given { IfOk result (λ lanes. lanes.given ≡ record lanes.rows { kind = Parts; stage = AloneRows (kept_side (arc_value build.now)) }) }
    ensures first_recv { IfOk result (λ lanes. lanes.first.recv.items ≡ lanes.rows ∷ lanes.rows ∷ []) }
    ensures first_send { IfOk result (λ lanes. lanes.first.send.items ≡ lanes.kept ∷ []) }
    ensures last { IfOk result (λ lanes. AreForOne lanes.kept lanes.given lanes.last.recv.items lanes.last.send.items) }
    ensures out_of_memory { IsOkUnless result OutOfMemory }
{
    let scanned = RowStage::scanned();
    let alone = RowStage::alone(build.clone()?);
    let (morsels, parts) = (LoadKind::Morsels, LoadKind::Parts);
    let first = NodeLanes::of_join(
        alloc,
        side_lane(morsels, side, io, group, &scanned),
        side_lane(morsels, side, io, group, &scanned),
        side_lane(morsels, side, io, group, &alone),
    )?;
    let last = NodeLanes::through(
        alloc,
        side_lane(morsels, side, io, group, &alone),
        side_lane(parts, side, io, group, &alone),
    )?;
    Ok(AloneLanes {
        rows: side_lane(morsels, side, io, group, &scanned),
        kept: side_lane(morsels, side, io, group, &alone),
        given: side_lane(parts, side, io, group, &alone),
        first,
        last,
    })
}

/// The sink of the rows of a join.
pub fn joined_sink(
    alloc: Global,
    build: &Arc<Build, Global>,
) -> Result<Arc<NDJsonSinkNode, Global>, Fault>
    ensures columns { IfOk result (λ sink. arc_value sink ≡ (arc_value build.now).rules.output) }
    ensures out_of_memory { IsOkUnless result OutOfMemory }
{
    let columns = build.rules.output.clone()?;
    let sink = Arc::new(alloc, NDJsonSinkNode::new(columns)?)?;
    Ok(sink)
}
