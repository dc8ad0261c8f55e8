//! What the lanes of the phases of a group-by are for.
ghost use Rattle.std.specs.Prelude.{◌≡◌, ◌∷◌, [], IfOk, IsOkUnless};
ghost use Rattle.std.specs.Arc.{arc_value};
ghost use Rattle.morsel_meaning.specs.declared.fault.Fault.TheVariants.{OutOfMemory};
ghost use Rattle.morsel_load.specs.declared.load.LoadKind.TheVariants.{Parts, Pieces};
ghost use Rattle.morsel_line.specs.RowStages.{GivenRows};
ghost use Rattle.morsel_join_lines.specs.JoinNodes.{AreForOne};
ghost use Rattle.morsel_join_plan.specs.JoinLanes.{rows_lane};

use morsel_frame::{Frame, Schema};
use morsel_join_plan::{AloneLanes, JoinSide, KeptLanes, NodeLanes, side_lane};
use morsel_line::RowStage;
use morsel_load::LoadKind;
use morsel_meaning::Fault;
use morsel_outside::Io;
use morsel_scan_units::{AtHome, LaneJob};
use morsel_sink::NDJsonSinkNode;
use std::alloc::Global;
use std::sync::Arc;

/// What the lanes are for where the rows of a scan are taken into groups.
pub fn taken_lanes<K: AtHome, H: Io>(
    alloc: Global,
    scan: &JoinSide,
    io: &H,
    group: &K,
) -> Result<KeptLanes<LaneJob<K, H>>, Fault>
    ensures rows { IfOk result (λ lanes. lanes.rows ≡ rows_lane scan.now.node scan.now.reader (H.seen io.now) (K.home group.now)) }
    ensures fed { IfOk result (λ lanes. lanes.fed ≡ record lanes.rows { kind = Pieces }) }
    ensures first { IfOk result (λ lanes. AreForOne lanes.fed lanes.rows lanes.first.recv.items lanes.first.send.items) }
    ensures last { IfOk result (λ lanes. AreForOne lanes.rows lanes.rows lanes.last.recv.items lanes.last.send.items) }
    ensures out_of_memory { IsOkUnless result OutOfMemory }
{
    let scanned = RowStage::scanned();
    let (pieces, morsels) = (LoadKind::Pieces, LoadKind::Morsels);
    let first = NodeLanes::through(
        alloc,
        side_lane(pieces, scan, io, group, &scanned),
        side_lane(morsels, scan, io, group, &scanned),
    )?;
    let last = NodeLanes::through(
        alloc,
        side_lane(morsels, scan, io, group, &scanned),
        side_lane(morsels, scan, io, group, &scanned),
    )?;
    Ok(KeptLanes {
        fed: side_lane(pieces, scan, io, group, &scanned),
        rows: side_lane(morsels, scan, io, group, &scanned),
        first,
        last,
    })
}

/// What the lanes are for of the phase that gives rows, before it is known which: the files of the scan were not read yet.
#[derive(Drop)]
pub struct PlaceLanes<J> {
    /// Those of the rows of the scan.
    pub rows: J,
    /// Those of the receiving port of what gives the rows.
    pub taken: J,
    /// Those of the rows.
    pub kept: J,
    /// The same, of the sending port of what gives them.
    pub sent: J,
    /// The same, of the receiving port of the sink.
    pub received: J,
    /// Those of their text.
    pub given: J,
    /// The same, of the sending port of the sink.
    pub text: J,
}

/// What they are for, for a scan whose files this reader is to read from the outside as it is now.
pub fn place_lanes<K: AtHome, H: Io>(
    scan: &JoinSide,
    io: &H,
    group: &K,
) -> PlaceLanes<LaneJob<K, H>>
    ensures rows { result.rows ≡ rows_lane scan.now.node scan.now.reader (H.seen io.now) (K.home group.now) }
    ensures taken { result.taken ≡ result.rows }
    ensures kept { (result.kept ≡ result.rows) × (result.sent ≡ result.rows) × (result.received ≡ result.rows) }
    ensures texts { (result.given ≡ record result.rows { kind = Parts }) × (result.text ≡ record result.rows { kind = Parts }) }
{
    let scanned = RowStage::scanned();
    let (morsels, parts) = (LoadKind::Morsels, LoadKind::Parts);
    PlaceLanes {
        rows: side_lane(morsels, scan, io, group, &scanned),
        taken: side_lane(morsels, scan, io, group, &scanned),
        kept: side_lane(morsels, scan, io, group, &scanned),
        sent: side_lane(morsels, scan, io, group, &scanned),
        received: side_lane(morsels, scan, io, group, &scanned),
        given: side_lane(parts, scan, io, group, &scanned),
        text: side_lane(parts, scan, io, group, &scanned),
    }
}

impl<K: AtHome, H: Io> PlaceLanes<LaneJob<K, H>> {
    /// The same, where it is known which rows are given: those of this frame.
    pub fn of_rows(self, alloc: Global, frame: &Frame) -> Result<AloneLanes<LaneJob<K, H>>, Fault>
        requires taken { self.taken ≡ self.rows }
        requires kept { (self.kept ≡ self.rows) × (self.sent ≡ self.rows) × (self.received ≡ self.rows) }
        requires texts { (self.given ≡ record self.rows { kind = Parts }) × (self.text ≡ record self.rows { kind = Parts }) }
        ensures rows { IfOk result (λ lanes. lanes.rows ≡ self.rows) }
        ensures kept { IfOk result (λ lanes. lanes.kept ≡ record lanes.rows { stage = GivenRows frame.now.schema frame.now.rows }) }
        ensures texts { IfOk result (λ lanes. lanes.given ≡ record lanes.rows { kind = Parts; stage = GivenRows frame.now.schema frame.now.rows }) }
        ensures first { IfOk result (λ lanes. AreForOne lanes.rows lanes.kept lanes.first.recv.items lanes.first.send.items) }
        ensures last { IfOk result (λ lanes. AreForOne lanes.kept lanes.given lanes.last.recv.items lanes.last.send.items) }
        ensures out_of_memory { IsOkUnless result OutOfMemory }
    {
        let PlaceLanes {
            rows,
            taken,
            kept,
            sent,
            received,
            given,
            text,
        } = self;
        let stage = RowStage::given(frame);
        let first = NodeLanes::through(alloc, taken, sent.with_stage(&stage))?;
        let last = NodeLanes::through(alloc, received.with_stage(&stage), text.with_stage(&stage))?;
        Ok(AloneLanes {
            rows,
            kept: kept.with_stage(&stage),
            given: given.with_stage(&stage),
            first,
            last,
        })
    }
}

/// The sink of rows of these columns.
pub fn grouped_sink(alloc: Global, columns: Schema) -> Result<Arc<NDJsonSinkNode, Global>, Fault>
    ensures columns { IfOk result (λ sink. arc_value sink ≡ columns) }
    ensures out_of_memory { IsOkUnless result OutOfMemory }
{
    let sink = Arc::new(alloc, NDJsonSinkNode::new(columns)?)?;
    Ok(sink)
}
