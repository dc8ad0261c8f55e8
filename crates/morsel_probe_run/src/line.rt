//! A line that looks up rows, made and run.
ghost use Rattle.std.specs.Prelude.{◌≡◌, true, IfOk, IfSome, IsOk, IsSome, OnOk, ◌<◌};
ghost use Rattle.morsel_load.specs.declared.load.LoadKind.TheVariants.{Pieces, Parts};
ghost use Rattle.morsel_join.specs.Sides.{KeptSide};
ghost use Rattle.morsel_read.specs.ScanReads.{pieces_at_start, SuitsPieces};
ghost use Rattle.morsel_line.specs.RowStages.{FoundRows, ScannedRows};
ghost use Rattle.morsel_scan_units.specs.LaneJobs.{IsUnitFault};
ghost use Rattle.morsel_join_lines.specs.TasksOf.{AreTasksOf};
ghost use Rattle.morsel_probe_run.specs.ProbeRuns.{AreAllUpTo, SweepsFound, WritesFound, WritesFoundOrNot, rows_written};

use crate::probe_end::ProbeEnd;
use morsel_drive::{PieceSource, Progress, drive};
use morsel_join_tasks::{LaneParts, start_line_of};
use morsel_lane_line::{LaneLine, abandon_line, take_lane_stage};
use morsel_line::{ScanJob, ScanSource};
use morsel_load::{Load, LoadJob};
use morsel_local::Steps;
use morsel_meaning::Fault;
use morsel_outside::{Gate, Io};
use morsel_prims::{Board, LaneReceiver, LaneSender, Lanes, Task, Tokens};
use morsel_read::ScanReader;
use morsel_scan_units::{AtHome, LaneJob};
use morsel_sink::SinkWriter;
use morsel_stage::Stage;
use std::alloc::Global;
use std::sync::ledger::Ledger;

/// Reads a scan's files, and writes what comes out of its line into the last sink; answers how many rows were written.
///
/// The line and its reader are lent, since the outside is too.
fn run_probe<L, K, H, S, G, Y>(
    io: &mut H,
    source: &mut ScanSource,
    writer: SinkWriter,
    line: &mut LaneLine<L, K, H, S>,
    bound: u64,
    gate: &G,
    steps: &mut Steps<Y>,
) -> Result<u64, Fault>
where
    L: Tokens + Lanes<Load<<L as Tokens>::Token, LaneJob<K, H>>>,
    <L as Tokens>::Token: AtHome,
    K: AtHome,
    H: Io,
    S: Stage<<L as Tokens>::Board> + Drop,
    G: Gate,
    Y: Ledger,
    requires made { 0 < (H.seen io.old).sinks }
    requires suits { SuitsPieces (H.seen io.old) source.old }
    requires start { source.old ≡ pieces_at_start source.old.sources }
    requires none_written { writer.rows ≡ 0 }
    requires reader { line.old.lane.reader ≡ source.old }
    requires outside { line.old.lane.outside ≡ H.seen io.old }
    requires joined { line.old.left ≡ 0 }
    ensures sweeps { (side : KeptSide) → line.old.lane.stage ≡ FoundRows side → SweepsFound line.old.lane.scan source.old side (H.seen io.old) steps.old steps.new }
    ensures whole { OnOk result (line.new.whole ≡ true) }
    ensures stays { (begun : S) → S.stays begun line.old.stage → S.stays begun line.new.stage }
    ensures all { (side : KeptSide) → line.old.lane.stage ≡ FoundRows side → OnOk result (AreAllUpTo line.old.lane.scan source.old (H.seen io.old) source.new.given) }
    ensures writes { (side : KeptSide) → line.old.lane.stage ≡ FoundRows side → WritesFound line.old.lane.scan source.old side bound (H.seen io.old) result (H.seen io.new) }
{
    drive(io, source, line, writer, bound, Progress::Rows, gate, steps)
}

/// Whose the tasks of a line were that was made, beside what its run answers, and how many bytes it was given. What is left of the
/// line after a fault is abandoned. The line is lent, and taken.
fn stage_beside<L, K, H, S>(
    line: &mut Result<LaneLine<L, K, H, S>, Fault>,
    answer: Result<u64, Fault>,
    given: u64,
) -> Result<ProbeEnd<S>, Fault>
where
    L: Tokens + Lanes<Load<<L as Tokens>::Token, LaneJob<K, H>>>,
    <L as Tokens>::Token: AtHome,
    K: AtHome,
    H: Io,
    S: Stage<<L as Tokens>::Board> + Drop,
    requires made { IsOk line.old }
    ensures same { rows_written result ≡ answer }
    ensures given { IfOk result (λ end. end.given ≡ given) }
    ensures stage { IfOk line.old (λ line. IfOk result (λ end. end.node ≡ line.stage)) }
{
    match answer {
        Ok(rows) => {
            let Ok(stage) = take_lane_stage(line) else {
                unreachable!()
            };
            Ok(ProbeEnd {
                node: stage,
                rows,
                given,
            })
        }
        Err(fault) => {
            abandon_line(line);
            Err(fault)
        }
    }
}

/// Makes a line that looks up rows, and runs it; answers how many rows were written, whose the tasks were, and how many bytes of the
/// files were given.
///
/// What the line is made of is lent, since the outside is too, and taken.
#[tactic(auto, using(crate::proofs::FoundLemmas::found_unswept))]
pub fn probe_parts<L, K, H, S, G, Y>(
    alloc: Global,
    io: &mut H,
    reader: ScanReader,
    writer: SinkWriter,
    lane: &LaneJob<K, H>,
    parts: &mut Option<LaneParts<L, LaneJob<K, H>, S>>,
    bound: u64,
    gate: &G,
    steps: &mut Steps<Y>,
) -> Result<ProbeEnd<S>, Fault>
where
    L: Tokens + Lanes<Load<<L as Tokens>::Token, LaneJob<K, H>>>,
    <L as Tokens>::Token: AtHome,
    K: AtHome,
    H: Io,
    S: Stage<<L as Tokens>::Board> + Drop,
    G: Gate,
    Y: Ledger,
    requires made { 0 < (H.seen io.old).sinks }
    requires suits { SuitsPieces (H.seen io.old) reader }
    requires start { reader ≡ pieces_at_start reader.sources }
    requires none_written { writer.rows ≡ 0 }
    requires reader { lane.now.reader ≡ reader }
    requires outside { lane.now.outside ≡ H.seen io.old }
    requires kind { lane.now.kind ≡ Parts }
    requires some { IsSome parts.old }
    requires feed { IfSome parts.old (λ parts. (L.Sender.home parts.feed ≡ (L.Board.id parts.board).lane_table) × (L.Sender.job parts.feed ≡ record lane.now { kind = Pieces; stage = ScannedRows })) }
    requires take { IfSome parts.old (λ parts. (L.Receiver.home parts.take ≡ (L.Board.id parts.board).lane_table) × (L.Receiver.job parts.take ≡ lane.now)) }
    requires tasks { IfSome parts.old (λ parts. AreTasksOf S.owes S.fails (S.Task.can_poll (L.Board.id parts.board)) (IsUnitFault lane.now) parts.tasks.stage parts.tasks.tasks.items) }
    ensures sweeps { (side : KeptSide) → lane.now.stage ≡ FoundRows side → SweepsFound lane.now.scan reader side (H.seen io.old) steps.old steps.new }
    ensures stays { (begun : S) → IfSome parts.old (λ parts. S.stays begun parts.tasks.stage) → IfOk result (λ end. S.stays begun end.node) }
    ensures all { (side : KeptSide) → lane.now.stage ≡ FoundRows side → IfOk result (λ end. AreAllUpTo lane.now.scan reader (H.seen io.old) end.given) }
    ensures writes { (side : KeptSide) → lane.now.stage ≡ FoundRows side → WritesFoundOrNot lane.now.scan reader side bound (H.seen io.old) (rows_written result) (H.seen io.new) }
{
    let Ok(mut made_line) = start_line_of::<L, K, H, S>(alloc, lane, parts) else {
        return Err(Fault::OutOfMemory);
    };
    let mut source = ScanSource::new(reader);
    let answer = run_probe(io, &mut source, writer, &mut made_line, bound, gate, steps);
    let given = <ScanSource as PieceSource<H, ScanJob>>::given(&source);
    let mut line = Ok(made_line);
    stage_beside(&mut line, answer, given)
}
