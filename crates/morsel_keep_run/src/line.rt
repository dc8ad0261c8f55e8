//! A line that keeps what it is fed, made and run.
ghost use Rattle.std.specs.Prelude.{◌≡◌, true, IfOk, IfSome, IsOk, IsSome, IsOkUnless, OnOk};
ghost use Rattle.morsel_meaning.specs.declared.fault.Fault.TheVariants.{OutOfMemory};
ghost use Rattle.morsel_load.specs.declared.load.LoadKind.TheVariants.{Pieces};
ghost use Rattle.morsel_read.specs.ScanReads.{pieces_at_start, SuitsPieces};
ghost use Rattle.morsel_scan_units.specs.LaneJobs.{IsUnitFault};
ghost use Rattle.morsel_join_lines.specs.TasksOf.{AreTasksOf};
ghost use Rattle.morsel_join_tasks.specs.FedLanes.{IsFedBy};
ghost use Rattle.morsel_join_tasks.specs.Beside.{answer_beside};
ghost use Rattle.morsel_keep_run.specs.KeepRuns.{KeepsOrNot, KeepsScan, SweepsKept};

use morsel_drain::drain;
use morsel_lane_line::{KeepLine, abandon_keep, take_keep_stage};
use morsel_line::ScanSource;
use morsel_load::{Load, LoadJob};
use morsel_local::Steps;
use morsel_meaning::Fault;
use morsel_outside::{Gate, Io};
use morsel_prims::{Board, LaneSender, Lanes, Task, Tokens};
use morsel_read::ScanReader;
use morsel_scan_units::{AtHome, LaneJob};
use morsel_stage::Stage;
use morsel_stage_tasks::{StageTasks, StartedTasks, start_tasks};
use std::alloc::Global;
use std::sync::ledger::Ledger;

/// Reads a scan's files, and feeds their pieces into a line that keeps what becomes of them; answers how many bytes were given. A row
/// finds at most so many, or none where it is kept itself.
///
/// The line is lent, since the outside is too.
fn run_keep<L, K, H, S, G, Y>(
    io: &mut H,
    reader: ScanReader,
    line: &mut KeepLine<L, K, H, S>,
    gate: &G,
    per_row: u64,
    steps: &mut Steps<Y>,
) -> Result<u64, Fault>
where
    L: Tokens + Lanes<Load<<L as Tokens>::Token, LaneJob<K, H>>>,
    <L as Tokens>::Token: AtHome,
    K: AtHome,
    H: Io,
    S: Stage<<L as Tokens>::Board> + Drop,
    G: Gate,
    Y: Ledger,
    requires suits { SuitsPieces (H.seen io.old) reader }
    requires start { reader ≡ pieces_at_start reader.sources }
    requires lane { IsFedBy reader (H.seen io.old) line.old.lane }
    requires joined { line.old.left ≡ 0 }
    ensures sweeps { SweepsKept line.old.lane.scan reader per_row (H.seen io.old) steps.old steps.new }
    ensures whole { OnOk result (line.new.whole ≡ true) }
    ensures joined { OnOk result (line.new.left ≡ 0) }
    ensures stays { (begun : S) → S.stays begun line.old.stage → S.stays begun line.new.stage }
    ensures keeps { KeepsScan line.old.lane.scan reader (H.seen io.old) result (H.seen io.new) }
{
    let mut source = ScanSource::new(reader);
    drain(io, &mut source, line, gate, per_row, steps)
}

/// What a line that keeps is made of: a board, the tasks of all its stages, and the caller's end.
#[derive(Drop)]
pub struct KeepParts<L, J, S>
where
    L: Tokens + Lanes<Load<<L as Tokens>::Token, J>>,
    J: LoadJob<<L as Tokens>::Token>,
    S: Stage<<L as Tokens>::Board>,
{
    /// The board.
    pub board: L::Board,
    /// The tasks, and whose they are.
    pub tasks: StageTasks<L::Board, S>,
    /// Through which the caller feeds.
    pub feed: L::Sender,
}

/// The line of these tasks, whose first lane is for this job. What it is made of is lent, and taken.
fn make_keep<L, K, H, S>(
    alloc: Global,
    lane: &LaneJob<K, H>,
    parts: &mut Option<KeepParts<L, LaneJob<K, H>, S>>,
) -> Result<KeepLine<L, K, H, S>, Fault>
where
    L: Tokens + Lanes<Load<<L as Tokens>::Token, LaneJob<K, H>>>,
    <L as Tokens>::Token: AtHome,
    K: AtHome,
    H: Io,
    S: Stage<<L as Tokens>::Board> + Drop,
    requires some { IsSome parts.old }
    requires feed { IfSome parts.old (λ parts. (L.Sender.home parts.feed ≡ (L.Board.id parts.board).lane_table) × (L.Sender.job parts.feed ≡ lane.now)) }
    requires kind { lane.now.kind ≡ Pieces }
    requires tasks { IfSome parts.old (λ parts. AreTasksOf S.owes S.fails (S.Task.can_poll (L.Board.id parts.board)) (IsUnitFault lane.now) parts.tasks.stage parts.tasks.tasks.items) }
    ensures lane { IfOk result (λ line. line.lane ≡ lane.now) }
    ensures none_left { IfOk result (λ line. line.left ≡ 0) }
    ensures stage { IfSome parts.old (λ parts. IfOk result (λ line. line.stage ≡ parts.tasks.stage)) }
    ensures out_of_memory { IsOkUnless result OutOfMemory }
{
    let Some(KeepParts { board, tasks, feed }) = parts.take() else {
        unreachable!()
    };
    let StartedTasks {
        local,
        spawned,
        stage,
    } = start_tasks(alloc, board, tasks)?;
    Ok(KeepLine::new(alloc, local, spawned, stage, feed, lane))
}

/// Whose the tasks of a line were that was made, beside what its run answers. What is left of the line after a fault is abandoned. The
/// line is lent, and taken.
fn stage_beside<L, K, H, S>(
    line: &mut Result<KeepLine<L, K, H, S>, Fault>,
    answer: Result<u64, Fault>,
) -> Result<(S, u64), Fault>
where
    L: Tokens + Lanes<Load<<L as Tokens>::Token, LaneJob<K, H>>>,
    <L as Tokens>::Token: AtHome,
    K: AtHome,
    H: Io,
    S: Stage<<L as Tokens>::Board> + Drop,
    requires made { IsOk line.old }
    ensures same { answer_beside result ≡ answer }
    ensures stage { IfOk line.old (λ line. IfOk result (λ end. end.0 ≡ line.stage)) }
{
    match answer {
        Ok(given) => {
            let Ok(stage) = take_keep_stage(line) else {
                unreachable!()
            };
            Ok((stage, given))
        }
        Err(fault) => {
            abandon_keep(line);
            Err(fault)
        }
    }
}

/// Makes a line that keeps, and runs it; answers how many bytes were given, and whose the tasks were.
///
/// What the line is made of is lent, since the outside is too, and taken.
#[tactic(auto, using(crate::proofs::KeepLemmas::kept_unswept))]
pub fn keep_parts<L, K, H, S, G, Y>(
    alloc: Global,
    io: &mut H,
    reader: ScanReader,
    lane: &LaneJob<K, H>,
    parts: &mut Option<KeepParts<L, LaneJob<K, H>, S>>,
    gate: &G,
    per_row: u64,
    steps: &mut Steps<Y>,
) -> Result<(S, u64), Fault>
where
    L: Tokens + Lanes<Load<<L as Tokens>::Token, LaneJob<K, H>>>,
    <L as Tokens>::Token: AtHome,
    K: AtHome,
    H: Io,
    S: Stage<<L as Tokens>::Board> + Drop,
    G: Gate,
    Y: Ledger,
    requires suits { SuitsPieces (H.seen io.old) reader }
    requires start { reader ≡ pieces_at_start reader.sources }
    requires lane { IsFedBy reader (H.seen io.old) lane.now }
    requires some { IsSome parts.old }
    requires feed { IfSome parts.old (λ parts. (L.Sender.home parts.feed ≡ (L.Board.id parts.board).lane_table) × (L.Sender.job parts.feed ≡ lane.now)) }
    requires tasks { IfSome parts.old (λ parts. AreTasksOf S.owes S.fails (S.Task.can_poll (L.Board.id parts.board)) (IsUnitFault lane.now) parts.tasks.stage parts.tasks.tasks.items) }
    ensures sweeps { SweepsKept lane.now.scan reader per_row (H.seen io.old) steps.old steps.new }
    ensures stays { (begun : S) → IfSome parts.old (λ parts. S.stays begun parts.tasks.stage) → IfOk result (λ end. S.stays begun end.0) }
    ensures keeps { KeepsOrNot lane.now.scan reader (H.seen io.old) (answer_beside result) (H.seen io.new) }
{
    let Ok(mut made_line) = make_keep::<L, K, H, S>(alloc, lane, parts) else {
        return Err(Fault::OutOfMemory);
    };
    let answer = run_keep(io, reader, &mut made_line, gate, per_row, steps);
    let mut line = Ok(made_line);
    stage_beside(&mut line, answer)
}
