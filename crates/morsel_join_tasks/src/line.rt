//! A line between the caller's two ends, whose tasks are spawned.
ghost use Rattle.std.specs.Prelude.{◌≡◌, IfOk, IfSome, IsSome, IsOkUnless};
ghost use Rattle.morsel_meaning.specs.declared.fault.Fault.TheVariants.{OutOfMemory};
ghost use Rattle.morsel_load.specs.declared.load.LoadKind.TheVariants.{Pieces, Parts};
ghost use Rattle.morsel_line.specs.RowStages.{ScannedRows};
ghost use Rattle.morsel_scan_units.specs.LaneJobs.{IsUnitFault};
ghost use Rattle.morsel_join_lines.specs.TasksOf.{AreTasksOf};

use morsel_lane_line::LaneLine;
use morsel_load::{Load, LoadJob};
use morsel_meaning::Fault;
use morsel_outside::Io;
use morsel_prims::{Board, LaneReceiver, LaneSender, Lanes, Task, Tokens};
use morsel_scan_units::{AtHome, LaneJob};
use morsel_stage::Stage;
use morsel_stage_tasks::{StageTasks, StartedTasks, start_tasks};
use std::alloc::Global;

/// What a line is made of: a board, the tasks of all its stages, and the caller's two ends.
#[derive(Drop)]
pub struct LaneParts<L, J, S>
where
    L: Tokens + Lanes<Load<<L as Tokens>::Token, J>>,
    J: LoadJob<<L as Tokens>::Token>,
    S: Stage<<L as Tokens>::Board>,
{
    /// The board.
    pub board: L::Board,
    /// The tasks, and whose they are.
    pub tasks: StageTasks<L::Board, S>,
    /// Through which the caller feeds.
    pub feed: L::Sender,
    /// From which the caller takes.
    pub take: L::Receiver,
}

/// The line of these tasks, whose last lane is for this job. What it is made of is lent, and taken.
pub fn start_line_of<L, K, H, S>(
    alloc: Global,
    lane: &LaneJob<K, H>,
    parts: &mut Option<LaneParts<L, LaneJob<K, H>, S>>,
) -> Result<LaneLine<L, K, H, S>, Fault>
where
    L: Tokens + Lanes<Load<<L as Tokens>::Token, LaneJob<K, H>>>,
    <L as Tokens>::Token: AtHome,
    K: AtHome,
    H: Io,
    S: Stage<<L as Tokens>::Board> + Drop,
    requires some { IsSome parts.old }
    requires feed { IfSome parts.old (λ parts. (L.Sender.home parts.feed ≡ (L.Board.id parts.board).lane_table) × (L.Sender.job parts.feed ≡ record lane.now { kind = Pieces; stage = ScannedRows })) }
    requires take { IfSome parts.old (λ parts. (L.Receiver.home parts.take ≡ (L.Board.id parts.board).lane_table) × (L.Receiver.job parts.take ≡ lane.now)) }
    requires kind { lane.now.kind ≡ Parts }
    requires tasks { IfSome parts.old (λ parts. AreTasksOf S.owes S.fails (S.Task.can_poll (L.Board.id parts.board)) (IsUnitFault lane.now) parts.tasks.stage parts.tasks.tasks.items) }
    ensures lane { IfOk result (λ line. line.lane ≡ lane.now) }
    ensures none_left { IfOk result (λ line. line.left ≡ 0) }
    ensures stage { IfSome parts.old (λ parts. IfOk result (λ line. line.stage ≡ parts.tasks.stage)) }
    ensures out_of_memory { IsOkUnless result OutOfMemory }
{
    let Some(
        LaneParts {
            board,
            tasks,
            feed,
            take,
        },
    ) = parts.take()
    else {
        unreachable!()
    };
    let StartedTasks {
        local,
        spawned,
        stage,
    } = start_tasks(alloc, board, tasks)?;
    Ok(LaneLine::new(alloc, local, spawned, stage, feed, take))
}

/// What a line is made of into which nothing is fed: a board, the tasks of all its stages, and the caller's end.
#[derive(Drop)]
pub struct UnfedParts<L, J, S>
where
    L: Tokens + Lanes<Load<<L as Tokens>::Token, J>>,
    J: LoadJob<<L as Tokens>::Token>,
    S: Stage<<L as Tokens>::Board>,
{
    /// The board.
    pub board: L::Board,
    /// The tasks, and whose they are.
    pub tasks: StageTasks<L::Board, S>,
    /// From which the caller takes.
    pub take: L::Receiver,
}

/// The line of these tasks, into which nothing is fed, and whose last lane is for this job. What it is made of is lent, and taken.
pub fn start_unfed<L, K, H, S>(
    alloc: Global,
    lane: &LaneJob<K, H>,
    parts: &mut Option<UnfedParts<L, LaneJob<K, H>, S>>,
) -> Result<LaneLine<L, K, H, S>, Fault>
where
    L: Tokens + Lanes<Load<<L as Tokens>::Token, LaneJob<K, H>>>,
    <L as Tokens>::Token: AtHome,
    K: AtHome,
    H: Io,
    S: Stage<<L as Tokens>::Board> + Drop,
    requires some { IsSome parts.old }
    requires take { IfSome parts.old (λ parts. (L.Receiver.home parts.take ≡ (L.Board.id parts.board).lane_table) × (L.Receiver.job parts.take ≡ lane.now)) }
    requires kind { lane.now.kind ≡ Parts }
    requires tasks { IfSome parts.old (λ parts. AreTasksOf S.owes S.fails (S.Task.can_poll (L.Board.id parts.board)) (IsUnitFault lane.now) parts.tasks.stage parts.tasks.tasks.items) }
    ensures lane { IfOk result (λ line. line.lane ≡ lane.now) }
    ensures none_left { IfOk result (λ line. line.left ≡ 0) }
    ensures out_of_memory { IsOkUnless result OutOfMemory }
{
    let Some(UnfedParts { board, tasks, take }) = parts.take() else {
        unreachable!()
    };
    let StartedTasks {
        local,
        spawned,
        stage,
    } = start_tasks(alloc, board, tasks)?;
    Ok(LaneLine::unfed(alloc, local, spawned, stage, take))
}
