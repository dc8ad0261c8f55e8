//! A line of lanes and tasks whose last node keeps what it takes.
ghost use Rattle.std.specs.Prelude.{◌≡◌, Ok, Err, IfOk, IsOk};
ghost use Rattle.morsel_meaning.specs.declared.fault.Fault.{Fault};
ghost use Rattle.morsel_load.specs.declared.load.LoadKind.TheVariants.{Pieces};
ghost use Rattle.morsel_stage.specs.Joined.{outputs_left};
ghost use Rattle.morsel_stage.specs.Unjoined.{unjoined};
ghost use Rattle.morsel_scan_units.specs.LaneJobs.{IsUnitFault};

use crate::lane_line::{Feed, made};
use morsel_drive::{Line, Taken};
use morsel_line::ScanJob;
use morsel_load::Load;
use morsel_local::{Local, Steps};
use morsel_meaning::Fault;
use morsel_outside::{Gate, Io};
use morsel_pipe::RawPiece;
use morsel_prims::{Board, LaneSender, Lanes, SendError, Tokens};
use morsel_scan_units::{AtHome, LaneJob};
use morsel_stage::{Stage, join_ended};
use std::alloc::Global;
use std::marker::Model;
use std::snapshot::Snapshot;
use std::sync::ledger::Ledger;

/// Tasks on one thread, with the caller's end for pieces. Nothing comes out of it.
#[derive(Drop)]
pub struct KeepLine<L, K, H, S>
where
    L: Tokens + Lanes<Load<<L as Tokens>::Token, LaneJob<K, H>>>,
    <L as Tokens>::Token: AtHome,
    K: AtHome,
    H: Io,
    S: Stage<<L as Tokens>::Board> + Drop,
{
    alloc: Global,
    local: Local<S::Task, L::Board>,
    // How many tasks there are, and how many of them have ended.
    spawned: u32,
    ended: u32,
    // Whose they are.
    stage: S,
    feed: Feed<L::Sender>,
    // What the lane of the pieces is for.
    lane: Snapshot<LaneJob<K, H>>,
}

impl<L, K, H, S> Model for KeepLine<L, K, H, S>
where
    L: Tokens + Lanes<Load<<L as Tokens>::Token, LaneJob<K, H>>>,
    <L as Tokens>::Token: AtHome,
    K: AtHome,
    H: Io,
    S: Stage<<L as Tokens>::Board> + Drop,
{
    ghost use Rattle.std.specs.Prelude.{nat_eq};
    ghost use Rattle.morsel_stage.specs.Joined.{outputs_left};
    ghost use Rattle.morsel_stage.specs.Unjoined.{unjoined};
    ghost use Rattle.morsel_lane_line.specs.LaneLines.{LineSeen};
    ghost use Rattle.morsel_lane_line.specs.KeepLines.{IsKeepLine};

    ghost Value = { LineSeen S };

    ghost use Rattle.morsel_expr.specs.contracts.node.PredNode as tree;
    ghost use Rattle.std.specs.Coded.{codes};

    ghost coded = { Prim.hlevel (codes, tree.the_row.coded) };

    ghost view = { λ line. record { lane = line.lane.value; whole = nat_eq line.ended line.spawned; left = outputs_left line.spawned line.local.tasks; stage = line.stage } };

    ghost invariant = { λ line. IsKeepLine L.Sender.home L.Sender.job line.spawned line.local.capacity line.local.home (L.Board.id line.local.cx.board) line.feed line.lane.value (S.owes line.stage (unjoined line.local.tasks)) (S.fails line.stage) };
}

impl<L, K, H, S> KeepLine<L, K, H, S>
where
    L: Tokens + Lanes<Load<<L as Tokens>::Token, LaneJob<K, H>>>,
    <L as Tokens>::Token: AtHome,
    K: AtHome,
    H: Io,
    S: Stage<<L as Tokens>::Board> + Drop,
{
    /// The line of these tasks of a stage, of which so many were spawned. The caller feeds pieces of the lane's job through `feed`.
    pub fn new(
        alloc: Global,
        local: Local<S::Task, L::Board>,
        spawned: u32,
        stage: S,
        feed: L::Sender,
        lane: &LaneJob<K, H>,
    ) -> KeepLine<L, K, H, S>
        requires all { local.capacity ≡ spawned }
        requires board { L.Board.id local.cx.board ≡ local.home }
        requires home { L.Sender.home feed ≡ local.home.lane_table }
        requires lane { L.Sender.job feed ≡ lane.now }
        requires kind { lane.now.kind ≡ Pieces }
        requires none_ended { outputs_left spawned local.tasks ≡ 0 }
        requires owed { S.owes stage (unjoined local.tasks) }
        requires fails { (fault : Fault) → S.fails stage fault → IsUnitFault lane.now fault }
        ensures lane { result.lane ≡ lane.now }
        ensures joined { result.left ≡ 0 }
        ensures stage { result.stage ≡ stage }
    {
        KeepLine {
            alloc,
            local,
            spawned,
            ended: 0,
            stage,
            feed: Feed::Open(feed),
            lane: Snapshot::of(lane),
        }
    }

    /// Whose the tasks were.
    pub fn into_stage(self) -> S
        ensures { result ≡ self.stage }
    {
        let KeepLine { stage, .. } = self;
        stage
    }

    /// Ends what has not ended: the caller's end is cut, and all tasks are abandoned.
    pub fn abandon(self) {
        let KeepLine {
            mut local,
            feed,
            ..
        } = self;
        if let Feed::Open(to) = feed {
            to.cut(local.cx());
        }
        local.abandon();
    }
}

/// Whose the tasks were of a line that was made. The line is lent, and taken.
pub fn take_keep_stage<L, K, H, S>(
    line: &mut Result<KeepLine<L, K, H, S>, Fault>,
) -> Result<S, Fault>
where
    L: Tokens + Lanes<Load<<L as Tokens>::Token, LaneJob<K, H>>>,
    <L as Tokens>::Token: AtHome,
    K: AtHome,
    H: Io,
    S: Stage<<L as Tokens>::Board> + Drop,
    ensures ok { IsOk line.old → IsOk result }
    ensures stage { IfOk line.old (λ line. result ≡ Ok line.stage) }
    ensures taken { line.new ≡ Err Fault.OutOfMemory }
{
    match made(line) {
        Ok(KeepLine { stage, .. }) => Ok(stage),
        Err(fault) => Err(fault),
    }
}

/// Ends what has not ended of a line that was made: the caller's end is cut, and all tasks are abandoned. The line is lent, and
/// taken.
pub fn abandon_keep<L, K, H, S>(line: &mut Result<KeepLine<L, K, H, S>, Fault>)
where
    L: Tokens + Lanes<Load<<L as Tokens>::Token, LaneJob<K, H>>>,
    <L as Tokens>::Token: AtHome,
    K: AtHome,
    H: Io,
    S: Stage<<L as Tokens>::Board> + Drop,
    ensures taken { line.new ≡ Err Fault.OutOfMemory }
{
    if let Ok(
        KeepLine {
            mut local,
            feed,
            ..
        },
    ) = made(line)
    {
        if let Feed::Open(to) = feed {
            to.cut(local.cx());
        }
        local.abandon();
    }
}

impl<L, K, H, S> Line for KeepLine<L, K, H, S>
where
    L: Tokens + Lanes<Load<<L as Tokens>::Token, LaneJob<K, H>>>,
    <L as Tokens>::Token: AtHome,
    K: AtHome,
    H: Io,
    S: Stage<<L as Tokens>::Board> + Drop,
{
    ghost use Rattle.std.specs.Prelude.{◌≡◌, true};
    ghost use Rattle.morsel_line.specs.ScanJobs.{IsPieceKind};
    ghost use Rattle.morsel_scan_units.specs.LaneJobs.{TellsJob};

    type Job = ScanJob;

    ghost serves = { λ line. TellsJob line.lane };

    ghost told = { λ line. TellsJob line.lane };

    ghost broke = { λ line fault. IsPieceKind fault };

    ghost is_whole = { λ line. line.whole ≡ true };

    ghost is_joined = { λ line. line.left ≡ 0 };

    ghost stays = { λ begun line. S.stays begun.stage line.stage };

    fn feed(&mut self, piece: RawPiece) -> Result<(), RawPiece> {
        let Feed::Open(to) = &mut self.feed else {
            return Err(piece);
        };
        match to.try_send(self.local.cx(), Load::Piece(piece)) {
            Ok(()) => Ok(()),
            Err(SendError::Full(load) | SendError::Closed(load)) => match load {
                Load::Piece(piece) => Err(piece),
                _ => unreachable!(),
            },
        }
    }

    fn close(&mut self) {
        match std::mem::replace(&mut self.feed, Feed::Closed) {
            Feed::Open(to) => {
                let _all_fed = to.finish(self.local.cx());
            }
            Feed::Closed => {}
        }
    }

    fn step<G: Gate, Y: Ledger>(&mut self, gate: &G, steps: &mut Steps<Y>) -> Result<(), Fault> {
        let ended = self.local.sweep(gate, steps);
        self.ended = self.ended.saturating_add(ended);
        join_ended::<L::Board, S>(self.alloc, &mut self.local, self.spawned, &mut self.stage)
    }

    fn take(&mut self) -> Taken {
        if self.ended == self.spawned {
            return Taken::Whole;
        }
        Taken::Empty
    }
}
