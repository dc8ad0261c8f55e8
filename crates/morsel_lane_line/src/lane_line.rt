//! A line of lanes and tasks, from the pieces of a scan to the text of its rows.
ghost use Rattle.std.specs.Prelude.{◌≡◌, Ok, Err, IfOk, IsOk};
ghost use Rattle.morsel_meaning.specs.declared.fault.Fault.{Fault};
ghost use Rattle.morsel_load.specs.Loads.{load_kind, load_seen};
ghost use Rattle.morsel_load.specs.declared.load.LoadKind.TheVariants.{Pieces, Parts};
ghost use Rattle.morsel_line.specs.RowStages.{ScannedRows};
ghost use Rattle.morsel_stage.specs.Joined.{outputs_left};
ghost use Rattle.morsel_stage.specs.Unjoined.{unjoined};
ghost use Rattle.morsel_scan_units.specs.LaneJobs.{IsUnitFault};
ghost use Rattle.morsel_lane_line.specs.LaneLines.{IsPartSeen};

use morsel_drive::{Line, Taken};
use morsel_line::ScanJob;
use morsel_load::Load;
use morsel_local::{Local, Steps};
use morsel_meaning::Fault;
use morsel_outside::{Gate, Io};
use morsel_pipe::{Encoded, RawPiece};
use morsel_prims::{Board, LaneReceiver, LaneSender, Lanes, RecvError, SendError, Tokens};
use morsel_scan_units::{AtHome, LaneJob};
use morsel_stage::{Stage, join_ended};
use std::alloc::Global;
use std::marker::Model;
use std::sync::ledger::Ledger;

/// The caller's sending end.
#[derive(Drop)]
pub enum Feed<S> {
    /// More pieces may follow.
    Open(S),
    /// No more follow.
    Closed,
}

/// Tasks on one thread, with the caller's two ends: one for pieces, and one for parts of the text.
#[derive(Drop)]
pub struct LaneLine<L, K, H, S>
where
    L: Tokens + Lanes<Load<<L as Tokens>::Token, LaneJob<K, H>>>,
    <L as Tokens>::Token: AtHome,
    K: AtHome,
    H: Io,
    S: Stage<<L as Tokens>::Board> + Drop,
{
    alloc: Global,
    local: Local<S::Task, L::Board>,
    // How many tasks there may be.
    spawned: u32,
    // Whose they are.
    stage: S,
    feed: Feed<L::Sender>,
    parts: L::Receiver,
}

impl<L, K, H, S> Model for LaneLine<L, K, H, S>
where
    L: Tokens + Lanes<Load<<L as Tokens>::Token, LaneJob<K, H>>>,
    <L as Tokens>::Token: AtHome,
    K: AtHome,
    H: Io,
    S: Stage<<L as Tokens>::Board> + Drop,
{
    ghost use Rattle.morsel_stage.specs.Joined.{outputs_left};
    ghost use Rattle.morsel_stage.specs.Unjoined.{unjoined};
    ghost use Rattle.morsel_lane_line.specs.LaneLines.{IsLine, LineSeen};

    ghost Value = { LineSeen S };

    ghost use Rattle.morsel_expr.specs.contracts.node.PredNode as tree;
    ghost use Rattle.std.specs.Coded.{codes};

    ghost coded = { Prim.hlevel (codes, tree.the_row.coded) };

    ghost view = { λ line. record { lane = L.Receiver.job line.parts; whole = L.Receiver.is_whole line.parts; left = outputs_left line.spawned line.local.tasks; stage = line.stage } };

    ghost invariant = { λ line. IsLine L.Sender.home L.Sender.job line.spawned line.local.capacity line.local.home (L.Board.id line.local.cx.board) (L.Receiver.home line.parts) line.feed (L.Receiver.job line.parts) (S.owes line.stage (unjoined line.local.tasks)) (S.fails line.stage) };
}

impl<L, K, H, S> LaneLine<L, K, H, S>
where
    L: Tokens + Lanes<Load<<L as Tokens>::Token, LaneJob<K, H>>>,
    <L as Tokens>::Token: AtHome,
    K: AtHome,
    H: Io,
    S: Stage<<L as Tokens>::Board> + Drop,
{
    /// The line of these tasks of a stage, of which so many were spawned. The caller feeds pieces through `feed`, and takes parts
    /// from `parts`.
    pub fn new(
        alloc: Global,
        local: Local<S::Task, L::Board>,
        spawned: u32,
        stage: S,
        feed: L::Sender,
        parts: L::Receiver,
    ) -> LaneLine<L, K, H, S>
        requires all { local.capacity ≡ spawned }
        requires board { L.Board.id local.cx.board ≡ local.home }
        requires homes { (L.Sender.home feed ≡ local.home.lane_table) × (L.Receiver.home parts ≡ local.home.lane_table) }
        requires kind { (L.Receiver.job parts).kind ≡ Parts }
        requires first { L.Sender.job feed ≡ record (L.Receiver.job parts) { kind = Pieces; stage = ScannedRows } }
        requires none_ended { outputs_left spawned local.tasks ≡ 0 }
        requires owed { S.owes stage (unjoined local.tasks) }
        requires fails { (fault : Fault) → S.fails stage fault → IsUnitFault (L.Receiver.job parts) fault }
        ensures { result ≡ record { lane = L.Receiver.job parts; whole = L.Receiver.is_whole parts; left = 0; stage = stage } }
    {
        LaneLine {
            alloc,
            local,
            spawned,
            stage,
            feed: Feed::Open(feed),
            parts,
        }
    }

    /// The line of these tasks of a stage, of which so many were spawned, into which nothing is fed. The caller takes parts from
    /// `parts`.
    pub fn unfed(
        alloc: Global,
        local: Local<S::Task, L::Board>,
        spawned: u32,
        stage: S,
        parts: L::Receiver,
    ) -> LaneLine<L, K, H, S>
        requires all { local.capacity ≡ spawned }
        requires board { L.Board.id local.cx.board ≡ local.home }
        requires home { L.Receiver.home parts ≡ local.home.lane_table }
        requires kind { (L.Receiver.job parts).kind ≡ Parts }
        requires none_ended { outputs_left spawned local.tasks ≡ 0 }
        requires owed { S.owes stage (unjoined local.tasks) }
        requires fails { (fault : Fault) → S.fails stage fault → IsUnitFault (L.Receiver.job parts) fault }
        ensures { result ≡ record { lane = L.Receiver.job parts; whole = L.Receiver.is_whole parts; left = 0; stage = stage } }
    {
        LaneLine {
            alloc,
            local,
            spawned,
            stage,
            feed: Feed::Closed,
            parts,
        }
    }

    /// Whose the tasks were.
    pub fn into_stage(self) -> S
        ensures { result ≡ self.stage }
    {
        let LaneLine { stage, .. } = self;
        stage
    }
}

/// What was made, or why it was not; want of memory is left in its place.
pub fn made<T: Drop>(slot: &mut Result<T, Fault>) -> Result<T, Fault>
    ensures taken { result ≡ slot.old }
    ensures left { slot.new ≡ Err Fault.OutOfMemory }
{
    std::mem::replace(slot, Err(Fault::OutOfMemory))
}

/// Ends what has not ended of a line that was made: the caller's ends are cut, and all tasks are abandoned. The line is lent, and
/// taken.
pub fn abandon_line<L, K, H, S>(line: &mut Result<LaneLine<L, K, H, S>, Fault>)
where
    L: Tokens + Lanes<Load<<L as Tokens>::Token, LaneJob<K, H>>>,
    <L as Tokens>::Token: AtHome,
    K: AtHome,
    H: Io,
    S: Stage<<L as Tokens>::Board> + Drop,
    ensures taken { line.new ≡ Err Fault.OutOfMemory }
{
    if let Ok(
        LaneLine {
            mut local,
            feed,
            parts,
            ..
        },
    ) = made(line)
    {
        if let Feed::Open(to) = feed {
            to.cut(local.cx());
        }
        parts.cut(local.cx());
        local.abandon();
    }
}

/// Whose the tasks were of a line that was made. The line is lent, and taken.
pub fn take_lane_stage<L, K, H, S>(
    line: &mut Result<LaneLine<L, K, H, S>, Fault>,
) -> Result<S, Fault>
where
    L: Tokens + Lanes<Load<<L as Tokens>::Token, LaneJob<K, H>>>,
    <L as Tokens>::Token: AtHome,
    K: AtHome,
    H: Io,
    S: Stage<<L as Tokens>::Board> + Drop,
    ensures ok { IsOk line.old → IsOk result }
    ensures stage { IfOk line.old (λ line. result ≡ Ok line.stage) }
    ensures taken { line.new ≡ Err Fault.OutOfMemory }
{
    match made(line) {
        Ok(LaneLine { stage, .. }) => Ok(stage),
        Err(fault) => Err(fault),
    }
}

/// The part that a load is.
fn part_of<X: Drop, J>(load: Load<X, J>) -> Encoded
    requires part { load_kind load ≡ Parts }
    ensures part { IsPartSeen result (load_seen load) }
{
    match load {
        Load::Part(_, part) => part,
        _ => unreachable!(),
    }
}

impl<L, K, H, S> Line for LaneLine<L, K, H, S>
where
    L: Tokens + Lanes<Load<<L as Tokens>::Token, LaneJob<K, H>>>,
    <L as Tokens>::Token: AtHome,
    K: AtHome,
    H: Io,
    S: Stage<<L as Tokens>::Board> + Drop,
{
    ghost use Rattle.std.specs.Prelude.{◌≡◌, true};
    ghost use Rattle.morsel_line.specs.ScanJobs.{IsPieceKind};
    ghost use Rattle.morsel_scan_units.specs.LaneJobs.{TellsJob};

    type Job = ScanJob;

    ghost serves = { λ line. TellsJob line.lane };

    ghost told = { λ line. TellsJob line.lane };

    ghost broke = { λ line fault. IsPieceKind fault };

    ghost is_whole = { λ line. line.whole ≡ true };

    ghost is_joined = { λ line. line.left ≡ 0 };

    ghost stays = { λ begun line. S.stays begun.stage line.stage };

    fn feed(&mut self, piece: RawPiece) -> Result<(), RawPiece> {
        let Feed::Open(to) = &mut self.feed else {
            return Err(piece);
        };
        match to.try_send(self.local.cx(), Load::Piece(piece)) {
            Ok(()) => Ok(()),
            Err(SendError::Full(load) | SendError::Closed(load)) => match load {
                Load::Piece(piece) => Err(piece),
                _ => unreachable!(),
            },
        }
    }

    fn close(&mut self) {
        match std::mem::replace(&mut self.feed, Feed::Closed) {
            Feed::Open(to) => {
                let _all_fed = to.finish(self.local.cx());
            }
            Feed::Closed => {}
        }
    }

    fn step<G: Gate, Y: Ledger>(&mut self, gate: &G, steps: &mut Steps<Y>) -> Result<(), Fault> {
        self.local.sweep(gate, steps);
        join_ended::<L::Board, S>(self.alloc, &mut self.local, self.spawned, &mut self.stage)
    }

    fn take(&mut self) -> Taken {
        match self.parts.try_recv(self.local.cx()) {
            Ok(load) => Taken::Part(part_of(load)),
            Err(RecvError::Whole) => Taken::Whole,
            // Who has cut the lane ends with that, and the next sweep tells of it.
            Err(RecvError::Empty | RecvError::Cut) => Taken::Empty,
        }
    }
}
