//! What the rows of a scan find in a join is kept by another node.
ghost use Rattle.std.specs.Prelude.{◌≡◌, ◌∷◌, [], All, IfOk, IfSome, IsSome, ◌≤◌};
ghost use Rattle.std.specs.Arc.{arc_value};
ghost use Rattle.morsel_meaning.specs.declared.fault.Fault.{Fault};
ghost use Rattle.morsel_meaning.specs.declared.fault.Fault.TheVariants.{OutOfMemory};
ghost use Rattle.morsel_load.specs.declared.load.LoadKind.TheVariants.{Pieces};
ghost use Rattle.morsel_read.specs.ScanReads.{pieces_at_start, SuitsPieces};
ghost use Rattle.morsel_scan_units.specs.LaneJobs.{LaneFor};
ghost use Rattle.morsel_join_lines.specs.JoinNodes.{AreForOne, IsFinding, KeepsFor};
ghost use Rattle.morsel_join_tasks.specs.Beside.{answer_beside};
ghost use Rattle.morsel_keep_run.specs.KeepRuns.{KeepsOrNot, SweepsKept};
ghost use Rattle.morsel_join_plan.specs.JoinLanes.{HoldsTokensAt, rows_lane};

use crate::lanes::FoundLanes;
use morsel_join_lines::{FindKeepJobs, FindKeepNodes, PortJobs};
use morsel_keep_run::{FoundNodes, keep_found_nodes};
use morsel_load::{Load, LoadJob};
use morsel_local::Steps;
use morsel_meaning::Fault;
use morsel_nodes::{CsvSourceMakers, MakerNode};
use morsel_outside::{Gate, Io};
use morsel_plan::ScanRun;
use morsel_ports::ComputeNode;
use morsel_prims::{Board, Lanes, Tokens};
use morsel_read::ScanReader;
use morsel_scan::CsvSourceNode;
use morsel_scan_units::{AtHome, LaneJob};
use rand_core::SeedableRng;
use rand_xoshiro::Xoshiro256PlusPlus;
use std::alloc::Global;
use std::sync::Arc;
use std::sync::ledger::Ledger;

/// Reads the files of a scan, and keeps in the last node what its rows find by the middle one; answers both, and how many bytes were
/// given. A row finds at most `per_row` others.
///
/// The nodes, which were made ready, and the board are lent, and taken.
// Over any nodes, so that no proof names the units of two of them.
pub fn keep_found<L, K, H, M, Z, G, Y>(
    alloc: Global,
    io: &mut H,
    board: &mut Option<L::Board>,
    lanes: &FoundLanes<LaneJob<K, H>>,
    source: Arc<CsvSourceNode, Global>,
    middle: &mut Option<M>,
    last: &mut Option<Z>,
    reader: ScanReader,
    run: ScanRun,
    gate: &G,
    per_row: u64,
    steps: &mut Steps<Y>,
) -> Result<(FoundNodes<M, Z>, u64), Fault>
where
    L: Tokens + Lanes<Load<<L as Tokens>::Token, LaneJob<K, H>>>,
    <L as Tokens>::Token: AtHome + Drop,
    K: AtHome,
    H: Io,
    M: ComputeNode<L, LaneJob<K, H>> + Drop,
    Z: ComputeNode<L, LaneJob<K, H>> + Drop,
    G: Gate,
    Y: Ledger,
    requires suits { SuitsPieces (H.seen io.old) reader }
    requires start { reader ≡ pieces_at_start reader.sources }
    requires pipelines { (1 ≤ run.line.pipelines) × (run.line.pipelines ≤ 32768) }
    requires spread_room { (1 ≤ run.line.rooms.spread) × (run.line.rooms.spread ≤ 65536) }
    requires merge_room { (1 ≤ run.line.rooms.merge) × (run.line.rooms.merge ≤ 65536) }
    requires some_board { IsSome board.old }
    requires tokens { IfSome board.old (λ board. HoldsTokensAt ⟦<LaneJob<K, H> as LoadJob<<L as Tokens>::Token>>⟧.holds L.token_home lanes.now.rows.tokens (L.Board.id board).group_table) }
    requires rows { lanes.now.rows ≡ rows_lane (arc_value source) reader (H.seen io.old) lanes.now.rows.tokens }
    requires fed { lanes.now.fed ≡ record lanes.now.rows { kind = Pieces } }
    requires first { AreForOne lanes.now.fed lanes.now.rows lanes.now.first.recv.items lanes.now.first.send.items }
    requires middle_recv { lanes.now.middle.recv.items ≡ lanes.now.rows ∷ lanes.now.rows ∷ [] }
    requires middle_send { lanes.now.middle.send.items ≡ lanes.now.found ∷ [] }
    requires last_tokens { All (λ (lane : LaneFor). lane.tokens ≡ lanes.now.rows.tokens) lanes.now.last.recv.items }
    requires some_middle { IsSome middle.old }
    requires finds { IfSome middle.old (λ middle. IsFinding run.line.pipelines (M.seen middle)) }
    requires fits { IfSome middle.old (λ middle. M.fits middle lanes.now.middle.recv.items lanes.now.middle.send.items) }
    requires fails { IfSome middle.old (λ middle. (fault : Fault) → M.fails middle lanes.now.middle.recv.items fault → fault ≡ OutOfMemory) }
    requires some_last { IsSome last.old }
    requires keeps { IfSome last.old (λ last. KeepsFor run.line.pipelines lanes.now.found lanes.now.last.recv.items lanes.now.last.send.items (Z.seen last)) }
    requires last_fits { IfSome last.old (λ last. Z.fits last lanes.now.last.recv.items lanes.now.last.send.items) }
    requires last_fails { IfSome last.old (λ last. (fault : Fault) → Z.fails last lanes.now.last.recv.items fault → fault ≡ OutOfMemory) }
    ensures sweeps { SweepsKept (arc_value source) reader per_row (H.seen io.old) steps.old steps.new }
    ensures finding_stays { (begun : M) → IfSome middle.old (λ middle. M.stays begun middle) → IfOk result (λ end. M.stays begun end.0.finds) }
    ensures keeping_stays { (begun : Z) → IfSome last.old (λ last. Z.stays begun last) → IfOk result (λ end. Z.stays begun end.0.keeps) }
    ensures keeps { KeepsOrNot (arc_value source) reader (H.seen io.old) (answer_beside result) (H.seen io.new) }
{
    let Some(middle) = middle.take() else {
        unreachable!()
    };
    let Some(last) = last.take() else {
        unreachable!()
    };
    let mut first = MakerNode::new(CsvSourceMakers::new(source));
    <MakerNode<CsvSourceMakers> as ComputeNode<L, LaneJob<K, H>>>::initialize(
        &mut first,
        run.line.pipelines,
    );
    keep_found_nodes::<L, K, H, MakerNode<CsvSourceMakers>, M, Z, G, Y>(
        alloc,
        io,
        reader,
        board,
        FindKeepJobs {
            fed: &lanes.fed,
            asked: &lanes.rows,
            found: &lanes.found,
            first: PortJobs {
                recv: &lanes.first.recv,
                send: &lanes.first.send,
            },
            middle: PortJobs {
                recv: &lanes.middle.recv,
                send: &lanes.middle.send,
            },
            last: PortJobs {
                recv: &lanes.last.recv,
                send: &lanes.last.send,
            },
        },
        &mut Some(FindKeepNodes {
            first,
            middle,
            last,
        }),
        run.line,
        Xoshiro256PlusPlus::seed_from_u64(run.random_state),
        gate,
        per_row,
        steps,
    )
}
