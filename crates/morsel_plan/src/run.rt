//! The run of a scan through a line.
ghost use Rattle.std.specs.Prelude.{◌≡◌, true, [], ◌∷◌, All, Err, OnOk, IfOk, IfSome, IsSome, IsOkUnless, ◌+◌, ◌*◌, ◌<◌, ◌≤◌};
ghost use Rattle.std.specs.List.{sum_by};
ghost use Rattle.morsel_meaning.specs.declared.fault.Fault.{Fault};
ghost use Rattle.morsel_meaning.specs.declared.fault.Fault.TheVariants.{OutOfMemory};
ghost use Rattle.morsel_load.specs.declared.load.LoadKind.TheVariants.{Parts};
ghost use Rattle.morsel_lane_pipe.specs.Tasks.{HoldsTokensOf};
ghost use Rattle.morsel_phase.specs.Lines.{IsLineNode};
ghost use Rattle.morsel_phase.specs.Stages.{HasNoFault, HasOut};
ghost use Rattle.morsel_read.specs.ScanReads.{pieces_at_start, sizes_in, SuitsPieces};
ghost use Rattle.morsel_line.specs.RowStages.{ScannedRows};
ghost use Rattle.morsel_line.specs.ScanRuns.{WritesScan};
ghost use Rattle.morsel_scan_units.specs.LaneJobs.{IsUnitFault};
ghost use Rattle.morsel_plan.specs.LineRuns.{AreLineEnds, AreLineJobs, WritesOrNot};

use morsel_drive::{Progress, drive};
use morsel_lane_line::{LaneLine, abandon_line, made};
use morsel_lane_pipe::PipeOut;
use morsel_line::ScanSource;
use morsel_load::{Load, LoadJob};
use morsel_local::Steps;
use morsel_meaning::Fault;
use morsel_outside::{Gate, Io};
use morsel_phase::{
    LineJobs, LineNodes, LinePlan, LineStage, MakesPipeTasks, OpenLine, OpenNodes, PipeOrder,
    StartedLine, open_line, start_line,
};
use morsel_ports::ComputeNode;
use morsel_prims::{Board, LaneReceiver, LaneSender, Lanes, Task, Tokens};
use morsel_read::ScanReader;
use morsel_scan_units::{AtHome, LaneJob};
use morsel_sink::SinkWriter;
use morsel_stage::Stage;
use rand_xoshiro::Xoshiro256PlusPlus;
use std::alloc::Global;
use std::sync::ledger::Ledger;

/// Reads a scan's files, and writes what comes out of its line into the last sink; answers how many rows were written.
///
/// The line is lent, since the outside is too.
fn run_line<L, K, H, S, G, Y>(
    io: &mut H,
    reader: ScanReader,
    writer: SinkWriter,
    line: &mut LaneLine<L, K, H, S>,
    bound: u64,
    gate: &G,
    steps: &mut Steps<Y>,
) -> Result<u64, Fault>
where
    L: Tokens + Lanes<Load<<L as Tokens>::Token, LaneJob<K, H>>>,
    <L as Tokens>::Token: AtHome,
    K: AtHome,
    H: Io,
    S: Stage<<L as Tokens>::Board> + Drop,
    G: Gate,
    Y: Ledger,
    requires made { 0 < (H.seen io.old).sinks }
    requires suits { SuitsPieces (H.seen io.old) reader }
    requires start { reader ≡ pieces_at_start reader.sources }
    requires none_written { writer.rows ≡ 0 }
    requires reader { line.old.lane.reader ≡ reader }
    requires outside { line.old.lane.outside ≡ H.seen io.old }
    requires scanned { line.old.lane.stage ≡ ScannedRows }
    requires joined { line.old.left ≡ 0 }
    ensures sweeps { steps.new ≤ steps.old + 1024 * (sum_by (λ n. n) (sizes_in (H.seen io.old).sizes reader.sources.files) + 1) }
    ensures whole { OnOk result (line.new.whole ≡ true) }
    ensures writes { WritesScan line.old.lane.scan reader bound (H.seen io.old) result (H.seen io.new) }
{
    let mut source = ScanSource::new(reader);
    drive(
        io,
        &mut source,
        line,
        writer,
        bound,
        Progress::Bytes,
        gate,
        steps,
    )
}

/// What a line is made of, but for the tasks of its pipes: a board, two nodes with their units out, and the caller's two ends.
#[derive(Drop)]
struct LineParts<L, J, A, Z>
where
    L: Tokens + Lanes<Load<<L as Tokens>::Token, J>>,
    J: LoadJob<<L as Tokens>::Token>,
    A: ComputeNode<L, J>,
    Z: ComputeNode<L, J>,
{
    pub board: L::Board,
    pub nodes: OpenNodes<L, J, A, Z>,
    pub feed: L::Sender,
    pub take: L::Receiver,
}

/// The line of two nodes, if the tasks of its pipes were made. What it is made of is lent, and taken.
fn make_line<L, K, H, A, Z, P, R>(
    alloc: Global,
    lane: &LaneJob<K, H>,
    parts: &mut Option<LineParts<L, LaneJob<K, H>, A, Z>>,
    spreading: &mut Result<Vec<P>, Fault>,
    merging: &mut Result<Vec<P>, Fault>,
) -> Result<LaneLine<L, K, H, LineStage<L, LaneJob<K, H>, A, Z, P>>, Fault>
where
    L: Tokens + Lanes<Load<<L as Tokens>::Token, LaneJob<K, H>>>,
    <L as Tokens>::Token: AtHome,
    K: AtHome,
    H: Io,
    A: ComputeNode<L, LaneJob<K, H>> + Drop,
    Z: ComputeNode<L, LaneJob<K, H>> + Drop,
    P: Task<<L as Tokens>::Board, Out = PipeOut<R>> + Drop,
    R: Drop,
    requires some { IsSome parts.old }
    requires ends { IfSome parts.old (λ parts. AreLineEnds L.Sender.home L.Sender.job L.Receiver.home L.Receiver.job (L.Board.id parts.board).lane_table lane.now parts.feed parts.take) }
    requires firsts { IfSome parts.old (λ parts. All (A.Unit.can_poll (L.Board.id parts.board)) parts.nodes.firsts.items) }
    requires lasts { IfSome parts.old (λ parts. All (Z.Unit.can_poll (L.Board.id parts.board)) parts.nodes.lasts.items) }
    requires first_out { IfSome parts.old (λ parts. HasOut (A.seen parts.nodes.first.node).units (A.is_unit parts.nodes.first.node) A.unit_fails (A.fails parts.nodes.first.begun.value (parts.nodes.first.job.value ∷ [])) parts.nodes.firsts.items) }
    requires last_out { IfSome parts.old (λ parts. HasOut (Z.seen parts.nodes.last.node).units (Z.is_unit parts.nodes.last.node) Z.unit_fails (Z.fails parts.nodes.last.begun.value (parts.nodes.last.job.value ∷ [])) parts.nodes.lasts.items) }
    requires first_fails { IfSome parts.old (λ parts. (fault : Fault) → A.fails parts.nodes.first.begun.value (parts.nodes.first.job.value ∷ []) fault → IsUnitFault lane.now fault) }
    requires last_fails { IfSome parts.old (λ parts. (fault : Fault) → Z.fails parts.nodes.last.begun.value (parts.nodes.last.job.value ∷ []) fault → IsUnitFault lane.now fault) }
    requires spreading { IfSome parts.old (λ parts. IfOk spreading.old (λ tasks. All (P.can_poll (L.Board.id parts.board)) tasks.items)) }
    requires merging { IfSome parts.old (λ parts. IfOk merging.old (λ tasks. All (P.can_poll (L.Board.id parts.board)) tasks.items)) }
    requires spreading_faults { IfOk spreading.old (λ tasks. All (HasNoFault P.gives) tasks.items) }
    requires merging_faults { IfOk merging.old (λ tasks. All (HasNoFault P.gives) tasks.items) }
    ensures spreading_taken { spreading.new ≡ Err Fault.OutOfMemory }
    ensures merging_taken { merging.new ≡ Err Fault.OutOfMemory }
    ensures lane { IfOk result (λ line. line.lane ≡ record lane.now { kind = Parts }) }
    ensures none_left { IfOk result (λ line. line.left ≡ 0) }
    ensures out_of_memory { IsOkUnless result OutOfMemory }
{
    let Some(
        LineParts {
            board,
            nodes,
            feed,
            take,
        },
    ) = parts.take()
    else {
        unreachable!()
    };
    let (Ok(spreading), Ok(merging)) = (made(spreading), made(merging)) else {
        return Err(Fault::OutOfMemory);
    };
    let StartedLine {
        local,
        spawned,
        stage,
    } = start_line::<L, LaneJob<K, H>, A, Z, P, R>(alloc, board, nodes, spreading, merging)?;
    Ok(LaneLine::new(alloc, local, spawned, stage, feed, take))
}

/// Makes a line of two nodes and runs it; answers how many rows were written.
///
/// What the line is made of is lent, since the outside is too. What is left of the line is abandoned.
fn run_parts<L, K, H, A, Z, P, R, G, Y>(
    alloc: Global,
    io: &mut H,
    reader: ScanReader,
    writer: SinkWriter,
    lane: &LaneJob<K, H>,
    parts: &mut Option<LineParts<L, LaneJob<K, H>, A, Z>>,
    spreading: &mut Result<Vec<P>, Fault>,
    merging: &mut Result<Vec<P>, Fault>,
    bound: u64,
    gate: &G,
    steps: &mut Steps<Y>,
) -> Result<u64, Fault>
where
    L: Tokens + Lanes<Load<<L as Tokens>::Token, LaneJob<K, H>>>,
    <L as Tokens>::Token: AtHome,
    K: AtHome,
    H: Io,
    A: ComputeNode<L, LaneJob<K, H>> + Drop,
    Z: ComputeNode<L, LaneJob<K, H>> + Drop,
    P: Task<<L as Tokens>::Board, Out = PipeOut<R>> + Drop,
    R: Drop,
    G: Gate,
    Y: Ledger,
    requires made { 0 < (H.seen io.old).sinks }
    requires suits { SuitsPieces (H.seen io.old) reader }
    requires start { reader ≡ pieces_at_start reader.sources }
    requires none_written { writer.rows ≡ 0 }
    requires reader { lane.now.reader ≡ reader }
    requires outside { lane.now.outside ≡ H.seen io.old }
    requires scanned { lane.now.stage ≡ ScannedRows }
    requires some { IsSome parts.old }
    requires ends { IfSome parts.old (λ parts. AreLineEnds L.Sender.home L.Sender.job L.Receiver.home L.Receiver.job (L.Board.id parts.board).lane_table lane.now parts.feed parts.take) }
    requires firsts { IfSome parts.old (λ parts. All (A.Unit.can_poll (L.Board.id parts.board)) parts.nodes.firsts.items) }
    requires lasts { IfSome parts.old (λ parts. All (Z.Unit.can_poll (L.Board.id parts.board)) parts.nodes.lasts.items) }
    requires first_out { IfSome parts.old (λ parts. HasOut (A.seen parts.nodes.first.node).units (A.is_unit parts.nodes.first.node) A.unit_fails (A.fails parts.nodes.first.begun.value (parts.nodes.first.job.value ∷ [])) parts.nodes.firsts.items) }
    requires last_out { IfSome parts.old (λ parts. HasOut (Z.seen parts.nodes.last.node).units (Z.is_unit parts.nodes.last.node) Z.unit_fails (Z.fails parts.nodes.last.begun.value (parts.nodes.last.job.value ∷ [])) parts.nodes.lasts.items) }
    requires first_fails { IfSome parts.old (λ parts. (fault : Fault) → A.fails parts.nodes.first.begun.value (parts.nodes.first.job.value ∷ []) fault → IsUnitFault lane.now fault) }
    requires last_fails { IfSome parts.old (λ parts. (fault : Fault) → Z.fails parts.nodes.last.begun.value (parts.nodes.last.job.value ∷ []) fault → IsUnitFault lane.now fault) }
    requires spreading { IfSome parts.old (λ parts. IfOk spreading.old (λ tasks. All (P.can_poll (L.Board.id parts.board)) tasks.items)) }
    requires merging { IfSome parts.old (λ parts. IfOk merging.old (λ tasks. All (P.can_poll (L.Board.id parts.board)) tasks.items)) }
    requires spreading_faults { IfOk spreading.old (λ tasks. All (HasNoFault P.gives) tasks.items) }
    requires merging_faults { IfOk merging.old (λ tasks. All (HasNoFault P.gives) tasks.items) }
    ensures spreading_taken { spreading.new ≡ Err Fault.OutOfMemory }
    ensures merging_taken { merging.new ≡ Err Fault.OutOfMemory }
    ensures sweeps { steps.new ≤ steps.old + 1024 * (sum_by (λ n. n) (sizes_in (H.seen io.old).sizes reader.sources.files) + 1) }
    ensures writes { WritesOrNot lane.now.scan reader bound (H.seen io.old) result (H.seen io.new) }
{
    let mut line = make_line::<L, K, H, A, Z, P, R>(alloc, lane, parts, spreading, merging);
    let Ok(made_line) = &mut line else {
        return Err(Fault::OutOfMemory);
    };
    let answer = run_line(io, reader, writer, made_line, bound, gate, steps);
    abandon_line(&mut line);
    answer
}

/// Makes a line of two nodes and the tasks of its pipes, and runs it; answers how many rows were written.
///
/// What the line is made of is lent, and taken.
fn run_orders<L, K, H, A, Z, P, G, Y>(
    alloc: Global,
    io: &mut H,
    reader: ScanReader,
    writer: SinkWriter,
    lane: &LaneJob<K, H>,
    last: &LaneJob<K, H>,
    parts: &mut Option<LineParts<L, LaneJob<K, H>, A, Z>>,
    fed: &mut P,
    given: &mut P,
    bound: u64,
    gate: &G,
    steps: &mut Steps<Y>,
) -> Result<u64, Fault>
where
    L: Tokens + Lanes<Load<<L as Tokens>::Token, LaneJob<K, H>>>,
    <L as Tokens>::Token: AtHome,
    K: AtHome,
    H: Io,
    A: ComputeNode<L, LaneJob<K, H>> + Drop,
    Z: ComputeNode<L, LaneJob<K, H>> + Drop,
    P: MakesPipeTasks<<L as Tokens>::Board, LaneJob<K, H>>,
    G: Gate,
    Y: Ledger,
    requires made { 0 < (H.seen io.old).sinks }
    requires suits { SuitsPieces (H.seen io.old) reader }
    requires start { reader ≡ pieces_at_start reader.sources }
    requires none_written { writer.rows ≡ 0 }
    requires reader { lane.now.reader ≡ reader }
    requires outside { lane.now.outside ≡ H.seen io.old }
    requires scanned { lane.now.stage ≡ ScannedRows }
    requires some { IsSome parts.old }
    requires ends { IfSome parts.old (λ parts. AreLineEnds L.Sender.home L.Sender.job L.Receiver.home L.Receiver.job (L.Board.id parts.board).lane_table lane.now parts.feed parts.take) }
    requires firsts { IfSome parts.old (λ parts. All (A.Unit.can_poll (L.Board.id parts.board)) parts.nodes.firsts.items) }
    requires lasts { IfSome parts.old (λ parts. All (Z.Unit.can_poll (L.Board.id parts.board)) parts.nodes.lasts.items) }
    requires first_out { IfSome parts.old (λ parts. HasOut (A.seen parts.nodes.first.node).units (A.is_unit parts.nodes.first.node) A.unit_fails (A.fails parts.nodes.first.begun.value (parts.nodes.first.job.value ∷ [])) parts.nodes.firsts.items) }
    requires last_out { IfSome parts.old (λ parts. HasOut (Z.seen parts.nodes.last.node).units (Z.is_unit parts.nodes.last.node) Z.unit_fails (Z.fails parts.nodes.last.begun.value (parts.nodes.last.job.value ∷ [])) parts.nodes.lasts.items) }
    requires first_fails { IfSome parts.old (λ parts. (fault : Fault) → A.fails parts.nodes.first.begun.value (parts.nodes.first.job.value ∷ []) fault → IsUnitFault lane.now fault) }
    requires last_fails { IfSome parts.old (λ parts. (fault : Fault) → Z.fails parts.nodes.last.begun.value (parts.nodes.last.job.value ∷ []) fault → IsUnitFault lane.now fault) }
    requires fed_ready { IfSome parts.old (λ parts. P.ready fed.old lane.now (L.Board.id parts.board)) }
    requires given_ready { IfSome parts.old (λ parts. P.ready given.old last.now (L.Board.id parts.board)) }
    ensures sweeps { steps.new ≤ steps.old + 1024 * (sum_by (λ n. n) (sizes_in (H.seen io.old).sizes reader.sources.files) + 1) }
    ensures writes { WritesOrNot lane.now.scan reader bound (H.seen io.old) result (H.seen io.new) }
{
    let Some(
        LineParts {
            mut board,
            nodes,
            feed,
            take,
        },
    ) = parts.take()
    else {
        unreachable!()
    };
    let mut spreading = fed.pipe_tasks(alloc, &mut board, lane);
    let mut merging = given.pipe_tasks(alloc, &mut board, last);
    run_parts::<L, K, H, A, Z, P::Task, P::Receipts, G, Y>(
        alloc,
        io,
        reader,
        writer,
        lane,
        &mut Some(LineParts {
            board,
            nodes,
            feed,
            take,
        }),
        &mut spreading,
        &mut merging,
        bound,
        gate,
        steps,
    )
}

/// Reads a scan's files, and writes what two nodes make of them into the last sink; answers how many rows were written.
///
/// The board and the nodes, which were made ready for the plan's pipelines, are lent, and taken. The reader has read nothing, and
/// the writer has written no row. `bound` says how many bytes of rows, the longest record not counted, reading may run ahead of
/// writing.
pub fn run_nodes<L, K, H, A, Z, G, Y>(
    alloc: Global,
    io: &mut H,
    reader: ScanReader,
    writer: SinkWriter,
    board: &mut Option<L::Board>,
    jobs: LineJobs<'_, LaneJob<K, H>>,
    nodes: &mut Option<LineNodes<A, Z>>,
    plan: LinePlan,
    rng: Xoshiro256PlusPlus,
    bound: u64,
    gate: &G,
    steps: &mut Steps<Y>,
) -> Result<u64, Fault>
where
    L: Tokens + Lanes<Load<<L as Tokens>::Token, LaneJob<K, H>>>,
    <L as Tokens>::Token: AtHome,
    K: AtHome,
    H: Io,
    A: ComputeNode<L, LaneJob<K, H>> + Drop,
    Z: ComputeNode<L, LaneJob<K, H>> + Drop,
    G: Gate,
    Y: Ledger,
    requires made { 0 < (H.seen io.old).sinks }
    requires suits { SuitsPieces (H.seen io.old) reader }
    requires start { reader ≡ pieces_at_start reader.sources }
    requires none_written { writer.rows ≡ 0 }
    requires reader { jobs.fed.now.reader ≡ reader }
    requires outside { jobs.fed.now.outside ≡ H.seen io.old }
    requires jobs { AreLineJobs jobs.fed.now jobs.between.now jobs.given.now }
    requires pipelines { (1 ≤ plan.pipelines) × (plan.pipelines ≤ 32768) }
    requires spread_room { (1 ≤ plan.rooms.spread) × (plan.rooms.spread ≤ 65536) }
    requires merge_room { (1 ≤ plan.rooms.merge) × (plan.rooms.merge ≤ 65536) }
    requires some_board { IsSome board.old }
    requires some_nodes { IsSome nodes.old }
    requires first { IfSome nodes.old (λ nodes. IsLineNode plan.pipelines (A.seen nodes.first)) }
    requires last { IfSome nodes.old (λ nodes. IsLineNode plan.pipelines (Z.seen nodes.last)) }
    requires first_fits { IfSome nodes.old (λ nodes. A.fits nodes.first (jobs.fed.now ∷ []) (jobs.between.now ∷ [])) }
    requires last_fits { IfSome nodes.old (λ nodes. Z.fits nodes.last (jobs.between.now ∷ []) (jobs.given.now ∷ [])) }
    requires first_fails { IfSome nodes.old (λ nodes. (fault : Fault) → A.fails nodes.first (jobs.fed.now ∷ []) fault → IsUnitFault jobs.fed.now fault) }
    requires last_fails { IfSome nodes.old (λ nodes. (fault : Fault) → Z.fails nodes.last (jobs.between.now ∷ []) fault → IsUnitFault jobs.fed.now fault) }
    requires tokens { IfSome board.old (λ board. HoldsTokensOf ⟦<LaneJob<K, H> as LoadJob<<L as Tokens>::Token>>⟧.holds L.token_home jobs.fed.now (L.Board.id board).group_table) }
    ensures sweeps { steps.new ≤ steps.old + 1024 * (sum_by (λ n. n) (sizes_in (H.seen io.old).sizes reader.sources.files) + 1) }
    ensures writes { WritesOrNot jobs.entry.fed.now.scan reader bound (H.seen io.old) result (H.seen io.new) }
{
    let (Some(mut board), Some(nodes)) = (board.take(), nodes.take()) else {
        unreachable!()
    };
    let (fed_job, given_job) = (jobs.fed, jobs.given);
    let Ok(
        OpenLine {
            nodes,
            feed,
            take,
            fed,
            given,
        },
    ) = open_line::<L, LaneJob<K, H>, A, Z>(alloc, &mut board, jobs, nodes, plan.pipelines)
    else {
        return Err(Fault::OutOfMemory);
    };
    let Ok(again) = rng.clone() else {
        return Err(Fault::OutOfMemory);
    };
    let mut fed = PipeOrder {
        pipe: Some(fed),
        rooms: plan.rooms,
        rng: again,
    };
    let mut given = PipeOrder {
        pipe: Some(given),
        rooms: plan.rooms,
        rng,
    };
    run_orders::<L, K, H, A, Z, PipeOrder<L, LaneJob<K, H>>, G, Y>(
        alloc,
        io,
        reader,
        writer,
        fed_job,
        given_job,
        &mut Some(LineParts {
            board,
            nodes,
            feed,
            take,
        }),
        &mut fed,
        &mut given,
        bound,
        gate,
        steps,
    )
}
