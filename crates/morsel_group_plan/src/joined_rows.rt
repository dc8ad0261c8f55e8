//! The rows of a join are taken into a group-by: what the rows of one scan find on the kept side, and then the kept rows that none
//! finds.
ghost use Rattle.std.specs.Prelude.{◌≡◌, ◌∷◌, ◌++◌, [], ℕ, List, None, Ok, Some, IfErr, IfOk, IfSome, IsSome, IsOkUnless, OnOk, ◌<◌, ◌≤◌, length};
ghost use Rattle.std.specs.Arc.{arc_value};
ghost use Rattle.morsel_meaning.specs.declared.fault.Fault.{Fault};
ghost use Rattle.morsel_meaning.specs.declared.fault.Fault.TheVariants.{OutOfMemory};
ghost use Rattle.morsel_load.specs.declared.load.LoadKind.TheVariants.{Pieces};
ghost use Rattle.morsel_join.specs.declared.build_side.Build.{Build};
ghost use Rattle.morsel_join.specs.BuildSides.{kept_side};
ghost use Rattle.morsel_join.specs.Sides.{IsRightSide};
ghost use Rattle.morsel_read.specs.ScanReads.{pieces_at_start, SuitsPieces};
ghost use Rattle.morsel_scan.specs.ScanColumns.{output_fields};
ghost use Rattle.morsel_scan_units.specs.LaneJobs.{LaneFor};
ghost use Rattle.morsel_scan_units.specs.LaneRows.{CarriesCuts, IsGivenLane};
ghost use Rattle.morsel_join_lines.specs.JoinNodes.{AreForOne, IsFinding};
ghost use Rattle.morsel_join_tasks.specs.Beside.{answer_beside};
ghost use Rattle.morsel_join_phases.specs.JoinPhases.{build_of};
ghost use Rattle.morsel_group_units.specs.GroupAsks.{GroupRulesSeen};
ghost use Rattle.morsel_group_phases.specs.declared.places.GroupAt.{GroupAt};
ghost use Rattle.morsel_group_phases.specs.GroupPhases.{FitsGroup, StaysGroup, group_at, group_rules};
ghost use Rattle.morsel_keep_run.specs.KeepRuns.{KeepsOrNot, KeepsScan, SweepsKept};
ghost use Rattle.morsel_join_plan.specs.JoinLanes.{AsksFor, HasJust, HoldsTokensAt, StopsKept, rows_lane};
ghost use Rattle.morsel_probe_run.specs.ProbeRuns.{AreAllUpTo};
ghost use Rattle.morsel_group_plan.specs.GroupLanes.{TakesTo};
ghost use Rattle.morsel_group_plan.specs.JoinedLanes.{HasTakenJoined, HasTakenNone, SweepsTaken, alone_lane, found_lane, joined_ends};

use crate::lone::take_lone_rows;
use crate::scan::{ScanGroup, all_taken};
use morsel_group_node::GroupByNode;
use morsel_group_units::GroupRules;
use morsel_join::Build;
use morsel_join_phases::gives_alone;
use morsel_join_plan::{
    FoundLanes, JoinSide, ScanJoin, end_looking_up, found_lanes, keep_found, side_lane,
};
use morsel_keep_run::FoundNodes;
use morsel_line::RowStage;
use morsel_load::{Load, LoadJob, LoadKind};
use morsel_local::Steps;
use morsel_meaning::Fault;
use morsel_outside::{Gate, Io};
use morsel_plan::ScanRun;
use morsel_ports::ComputeNode;
use morsel_prims::{Board, Lanes, Tokens};
use morsel_read::ScanReader;
use morsel_scan::CsvSourceNode;
use morsel_scan_units::{AtHome, LaneJob};
use std::alloc::Global;
use std::sync::Arc;
use std::sync::ledger::Ledger;

/// Reads the files of a scan, and takes what its rows find by a node into a group-by; answers both, and how many bytes were given. A row
/// finds at most `per_row` others.
///
/// The node that finds, which was made ready, the group-by, which has taken nothing, and the board are lent, and taken.
// Apart from the kind of the node that finds, so that no proof names the units of both.
fn take_found_by<L, K, H, M, G, Y>(
    alloc: Global,
    io: &mut H,
    board: &mut Option<L::Board>,
    lanes: &FoundLanes<LaneJob<K, H>>,
    source: Arc<CsvSourceNode, Global>,
    middle: &mut Option<M>,
    node: &mut Option<ScanGroup<L, K, H>>,
    reader: ScanReader,
    run: ScanRun,
    gate: &G,
    per_row: u64,
    steps: &mut Steps<Y>,
) -> Result<(FoundNodes<M, ScanGroup<L, K, H>>, u64), Fault>
where
    L: Tokens + Lanes<Load<<L as Tokens>::Token, LaneJob<K, H>>>,
    <L as Tokens>::Token: AtHome + Drop,
    K: AtHome,
    H: Io,
    M: ComputeNode<L, LaneJob<K, H>> + Drop,
    G: Gate,
    Y: Ledger,
    requires suits { SuitsPieces (H.seen io.old) reader }
    requires start { reader ≡ pieces_at_start reader.sources }
    requires pipelines { (1 ≤ run.line.pipelines) × (run.line.pipelines ≤ 32768) }
    requires spread_room { (1 ≤ run.line.rooms.spread) × (run.line.rooms.spread ≤ 65536) }
    requires merge_room { (1 ≤ run.line.rooms.merge) × (run.line.rooms.merge ≤ 65536) }
    requires some_board { IsSome board.old }
    requires tokens { IfSome board.old (λ board. HoldsTokensAt ⟦<LaneJob<K, H> as LoadJob<<L as Tokens>::Token>>⟧.holds L.token_home lanes.now.rows.tokens (L.Board.id board).group_table) }
    requires rows { lanes.now.rows ≡ rows_lane (arc_value source) reader (H.seen io.old) lanes.now.rows.tokens }
    requires fed { lanes.now.fed ≡ record lanes.now.rows { kind = Pieces } }
    requires first { AreForOne lanes.now.fed lanes.now.rows lanes.now.first.recv.items lanes.now.first.send.items }
    requires middle_recv { lanes.now.middle.recv.items ≡ lanes.now.rows ∷ lanes.now.rows ∷ [] }
    requires middle_send { lanes.now.middle.send.items ≡ lanes.now.found ∷ [] }
    requires last { AreForOne lanes.now.found lanes.now.given lanes.now.last.recv.items lanes.now.last.send.items }
    requires found_tokens { lanes.now.found.tokens ≡ lanes.now.rows.tokens }
    requires some_middle { IsSome middle.old }
    requires finds { IfSome middle.old (λ middle. IsFinding run.line.pipelines (M.seen middle)) }
    requires fits { IfSome middle.old (λ middle. M.fits middle lanes.now.middle.recv.items lanes.now.middle.send.items) }
    requires fails { IfSome middle.old (λ middle. (fault : Fault) → M.fails middle lanes.now.middle.recv.items fault → fault ≡ OutOfMemory) }
    requires some_node { IsSome node.old }
    requires takes { IfSome node.old (λ node. FitsGroup CarriesCuts IsGivenLane node.phase lanes.now.found lanes.now.given) }
    requires at { IfSome node.old (λ node. group_at node.phase ≡ GroupAt.Sink) }
    requires new { IfSome node.old (λ node. ((⟦<ScanGroup<L, K, H> as ComputeNode<L, LaneJob<K, H>>>⟧.seen node).pipelines ≡ None) × ((⟦<ScanGroup<L, K, H> as ComputeNode<L, LaneJob<K, H>>>⟧.seen node).units ≡ 0)) }
    ensures sweeps { SweepsKept (arc_value source) reader per_row (H.seen io.old) steps.old steps.new }
    ensures finding_stays { (begun : M) → IfSome middle.old (λ middle. M.stays begun middle) → IfOk result (λ end. M.stays begun end.0.finds) }
    ensures pipelines { IfOk result (λ end. (⟦<ScanGroup<L, K, H> as ComputeNode<L, LaneJob<K, H>>>⟧.seen end.0.keeps).pipelines ≡ Some run.line.pipelines) }
    ensures group_stays { IfSome node.old (λ node. IfOk result (λ end. StaysGroup node.phase end.0.keeps.phase)) }
    ensures keeps { KeepsOrNot (arc_value source) reader (H.seen io.old) (answer_beside result) (H.seen io.new) }
{
    let Some(mut last) = node.take() else {
        unreachable!()
    };
    <ScanGroup<L, K, H> as ComputeNode<L, LaneJob<K, H>>>::initialize(
        &mut last,
        run.line.pipelines,
    );
    keep_found::<L, K, H, M, ScanGroup<L, K, H>, G, Y>(
        alloc,
        io,
        board,
        lanes,
        source,
        middle,
        &mut Some(last),
        reader,
        run,
        gate,
        per_row,
        steps,
    )
}

/// Reads the files of a scan, and takes all that its rows find in a join's kept rows into a group-by; answers the join and the group-by,
/// and how many bytes were given. A row finds at most `per_row` others.
///
/// The join, which is about to look up rows, the group-by, which has taken nothing, and the board are lent, and taken.
fn take_found<L, K, H, G, Y>(
    alloc: Global,
    io: &mut H,
    board: &mut Option<L::Board>,
    lanes: &FoundLanes<LaneJob<K, H>>,
    build: &Arc<Build, Global>,
    source: Arc<CsvSourceNode, Global>,
    join: &mut Option<ScanJoin<L, K, H>>,
    node: &mut Option<ScanGroup<L, K, H>>,
    reader: ScanReader,
    run: ScanRun,
    gate: &G,
    per_row: u64,
    steps: &mut Steps<Y>,
) -> Result<(FoundNodes<ScanJoin<L, K, H>, ScanGroup<L, K, H>>, u64), Fault>
where
    L: Tokens + Lanes<Load<<L as Tokens>::Token, LaneJob<K, H>>>,
    <L as Tokens>::Token: AtHome + Drop,
    K: AtHome,
    H: Io,
    G: Gate,
    Y: Ledger,
    requires suits { SuitsPieces (H.seen io.old) reader }
    requires start { reader ≡ pieces_at_start reader.sources }
    requires pipelines { (1 ≤ run.line.pipelines) × (run.line.pipelines ≤ 32768) }
    requires spread_room { (1 ≤ run.line.rooms.spread) × (run.line.rooms.spread ≤ 65536) }
    requires merge_room { (1 ≤ run.line.rooms.merge) × (run.line.rooms.merge ≤ 65536) }
    requires some_board { IsSome board.old }
    requires tokens { IfSome board.old (λ board. HoldsTokensAt ⟦<LaneJob<K, H> as LoadJob<<L as Tokens>::Token>>⟧.holds L.token_home lanes.now.rows.tokens (L.Board.id board).group_table) }
    requires rows { lanes.now.rows ≡ rows_lane (arc_value source) reader (H.seen io.old) lanes.now.rows.tokens }
    requires fed { lanes.now.fed ≡ record lanes.now.rows { kind = Pieces } }
    requires found { lanes.now.found ≡ found_lane (kept_side (arc_value build.now)) lanes.now.rows }
    requires first { AreForOne lanes.now.fed lanes.now.rows lanes.now.first.recv.items lanes.now.first.send.items }
    requires middle_recv { lanes.now.middle.recv.items ≡ lanes.now.rows ∷ lanes.now.rows ∷ [] }
    requires middle_send { lanes.now.middle.send.items ≡ lanes.now.found ∷ [] }
    requires last { AreForOne lanes.now.found lanes.now.given lanes.now.last.recv.items lanes.now.last.send.items }
    requires some_join { IsSome join.old }
    requires build { IfSome join.old (λ join. build_of join.phase ≡ Some (arc_value build.now)) }
    requires asks { IfSome join.old (λ join. AsksFor join.phase (output_fields (arc_value source).scan)) }
    requires ready { IfSome join.old (λ join. (⟦<ScanJoin<L, K, H> as ComputeNode<L, LaneJob<K, H>>>⟧.seen join).pipelines ≡ Some run.line.pipelines) }
    requires idle { IfSome join.old (λ join. (⟦<ScanJoin<L, K, H> as ComputeNode<L, LaneJob<K, H>>>⟧.seen join).units ≡ 0) }
    requires some_node { IsSome node.old }
    requires takes { IfSome node.old (λ node. FitsGroup CarriesCuts IsGivenLane node.phase lanes.now.found lanes.now.given) }
    requires at { IfSome node.old (λ node. group_at node.phase ≡ GroupAt.Sink) }
    requires new { IfSome node.old (λ node. ((⟦<ScanGroup<L, K, H> as ComputeNode<L, LaneJob<K, H>>>⟧.seen node).pipelines ≡ None) × ((⟦<ScanGroup<L, K, H> as ComputeNode<L, LaneJob<K, H>>>⟧.seen node).units ≡ 0)) }
    ensures sweeps { SweepsKept (arc_value source) reader per_row (H.seen io.old) steps.old steps.new }
    ensures takes { (group : GroupRulesSeen) → IfSome node.old (λ node. HasTakenNone node.phase group lanes.now.found) → IfOk result (λ end. TakesTo end.0.keeps.phase group ((lanes.now.found, end.1) ∷ [])) }
    ensures has { IfOk result (λ end. HasJust end.0.finds.phase (arc_value build.now) lanes.now.rows) }
    ensures ready { IfOk result (λ end. (⟦<ScanJoin<L, K, H> as ComputeNode<L, LaneJob<K, H>>>⟧.seen end.0.finds).pipelines ≡ Some run.line.pipelines) }
    ensures pipelines { IfOk result (λ end. (⟦<ScanGroup<L, K, H> as ComputeNode<L, LaneJob<K, H>>>⟧.seen end.0.keeps).pipelines ≡ Some run.line.pipelines) }
    ensures idle { IfOk result (λ end. (⟦<ScanGroup<L, K, H> as ComputeNode<L, LaneJob<K, H>>>⟧.seen end.0.keeps).units ≡ 0) }
    ensures keeps { IfOk result (λ end. KeepsScan (arc_value source) reader (H.seen io.old) (Ok end.1) (H.seen io.new)) }
    ensures stops { IfErr result (λ fault. StopsKept (record { scan = arc_value source; reader = reader }) (H.seen io.old) fault (H.seen io.new)) }
{
    let Some(mut middle) = join.take() else {
        unreachable!()
    };
    let Ok(()) = middle.look_up_in(&lanes.rows) else {
        return Err(Fault::OutOfMemory);
    };
    let taken = match take_found_by::<L, K, H, ScanJoin<L, K, H>, G, Y>(
        alloc,
        io,
        board,
        lanes,
        source,
        &mut Some(middle),
        node,
        reader,
        run,
        gate,
        per_row,
        steps,
    ) {
        Ok(taken) => taken,
        Err(fault) => return Err(fault),
    };
    let Ok(()) = all_taken::<L, K, H>(&taken.0.keeps, taken.1) else {
        return Err(Fault::OutOfMemory);
    };
    Ok(taken)
}

/// What takes the rows of a join into a group-by, beside the join.
#[derive(Drop)]
struct ReadyToTake<J, N> {
    /// What the lanes are for where rows are looked up.
    lanes: FoundLanes<J>,
    /// What the lane is for of the kept rows that none finds.
    alone: J,
    /// The source.
    source: Arc<CsvSourceNode, Global>,
    /// The reader of the files.
    reader: ScanReader,
    /// How many others a row finds at most.
    per_row: u64,
    /// The group-by, which has taken nothing.
    node: N,
}

/// What takes the rows of a join into a group-by, where the rows of a side are looked up in these kept rows; the files are to be read
/// from this outside. A load that the group-by makes has so many rows at most.
// Apart from the join, so that no path lets it go for want of memory here.
fn ready_to_take<L, K, H>(
    alloc: Global,
    asked: JoinSide,
    io: &H,
    tokens: &K,
    build: &Arc<Build, Global>,
    rules: GroupRules,
    rows: usize,
) -> Result<ReadyToTake<LaneJob<K, H>, ScanGroup<L, K, H>>, Fault>
where
    L: Tokens + Lanes<Load<<L as Tokens>::Token, LaneJob<K, H>>>,
    <L as Tokens>::Token: AtHome,
    K: AtHome,
    H: Io,
    requires columns { rules.columns ≡ (arc_value build.now).rules.output }
    requires some { 0 < rows }
    ensures rows { IfOk result (λ ready. ready.lanes.rows ≡ rows_lane asked.node asked.reader (H.seen io.now) (K.home tokens.now)) }
    ensures fed { IfOk result (λ ready. ready.lanes.fed ≡ record ready.lanes.rows { kind = Pieces }) }
    ensures found { IfOk result (λ ready. ready.lanes.found ≡ found_lane (kept_side (arc_value build.now)) ready.lanes.rows) }
    ensures first { IfOk result (λ ready. AreForOne ready.lanes.fed ready.lanes.rows ready.lanes.first.recv.items ready.lanes.first.send.items) }
    ensures middle_recv { IfOk result (λ ready. ready.lanes.middle.recv.items ≡ ready.lanes.rows ∷ ready.lanes.rows ∷ []) }
    ensures middle_send { IfOk result (λ ready. ready.lanes.middle.send.items ≡ ready.lanes.found ∷ []) }
    ensures last { IfOk result (λ ready. AreForOne ready.lanes.found ready.lanes.given ready.lanes.last.recv.items ready.lanes.last.send.items) }
    ensures alone { IfOk result (λ ready. ready.alone ≡ alone_lane (kept_side (arc_value build.now)) ready.lanes.rows) }
    ensures source { IfOk result (λ ready. arc_value ready.source ≡ asked.node) }
    ensures reader { IfOk result (λ ready. ready.reader ≡ asked.reader) }
    ensures within { IfOk result (λ ready. ready.per_row ≤ length (kept_side (arc_value build.now)).rows) }
    ensures small { IfOk result (λ ready. ready.per_row ≤ 4294967295) }
    ensures none { IfOk result (λ ready. HasTakenNone ready.node.phase rules ready.lanes.found) }
    ensures takes { IfOk result (λ ready. FitsGroup CarriesCuts IsGivenLane ready.node.phase ready.lanes.found ready.lanes.given) }
    ensures new { IfOk result (λ ready. ((⟦<ScanGroup<L, K, H> as ComputeNode<L, LaneJob<K, H>>>⟧.seen ready.node).pipelines ≡ None) × ((⟦<ScanGroup<L, K, H> as ComputeNode<L, LaneJob<K, H>>>⟧.seen ready.node).units ≡ 0)) }
    ensures out_of_memory { IsOkUnless result OutOfMemory }
{
    let per_row = kept_len(build)?;
    let lanes = found_lanes(alloc, &asked, io, tokens, build)?;
    let alone = lone_lane(&asked, io, tokens, build)?;
    let JoinSide { node, reader, .. } = asked;
    let source = Arc::new(alloc, node)?;
    let taking = new_taking::<L, K, H>(alloc, rules, &lanes.found, rows)?;
    Ok(ReadyToTake {
        lanes,
        alone,
        source,
        reader,
        per_row,
        node: taking,
    })
}

/// A group-by that has taken nothing; the rows that it is to take are those of this lane. A load that it makes has so many rows at most.
fn new_taking<L, K, H>(
    alloc: Global,
    rules: GroupRules,
    found: &LaneJob<K, H>,
    rows: usize,
) -> Result<ScanGroup<L, K, H>, Fault>
where
    L: Tokens + Lanes<Load<<L as Tokens>::Token, LaneJob<K, H>>>,
    <L as Tokens>::Token: AtHome,
    K: AtHome,
    H: Io,
    requires cuts { CarriesCuts found.now rules.columns }
    requires some { 0 < rows }
    ensures none { IfOk result (λ node. HasTakenNone node.phase rules found.now) }
    ensures takes { (given : LaneFor) → IfOk result (λ node. FitsGroup CarriesCuts IsGivenLane node.phase found.now given) }
    ensures new { IfOk result (λ node. ((⟦<ScanGroup<L, K, H> as ComputeNode<L, LaneJob<K, H>>>⟧.seen node).pipelines ≡ None) × ((⟦<ScanGroup<L, K, H> as ComputeNode<L, LaneJob<K, H>>>⟧.seen node).units ≡ 0)) }
    ensures out_of_memory { IsOkUnless result OutOfMemory }
{
    let rules = Arc::new(alloc, rules)?;
    let node = GroupByNode::new(alloc, rules, found, rows);
    Ok(node)
}

/// What the lane is for of those of these kept rows that no row of a side finds.
fn lone_lane<K: AtHome, H: Io>(
    asked: &JoinSide,
    io: &H,
    tokens: &K,
    build: &Arc<Build, Global>,
) -> Result<LaneJob<K, H>, Fault>
    ensures lane { IfOk result (λ lane. lane ≡ alone_lane (kept_side (arc_value build.now)) (rows_lane asked.now.node asked.now.reader (H.seen io.now) (K.home tokens.now))) }
    ensures out_of_memory { IsOkUnless result OutOfMemory }
{
    let stage = RowStage::alone(build.clone()?);
    Ok(side_lane(LoadKind::Morsels, asked, io, tokens, &stage))
}

/// Takes the kept rows of a join that no row found into a group-by, behind what the rows up to this place found; where some rows were
/// not looked up, it answers that there is no memory.
fn take_rest<L, K, H>(
    alloc: Global,
    join: &mut ScanJoin<L, K, H>,
    node: &mut ScanGroup<L, K, H>,
    alone: &LaneJob<K, H>,
    given: u64,
    rows: usize,
) -> Result<(), Fault>
where
    L: Tokens + Lanes<Load<<L as Tokens>::Token, LaneJob<K, H>>>,
    <L as Tokens>::Token: AtHome + Drop,
    K: AtHome,
    H: Io,
    requires some { 0 < rows }
    requires ready { IsSome (⟦<ScanJoin<L, K, H> as ComputeNode<L, LaneJob<K, H>>>⟧.seen join.old).pipelines }
    requires has { (build : Build) × (lane : LaneFor) × HasJust join.old.phase build lane × (lane ≡ rows_lane lane.scan lane.reader lane.outside lane.tokens) × AreAllUpTo lane.scan lane.reader lane.outside given
        × (alone.now ≡ alone_lane (kept_side build) lane) × ((group : GroupRulesSeen) → group_rules node.old.phase ≡ Some group → group.columns ≡ build.rules.output) }
    ensures took { (group : GroupRulesSeen) (ends : List (LaneFor × ℕ)) → TakesTo node.old.phase group ends → OnOk result (TakesTo node.new.phase group (ends ++ (alone.now, 1) ∷ [])) }
    ensures pipelines { (⟦<ScanGroup<L, K, H> as ComputeNode<L, LaneJob<K, H>>>⟧.seen node.new).pipelines ≡ (⟦<ScanGroup<L, K, H> as ComputeNode<L, LaneJob<K, H>>>⟧.seen node.old).pipelines }
    ensures units { (⟦<ScanGroup<L, K, H> as ComputeNode<L, LaneJob<K, H>>>⟧.seen node.new).units ≡ (⟦<ScanGroup<L, K, H> as ComputeNode<L, LaneJob<K, H>>>⟧.seen node.old).units }
    ensures out_of_memory { IsOkUnless result OutOfMemory }
{
    end_looking_up::<L, K, H>(join, given)?;
    take_lone_rows::<L, K, H>(alloc, join, node, alone, rows)
}

/// Takes the kept rows of a join that no row found into a group-by, where the kind of the join has them; answers the group-by. What the
/// rows up to this place found was taken before.
fn take_others<L, K, H>(
    alloc: Global,
    nodes: FoundNodes<ScanJoin<L, K, H>, ScanGroup<L, K, H>>,
    alone: &LaneJob<K, H>,
    given: u64,
    build: &Arc<Build, Global>,
    rows: usize,
) -> Result<ScanGroup<L, K, H>, Fault>
where
    L: Tokens + Lanes<Load<<L as Tokens>::Token, LaneJob<K, H>>>,
    <L as Tokens>::Token: AtHome + Drop,
    K: AtHome,
    H: Io,
    requires some { 0 < rows }
    requires right { IsRightSide (kept_side (arc_value build.now)) }
    requires ready { IsSome (⟦<ScanJoin<L, K, H> as ComputeNode<L, LaneJob<K, H>>>⟧.seen nodes.finds).pipelines }
    requires has { (lane : LaneFor) × HasJust nodes.finds.phase (arc_value build.now) lane × (lane ≡ rows_lane lane.scan lane.reader lane.outside lane.tokens) × AreAllUpTo lane.scan lane.reader lane.outside given
        × (alone.now ≡ alone_lane (kept_side (arc_value build.now)) lane) × ((group : GroupRulesSeen) → group_rules nodes.keeps.phase ≡ Some group → group.columns ≡ (arc_value build.now).rules.output) }
    ensures takes { (group : GroupRulesSeen) (lane : LaneFor) → alone.now ≡ alone_lane (kept_side (arc_value build.now)) lane → TakesTo nodes.keeps.phase group ((found_lane (kept_side (arc_value build.now)) lane, given) ∷ [])
        → IfOk result (λ node. TakesTo node.phase group (joined_ends (kept_side (arc_value build.now)) lane given)) }
    ensures pipelines { IfOk result (λ node. (⟦<ScanGroup<L, K, H> as ComputeNode<L, LaneJob<K, H>>>⟧.seen node).pipelines ≡ (⟦<ScanGroup<L, K, H> as ComputeNode<L, LaneJob<K, H>>>⟧.seen nodes.keeps).pipelines) }
    ensures units { IfOk result (λ node. (⟦<ScanGroup<L, K, H> as ComputeNode<L, LaneJob<K, H>>>⟧.seen node).units ≡ (⟦<ScanGroup<L, K, H> as ComputeNode<L, LaneJob<K, H>>>⟧.seen nodes.keeps).units) }
    ensures out_of_memory { IsOkUnless result OutOfMemory }
{
    let FoundNodes {
        mut finds,
        mut keeps,
    } = nodes;
    if gives_alone(&build.rules) {
        take_rest::<L, K, H>(alloc, &mut finds, &mut keeps, alone, given, rows)?;
        return Ok(keeps);
    }
    Ok(keeps)
}

/// How many rows are kept: a row finds at most so many.
fn kept_len(build: &Build) -> Result<u64, Fault>
    ensures within { IfOk result (λ len. len ≤ length (kept_side build.now).rows) }
    ensures small { IfOk result (λ len. len ≤ 4294967295) }
    ensures out_of_memory { IsOkUnless result OutOfMemory }
{
    let len = build.height() as u64;
    // No scan has more rows.
    if len > u32::MAX as u64 {
        return Err(Fault::OutOfMemory);
    }
    Ok(len)
}

/// Takes all rows of a join into a group-by, which it answers: what the rows of a side find in the join's kept rows, and then the kept
/// rows that none finds, where the kind of the join has them.
///
/// The join, which is about to look up rows, and the board, whose group this is, are lent, and taken; the reader has read nothing. A
/// load that the group-by makes has so many rows at most.
pub(crate) fn take_joined<L, K, H, G, Y>(
    alloc: Global,
    io: &mut H,
    board: &mut Option<L::Board>,
    tokens: &K,
    asked: JoinSide,
    build: &Arc<Build, Global>,
    join: &mut Option<ScanJoin<L, K, H>>,
    rules: GroupRules,
    rows: usize,
    run: ScanRun,
    gate: &G,
    steps: &mut Steps<Y>,
) -> Result<ScanGroup<L, K, H>, Fault>
where
    L: Tokens + Lanes<Load<<L as Tokens>::Token, LaneJob<K, H>>>,
    <L as Tokens>::Token: AtHome + Drop,
    K: AtHome,
    H: Io,
    G: Gate,
    Y: Ledger,
    requires suits { SuitsPieces (H.seen io.old) asked.reader }
    requires start { asked.reader ≡ pieces_at_start asked.reader.sources }
    requires columns { asked.columns ≡ output_fields asked.node.scan }
    requires some { 0 < rows }
    requires pipelines { (1 ≤ run.line.pipelines) × (run.line.pipelines ≤ 32768) }
    requires spread_room { (1 ≤ run.line.rooms.spread) × (run.line.rooms.spread ≤ 65536) }
    requires merge_room { (1 ≤ run.line.rooms.merge) × (run.line.rooms.merge ≤ 65536) }
    requires some_board { IsSome board.old }
    requires tokens { IfSome board.old (λ board. HoldsTokensAt ⟦<LaneJob<K, H> as LoadJob<<L as Tokens>::Token>>⟧.holds L.token_home (K.home tokens.now) (L.Board.id board).group_table) }
    requires some_join { IsSome join.old }
    requires build { IfSome join.old (λ join. build_of join.phase ≡ Some (arc_value build.now)) }
    requires asks { IfSome join.old (λ join. AsksFor join.phase asked.columns) }
    requires ready { IfSome join.old (λ join. (⟦<ScanJoin<L, K, H> as ComputeNode<L, LaneJob<K, H>>>⟧.seen join).pipelines ≡ Some run.line.pipelines) }
    requires idle { IfSome join.old (λ join. (⟦<ScanJoin<L, K, H> as ComputeNode<L, LaneJob<K, H>>>⟧.seen join).units ≡ 0) }
    requires right { IsRightSide (kept_side (arc_value build.now)) }
    requires grouped { rules.columns ≡ (arc_value build.now).rules.output }
    ensures sweeps { SweepsTaken (record { scan = asked.node; reader = asked.reader }) (kept_side (arc_value build.now)) (H.seen io.old) steps.old steps.new }
    ensures taken { IfOk result (λ node. HasTakenJoined node.phase (record { scan = asked.node; reader = asked.reader }) (kept_side (arc_value build.now)) rules (H.seen io.old) (H.seen io.new)) }
    ensures pipelines { IfOk result (λ node. (⟦<ScanGroup<L, K, H> as ComputeNode<L, LaneJob<K, H>>>⟧.seen node).pipelines ≡ Some run.line.pipelines) }
    ensures idle { IfOk result (λ node. (⟦<ScanGroup<L, K, H> as ComputeNode<L, LaneJob<K, H>>>⟧.seen node).units ≡ 0) }
    ensures stops { IfErr result (λ fault. StopsKept (record { scan = asked.node; reader = asked.reader }) (H.seen io.old) fault (H.seen io.new)) }
{
    let Ok(ready) = ready_to_take::<L, K, H>(alloc, asked, io, tokens, build, rules, rows) else {
        return Err(Fault::OutOfMemory);
    };
    let ReadyToTake {
        lanes,
        alone,
        source,
        reader,
        per_row,
        node,
    } = ready;
    let (nodes, given) = match take_found::<L, K, H, G, Y>(
        alloc,
        io,
        board,
        &lanes,
        build,
        source,
        join,
        &mut Some(node),
        reader,
        run,
        gate,
        per_row,
        steps,
    ) {
        Ok(taken) => taken,
        Err(fault) => return Err(fault),
    };
    take_others::<L, K, H>(alloc, nodes, &alone, given, build, rows)
}
