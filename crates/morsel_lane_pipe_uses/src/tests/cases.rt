//! Pipes of one thread and between threads, of which what is planned holds.
ghost use Rattle.std.specs.Prelude.{◌≡◌, ◌≤◌, IfOk};
ghost use Rattle.morsel_load.specs.Loads.{LoadSeen};
ghost use Rattle.morsel_lane_pipe.specs.Tasks.{HoldsTokensOf};

use crate::tests::jobs::{PlainJob, WordJob};
use crate::tests::made::{MakesTasks, PipeTasks};
use crate::tests::pairing::{Pairing, join};
use crate::tests::pipe::Pipe;
use crate::tests::piped::Piped;
use crate::tests::plan::Plan;
use crate::tests::scarce::ScarceLanes;
use crate::tests::trial::Trial;
use morsel_load::{Load, LoadJob};
use morsel_meaning::Fault;
use morsel_prims::{Lanes, Message, PlainBoard, PlainGroup, PlainLanes, PlainToken, Tokens};
use morsel_word_lanes::WordLanes;
use std::alloc::Global;
use std::snapshot::Snapshot;

/// A load of one thread.
pub type PlainLoad = Load<PlainToken, PlainJob>;

/// The lanes of one thread.
pub type Plain = PlainLanes<PlainLoad>;

/// All pairings.
pub const PAIRINGS: [Pairing; 4] = [
    Pairing::Serial,
    Pairing::Parallel,
    Pairing::Merged,
    Pairing::Spread,
];

/// A board of one thread, and a group of it.
fn board_of<T: Message>(alloc: Global) -> Result<(PlainBoard<T>, Snapshot<PlainGroup>), Fault>
    ensures home { IfOk result (λ made. made.0.group_table ≡ made.1.value.row.badge.table_id) }
{
    let mut board = PlainBoard::new(alloc)?;
    let group = PlainLanes::<T>::group(alloc, &mut board)?;
    Ok((board, Snapshot::of(&group)))
}

/// A board of one thread, and a job for any loads on it.
pub fn plain(alloc: Global) -> Result<(PlainBoard<PlainLoad>, PlainJob), Fault>
    ensures home { IfOk result (λ made. made.0.group_table ≡ made.1.group.value.row.badge.table_id) }
{
    let (board, group) = board_of::<PlainLoad>(alloc)?;
    Ok((board, PlainJob { group }))
}

/// Whether what is planned holds of this pipe, if its lanes and tasks were made.
fn holds_of<P: Piped + Drop>(
    alloc: Global,
    pipe: P,
    joined: Result<(), Fault>,
    plan: Plan,
) -> Result<bool, Fault> {
    joined?;
    holds_in(alloc, Trial::new(alloc, pipe), plan)
}

/// Whether what is planned holds in this trial.
fn holds_in<P: Piped + Drop>(
    alloc: Global,
    mut trial: Trial<P>,
    plan: Plan,
) -> Result<bool, Fault> {
    plan.holds(alloc, &mut trial)
}

/// Whether what is planned holds of a pipe on this board, whose lanes ask for this room. The seed says which lanes are drawn.
fn holds_by<L, J, M>(
    alloc: Global,
    board: L::Board,
    job: &J,
    room: u32,
    seed: u64,
    plan: Plan,
) -> Result<bool, Fault>
where
    L: Tokens + Lanes<Load<<L as Tokens>::Token, J>>,
    J: LoadJob<<L as Tokens>::Token>,
    M: MakesTasks<L, J>,
    requires any { (load : LoadSeen) → J.suits job.now load }
    requires tokens { HoldsTokensOf J.holds L.token_home job.now (L.Board.id board).group_table }
    requires asked { (1 ≤ room) × (room ≤ 65536) }
{
    let mut pipe: Pipe<L, J, M::Made> = Pipe::new(alloc, board, job, room)?;
    let joined = join::<L, J, M>(alloc, &mut pipe, job, plan.pairing(), seed);
    holds_of(alloc, pipe, joined, plan)
}

/// The same with the tasks that queries have.
fn holds<L, J>(
    alloc: Global,
    board: L::Board,
    job: &J,
    room: u32,
    seed: u64,
    plan: Plan,
) -> Result<bool, Fault>
where
    L: Tokens + Lanes<Load<<L as Tokens>::Token, J>>,
    J: LoadJob<<L as Tokens>::Token>,
    requires any { (load : LoadSeen) → J.suits job.now load }
    requires tokens { HoldsTokensOf J.holds L.token_home job.now (L.Board.id board).group_table }
    requires asked { (1 ≤ room) × (room ≤ 65536) }
{
    holds_by::<L, J, PipeTasks>(alloc, board, job, room, seed, plan)
}

/// Whether what is planned holds of a pipe of one thread, whose lanes have this room.
pub fn holds_on_one_thread(alloc: Global, room: u32, seed: u64, plan: Plan) -> Result<bool, Fault>
    requires asked { (1 ≤ room) × (room ≤ 65536) }
{
    let (board, job) = plain(alloc)?;
    holds::<Plain, PlainJob>(alloc, board, &job, room, seed, plan)
}

/// Whether what is planned holds of a pipe between threads.
pub fn holds_between_threads(alloc: Global, seed: u64, plan: Plan) -> Result<bool, Fault> {
    holds::<WordLanes, WordJob>(alloc, (), &WordJob, 1, seed, plan)
}

/// The same as on one thread, where groups give so many tokens.
pub fn holds_of_scarce_on_one_thread<const TOKENS: u32>(
    alloc: Global,
    room: u32,
    plan: Plan,
) -> Result<bool, Fault>
    requires asked { (1 ≤ room) × (room ≤ 65536) }
{
    let (board, job) = plain(alloc)?;
    holds::<ScarceLanes<Plain, TOKENS>, PlainJob>(alloc, board, &job, room, 1, plan)
}

/// The same as between threads, where groups give so many tokens.
pub fn holds_of_scarce_between_threads<const TOKENS: u32>(
    alloc: Global,
    plan: Plan,
) -> Result<bool, Fault> {
    holds::<ScarceLanes<WordLanes, TOKENS>, WordJob>(alloc, (), &WordJob, 1, 1, plan)
}
