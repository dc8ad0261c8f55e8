//! Which ends a pipe keeps, by how many its nodes have.
use crate::pairings::{Pairing, pipe_between};
use morsel_load::{Load, LoadJob};
use morsel_meaning::Fault;
use morsel_ports::PhysicalPipe;
use morsel_prims::{Lanes, PlainBoard, PlainGroup, PlainLanes, PlainToken, Tokens};
use std::alloc::Global;
use std::process::Abort;
use std::snapshot::Snapshot;
use std::test::Fail;

/// Lanes of the board of a group: any loads, with the board's tokens.
#[derive(Drop)]
struct OfBoard {
    group: Snapshot<PlainGroup>,
}

impl LoadJob<PlainToken> for OfBoard {
    ghost use Rattle.std.specs.Prelude.{◌≡◌};

    ghost suits = { λ job load. Unit {0} };

    ghost holds = { λ job token. token.row.badge.table_id ≡ job.group.value.row.badge.table_id };
}

type Carried = Load<PlainToken, OfBoard>;

type Plain = PlainLanes<Carried>;

/// How many receiving and sending ends a pipe has, once both of its nodes have theirs.
fn kept<L: Tokens + Lanes<Load<<L as Tokens>::Token, J>>, J: LoadJob<<L as Tokens>::Token>>(
    pipe: &PhysicalPipe<L, J>,
) -> Option<(usize, usize)> {
    match pipe {
        PhysicalPipe::Initialized => Some((0, 0)),
        PhysicalPipe::NeedsLinearizer(receivers, _) => Some((receivers.len(), 1)),
        PhysicalPipe::NeedsDistributor(_, senders) => Some((1, senders.len())),
        _ => None,
    }
}

/// The same of a new pipe for two pipelines.
fn kept_between<L: Tokens + Lanes<Load<<L as Tokens>::Token, J>>, J: LoadJob<<L as Tokens>::Token>>(
    alloc: Global,
    board: &mut L::Board,
    job: &J,
    pairing: Pairing,
) -> Result<Option<(usize, usize)>, Fault> {
    let pipe = pipe_between::<L, J>(alloc, board, job, 2, pairing)?;
    Ok(kept(&pipe))
}

/// The same over plain lanes.
fn kept_of(alloc: Global, pairing: Pairing) -> Result<Option<(usize, usize)>, Fault> {
    let mut board = PlainBoard::<Carried>::new(alloc)?;
    let group = Plain::group(alloc, &mut board)?;
    let job = OfBoard {
        group: Snapshot::of(&group),
    };
    kept_between::<Plain, OfBoard>(alloc, &mut board, &job, pairing)
}

#[test]
fn a_pipe_keeps_the_ends_that_its_tasks_need(rt: HostRuntime) -> Result<(), Fail> {
    for (sends_one, takes_one, receivers, senders) in [
        (true, true, 0, 0),
        (false, false, 0, 0),
        (false, true, 2, 1),
        (true, false, 1, 2),
    ] {
        let pairing = Pairing {
            sends_one,
            takes_one,
        };
        assert_eq!(rt;
            kept_of(rt.alloc(), pairing)?,
            Some((receivers, senders)),
            "one sends: {sends_one}, one takes: {takes_one}"
        );
    }
    Ok(())
}
