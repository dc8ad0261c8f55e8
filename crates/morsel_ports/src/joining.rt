//! Makes a task between each pair of ends.
ghost use Rattle.std.specs.Prelude.{◌≡◌, All, Some, map, IfOk, IsOkUnless};
ghost use Rattle.morsel_meaning.specs.declared.fault.Fault.TheVariants.{OutOfMemory};
ghost use Rattle.morsel_prims.specs.Polled.{BoardId};
ghost use Rattle.morsel_prims.specs.Waiting.{SameWaiting};
ghost use Rattle.morsel_ports.specs.Between.{tasks_by_pairs};
ghost use Rattle.morsel_ports.specs.Joining.{MayJoin};

use morsel_lane_pipe::{HandingOn, Inserting, LoadOf, Stepwise};
use morsel_load::{Load, LoadJob};
use morsel_meaning::Fault;
use morsel_merge::Inserter;
use morsel_prims::{Board, Lanes, Tokens};
use std::alloc::Global;

/// A task between two ends.
pub trait JoinsEnds<B: Board> {
    ghost use Rattle.std.specs.Prelude.{◌≡◌, IfOk, IsOkUnless};
    ghost use Rattle.morsel_meaning.specs.declared.fault.Fault.TheVariants.{OutOfMemory};
    ghost use Rattle.morsel_prims.specs.Polled.{BoardId, LaneId};
    ghost use Rattle.morsel_prims.specs.Waiting.{SameWaiting};
    ghost use Rattle.morsel_ports.specs.Between.{PipeKind, TaskLanes, passing_task};

    /// Where the task takes loads.
    type From: Drop;

    /// Where it sends them.
    type To: Drop;

    /// What is made.
    type Made: Drop;

    /// It may be made between these ends, for the board of this identity.
    ghost may_join: { BoardId → Self.From → Self.To → Type 0 };

    /// It may go on, on the board of this identity.
    ghost can_step: { BoardId → Self.Made → Type 0 };

    /// Of which kind it is, and between which lanes of which board.
    ghost lanes: { Self.Made → TaskLanes };

    /// The kind of all that are made.
    ghost kind: { PipeKind };

    /// The lane of an end from which it takes.
    ghost lane_from: { Self.From → LaneId };

    /// The lane of an end through which it sends.
    ghost lane_to: { Self.To → LaneId };

    /// The task between two ends.
    fn join(
        alloc: Global,
        board: &mut B,
        from: Self::From,
        to: Self::To,
    ) -> Result<Self::Made, Fault>
        requires may_join { may_join (B.id board.old) from to }
        ensures can_step { IfOk result (can_step (B.id board.old)) }
        ensures lanes { IfOk result (λ task. lanes task ≡ passing_task kind (B.id board.old).lane_table (lane_from from) (lane_to to)) }
        ensures out_of_memory { IsOkUnless result OutOfMemory }
        ensures same_waiting { SameWaiting (B.waits_at board.old) (B.waits_at board.new) }
        ensures same_board { B.id board.new ≡ B.id board.old };
}

/// A task between each pair of ends, in order.
pub fn join_each<B: Board, C: JoinsEnds<B>>(
    alloc: Global,
    board: &mut B,
    froms: Vec<C::From>,
    tos: Vec<C::To>,
) -> Result<Vec<C::Made>, Fault>
    requires may_join { MayJoin (C.may_join (B.id board.old)) froms.items tos.items }
    ensures can_step { (id : BoardId) → id ≡ B.id board.old → IfOk result (λ tasks. All (C.can_step id) tasks.items) }
    ensures lanes { IfOk result (λ tasks. map (λ task. Some (C.lanes task)) tasks.items ≡ tasks_by_pairs C.kind (B.id board.old).lane_table (map C.lane_from froms.items) (map C.lane_to tos.items)) }
    ensures out_of_memory { IsOkUnless result OutOfMemory }
    ensures same_waiting { SameWaiting (B.waits_at board.old) (B.waits_at board.new) }
    ensures same_board { B.id board.new ≡ B.id board.old }
{
    let mut others = tos.into_iter();
    let mut tasks = Vec::new(alloc);
    'pairs: for from in froms {
        let Some(to) = others.next() else {
            unreachable!()
        };
        tasks.push(C::join(alloc, board, from, to)?)?;
    }
    Ok(tasks)
}

impl<L: Tokens + Lanes<Load<<L as Tokens>::Token, J>>, J: LoadJob<<L as Tokens>::Token>> JoinsEnds<
    L::Board,
> for Inserting<L, J> {
    ghost use Rattle.std.specs.Prelude.{[]};
    ghost use Rattle.morsel_lane_pipe.specs.Tasks.{HoldsTokensOf};
    ghost use Rattle.morsel_ports.specs.Between.{InsertingKind, lanes_of_work};

    type From = L::Receiver;

    type To = Inserter<LoadOf<L, J>, L>;

    type Made = Inserting<L, J>;

    ghost may_join = { λ id from to. (L.Receiver.home from ≡ id.lane_table) × (L.Sender.home to.sender ≡ id.lane_table) × (L.Sender.job to.sender ≡ L.Receiver.job from)
        × (L.Receiver.taken from ≡ []) × (L.Sender.sent to.sender ≡ []) × HoldsTokensOf J.holds L.token_home (L.Receiver.job from) id.group_table };

    ghost can_step = { λ id task. ⟦<Inserting<L, J> as Stepwise<L::Board>>⟧.can_step id task };

    ghost lanes = { λ task. lanes_of_work InsertingKind (⟦<Inserting<L, J> as Stepwise<L::Board>>⟧.seen task) };

    ghost kind = { InsertingKind };

    ghost lane_from = { λ from. L.Receiver.lane from };

    ghost lane_to = { λ to. L.Sender.lane to.sender };

    fn join(
        alloc: Global,
        _board: &mut L::Board,
        from: L::Receiver,
        to: Inserter<LoadOf<L, J>, L>,
    ) -> Result<Inserting<L, J>, Fault> {
        Inserting::new(alloc, from, to)
    }
}

impl<L: Tokens + Lanes<Load<<L as Tokens>::Token, J>>, J: LoadJob<<L as Tokens>::Token>> JoinsEnds<
    L::Board,
> for HandingOn<L, J> {
    ghost use Rattle.std.specs.Prelude.{[]};
    ghost use Rattle.morsel_lane_pipe.specs.Tasks.{HoldsTokensOf};
    ghost use Rattle.morsel_ports.specs.Between.{HandingOnKind, lanes_of_work};

    type From = L::Receiver;

    type To = L::Sender;

    type Made = HandingOn<L, J>;

    ghost may_join = { λ id from to. (L.Receiver.home from ≡ id.lane_table) × (L.Sender.home to ≡ id.lane_table) × (L.Sender.job to ≡ L.Receiver.job from)
        × (L.Receiver.taken from ≡ []) × (L.Sender.sent to ≡ []) × HoldsTokensOf J.holds L.token_home (L.Receiver.job from) id.group_table };

    ghost can_step = { λ id task. ⟦<HandingOn<L, J> as Stepwise<L::Board>>⟧.can_step id task };

    ghost lanes = { λ task. lanes_of_work HandingOnKind (⟦<HandingOn<L, J> as Stepwise<L::Board>>⟧.seen task) };

    ghost kind = { HandingOnKind };

    ghost lane_from = { λ from. L.Receiver.lane from };

    ghost lane_to = { λ to. L.Sender.lane to };

    fn join(
        alloc: Global,
        board: &mut L::Board,
        from: L::Receiver,
        to: L::Sender,
    ) -> Result<HandingOn<L, J>, Fault> {
        HandingOn::new(alloc, board, from, to)
    }
}
