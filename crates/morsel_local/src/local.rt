//! Tasks that run on one thread.
//!
//! A task is queued when it is spawned, and when its number is among those that are to be woken. A sweep queues the
//! tasks that are to be woken, and polls each queued task once, in order of number. Whom its polls wake, the next
//! sweep polls.
ghost use Rattle.std.specs.Prelude.{◌≡◌, ◌+◌, ◌≤◌, ◌<◌, [], ◌∷◌, ◌++◌, IfOk, IfErr, OnOk, OnErr, IfSome, length};
ghost use Rattle.std.specs.Borrow.{sem};
ghost use Rattle.morsel_meaning.specs.declared.fault.Fault.TheVariants.{OutOfMemory};
ghost use Rattle.morsel_local.specs.Sweeps.{AreSwept, IfTask, all_woken, changed, count_ended, delivered_cx, new_task, output_at, spawned_bodies, taken_out};
ghost use Rattle.morsel_local.specs.Lent.{LendsCx};
ghost use Rattle.morsel_local.specs.declared.local.SpawnError.TheVariants.{Full};

use crate::local_task::{
    CALLER, LocalTask, MOST_TASKS, abandon_tasks, deliver, sweep_tasks, take_at,
};
use crate::steps::Steps;
use morsel_meaning::{Fault, TaskNo};
use morsel_outside::Gate;
use morsel_prims::{Board, Cx, Task, Wakes};
use std::alloc::Global;
use std::marker::Model;
use std::snapshot::Snapshot;
use std::sync::ledger::Ledger;

/// Why a task was not spawned.
#[derive(Debug, Drop)]
pub enum SpawnError<T> {
    /// As many tasks were spawned as there may be. The task comes back.
    Full(T),
}

/// Tasks that run on one thread, numbered from 1 in the order of their spawns.
#[derive(Drop)]
pub struct Local<T: Task<B> + Drop, B: Board + Drop> {
    tasks: Vec<LocalTask<T, T::Out>>,
    capacity: u32,
    // The board with which it was made.
    home: Snapshot<B>,
    cx: Cx<B>,
}

impl<T: Task<B> + Drop, B: Board + Drop> Model for Local<T, B> {
    ghost use Rattle.std.specs.Prelude.{◌≤◌, All, vec_len, vec_capacity};
    ghost use Rattle.morsel_local.specs.Sweeps.{IsKept, LocalSeen};

    ghost Value = { LocalSeen T B T.Out };

    ghost view = { λ local. record { capacity = local.capacity; home = B.id local.home.value; tasks = local.tasks.items; cx = local.cx } };

    ghost invariant = { λ local. All (IsKept T.Task (B.id local.home.value)) local.tasks.items × (vec_len local.tasks ≤ local.capacity) × (local.capacity ≤ vec_capacity local.tasks) × (local.capacity ≤ 16777216) };
}

impl<T: Task<B> + Drop, B: Board + Drop> Local<T, B> {
    /// No tasks, with room for `capacity`, which work on this board.
    pub fn new(alloc: Global, capacity: u32, board: B) -> Result<Local<T, B>, Fault>
        requires capacity { capacity ≤ 16777216 }
        ensures empty { IfOk result (λ local. local ≡ record { capacity = capacity; home = B.id board; tasks = []; cx = record { me = record { 0 = 0 }; wakes = record { numbers = []; bound = capacity + 1 }; board = board } }) }
        ensures out_of_memory { IfErr result (λ fault. fault ≡ OutOfMemory) }
    {
        Ok(Local {
            tasks: Vec::with_capacity(alloc, capacity as usize)?,
            capacity,
            home: Snapshot::of(&board),
            cx: Cx {
                me: CALLER,
                wakes: Wakes::new(alloc, capacity + 1)?,
                board,
            },
        })
    }

    /// Puts a task last, to be polled by the next sweep.
    pub fn spawn(&mut self, task: T) -> Result<TaskNo, SpawnError<T>>
        requires can_poll { T.can_poll self.old.home task }
        ensures number { IfOk result (λ number. number.0 ≡ length self.old.tasks + 1) }
        ensures ok { OnOk result (self.new ≡ record self.old { tasks = self.old.tasks ++ new_task task ∷ [] }) }
        ensures room { OnOk result (length self.old.tasks < self.old.capacity) }
        ensures full { OnErr result (length self.old.tasks ≡ self.old.capacity) }
        ensures back { IfErr result (λ refused. refused ≡ Full task) }
        ensures err { OnErr result (self.new ≡ self.old) }
    {
        let spawned = self.tasks.len();
        if spawned == self.capacity as usize {
            return Err(SpawnError::Full(task));
        }
        self.tasks.push_reserved(LocalTask::new(task));
        Ok(TaskNo(spawned as u32 + 1))
    }

    /// Polls each queued task once, in order of number, each between the gate's `enter` and `left`, and answers how
    /// many ended.
    ///
    /// While a task is polled, `cx.me` is its number; else it is the caller's, 0.
    pub fn sweep<G: Gate, Y: Ledger>(&mut self, gate: &G, steps: &mut Steps<Y>) -> u32
        requires board { B.id self.old.cx.board ≡ self.old.home }
        ensures swept { AreSwept T.Task B.Board 1 (all_woken self.old.cx.wakes.numbers self.old.tasks) self.new.tasks (delivered_cx self.old.cx) self.new.cx }
        ensures ended { count_ended self.new.tasks ≡ count_ended self.old.tasks + result }
        ensures spawned { spawned_bodies self.new.tasks ≡ spawned_bodies self.old.tasks }
        ensures counted { steps.new ≡ steps.old + 1 }
        ensures same_bound { self.new.cx.wakes.bound ≡ self.old.cx.wakes.bound }
        ensures same_board { B.id self.new.cx.board ≡ B.id self.old.cx.board }
        ensures same_home { self.new.home ≡ self.old.home }
        ensures same_capacity { self.new.capacity ≡ self.old.capacity }
    {
        steps.tick();
        self.cx.me = CALLER;
        deliver(&mut self.tasks, &mut self.cx.wakes);
        sweep_tasks(&mut self.tasks, &mut self.cx, gate)
    }

    /// What the polls work with, between sweeps.
    pub fn cx(&mut self) -> &mut Cx<B>
        ensures* writes_back { sem 𝓛 (LendsCx T.row B.row T.Out.row T.Task B.Board self.entry result) }
        ensures lent { result.now ≡ self.old.cx }
    {
        &mut self.cx
    }

    /// What the task ended with; `None` where it has not ended, or its output was taken.
    pub fn take_out(&mut self, task: TaskNo) -> Option<T::Out>
        ensures value { result ≡ output_at self.old.tasks task.0 }
        ensures taken { self.new ≡ record self.old { tasks = changed taken_out task.0 self.old.tasks } }
        // It is an output that the spawned body may give.
        ensures gives { IfSome result (λ out. IfTask self.old.tasks task.0 (λ spawned. T.gives spawned out)) }
    {
        take_at(&mut self.tasks, task)
    }

    /// Abandons each task that has not ended, in order of number, and drops what the ended ones gave.
    pub fn abandon(self)
        requires board { B.id self.cx.board ≡ self.home }
    {
        let Local {
            mut tasks,
            capacity: _,
            home: _,
            mut cx,
        } = self;
        abandon_tasks(&mut tasks, &mut cx);
    }
}
