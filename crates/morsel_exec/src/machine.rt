//! The scheduling machine: which events of tasks and ends may follow each other, and what is true after each.
//!
//! A task waits at an **end** until the end is ready, and is then woken. Tasks are numbered from 1, ends from 0; number 0,
//! the caller, is outside the machine.
//!
//! | Event | Allowed where | Change |
//! |---|---|---|
//! | `Spawn(t)` | t was not spawned | Queued |
//! | `Take(t)` | Queued | Polling |
//! | `Register(t, e)` | t Polling or Notified, e not ready, no other live task registered there | t is registered at e |
//! | `Pend(t)` | Notified; or Polling, and registered at an end that is not ready or named by a wake under way | Polling becomes PolledPending |
//! | `EndTurn(t)` | PolledPending or Notified | Idle; from Notified Queued |
//! | `Finish(t)` | Polling or Notified | Finished |
//! | `Cancel(t)` | live: spawned, neither Finished nor Cancelled | Cancelled |
//! | `MakeReady(e)` | e not ready | ready; the registered task leaves e, and a wake of it is under way |
//! | `Spend(e)` | e ready | not ready |
//! | `Wake(t)` | t was spawned, no wake of it is under way | a wake of t is under way |
//! | `DeliverWake(t)` | a wake of t is under way | it is gone; Idle becomes Queued, Polling and PolledPending become Notified |
//!
//! At the opening no task is spawned, no end is ready, nobody is registered, and no wake is under way.
ghost use Rattle.std.specs.Prelude.{◌≡◌, IfOk, IsOkUnless, IsSome, is_some};
ghost use Rattle.morsel_exec.specs.Machine.{FinishesAfterTake, FinishesOnce, Held, NoTaskIsLost, RefusedChangesNothing, allowed, opening, stepped, task_at};

mod steps;

use morsel_meaning::{Fault, TaskNo};
use std::alloc::Global;
use std::marker::Model;
use steps::{QUIET, allows, make, place_of};

/// Where a task stands.
#[derive(Clone, Copy, Debug, PartialEq, Eq)]
pub enum TaskAt {
    /// It waits, and nobody has the right to run it.
    Idle,
    /// The right to run it was handed out.
    Queued,
    /// It is being polled.
    Polling,
    /// Its poll gave no result, and its turn has not ended.
    PolledPending,
    /// It was woken while it was polled, or before its turn ended.
    Notified,
    /// Its poll gave the result.
    Finished,
    /// It is abandoned.
    Cancelled,
}

/// What may happen to a task or to an end; a `u32` is the number of an end.
#[derive(Clone, Copy, Debug, PartialEq, Eq)]
pub enum Event {
    /// The task is new, and handed out.
    Spawn(TaskNo),
    /// A worker begins to poll the task.
    Take(TaskNo),
    /// The task asks to be woken where the end becomes ready.
    Register(TaskNo, u32),
    /// The task's poll gave no result.
    Pend(TaskNo),
    /// The worker leaves the task.
    EndTurn(TaskNo),
    /// The task's poll gave the result.
    Finish(TaskNo),
    /// The task is to be abandoned.
    Cancel(TaskNo),
    /// The end becomes ready.
    MakeReady(u32),
    /// What made the end ready is used up.
    Spend(u32),
    /// A wake of the task begins.
    Wake(TaskNo),
    /// The wake comes to the task.
    DeliverWake(TaskNo),
}

/// Whether an end is ready, and the task that is registered there.
#[derive(Clone, Copy)]
struct End {
    ready: bool,
    waiting: Option<TaskNo>,
}

/// The state of the machine.
#[derive(Drop)]
pub struct Sched {
    tasks: Vec<Option<TaskAt>>,
    ends: Vec<End>,
    wakes: Vec<bool>,
}

impl Model for Sched {
    ghost use Rattle.std.specs.Prelude.{◌≡◌, length};
    ghost use Rattle.morsel_exec.specs.Machine.{State, Sound};

    ghost Value = { State };

    ghost view = { λ s. record { tasks = s.tasks.items; ends = s.ends.items; wakes = s.wakes.items } };

    ghost invariant = { λ s. Sound (record { tasks = s.tasks.items; ends = s.ends.items; wakes = s.wakes.items }) };
}

impl Sched {
    /// The machine at its opening, with tasks numbered from 1 to `tasks` and ends from 0 to `ends` - 1.
    pub fn new(alloc: Global, tasks: u32, ends: u32) -> Result<Sched, Fault>
        ensures ok { IfOk result (λ sched. sched ≡ opening tasks ends) }
        ensures held { IfOk result Held }
        ensures out_of_memory { IsOkUnless result Fault.OutOfMemory }
    {
        let places = tasks as usize + 1;
        Ok(Sched {
            tasks: vec![in alloc; None; places]?,
            ends: vec![in alloc; QUIET; ends as usize]?,
            wakes: vec![in alloc; false; places]?,
        })
    }

    /// Whether the task was spawned.
    pub fn is_spawned(&self, task: TaskNo) -> bool
        ensures { result ≡ is_some (task_at self.now task.0) }
    {
        place_of(&self.tasks, task).is_some()
    }

    /// Where a task that was spawned stands.
    pub fn at(&self, task: TaskNo) -> TaskAt
        requires spawned { IsSome (task_at self.now task.0) }
        ensures { task_at self.now task.0 ≡ Some result }
    {
        place_of(&self.tasks, task).unwrap()
    }

    /// Makes an event where it is allowed, and answers whether it was; one that is not allowed changes nothing.
    pub fn step(&mut self, event: Event) -> bool
        ensures answer { result ≡ allowed event self.old }
        ensures state { self.new ≡ stepped event self.old }
        ensures held { Held self.new }
    {
        if !allows(&self.tasks, &self.ends, &self.wakes, event) {
            return false;
        }
        make(&mut self.tasks, &mut self.ends, &mut self.wakes, event);
        true
    }
}

/// No list of events from the opening loses a task: after each of them `Held` is true.
pub fn no_task_is_lost()
    ensures { NoTaskIsLost }
{}

/// An event that is not allowed changes nothing.
pub fn refused_events_change_nothing()
    ensures { RefusedChangesNothing }
{}

/// In each list of events from the opening a task finishes at most once, and only where it was taken.
pub fn a_task_finishes_once()
    ensures once { FinishesOnce }
    ensures after_a_take { FinishesAfterTake }
{}
