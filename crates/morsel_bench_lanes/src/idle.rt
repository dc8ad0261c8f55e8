//! Tasks of one thread that do nothing: each is woken, and polled by the next sweep.
ghost use Rattle.std.specs.Prelude.{◌≡◌, ◌≤◌, ◌+◌};

use crate::lane::Carried;
use morsel_local::{Local, Steps};
use morsel_meaning::{Fault, TaskNo};
use morsel_outside::OpenGate;
use morsel_prims::{Board, Cx, PlainBoard, Poll, Task};
use morsel_timing::{Best, Timing, now, tell};
use std::alloc::Global;
use std::marker::Brand;
use std::mem::drop;
use std::rt::Clock;
use std::sync::ledger::{Blank, Ledger};

/// How many tasks there are.
const TASKS: u32 = 64;

/// It waits for its caller, who wakes it, and never ends.
#[derive(Drop)]
struct IdleTask;

impl<B: Board> Task<B> for IdleTask {
    ghost use Rattle.std.specs.Prelude.{◌≡◌, ⊤, []};

    type Out = ();

    ghost can_poll = { λ home task. ⊤ };

    ghost gives = { λ task out. ⊤ };

    ghost waits = { λ me board before after. ⊤ };

    ghost wait_places = { λ task. [] };

    ghost has_cut = { λ board task. ⊤ };

    fn poll(&mut self, _cx: &mut Cx<B>) -> Poll<()> {
        Poll::Pending
    }

    fn abandon(self, _cx: &mut Cx<B>) {}
}

/// Tasks that do nothing, with the count of their sweeps.
#[derive(Drop)]
struct IdleTasks<B: Board + Drop, Y: Ledger> {
    local: Local<IdleTask, B>,
    steps: Steps<Y>,
    ghost board: { B.id local.cx.board ≡ local.home },
    ghost room: { local.cx.wakes.bound ≡ 65 },
}

impl<B: Board + Drop, Y: Ledger> IdleTasks<B, Y> {
    /// No tasks, with room for all.
    fn new(alloc: Global, board: B, blank: Blank) -> Result<IdleTasks<B, Y>, Fault>
        requires name { blank.name ≡ Y.name }
        requires parts { blank.parts ≡ Y.parts }
        requires one { blank.parts ≡ 1 }
    {
        Ok(IdleTasks {
            local: Local::new(alloc, TASKS, board)?,
            steps: Steps::new(blank),
        })
    }

    /// Puts a task last, if there is room.
    fn spawn(&mut self) {
        let _ = self.local.spawn(IdleTask);
    }

    /// The next sweep polls the task of this number.
    fn wake(&mut self, task: TaskNo) {
        if task.0 <= TASKS {
            self.local.cx().wakes.push(task);
        }
    }

    /// Polls each task that is queued.
    fn sweep(&mut self) {
        let _ = self.local.sweep(&OpenGate, &mut self.steps);
    }
}

/// Runs the part on so many polls.
pub fn run<R: Clock + Print + AllocGlobal>(
    rt: &R,
    timing: Timing,
    polls: usize,
) -> Result<(), Fault> {
    run_tasks::<R, Brand>(rt, timing, polls, Blank::new(1))
}

/// Puts in as many tasks as there may be.
fn spawn_idle<B: Board + Drop, Y: Ledger>(tasks: &mut IdleTasks<B, Y>) {
    for _ in 0..TASKS {
        tasks.spawn();
    }
}

/// Wakes all tasks and polls them, so many times.
fn poll_all<B: Board + Drop, Y: Ledger>(tasks: &mut IdleTasks<B, Y>, turns: usize) {
    for _ in 0..turns {
        for task in 1..=TASKS {
            tasks.wake(TaskNo(task));
        }
        tasks.sweep();
    }
}

/// Polls all tasks, so many times in each run.
fn time_polls<R: Clock, B: Board + Drop, Y: Ledger>(
    rt: &R,
    timing: Timing,
    turns: usize,
    tasks: &mut IdleTasks<B, Y>,
) -> Result<Best, Fault> {
    let polled = turns.saturating_mul(TASKS as usize);
    let mut best = Best::new();
    for _ in 0..timing.runs {
        let begun = now(rt)?;
        poll_all(tasks, turns);
        best.take_in(rt, begun, polled)?;
    }
    Ok(best)
}

/// Tells how tasks are polled.
fn tell_polls<R: Clock + Print, B: Board + Drop, Y: Ledger>(
    rt: &R,
    timing: Timing,
    polls: usize,
    mut tasks: IdleTasks<B, Y>,
) -> Result<(), Fault> {
    spawn_idle(&mut tasks);
    let best = time_polls(rt, timing, polls / TASKS as usize, &mut tasks);
    drop(tasks);
    tell(
        rt,
        timing,
        "poll of a task that does nothing, polls",
        best?,
        polls,
    )
}

/// Runs the part, with the count of its sweeps.
fn run_tasks<R: Clock + Print + AllocGlobal, Y: Ledger>(
    rt: &R,
    timing: Timing,
    polls: usize,
    blank: Blank,
) -> Result<(), Fault>
    requires name { blank.name ≡ Y.name }
    requires parts { blank.parts ≡ Y.parts }
    requires one { blank.parts ≡ 1 }
{
    let board: PlainBoard<Carried> = PlainBoard::new(rt.alloc())?;
    let tasks: IdleTasks<PlainBoard<Carried>, Y> = IdleTasks::new(rt.alloc(), board, blank)?;
    tell_polls(rt, timing, polls, tasks)
}
