//! One task of those that run on one thread: what was spawned, and how far it is.
ghost use Rattle.std.specs.Prelude.{◌≡◌, ◌+◌, ◌≤◌, ◌<◌, ℕ, [], ◌∷◌, All, IfSome, OnSome, length};
ghost use Rattle.morsel_local.specs.Sweeps.{AreAbandoned, AreSwept, IsAbandonedAt, IsKept, IsTurn, all_woken, changed, count_ended, ended_in, output_at, task_output, spawned_bodies, taken_out, woken};
ghost use Rattle.morsel_local.specs.declared.local_task.LocalAt.TheVariants.{Taken};

use crate::spawned::Spawned;
use morsel_meaning::TaskNo;
use morsel_outside::Gate;
use morsel_prims::{Board, Cx, Poll, Task, Wakes};

/// The number of the caller.
pub const CALLER: TaskNo = TaskNo(0);

/// The most tasks that run on one thread.
pub const MOST_TASKS: u32 = 16_777_216;

/// How far a task is.
#[derive(Drop)]
pub enum LocalAt<T, O> {
    /// It has not ended: whether the next sweep polls it, and its body.
    Unfinished(bool, T),
    /// What it ended with.
    Ended(O),
    /// What it ended with was taken out.
    Taken,
}

/// A task, from its spawn on.
#[derive(Drop)]
pub struct LocalTask<T, O> {
    /// What was spawned.
    pub spawned: Spawned<T>,
    /// How far it is.
    pub at: LocalAt<T, O>,
}

impl<T, O> LocalTask<T, O> {
    ghost use Rattle.std.specs.Prelude.{◌≡◌, true};
    ghost use Rattle.morsel_local.specs.Sweeps.{new_task};

    /// A task that the next sweep polls.
    pub fn new(body: T) -> LocalTask<T, O>
        ensures new { result ≡ new_task body }
    {
        LocalTask {
            spawned: Spawned::of(&body),
            at: LocalAt::Unfinished(true, body),
        }
    }

    /// The next sweep polls the task, if it has not ended.
    pub fn wake(&mut self)
        ensures woken { self.new ≡ woken self.old }
    {
        if let LocalAt::Unfinished(queued, _) = &mut self.at {
            *queued = true;
        }
    }

    /// What the task ended with, once.
    pub fn take_out(&mut self) -> Option<O>
    where
        O: Drop,
        T: Drop,
        ensures value { result ≡ task_output self.old }
        ensures taken { self.new ≡ taken_out self.old }
    {
        match std::mem::replace(&mut self.at, LocalAt::Taken) {
            LocalAt::Ended(out) => Some(out),
            other => {
                self.at = other;
                None
            }
        }
    }
}

/// Polls the task if it is queued, and answers how many ended: 1 or 0.
pub fn turn<T: Task<B> + Drop, B: Board, G: Gate>(
    task: &mut LocalTask<T, T::Out>,
    number: TaskNo,
    cx: &mut Cx<B>,
    gate: &G,
) -> u32
    requires kept { IsKept T.Task (B.id cx.old.board) task.old }
    ensures turn { IsTurn T.Task B.Board number.0 task.old task.new cx.old cx.new }
    ensures kept { IsKept T.Task (B.id cx.old.board) task.new }
    ensures spawned { task.new.spawned ≡ task.old.spawned }
    ensures ended { ended_in task.new ≡ ended_in task.old + result }
    ensures at_most { result ≤ 1 }
    ensures same_board { B.id cx.new.board ≡ B.id cx.old.board }
{
    let LocalAt::Unfinished(queued, body) = &mut task.at else {
        return 0;
    };
    if !*queued {
        return 0;
    }
    *queued = false;
    cx.me = number;
    gate.enter(number);
    let answer = body.poll(cx);
    gate.left(number);
    cx.me = CALLER;
    match answer {
        Poll::Pending => 0,
        Poll::Ready(out) => {
            task.at = LocalAt::Ended(out);
            1
        }
    }
}

/// The tasks of these numbers are queued, where they have not ended.
pub fn deliver<T, O>(tasks: &mut [LocalTask<T, O>], wakes: &mut Wakes)
    ensures woken { tasks.new ≡ all_woken wakes.old.numbers tasks.old }
    ensures len { length tasks.new ≡ length tasks.old }
    ensures empty { wakes.new ≡ record wakes.old { numbers = [] } }
{
    while let Some(number) = wakes.pop() {
        wake(tasks, number);
    }
}

/// The task of this number is queued, where it has not ended.
fn wake<T, O>(tasks: &mut [LocalTask<T, O>], number: TaskNo)
    ensures woken { tasks.new ≡ changed woken number.0 tasks.old }
{
    if number.0 == 0 {
        return;
    }
    let at = number.0 as usize - 1;
    if at < tasks.len() {
        tasks[at].wake();
    }
}

/// What the task of this number ended with, once.
pub fn take_at<T: Drop, O: Drop>(tasks: &mut [LocalTask<T, O>], number: TaskNo) -> Option<O>
    ensures value { result ≡ output_at tasks.old number.0 }
    ensures taken { tasks.new ≡ changed taken_out number.0 tasks.old }
{
    if number.0 == 0 {
        return None;
    }
    let at = number.0 as usize - 1;
    if tasks.len() <= at {
        return None;
    }
    tasks[at].take_out()
}

/// Polls each queued task once, in order of number, and answers how many ended.
pub fn sweep_tasks<T: Task<B> + Drop, B: Board, G: Gate>(
    tasks: &mut [LocalTask<T, T::Out>],
    cx: &mut Cx<B>,
    gate: &G,
) -> u32
    requires few { length tasks.old ≤ 16777216 }
    requires kept { All (IsKept T.Task (B.id cx.old.board)) tasks.old }
    ensures swept { AreSwept T.Task B.Board 1 tasks.old tasks.new cx.old cx.new }
    ensures kept { All (IsKept T.Task (B.id cx.old.board)) tasks.new }
    ensures len { length tasks.new ≡ length tasks.old }
    ensures spawned { spawned_bodies tasks.new ≡ spawned_bodies tasks.old }
    ensures ended { count_ended tasks.new ≡ count_ended tasks.old + result }
    ensures same_board { B.id cx.new.board ≡ B.id cx.old.board }
{
    let mut ended = 0;
    for at in 0..tasks.len() {
        ended += turn(&mut tasks[at], TaskNo(at as u32 + 1), cx, gate);
    }
    ended
}

/// Abandons each task that has not ended, in order of number.
pub fn abandon_tasks<T: Task<B> + Drop, B: Board>(
    tasks: &mut [LocalTask<T, T::Out>],
    cx: &mut Cx<B>,
)
    requires kept { All (IsKept T.Task (B.id cx.old.board)) tasks.old }
    ensures abandoned { AreAbandoned T.Task B.Board tasks.old cx.old cx.new }
{
    for at in 0..tasks.len() {
        abandon_task(&mut tasks[at], cx);
    }
}

/// Abandons the task if it has not ended.
fn abandon_task<T: Task<B> + Drop, B: Board>(task: &mut LocalTask<T, T::Out>, cx: &mut Cx<B>)
    requires kept { IsKept T.Task (B.id cx.old.board) task.old }
    ensures abandoned { IsAbandonedAt T.Task B.Board task.old.at cx.old cx.new }
    ensures taken { task.new.at ≡ Taken }
    ensures same_board { B.id cx.new.board ≡ B.id cx.old.board }
{
    match std::mem::replace(&mut task.at, LocalAt::Taken) {
        LocalAt::Unfinished(_queued, body) => body.abandon(cx),
        LocalAt::Ended(_out) => {}
        LocalAt::Taken => {}
    }
}
