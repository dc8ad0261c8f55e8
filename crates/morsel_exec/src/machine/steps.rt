//! The questions and the changes of which the machine's events are made, each on the lists that it reads or writes.
ghost use Rattle.std.specs.Prelude.{◌≡◌, ◌||◌, true, false, [], slice_index_or, slice_set};
ghost use Rattle.std.specs.List.{list_any};
ghost use Rattle.morsel_exec.specs.Machine.{State, after, allowed, delivered, is_awaited_by, is_free, is_live, is_notified, is_open, is_pending, is_polled, is_polling, is_queued, is_task, names, pended, quiet, turned, with_wake};

use super::{End, Event, TaskAt};
use morsel_meaning::TaskNo;

/// An end that is not ready, and where nobody is registered.
pub(super) const QUIET: End = End {
    ready: false,
    waiting: None,
};

/// An end that is ready.
const READY: End = End {
    ready: true,
    waiting: None,
};

/// Whether the event may happen.
pub(super) fn allows(
    tasks: &Vec<Option<TaskAt>>,
    ends: &Vec<End>,
    wakes: &Vec<bool>,
    event: Event,
) -> bool
    ensures { result
        ≡ allowed event (record { tasks = tasks.now.items; ends = ends.now.items; wakes = wakes.now.items }) }
{
    match event {
        Event::Spawn(task) => is_task(tasks, task) && place_of(tasks, task).is_none(),
        Event::Take(task) => is_queued(place_of(tasks, task)),
        Event::Register(task, end) => {
            is_polled(place_of(tasks, task)) && is_open(tasks, ends, end, task)
        }
        Event::Pend(task) => {
            let at = place_of(tasks, task);
            is_notified(at) || (is_polling(at) && is_waiting(ends, wakes, task))
        }
        Event::EndTurn(task) => {
            let at = place_of(tasks, task);
            is_pending(at) || is_notified(at)
        }
        Event::Finish(task) => is_polled(place_of(tasks, task)),
        Event::Cancel(task) => is_live(place_of(tasks, task)),
        Event::MakeReady(end) => (end as usize) < ends.len() && !end_of(ends, end).ready,
        Event::Spend(end) => end_of(ends, end).ready,
        Event::Wake(task) => place_of(tasks, task).is_some() && !is_woken(wakes, task),
        Event::DeliverWake(task) => is_woken(wakes, task),
    }
}

/// Makes an event.
pub(super) fn make(
    tasks: &mut Vec<Option<TaskAt>>,
    ends: &mut Vec<End>,
    wakes: &mut Vec<bool>,
    event: Event,
)
    ensures { let old : State = record { tasks = tasks.old.items; ends = ends.old.items; wakes = wakes.old.items } in
        after event old ≡ record { tasks = tasks.new.items; ends = ends.new.items; wakes = wakes.new.items } }
{
    match event {
        Event::Spawn(task) => put(tasks, task.0, Some(TaskAt::Queued)),
        Event::Take(task) => put(tasks, task.0, Some(TaskAt::Polling)),
        Event::Register(task, end) => {
            let mut asked = QUIET;
            asked.waiting = Some(task);
            put(ends, end, asked);
        }
        Event::Pend(task) => {
            let at = pended(place_of(tasks, task));
            put(tasks, task.0, at);
        }
        Event::EndTurn(task) => {
            let at = turned(place_of(tasks, task));
            put(tasks, task.0, at);
        }
        Event::Finish(task) => put(tasks, task.0, Some(TaskAt::Finished)),
        Event::Cancel(task) => put(tasks, task.0, Some(TaskAt::Cancelled)),
        Event::MakeReady(end) => make_ready(ends, wakes, end),
        Event::Spend(end) => {
            let mut spent = end_of(ends, end);
            spent.ready = false;
            put(ends, end, spent);
        }
        Event::Wake(task) => put(wakes, task.0, true),
        Event::DeliverWake(task) => {
            let at = delivered(place_of(tasks, task));
            put(tasks, task.0, at);
            put(wakes, task.0, false);
        }
    }
}

/// Makes the end ready, and begins a wake of the task that is registered there.
fn make_ready(ends: &mut Vec<End>, wakes: &mut Vec<bool>, end: u32)
    ensures ends { ends.new.items ≡ slice_set ends.old.items end (record { ready = true; waiting = None }) }
    ensures wakes { wakes.new.items ≡ with_wake wakes.old.items (slice_index_or ends.old.items end quiet).waiting }
{
    let waiting = end_of(ends, end).waiting;
    put(ends, end, READY);
    if let Some(task) = waiting {
        put(wakes, task.0, true);
    }
}

/// Writes the item at a place, and nothing where there is no such place.
fn put<T: Drop>(items: &mut Vec<T>, place: u32, item: T)
    ensures { items.new.items ≡ slice_set items.old.items place item }
{
    let place = place as usize;
    if place < items.len() {
        items[place] = item;
    }
}

/// Where the task stands; `None` too where no task has this number.
pub(super) fn place_of(tasks: &Vec<Option<TaskAt>>, task: TaskNo) -> Option<TaskAt>
    ensures { result ≡ slice_index_or tasks.now.items task.0 None }
{
    let place = task.0 as usize;
    if place < tasks.len() {
        tasks[place]
    } else {
        None
    }
}

fn end_of(ends: &Vec<End>, end: u32) -> End
    ensures { result ≡ slice_index_or ends.now.items end quiet }
{
    let place = end as usize;
    if place < ends.len() {
        ends[place]
    } else {
        QUIET
    }
}

fn is_woken(wakes: &Vec<bool>, task: TaskNo) -> bool
    ensures { result ≡ slice_index_or wakes.now.items task.0 false }
{
    let place = task.0 as usize;
    place < wakes.len() && wakes[place]
}

fn is_task(tasks: &Vec<Option<TaskAt>>, task: TaskNo) -> bool
    ensures { result ≡ is_task (record { tasks = tasks.now.items; ends = []; wakes = [] }) task.0 }
{
    0 < task.0 && (task.0 as usize) < tasks.len()
}

/// Whether the end is not ready, and no other live task is registered there.
fn is_open(tasks: &Vec<Option<TaskAt>>, ends: &Vec<End>, end: u32, task: TaskNo) -> bool
    ensures { result ≡ is_open (record { tasks = tasks.now.items; ends = ends.now.items; wakes = [] }) end task.0 }
{
    let at = end_of(ends, end);
    (end as usize) < ends.len() && (!at.ready && is_free(tasks, at.waiting, task))
}

/// Whether no other live task is registered.
fn is_free(tasks: &Vec<Option<TaskAt>>, waiting: Option<TaskNo>, task: TaskNo) -> bool
    ensures { result ≡ is_free tasks.now.items waiting task.0 }
{
    match waiting {
        None => true,
        Some(other) => other.0 == task.0 || !is_live(place_of(tasks, other)),
    }
}

/// Whether the task is registered at an end that is not ready, or a wake of it is under way.
fn is_waiting(ends: &Vec<End>, wakes: &Vec<bool>, task: TaskNo) -> bool
    ensures { result
        ≡ (list_any (λ end. is_awaited_by end task.0) ends.now.items || slice_index_or wakes.now.items task.0 false) }
{
    is_registered(ends, task) || is_woken(wakes, task)
}

fn is_registered(ends: &Vec<End>, task: TaskNo) -> bool
    ensures { result ≡ list_any (λ end. is_awaited_by end task.0) ends.now.items }
{
    ends.iter().any(|end| is_awaited_by(*end, task))
}

fn is_awaited_by(end: End, task: TaskNo) -> bool
    ensures { result ≡ is_awaited_by end task.0 }
{
    !end.ready && names(end.waiting, task)
}

fn names(waiting: Option<TaskNo>, task: TaskNo) -> bool
    ensures { result ≡ names waiting task.0 }
{
    match waiting {
        None => false,
        Some(other) => other.0 == task.0,
    }
}

fn is_queued(at: Option<TaskAt>) -> bool
    ensures { result ≡ is_queued at }
{
    matches!(at, Some(TaskAt::Queued))
}

fn is_polling(at: Option<TaskAt>) -> bool
    ensures { result ≡ is_polling at }
{
    matches!(at, Some(TaskAt::Polling))
}

fn is_pending(at: Option<TaskAt>) -> bool
    ensures { result ≡ is_pending at }
{
    matches!(at, Some(TaskAt::PolledPending))
}

fn is_notified(at: Option<TaskAt>) -> bool
    ensures { result ≡ is_notified at }
{
    matches!(at, Some(TaskAt::Notified))
}

fn is_polled(at: Option<TaskAt>) -> bool
    ensures { result ≡ is_polled at }
{
    is_polling(at) || is_notified(at)
}

fn is_live(at: Option<TaskAt>) -> bool
    ensures { result ≡ is_live at }
{
    match at {
        None | Some(TaskAt::Finished) | Some(TaskAt::Cancelled) => false,
        Some(_) => true,
    }
}

/// Where a task stands after its poll gave no result.
fn pended(at: Option<TaskAt>) -> Option<TaskAt>
    ensures { result ≡ pended at }
{
    match at {
        Some(TaskAt::Polling) => Some(TaskAt::PolledPending),
        _ => at,
    }
}

/// Where a task stands after its turn.
fn turned(at: Option<TaskAt>) -> Option<TaskAt>
    ensures { result ≡ turned at }
{
    match at {
        Some(TaskAt::PolledPending) => Some(TaskAt::Idle),
        Some(TaskAt::Notified) => Some(TaskAt::Queued),
        _ => at,
    }
}

/// Where a task stands after a wake came.
fn delivered(at: Option<TaskAt>) -> Option<TaskAt>
    ensures { result ≡ delivered at }
{
    match at {
        Some(TaskAt::Idle) => Some(TaskAt::Queued),
        Some(TaskAt::Polling | TaskAt::PolledPending) => Some(TaskAt::Notified),
        _ => at,
    }
}
