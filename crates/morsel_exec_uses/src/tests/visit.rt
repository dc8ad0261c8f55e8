//! Each state that two tasks and two ends reach from the opening, and each event tried there: the machine answers as
//! a plain table does, and no task is lost.
ghost use Rattle.std.specs.Prelude.{◌<◌};

use morsel_exec::machine::{Event, Sched, TaskAt};
use morsel_meaning::{Fault, TaskNo};
use std::alloc::{AllocError, Global};
use std::test::Fail;

/// A state in plain words; a registered 0 is nobody.
#[derive(Clone, Copy, PartialEq, Eq)]
struct Plain {
    tasks: [Option<TaskAt>; 2],
    ready: [bool; 2],
    registered: [u32; 2],
    woken: [bool; 2],
}

/// A state that was reached, by an event from the state at a place.
#[derive(Clone, Copy)]
struct Reached {
    plain: Plain,
    from: usize,
    by: Event,
}

const OPENING: Plain = Plain {
    tasks: [None; 2],
    ready: [false; 2],
    registered: [0; 2],
    woken: [false; 2],
};

/// The place of a number of 1 and 2.
fn place_of(task: TaskNo) -> usize
    ensures { result < 2 }
{
    if task.0 == 1 { 0 } else { 1 }
}

fn place_of_end(end: u32) -> usize
    ensures { result < 2 }
{
    if end == 0 { 0 } else { 1 }
}

impl Plain {
    fn at(&self, task: TaskNo) -> Option<TaskAt> {
        self.tasks[place_of(task)]
    }

    fn stand(&mut self, task: TaskNo, at: TaskAt) {
        self.tasks[place_of(task)] = Some(at);
    }

    fn is_polled(&self, task: TaskNo) -> bool {
        let at = self.at(task);
        at == Some(TaskAt::Polling) || at == Some(TaskAt::Notified)
    }

    fn is_live(&self, task: TaskNo) -> bool {
        let at = self.at(task);
        at != None && at != Some(TaskAt::Finished) && at != Some(TaskAt::Cancelled)
    }

    fn is_waiting(&self, task: TaskNo) -> bool {
        (self.registered[0] == task.0 && !self.ready[0])
            || (self.registered[1] == task.0 && !self.ready[1])
            || self.woken[place_of(task)]
    }

    fn allows(&self, event: Event) -> bool {
        match event {
            Event::Spawn(task) => self.at(task) == None,
            Event::Take(task) => self.at(task) == Some(TaskAt::Queued),
            Event::Register(task, end) => {
                let there = self.registered[place_of_end(end)];
                let free = there == 0 || there == task.0 || !self.is_live(TaskNo(there));
                self.is_polled(task) && !self.ready[place_of_end(end)] && free
            }
            Event::Pend(task) => match self.at(task) {
                Some(TaskAt::Notified) => true,
                Some(TaskAt::Polling) => self.is_waiting(task),
                _ => false,
            },
            Event::EndTurn(task) => {
                let at = self.at(task);
                at == Some(TaskAt::PolledPending) || at == Some(TaskAt::Notified)
            }
            Event::Finish(task) => self.is_polled(task),
            Event::Cancel(task) => self.is_live(task),
            Event::MakeReady(end) => !self.ready[place_of_end(end)],
            Event::Spend(end) => self.ready[place_of_end(end)],
            Event::Wake(task) => { self.at(task) != None && !self.woken[place_of(task)] }
            Event::DeliverWake(task) => self.woken[place_of(task)],
        }
    }

    fn after(mut self, event: Event) -> Plain {
        match event {
            Event::Spawn(task) => self.stand(task, TaskAt::Queued),
            Event::Take(task) => self.stand(task, TaskAt::Polling),
            Event::Register(task, end) => self.registered[place_of_end(end)] = task.0,
            Event::Pend(task) => {
                if self.at(task) == Some(TaskAt::Polling) {
                    self.stand(task, TaskAt::PolledPending);
                }
            }
            Event::EndTurn(task) => {
                let notified = self.at(task) == Some(TaskAt::Notified);
                self.stand(
                    task,
                    if notified {
                        TaskAt::Queued
                    } else {
                        TaskAt::Idle
                    },
                );
            }
            Event::Finish(task) => self.stand(task, TaskAt::Finished),
            Event::Cancel(task) => self.stand(task, TaskAt::Cancelled),
            Event::MakeReady(end) => {
                let there = self.registered[place_of_end(end)];
                self.ready[place_of_end(end)] = true;
                self.registered[place_of_end(end)] = 0;
                if there != 0 {
                    self.woken[place_of(TaskNo(there))] = true;
                }
            }
            Event::Spend(end) => self.ready[place_of_end(end)] = false,
            Event::Wake(task) => self.woken[place_of(task)] = true,
            Event::DeliverWake(task) => {
                self.woken[place_of(task)] = false;
                match self.at(task) {
                    Some(TaskAt::Idle) => self.stand(task, TaskAt::Queued),
                    Some(TaskAt::Polling) => self.stand(task, TaskAt::Notified),
                    Some(TaskAt::PolledPending) => self.stand(task, TaskAt::Notified),
                    _ => {}
                }
            }
        }
        self
    }

    /// Whether the task is dead, active or waits.
    fn keeps(&self, task: TaskNo) -> bool {
        match self.at(task) {
            Some(TaskAt::Idle) | Some(TaskAt::PolledPending) => self.is_waiting(task),
            _ => true,
        }
    }

    fn loses_none(&self) -> bool {
        let alone = (!self.ready[0] || self.registered[0] == 0)
            && (!self.ready[1] || self.registered[1] == 0);
        self.keeps(TaskNo(1)) && self.keeps(TaskNo(2)) && alone
    }
}

/// Each event of two tasks and two ends.
fn all_events(alloc: Global) -> Result<Vec<Event>, AllocError> {
    let mut events = Vec::new(alloc);
    for number in 1..3 {
        let task = TaskNo(number);
        events.push(Event::Spawn(task))?;
        events.push(Event::Take(task))?;
        events.push(Event::Register(task, 0))?;
        events.push(Event::Register(task, 1))?;
        events.push(Event::Pend(task))?;
        events.push(Event::EndTurn(task))?;
        events.push(Event::Finish(task))?;
        events.push(Event::Cancel(task))?;
        events.push(Event::MakeReady(number - 1))?;
        events.push(Event::Spend(number - 1))?;
        events.push(Event::Wake(task))?;
        events.push(Event::DeliverWake(task))?;
    }
    Ok(events)
}

/// A machine that went the way to a state.
fn machine_at(alloc: Global, reached: &Vec<Reached>, at: usize) -> Result<Sched, Fault> {
    let mut way = Vec::new(alloc);
    let mut at = at;
    for _ in 0..reached.len() {
        match reached.get(at) {
            Some(there) if at != 0 => {
                way.push(there.by)?;
                at = there.from;
            }
            _ => break,
        }
    }
    let mut sched = Sched::new(alloc, 2, 2)?;
    for event in way.iter().rev() {
        sched.step(*event);
    }
    Ok(sched)
}

/// Where the machine says that a task stands.
fn stands(sched: &Sched, task: TaskNo) -> Option<TaskAt> {
    if sched.is_spawned(task) {
        Some(sched.at(task))
    } else {
        None
    }
}

#[test]
fn every_reachable_state_answers_as_its_table(rt: HostRuntime) -> Result<(), Fail> {
    let alloc = rt.alloc();
    let events = all_events(alloc)?;
    let mut reached = Vec::new(alloc);
    reached.push(Reached {
        plain: OPENING,
        from: 0,
        by: Event::Spawn(TaskNo(0)),
    })?;
    for at in 0..4096usize {
        if at >= reached.len() {
            break;
        }
        let here = reached[at].plain;
        for event in &events {
            let mut sched = machine_at(alloc, &reached, at)?;
            let allowed = here.allows(*event);
            let after = if allowed { here.after(*event) } else { here };
            assert_eq!(rt; sched.step(*event), allowed, "{event:?}");
            assert_eq!(rt; stands(&sched, TaskNo(1)), after.tasks[0], "{event:?}");
            assert_eq!(rt; stands(&sched, TaskNo(2)), after.tasks[1], "{event:?}");
            assert!(rt; after.loses_none(), "{event:?}");
            if !reached.iter().any(|there| there.plain == after) {
                reached.push(Reached {
                    plain: after,
                    from: at,
                    by: *event,
                })?;
            }
        }
    }
    assert_eq!(rt; reached.len(), 2888);
    Ok(())
}
