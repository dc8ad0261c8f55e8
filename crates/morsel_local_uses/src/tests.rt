//! What comes of sweeps over timers.
ghost use Rattle.std.specs.Prelude.{◌≡◌};

use crate::restless::Restless;
use crate::timer::Timer;
use crate::timers::Timers;
use morsel_local::{Local, SpawnError, Steps};
use morsel_meaning::{Fault, TaskNo};
use morsel_outside::OpenGate;
use morsel_prims::{Board, Message, PlainBoard};
use std::alloc::Global;
use std::marker::Brand;
use std::sync::atomic::{AtomicU64, Ordering};
use std::sync::ledger::{Blank, Ledger};
use std::test::Fail;

/// What the lanes of the board carry.
#[derive(Drop)]
struct Carried;

impl Message for Carried {
    ghost use Rattle.std.specs.Prelude.{⊤};

    type Job = ();

    ghost suits = { λ job carried. ⊤ };
}

/// A board with no lanes.
fn board_of(alloc: Global) -> Result<PlainBoard<Carried>, Fault> {
    PlainBoard::new(alloc)
}

/// How many ended in each of four sweeps over one timer, which is woken before the third.
fn swept<Y: Ledger>(alloc: Global, blank: Blank, polls: u32) -> Result<[u32; 4], Fault>
    requires name { blank.name ≡ Y.name }
    requires parts { blank.parts ≡ Y.parts }
    requires one { blank.parts ≡ 1 }
{
    let abandoned = AtomicU64::new(0);
    let mut timers = Timers::<_, Y>::new(alloc, board_of(alloc)?, blank, 1)?;
    let _ = timers.spawn(Timer {
        polls,
        number: 7,
        abandoned: &abandoned,
    });
    let first = timers.sweep();
    let second = timers.sweep();
    timers.wake(TaskNo(1));
    let third = timers.sweep();
    let fourth = timers.sweep();
    Ok([first, second, third, fourth])
}

#[test]
fn a_task_that_is_ready_at_once_ends_in_the_first_sweep(rt: HostRuntime) -> Result<(), Fail> {
    assert_eq!(rt; swept::<Brand>(rt.alloc(), Blank::new(1), 1)?, [1, 0, 0, 0]);
    Ok(())
}

#[test]
fn a_task_that_is_ready_at_its_second_poll_ends_after_a_wake(rt: HostRuntime) -> Result<(), Fail> {
    assert_eq!(rt; swept::<Brand>(rt.alloc(), Blank::new(1), 2)?, [0, 0, 1, 0]);
    Ok(())
}

/// What is answered to two spawns where there is room for one: the first one's number, and the timer that comes back.
fn spawned<Y: Ledger>(alloc: Global, blank: Blank) -> Result<(Option<TaskNo>, Option<u32>), Fault>
    requires name { blank.name ≡ Y.name }
    requires parts { blank.parts ≡ Y.parts }
    requires one { blank.parts ≡ 1 }
{
    let abandoned = AtomicU64::new(0);
    let mut timers = Timers::<_, Y>::new(alloc, board_of(alloc)?, blank, 1)?;
    let first = timers.spawn(Timer {
        polls: 1,
        number: 7,
        abandoned: &abandoned,
    });
    let second = timers.spawn(Timer {
        polls: 1,
        number: 8,
        abandoned: &abandoned,
    });
    let back = match second {
        Ok(_) => None,
        Err(SpawnError::Full(timer)) => Some(timer.number),
    };
    Ok((first.ok(), back))
}

#[test]
fn a_task_beyond_the_capacity_comes_back(rt: HostRuntime) -> Result<(), Fail> {
    assert_eq!(rt;
        spawned::<Brand>(rt.alloc(), Blank::new(1))?,
        (Some(TaskNo(1)), Some(8))
    );
    Ok(())
}

/// What is taken of numbers 0, 1, 1, 2 and 3 after a sweep over a timer that ends, and one that does not.
fn taken<Y: Ledger>(alloc: Global, blank: Blank) -> Result<[Option<u32>; 5], Fault>
    requires name { blank.name ≡ Y.name }
    requires parts { blank.parts ≡ Y.parts }
    requires one { blank.parts ≡ 1 }
{
    let abandoned = AtomicU64::new(0);
    let mut timers = Timers::<_, Y>::new(alloc, board_of(alloc)?, blank, 2)?;
    let _ = timers.spawn(Timer {
        polls: 1,
        number: 7,
        abandoned: &abandoned,
    });
    let _ = timers.spawn(Timer {
        polls: 2,
        number: 8,
        abandoned: &abandoned,
    });
    let _ = timers.sweep();
    let none = timers.take_out(TaskNo(0));
    let first = timers.take_out(TaskNo(1));
    let again = timers.take_out(TaskNo(1));
    let unfinished = timers.take_out(TaskNo(2));
    let unknown = timers.take_out(TaskNo(3));
    Ok([none, first, again, unfinished, unknown])
}

#[test]
fn an_output_is_taken_once_and_by_its_number(rt: HostRuntime) -> Result<(), Fail> {
    assert_eq!(rt;
        taken::<Brand>(rt.alloc(), Blank::new(1))?,
        [None, Some(7), None, None, None]
    );
    Ok(())
}

/// The sum of the numbers that are abandoned after a sweep: 2 ends in it, 30 and 400 do not.
fn abandoned<Y: Ledger>(alloc: Global, blank: Blank) -> Result<u64, Fault>
    requires name { blank.name ≡ Y.name }
    requires parts { blank.parts ≡ Y.parts }
    requires one { blank.parts ≡ 1 }
{
    let abandoned = AtomicU64::new(0);
    let mut timers = Timers::<_, Y>::new(alloc, board_of(alloc)?, blank, 3)?;
    let _ = timers.spawn(Timer {
        polls: 2,
        number: 30,
        abandoned: &abandoned,
    });
    let _ = timers.spawn(Timer {
        polls: 1,
        number: 2,
        abandoned: &abandoned,
    });
    let _ = timers.spawn(Timer {
        polls: 3,
        number: 400,
        abandoned: &abandoned,
    });
    let _ = timers.sweep();
    timers.abandon();
    Ok(abandoned.load(Ordering::Relaxed))
}

#[test]
fn a_task_that_has_not_ended_is_abandoned(rt: HostRuntime) -> Result<(), Fail> {
    assert_eq!(rt; abandoned::<Brand>(rt.alloc(), Blank::new(1))?, 430);
    Ok(())
}

/// A restless task by itself, with the count of its sweeps.
#[derive(Drop)]
struct Alone<'a, B: Board + Drop, Y: Ledger> {
    local: Local<Restless<'a>, B>,
    steps: Steps<Y>,
    ghost board: { B.id local.cx.board ≡ local.home },
}

impl<'a, B: Board + Drop, Y: Ledger> Alone<'a, B, Y> {
    /// The task counts its polls here.
    fn new(
        alloc: Global,
        board: B,
        blank: Blank,
        polls: &'a AtomicU64,
    ) -> Result<Alone<'a, B, Y>, Fault>
        requires name { blank.name ≡ Y.name }
        requires parts { blank.parts ≡ Y.parts }
        requires one { blank.parts ≡ 1 }
    {
        let mut local = Local::new(alloc, 1, board)?;
        let restless = Restless::new(&local.cx().wakes, polls);
        let _ = local.spawn(restless);
        Ok(Alone {
            local,
            steps: Steps::new(blank),
        })
    }

    /// How many tasks end in so many sweeps.
    fn ended_in(&mut self, sweeps: u32) -> u32 {
        let mut ended = 0u32;
        for _ in 0..sweeps {
            ended = ended.saturating_add(self.local.sweep(&OpenGate, &mut self.steps));
        }
        ended
    }
}

/// More sweeps than a run of a query may make in a row without a byte that is given or written.
const MANY_SWEEPS: u32 = 600;

/// How many tasks end in many sweeps over a restless one, how often it is polled in them, and whether it has an output then.
fn restless<Y: Ledger>(alloc: Global, blank: Blank) -> Result<(u32, u64, bool), Fault>
    requires name { blank.name ≡ Y.name }
    requires parts { blank.parts ≡ Y.parts }
    requires one { blank.parts ≡ 1 }
{
    let polls = AtomicU64::new(0);
    let mut alone = Alone::<_, Y>::new(alloc, board_of(alloc)?, blank, &polls)?;
    let ended = alone.ended_in(MANY_SWEEPS);
    let out = alone.local.take_out(TaskNo(1));
    Ok((ended, polls.load(Ordering::Relaxed), out.is_some()))
}

/// A bound on sweeps does not follow from what a task promises.
#[test]
fn a_task_that_wakes_itself_at_each_poll_never_ends(rt: HostRuntime) -> Result<(), Fail> {
    assert_eq!(rt;
        restless::<Brand>(rt.alloc(), Blank::new(1))?,
        (0, 600, false)
    );
    Ok(())
}
