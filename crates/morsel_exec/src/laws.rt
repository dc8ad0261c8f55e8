//! The running word of a task: what each of its four fetches makes of the number that it finds.
//!
//! | Bits | Name | The task |
//! |---|---|---|
//! | 0 | `IDLE` | waits, and is in no queue |
//! | 1 | `SCHEDULED` | is in a queue, once |
//! | 2 | `RUNNING` | is being polled |
//! | 3 | `NOTIFIED` | is being polled, and was woken since |
//! | with 4 | `CANCELLED` | is abandoned when it is next run |
//!
//! | Fetch | Leaves | Hands out the right to schedule the task where it found |
//! |---|---|---|
//! | wake | the word with bit 1 set | `IDLE` |
//! | start | the word with bits 1 and 2 turned; it asks `SCHEDULED` | never |
//! | end of turn | the word with bit 2 clear | `NOTIFIED` |
//! | cancel | the word with bits 1 and 4 set | `IDLE` |
ghost use Rattle.std.specs.Prelude.{◌≡◌};
ghost use Rattle.morsel_exec.specs.Words.{HandsOutOnce, RemembersCancel, RemembersWake, RightsBalance, WakesIdle, Fetch, Wake, Start, Turn, Cancel, fetched, hands_out, phase};

/// The task waits, and is in no queue.
pub const IDLE: u64 = 0;

/// The task is in a queue.
pub const SCHEDULED: u64 = 1;

/// The task is being polled.
pub const RUNNING: u64 = 2;

/// The task is being polled, and was woken since.
pub const NOTIFIED: u64 = 3;

/// The bit of a task that is abandoned when it is next run.
pub const CANCELLED: u64 = 4;

fn phase_of(word: u64) -> u64
    ensures { result ≡ phase word }
{
    word % 4
}

/// A wake: the word that it leaves, and whether it hands out the right to schedule the task.
pub fn after_wake(word: u64) -> (u64, bool)
    ensures word { result.0 ≡ fetched Wake word }
    ensures right { result.1 ≡ hands_out Wake word }
{
    (word | SCHEDULED, phase_of(word) == IDLE)
}

/// The start of a run: the word that it leaves.
pub fn after_start(word: u64) -> u64
    requires scheduled { phase word ≡ 1 }
    ensures { result ≡ fetched Start word }
{
    word ^ NOTIFIED
}

/// The end of a turn: the word that it leaves, and whether it hands out the right to schedule the task.
pub fn after_turn(word: u64) -> (u64, bool)
    ensures word { result.0 ≡ fetched Turn word }
    ensures right { result.1 ≡ hands_out Turn word }
{
    (word & !RUNNING, phase_of(word) == NOTIFIED)
}

/// A cancel: the word that it leaves, and whether it hands out the right to schedule the task.
pub fn after_cancel(word: u64) -> (u64, bool)
    ensures word { result.0 ≡ fetched Cancel word }
    ensures right { result.1 ≡ hands_out Cancel word }
{
    (word | (CANCELLED | SCHEDULED), phase_of(word) == IDLE)
}

/// A wake of an idle task gives the one right to schedule it.
pub fn a_wake_of_an_idle_task_gives_the_right()
    ensures { WakesIdle }
{}

/// A wake of a running task is remembered by the end of its turn.
pub fn a_wake_of_a_running_task_is_remembered()
    ensures { RemembersWake }
{}

/// A cancel is never forgotten.
pub fn a_cancel_is_never_forgotten()
    ensures { RemembersCancel }
{}

/// No two fetches both hand out the right without a start between them, and none is lost: from the word 0 the right
/// is handed out once for each start, and once more where the task is scheduled.
pub fn the_right_is_handed_out_once()
    ensures apart { HandsOutOnce }
    ensures balance { RightsBalance }
{}
