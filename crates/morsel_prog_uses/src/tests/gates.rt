//! A gate notes the tasks of a run.
use super::commands::{ROWS, SCANNED_TEXT};
use super::runs::{TWO, counted_in, read};
use super::{LOCAL, makes, outside_of};
use morsel_meaning::TaskNo;
use morsel_outside::{Gate, MemIo};
use std::alloc::Global;
use std::marker::Brand;
use std::mem::drop;
use std::process::Abort;
use std::sync::atomic::{AtomicU64, Ordering};
use std::sync::ledger::Blank;

/// A gate that notes which tasks entered and which left, a bit for each, how many polls there were, and in how many sweeps.
#[derive(Drop)]
pub struct NotingGate {
    entered: AtomicU64,
    left: AtomicU64,
    polls: AtomicU64,
    sweeps: AtomicU64,
    // The number of the task that entered last.
    last: AtomicU64,
}

impl NotingGate {
    pub fn new() -> NotingGate {
        NotingGate {
            entered: AtomicU64::new(0),
            left: AtomicU64::new(0),
            polls: AtomicU64::new(0),
            sweeps: AtomicU64::new(0),
            last: AtomicU64::new(u64::MAX),
        }
    }

    /// In how many sweeps a task was polled.
    pub fn sweeps(&self) -> u64 {
        self.sweeps.load(Ordering::Relaxed)
    }

    /// How many polls there were.
    pub fn polls(&self) -> u64 {
        self.polls.load(Ordering::Relaxed)
    }

    /// Whether each task that entered left.
    pub fn all_left(&self) -> bool {
        self.left.load(Ordering::Relaxed) == self.entered.load(Ordering::Relaxed)
    }
}

/// The bit of a task's number.
fn bit(task: TaskNo) -> u64 {
    1 << (task.0 % 64)
}

impl Gate for NotingGate {
    fn enter(&self, task: TaskNo) {
        self.entered.fetch_or(bit(task), Ordering::Relaxed);
        self.polls.fetch_add(1, Ordering::Relaxed);
        // A sweep polls each task once at most, in order of number.
        let number = u64::from(task.0);
        if number <= self.last.swap(number, Ordering::Relaxed) {
            self.sweeps.fetch_add(1, Ordering::Relaxed);
        }
    }

    fn left(&self, task: TaskNo) {
        self.left.fetch_or(bit(task), Ordering::Relaxed);
    }
}

/// A run: with how many units of each node, over which bytes, and how many rows it gives, with their text.
#[derive(Clone, Copy)]
struct Noted<'a> {
    pipelines: u32,
    bytes: &'a [u8],
    rows: u64,
    text: &'a str,
}

/// The gate after a run of the query.
fn after_run(rt: &impl Abort, alloc: Global, run: Noted<'_>) -> NotingGate {
    let gate = NotingGate::new();
    let mut io = outside_of(rt, alloc, LOCAL, run.bytes, b"");
    let (query, options) = read(alloc, TWO.as_bytes()).expect(rt, "a query");
    assert!(rt; run.pipelines >= 1);
    assert!(rt; run.pipelines <= 100);
    let answer = counted_in::<MemIo, NotingGate, Brand>(
        alloc,
        &mut io,
        query,
        &options,
        run.pipelines,
        &gate,
        Blank::new(1),
    );
    assert_eq!(rt; answer, Ok(run.rows));
    makes(rt, &io, run.text);
    drop(io);
    gate
}

/// The two rows, with one unit of each node.
const TWO_ROWS: Noted<'static> = Noted {
    pipelines: 1,
    bytes: ROWS,
    rows: 2,
    text: SCANNED_TEXT,
};

/// The source and the sink have a task each, and the pipes before and behind them two each; each is polled more than once.
#[test]
fn six_tasks_pass_the_gate(rt: HostRuntime) {
    let gate = after_run(&rt, rt.alloc(), TWO_ROWS);
    assert_eq!(rt; gate.entered.load(Ordering::Relaxed).count_ones(), 6);
    assert!(rt; gate.all_left());
    assert!(rt; gate.polls() >= 12);
}

/// Nine rows.
const NINE_ROWS: Noted<'static> = Noted {
    pipelines: 1,
    bytes: b"id,name\n1,a\n2,b\n3,\n4,d\n5,e\n6,\n7,g\n8,h\n9,i",
    rows: 9,
    text: "{\"id\":1,\"name\":\"a\"}\n{\"id\":2,\"name\":\"b\"}\n{\"id\":3,\"name\":null}\n\
           {\"id\":4,\"name\":\"d\"}\n{\"id\":5,\"name\":\"e\"}\n{\"id\":6,\"name\":null}\n\
           {\"id\":7,\"name\":\"g\"}\n{\"id\":8,\"name\":\"h\"}\n{\"id\":9,\"name\":\"i\"}\n",
};

/// A source and a sink with so many tasks each, and one more than that for each of the two pipes, write the rows in their order.
#[test]
fn any_number_of_pipelines_writes_the_same_text(rt: HostRuntime) {
    for pipelines in [1, 2, 3, 7] {
        let run = Noted {
            pipelines,
            ..NINE_ROWS
        };
        let gate = after_run(&rt, rt.alloc(), run);
        assert_eq!(rt;
            u64::from(gate.entered.load(Ordering::Relaxed).count_ones()),
            u64::from(pipelines) * 4 + 2
        );
    }
}

/// Files without rows, and those of the other tests.
const RUNS: &[Noted<'static>] = &[
    Noted {
        bytes: b"",
        rows: 0,
        text: "",
        ..TWO_ROWS
    },
    Noted {
        bytes: b"id,name\n",
        rows: 0,
        text: "",
        ..TWO_ROWS
    },
    Noted {
        bytes: b"id,name\n2,\n",
        rows: 1,
        text: "{\"id\":2,\"name\":null}\n",
        ..TWO_ROWS
    },
    TWO_ROWS,
    NINE_ROWS,
];

/// At most 16 sweeps for each byte, and 16 more, where the bound is 1,024; and fewer in all than may go by in a row without a
/// byte that is given or written. So no run comes near what keeps the bound.
#[test]
fn few_sweeps_are_made_for_each_byte(rt: HostRuntime) {
    for run in RUNS {
        let gate = after_run(&rt, rt.alloc(), *run);
        let sweeps = gate.sweeps();
        let most = (run.bytes.len() as u64)
            .saturating_add(1)
            .saturating_mul(16);
        assert!(rt; sweeps <= most);
        assert!(rt; sweeps < 512);
    }
}
