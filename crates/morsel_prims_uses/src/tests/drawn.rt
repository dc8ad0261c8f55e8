//! Lists of calls, drawn at random, on a lane of one thread and on a plain queue.
use super::line_of;
use crate::number::Number;
use crate::tests::line::{Closed, Line, RECEIVING, SENDING, Shut};
use morsel_meaning::{Fault, TaskNo};
use morsel_prims::{Ended, Lanes, Poll, RecvError, SendError, Tokens};
use rand_core::{Rng, SeedableRng};
use rand_xoshiro::Xoshiro256PlusPlus;
use std::alloc::Global;
use std::test::Fail;

/// A lane in plain words.
#[derive(Drop)]
struct Plain {
    numbers: Vec<u64>,
    room: usize,
    ended: Option<Ended>,
    shut: bool,
    sending: Option<TaskNo>,
    receiving: Option<TaskNo>,
    woken: Option<TaskNo>,
}

impl Plain {
    fn new(alloc: Global, room: usize) -> Result<Plain, Fault> {
        Ok(Plain {
            numbers: Vec::with_capacity(alloc, 8)?,
            room,
            ended: None,
            shut: false,
            sending: None,
            receiving: None,
            woken: None,
        })
    }

    fn try_send(&mut self, number: u64) -> Result<(), SendError<Number>> {
        if self.shut {
            return Err(SendError::Closed(Number(number)));
        }
        if self.numbers.len() >= self.room || self.numbers.push(number).is_err() {
            return Err(SendError::Full(Number(number)));
        }
        self.woken = self.receiving.take();
        Ok(())
    }

    /// What it answers, and what is then held.
    fn poll_send(&mut self, number: u64) -> (Poll<Result<(), Number>>, Option<Number>) {
        match self.try_send(number) {
            Ok(()) => (Poll::Ready(Ok(())), None),
            Err(SendError::Closed(number)) => (Poll::Ready(Err(number)), None),
            Err(SendError::Full(number)) => {
                self.sending = Some(SENDING);
                (Poll::Pending, Some(number))
            }
        }
    }

    fn try_recv(&mut self) -> Result<Number, RecvError> {
        if !self.numbers.is_empty() {
            self.woken = self.sending.take();
            return Ok(Number(self.numbers.remove(0)));
        }
        let Some(end) = self.ended else {
            return Err(RecvError::Empty);
        };
        self.woken = self.sending.take();
        Err(if end == Ended::Whole {
            RecvError::Whole
        } else {
            RecvError::Cut
        })
    }

    fn poll_recv(&mut self) -> Poll<Result<Number, Ended>> {
        match self.try_recv() {
            Ok(number) => Poll::Ready(Ok(number)),
            Err(RecvError::Whole) => Poll::Ready(Err(Ended::Whole)),
            Err(RecvError::Cut) => Poll::Ready(Err(Ended::Cut)),
            Err(RecvError::Empty) => {
                self.receiving = Some(RECEIVING);
                Poll::Pending
            }
        }
    }

    fn close(&mut self, end: Ended) {
        self.ended = Some(end);
        self.woken = self.receiving.take();
    }

    fn shut(&mut self) {
        self.shut = true;
        self.woken = self.sending.take();
    }
}

/// What a call answered.
#[derive(Clone, Copy, PartialEq, Eq)]
enum Said {
    Sent(Result<(), SendError<Number>>),
    SentPolled((Poll<Result<(), Number>>, Option<Number>)),
    Taken(Result<Number, RecvError>),
    TakenPolled(Poll<Result<Number, Ended>>),
    Held(usize),
}

/// A call while both ends are open.
fn on_line<L: Tokens + Lanes<Number>>(line: &mut Line<L>, drawn: u32) -> Said {
    let number = u64::from(drawn / 8 % 512);
    match drawn % 8 {
        0 | 1 => Said::Sent(line.try_send(number)),
        2 | 3 => Said::SentPolled(line.poll_send(number)),
        4 => Said::Taken(line.try_recv()),
        5 | 6 => Said::TakenPolled(line.poll_recv()),
        _ => Said::Held(line.len_bound() as usize),
    }
}

/// The same call on a plain queue.
fn on_plain(plain: &mut Plain, drawn: u32) -> Said {
    let number = u64::from(drawn / 8 % 512);
    match drawn % 8 {
        0 | 1 => Said::Sent(plain.try_send(number)),
        2 | 3 => Said::SentPolled(plain.poll_send(number)),
        4 => Said::Taken(plain.try_recv()),
        5 | 6 => Said::TakenPolled(plain.poll_recv()),
        _ => Said::Held(plain.numbers.len()),
    }
}

/// Whether so many calls answer as those on a plain queue, and make the same tasks ready.
fn agree_open<L: Tokens + Lanes<Number>>(
    line: &mut Line<L>,
    plain: &mut Plain,
    rng: &mut Xoshiro256PlusPlus,
) -> bool {
    let mut all = true;
    for _ in 0..32 {
        let drawn = rng.next_u32();
        let same = on_line(line, drawn) == on_plain(plain, drawn);
        let woken = line.woken() == plain.woken.take() && line.woken() == None;
        all = all && same && woken;
    }
    all
}

/// The same after the sender has closed.
fn agree_closed<L: Tokens + Lanes<Number>>(
    mut closed: Closed<L>,
    plain: &mut Plain,
    rng: &mut Xoshiro256PlusPlus,
) -> bool {
    let mut all = closed.woken() == plain.woken.take();
    for _ in 0..8 {
        let same = if rng.next_u32() % 2 == 0 {
            closed.try_recv() == plain.try_recv()
        } else {
            closed.poll_recv() == plain.poll_recv()
        };
        let woken = closed.woken() == plain.woken.take() && closed.woken() == None;
        all = all && same && woken;
    }
    all
}

/// The same after the receiver has closed.
fn agree_shut<L: Tokens + Lanes<Number>>(
    mut shut: Shut<L>,
    plain: &mut Plain,
    rng: &mut Xoshiro256PlusPlus,
) -> bool {
    let mut all = shut.woken() == plain.woken.take();
    for _ in 0..4 {
        let drawn = rng.next_u32();
        let number = u64::from(drawn / 2 % 512);
        let same = if drawn % 2 == 0 {
            shut.try_send(number) == plain.try_send(number)
        } else {
            shut.poll_send(number) == plain.poll_send(number)
        };
        let woken = shut.woken() == plain.woken.take() && shut.woken() == None;
        all = all && same && woken;
    }
    all
}

/// Whether a list of calls answers as on a plain queue, to the end that it draws.
fn agree_all<L: Tokens + Lanes<Number>>(
    mut line: Line<L>,
    plain: &mut Plain,
    rng: &mut Xoshiro256PlusPlus,
) -> bool {
    if !agree_open(&mut line, plain, rng) {
        return false;
    }
    match rng.next_u32() % 3 {
        0 => {
            plain.close(Ended::Whole);
            agree_closed(line.finish(), plain, rng)
        }
        1 => {
            plain.close(Ended::Cut);
            agree_closed(line.cut(), plain, rng)
        }
        _ => {
            plain.shut();
            agree_shut(line.shut(), plain, rng)
        }
    }
}

/// Whether the list of calls that this seed draws answers on a lane of this room as on a plain queue.
fn agrees(alloc: Global, seed: u64, room: u32) -> Result<bool, Fault> {
    let mut rng = Xoshiro256PlusPlus::seed_from_u64(seed);
    let mut plain = Plain::new(alloc, room as usize)?;
    Ok(agree_all(line_of(alloc, room)?, &mut plain, &mut rng))
}

#[test]
fn a_lane_answers_as_a_plain_queue(rt: HostRuntime) -> Result<(), Fail> {
    for seed in 0..1000 {
        for room in [1, 2, 4] {
            assert!(rt; agrees(rt.alloc(), seed, room)?, "seed {seed}, room {room}");
        }
    }
    Ok(())
}
