//! A distributor in plain words.
use crate::tests::least::Least;
use crate::tests::spread::full;
use morsel_prims::{RecvError, SendError};
use std::alloc::Global;

/// Which numbers were sent and not taken, in their order, and the last one that each of at most eight lanes gave.
#[derive(Drop)]
pub struct PlainSpread {
    sent: Vec<u64>,
    last: [Option<u64>; 8],
    room: usize,
}

impl PlainSpread {
    /// Nothing was sent. The lanes have this room together.
    pub fn new(alloc: Global, room: usize) -> PlainSpread {
        PlainSpread {
            sent: Vec::new(alloc),
            last: [None; 8],
            room,
        }
    }

    /// How many numbers were sent and not taken.
    pub fn held(&self) -> usize {
        self.sent.len()
    }

    /// Whether a number may have been answered so when it was sent.
    pub fn sends(&mut self, number: u64, answer: Result<(), SendError<Least>>) -> bool {
        if self.sent.len() < self.room {
            answer == Ok(()) && self.sent.push(number).is_ok()
        } else {
            answer == full(number)
        }
    }

    /// Whether a lane may have given this: a number that was sent and not taken, and later than the last that it gave.
    pub fn gives(&mut self, lane: usize, answer: Option<Result<u64, RecvError>>) -> bool {
        match answer {
            Some(Ok(number)) => {
                let taken = take_out(&mut self.sent, number);
                is_later(&mut self.last, lane, number) && taken
            }
            Some(Err(why)) => why == RecvError::Empty || why == RecvError::Whole,
            None => false,
        }
    }
}

/// Takes this number out of those that were sent; whether it was among them.
fn take_out(sent: &mut Vec<u64>, number: u64) -> bool {
    let Some(at) = place_of(sent, number) else {
        return false;
    };
    if at < sent.len() {
        sent.remove(at);
    }
    true
}

/// Where this number is among those that were sent.
fn place_of(sent: &[u64], number: u64) -> Option<usize> {
    for (at, other) in sent.iter().enumerate() {
        if *other == number {
            return Some(at);
        }
    }
    None
}

/// Whether this number is later than the last that the lane gave; keeps it as the last.
fn is_later(last: &mut [Option<u64>], lane: usize, number: u64) -> bool {
    if last.len() <= lane {
        return false;
    }
    let later = match last[lane] {
        Some(before) => before < number,
        None => true,
    };
    last[lane] = Some(number);
    later
}
