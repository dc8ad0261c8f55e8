//! Lanes that are merged, in plain words.
use crate::tests::least::Least;
use crate::tests::merged::item;
use morsel_merge::Got;
use morsel_prims::Poll;
use std::alloc::Global;

/// The numbers that were not given, with their lanes, in the order in which they were sent; how many lanes there are, and how many
/// are open.
#[derive(Drop)]
pub struct PlainMerge {
    numbers: Vec<(usize, u64)>,
    lanes: usize,
    open: usize,
}

impl PlainMerge {
    /// So many lanes, all open.
    pub fn new(alloc: Global, lanes: usize) -> PlainMerge {
        PlainMerge {
            numbers: Vec::new(alloc),
            lanes,
            open: lanes,
        }
    }

    /// Sends a number through a lane that is open; whether it was sent.
    pub fn insert(&mut self, lane: usize, number: u64) -> bool {
        lane < self.open && self.numbers.push((lane, number)).is_ok()
    }

    /// Finishes the last lane that is open.
    pub fn finish(&mut self) {
        self.open = self.open.saturating_sub(1);
    }

    /// Gives the least of the lanes' first numbers, once each open lane has one.
    pub fn get(&mut self) -> Poll<Got<Least>> {
        let Some(least) = least_of(&self.numbers, self.lanes, self.open) else {
            return Poll::Pending;
        };
        match least {
            Some(at) if at < self.numbers.len() => item(self.numbers.remove(at).1),
            _ => Poll::Ready(Got::End),
        }
    }
}

/// The place of the least of the lanes' first numbers, if there is one; `None` where an open lane has no number.
fn least_of(numbers: &[(usize, u64)], lanes: usize, open: usize) -> Option<Option<usize>> {
    let mut best: Option<(usize, u64)> = None;
    for lane in 0..lanes {
        let first = first_of(numbers, lane);
        if first.is_none() && lane < open {
            return None;
        }
        best = lesser(best, first);
    }
    match best {
        Some((at, _)) => Some(Some(at)),
        None => Some(None),
    }
}

/// Where the first number of this lane is, and the number.
fn first_of(numbers: &[(usize, u64)], lane: usize) -> Option<(usize, u64)> {
    for (at, (of, number)) in numbers.iter().enumerate() {
        if *of == lane {
            return Some((at, *number));
        }
    }
    None
}

/// The one of the two that has the lesser number, and the former where they are the same.
fn lesser(best: Option<(usize, u64)>, other: Option<(usize, u64)>) -> Option<(usize, u64)> {
    match (best, other) {
        (Some((_, least)), Some((_, number))) if number < least => other,
        (Some(_), _) => best,
        (None, _) => other,
    }
}
