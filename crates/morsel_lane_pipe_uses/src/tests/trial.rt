//! Loads that are poured through a pipe, and what came out.
use crate::tests::piped::{Ends, Piped, SendAnswer};
use morsel_meaning::Fault;
use morsel_prims::RecvError;
use std::alloc::Global;
use std::ops::Range;

/// Which ends of a pipe are cut.
#[derive(Clone, Copy, Debug, PartialEq, Eq)]
pub enum Side {
    /// The last sending end.
    Sender,
    /// All receiving ends.
    Receivers,
}

/// A pipe, and what came out of it.
#[derive(Drop)]
pub struct Trial<P: Piped + Drop> {
    pipe: P,
    // The receiving end that took a load, and the load's number, in the order in which they were taken.
    came: Vec<(usize, u64)>,
}

impl<P: Piped + Drop> Trial<P> {
    /// Nothing came out.
    pub fn new(alloc: Global, pipe: P) -> Trial<P> {
        Trial {
            pipe,
            came: Vec::new(alloc),
        }
    }

    /// The receiving end that took a load, and the load's number, in the order in which they were taken.
    pub fn came(&self) -> &[(usize, u64)] {
        &self.came
    }

    /// How the tasks have ended.
    pub fn ends(&self) -> Ends {
        self.pipe.ends()
    }

    /// Polls the tasks that were made ready, until none is.
    pub fn run(&mut self) {
        for _ in 0..1000 {
            if !self.pipe.step() {
                return;
            }
        }
    }

    /// Sends the load of this number through an end that is open.
    pub fn send(
        &mut self,
        alloc: Global,
        at: usize,
        number: u32,
    ) -> Result<Option<SendAnswer>, Fault> {
        self.pipe.send(alloc, at, number)
    }

    /// Sends the load of this number, with the one token of a new group, through an end that is open.
    pub fn send_counted(
        &mut self,
        alloc: Global,
        at: usize,
        number: u32,
    ) -> Result<Option<SendAnswer>, Fault> {
        self.pipe.send_counted(alloc, at, number)
    }

    /// Whether the token that was sent last is not released.
    pub fn is_counted(&mut self) -> bool {
        self.pipe.is_counted()
    }

    /// Consumes the load that this end gave, if one did.
    fn consume(&mut self, at: usize) -> Result<(), Fault> {
        if let Some(number) = self.pipe.consume() {
            self.came.push((at, number))?;
        }
        Ok(())
    }

    /// Takes a load through an end that is open, and consumes it: the end's answer.
    pub fn take(&mut self, at: usize) -> Result<Option<Result<(), RecvError>>, Fault> {
        let answer = self.pipe.take(at);
        self.consume(at)?;
        Ok(answer)
    }

    /// Takes a load through an end that is open, lets the tasks go on, and consumes it only then: what the end answered before that.
    pub fn take_late(&mut self, at: usize) -> Result<Option<Result<(), RecvError>>, Fault> {
        if self.pipe.take(at) != Some(Ok(())) {
            return Ok(None);
        }
        self.run();
        let answer = self.pipe.take(at);
        self.consume(at)?;
        Ok(answer)
    }

    /// Lets the tasks go on, and takes all that comes.
    pub fn drain(&mut self) -> Result<(), Fault> {
        for _ in 0..8 {
            self.run();
            for at in 0..self.pipe.exits() {
                self.take(at)?;
            }
        }
        Ok(())
    }

    /// Sends these numbers in turn through the sending ends that are open, and takes all that comes: `Sent`, or the last refusal.
    pub fn pour(&mut self, alloc: Global, numbers: Range<u32>) -> Result<SendAnswer, Fault> {
        let mut answer = SendAnswer::Sent;
        for number in numbers {
            let entries = self.pipe.entries().max(1);
            let sent = self
                .pipe
                .send(alloc, number as usize % entries, number % 16)?;
            if let Some(refusal) = sent
                && refusal != SendAnswer::Sent
            {
                answer = refusal;
            }
            self.drain()?;
        }
        Ok(answer)
    }

    /// Finishes all sending ends, and takes all that comes.
    pub fn end(&mut self) -> Result<(), Fault> {
        for _ in 0..2 {
            self.pipe.finish();
        }
        self.drain()
    }

    /// Cuts these ends, and takes all that comes.
    pub fn cut(&mut self, side: Side) -> Result<(), Fault> {
        match side {
            Side::Sender => self.pipe.cut(),
            Side::Receivers => {
                for _ in 0..2 {
                    self.pipe.close();
                }
            }
        }
        self.drain()
    }

    /// Whether the loads that each receiving end took rise, and the end then answers so.
    pub fn ends_so(&mut self, lasts: &[RecvError]) -> Result<bool, Fault> {
        let mut all = self.pipe.exits() == lasts.len();
        for (at, last) in lasts.iter().enumerate() {
            all = self.take(at)? == Some(Err(*last)) && rise(&self.came, at) && all;
        }
        Ok(all)
    }
}

/// Whether the numbers that this receiving end took rise.
fn rise(came: &[(usize, u64)], at: usize) -> bool {
    let mut least = 0;
    let mut all = true;
    for (end, number) in came {
        if *end == at {
            all = all && least <= *number;
            least = number.saturating_add(1);
        }
    }
    all
}
