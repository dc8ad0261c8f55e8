//! A pipe as its tests use it, whatever lanes it is made of.
use morsel_lane_pipe::{PipeOut, Receipts};
use morsel_meaning::Fault;
use morsel_prims::{RecvError, SendError};
use std::alloc::Global;

/// What came of a send.
#[derive(Clone, Copy, Debug, PartialEq, Eq)]
pub enum SendAnswer {
    /// The load was sent.
    Sent,
    /// The lane was full.
    Full,
    /// The receiver had closed.
    Closed,
}

impl SendAnswer {
    /// The answer of a lane.
    pub fn of<T: Drop>(answer: Result<(), SendError<T>>) -> SendAnswer {
        match answer {
            Ok(_) => SendAnswer::Sent,
            Err(refusal) => SendAnswer::of_refusal(refusal),
        }
    }

    /// The answer of a lane that refused a load.
    fn of_refusal<T: Drop>(refusal: SendError<T>) -> SendAnswer {
        match refusal {
            SendError::Full(_) => SendAnswer::Full,
            SendError::Closed(_) => SendAnswer::Closed,
        }
    }
}

/// How many tasks have ended in each way, and how many have not ended; how many receipts those had that ended whole.
#[derive(Clone, Copy, Debug, Default, PartialEq, Eq)]
pub struct Ends {
    /// All loads went on.
    pub whole: u32,
    /// An end was closed or cut.
    pub cut: u32,
    /// Memory was out.
    pub out_of_memory: u32,
    /// It had a fault.
    pub failed: u32,
    /// Not ended.
    pub open: usize,
    /// The receipts of receiving ends.
    pub taken: usize,
    /// The receipts of sending ends.
    pub sent: usize,
}

impl Ends {
    /// One more task has ended so.
    pub fn count<R, S>(&mut self, out: &PipeOut<Receipts<R, S>>) {
        self.open = self.open.saturating_sub(1);
        match out {
            PipeOut::Whole(receipts) => {
                self.whole = self.whole.saturating_add(1);
                self.taken = self.taken.saturating_add(receipts.taken.len());
                self.sent = self.sent.saturating_add(receipts.sent.len());
            }
            PipeOut::Cut => self.cut = self.cut.saturating_add(1),
            PipeOut::OutOfMemory => self.out_of_memory = self.out_of_memory.saturating_add(1),
            PipeOut::Failed(_) => self.failed = self.failed.saturating_add(1),
        }
    }
}

/// A pipe: ends that are open, tasks between them, and at most one load that was taken and is not consumed.
pub trait Piped {
    /// How many sending ends are open.
    fn entries(&self) -> usize;

    /// How many receiving ends are open.
    fn exits(&self) -> usize;

    /// Sends the load of this number through an end that is open.
    fn send(&mut self, alloc: Global, at: usize, number: u32) -> Result<Option<SendAnswer>, Fault>;

    /// Sends the load of this number, with the one token of a new group, through an end that is open.
    fn send_counted(
        &mut self,
        alloc: Global,
        at: usize,
        number: u32,
    ) -> Result<Option<SendAnswer>, Fault>;

    /// Whether the token that was sent last is not released.
    fn is_counted(&mut self) -> bool;

    /// Takes a load through an end that is open.
    fn take(&mut self, at: usize) -> Option<Result<(), RecvError>>;

    /// Releases the token of the load that was taken, and gives the load's number.
    fn consume(&mut self) -> Option<u64>;

    /// Finishes the last sending end that is open.
    fn finish(&mut self);

    /// Cuts the last sending end that is open.
    fn cut(&mut self);

    /// Cuts the last receiving end that is open.
    fn close(&mut self);

    /// Polls one of the tasks that were made ready; whether there was one.
    fn step(&mut self) -> bool;

    /// How its tasks have ended.
    fn ends(&self) -> Ends;
}
