//! What is in the lanes of one thread.
use crate::lane::Message;
use circular_buffer::HeapCircularBuffer;
use morsel_meaning::TaskNo;
use std::marker::Model;
use std::snapshot::Snapshot;

/// A value that suits its job.
#[derive(Drop)]
pub struct Suited<T: Message> {
    value: T,
    job: Snapshot<Snapshot<T::Job>>,
}

impl<T: Message> Model for Suited<T> {
    ghost Value = { T × T.Job };

    ghost view = { λ suited. (suited.value, suited.job.value.value) };

    ghost invariant = { λ suited. T.suits suited.job.value.value suited.value };
}

impl<T: Message> Suited<T> {
    ghost use Rattle.std.specs.Prelude.{◌≡◌};

    /// A value for this job.
    pub fn new(value: T, job: &Snapshot<T::Job>) -> Suited<T>
        requires suits { T.suits job.now.value value }
        ensures same { result ≡ (value, job.now.value) }
    {
        Suited {
            value,
            job: Snapshot::of(job),
        }
    }

    /// The value.
    pub fn into_value(self) -> T
        ensures same { result ≡ self.0 }
        ensures suits { T.suits self.1 result }
    {
        let Suited { value, job: _ } = self;
        value
    }
}

/// What an end of a lane writes down: what the lane is for first, then the values that it sent or took, then how the lane ended.
#[derive(Drop)]
pub enum Mark<V, J> {
    /// What the lane is for, and for how many values it has room.
    Job(Snapshot<J>, u32),
    /// A value.
    Value(V),
    /// The sender has closed, as whole or as cut.
    End(bool),
    /// The receiver has closed.
    Shut,
}

/// A lane of one thread.
#[derive(Drop)]
pub struct PlainLane<V, J> {
    /// What was sent, also that the sender has closed, and not yet taken.
    pub queue: HeapCircularBuffer<Mark<V, J>>,
    /// For how many values the lane has room.
    pub room: u32,
    /// Whether the receiver has closed.
    pub shut: bool,
    /// Who waits for room, or for the receiver to close.
    pub send_waits: Option<TaskNo>,
    /// Who waits for a value, or for the sender to close.
    pub recv_waits: Option<TaskNo>,
}
