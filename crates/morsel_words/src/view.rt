//! What the two ends of a lane between threads know. No value of these is made.
use std::collections::LinkedList;

/// What a step of an end found.
pub enum Found {
    /// The lane was open, and had room.
    Room,
    /// The lane was open and full.
    Full,
    /// The receiver had closed.
    Closed,
    /// The lane was open and empty.
    Empty,
    /// The sender had ended, as whole or as cut, and nothing was left.
    Ended(bool),
    /// Whether there was a value in the lane.
    Held(bool),
    /// The lane was open, and took a value; whether the receiver waited for it.
    Sent(bool),
    /// The value was taken, and the lane had room again; whether the sender waited for it.
    Took(bool),
    /// The end closed; whether the other end waited.
    Closing(bool),
    /// The lane was not ready, and this is the number under which the end waits.
    Waits(u64),
    /// The number under which the other end waited, or 0.
    Waiter(u64),
}

/// Where a sender is.
pub enum Sending {
    /// It is between calls.
    Idle,
    /// It has the slot, and the lane is empty.
    Has,
    /// It has the slot, and has to put back that the receiver has closed.
    Back,
    /// It has closed, as whole or as cut.
    Ended(bool),
}

/// Where a receiver is.
pub enum Taking<T> {
    /// It is between calls.
    Idle,
    /// It has the slot, which had this value.
    Has(T),
    /// It has emptied the lane, and has to put back that the sender has closed so.
    Owes(bool),
    /// It has found that the sender has closed so.
    Done(bool),
    /// It has closed.
    Shut,
}

/// What a sender knows.
pub struct SendSide<T> {
    /// Where it is.
    pub phase: Sending,
    /// What it sent, the first value first.
    pub sent: LinkedList<T>,
    /// The number that it put last into its wait word.
    pub waits: u64,
    /// The last number but 0 that it took out of the receiver's wait word.
    pub took: u64,
}

/// What a receiver knows.
pub struct TakeSide<T> {
    /// Where it is.
    pub phase: Taking<T>,
    /// What it took, the first value first.
    pub taken: LinkedList<T>,
    /// The number that it put last into its wait word.
    pub waits: u64,
    /// The last number but 0 that it took out of the sender's wait word.
    pub took: u64,
}

/// Which end a seat is.
pub enum LanePart {
    /// The sending end.
    Sender,
    /// The receiving end.
    Receiver,
    /// Both ends, before they are parted or after they came together.
    Both,
    /// None.
    Spent,
}

/// What a seat knows.
pub struct LaneView<T, J> {
    /// Which end it is.
    pub part: LanePart,
    /// What it knows as the sender.
    pub sending: SendSide<T>,
    /// What it knows as the receiver.
    pub taking: TakeSide<T>,
    /// What its steps found, the last one first.
    pub found: LinkedList<Found>,
    /// What the lane is for, where the seat is an end.
    pub job: Option<J>,
}
