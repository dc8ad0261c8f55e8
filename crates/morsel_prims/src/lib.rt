//! Lanes, tokens and tasks: what runs on a line of nodes, and what each call promises.
//!
//! A lane has two ends, and a list for each: what was sent, and what was taken. The same tasks run over any lanes
//! whose ends keep `LaneSender` and `LaneReceiver`.
#![tactic(auto)]

mod hand_on;
mod lane;
mod lanes;
mod plain_board;
mod plain_counts;
mod plain_group;
mod plain_item;
mod plain_lanes;
mod plain_queues;
mod plain_receiver;
mod plain_sender;
mod poll;
mod roll;
mod row_view;
mod task;
mod wakes;

pub use hand_on::{HandOn, Handed, settle_two};
pub use lane::{Ended, LaneReceiver, LaneSender, Message, RecvError, SendError};
pub use lanes::{Lanes, Tokens};
pub use morsel_meaning::TaskNo;
pub use plain_board::PlainBoard;
pub use plain_group::{PlainGroup, PlainToken};
pub use plain_lanes::PlainLanes;
pub use plain_receiver::{PlainReceiver, PlainTaken};
pub use plain_sender::{PlainSender, PlainSent};
pub use poll::Poll;
pub use task::{Board, Cx, Task};
pub use wakes::Wakes;
