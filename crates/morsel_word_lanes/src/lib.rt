//! Lanes and groups between threads, as the traits of lanes have them: connectors, and who makes them.
#![tactic(auto)]

mod connect;
mod future;
mod receiver;
mod sender;
mod word_lanes;

pub use connect::connector;
pub use future::{RecvFuture, SendFuture};
pub use receiver::Receiver;
pub use sender::Sender;
pub use word_lanes::WordLanes;
