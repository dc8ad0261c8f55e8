//! Pipes and their ports: who gives the nodes of a query the ends of their lanes; and what a query knows of its nodes.
#![tactic(auto)]

mod gathering;
mod joining;
mod node;
mod pipe;
mod ports;
mod tasks;

pub use node::{ComputeNode, Ends, PortKind, PortState};
pub use pipe::{LANE_ROOM, PhysicalPipe};
pub use ports::{RecvPort, SendPort};
