//! What every crate of the engine speaks of: names, values and fields; faults and their texts; the numbers of tasks.
//!
//! Definitions that several crates cite are in `specs/`: `Values` and `Order` for the data, `Faults` for the texts, `Often` and `Sequences` for lists.
#![tactic(auto)]

mod fault;
mod laws;
mod name;
mod task;
mod value;

pub use fault::{ComputeKind, Fault, QUERY_FILE, Why};
pub use laws::{
    equal_values_are_the_same, lists_interleave, orders_keep_how_often, things_come_by_number,
    values_are_ordered,
};
pub use name::Name;
pub use task::TaskNo;
pub use value::{ColType, Field, Value};
