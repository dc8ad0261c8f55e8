//! Columns and frames: packed columns of one type each, and frames of columns of one height, which contracts see as
//! tables of rows. What callers of frames need of the crates below is re-exported.
#![tactic(auto)]

mod cell;
mod column;
mod fields;
mod frame;
mod gathers;
mod made;
mod mismatch;
mod packed;
mod part_meta;
mod row_number;
mod schema;
mod selects;
mod stacks;
mod texts;

pub use cell::Cell;
pub use column::Column;
pub use frame::Frame;
pub use morsel_meaning::{
    ColType, ComputeKind, Fault, Field, Name, QUERY_FILE, TaskNo, Value, Why,
};
pub use morsel_outside::{FileNo, Gate, Io, IoErr, MemIo, OpenGate, SureMemIo};
pub use part_meta::PartMeta;
pub use schema::Schema;
pub use texts::Texts;
