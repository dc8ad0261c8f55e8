//! The outside: files that are opened and read, sinks that are made and written, lines that are printed; and the gate
//! that a scheduler passes.
//!
//! `Io` is what the engine asks of the outside. `MemIo` and `SureMemIo` keep it in memory; the files of the system
//! belong to the program. What contracts see of an object is one record, `Outside`.
#![tactic(auto)]

mod events;
mod gate;
mod io;
mod laws;
mod mem_io;
mod memory;
mod sure_mem_io;

pub use events::{Asked, IoEvent};
pub use gate::{Gate, OpenGate};
pub use io::{FileNo, Io, IoErr};
pub use laws::{actions_follow_one_another, events_tell_the_lengths_of_texts};
pub use mem_io::MemIo;
pub use memory::Memory;
pub use sure_mem_io::{SureMemIo, sure_never_fails};
