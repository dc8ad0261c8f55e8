//! The reader of a scan's files: it gives their rows in pieces that can be decoded one by one, in any order.
//!
//! `sources` has what a reader knows of the files, and `reader` reads them, one after the other.
#![tactic(auto)]

mod laws;
mod reader;
mod sources;

pub use laws::{
    a_new_reader_suits_its_files, a_reader_goes_on_over_the_same_files,
    a_reader_has_given_nothing_at_first,
};
pub use reader::ScanReader;
