//! CSV read into frames. Re-exports the options of `morsel_grammar` and the writer of `morsel_ndjson`.
#![tactic(auto)]

mod batch;
mod cells;
mod choice;
mod empty_lines;
mod ints;
mod marked;
mod marked_columns;
mod marked_field;
mod marked_texts;
mod parts;
mod place;
mod plain;
mod raw_field;
mod read;
mod reader;
mod room;
mod rows;
mod split;
mod text;
mod text_room;

pub use morsel_grammar::CsvOptions;
pub use morsel_ndjson::write_ndjson;
pub use place::place_of_row;
pub use plain::read_records_plainly;
pub use read::{read_records, read_records_with};
pub use room::ReadRoom;
