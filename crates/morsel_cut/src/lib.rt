//! Where a CSV text that comes in pieces may be cut, and how many rows whole records are.
#![tactic(auto)]

mod blocks;
mod cutter;
mod header;
mod laws;
mod lines;
pub mod masks;
mod pass;
mod pieces;
mod prefix;
mod record;
mod rows;
mod step;

pub use cutter::Cutter;
pub use header::{HeadEnd, head_end};
pub use laws::{
    a_fault_comes_again, a_text_is_cut_by_four_options, bytes_are_fed_piece_by_piece,
    rows_are_counted_as_the_grammar_says, rows_are_counted_part_by_part,
};
pub use pieces::{
    a_chunk_with_an_end_ends_a_piece, a_file_is_read_piece_by_piece,
    a_file_stops_at_a_refused_record, a_file_stops_at_an_open_end, pieces_and_rest_are_the_text,
    pieces_are_whole_records, reading_refuses_where_a_file_stops,
    reading_used_columns_refuses_where_a_file_stops, the_mark_stands_in_the_first_piece,
    the_record_under_way_begins_with_the_rest, the_rest_begins_with_no_whole_record,
    the_rest_is_one_record_at_the_end, the_used_columns_of_a_file_are_read_piece_by_piece,
};
pub use rows::rows_of;
