//! Scans: what is asked of files, and the pieces of files made into the rows that were asked for.
#![tactic(auto)]

mod ahead;
mod decode_steps;
mod filter_step;
mod laws;
mod place_laws;
mod reader;
mod source;
mod source_columns;
mod source_fields;
mod source_marks;
mod spec;

pub use ahead::{
    a_greater_bound_asks_less, a_search_for_a_piece_is_in_time,
    a_search_for_a_piece_writes_nothing, reads_and_writes_are_counted_on, reads_stay_in_time,
};
pub use filter_step::FilterStep;
pub use laws::{
    a_file_is_scanned_part_by_part, a_text_has_the_rows_of_its_parts,
    a_text_is_scanned_piece_by_piece, files_are_scanned_one_after_the_other, positions_go_on,
    rows_are_gathered_part_by_part,
};
pub use place_laws::{
    a_fault_is_that_of_a_place, a_part_of_a_stretch_has_its_place,
    a_stretch_adds_the_text_of_its_rows, a_stretch_gives_the_rows_of_its_piece,
    all_places_give_all_rows, each_byte_has_its_place, first_places_give_first_rows,
    no_row_ends_up_to_a_place_with_no_more_rows, nothing_is_given_after_the_last_row,
    nothing_is_given_past_the_slice, nothing_is_given_past_the_slice_of_valid_files,
    pieces_one_after_the_other_are_the_scan, places_at_which_no_row_ends_are_of_one_record,
    places_give_part_by_part, places_give_the_rows_of_the_scan, places_give_what_the_scan_means,
    stretches_follow_one_another,
};
pub use reader::{BlockReader, RowBlock, RowReader};
pub use source::CsvSourceNode;
pub use spec::{FileScanOptions, RowIndex, ScanFormat, ScanSpec};
