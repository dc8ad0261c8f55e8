//! The ends of the fields of a CSV text, found 64 bytes at a time, and what is read of the rows between them.
#![tactic(auto)]

mod fields;
mod laws;
mod look;
mod masks;
mod places;
mod rows;

pub use fields::{mark_fields, mark_rows};
pub use laws::{
    a_plain_field_is_its_bytes, a_record_is_split_at_its_marks, a_row_is_split_at_its_marks,
    a_text_of_rows_is_records_of_their_fields, marks_are_within_the_text,
    rows_are_read_by_their_marks, without_returns_each_field_is_whole,
};
