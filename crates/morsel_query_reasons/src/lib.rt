//! What is wrong with a query, told in words, and the columns that it names.
//!
//! Each call takes the tree of the query's text and puts words last into a text. It takes no part in any answer: what is
//! proved of it is that it is safe and returns.
#![tactic(auto)]

mod aggs;
mod dialect;
mod groups;
mod invalid;
mod joined;
mod keys;
mod mismatch;
mod names;
mod nearest;
mod parts;
mod scans;
mod shown;
mod table;
mod unsaid;

pub use aggs::write_sums;
pub use dialect::CsvForm;
pub use invalid::{write_columns, write_flaw_of, write_sink};
pub use keys::write_keys;
pub use mismatch::write_mismatch;
pub use names::{write_duplicate, write_no_column};
pub use nearest::write_nearest;
pub use shown::{part, show, show_name, show_record, show_value};
pub use table::{ColumnWords, CsvFile, kind_of, queried, scanned};
pub use unsaid::Unsaid;
