//! Nodes whose units make one load of each that they take, over any lanes; and a scan's source and sink as such nodes.
#![tactic(auto)]

mod load_makers;
mod maker_node;
mod scan_makers;
mod units;

pub use load_makers::{LoadMakers, Role};
pub use maker_node::MakerNode;
pub use scan_makers::{CsvSourceMakers, NDJsonSinkMakers};
pub use units::{MakerUnit, units_of};
