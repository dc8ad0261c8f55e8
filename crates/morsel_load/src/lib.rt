//! What the lanes of a query carry: morsels of rows, pieces of files, and texts of rows, each with its number.
#![tactic(auto)]

mod job;
mod linearized;
mod load;
mod morsels;
mod order;
mod source_flag;
mod source_token;
mod split;

pub use job::LoadJob;
pub use linearized::linearize;
pub use load::{Load, LoadKind};
pub use morsels::{Morsel, Stretch};
pub use source_token::SourceToken;
pub use split::{Pieces, split_to_morsels};
