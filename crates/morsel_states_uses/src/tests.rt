//! Rows that are put to groups: a few, with answers worked out by hand, and drawn ones beside one accumulator for each group.
mod drawn;
mod pieces;
mod worked;
