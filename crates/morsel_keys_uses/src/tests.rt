//! Keys and reductions of a few values, with answers worked out by hand, and of drawn values beside plain lists.
mod drawn;
mod numbers;
mod reduced;
mod rows;
mod samples;
