//! Group-bys that are asked for, a few with answers worked out by hand, and all small tables beside a plain group-by.
mod asked;
mod grouped;
mod plain;
mod tables;
mod worked;
