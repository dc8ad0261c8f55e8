//! Joins of small tables, beside a plain definition of a join.
mod cuts;
mod kinds;
mod many;
mod names;
mod plain;
mod small;
mod tables;
mod worked;
