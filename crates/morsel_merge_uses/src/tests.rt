//! A linearizer and a distributor as a caller has them, over lanes of one thread and between threads.
mod distribute;
mod least;
mod merge;
mod merged;
mod plain_merge;
mod plain_spread;
mod spread;
mod words;
