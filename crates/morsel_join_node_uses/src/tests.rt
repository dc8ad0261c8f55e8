//! What the node of a join answers, and where it moves.
mod jobs;
mod joins;
mod moves;
mod steps;
