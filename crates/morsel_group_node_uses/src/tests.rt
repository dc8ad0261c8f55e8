//! What the node of a group-by answers, and where it moves.
mod groups;
mod jobs;
mod moves;
mod steps;
