//! The node of an NDJSON sink, and the writer of its text.
mod makers;
mod parts;
mod writers;
