//! Queries made by hand and read of texts.
mod deep;
mod makers;
mod options;
mod rows;
mod show;
mod texts;
