//! The numbers of tasks.

/// The number of a task. Tasks are numbered from 1; 0 is the caller.
#[derive(Clone, Copy, Debug, PartialEq, Eq)]
pub struct TaskNo(pub u32);
