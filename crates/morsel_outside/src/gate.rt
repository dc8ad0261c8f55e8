//! The gate through which each poll of a task passes.
use morsel_meaning::TaskNo;

/// What is told of each poll of a task. It promises nothing of what it noted.
pub trait Gate {
    /// Comes before each poll of the task.
    fn enter(&self, task: TaskNo);

    /// Comes after each poll of the task.
    fn left(&self, task: TaskNo);
}

/// A gate that does nothing.
#[derive(Clone, Copy, Debug, PartialEq, Eq)]
pub struct OpenGate;

impl Gate for OpenGate {
    fn enter(&self, _task: TaskNo) {}

    fn left(&self, _task: TaskNo) {}
}
