//! A phase of a query: two nodes in a line, whose units and pipes are spawned, and who takes back what each task has ended with.
#![tactic(auto)]

mod ends;
mod line_pipe;
mod line_stage;
mod node_stage;
mod start;

pub use line_pipe::{MakesPipeTasks, PipeOrder};
pub use line_stage::{LineStage, LineTask};
pub use node_stage::NodeStage;
pub use start::{
    LineJobs, LineNodes, LinePlan, LineRooms, OpenLine, OpenNodes, StartedLine, open_line,
    start_line,
};
