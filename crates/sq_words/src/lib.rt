//! What a command line asks for: a task with the names of its files, or what is said in its place.
#![tactic(auto)]

mod answer;
mod command;
mod options;
mod reading;
mod task;

pub use answer::Answer;
pub use reading::read_task;
pub use task::{
    CheckRequest, ExplainRequest, NewRequest, Request, ShellRequest, Source, Task, TestRequest,
    TextsRequest, TraceRequest, USUAL_ROW_NUMBERS,
};
