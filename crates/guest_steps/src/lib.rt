//! A process on flat memory, step by step, and what each step did: its instruction, and its hart's registers before and after it.
#![tactic(auto)]

mod access;
mod flow;
mod step;
mod step_string;
mod told_step;

pub use access::{DataAccess, access_of, destination_of};
pub use flow::{Flow, flow_of};
pub use step_string::StepString;
pub use told_step::ToldStep;
