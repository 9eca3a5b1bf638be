//! The program `paged`: its commands together, and those that take threads: what they come to, and what they print.
#![tactic(auto)]

mod machine;
mod program;
mod run_command;
mod status_lines;
mod threads_command;

pub use program::{run_paged, start};
pub use status_lines::StatusLines;
